//! The walk over the events. It enters and exits nodes, and refuses an event that breaks a rule.

ghost use Rattle.std.specs.Prelude.{◌≡◌, ◌∷◌, ◌++◌, [], true, false, Err};
ghost use Rattle.std.specs.Prelude.{OnOk, IfOk, reverse};
ghost use Rattle.md_pattern.specs.declared.kinds.Reading.TheVariants.{Free};
ghost use Rattle.md_tree.specs.declared.open_nodes.Aim.TheVariants.{Missing};
ghost use Rattle.md_tree.specs.declared.rule.CompileError.TheVariants as error;
ghost use Rattle.md_tree.specs.Walk.{target_of, targets_around, misplaced};

mod leaving;

use crate::input::{Input, place_at};
use crate::judge::read_node;
use crate::mention::Mentioned;
use crate::open_nodes::{Aim, Open, Outer};
use crate::rule::{CompileError, Rule};
use md_base::{Event, Kind, Name};
use md_pattern::{Reading, Role, SpineState, Standing, Symbol, standing_of};
use std::alloc::{AllocError, Global};

/// The state of the walk.
#[derive(Drop)]
pub struct Walk {
    /// The place on the spine that the next event belongs to.
    pub place: SpineState,
    /// Its last symbol.
    pub before: Option<Symbol>,
    /// Its target so far.
    pub target: Aim,
    /// The open nodes, the innermost last.
    pub open_nodes: Vec<Open>,
    /// The targets of their parents' spines that have one, that of the innermost last.
    pub targets: Vec<Aim>,
    /// The mentions of the nodes that have ended.
    pub mentions: Vec<Mentioned>,
}

impl Walk {
    ghost use Rattle.std.specs.Prelude.{◌≡◌, ◌<◌, ◌+◌, List, suc, true, false, None, Some, length};
    ghost use Rattle.std.specs.Prelude.{IfErr, OnOk};
    ghost use Rattle.md_base.specs.NameTests.{is_table};
    ghost use Rattle.md_base.specs.declared.event.Event.{Event};
    ghost use Rattle.md_base.specs.declared.event.Kind.TheVariants as kind;
    ghost use Rattle.md_tree.specs.Machine.{Steps, Enters, after_entry};
    ghost use Rattle.md_tree.specs.Machine.{beginning};
    ghost use Rattle.md_tree.specs.declared.open_nodes.Aim.TheVariants.{Missing};
    ghost use Rattle.md_tree.specs.declared.rule.CompileError.TheVariants.{Memory};
    ghost use Rattle.md_tree.specs.Walk.{point_at, outer_seen};
    ghost use Rattle.md_tree.specs.Walk.{course_of, entered_at, Passes};
    ghost use Rattle.md_tree.specs.Walk.{Unbroken, IsStop, IsStopAtLeaf};

    /// The state before any event.
    pub fn new(alloc: Global) -> Walk
        ensures { (events : List Event) → course_of events 0 result ≡ beginning }
    {
        Walk {
            place: SpineState::start(Role::Flow),
            before: None,
            target: Aim::Missing,
            open_nodes: Vec::new(alloc),
            targets: Vec::new(alloc),
            mentions: Vec::new(alloc),
        }
    }

    /// Reads the event at this index.
    ///
    /// # Errors
    ///
    /// `CompileError::Memory` if memory runs out, and `CompileError::Event` with this index and a
    /// rule: `Rule::Mdx` if the event enters a node of MDX, `Rule::Order` if no other node may be
    /// entered there or none of this name may end, and any other rule if the node that ends breaks
    /// it.
    #[inline(always)]
    pub fn step(&mut self, input: Input, index: usize, event: &Event) -> Result<(), CompileError>
        requires { event.now.point ≡ point_at input.events.now index }
        ensures ok { OnOk result
            (Steps (Unbroken input.entry.bytes.now input.entry.names.now) event.now
            (course_of input.entry.events.now index self.old)
            (course_of input.entry.events.now (suc index) self.new)) }
        ensures refused { IfErr result
            (IsStop input.entry.bytes.now input.entry.names.now
            index event.now.kind event.now.name event.now.point
            (course_of input.entry.events.now index self.old)) }
    {
        match event.kind {
            Kind::Enter => self.enter(input, index, event.name),
            Kind::Exit => self.exit(input, index, event.name),
        }
    }

    /// Enters a node.
    #[inline(always)]
    fn enter(&mut self, input: Input, index: usize, name: Name) -> Result<(), CompileError>
        ensures ok { OnOk result
            (Enters name (point_at input.entry.events.now index)
            (course_of input.entry.events.now index self.old)
            (course_of input.entry.events.now (suc index) self.new)) }
        ensures refused { IfErr result
            (IsStop input.entry.bytes.now input.entry.names.now index kind.Enter name
            (point_at input.entry.events.now index)
            (course_of input.entry.events.now index self.old)) }
    {
        if !self.place.may_hold() {
            return refuse(index, misplaced(name));
        }
        match standing_of(name) {
            Standing::Mdx => refuse(index, Rule::Mdx),
            Standing::Through => {
                let node = Open {
                    entry: index,
                    name,
                    outer: Outer {
                        place: self.place,
                        last: None,
                        before: None,
                        reading: Reading::Free,
                    },
                    stands: false,
                    aimed: false,
                };
                push_open(&mut self.open_nodes, node)?;
                Ok(())
            }
            Standing::Space => {
                let outer = Outer {
                    place: self.place,
                    last: self.before,
                    before: self.before,
                    reading: Reading::Free,
                };
                self.open(index, name, Role::Childless, outer)
            }
            Standing::Solid(symbol, usual, reading) => {
                let Some(place) = self.place.after(symbol) else {
                    return refuse(index, Rule::Order);
                };
                let role = self.place.role_inside(self.before, usual);
                let outer = Outer {
                    place,
                    last: Some(symbol),
                    before: self.before,
                    reading,
                };
                self.open(index, name, role, outer)
            }
        }
    }

    /// Begins the children of a node that is entered at an index.
    #[inline(always)]
    fn open(
        &mut self,
        index: usize,
        name: Name,
        role: Role,
        outer: Outer,
    ) -> Result<(), CompileError>
        ensures ok { OnOk result
            ((events : List Event) → course_of events (suc index) self.new
            ≡ after_entry (entered_at role (outer_seen events self.old.target outer)) name
            (point_at events index) (course_of events index self.old)) }
        ensures memory { IfErr result (λ error. error ≡ Memory) }
    {
        let aimed = put_aside(&mut self.target, &mut self.targets)?;
        let node = Open {
            entry: index,
            name,
            outer,
            stands: true,
            aimed,
        };
        push_open(&mut self.open_nodes, node)?;
        self.place = SpineState::start(role);
        self.before = None;
        Ok(())
    }

    /// Enters a node at this index, and exits it at the next one.
    ///
    /// # Errors
    ///
    /// The errors of `step`: with this index if the entry is refused, and with the next one if the
    /// exit is.
    #[inline(always)]
    pub fn leaf(&mut self, input: Input, index: usize, name: Name) -> Result<(), CompileError>
        requires { index + 1 < length input.events.now }
        ensures ok { OnOk result
            (Passes (Unbroken input.entry.bytes.now input.entry.names.now) name
            (point_at input.entry.events.now index) (point_at input.entry.events.now (suc index))
            (course_of input.entry.events.now index self.old)
            (course_of input.entry.events.now (suc (suc index)) self.new)) }
        ensures refused { IfErr result
            (IsStopAtLeaf input.entry.bytes.now input.entry.names.now index name
            (point_at input.entry.events.now index) (point_at input.entry.events.now (suc index))
            (course_of input.entry.events.now index self.old)) }
        ensures no_table { OnOk result (is_table name ≡ false) }
    {
        if !self.place.may_hold() {
            return refuse(index, misplaced(name));
        }
        match standing_of(name) {
            Standing::Mdx => refuse(index, misplaced(name)),
            Standing::Through | Standing::Space => Ok(()),
            Standing::Solid(symbol, usual, reading) => {
                let Some(place) = self.place.after(symbol) else {
                    return refuse(index, Rule::Order);
                };
                if !self.place.can_hold_empty(self.before, usual) {
                    return refuse(index + 1, Rule::Order);
                }
                let outer = Outer {
                    place,
                    last: Some(symbol),
                    before: self.before,
                    reading,
                };
                let exit = index + 1;
                if let Some(rule) = read_node(input, &outer, index, exit, &mut self.target)? {
                    return refuse(exit, rule);
                }
                self.place = place;
                self.before = Some(symbol);
                Ok(())
            }
        }
    }
}

/// Adds an open node. Usually there is capacity, and no call is made.
#[inline(always)]
fn push_open(open_nodes: &mut Vec<Open>, node: Open) -> Result<(), AllocError>
    ensures { OnOk result (open_nodes.new.items ≡ open_nodes.old.items ++ node ∷ []) }
{
    if open_nodes.len() == open_nodes.capacity() {
        open_nodes.reserve(1)?;
    }
    open_nodes.push_reserved(node);
    Ok(())
}

/// Whether nothing is read of a node, and neither it nor its parent's spine has a target.
#[inline(always)]
fn is_plain(open_node: &Open, target: Aim) -> bool
    ensures { result ≡ true → (open_node.now.outer.reading ≡ Free) × (open_node.now.aimed ≡ false)
        × (target ≡ Missing) }
{
    matches!(open_node.outer.reading, Reading::Free)
        && !open_node.aimed
        && matches!(target, Aim::Missing)
}

/// Saves the target of the parent's spine when a node is entered, if there is one; returns whether
/// there is.
#[inline(always)]
fn put_aside(target: &mut Aim, targets: &mut Vec<Aim>) -> Result<bool, AllocError>
    ensures begins { OnOk result (target.new ≡ Missing) }
    ensures aside { IfOk result
        (λ aimed. target_of aimed (reverse targets.new.items) ≡ target.old) }
    ensures around { IfOk result
        (λ aimed. targets_around aimed (reverse targets.new.items) ≡ reverse targets.old.items) }
{
    if matches!(*target, Aim::Missing) {
        return Ok(false);
    }
    targets.push(*target)?;
    *target = Aim::Missing;
    Ok(true)
}

/// Refuses the event at an index.
#[inline(always)]
fn refuse(index: usize, rule: Rule) -> Result<(), CompileError>
    ensures { result ≡ Err (error.Event index rule) }
{
    Err(CompileError::Event { index, rule })
}

/// The rule that a node breaks at a place where no node may be.
fn misplaced(name: Name) -> Rule
    ensures { result ≡ misplaced name }
{
    match standing_of(name) {
        Standing::Mdx => Rule::Mdx,
        _ => Rule::Order,
    }
}
