//! Reads events, each by the walk and by the pass that finds or infers facts.

ghost use Rattle.std.specs.Prelude.{◌≡◌, ◌<◌, ◌≤◌, ◌+◌, true, suc, None, Some, slice_get, length};
ghost use Rattle.std.specs.Prelude.{IfOk, OnOk, IfErr, IfSome};
ghost use Rattle.md_base.specs.declared.event.Event.{Event};
ghost use Rattle.md_base.specs.declared.event.Kind.TheVariants as kind;
ghost use Rattle.md_pattern.specs.Ending.{ending_after};
ghost use Rattle.md_tree.specs.Grammar.{input_of};
ghost use Rattle.md_tree.specs.Refusal.{IsRefusal};
ghost use Rattle.md_tree.specs.Reader.{IsLeaf, HasRead};

use crate::input::Input;
use crate::rule::CompileError;
use crate::walk::Walk;
use md_base::{Event, Kind, Name, is_same_name};
use md_pattern::{Pass, exits_line_ending};
use std::alloc::AllocError;

/// The state after the events so far.
#[derive(Drop)]
pub struct Reader {
    /// The state of the walk.
    pub walk: Walk,
    /// The facts that the pass has found.
    pub pass: Pass,
    /// The exit of the first line ending.
    pub first_ending: Option<usize>,
}

impl Reader {
    /// The state before any event.
    ///
    /// # Errors
    ///
    /// `AllocError`, only if memory runs out.
    pub fn new(input: Input) -> Result<Reader, AllocError>
        ensures { IfOk result
            (λ reader. HasRead input.entry.bytes.now input.entry.names.now
            input.entry.events.now 0 reader) }
    {
        Ok(Reader {
            walk: Walk::new(input.alloc),
            pass: Pass::new(input.alloc, input.events.len())?,
            first_ending: None,
        })
    }

    /// Reads the event at an index, and also the next one if they enter and exit a node without
    /// children. Returns the number of events that it read.
    ///
    /// # Errors
    ///
    /// `CompileError::Memory` if memory runs out, and `CompileError::Event` if an event is refused:
    /// with the index of that event, and the rule that it breaks.
    #[inline(always)]
    pub fn advance(
        &mut self,
        input: Input,
        index: usize,
        event: Event,
    ) -> Result<usize, CompileError>
        requires here { slice_get input.events.now index ≡ Some event }
        requires before { HasRead input.bytes.now input.names.now
            input.events.now index self.old }
        ensures read { IfOk result
            (λ count. HasRead input.entry.bytes.now input.entry.names.now
            input.entry.events.now (index + count) self.new) }
        ensures counted { IfOk result
            (λ count. (0 < count) × (index + count ≤ length input.entry.events.now)) }
        ensures refused { IfErr result
            (IsRefusal (input_of input.entry.events.now input.entry.bytes.now
            input.entry.names.now)) }
    {
        match own_exit(input.events, index, &event) {
            Some(exit) => {
                self.read_leaf(input, index, event, exit)?;
                Ok(2)
            }
            None => {
                self.read(input, index, event)?;
                Ok(1)
            }
        }
    }

    /// Reads the event at an index.
    fn read(&mut self, input: Input, index: usize, event: Event) -> Result<(), CompileError>
        requires here { slice_get input.events.now index ≡ Some event }
        requires before { HasRead input.bytes.now input.names.now
            input.events.now index self.old }
        ensures read { OnOk result
            (HasRead input.entry.bytes.now input.entry.names.now input.entry.events.now
            (suc index) self.new) }
        ensures refused { IfErr result
            (IsRefusal (input_of input.entry.events.now input.entry.bytes.now
            input.entry.names.now)) }
    {
        // Many nodes have such a name, so it is written here as a constant, as for leaves.
        if let Name::Other(number) = event.name {
            return self.read_other(input, index, with_name(event, Name::Other(number)));
        }
        self.walk.step(input, index, &event)?;
        self.pass.find(input.alloc, &event)?;
        note_ending(&mut self.first_ending, index, &event);
        Ok(())
    }

    /// The same for an event whose name has no meaning.
    fn read_other(&mut self, input: Input, index: usize, event: Event) -> Result<(), CompileError>
        requires here { slice_get input.events.now index ≡ Some event }
        requires before { HasRead input.bytes.now input.names.now input.events.now
            index self.old }
        ensures read { OnOk result
            (HasRead input.entry.bytes.now input.entry.names.now input.entry.events.now
            (suc index) self.new) }
        ensures refused { IfErr result
            (IsRefusal (input_of input.entry.events.now input.entry.bytes.now
            input.entry.names.now)) }
    {
        self.walk.step(input, index, &event)?;
        self.pass.find(input.alloc, &event)?;
        note_ending(&mut self.first_ending, index, &event);
        Ok(())
    }

    /// Reads the two events of a node without children, the first of which has this index.
    #[inline(always)]
    fn read_leaf(
        &mut self,
        input: Input,
        index: usize,
        event: Event,
        exit: &Event,
    ) -> Result<(), CompileError>
        requires here { slice_get input.events.now index ≡ Some event }
        requires after { slice_get input.events.now (suc index) ≡ Some exit.now }
        requires leaf { IsLeaf event exit.now }
        requires before { HasRead input.bytes.now input.names.now
            input.events.now index self.old }
        ensures read { OnOk result
            (HasRead input.entry.bytes.now input.entry.names.now input.entry.events.now
            (suc (suc index)) self.new) }
        ensures refused { IfErr result
            (IsRefusal (input_of input.entry.events.now input.entry.bytes.now
            input.entry.names.now)) }
    {
        // Most leaves have one of these names. A name that is written here lets the compiler
        // compute at build time what depends on the name.
        match event.name {
            Name::Data => self.read_named(input, index, with_name(event, Name::Data), exit),
            Name::LineEnding => {
                self.read_named(input, index, with_name(event, Name::LineEnding), exit)
            }
            Name::BlankLineEnding => {
                self.read_named(input, index, with_name(event, Name::BlankLineEnding), exit)
            }
            Name::SpaceOrTab => {
                self.read_named(input, index, with_name(event, Name::SpaceOrTab), exit)
            }
            Name::Other(number) => {
                self.read_named(input, index, with_name(event, Name::Other(number)), exit)
            }
            _ => self.read_named(input, index, event, exit),
        }
    }

    /// The same, for a name that may be a constant at the call.
    #[inline(always)]
    fn read_named(
        &mut self,
        input: Input,
        index: usize,
        event: Event,
        exit: &Event,
    ) -> Result<(), CompileError>
        requires here { slice_get input.events.now index ≡ Some event }
        requires after { slice_get input.events.now (suc index) ≡ Some exit.now }
        requires leaf { IsLeaf event exit.now }
        requires before { HasRead input.bytes.now input.names.now
            input.events.now index self.old }
        ensures read { OnOk result
            (HasRead input.entry.bytes.now input.entry.names.now input.entry.events.now
            (suc (suc index)) self.new) }
        ensures refused { IfErr result
            (IsRefusal (input_of input.entry.events.now input.entry.bytes.now
            input.entry.names.now)) }
    {
        self.walk.leaf(input, index, event.name)?;
        self.pass.leaf(input.alloc, event.name)?;
        note_ending(&mut self.first_ending, index + 1, exit);
        Ok(())
    }
}

/// An event with this name, which may be a constant at the call.
#[inline(always)]
fn with_name(event: Event, name: Name) -> Event
    ensures { name ≡ event.name → result ≡ event }
{
    Event {
        kind: event.kind,
        name,
        point: event.point,
    }
}

/// Records the first line ending, if it is the event at an index.
#[inline(always)]
fn note_ending(first: &mut Option<usize>, index: usize, event: &Event)
    ensures { first.new ≡ ending_after first.old index event.now }
{
    if first.is_none() && exits_line_ending(event) {
        *first = Some(index);
    }
}

/// The event after the one at an index, if the two enter and exit a node without children.
fn own_exit<'a>(events: &'a [Event], index: usize, event: &Event) -> Option<&'a Event>
    requires { index < length events.now }
    ensures after { IfSome result (λ exit. slice_get events.entry.now (suc index) ≡ Some exit.now) }
    ensures leaf { IfSome result (λ exit. IsLeaf event.entry.now exit.now) }
{
    if matches!(event.kind, Kind::Exit) {
        return None;
    }
    // Slicing first computes the address only once.
    let exit = events.get(index..)?.get(1)?;
    if is_exit_of(exit, event) {
        Some(exit)
    } else {
        None
    }
}

/// Whether an event exits a node with the name of another event.
fn is_exit_of(exit: &Event, event: &Event) -> bool
    ensures { result ≡ true → (exit.now.kind ≡ kind.Exit) × (event.now.name ≡ exit.now.name) }
{
    matches!(exit.kind, Kind::Exit) && is_same_name(event.name, exit.name)
}
