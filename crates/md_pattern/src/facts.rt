//! The pass over the events, in order, which finds or infers the facts about each node.

ghost use Rattle.std.specs.Prelude.{◌≡◌, true, false, OnOk, map};
ghost use Rattle.std.specs.Prelude.{◌&&◌, IfOk};
ghost use Rattle.md_base.specs.NameTests.{is_table};
ghost use Rattle.md_pattern.specs.Facts as spec;
ghost use Rattle.md_pattern.specs.Ending.{exits_line_ending};

mod following;
mod list;
mod nodes;

use self::following::{follow, follow_common, follow_leaf, is_common};
pub use self::list::FactList;
use self::nodes::{common_read_at, document_node, push_opened, read_at_of};
use crate::columns::Columns;
use crate::seeking::Sought;
use crate::summary::{Looseness, Summary, summary_looseness};
use md_base::name_tests::is_link_definition;
use md_base::{AlignKind, Event, Kind, Name};
use std::alloc::{AllocError, Global};
use std::marker::Model;

/// The fact at an event: at the entry of a node that has ended, all that is known about the node.
/// At the exit, and at the entry before the node has ended, only the partner, which is 0 for an
/// open node; later, at the exit of a link or an image, also the number of its definition.
#[derive(Clone, Copy)]
pub struct Fact {
    /// The index of the other event of the node.
    pub partner: usize,
    /// The index of the entry of the node that is read: for an item its last contributing child,
    /// for another node what its name reads; 0 if there is none. For a table, its number among the
    /// tables.
    pub read_at: usize,
    /// Whether its children make the node loose, as a list or as an item.
    pub looseness: Looseness,
}

/// An open node.
#[derive(Clone, Copy)]
pub struct OpenNode {
    /// The index of the event that enters it.
    pub entry: usize,
    /// The entry of its last contributing child, 0 if there is none.
    pub contributing: usize,
    /// The state of the search on the spine that its children belong to.
    pub sought: Sought,
    /// The looseness and the alignment by its children so far.
    pub summary: Summary,
    /// Whether a value in it belongs to the table that contains it.
    pub collects: bool,
}

/// The fact at each event, the alignments of the tables and the entries of the definitions, both in
/// the order of their exits, the exit of the first line ending, and the number of events visited.
#[derive(Drop)]
pub struct Facts {
    /// The fact at each event, in the order of the events.
    pub facts: FactList,
    /// The alignments of each table's columns, in the order of the tables' exits.
    pub tables: Vec<Vec<AlignKind>>,
    /// The indices of the events that enter the definitions, in the order of their exits.
    pub definitions: Vec<usize>,
    /// The index of the event that exits the first line ending, blank or not; None if there is
    /// none.
    pub first_ending: Option<usize>,
    /// The number of events visited to find all this.
    pub visits: usize,
}

/// The facts at the events so far.
#[derive(Drop)]
pub struct Pass {
    facts: FactList,
    ended: Ended,
    /// The document itself, which contains all open nodes.
    document: OpenNode,
    /// The open nodes, the innermost last.
    open_nodes: Vec<OpenNode>,
}

/// The results of the nodes that have ended.
#[derive(Drop)]
pub struct Ended {
    /// The alignments of the tables that have ended, and of the open tables.
    pub columns: Columns,
    /// The entries of the definitions.
    pub definitions: Vec<usize>,
}

impl Model for Pass {
    ghost use Rattle.md_pattern.specs.Facts.{PassState, opens, next_outer, others_outer};

    ghost Value = { PassState };

    ghost view = { λ p. record {
      facts = p.facts;
      columns = p.ended.columns;
      definitions = p.ended.definitions.items;
      here = next_outer (opens p.open_nodes.items p.document);
      outer = others_outer (opens p.open_nodes.items p.document);
    } };
}

impl Pass {
    /// The state before the first of `events` events.
    ///
    /// # Errors
    ///
    /// `AllocError`, only if memory runs out.
    pub fn new(alloc: Global, events: usize) -> Result<Pass, AllocError>
        ensures { IfOk result (λ pass. pass ≡ spec.pass_beginning) }
    {
        Ok(Pass {
            facts: FactList::with_capacity(alloc, events)?,
            ended: Ended {
                columns: Columns::new(alloc),
                definitions: Vec::new(alloc),
            },
            document: document_node(),
            open_nodes: Vec::new(alloc),
        })
    }

    /// Handles the next event.
    ///
    /// # Errors
    ///
    /// `AllocError`, only if memory runs out.
    #[inline(always)]
    pub fn find(&mut self, alloc: Global, event: &Event) -> Result<(), AllocError>
        ensures { OnOk result (self.new ≡ spec.passed event.now.kind event.now.name self.old) }
    {
        match event.kind {
            Kind::Enter => self.enter(event.name),
            Kind::Exit => self.exit(alloc, event.name),
        }
    }

    /// Handles a node without children, which exits right after its entry; a table has children.
    ///
    /// # Errors
    ///
    /// `AllocError`, only if memory runs out.
    #[inline(always)]
    pub fn leaf(&mut self, alloc: Global, name: Name) -> Result<(), AllocError>
        requires { is_table name ≡ false }
        ensures { OnOk result (self.new ≡ spec.passed_exit name (spec.passed_entry name self.old)) }
    {
        let entry = self.facts.push_leaf()?;
        match self.open_nodes.last_mut() {
            Some(here) => follow_leaf(alloc, here, &mut self.ended, name, entry),
            None => follow_leaf(alloc, &mut self.document, &mut self.ended, name, entry),
        }
    }

    /// Handles the entry of a node.
    #[inline(always)]
    fn enter(&mut self, name: Name) -> Result<(), AllocError>
        ensures { OnOk result (self.new ≡ spec.passed_entry name self.old) }
    {
        let entry = self.facts.push_open()?;
        self.ended.columns.enter(name)?;
        push_opened(&mut self.open_nodes, &self.document, entry, name)
    }

    /// Handles the exit of a node.
    #[inline(always)]
    fn exit(&mut self, alloc: Global, name: Name) -> Result<(), AllocError>
        ensures { OnOk result (self.new ≡ spec.passed_exit name self.old) }
    {
        // Most nodes with children have a common name, and only this test depends on it.
        if is_common(name) {
            self.exit_common(name)
        } else {
            self.exit_rare(alloc, name)
        }
    }

    /// The same, for a common name. Such a node changes no columns and no definitions.
    #[inline(always)]
    fn exit_common(&mut self, name: Name) -> Result<(), AllocError>
        requires { spec.is_common name ≡ true }
        ensures { OnOk result (self.new ≡ spec.passed_exit name self.old) }
    {
        let child = leave_innermost(&mut self.open_nodes, &mut self.document);
        let read_at = common_read_at(name, &child);
        self.facts
            .close(child.entry, read_at, summary_looseness(child.summary))?;
        match self.open_nodes.last_mut() {
            Some(here) => {
                follow_common(here, name, &child);
                Ok(())
            }
            None => {
                follow_common(&mut self.document, name, &child);
                Ok(())
            }
        }
    }

    /// The same, for any name.
    #[inline(always)]
    fn exit_rare(&mut self, alloc: Global, name: Name) -> Result<(), AllocError>
        ensures { OnOk result (self.new ≡ spec.passed_exit name self.old) }
    {
        let own = leave_innermost(&mut self.open_nodes, &mut self.document);
        let read_at = read_at_of(name, self.ended.columns.count(), &own);
        self.facts
            .close(own.entry, read_at, summary_looseness(own.summary))?;
        match self.open_nodes.last_mut() {
            Some(here) => follow(alloc, here, &mut self.ended, name, &own),
            None => follow(alloc, &mut self.document, &mut self.ended, name, &own),
        }
    }

    /// Returns the fact at each event.
    pub fn into_facts(self, first_ending: Option<usize>, visits: usize) -> Facts
        ensures facts { result.facts ≡ self.facts }
        ensures tables { map (λ t. t.items) result.tables.items ≡ self.columns.tables }
        ensures definitions { result.definitions.items ≡ self.definitions }
        ensures first_ending { result.first_ending ≡ first_ending }
        ensures visits { result.visits ≡ visits }
    {
        let Pass {
            facts,
            ended,
            document: _,
            open_nodes: _,
        } = self;
        let Ended {
            columns,
            definitions,
        } = ended;
        Facts {
            facts,
            tables: columns.into_tables(),
            definitions,
            first_ending,
            visits,
        }
    }
}

/// The innermost open node, or the document.
#[inline(always)]
fn innermost<'a>(open_nodes: &'a [OpenNode], document: &'a OpenNode) -> &'a OpenNode
    ensures { result.now ≡ spec.next_outer (spec.opens open_nodes.entry.now document.entry.now) }
{
    match open_nodes.last() {
        Some(here) => here,
        None => document,
    }
}

/// Pops the innermost open node; if none is left, resets the document.
#[inline(always)]
fn leave_innermost(open_nodes: &mut Vec<OpenNode>, document: &mut OpenNode) -> OpenNode
    ensures own { result ≡ spec.next_outer (spec.opens open_nodes.old.items document.old) }
    ensures left { spec.opens open_nodes.new.items document.new
        ≡ spec.grounded (spec.others_outer (spec.opens open_nodes.old.items document.old)) }
{
    match open_nodes.pop() {
        Some(own) => own,
        None => {
            let own = *document;
            *document = document_node();
            own
        }
    }
}

/// Whether an event exits a line ending, blank or not.
#[inline(always)]
pub fn exits_line_ending(event: &Event) -> bool
    ensures { result ≡ exits_line_ending event.now }
{
    matches!(event.kind, Kind::Exit)
        && matches!(event.name, Name::LineEnding | Name::BlankLineEnding)
}

/// Adds the entry of a node that exits, if it is a definition.
fn define(definitions: &mut Vec<usize>, name: Name, entry: usize) -> Result<(), AllocError>
    ensures { OnOk result
        (definitions.new.items ≡ spec.definitions_with name entry definitions.old.items) }
{
    if is_link_definition(name) {
        definitions.push(entry)?;
    }
    Ok(())
}
