//! Events that have passed the check, and the facts about them.

ghost use Rattle.std.specs.Prelude.{◌≡◌, ◌↔◌, ◌<◌, Some, length, map};
ghost use Rattle.std.specs.Prelude.{slice_get, IsTrue};
ghost use Rattle.md_base.specs.declared.event.Event.{Event};
ghost use Rattle.md_pattern.specs.declared.facts.Fact.{Fact};
ghost use Rattle.md_tree.specs.Found.{index_if};
ghost use Rattle.md_tree.specs.Numbers.{place_of};

mod nodes;
mod read;

use crate::texts::Texts;
use md_base::{AlignKind, Event, Name, References};
use md_pattern::{Fact, FactList, Facts};
use std::alloc::{AllocError, Global};
use std::marker::Model;

/// Events, a document's bytes and a table of names that have passed the check: the events are the
/// flattening of a document of the grammar over the bytes and names.
#[derive(Drop)]
pub struct Checked<'a> {
    events: &'a [Event],
    /// The document's bytes, with the valid text at their beginning.
    texts: Texts<'a>,
    names: References<'a>,
    facts: FactList,
    /// The alignments of each table.
    tables: Vec<Vec<AlignKind>>,
    /// The entry of each definition.
    definitions: Vec<usize>,
    /// The exit of the first line ending.
    first_ending: Option<usize>,
    /// How many events the check visited.
    visits: usize,
}

impl<'a> Model for Checked<'a> {
    ghost use Rattle.md_tree.specs.Grammar.{Handed};

    ghost Value = { Handed };

    ghost use Rattle.md_tree.specs.Checked.{handed_of, IsKept};

    ghost view = { handed_of };

    ghost invariant = { IsKept };
}

impl<'a> Checked<'a> {
    ghost use Rattle.std.specs.Prelude.{◌≡◌, suc, map, option_map, string_bytes, IfOk};
    ghost use Rattle.md_tree.specs.Texts.{EntersAt};
    ghost use Rattle.md_base.specs.Reference.{name_table, decoded};
    ghost use Rattle.md_tree.specs.Grammar.{IsChecked, input_of};
    ghost use Rattle.md_base.specs.Tree.{Forest};
    ghost use Rattle.md_pattern.specs.Partners.{last_contributing_at};
    ghost use Rattle.md_tree.specs.Indices.{AreDefinitions};
    ghost use Rattle.md_pattern.specs.Facts.{tables_at, definitions_at};
    ghost use Rattle.md_pattern.specs.Ending.{first_index};
    ghost use Rattle.std.specs.List.{All};
    ghost use Rattle.md_tree.specs.Entered.{IsEnteredAt, EntersNode};
    ghost use Rattle.md_tree.specs.Found.{EntersSome, IsFactAt};
    ghost use Rattle.md_tree.specs.Numbers.{AreNumbered, ExitsOf, is_of_definitions};
    ghost use Rattle.md_tree.specs.Numbers.{IsDefinitionFor};
    ghost use Rattle.md_base.specs.declared.event.Name.TheVariants as name;

    /// Collects the checked input and the facts about its events.
    pub(crate) fn new(
        events: &'a [Event],
        texts: Texts<'a>,
        names: References<'a>,
        found: Facts,
    ) -> Checked<'a>
        requires grammatical { IsChecked (input_of events.now texts names) }
        requires facts { AreNumbered (input_of events.now texts names) found.facts }
        requires tables { map (λ t. t.items) found.tables.items ≡ tables_at events.now }
        requires definitions { found.definitions.items ≡ definitions_at events.now }
        requires first_ending { found.first_ending ≡ first_index events.now }
        requires visits { found.visits ≡ length events.now }
        ensures { result ≡ input_of events.entry.now texts.entry names.entry }
    {
        let Facts {
            facts,
            tables,
            definitions,
            first_ending,
            visits,
        } = found;
        Checked {
            events,
            texts,
            names,
            facts,
            tables,
            definitions,
            first_ending,
            visits,
        }
    }

    /// The events.
    ///
    /// # Examples
    ///
    /// ```
    /// let checked = check(alloc, &events, bytes, names)?;
    /// assert_eq!(checked.events(), events.as_slice());
    /// ```
    pub fn events(&self) -> &'a [Event]
        ensures events { result.now ≡ self.now.events }
        ensures grammatical { IsChecked self.now }
    {
        self.events
    }

    /// The document's bytes.
    ///
    /// # Examples
    ///
    /// ```
    /// let checked = check(alloc, &events, b"***", names)?;
    /// assert_eq!(checked.bytes(), b"***".as_slice());
    /// ```
    pub fn bytes(&self) -> &'a [u8]
        ensures { result.now ≡ self.now.bytes }
    {
        self.texts.bytes()
    }

    /// The names of character references, each with its text.
    ///
    /// # Examples
    ///
    /// ```
    /// let names = [("amp", "&")];
    /// let checked = check(alloc, &events, bytes, &names)?;
    /// assert_eq!(checked.names(), names.as_slice());
    /// ```
    pub fn names(&self) -> &'a [(&'a str, &'a str)]
        ensures { name_table result.now ≡ self.now.names }
    {
        self.names.listed()
    }

    /// Decodes a character reference as [`md_base::decode_character_reference`] does by the names.
    ///
    /// # Errors
    ///
    /// Returns an error only if memory runs out.
    pub fn decode(
        &self,
        alloc: Global,
        value: &str,
        marker: u8,
    ) -> Result<Option<String>, AllocError>
        ensures { IfOk result
            (λ text. option_map string_bytes text ≡ decoded self.now.names marker value.now) }
    {
        self.names.decode(alloc, value, marker)
    }

    /// The index of the event that exits the first line ending, blank or not, or None if there is
    /// none.
    ///
    /// # Examples
    ///
    /// ```
    /// // Where two events are a thematic break, and the next two a line ending:
    /// assert_eq!(checked.first_ending(), Some(3));
    /// ```
    pub fn first_ending(&self) -> Option<usize>
        ensures index { result ≡ first_index self.now.events }
        ensures grammatical { IsChecked self.now }
    {
        self.first_ending
    }

    /// How many events the check visited: each one once.
    ///
    /// # Examples
    ///
    /// ```
    /// // Where two events are a thematic break:
    /// assert_eq!(checked.visits(), 2);
    /// ```
    pub fn visits(&self) -> usize
        ensures { result ≡ length self.now.events }
    {
        self.visits
    }

    /// The indices of the events that enter definitions, in the order of their exits.
    ///
    /// # Examples
    ///
    /// ```
    /// // Of `[a]: b`, where the first event enters the definition:
    /// assert_eq!(checked.definitions(), [0].as_slice());
    /// ```
    pub fn definitions(&self) -> &[usize]
        ensures definitions { AreDefinitions self.now result.now }
        ensures entered { All (λ index. EntersAt self.now.events index name.Definition) result.now }
    {
        self.definitions.as_slice()
    }

    /// Returns the number of the definition that a link or an image refers to: the first one with
    /// its identifier, counted from 0 in the order of their exits. The event at the index exits the
    /// link or the image. None if it has a resource.
    ///
    /// # Examples
    ///
    /// ```
    /// // Of `[a]: b`, a line ending and `[A]`, where 30 exits the link:
    /// assert_eq!(checked.definition_of(30), Some(0));
    /// ```
    pub fn definition_of(&self, index: usize) -> Option<usize>
        requires { ExitsOf is_of_definitions self.now.events index }
        ensures { IsDefinitionFor self.now index result }
    {
        place_of(fact_at(&self.facts, index).read_at)
    }

    /// Returns the index of the event that enters the last contributing child of an item, or None
    /// if there is none. The event at the index enters the item. Line endings, spaces or tabs,
    /// prefixes of block quotes, and definitions don't contribute.
    ///
    /// # Examples
    ///
    /// ```
    /// // Of `* a`, where 0 enters the list, 1 its item, 2 the prefix of that, and 6 the paragraph:
    /// assert_eq!(checked.last_contributing(1), Some(6));
    /// ```
    pub fn last_contributing(&self, index: usize) -> Option<usize>
        requires { EntersAt self.now.events index name.ListItem }
        ensures entered { EntersNode self.now index }
        ensures contributing { (children : Forest) → IsEnteredAt self.now index children
            → result ≡ last_contributing_at (suc index) children }
    {
        index_if(self.fact(index).read_at)
    }

    /// The facts about the node that the event at the index enters.
    pub(crate) fn fact(&self, index: usize) -> Fact
        requires { EntersSome self.now.events index }
        ensures grammatical { IsChecked self.now }
        ensures entered { EntersNode self.now index }
        ensures fact { IsFactAt self.now index result }
    {
        fact_at(&self.facts, index)
    }
}

/// The fact at the index. It isn't inlined, since few events need it, and so its callers stay
/// short.
#[inline(never)]
fn fact_at(facts: &FactList, index: usize) -> Fact
    requires { index < length facts.now }
    ensures { slice_get facts.now index ≡ Some result }
{
    facts.get(index).unwrap()
}

/// The index that a stored number encodes: one less, and None for 0.
fn place_of(number: usize) -> Option<usize>
    ensures { result ≡ place_of number }
{
    number.checked_sub(1)
}

/// Converts 0 to None.
fn index_if(index: usize) -> Option<usize>
    ensures { result ≡ index_if index }
{
    if index == 0 { None } else { Some(index) }
}
