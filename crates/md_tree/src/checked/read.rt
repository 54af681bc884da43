//! Reads the document and the results of the pass.

ghost use Rattle.std.specs.Prelude.{◌≡◌, ◌<◌, Some, length, map, option_copied};
ghost use Rattle.std.specs.Prelude.{slice_get};
ghost use Rattle.md_base.specs.Place.{text_between};
ghost use Rattle.md_base.specs.declared.event.Event.{Event};
ghost use Rattle.md_pattern.specs.declared.facts.Fact.{Fact};
ghost use Rattle.md_tree.specs.Found.{index_if, position_at, position_there, position_ended};

use super::{Checked, fact_at, index_if};
use md_base::{AlignKind, Event, Point, Position};
use md_pattern::{Fact, FactList};

impl<'a> Checked<'a> {
    ghost use Rattle.std.specs.Prelude.{◌≡◌};
    ghost use Rattle.md_tree.specs.Texts.{EntersAt, ExitsText, ExitsIdentifier, IsTextAt};
    ghost use Rattle.md_tree.specs.Texts.{IsIdentifierAt};
    ghost use Rattle.md_tree.specs.Grammar.{IsChecked};
    ghost use Rattle.md_base.specs.Tree.{Forest};
    ghost use Rattle.md_pattern.specs.Alignments.{alignments};
    ghost use Rattle.md_tree.specs.Entered.{IsEnteredAt, EntersNode};
    ghost use Rattle.md_tree.specs.Found.{EntersSome};
    ghost use Rattle.md_tree.specs.Reads.{IsReadAt};
    ghost use Rattle.md_base.specs.declared.event.Name.TheVariants as name;

    /// Returns the position of what is read of the node that the event at the index enters: for a
    /// heading its first mark, for an ordered list its number, for a link, an image or a footnote
    /// call the label or reference by which it refers, for a definition its own label. None if
    /// there is none. For a node of another name nothing is promised.
    ///
    /// # Examples
    ///
    /// ```
    /// // Of `## a`, where 0 enters the heading:
    /// let mark = checked.reads(0).map(|place| (place.start.index, place.end.index));
    /// assert_eq!(mark, Some((0, 2)));
    /// ```
    pub fn reads(&self, index: usize) -> Option<Position>
        requires { EntersSome self.now.events index }
        ensures entered { EntersNode self.now index }
        ensures reads { IsReadAt self.now index result }
    {
        position_read(self.events, &self.facts, self.fact(index))
    }

    /// Returns the alignments of the columns of the table that the event at the index enters.
    ///
    /// # Examples
    ///
    /// ```
    /// // Of `|a|b|` over `|:-|-|`, where 0 enters the table:
    /// assert_eq!(checked.columns(0), [AlignKind::Left, AlignKind::None].as_slice());
    /// ```
    pub fn columns(&self, index: usize) -> &[AlignKind]
        requires { EntersAt self.now.events index name.GfmTable }
        ensures grammatical { IsChecked self.now }
        ensures entered { EntersNode self.now index }
        ensures aligned { (children : Forest) → IsEnteredAt self.now index children
            → result.now ≡ alignments children }
    {
        table_at(&self.tables, fact_at(&self.facts, index).read_at)
    }

    /// Returns the text of the node that ends with the event at the index: only its bytes, without
    /// the spaces of tabs that are cut at its ends.
    ///
    /// # Examples
    ///
    /// ```
    /// // Of `a`, where 0 enters a paragraph, 1 its data, and 2 exits the data:
    /// assert_eq!(checked.text(2), "a");
    /// ```
    pub fn text(&self, index: usize) -> &'a str
        requires { ExitsText self.now.events index }
        ensures { IsTextAt self.now index result.now }
    {
        let position = position_ended(self.events, &self.facts, index).unwrap();
        self.texts.text_at(&position).unwrap()
    }

    /// Returns the label of the node that ends with the event at the index, as it is written: the
    /// bytes between the indices of its points, without columns of tabs. `normalize_identifier`
    /// converts it to an identifier.
    ///
    /// # Examples
    ///
    /// ```
    /// // Of `[a]: b`, where 0 enters the definition, 1 its label, 2 the data in that, and 4
    /// // exits the label:
    /// assert_eq!(checked.identifier(4), "a");
    /// ```
    pub fn identifier(&self, index: usize) -> &'a str
        requires { ExitsIdentifier self.now.events index }
        ensures { IsIdentifierAt self.now index result.now }
    {
        let position = position_ended(self.events, &self.facts, index).unwrap();
        self.texts.label_at(&position).unwrap()
    }

    /// Returns the text between two points, without the spaces of tabs that are cut there, or None
    /// if the points don't fit the bytes, or the bytes aren't UTF-8.
    ///
    /// # Examples
    ///
    /// ```
    /// // Of `a`, where 1 enters its data, and 2 exits the data:
    /// let events = checked.events();
    /// assert_eq!(checked.text_between(events[1].point, events[2].point), Some("a"));
    /// ```
    #[inline(always)]
    pub fn text_between(&self, start: Point, end: Point) -> Option<&'a str>
        ensures { option_copied result ≡ text_between self.now.bytes start end }
    {
        self.texts.text_at(&Position { start, end })
    }
}

/// The position of the node that ends with the event at the index.
fn position_ended(events: &[Event], facts: &FactList, index: usize) -> Option<Position>
    ensures { result ≡ position_ended events.now facts.now index }
{
    let fact = facts.get(index)?;
    let first = events.get(fact.partner)?;
    let last = events.get(index)?;
    Some(Position {
        start: first.point,
        end: last.point,
    })
}

/// The position of the node that is read, by the fact of the node that reads it, if there is one.
fn position_read(events: &[Event], facts: &FactList, fact: Fact) -> Option<Position>
    ensures { result ≡ position_at events.now facts.now fact.read_at }
{
    position_of(events, facts, index_if(fact.read_at)?)
}

/// The position of the node that the event at the index enters.
fn position_of(events: &[Event], facts: &FactList, index: usize) -> Option<Position>
    ensures { result ≡ position_there events.now facts.now index }
{
    let first = events.get(index)?;
    let fact = facts.get(index)?;
    let last = events.get(fact.partner)?;
    Some(Position {
        start: first.point,
        end: last.point,
    })
}

/// The columns of a table.
fn table_at(tables: &[Vec<AlignKind>], index: usize) -> &[AlignKind]
    requires { index < length tables.now }
    ensures { slice_get (map (λ t. t.items) tables.now) index ≡ Some result.now }
{
    tables[index].as_slice()
}
