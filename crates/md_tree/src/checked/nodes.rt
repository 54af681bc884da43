//! Checks which node an event enters or exits.

ghost use Rattle.std.specs.Prelude.{◌≡◌, ◌↔◌, ◌<◌, Some, option_map};
ghost use Rattle.std.specs.Prelude.{slice_get, IsTrue};
ghost use Rattle.md_base.specs.declared.event.Event.{Event};
ghost use Rattle.md_pattern.specs.declared.facts.Fact.{Fact};
ghost use Rattle.md_tree.specs.Texts.{IsEventAt};

use super::Checked;
use md_base::{Event, Kind, Name, is_same_name};
use md_pattern::FactList;

impl<'a> Checked<'a> {
    ghost use Rattle.std.specs.Prelude.{◌↔◌, IsTrue};
    ghost use Rattle.md_tree.specs.Texts.{EntersAt, ExitsAt};
    ghost use Rattle.md_tree.specs.Indices.{IsPartnerAt};
    ghost use Rattle.md_base.specs.declared.event.Name.TheVariants as name;

    /// Whether the event at the index exists and enters a node of this name.
    ///
    /// # Examples
    ///
    /// ```
    /// // Where the first event enters a thematic break, which the second exits:
    /// assert!(checked.enters(0, Name::ThematicBreak));
    /// assert!(!checked.enters(1, Name::ThematicBreak));
    /// assert!(!checked.enters(2, Name::ThematicBreak));
    /// ```
    pub fn enters(&self, index: usize, name: Name) -> bool
        ensures { IsTrue result ↔ EntersAt self.now.events index name }
    {
        is_event(self.events, index, Kind::Enter, name)
    }

    /// Whether the event at the index exists and exits a node of this name.
    ///
    /// # Examples
    ///
    /// ```
    /// // Where the first event enters a thematic break, which the second exits:
    /// assert!(checked.exits(1, Name::ThematicBreak));
    /// assert!(!checked.exits(0, Name::ThematicBreak));
    /// assert!(!checked.exits(2, Name::ThematicBreak));
    /// ```
    pub fn exits(&self, index: usize, name: Name) -> bool
        ensures { IsTrue result ↔ ExitsAt self.now.events index name }
    {
        is_event(self.events, index, Kind::Exit, name)
    }

    /// Returns the index of the other event of the node that the event at the index enters or
    /// exits, or None past the end.
    ///
    /// # Examples
    ///
    /// ```
    /// // Where the first event enters a node without children, which the second exits:
    /// assert_eq!(checked.partner(0), Some(1));
    /// assert_eq!(checked.partner(1), Some(0));
    /// assert_eq!(checked.partner(2), None);
    /// ```
    pub fn partner(&self, index: usize) -> Option<usize>
        ensures { IsPartnerAt self.now index result }
    {
        partner_at(&self.facts, index)
    }
}

/// The partner of the event at the index, if that event exists.
fn partner_at(facts: &FactList, index: usize) -> Option<usize>
    ensures { result ≡ option_map (λ fact. Fact.partner fact) (slice_get facts.now index) }
{
    match facts.get(index) {
        Some(fact) => Some(fact.partner),
        None => None,
    }
}

/// Whether the event at the index exists, with this kind and name.
fn is_event(events: &[Event], index: usize, kind: Kind, name: Name) -> bool
    ensures { IsTrue result ↔ IsEventAt events.now index kind name }
{
    match events.get(index) {
        Some(event) => event.kind == kind && is_same_name(event.name, name),
        None => false,
    }
}
