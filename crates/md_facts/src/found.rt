//! Facts about a list, an item or a heading.

ghost use Rattle.std.specs.Prelude.{◌≡◌, ◌⊎◌, ◌<◌, Some, length, slice_get};
ghost use Rattle.md_base.specs.declared.event.Event.{Event as AnyEvent};
ghost use Rattle.md_base.specs.declared.event.Name.TheVariants as name;
ghost use Rattle.md_meaning.specs.Places.{length_of};
ghost use Rattle.md_tree.specs.Grammar.{IsChecked};
ghost use Rattle.md_tree.specs.Texts.{EntersAt, ExitsAt};
ghost use Rattle.md_steps.specs.Run.{Noticed};
ghost use Rattle.md_facts.specs.NodeFacts.{IsNoticedAt};

use crate::ends::entry_of;
use md_base::{Event, Name, Position, Slice};
use md_tree::{Checked, list_loose};

/// Whether the list that the event at the index enters is loose.
///
/// # Examples
///
/// ```
/// // Where 0 enters a list of two items with a blank line between them:
/// assert!(is_loose_at(&checked, 0));
/// ```
pub fn is_loose_at(checked: &Checked, index: usize) -> bool
    requires { EntersAt checked.now.events index name.ListOrdered
        ⊎ EntersAt checked.now.events index name.ListUnordered }
    ensures { (one : Noticed) → IsNoticedAt checked.now index one → result ≡ one.facts.loose }
{
    list_loose(checked, index, true)
}

/// Returns the position of the number of the ordered list that the event at the index enters, or
/// None if it has none.
///
/// # Examples
///
/// ```
/// // Of `1. a`, where 0 enters the list:
/// assert_eq!(number_at(&checked, 0).map(|place| place.end.index), Some(1));
/// ```
pub fn number_at(checked: &Checked, index: usize) -> Option<Position>
    requires { EntersAt checked.now.events index name.ListOrdered }
    ensures { (one : Noticed) → IsNoticedAt checked.now index one → result ≡ one.facts.number }
{
    checked.reads(index)
}

/// Returns the name of the last contributing child of the item that the event at the index exits,
/// or None if there is none.
///
/// # Examples
///
/// ```
/// // Of `* a`, where 11 exits the item:
/// assert_eq!(contributing_left_at(&checked, 11), Some(Name::Paragraph));
/// ```
pub fn contributing_left_at(checked: &Checked, index: usize) -> Option<Name>
    requires { ExitsAt checked.now.events index name.ListItem }
    ensures { (one : Noticed) → IsNoticedAt checked.now index one
        → result ≡ one.facts.contributing }
{
    let last = checked.last_contributing(entry_of(checked, index))?;
    Some(name_at(checked.events(), last))
}

/// The name of the event at an index.
#[inline(always)]
pub(crate) fn name_at(events: &[Event], index: usize) -> Name
    requires { index < length events.now }
    ensures { (event : AnyEvent) → slice_get events.now index ≡ Some event → result ≡ event.name }
{
    events[index].name
}

/// Returns the length of the first mark of the heading that the event at the index enters.
///
/// # Examples
///
/// ```
/// // Of `## a`, where 0 enters the heading:
/// assert_eq!(rank_at(&checked, 0), 2);
/// ```
pub fn rank_at(checked: &Checked, index: usize) -> usize
    requires { EntersAt checked.now.events index name.HeadingAtx }
    ensures { (one : Noticed) → IsNoticedAt checked.now index one → result ≡ one.facts.rank }
{
    grammatical(checked);
    match checked.reads(index) {
        Some(place) => length_of(checked.bytes(), place),
        None => 0,
    }
}

/// The same for the heading that the event at the index exits.
///
/// # Examples
///
/// ```
/// // Of `## a`, where 9 exits the heading:
/// assert_eq!(rank_left_at(&checked, 9), 2);
/// ```
pub fn rank_left_at(checked: &Checked, index: usize) -> usize
    requires { ExitsAt checked.now.events index name.HeadingAtx }
    ensures { (one : Noticed) → IsNoticedAt checked.now index one → result ≡ one.facts.rank }
{
    rank_at(checked, entry_of(checked, index))
}

/// Does nothing: its contract says that the document matches the grammar.
#[inline(always)]
pub(crate) fn grammatical(checked: &Checked)
    ensures { IsChecked checked.now }
{
    let _events = checked.events();
}

/// The number of bytes of a mark, with the spaces of tabs that are cut at its ends; 0 if its
/// position doesn't fit the bytes.
fn length_of(bytes: &[u8], position: Position) -> usize
    ensures { result ≡ length_of bytes.now position }
{
    match Slice::from_position(bytes, &position) {
        Some(slice) => slice.len(),
        None => 0,
    }
}
