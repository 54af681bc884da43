//! The extent of a node: its two events, its text, and whether it ends the document.

ghost use Rattle.std.specs.Prelude.{◌≡◌, ◌+◌, ◌<◌, ◌≤◌, [], suc, true, Some, length, slice_get};
ghost use Rattle.std.specs.Prelude.{unwrap_or};
ghost use Rattle.md_base.specs.Place.{text_between};
ghost use Rattle.md_base.specs.declared.event.Event.{Event as AnyEvent};
ghost use Rattle.md_base.specs.declared.event.Kind.TheVariants as kind;
ghost use Rattle.md_base.specs.declared.event.Name.{Name};
ghost use Rattle.md_meaning.specs.Meaning.At.{text_in};
ghost use Rattle.md_tree.specs.Found.{EntersSome};
ghost use Rattle.md_tree.specs.Texts.{EntersAt, ExitsAt};
ghost use Rattle.md_steps.specs.Run.{Noticed};
ghost use Rattle.md_facts.specs.NodeFacts.{IsNoticedAt, ExitsSome};

use crate::found::grammatical;
use md_base::{Event, Kind, Point, Position};
use md_tree::Checked;

/// Whether nothing follows in the document after the node that the event at the index exits.
///
/// # Examples
///
/// ```
/// // Where two events are a thematic break, and no others come:
/// assert!(is_last_at(&checked, 1));
/// ```
#[inline(always)]
pub fn is_last_at(checked: &Checked, index: usize) -> bool
    requires { ExitsSome checked.now.events index }
    ensures { (one : Noticed) → IsNoticedAt checked.now index one → result ≡ one.facts.last }
{
    let count = checked.events().len();
    index + 1 == count
}

/// Returns how many events come after the event at the index, which enters a node, before the
/// node's exit.
///
/// # Examples
///
/// ```
/// // Where two events are a thematic break:
/// assert_eq!(inside_at(&checked, 0), 1);
/// ```
#[inline(always)]
pub fn inside_at(checked: &Checked, index: usize) -> usize
    requires { EntersSome checked.now.events index }
    ensures { (one : Noticed) → IsNoticedAt checked.now index one → result ≡ one.inside }
{
    exit_of(checked, index) - index
}

/// Whether the node that the event at the index enters has no children: the next event exits it.
/// The caller passes the events, which it has at hand.
///
/// # Examples
///
/// ```
/// // Where two events are a thematic break:
/// assert!(is_leaf_among(&checked, checked.events(), 0));
/// ```
#[inline(always)]
pub fn is_leaf_among(checked: &Checked, events: &[Event], index: usize) -> bool
    requires enters { EntersSome checked.now.events index }
    requires among { events.now ≡ checked.now.events }
    ensures exits { result ≡ true → (name : Name) → EntersAt checked.now.events index name
        → ExitsAt checked.now.events (suc index) name }
    ensures noticed { result ≡ true → (one : Noticed) → IsNoticedAt checked.now index one
        → IsNoticedAt checked.now (suc index) one }
{
    grammatical(checked);
    exits_next(events, index)
}

/// Whether the event after the one at an index exits a node.
#[inline(always)]
fn exits_next(events: &[Event], index: usize) -> bool
    requires { index + 1 < length events.now }
    ensures { result ≡ true → (event : AnyEvent) × (slice_get events.now (suc index) ≡ Some event)
        × (event.kind ≡ kind.Exit) }
{
    matches!(events[index + 1].kind, Kind::Exit)
}

/// Returns the position of the node that the event at the index exits.
///
/// # Examples
///
/// ```
/// // Where two events are a thematic break from 0 to 3:
/// assert_eq!(place_left_at(&checked, 1).end.index, 3);
/// ```
#[inline(always)]
pub fn place_left_at(checked: &Checked, index: usize) -> Position
    requires { ExitsSome checked.now.events index }
    ensures { (one : Noticed) → IsNoticedAt checked.now index one → result ≡ one.facts.place }
{
    Position {
        start: start_of(checked, index),
        end: end_of(checked, index),
    }
}

/// Returns the text of the node that the event at the index exits, without the spaces of tabs that
/// are cut at its ends. It is empty if the position doesn't fit the bytes, or these aren't UTF-8.
///
/// # Examples
///
/// ```
/// // Of `a`, where 1 enters its data, and 2 exits the data:
/// assert_eq!(text_left_at(&checked, 2), "a");
/// ```
#[inline(always)]
pub fn text_left_at<'a>(checked: &Checked<'a>, index: usize) -> &'a str
    requires { ExitsSome checked.now.events index }
    ensures { (one : Noticed) → IsNoticedAt checked.now index one
        → result.now ≡ text_in checked.now.bytes one.facts.place }
{
    text_of_leaf(checked, start_of(checked, index), end_of(checked, index))
}

/// The same for the node that the event at one index enters, and the event at another one exits.
///
/// # Examples
///
/// ```
/// // Of `a`, where 1 enters its data, and 2 exits the data:
/// assert_eq!(text_inside(&checked, 1, 2), "a");
/// ```
#[inline(always)]
pub fn text_inside<'a>(checked: &Checked<'a>, entry: usize, exit: usize) -> &'a str
    requires enters { EntersSome checked.now.events entry }
    requires exits { ExitsSome checked.now.events exit }
    ensures { (one : Noticed) → IsNoticedAt checked.now entry one → IsNoticedAt checked.now exit one
        → result.now ≡ text_in checked.now.bytes one.facts.place }
{
    text_of_leaf(checked, entered_from(checked, entry), end_of(checked, exit))
}

/// The text between two points, as that of a node with this position.
///
/// # Examples
///
/// ```
/// // Of `a`, where 1 enters its data, and 2 exits the data:
/// let events = checked.events();
/// assert_eq!(text_of_leaf(&checked, events[1].point, events[2].point), "a");
/// ```
#[inline(always)]
pub fn text_of_leaf<'a>(checked: &Checked<'a>, start: Point, end: Point) -> &'a str
    ensures { result.now ≡ unwrap_or (text_between checked.now.bytes start end) [] }
{
    checked.text_between(start, end).unwrap_or("")
}

/// The index of the event that enters the node that the event at the index exits.
#[inline(always)]
pub(crate) fn entry_of(checked: &Checked, index: usize) -> usize
    requires { ExitsSome checked.now.events index }
    ensures enters { (name : Name) → ExitsAt checked.now.events index name
        → EntersAt checked.now.events result name }
    ensures noticed { (one : Noticed) → IsNoticedAt checked.now index one
        → IsNoticedAt checked.now result one }
{
    checked.partner(index).unwrap()
}

/// The index of the event that exits the node that the event at the index enters.
#[inline(always)]
pub(crate) fn exit_of(checked: &Checked, index: usize) -> usize
    requires { EntersSome checked.now.events index }
    ensures later { index ≤ result }
    ensures exits { (name : Name) → EntersAt checked.now.events index name
        → ExitsAt checked.now.events result name }
    ensures noticed { (one : Noticed) → IsNoticedAt checked.now index one
        → IsNoticedAt checked.now result one }
    ensures inside { (one : Noticed) → IsNoticedAt checked.now index one
        → result ≡ index + one.inside }
{
    checked.partner(index).unwrap()
}

/// The start of the node that the event at the index enters.
#[inline(always)]
fn entered_from(checked: &Checked, index: usize) -> Point
    requires { EntersSome checked.now.events index }
    ensures { (one : Noticed) → IsNoticedAt checked.now index one → result ≡ one.facts.place.start }
{
    event_point(checked.events(), index)
}

/// The start of the node that the event at the index exits.
#[inline(always)]
fn start_of(checked: &Checked, index: usize) -> Point
    requires { ExitsSome checked.now.events index }
    ensures { (one : Noticed) → IsNoticedAt checked.now index one → result ≡ one.facts.place.start }
{
    event_point(checked.events(), entry_of(checked, index))
}

/// The end of the node that the event at the index exits.
#[inline(always)]
fn end_of(checked: &Checked, index: usize) -> Point
    requires { ExitsSome checked.now.events index }
    ensures { (one : Noticed) → IsNoticedAt checked.now index one → result ≡ one.facts.place.end }
{
    event_point(checked.events(), index)
}

/// The point of the event at an index.
#[inline(always)]
fn event_point(events: &[Event], index: usize) -> Point
    requires { index < length events.now }
    ensures { (event : AnyEvent) → slice_get events.now index ≡ Some event → result ≡ event.point }
{
    events[index].point
}
