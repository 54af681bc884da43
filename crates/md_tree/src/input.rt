//! The input of the rules: the events and bytes, and a node's position among them.

ghost use Rattle.std.specs.Prelude.{◌≡◌, option_copied};
ghost use Rattle.md_base.specs.Place.{text_between, label_between};
ghost use Rattle.md_tree.specs.Walk.{point_at, place_at};

use crate::texts::Texts;
use md_base::{Event, Point, Position, References, Slice};
use std::alloc::Global;
/// A document's events and bytes, and the names of character references with their texts.
#[derive(Clone, Copy)]
pub struct Input<'t, 'a> {
    /// The allocator for the results.
    pub alloc: Global,
    /// The events.
    pub events: &'a [Event],
    /// The document's bytes, with their valid texts.
    pub bytes: &'t Texts<'a>,
    /// The names of character references, each with its text.
    pub names: &'t References<'a>,
}

/// The point of the event at an index.
pub fn point_at(events: &[Event], index: usize) -> Point
    ensures { result ≡ point_at events.now index }
{
    match events.get(index) {
        None => Point {
            line: 0,
            column: 0,
            index: 0,
            vs: 0,
        },
        Some(event) => event.point,
    }
}

/// The position of a node that is entered and exited at two indices.
pub fn place_at(events: &[Event], entry: usize, exit: usize) -> Position
    ensures { result ≡ place_at events.now entry exit }
{
    Position {
        start: point_at(events, entry),
        end: point_at(events, exit),
    }
}

/// The text of a node, if its position fits the bytes and they are UTF-8.
#[inline(always)]
pub fn text_at<'a>(bytes: &'a [u8], position: &Position) -> Option<&'a str>
    ensures { option_copied result ≡ text_between bytes.now position.now.start position.now.end }
{
    Slice::text_at(bytes, position)
}

/// The text between the indices of a node's points, if they fit the bytes and it is UTF-8.
pub fn label_at<'a>(bytes: &'a [u8], position: &Position) -> Option<&'a str>
    ensures { option_copied result ≡ label_between bytes.now position.now.start position.now.end }
{
    Slice::from_indices(bytes, position.start.index, position.end.index)?.as_str()
}

/// The text of a node that is entered and exited at two indices.
#[inline(always)]
pub fn text_of<'a>(input: Input<'_, 'a>, entry: usize, exit: usize) -> Option<&'a str>
    ensures { option_copied result
        ≡ text_between input.entry.bytes.now (point_at input.entry.events.now entry)
        (point_at input.entry.events.now exit) }
{
    input.bytes.text_at(&place_at(input.events, entry, exit))
}
