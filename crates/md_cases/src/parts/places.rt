//! Questions about the first two events: the bytes between their points, and whether their names
//! are the same.

use super::{Asked, Call, boolean, no_such_call};
use md_html::{Event, Position, Slice, is_same_name};
use std::alloc::{AllocError, Global};

/// The result of a call.
pub(super) fn answer(
    alloc: Global,
    asked: &Asked<'_>,
    call: Call<'_>,
) -> Result<String, AllocError> {
    let bytes = asked.script.document;
    let [start, end] = asked.script.events.as_slice() else {
        return no_such_call(alloc);
    };
    let (from, to) = between(start, end).to_indices();
    match call.name {
        "slice" => slice(alloc, Slice::from_position(bytes, &between(start, end))),
        "slice_from_indices" => slice(alloc, Slice::from_indices(bytes, from, to)),
        "to_indices" => format!(in alloc; "{from} to {to}"),
        "is_same_name" => boolean(alloc, is_same_name(start.name, end.name)),
        _ => no_such_call(alloc),
    }
}

/// The position between two events.
fn between(start: &Event, end: &Event) -> Position {
    Position {
        start: start.point,
        end: end.point,
    }
}

/// The length of a slice, its text, and its text with the cut columns of tabs as spaces.
fn slice(alloc: Global, slice: Option<Slice<'_>>) -> Result<String, AllocError> {
    let Some(slice) = slice else {
        return String::from_str(alloc, "(none)");
    };
    match slice.serialize(alloc)? {
        Some(serialized) => slice_and(alloc, &slice, serialized.as_str()),
        None => format!(in alloc; "{} bytes, {}", slice.len(), text_of(&slice)),
    }
}

/// The length of a slice, its text, and the other text.
fn slice_and(alloc: Global, slice: &Slice<'_>, serialized: &str) -> Result<String, AllocError> {
    let (length, text) = (slice.len(), text_of(slice));
    format!(in alloc; "{length} bytes, [{text}], [{serialized}]")
}

/// The text of a slice.
fn text_of<'a>(slice: &Slice<'a>) -> &'a str {
    slice.as_str().unwrap_or("(none)")
}
