//! The labels by which nodes refer to others, or are referred to.

ghost use Rattle.std.specs.Prelude.{◌≡◌, IfOk, string_bytes};
ghost use Rattle.md_meaning.specs.Texts as texts;
ghost use Rattle.md_meaning.specs.Places as places;
ghost use Rattle.md_tree.specs.Numbers.{ExitsOf};
ghost use Rattle.md_steps.specs.Run.{Noticed};
ghost use Rattle.md_facts.specs.NodeFacts.{IsNoticedAt, EntersOf, is_labelled};

use crate::ends::entry_of;
use crate::found::grammatical;
use md_base::{Position, Slice, normalize_identifier};
use md_tree::Checked;
use std::alloc::{AllocError, Global};

/// Returns the identifier of the node that the event at the index enters: of a footnote call, a
/// definition or a footnote definition.
///
/// # Errors
///
/// `AllocError`, only if memory runs out.
///
/// # Examples
///
/// ```
/// // Of `[A]: b`, where 0 enters the definition:
/// assert_eq!(identifier_at(alloc, &checked, 0)?.as_str(), "a");
/// ```
pub(crate) fn identifier_at(
    alloc: Global,
    checked: &Checked,
    index: usize,
) -> Result<String, AllocError>
    requires { EntersOf is_labelled checked.now.events index }
    ensures { IfOk result (λ identifier. (one : Noticed) → IsNoticedAt checked.now index one
        → string_bytes identifier ≡ one.facts.identifier) }
{
    identifier_of(alloc, checked.bytes(), label_read_at(checked, index))
}

/// The same for the node that the event at the index exits.
///
/// # Errors
///
/// `AllocError`, only if memory runs out.
///
/// # Examples
///
/// ```
/// // Of `[A]: b`, where 0 enters the definition, and 19 exits it:
/// assert_eq!(identifier_left_at(alloc, &checked, 19)?.as_str(), "a");
/// ```
pub fn identifier_left_at(
    alloc: Global,
    checked: &Checked,
    index: usize,
) -> Result<String, AllocError>
    requires { ExitsOf is_labelled checked.now.events index }
    ensures { IfOk result (λ identifier. (one : Noticed) → IsNoticedAt checked.now index one
        → string_bytes identifier ≡ one.facts.identifier) }
{
    identifier_at(alloc, checked, entry_of(checked, index))
}

/// The position of the label by which the node refers or is referred to, or None if it has none.
fn label_read_at(checked: &Checked, index: usize) -> Option<Position>
    requires { EntersOf is_labelled checked.now.events index }
    ensures { (one : Noticed) → IsNoticedAt checked.now index one
        → one.facts.identifier ≡ places.identifier_at checked.now.bytes result }
{
    grammatical(checked);
    checked.reads(index)
}

/// The normalized text of the label at a position; empty if there is none.
fn identifier_of(alloc: Global, bytes: &[u8], place: Option<Position>) -> Result<String, AllocError>
    ensures { IfOk result (λ text. string_bytes text ≡ places.identifier_at bytes.now place) }
{
    match place {
        Some(place) => normalize_identifier(alloc, label_of(bytes, place)),
        None => Ok(String::new(alloc)),
    }
}

/// The text between the indices of two points, whatever their columns are; empty if they don't fit
/// the bytes, or these aren't UTF-8.
fn label_of(bytes: &[u8], place: Position) -> &str
    ensures { result.now ≡ texts.label_of bytes.now place.start place.end }
{
    match Slice::from_indices(bytes, place.start.index, place.end.index) {
        Some(slice) => slice.as_str().unwrap_or(""),
        None => "",
    }
}
