//! Finds a document's front matter.

ghost use Rattle.std.specs.Prelude.{◌+◌, ◌≤◌, length, IfSome};
ghost use Rattle.md_markdown_abi.specs.Front.{TellsOfFrontMatter, IsPlaceReported};

use crate::answer::{NOT_UTF8, OK, answer_with};
use md_abi::Answer;
use md_blocks::front_matter;

/// The answer with the position of a document's front matter: its index is the number of bytes
/// before the front matter, its length that of the front matter. Both are 0 if there is none.
pub fn answer_to_front_matter(bytes: &[u8]) -> Answer
    ensures { TellsOfFrontMatter bytes.now result }
{
    match simdutf8::compat::from_utf8(bytes) {
        Ok(_) => answer_to_place(bytes),
        Err(error) => answer_with(NOT_UTF8, error.valid_up_to(), 0),
    }
}

/// The same for a document that is UTF-8.
fn answer_to_place(bytes: &[u8]) -> Answer
    ensures { IsPlaceReported bytes.now result }
{
    match front_matter_place(bytes) {
        Some((start, length)) => answer_with(OK, start, length),
        None => answer_with(OK, 0, 0),
    }
}

/// The number of bytes before the front matter, and its length.
fn front_matter_place(bytes: &[u8]) -> Option<(usize, usize)>
    ensures { IfSome result (λ place. place.0 + place.1 ≤ length bytes.now) }
{
    let found = front_matter(bytes)?;
    let (start, end) = (found.text.start, found.text.end);
    if start <= end && end <= bytes.len() {
        return Some((start, end - start));
    }
    None
}
