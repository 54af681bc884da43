//! Skips what precedes the first line of a document: a byte order mark, and front matter.

ghost use Rattle.std.specs.Prelude.{◌≡◌, ◌≤◌, length, option_map, IfSome};
ghost use Rattle.md_blocks.specs.Documents as documents;
ghost use Rattle.md_blocks.specs.Documents.{is_front_fence, mark_length};
ghost use Rattle.md_blocks.specs.Passes.{front_at};

use crate::marker::without_blanks;
use md_lines::{Span, after_ending, line_end};

/// A byte order mark.
const BYTE_ORDER_MARK: &[u8] = b"\xef\xbb\xbf";

/// The dashes of a fence of front matter.
const FENCE: &[u8] = b"---";

/// Front matter: the lines between two lines of three dashes, the first of which is the first line
/// of the document.
#[derive(Clone, Copy, PartialEq, Eq, Debug)]
pub struct FrontMatter {
    /// The text between the two lines, with its line endings.
    pub text: Span,
    /// The line ending after it.
    pub ending: Span,
}

/// The beginning of a document, after a byte order mark.
pub(crate) fn start_of(bytes: &[u8]) -> usize
    ensures value { result ≡ mark_length bytes.now }
    ensures within { result ≤ length bytes.now }
{
    if bytes.starts_with(BYTE_ORDER_MARK) {
        BYTE_ORDER_MARK.len()
    } else {
        0
    }
}

/// The front matter at the beginning of a document.
pub fn front_matter(bytes: &[u8]) -> Option<FrontMatter>
    ensures within { IfSome result (λ found. found.ending.end ≤ length bytes.now) }
    ensures value { option_map (front_at bytes.now) result ≡ documents.front_matter bytes.now }
{
    let at = start_of(bytes);
    let end = line_end(bytes, at);
    if !is_fence(&bytes[at..end]) {
        return None;
    }
    let start = after_ending(bytes, end);
    let mut from = start;
    'lines: while from < bytes.len() {
        let end = line_end(bytes, from);
        let next = after_ending(bytes, end);
        if is_fence(&bytes[from..end]) {
            return Some(FrontMatter {
                text: Span::new(start, from),
                ending: Span::new(end, next),
            });
        }
        from = next;
    }
    None
}

/// Whether a line is a fence of front matter: three dashes, and then only spaces and tabs.
fn is_fence(line: &[u8]) -> bool
    ensures { result ≡ is_front_fence line.now }
{
    without_blanks(line) == FENCE
}
