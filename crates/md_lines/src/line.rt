//! Lines, and where they end.

ghost use Rattle.std.specs.Prelude.{◌≡◌, ◌≤◌, ◌<◌, ◌+◌, ◌-◌, ◌^◌, length, drop, min, max};
ghost use Rattle.std.specs.List.{prefix_len};
ghost use Rattle.md_lines.specs.Lines as lines;
ghost use Rattle.md_lines.specs.Lines.{ends_no_line};

use crate::find::{LANES, Search, find, first_set};
use std::simd::prelude::*;

/// A line of a leaf block, without the prefixes of its containers. Its text extends from `start` to
/// `end`, both byte indices into the document.
#[derive(Clone, Copy, PartialEq, Eq, Debug)]
pub struct Line {
    pub start: usize,
    pub end: usize,
    /// How many columns of a tab at `start` belong to the prefixes: 0 to 3.
    pub columns: u8,
    /// The number of bytes of its line ending: 0 to 2.
    pub ending: u8,
    ghost text_in_order: { start ≤ end },
}

impl Line {
    /// The part of a line from `start` to `end`, without its line ending; empty if `end` is less
    /// than `start`.
    #[inline(always)]
    pub fn part(start: usize, end: usize) -> Self
        ensures start { result.start ≡ start }
        ensures end { result.end ≡ max start end }
    {
        Line {
            start,
            end: start.max(end),
            columns: 0,
            ending: 0,
        }
    }

    /// The end of its line ending.
    #[inline(always)]
    pub fn next(self) -> usize
        ensures value { result ≡ min (self.end + self.ending) (2 ^ 64 - 1) }
        ensures after { self.end ≤ result }
    {
        self.end.saturating_add(usize::from(self.ending))
    }
}

/// The beginning of the first line ending at or after `from`: the index of a line feed or of a
/// carriage return. The length of the bytes if there is none, and `from` if it is beyond them.
#[inline]
pub fn line_end(bytes: &[u8], from: usize) -> usize
    ensures within { from ≤ length bytes.now → result ≤ length bytes.now }
    ensures after { from ≤ result }
    ensures first { from ≤ length bytes.now
        → result ≡ from + prefix_len ends_no_line (drop from bytes.now) }
    ensures beyond { length bytes.now < from → result ≡ from }
{
    find(InLine, bytes, from, bytes.len())
}

/// The search for the end of a line.
#[derive(Clone, Copy)]
struct InLine;

impl Search for InLine {
    ghost use Rattle.md_lines.specs.Lines.{ends_no_line};

    ghost skips = { λ _. ends_no_line };

    #[inline(always)]
    fn is_skipped(self, byte: u8) -> bool {
        byte != b'\n' && byte != b'\r'
    }

    #[inline(always)]
    fn run_in(self, bytes: &[u8], at: usize) -> usize {
        let block = Simd::<u8, LANES>::from_slice(&bytes[at..]);
        let endings = block.simd_eq(Simd::splat(b'\n')) | block.simd_eq(Simd::splat(b'\r'));
        first_set(endings.to_bitmask())
    }
}

/// The beginning of the next line, after a line ending that begins at `end`: a carriage return and
/// a line feed are one ending. At the end of the bytes it is `end` itself.
#[inline(always)]
pub fn after_ending(bytes: &[u8], end: usize) -> usize
    ensures within { end ≤ length bytes.now → result ≤ length bytes.now }
    ensures after { end ≤ result }
    ensures passes { end < length bytes.now → end < result }
    ensures short { result ≤ end + 2 }
    ensures value { result ≡ lines.after_ending bytes.now end }
{
    match bytes.get(end) {
        None => end,
        Some(b'\r') if bytes.get(end + 1) == Some(&b'\n') => end + 2,
        Some(_) => end + 1,
    }
}
