//! The lines of leaves.

ghost use Rattle.std.specs.Prelude.{◌≡◌, ◌≤◌, vec_len, List, ℕ};
ghost use Rattle.md_blocks.specs.Tapes.{text_between, text_of_line};

use crate::block::LineRange;
use md_lines::{Line, Span};
use std::alloc::{AllocError, Global};

/// The lines of all leaves, in document order.
#[derive(Drop)]
pub(crate) struct Leaves {
    pub(crate) lines: Vec<Line>,
    /// The index of the last leaf's first line.
    pub(crate) start: usize,
    ghost begun: { start ≤ vec_len lines },
}

impl Leaves {
    /// No lines, with capacity for `room`.
    pub(crate) fn new(alloc: Global, room: usize) -> Result<Self, AllocError> {
        Ok(Leaves {
            lines: Vec::with_capacity(alloc, room)?,
            start: 0,
        })
    }

    /// The lines of the last leaf.
    #[inline(always)]
    pub(crate) fn last(&self) -> LineRange
        ensures start { result.start ≡ self.now.start }
        ensures end { result.end ≡ vec_len self.now.lines }
    {
        LineRange::new(self.start, self.lines.len())
    }
}

/// A part of a line, without a line ending.
#[inline(always)]
pub(crate) fn part(span: Span) -> Line
    ensures text { (bytes : List ℕ) → text_of_line bytes result ≡ text_between span bytes }
    ensures columns { result.columns ≡ 0 }
{
    Line {
        start: span.start,
        end: span.end,
        columns: 0,
        ending: 0,
    }
}
