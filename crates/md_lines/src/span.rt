//! Ranges of a document's bytes.

ghost use Rattle.std.specs.Prelude.{◌≡◌, ◌≤◌, ◌==◌, max};

/// A range of a document's bytes, from `start` to `end`, both byte indices.
#[derive(Clone, Copy, PartialEq, Eq, Debug)]
pub struct Span {
    pub start: usize,
    pub end: usize,
    ghost in_order: { start ≤ end },
}

impl Span {
    /// The range from `start` to `end`; empty if `end` is less than `start`.
    #[inline(always)]
    pub fn new(start: usize, end: usize) -> Self
        ensures start { result.start ≡ start }
        ensures end { result.end ≡ max start end }
    {
        Span {
            start,
            end: start.max(end),
        }
    }

    /// Whether the range is empty.
    #[inline(always)]
    pub fn is_empty(self) -> bool
        ensures { result ≡ (self.start == self.end) }
    {
        self.start == self.end
    }
}
