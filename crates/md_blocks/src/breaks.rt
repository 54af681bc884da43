//! Thematic breaks.

ghost use Rattle.std.specs.Prelude.{◌≡◌, ◌||◌, ◌==◌, drop};
ghost use Rattle.md_lines.specs.Lines.{is_blank};
ghost use Rattle.md_blocks.specs.Leaves.{is_break, may_be_in_break};

/// The minimum number of marks in a thematic break.
const LEAST_MARKS: usize = 3;

/// Recognizes thematic breaks, and reads each byte of a document a bounded number of times.
#[derive(Clone, Copy)]
pub(crate) struct Breaks {
    /// The index of the byte where the last search failed.
    failed_at: usize,
}

impl Breaks {
    /// No search failed yet.
    pub(crate) fn new() -> Self {
        Breaks { failed_at: 0 }
    }

    /// Whether a thematic break of a mark begins at an index. If all lines are of one document, each
    /// up to its end, each byte is read a bounded number of times.
    pub(crate) fn begins_at(&mut self, mark: u8, line: &[u8], from: usize) -> bool
        ensures { result ≡ is_break mark (drop from line.now) }
    {
        let last = self.failed_at;
        if from <= last && last < line.len() && !may_be_in_break(mark, line[last]) {
            return false;
        }
        let mut count: usize = 0;
        for at in from..line.len() {
            if line[at] == mark {
                count += 1;
            } else if !may_be_in_break(mark, line[at]) {
                self.failed_at = at;
                return false;
            }
        }
        count >= LEAST_MARKS
    }
}

/// Whether a byte may occur in a thematic break of a mark.
#[inline(always)]
fn may_be_in_break(mark: u8, byte: u8) -> bool
    ensures { result ≡ may_be_in_break mark byte }
{
    byte == mark || byte == b' ' || byte == b'\t'
}
