//! The block pass as one call, and its result.

ghost use Rattle.std.specs.Prelude.{◌≡◌, ℕ, List, IfOk, IsTrue};
ghost use Rattle.md_blocks.specs.Documents.{document_entries};
ghost use Rattle.md_blocks.specs.Tape.{leads};
ghost use Rattle.md_blocks.specs.Tapes.{entries_of};

use crate::block::{Block, LineRange};
use crate::definition::Definitions;
use crate::options::MarkdownOptions;
use crate::pass::Pass;
use md_lines::Line;
use std::alloc::{AllocError, Global};

/// The blocks of a document.
#[derive(Drop)]
pub struct Blocks {
    /// The blocks in document order. Each container that is entered is exited, the innermost first,
    /// and at most [`MOST_CONTAINERS`](crate::MOST_CONTAINERS) of them nest.
    pub tape: Vec<Block>,
    /// The lines of all leaves. The lines of one leaf are adjacent.
    pub lines: Vec<Line>,
    /// The definitions of links, and which footnotes are defined.
    pub definitions: Definitions,
    pub ghost nested: { IsTrue (leads 0 tape.items 0) },
}

impl Blocks {
    /// Returns the lines of a leaf, or none for a range that doesn't belong to these blocks.
    #[inline(always)]
    pub fn lines_of(&self, range: LineRange) -> &[Line] {
        self.lines.get(range.start..range.end).unwrap_or(&[])
    }
}

/// Reads the blocks of a document. Any bytes are a document; a byte order mark at the beginning is
/// skipped.
///
/// # Errors
///
/// Returns an error only if memory runs out.
pub fn parse_blocks(
    alloc: Global,
    bytes: &[u8],
    options: &MarkdownOptions,
) -> Result<Blocks, AllocError>
    ensures entries { IfOk result (λ blocks.
        entries_of bytes.now blocks.lines.items blocks.tape.items
        ≡ document_entries options.now bytes.now) }
{
    let mut pass = Pass::new(alloc, bytes, options)?;
    match pass.run() {
        Ok(()) => Ok(pass.into_blocks()),
        Err(error) => Err(error),
    }
}
