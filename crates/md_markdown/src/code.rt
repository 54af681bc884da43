//! Code and math blocks.

use crate::endings::ending_before;
use md_base::Name;
use md_inlines::Writer;
use md_lines::Line;
use std::alloc::AllocError;

/// Lines that are adjacent in the document, without prefixes between them.
#[derive(Clone, Copy, Debug, PartialEq, Eq)]
pub(crate) struct Run {
    pub(crate) start: usize,
    pub(crate) columns: u8,
    /// The end of the text of the last line.
    pub(crate) end: usize,
    /// The end of its line ending.
    pub(crate) next: usize,
}

impl Run {
    pub(crate) fn new(line: &Line) -> Run {
        Run {
            start: line.start,
            columns: line.columns,
            end: line.end,
            next: line.next(),
        }
    }

    /// Whether a line follows directly.
    pub(crate) fn is_before(&self, line: &Line) -> bool {
        line.start == self.next && line.columns == 0
    }

    /// The run with a line that follows directly.
    pub(crate) fn with(self, line: &Line) -> Run {
        Run {
            end: line.end,
            next: line.next(),
            ..self
        }
    }
}

/// Writes lines with their endings, one node for each run of adjacent lines.
pub(crate) fn write_chunks(
    writer: &mut Writer,
    bytes: &[u8],
    lines: &[Line],
    name: Name,
) -> Result<(), AllocError> {
    let Some((first, others)) = lines.split_first() else {
        return Ok(());
    };
    let mut run = Run::new(first);
    for line in others {
        if run.is_before(line) {
            run = run.with(line);
        } else {
            writer.leaf_in_tab(name, run.start, run.columns, run.next)?;
            run = Run::new(line);
        }
    }
    if run.start == run.next {
        // The document ends in a line of indentation alone, which has the ending of the one before.
        if let Some((from, to)) = ending_before(bytes, run.start) {
            return writer.leaf(name, from, to);
        }
    }
    writer.leaf_in_tab(name, run.start, run.columns, run.next)
}
