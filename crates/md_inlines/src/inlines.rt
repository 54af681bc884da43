//! The inline pass over the leaves of a document.

use crate::calls::Calls;
use crate::emission::write_tokens;
use crate::reader::Reader;
use crate::source::Source;
use crate::strings::write_string;
use crate::targets::write_definition;
use md_blocks::{Definitions, MarkdownOptions};
use md_lines::{Line, Span};
use md_marks::Leaf;
use md_writer::Writer;
use std::alloc::{AllocError, Global};

/// The inline pass over a document: its bytes, all its lines, and the definitions of its links and
/// footnotes.
#[derive(Drop)]
pub struct Inlines<'a> {
    source: Source<'a>,
    definitions: &'a Definitions,
    options: &'a MarkdownOptions,
    reader: Reader<'a>,
    calls: Calls,
}

impl<'a> Inlines<'a> {
    /// A pass over a document.
    pub fn new(
        alloc: Global,
        bytes: &'a [u8],
        lines: &'a [Line],
        definitions: &'a Definitions,
        options: &'a MarkdownOptions,
    ) -> Inlines<'a> {
        Inlines {
            source: Source {
                alloc,
                bytes,
                lines,
                has_base: options.base.is_some(),
            },
            definitions,
            options,
            reader: Reader::new(alloc, bytes, definitions, options),
            calls: Calls::new(alloc),
        }
    }

    /// Enters the next definition of a footnote, with a label: the next leaves belong to it.
    ///
    /// # Errors
    ///
    /// Returns an error only if memory runs out.
    pub fn enter_footnote(&mut self, label: Span) -> Result<(), AllocError> {
        let source = &self.source;
        let first = if self.calls.is_in_footnote() {
            self.definitions
                .find_footnote(source.alloc, source.bytes, label)?
        } else {
            None
        };
        self.calls.enter(first)
    }

    /// Exits the innermost definition of a footnote.
    pub fn exit_footnote(&mut self) {
        self.calls.exit();
    }

    /// Drops the footnotes that nothing calls, or only dropped ones: no call in them is one. Returns
    /// whether they have calls, so that the whole document must be written again.
    ///
    /// # Errors
    ///
    /// Returns an error only if memory runs out.
    pub fn drop_uncalled(&mut self) -> Result<bool, AllocError> {
        if !self.calls.drop_uncalled()? {
            return Ok(false);
        }
        self.reader = Reader::new(
            self.source.alloc,
            self.source.bytes,
            self.definitions,
            self.options,
        );
        Ok(true)
    }

    /// Writes the events of a leaf.
    ///
    /// # Errors
    ///
    /// Returns an error only if memory runs out.
    pub fn write_leaf(&mut self, writer: &mut Writer, lines: &[Line]) -> Result<(), AllocError> {
        let leaf = Leaf::new(self.source.bytes, lines);
        let (start, end) = (leaf.start(0), leaf.end(0));
        let first = self.reader.marks.next(start, end);
        if lines.len() == 1 && first >= end {
            return writer.data(start, end);
        }
        self.write_marked(writer, &leaf, first)
    }

    /// Writes the events of a leaf whose first mark is at an index, or after its first line.
    #[inline(never)]
    fn write_marked(
        &mut self,
        writer: &mut Writer,
        leaf: &Leaf,
        first: usize,
    ) -> Result<(), AllocError> {
        self.reader.read(leaf, first)?;
        write_tokens(writer, &self.reader, leaf, &self.source, &mut self.calls)
    }

    /// Writes the events of a cell of a table, in which a bar has a backslash before it.
    ///
    /// # Errors
    ///
    /// Returns an error only if memory runs out.
    pub fn write_cell(&mut self, writer: &mut Writer, text: Line) -> Result<(), AllocError> {
        self.reader.is_cell = true;
        self.write_leaf(writer, &[text])?;
        self.reader.is_cell = false;
        Ok(())
    }

    /// Writes the events of a text in which only escapes and character references are read.
    ///
    /// # Errors
    ///
    /// Returns an error only if memory runs out.
    pub fn write_string(&self, writer: &mut Writer, text: Span) -> Result<(), AllocError> {
        write_string(writer, self.source.bytes, text.start, text.end)
    }

    /// Writes the definitions that the written events refer to by label.
    ///
    /// # Errors
    ///
    /// Returns an error only if memory runs out.
    pub fn write_definitions(&self, writer: &mut Writer) -> Result<(), AllocError> {
        for (index, definition) in self.definitions.list().iter().enumerate() {
            if writer.is_referred(index) {
                write_definition(writer, &self.source, definition)?;
            }
        }
        Ok(())
    }
}
