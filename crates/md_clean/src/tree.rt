//! The open elements, and the text that is written.

use crate::attributes::push_tag;
use crate::choice::{CleanOptions, is_chosen};
use crate::decoding::{Place, decode};
use crate::names::{Kind, Tag, tag_named};
use crate::spans::Span;
use crate::tokens::is_space;
use md_text::push_encoded;
use std::alloc::{AllocError, Global};

/// How many blocks may be open before one that isn't implied.
pub(crate) const MOST_OF_BLOCKS: usize = 380;

/// How many bytes of tags may be written again, besides one for each byte of the input.
const LEAST_BUDGET: usize = 4096;

/// What may be written in an open block.
#[derive(Clone, Copy, PartialEq, Eq)]
pub(crate) enum Content {
    Flow,
    Phrasing,
    /// The items of a list.
    Items,
    /// The parts of a table, its rows or cells.
    Table,
    /// Characters.
    Code,
}

/// An open block: any element except spans.
#[derive(Clone, Copy)]
pub(crate) struct Block<'a> {
    pub(crate) name: &'a str,
    pub(crate) tag: Tag,
    pub(crate) content: Content,
    /// Whether its tags are written.
    pub(crate) is_written: bool,
    /// Whether it is written to the table, not before it.
    pub(crate) is_in_table: bool,
    /// Whether spans that ended with their blocks don't go on in it.
    pub(crate) hides: bool,
}

/// The open elements, and what is written.
#[derive(Drop)]
pub(crate) struct Tree<'a> {
    pub(crate) alloc: Global,
    pub(crate) options: CleanOptions<'a>,
    /// What is written before the open table.
    pub(crate) out: String,
    /// The open table.
    pub(crate) table: String,
    pub(crate) blocks: Vec<Block<'a>>,
    pub(crate) spans: Vec<Span<'a>>,
    /// Whether the written spans are in the table.
    pub(crate) are_spans_in_table: bool,
    /// How many paragraphs and tables are open.
    pub(crate) paragraphs: usize,
    pub(crate) tables: usize,
    /// Whether a written table is open.
    pub(crate) has_table: bool,
    /// How many elements are open that are too deep to be written.
    pub(crate) too_deep: usize,
    /// How many bytes of tags may be written again.
    pub(crate) budget: usize,
    /// Whether a line feed that comes next is left out.
    pub(crate) skips_line_feed: bool,
    /// Whether the open written block has a text since its last line break.
    pub(crate) has_line: bool,
    /// Whether a line break comes before the next text.
    pub(crate) is_break_due: bool,
}

impl<'a> Tree<'a> {
    /// No open elements.
    ///
    /// # Errors
    ///
    /// Returns an error only if memory runs out.
    pub(crate) fn new(
        alloc: Global,
        length: usize,
        options: CleanOptions<'a>,
    ) -> Result<Tree<'a>, AllocError> {
        Ok(Tree {
            alloc,
            options,
            out: String::with_capacity(alloc, length)?,
            table: String::new(alloc),
            blocks: Vec::new(alloc),
            spans: Vec::new(alloc),
            are_spans_in_table: false,
            paragraphs: 0,
            tables: 0,
            has_table: false,
            too_deep: 0,
            budget: length.saturating_add(LEAST_BUDGET),
            skips_line_feed: false,
            has_line: false,
            is_break_due: false,
        })
    }

    /// Whether an element of this name may be written.
    pub(crate) fn is_chosen(&self, name: &str) -> bool {
        match self.options.tags {
            Some(tags) => is_chosen(tags, name),
            None => true,
        }
    }

    /// An element as the options have it: one that isn't chosen isn't written.
    pub(crate) fn chosen(&self, tag: Tag) -> Tag {
        Tag {
            is_written: tag.is_written && self.is_chosen(tag.name),
            ..tag
        }
    }

    /// What may be written here.
    pub(crate) fn content(&self) -> Content {
        match self.blocks.last() {
            Some(block) => block.content,
            None => Content::Flow,
        }
    }

    /// Whether spans and texts are written to the table here.
    pub(crate) fn is_in_table(&self) -> bool {
        match self.blocks.last() {
            Some(block) => block.is_in_table && block.content != Content::Table,
            None => false,
        }
    }

    /// The text to which tags of blocks or spans are written.
    pub(crate) fn output(&mut self, is_in_table: bool) -> &mut String {
        if is_in_table {
            &mut self.table
        } else {
            &mut self.out
        }
    }

    /// Opens a block. It is written if the open block may have it.
    pub(crate) fn open(
        &mut self,
        name: &'a str,
        tag: Tag,
        attributes: &str,
    ) -> Result<(), AllocError> {
        let around = self.content();
        let is_written = tag.is_written && self.may_have(around, tag.kind);
        let is_in_table = self.is_block_in_table(around, tag.kind, is_written);
        let hides = around == Content::Table && matches!(tag.kind, Kind::Cell | Kind::Caption);
        if is_written {
            self.close_written_spans()?;
            self.push_opening(tag, attributes, is_in_table)?;
        }
        if hides {
            self.hide_spans();
        }
        self.begin_line(tag.kind, is_written);
        self.count(tag.kind, is_written);
        self.blocks.push(Block {
            name,
            tag,
            content: content_in(around, tag.kind, is_written),
            is_written,
            is_in_table,
            hides,
        })?;
        Ok(())
    }

    /// Whether a block is written to the table: the table itself, its parts, and what is in cells.
    fn is_block_in_table(&self, around: Content, kind: Kind, is_written: bool) -> bool {
        match kind {
            Kind::Table if is_written => true,
            _ if around == Content::Table => is_of_table(kind),
            _ => self.is_in_table(),
        }
    }

    /// Whether a content may have a block of this kind.
    fn may_have(&self, around: Content, kind: Kind) -> bool {
        match around {
            Content::Flow => {
                !is_of_table(kind) && kind != Kind::Item && (kind != Kind::Table || !self.has_table)
            }
            Content::Items => kind == Kind::Item,
            Content::Table => is_of_table(kind) || kind != Kind::Item && kind != Kind::Table,
            Content::Phrasing | Content::Code => false,
        }
    }

    /// Begins a line where a block begins or ends: by its tags, or if it isn't written, by a line
    /// break before the next text.
    pub(crate) fn begin_line(&mut self, kind: Kind, is_written: bool) {
        if is_written {
            self.has_line = false;
            self.is_break_due = false;
        } else if self.has_line && kind != Kind::Scope {
            self.is_break_due = !matches!(self.content(), Content::Items | Content::Table);
        }
    }

    /// Writes the line break that is due, and notes that a text comes.
    pub(crate) fn write_break(&mut self) -> Result<(), AllocError> {
        let is_due = self.is_break_due;
        self.is_break_due = false;
        self.has_line = true;
        if !is_due {
            return Ok(());
        }
        self.close_code()?;
        let line_break = match self.content() {
            Content::Code => "\n",
            _ if self.is_chosen("br") => "<br />",
            _ => "\n",
        };
        let is_in_table = self.is_in_table();
        self.output(is_in_table).push_str(line_break)
    }

    /// Counts an open block.
    fn count(&mut self, kind: Kind, is_written: bool) {
        match kind {
            Kind::Paragraph => self.paragraphs = self.paragraphs.saturating_add(1),
            Kind::Table => {
                self.tables = self.tables.saturating_add(1);
                self.has_table = self.has_table || is_written;
            }
            _ => {}
        }
    }

    /// Writes an opening tag of a block.
    fn push_opening(
        &mut self,
        tag: Tag,
        attributes: &str,
        is_in_table: bool,
    ) -> Result<(), AllocError> {
        let alloc = self.alloc;
        let protocols = self.options.protocols;
        let out = self.output(is_in_table);
        push_tag(alloc, out, tag, attributes, protocols)?;
        if tag.kind == Kind::Preformatted {
            out.push_str("><code>")
        } else {
            out.push('>')
        }
    }

    /// Opens a block that isn't written in the input.
    pub(crate) fn imply(&mut self, name: &'a str) -> Result<(), AllocError> {
        let tag = self.chosen(tag_named(name.as_bytes()));
        self.open(name, tag, "")
    }

    /// Opens a list that isn't written in the input, and that only items may have.
    pub(crate) fn imply_list(&mut self) -> Result<(), AllocError> {
        let tag = self.chosen(tag_named(b"ul"));
        self.open("", tag, "")
    }

    /// Closes blocks until so many are open.
    pub(crate) fn close_to(&mut self, count: usize) -> Result<(), AllocError> {
        for _ in count..self.blocks.len() {
            self.close_last()?;
        }
        Ok(())
    }

    /// Closes the last block.
    pub(crate) fn close_last(&mut self) -> Result<(), AllocError> {
        let Some(block) = self.blocks.pop() else {
            return Ok(());
        };
        if block.is_written {
            self.close_written_spans()?;
        }
        let depth = self.blocks.len().saturating_add(1);
        self.end_spans(depth, block.hides)?;
        if block.tag.kind == Kind::Paragraph {
            self.paragraphs = self.paragraphs.saturating_sub(1);
        }
        if block.is_written {
            self.push_closing(&block)?;
        }
        self.begin_line(block.tag.kind, block.is_written);
        if block.tag.kind == Kind::Table {
            self.tables = self.tables.saturating_sub(1);
            if block.is_written {
                self.has_table = false;
                self.out.push_str(self.table.as_str())?;
                self.table.clear();
            }
        }
        Ok(())
    }

    /// Writes the closing tag of a block.
    fn push_closing(&mut self, block: &Block<'_>) -> Result<(), AllocError> {
        let out = self.output(block.is_in_table);
        if block.tag.kind == Kind::Preformatted {
            out.push_str("</code>")?;
        }
        push_end(out, block.tag.name)
    }

    /// Closes all elements, and returns what is written.
    pub(crate) fn finish(mut self) -> Result<String, AllocError> {
        self.close_to(0)?;
        self.close_written_spans()?;
        Ok(self.out)
    }

    /// Writes a text.
    pub(crate) fn text(&mut self, text: &str) -> Result<(), AllocError> {
        let text = match text.strip_prefix('\n') {
            Some(rest) if self.skips_line_feed => rest,
            _ => text,
        };
        self.skips_line_feed = false;
        let decoded = decode(self.alloc, text, Place::Text)?;
        let text = decoded.as_str();
        if text.is_empty() {
            return Ok(());
        }
        let is_white = text.as_bytes().iter().all(|byte| is_space(*byte));
        if is_white && self.push_white(text)? {
            return Ok(());
        }
        self.make_room()?;
        self.write_break()?;
        self.write_spans()?;
        let is_in_table = self.is_in_table();
        push_encoded(self.output(is_in_table), text, true)
    }

    /// Writes white space where it opens no element; returns whether it was written.
    fn push_white(&mut self, text: &str) -> Result<bool, AllocError> {
        let is_in_table = match self.content() {
            Content::Items => self.is_in_table(),
            Content::Table if !self.has_span_here() => true,
            Content::Flow if !self.has_span_for_white() => {
                self.revive_spans();
                self.is_in_table()
            }
            _ => return Ok(false),
        };
        self.output(is_in_table).push_str(text)?;
        Ok(true)
    }

    /// Opens or closes what a span or a text needs: an item in a list, none in an implied list.
    pub(crate) fn make_room(&mut self) -> Result<(), AllocError> {
        if self.content() != Content::Items {
            return Ok(());
        }
        match self.blocks.last() {
            Some(block) if block.name.is_empty() => self.close_last(),
            _ => self.imply("li"),
        }
    }
}

/// Whether an element is a part of a table, a row or a cell.
fn is_of_table(kind: Kind) -> bool {
    matches!(kind, Kind::Part | Kind::Row | Kind::Cell)
}

/// What may be written in a block.
fn content_in(around: Content, kind: Kind, is_written: bool) -> Content {
    if !is_written {
        return match around {
            Content::Table => Content::Flow,
            _ => around,
        };
    }
    match kind {
        Kind::Paragraph | Kind::Heading | Kind::Summary | Kind::Cell => Content::Phrasing,
        Kind::List => Content::Items,
        Kind::Table | Kind::Part | Kind::Row => Content::Table,
        Kind::Preformatted => Content::Code,
        _ => Content::Flow,
    }
}

/// Appends an end tag.
pub(crate) fn push_end(out: &mut String, name: &str) -> Result<(), AllocError> {
    out.push_str("</")?;
    out.push_str(name)?;
    out.push('>')
}
