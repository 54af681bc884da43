//! Converts the blocks of a document to events.

ghost use Rattle.std.specs.Prelude.{◌≡◌, OnOk};

use crate::endings::{ending_before, write_last_ending};
use crate::html::{has_text, without_comments, write_html, write_pieces};
use crate::leaves::{ends_of, write_front_matter};
use crate::looseness::OpenList;
use crate::prefixes::{write_footnote_start, write_item_start, write_task};
use md_base::Name;
use md_blocks::{Block, Blocks, ContainerKind, DocumentHtml, LineRange, MarkdownOptions};
use md_inlines::{Inlines, Writer};
use md_lines::Span;
use std::alloc::{AllocError, Global};

/// What precedes the next child of an open block.
#[derive(Clone, Copy, Debug, PartialEq, Eq)]
enum Before {
    Nothing,
    /// A paragraph, with the range of the line ending that ended it.
    Paragraph(usize, usize),
    Other,
}

/// An open block.
#[derive(Clone, Copy, Debug, PartialEq, Eq)]
struct Open {
    is_item: bool,
    before: Before,
}

/// Writes the events of a document.
#[derive(Drop)]
pub(crate) struct Emission<'a> {
    alloc: Global,
    pub(crate) bytes: &'a [u8],
    pub(crate) blocks: &'a Blocks,
    pub(crate) inlines: Inlines<'a>,
    html: DocumentHtml,
    open: Vec<Open>,
    /// The open lists, the innermost last.
    lists: Vec<OpenList>,
    /// Whether the next item is its list's first.
    is_first_item: bool,
    /// Whether nothing was written for the previous block, or for its content.
    is_after_bare: bool,
}

/// Writes the events of a document's blocks.
///
/// # Errors
///
/// Returns an error only if memory runs out.
pub(crate) fn write_events<'a>(
    alloc: Global,
    bytes: &[u8],
    blocks: &Blocks,
    options: &MarkdownOptions,
    writer: &mut Writer<'a>,
) -> Result<(), AllocError> {
    let lines = blocks.lines.as_slice();
    let mut emission = Emission {
        alloc,
        bytes,
        blocks,
        inlines: Inlines::new(alloc, bytes, lines, &blocks.definitions, options),
        html: options.html,
        open: Vec::new(alloc),
        lists: Vec::new(alloc),
        is_first_item: false,
        is_after_bare: false,
    };
    emission.write_blocks(writer)?;
    if emission.inlines.drop_uncalled()? {
        *writer = Writer::new(alloc, bytes.len(), writer.added.base());
        emission.write_blocks(writer)?;
    }
    emission.inlines.write_definitions(writer)?;
    write_last_ending(writer, bytes)
}

impl<'a> Emission<'a> {
    fn write_blocks(&mut self, writer: &mut Writer) -> Result<(), AllocError> {
        self.is_after_bare = false;
        for (index, block) in self.blocks.tape.iter().enumerate() {
            match block {
                Block::EnterQuote { start } => self.enter_quote(writer, *start)?,
                Block::EnterList { is_ordered, start } => {
                    self.lists.push(OpenList::new(index))?;
                    self.enter_list(writer, *is_ordered, *start)?
                }
                Block::EnterItem { digits, start } => self.enter_item(writer, *digits, *start)?,
                Block::EnterFootnote { label } => self.enter_footnote(writer, *label)?,
                Block::Exit { kind, is_empty, at } => self.exit(writer, *kind, *is_empty, *at)?,
                Block::Task { is_checked, start } => {
                    let is_alone = self.ends_after(index) && !self.is_in_loose_list();
                    write_task(writer, *is_checked, *start, is_alone)?
                }
                Block::Paragraph(range) => self.write_paragraph(writer, *range)?,
                Block::AtxHeading { level, span } => self.write_atx(writer, *level, *span)?,
                Block::SetextHeading(range) => self.write_setext(writer, *range)?,
                Block::FencedCode(range) => self.write_fenced(writer, *range)?,
                Block::IndentedCode(range) => self.write_indented(writer, *range)?,
                Block::Html(range) => self.write_html(writer, *range)?,
                Block::ThematicBreak(span) => self.write_break(writer, *span)?,
                Block::Table(range) => self.write_table(writer, *range)?,
                Block::Math(range) => self.write_math(writer, *range)?,
                Block::FrontMatter { ending } => write_front_matter(writer, *ending)?,
                Block::BlankLine { ending } => self.write_blank_line(writer, *ending)?,
                Block::Definitions { .. } => self.is_after_bare = true,
            }
        }
        Ok(())
    }

    /// Whether a container ends after the block with an index, or after definitions that follow it.
    fn ends_after(&self, index: usize) -> bool {
        let following = self.blocks.tape.get(index.saturating_add(1)..);
        matches!(
            following.unwrap_or(&[]),
            [Block::Exit { .. }, ..] | [Block::Definitions { .. }, Block::Exit { .. }, ..]
        )
    }

    /// Whether the innermost list is loose.
    fn is_in_loose_list(&mut self) -> bool {
        match self.lists.last_mut() {
            Some(list) => list.is_loose(self.blocks.tape.as_slice()),
            None => false,
        }
    }

    /// Begins a container.
    fn begin_container(&mut self, writer: &mut Writer, is_item: bool) -> Result<(), AllocError> {
        self.begin_block(writer)?;
        self.open.push(Open {
            is_item,
            before: Before::Nothing,
        })?;
        Ok(())
    }

    fn enter_quote(&mut self, writer: &mut Writer, start: usize) -> Result<(), AllocError> {
        self.begin_container(writer, false)?;
        writer.enter(Name::BlockQuote, start)
    }

    fn enter_list(
        &mut self,
        writer: &mut Writer,
        is_ordered: bool,
        start: usize,
    ) -> Result<(), AllocError> {
        self.begin_container(writer, false)?;
        self.is_first_item = true;
        let name = if is_ordered {
            Name::ListOrdered
        } else {
            Name::ListUnordered
        };
        writer.enter(name, start)
    }

    fn enter_item(
        &mut self,
        writer: &mut Writer,
        digits: u8,
        start: usize,
    ) -> Result<(), AllocError> {
        self.begin_container(writer, true)?;
        let is_first = self.is_first_item;
        self.is_first_item = false;
        write_item_start(writer, start, digits, is_first)
    }

    fn enter_footnote(&mut self, writer: &mut Writer, label: Span) -> Result<(), AllocError> {
        self.begin_container(writer, false)?;
        self.inlines.enter_footnote(label)?;
        write_footnote_start(writer, label)
    }

    /// Exits a container at an index.
    fn exit(
        &mut self,
        writer: &mut Writer,
        kind: ContainerKind,
        is_empty: bool,
        at: usize,
    ) -> Result<(), AllocError> {
        let _ = self.open.pop();
        self.is_first_item = false;
        self.is_after_bare = self.is_after_bare || is_empty;
        let name = match kind {
            ContainerKind::Quote => Name::BlockQuote,
            ContainerKind::OrderedList => {
                let _ = self.lists.pop();
                Name::ListOrdered
            }
            ContainerKind::UnorderedList => {
                let _ = self.lists.pop();
                Name::ListUnordered
            }
            ContainerKind::FootnoteDefinition => {
                self.inlines.exit_footnote();
                Name::GfmFootnoteDefinition
            }
            ContainerKind::Item => Name::ListItem,
        };
        writer.exit(name, at)
    }

    /// Writes a blank line. After an item or a block for which nothing is written it is written
    /// twice, since the first one doesn't affect the list there, and the second one makes it loose.
    fn write_blank_line(&mut self, writer: &mut Writer, ending: Span) -> Result<(), AllocError> {
        if self.is_after_bare {
            writer.leaf(Name::BlankLineEnding, ending.start, ending.end)?;
        }
        writer.leaf(Name::BlankLineEnding, ending.start, ending.end)
    }

    /// Writes a block of HTML, or what remains of it. If nothing remains, no block is written.
    fn write_html(&mut self, writer: &mut Writer, range: LineRange) -> Result<(), AllocError>
        ensures left_out { self.old.html ≡ DocumentHtml.LeftOut
            → OnOk result (writer.new.events.items ≡ writer.old.events.items) }
    {
        let lines = self.blocks.lines_of(range);
        match self.html {
            DocumentHtml::Text => {
                self.begin_block(writer)?;
                return write_html(writer, lines);
            }
            DocumentHtml::LeftOut => {}
            DocumentHtml::WithoutComments => {
                let pieces = without_comments(self.alloc, self.bytes, lines)?;
                if has_text(self.bytes, pieces.as_slice()) {
                    self.begin_block(writer)?;
                    let (start, _) = ends_of(lines);
                    return write_pieces(writer, pieces.as_slice(), start);
                }
            }
        }
        self.is_after_bare = true;
        Ok(())
    }

    /// Writes the events between a child of an item and the previous block, if that is no paragraph
    /// or the child begins on a line of its own.
    pub(crate) fn begin_block(&mut self, writer: &mut Writer) -> Result<(), AllocError> {
        self.begin_child(writer, Before::Other, None)
    }

    /// Writes the events between a child of an item and the previous child. `start` is where a
    /// paragraph begins.
    fn begin_child(
        &mut self,
        writer: &mut Writer,
        next: Before,
        start: Option<usize>,
    ) -> Result<(), AllocError> {
        self.is_after_bare = false;
        let Some(top) = self.open.last_mut() else {
            return Ok(());
        };
        if !top.is_item {
            return Ok(());
        }
        let before = top.before;
        top.before = next;
        match (before, start) {
            (Before::Paragraph(from, to), _) if from < to => {
                writer.leaf(Name::LineEnding, from, to)
            }
            (Before::Other, Some(start)) => match ending_before(self.bytes, start) {
                Some((from, to)) => writer.leaf(Name::Data, from, to),
                None => Ok(()),
            },
            _ => Ok(()),
        }
    }

    fn write_paragraph(&mut self, writer: &mut Writer, range: LineRange) -> Result<(), AllocError> {
        let lines = self.blocks.lines_of(range);
        let (start, end) = ends_of(lines);
        let next = match lines.last() {
            Some(line) => line.next(),
            None => end,
        };
        self.begin_child(writer, Before::Paragraph(end, next), Some(start))?;
        writer.enter(Name::Paragraph, start)?;
        self.inlines.write_leaf(writer, lines)?;
        writer.exit(Name::Paragraph, end)
    }
}
