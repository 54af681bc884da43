//! Writes headings, code, thematic breaks, tables, math and front matter as events.

use crate::code::write_chunks;
use crate::events::Emission;
use crate::table::write_table;
use md_base::Name;
use md_blocks::LineRange;
use md_inlines::Writer;
use md_lines::{Line, Span, trim_start};
use std::alloc::AllocError;

impl<'a> Emission<'a> {
    pub(crate) fn write_atx(
        &mut self,
        writer: &mut Writer,
        level: u8,
        span: Span,
    ) -> Result<(), AllocError> {
        self.begin_block(writer)?;
        let marks_end = span.start.saturating_add(usize::from(level));
        let text = Line::part(trim_start(self.bytes, marks_end, span.end), span.end);
        writer.enter(Name::HeadingAtx, span.start)?;
        writer.leaf(Name::HeadingAtxSequence, span.start, marks_end)?;
        if text.start < text.end {
            writer.enter(Name::HeadingAtxText, text.start)?;
            self.inlines.write_leaf(writer, &[text])?;
            writer.exit(Name::HeadingAtxText, text.end)?;
        }
        writer.exit(Name::HeadingAtx, text.end)
    }

    pub(crate) fn write_setext(
        &mut self,
        writer: &mut Writer,
        range: LineRange,
    ) -> Result<(), AllocError> {
        self.begin_block(writer)?;
        let [lines @ .., underline] = self.blocks.lines_of(range) else {
            return Ok(());
        };
        let (start, end) = ends_of(lines);
        writer.enter(Name::HeadingSetextText, start)?;
        self.inlines.write_leaf(writer, lines)?;
        writer.exit(Name::HeadingSetextText, end)?;
        if let Some(line) = lines.last() {
            writer.leaf(Name::LineEnding, line.end, line.next())?;
        }
        writer.leaf(
            Name::HeadingSetextUnderlineSequence,
            underline.start,
            underline.end,
        )
    }

    pub(crate) fn write_fenced(
        &mut self,
        writer: &mut Writer,
        range: LineRange,
    ) -> Result<(), AllocError> {
        self.begin_block(writer)?;
        let [info, lines @ ..] = self.blocks.lines_of(range) else {
            return Ok(());
        };
        writer.enter(Name::CodeFenced, info.start)?;
        writer.enter(Name::CodeFencedFence, info.start)?;
        if info.start < info.end {
            writer.enter(Name::CodeFencedFenceInfo, info.start)?;
            self.inlines
                .write_string(writer, Span::new(info.start, info.end))?;
            writer.exit(Name::CodeFencedFenceInfo, info.end)?;
        }
        writer.exit(Name::CodeFencedFence, info.end)?;
        write_chunks(writer, self.bytes, lines, Name::CodeFlowChunk)?;
        writer.leaf(Name::CodeFencedFence, info.end, info.end)?;
        writer.exit(Name::CodeFenced, info.end)
    }

    pub(crate) fn write_indented(
        &mut self,
        writer: &mut Writer,
        range: LineRange,
    ) -> Result<(), AllocError> {
        self.begin_block(writer)?;
        let lines = self.blocks.lines_of(range);
        let (start, end) = ends_of(lines);
        writer.enter(Name::CodeIndented, start)?;
        write_chunks(writer, self.bytes, lines, Name::CodeFlowChunk)?;
        writer.exit(Name::CodeIndented, end)
    }

    pub(crate) fn write_break(
        &mut self,
        writer: &mut Writer,
        span: Span,
    ) -> Result<(), AllocError> {
        self.begin_block(writer)?;
        writer.leaf(Name::ThematicBreak, span.start, span.end)
    }

    pub(crate) fn write_table(
        &mut self,
        writer: &mut Writer,
        range: LineRange,
    ) -> Result<(), AllocError> {
        self.begin_block(writer)?;
        let lines = self.blocks.lines_of(range);
        write_table(writer, &mut self.inlines, self.bytes, lines)
    }

    pub(crate) fn write_math(
        &mut self,
        writer: &mut Writer,
        range: LineRange,
    ) -> Result<(), AllocError> {
        self.begin_block(writer)?;
        let [fence, lines @ ..] = self.blocks.lines_of(range) else {
            return Ok(());
        };
        let start = fence.start;
        writer.enter(Name::MathFlow, start)?;
        writer.leaf(Name::MathFlowFence, start, start)?;
        write_chunks(writer, self.bytes, lines, Name::MathFlowChunk)?;
        writer.leaf(Name::MathFlowFence, start, start)?;
        writer.exit(Name::MathFlow, start)
    }
}

/// The beginning of lines, and the end of the text of the last one.
pub(crate) fn ends_of(lines: &[Line]) -> (usize, usize) {
    match (lines.first(), lines.last()) {
        (Some(first), Some(last)) => (first.start, last.end),
        _ => (0, 0),
    }
}

/// Writes front matter, which prints nothing.
pub(crate) fn write_front_matter(writer: &mut Writer, ending: Span) -> Result<(), AllocError> {
    writer.leaf(Name::Frontmatter, 0, ending.start)?;
    if ending.is_empty() {
        return Ok(());
    }
    writer.leaf(Name::LineEnding, ending.start, ending.end)
}
