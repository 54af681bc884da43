//! Writes events for tokens.

ghost use Rattle.std.specs.Prelude.{◌≡◌, false, not, true, OnOk};

use crate::calls::Calls;
use crate::links::write_label_start;
use crate::reader::Reader;
use crate::source::Source;
use crate::strings::write_reference;
use md_base::Name;
use md_blocks::DocumentHtml;
use md_lines::{Span, find_any};
use md_marks::{BareLink, Leaf, Mark, Token, WwwLinks, address, run_length, url};
use md_writer::Writer;
use std::alloc::AllocError;

/// The maximum depth of nested emphasis, strong and strikethrough: a deeper one is text.
const MOST_SPANS: usize = 32;

/// The names of a node and of the data in it.
#[derive(Clone, Copy)]
struct Names {
    outer: Name,
    inner: Name,
}

const CODE: Names = Names {
    outer: Name::CodeText,
    inner: Name::CodeTextData,
};

const MATH: Names = Names {
    outer: Name::MathText,
    inner: Name::MathTextData,
};

const HTML: Names = Names {
    outer: Name::HtmlText,
    inner: Name::HtmlTextData,
};

/// The context of a token.
#[derive(Drop)]
pub(crate) struct LeafContext<'e> {
    pub(crate) leaf: &'e Leaf<'e>,
    pub(crate) source: &'e Source<'e>,
    pub(crate) reader: &'e Reader<'e>,
    pub(crate) calls: &'e mut Calls,
    /// How many links are open.
    pub(crate) links: usize,
    /// How many images are open.
    images: usize,
    /// How many of emphasis, strong and strikethrough are open, including those that are text.
    spans: usize,
}

/// Writes the events of a leaf's tokens.
pub(crate) fn write_tokens(
    writer: &mut Writer,
    reader: &Reader,
    leaf: &Leaf,
    source: &Source,
    calls: &mut Calls,
) -> Result<(), AllocError> {
    let mut context = LeafContext {
        leaf,
        source,
        reader,
        calls,
        links: 0,
        images: 0,
        spans: 0,
    };
    let mut at = leaf.start(0);
    for token in reader.tokens.iter() {
        if context.note_span(token.mark) {
            continue;
        }
        context.write_text(writer, at, token.start)?;
        context.write_token(writer, token)?;
        at = token.end;
    }
    context.write_text(writer, at, leaf.last_end())
}

impl<'e> LeafContext<'e> {
    /// Counts the open spans; returns whether a token with this mark stays text, as both ends of a
    /// span do that is nested too deep.
    #[inline(always)]
    fn note_span(&mut self, mark: Mark) -> bool {
        match mark {
            Mark::Text | Mark::Nothing => true,
            Mark::EmphasisStart | Mark::StrongStart | Mark::StrikethroughStart => {
                self.spans = self.spans.saturating_add(1);
                self.spans > MOST_SPANS
            }
            Mark::EmphasisEnd | Mark::StrongEnd | Mark::StrikethroughEnd => {
                let depth = self.spans;
                self.spans = depth.saturating_sub(1);
                depth > MOST_SPANS
            }
            _ => false,
        }
    }

    /// Writes a token that isn't text.
    #[inline(always)]
    fn write_token(&mut self, writer: &mut Writer, token: &Token) -> Result<(), AllocError> {
        let (start, end) = (token.start, token.end);
        match token.mark {
            Mark::Text | Mark::Nothing | Mark::Escape => Ok(()),
            Mark::EmphasisStart => writer.enter(Name::Emphasis, start),
            Mark::EmphasisEnd => writer.exit(Name::Emphasis, end),
            Mark::StrongStart => writer.enter(Name::Strong, start),
            Mark::StrongEnd => writer.exit(Name::Strong, end),
            Mark::StrikethroughStart => writer.enter(Name::GfmStrikethrough, start),
            Mark::StrikethroughEnd => writer.exit(Name::GfmStrikethrough, end),
            Mark::Code => self.write_between(writer, token, b'`', CODE),
            Mark::Math => self.write_between(writer, token, b'$', MATH),
            Mark::Html => self.write_html(writer, token),
            Mark::Reference => write_reference(writer, self.leaf.bytes, start, end),
            Mark::BreakEscape => writer.leaf(Name::HardBreakEscape, start, end),
            Mark::BreakSpaces => writer.leaf(Name::HardBreakTrailing, start, end),
            Mark::LineEnding => {
                let end = self.leaf.end(token.index);
                writer.leaf(Name::LineEnding, end, self.leaf.next(token.index))
            }
            Mark::FootnoteCall => self.write_call(writer, token),
            Mark::Url => {
                self.write_url_link(writer, start.saturating_add(1), end.saturating_sub(1))
            }
            Mark::Address => {
                let (inside, inside_end) = (start.saturating_add(1), end.saturating_sub(1));
                self.write_link(writer, Name::AutolinkEmail, inside, inside_end)
            }
            Mark::BareUrl => {
                self.write_link(writer, Name::GfmAutolinkLiteralProtocol, start, end)
            }
            Mark::BareWww => self.write_link(writer, Name::GfmAutolinkLiteralWww, start, end),
            Mark::LinkStart => self.start_link(writer, start, end),
            Mark::LinkEnd => self.end_link(writer, token),
            Mark::ImageStart => self.start_image(writer, start, end),
            Mark::ImageEnd => self.end_image(writer, token),
        }
    }

    /// Writes the start of a link's label.
    #[inline(always)]
    fn start_link(
        &mut self,
        writer: &mut Writer,
        start: usize,
        end: usize,
    ) -> Result<(), AllocError> {
        self.links = self.links.saturating_add(1);
        write_label_start(writer, Name::Link, start, end)
    }

    /// Writes the end of a link: of its label, and its resource.
    #[inline(always)]
    fn end_link(&mut self, writer: &mut Writer, token: &Token) -> Result<(), AllocError> {
        self.links = self.links.saturating_sub(1);
        self.write_link_end(writer, Name::Link, token)
    }

    /// Writes the start of an image's label.
    #[inline(always)]
    fn start_image(
        &mut self,
        writer: &mut Writer,
        start: usize,
        end: usize,
    ) -> Result<(), AllocError> {
        self.images = self.images.saturating_add(1);
        write_label_start(writer, Name::Image, start, end)
    }

    /// Writes the end of an image: of its label, and its resource.
    #[inline(always)]
    fn end_image(&mut self, writer: &mut Writer, token: &Token) -> Result<(), AllocError> {
        self.images = self.images.saturating_sub(1);
        self.write_link_end(writer, Name::Image, token)
    }

    /// Writes code or math, without the marks of these bytes at both ends.
    #[inline(always)]
    fn write_between(
        &self,
        writer: &mut Writer,
        token: &Token,
        byte: u8,
        names: Names,
    ) -> Result<(), AllocError> {
        let text = self.leaf.bytes.get(token.start..token.end).unwrap_or(b"");
        let width = run_length(text, byte);
        let start = token.start.saturating_add(width);
        let end = token.end.saturating_sub(width);
        self.write_lines(writer, Span::new(start, end), token.index, names)
    }

    /// Writes HTML, unless it is to be left out.
    fn write_html(&self, writer: &mut Writer, token: &Token) -> Result<(), AllocError>
        ensures left_out { self.now.reader.now.options.now.html ≡ DocumentHtml.LeftOut
            → OnOk result (writer.new.events.items ≡ writer.old.events.items) }
    {
        let rest = self.leaf.bytes.get(token.start..).unwrap_or(b"");
        if !keeps(self.reader.options.html, rest.starts_with(b"<!--")) {
            return Ok(());
        }
        let text = Span::new(token.start, token.end);
        self.write_lines(writer, text, token.index, HTML)
    }

    /// Writes a text, with the bare links in it.
    #[inline(always)]
    fn write_text(&self, writer: &mut Writer, start: usize, end: usize) -> Result<(), AllocError> {
        if self.reader.has_late_links && self.links == 0 && self.images == 0 {
            self.write_text_with_links(writer, start, end)
        } else {
            writer.data(start, end)
        }
    }

    /// Writes a text that may contain bare links.
    fn write_text_with_links(
        &self,
        writer: &mut Writer,
        start: usize,
        end: usize,
    ) -> Result<(), AllocError> {
        let text = self.leaf.bytes.get(..end).unwrap_or(b"");
        let mut from = start;
        let mut at = start;
        let mut www = WwwLinks::new();
        while at < text.len() {
            // Each bare link has one of these.
            at = find_any(self.leaf.bytes, [b'@', b':', b'.'], at, text.len());
            if at >= text.len() {
                break;
            }
            match bare_link(&mut www, text, from, at) {
                Some(link) => {
                    writer.data(from, link.start)?;
                    self.write_link(writer, link.name, link.start, link.end)?;
                    from = link.end;
                    at = link.end.max(at.saturating_add(1));
                }
                None => at = at.saturating_add(1),
            }
        }
        writer.data(from, end)
    }

    /// Writes a node whose data begins in a line and may span lines.
    #[inline(always)]
    fn write_lines(
        &self,
        writer: &mut Writer,
        text: Span,
        line: usize,
        names: Names,
    ) -> Result<(), AllocError> {
        writer.enter(names.outer, text.start)?;
        let mut at = text.start;
        if text.end > self.leaf.end(line) {
            at = self.write_several(writer, text, line, names.inner)?;
        }
        if at < text.end {
            writer.leaf(names.inner, at, text.end)?;
        }
        writer.exit(names.outer, text.end)
    }

    /// Writes the lines of such a data before the last; returns where the last one begins.
    #[inline(never)]
    fn write_several(
        &self,
        writer: &mut Writer,
        text: Span,
        line: usize,
        inner: Name,
    ) -> Result<usize, AllocError> {
        let mut at = text.start;
        let lines = self.leaf.lines.get(line..).unwrap_or(&[]);
        for (index, line) in lines.iter().enumerate() {
            if text.end <= line.end || index.saturating_add(1) == lines.len() {
                break;
            }
            if at < line.end {
                writer.leaf(inner, at, line.end)?;
            }
            writer.leaf(Name::LineEnding, line.end, line.next())?;
            at = match lines.get(index.saturating_add(1)) {
                Some(next) => next.start,
                None => line.next(),
            };
        }
        Ok(at)
    }
}

/// Whether HTML is kept, which may be a comment.
fn keeps(html: DocumentHtml, is_comment: bool) -> bool
    ensures left_out { html ≡ DocumentHtml.LeftOut → result ≡ false }
    ensures text { html ≡ DocumentHtml.Text → result ≡ true }
    ensures comments { html ≡ DocumentHtml.WithoutComments → result ≡ not is_comment }
{
    match html {
        DocumentHtml::Text => true,
        DocumentHtml::LeftOut => false,
        DocumentHtml::WithoutComments => !is_comment,
    }
}

/// The bare link whose mark is at an index. It begins at `low` or later, and ends with the text.
fn bare_link(www: &mut WwwLinks, text: &[u8], low: usize, at: usize) -> Option<BareLink> {
    let high = text.len();
    match text.get(at) {
        Some(b'@') => address(text, low, at, high),
        Some(b':') => url(text, low, at, high),
        Some(_) => www.find(text, 0, low, at, high),
        None => None,
    }
}
