//! Spans: they are written in each block in which they have text.

use crate::attributes::push_tag;
use crate::names::{Kind, Tag};
use crate::tree::{Content, Tree, push_end};
use std::alloc::{AllocError, Global};

/// How many spans may be open.
const MOST_OF_SPANS: usize = 64;

/// Where a span is.
#[derive(Clone, Copy, PartialEq, Eq)]
enum State {
    /// It began or goes on in the block of this depth.
    Open(usize),
    /// Its block ended, and it goes on where a text comes.
    Ended,
    /// It goes on after the open cell.
    Hidden,
    /// It has ended.
    Closed,
}

/// An open span.
#[derive(Clone, Copy)]
pub(crate) struct Span<'a> {
    name: &'a str,
    tag: Tag,
    attributes: &'a str,
    state: State,
    is_open: bool,
    was_written: bool,
}

impl Span<'_> {
    /// Whether it is in a block of this depth, or one in that.
    fn is_within(&self, depth: usize) -> bool {
        match self.state {
            State::Open(own) => own >= depth,
            State::Ended | State::Hidden | State::Closed => false,
        }
    }
}

impl<'a> Tree<'a> {
    /// Opens a span.
    pub(crate) fn open_span(
        &mut self,
        name: &'a str,
        tag: Tag,
        attributes: &'a str,
    ) -> Result<(), AllocError> {
        if tag.kind == Kind::Link {
            self.end_link()?;
        }
        self.make_room()?;
        self.revive_spans();
        if self.spans.len() >= MOST_OF_SPANS {
            return Ok(());
        }
        self.spans.push(Span {
            name,
            tag,
            attributes,
            state: State::Open(self.blocks.len()),
            is_open: false,
            was_written: false,
        })?;
        Ok(())
    }

    /// Ends the open link.
    fn end_link(&mut self) -> Result<(), AllocError> {
        let found = self.spans.iter().rposition(|span| span.tag.kind == Kind::Link
            && span.state != State::Hidden);
        match found {
            Some(index) => self.end_span_at(index),
            None => Ok(()),
        }
    }

    /// Ends the last span of this name, if one is open here.
    pub(crate) fn end_span(&mut self, name: &str, tag: Tag) -> Result<(), AllocError> {
        let floor = if tag.is_formatting {
            self.floor()
        } else {
            self.blocks.len()
        };
        let found = self
            .spans
            .iter()
            .rposition(|span| is_named(span, name) && span.state != State::Hidden);
        let Some(index) = found else {
            return Ok(());
        };
        match self.spans.get(index) {
            Some(span) if span.state == State::Ended || span.is_within(floor) => {
                self.write_empty(index)?;
                self.end_span_at(index)
            }
            _ => Ok(()),
        }
    }

    /// Writes a span that has no text.
    fn write_empty(&mut self, index: usize) -> Result<(), AllocError> {
        let is_flow = matches!(self.content(), Content::Flow | Content::Phrasing);
        match self.spans.get(index) {
            Some(span) if is_flow && !span.was_written => self.write_spans(),
            _ => Ok(()),
        }
    }

    /// The depth of the innermost block that ends the scope of formatting.
    fn floor(&self) -> usize {
        let found = self.blocks.iter().rposition(|block| {
            matches!(
                block.tag.kind,
                Kind::Table | Kind::Cell | Kind::Caption | Kind::Scope
            )
        });
        match found {
            Some(index) => index.saturating_add(1),
            None => 0,
        }
    }

    /// Ends a span, and the later ones that aren't formatting: in its block, or if the span itself
    /// is formatting, in every block.
    fn end_span_at(&mut self, index: usize) -> Result<(), AllocError> {
        self.close_spans_from(index)?;
        let Some(ended) = self.spans.get_mut(index) else {
            return Ok(());
        };
        let state = ended.state;
        let is_formatting = ended.tag.is_formatting;
        ended.state = State::Closed;
        for span in self.spans.iter_mut().skip(index) {
            if !span.tag.is_formatting && (is_formatting || span.state == state) {
                span.state = State::Closed;
            }
        }
        self.spans.retain(|span| span.state != State::Closed);
        Ok(())
    }

    /// Lets the spans go on whose blocks ended.
    pub(crate) fn revive_spans(&mut self) {
        let depth = self.blocks.len();
        for span in self.spans.iter_mut() {
            if span.state == State::Ended {
                span.state = State::Open(depth);
            }
        }
    }

    /// Hides the spans whose blocks ended, in a cell.
    pub(crate) fn hide_spans(&mut self) {
        for span in self.spans.iter_mut() {
            if span.state == State::Ended {
                span.state = State::Hidden;
            }
        }
    }

    /// Ends the spans in a block of this depth: those of formatting go on after it, unless it is a
    /// cell.
    pub(crate) fn end_spans(&mut self, depth: usize, is_cell: bool) -> Result<(), AllocError> {
        let first = self.spans.iter().position(|span| span.is_within(depth));
        if let Some(index) = first {
            self.close_spans_from(index)?;
        }
        for span in self.spans.iter_mut() {
            span.state = state_after(span, depth, is_cell);
        }
        self.spans.retain(|span| span.state != State::Closed);
        Ok(())
    }

    /// Whether a span began in the last block.
    pub(crate) fn has_span_here(&self) -> bool {
        let depth = self.blocks.len();
        self.spans.iter().any(|span| span.is_within(depth))
    }

    /// Whether white space here is a span's: of one that isn't closed, or was never written.
    pub(crate) fn has_span_for_white(&self) -> bool {
        self.spans.iter().any(|span| span.is_open || (is_waiting(span) && !span.was_written))
    }

    /// Writes the spans that aren't written, if they may be written here.
    pub(crate) fn write_spans(&mut self) -> Result<(), AllocError> {
        self.revive_spans();
        if self.content() == Content::Code {
            return Ok(());
        }
        if let Some(first) = self.spans.iter().position(is_waiting) {
            self.close_spans_from(first)?;
            self.are_spans_in_table = self.is_in_table();
            return self.write_waiting();
        }
        Ok(())
    }

    /// Writes the spans that aren't written.
    fn write_waiting(&mut self) -> Result<(), AllocError> {
        let protocols = self.options.protocols;
        let spans = self.spans.as_mut_slice();
        if self.are_spans_in_table {
            write_from(
                self.alloc,
                &mut self.table,
                spans,
                &mut self.budget,
                protocols,
            )
        } else {
            write_from(
                self.alloc,
                &mut self.out,
                spans,
                &mut self.budget,
                protocols,
            )
        }
    }

    /// Closes all written spans.
    pub(crate) fn close_written_spans(&mut self) -> Result<(), AllocError> {
        self.close_spans_from(0)
    }

    /// Closes code: what comes next may not stand in it.
    pub(crate) fn close_code(&mut self) -> Result<(), AllocError> {
        match self.spans.iter().position(is_open_code) {
            Some(index) => self.close_spans_from(index),
            None => Ok(()),
        }
    }

    /// Closes the written spans from an index on.
    fn close_spans_from(&mut self, index: usize) -> Result<(), AllocError> {
        let spans = self.spans.as_mut_slice();
        if self.are_spans_in_table {
            close_from(&mut self.table, spans, index)
        } else {
            close_from(&mut self.out, spans, index)
        }
    }
}

/// Closes the written spans from an index on.
fn close_from(out: &mut String, spans: &mut [Span<'_>], index: usize) -> Result<(), AllocError> {
    for span in spans.iter_mut().skip(index).rev() {
        if span.is_open {
            span.is_open = false;
            push_end(out, span.tag.name)?;
        }
    }
    Ok(())
}

/// The state of a span after a block of this depth.
fn state_after(span: &Span<'_>, depth: usize, is_cell: bool) -> State {
    match span.state {
        State::Open(own) if own >= depth && (is_cell || !span.tag.is_formatting) => State::Closed,
        State::Open(own) if own >= depth => State::Ended,
        State::Ended if is_cell => State::Closed,
        State::Hidden if is_cell => State::Ended,
        state => state,
    }
}

/// Whether a span has this name in any case.
fn is_named(span: &Span<'_>, name: &str) -> bool {
    span.name.as_bytes().eq_ignore_ascii_case(name.as_bytes())
}

/// Whether a span is to be written.
fn is_waiting(span: &Span<'_>) -> bool {
    span.tag.is_written && !span.is_open && matches!(span.state, State::Open(_))
}

/// Whether a span is code that isn't closed.
fn is_open_code(span: &Span<'_>) -> bool {
    span.is_open && span.tag.kind == Kind::Code
}

/// Writes the spans that aren't written, as long as the budget for tags that are written again
/// allows it. Nothing is written in code.
fn write_from(
    alloc: Global,
    out: &mut String,
    spans: &mut [Span<'_>],
    budget: &mut usize,
    protocols: Option<&[&str]>,
) -> Result<(), AllocError> {
    for span in spans.iter_mut() {
        if is_waiting(span) {
            spend(span, budget);
            if span.tag.is_written {
                push_tag(alloc, out, span.tag, span.attributes, protocols)?;
                out.push('>')?;
                span.is_open = true;
                span.was_written = true;
            }
        }
        if is_open_code(span) {
            return Ok(());
        }
    }
    Ok(())
}

/// Takes the bytes of tags that are written again from the budget. A span that exceeds it is never
/// written again.
fn spend(span: &mut Span<'_>, budget: &mut usize) {
    if span.was_written {
        let names = span.name.len().saturating_mul(2).saturating_add(5);
        let price = span.attributes.len().saturating_add(names);
        match budget.checked_sub(price) {
            Some(rest) => *budget = rest,
            None => span.tag.is_written = false,
        }
    }
}
