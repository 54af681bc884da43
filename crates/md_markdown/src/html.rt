//! Blocks of HTML, whole or without their comments.

ghost use Rattle.std.specs.Prelude.{◌≤◌, IfSome};

use crate::code::Run;
use md_base::Name;
use md_inlines::Writer;
use md_lines::Line;
use std::alloc::{AllocError, Global};
use std::str;

/// Writes a block of HTML unchanged.
pub(crate) fn write_html(writer: &mut Writer, lines: &[Line]) -> Result<(), AllocError> {
    let Some((first, others)) = lines.split_first() else {
        return Ok(());
    };
    writer.enter(Name::HtmlFlow, first.start)?;
    let mut run = Run::new(first);
    for line in others {
        if run.is_before(line) {
            run = run.with(line);
        } else {
            write_html_run(writer, run)?;
            writer.leaf(Name::LineEnding, run.end, run.next)?;
            run = Run::new(line);
        }
    }
    write_html_run(writer, run)?;
    writer.exit(Name::HtmlFlow, run.end)
}

/// Writes lines of HTML, if they aren't empty. A tab of which only some columns belong to them is
/// written whole.
fn write_html_run(writer: &mut Writer, run: Run) -> Result<(), AllocError> {
    if run.start < run.end {
        writer.leaf(Name::HtmlFlowData, run.start, run.end)?;
    }
    Ok(())
}

/// A part of a block of HTML.
#[derive(Clone, Copy, Debug, PartialEq, Eq)]
pub(crate) enum Piece {
    /// A part of a line.
    Text { start: usize, end: usize },
    /// A line ending.
    Ending { start: usize, end: usize },
}

/// The parts of a block outside its comments. A comment extends from `<!--` to `-->`, or to the
/// block's end. `<!-->` and `<!--->` are complete comments. Line endings at the end are left out.
pub(crate) fn without_comments(
    alloc: Global,
    bytes: &[u8],
    lines: &[Line],
) -> Result<Vec<Piece>, AllocError> {
    let mut pieces = Vec::new(alloc);
    let mut is_inside = false;
    for line in lines {
        is_inside = push_line(&mut pieces, bytes, line, is_inside)?;
        if !is_inside {
            pieces.push(Piece::Ending {
                start: line.end,
                end: line.next(),
            })?;
        }
    }
    let endings = pieces
        .iter()
        .rev()
        .take_while(|piece| matches!(piece, Piece::Ending { .. }))
        .count();
    pieces.truncate(pieces.len().saturating_sub(endings));
    Ok(pieces)
}

/// Adds the parts of a line outside comments; returns whether a comment continues after it.
/// `is_inside` says that a comment continues in it.
fn push_line(
    pieces: &mut Vec<Piece>,
    bytes: &[u8],
    line: &Line,
    is_inside: bool,
) -> Result<bool, AllocError> {
    let mut is_inside = is_inside;
    let mut at = line.start;
    while at < line.end {
        if is_inside {
            let Some(end) = find(bytes, at, line.end, b"-->") else {
                return Ok(true);
            };
            at = end.saturating_add(3);
            is_inside = false;
        } else {
            let start = find(bytes, at, line.end, b"<!--");
            push_text(pieces, at, start.unwrap_or(line.end))?;
            let Some(start) = start else {
                return Ok(false);
            };
            at = start.saturating_add(2);
            is_inside = true;
        }
    }
    Ok(is_inside)
}

/// Adds a part of a line, if it isn't empty.
fn push_text(pieces: &mut Vec<Piece>, start: usize, end: usize) -> Result<(), AllocError> {
    if start < end {
        pieces.push(Piece::Text { start, end })?;
    }
    Ok(())
}

/// The index of a mark between two indices.
fn find(bytes: &[u8], from: usize, end: usize, mark: &[u8]) -> Option<usize>
    ensures { IfSome result (λ at. from ≤ at) }
{
    let text = bytes.get(from..end).unwrap_or(b"");
    for at in 0..text.len() {
        if text[at..].starts_with(mark) {
            return Some(from.saturating_add(at));
        }
    }
    None
}

/// Whether pieces contain anything except white space.
pub(crate) fn has_text(bytes: &[u8], pieces: &[Piece]) -> bool {
    pieces.iter().any(|piece| match piece {
        Piece::Text { start, end } => !is_white(bytes.get(*start..*end).unwrap_or(b"")),
        Piece::Ending { .. } => false,
    })
}

/// Whether a text is white space.
fn is_white(text: &[u8]) -> bool {
    match str::from_utf8(text) {
        Ok(text) => text.chars().all(|character| character.is_whitespace()),
        Err(_) => false,
    }
}

/// Writes a block of HTML of these pieces, the first of which begins at an index.
pub(crate) fn write_pieces(
    writer: &mut Writer,
    pieces: &[Piece],
    at: usize,
) -> Result<(), AllocError> {
    writer.enter(Name::HtmlFlow, at)?;
    for piece in pieces {
        match piece {
            Piece::Text { start, end } => writer.leaf(Name::HtmlFlowData, *start, *end)?,
            Piece::Ending { start, end } => writer.leaf(Name::LineEnding, *start, *end)?,
        }
    }
    writer.exit(Name::HtmlFlow, at)
}
