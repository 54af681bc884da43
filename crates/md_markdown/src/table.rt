//! Tables.

use md_base::Name;
use md_blocks::next_cell;
use md_inlines::{Inlines, Writer};
use md_lines::{Line, trim_end, trim_start};
use std::alloc::AllocError;

/// Writes a table: its head, its delimiters, and its rows. It has as many columns as its head has
/// cells.
pub(crate) fn write_table(
    writer: &mut Writer,
    inlines: &mut Inlines,
    bytes: &[u8],
    lines: &[Line],
) -> Result<(), AllocError> {
    let [head, delimiters, rows @ ..] = lines else {
        return Ok(());
    };
    writer.enter(Name::GfmTable, head.start)?;
    writer.enter(Name::GfmTableHead, head.start)?;
    let columns = write_row(writer, inlines, bytes, head, usize::MAX)?;
    write_delimiters(writer, bytes, delimiters)?;
    writer.exit(Name::GfmTableHead, delimiters.end)?;
    let mut end = delimiters.end;
    if let (Some(first), Some(last)) = (rows.first(), rows.last()) {
        writer.leaf(Name::LineEnding, delimiters.end, delimiters.next())?;
        writer.enter(Name::GfmTableBody, first.start)?;
        for row in rows {
            write_row(writer, inlines, bytes, row, columns)?;
        }
        writer.exit(Name::GfmTableBody, last.end)?;
        end = last.end;
    }
    writer.exit(Name::GfmTable, end)
}

/// The beginning and the end of the cells of a row: after a bar at its beginning, without the
/// spaces at its end.
fn cells_of(bytes: &[u8], line: &Line) -> (usize, usize) {
    let end = trim_end(bytes, line.start, line.end);
    let has_bar = line.start < end && matches!(bytes.get(line.start), Some(b'|'));
    let start = if has_bar {
        line.start.saturating_add(1)
    } else {
        line.start
    };
    (start, end)
}

/// Writes a row: at most `columns` of its cells, those beyond are left out. Returns how many were
/// written.
fn write_row(
    writer: &mut Writer,
    inlines: &mut Inlines,
    bytes: &[u8],
    line: &Line,
    columns: usize,
) -> Result<usize, AllocError> {
    writer.enter(Name::GfmTableRow, line.start)?;
    let (mut at, end) = cells_of(bytes, line);
    let mut count = 0;
    for index in 0..columns {
        if at >= end {
            break;
        }
        let bar = next_cell(bytes, at, end);
        write_cell(writer, inlines, bytes, at, bar)?;
        at = bar.saturating_add(1);
        count = index + 1;
    }
    writer.exit(Name::GfmTableRow, line.end)?;
    Ok(count)
}

/// Writes a cell between two indices.
fn write_cell(
    writer: &mut Writer,
    inlines: &mut Inlines,
    bytes: &[u8],
    from: usize,
    bar: usize,
) -> Result<(), AllocError> {
    let start = trim_start(bytes, from, bar);
    let end = trim_end(bytes, start, bar).max(start);
    writer.enter(Name::GfmTableCell, start)?;
    if start < end {
        inlines.write_cell(writer, Line::part(start, end))?;
    }
    writer.exit(Name::GfmTableCell, end)
}

/// Writes the row of delimiters.
fn write_delimiters(writer: &mut Writer, bytes: &[u8], line: &Line) -> Result<(), AllocError> {
    writer.enter(Name::GfmTableDelimiterRow, line.start)?;
    let (mut at, end) = cells_of(bytes, line);
    while at < end {
        let bar = next_cell(bytes, at, end);
        let start = trim_start(bytes, at, bar);
        write_delimiter(writer, bytes, start, trim_end(bytes, start, bar))?;
        at = bar.max(at).saturating_add(1);
    }
    writer.exit(Name::GfmTableDelimiterRow, line.end)
}

/// Writes a column's alignment: it depends on the first and the last child, and if only one of them
/// is a marker, something else takes the place of the other.
fn write_delimiter(
    writer: &mut Writer,
    bytes: &[u8],
    start: usize,
    end: usize,
) -> Result<(), AllocError> {
    let text = bytes.get(start..end).unwrap_or(b"");
    let is_left = matches!(text, [b':', ..]);
    let is_right = matches!(text, [.., b':']);
    writer.enter(Name::GfmTableDelimiterCellValue, start)?;
    if is_left || is_right {
        write_marker(writer, is_left, start, start.saturating_add(1), start)?;
        write_marker(writer, is_right, end.saturating_sub(1), end, end)?;
    }
    writer.exit(Name::GfmTableDelimiterCellValue, end)
}

/// Writes a marker, or something else in its place.
fn write_marker(
    writer: &mut Writer,
    is_there: bool,
    start: usize,
    end: usize,
    other: usize,
) -> Result<(), AllocError> {
    if is_there {
        writer.leaf(Name::GfmTableDelimiterMarker, start, end)
    } else {
        writer.leaf(Name::Other(u16::MAX), other, other)
    }
}
