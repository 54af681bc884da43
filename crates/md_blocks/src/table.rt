//! Rows of tables.

ghost use Rattle.std.specs.Prelude.{◌≡◌, ◌≤◌, ◌<◌, ◌+◌, ◌∷◌, length, is_some, IfSome};
ghost use Rattle.std.specs.Prelude.{◌-◌, ◌==◌, ◌&&◌, drop, false, get_or, max, nat_lt, take};
ghost use Rattle.md_blocks.specs.Leaves.{is_delimiter_row, delimiters, is_delimiter};
ghost use Rattle.md_blocks.specs.Leaves.{cells, cell_length, without_first, may_begin_delimiter};
ghost use Rattle.md_blocks.specs.Tables.{bar_at, cells_after, ends_cell, inside_row, row_cells};
ghost use Rattle.md_blocks.specs.Tapes.{text_of_line};

use crate::marker::{is_blank_from, run_end, without_blanks};
use md_lines::{Line, trim_start};

/// The end of the cell that begins at an index: the next bar without a backslash before it in the
/// cell, or `end`.
#[inline]
pub fn next_cell(bytes: &[u8], at: usize, end: usize) -> usize
    ensures after { at ≤ result }
    ensures within { at ≤ end → result ≤ end }
    ensures value { result ≡ at + bar_at false (drop at (take end bytes.now)) }
{
    cell_end(&bytes[..end.min(bytes.len())], at)
}

/// The end of the cell of a row that begins at an index.
#[inline(always)]
fn cell_end(row: &[u8], at: usize) -> usize
    ensures after { at ≤ result }
    ensures within { result ≤ max at (length row.now) }
    ensures value { result ≡ at + bar_at false (drop at row.now) }
{
    let mut to = at;
    while to < row.len() && !ends_cell(row, at, to) {
        to += 1;
    }
    to
}

/// Whether the byte at an index ends the cell that begins at `at`: a bar without a backslash before
/// it.
#[inline(always)]
fn ends_cell(row: &[u8], at: usize, to: usize) -> bool
    requires { to < length row.now }
    ensures { result ≡ ends_cell (nat_lt at to && get_or row.now (to - 1) 0 == 92)
        (get_or row.now to 0) }
{
    row[to] == b'|' && !(at < to && row[to - 1] == b'\\')
}

/// The number of cells in a line. Only spaces are left of a tab that belongs in part to the
/// prefixes.
pub(crate) fn cells_of_line(bytes: &[u8], line: Line) -> usize
    ensures { result ≡ length (row_cells (text_of_line bytes.now line)) }
{
    let text = &bytes[..line.end.min(bytes.len())];
    if line.columns == 0 {
        count_cells(text_from(text, line.start))
    } else {
        count_cells(text_from(text, line.start.saturating_add(1)))
    }
}

/// The text of a line from an index.
#[inline(always)]
fn text_from(line: &[u8], from: usize) -> &[u8]
    ensures { result.now ≡ drop from line.now }
{
    match line.get(from..) {
        Some(text) => text,
        None => &[],
    }
}

/// The number of cells in a row. A cell begins after the leading bar or the previous bar, and ends
/// at a bar or at the end of the row.
pub(crate) fn count_cells(row: &[u8]) -> usize
    ensures { result ≡ length (row_cells row.now) }
{
    let mut rest = inside_row(row);
    let mut count = 0;
    while !rest.is_empty() {
        rest = after_cell(rest);
        count += 1;
    }
    count
}

/// A row without the spaces and tabs around it, and without its leading bar.
#[inline(always)]
fn inside_row(row: &[u8]) -> &[u8]
    ensures value { result.now ≡ inside_row row.now }
    ensures within { length result.now ≤ length row.now }
{
    let start = trim_start(row, 0, row.len());
    without_first(without_blanks(&row[start..]), b'|')
}

/// The rest of a row that isn't empty, after its first cell and the bar that ends it.
#[inline(always)]
fn after_cell(row: &[u8]) -> &[u8]
    requires { 0 < length row.now }
    ensures cells { cells_after false row.now
        ≡ take (bar_at false row.now) row.now ∷ cells_after false result.now }
    ensures shorter { length result.now < length row.now }
{
    let next = (cell_end(row, 0) + 1).min(row.len());
    &row[next..]
}

/// The number of columns of a delimiter row, to its end; `None` if the text isn't one.
pub(crate) fn delimiter_columns(text: &[u8]) -> Option<usize>
    ensures there { is_some result ≡ is_delimiter_row text.now }
    ensures columns { IfSome result (λ columns. columns ≡ length (delimiters text.now)) }
{
    let mut rest = without_first(without_blanks(text), b'|');
    let mut columns = 0;
    while let Some(first) = rest.first() {
        if !may_begin_delimiter(*first) {
            return None;
        }
        let (cell, after) = split_cell(rest);
        if !is_delimiter(cell) {
            return None;
        }
        columns += 1;
        rest = after;
    }
    if columns > 0 && (text.contains(&b'|') || text.contains(&b':')) {
        Some(columns)
    } else {
        None
    }
}

/// A text without a byte at its beginning, if it has it.
#[inline(always)]
pub(crate) fn without_first(text: &[u8], byte: u8) -> &[u8]
    ensures value { result.now ≡ without_first byte text.now }
    ensures within { length result.now ≤ length text.now }
{
    match text.first() {
        Some(first) if *first == byte => &text[1..],
        _ => text,
    }
}

/// The first cell of a row that isn't empty, and the row after the bar that ends it.
#[inline(always)]
fn split_cell(row: &[u8]) -> (&[u8], &[u8])
    ensures cells { 0 < length row.now → cells row.now ≡ result.0.now ∷ cells result.1.now }
    ensures shorter { 0 < length row.now → length result.1.now < length row.now }
{
    let end = cell_length(row);
    let next = (end + 1).min(row.len());
    (&row[..end], &row[next..])
}

/// The length of the first cell of a row.
#[inline(always)]
fn cell_length(row: &[u8]) -> usize
    ensures within { result ≤ length row.now }
    ensures value { result ≡ cell_length row.now }
{
    let mut end = 0;
    while end < row.len() && row[end] != b'|' {
        end += 1;
    }
    end
}

/// Whether a cell that begins with a byte may delimit a column.
#[inline(always)]
fn may_begin_delimiter(byte: u8) -> bool
    ensures { result ≡ may_begin_delimiter byte }
{
    matches!(byte, b'-' | b':' | b' ' | b'\t')
}

/// Whether a cell delimits a column.
#[inline(always)]
fn is_delimiter(cell: &[u8]) -> bool
    ensures { result ≡ is_delimiter cell.now }
{
    let start = trim_start(cell, 0, cell.len());
    let marks = without_first(&cell[start..], b':');
    let end = run_end(marks, 0, b'-');
    end > 0 && is_blank_from(without_first(&marks[end..], b':'), 0)
}
