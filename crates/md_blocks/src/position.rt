//! A position in a line, by bytes and by columns.

ghost use Rattle.std.specs.Prelude.{◌≡◌, ◌+◌, ◌*◌, ◌≤◌, ◌<◌, ◌%◌, ◌∷◌, suc, length, drop};
ghost use Rattle.std.specs.Prelude.{get_or, IsSome, true, ℕ, List, []};
ghost use Rattle.md_blocks.specs.Rests.{text_of, rest_at, columns_at, skipped, skipped_at};
ghost use Rattle.md_blocks.specs.Leaves.{blanks};
ghost use Rattle.md_blocks.specs.Rests.{passed, width, is_blank_rest, first};

use md_lines::Line;

/// The number of columns between two tab stops.
const TAB_STOP: usize = 4;

/// A position in a line, and the spaces, tabs and text that follow it.
#[derive(Drop)]
pub(crate) struct Position<'a> {
    /// The document up to the end of the line.
    pub(crate) line: &'a [u8],
    /// The number of bytes of the line ending.
    pub(crate) ending: u8,
    /// The index of the byte at the position.
    pub(crate) at: usize,
    /// The column of the position, from the beginning of the line, or from a tab stop.
    pub(crate) column: usize,
    /// Whether the position is within the columns of the tab at `at`.
    pub(crate) is_in_tab: bool,
    /// The index of the first byte that is neither a space nor a tab; the end of the line if there
    /// is none.
    pub(crate) text: usize,
    /// How many columns precede that byte.
    pub(crate) indent: usize,
    ghost before_text: { at ≤ text },
    ghost in_line: { text ≤ length line.now },
    ghost short: { length line.now ≤ 1152921504606846976 },
    ghost few: { column + indent ≤ 4 * text + 3 },
    ghost in_tab: { is_in_tab ≡ true → drop at line.now ≡ 9 ∷ drop (suc at) line.now },
    ghost indents: { indent ≡ columns_at column (text_of line.now at column is_in_tab) },
    ghost text_there: { text ≡ at + blanks (drop at line.now) },
    ghost part_of_tab: { is_in_tab ≡ true → 0 < column % 4 },
}

impl<'a> Position<'a> {
    ghost use Rattle.md_blocks.specs.Positions.{IsIn, rest_line, rest_of, text_line};
    ghost use Rattle.md_blocks.specs.Tapes.{line_of};

    /// The position at the beginning of a line, which extends from `at` to the end of `line`.
    #[inline(always)]
    pub(crate) fn new(line: &'a [u8], at: usize, ending: u8) -> Self
        requires within { at ≤ length line.now }
        requires short { length line.now ≤ 1152921504606846976 }
        ensures at { result.at ≡ at }
        ensures line { result.line.now ≡ line.now }
        ensures ending { result.ending ≡ ending }
        ensures rest { rest_of result ≡ rest_at 0 (drop at line.now) }
    {
        let (text, indent) = text_after(line, at, 0);
        Position {
            line,
            ending,
            at,
            column: 0,
            is_in_tab: false,
            text,
            indent,
        }
    }

    /// The first byte of the text; `None` if only spaces and tabs remain.
    #[inline(always)]
    pub(crate) fn byte(&self) -> Option<u8>
        ensures there { IsSome result → self.now.text < length self.now.line.now }
        ensures value { result ≡ first (rest_of self.now) }
    {
        if self.text < self.line.len() {
            Some(self.line[self.text])
        } else {
            None
        }
    }

    /// Whether only spaces and tabs remain.
    #[inline(always)]
    pub(crate) fn is_blank(&self) -> bool
        ensures { result ≡ is_blank_rest (rest_of self.now) }
    {
        self.text >= self.line.len()
    }

    /// The text, to the end of the line.
    #[inline(always)]
    pub(crate) fn bytes(&self) -> &'a [u8]
        ensures { result.now ≡ drop self.now.text self.now.line.now }
    {
        &self.line[self.text..]
    }

    /// Skips `columns` columns of spaces and tabs, or all if fewer remain.
    pub(crate) fn advance(&mut self, columns: usize)
        ensures at { self.old.at ≤ self.new.at }
        ensures line { self.new.line ≡ self.old.line }
        ensures ending { self.new.ending ≡ self.old.ending }
        ensures rest { rest_of self.new ≡ skipped columns (rest_of self.old) }
    {
        let left = columns.min(self.indent);
        let (at, column, is_in_tab) = skip_columns(
            self.line,
            self.text,
            self.at,
            self.column,
            self.is_in_tab,
            left,
        );
        self.at = at;
        self.column = column;
        self.is_in_tab = is_in_tab;
        self.indent -= left;
    }

    /// Skips the spaces and tabs, and `width` bytes of the text.
    pub(crate) fn pass(&mut self, width: usize)
        requires { self.old.text + width ≤ length self.old.line.now }
        ensures at { self.new.at ≡ self.old.text + width }
        ensures line { self.new.line ≡ self.old.line }
        ensures ending { self.new.ending ≡ self.old.ending }
        ensures rest { rest_of self.new ≡ passed width (rest_of self.old) }
    {
        let at = self.text + width;
        let column = self.column + self.indent + width;
        let (text, indent) = text_after(self.line, at, column);
        self.at = at;
        self.column = column;
        self.is_in_tab = false;
        self.text = text;
        self.indent = indent;
    }

    /// Skips the spaces and tabs.
    #[inline(always)]
    pub(crate) fn pass_blanks(&mut self)
        ensures at { self.new.at ≡ self.old.text }
        ensures indent { self.new.indent ≡ 0 }
        ensures line { self.new.line ≡ self.old.line }
        ensures ending { self.new.ending ≡ self.old.ending }
        ensures rest { rest_of self.new ≡ passed 0 (rest_of self.old) }
    {
        self.at = self.text;
        self.column += self.indent;
        self.is_in_tab = false;
        self.indent = 0;
    }

    /// Skips the mark of a quote, and a column of space after it.
    #[inline(always)]
    pub(crate) fn pass_quote_mark(&mut self)
        requires { self.old.text < length self.old.line.now }
        ensures at { self.old.at < self.new.at }
        ensures line { self.new.line ≡ self.old.line }
        ensures ending { self.new.ending ≡ self.old.ending }
        ensures rest { rest_of self.new ≡ skipped 1 (passed 1 (rest_of self.old)) }
    {
        self.pass(1);
        self.advance(1);
    }

    /// Moves to the end of the line.
    pub(crate) fn finish(&mut self)
        ensures at { self.old.at ≤ self.new.at }
        ensures line { self.new.line ≡ self.old.line }
        ensures ending { self.new.ending ≡ self.old.ending }
        ensures rest { rest_of self.new ≡ rest_at (rest_of self.old).column [] }
    {
        self.text = self.line.len();
        self.at = self.text;
        self.indent = 0;
        self.is_in_tab = false;
    }

    /// The line from the position, with the spaces and tabs that remain.
    #[inline(always)]
    pub(crate) fn rest(&self) -> Line
        ensures columns { self.now.is_in_tab ≡ true → result.columns ≡ self.now.column % 4 }
        ensures line { (bytes : List ℕ) → IsIn bytes self.now
            → line_of bytes result ≡ rest_line bytes self.now }
    {
        let columns = if self.is_in_tab {
            (self.column % TAB_STOP) as u8
        } else {
            0
        };
        Line {
            start: self.at,
            end: self.line.len(),
            columns,
            ending: self.ending,
        }
    }

    /// The line from the text.
    #[inline(always)]
    pub(crate) fn text_line(&self) -> Line
        ensures end { result.end ≡ length self.now.line.now }
        ensures ending { result.ending ≡ self.now.ending }
        ensures columns { result.columns ≡ 0 }
        ensures line { (bytes : List ℕ) → IsIn bytes self.now
            → line_of bytes result ≡ text_line bytes self.now }
    {
        Line {
            start: self.text,
            end: self.line.len(),
            columns: 0,
            ending: self.ending,
        }
    }
}

/// Skips `columns` columns of spaces and tabs, of which there are enough before `text`. Returns the
/// index, the column, and whether that is within the tab at that index.
#[inline(always)]
fn skip_columns(
    line: &[u8],
    text: usize,
    from: usize,
    start: usize,
    within: bool,
    columns: usize,
) -> (usize, usize, bool)
    requires in_line { text ≤ length line.now }
    requires short { length line.now ≤ 1152921504606846976 }
    requires text { text ≡ from + blanks (drop from line.now) }
    requires tab { within ≡ true → drop from line.now ≡ 9 ∷ drop (suc from) line.now }
    requires part { within ≡ true → 0 < start % 4 }
    requires enough { columns ≤ columns_at start (text_of line.now from start within) }
    requires few { start + columns_at start (text_of line.now from start within) ≤ 4 * text + 3 }
    ensures after { from ≤ result.0 }
    ensures text { text ≡ result.0 + blanks (drop result.0 line.now) }
    ensures tab { result.2 ≡ true → drop result.0 line.now ≡ 9 ∷ drop (suc result.0) line.now }
    ensures indent { columns_at result.1 (text_of line.now result.0 result.1 result.2) + columns
        ≡ columns_at start (text_of line.now from start within) }
    ensures column { result.1 ≡ start + columns }
    ensures part { result.2 ≡ true → 0 < result.1 % 4 }
    ensures rest { rest_at result.1 (text_of line.now result.0 result.1 result.2)
        ≡ skipped_at columns start (text_of line.now from start within) }
{
    let mut at = from;
    let mut column = start;
    let mut is_in_tab = within;
    let mut left = columns;
    while left > 0 && at < text {
        let width = width_at(line, at, column);
        if width > left {
            return (at, column + left, true);
        }
        is_in_tab = false;
        column += width;
        at += 1;
        left -= width;
    }
    (at, column, is_in_tab)
}

/// The width in columns of the space or tab at an index, if it begins at a column.
#[inline(always)]
fn width_at(line: &[u8], at: usize, column: usize) -> usize
    requires { at < length line.now }
    ensures some { 1 ≤ result }
    ensures few { result ≤ 4 }
    ensures value { result ≡ width column (get_or line.now at 0) }
{
    if line[at] == b'\t' {
        TAB_STOP - column % TAB_STOP
    } else {
        1
    }
}

/// The beginning of the text after the spaces and tabs at an index, and the width of these in
/// columns.
#[inline(always)]
fn text_after(line: &[u8], from: usize, column: usize) -> (usize, usize)
    requires within { from ≤ length line.now }
    requires short { length line.now ≤ 1152921504606846976 }
    requires column { column ≤ 4 * from + 3 }
    ensures after { from ≤ result.0 }
    ensures within { result.0 ≤ length line.now }
    ensures few { column + result.1 ≤ 4 * result.0 + 3 }
    ensures text { result.0 ≡ from + blanks (drop from line.now) }
    ensures indent { result.1 ≡ columns_at column (drop from line.now) }
{
    let mut at = from;
    let mut indent: usize = 0;
    while at < line.len() && (line[at] == b' ' || line[at] == b'\t') {
        indent += width_at(line, at, column + indent);
        at += 1;
    }
    (at, indent)
}
