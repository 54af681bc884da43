//! Begins leaves.

ghost use Rattle.std.specs.Prelude.{◌≡◌, ◌<◌, ◌∷◌, [], true, false, ℕ, Bool, IfOk, OnOk};
ghost use Rattle.std.specs.Prelude.{IfSome, is_some, length, vec_len};
ghost use Rattle.std.specs.Prelude.{◌&&◌, ◌||◌, ◌==◌, get_or, IsTrue, nat_lt, not, if◌then◌else◌};
ghost use Rattle.md_blocks.specs.BlockStructure.{break_at, leaf_begun, marks_begun, may_underline};
ghost use Rattle.md_blocks.specs.BlockStructure.{Ends, GoesOn, begun, block_begun, deep_read};
ghost use Rattle.md_blocks.specs.BlockStructure.{step_read, text_begun, unless_underlined};
ghost use Rattle.md_blocks.specs.LeafBlocks.{blank_read, blank_waits};
ghost use Rattle.md_blocks.specs.Progress.{is_text};
ghost use Rattle.md_blocks.specs.Rests.{is_blank_rest};
ghost use Rattle.md_blocks.specs.LeafBlocks.{break_begun, code_begun, heading_begun, if_begun};
ghost use Rattle.md_blocks.specs.Entries.{last_line};
ghost use Rattle.md_blocks.specs.LeafBlocks.{definitions_taken, heading_underlined, html_begun};
ghost use Rattle.md_blocks.specs.LeafBlocks.{indented_read, is_table, kind_begun, lacking_after};
ghost use Rattle.md_blocks.specs.LeafBlocks.{paragraph_split, row_read, table_begun, text_read};
ghost use Rattle.md_blocks.specs.Leaves.{delimiters, is_underline};
ghost use Rattle.md_blocks.specs.OwnBlocks.{math_begun};
ghost use Rattle.md_blocks.specs.States.{is_in_paragraph};
ghost use Rattle.md_blocks.specs.declared.pass.OpenLeaf.TheVariants as leaf;

use crate::block::Block;
use crate::code::{Fence, first_word};
use crate::html::HtmlKind;
use crate::leaves::part;
use crate::marker::{heading_content, heading_marks, run_end, underline};
use crate::pass::{CODE_INDENT, OpenLeaf, Pass};
use crate::position::Position;
use crate::table::{cells_of_line, count_cells, delimiter_columns};
use md_lines::{Class, Line, Span, is, trim_start};
use std::alloc::AllocError;

/// How many cells the rows of all tables may lack. A further such row is read as text.
const MOST_MISSING: usize = 1 << 19;

impl<'a> Pass<'a> {
    ghost use Rattle.md_blocks.specs.Passes.{defined_in, leaf_lines, state_of};
    ghost use Rattle.md_blocks.specs.Positions.{IsIn, ending_of, rest_of, text_at, text_line};
    ghost use Rattle.md_blocks.specs.Progress.{begun_of};

    /// Reads a line after the prefixes of `matched` open blocks, if no leaf accepted it; `is_whole`
    /// says that these are all open blocks. Returns whether it is a blank line.
    pub(crate) fn begin_blocks(
        &mut self,
        position: &mut Position<'_>,
        matched: usize,
        is_whole: bool,
    ) -> Result<bool, AllocError>
        requires in_document { IsIn self.old.bytes.now position.old }
        ensures state { OnOk result (state_of self.new
            ≡ begun (length (rest_of position.old).text) self.old.options.now
            (defined_in self.old) matched is_whole (nat_lt 0 position.old.ending) false
            (rest_of position.old) (ending_of self.old.bytes.now position.old)
            (state_of self.old)) }
        ensures blank { IfOk result (λ is_blank. is_blank ≡ true
            → (is_blank_rest (rest_of position.old) ≡ true) × (state_of self.new
            ≡ blank_waits (nat_lt 0 position.old.ending) (blank_read (defined_in self.old) matched
            is_whole (rest_of position.old) (ending_of self.old.bytes.now position.old)
            (state_of self.old)))) }
        ensures document { self.new.bytes ≡ self.old.bytes }
        ensures options { self.new.options ≡ self.old.options }
    {
        let mut depth = matched;
        let mut has_begun = false;
        'parts: while let Some(byte) = position.byte() {
            if !self.begin_block(byte, position, depth, is_whole)? {
                return Ok(false);
            }
            has_begun = true;
            depth = self.nesting.depth();
        }
        if has_begun {
            return Ok(false);
        }
        self.read_blank_line(position, matched, is_whole)?;
        Ok(true)
    }

    /// Begins a block at the text, or reads the line as text; returns whether a container begins,
    /// after which the rest of the line is read.
    #[inline(always)]
    fn begin_block(
        &mut self,
        byte: u8,
        position: &mut Position<'_>,
        depth: usize,
        is_whole: bool,
    ) -> Result<bool, AllocError>
        requires in_document { IsIn self.old.bytes.now position.old }
        requires has_text { position.old.text < length position.old.line.now }
        ensures goes_on { IfOk result (λ goes_on. IsTrue goes_on
            → position.old.at < position.new.at) }
        ensures state { IfOk result (λ goes_on. byte ≡ get_or (text_at position.old) 0 0
            → step_read self.old.options.now (defined_in self.old)
            depth is_whole (rest_of position.old) (ending_of self.old.bytes.now position.old)
            (state_of self.old)
            ≡ (if goes_on then GoesOn (begun_of self.new position.new) else Ends (state_of self.new))) }
        ensures same_line { position.new.line ≡ position.old.line }
        ensures same_ending { position.new.ending ≡ position.old.ending }
        ensures document { self.new.bytes ≡ self.old.bytes }
        ensures options { self.new.options ≡ self.old.options }
    {
        if position.indent >= CODE_INDENT {
            self.read_deep(position, depth, is_whole)?;
            return Ok(false);
        }
        if is_text(byte) {
            self.read_text(position, depth, is_whole)?;
            return Ok(false);
        }
        self.begin_at_mark(byte, position, depth, is_whole)
    }

    /// Reads text after the indentation of code.
    #[inline(always)]
    fn read_deep(
        &mut self,
        position: &mut Position<'_>,
        depth: usize,
        is_whole: bool,
    ) -> Result<(), AllocError>
        requires in_document { IsIn self.old.bytes.now position.old }
        ensures state { OnOk result (state_of self.new ≡ deep_read (defined_in self.old)
            depth is_whole (rest_of position.old) (ending_of self.old.bytes.now position.old)
            (state_of self.old)) }
        ensures same_line { position.new.line ≡ position.old.line }
        ensures same_ending { position.new.ending ≡ position.old.ending }
        ensures document { self.new.bytes ≡ self.old.bytes }
        ensures options { self.new.options ≡ self.old.options }
    {
        if !self.leaf.is_paragraph() {
            return self.read_indented(position, depth, is_whole);
        }
        self.read_text(position, depth, is_whole)
    }

    /// Begins a block at a byte that may be its mark, or reads the line as text; returns whether a
    /// container begins.
    #[inline(always)]
    fn begin_at_mark(
        &mut self,
        byte: u8,
        position: &mut Position<'_>,
        depth: usize,
        is_whole: bool,
    ) -> Result<bool, AllocError>
        requires in_document { IsIn self.old.bytes.now position.old }
        requires has_text { position.old.text < length position.old.line.now }
        requires not_code { position.old.indent < 4 }
        ensures goes_on { IfOk result (λ goes_on. IsTrue goes_on
            → position.old.at < position.new.at) }
        ensures state { IfOk result (λ goes_on. byte ≡ get_or (text_at position.old) 0 0
            → block_begun self.old.options.now (defined_in self.old)
            depth is_whole (rest_of position.old) (ending_of self.old.bytes.now position.old)
            (state_of self.old)
            ≡ (if goes_on then GoesOn (begun_of self.new position.new) else Ends (state_of self.new))) }
        ensures same_line { position.new.line ≡ position.old.line }
        ensures same_ending { position.new.ending ≡ position.old.ending }
        ensures document { self.new.bytes ≡ self.old.bytes }
        ensures options { self.new.options ≡ self.old.options }
    {
        if self.begin_leaf(byte, position, depth, is_whole)? {
            self.blank_line = None;
            return Ok(false);
        }
        if self.begin_container(byte, position, depth, is_whole)? {
            return Ok(true);
        }
        self.begin_text(position, depth, is_whole)?;
        Ok(false)
    }

    /// Begins a table, or reads a line of text.
    #[inline(always)]
    fn begin_text(
        &mut self,
        position: &Position<'_>,
        depth: usize,
        is_whole: bool,
    ) -> Result<(), AllocError>
        requires in_document { IsIn self.old.bytes.now position.now }
        ensures state { OnOk result (state_of self.new
            ≡ text_begun self.old.options.now (defined_in self.old) depth is_whole
            (rest_of position.now) (ending_of self.old.bytes.now position.now)
            (state_of self.old)) }
        ensures document { self.new.bytes ≡ self.old.bytes }
        ensures options { self.new.options ≡ self.old.options }
    {
        if !self.is_in_paragraph(is_whole) {
            return self.read_text(position, depth, is_whole);
        }
        if self.begin_table(position)? {
            return Ok(());
        }
        self.read_text(position, depth, is_whole)
    }

    /// Begins a leaf if the byte starts one, or reads its only line; returns whether it does.
    fn begin_leaf(
        &mut self,
        byte: u8,
        position: &Position<'_>,
        depth: usize,
        is_whole: bool,
    ) -> Result<bool, AllocError>
        requires in_document { IsIn self.old.bytes.now position.now }
        ensures state { IfOk result (λ has_begun. byte ≡ get_or (text_at position.now) 0 0
            → (leaf_begun self.old.options.now (defined_in self.old)
            depth (is_whole && is_in_paragraph (state_of self.old).leaf) (rest_of position.now)
            (ending_of self.old.bytes.now position.now) (state_of self.old)
            ≡ if_begun has_begun (state_of self.new))
            × (has_begun ≡ false → state_of self.new ≡ unless_underlined (defined_in self.old)
            (is_whole && is_in_paragraph (state_of self.old).leaf) (rest_of position.now)
            (state_of self.old))) }
        ensures document { self.new.bytes ≡ self.old.bytes }
        ensures options { self.new.options ≡ self.old.options }
    {
        if byte == b'#' {
            return self.begin_heading(position, depth);
        }
        if is_fence_mark(byte) {
            return self.begin_fenced(byte, position, depth);
        }
        if byte == b'$' {
            if !self.options.math {
                return Ok(false);
            }
            return self.begin_math(position, depth);
        }
        let in_paragraph = self.is_in_paragraph(is_whole);
        if byte == b'<' {
            return self.begin_html(position, depth, in_paragraph);
        }
        self.begin_of_marks(byte, position, depth, in_paragraph)
    }

    /// Changes the open paragraph to a heading, or else reads a thematic break, if the byte is a
    /// mark of these; returns whether the line is one.
    #[inline(always)]
    fn begin_of_marks(
        &mut self,
        byte: u8,
        position: &Position<'_>,
        depth: usize,
        in_paragraph: bool,
    ) -> Result<bool, AllocError>
        requires in_document { IsIn self.old.bytes.now position.now }
        requires is_paragraph { in_paragraph ≡ true → self.old.leaf ≡ leaf.Paragraph }
        ensures state { IfOk result (λ has_begun. byte ≡ get_or (text_at position.now) 0 0
            → (marks_begun (defined_in self.old) depth in_paragraph (rest_of position.now)
            (state_of self.old) ≡ if_begun has_begun (state_of self.new))
            × (has_begun ≡ false → state_of self.new ≡ unless_underlined (defined_in self.old) in_paragraph
            (rest_of position.now) (state_of self.old))) }
        ensures document { self.new.bytes ≡ self.old.bytes }
        ensures options { self.new.options ≡ self.old.options }
    {
        if !may_underline(in_paragraph, byte) {
            return self.begin_break_at(byte, position, depth);
        }
        if self.begin_underlined(byte, position)? {
            return Ok(true);
        }
        self.begin_break_at(byte, position, depth)
    }

    /// Reads a thematic break, if the byte is a mark of it.
    #[inline(always)]
    fn begin_break_at(
        &mut self,
        byte: u8,
        position: &Position<'_>,
        depth: usize,
    ) -> Result<bool, AllocError>
        ensures state { IfOk result (λ has_begun. byte ≡ get_or (text_at position.now) 0 0
            → break_at (defined_in self.old) depth (text_at position.now)
            (state_of self.old) ≡ if_begun has_begun (state_of self.new)) }
        ensures same { IfOk result (λ has_begun.
            has_begun ≡ false → state_of self.new ≡ state_of self.old) }
        ensures document { self.new.bytes ≡ self.old.bytes }
        ensures options { self.new.options ≡ self.old.options }
    {
        if !is_break_mark(byte) {
            return Ok(false);
        }
        self.begin_break(byte, position, depth)
    }

    /// Reads a heading with number signs.
    fn begin_heading(&mut self, position: &Position<'_>, depth: usize) -> Result<bool, AllocError>
        requires in_document { IsIn self.old.bytes.now position.now }
        ensures state { IfOk result (λ has_begun.
            heading_begun (defined_in self.old) depth (text_at position.now)
            (state_of self.old) ≡ if_begun has_begun (state_of self.new)) }
        ensures same { IfOk result (λ has_begun.
            has_begun ≡ false → state_of self.new ≡ state_of self.old) }
        ensures document { self.new.bytes ≡ self.old.bytes }
        ensures options { self.new.options ≡ self.old.options }
    {
        let Some(marks) = heading_marks(position.line, position.text) else {
            return Ok(false);
        };
        self.make_room(depth)?;
        let content = heading_content(&position.line[marks.end..]);
        self.put(Block::AtxHeading {
            level: (marks.end - marks.start) as u8,
            span: Span::new(marks.start, marks.end + content.len()),
        })?;
        Ok(true)
    }

    /// Begins fenced code.
    fn begin_fenced(
        &mut self,
        mark: u8,
        position: &Position<'_>,
        depth: usize,
    ) -> Result<bool, AllocError>
        requires in_document { IsIn self.old.bytes.now position.now }
        ensures state { IfOk result (λ has_begun.
            code_begun (defined_in self.old) mark depth (rest_of position.now) (state_of self.old)
            ≡ if_begun has_begun (state_of self.new)) }
        ensures same { IfOk result (λ has_begun.
            has_begun ≡ false → state_of self.new ≡ state_of self.old) }
        ensures document { self.new.bytes ≡ self.old.bytes }
        ensures options { self.new.options ≡ self.old.options }
    {
        let Some(fence) = Fence::of_code(position, mark) else {
            return Ok(false);
        };
        self.make_room(depth)?;
        let info = first_word(position.line, run_end(position.line, position.text, mark));
        self.begin(OpenLeaf::Fenced(fence), part(info))?;
        Ok(true)
    }

    /// Begins math after a line of dollar signs.
    fn begin_math(&mut self, position: &Position<'_>, depth: usize) -> Result<bool, AllocError>
        requires in_document { IsIn self.old.bytes.now position.now }
        ensures state { IfOk result (λ has_begun.
            math_begun (defined_in self.old) depth (rest_of position.now)
            (ending_of self.old.bytes.now position.now) (state_of self.old)
            ≡ if_begun has_begun (state_of self.new)) }
        ensures same { IfOk result (λ has_begun.
            has_begun ≡ false → state_of self.new ≡ state_of self.old) }
        ensures document { self.new.bytes ≡ self.old.bytes }
        ensures options { self.new.options ≡ self.old.options }
    {
        let Some(fence) = Fence::of_math(position) else {
            return Ok(false);
        };
        self.make_room(depth)?;
        let after = run_end(position.line, position.text, b'$');
        self.begin(OpenLeaf::Math(fence), part(Span::new(position.text, after)))?;
        let end = position.line.len();
        let start = trim_start(position.line, after, end);
        if start < end {
            self.push_line(Line {
                start,
                end,
                columns: 0,
                ending: position.ending,
            })?;
        }
        Ok(true)
    }

    /// Begins HTML.
    fn begin_html(
        &mut self,
        position: &Position<'_>,
        depth: usize,
        in_paragraph: bool,
    ) -> Result<bool, AllocError>
        requires in_document { IsIn self.old.bytes.now position.now }
        ensures state { IfOk result (λ has_begun.
            html_begun (defined_in self.old) depth (kind_begun (not in_paragraph) (text_at position.now))
            (rest_of position.now) (ending_of self.old.bytes.now position.now) (state_of self.old)
            ≡ if_begun has_begun (state_of self.new)) }
        ensures same { IfOk result (λ has_begun.
            has_begun ≡ false → state_of self.new ≡ state_of self.old) }
        ensures document { self.new.bytes ≡ self.old.bytes }
        ensures options { self.new.options ≡ self.old.options }
    {
        let text = &position.line[position.text..];
        let Some(kind) = HtmlKind::begun_by(text, !in_paragraph) else {
            return Ok(false);
        };
        self.make_room(depth)?;
        self.begin(OpenLeaf::Html(kind), position.rest())?;
        if kind.is_ended_by(text) {
            self.close_leaf()?;
        }
        Ok(true)
    }

    /// Changes the open paragraph to a heading, if this line underlines it.
    fn begin_underlined(&mut self, mark: u8, position: &Position<'_>) -> Result<bool, AllocError>
        requires in_document { IsIn self.old.bytes.now position.now }
        requires is_paragraph { self.old.leaf ≡ leaf.Paragraph }
        ensures state { IfOk result (λ has_begun. heading_underlined
            (defined_in self.old) mark (text_at position.now) (leaf_lines self.old)
            (state_of self.old) ≡ if_begun has_begun (state_of self.new)) }
        ensures rest { IfOk result (λ has_begun. has_begun ≡ false
            → is_underline mark (text_at position.now) ≡ true → state_of self.new
            ≡ definitions_taken (defined_in self.old) (leaf_lines self.old)
            (state_of self.old)) }
        ensures same { IfOk result (λ _. is_underline mark (text_at position.now) ≡ false
            → self.new ≡ self.old) }
        ensures document { self.new.bytes ≡ self.old.bytes }
        ensures options { self.new.options ≡ self.old.options }
    {
        let Some(marks) = underline(position.line, position.text, mark) else {
            return Ok(false);
        };
        let end = self.nesting.leaves.lines.len();
        if !self.take_definitions(end)? {
            return Ok(false);
        }
        self.put_blank_line()?;
        self.push_line(part(marks))?;
        self.leaf = OpenLeaf::None;
        let lines = self.nesting.leaves.last();
        self.put(Block::SetextHeading(lines))?;
        Ok(true)
    }

    /// Reads a thematic break of this mark.
    fn begin_break(
        &mut self,
        mark: u8,
        position: &Position<'_>,
        depth: usize,
    ) -> Result<bool, AllocError>
        ensures state { IfOk result (λ has_begun.
            break_begun (defined_in self.old) mark depth (text_at position.now)
            (state_of self.old) ≡ if_begun has_begun (state_of self.new)) }
        ensures same { IfOk result (λ has_begun.
            has_begun ≡ false → state_of self.new ≡ state_of self.old) }
        ensures document { self.new.bytes ≡ self.old.bytes }
        ensures options { self.new.options ≡ self.old.options }
    {
        if !self.breaks.begins_at(mark, position.line, position.text) {
            return Ok(false);
        }
        self.make_room(depth)?;
        let span = Span::new(position.text, position.line.len());
        self.put(Block::ThematicBreak(span))?;
        Ok(true)
    }

    /// Reads a line with the indentation of code that doesn't continue a paragraph.
    fn read_indented(
        &mut self,
        position: &mut Position<'_>,
        depth: usize,
        is_whole: bool,
    ) -> Result<(), AllocError>
        requires in_document { IsIn self.old.bytes.now position.old }
        requires no_paragraph { is_in_paragraph (state_of self.old).leaf ≡ false }
        ensures state { OnOk result (state_of self.new ≡ indented_read depth is_whole
            (rest_of position.old) (ending_of self.old.bytes.now position.old)
            (state_of self.old)) }
        ensures same_line { position.new.line ≡ position.old.line }
        ensures same_ending { position.new.ending ≡ position.old.ending }
        ensures document { self.new.bytes ≡ self.old.bytes }
        ensures options { self.new.options ≡ self.old.options }
    {
        position.advance(CODE_INDENT);
        let line = position.rest();
        if is_whole && self.leaf.is_indented() {
            self.blank_line = None;
            return self.push_line(line);
        }
        self.make_room(depth)?;
        self.blank_line = None;
        self.begin(OpenLeaf::Indented, line)
    }

    /// Reads a line of text: it continues a paragraph, is a row of a table, or begins a paragraph.
    fn read_text(
        &mut self,
        position: &Position<'_>,
        depth: usize,
        is_whole: bool,
    ) -> Result<(), AllocError>
        requires in_document { IsIn self.old.bytes.now position.now }
        ensures state { OnOk result (state_of self.new ≡ text_read (defined_in self.old)
            depth is_whole (text_line self.old.bytes.now position.now) (state_of self.old)) }
        ensures document { self.new.bytes ≡ self.old.bytes }
        ensures options { self.new.options ≡ self.old.options }
    {
        if self.leaf.is_paragraph() {
            return self.push_line(position.text_line());
        }
        if is_whole && self.read_row(position)? {
            return Ok(());
        }
        self.make_room_for_text(depth)?;
        self.begin(OpenLeaf::Paragraph, position.text_line())
    }

    /// Reads a row of the open table; returns whether the line is one.
    #[inline(always)]
    fn read_row(&mut self, position: &Position<'_>) -> Result<bool, AllocError>
        requires in_document { IsIn self.old.bytes.now position.now }
        ensures state { IfOk result (λ is_row.
            row_read (text_line self.old.bytes.now position.now) (state_of self.old)
            ≡ if_begun is_row (state_of self.new)) }
        ensures same { IfOk result (λ is_row. is_row ≡ false → self.new ≡ self.old) }
        ensures document { self.new.bytes ≡ self.old.bytes }
        ensures options { self.new.options ≡ self.old.options }
    {
        let OpenLeaf::Table { columns } = self.leaf else {
            return Ok(false);
        };
        let cells = count_cells(position.bytes());
        let Some(missing) = missing_after(columns, cells, self.missing_cells) else {
            return Ok(false);
        };
        self.missing_cells = missing;
        self.push_line(position.text_line())?;
        Ok(true)
    }

    /// Begins a table whose head is the paragraph's last line, if this line is a delimiter row;
    /// returns whether it is.
    fn begin_table(&mut self, position: &Position<'_>) -> Result<bool, AllocError>
        requires in_document { IsIn self.old.bytes.now position.now }
        requires is_paragraph { self.old.leaf ≡ leaf.Paragraph }
        ensures state { IfOk result (λ has_begun.
            table_begun self.old.options.now.tables (text_at position.now)
            (ending_of self.old.bytes.now position.now) (leaf_lines self.old) (state_of self.old)
            ≡ if_begun has_begun (state_of self.new)) }
        ensures same { IfOk result (λ has_begun. has_begun ≡ false → self.new ≡ self.old) }
        ensures document { self.new.bytes ≡ self.old.bytes }
        ensures options { self.new.options ≡ self.old.options }
    {
        let Some(columns) = self.columns_begun(position) else {
            return Ok(false);
        };
        self.split_paragraph()?;
        self.put_blank_line()?;
        self.leaf = OpenLeaf::Table { columns };
        self.push_line(position.text_line())?;
        Ok(true)
    }

    /// The number of columns of the table that this line begins after the paragraph's last line.
    #[inline(always)]
    fn columns_begun(&self, position: &Position<'_>) -> Option<usize>
        ensures there { is_some result ≡ is_table self.now.options.now.tables
            (text_at position.now) (leaf_lines self.now) }
        ensures columns { IfSome result (λ columns.
            columns ≡ length (delimiters (text_at position.now))) }
        ensures head { IfSome result (λ _.
            self.now.nesting.leaves.start < vec_len self.now.nesting.leaves.lines) }
    {
        if !self.options.tables {
            return None;
        }
        let columns = delimiter_columns(position.bytes())?;
        let lines = &self.nesting.leaves.lines[self.nesting.leaves.start..];
        let head = *lines.last()?;
        if cells_of_line(self.bytes, head) == columns {
            Some(columns)
        } else {
            None
        }
    }

    /// Closes the paragraph before its last line, if it has other lines.
    fn split_paragraph(&mut self) -> Result<(), AllocError>
        requires is_paragraph { self.old.leaf ≡ leaf.Paragraph }
        requires some { self.old.nesting.leaves.start < vec_len self.old.nesting.leaves.lines }
        ensures state { OnOk result (state_of self.new
            ≡ paragraph_split (leaf_lines self.old) (state_of self.old)) }
        ensures lines { OnOk result (leaf_lines self.new ≡ last_line (leaf_lines self.old) ∷ []) }
        ensures document { self.new.bytes ≡ self.old.bytes }
        ensures options { self.new.options ≡ self.old.options }
    {
        let last = self.nesting.leaves.lines.len() - 1;
        if self.nesting.leaves.start < last {
            self.leaf = OpenLeaf::None;
            self.close_paragraph(last)?;
            self.leaf = OpenLeaf::Paragraph;
            self.nesting.begin_leaf_at(last);
        }
        Ok(())
    }
}

/// How many cells the rows of all tables lack after a row; `None` if it has no cell, as a lone bar,
/// or if they would lack too many.
#[inline(always)]
fn missing_after(columns: usize, cells: usize, missing: usize) -> Option<usize>
    ensures { result ≡ lacking_after columns cells missing }
{
    let missing = missing.saturating_add(columns.saturating_sub(cells));
    if cells > 0 && missing <= MOST_MISSING {
        Some(missing)
    } else {
        None
    }
}

/// Whether a line that begins with a byte may underline a paragraph.
#[inline(always)]
fn may_underline(in_paragraph: bool, byte: u8) -> bool
    ensures { result ≡ may_underline in_paragraph byte }
{
    in_paragraph && (byte == b'=' || byte == b'-')
}

/// Whether a byte is a mark of fences of code.
#[inline(always)]
fn is_fence_mark(byte: u8) -> bool
    ensures { result ≡ (byte == 96 || byte == 126) }
{
    matches!(byte, b'`' | b'~')
}

/// Whether a byte is a mark of thematic breaks.
#[inline(always)]
fn is_break_mark(byte: u8) -> bool
    ensures { result ≡ (byte == 42 || (byte == 45 || byte == 95)) }
{
    matches!(byte, b'*' | b'-' | b'_')
}

/// Whether a byte can only begin text.
#[inline(always)]
fn is_text(byte: u8) -> bool
    ensures { result ≡ is_text byte }
{
    byte >= 128 || is(byte, Class::Alphabetic)
}
