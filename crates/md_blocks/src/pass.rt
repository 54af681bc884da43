//! The pass over the lines of a document.

ghost use Rattle.std.specs.Prelude.{◌≡◌, ◌≤◌, ◌<◌, ◌+◌, ◌++◌, ◌∷◌, []};
ghost use Rattle.std.specs.Prelude.{ℕ, Bool, None, ◌&&◌, if◌then◌else◌, false, true, drop, length};
ghost use Rattle.std.specs.Prelude.{vec_len, List, OnOk, IfOk, IsTrue, nat_lt};
ghost use Rattle.md_blocks.specs.Tape.{enters, exits};
ghost use Rattle.md_blocks.specs.Tapes.{are_whole, has_info, is_paragraph};

use crate::block::Block;
use crate::blocks::Blocks;
use crate::breaks::Breaks;
use crate::code::Fence;
use crate::definition::Definitions;
use crate::html::HtmlKind;
use crate::leaves::Leaves;
use crate::matching::match_containers;
use crate::nesting::{Nesting, Open};
use crate::options::MarkdownOptions;
use crate::position::Position;
use crate::preamble::{front_matter, start_of};
use md_lines::{Line, Span, after_ending, line_end};
use std::alloc::{AllocError, Global};

/// How many columns indent a line of code, and a line that continues a footnote.
pub(crate) const CODE_INDENT: usize = 4;

/// The expected number of bytes for each block.
const BYTES_PER_BLOCK: usize = 40;

/// The expected number of bytes for each line of a leaf.
const BYTES_PER_LINE: usize = 32;

/// The minimum capacity for blocks, and for lines.
const LEAST_ROOM: usize = 16;

/// The maximum length of a document in bytes. No machine has the memory for a longer one; up to
/// this length its columns can be counted.
const MOST_BYTES: usize = 1 << 60;

/// The open leaf.
#[derive(Clone, Copy, PartialEq, Eq)]
pub(crate) enum OpenLeaf {
    None,
    Paragraph,
    Indented,
    Fenced(Fence),
    Math(Fence),
    Html(HtmlKind),
    Table { columns: usize },
}

impl OpenLeaf {
    ghost use Rattle.md_blocks.specs.Entries as entries;
    ghost use Rattle.md_blocks.specs.States.{is_in_paragraph};
    ghost use Rattle.md_blocks.specs.declared.pass.OpenLeaf.TheVariants as leaf;
    ghost use Rattle.md_blocks.specs.LeafBlocks.{is_indented};
    ghost use Rattle.md_blocks.specs.Passes.{leaf_of};

    /// Whether it is a paragraph.
    #[inline(always)]
    pub(crate) fn is_paragraph(self) -> bool
        ensures state { (lines : List entries.Line) →
            result ≡ is_in_paragraph (leaf_of self lines) }
        ensures is { IsTrue result → self ≡ leaf.Paragraph }
    {
        matches!(self, OpenLeaf::Paragraph)
    }

    /// Whether it is indented code.
    #[inline(always)]
    pub(crate) fn is_indented(self) -> bool
        ensures state { (lines : List entries.Line) → result ≡ is_indented (leaf_of self lines) }
        ensures no_paragraph { IsTrue result → is_paragraph self ≡ false }
    {
        matches!(self, OpenLeaf::Indented)
    }
}

/// A pending blank line, written before the next child of an item, or between two items.
#[derive(Clone, Copy)]
pub(crate) struct BlankLine {
    /// The minimum number of open blocks for writing it: those up to the innermost quote or
    /// footnote that contains it.
    pub(crate) depth: usize,
    pub(crate) ending: Span,
}

/// The state of the pass between two lines.
#[derive(Drop)]
pub(crate) struct Pass<'a> {
    pub(crate) alloc: Global,
    pub(crate) bytes: &'a [u8],
    pub(crate) options: &'a MarkdownOptions,
    pub(crate) nesting: Nesting,
    pub(crate) definitions: Definitions,
    pub(crate) leaf: OpenLeaf,
    /// How many cells the rows of all tables lack so far.
    pub(crate) missing_cells: usize,
    pub(crate) blank_line: Option<BlankLine>,
    /// Whether the last line was blank and another blank line changes nothing: no leaf and no quote
    /// is open.
    pub(crate) is_after_blank: bool,
    /// The index up to which the document is read.
    pub(crate) at: usize,
    pub(crate) breaks: Breaks,
    ghost short: { length bytes.now ≤ 1152921504606846976 },
    ghost info: { has_info leaf ≡ true
        → nesting.leaves.start < vec_len nesting.leaves.lines },
    ghost whole: { is_paragraph leaf ≡ true
        → are_whole (drop nesting.leaves.start nesting.leaves.lines.items) ≡ true },
}

impl<'a> Pass<'a> {
    ghost use Rattle.md_blocks.specs.Documents.{document_read, lines_of, lines_read, beginning};
    ghost use Rattle.md_blocks.specs.BlockStructure.{leaf_continued, line_after, line_read, started};
    ghost use Rattle.md_blocks.specs.LeafBlocks.{blank_read, blank_waits, if_begun, line_added};
    ghost use Rattle.md_blocks.specs.Progress.{SkipsBlank};
    ghost use Rattle.md_blocks.specs.Rests.{is_blank_rest};
    ghost use Rattle.md_blocks.specs.Stack.{is_quote};
    ghost use Rattle.md_blocks.specs.States.{NoLeaf};
    ghost use Rattle.std.specs.List.{list_any};
    ghost use Rattle.md_blocks.specs.Passes.{defined_in, leaf_of, state_of};
    ghost use Rattle.md_blocks.specs.Positions.{IsIn, ending_of, rest_of};
    ghost use Rattle.md_blocks.specs.States.{opened_in, with_a_child, with_entries, with_leaf};
    ghost use Rattle.md_blocks.specs.Tapes.{entry_of, line_of, lines_end};

    /// The state before a document's first line. A document of more than `MOST_BYTES` bytes is
    /// refused as memory that ran out.
    pub(crate) fn new(
        alloc: Global,
        bytes: &'a [u8],
        options: &'a MarkdownOptions,
    ) -> Result<Self, AllocError>
        ensures state { IfOk result (λ pass. state_of pass ≡ started) }
        ensures document { IfOk result (λ pass. pass.bytes.now ≡ bytes.now) }
        ensures options { IfOk result (λ pass. pass.options.now ≡ options.now) }
        ensures not_skipped { IfOk result (λ pass. pass.is_after_blank ≡ false) }
    {
        if bytes.len() > MOST_BYTES {
            return Err(AllocError);
        }
        let nesting = Nesting::new(
            alloc,
            bytes.len() / BYTES_PER_BLOCK + LEAST_ROOM,
            bytes.len() / BYTES_PER_LINE + LEAST_ROOM,
        )?;
        Ok(Pass {
            alloc,
            bytes,
            options,
            nesting,
            definitions: Definitions::new(alloc),
            leaf: OpenLeaf::None,
            missing_cells: 0,
            blank_line: None,
            is_after_blank: false,
            at: 0,
            breaks: Breaks::new(),
        })
    }

    /// Returns the result.
    pub(crate) fn into_blocks(self) -> Blocks
        requires { vec_len self.nesting.stack ≤ 0 }
        ensures tape { result.tape.items ≡ self.entry.nesting.tape.items }
        ensures lines { result.lines.items ≡ self.entry.nesting.leaves.lines.items }
    {
        let Pass {
            nesting,
            definitions,
            ..
        } = self;
        let Nesting { tape, leaves, .. } = nesting;
        let Leaves { lines, .. } = leaves;
        Blocks {
            tape,
            lines,
            definitions,
        }
    }

    /// Reads the document.
    pub(crate) fn run(&mut self) -> Result<(), AllocError>
        requires first { self.old.is_after_blank ≡ false }
        ensures closed { OnOk result (vec_len self.new.nesting.stack ≤ 0) }
        ensures document { self.new.bytes ≡ self.old.bytes }
        ensures state { state_of self.old ≡ started
            → OnOk result (state_of self.new
            ≡ document_read self.old.options.now self.old.bytes.now) }
    {
        let from = self.read_front_matter()?;
        self.read_lines(from)?;
        self.close_unmatched(0)
    }

    /// Reads the lines that begin at `from`.
    #[inline(always)]
    fn read_lines(&mut self, from: usize) -> Result<(), AllocError>
        requires first { self.old.is_after_blank ≡ false }
        requires within { from ≤ length self.old.bytes.now }
        ensures state { OnOk result (state_of self.new
            ≡ lines_read self.old.options.now (lines_of (drop from self.old.bytes.now))
            (state_of self.old)) }
        ensures document { self.new.bytes ≡ self.old.bytes }
        ensures options { self.new.options ≡ self.old.options }
    {
        let bytes = self.bytes;
        let mut at = from;
        'lines: while at < bytes.len() {
            let end = line_end(bytes, at);
            let next = after_ending(bytes, end);
            let ending = (next - end) as u8;
            self.read_line(&mut Position::new(&bytes[..end], at, ending))?;
            at = next;
        }
        Ok(())
    }

    /// Reads front matter, if the options say so. Returns the index after it, or after a byte order
    /// mark.
    fn read_front_matter(&mut self) -> Result<usize, AllocError>
        ensures off { self.old.options.now.front_matter ≡ false
            → OnOk result (self.new ≡ self.old) }
        ensures state { state_of self.old ≡ started → IfOk result (λ from.
            beginning self.old.options.now self.old.bytes.now ≡ record {
              state = state_of self.new;
              lines = lines_of (drop from self.old.bytes.now);
            }) }
        ensures within { IfOk result (λ from. from ≤ length self.old.bytes.now) }
        ensures first { self.new.is_after_blank ≡ self.old.is_after_blank }
        ensures document { self.new.bytes ≡ self.old.bytes }
        ensures options { self.new.options ≡ self.old.options }
    {
        if !self.options.front_matter {
            return Ok(start_of(self.bytes));
        }
        match front_matter(self.bytes) {
            Some(found) => {
                self.nesting.put(Block::FrontMatter {
                    ending: found.ending,
                })?;
                Ok(found.ending.end)
            }
            None => Ok(start_of(self.bytes)),
        }
    }

    /// Reads a line. After a blank line that changes nothing more, further ones are skipped.
    #[inline(always)]
    fn read_line(&mut self, position: &mut Position<'_>) -> Result<(), AllocError>
        requires in_document { IsIn self.old.bytes.now position.old }
        ensures state { (self.old.is_after_blank ≡ true → SkipsBlank (state_of self.old))
            → OnOk result (state_of self.new
            ≡ line_read self.old.options.now (nat_lt 0 position.old.ending)
            (rest_of position.old) (ending_of self.old.bytes.now position.old)
            (state_of self.old)) }
        ensures skips { (self.old.is_after_blank ≡ true → SkipsBlank (state_of self.old))
            → OnOk result (self.new.is_after_blank ≡ true → SkipsBlank (state_of self.new)) }
        ensures document { self.new.bytes ≡ self.old.bytes }
        ensures options { self.new.options ≡ self.old.options }
    {
        if self.is_skipped(position) {
            self.at = position.at;
            return Ok(());
        }
        self.is_after_blank = false;
        self.read_in_containers(position)
    }

    /// Whether a line is a further blank line, and changes nothing.
    #[inline(always)]
    fn is_skipped(&self, position: &Position<'_>) -> bool
        ensures { result ≡ (self.now.is_after_blank && is_blank_rest (rest_of position.now)) }
    {
        self.is_after_blank && position.is_blank()
    }

    /// Reads a line that isn't skipped.
    #[inline(always)]
    fn read_in_containers(&mut self, position: &mut Position<'_>) -> Result<(), AllocError>
        requires in_document { IsIn self.old.bytes.now position.old }
        ensures state { OnOk result (state_of self.new
            ≡ line_read self.old.options.now (nat_lt 0 position.old.ending)
            (rest_of position.old) (ending_of self.old.bytes.now position.old)
            (state_of self.old)) }
        ensures skips { OnOk result
            (self.new.is_after_blank ≡ true → SkipsBlank (state_of self.new)) }
        ensures document { self.new.bytes ≡ self.old.bytes }
        ensures options { self.new.options ≡ self.old.options }
    {
        let matched = match_containers(self.nesting.stack.as_slice(), position);
        self.at = position.at;
        let is_whole = matched == self.nesting.depth();
        let is_ended = position.ending > 0;
        let is_blank = self.read_after(position, matched, is_whole)?;
        self.at = position.at;
        self.is_after_blank = self.skips_next(is_blank, is_ended);
        Ok(())
    }

    /// Reads a line after the prefixes of `matched` open blocks; returns whether it is a blank line.
    #[inline(always)]
    fn read_after(
        &mut self,
        position: &mut Position<'_>,
        matched: usize,
        is_whole: bool,
    ) -> Result<bool, AllocError>
        requires in_document { IsIn self.old.bytes.now position.old }
        ensures state { OnOk result (state_of self.new
            ≡ line_after self.old.options.now matched is_whole
            (nat_lt 0 position.old.ending) (rest_of position.old)
            (ending_of self.old.bytes.now position.old) (state_of self.old)) }
        ensures blank { IfOk result (λ is_blank. is_blank ≡ true
            → (is_blank_rest (rest_of position.old) ≡ true) × (state_of self.new
            ≡ blank_waits (nat_lt 0 position.old.ending) (blank_read (defined_in self.old) matched
            is_whole (rest_of position.old) (ending_of self.old.bytes.now position.old)
            (state_of self.old)))) }
        ensures document { self.new.bytes ≡ self.old.bytes }
        ensures options { self.new.options ≡ self.old.options }
    {
        if self.continue_if(is_whole, position)? {
            return Ok(false);
        }
        self.begin_blocks(position, matched, is_whole)
    }

    /// Reads a line in a leaf that accepts any line, if the line continues all open containers.
    #[inline(always)]
    fn continue_if(
        &mut self,
        is_whole: bool,
        position: &mut Position<'_>,
    ) -> Result<bool, AllocError>
        requires in_document { IsIn self.old.bytes.now position.old }
        ensures document { self.new.bytes ≡ self.old.bytes }
        ensures options { self.new.options ≡ self.old.options }
        ensures state { IfOk result (λ goes_on. (if is_whole then leaf_continued (rest_of position.old)
            (ending_of self.old.bytes.now position.old) (state_of self.old) else None)
            ≡ if_begun goes_on (state_of self.new)) }
        ensures stays { IfOk result (λ goes_on.
            goes_on ≡ false → state_of self.new ≡ state_of self.old) }
        ensures same { IfOk result (λ goes_on. goes_on ≡ false → position.new ≡ position.old) }
    {
        if !is_whole {
            return Ok(false);
        }
        self.continue_leaf(position)
    }

    /// Reads a line in a leaf that accepts any line; returns whether the open leaf is one.
    #[inline(always)]
    fn continue_leaf(&mut self, position: &mut Position<'_>) -> Result<bool, AllocError>
        requires in_document { IsIn self.old.bytes.now position.old }
        ensures document { self.new.bytes ≡ self.old.bytes }
        ensures options { self.new.options ≡ self.old.options }
        ensures state { IfOk result (λ goes_on. leaf_continued (rest_of position.old)
            (ending_of self.old.bytes.now position.old) (state_of self.old)
            ≡ if_begun goes_on (state_of self.new)) }
        ensures stays { IfOk result (λ goes_on.
            goes_on ≡ false → state_of self.new ≡ state_of self.old) }
        ensures same { IfOk result (λ goes_on. goes_on ≡ false → position.new ≡ position.old) }
    {
        match self.leaf {
            OpenLeaf::Fenced(fence) | OpenLeaf::Math(fence) => {
                self.continue_fenced(fence, position)?;
                Ok(true)
            }
            OpenLeaf::Html(kind) => self.continue_html(kind, position),
            _ => Ok(false),
        }
    }

    /// Reads a blank line that continues `matched` open blocks.
    pub(crate) fn read_blank_line(
        &mut self,
        position: &mut Position<'_>,
        matched: usize,
        is_whole: bool,
    ) -> Result<(), AllocError>
        requires in_document { IsIn self.old.bytes.now position.old }
        ensures state { OnOk result (state_of self.new ≡ blank_waits (nat_lt 0 position.old.ending)
            (blank_read (defined_in self.old) matched is_whole (rest_of position.old)
            (ending_of self.old.bytes.now position.old) (state_of self.old))) }
        ensures document { self.new.bytes ≡ self.old.bytes }
        ensures options { self.new.options ≡ self.old.options }
    {
        self.close_at_blank_line(position, matched, is_whole)?;
        self.note_blank_line(position.text_line());
        Ok(())
    }

    /// Whether further blank lines change nothing after a line: it is blank, and not the last one.
    #[inline(always)]
    fn skips_next(&self, is_blank: bool, is_ended: bool) -> bool
        ensures blank { IsTrue result → is_blank ≡ true }
        ensures ended { IsTrue result → is_ended ≡ true }
        ensures leaf { IsTrue result → (state_of self.now).leaf ≡ NoLeaf }
        ensures quotes { IsTrue result → list_any is_quote self.now.nesting.stack.items ≡ false }
    {
        is_blank && is_ended && self.may_skip_blank_lines()
    }

    /// Whether more blank lines change nothing: no leaf and no quote is open.
    #[inline(always)]
    fn may_skip_blank_lines(&self) -> bool
        ensures leaf { IsTrue result → (state_of self.now).leaf ≡ NoLeaf }
        ensures quotes { IsTrue result → list_any is_quote self.now.nesting.stack.items ≡ false }
    {
        matches!(self.leaf, OpenLeaf::None) && !self.nesting.has_quote()
    }

    /// Adds a blank line to indented code, or closes the leaf and the containers that it doesn't
    /// continue.
    #[inline(always)]
    fn close_at_blank_line(
        &mut self,
        position: &mut Position<'_>,
        matched: usize,
        is_whole: bool,
    ) -> Result<(), AllocError>
        requires in_document { IsIn self.old.bytes.now position.old }
        ensures state { OnOk result (state_of self.new ≡ blank_read
            (defined_in self.old) matched is_whole (rest_of position.old)
            (ending_of self.old.bytes.now position.old) (state_of self.old)) }
        ensures document { self.new.bytes ≡ self.old.bytes }
        ensures options { self.new.options ≡ self.old.options }
        ensures line { position.new.line ≡ position.old.line }
        ensures ending { position.new.ending ≡ position.old.ending }
    {
        if is_whole && self.leaf.is_indented() {
            position.advance(CODE_INDENT);
            return self.push_line(position.rest());
        }
        self.close_unmatched(matched)
    }

    /// Lets a blank line wait, if it has a line ending.
    #[inline(always)]
    fn note_blank_line(&mut self, line: Line)
        ensures state { state_of self.new ≡ blank_waits (nat_lt 0 line.ending) (state_of self.old) }
        ensures leaves { self.new.nesting.leaves ≡ self.old.nesting.leaves }
        ensures document { self.new.bytes ≡ self.old.bytes }
        ensures options { self.new.options ≡ self.old.options }
    {
        if line.ending > 0 {
            self.blank_line = Some(BlankLine {
                depth: self.nesting.depth_of_quote(),
                ending: Span::new(line.end, line.next()),
            });
        }
    }

    /// Opens a leaf with its first line.
    #[inline(always)]
    pub(crate) fn begin(&mut self, leaf: OpenLeaf, line: Line) -> Result<(), AllocError>
        requires whole { is_paragraph leaf ≡ true → line.columns ≡ 0 }
        ensures state { OnOk result (state_of self.new ≡ with_leaf
            (leaf_of leaf (line_of self.old.bytes.now line ∷ [])) (state_of self.old)) }
        ensures leaf { OnOk result (self.new.leaf ≡ leaf) }
        ensures stack { self.new.nesting.stack ≡ self.old.nesting.stack }
        ensures document { self.new.bytes ≡ self.old.bytes }
        ensures options { self.new.options ≡ self.old.options }
    {
        self.leaf = OpenLeaf::None;
        self.nesting.begin_leaf();
        self.nesting.push_line(line)?;
        self.leaf = leaf;
        Ok(())
    }

    /// Pushes a line of the open leaf.
    #[inline(always)]
    pub(crate) fn push_line(&mut self, line: Line) -> Result<(), AllocError>
        requires whole { is_paragraph self.old.leaf ≡ true → line.columns ≡ 0 }
        ensures state { OnOk result (state_of self.new
            ≡ line_added (line_of self.old.bytes.now line) (state_of self.old)) }
        ensures start { self.new.nesting.leaves.start ≡ self.old.nesting.leaves.start }
        ensures leaf { self.new.leaf ≡ self.old.leaf }
        ensures stack { self.new.nesting.stack ≡ self.old.nesting.stack }
        ensures document { self.new.bytes ≡ self.old.bytes }
        ensures options { self.new.options ≡ self.old.options }
    {
        self.nesting.push_line(line)?;
        Ok(())
    }

    /// Writes an entry that neither begins nor ends a container.
    #[inline(always)]
    pub(crate) fn put(&mut self, block: Block) -> Result<(), AllocError>
        requires enters_none { enters block ≡ false }
        requires exits_none { exits block ≡ false }
        requires kept { lines_end block ≤ vec_len self.old.nesting.leaves.lines }
        ensures state { OnOk result (state_of self.new ≡ with_entries
            (entry_of self.old.bytes.now self.old.nesting.leaves.lines.items block ∷ [])
            (state_of self.old)) }
        ensures stack { self.new.nesting.stack ≡ self.old.nesting.stack }
        ensures leaves { self.new.nesting.leaves ≡ self.old.nesting.leaves }
        ensures leaf { self.new.leaf ≡ self.old.leaf }
        ensures document { self.new.bytes ≡ self.old.bytes }
        ensures options { self.new.options ≡ self.old.options }
    {
        self.nesting.put(block)?;
        Ok(())
    }

    /// Records that the innermost container has a child.
    #[inline(always)]
    pub(crate) fn note_child(&mut self)
        ensures state { state_of self.new ≡ with_a_child (state_of self.old) }
        ensures shrinks { vec_len self.new.nesting.stack ≤ vec_len self.old.nesting.stack }
        ensures leaves { self.new.nesting.leaves ≡ self.old.nesting.leaves }
        ensures document { self.new.bytes ≡ self.old.bytes }
        ensures options { self.new.options ≡ self.old.options }
    {
        self.nesting.note_child();
    }

    /// Enters a container; `block` is its beginning.
    #[inline(always)]
    pub(crate) fn enter(&mut self, block: Block, opened: Open) -> Result<(), AllocError>
        requires shallow { vec_len self.old.nesting.stack < 96 }
        requires enters { enters block ≡ true }
        ensures grows { vec_len self.new.nesting.stack ≤ vec_len self.old.nesting.stack + 1 }
        ensures state { OnOk result (state_of self.new ≡ opened_in opened (with_entries
            (entry_of self.old.bytes.now self.old.nesting.leaves.lines.items block ∷ [])
            (state_of self.old))) }
        ensures leaves { self.new.nesting.leaves ≡ self.old.nesting.leaves }
        ensures document { self.new.bytes ≡ self.old.bytes }
        ensures options { self.new.options ≡ self.old.options }
    {
        self.nesting.enter(block, opened)?;
        Ok(())
    }
}
