//! Fences, and the leaves that accept any line.

ghost use Rattle.std.specs.Prelude.{◌≡◌, ◌+◌, ◌⊎◌, ◌&&◌, false, drop, nat_lt, is_some, IfSome};
ghost use Rattle.std.specs.Prelude.{IfOk, OnOk};
ghost use Rattle.md_blocks.specs.declared.pass.OpenLeaf.TheVariants as leaf;
ghost use Rattle.md_blocks.specs.LeafBlocks.{fenced_read, html_read, if_begun};
ghost use Rattle.md_blocks.specs.Marks.{run_of};
ghost use Rattle.md_blocks.specs.Leaves.{opens_fence, opens_code, opens_math, closes_fence};
ghost use Rattle.md_blocks.specs.Leaves.{blanks, word_length};

use crate::html::HtmlKind;
use crate::marker::{is_blank_from, run_end};
use crate::pass::Pass;
use crate::position::Position;
use md_lines::{Span, trim_start};
use std::alloc::AllocError;

/// The minimum number of marks in a fence of code.
const LEAST_OF_CODE: usize = 3;

/// The minimum number of dollar signs in a fence of math.
const LEAST_OF_MATH: usize = 2;

/// The maximum number of columns that indent a closing fence.
const MOST_INDENT: usize = 3;

/// The opening fence of code or math.
#[derive(Clone, Copy, PartialEq, Eq)]
pub(crate) struct Fence {
    pub(crate) mark: u8,
    /// The number of its marks.
    pub(crate) length: usize,
    /// The columns of its indentation, which each line inside loses.
    pub(crate) indent: usize,
}

impl Fence {
    /// The opening fence of code at a position, of backticks or of tildes.
    pub(crate) fn of_code(position: &Position<'_>, mark: u8) -> Option<Self>
        ensures there { is_some result
            ≡ opens_code mark (drop position.now.text position.now.line.now) }
        ensures mark { IfSome result (λ fence. fence.mark ≡ mark) }
        ensures length { IfSome result (λ fence.
            fence.length ≡ run_of mark (drop position.now.text position.now.line.now)) }
        ensures indent { IfSome result (λ fence. fence.indent ≡ position.now.indent) }
    {
        Fence::at(position, mark, LEAST_OF_CODE, mark == b'`')
    }

    /// The opening fence of math at a position.
    pub(crate) fn of_math(position: &Position<'_>) -> Option<Self>
        ensures there { is_some result
            ≡ opens_math (drop position.now.text position.now.line.now) }
        ensures mark { IfSome result (λ fence. fence.mark ≡ 36) }
        ensures length { IfSome result (λ fence.
            fence.length ≡ run_of 36 (drop position.now.text position.now.line.now)) }
        ensures indent { IfSome result (λ fence. fence.indent ≡ position.now.indent) }
    {
        Fence::at(position, b'$', LEAST_OF_MATH, true)
    }

    /// The fence at a position, if it has at least `least` marks. If `is_last`, the rest of its
    /// line must not have that mark.
    #[inline(always)]
    fn at(position: &Position<'_>, mark: u8, least: usize, is_last: bool) -> Option<Self>
        ensures there { is_some result
            ≡ opens_fence mark least is_last (drop position.now.text position.now.line.now) }
        ensures mark { IfSome result (λ fence. fence.mark ≡ mark) }
        ensures length { IfSome result (λ fence.
            fence.length ≡ run_of mark (drop position.now.text position.now.line.now)) }
        ensures indent { IfSome result (λ fence. fence.indent ≡ position.now.indent) }
    {
        let text = position.bytes();
        let length = run_end(text, 0, mark);
        if length < least || (is_last && text[length..].contains(&mark)) {
            return None;
        }
        Some(Fence {
            mark,
            length,
            indent: position.indent,
        })
    }

    /// Whether a line closes the block of this fence.
    fn is_closed_by(self, position: &Position<'_>) -> bool
        ensures { result ≡ (nat_lt position.now.indent 4
            && closes_fence self.mark self.length (drop position.now.text position.now.line.now)) }
    {
        let end = run_end(position.line, position.text, self.mark);
        position.indent <= MOST_INDENT
            && end - position.text >= self.length
            && is_blank_from(position.line, end)
    }
}

/// The first word from an index.
pub(crate) fn first_word(line: &[u8], from: usize) -> Span
    ensures start { result.start ≡ from + blanks (drop from line.now) }
    ensures end { result.end ≡ result.start + word_length (drop result.start line.now) }
{
    let start = trim_start(line, from, line.len());
    let mut end = start;
    while end < line.len() && line[end] != b' ' && line[end] != b'\t' {
        end += 1;
    }
    Span::new(start, end)
}

impl<'a> Pass<'a> {
    ghost use Rattle.md_blocks.specs.Passes.{state_of};
    ghost use Rattle.md_blocks.specs.Positions.{IsIn, ending_of, rest_of};

    /// Reads a line inside a fenced leaf.
    pub(crate) fn continue_fenced(
        &mut self,
        fence: Fence,
        position: &mut Position<'_>,
    ) -> Result<(), AllocError>
        requires in_document { IsIn self.old.bytes.now position.old }
        requires is_fenced { (self.old.leaf ≡ leaf.Fenced fence)
            ⊎ (self.old.leaf ≡ leaf.Math fence) }
        ensures state { OnOk result (state_of self.new ≡ fenced_read fence (rest_of position.old)
            (ending_of self.old.bytes.now position.old) (state_of self.old)) }
        ensures document { self.new.bytes ≡ self.old.bytes }
        ensures options { self.new.options ≡ self.old.options }
    {
        if fence.is_closed_by(position) {
            return self.close_leaf();
        }
        position.advance(fence.indent);
        self.push_line(position.rest())?;
        Ok(())
    }

    /// Reads a line inside HTML; returns whether it belongs to it.
    pub(crate) fn continue_html(
        &mut self,
        kind: HtmlKind,
        position: &Position<'_>,
    ) -> Result<bool, AllocError>
        requires in_document { IsIn self.old.bytes.now position.now }
        requires is_html { self.old.leaf ≡ leaf.Html kind }
        ensures state { IfOk result (λ goes_on. html_read kind (rest_of position.now)
            (ending_of self.old.bytes.now position.now) (state_of self.old)
            ≡ if_begun goes_on (state_of self.new)) }
        ensures same { IfOk result (λ goes_on.
            goes_on ≡ false → state_of self.new ≡ state_of self.old) }
        ensures document { self.new.bytes ≡ self.old.bytes }
        ensures options { self.new.options ≡ self.old.options }
    {
        if position.is_blank() && kind.ends_at_blank_line() {
            return Ok(false);
        }
        self.push_line(position.rest())?;
        if kind.is_ended_by(&position.line[position.at..]) {
            self.close_leaf()?;
        }
        Ok(true)
    }
}
