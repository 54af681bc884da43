//! Closes open blocks: the leaf, and the containers that a line doesn't continue.

ghost use Rattle.std.specs.Prelude.{◌≡◌, ◌≤◌, ◌<◌, ◌++◌, length, vec_len, OnOk, IfOk, IsTrue, None};
ghost use Rattle.std.specs.Prelude.{◌-◌, nat_lt, false};
ghost use Rattle.std.specs.List.{suffix_len};
ghost use Rattle.std.specs.Prelude.{◌+◌, ◌∷◌, List, ℕ};
ghost use Rattle.md_lines.specs.Reading.{line_text};
ghost use Rattle.md_lines.specs.Texts.{begins_with};
ghost use Rattle.md_blocks.specs.LinkDefinitions.{defined_from};
ghost use Rattle.md_blocks.specs.Passes.{texts_from};
ghost use Rattle.md_blocks.specs.BlankLines.{blank_before};
ghost use Rattle.md_blocks.specs.Marks.{is_blank_text};
ghost use Rattle.md_blocks.specs.declared.pass.OpenLeaf.TheVariants as leaf;
ghost use Rattle.md_blocks.specs.Tapes.{has_info, text_of_line};
ghost use Rattle.md_blocks.specs.States.{blank_written, closed_to, leaf_closed, paragraph_closed};
ghost use Rattle.md_blocks.specs.States.{list_closed, room, room_for_text, with_a_child, with_leaf};

use crate::block::{Block, LineRange};
use crate::definition::{Definitions, read_definition};
use crate::marker::is_blank_from;
use crate::pass::{OpenLeaf, Pass};
use md_lines::Line;
use std::alloc::{AllocError, Global};

impl<'a> Pass<'a> {
    ghost use Rattle.md_blocks.specs.Passes.{defined_by, leaf_lines, leaf_of, lines_to, state_of};
    ghost use Rattle.md_blocks.specs.Passes.{HasWholeLines, defined_to};
    ghost use Rattle.md_blocks.specs.LinkDefinitions.{defined_lines};
    ghost use Rattle.md_blocks.specs.Passes.{defined_in};

    /// Closes the open leaf and the containers beyond this depth.
    pub(crate) fn close_unmatched(&mut self, depth: usize) -> Result<(), AllocError>
        ensures shrinks { OnOk result (vec_len self.new.nesting.stack ≤ depth) }
        ensures state { OnOk result (state_of self.new
            ≡ closed_to (defined_in self.old) depth (state_of self.old)) }
        ensures document { self.new.bytes ≡ self.old.bytes }
        ensures options { self.new.options ≡ self.old.options }
    {
        self.close_leaf()?;
        self.nesting.close_to(depth, self.at)?;
        Ok(())
    }

    /// Prepares for a child that is no item: closes the containers that didn't match, and a list,
    /// and writes the blank line before the child.
    pub(crate) fn make_room(&mut self, depth: usize) -> Result<(), AllocError>
        ensures shrinks { OnOk result (vec_len self.new.nesting.stack ≤ depth) }
        ensures state { OnOk result (state_of self.new
            ≡ room (defined_in self.old) depth (state_of self.old)) }
        ensures document { self.new.bytes ≡ self.old.bytes }
        ensures options { self.new.options ≡ self.old.options }
    {
        self.make_room_for_text(depth)?;
        self.put_blank_line()
    }

    /// The same for a paragraph. The blank line before it is written with it, since it isn't a
    /// child if it has only definitions.
    pub(crate) fn make_room_for_text(&mut self, depth: usize) -> Result<(), AllocError>
        ensures shrinks { OnOk result (vec_len self.new.nesting.stack ≤ depth) }
        ensures state { OnOk result (state_of self.new
            ≡ room_for_text (defined_in self.old) depth (state_of self.old)) }
        ensures document { self.new.bytes ≡ self.old.bytes }
        ensures options { self.new.options ≡ self.old.options }
    {
        self.close_unmatched(depth)?;
        self.add_child()
    }

    /// Adds a child that is no item to the innermost container: if that is a list, it ends.
    #[inline(always)]
    pub(crate) fn add_child(&mut self) -> Result<(), AllocError>
        ensures shrinks { OnOk result
            (vec_len self.new.nesting.stack ≤ vec_len self.old.nesting.stack) }
        ensures state { OnOk result (state_of self.new
            ≡ with_a_child (list_closed (state_of self.old))) }
        ensures leaves { self.new.nesting.leaves ≡ self.old.nesting.leaves }
        ensures document { self.new.bytes ≡ self.old.bytes }
        ensures options { self.new.options ≡ self.old.options }
    {
        self.nesting.close_list(self.at)?;
        self.note_child();
        Ok(())
    }

    /// Writes a blank line that precedes a child of an item, or separates two items.
    #[inline]
    pub(crate) fn put_blank_line(&mut self) -> Result<(), AllocError>
        ensures stack { self.new.nesting.stack ≡ self.old.nesting.stack }
        ensures tape { OnOk result (self.new.nesting.tape.items ≡ self.old.nesting.tape.items
            ++ blank_before self.old.blank_line self.old.nesting.stack.items) }
        ensures none { self.new.blank_line ≡ None }
        ensures leaf { self.new.leaf ≡ self.old.leaf }
        ensures leaves { self.new.nesting.leaves ≡ self.old.nesting.leaves }
        ensures state { OnOk result (state_of self.new ≡ blank_written (state_of self.old)) }
        ensures document { self.new.bytes ≡ self.old.bytes }
        ensures options { self.new.options ≡ self.old.options }
    {
        let Some(blank) = self.blank_line else {
            return Ok(());
        };
        self.blank_line = None;
        if self.nesting.depth() >= blank.depth && self.nesting.is_in_list() {
            self.nesting.put(Block::BlankLine {
                ending: blank.ending,
            })?;
        }
        Ok(())
    }

    /// Removes the definitions from the beginning of the paragraph, whose lines end before the
    /// `end`th; returns whether any line remains.
    pub(crate) fn take_definitions(&mut self, end: usize) -> Result<bool, AllocError>
        requires start { self.old.nesting.leaves.start ≤ end }
        requires within { end ≤ vec_len self.old.nesting.leaves.lines }
        requires no_info { has_info self.old.leaf ≡ false }
        ensures forward { OnOk result (self.old.nesting.leaves.start
            ≤ self.new.nesting.leaves.start) }
        ensures some { IfOk result (λ remains.
            remains ≡ nat_lt self.new.nesting.leaves.start end) }
        ensures within { OnOk result (self.new.nesting.leaves.start ≤ end) }
        ensures tape { self.new.nesting.tape ≡ self.old.nesting.tape }
        ensures stack { self.new.nesting.stack ≡ self.old.nesting.stack }
        ensures lines { self.new.nesting.leaves.lines ≡ self.old.nesting.leaves.lines }
        ensures leaf { self.new.leaf ≡ self.old.leaf }
        ensures state { state_of self.new
            ≡ with_leaf (leaf_of self.old.leaf (leaf_lines self.new)) (state_of self.old) }
        ensures defined { OnOk result (defined_by self.old self.new ≡ defined_to end self.old) }
        ensures whole { OnOk result (HasWholeLines end self.old
            → defined_to end self.old ≡ defined_lines (lines_to end self.old)) }
        ensures document { self.new.bytes ≡ self.old.bytes }
        ensures options { self.new.options ≡ self.old.options }
    {
        let nesting = &self.nesting;
        let start = after_definitions(
            self.alloc,
            self.bytes,
            &nesting.leaves.lines[..end],
            nesting.leaves.start,
            &mut self.definitions,
        )?;
        self.nesting.begin_leaf_at(start);
        Ok(start < end)
    }

    /// Writes the open leaf, if there is one, and closes it.
    pub(crate) fn close_leaf(&mut self) -> Result<(), AllocError>
        ensures stack { self.new.nesting.stack ≡ self.old.nesting.stack }
        ensures state { OnOk result (state_of self.new
            ≡ leaf_closed (defined_in self.old) (state_of self.old)) }
        ensures lines { self.new.nesting.leaves.lines ≡ self.old.nesting.leaves.lines }
        ensures document { self.new.bytes ≡ self.old.bytes }
        ensures options { self.new.options ≡ self.old.options }
    {
        let leaf = self.leaf;
        self.leaf = OpenLeaf::None;
        let lines = self.nesting.leaves.last();
        match leaf {
            OpenLeaf::None => Ok(()),
            OpenLeaf::Paragraph => self.close_paragraph(lines.end),
            OpenLeaf::Fenced(_) => self.put(Block::FencedCode(lines)),
            OpenLeaf::Math(_) => self.put(Block::Math(lines)),
            OpenLeaf::Indented => {
                let all = &self.nesting.leaves.lines[lines.start..];
                let end = lines.start + without_blank_end(self.bytes, all);
                self.put(Block::IndentedCode(LineRange::new(lines.start, end)))
            }
            OpenLeaf::Html(_) => self.put(Block::Html(lines)),
            OpenLeaf::Table { .. } => self.put(Block::Table(lines)),
        }
    }

    /// Writes a paragraph, whose lines end before the `end`th, without the definitions at its
    /// beginning.
    pub(crate) fn close_paragraph(&mut self, end: usize) -> Result<(), AllocError>
        requires no_leaf { self.old.leaf ≡ leaf.None }
        requires start { self.old.nesting.leaves.start ≤ end }
        requires within { end ≤ vec_len self.old.nesting.leaves.lines }
        ensures stack { self.new.nesting.stack ≡ self.old.nesting.stack }
        ensures state { OnOk result (state_of self.new ≡ paragraph_closed
            (defined_by self.old self.new) (lines_to end self.old) (state_of self.old)) }
        ensures defined { OnOk result (defined_by self.old self.new ≡ defined_to end self.old) }
        ensures whole { OnOk result (HasWholeLines end self.old
            → defined_by self.old self.new ≡ defined_lines (lines_to end self.old)) }
        ensures leaf { self.new.leaf ≡ self.old.leaf }
        ensures lines { self.new.nesting.leaves.lines ≡ self.old.nesting.leaves.lines }
        ensures document { self.new.bytes ≡ self.old.bytes }
        ensures options { self.new.options ≡ self.old.options }
    {
        if self.take_definitions(end)? {
            self.put_blank_line()?;
            let lines = LineRange::new(self.nesting.leaves.start, end);
            return self.put(Block::Paragraph(lines));
        }
        let at = match self.nesting.leaves.lines[..end].last() {
            Some(line) => line.end,
            None => self.at,
        };
        self.put(Block::Definitions { at })
    }
}

/// Reads the definitions that begin with a line of a paragraph, which ends with `lines`. Returns
/// the index of the line after them.
fn after_definitions(
    alloc: Global,
    bytes: &[u8],
    lines: &[Line],
    from: usize,
    definitions: &mut Definitions,
) -> Result<usize, AllocError>
    requires { from ≤ length lines.now }
    ensures after { IfOk result (λ at. from ≤ at) }
    ensures within { IfOk result (λ at. at ≤ length lines.now) }
    ensures value { IfOk result (λ at.
        at ≡ from + defined_from 0 (texts_from bytes.now lines.now from)) }
{
    let mut at = from;
    'definitions: while at < lines.len() && begins_with_bracket(bytes, lines[at]) {
        match read_definition(alloc, bytes, lines, at, definitions)? {
            Some(next) => at = next.min(lines.len()),
            None => return Ok(at),
        }
    }
    Ok(at)
}

/// Whether a line begins with `[`.
#[inline(always)]
fn begins_with_bracket(bytes: &[u8], line: Line) -> bool
    ensures { (lines : List (List ℕ)) → result ≡ begins_with 91 (line_text bytes.now line ∷ lines) }
{
    bytes.get(line.start) == Some(&b'[') && line.start < line.end
}

/// How many lines there are without the blank ones at their end.
fn without_blank_end(bytes: &[u8], lines: &[Line]) -> usize
    ensures within { result ≤ length lines.now }
    ensures value { result ≡ length lines.now
        - suffix_len (λ line. is_blank_text (text_of_line bytes.now line)) lines.now }
{
    let mut end = lines.len();
    while end > 0 && is_blank(bytes, lines[end - 1]) {
        end -= 1;
    }
    end
}

/// Whether a line has only spaces and tabs. If a tab belongs in part to the prefixes, only spaces
/// are left of it.
fn is_blank(bytes: &[u8], line: Line) -> bool
    ensures { result ≡ is_blank_text (text_of_line bytes.now line) }
{
    let text = &bytes[..line.end.min(bytes.len())];
    if line.columns == 0 {
        is_blank_from(text, line.start)
    } else {
        is_blank_from(text, line.start.saturating_add(1))
    }
}
