//! Begins containers.

ghost use Rattle.std.specs.Prelude.{◌≡◌, ◌≤◌, ◌<◌, ◌+◌, ◌==◌, [], length, vec_len, drop, take};
ghost use Rattle.std.specs.Prelude.{OnOk, IfOk, IfSome, IsTrue, get_or, is_some, nat_lt, not, ℕ};
ghost use Rattle.std.specs.Prelude.{false, true, ◌&&◌, Some, None, if◌then◌else◌};
ghost use Rattle.md_blocks.specs.BlockStructure.{container_begun, item_at};
ghost use Rattle.md_blocks.specs.ContainerBlocks.{container_of, is_list_of, is_padded, is_task};
ghost use Rattle.md_blocks.specs.ContainerBlocks.{item_begun, list_begun, list_kind, padding};
ghost use Rattle.md_blocks.specs.ContainerBlocks.{quote_begun, task_begun};
ghost use Rattle.md_blocks.specs.LeafBlocks.{if_begun};
ghost use Rattle.md_blocks.specs.Marks.{number_length};
ghost use Rattle.md_blocks.specs.OwnBlocks.{after_footnote, footnote_begun};
ghost use Rattle.md_blocks.specs.Positions.{rest_of, text_at};
ghost use Rattle.md_blocks.specs.Rests.{passed, rest_at};
ghost use Rattle.md_blocks.specs.Stack.{innermost};
ghost use Rattle.md_blocks.specs.States.{is_in_paragraph};
ghost use Rattle.md_blocks.specs.declared.pass.OpenLeaf.TheVariants as leaf;

use crate::block::{Block, ContainerKind};
use crate::marker::{Marker, footnote_label, item_marker, task_box};
use crate::nesting::{MOST_CONTAINERS, Open};
use crate::pass::{CODE_INDENT, OpenLeaf, Pass};
use crate::position::Position;
use std::alloc::AllocError;

impl<'a> Pass<'a> {
    ghost use Rattle.md_blocks.specs.Passes.{defined_in, state_of};
    ghost use Rattle.md_blocks.specs.Positions.{IsIn, ending_of};
    ghost use Rattle.md_blocks.specs.Progress.{begun_of};

    /// Begins a container if the byte starts one; returns whether it does.
    pub(crate) fn begin_container(
        &mut self,
        byte: u8,
        position: &mut Position<'_>,
        depth: usize,
        is_whole: bool,
    ) -> Result<bool, AllocError>
        requires in_document { IsIn self.old.bytes.now position.old }
        requires has_text { position.old.text < length position.old.line.now }
        requires not_code { position.old.indent < 4 }
        ensures goes_on { IfOk result (λ has_begun. IsTrue has_begun
            → position.old.at < position.new.at) }
        ensures state { IfOk result (λ has_begun. byte ≡ get_or (text_at position.old) 0 0
            → container_begun self.old.options.now (defined_in self.old) depth
            (is_whole && is_in_paragraph (state_of self.old).leaf) (rest_of position.old)
            (ending_of self.old.bytes.now position.old) (state_of self.old)
            ≡ (if has_begun then Some (begun_of self.new position.new) else None)) }
        ensures stays { IfOk result (λ has_begun. has_begun ≡ false
            → (self.new ≡ self.old) × (position.new ≡ position.old)) }
        ensures same_line { position.new.line ≡ position.old.line }
        ensures same_ending { position.new.ending ≡ position.old.ending }
        ensures document { self.new.bytes ≡ self.old.bytes }
        ensures options { self.new.options ≡ self.old.options }
    {
        if byte == b'>' {
            if depth >= MOST_CONTAINERS {
                return Ok(false);
            }
            self.begin_quote(position, depth)?;
            return Ok(true);
        }
        if byte == b'[' {
            if !self.options.footnotes {
                return Ok(false);
            }
            if depth >= MOST_CONTAINERS {
                return Ok(false);
            }
            return self.begin_footnote(position, depth);
        }
        if depth >= MOST_CONTAINERS - 1 {
            return Ok(false);
        }
        let in_paragraph = self.is_in_paragraph(is_whole);
        self.begin_marked(position, depth, in_paragraph)
    }

    /// Whether a line that continues all open containers, or not, continues a paragraph.
    #[inline(always)]
    pub(crate) fn is_in_paragraph(&self, is_whole: bool) -> bool
        ensures value { result ≡ (is_whole && is_in_paragraph (state_of self.now).leaf) }
        ensures is { IsTrue result → self.now.leaf ≡ leaf.Paragraph }
    {
        is_whole && self.leaf.is_paragraph()
    }

    /// Begins an item if its marker is there; returns whether it is.
    #[inline(always)]
    fn begin_marked(
        &mut self,
        position: &mut Position<'_>,
        depth: usize,
        in_paragraph: bool,
    ) -> Result<bool, AllocError>
        requires in_document { IsIn self.old.bytes.now position.old }
        requires not_code { position.old.indent < 4 }
        requires shallow { depth < 95 }
        ensures goes_on { IfOk result (λ has_begun. IsTrue has_begun
            → position.old.at < position.new.at) }
        ensures state { IfOk result (λ has_begun.
            item_at (defined_in self.old) depth in_paragraph (rest_of position.old)
            (ending_of self.old.bytes.now position.old) (state_of self.old)
            ≡ (if has_begun then Some (begun_of self.new position.new) else None)) }
        ensures stays { IfOk result (λ has_begun. has_begun ≡ false
            → (self.new ≡ self.old) × (position.new ≡ position.old)) }
        ensures same_line { position.new.line ≡ position.old.line }
        ensures same_ending { position.new.ending ≡ position.old.ending }
        ensures document { self.new.bytes ≡ self.old.bytes }
        ensures options { self.new.options ≡ self.old.options }
    {
        let Some(marker) = item_marker(position.line, position.text, in_paragraph) else {
            return Ok(false);
        };
        self.begin_item(marker, position, depth)?;
        Ok(true)
    }

    /// Begins a quote.
    fn begin_quote(&mut self, position: &mut Position<'_>, depth: usize) -> Result<(), AllocError>
        requires has_text { position.old.text < length position.old.line.now }
        requires shallow { depth < 96 }
        ensures goes_on { OnOk result (position.old.at < position.new.at) }
        ensures state { OnOk result (state_of self.new
            ≡ (quote_begun (defined_in self.old) depth (rest_of position.old)
            (state_of self.old)).state) }
        ensures rest { OnOk result (rest_of position.new
            ≡ (quote_begun (defined_in self.old) depth (rest_of position.old)
            (state_of self.old)).rest) }
        ensures same_line { position.new.line ≡ position.old.line }
        ensures same_ending { position.new.ending ≡ position.old.ending }
        ensures document { self.new.bytes ≡ self.old.bytes }
        ensures options { self.new.options ≡ self.old.options }
    {
        self.make_room(depth)?;
        let start = position.text;
        self.enter(
            Block::EnterQuote { start },
            open_block(ContainerKind::Quote),
        )?;
        position.pass_quote_mark();
        Ok(())
    }

    /// Begins the definition of a footnote; returns whether there is one.
    fn begin_footnote(
        &mut self,
        position: &mut Position<'_>,
        depth: usize,
    ) -> Result<bool, AllocError>
        requires in_document { IsIn self.old.bytes.now position.old }
        requires shallow { depth < 96 }
        ensures goes_on { IfOk result (λ has_begun. IsTrue has_begun
            → position.old.at < position.new.at) }
        ensures not_code { IfOk result (λ has_begun. IsTrue has_begun
            → position.new.indent ≡ 0) }
        ensures state { IfOk result (λ has_begun.
            footnote_begun (defined_in self.old) depth (rest_of position.old)
            (state_of self.old) ≡ if_begun has_begun (state_of self.new)) }
        ensures rest { IfOk result (λ has_begun. has_begun ≡ true
            → rest_of position.new ≡ after_footnote (rest_of position.old)) }
        ensures stays { IfOk result (λ has_begun. has_begun ≡ false
            → (self.new ≡ self.old) × (position.new ≡ position.old)) }
        ensures same_line { position.new.line ≡ position.old.line }
        ensures same_ending { position.new.ending ≡ position.old.ending }
        ensures document { self.new.bytes ≡ self.old.bytes }
        ensures options { self.new.options ≡ self.old.options }
    {
        let Some(label) = footnote_label(position.line, position.text) else {
            return Ok(false);
        };
        self.make_room(depth)?;
        self.definitions
            .add_footnote(self.alloc, self.bytes, label)?;
        let open = open_block(ContainerKind::FootnoteDefinition);
        self.enter(Block::EnterFootnote { label }, open)?;
        position.pass(label.end + 2 - position.text);
        position.pass_blanks();
        Ok(true)
    }

    /// Begins an item, and a list if the item is its first.
    fn begin_item(
        &mut self,
        marker: Marker,
        position: &mut Position<'_>,
        depth: usize,
    ) -> Result<(), AllocError>
        requires in_document { IsIn self.old.bytes.now position.old }
        requires within { position.old.text + marker.digits < length position.old.line.now }
        requires number { marker.digits ≡ number_length (text_at position.old) }
        requires byte { marker.byte
            ≡ get_or position.old.line.now (position.old.text + marker.digits) 0 }
        requires short { marker.digits ≤ 9 }
        requires not_code { position.old.indent < 4 }
        requires shallow { depth < 95 }
        ensures goes_on { OnOk result (position.old.at < position.new.at) }
        ensures state { OnOk result (state_of self.new
            ≡ (item_begun (defined_in self.old) depth (rest_of position.old)
            (ending_of self.old.bytes.now position.old) (state_of self.old)).state) }
        ensures rest { OnOk result (rest_of position.new ≡ (item_begun 0 depth
            (rest_of position.old) (ending_of self.old.bytes.now position.old)
            (state_of self.old)).rest) }
        ensures same_line { position.new.line ≡ position.old.line }
        ensures same_ending { position.new.ending ≡ position.old.ending }
        ensures document { self.new.bytes ≡ self.old.bytes }
        ensures options { self.new.options ≡ self.old.options }
    {
        let start = position.text;
        let width = position.indent + marker.digits + 1;
        self.begin_list(marker, start, depth)?;
        position.pass(marker.digits + 1);
        let padding = padding(position);
        let item = Block::EnterItem {
            digits: marker.digits as u8,
            start,
        };
        let open = Open {
            kind: ContainerKind::Item,
            indent: width + padding,
            marker: marker.byte,
            has_child: false,
        };
        self.enter(item, open)?;
        match task_at(position) {
            Some(is_checked) => self.begin_task(is_checked, position),
            None => {
                position.advance(padding);
                Ok(())
            }
        }
    }

    /// Chooses the list of an item with this marker: the open list, or a new one.
    fn begin_list(&mut self, marker: Marker, start: usize, depth: usize) -> Result<(), AllocError>
        requires shallow { depth < 95 }
        requires number { marker.digits ≡ number_length (drop start self.old.bytes.now) }
        ensures grows { OnOk result (vec_len self.new.nesting.stack ≤ depth + 1) }
        ensures state { OnOk result (state_of self.new ≡ list_begun (defined_in self.old)
            depth (nat_lt 0 marker.digits) (take marker.digits (drop start self.old.bytes.now))
            marker.byte (state_of self.old)) }
        ensures document { self.new.bytes ≡ self.old.bytes }
        ensures options { self.new.options ≡ self.old.options }
    {
        self.close_unmatched(depth)?;
        let is_ordered = marker.digits > 0;
        if self.is_in_list_of(is_ordered, marker.byte) {
            return self.put_blank_line();
        }
        self.add_child()?;
        self.put_blank_line()?;
        self.enter(
            Block::EnterList { is_ordered, start },
            open_list(is_ordered, marker.byte),
        )
    }

    /// Whether the innermost container is a list of items with this marker.
    #[inline(always)]
    fn is_in_list_of(&self, is_ordered: bool, marker: u8) -> bool
        ensures { result
            ≡ innermost (is_list_of is_ordered marker) self.now.nesting.stack.items }
    {
        match self.nesting.innermost() {
            Some(open) => is_list_of(open, is_ordered, marker),
            None => false,
        }
    }

    /// Reads the rest of an item's line from its checkbox: the text after it is a paragraph,
    /// whatever its first byte is.
    fn begin_task(
        &mut self,
        is_checked: bool,
        position: &mut Position<'_>,
    ) -> Result<(), AllocError>
        requires in_document { IsIn self.old.bytes.now position.old }
        requires within { position.old.text + 3 ≤ length position.old.line.now }
        requires done { is_checked ≡ not (get_or (text_at position.old) 1 0 == 32) }
        ensures goes_on { position.old.at ≤ position.new.at }
        ensures state { OnOk result (state_of self.new ≡ task_begun (rest_of position.old)
            (ending_of self.old.bytes.now position.old) (state_of self.old)) }
        ensures rest { OnOk result (rest_of position.new
            ≡ rest_at (passed 3 (rest_of position.old)).column []) }
        ensures same_line { position.new.line ≡ position.old.line }
        ensures same_ending { position.new.ending ≡ position.old.ending }
        ensures document { self.new.bytes ≡ self.old.bytes }
        ensures options { self.new.options ≡ self.old.options }
    {
        self.put(Block::Task {
            is_checked,
            start: position.text,
        })?;
        position.pass(3);
        self.note_child();
        if !position.is_blank() {
            self.begin(OpenLeaf::Paragraph, position.text_line())?;
        }
        position.finish();
        Ok(())
    }
}

/// Whether text follows an item's marker after at most four columns; otherwise code, or no text.
#[inline(always)]
fn is_padded(position: &Position<'_>) -> bool
    ensures { result ≡ is_padded (rest_of position.now) }
{
    position.indent <= CODE_INDENT && !position.is_blank()
}

/// How many columns after an item's marker belong to it.
#[inline(always)]
fn padding(position: &Position<'_>) -> usize
    ensures few { result ≤ 4 }
    ensures value { result ≡ padding (rest_of position.now) }
{
    if is_padded(position) {
        position.indent
    } else {
        1
    }
}

/// The checkbox after an item's marker: `Some(true)` if it is checked.
fn task_at(position: &Position<'_>) -> Option<bool>
    ensures within { IfSome result (λ _.
        position.now.text + 3 ≤ length position.now.line.now) }
    ensures there { is_some result ≡ is_task (rest_of position.now) }
    ensures done { IfSome result (λ is_done.
        is_done ≡ not (get_or (text_at position.now) 1 0 == 32)) }
{
    if !is_padded(position) {
        return None;
    }
    task_box(position.line, position.text)
}

/// Whether a container is a list of items with this marker.
fn is_list_of(container: Open, is_ordered: bool, marker: u8) -> bool
    ensures { result ≡ is_list_of is_ordered marker container }
{
    match container.kind {
        ContainerKind::OrderedList => is_ordered && container.marker == marker,
        ContainerKind::UnorderedList => !is_ordered && container.marker == marker,
        _ => false,
    }
}

/// A new list of items with this marker.
fn open_list(is_ordered: bool, marker: u8) -> Open
    ensures { result ≡ container_of (list_kind is_ordered) 0 marker }
{
    let kind = if is_ordered {
        ContainerKind::OrderedList
    } else {
        ContainerKind::UnorderedList
    };
    Open {
        marker,
        ..open_block(kind)
    }
}

/// A new open block, with no child and no marker.
fn open_block(kind: ContainerKind) -> Open
    ensures { result ≡ container_of kind 0 0 }
{
    Open {
        kind,
        indent: 0,
        marker: 0,
        has_child: false,
    }
}
