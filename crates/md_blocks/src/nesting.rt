//! The tape, and the open containers.

ghost use Rattle.md_blocks.specs.Stack.{ends_of, innermost, is_footnote, is_list, is_quote};
ghost use Rattle.md_blocks.specs.Stack.{quotes_depth, with_child, without_list};
ghost use Rattle.md_blocks.specs.BlankLines.{in_list};
ghost use Rattle.md_blocks.specs.Tape.{leads, enters, exits};
ghost use Rattle.std.specs.Prelude.{IsTrue, ◌≡◌, ◌≤◌, ◌<◌, ◌+◌, ◌-◌, ◌++◌, ◌∷◌, ◌||◌, [], vec_len};
ghost use Rattle.std.specs.Prelude.{drop, length, take, IfOk, OnErr, OnOk, IsSome, slice_get, true, false};
ghost use Rattle.std.specs.Prelude.{List, ℕ};
ghost use Rattle.std.specs.List.{list_any, All};
ghost use Rattle.md_blocks.specs.Tapes.{lines_end, entries_of};

use crate::block::{Block, ContainerKind};
use crate::leaves::Leaves;
use md_lines::Line;
use std::alloc::{AllocError, Global};

/// The maximum depth of nested containers. A marker that would begin a deeper one is text. This
/// bounds the work for each line.
pub const MOST_CONTAINERS: usize = 96;

/// An open container.
#[derive(Clone, Copy)]
pub(crate) struct Open {
    pub(crate) kind: ContainerKind,
    /// For an item, how many columns a line must be indented by to continue it.
    pub(crate) indent: usize,
    /// The last byte of the marker of an item, or of the markers of a list's items.
    pub(crate) marker: u8,
    pub(crate) has_child: bool,
}

impl Open {
    /// Whether it is a list.
    pub(crate) fn is_list(self) -> bool
        ensures { result ≡ is_list self }
    {
        matches!(
            self.kind,
            ContainerKind::OrderedList | ContainerKind::UnorderedList
        )
    }

    /// Whether it is a quote or a footnote.
    fn is_quote_or_footnote(self) -> bool
        ensures { result ≡ (is_quote self || is_footnote self) }
    {
        matches!(
            self.kind,
            ContainerKind::Quote | ContainerKind::FootnoteDefinition
        )
    }
}

/// The tape, the open containers, the outermost first, and the lines of the leaves.
#[derive(Drop)]
pub(crate) struct Nesting {
    pub(crate) tape: Vec<Block>,
    pub(crate) stack: Vec<Open>,
    pub(crate) leaves: Leaves,
    ghost shallow: { vec_len stack ≤ 96 },
    ghost nested: { IsTrue (leads 0 tape.items (vec_len stack)) },
    ghost kept: { All (λ block. lines_end block ≤ vec_len leaves.lines) tape.items },
}

impl Nesting {
    /// An empty tape, with capacity for some blocks and for some lines of leaves.
    pub(crate) fn new(alloc: Global, blocks: usize, lines: usize) -> Result<Self, AllocError>
        ensures tape { IfOk result (λ nesting. nesting.tape.items ≡ []) }
        ensures stack { IfOk result (λ nesting. nesting.stack.items ≡ []) }
    {
        let tape = Vec::with_capacity(alloc, blocks)?;
        Ok(Nesting {
            tape,
            stack: Vec::new(alloc),
            leaves: Leaves::new(alloc, lines)?,
        })
    }

    /// How many blocks are open.
    #[inline(always)]
    pub(crate) fn depth(&self) -> usize
        ensures { result ≡ vec_len self.now.stack }
    {
        self.stack.len()
    }

    /// The innermost open block.
    #[inline(always)]
    pub(crate) fn innermost(&self) -> Option<Open>
        ensures some { IsSome result → 0 < vec_len self.now.stack }
        ensures value { result ≡ slice_get self.now.stack.items (length self.now.stack.items - 1) }
    {
        self.stack.last().copied()
    }

    /// Enters a container; `block` is its beginning. After an error nothing is entered.
    pub(crate) fn enter(&mut self, block: Block, opened: Open) -> Result<(), AllocError>
        requires shallow { vec_len self.old.stack < 96 }
        requires enters { enters block ≡ true }
        ensures grows { vec_len self.new.stack ≤ vec_len self.old.stack + 1 }
        ensures tape { OnOk result (self.new.tape.items ≡ self.old.tape.items ++ block ∷ []) }
        ensures stack { OnOk result (self.new.stack.items ≡ self.old.stack.items ++ opened ∷ []) }
        ensures leaves { self.new.leaves ≡ self.old.leaves }
    {
        let depth = self.stack.len();
        self.stack.push(opened)?;
        match self.tape.push(block) {
            Ok(()) => Ok(()),
            Err(error) => {
                self.stack.truncate(depth);
                Err(AllocError::from(error))
            }
        }
    }

    /// Writes an entry that neither begins nor ends a container.
    #[inline]
    pub(crate) fn put(&mut self, block: Block) -> Result<(), AllocError>
        requires enters_none { enters block ≡ false }
        requires exits_none { exits block ≡ false }
        requires kept { lines_end block ≤ vec_len self.old.leaves.lines }
        ensures stack { self.new.stack ≡ self.old.stack }
        ensures tape { OnOk result (self.new.tape.items ≡ self.old.tape.items ++ block ∷ []) }
        ensures leaves { self.new.leaves ≡ self.old.leaves }
    {
        self.tape.push(block)?;
        Ok(())
    }

    /// Begins a leaf. The lines that are pushed next belong to it.
    #[inline(always)]
    pub(crate) fn begin_leaf(&mut self)
        ensures tape { self.new.tape ≡ self.old.tape }
        ensures stack { self.new.stack ≡ self.old.stack }
        ensures lines { self.new.leaves.lines ≡ self.old.leaves.lines }
        ensures start { self.new.leaves.start ≡ vec_len self.old.leaves.lines }
    {
        self.leaves.start = self.leaves.lines.len();
    }

    /// Begins a leaf at a line that is already pushed.
    #[inline(always)]
    pub(crate) fn begin_leaf_at(&mut self, start: usize)
        requires { start ≤ vec_len self.old.leaves.lines }
        ensures tape { self.new.tape ≡ self.old.tape }
        ensures stack { self.new.stack ≡ self.old.stack }
        ensures lines { self.new.leaves.lines ≡ self.old.leaves.lines }
        ensures start { self.new.leaves.start ≡ start }
    {
        self.leaves.start = start;
    }

    /// Pushes a line of the last leaf.
    #[inline(always)]
    pub(crate) fn push_line(&mut self, line: Line) -> Result<(), AllocError>
        ensures tape { self.new.tape ≡ self.old.tape }
        ensures stack { self.new.stack ≡ self.old.stack }
        ensures start { self.new.leaves.start ≡ self.old.leaves.start }
        ensures lines { OnOk result (self.new.leaves.lines.items
            ≡ self.old.leaves.lines.items ++ line ∷ []) }
        ensures unchanged { OnErr result
            (self.new.leaves.lines.items ≡ self.old.leaves.lines.items) }
        ensures grows { vec_len self.old.leaves.lines ≤ vec_len self.new.leaves.lines }
        ensures entries { OnOk result ((bytes : List ℕ) →
            entries_of bytes self.new.leaves.lines.items self.new.tape.items
            ≡ entries_of bytes self.old.leaves.lines.items self.old.tape.items) }
    {
        self.leaves.lines.push(line)?;
        Ok(())
    }

    /// Records that the innermost open block has a child.
    #[inline(always)]
    pub(crate) fn note_child(&mut self)
        ensures len { vec_len self.new.stack ≡ vec_len self.old.stack }
        ensures stack { self.new.stack.items ≡ with_child self.old.stack.items }
        ensures tape { self.new.tape ≡ self.old.tape }
        ensures leaves { self.new.leaves ≡ self.old.leaves }
    {
        if let Some(open) = self.stack.last_mut() {
            open.has_child = true;
        }
    }

    /// Closes the innermost blocks until this many are open.
    pub(crate) fn close_to(&mut self, depth: usize, at: usize) -> Result<(), AllocError>
        ensures shrinks { vec_len self.new.stack ≤ vec_len self.old.stack }
        ensures closes { OnOk result (vec_len self.new.stack ≤ depth) }
        ensures stack { OnOk result (self.new.stack.items ≡ take depth self.old.stack.items) }
        ensures tape { OnOk result (self.new.tape.items
            ≡ self.old.tape.items ++ ends_of at (drop depth self.old.stack.items)) }
        ensures leaves { self.new.leaves ≡ self.old.leaves }
    {
        while self.stack.len() > depth {
            self.exit(at)?;
        }
        Ok(())
    }

    /// Closes the innermost block.
    fn exit(&mut self, at: usize) -> Result<(), AllocError>
        requires { 0 < vec_len self.old.stack }
        ensures shrinks { vec_len self.new.stack ≤ vec_len self.old.stack }
        ensures ended { OnOk result (vec_len self.new.stack + 1 ≡ vec_len self.old.stack) }
        ensures stack { OnOk result (self.new.stack.items
            ≡ take (length self.old.stack.items - 1) self.old.stack.items) }
        ensures tape { OnOk result (self.new.tape.items ≡ self.old.tape.items
            ++ ends_of at (drop (length self.old.stack.items - 1) self.old.stack.items)) }
        ensures leaves { self.new.leaves ≡ self.old.leaves }
    {
        let depth = self.stack.len() - 1;
        let open = self.stack[depth];
        self.tape.push(Block::Exit {
            kind: open.kind,
            is_empty: !open.has_child,
            at,
        })?;
        self.stack.truncate(depth);
        Ok(())
    }

    /// Closes the innermost block if it is a list.
    pub(crate) fn close_list(&mut self, at: usize) -> Result<(), AllocError>
        ensures shrinks { vec_len self.new.stack ≤ vec_len self.old.stack }
        ensures stack { OnOk result (self.new.stack.items
            ≡ take (without_list self.old.stack.items) self.old.stack.items) }
        ensures tape { OnOk result (self.new.tape.items ≡ self.old.tape.items
            ++ ends_of at (drop (without_list self.old.stack.items) self.old.stack.items)) }
        ensures leaves { self.new.leaves ≡ self.old.leaves }
    {
        if !self.is_at_list() {
            return Ok(());
        }
        let inner = self.stack.len() - 1;
        self.close_to(inner, at)
    }

    /// Whether the innermost open block is a list.
    #[inline(always)]
    fn is_at_list(&self) -> bool
        ensures value { result ≡ innermost is_list self.now.stack.items }
        ensures some { IsTrue result → 0 < vec_len self.now.stack }
    {
        match self.innermost() {
            Some(open) => open.is_list(),
            None => false,
        }
    }

    /// Whether the innermost open block is an item or a list.
    pub(crate) fn is_in_list(&self) -> bool
        ensures { result ≡ innermost in_list self.now.stack.items }
    {
        match self.innermost() {
            Some(open) => open.kind == ContainerKind::Item || open.is_list(),
            None => false,
        }
    }

    /// Whether a quote is open.
    pub(crate) fn has_quote(&self) -> bool
        ensures { result ≡ list_any is_quote self.now.stack.items }
    {
        for open in &self.stack {
            if open.kind == ContainerKind::Quote {
                return true;
            }
        }
        false
    }

    /// How many blocks are open up to and including the innermost quote or footnote; 0 if there is
    /// none.
    pub(crate) fn depth_of_quote(&self) -> usize
        ensures { result ≡ quotes_depth self.now.stack.items }
    {
        let mut depth = 0;
        for (index, open) in self.stack.iter().enumerate() {
            if open.is_quote_or_footnote() {
                depth = index + 1;
            }
        }
        depth
    }
}
