//! Looks ahead for the looseness of a list.

use md_blocks::Block;

/// A list that is entered and not exited.
#[derive(Clone, Copy, Debug, PartialEq, Eq)]
pub(crate) struct OpenList {
    /// The index of its entry on the tape.
    at: usize,
    /// Whether it is loose, if that was asked before.
    is_loose: Option<bool>,
}

impl OpenList {
    /// The list that begins at an index of the tape.
    pub(crate) fn new(at: usize) -> OpenList {
        OpenList { at, is_loose: None }
    }

    /// Whether it is loose. Its entries on the tape are read once.
    pub(crate) fn is_loose(&mut self, tape: &[Block]) -> bool {
        let is_loose = match self.is_loose {
            Some(is_loose) => is_loose,
            None => has_blank_line(tape.get(self.at.saturating_add(1)..).unwrap_or(&[])),
        };
        self.is_loose = Some(is_loose);
        is_loose
    }
}

/// Whether a blank line is between the items of the list whose entries begin a tape, or between the
/// children of an item.
fn has_blank_line(tape: &[Block]) -> bool {
    let mut depth: usize = 0;
    for block in tape {
        match block {
            Block::BlankLine { .. } if depth < 2 => return true,
            Block::EnterQuote { .. }
            | Block::EnterList { .. }
            | Block::EnterItem { .. }
            | Block::EnterFootnote { .. } => depth = depth.saturating_add(1),
            Block::Exit { .. } if depth == 0 => return false,
            Block::Exit { .. } => depth = depth.saturating_sub(1),
            _ => {}
        }
    }
    false
}
