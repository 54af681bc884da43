//! The labels that nodes refer to or define.

use md_base::Position;

/// How a link, an image, a footnote call or a definition refers or is referred to: a label is given
/// by its position. Contracts use it; while events are read, `Aim` stores indices of events
/// instead.
#[derive(Clone, Copy)]
pub enum Referral {
    Missing,
    Resource,
    /// The position of its label, of which only the indices are read.
    Label(Position),
}

/// What a node that ends refers to or defines, by the position of its label.
#[derive(Clone, Copy)]
pub enum Mention {
    Nothing,
    /// A link or an image that refers to a definition.
    Reference(Position),
    Call(Position),
    Definition(Position),
    FootnoteDefinition(Position),
}

/// The mention of a node that exits at an index.
#[derive(Clone, Copy)]
pub struct Mentioned {
    /// The index of the event that exits the node.
    pub index: usize,
    /// The mention of the node.
    pub mention: Mention,
}
