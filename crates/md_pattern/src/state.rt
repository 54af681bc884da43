//! The progress in reading a spine.

use crate::kinds::{Role, Symbol};

/// The progress in reading a group.
#[derive(Clone, Copy)]
pub enum Stage {
    /// No group is open.
    Whole,
    /// The marker of a reference was read.
    Marker,
    /// Its numeric marker was read.
    Numeric,
    /// Its hexadecimal marker was read.
    Hexadecimal,
    /// The text of a setext heading was read, and maybe line endings.
    Setext,
}

/// The progress in reading a spine.
#[derive(Clone, Copy)]
pub struct State {
    /// The first item of the pattern that may take the next symbol.
    pub position: u8,
    /// The role of the node whose spine it is.
    pub role: Role,
    /// The last symbol.
    pub before: Option<Symbol>,
    /// The progress in the open group, if there is one.
    pub stage: Stage,
}
