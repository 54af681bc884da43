//! The state of the open nodes while events are read.

use md_base::Name;
use md_pattern::{Reading, SpineState, Symbol};

/// The identifier of a link, an image, a footnote call or a definition, as far as events have been
/// read: a label is given by the indices of its two events. Contracts use `Referral`, which has
/// positions.
#[derive(Clone, Copy)]
pub enum Aim {
    Missing,
    Resource,
    /// Its label, which the events at these indices enter and exit.
    Label(usize, usize),
}

/// The state that a node with its own spine saves until it ends.
#[derive(Clone, Copy)]
pub struct Outer {
    /// The place on its parent's spine, after the node.
    pub place: SpineState,
    /// The last symbol of that spine.
    pub last: Option<Symbol>,
    /// The symbol before the node.
    pub before: Option<Symbol>,
    /// What is read of the node.
    pub reading: Reading,
}

/// An open node.
#[derive(Clone, Copy)]
pub struct Open {
    /// The index of the event that enters it.
    pub entry: usize,
    /// Its name.
    pub name: Name,
    /// The state to restore when it ends, if it has its own spine.
    pub outer: Outer,
    /// Whether it has its own spine.
    pub stands: bool,
    /// Whether its parent's spine has a target, which is saved.
    pub aimed: bool,
}
