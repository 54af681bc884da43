//! Node facts: what the check found about a node, as input for the printer's steps.
#![tactic(auto)]

mod definitions;
mod ends;
mod found;
mod identifiers;

pub use definitions::referred_definition_at;
pub use ends::{
    inside_at, is_last_at, is_leaf_among, place_left_at, text_inside, text_left_at, text_of_leaf,
};
pub use found::{contributing_left_at, is_loose_at, number_at, rank_at, rank_left_at};
pub use identifiers::identifier_left_at;
