//! The meaning of a Markdown document: the text that its tree prints.
#![tactic(auto)]

pub mod laws;
mod surroundings;

pub use surroundings::{Container, Surroundings};
