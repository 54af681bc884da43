//! The C interface of the cleaner: the layout of its options, and from them to a text.
#![tactic(auto)]

mod given;
mod options;

pub use given::clean_given;
pub use options::CCleanOptions;
