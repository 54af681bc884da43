//! Character references: finds and decodes them, and collects the names that a document uses.
#![tactic(auto)]

mod names;
mod references;

pub use references::{UsedNames, reference_length, text_of_reference};
