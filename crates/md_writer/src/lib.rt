//! Writes the events of a document, in order.
#![tactic(auto)]

mod added;
mod writer;

pub use added::Added;
pub use writer::{Url, Writer};
