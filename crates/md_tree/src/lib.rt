//! The grammar of Markdown's events: decides which lists of events are the flattening of a tree.
#![tactic(auto)]

mod checked;
mod grammar;
mod infer;
mod input;
mod judge;
pub mod laws;
mod mention;
mod open_nodes;
mod reader;
mod resolve;
mod rule;
mod texts;
mod walk;

pub use checked::Checked;
pub use grammar::check;
pub use infer::{gfm_table_align, list_item_loose, list_loose};
pub use rule::{CompileError, Rule};
