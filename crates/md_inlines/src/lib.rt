//! The inline pass of a Markdown parser: converts the lines of a leaf to events.
#![tactic(auto)]

mod brackets;
mod calls;
mod emission;
mod inlines;
mod links;
mod reader;
mod reading;
mod source;
mod strings;
mod targets;
mod urls;

pub use inlines::Inlines;
pub use md_writer::Writer;
