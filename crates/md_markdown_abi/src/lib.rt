//! The C interface for Markdown: its layouts, its numbers, and their meanings.
#![tactic(auto)]

mod answer;
mod document;
mod failure;
mod front;
mod given;
mod kept;
mod option;
mod slugged;

pub use answer::answer_to_markdown;
pub use document::read_document;
pub use failure::MarkdownFailure;
pub use front::answer_to_front_matter;
pub use given::markdown_given;
pub use option::{CMarkdownOptions, VERSION};
pub use slugged::markdown_slugged;
