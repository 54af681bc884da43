//! Compiles Markdown to safe HTML.
#![tactic(auto)]

mod code;
mod compiling;
mod endings;
mod error;
mod events;
mod front;
mod html;
mod keeping;
pub mod laws;
mod leaves;
mod looseness;
mod options;
mod plain;
mod prefixes;
mod table;

pub use compiling::{MAX_DEPTH, events_of, markdown, markdown_within};
pub use error::MarkdownWithinError;
pub use front::front_matter_of;
pub use keeping::{markdown_keeping_html, markdown_keeping_html_within};
pub use md_blocks::{DocumentHtml, MarkdownOptions};
pub use md_html::{Limits, SafeHtml};
