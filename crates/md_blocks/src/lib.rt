//! The block pass of a Markdown parser. It reads a document's lines to a flat tape of blocks, in
//! document order, with the lines of each leaf and the definitions of links and footnotes.
#![tactic(auto)]

mod block;
mod blocks;
mod breaks;
mod closing;
mod code;
mod containers;
mod definition;
mod html;
mod label;
mod leaves;
mod marker;
mod matching;
mod nesting;
mod options;
mod pass;
mod position;
mod preamble;
mod starts;
mod table;

pub use block::{Block, ContainerKind, LineRange};
pub use blocks::{Blocks, parse_blocks};
pub use definition::{Definition, Definitions};
pub use nesting::MOST_CONTAINERS;
pub use options::{DocumentHtml, MarkdownOptions};
pub use preamble::{FrontMatter, front_matter};
pub use table::next_cell;
