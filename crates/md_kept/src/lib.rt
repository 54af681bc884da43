//! The HTML that authors write in Markdown: which of its tags are kept, and the events of a
//! document in which they are.
#![tactic(auto)]

mod content;
mod items;
mod keeping;
mod own;
mod pairing;
mod pieces;
mod placing;
mod reading;
mod writing;

pub use keeping::{Kept, has_html, keep};
pub use pieces::are_pieces;
