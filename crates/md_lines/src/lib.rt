//! Scanners over the lines of a Markdown document: classes of bytes, line endings, and the parts of
//! a block that may continue on the next line: tags, labels, destinations and titles.
#![tactic(auto)]

mod class;
mod cursor;
mod find;
mod line;
mod link;
mod span;
mod tag;
mod trim;

pub use class::{Class, is};
pub use cursor::{Cursor, Place};
pub use find::find_any;
pub use line::{Line, after_ending, line_end};
pub use link::{Title, read_destination, read_label, read_title};
pub use span::Span;
pub use tag::{read_tag, skip_tag};
pub use trim::{trim_end, trim_start};
