//! The marks of a leaf's text: the next mark, the pairs of delimiters, and the end of what a mark
//! begins.
#![tactic(auto)]

mod autolinks;
mod bare_links;
mod characters;
mod closings;
mod delimiters;
mod html;
mod leaf;
mod marks;
mod token;

pub use autolinks::{Autolink, autolink_at};
pub use bare_links::{BareLink, WwwLinks, address, is_www, url};
pub use characters::{CharacterClass, class_after, class_before, flanks};
pub use closings::{Dollars, Ticks};
pub use delimiters::{Delimiter, Delimiters};
pub use html::Endings;
pub use leaf::{Leaf, run_length};
pub use marks::Marks;
pub use token::{Mark, Token, push_token};
