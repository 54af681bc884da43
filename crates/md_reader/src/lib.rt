//! Says whether a text is safe HTML, whoever wrote it: whether it has a reading in the HTML grammar
//! with all that is promised of compiled texts.
#![tactic(auto)]

mod attributes;
mod content;
mod distinct;
mod escaped;
mod ids;
pub mod laws;
mod names;
mod nodes;
mod pieces;
mod places;
mod protocol;
mod rules;
mod run;
mod safe;

pub use distinct::is_safe_html_with_distinct_ids;
pub use escaped::safe_or_escaped;
pub use pieces::is_authors_piece;
pub use protocol::Protocols;
pub use safe::{MAX_DEPTH, is_authors_html, is_chosen_html, is_safe_html, is_safe_html_with};
