//! Markdown events, their names as scripts write them, their places in a document's bytes, and the
//! text rules of identifiers and character references.
#![tactic(auto)]

mod collapsed;
mod event;
mod event_names;
mod identifier;
pub mod laws;
mod lists;
mod name;
mod name_tables;
pub mod name_tests;
mod position;
mod reference;
mod references;
mod slice;
mod text;

pub use event::{AlignKind, Event, Kind, Name, Point, Position};
pub use event_names::{names_by_length, names_by_number};
pub use identifier::normalize_identifier;
pub use lists::{GFM_HTML_TAGFILTER_NAMES, SAFE_PROTOCOL_HREF, SAFE_PROTOCOL_SRC};
pub use name::is_same_name;
pub use reference::decode_character_reference;
pub use references::References;
pub use slice::Slice;
