//! Cleans HTML: safe HTML from any text, with the elements and attributes of the grammar.
#![tactic(auto)]

mod attributes;
mod choice;
mod cleaning;
mod decoding;
mod ends;
mod leaves;
mod legacy;
mod names;
mod raw;
mod spans;
mod starts;
mod tables;
mod tokens;
mod tree;
mod values;

pub use attributes::push_tag;
pub use choice::{CleanOptions, TAGS};
pub use cleaning::{clean, clean_with};
pub use decoding::{Place, decode};
pub use names::{Kind, Tag, tag_named};
pub use raw::raw_length;
pub use tokens::{StartTag, Token, split_token};
pub use values::Listed;
