//! The C interface: its layouts, its numbers, and their meanings.
#![tactic(auto)]

mod answer;
mod attributed;
mod attributes;
mod event;
mod failure;
mod given;
mod links;
mod names;
mod option;
mod reference;
mod refusal;
mod text;
mod unnested;
mod within;

pub use answer::{
    Answer, answer_to, answer_to_refusal, answer_to_unnested, answer_to_within, hand_over,
    hand_over_listed,
};
pub use attributed::{Attributed, add_asked, compile_attributed, with_list};
pub use attributes::CAttributes;
pub use event::CEvent;
pub use failure::Failure;
pub use given::{CDocument, compile_given};
pub use links::answer_to_links;
pub use option::{COptions, CText, borrow_text, read_flag, read_text};
pub use reference::CReference;
pub use refusal::Refusal;
pub use unnested::{UnnestedFailure, compile_given_unnested};
pub use within::{CLimits, WithinFailure, compile_given_within};
