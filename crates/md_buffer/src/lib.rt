//! The text of a printer, with nested captured texts.
#![tactic(auto)]

mod code;
mod heads;
mod media;
mod output;
mod target;

pub use code::push_code;
pub use media::{
    TargetRef, put_anchor_before, put_anchor_head, put_picture_before, put_picture_tail,
};
pub use output::Output;
pub use target::Target;
