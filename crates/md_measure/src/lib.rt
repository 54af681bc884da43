//! Measures events one after another: how much they give to read and to print, how deep they nest,
//! and whether a link contains a link; and how much a checked document reads again.
#![tactic(auto)]

mod covered;
mod levels;
mod links;
mod measure;
mod parts;
mod read;
mod referred;

pub use levels::Levels;
pub use links::Links;
pub use measure::Measure;
pub use parts::Parts;
pub use referred::{call_lengths, referred_of};
