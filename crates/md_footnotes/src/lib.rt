//! The footnotes and calls that the printer has found, the tags of calls, and the section of
//! footnotes.
#![tactic(auto)]

mod body;
mod called;
mod calls;
mod decimal;
mod footnotes;
mod ids;
mod lines;
mod notes;
mod places;
mod section;
mod tags;
mod ways_back;

pub use footnotes::Footnotes;
