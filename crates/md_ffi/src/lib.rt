//! Converts events to HTML for programs in C, and in languages that call as C does: a static
//! library.
#![tactic(auto)]

mod clean;
mod export;
mod safe;
mod slugged;
