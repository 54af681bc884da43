//! The steps of a printer of one text, which print the meaning.
#![tactic(auto)]

pub mod laws;
