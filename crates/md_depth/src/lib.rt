//! How deep events and nodes nest.
#![tactic(auto)]

pub mod laws;
