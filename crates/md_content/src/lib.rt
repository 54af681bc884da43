//! The event grammar's conditions on the content of each node, by names and by a few texts.
#![tactic(auto)]

pub mod laws;
