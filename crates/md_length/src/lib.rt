//! Bounds on the length of a document's text: by its number of events, by how much there is to read
//! and to print, and by how much is used again.
#![tactic(auto)]

pub mod laws;
