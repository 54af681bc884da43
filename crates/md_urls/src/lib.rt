//! Resolves URLs against a base, as in RFC 3986, 5.2.
#![tactic(auto)]

mod base;
mod parts;
mod path;

pub use base::Base;
pub use parts::Parts;
