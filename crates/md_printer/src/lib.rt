//! The printer's state, and its step at each event, as `md_steps` defines the steps.
#![tactic(auto)]

mod autolinks;
mod blocks;
mod calls;
mod captured;
mod columns;
mod context;
mod entering;
mod finishing;
mod headings;
mod leaves;
mod leaving;
mod links;
mod lists;
mod printer;
mod scope;
mod scopes;
mod spans;
mod tables;

pub use context::Context;
pub use md_buffer::Target;
pub use printer::Printer;
