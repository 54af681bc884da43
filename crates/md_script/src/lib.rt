//! Reads and compiles event scripts: their lines, events, short forms and settings, and the
//! programs that run them.
#![tactic(auto)]

mod common_name;
mod digits;
mod error;
mod line;
mod name;
mod name_rows;
mod number;
mod plain_line;
mod running;
mod running_within;
mod script;
mod serving;
mod setting;
mod split;
mod table;

pub use error::{RunError, SafeRunError};
pub use md_html::Limits;
pub use running::{run, run_safe};
pub use running_within::{RunWithinError, run_within};
pub use serving::{ServeError, read_input, serve};
