//! Text that goes into HTML: line endings, escaping, URLs and the tag filter, the options of the
//! compiler, and a grammar of the HTML that it writes.
#![tactic(auto)]

mod escape;
mod filter;
mod lanes;
pub mod laws;
mod line_ending;
mod names;
mod options;
mod url;

pub use escape::{encode, push_encoded};
pub use filter::gfm_tagfilter;
pub use line_ending::{LineEnding, LineEndingError};
pub use options::CompileOptions;
pub use url::{push_sanitized, push_sanitized_with_protocols, sanitize, sanitize_with_protocols};
