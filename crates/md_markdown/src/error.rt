//! Why there is no text within limits.

ghost use Rattle.std.specs.Prelude.{◌≡◌};
ghost use Rattle.md_markdown.specs.Parsed.{is_memory, of_limits};

use md_html::{SafeError, WithinError};
use md_tree::CompileError;
use std::alloc::AllocError;
use std::fmt;
use thiserror::Error;

/// Why a document has no text within limits.
#[derive(Debug, PartialEq, Eq, Drop, Error)]
pub enum MarkdownWithinError {
    /// Memory ran out.
    Memory,
    /// The text exceeds its limit.
    TooLong,
    /// Reading, printing and reuse exceed the work limit.
    TooMuch,
}

impl fmt::Display for MarkdownWithinError {
    fn fmt<W: fmt::Write>(&self, f: &mut fmt::Formatter<W>) -> fmt::Result {
        match self {
            MarkdownWithinError::Memory => write!(f, "out of memory"),
            MarkdownWithinError::TooLong => write!(f, "text too long"),
            MarkdownWithinError::TooMuch => write!(f, "too much work"),
        }
    }
}

impl From<AllocError> for MarkdownWithinError {
    ghost use Rattle.std.specs.Prelude.{◌≡◌};
    ghost use Rattle.md_markdown.specs.declared.error.MarkdownWithinError.TheVariants.{Memory};

    ghost from_gives = { λ _ error. error ≡ Memory };

    fn from(_error: AllocError) -> MarkdownWithinError {
        MarkdownWithinError::Memory
    }
}

/// Whether an error means that memory ran out.
pub(crate) fn is_memory(error: &SafeError) -> bool
    ensures { result ≡ is_memory error.now }
{
    matches!(error, SafeError::Compile(CompileError::Memory))
}

/// The error of a document for an error other than an event that breaks a rule.
pub(crate) fn of_limits(error: &WithinError) -> Option<MarkdownWithinError>
    ensures { result ≡ of_limits error.now }
{
    match error {
        WithinError::TooLong => Some(MarkdownWithinError::TooLong),
        WithinError::TooMuch => Some(MarkdownWithinError::TooMuch),
        WithinError::Compile(CompileError::Memory) => Some(MarkdownWithinError::Memory),
        _ => None,
    }
}
