//! Why a document has no text.

use md_abi::Failure;
use md_markdown::MarkdownWithinError;
use std::alloc::AllocError;

/// Why a call has no text of a document.
#[derive(Drop)]
pub enum MarkdownFailure {
    /// The layout of the options isn't the one that is read.
    NoVersion,
    /// The document has this many bytes, which exceed its limit.
    InputTooLong(usize),
    /// The document isn't UTF-8 from the byte with this index.
    NotUtf8(usize),
    /// The text exceeds its limit.
    OutputTooLong,
    /// Reading, printing and reuse exceed the work limit.
    TooMuchWork,
    /// An invalid option, or memory ran out.
    Failed(Failure),
}

impl From<Failure> for MarkdownFailure {
    ghost use Rattle.std.specs.Prelude.{◌≡◌};
    ghost use Rattle.md_markdown_abi.specs.declared.failure.MarkdownFailure.TheVariants.{Failed};

    ghost from_gives = { λ failure made. made ≡ Failed failure };

    fn from(failure: Failure) -> MarkdownFailure {
        MarkdownFailure::Failed(failure)
    }
}

impl From<AllocError> for MarkdownFailure {
    ghost use Rattle.std.specs.Prelude.{◌≡◌};
    ghost use Rattle.md_abi.specs.declared.failure.Failure.TheVariants.{Memory};
    ghost use Rattle.md_markdown_abi.specs.declared.failure.MarkdownFailure.TheVariants.{Failed};

    ghost from_gives = { λ _ made. made ≡ Failed Memory };

    fn from(_error: AllocError) -> MarkdownFailure {
        MarkdownFailure::Failed(Failure::Memory)
    }
}

impl From<MarkdownWithinError> for MarkdownFailure {
    ghost use Rattle.std.specs.Prelude.{◌≡◌};
    ghost use Rattle.md_markdown_abi.specs.Failures.{failure_within};

    ghost from_gives = { λ error made. made ≡ failure_within error };

    fn from(error: MarkdownWithinError) -> MarkdownFailure {
        match error {
            MarkdownWithinError::TooLong => MarkdownFailure::OutputTooLong,
            MarkdownWithinError::TooMuch => MarkdownFailure::TooMuchWork,
            MarkdownWithinError::Memory => MarkdownFailure::Failed(Failure::Memory),
        }
    }
}
