//! The answer of a call with Markdown.

ghost use Rattle.std.specs.Prelude.{◌≡◌};
ghost use Rattle.md_markdown_abi.specs.Failures.{answer_of_markdown, answer_with};

use crate::failure::MarkdownFailure;
use md_abi::{Answer, answer_to};

/// The requested result exists.
pub(crate) const OK: u32 = 0;

/// The document exceeds its limit in bytes.
const INPUT_TOO_LONG: u32 = 32;

/// The text exceeds its limit in bytes.
const OUTPUT_TOO_LONG: u32 = 33;

/// The document isn't UTF-8.
pub(crate) const NOT_UTF8: u32 = 34;

/// The options have another version.
const NO_VERSION: u32 = 35;

/// The work exceeds its limit.
const TOO_MUCH_WORK: u32 = 37;

/// The answer to a failure.
pub fn answer_to_markdown(failure: &MarkdownFailure) -> Answer
    ensures { result ≡ answer_of_markdown failure.now }
{
    match failure {
        MarkdownFailure::NoVersion => answer_with(NO_VERSION, 0, 0),
        MarkdownFailure::InputTooLong(length) => answer_with(INPUT_TOO_LONG, 0, *length),
        MarkdownFailure::NotUtf8(index) => answer_with(NOT_UTF8, *index, 0),
        MarkdownFailure::OutputTooLong => answer_with(OUTPUT_TOO_LONG, 0, 0),
        MarkdownFailure::TooMuchWork => answer_with(TOO_MUCH_WORK, 0, 0),
        MarkdownFailure::Failed(failure) => answer_to(failure),
    }
}

/// The answer without a rule.
pub(crate) fn answer_with(status: u32, index: usize, length: usize) -> Answer
    ensures { result ≡ answer_with status index length }
{
    Answer {
        status,
        rule: 0,
        index,
        length,
    }
}
