//! The answer of a call.

ghost use Rattle.std.specs.Prelude.{◌≡◌};
ghost use Rattle.md_abi.specs.Numbers.{rule_number};
ghost use Rattle.md_abi.specs.Failures.{answer_of};
ghost use Rattle.md_abi.specs.Refusals.{answer_of_refusal};
ghost use Rattle.md_abi.specs.WithinFailures.{answer_of_within};
ghost use Rattle.md_abi.specs.UnnestedFailures.{answer_of_unnested};
ghost use Rattle.md_abi.specs.Buffer.{IsHandedOver, IsListHandedOver};

use crate::failure::Failure;
use crate::refusal::Refusal;
use crate::unnested::UnnestedFailure;
use crate::within::WithinFailure;
use md_tree::Rule;

/// The text is in the buffer.
pub(crate) const OK: u32 = 0;

/// The buffer is too short.
const TOO_SHORT: u32 = 1;

/// An event is refused.
const REFUSED: u32 = 2;

/// An event is invalid.
const NO_EVENT: u32 = 3;

/// A named character reference is invalid.
const NO_NAME: u32 = 4;

/// An option is invalid.
const NO_OPTION: u32 = 5;

/// A line of a script is invalid.
const NO_LINE: u32 = 6;

/// Memory ran out.
const MEMORY: u32 = 7;

/// The call requests attributes under options that aren't safe.
const UNSAFE: u32 = 8;

/// An attribute is invalid.
const NO_ATTRIBUTE: u32 = 9;

/// The text exceeds its limit.
const TOO_LONG: u32 = 10;

/// Reading and printing exceed the work limit.
const TOO_MUCH: u32 = 11;

/// A link contains a link.
pub(crate) const NESTED: u32 = 12;

/// The events nest deeper than the limit allows.
const TOO_DEEP: u32 = 13;

/// The answer of a call. A field that the status doesn't use is 0.
#[repr(C)]
#[derive(Clone, Copy)]
pub struct Answer {
    /// Whether there is a text, or why there is none.
    pub status: u32,
    /// The number of the rule that a refused event breaks, from 1.
    pub rule: u32,
    /// The index of an event or of a named character reference, the number of an option, or a
    /// script's line, from 1.
    pub index: usize,
    /// The length of the text in bytes.
    pub length: usize,
}

/// The answer to a failure.
pub fn answer_to(failure: &Failure) -> Answer
    ensures { result ≡ answer_of failure.now }
{
    match failure {
        Failure::Memory => about(MEMORY, 0),
        Failure::Event(index) => about(NO_EVENT, *index),
        Failure::Name(index) => about(NO_NAME, *index),
        Failure::Option(number) => about(NO_OPTION, *number),
        Failure::Line(number) => about(NO_LINE, *number),
        Failure::Refused { index, rule } => Answer {
            rule: rule_number(*rule),
            ..about(REFUSED, *index)
        },
    }
}

/// The answer to a refusal.
pub fn answer_to_refusal(refusal: &Refusal) -> Answer
    ensures { result ≡ answer_of_refusal refusal.now }
{
    match refusal {
        Refusal::Unsafe => about(UNSAFE, 0),
        Refusal::Attribute(number) => about(NO_ATTRIBUTE, *number),
        Refusal::Failed(failure) => answer_to(failure),
    }
}

/// The answer to a failure within limits.
pub fn answer_to_within(failure: &WithinFailure) -> Answer
    ensures { result ≡ answer_of_within failure.now }
{
    match failure {
        WithinFailure::TooLong => about(TOO_LONG, 0),
        WithinFailure::TooMuch => about(TOO_MUCH, 0),
        WithinFailure::TooDeep => about(TOO_DEEP, 0),
        WithinFailure::Failed(failure) => answer_to(failure),
    }
}

/// The answer to a failure of a call that allows no link in a link.
pub fn answer_to_unnested(failure: &UnnestedFailure) -> Answer
    ensures { result ≡ answer_of_unnested failure.now }
{
    match failure {
        UnnestedFailure::Nested => about(NESTED, 0),
        UnnestedFailure::Refused(refusal) => answer_to_refusal(refusal),
    }
}

/// The answer with only a status and an index.
pub(crate) fn about(status: u32, index: usize) -> Answer
    ensures { result ≡ record { status = status; rule = 0; index = index; length = 0 } }
{
    Answer {
        status,
        rule: 0,
        index,
        length: 0,
    }
}

/// The number of a rule.
fn rule_number(rule: Rule) -> u32
    ensures { result ≡ rule_number rule }
{
    match rule {
        Rule::Order => 1,
        Rule::Mdx => 2,
        Rule::Place => 3,
        Rule::LineEnding => 4,
        Rule::HeadingMark => 5,
        Rule::ListNumber => 6,
        Rule::CharacterReference => 7,
        Rule::Definition => 8,
        Rule::Footnote => 9,
        Rule::Target => 10,
    }
}

/// Writes a text to a buffer if it fits, and reports its length.
pub fn hand_over(text: &str, buffer: &mut [u8]) -> Answer
    ensures { IsHandedOver text.now buffer.old buffer.new result }
{
    let bytes = text.as_bytes();
    if bytes.len() > buffer.len() {
        return with_length(TOO_SHORT, bytes.len());
    }
    buffer[..bytes.len()].copy_from_slice(bytes);
    with_length(OK, bytes.len())
}

/// The same as [`hand_over`] for a text and a list after it; the answer's index says where the list
/// begins.
pub fn hand_over_listed(whole: &str, start: usize, buffer: &mut [u8]) -> Answer
    ensures { IsListHandedOver whole.now start buffer.old buffer.new result }
{
    Answer {
        index: start,
        ..hand_over(whole, buffer)
    }
}

/// The answer with only a status and a length.
fn with_length(status: u32, length: usize) -> Answer
    ensures { result ≡ record { status = status; rule = 0; index = 0; length = length } }
{
    Answer {
        length,
        ..about(status, 0)
    }
}
