//! Compiles C's input to a text within limits.

ghost use Rattle.std.specs.Prelude.{◌≡◌, OnOk, IfOk, IfErr, string_bytes};
ghost use Rattle.md_tree.specs.Grammar.{handed};
ghost use Rattle.md_html.specs.Within.{WithinPromises};
ghost use Rattle.md_abi.specs.Within.{IsRenderedWithin, IsBounded, IsShallow, depth_limit};
ghost use Rattle.md_abi.specs.WithinFailures.{IsFailureWithin, ExplainsWithin};

use crate::event::read_c_events;
use crate::failure::Failure;
use crate::given::CDocument;
use crate::option::read_options;
use crate::reference::read_references;
use md_base::Event;
use md_html::{Limits, WithinError, compile_within};
use md_text::CompileOptions;
use std::alloc::Global;

/// Limits on the length of a text, on its work, and on how deep its events nest.
#[repr(C)]
#[derive(Clone, Copy)]
pub struct CLimits {
    /// The maximum length of the text in bytes.
    pub text: usize,
    /// The maximum of what is read, printed and used again.
    pub work: usize,
    /// The maximum number of nodes that are open at once; 0 is no limit.
    pub depth: usize,
}

/// Why a call has no text within limits.
#[derive(Drop)]
pub enum WithinFailure {
    /// The text exceeds its limit.
    TooLong,
    /// Reading, printing and reuse exceed the work limit.
    TooMuch,
    /// The events nest deeper than the limit allows.
    TooDeep,
    /// There is no text at all.
    Failed(Failure),
}

impl From<Failure> for WithinFailure {
    ghost use Rattle.std.specs.Prelude.{◌≡◌};
    ghost use Rattle.md_abi.specs.declared.within.WithinFailure.TheVariants.{Failed};

    ghost from_gives = { λ failure made. made ≡ Failed failure };

    fn from(failure: Failure) -> WithinFailure {
        WithinFailure::Failed(failure)
    }
}

impl From<WithinError> for WithinFailure {
    ghost use Rattle.std.specs.Prelude.{◌≡◌};
    ghost use Rattle.md_abi.specs.WithinFailures.{within_failure_of};

    ghost from_gives = { λ error made. made ≡ within_failure_of error };

    fn from(error: WithinError) -> WithinFailure {
        match error {
            WithinError::TooLong => WithinFailure::TooLong,
            WithinError::TooMuch => WithinFailure::TooMuch,
            WithinError::TooDeep => WithinFailure::TooDeep,
            WithinError::Compile(cause) => WithinFailure::Failed(Failure::from(cause)),
        }
    }
}

/// Compiles C's input to HTML, if it is within limits.
///
/// # Errors
///
/// Reports what is invalid, that the events nest too deep, there is too much work or the text is
/// too long, the refusal of the compiler, or that memory ran out.
pub fn compile_given_within(
    alloc: Global,
    given: CDocument,
    limits: &CLimits,
) -> Result<String, WithinFailure>
    ensures ok { IfOk result (λ text. IsRenderedWithin given.entry.events.now given.entry.bytes.now
        given.entry.options.now given.entry.names.now limits.now (string_bytes text)) }
    ensures bounded { OnOk result (IsBounded given.entry.events.now limits.now) }
    ensures shallow { OnOk result (IsShallow given.entry.events.now limits.now) }
    ensures err { IfErr result (ExplainsWithin given.entry.events.now given.entry.bytes.now
        given.entry.options.now given.entry.names.now limits.now) }
{
    let events = read_c_events(alloc, given.events)?;
    let names = read_references(alloc, given.names)?;
    let options = read_options(alloc, given.options)?;
    let limits = Limits {
        text: limits.text,
        work: limits.work,
        depth: depth_limit(limits.depth),
    };
    let read = ReadDocument {
        events: events.as_slice(),
        bytes: given.bytes,
        names: names.as_slice(),
    };
    compile_read_within(alloc, read, &options, limits)
}

/// The maximum number of nodes that are open at once, where 0 is no limit.
fn depth_limit(limit: usize) -> usize
    ensures { result ≡ depth_limit limit }
{
    if limit == 0 { usize::MAX } else { limit }
}

/// A document converted from C's input.
#[derive(Clone, Copy)]
struct ReadDocument<'a> {
    events: &'a [Event],
    bytes: &'a [u8],
    names: &'a [(&'a str, &'a str)],
}

/// Compiles the converted input to HTML, if it is within limits.
fn compile_read_within(
    alloc: Global,
    read: ReadDocument,
    options: &CompileOptions,
    limits: Limits,
) -> Result<String, WithinFailure>
    ensures ok { IfOk result (λ text. WithinPromises options.now
        (handed read.entry.events.now read.entry.bytes.now read.entry.names.now)
        limits (string_bytes text)) }
    ensures err { IfErr result (IsFailureWithin
        (handed read.entry.events.now read.entry.bytes.now read.entry.names.now)
        options.now limits) }
{
    Ok(compile_within(alloc, read.events, read.bytes, options, read.names, limits)?)
}
