//! Texts within limits: on their length, on their work, and on how deep their events nest.

ghost use Rattle.std.specs.Prelude.{◌≡◌, ◌+◌, ◌*◌, IfOk, IfErr, string_bytes};
ghost use Rattle.md_tree.specs.Grammar.{handed};
ghost use Rattle.md_safe.specs.Options.{KeepsImages};
ghost use Rattle.md_depth.specs.Levels.{NestsWithin};
ghost use Rattle.md_html.specs.Promises.{SafePromises};
ghost use Rattle.md_html.specs.Within.{WithinPromises, WithinRefusal};
ghost use Rattle.md_html.specs.MeasuredEvents.{handed_by};
ghost use Rattle.md_html.specs.SafeWithin.{IsUnsafeFor, OfLimits};

use crate::rendering_within::render_within;
use crate::reuse::is_reuse_over;
use crate::safe_html::{SafeHtml, are_safe};
use crate::work::{MeasuredEvents, exceeds};
use md_base::Event;
use md_text::CompileOptions;
use md_tree::{CompileError, check};
use std::alloc::{AllocError, Global};
use std::fmt;
use thiserror::Error;

/// Limits on the length of a text, on its work, and on how deep its events nest.
#[derive(Clone, Copy, Debug, PartialEq, Eq)]
pub struct Limits {
    /// The maximum length of the text in bytes.
    pub text: usize,
    /// The maximum of what is read and printed, as [`work_of`](crate::work_of) counts it (the
    /// lengths of texts and of labels, which for a parser's events are the document's length and
    /// that of labels again, and for each row of a table's body five for each of its columns); and
    /// of what is used again, as [`reuse_of`](crate::reuse_of) counts it (for each link or image
    /// that refers to a definition the length of that definition, and what footnote calls print).
    /// The limit applies to each of the two separately.
    pub work: usize,
    /// The maximum number of nodes that are open at once, as [`depth_of`](crate::depth_of) counts
    /// them.
    pub depth: usize,
}

/// Why there is no text within limits.
#[derive(Debug, PartialEq, Eq, Drop, Error)]
pub enum WithinError {
    /// The text exceeds its limit.
    TooLong,
    /// Reading, printing and reuse exceed the work limit.
    TooMuch,
    /// The events nest deeper than the limit allows.
    TooDeep,
    /// The compiler refuses the events, or memory ran out.
    Compile(CompileError),
}

impl fmt::Display for WithinError {
    ghost use Rattle.std.specs.Prelude.{Some};
    ghost use Rattle.md_html.specs.Within.{within_line};

    ghost output = { λ error. Some (within_line error) };

    fn fmt<W: fmt::Write>(&self, f: &mut fmt::Formatter<W>) -> fmt::Result {
        match self {
            WithinError::TooLong => write!(f, "text too long"),
            WithinError::TooMuch => write!(f, "too much work"),
            WithinError::TooDeep => write!(f, "nested too deep"),
            WithinError::Compile(error) => write!(f, "{error}"),
        }
    }
}

impl From<CompileError> for WithinError {
    ghost use Rattle.std.specs.Prelude.{◌≡◌};
    ghost use Rattle.md_html.specs.declared.within.WithinError.TheVariants.{Compile};

    ghost from_gives = { λ cause error. error ≡ Compile cause };

    fn from(error: CompileError) -> WithinError {
        WithinError::Compile(error)
    }
}

impl From<AllocError> for WithinError {
    ghost use Rattle.std.specs.Prelude.{◌≡◌};
    ghost use Rattle.md_tree.specs.declared.rule.CompileError.TheVariants.{Memory};
    ghost use Rattle.md_html.specs.declared.within.WithinError.TheVariants.{Compile};

    ghost from_gives = { λ _ error. error ≡ Compile Memory };

    fn from(_error: AllocError) -> WithinError {
        WithinError::Compile(CompileError::Memory)
    }
}

/// Compiles a list of Markdown events to HTML, as [`compile`](crate::compile) does, if it is within
/// limits.
///
/// The cost depends on these limits, though no clause can say so: time and memory grow with the
/// number of events, the document's length and `limits.work`, and printing stops soon after the
/// text is too long.
///
/// # Errors
///
/// [`WithinError::TooDeep`] exactly if the events nest deeper than `limits.depth`, before anything
/// else is checked; [`WithinError::TooMuch`] if otherwise the work exceeds `limits.work`, or the
/// events are a document's whose reuse exceeds it; [`WithinError::TooLong`] only if they are a
/// document's whose text has more than `limits.text` bytes; else the refusal of
/// [`compile`](crate::compile).
///
/// # Examples
///
/// ```
/// let limits = Limits { text: 1 << 20, work: 1 << 23, depth: 256 };
/// let html = compile_within(alloc, &events, bytes, &CompileOptions::gfm(), names, limits)?;
/// ```
pub fn compile_within(
    alloc: Global,
    events: &[Event],
    bytes: &[u8],
    options: &CompileOptions,
    names: &[(&str, &str)],
    limits: Limits,
) -> Result<String, WithinError>
    ensures within { IfOk result (λ text. WithinPromises options.now
        (handed events.now bytes.now names.now) limits (string_bytes text)) }
    ensures refused { IfErr result
        (WithinRefusal options.now (handed events.now bytes.now names.now) limits) }
{
    let measured = MeasuredEvents::new(events, bytes, names);
    compile_measured(alloc, &measured, options, limits)
}

/// Compiles measured events to HTML, if they are within limits, as [`compile_within`] does.
fn compile_measured(
    alloc: Global,
    given: &MeasuredEvents,
    options: &CompileOptions,
    limits: Limits,
) -> Result<String, WithinError>
    ensures text { IfOk result (λ text.
        WithinPromises options.now (handed_by given.now) limits (string_bytes text)) }
    ensures refused { IfErr result (WithinRefusal options.now (handed_by given.now) limits) }
{
    if given.measure.depth() > limits.depth {
        return Err(WithinError::TooDeep);
    }
    if exceeds(given.measure.work(), limits.work) {
        return Err(WithinError::TooMuch);
    }
    let checked = check(alloc, given.events, given.bytes, given.names)?;
    if is_reuse_over(alloc, &checked, options, limits.work, given.measure.calls())? {
        return Err(WithinError::TooMuch);
    }
    match render_within(alloc, &checked, options, limits.text)? {
        Some(text) => Ok(text),
        None => Err(WithinError::TooLong),
    }
}

/// Compiles measured events to HTML under safe options, if they are within limits, as
/// [`compile_safe_within`] does.
///
/// # Errors
///
/// The errors of [`compile_within`].
///
/// # Examples
///
/// ```
/// let measured = MeasuredEvents::new(&events, bytes, names);
/// let html = compile_safe_measured(alloc, &measured, &CompileOptions::gfm(), limits)?;
/// ```
pub fn compile_safe_measured(
    alloc: Global,
    given: &MeasuredEvents,
    options: &CompileOptions,
    limits: Limits,
) -> Result<SafeHtml, WithinError>
    requires { KeepsImages options.now }
    ensures within { IfOk result (WithinPromises options.now (handed_by given.now) limits) }
    ensures promises { IfOk result (SafePromises options.now (handed_by given.now)) }
    ensures refused { IfErr result (WithinRefusal options.now (handed_by given.now) limits) }
{
    let text = compile_measured(alloc, given, options, limits)?;
    Ok(SafeHtml::new(text))
}

/// Why there is no safe text within limits.
#[derive(Debug, PartialEq, Eq, Drop, Error)]
pub enum SafeWithinError {
    /// The options aren't safe.
    Options,
    /// There is no text within limits.
    Within(WithinError),
}

impl fmt::Display for SafeWithinError {
    ghost use Rattle.std.specs.Prelude.{Some};
    ghost use Rattle.md_html.specs.SafeWithin.{safe_within_line};

    ghost output = { λ error. Some (safe_within_line error) };

    fn fmt<W: fmt::Write>(&self, f: &mut fmt::Formatter<W>) -> fmt::Result {
        match self {
            SafeWithinError::Options => write!(f, "unsafe options"),
            SafeWithinError::Within(error) => write!(f, "{error}"),
        }
    }
}

impl From<WithinError> for SafeWithinError {
    ghost use Rattle.std.specs.Prelude.{◌≡◌};
    ghost use Rattle.md_html.specs.declared.within.SafeWithinError.TheVariants.{Within};

    ghost from_gives = { λ cause error. error ≡ Within cause };

    fn from(error: WithinError) -> SafeWithinError {
        SafeWithinError::Within(error)
    }
}

/// Compiles a list of Markdown events to HTML, as [`compile_safe`](crate::compile_safe) does, if it
/// is within limits: the call for a server that accepts text from strangers.
///
/// # Errors
///
/// [`SafeWithinError::Options`] exactly if the options aren't safe, whatever the other arguments
/// are; else the refusal of [`compile_within`].
///
/// # Examples
///
/// ```
/// let limits = Limits { text: 1 << 20, work: 1 << 23, depth: 256 };
/// let html = compile_safe_within(alloc, &events, bytes, &CompileOptions::gfm(), names, limits)?;
/// ```
pub fn compile_safe_within(
    alloc: Global,
    events: &[Event],
    bytes: &[u8],
    options: &CompileOptions,
    names: &[(&str, &str)],
    limits: Limits,
) -> Result<SafeHtml, SafeWithinError>
    ensures within { IfOk result
        (WithinPromises options.now (handed events.now bytes.now names.now) limits) }
    ensures nesting { IfOk result (λ html. NestsWithin (2 * limits.depth + 5) html) }
    ensures promises { IfOk result
        (SafePromises options.now (handed events.now bytes.now names.now)) }

    ensures options { IfErr result (IsUnsafeFor options.now) }
    ensures refused { IfErr result (OfLimits
        (WithinRefusal options.now (handed events.now bytes.now names.now) limits)) }
{
    if !are_safe(options) {
        return Err(SafeWithinError::Options);
    }
    let text = compile_within(alloc, events, bytes, options, names, limits)?;
    Ok(SafeHtml::new(text))
}
