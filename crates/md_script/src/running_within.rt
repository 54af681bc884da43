//! Compiles scripts within limits.

ghost use Rattle.std.specs.Prelude.{string_bytes, IfOk, IfErr};
ghost use Rattle.md_script.specs.Within.{IsCompiledWithin, ExplainsEventsWithin};
ghost use Rattle.md_script.specs.Within.{IsTextWithin, ExplainsRunWithin};

use crate::error::RunError;
use crate::running::REFERENCE_NAMES;
use crate::script::{Script, read_script};
use md_html::{Limits, WithinError, compile_within};
use std::alloc::Global;
use std::fmt;
use thiserror::Error;

/// Why a script has no text within limits.
#[derive(Debug, PartialEq, Eq, Drop, Error)]
pub enum RunWithinError {
    /// The text exceeds its limit.
    TooLong,
    /// Reading, printing and reuse exceed the work limit.
    TooMuch,
    /// The events nest deeper than the limit allows.
    TooDeep,
    /// The script has no text.
    Run(RunError),
}

impl RunWithinError {
    ghost use Rattle.std.specs.Prelude.{◌≡◌};
    ghost use Rattle.md_script.specs.Within.{within_status};

    /// Returns the exit status of a program: that of the script's error, 5 for a text that is too
    /// long, 6 for too much work, 7 for events that nest too deep.
    /// [`ServeError`](crate::ServeError) has 4.
    ///
    /// # Examples
    ///
    /// ```
    /// assert_eq!(RunWithinError::Run(RunError::Line(1)).status(), 2);
    /// assert_eq!(RunWithinError::TooLong.status(), 5);
    /// assert_eq!(RunWithinError::TooMuch.status(), 6);
    /// assert_eq!(RunWithinError::TooDeep.status(), 7);
    /// ```
    pub fn status(&self) -> u8
        ensures { result ≡ within_status self.now }
    {
        match self {
            RunWithinError::TooLong => 5,
            RunWithinError::TooMuch => 6,
            RunWithinError::TooDeep => 7,
            RunWithinError::Run(error) => error.status(),
        }
    }
}

impl fmt::Display for RunWithinError {
    ghost use Rattle.std.specs.Prelude.{Some};
    ghost use Rattle.md_script.specs.Within.{within_message};

    ghost output = { λ error. Some (within_message error) };

    fn fmt<W: fmt::Write>(&self, f: &mut fmt::Formatter<W>) -> fmt::Result {
        match self {
            RunWithinError::TooLong => f.write_str("text too long"),
            RunWithinError::TooMuch => f.write_str("too much work"),
            RunWithinError::TooDeep => f.write_str("nested too deep"),
            RunWithinError::Run(error) => fmt::Display::fmt(error, f),
        }
    }
}

impl From<RunError> for RunWithinError {
    ghost use Rattle.std.specs.Prelude.{◌≡◌};
    ghost use Rattle.md_script.specs.declared.running_within.RunWithinError.TheVariants.{Run};

    ghost from_gives = { λ cause error. error ≡ Run cause };

    fn from(error: RunError) -> RunWithinError {
        RunWithinError::Run(error)
    }
}

impl From<WithinError> for RunWithinError {
    ghost use Rattle.std.specs.Prelude.{◌≡◌};
    ghost use Rattle.md_script.specs.Within.{run_within_error_of};

    ghost from_gives = { λ cause error. error ≡ run_within_error_of cause };

    fn from(error: WithinError) -> RunWithinError {
        match error {
            WithinError::TooLong => RunWithinError::TooLong,
            WithinError::TooMuch => RunWithinError::TooMuch,
            WithinError::TooDeep => RunWithinError::TooDeep,
            WithinError::Compile(cause) => RunWithinError::Run(RunError::from(cause)),
        }
    }
}

/// Reads a script and compiles its events, if its text, its work and its nesting are within limits.
///
/// # Errors
///
/// `RunWithinError::TooDeep` if the script is valid and its events nest deeper than `limits.depth`;
/// `RunWithinError::TooMuch` if otherwise its work exceeds `limits.work`, or its document's reuse
/// does; `RunWithinError::TooLong` only if its text has more bytes than `limits.text`; else as
/// [`run`](crate::run).
///
/// # Examples
///
/// ```
/// let script = b"+ThematicBreak 0\n-ThematicBreak 3\n--\n***\n";
/// let html = run_within(alloc, script, Limits { text: 6, work: 0, depth: 1 })?;
/// assert_eq!(html.as_str(), "<hr />");
///
/// // One byte less.
/// let refused = run_within(alloc, script, Limits { text: 5, work: 0, depth: 1 });
/// // Err(RunWithinError::TooLong)
/// ```
pub fn run_within(alloc: Global, input: &[u8], limits: Limits) -> Result<String, RunWithinError>
    ensures text { IfOk result (λ text. IsTextWithin input.now limits (string_bytes text)) }
    ensures err { IfErr result (λ error. ExplainsRunWithin input.now limits error) }
{
    let script = read_script(alloc, input)?;
    compile_script_within(alloc, &script, limits)
}

fn compile_script_within(
    alloc: Global,
    script: &Script,
    limits: Limits,
) -> Result<String, RunWithinError>
    ensures text { IfOk result (λ text. IsCompiledWithin script.now.events.items
        script.now.document.now script.now.options limits (string_bytes text)) }
    ensures err { IfErr result (λ error. ExplainsEventsWithin script.now.events.items
        script.now.document.now script.now.options limits error) }
{
    Ok(compile_within(
        alloc,
        script.events.as_slice(),
        script.document,
        &script.options,
        &REFERENCE_NAMES,
        limits,
    )?)
}
