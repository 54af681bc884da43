//! Why a script has no text, or no safe one.

use md_html::SafeError;
use md_tree::{CompileError, Rule};
use std::alloc::AllocError;
use std::fmt;
use thiserror::Error;

/// Why a script has no text.
#[derive(Debug, PartialEq, Eq, Drop, Error)]
pub enum RunError {
    /// Memory ran out.
    Memory,
    /// The line with this number, from 1, is invalid.
    Line(usize),
    /// An event breaks a rule. The index is the number of events if something is open at the end.
    Event { index: usize, rule: Rule },
}

impl RunError {
    ghost use Rattle.std.specs.Prelude.{◌≡◌};
    ghost use Rattle.md_script.specs.Error.{status_of};

    /// Returns the exit status of a program: 1 for an event, 2 for a line, 3 for memory.
    ///
    /// # Examples
    ///
    /// ```
    /// assert_eq!(RunError::Event { index: 0, rule: Rule::Order }.status(), 1);
    /// assert_eq!(RunError::Line(1).status(), 2);
    /// assert_eq!(RunError::Memory.status(), 3);
    /// ```
    pub fn status(&self) -> u8
        ensures { result ≡ status_of self.now }
    {
        match self {
            RunError::Memory => 3,
            RunError::Line(_) => 2,
            RunError::Event { .. } => 1,
        }
    }
}

impl fmt::Display for RunError {
    ghost use Rattle.std.specs.Prelude.{Some};
    ghost use Rattle.md_script.specs.Error.{message_of};

    ghost output = { λ error. Some (message_of error) };

    fn fmt<W: fmt::Write>(&self, f: &mut fmt::Formatter<W>) -> fmt::Result {
        match self {
            RunError::Memory => f.write_str("out of memory"),
            RunError::Line(number) => write!(f, "line {number}: unreadable"),
            RunError::Event { index, rule } => write!(f, "event {index}: {rule}"),
        }
    }
}

impl From<AllocError> for RunError {
    ghost use Rattle.std.specs.Prelude.{◌≡◌};
    ghost use Rattle.md_script.specs.declared.error.RunError.TheVariants.{Memory};

    ghost from_gives = { λ _ error. error ≡ Memory };

    fn from(_error: AllocError) -> RunError {
        RunError::Memory
    }
}

impl From<CompileError> for RunError {
    ghost use Rattle.std.specs.Prelude.{◌≡◌};
    ghost use Rattle.md_script.specs.Error.{run_error_of};

    ghost from_gives = { λ error made. made ≡ run_error_of error };

    fn from(error: CompileError) -> RunError {
        match error {
            CompileError::Memory => RunError::Memory,
            CompileError::Event { index, rule } => RunError::Event { index, rule },
        }
    }
}

/// Why a script has no safe text.
#[derive(Debug, PartialEq, Eq, Drop, Error)]
pub enum SafeRunError {
    /// Its options aren't safe.
    Options,
    /// It has no text.
    Run(RunError),
}

impl fmt::Display for SafeRunError {
    ghost use Rattle.std.specs.Prelude.{Some};
    ghost use Rattle.md_script.specs.SafeRun.{safe_message_of};

    ghost output = { λ error. Some (safe_message_of error) };

    fn fmt<W: fmt::Write>(&self, f: &mut fmt::Formatter<W>) -> fmt::Result {
        match self {
            SafeRunError::Options => f.write_str("unsafe options"),
            SafeRunError::Run(error) => fmt::Display::fmt(error, f),
        }
    }
}

impl From<RunError> for SafeRunError {
    ghost use Rattle.std.specs.Prelude.{◌≡◌};
    ghost use Rattle.md_script.specs.declared.error.SafeRunError.TheVariants.{Run};

    ghost from_gives = { λ cause error. error ≡ Run cause };

    fn from(error: RunError) -> SafeRunError {
        SafeRunError::Run(error)
    }
}

impl From<SafeError> for SafeRunError {
    ghost use Rattle.std.specs.Prelude.{◌≡◌};
    ghost use Rattle.md_script.specs.SafeRun.{safe_run_error_of};

    ghost from_gives = { λ cause error. error ≡ safe_run_error_of cause };

    fn from(error: SafeError) -> SafeRunError {
        match error {
            SafeError::Options => SafeRunError::Options,
            SafeError::Compile(cause) => SafeRunError::Run(RunError::from(cause)),
        }
    }
}
