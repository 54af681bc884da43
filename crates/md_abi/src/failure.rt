//! Why there is no text.

use md_script::RunError;
use md_tree::{CompileError, Rule};
use std::alloc::{AllocError, AllocFailed};

/// Why a call has no text.
#[derive(Drop)]
pub enum Failure {
    /// Memory ran out.
    Memory,
    /// The event at this index is invalid.
    Event(usize),
    /// The named character reference at this index is invalid.
    Name(usize),
    /// The option with this number is invalid.
    Option(usize),
    /// The line with this number, from 1, is invalid.
    Line(usize),
    /// An event breaks a rule. The index is the number of events if something is open at the end.
    Refused { index: usize, rule: Rule },
}

impl From<AllocError> for Failure {
    ghost use Rattle.std.specs.Prelude.{◌≡◌};
    ghost use Rattle.md_abi.specs.declared.failure.Failure.TheVariants.{Memory};

    ghost from_gives = { λ _ made. made ≡ Memory };

    fn from(_error: AllocError) -> Failure {
        Failure::Memory
    }
}

impl<T: Drop> From<AllocFailed<T>> for Failure {
    ghost use Rattle.std.specs.Prelude.{◌≡◌};
    ghost use Rattle.md_abi.specs.declared.failure.Failure.TheVariants.{Memory};

    ghost from_gives = { λ _ made. made ≡ Memory };

    fn from(_error: AllocFailed<T>) -> Failure {
        Failure::Memory
    }
}

impl From<CompileError> for Failure {
    ghost use Rattle.std.specs.Prelude.{◌≡◌};
    ghost use Rattle.md_abi.specs.Failures.{failure_of};

    ghost from_gives = { λ error made. made ≡ failure_of error };

    fn from(error: CompileError) -> Failure {
        match error {
            CompileError::Memory => Failure::Memory,
            CompileError::Event { index, rule } => Failure::Refused { index, rule },
        }
    }
}

impl From<RunError> for Failure {
    ghost use Rattle.std.specs.Prelude.{◌≡◌};
    ghost use Rattle.md_abi.specs.Failures.{failure_of_run};

    ghost from_gives = { λ error made. made ≡ failure_of_run error };

    fn from(error: RunError) -> Failure {
        match error {
            RunError::Memory => Failure::Memory,
            RunError::Line(number) => Failure::Line(number),
            RunError::Event { index, rule } => Failure::Refused { index, rule },
        }
    }
}
