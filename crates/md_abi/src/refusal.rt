//! Why there is no text with attributes.

use crate::failure::Failure;
use md_html::SafeError;
use std::alloc::AllocError;

/// Why a call has no text with attributes.
#[derive(Drop)]
pub enum Refusal {
    /// The options aren't safe.
    Unsafe,
    /// The attribute with this number is invalid.
    Attribute(usize),
    /// There is no text at all.
    Failed(Failure),
}

impl From<Failure> for Refusal {
    ghost use Rattle.std.specs.Prelude.{◌≡◌};
    ghost use Rattle.md_abi.specs.declared.refusal.Refusal.TheVariants.{Failed};

    ghost from_gives = { λ failure made. made ≡ Failed failure };

    fn from(failure: Failure) -> Refusal {
        Refusal::Failed(failure)
    }
}

impl From<AllocError> for Refusal {
    ghost use Rattle.std.specs.Prelude.{◌≡◌};
    ghost use Rattle.md_abi.specs.declared.failure.Failure.TheVariants.{Memory};
    ghost use Rattle.md_abi.specs.declared.refusal.Refusal.TheVariants.{Failed};

    ghost from_gives = { λ _ made. made ≡ Failed Memory };

    fn from(_error: AllocError) -> Refusal {
        Refusal::Failed(Failure::Memory)
    }
}

impl From<SafeError> for Refusal {
    ghost use Rattle.std.specs.Prelude.{◌≡◌};
    ghost use Rattle.md_abi.specs.Refusals.{refusal_of};

    ghost from_gives = { λ error made. made ≡ refusal_of error };

    fn from(error: SafeError) -> Refusal {
        match error {
            SafeError::Options => Refusal::Unsafe,
            SafeError::Compile(cause) => Refusal::Failed(Failure::from(cause)),
        }
    }
}
