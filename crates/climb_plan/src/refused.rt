//! The errors of a climb.
ghost use Rattle.std.specs.Prelude.{◌≡◌};
ghost use Rattle.climb_plan.specs.declared.refused.Refused.TheVariants.{NoMemory};

use std::alloc::AllocError;

/// Why a climb failed. The tree is unchanged.
#[derive(Clone, Copy, Debug, PartialEq, Eq)]
pub enum Refused {
    /// An allocation failed.
    NoMemory,
    /// The tree would have more than 64 levels.
    TooHigh,
}

impl From<AllocError> for Refused {
    ghost from_gives = { λ _ refused. refused ≡ NoMemory };

    fn from(_refused: AllocError) -> Refused {
        Refused::NoMemory
    }
}
