//! The number of workers of a round, and how many jobs they take at a time.
ghost use Rattle.std.specs.Prelude.{IsOk, IsErr};
ghost use Rattle.std.specs.Bool.{MatchBool};
ghost use Rattle.crew.specs.Crew.{is_crew};

use std::error::Error;
use std::fmt;

/// The workers of a call's rounds. The result of a round is the same for every crew.
#[derive(Clone, Copy, Debug, PartialEq, Eq)]
pub struct Crew {
    /// The number of threads, including the caller's: 1 to 64.
    pub workers: u32,
    /// The number of jobs that a worker claims at a time: 1 to 65,535.
    pub grain: u32,
}

impl Default for Crew {
    ghost use Rattle.std.specs.Prelude.{◌≡◌};

    ghost is_default = { λ crew. crew ≡ record { workers = 1; grain = 64 } };

    /// Returns the program's default: only the caller's thread.
    fn default() -> Crew {
        Crew {
            workers: 1,
            grain: 64,
        }
    }
}

/// The error of `Crew::check`: a number of the crew is out of range.
#[derive(Debug, Drop, PartialEq, Eq)]
pub struct BadCrew;

impl fmt::Display for BadCrew {
    fn fmt<W: fmt::Write>(&self, f: &mut fmt::Formatter<W>) -> fmt::Result {
        f.write_str(
            "the crew has no workers or more than 64, or its pieces no jobs or more than 65,535",
        )
    }
}

impl Error for BadCrew {}

const MOST_WORKERS: u32 = 64;

const MOST_GRAIN: u32 = 65_535;

impl Crew {
    /// Checks that both numbers are in range.
    pub fn check(&self) -> Result<(), BadCrew>
        ensures { MatchBool (is_crew self.now) (IsOk result) (IsErr result) }
    {
        let has_workers = 1 <= self.workers && self.workers <= MOST_WORKERS;
        let has_grain = 1 <= self.grain && self.grain <= MOST_GRAIN;
        if has_workers && has_grain {
            Ok(())
        } else {
            Err(BadCrew)
        }
    }
}
