//! The options of the command line.
ghost use Rattle.std.specs.Prelude.{◌≡◌};
ghost use Rattle.bwsh.specs.Options.{bounds_of};

use crate::order::Bounds;
use engine::Crew;
use keys::Settings;

/// The values of all options.
#[derive(Drop)]
pub struct Options {
    /// The settings of a new store or of the copy.
    pub settings: Settings,
    /// The number of pairs for which `settings` were chosen, or 0 if they were given.
    pub pairs: u32,
    /// Workers and grain, which do not affect the answers.
    pub crew: Crew,
    /// The file of the store, or `None` for a store in memory.
    pub disk: Option<String>,
    /// Whether a new store is created in the file, whose old contents are lost.
    pub create: bool,
    /// The file to which the store is copied after all lines of the input.
    pub copy_to: Option<String>,
    pub mode: Mode,
}

/// The options that change how a session runs.
#[derive(Clone, Copy, Debug, PartialEq, Eq)]
pub struct Mode {
    /// Print the version and do nothing else.
    pub version: bool,
    /// Explain errors, and options that have no effect, on standard error.
    pub explain: bool,
    /// Print the statistics of the store after all lines of the input.
    pub stat: bool,
    /// Before a flush, clean a log that is full or nearly full, and compact nearly empty pages.
    pub clean_when_full: bool,
    /// Read line by line, answer each batch before reading on, and go on after a refusal.
    pub stream: bool,
    /// Before each flush, merge up to this many leaves with fewer than `fan / 4` pairs into their
    /// neighbours.
    pub tidy: u32,
    /// For how many seconds to wait, at most, for the lock of a file.
    pub wait: u32,
    /// How many rows the scans of a batch of a stream may ask for together, or 0 for any number.
    pub max_rows: u32,
    /// Show progress on standard error.
    pub progress: bool,
}

impl Mode {
    /// Returns the bounds of the batches of a session.
    pub fn bounds(&self) -> Bounds
        ensures { result ≡ bounds_of self.now }
    {
        Bounds {
            is_stream: self.stream,
            max_rows: self.max_rows,
        }
    }
}
