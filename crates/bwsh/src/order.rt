//! Orders: what a session does, one after the other.
ghost use Rattle.std.specs.Prelude.{◌≡◌};
ghost use Rattle.bwsh.specs.BatchFile.{writes};

use crate::line::Why;
use engine::Batch;
use keys::Key;
use std::alloc::Global;

/// What bounds the batches of a session.
#[derive(Clone, Copy, Debug, PartialEq, Eq)]
pub struct Bounds {
    /// Whether the session is a stream. Only a stream bounds its batches.
    pub is_stream: bool,
    /// How many rows the scans of a batch may ask for together, or 0 for any number.
    pub max_rows: u32,
}

/// One step of a session, which is answered before the next one begins.
#[derive(Drop)]
pub enum Order {
    /// Run this batch, which may be empty.
    Batch(Batch),
    /// Report that this line is bad, and that its batch is discarded.
    BadLine {
        line: u64,
        why: Why,
    },
    /// Refuse a batch, because an allocation for one of its lines failed.
    Lost,
    /// Write the changes to the log, and print the sequence number.
    Flush,
    /// Free the first segment of the log, and print the number of the new first segment.
    Clean,
    /// Upgrade the log to version 2, and print the sequence number.
    Upgrade,
    /// Check the tree, and print its page count, its height and its pair count.
    Verify,
    /// Print the statistics of the store. `--stat` gives this order; no line does.
    Numbers,
    /// Print the statistics of the store, and its settings.
    Stat,
    /// Copy the store, as it is now, to a new file, and print the pair count. The copy has the
    /// settings of the store, or this number of segments in place of the store's.
    Copy {
        path: Key<Global>,
        segments: Option<u32>,
    },
    /// Merge at most this many leaves, and print how many pages were freed.
    Tidy(u32),
    /// Print at most so many of the last pairs from a key up to, but not including, another one.
    Back(Key<Global>, Option<Key<Global>>, u32),
    /// Print at most so many of the first pairs whose keys begin with these bytes.
    Prefix(Key<Global>, u32),
    /// Print the lines that a stream understands.
    Help,
}

impl Order {
    /// Returns whether the order writes to the store's disk.
    pub fn writes(&self) -> bool
        ensures { result ≡ writes self.now }
    {
        matches!(self, Order::Flush | Order::Clean | Order::Upgrade)
    }
}
