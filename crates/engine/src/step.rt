//! The steps of a play on a store, and their answers.
use keys::{Command, Reply};
use std::alloc::Global;

/// A step of a play.
#[derive(Clone, Copy)]
pub enum Step<'a> {
    /// Executes these commands as one batch.
    Batch(&'a [Command<Global>]),
    /// Flushes: writes what the log lacks.
    Flush,
    /// Cleans: frees the first segment of the log.
    Clean,
    /// Upgrades the log to version 2.
    Upgrade,
}

/// The answer of a step.
#[derive(Debug, Drop, PartialEq, Eq)]
pub enum Answer {
    /// The reply to each command of a batch, at its place.
    Replies(Vec<Reply<Global>>),
    /// The sequence number after a flush.
    Flushed(u64),
    /// The number of the segment with which the log begins after a clean.
    Cleaned(u64),
    /// The sequence number after an upgrade.
    Upgraded(u64),
}
