//! The events of a round, as a state machine.

/// An event of a round, with the number of its worker.
#[derive(Clone, Copy, Debug, PartialEq, Eq)]
pub enum Event {
    /// The worker claims the next piece, if it has no job left to do.
    Draw(usize),
    /// The worker does its next job.
    Work(usize),
    /// The worker's next job is returned unchanged, because an allocation failed.
    Back(usize),
    /// The worker's results are collected, if it has no job left and the board is empty.
    Home(usize),
}

/// The collected result of a job, without its contents.
#[derive(Clone, Copy, Debug, PartialEq, Eq)]
pub enum Mark {
    /// An output.
    Made,
    /// The unchanged job, because an allocation failed.
    Back,
}
