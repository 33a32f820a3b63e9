//! The gate of a round, which is called for each piece before its jobs are done.

/// A hook that is called with the number of each piece of a round, in the worker's thread, before the piece's jobs are
/// done. It may observe the round or block its thread; the result of the round does not depend on it.
pub trait Gate: Sync {
    fn enter(&self, piece: u64);
}

/// A gate that does nothing.
#[derive(Drop)]
pub struct NoGate;

impl Gate for NoGate {
    fn enter(&self, _piece: u64) {}
}
