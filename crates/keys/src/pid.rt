//! Page ids.
use std::marker::Model;

/// A page id: pages refer to each other by it, and the mapping table finds a page's current state by it. Contracts see
/// it as a number.
#[derive(Clone, Copy, Debug, PartialEq, Eq, PartialOrd, Ord)]
pub struct Pid(pub u64);

impl Model for Pid {
    ghost use Rattle.std.specs.Prelude.{ℕ};

    ghost Value = { ℕ };

    ghost view = { λ p. p.0 };

    ghost inverse = { λ n. record { 0 = n } };
}
