//! The entry of a child in its parent.
use keys::{Key, Pid};
use std::alloc::Global;
use std::marker::Model;

/// The entry of a child in its parent: its low key and its page id. Contracts see it as this pair.
#[derive(Drop)]
pub struct Separator {
    pub low: Key<Global>,
    pub pid: Pid,
}

impl Model for Separator {
    ghost use Rattle.std.specs.Prelude.{ℕ};
    ghost use Rattle.keys.specs.Bytes.{Bytes};

    ghost Value = { Bytes × ℕ };

    ghost view = { λ n. (n.low, n.pid) };
}
