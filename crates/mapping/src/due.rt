//! The pids that a flush may have to write.
ghost use Rattle.std.specs.Prelude.{◌≡◌, ℕ, true, false, [], IfSome};
ghost use Rattle.mapping.specs.Due.{may_be_due};
ghost use Rattle.mapping.specs.FreshPids.{is_among};

use std::alloc::{AllocError, Allocator};
use std::marker::Model;

/// The pids that a flush may have to write, in the order in which they were recorded; a pid may occur more than once.
/// If there was no room to record a pid, `are_all` is set, and a flush examines all pids.
#[derive(Drop)]
pub(crate) struct Due<A: Allocator> {
    pids: Vec<u64, A>,
    are_all: bool,
}

impl<A: Allocator> Model for Due<A> {
    ghost use Rattle.mapping.specs.Due.{DuePids};

    ghost Value = { DuePids };

    ghost view = { λ d. record { pids = d.pids.items; are_all = d.are_all } };
}

impl<A: Allocator + Copy> Due<A> {
    /// Marks all pids as due. Does not allocate.
    pub(crate) fn all(alloc: A) -> Self
        ensures { result ≡ record { pids = []; are_all = true } }
    {
        Due {
            pids: Vec::new(alloc),
            are_all: true,
        }
    }

    /// The recorded pids, or `None` if any pid may be due.
    pub(crate) fn listed(&self) -> Option<&[u64]>
        ensures { IfSome result (λ pids. (q : ℕ) → may_be_due self.now q ≡ is_among q pids.now) }
    {
        if self.are_all {
            return None;
        }
        Some(&self.pids)
    }

    /// Records `pid`, or marks all pids as due if there is no room. Does not allocate.
    pub(crate) fn note(&mut self, pid: u64)
        ensures noted { may_be_due self.new pid ≡ true }
        ensures kept { (q : ℕ) → may_be_due self.old q ≡ true → may_be_due self.new q ≡ true }
    {
        if self.pids.len() < self.pids.capacity() {
            self.pids.push_reserved(pid);
        } else {
            self.are_all = true;
        }
    }

    /// Makes room for `count` pids in total. If allocation fails, nothing changes.
    pub(crate) fn reserve(&mut self, count: usize) -> Result<(), AllocError>
        ensures { self.new ≡ self.old }
    {
        self.pids.reserve(count.saturating_sub(self.pids.len()))
    }

    /// Removes all pids and keeps the room.
    pub(crate) fn clear(&mut self)
        ensures { self.new ≡ record { pids = []; are_all = false } }
    {
        self.pids.clear();
        self.are_all = false;
    }
}
