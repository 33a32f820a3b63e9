//! The page ids that a walk has visited.
ghost use Rattle.std.specs.Prelude.{◌≡◌, ◌+◌, not, [], length, IfOk, OnOk, if◌then◌else◌};
ghost use Rattle.std.specs.Ordering.{nat_cmp};
ghost use Rattle.std.specs.BTreeSet.{insert_key};
ghost use Rattle.mapping.specs.FreshPids.{is_among};

use keys::Pid;
use std::alloc::{AllocError, Global};
use std::collections::BTreeSet;
use std::marker::Model;

/// A set of the page ids that a walk has visited. Contracts see it as a list.
#[derive(Drop)]
pub(crate) struct Met {
    pids: BTreeSet<u64>,
}

impl Model for Met {
    ghost use Rattle.std.specs.Prelude.{List, ℕ};

    ghost Value = { List ℕ };

    ghost view = { λ m. m.pids.keys };
}

impl Met {
    /// Returns the empty set. Does not allocate.
    pub(crate) fn none(alloc: Global) -> Met
        ensures { result ≡ [] }
    {
        Met {
            pids: BTreeSet::new(alloc),
        }
    }

    pub(crate) fn has(&self, pid: Pid) -> bool
        ensures { result ≡ is_among pid self.now }
    {
        self.pids.contains(&pid.0)
    }

    /// Adds `pid`, and returns whether it is new.
    pub(crate) fn meet(&mut self, pid: Pid) -> Result<bool, AllocError>
        ensures first { IfOk result (λ first. first ≡ not (is_among pid self.old)) }
        ensures met { OnOk result (self.new ≡ insert_key nat_cmp self.old pid) }
        ensures count { IfOk result
            (λ first. length self.new ≡ length self.old + (if first then 1 else 0)) }
    {
        let first = self.pids.insert(pid.0)?;
        Ok(first)
    }

    pub(crate) fn len(&self) -> usize
        ensures { result ≡ length self.now }
    {
        self.pids.len()
    }
}
