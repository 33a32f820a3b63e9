//! A page's share of a batch during routing.
ghost use Rattle.std.specs.Prelude.{◌≡◌, IfOk};

use crate::sort::Keyed;
use keys::Pid;
use std::alloc::{AllocError, Global};
use std::marker::Model;

/// A page's share of a batch during routing: the commands that begin in the page, as a slice of the sorted places, and
/// the places of the scans and wipes that begin further left and reach the page, in key order. Contracts see it as a
/// `Lent`.
#[derive(Drop)]
pub(crate) struct Share<'a, 'k> {
    pid: Pid,
    keyed: &'a [Keyed<'k>],
    reaching: Vec<usize>,
}

impl<'a, 'k> Model for Share<'a, 'k> {
    ghost use Rattle.routing.specs.Shares.{Lent};

    ghost Value = { Lent };

    ghost view = { λ s. record { pid = s.pid; keyed = s.keyed.now; reaching = s.reaching.items } };
}

impl<'a, 'k> Share<'a, 'k> {
    pub(crate) fn new(pid: Pid, keyed: &'a [Keyed<'k>], reaching: Vec<usize>) -> Share<'a, 'k>
        ensures { result
            ≡ record { pid = pid; keyed = keyed.entry.now; reaching = reaching.items } }
    {
        Share {
            pid,
            keyed,
            reaching,
        }
    }

    pub(crate) fn pid(&self) -> Pid
        ensures { result ≡ self.now.pid }
    {
        self.pid
    }

    /// The commands that begin in the page.
    pub(crate) fn keyed(&self) -> &'a [Keyed<'k>]
        ensures { result.now ≡ self.now.keyed }
    {
        self.keyed
    }

    /// A copy of the places of the scans and wipes that reach the page from the left.
    pub(crate) fn copied_reaching(&self, alloc: Global) -> Result<Vec<usize>, AllocError>
        ensures { IfOk result (λ copy. copy.items ≡ self.now.reaching) }
    {
        self.reaching.iter().copied().collect(alloc)
    }

    /// The places of the scans and wipes that reach the page from the left.
    pub(crate) fn reaching(&self) -> &[usize]
        ensures { result.now ≡ self.now.reaching }
    {
        &self.reaching
    }
}
