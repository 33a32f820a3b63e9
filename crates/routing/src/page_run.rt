//! The commands of a batch for one page.
ghost use Rattle.std.specs.Prelude.{◌≡◌, ◌∷◌, [], nat_eq};
ghost use Rattle.std.specs.List.{IsDistinct};
ghost use Rattle.std.specs.List.Sorted.{IsPermutation, IsStrictlyIncreasing};
ghost use Rattle.routing.specs.Rising.{rising};

use keys::Pid;
use smallvec::SmallVec;
use std::alloc::Global;
use std::marker::Model;

/// The commands of a batch that must be applied to one page: the page id, and the commands' places in the batch,
/// counted from 0, in any order. Contracts see it as a `Route`, whose places rise. Up to four places need no allocation,
/// because in a batch of scattered keys most pages have few commands.
#[derive(Drop)]
pub struct PageRun {
    pid: Pid,
    places: SmallVec<usize, 4>,
}

impl Model for PageRun {
    ghost use Rattle.routing.specs.Routes.{Route};

    ghost Value = { Route };

    ghost use Rattle.std.specs.Prelude.{nat_eq};
    ghost use Rattle.std.specs.List.{IsDistinct};
    ghost use Rattle.routing.specs.Rising.{rising};

    ghost view = { λ r. record { pid = r.pid; places = rising r.places.items } };

    ghost invariant = { λ r. IsDistinct nat_eq r.places.items };
}

impl PageRun {
    /// Makes the run of the page with this id and these places, of which no two may be equal.
    pub fn new(pid: Pid, places: SmallVec<usize, 4>) -> PageRun
        requires { IsDistinct nat_eq places.items }
        ensures { result ≡ record { pid = pid; places = rising places.items } }
    {
        PageRun { pid, places }
    }

    /// Makes the run of the page with this id and this single place. Does not allocate.
    pub fn of_one(alloc: Global, pid: Pid, place: usize) -> PageRun
        ensures { result ≡ record { pid = pid; places = place ∷ [] } }
    {
        let mut places = SmallVec::new(alloc);
        places.push_reserved(place);
        PageRun { pid, places }
    }

    /// Returns the page id.
    pub fn pid(&self) -> Pid
        ensures { result ≡ self.now.pid }
    {
        self.pid
    }

    /// Returns the places, in the order in which they were given.
    pub fn places(&self) -> &[usize]
        ensures same { IsPermutation self.now.places result.now }
        ensures rising { IsStrictlyIncreasing self.now.places }
    {
        self.places.as_slice()
    }
}
