//! Iterates over the pairs of one leaf in either direction.
ghost use Rattle.std.specs.Prelude.{◌≡◌, [], MatchOption};
ghost use Rattle.delta_chain.specs.Layers.{entries_of};
ghost use Rattle.scan.specs.Direction.{IsNext};
ghost use Rattle.scan.specs.Edge.{beyond, IsOutermost, is_under};
ghost use Rattle.scan.specs.Ways.{pairs_of_way};

use crate::direction::{Direction, Towards};
use crate::edge::Edge;
use crate::merge::{Merge, next_pair};
use crate::search::Search;
use delta_chain::Chain;
use keys::Value;
use std::alloc::Global;
use std::marker::Model;

/// An iteration over the pairs of one leaf beyond an edge, borrowed from the leaf. Does not allocate. Contracts see it as
/// the list of the remaining pairs, in key order.
#[derive(Drop)]
pub(crate) struct LeafWalk<'a, W: Towards> {
    way: Way<'a, W>,
}

// The base is merged with the list of the newest changes. In a leaf without such a list, which only a forged disk has,
// each next key is searched for.
#[derive(Drop)]
enum Way<'a, W: Towards> {
    Merging(Merge<'a, W>),
    Searching(Search<'a, W>),
}

impl<'a, W: Towards> Model for LeafWalk<'a, W> {
    ghost use Rattle.keys.specs.Bytes.{Bytes, Pairs};
    ghost use Rattle.scan.specs.Ways.{pairs_of_way};

    ghost Value = { Pairs Bytes };

    ghost view = { λ l. pairs_of_way l.way };
}

// The edge from which an iteration goes over all keys.
#[inline]
pub(crate) fn outermost(direction: Direction) -> Edge<'static>
    ensures { IsOutermost direction (is_under result) }
{
    match direction {
        Direction::Up => Edge::Low,
        Direction::Down => Edge::High,
    }
}

impl<'a, W: Towards> LeafWalk<'a, W> {
    pub(crate) fn new(chain: &'a Chain<Value<Global>, Global>, edge: &Edge<'_>) -> Self
        ensures { result ≡ beyond W.direction (is_under edge.now) (entries_of chain.now) }
    {
        let _in_order = chain.depth();
        match chain.newest_changes() {
            Some(changes) => LeafWalk {
                way: Way::Merging(Merge::new(chain.base(), changes, edge)),
            },
            None => LeafWalk {
                way: Way::Searching(Search::new(chain, edge)),
            },
        }
    }

    // Starts again at the first or last pair of another leaf, after the previous leaf is exhausted. Skips a leaf that
    // its bounds show to be empty.
    pub(crate) fn restart(&mut self, chain: &'a Chain<Value<Global>, Global>)
        requires { self.old ≡ [] }
        ensures { self.new ≡ entries_of chain.now }
    {
        if chain.bounds().most > 0 {
            *self = LeafWalk::new(chain, &outermost(W::direction()));
        }
    }

    pub(crate) fn next(&mut self) -> Option<(&'a [u8], &'a Value<Global>)>
        ensures { MatchOption result ((self.old ≡ []) × (self.new ≡ []))
            (λ p. IsNext W.direction self.old (p.0.now, p.1.now) self.new) }
    {
        match &mut self.way {
            Way::Merging(merge) => next_pair(merge),
            Way::Searching(search) => search.next(),
        }
    }
}
