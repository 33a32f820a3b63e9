//! Iterates over the pairs of one leaf in key order, for the crates above.
ghost use Rattle.std.specs.Prelude.{◌≡◌};
ghost use Rattle.std.specs.Iterator.{YieldsFirstBy, item_count};
ghost use Rattle.delta_chain.specs.Layers.{entries_of};
ghost use Rattle.scan.specs.Leaf.{from};

use crate::direction::Upward;
use crate::edge::Edge;
use crate::leaf::LeafWalk;
use delta_chain::Chain;
use keys::Value;
use std::alloc::Global;
use std::marker::Model;

/// An iterator over the pairs of one leaf in key order, from a key on, as keys and values borrowed from the leaf. Does
/// not allocate. Contracts see it as the list of the remaining pairs.
#[derive(Drop)]
pub struct LeafPairs<'a> {
    walk: LeafWalk<'a, Upward>,
}

impl<'a> Model for LeafPairs<'a> {
    ghost use Rattle.keys.specs.Bytes.{Bytes, Pairs};

    ghost Value = { Pairs Bytes };

    ghost view = { λ l. l.walk };
}

impl<'a> LeafPairs<'a> {
    /// Returns the leaf's pairs at or above `key`.
    pub fn new(chain: &'a Chain<Value<Global>, Global>, key: &[u8]) -> Self
        ensures { result ≡ from key.now (entries_of chain.now) }
    {
        LeafPairs {
            walk: LeafWalk::new(chain, &Edge::Before(key)),
        }
    }
}

impl<'a> Iterator for LeafPairs<'a> {
    type Item = (&'a [u8], &'a Value<Global>);

    ghost next_gives = { YieldsFirstBy (λ item. (item.0.now, item.1.now)) (λ left. left) };

    ghost remaining = { item_count (λ left. left) };

    fn next(&mut self) -> Option<(&'a [u8], &'a Value<Global>)> {
        self.walk.next()
    }
}
