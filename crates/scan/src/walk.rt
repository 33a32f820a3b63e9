//! Iterates over the pairs of a tree in either direction.
ghost use Rattle.std.specs.Prelude.{◌≡◌, ◌≤◌, [], MatchOption};
ghost use Rattle.std.specs.Option.{option_copied};
ghost use Rattle.mapping.specs.Levels.{levels_of, contents};
ghost use Rattle.mapping.specs.Proper.{AreLevels, HoldsItsLevels};
ghost use Rattle.mapping.specs.Tree.{most_levels};
ghost use Rattle.mapping.specs.TreeInMemory.{AreAllHome, tree_of};
ghost use Rattle.scan.specs.Direction.{IsNext};
ghost use Rattle.scan.specs.Edge.{beyond, is_under};
ghost use Rattle.scan.specs.Walk.{pairs_along, HasNextKey};

use crate::direction::Towards;
use crate::edge::Edge;
use crate::leaf::LeafWalk;
use crate::leaves::Leaves;
use keys::Value;
use mapping::Tree;
use std::alloc::Global;
use std::marker::Model;

/// A pair, borrowed from its leaf.
pub(crate) type Pair<'a> = (&'a [u8], &'a Value<Global>);

/// An iteration over the pairs of a tree beyond an edge. Contracts see it as the list of the remaining pairs, in key
/// order.
#[derive(Drop)]
pub(crate) struct Walk<'a, W: Towards> {
    leaf: LeafWalk<'a, W>,
    leaves: Leaves<'a, W>,
}

impl<'a, W: Towards> Model for Walk<'a, W> {
    ghost use Rattle.keys.specs.Bytes.{Bytes, Pairs};
    ghost use Rattle.scan.specs.Walk.{pairs_along};

    ghost Value = { Pairs Bytes };

    ghost view = { λ w. pairs_along W.direction w.leaf w.leaves };
}

impl<'a, W: Towards> Walk<'a, W> {
    // The tree must be as for `Range::new`. Takes one descent.
    pub(crate) fn new(alloc: Global, tree: &'a Tree<Global>, edge: &Edge<'_>) -> Self
        requires home { AreAllHome tree.now }
        requires height { tree.now.height ≤ most_levels }
        requires held { HoldsItsLevels (tree_of tree.now) }
        requires levels { AreLevels (levels_of (tree_of tree.now)) }
        ensures { result ≡ beyond W.direction (is_under edge.now) (contents (tree_of tree.now)) }
    {
        let (first, leaves) = Leaves::new(alloc, tree, edge);
        Walk {
            leaf: LeafWalk::new(first.1.whole(), edge),
            leaves,
        }
    }

    #[inline]
    pub(crate) fn next(&mut self) -> Option<Pair<'a>>
        ensures { MatchOption result ((self.old ≡ []) × (self.new ≡ []))
            (λ p. IsNext W.direction self.old (p.0.now, p.1.now) self.new) }
    {
        next_pair(&mut self.leaf, &mut self.leaves)
    }
}

/// A walk whose next pair can be read before it is removed. Contracts see it as the list of the remaining pairs, in key
/// order.
#[derive(Drop)]
pub(crate) struct PeekableWalk<'a, W: Towards> {
    // The next pair, if `peek` has read it.
    peeked: Option<Pair<'a>>,
    walk: Walk<'a, W>,
}

impl<'a, W: Towards> Model for PeekableWalk<'a, W> {
    ghost use Rattle.std.specs.Option.{option_map};
    ghost use Rattle.keys.specs.Bytes.{Bytes, Pairs};
    ghost use Rattle.scan.specs.Walk.{pairs_with};

    ghost Value = { Pairs Bytes };

    ghost view = { λ w. pairs_with W.direction
        (option_map (λ p. (p.0.now, p.1.now)) w.peeked) w.walk };
}

impl<'a, W: Towards> PeekableWalk<'a, W> {
    // The tree must be as for `Range::new`. Takes one descent.
    pub(crate) fn new(alloc: Global, tree: &'a Tree<Global>, edge: &Edge<'_>) -> Self
        requires home { AreAllHome tree.now }
        requires height { tree.now.height ≤ most_levels }
        requires held { HoldsItsLevels (tree_of tree.now) }
        requires levels { AreLevels (levels_of (tree_of tree.now)) }
        ensures { result ≡ beyond W.direction (is_under edge.now) (contents (tree_of tree.now)) }
    {
        PeekableWalk {
            peeked: None,
            walk: Walk::new(alloc, tree, edge),
        }
    }

    // The key of the next pair, which remains.
    pub(crate) fn peek(&mut self) -> Option<&'a [u8]>
        ensures kept { self.new ≡ self.old }
        ensures key { HasNextKey W.direction (option_copied result) self.old }
    {
        match self.peeked {
            Some((key, _value)) => Some(key),
            None => match self.walk.next() {
                Some((key, value)) => {
                    self.peeked = Some((key, value));
                    Some(key)
                }
                None => None,
            },
        }
    }

    #[inline]
    #[tactic(auto, using(crate::proofs::DirectionLemmas::in_turn_next))]
    pub(crate) fn next(&mut self) -> Option<Pair<'a>>
        ensures { MatchOption result ((self.old ≡ []) × (self.new ≡ []))
            (λ p. IsNext W.direction self.old (p.0.now, p.1.now) self.new) }
    {
        match self.peeked {
            Some((key, value)) => {
                self.peeked = None;
                Some((key, value))
            }
            None => self.walk.next(),
        }
    }
}

// The next pair of the leaf, or else of the leaves that come after it.
fn next_pair<'a, W: Towards>(
    leaf: &mut LeafWalk<'a, W>,
    leaves: &mut Leaves<'a, W>,
) -> Option<Pair<'a>>
    ensures { MatchOption result
        ((pairs_along W.direction leaf.old leaves.old ≡ [])
        × (pairs_along W.direction leaf.new leaves.new ≡ []))
        (λ p. IsNext W.direction (pairs_along W.direction leaf.old leaves.old)
        (p.0.now, p.1.now) (pairs_along W.direction leaf.new leaves.new)) }
{
    loop {
        if let Some(pair) = leaf.next() {
            return Some(pair);
        }
        match leaves.next() {
            Some((_, chain)) => leaf.restart(chain.whole()),
            None => return None,
        }
    }
}
