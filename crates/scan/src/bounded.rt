//! Iterates over the pairs of a tree between two edges in either direction, up to a limit.
ghost use Rattle.std.specs.Prelude.{◌≡◌, ◌∷◌, [], ◌≤◌, true, false, Some, MatchOption};
ghost use Rattle.std.specs.Option.{option_copied};
ghost use Rattle.keys.specs.Bytes.{Bytes};
ghost use Rattle.mapping.specs.Levels.{levels_of, contents};
ghost use Rattle.mapping.specs.Proper.{AreLevels, HoldsItsLevels};
ghost use Rattle.mapping.specs.Tree.{most_levels};
ghost use Rattle.mapping.specs.TreeInMemory.{AreAllHome, tree_of};
ghost use Rattle.scan.specs.Edge.{beyond, is_beyond, is_under};
ghost use Rattle.scan.specs.Rows.{GoesOn, comes_before, between_in_order, limited};
ghost use Rattle.scan.specs.Walk.{HasNextKey};

use crate::direction::{Direction, Towards};
use crate::edge::Edge;
use crate::walk::Walk;
use keys::compare;
use mapping::Tree;
use std::alloc::Global;
use std::marker::Model;

/// An iteration over the pairs of a tree from an edge up or down to another, up to a limit. Contracts see it as the list
/// of the remaining pairs, the next one first.
#[derive(Drop)]
pub(crate) struct BoundedWalk<'a, W: Towards> {
    walk: Walk<'a, W>,
    // The first key of the tree that comes after the other edge, if there is one.
    stop: Option<&'a [u8]>,
    // How many pairs may still come, if there is a limit.
    left: Option<u32>,
}

impl<'a, W: Towards> Model for BoundedWalk<'a, W> {
    ghost use Rattle.std.specs.Option.{option_copied};
    ghost use Rattle.keys.specs.Bytes.{Bytes, Pairs};
    ghost use Rattle.keys.specs.Order.{IsRising};
    ghost use Rattle.scan.specs.Rows.{rows_left};

    ghost Value = { Pairs Bytes };

    ghost view = { λ b. rows_left W.direction b.left (option_copied b.stop) b.walk };

    ghost invariant = { λ b. IsRising b.walk };
}

impl<'a, W: Towards> BoundedWalk<'a, W> {
    // The pairs from the edge `start` to the edge `end`, which comes after it in the direction of the iteration. The
    // tree must be as for `Range::new`. Takes one descent, and a second one if keys may come after `end`.
    #[tactic(auto, using(crate::proofs::RowLemmas::walk_rises))]
    pub(crate) fn new(
        alloc: Global,
        tree: &'a Tree<Global>,
        start: &Edge<'_>,
        end: &Edge<'_>,
        left: Option<u32>,
    ) -> Self
        requires home { AreAllHome tree.now }
        requires height { tree.now.height ≤ most_levels }
        requires held { HoldsItsLevels (tree_of tree.now) }
        requires levels { AreLevels (levels_of (tree_of tree.now)) }
        ensures { result ≡ limited left (between_in_order W.direction
            (is_under start.now) (is_under end.now) (contents (tree_of tree.now))) }
    {
        BoundedWalk {
            stop: first_after::<W>(alloc, tree, end),
            walk: Walk::new(alloc, tree, start),
            left,
        }
    }

    #[inline]
    #[tactic(auto, using(crate::proofs::RowLemmas::limit_reached))]
    pub(crate) fn next(&mut self) -> Option<(&'a [u8], &'a [u8])>
        ensures { MatchOption result ((self.old ≡ []) × (self.new ≡ []))
            (λ row. self.old ≡ (row.0.now, row.1.now) ∷ self.new) }
    {
        let Some(later) = one_less(self.left) else {
            return None;
        };
        let direction = W::direction();
        match self.walk.next() {
            Some((key, value)) if comes_before(direction, key, self.stop) => {
                self.left = later;
                Some((key, value.as_bytes()))
            }
            _ => {
                self.left = Some(0);
                None
            }
        }
    }
}

// The limit after one more row, or `None` if no more rows may come.
#[inline]
#[tactic(auto, using(crate::proofs::RowLemmas::goes_on_none, crate::proofs::RowLemmas::goes_on_some))]
fn one_less(left: Option<u32>) -> Option<Option<u32>>
    ensures { MatchOption result (left ≡ Some 0) (λ later. GoesOn left later) }
{
    match left {
        None => Some(None),
        Some(count) => {
            if count == 0 {
                None
            } else {
                Some(Some(count - 1))
            }
        }
    }
}

// Whether an iteration comes to `key` before it stops.
#[inline]
fn comes_before(direction: Direction, key: &[u8], stop: Option<&[u8]>) -> bool
    ensures { result ≡ comes_before direction (option_copied stop.entry) key.now }
{
    match stop {
        None => true,
        Some(stop) => match direction {
            Direction::Up => compare(key, stop).is_lt(),
            Direction::Down => compare(stop, key).is_lt(),
        },
    }
}

// The key of the first pair that an iteration comes to after the edge.
fn first_after<'a, W: Towards>(
    alloc: Global,
    tree: &'a Tree<Global>,
    edge: &Edge<'_>,
) -> Option<&'a [u8]>
    requires home { AreAllHome tree.now }
    requires height { tree.now.height ≤ most_levels }
    requires held { HoldsItsLevels (tree_of tree.now) }
    requires levels { AreLevels (levels_of (tree_of tree.now)) }
    ensures { HasNextKey W.direction (option_copied result)
        (beyond W.direction (is_under edge.now) (contents (tree_of tree.now))) }
{
    if is_after_all(W::direction(), edge) {
        return None;
    }
    let mut walk = Walk::<W>::new(alloc, tree, edge);
    match walk.next() {
        Some((key, _value)) => Some(key),
        None => None,
    }
}

// Whether the edge shows that an iteration comes to no key after it.
#[inline]
fn is_after_all(direction: Direction, edge: &Edge<'_>) -> bool
    ensures { result ≡ true → (k : Bytes) → is_beyond direction (is_under edge.now) k ≡ false }
{
    match (direction, edge) {
        (Direction::Up, Edge::High) => true,
        (Direction::Down, Edge::Low) => true,
        _ => false,
    }
}
