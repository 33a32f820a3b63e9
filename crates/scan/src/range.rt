//! Iterates over the pairs of a range of keys from both ends.
ghost use Rattle.std.specs.Prelude.{◌≡◌, ◌≤◌, Some, IfSome};
ghost use Rattle.std.specs.Iterator.{YieldsFirstBy, YieldsLastBy, item_count};
ghost use Rattle.std.specs.Option.{option_copied, option_map};
ghost use Rattle.mapping.specs.Levels.{levels_of, contents};
ghost use Rattle.mapping.specs.Proper.{AreLevels, HoldsItsLevels};
ghost use Rattle.mapping.specs.Tree.{most_levels};
ghost use Rattle.mapping.specs.TreeInMemory.{AreAllHome, tree_of};
ghost use Rattle.scan.specs.declared.direction.Direction.TheVariants.{Up, Down};
ghost use Rattle.scan.specs.Edge.{beyond, between, is_under, PartAlike};
ghost use Rattle.scan.specs.Prefix.{with_prefix};
ghost use Rattle.scan.specs.Range.{IsTurn, IsOwnEdge};

use crate::direction::{Downward, Towards, Upward};
use crate::edge::{Edge, is_under};
use crate::walk::{Pair, PeekableWalk};
use mapping::Tree;
use std::alloc::Global;
use std::marker::Model;

/// An iterator over the pairs of a range of keys, as keys and values borrowed from the tree's pages. `next` returns the
/// remaining pair with the least key, `next_back` the one with the greatest key. Does not allocate, and does not borrow
/// the bounds. Contracts see it as the list of the remaining pairs, in key order.
#[derive(Drop)]
pub struct Range<'a> {
    alloc: Global,
    tree: &'a Tree<Global>,
    // The remaining pairs lie between these edges, whose bytes are borrowed from the tree.
    start: Edge<'a>,
    end: Edge<'a>,
    // The iterations from the two edges. One from the tree's first or last pair starts when it is first used.
    front: Option<PeekableWalk<'a, Upward>>,
    back: Option<PeekableWalk<'a, Downward>>,
}

impl<'a> Model for Range<'a> {
    ghost use Rattle.keys.specs.Bytes.{Bytes, Pairs};
    ghost use Rattle.mapping.specs.Levels.{contents};
    ghost use Rattle.mapping.specs.TreeInMemory.{tree_of};
    ghost use Rattle.scan.specs.Edge.{between, is_under};
    ghost use Rattle.scan.specs.Range.{IsBetween};

    ghost Value = { Pairs Bytes };

    ghost view = { λ r. between (is_under r.start) (is_under r.end)
        (contents (tree_of r.tree.now)) };

    ghost invariant = { λ r. IsBetween r.tree.now (is_under r.start) (is_under r.end)
        r.front r.back };
}

impl<'a> Range<'a> {
    /// Returns the pairs of the tree between two edges. The tree must be proper, with at most 64 levels and no page
    /// checked out. Takes one descent for each edge that is neither `Low` nor `High`, past all leaves there that
    /// deletes have emptied. Else the first call of `next` or `next_back` takes it.
    pub fn new(alloc: Global, tree: &'a Tree<Global>, start: Edge<'_>, end: Edge<'_>) -> Self
        requires home { AreAllHome tree.now }
        requires height { tree.now.height ≤ most_levels }
        requires held { HoldsItsLevels (tree_of tree.now) }
        requires levels { AreLevels (levels_of (tree_of tree.now)) }
        ensures { result ≡ between (is_under start.entry) (is_under end.entry)
            (contents (tree_of tree.now)) }
    {
        let (start, front) = front_from(alloc, tree, &start);
        let (end, back) = back_from(alloc, tree, &end);
        Range {
            alloc,
            tree,
            start,
            end,
            front,
            back,
        }
    }

    /// Returns the pairs of the tree whose keys begin with `prefix`. The tree must be as for `new`.
    pub fn with_prefix(alloc: Global, tree: &'a Tree<Global>, prefix: &[u8]) -> Self
        requires home { AreAllHome tree.now }
        requires height { tree.now.height ≤ most_levels }
        requires held { HoldsItsLevels (tree_of tree.now) }
        requires levels { AreLevels (levels_of (tree_of tree.now)) }
        ensures { result ≡ with_prefix prefix.now (contents (tree_of tree.now)) }
    {
        if prefix.is_empty() {
            return Range::new(alloc, tree, Edge::Low, Edge::High);
        }
        Range::new(alloc, tree, Edge::Before(prefix), Edge::AfterPrefix(prefix))
    }
}

impl<'a> Iterator for Range<'a> {
    type Item = (&'a [u8], &'a [u8]);

    ghost next_gives = { YieldsFirstBy (λ item. (item.0.now, item.1.now)) (λ left. left) };

    ghost remaining = { item_count (λ left. left) };

    fn next(&mut self) -> Option<(&'a [u8], &'a [u8])> {
        match next_of(self.alloc, self.tree, &mut self.front, &self.start) {
            Some((key, value)) => {
                self.start = Edge::After(key);
                if is_under(&self.end, key) {
                    Some((key, value.as_bytes()))
                } else {
                    None
                }
            }
            None => None,
        }
    }
}

impl<'a> DoubleEndedIterator for Range<'a> {
    ghost next_back_gives = { YieldsLastBy (λ item. (item.0.now, item.1.now)) (λ left. left) };

    fn next_back(&mut self) -> Option<(&'a [u8], &'a [u8])> {
        match next_of(self.alloc, self.tree, &mut self.back, &self.end) {
            Some((key, value)) => {
                self.end = Edge::Before(key);
                if is_under(&self.start, key) {
                    None
                } else {
                    Some((key, value.as_bytes()))
                }
            }
            None => None,
        }
    }
}

// The next pair of an iteration from the edge, which starts now if it has not started.
#[inline]
fn next_of<'a, W: Towards>(
    alloc: Global,
    tree: &'a Tree<Global>,
    walk: &mut Option<PeekableWalk<'a, W>>,
    edge: &Edge<'a>,
) -> Option<Pair<'a>>
    requires home { AreAllHome tree.now }
    requires height { tree.now.height ≤ most_levels }
    requires held { HoldsItsLevels (tree_of tree.now) }
    requires levels { AreLevels (levels_of (tree_of tree.now)) }
    requires begun { IfSome walk.old (λ left. left
        ≡ beyond W.direction (is_under edge.now) (contents (tree_of tree.now))) }
    ensures { IsTurn W.direction
        (beyond W.direction (is_under edge.now) (contents (tree_of tree.now)))
        (option_map (λ p. (p.0.now, p.1.now)) result) walk.new }
{
    if walk.is_none() {
        start(alloc, tree, walk, edge);
    }
    match walk {
        Some(begun) => begun.next(),
        None => None,
    }
}

// Starts the iteration. The state of a walk is large, so this function is kept out of the path of each step.
#[inline(never)]
fn start<'a, W: Towards>(
    alloc: Global,
    tree: &'a Tree<Global>,
    walk: &mut Option<PeekableWalk<'a, W>>,
    edge: &Edge<'a>,
)
    requires home { AreAllHome tree.now }
    requires height { tree.now.height ≤ most_levels }
    requires held { HoldsItsLevels (tree_of tree.now) }
    requires levels { AreLevels (levels_of (tree_of tree.now)) }
    ensures { walk.new
        ≡ Some (beyond W.direction (is_under edge.now) (contents (tree_of tree.now))) }
{
    *walk = Some(PeekableWalk::new(alloc, tree, edge));
}

// A lower edge of the tree's own with the same pairs above it, and an iteration from there unless it is `Low`.
fn front_from<'a>(
    alloc: Global,
    tree: &'a Tree<Global>,
    start: &Edge<'_>,
) -> (Edge<'a>, Option<PeekableWalk<'a, Upward>>)
    requires home { AreAllHome tree.now }
    requires height { tree.now.height ≤ most_levels }
    requires held { HoldsItsLevels (tree_of tree.now) }
    requires levels { AreLevels (levels_of (tree_of tree.now)) }
    ensures alike { PartAlike (is_under result.0) (is_under start.now)
        (contents (tree_of tree.now)) }
    ensures walk { IfSome result.1 (λ left. left
        ≡ beyond Up (is_under result.0) (contents (tree_of tree.now))) }
{
    if let Edge::Low = start {
        return (Edge::Low, None);
    }
    let mut front = PeekableWalk::new(alloc, tree, start);
    let edge = edge_before(front.peek());
    (edge, Some(front))
}

// An upper edge of the tree's own with the same pairs below it, and an iteration from there unless it is `High`.
fn back_from<'a>(
    alloc: Global,
    tree: &'a Tree<Global>,
    end: &Edge<'_>,
) -> (Edge<'a>, Option<PeekableWalk<'a, Downward>>)
    requires home { AreAllHome tree.now }
    requires height { tree.now.height ≤ most_levels }
    requires held { HoldsItsLevels (tree_of tree.now) }
    requires levels { AreLevels (levels_of (tree_of tree.now)) }
    ensures alike { PartAlike (is_under result.0) (is_under end.now)
        (contents (tree_of tree.now)) }
    ensures walk { IfSome result.1 (λ left. left
        ≡ beyond Down (is_under result.0) (contents (tree_of tree.now))) }
{
    if let Edge::High = end {
        return (Edge::High, None);
    }
    let mut back = PeekableWalk::new(alloc, tree, end);
    let edge = edge_after(back.peek());
    (edge, Some(back))
}

// The edge before the first key, or above all keys if there is none.
fn edge_before<'a>(first: Option<&'a [u8]>) -> Edge<'a>
    ensures { IsOwnEdge Up (option_copied first.entry) (is_under result) }
{
    match first {
        Some(key) => Edge::Before(key),
        None => Edge::High,
    }
}

// The edge after the last key, or below all keys if there is none.
fn edge_after<'a>(last: Option<&'a [u8]>) -> Edge<'a>
    ensures { IsOwnEdge Down (option_copied last.entry) (is_under result) }
{
    match last {
        Some(key) => Edge::After(key),
        None => Edge::Low,
    }
}
