//! Iterates over the first or the last rows of a range of keys, up to a limit.
ghost use Rattle.std.specs.Prelude.{◌≡◌, ◌≤◌};
ghost use Rattle.std.specs.Iterator.{YieldsFirstBy, item_count};
ghost use Rattle.std.specs.Option.{option_copied};
ghost use Rattle.keys.specs.Range.{rows};
ghost use Rattle.mapping.specs.Levels.{levels_of, contents};
ghost use Rattle.mapping.specs.Proper.{AreLevels, HoldsItsLevels};
ghost use Rattle.mapping.specs.Tree.{most_levels};
ghost use Rattle.mapping.specs.TreeInMemory.{AreAllHome, tree_of};
ghost use Rattle.scan.specs.Back.{rows_back};
ghost use Rattle.scan.specs.Prefix.{with_prefix};

use crate::bounded::BoundedWalk;
use crate::direction::{Downward, Upward};
use crate::edge::{Edge, lower_edge, upper_edge};
use mapping::Tree;
use std::alloc::Global;
use std::marker::Model;

/// An iterator over the first rows of a range of keys in key order, as keys and values borrowed from the tree's pages.
/// Does not allocate, and does not borrow the bounds. Contracts see it as the list of the remaining rows.
#[derive(Drop)]
pub struct Rows<'a> {
    walk: BoundedWalk<'a, Upward>,
}

impl<'a> Model for Rows<'a> {
    ghost use Rattle.keys.specs.Bytes.{Bytes, Pairs};

    ghost Value = { Pairs Bytes };

    ghost view = { λ r. r.walk };
}

impl<'a> Rows<'a> {
    /// Returns the first `limit` pairs of the tree whose keys are at or above `lo` and below `hi` (if given). The tree
    /// must be proper, with at most 64 levels and no page checked out. With `hi`, takes a second descent, to the first
    /// key at or above `hi`, past all leaves there that deletes have emptied.
    pub fn new(
        alloc: Global,
        tree: &'a Tree<Global>,
        lo: &[u8],
        hi: Option<&[u8]>,
        limit: u32,
    ) -> Self
        requires home { AreAllHome tree.now }
        requires height { tree.now.height ≤ most_levels }
        requires held { HoldsItsLevels (tree_of tree.now) }
        requires levels { AreLevels (levels_of (tree_of tree.now)) }
        ensures { result
            ≡ rows lo.now (option_copied hi.entry) limit (contents (tree_of tree.now)) }
    {
        let (start, end) = (lower_edge(lo), upper_edge(hi));
        Rows {
            walk: BoundedWalk::new(alloc, tree, &start, &end, Some(limit)),
        }
    }

    /// Returns the pairs of the tree whose keys begin with `prefix`. The tree must be as for `new`. Takes two descents.
    pub fn with_prefix(alloc: Global, tree: &'a Tree<Global>, prefix: &[u8]) -> Self
        requires home { AreAllHome tree.now }
        requires height { tree.now.height ≤ most_levels }
        requires held { HoldsItsLevels (tree_of tree.now) }
        requires levels { AreLevels (levels_of (tree_of tree.now)) }
        ensures { result ≡ with_prefix prefix.now (contents (tree_of tree.now)) }
    {
        let (start, end) = (Edge::Before(prefix), Edge::AfterPrefix(prefix));
        Rows {
            walk: BoundedWalk::new(alloc, tree, &start, &end, None),
        }
    }
}

impl<'a> Iterator for Rows<'a> {
    type Item = (&'a [u8], &'a [u8]);

    ghost next_gives = { YieldsFirstBy (λ item. (item.0.now, item.1.now)) (λ left. left) };

    ghost remaining = { item_count (λ left. left) };

    fn next(&mut self) -> Option<(&'a [u8], &'a [u8])> {
        self.walk.next()
    }
}

/// An iterator over the last rows of a range of keys from the greatest key down, as keys and values borrowed from the
/// tree's pages. Does not allocate, and does not borrow the bounds. Contracts see it as the list of the remaining rows.
#[derive(Drop)]
pub struct RowsBack<'a> {
    walk: BoundedWalk<'a, Downward>,
}

impl<'a> Model for RowsBack<'a> {
    ghost use Rattle.keys.specs.Bytes.{Bytes, Pairs};

    ghost Value = { Pairs Bytes };

    ghost view = { λ r. r.walk };
}

impl<'a> RowsBack<'a> {
    /// Returns the last `limit` pairs of the tree whose keys are at or above `lo` and below `hi` (if given), the
    /// greatest key first. The tree must be as for `Rows::new`. Costs one descent, and a second one if `lo` is not
    /// empty.
    pub fn new(
        alloc: Global,
        tree: &'a Tree<Global>,
        lo: &[u8],
        hi: Option<&[u8]>,
        limit: u32,
    ) -> Self
        requires home { AreAllHome tree.now }
        requires height { tree.now.height ≤ most_levels }
        requires held { HoldsItsLevels (tree_of tree.now) }
        requires levels { AreLevels (levels_of (tree_of tree.now)) }
        ensures { result
            ≡ rows_back lo.now (option_copied hi.entry) limit (contents (tree_of tree.now)) }
    {
        let (start, end) = (lower_edge(lo), upper_edge(hi));
        RowsBack {
            walk: BoundedWalk::new(alloc, tree, &end, &start, Some(limit)),
        }
    }
}

impl<'a> Iterator for RowsBack<'a> {
    type Item = (&'a [u8], &'a [u8]);

    ghost next_gives = { YieldsFirstBy (λ item. (item.0.now, item.1.now)) (λ left. left) };

    ghost remaining = { item_count (λ left. left) };

    fn next(&mut self) -> Option<(&'a [u8], &'a [u8])> {
        self.walk.next()
    }
}
