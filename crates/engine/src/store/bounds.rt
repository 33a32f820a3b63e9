//! The pairs of a tree whose keys lie between the bounds of a range.
ghost use Rattle.std.specs.Prelude.{◌≡◌, ◌≤◌, not};
ghost use Rattle.std.specs.Range.Bound.{bound_map};
ghost use Rattle.keys.specs.Bytes.{Bytes};
ghost use Rattle.mapping.specs.Levels.{levels_of, contents};
ghost use Rattle.mapping.specs.Proper.{AreLevels, HoldsItsLevels};
ghost use Rattle.mapping.specs.Tree.{most_levels};
ghost use Rattle.mapping.specs.TreeInMemory.{AreAllHome, tree_of};
ghost use Rattle.scan.specs.Edge.{is_under};
ghost use Rattle.engine.specs.Bounds.{is_from, is_up_to, pairs_within};

use mapping::Tree;
use scan::{Edge, Range};
use std::alloc::Global;
use std::ops::{Bound, RangeBounds};

// The pairs of the tree whose keys lie in the range, from both ends.
pub(super) fn pairs_of<'t, 'k, B: RangeBounds<&'k [u8]>>(
    alloc: Global,
    tree: &'t Tree<Global>,
    bounds: B,
) -> Range<'t>
    requires home { AreAllHome tree.now }
    requires height { tree.now.height ≤ most_levels }
    requires held { HoldsItsLevels (tree_of tree.now) }
    requires levels { AreLevels (levels_of (tree_of tree.now)) }
    ensures { B.has_bounds bounds → result ≡ pairs_within (B.start_bound bounds)
        (B.end_bound bounds) (contents (tree_of tree.now)) }
{
    let start = start_edge(bounds.start_bound());
    let end = end_edge(bounds.end_bound());
    Range::new(alloc, tree, start, end)
}

// The edge below the keys that this lower bound allows.
#[inline]
fn start_edge<'k>(start: Bound<&&'k [u8]>) -> Edge<'k>
    ensures { (k : Bytes) → not (is_under result k)
        ≡ is_from (bound_map (λ key. key.now) start.entry) k }
{
    match start {
        Bound::Included(key) => Edge::Before(*key),
        Bound::Excluded(key) => Edge::After(*key),
        Bound::Unbounded => Edge::Low,
    }
}

// The edge above the keys that this upper bound allows.
#[inline]
fn end_edge<'k>(end: Bound<&&'k [u8]>) -> Edge<'k>
    ensures { (k : Bytes) → is_under result k
        ≡ is_up_to (bound_map (λ key. key.now) end.entry) k }
{
    match end {
        Bound::Included(key) => Edge::After(*key),
        Bound::Excluded(key) => Edge::Before(*key),
        Bound::Unbounded => Edge::High,
    }
}
