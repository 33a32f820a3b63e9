//! Iterates over the leaves of a tree in either direction.
ghost use Rattle.std.specs.Prelude.{◌≡◌, ◌∷◌, [], ◌≤◌, length, MatchOption};
ghost use Rattle.delta_chain.specs.Lazy.{seen};
ghost use Rattle.mapping.specs.Tree.{most_levels};
ghost use Rattle.mapping.specs.TreeInMemory.{AreAllHome};
ghost use Rattle.scan.specs.Direction.{IsNext, in_turn};
ghost use Rattle.scan.specs.Edge.{is_under};
ghost use Rattle.scan.specs.Path.{leaf_with};
ghost use Rattle.scan.specs.Walk.{IsWalk, IsAt, walk_beyond, walk_ahead};

use crate::children::Children;
use crate::direction::Towards;
use crate::edge::Edge;
use crate::leaf::outermost;
use delta_chain::LazyChain;
use keys::{Pid, Value};
use mapping::Tree;
use smallvec::SmallVec;
use std::alloc::Global;
use std::marker::Model;

/// A leaf: its low key and its values.
pub(crate) type Leaf<'a> = (&'a [u8], &'a LazyChain<Value<Global>, Global>);

// The index pages from the root down to a leaf, each with its children that come after the path. A tree has at most 64
// levels, so the path needs no allocation.
type Path<'a, W> = SmallVec<Children<'a, W>, 64>;

/// An iteration over the leaves that come after a first leaf. A step ascends only as far as pages have no more children.
/// Does not allocate. Contracts see it as these leaves, in key order.
#[derive(Drop)]
pub(crate) struct Leaves<'a, W: Towards> {
    tree: &'a Tree<Global>,
    path: Path<'a, W>,
}

impl<'a, W: Towards> Model for Leaves<'a, W> {
    ghost use Rattle.std.specs.Prelude.{List};
    ghost use Rattle.keys.specs.Bytes.{Bytes};
    ghost use Rattle.index_page.specs.Page.{Page};
    ghost use Rattle.scan.specs.Walk.{IsWalk, walk_ahead};

    ghost Value = { List (Page Bytes) };

    ghost view = { λ l. walk_ahead W.direction l.tree.now l.path.items };

    ghost invariant = { λ l. IsWalk l.tree.now l.path };
}

impl<'a, W: Towards> Leaves<'a, W> {
    // The leaf whose range contains the edge, and an iteration over the leaves that come after it.
    pub(crate) fn new(alloc: Global, tree: &'a Tree<Global>, edge: &Edge<'_>) -> (Leaf<'a>, Self)
        requires home { AreAllHome tree.now }
        requires height { tree.now.height ≤ most_levels }
        requires known { IsAt tree.now 0 tree.now.root }
        ensures { IsNext W.direction (walk_beyond W.direction tree.now 0 (is_under edge.now) tree.now.root)
            (leaf_with result.0.0.now (seen result.0.1.now)) result.1 }
    {
        let mut path = SmallVec::new(alloc);
        let first = descend(tree, &mut path, tree.root(), edge);
        (first, Leaves { tree, path })
    }

    pub(crate) fn next(&mut self) -> Option<Leaf<'a>>
        ensures { MatchOption result ((self.old ≡ []) × (self.new ≡ []))
            (λ leaf. IsNext W.direction self.old
            (leaf_with leaf.0.now (seen leaf.1.now)) self.new) }
    {
        next_leaf(self.tree, &mut self.path)
    }
}

// Descends from page `from` to the leaf whose range contains the edge, and pushes the children that come after it onto
// the path.
fn descend<'a, W: Towards>(
    tree: &'a Tree<Global>,
    path: &mut Path<'a, W>,
    from: Pid,
    edge: &Edge<'_>,
) -> Leaf<'a>
    requires walk { IsWalk tree.now path.old }
    requires known { IsAt tree.now (length path.old.items) from }
    ensures walk { IsWalk tree.now path.new }
    ensures leaves { IsNext W.direction
        (in_turn W.direction
        (walk_beyond W.direction tree.now (length path.old.items) (is_under edge.now) from)
        (walk_ahead W.direction tree.now path.old.items))
        (leaf_with result.0.now (seen result.1.now))
        (walk_ahead W.direction tree.now path.new.items) }
{
    let mut pid = from;
    loop {
        let Some(page) = tree.page(pid) else {
            unreachable!()
        };
        if let Some(chain) = page.as_leaf() {
            return (page.low(), chain);
        }
        let Some(list) = page.child_list() else {
            unreachable!()
        };
        let mut step = Children::new(list, edge);
        let Some(child) = step.next() else {
            unreachable!()
        };
        path.push_reserved(step);
        pid = child;
    }
}

// Removes the next leaf from the path and returns it.
fn next_leaf<'a, W: Towards>(tree: &'a Tree<Global>, path: &mut Path<'a, W>) -> Option<Leaf<'a>>
    requires { IsWalk tree.now path.old }
    ensures walk { IsWalk tree.now path.new }
    ensures leaves { MatchOption result
        ((walk_ahead W.direction tree.now path.old.items ≡ [])
        × (walk_ahead W.direction tree.now path.new.items ≡ []))
        (λ leaf. IsNext W.direction (walk_ahead W.direction tree.now path.old.items)
        (leaf_with leaf.0.now (seen leaf.1.now))
        (walk_ahead W.direction tree.now path.new.items)) }
{
    while let Some(mut step) = path.pop() {
        if let Some(child) = step.next() {
            path.push_reserved(step);
            return Some(descend(tree, path, child, &outermost(W::direction())));
        }
    }
    None
}
