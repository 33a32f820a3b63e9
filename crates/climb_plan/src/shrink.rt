//! Shrinks the root while it has one child.
ghost use Rattle.std.specs.Prelude.{◌≡◌, ℕ, ◌-◌, ◌<◌, List, IsSome};
ghost use Rattle.keys.specs.Bytes.{Bytes};
ghost use Rattle.keys.specs.Order.{IsRising};
ghost use Rattle.index_page.specs.Children.{child_entries};
ghost use Rattle.mapping.specs.Levels.{Placed};
ghost use Rattle.mapping.specs.Table.{page_of, with_place, freed};
ghost use Rattle.climb_plan.specs.HasClimbed.{HasShrunk, CanShrink};
ghost use Rattle.climb_plan.specs.Installing.{page_or_none, only_pid};

use keys::Pid;
use mapping::Tree;
use std::alloc::Global;

/// While the root is an index page with one child, frees the root and makes the child the root. Does not allocate.
pub(crate) fn shrink(tree: &mut Tree<Global>)
    requires { (level : List (Placed Bytes)) × (ls : List (List (Placed ℕ))) ×
        CanShrink tree.old level ls }
    ensures { (level : List (Placed Bytes)) (ls : List (List (Placed ℕ))) →
        CanShrink tree.old level ls → HasShrunk tree.old tree.new level ls }
{
    while tree.height() > 1 {
        let Some(child) = only_child(tree) else {
            return;
        };
        lower_root(tree, child);
    }
}

// Frees the root, and makes its child, one level below, the root.
fn lower_root(tree: &mut Tree<Global>, child: Pid)
    requires home { IsSome (page_of tree.old.table tree.old.root) }
    requires some { 1 < tree.old.height }
    ensures { tree.new ≡ record {
      table = freed (with_place tree.old.table tree.old.root None) tree.old.root;
      root = child;
      height = tree.old.height - 1;
    } }
{
    let root = tree.root();
    let _gone = tree.take(root);
    tree.free(root);
    tree.set_root(child, tree.height() - 1);
}

// The page id of the root's child, if the root is an index page with exactly one.
fn only_child(tree: &Tree<Global>) -> Option<Pid>
    requires { IsRising (child_entries (page_or_none (page_of tree.now.table tree.now.root))) }
    ensures { result ≡
        only_pid (child_entries (page_or_none (page_of tree.now.table tree.now.root))) }
{
    let page = tree.page(tree.root())?;
    let mut children = page.children(b"", None);
    let first = match children.next() {
        Some(child) => child.1,
        None => return None,
    };
    match children.next() {
        None => Some(first),
        Some(_) => None,
    }
}
