//! The descent from the root to the page whose range contains a key.
ghost use Rattle.std.specs.Prelude.{◌≡◌, ◌∷◌, []};
ghost use Rattle.mapping.specs.Descent.{HasWay, LeadsTo, IsLeafFor, pids_for};
ghost use Rattle.mapping.specs.Levels.{levels_of, names};
ghost use Rattle.mapping.specs.Proper.{AreLevels, HoldsItsLevels};
ghost use Rattle.mapping.specs.Table.{page_of};
ghost use Rattle.mapping.specs.TreeInMemory.{AreAllHome, tree_of};

use crate::tree::Tree;
use keys::Pid;
use std::alloc::Allocator;

impl<A: Allocator + Copy> Tree<A> {
    /// Returns the page id of the page, `depth` levels below the root, whose range contains `key`. Reads only the pages
    /// above it, so others may be checked out. Does not allocate.
    pub fn descend(&self, depth: u32, key: &[u8]) -> Pid
        requires { HasWay (page_of self.now.table) key.now depth self.now.root }
        ensures { LeadsTo (page_of self.now.table) key.now depth self.now.root result }
    {
        let mut pid = self.root();
        for _level in 0..depth {
            match self.page(pid) {
                Some(page) => pid = page.child_for(key),
                None => unreachable!(),
            }
        }
        pid
    }

    /// Returns the page id of the leaf whose range contains `key`. The leaf has at `key` what the tree has there.
    pub fn leaf_for(&self, key: &[u8]) -> Pid
        requires home { AreAllHome self.now }
        requires held { HoldsItsLevels (tree_of self.now) }
        requires levels { AreLevels (levels_of (tree_of self.now)) }
        ensures leaf { IsLeafFor (tree_of self.now) key.now result }
        ensures only { pids_for key.now (names (levels_of (tree_of self.now)).level)
            ≡ result ∷ [] }
    {
        self.descend(self.height().saturating_sub(1), key)
    }
}
