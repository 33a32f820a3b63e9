//! Reads of the store by reference: a key, a range, a prefix.
ghost use Rattle.std.specs.Prelude.{◌≡◌, ◌+◌, ◌≤◌, length, map, Some, IsOk, IfOk, IfErr};
ghost use Rattle.std.specs.Option.{option_copied};
ghost use Rattle.keys.specs.Bytes.{Bytes};
ghost use Rattle.keys.specs.Order.{IsRising};
ghost use Rattle.keys.specs.OrderedMap.{value_at};
ghost use Rattle.keys.specs.Range.{rows};
ghost use Rattle.keys.specs.declared.fault.Fault.TheVariants.{NoMemory};
ghost use Rattle.delta_chain.specs.Layers.{entries_of};
ghost use Rattle.index_page.specs.Page.{Page};
ghost use Rattle.index_page.specs.Page.PageOfKind.{Leaf};
ghost use Rattle.mapping.specs.Levels.{contents};
ghost use Rattle.mapping.specs.Tree.{page_at};
ghost use Rattle.mapping.specs.TreeInMemory.{AreAllHome, tree_of};
ghost use Rattle.replies.specs.ByPlace.{most_counted};
ghost use Rattle.scan.specs.Back.{rows_back};
ghost use Rattle.scan.specs.Prefix.{with_prefix};
ghost use Rattle.engine.specs.Bounds.{pairs_within};
ghost use Rattle.engine.specs.SoundTree.{IsReadable};

use crate::execute::pairs_can_be_counted;
use crate::store::Store;
use crate::store::bounds::pairs_of;
use delta_chain::Chain;
use flush_log::Disk;
use keys::{Command, Fault, Pid, Value};
use mapping::Tree;
use mapping::laws::the_contents_of_a_proper_tree_rise;
use scan::{Range, Rows, RowsBack, value_in};
use std::alloc::{AllocError, Global};
use std::ops::RangeBounds;

impl<D: Disk> Store<D> {
    /// Returns the value at the key, if there is one, borrowed from its page. Takes one descent and a search in the
    /// leaf, and does not allocate. The key may have any length: the store has no key that is too long. Also works in a
    /// store that has failed.
    pub fn get(&self, key: &[u8]) -> Option<&[u8]>
        ensures { option_copied result ≡ value_at key.now (contents self.now.store.tree) }
    {
        value_of(&self.tree, key)
    }

    /// Returns the first `limit` pairs whose keys are at or above `lo` and below `hi` (if given), in key order,
    /// borrowed from the pages. Neither this call nor the iterator allocates. The bounds may have any length, and are
    /// not borrowed by the rows. Takes one descent; with `hi`, a second one, to the first key at or above `hi`, past
    /// all leaves there that deletes have emptied. Also works in a store that has failed.
    pub fn range(&self, lo: &[u8], hi: Option<&[u8]>, limit: u32) -> Result<Rows<'_>, Fault>
        ensures succeeds { IsOk result }
        ensures rows { IfOk result (λ left. left
            ≡ rows lo.now (option_copied hi.entry) limit (contents self.now.store.tree)) }
    {
        Ok(self.rows(lo, hi, limit))
    }

    // Returns the pairs of `range`.
    pub(crate) fn rows(&self, lo: &[u8], hi: Option<&[u8]>, limit: u32) -> Rows<'_>
        ensures { result
            ≡ rows lo.now (option_copied hi.entry) limit (contents self.now.store.tree) }
    {
        Rows::new(self.alloc, &self.tree, lo, hi, limit)
    }

    /// Returns the pairs whose keys lie in the range, which is `..` or has bounds of type `&[u8]`: `lo..`, `..hi`,
    /// `lo..hi`, `..=hi`, `lo..=hi` or a pair of `Bound`s. `next` returns the remaining pair with the least key, and
    /// `next_back` the one with the greatest key. The pairs are borrowed as those of `Store::range`, and the bounds are
    /// not borrowed. A range whose lower bound is above its upper bound has no pairs. Takes a descent for each bound
    /// that is given. Also works in a store that has failed.
    pub fn pairs_in<'k, B: RangeBounds<&'k [u8]>>(&self, bounds: B) -> Range<'_>
        ensures { B.has_bounds bounds → result ≡ pairs_within (B.start_bound bounds)
            (B.end_bound bounds) (contents self.now.store.tree) }
    {
        pairs_of(self.alloc, &self.tree, bounds)
    }

    /// Returns the pairs whose keys begin with these bytes, as `pairs_in` does: all pairs if there are no bytes. The
    /// bytes are not borrowed. Takes two descents. Also works in a store that has failed.
    pub fn pairs_with_prefix(&self, bytes: &[u8]) -> Range<'_>
        ensures { result ≡ with_prefix bytes.now (contents self.now.store.tree) }
    {
        Range::with_prefix(self.alloc, &self.tree, bytes)
    }

    // Returns the pairs of `range` in a list. Fails only if allocation fails.
    pub(crate) fn list_range(
        &self,
        lo: &[u8],
        hi: Option<&[u8]>,
        limit: u32,
    ) -> Result<Vec<(&[u8], &[u8])>, Fault>
        ensures rows { IfOk result (λ found. map (λ row. (row.0.now, row.1.now)) found.items
            ≡ rows lo.now (option_copied hi.entry) limit (contents self.now.store.tree)) }
        ensures refused { IfErr result (λ fault. fault ≡ NoMemory) }
    {
        Ok(listed(self.alloc, self.range(lo, hi, limit)?)?)
    }

    /// Returns the last `limit` pairs whose keys are at or above `lo` and below `hi` (if given), from the greatest key
    /// down. They are borrowed as those of `range`, and the bounds are not borrowed. Takes one descent, and a second
    /// one if `lo` is not empty. Also works in a store that has failed.
    pub fn range_back(&self, lo: &[u8], hi: Option<&[u8]>, limit: u32) -> RowsBack<'_>
        ensures { result
            ≡ rows_back lo.now (option_copied hi.entry) limit (contents self.now.store.tree) }
    {
        RowsBack::new(self.alloc, &self.tree, lo, hi, limit)
    }

    /// Returns the pairs whose keys begin with these bytes, in key order: all pairs if there are no bytes. They are
    /// borrowed as those of `range`, and the bytes are not borrowed. Takes two descents. Also works in a store that has
    /// failed.
    pub fn prefix(&self, bytes: &[u8]) -> Rows<'_>
        ensures { result ≡ with_prefix bytes.now (contents self.now.store.tree) }
    {
        Rows::with_prefix(self.alloc, &self.tree, bytes)
    }

    // Shows that the pairs, even with one more per command, can be counted in 128 bits. Only for the proof.
    pub(crate) fn pairs_fit(&self, commands: &[Command<Global>])
        ensures fit { length (contents self.now.store.tree) + length commands.now
            ≤ most_counted }
        ensures rising { IsRising (contents self.now.store.tree) }
    {
        the_contents_of_a_proper_tree_rise();
        pairs_can_be_counted(&self.settings, &self.tree, commands);
    }
}

// The rows in a list.
fn listed<'a>(alloc: Global, rows: Rows<'a>) -> Result<Vec<(&'a [u8], &'a [u8])>, AllocError>
    ensures { IfOk result (λ list. map (λ row. (row.0.now, row.1.now)) list.items
        ≡ rows.entry) }
{
    rows.collect(alloc)
}

// The value that the tree has at the key.
pub(super) fn value_of<'a>(tree: &'a Tree<Global>, key: &[u8]) -> Option<&'a [u8]>
    requires readable { IsReadable tree.now }
    ensures { option_copied result ≡ value_at key.now (contents (tree_of tree.now)) }
{
    match value_in(chain_for(tree, key), key) {
        Some(value) => Some(value.as_bytes()),
        None => None,
    }
}

// The contents of the leaf whose range contains the key: it has at the key what the tree has there.
fn chain_for<'a>(tree: &'a Tree<Global>, key: &[u8]) -> &'a Chain<Value<Global>, Global>
    requires readable { IsReadable tree.now }
    ensures { value_at key.now (entries_of result.now)
        ≡ value_at key.now (contents (tree_of tree.now)) }
{
    leaf_under(tree, tree.leaf_for(key))
}

// The contents of the leaf with this page id, as they are in memory.
fn leaf_under<'a>(tree: &'a Tree<Global>, pid: Pid) -> &'a Chain<Value<Global>, Global>
    requires home { AreAllHome tree.now }
    requires leaf { (page : Page Bytes) ×
        (page_at (tree_of tree.now).pages pid ≡ Some (Leaf page)) }
    ensures { (page : Page Bytes) × (page_at (tree_of tree.now).pages pid ≡ Some (Leaf page))
        × (entries_of page.layers ≡ entries_of result.now) }
{
    let Some(page) = tree.page(pid) else {
        unreachable!()
    };
    let Some(leaf) = page.as_leaf() else {
        unreachable!()
    };
    leaf.whole()
}
