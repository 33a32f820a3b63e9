//! Pages of either kind: a low key and a chain.
ghost use Rattle.std.specs.Prelude.{◌≡◌, ℕ, ◌∷◌, [], true, ◌↔◌, Option, map, MatchOption, IsTrue, IfOk};
ghost use Rattle.std.specs.List.{filter};
ghost use Rattle.std.specs.Option.{option_copied, option_map, option_or};
ghost use Rattle.keys.specs.Bytes.{Bytes};
ghost use Rattle.keys.specs.Order.{IsRising};
ghost use Rattle.delta_chain.specs.Lazy.{seen};
ghost use Rattle.page_search.specs.Floor.{floor};
ghost use Rattle.index_page.specs.Page.{PageOfKind, bare, low_of, IsLeaf, IsIndex};
ghost use Rattle.index_page.specs.Page.PageOfKind.{Leaf, Index};
ghost use Rattle.index_page.specs.InMemory.{page_shown};
ghost use Rattle.index_page.specs.Range.{is_before};
ghost use Rattle.index_page.specs.ChildList.{IsListOf};
ghost use Rattle.index_page.specs.Children.{children, is_place_for, child_entries, HasChildFor, child_with_end, children_within};

use crate::child_list::{ChildList, child_at, count_up_to, low_key_at};
use crate::in_memory::PageInMemory;
use crate::within::{Children, NextChild};
use delta_chain::{Base, Chain, LazyChain};
use keys::{Key, Pid, Value, is_before};
use std::alloc::{AllocError, Allocator};
use std::marker::Model;

/// A page of the tree: its low key, at which its range of keys begins, and a chain of values for a leaf or of page ids
/// for an index page. It is boxed, so that moving it moves one pointer. Contracts see it as a `PageOfKind`.
#[derive(Drop)]
pub struct Page<A: Allocator> {
    held: Box<PageInMemory<A>, A>,
}

impl<A: Allocator> Model for Page<A> {
    ghost use Rattle.index_page.specs.InMemory.{page_shown};
    ghost use Rattle.index_page.specs.Page.{PageOfKind};

    ghost Value = { PageOfKind };

    ghost view = { λ p. page_shown p.held.value };
}

impl<A: Allocator + Copy> Page<A> {
    /// Makes the page that `held` represents. Does not allocate.
    pub fn of_memory(held: Box<PageInMemory<A>, A>) -> Self
        ensures { result ≡ page_shown held.value }
    {
        Page { held }
    }

    /// Returns the representation in memory.
    pub fn in_memory(&self) -> &PageInMemory<A>
        ensures { page_shown result.now ≡ self.now }
    {
        self.held.as_ref()
    }

    /// Converts the page into its representation in memory. Does not allocate.
    pub fn into_memory(self) -> Box<PageInMemory<A>, A>
        ensures { page_shown result.value ≡ self }
    {
        self.held
    }

    /// Makes a leaf with this low key and these values. `Err` means that allocation failed.
    pub fn leaf(alloc: A, low: Key<A>, chain: Chain<Value<A>, A>) -> Result<Self, AllocError>
        ensures { IfOk result (λ page. page ≡ Leaf (record { low = low; layers = chain })) }
    {
        let held = Box::new(alloc, PageInMemory::leaf(low, LazyChain::of(chain)))?;
        Ok(Page { held })
    }

    /// Makes an index page with this low key and the page ids of its children, each under the child's low key. `list`
    /// is `ChildList::of` the chain. `Err` means that allocation failed.
    pub fn index(
        alloc: A,
        low: Key<A>,
        chain: Chain<Pid, A>,
        list: ChildList<A>,
    ) -> Result<Self, AllocError>
        requires { IsListOf chain list }
        ensures { IfOk result (λ page. page ≡ Index (record { low = low; layers = chain })) }
    {
        let held = Box::new(alloc, PageInMemory::index(low, chain, list))?;
        Ok(Page { held })
    }

    /// Makes an index page with this low key and this base of children, without runs. `Err` means that allocation
    /// failed.
    pub fn bare_index(alloc: A, low: Key<A>, base: Base<Pid, A>) -> Result<Self, AllocError>
        ensures { IfOk result (λ page. page ≡ Index (bare low base)) }
    {
        Page::index(alloc, low, Chain::of_base(base), ChildList::none())
    }

    /// Returns the bytes of the low key.
    pub fn low(&self) -> &[u8]
        ensures { result.now ≡ low_of self.now }
    {
        self.held.low()
    }

    /// Returns the values if this is a leaf.
    pub fn as_leaf(&self) -> Option<&LazyChain<Value<A>, A>>
        ensures { MatchOption result (IsIndex self.now)
            (λ chain. self.now ≡ Leaf (record { low = low_of self.now; layers = seen chain.now })) }
    {
        self.held.as_leaf()
    }

    /// Returns the page ids of the children if this is an index page.
    pub fn as_index(&self) -> Option<&Chain<Pid, A>>
        ensures { MatchOption result (IsLeaf self.now)
            (λ chain. self.now ≡ Index (record { low = low_of self.now; layers = chain.now })) }
    {
        self.held.as_index()
    }

    /// Returns the children's low keys and page ids in one list, in order, if this is an index page.
    pub fn child_list(&self) -> Option<&Base<Pid, A>>
        ensures { MatchOption result (IsLeaf self.now)
            (λ list. (list.now ≡ child_entries self.now) × IsIndex self.now) }
    {
        self.held.child_list()
    }

    /// Takes the page ids and the list of children out of an index page, to be replaced by `put_index`. Test with
    /// `as_index` first. Does not allocate.
    pub fn take_index(&mut self, alloc: A) -> (Chain<Pid, A>, ChildList<A>)
        requires { IsIndex self.old }
        ensures page { self.old ≡ Index (record { low = low_of self.old; layers = result.0 }) }
        ensures low { low_of self.new ≡ low_of self.old }
        ensures list { IsListOf result.0 result.1 }
    {
        self.held.take_index(alloc)
    }

    /// Makes the page an index page with these page ids; `list` is `ChildList::of` the chain. The low key stays.
    pub fn put_index(&mut self, chain: Chain<Pid, A>, list: ChildList<A>)
        requires { IsListOf chain list }
        ensures { self.new ≡ Index (record { low = low_of self.old; layers = chain }) }
    {
        self.held.put_index(chain, list);
    }

    /// Returns whether this is an index page with a child whose low key is not above `key`: the condition of
    /// `child_for`.
    pub fn has_child_for(&self, key: &[u8]) -> bool
        ensures { IsTrue result ↔ HasChildFor self.now key.now }
    {
        self.last_child(key).is_some()
    }

    /// Returns the page id of the child whose range contains `key`. The last child's range is taken to have no end,
    /// because it ends where the page's own range does. Test with `has_child_for` first. Does not allocate.
    pub fn child_for(&self, key: &[u8]) -> Pid
        requires { HasChildFor self.now key.now }
        ensures { (end : Option Bytes) → is_before end key.now ≡ true →
            map (λ at. at.pid) (filter (is_place_for key.now)
            (children (child_entries self.now) end))
            ≡ result ∷ [] }
    {
        match self.last_child(key) {
            Some(child) => child.1,
            None => unreachable!(),
        }
    }

    /// Returns the page id of the child whose range contains `key`, and the end of that range: the next child's low
    /// key, or `None` for the last child, whose range ends where the page's own does. Test with `has_child_for` first.
    /// Does not allocate.
    pub fn child_with_end(&self, key: &[u8]) -> (Pid, Option<&[u8]>)
        requires { HasChildFor self.now key.now }
        ensures child { (result.0, option_copied result.1)
            ≡ child_with_end key.now (child_entries self.now) }
        ensures place { (end : Option Bytes) → is_before end key.now ≡ true →
            map {B = ℕ × Option Bytes} (λ at. (at.pid, at.end))
            (filter (is_place_for key.now) (children (child_entries self.now) end))
            ≡ (result.0, option_or (option_copied result.1) end) ∷ [] }
    {
        let Some(list) = self.child_list() else {
            unreachable!()
        };
        let count = count_up_to(list, key);
        match count.checked_sub(1) {
            Some(at) => (child_at(list, at).1, low_key_at(list, count)),
            None => unreachable!(),
        }
    }

    /// Returns the children whose ranges meet the bounds (at or above `lo`, below `hi`) in order, with their low keys
    /// and page ids. If no key lies between the bounds, it is the child in whose range `lo` is. Does not allocate.
    pub fn children<'a>(&'a self, lo: &'a [u8], hi: Option<&'a [u8]>) -> Children<'a, A>
        ensures { result
            ≡ children_within lo.now (option_copied hi.entry) (child_entries self.now) }
    {
        Children {
            page: self,
            end: hi,
            next: NextChild::For(lo),
        }
    }

    // The last child whose low key isn't above `key`.
    fn last_child<'a>(&'a self, key: &'a [u8]) -> Option<(&'a [u8], Pid)>
        ensures child { option_map (λ e. (e.0.now, e.1)) result
            ≡ floor key.now (child_entries self.now) }
        ensures rising { IsRising (child_entries self.now) }
    {
        let list = self.child_list()?;
        match count_up_to(list, key).checked_sub(1) {
            Some(at) => Some(child_at(list, at)),
            None => None,
        }
    }
}
