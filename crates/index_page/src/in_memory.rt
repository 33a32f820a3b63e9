//! The representation of a page in memory.
ghost use Rattle.std.specs.Prelude.{◌≡◌, ◌≤◌, length, min, MatchOption, OnOk, OnErr};
ghost use Rattle.delta_chain.specs.Layers.{entries_of, with_run};
ghost use Rattle.index_page.specs.ChildList.{IsListOf};
ghost use Rattle.index_page.specs.Children.{child_entries};
ghost use Rattle.index_page.specs.InMemory.{page_shown, lazy_of, prepended};
ghost use Rattle.index_page.specs.InMemory.InMemory.{LeafInMemory, IndexInMemory};
ghost use Rattle.index_page.specs.Page.{low_of, IsLeaf, IsIndex};

use crate::child_list::ChildList;
use crate::index_state::IndexState;
use delta_chain::{Base, Chain, EntryBounds, LazyChain, Run};
use keys::{Key, Pid, Value};
use std::alloc::{AllocError, Allocator};
use std::marker::Model;
use std::mem;

/// The representation of a page in memory: its low key and a chain; in a leaf, some runs of the chain may count as
/// merged into the base. Code that changes pages or makes new ones uses this type; all other code uses the `Page` that
/// it represents.
#[derive(Drop)]
pub struct PageInMemory<A: Allocator> {
    low: Key<A>,
    state: State<A>,
}

#[derive(Drop)]
enum State<A: Allocator> {
    Values(LazyChain<Value<A>, A>),
    Pids(IndexState<A>),
}

impl<A: Allocator> Model for PageInMemory<A> {
    ghost use Rattle.index_page.specs.InMemory.{InMemory};
    ghost use Rattle.index_page.specs.Stated.{in_memory};

    ghost Value = { InMemory };

    ghost view = { λ p. in_memory p.low p.state };
}

impl<A: Allocator + Copy> PageInMemory<A> {
    // Makes a leaf with this low key and these values.
    pub(crate) fn leaf(low: Key<A>, chain: LazyChain<Value<A>, A>) -> Self
        ensures { result ≡ LeafInMemory low chain }
    {
        PageInMemory {
            low,
            state: State::Values(chain),
        }
    }

    // Makes an index page with this low key, the page ids of its children, and the list of its children.
    pub(crate) fn index(low: Key<A>, chain: Chain<Pid, A>, list: ChildList<A>) -> Self
        requires { IsListOf chain list }
        ensures { result ≡ IndexInMemory low chain }
    {
        PageInMemory {
            low,
            state: State::Pids(IndexState::new(chain, list)),
        }
    }

    /// Returns the bytes of the low key.
    pub fn low(&self) -> &[u8]
        ensures { result.now ≡ low_of (page_shown self.now) }
    {
        self.low.as_bytes()
    }

    /// Returns the values if this is a leaf.
    pub fn as_leaf(&self) -> Option<&LazyChain<Value<A>, A>>
        ensures { MatchOption result (IsIndex (page_shown self.now))
            (λ chain. self.now ≡ LeafInMemory (low_of (page_shown self.now)) chain.now) }
    {
        match &self.state {
            State::Values(chain) => Some(chain),
            State::Pids(_) => None,
        }
    }

    /// Returns the page ids of the children if this is an index page.
    pub fn as_index(&self) -> Option<&Chain<Pid, A>>
        ensures { MatchOption result (IsLeaf (page_shown self.now))
            (λ chain. self.now ≡ IndexInMemory (low_of (page_shown self.now)) chain.now) }
    {
        match &self.state {
            State::Values(_) => None,
            State::Pids(state) => Some(state.chain()),
        }
    }

    /// Returns the children's low keys and page ids in one list, in order, if this is an index page.
    pub fn child_list(&self) -> Option<&Base<Pid, A>>
        ensures { MatchOption result (IsLeaf (page_shown self.now))
            (λ list. (list.now ≡ child_entries (page_shown self.now))
            × IsIndex (page_shown self.now)) }
    {
        match &self.state {
            State::Values(_) => None,
            State::Pids(state) => Some(state.children()),
        }
    }

    /// Adds `run` to a leaf as the newest one, and tightens the bounds on its number of entries to `known`. If
    /// allocation fails, the leaf is unchanged. Test with `as_leaf` first.
    pub fn prepend(&mut self, run: Run<Value<A>, A>, known: EntryBounds) -> Result<(), AllocError>
        requires leaf { IsLeaf (page_shown self.old) }
        requires fewest { known.fewest ≤ length (with_run (entries_of (lazy_of self.old).chain) run) }
        requires most { min (length (with_run (entries_of (lazy_of self.old).chain) run)) usize.MAX
            ≤ known.most }
        ensures ok { OnOk result (self.new ≡ prepended self.old run) }
        ensures err { OnErr result (self.new ≡ self.old) }
    {
        match &mut self.state {
            State::Values(chain) => match chain.prepend(run) {
                Ok(()) => {
                    chain.bound(known);
                    Ok(())
                }
                Err(_refused) => Err(AllocError),
            },
            State::Pids(_) => unreachable!(),
        }
    }

    /// Takes the values out of a leaf, to be replaced by `put_leaf`. Test with `as_leaf` first. Does not allocate.
    pub fn take_leaf(&mut self, alloc: A) -> LazyChain<Value<A>, A>
        requires { IsLeaf (page_shown self.old) }
        ensures values { self.old ≡ LeafInMemory (low_of (page_shown self.old)) result }
        ensures low { low_of (page_shown self.new) ≡ low_of (page_shown self.old) }
    {
        let none = LazyChain::of(Chain::of_base(Base::empty(alloc)));
        match &mut self.state {
            State::Values(chain) => mem::replace(chain, none),
            State::Pids(_) => unreachable!(),
        }
    }

    /// Makes the page a leaf with these values. The low key stays.
    pub fn put_leaf(&mut self, chain: LazyChain<Value<A>, A>)
        ensures { self.new ≡ LeafInMemory (low_of (page_shown self.old)) chain }
    {
        self.state = State::Values(chain);
    }

    // Takes the page ids and the list of children out of an index page, to be replaced by `put_index`.
    pub(crate) fn take_index(&mut self, alloc: A) -> (Chain<Pid, A>, ChildList<A>)
        requires { IsIndex (page_shown self.old) }
        ensures page { self.old ≡ IndexInMemory (low_of (page_shown self.old)) result.0 }
        ensures low { low_of (page_shown self.new) ≡ low_of (page_shown self.old) }
        ensures list { IsListOf result.0 result.1 }
    {
        let none = IndexState::new(Chain::of_base(Base::empty(alloc)), ChildList::none());
        match &mut self.state {
            State::Values(_) => unreachable!(),
            State::Pids(state) => mem::replace(state, none).into_parts(),
        }
    }

    // Makes the page an index page with these page ids and the list of children of `chain`. The low key stays.
    pub(crate) fn put_index(&mut self, chain: Chain<Pid, A>, list: ChildList<A>)
        requires { IsListOf chain list }
        ensures { self.new ≡ IndexInMemory (low_of (page_shown self.old)) chain }
    {
        self.state = State::Pids(IndexState::new(chain, list));
    }
}
