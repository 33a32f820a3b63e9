//! The state of an index page: its chain, and the list of its children.
ghost use Rattle.std.specs.Prelude.{◌≡◌};
ghost use Rattle.delta_chain.specs.Layers.{entries_of};
ghost use Rattle.index_page.specs.ChildList.{IsListOf};

use crate::child_list::ChildList;
use delta_chain::{Base, Chain};
use keys::Pid;
use std::alloc::Allocator;
use std::marker::Model;

/// The state of an index page: its chain of page ids, and the list of its children. Contracts see it as the chain.
#[derive(Drop)]
pub(crate) struct IndexState<A: Allocator> {
    chain: Chain<Pid, A>,
    list: ChildList<A>,
}

impl<A: Allocator> Model for IndexState<A> {
    ghost use Rattle.std.specs.Prelude.{ℕ};
    ghost use Rattle.delta_chain.specs.Layers.{Layers};
    ghost use Rattle.index_page.specs.ChildList.{IsListOf};

    ghost Value = { Layers ℕ };

    ghost view = { λ s. s.chain };

    ghost invariant = { λ s. IsListOf s.chain s.list };
}

impl<A: Allocator + Copy> IndexState<A> {
    pub(crate) fn new(chain: Chain<Pid, A>, list: ChildList<A>) -> Self
        requires { IsListOf chain list }
        ensures { result ≡ chain }
    {
        IndexState { chain, list }
    }

    pub(crate) fn chain(&self) -> &Chain<Pid, A>
        ensures { result.now ≡ self.now }
    {
        &self.chain
    }

    pub(crate) fn children(&self) -> &Base<Pid, A>
        ensures { result.now ≡ entries_of self.now }
    {
        self.list.children(&self.chain)
    }

    // Undoes `new`.
    pub(crate) fn into_parts(self) -> (Chain<Pid, A>, ChildList<A>)
        ensures chain { result.0 ≡ self }
        ensures list { IsListOf result.0 result.1 }
    {
        let IndexState { chain, list } = self;
        (chain, list)
    }
}
