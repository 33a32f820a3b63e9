//! The children of an index page in one list.
ghost use Rattle.std.specs.Prelude.{◌≡◌, ◌<◌, [], None, Some, length, slice_get, IfOk, MatchOption};
ghost use Rattle.std.specs.Option.{option_copied, option_map};
ghost use Rattle.keys.specs.Order.{IsRising};
ghost use Rattle.delta_chain.specs.Layers.{entries_of};
ghost use Rattle.index_page.specs.ChildList.{IsListOf, IsCountUpTo};
ghost use Rattle.index_page.specs.Children.{children_within};
ghost use Rattle.index_page.specs.NextChild.{PassesOne, left_at};

use delta_chain::{Base, Chain};
use keys::{Pid, is_before};
use page_search::{Probes, place};
use std::alloc::{AllocError, Allocator};
use std::marker::Model;

/// The present children of an index page in one list, kept beside the page's runs, so that one binary search finds a
/// child. A page without runs stores no such list, because its base is one. Contracts see it as that list, or none.
#[derive(Drop)]
pub struct ChildList<A: Allocator> {
    listed: Option<Box<Base<Pid, A>, A>>,
}

impl<A: Allocator> Model for ChildList<A> {
    ghost use Rattle.std.specs.Prelude.{Option};
    ghost use Rattle.std.specs.Option.{option_map};
    ghost use Rattle.keys.specs.Bytes.{Separators};

    ghost Value = { Option Separators };

    ghost view = { λ c. option_map (λ list. list.value) c.listed };
}

impl<A: Allocator + Copy> ChildList<A> {
    /// Returns no list, for a page without runs.
    pub fn none() -> Self
        ensures { result ≡ None }
    {
        ChildList { listed: None }
    }

    /// Returns the list of the children in `chain`, or no list if the chain has no runs. `Err` means that allocation
    /// failed.
    pub fn of(alloc: A, chain: &Chain<Pid, A>) -> Result<Self, AllocError>
        ensures { IfOk result (λ list. IsListOf chain.now list) }
    {
        if chain.depth() == 0 {
            return Ok(ChildList::none());
        }
        ChildList::of_runs(alloc, chain)
    }

    fn of_runs(alloc: A, chain: &Chain<Pid, A>) -> Result<Self, AllocError>
        ensures { IfOk result (λ list. IsListOf chain.now list) }
    {
        let pairs = chain.pairs(alloc)?;
        let children = pairs.copied_base(alloc)?;
        let listed = Box::new(alloc, children)?;
        Ok(ChildList {
            listed: Some(listed),
        })
    }

    // The children in one list: this list, or the base of a page without runs.
    pub(crate) fn children<'a>(&'a self, chain: &'a Chain<Pid, A>) -> &'a Base<Pid, A>
        requires { IsListOf chain.now self.now }
        ensures { result.now ≡ entries_of chain.now }
    {
        match &self.listed {
            Some(list) => list,
            None => chain.base(),
        }
    }
}

/// How many of the children have low keys at or below `key`. Takes one binary search.
pub(crate) fn count_up_to<A: Allocator + Copy>(list: &Base<Pid, A>, key: &[u8]) -> usize
    ensures count { IsCountUpTo key.now list.now result }
    ensures rising { IsRising list.now }
{
    let _rising = list.len();
    match place(list, key, &mut Probes::new()) {
        Ok(at) => at + 1,
        Err(at) => at,
    }
}

/// The low key and the page id of the child at place `at`.
pub(crate) fn child_at<A: Allocator + Copy>(list: &Base<Pid, A>, at: usize) -> (&[u8], Pid)
    requires { at < length list.now }
    ensures { slice_get list.now at ≡ Some (result.0.now, result.1) }
{
    (list.key(at), *list.cell(at))
}

/// The low key of the child at place `at`, if there is one.
pub(crate) fn low_key_at<A: Allocator + Copy>(list: &Base<Pid, A>, at: usize) -> Option<&[u8]>
    ensures { option_copied result ≡ option_map (λ e. e.0) (slice_get list.now at) }
{
    if at < list.len() {
        Some(list.key(at))
    } else {
        None
    }
}

/// The place after the first child whose range meets the bounds (at or above `lo`, below `hi`), if there is one. If no
/// key lies between the bounds, it is the place after the child in whose range `lo` is.
pub(crate) fn after_first<A: Allocator + Copy>(
    list: &Base<Pid, A>,
    lo: &[u8],
    hi: Option<&[u8]>,
) -> Option<usize>
    ensures { MatchOption result (children_within lo.now (option_copied hi.entry) list.now ≡ [])
        (PassesOne (option_copied hi.entry) list.now
        (children_within lo.now (option_copied hi.entry) list.now)) }
{
    let count = count_up_to(list, lo);
    if count == 0 {
        return after_next(list, 0, hi);
    }
    Some(count)
}

/// The next place, if there is a child at this one that begins before the end.
pub(crate) fn after_next<A: Allocator + Copy>(
    list: &Base<Pid, A>,
    at: usize,
    end: Option<&[u8]>,
) -> Option<usize>
    ensures { MatchOption result (left_at at (option_copied end.entry) list.now ≡ [])
        (PassesOne (option_copied end.entry) list.now
        (left_at at (option_copied end.entry) list.now)) }
{
    if at >= list.len() || !is_before(end, list.key(at)) {
        return None;
    }
    Some(at + 1)
}
