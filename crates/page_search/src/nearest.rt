//! Search for the nearest entry on one side of a key.
ghost use Rattle.std.specs.Prelude.{◌≡◌, ◌+◌, ◌≤◌, true, length, min, is_some, Some, MatchOption};
ghost use Rattle.std.specs.Option.{option_copied, option_map};
ghost use Rattle.keys.specs.Bytes.{Bytes};
ghost use Rattle.keys.specs.Order.{AreRisingKeys};
ghost use Rattle.delta_chain.specs.Layers.{holds, entries_of, IsInOrder};
ghost use Rattle.page_search.specs.Above.{above};
ghost use Rattle.page_search.specs.Costs.{fewest_among, is_key_among, walk_most, walk_least, nearest_most, floor_most, above_most};
ghost use Rattle.page_search.specs.Digits.{binary_digits};
ghost use Rattle.page_search.specs.Floor.{floor};
ghost use Rattle.page_search.specs.Nearest.{named_under, named_by, IsNearest, HasNoneOn, IsNearestPlace, Parts};
ghost use Rattle.page_search.specs.declared.side.Side.TheVariants.{UpTo, Above};

use crate::probes::Probes;
use crate::search::place;
use crate::side::Side;
use delta_chain::{Chain, ChainRef, KeyList};
use keys::KeyRef;
use std::alloc::Allocator;

/// Returns the page's last entry whose key is not above `key`, with its cell, if there is one. One pass with a binary
/// search in each run and in the base finds the nearest key that they contain; if that key is deleted, another pass
/// continues below it. Does not allocate.
///
/// Increases `probes` by at least the minimum of one pass, and at most by one pass and one more for each deleted key
/// that is passed. So it takes a single pass if the nearest key contained is present, for example `key` itself.
pub fn floor<'a, V, A: Allocator + Copy>(
    chain: &'a Chain<V, A>,
    key: &[u8],
    probes: &mut Probes,
) -> Option<(&'a [u8], &'a V)>
    ensures value { option_map (λ e. (e.0.now, e.1.now)) result
        ≡ floor key.now (entries_of chain.now) }
    ensures cost { probes.new ≤ probes.old + floor_most key.now chain.now }
    ensures one_walk { (e : Bytes × V) →
        IsNearest UpTo key.now (named_by chain.now) (Some (e.0, Some e.1)) →
        probes.new ≤ probes.old + walk_most chain.now }
    ensures at_key { is_some (holds chain.now key.now) ≡ true →
        probes.new ≤ probes.old + walk_most chain.now }
    ensures least { min (probes.old + walk_least key.now chain.now) u64.MAX ≤ probes.new }
    ensures kept { probes.old ≤ probes.new }
{
    let _in_order = chain.depth();
    nearest(&chain.lent(), key, Side::UpTo, probes)
}

/// Returns the page's first entry whose key is above `key`, with its cell, if there is one. Like `floor` it takes one
/// pass for each contained key that it meets, here upwards. Does not allocate, and increases `probes` within the bounds
/// of `floor`.
pub fn above<'a, V, A: Allocator + Copy>(
    chain: &'a Chain<V, A>,
    key: &[u8],
    probes: &mut Probes,
) -> Option<(&'a [u8], &'a V)>
    ensures value { option_map (λ e. (e.0.now, e.1.now)) result
        ≡ above key.now (entries_of chain.now) }
    ensures cost { probes.new ≤ probes.old + above_most key.now chain.now }
    ensures one_walk { (e : Bytes × V) →
        IsNearest Above key.now (named_by chain.now) (Some (e.0, Some e.1)) →
        probes.new ≤ probes.old + walk_most chain.now }
    ensures least { min (probes.old + walk_least key.now chain.now) u64.MAX ≤ probes.new }
    ensures kept { probes.old ≤ probes.new }
{
    let _in_order = chain.depth();
    nearest(&chain.lent(), key, Side::Above, probes)
}

// The nearest entry on this side of `key`: that of the nearest key contained in the page, or if that key is deleted, of
// the next nearest one, and so on.
fn nearest<'a, V, A: Allocator + Copy>(
    lists: &ChainRef<'a, V, A>,
    key: &[u8],
    side: Side,
    probes: &mut Probes,
) -> Option<(&'a [u8], &'a V)>
    requires { IsInOrder lists.now }
    ensures value { IsNearest side key.now (holds lists.now)
        (option_map (λ e. (e.0.now, e.1.now)) result) }
    ensures cost { probes.new ≤ probes.old +
        nearest_most side key.now (option_map (λ e. (e.0.now, e.1.now)) result) lists.now }
    ensures one_walk { (e : Bytes × V) →
        IsNearest side key.now (named_by lists.now) (Some (e.0, Some e.1)) →
        probes.new ≤ probes.old + walk_most lists.now }
    ensures least { min (probes.old + walk_least key.now lists.now) u64.MAX ≤ probes.new }
    ensures kept { probes.old ≤ probes.new }
{
    let mut bound = key;
    let mut side = side;
    loop {
        let (found, said) = nearest_named(lists, bound, side, probes)?;
        if let Some(cell) = said {
            return Some((found.as_bytes(), cell));
        }
        bound = found.as_bytes();
        side = side.past();
    }
}

// The nearest key on this side that the runs or the base contain, and its item in the newest list that contains it: a
// cell, or a deletion.
fn nearest_named<'a, V, A: Allocator + Copy>(
    lists: &ChainRef<'a, V, A>,
    key: &[u8],
    side: Side,
    probes: &mut Probes,
) -> Option<(KeyRef<'a>, Option<&'a V>)>
    ensures value { IsNearest side key.now (λ i. named_under i lists.now.runs lists.now.base)
        (option_map (λ e. (e.0, option_copied e.1)) result) }
    ensures cost { probes.new ≤ probes.old + walk_most lists.now }
    ensures least { min (probes.old + walk_least key.now lists.now) u64.MAX ≤ probes.new }
    ensures kept { probes.old ≤ probes.new }
{
    let Some((run, below)) = lists.newest() else {
        let base = lists.base();
        let at = nearest_place(base, key, side, probes)?;
        return Some((KeyRef::new(base.key(at)), Some(base.cell(at))));
    };
    let under = nearest_named(&below, key, side, probes);
    let Some(at) = nearest_place(run, key, side, probes) else {
        return under;
    };
    let here = run.key_ref(at);
    match under {
        Some(other) if side.is_nearer(&other.0, &here, probes) => Some(other),
        _ => Some((here, run.change(at))),
    }
}

// The place of the list's nearest key on this side.
fn nearest_place<L: KeyList>(list: &L, key: &[u8], side: Side, probes: &mut Probes) -> Option<usize>
    ensures place { MatchOption result (HasNoneOn side key.now (L.keys list.now))
        (IsNearestPlace side key.now (L.keys list.now)) }
    ensures rising { AreRisingKeys (L.keys list.now) }
    ensures cost { probes.new ≤ probes.old + binary_digits (length (L.keys list.now)) }
    ensures least { min (probes.old
        + fewest_among (is_key_among key.now (L.keys list.now)) (length (L.keys list.now))) u64.MAX
        ≤ probes.new }
    ensures kept { probes.old ≤ probes.new }
{
    let count = list.len();
    let cut = partition_place(list, key, side, probes);
    match side {
        Side::Above if cut < count => Some(cut),
        Side::Above => None,
        Side::UpTo | Side::Below => cut.checked_sub(1),
    }
}

// The place that separates the keys on this side from the others: the first key above `key`, or for `Below`, the first
// key not below it.
fn partition_place<L: KeyList>(list: &L, key: &[u8], side: Side, probes: &mut Probes) -> usize
    ensures place { Parts side key.now (L.keys list.now) result }
    ensures cost { probes.new ≤ probes.old + binary_digits (length (L.keys list.now)) }
    ensures least { min (probes.old
        + fewest_among (is_key_among key.now (L.keys list.now)) (length (L.keys list.now))) u64.MAX
        ≤ probes.new }
    ensures kept { probes.old ≤ probes.new }
{
    // The length is read for its bound: a place among the keys is below it.
    let _count = list.len();
    match place(list, key, probes) {
        Ok(at) => match side {
            Side::UpTo | Side::Above => at + 1,
            Side::Below => at,
        },
        Err(at) => at,
    }
}
