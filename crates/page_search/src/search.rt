//! Binary search in pages and in lists of keys.
ghost use Rattle.std.specs.Prelude.{◌≡◌, ◌+◌, ◌≤◌, min, length, slice_get, is_some, Some, MatchResult};
ghost use Rattle.std.specs.Map.{keys_of};
ghost use Rattle.std.specs.Option.{option_copied};
ghost use Rattle.std.specs.Result.{is_ok};
ghost use Rattle.keys.specs.Order.{AreRisingKeys};
ghost use Rattle.keys.specs.OrderedMap.{value_at};
ghost use Rattle.delta_chain.specs.Layers.{holds};
ghost use Rattle.page_search.specs.Costs.{fewest_among, find_cost, find_least};
ghost use Rattle.page_search.specs.Digits.{binary_digits};
ghost use Rattle.page_search.specs.Places.{count_below, KeyGoesTo};

use crate::probes::Probes;
use delta_chain::{Base, Chain, ChainRef, KeyList};
use keys::KeyRef;
use std::alloc::Allocator;
use std::cmp::Ordering;

/// Returns how many keys of the base are below `key`: the place of the key, or the place where it would be inserted.
pub fn lower<V, A: Allocator + Copy>(base: &Base<V, A>, key: &[u8], probes: &mut Probes) -> usize
    ensures place { result ≡ count_below key.now (keys_of base.now) }
    ensures cost { probes.new ≤ probes.old + binary_digits (length base.now) }
    ensures least { min
        (probes.old + fewest_among (is_some (value_at key.now base.now)) (length base.now)) u64.MAX
        ≤ probes.new }
    ensures kept { probes.old ≤ probes.new }
{
    match place(base, key, probes) {
        Ok(at) => at,
        Err(at) => at,
    }
}

/// Returns the cell that the page holds at `key`, if it holds one: that of the newest run that contains the key, else
/// that of the base. Stops at the first run that contains the key. Does not allocate.
pub fn find<'a, V, A: Allocator + Copy>(
    chain: &'a Chain<V, A>,
    key: &[u8],
    probes: &mut Probes,
) -> Option<&'a V>
    ensures value { option_copied result ≡ holds chain.now key.now }
    ensures cost { probes.new ≤ probes.old + find_cost key.now chain.now }
    ensures least { min (probes.old + find_least key.now chain.now) u64.MAX ≤ probes.new }
    ensures kept { probes.old ≤ probes.new }
{
    find_lent(chain.lent(), key, probes)
}

// `find` in a borrowed page.
fn find_lent<'a, V, A: Allocator + Copy>(
    chain: ChainRef<'a, V, A>,
    key: &[u8],
    probes: &mut Probes,
) -> Option<&'a V>
    ensures value { option_copied result ≡ holds chain.entry key.now }
    ensures cost { probes.new ≤ probes.old + find_cost key.now chain.entry }
    ensures least { min (probes.old + find_least key.now chain.entry) u64.MAX ≤ probes.new }
    ensures kept { probes.old ≤ probes.new }
{
    let mut rest = chain;
    while let Some((run, below)) = rest.newest() {
        match place(run, key, probes) {
            Ok(at) => return run.change(at),
            Err(_) => rest = below,
        }
    }
    find_in_base(rest.base(), key, probes)
}

// The cell that the base has at `key`, if it has one.
fn find_in_base<'a, V, A: Allocator + Copy>(
    base: &'a Base<V, A>,
    key: &[u8],
    probes: &mut Probes,
) -> Option<&'a V>
    ensures value { option_copied result ≡ value_at key.now base.now }
    ensures cost { probes.new ≤ probes.old + binary_digits (length base.now) }
    ensures least { min
        (probes.old + fewest_among (is_some (value_at key.now base.now)) (length base.now)) u64.MAX
        ≤ probes.new }
    ensures kept { probes.old ≤ probes.new }
{
    match place(base, key, probes) {
        Ok(at) => Some(base.cell(at)),
        Err(_) => None,
    }
}

/// Returns `Ok` with the place of `key`, or `Err` with the place where it would be inserted. Each comparison at least
/// halves the remaining range, and a comparison that finds the key ends the search, so no final test for equality is
/// needed.
pub fn place<L: KeyList>(list: &L, key: &[u8], probes: &mut Probes) -> Result<usize, usize>
    ensures place { MatchResult result
        (λ at. slice_get (L.keys list.now) at ≡ Some key.now)
        (KeyGoesTo key.now (L.keys list.now)) }
    ensures rising { AreRisingKeys (L.keys list.now) }
    ensures cost { probes.new ≤ probes.old + binary_digits (length (L.keys list.now)) }
    ensures least { min
        (probes.old + fewest_among (is_ok result) (length (L.keys list.now))) u64.MAX
        ≤ probes.new }
    ensures kept { probes.old ≤ probes.new }
{
    let key = KeyRef::new(key);
    let mut low = 0;
    let mut high = list.len();
    while low < high {
        let middle = low + (high - low) / 2;
        match probes.compare_at(list, middle, &key) {
            Ordering::Less => low = middle + 1,
            Ordering::Equal => return Ok(middle),
            Ordering::Greater => high = middle,
        }
    }
    Err(low)
}
