//! Edges between keys, where ranges begin and end.
ghost use Rattle.std.specs.Prelude.{◌≡◌, count_by};
ghost use Rattle.std.specs.Option.{option_copied};
ghost use Rattle.keys.specs.Bytes.{Bytes};
ghost use Rattle.keys.specs.Order.{AreRisingKeys};
ghost use Rattle.keys.specs.Range.{is_below};
ghost use Rattle.page_search.specs.Places.{count_below};
ghost use Rattle.scan.specs.Edge.{is_under, IsEdgeAt, IsPrefixSplit, count_up_to};

use delta_chain::KeyList;
use keys::compare;
use page_search::{Probes, place};

/// A place between keys: each key is below the edge or above it.
#[derive(Clone, Copy)]
pub enum Edge<'a> {
    /// Below all keys.
    Low,
    /// Between this key and all smaller keys.
    Before(&'a [u8]),
    /// Between this key and all greater keys.
    After(&'a [u8]),
    /// Between the keys that begin with these bytes and all greater keys.
    AfterPrefix(&'a [u8]),
    /// Above all keys.
    High,
}

// Whether `key` is below the edge.
#[inline]
pub(crate) fn is_under(edge: &Edge<'_>, key: &[u8]) -> bool
    ensures { result ≡ is_under edge.now key.now }
{
    match edge {
        Edge::Low => false,
        Edge::Before(end) => compare(key, end).is_lt(),
        Edge::After(end) => !compare(end, key).is_lt(),
        Edge::AfterPrefix(prefix) => compare(key, prefix).is_lt() || key.starts_with(prefix),
        Edge::High => true,
    }
}

// How many keys of the list are below the edge. Takes a binary search.
pub(crate) fn count_under<L: KeyList>(list: &L, edge: &Edge<'_>) -> usize
    ensures count { result ≡ count_by (is_under edge.now) (L.keys list.now) }
    ensures rising { AreRisingKeys (L.keys list.now) }
{
    let count = list.len();
    match edge {
        Edge::Low => 0,
        Edge::Before(key) => place_from(list, key),
        Edge::After(key) => place_after(list, key),
        Edge::AfterPrefix(prefix) => place_after_prefix(list, prefix),
        Edge::High => count,
    }
}

// The place of the first key that is not below `key`. Takes a binary search, or nothing for the empty key, which is the
// least.
pub(crate) fn place_from<L: KeyList>(list: &L, key: &[u8]) -> usize
    ensures place { result ≡ count_below key.now (L.keys list.now) }
    ensures rising { AreRisingKeys (L.keys list.now) }
{
    let _count = list.len();
    if key.is_empty() {
        return 0;
    }
    match place(list, key, &mut Probes::new()) {
        Ok(at) => at,
        Err(at) => at,
    }
}

// The place of the first key above `key`.
fn place_after<L: KeyList>(list: &L, key: &[u8]) -> usize
    ensures { result ≡ count_up_to key.now (L.keys list.now) }
{
    let _count = list.len();
    match place(list, key, &mut Probes::new()) {
        Ok(at) => at + 1,
        Err(at) => at,
    }
}

// The place of the first key that is above all keys with this prefix. The keys with the prefix are neighbours.
fn place_after_prefix<L: KeyList>(list: &L, prefix: &[u8]) -> usize
    ensures { IsPrefixSplit prefix.now (L.keys list.now) result }
{
    let mut low = place_from(list, prefix);
    let mut high = list.len();
    while low < high {
        let middle = low + (high - low) / 2;
        if list.key(middle).starts_with(prefix) {
            low = middle + 1;
        } else {
            high = middle;
        }
    }
    low
}

// The edge below all keys that are not below `lo`. The empty key is the least.
#[inline]
pub(crate) fn lower_edge(lo: &[u8]) -> Edge<'_>
    ensures { (k : Bytes) → is_under result k ≡ is_below k lo.entry.now }
{
    if lo.is_empty() {
        Edge::Low
    } else {
        Edge::Before(lo)
    }
}

#[inline]
pub(crate) fn upper_edge<'b>(hi: Option<&'b [u8]>) -> Edge<'b>
    ensures { IsEdgeAt (option_copied hi.entry) (is_under result) }
{
    match hi {
        Some(hi) => Edge::Before(hi),
        None => Edge::High,
    }
}
