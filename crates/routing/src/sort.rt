//! The places of a batch's commands, sorted by their keys.
ghost use Rattle.std.specs.Prelude.{◌≡◌, ◌+◌, ◌^◌, ◌<◌, ◌≤◌, ◌++◌, length, true, false, take, drop, IfOk};
ghost use Rattle.std.specs.List.{AllByRecursion, range_with_len};
ghost use Rattle.std.specs.Thread.{IsSync};
ghost use Rattle.std.specs.List.Sorted.{IsPermutation, IsSorted, IsNonDecreasing, IsPartitionedBy};
ghost use Rattle.std.specs.Ordering.{nat_cmp, ordering_then};
ghost use Rattle.keys.specs.Order.{order};
ghost use Rattle.routing.specs.Keyed.{places_of, AreKeyed, has_key_below};
ghost use Rattle.routing.specs.SortedPlaces.{AreSortedPlaces};

use crate::batch::BatchWithEnds;
use crate::buckets::sort_by_buckets;
use keys::KeyRef;
use rayon::prelude::*;
use smallvec::SmallVec;
use std::alloc::{AllocError, Global};
use std::thread::{Threads, join};

// No thread is started for fewer commands than this: starting it, or even counting the processors, would take longer.
const LEAST_SHARED: usize = 4096;

/// A command's key, and its place in the batch. With the key beside the place, a comparison need not load the command.
pub(crate) type Keyed<'a> = (KeyRef<'a>, usize);

/// Returns the places of a batch's commands, counted from 0, sorted by key and then by place, each beside its key. The
/// workers share making the list; the sort uses a thread for each processor.
pub(crate) fn sorted_places<'a>(
    rt: &(impl Threads + Sync),
    workers: usize,
    alloc: Global,
    batch: &BatchWithEnds<'a>,
) -> Result<Vec<Keyed<'a>>, AllocError>
    ensures sorted { IfOk result (λ keyed. AreSortedPlaces batch.now (places_of keyed.items)) }
    ensures keys { IfOk result (λ keyed. AreKeyed batch.now keyed.items) }
{
    let mut keyed = keyed_places(rt, workers, alloc, batch, 0, batch.len())?;
    sort_keyed(rt, workers, alloc, &mut keyed);
    Ok(keyed)
}

/// How many of these workers share a batch of `count` commands.
pub(crate) fn sharing(workers: usize, count: usize) -> usize {
    workers.min(count.div_ceil(LEAST_SHARED))
}

// Sorts by key, and equal keys by place. A single worker first tries buckets.
fn sort_keyed(rt: &(impl Threads + Sync), workers: usize, alloc: Global, keyed: &mut [Keyed<'_>])
    ensures permutation { IsPermutation keyed.old keyed.new }
    ensures len { length keyed.new ≡ length keyed.old }
    ensures sorted { IsSorted (λ x y. ordering_then (order x.0 y.0) (nat_cmp x.1 y.1)) keyed.new }
{
    if keyed.is_sorted() {
        return;
    }
    if workers > 1 {
        par_sort_unstable(rt, keyed);
        return;
    }
    sort_by_buckets(alloc, keyed);
    if !keyed.is_sorted() {
        keyed.sort_unstable();
    }
}

// The keys of `count` commands from place `from` on, each with its place, in batch order. The workers share them: the
// function recurses once for each halving of the workers.
#[cycle(keyed)]
fn keyed_places<'a, R: Threads + Sync>(
    rt: &R,
    workers: usize,
    alloc: Global,
    batch: &BatchWithEnds<'a>,
    from: usize,
    count: usize,
) -> Result<Vec<Keyed<'a>>, AllocError>
    requires { from + count < 2 ^ 64 }
    ensures places { IfOk result (λ keyed. places_of keyed.items ≡ range_with_len from count) }
    ensures keys { IfOk result (λ keyed. AreKeyed batch.now keyed.items) }
{
    if workers < 2 {
        return keyed_in_turn(alloc, batch, from, count);
    }
    let few = workers / 2;
    let others = workers - few;
    let low = count / 2;
    let high = count - low;
    let mid = from + low;
    let front = || -> Result<Vec<Keyed<'_>>, AllocError>
        requires { IsSync R.row × (from + low < 2 ^ 64) }
        ensures places { IfOk result (λ keyed. places_of keyed.items ≡ range_with_len from low) }
        ensures keys { IfOk result (λ keyed. AreKeyed batch.entry.now keyed.items) }
    { keyed_places(rt, few, alloc, batch, from, low) };
    let back = || -> Result<Vec<Keyed<'_>>, AllocError>
        requires { IsSync R.row × (mid + high < 2 ^ 64) }
        ensures places { IfOk result (λ keyed. places_of keyed.items ≡ range_with_len mid high) }
        ensures keys { IfOk result (λ keyed. AreKeyed batch.entry.now keyed.items) }
    { keyed_places(rt, others, alloc, batch, mid, high) };
    let (low, high) = join(rt, front, back);
    let mut keyed = low?;
    let mut rest = high?;
    keyed.append(&mut rest)?;
    Ok(keyed)
}

// `keyed_places` on one thread.
fn keyed_in_turn<'a>(
    alloc: Global,
    batch: &BatchWithEnds<'a>,
    from: usize,
    count: usize,
) -> Result<Vec<Keyed<'a>>, AllocError>
    requires { from + count < 2 ^ 64 }
    ensures places { IfOk result (λ keyed. places_of keyed.items ≡ range_with_len from count) }
    ensures keys { IfOk result (λ keyed. AreKeyed batch.now keyed.items) }
{
    let mut keyed = Vec::with_capacity(alloc, count)?;
    for at in 0..count {
        let place = from + at;
        keyed.push((KeyRef::new(batch.key_at(place)), place))?;
    }
    Ok(keyed)
}

/// Returns how many of these entries have keys below `key`; they must come first. Uses galloping and then binary
/// search, because mostly few entries of a long list are below. A descent gives a child the entries before the end of
/// its range.
pub(crate) fn count_below(keyed: &[Keyed<'_>], key: &[u8]) -> usize
    requires { IsPartitionedBy (has_key_below key.now) keyed.now }
    ensures most { result ≤ length keyed.now }
    ensures below { AllByRecursion
        (λ entry. has_key_below key.now entry ≡ true) (take result keyed.now) }
    ensures others { AllByRecursion
        (λ entry. has_key_below key.now entry ≡ false) (drop result keyed.now) }
{
    let bound = KeyRef::new(key);
    let (low, high) = bounds_of_count(keyed, &bound);
    let between = &keyed[low..high];
    low + between.partition_point(
        |entry: &Keyed<'_>| -> bool
            ensures { result ≡ has_key_below bound.entry entry.now }
        { has_key_below(entry, &bound) },
    )
}

// Bounds of the count: the entries before the first bound are below the key, and those from the second on are not.
fn bounds_of_count(keyed: &[Keyed<'_>], key: &KeyRef<'_>) -> (usize, usize)
    requires { IsPartitionedBy (has_key_below key.now) keyed.now }
    ensures order { result.0 ≤ result.1 }
    ensures most { result.1 ≤ length keyed.now }
    ensures below { AllByRecursion
        (λ entry. has_key_below key.now entry ≡ true) (take result.0 keyed.now) }
    ensures others { AllByRecursion
        (λ entry. has_key_below key.now entry ≡ false) (drop result.1 keyed.now) }
{
    let mut low = 0;
    let mut high = 0;
    while high < keyed.len() && has_key_below(&keyed[high], key) {
        low = high + 1;
        high += low;
    }
    (low, high.min(keyed.len()))
}

fn has_key_below(entry: &Keyed<'_>, key: &KeyRef<'_>) -> bool
    ensures { result ≡ has_key_below key.now entry.now }
{
    entry.0.compare(key).is_lt()
}

/// Returns the places of `keyed` and the places `reaching`, merged into batch order: together they are the places of a
/// page's run.
pub(crate) fn in_batch_order(
    alloc: Global,
    keyed: &[Keyed<'_>],
    reaching: &[usize],
) -> Result<Vec<usize>, AllocError>
    ensures same { IfOk result
        (λ sorted. IsPermutation (places_of keyed.now ++ reaching.now) sorted.items) }
    ensures rising { IfOk result (λ sorted. IsNonDecreasing sorted.items) }
{
    let mut sorted: Vec<usize> = keyed.iter().map(|entry| entry.1).collect(alloc)?;
    sorted.extend_from_slice(reaching)?;
    sorted.sort_unstable();
    Ok(sorted)
}

/// Returns the places of these entries, in their order.
pub(crate) fn in_key_order(
    alloc: Global,
    keyed: &[Keyed<'_>],
) -> Result<SmallVec<usize, 4>, AllocError>
    ensures { IfOk result (λ places. places.items ≡ places_of keyed.now) }
{
    keyed.iter().map(|entry| entry.1).collect(alloc)
}
