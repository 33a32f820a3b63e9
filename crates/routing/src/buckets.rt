//! Sorts the entries of a batch by the first eight bytes of their keys. Random keys differ there, so it takes less time
//! to move each entry into its bucket and to sort the buckets than to sort all entries by comparisons.
ghost use Rattle.std.specs.Prelude.{◌≡◌, length};
ghost use Rattle.std.specs.List.Sorted.{IsPermutation};

use crate::sort::Keyed;
use std::alloc::{AllocError, Global};

// Fewer entries are not sorted by buckets, because comparisons take less time.
const LEAST_IN_BUCKETS: usize = 16;

// Divides the first words of keys into buckets of `1 << shift` words each, from the least word on.
#[derive(Clone, Copy)]
struct Widths {
    least: u64,
    shift: u32,
}

// The part of the list for the entries of one bucket ends at `end`. The entries from its start up to `next` belong to
// the bucket; those from `next` on may belong to others.
#[derive(Clone, Copy)]
struct Bucket {
    next: usize,
    end: usize,
}

impl Widths {
    // Returns widths with which these entries have at most as many buckets as entries, or `None` if there are few entries
    // or all first words are equal.
    fn of(keyed: &[Keyed<'_>]) -> Option<Widths> {
        if keyed.len() < LEAST_IN_BUCKETS {
            return None;
        }
        let mut least = u64::MAX;
        let mut greatest: u64 = 0;
        for entry in keyed {
            let word = entry.0.word();
            least = least.min(word);
            greatest = greatest.max(word);
        }
        if least >= greatest {
            return None;
        }
        let width = greatest.saturating_sub(least) / (keyed.len() as u64);
        let shift = 64u32.saturating_sub(width.leading_zeros()).min(63);
        Some(Widths { least, shift })
    }

    #[inline]
    fn bucket_of(self, entry: &Keyed<'_>) -> usize {
        (entry.0.word().saturating_sub(self.least) >> self.shift.min(63)) as usize
    }
}

/// Sorts the entries by key, and equal keys by place, or leaves them in another order: if there are few entries, if all
/// keys have the same first word, or if memory for the buckets runs out.
pub(crate) fn sort_by_buckets(alloc: Global, keyed: &mut [Keyed<'_>])
    ensures permutation { IsPermutation keyed.old keyed.new }
    ensures len { length keyed.new ≡ length keyed.old }
{
    let Some(widths) = Widths::of(keyed) else {
        return;
    };
    let Ok(mut buckets) = buckets_of(alloc, keyed, widths) else {
        return;
    };
    fill_each(keyed, widths, &mut buckets);
    sort_each(keyed, &buckets);
}

// Returns the buckets, each with its part of the list.
fn buckets_of(
    alloc: Global,
    keyed: &[Keyed<'_>],
    widths: Widths,
) -> Result<Vec<Bucket>, AllocError> {
    let none = Bucket { next: 0, end: 0 };
    let mut buckets: Vec<Bucket> = vec![in alloc; none; keyed.len()]?;
    for entry in keyed {
        count(&mut buckets, widths.bucket_of(entry));
    }
    set_parts(&mut buckets);
    Ok(buckets)
}

// Counts one more entry of this bucket in its `end`.
#[inline]
fn count(buckets: &mut [Bucket], bucket: usize)
    ensures { length buckets.new ≡ length buckets.old }
{
    if bucket < buckets.len() {
        buckets[bucket].end = buckets[bucket].end.saturating_add(1);
    }
}

// Replaces the number of entries of each bucket, which its `end` contains, by the bucket's part of the list.
fn set_parts(buckets: &mut [Bucket]) {
    let mut start: usize = 0;
    for bucket in buckets.iter_mut() {
        let end = start.saturating_add(bucket.end);
        *bucket = Bucket { next: start, end };
        start = end;
    }
}

fn fill_each(keyed: &mut [Keyed<'_>], widths: Widths, buckets: &mut [Bucket])
    ensures permutation { IsPermutation keyed.old keyed.new }
    ensures len { length keyed.new ≡ length keyed.old }
{
    for bucket in 0..buckets.len() {
        fill(keyed, widths, buckets, bucket);
    }
}

// Fills this bucket with its entries. Each entry that is in its place moves to its own bucket.
#[inline]
fn fill(keyed: &mut [Keyed<'_>], widths: Widths, buckets: &mut [Bucket], bucket: usize)
    ensures permutation { IsPermutation keyed.old keyed.new }
    ensures len { length keyed.new ≡ length keyed.old }
    ensures buckets { length buckets.new ≡ length buckets.old }
{
    for _step in 0..keyed.len() {
        if !move_next(keyed, widths, buckets, bucket) {
            return;
        }
    }
}

// Moves the next entry of this bucket's part into its own bucket. Returns false if there is none.
#[inline]
fn move_next(keyed: &mut [Keyed<'_>], widths: Widths, buckets: &mut [Bucket], bucket: usize) -> bool
    ensures permutation { IsPermutation keyed.old keyed.new }
    ensures len { length keyed.new ≡ length keyed.old }
    ensures buckets { length buckets.new ≡ length buckets.old }
{
    if bucket >= buckets.len() {
        return false;
    }
    let Bucket { next, end } = buckets[bucket];
    if next >= end || next >= keyed.len() {
        return false;
    }
    let own = widths.bucket_of(&keyed[next]);
    if own >= buckets.len() || buckets[own].next >= keyed.len() {
        return false;
    }
    let to = buckets[own].next;
    keyed.swap(next, to);
    buckets[own].next = to + 1;
    true
}

// Sorts the part of each bucket.
fn sort_each(keyed: &mut [Keyed<'_>], buckets: &[Bucket])
    ensures permutation { IsPermutation keyed.old keyed.new }
    ensures len { length keyed.new ≡ length keyed.old }
{
    let mut start: usize = 0;
    for bucket in buckets {
        sort_part(keyed, start, bucket.end);
        start = bucket.end;
    }
}

#[inline]
fn sort_part(keyed: &mut [Keyed<'_>], start: usize, end: usize)
    ensures permutation { IsPermutation keyed.old keyed.new }
    ensures len { length keyed.new ≡ length keyed.old }
{
    if start < end && end - start > 1 && end <= keyed.len() {
        keyed[start..end].sort_unstable();
    }
}
