//! Counts keys that are recorded one by one.
ghost use Rattle.std.specs.Prelude.{◌≡◌, [], ◌∷◌, ◌++◌, List, ℕ, ◌-◌, ◌^◌, ◌<◌, ◌≤◌, not, length, Contains, IfOk};
ghost use Rattle.std.specs.List.Sorted.{IsPermutation, IsSorted};
ghost use Rattle.keys.specs.Bytes.{Bytes};
ghost use Rattle.keys.specs.Order.{order};
ghost use Rattle.keys.specs.Range.{is_below};
ghost use Rattle.scan.specs.RankCounter.{IsTally, below, up_to};

use crate::level::{Level, add_at, count_before, levels_over};
use keys::KeyRef;
use std::alloc::{AllocError, Global};
use std::marker::Model;

/// Counts how many of the keys recorded so far are below a key. All keys that may be recorded are known in advance and
/// sorted, so each has a place. Recording a key and counting the smaller ones take one binary search each. Contracts
/// see it as the known keys and the counters of their places.
#[derive(Drop)]
pub(crate) struct RankCounter<'c> {
    keys: Vec<KeyRef<'c>>,
    levels: Vec<Level>,
}

impl<'c> Model for RankCounter<'c> {
    ghost use Rattle.scan.specs.RankCounter.{RankCounter};

    ghost Value = { RankCounter };

    ghost view = { λ t. (t.keys.items, t.levels.items) };
}

impl<'c> RankCounter<'c> {
    /// A counter of these keys, none of which is recorded yet.
    pub(crate) fn new(alloc: Global, keys: Vec<KeyRef<'c>>) -> Result<Self, AllocError>
        ensures none { IfOk result (λ t. IsTally [] t) }
        ensures same { IfOk result (λ t. IsPermutation keys.entry.items t.0) }
    {
        let mut keys = keys;
        keys.sort_unstable();
        let levels = levels_over(alloc, keys.len() + 1)?;
        Ok(RankCounter { keys, levels })
    }

    /// Records `key`, which must be one of the known keys.
    pub(crate) fn note(&mut self, key: &[u8])
        ensures keys { self.new.0 ≡ self.old.0 }
        ensures came { (came : List Bytes) → IsTally came self.old → Contains self.old.0 key.now
            → length came < 2 ^ 64 - 1 → IsTally (came ++ key.now ∷ []) self.new }
    {
        let place = place_below(&self.keys, &KeyRef::new(key));
        add_at(&mut self.levels, place);
    }

    pub(crate) fn below(&self, key: &KeyRef<'_>) -> usize
        ensures { (came : List Bytes) → IsTally came self.now → length came ≤ 2 ^ 64 - 1
            → result ≡ below key.now came }
    {
        count_before(&self.levels, place_below(&self.keys, key))
    }

    pub(crate) fn up_to(&self, key: &KeyRef<'_>) -> usize
        ensures { (came : List Bytes) → IsTally came self.now → length came ≤ 2 ^ 64 - 1
            → result ≡ up_to key.now came }
    {
        count_before(&self.levels, place_after(&self.keys, key))
    }
}

fn place_below(keys: &[KeyRef<'_>], key: &KeyRef<'_>) -> usize
    ensures { IsSorted order keys.now → result ≡ below key.now keys.now }
{
    keys.partition_point(
        |other: &KeyRef<'_>| -> bool
            ensures { result ≡ is_below other.now key.entry.now }
        { other.compare(key).is_lt() },
    )
}

fn place_after(keys: &[KeyRef<'_>], key: &KeyRef<'_>) -> usize
    ensures { IsSorted order keys.now → result ≡ up_to key.now keys.now }
{
    keys.partition_point(
        |other: &KeyRef<'_>| -> bool
            ensures { result ≡ not (is_below key.entry.now other.now) }
        { !key.compare(other).is_lt() },
    )
}
