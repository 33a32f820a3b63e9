//! Counters for places, summed by groups of places.
ghost use Rattle.std.specs.Prelude.{◌≡◌, ◌≢◌, ◌⊎◌, ℕ, ◌+◌, ◌-◌, ◌/◌, ◌^◌, ◌<◌, ◌≤◌, length, min, replicate, slice_index, IfOk};
ghost use Rattle.scan.specs.RankCounter.{IsOneMore, AreWide, counted};

use std::alloc::{AllocError, Global};
use std::marker::Model;

// The number of places in a group, which has one counter on the level above.
const WIDTH: usize = 16;

/// For each place, how many recorded places precede it in its group of 16. Contracts see it as the list of these
/// numbers.
#[derive(Drop)]
pub(crate) struct Level {
    counts: Vec<usize>,
}

impl Model for Level {
    ghost use Rattle.std.specs.Prelude.{List, ℕ};

    ghost Value = { List ℕ };

    ghost view = { λ l. l.counts.items };
}

impl Level {
    fn new(alloc: Global, places: usize) -> Result<Self, AllocError>
        ensures { IfOk result (λ level. level ≡ replicate places 0) }
    {
        Ok(Level {
            counts: vec![in alloc; 0; places]?,
        })
    }

    fn at(&self, place: usize) -> usize
        ensures { result ≡ slice_index self.now place }
    {
        self.counts.get(place).copied().unwrap_or(0)
    }

    // Records `place`: increments the counters of all later places in its group.
    fn note(&mut self, place: usize)
        ensures length { length self.new ≡ length self.old }
        ensures after { (at : ℕ) → place < at → at < length self.old → at / 16 ≡ place / 16
            → slice_index self.old at < 2 ^ 64 - 1
            → slice_index self.new at ≡ slice_index self.old at + 1 }
        ensures others { (at : ℕ) → at < length self.old → (at ≤ place) ⊎ (at / 16 ≢ place / 16)
            → slice_index self.new at ≡ slice_index self.old at }
    {
        let end = (place / WIDTH + 1)
            .saturating_mul(WIDTH)
            .min(self.counts.len());
        raise(&mut self.counts, place.saturating_add(1), end);
    }
}

fn raise(counts: &mut [usize], from: usize, end: usize)
    requires { end ≤ length counts.old }
    ensures length { length counts.new ≡ length counts.old }
    ensures raised { (at : ℕ) → from ≤ at → at < end → slice_index counts.old at < 2 ^ 64 - 1
        → slice_index counts.new at ≡ slice_index counts.old at + 1 }
    ensures others { (at : ℕ) → (at < from) ⊎ (end ≤ at)
        → slice_index counts.new at ≡ slice_index counts.old at }
{
    for at in from..end {
        counts[at] = counts[at].saturating_add(1);
    }
}

/// Returns the levels over this many places, with no place recorded: one for the places, one for their groups, one for
/// the groups of these, and so on, up to a single counter.
pub(crate) fn levels_over(alloc: Global, places: usize) -> Result<Vec<Level>, AllocError>
    ensures wide { IfOk result (λ levels. AreWide places levels.items) }
    ensures none { IfOk result (λ levels. (at : ℕ) → counted levels.items at ≡ 0) }
{
    let mut levels = Vec::new(alloc);
    let mut wide = places;
    while wide > 1 {
        levels.push(Level::new(alloc, wide)?)?;
        wide = (wide - 1) / WIDTH + 1;
    }
    Ok(levels)
}

/// Records `place` on each level; its group is a place of the next level. Each level has a sixteenth of the places of
/// the one below, so the recursion is shallow.
pub(crate) fn add_at(levels: &mut [Level], place: usize)
    ensures length { length levels.new ≡ length levels.old }
    ensures wide { (places : ℕ) → AreWide places levels.old → AreWide places levels.new }
    ensures counted { (places most at : ℕ) → AreWide places levels.old
        → place < places → at < places
        → ((each : ℕ) → each < places → counted levels.old each ≤ most) → most < 2 ^ 64 - 1
        → IsOneMore place at (counted levels.old at) (counted levels.new at) }
{
    if let Some((level, above)) = levels.split_first_mut() {
        level.note(place);
        add_at(above, place / WIDTH);
    }
}

/// Returns how many recorded places precede `place`.
pub(crate) fn count_before(levels: &[Level], place: usize) -> usize
    ensures { result ≡ min (counted levels.now place) (2 ^ 64 - 1) }
{
    match levels.split_first() {
        Some((level, above)) => level
            .at(place)
            .saturating_add(count_before(above, place / WIDTH)),
        None => 0,
    }
}
