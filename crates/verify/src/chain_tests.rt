//! Checks of the runs and the base of a page: the range of the keys, and the sizes.
ghost use Rattle.std.specs.Prelude.{◌≡◌, ◌<◌, ◌&&◌, ℕ, Bool, List, Some, nat_le, length, slice_get};
ghost use Rattle.std.specs.Option.{option_copied};
ghost use Rattle.std.specs.List.{list_all};
ghost use Rattle.std.specs.Map.{keys_of, values_of};
ghost use Rattle.keys.specs.Bytes.{Bytes};
ghost use Rattle.keys.specs.declared.settings.Settings as limits;
ghost use Rattle.index_page.specs.Page.{as_changes, changes_over};
ghost use Rattle.index_page.specs.Range.{is_within};
ghost use Rattle.index_page.specs.Rules.{is_short_value, is_any_pid, of_cell, is_run_sized, is_short_change};
ghost use Rattle.verify.specs.Sizes.{sizes_under};

use delta_chain::{Base, ChainRef, KeyList, Pairs, Run};
use keys::{Pid, Settings, Value, compare, is_before};
use std::alloc::Allocator;

/// A cell whose size the settings may limit.
pub(crate) trait CellSize {
    ghost is_short: { limits.Settings → Self → Bool };

    /// Returns whether the cell is within the settings.
    fn is_short(&self, settings: &Settings) -> bool
        ensures { result ≡ is_short settings.now self.now };
}

impl<A: Allocator> CellSize for Value<A> {
    ghost is_short = { is_short_value };

    fn is_short(&self, settings: &Settings) -> bool {
        self.len() <= settings.max_value as usize
    }
}

impl CellSize for Pid {
    ghost is_short = { λ _. is_any_pid };

    fn is_short(&self, _settings: &Settings) -> bool {
        true
    }
}

/// The base of a page with access by place: a base in memory, or the pairs of a base that is not merged yet.
pub(crate) trait BaseList<V> {
    ghost entries: { Self → List (Bytes × V) };

    /// Returns the number of entries.
    fn count(&self) -> usize
        ensures { result ≡ length (entries self.now) };

    /// Returns the bytes of the key at place `at`, counted from 0.
    fn key_at(&self, at: usize) -> &[u8]
        requires { at < length (entries self.now) }
        ensures { slice_get (keys_of (entries self.now)) at ≡ Some result.now };

    /// Returns the cell at place `at`, counted from 0.
    fn cell_at(&self, at: usize) -> &V
        requires { at < length (entries self.now) }
        ensures { slice_get (values_of (entries self.now)) at ≡ Some result.now };
}

impl<V, A: Allocator + Copy> BaseList<V> for Base<V, A> {
    ghost entries = { λ base. base };

    fn count(&self) -> usize {
        self.len()
    }

    fn key_at(&self, at: usize) -> &[u8] {
        self.key(at)
    }

    fn cell_at(&self, at: usize) -> &V {
        self.cell(at)
    }
}

impl<'a, V, A: Allocator + Copy> BaseList<V> for Pairs<'a, V, A> {
    ghost entries = { λ pairs. pairs };

    fn count(&self) -> usize {
        self.len()
    }

    fn key_at(&self, at: usize) -> &[u8] {
        self.key(at)
    }

    fn cell_at(&self, at: usize) -> &V {
        self.cell(at)
    }
}

// Whether `key` is at or above `low`, and below `end`.
fn is_within(low: &[u8], end: Option<&[u8]>, key: &[u8]) -> bool
    ensures { result ≡ is_within low.now (option_copied end.entry) key.now }
{
    if compare(key, low).is_lt() {
        return false;
    }
    is_before(end, key)
}

// Whether each key of the run lies in the range.
fn run_within<V, A: Allocator + Copy>(run: &Run<V, A>, low: &[u8], end: Option<&[u8]>) -> bool
    ensures { result ≡ list_all (is_within low.now (option_copied end.entry)) (keys_of run.now) }
{
    for at in 0..run.len() {
        if !is_within(low, end, run.key(at)) {
            return false;
        }
    }
    true
}

// Whether each key of the base lies in the range.
fn base_within<V, B: BaseList<V>>(base: &B, low: &[u8], end: Option<&[u8]>) -> bool
    ensures { result
        ≡ list_all (is_within low.now (option_copied end.entry)) (keys_of (B.entries base.now)) }
{
    for at in 0..base.count() {
        if !is_within(low, end, base.key_at(at)) {
            return false;
        }
    }
    true
}

/// Whether each key in the runs and in `base` lies in the range. The base of `runs` itself is not read.
pub(crate) fn names_within<V, A: Allocator + Copy, B: BaseList<V>>(
    runs: &ChainRef<'_, V, A>,
    base: &B,
    low: &[u8],
    end: Option<&[u8]>,
) -> bool
    ensures { result ≡ list_all (is_within low.now (option_copied end.entry))
        (keys_of (changes_over runs.now.runs (B.entries base.now))) }
{
    let mut next = runs.newest();
    while let Some((run, below)) = next {
        if !run_within(run, low, end) {
            return false;
        }
        next = below.newest();
    }
    base_within(base, low, end)
}

/// Whether `base` and each run are within the settings, in their numbers of entries and in the lengths of keys and
/// cells. The base of `runs` itself is not read.
pub(crate) fn fits_sizes<V: CellSize, A: Allocator + Copy, B: BaseList<V>>(
    runs: &ChainRef<'_, V, A>,
    base: &B,
    settings: &Settings,
) -> bool
    ensures { result
        ≡ sizes_under settings.now (V.is_short settings.now) runs.now.runs (B.entries base.now) }
{
    let mut next = runs.newest();
    while let Some((run, below)) = next {
        if !fits_run(run, settings) {
            return false;
        }
        next = below.newest();
    }
    fits_base(base, settings)
}

fn fits_base<V: CellSize, B: BaseList<V>>(base: &B, settings: &Settings) -> bool
    ensures { result ≡ (nat_le (length (B.entries base.now)) settings.now.fan
        && list_all (is_short_change settings.now (V.is_short settings.now))
        (as_changes (B.entries base.now))) }
{
    let count = base.count();
    if count > settings.fan as usize {
        return false;
    }
    for at in 0..count {
        if !is_short_entry(base.key_at(at), Some(base.cell_at(at)), settings) {
            return false;
        }
    }
    true
}

fn fits_run<V: CellSize, A: Allocator + Copy>(run: &Run<V, A>, settings: &Settings) -> bool
    ensures { result ≡ (is_run_sized settings.now run.now
        && list_all (is_short_change settings.now (V.is_short settings.now)) run.now) }
{
    let count = run.len();
    if count == 0 || count > settings.fan as usize {
        return false;
    }
    for at in 0..count {
        if !is_short_entry(run.key(at), run.change(at), settings) {
            return false;
        }
    }
    true
}

// Whether the key and the cell, if there is one, are no longer than the settings allow.
fn is_short_entry<V: CellSize>(key: &[u8], cell: Option<&V>, settings: &Settings) -> bool
    ensures { result ≡ (nat_le (length key.now) settings.now.max_key
        && of_cell (V.is_short settings.now) (option_copied cell.entry)) }
{
    if key.len() > settings.max_key as usize {
        return false;
    }
    match cell {
        None => true,
        Some(cell) => cell.is_short(settings),
    }
}
