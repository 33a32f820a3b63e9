//! Locates the newest change of each key that the runs of a page contain, by a list in key order.
ghost use Rattle.std.specs.Prelude.{◌≡◌, ◌<◌, ◌≤◌, ◌^◌, ◌++◌, ◌∷◌, [], length, get_or, is_some, reverse, IfOk, OnOk, OnErr, IfSome, ◌+◌, vec_len, vec_capacity, take, drop};
ghost use Rattle.std.specs.List.{AllByRecursion};
ghost use Rattle.std.specs.Map.{keys_of};
ghost use Rattle.std.specs.Option.{option_copied, unwrap_or};
ghost use Rattle.keys.specs.Cells.{AreBytes};
ghost use Rattle.keys.specs.Order.{order, IsRising};
ghost use Rattle.keys.specs.OrderedMap.{value_at, with_pair};
ghost use Rattle.keys.specs.Words.{first_word};
ghost use Rattle.delta_chain.specs.Exchange.{in_place_of};
ghost use Rattle.delta_chain.specs.Located.{keys_of_runs, newest_locators, key_at, change_at, changes_of, exchanged_in, keyed, IsIn, AreNumbered, AreNewest, IsSearched};

use crate::pairs::Pairs;
use crate::run::Run;
use keys::{KeyRef, compare};
use std::alloc::{AllocError, Allocator};
use std::cmp::Ordering;

/// Locates the newest change of a key.
#[derive(Clone, Copy)]
pub(crate) struct Locator {
    // The first eight bytes of the key, so that a search seldom reads the key.
    word: u64,
    // The number of the run; the oldest run has the number 0.
    run: u32,
    // The place of the change in the run.
    at: u32,
}

// The greatest number of a run, and the greatest place in a run, that a `Locator` can hold.
const MOST: usize = u32::MAX as usize;

// A page with more runs than this has no list. Only a forged disk has such pages. Each run of more than a few changes
// makes a new list, so lists would make the time to read n runs proportional to n * n.
const LISTED_RUNS: usize = 64;

// The changes of a run with at most this many are inserted into the list in place if there is room. Otherwise a new list
// is made, which for a short run has room for some more runs of the same length.
const FEW_CHANGES: usize = 8;

const MORE_RUNS: usize = 3;

impl Locator {
    fn new(key: &KeyRef<'_>, run: usize, at: usize) -> Locator
        requires run { run < 2 ^ 32 }
        requires at { at < 2 ^ 32 }
        ensures locator { result ≡ record { word = first_word key.now; run = run; at = at } }
        ensures bytes { AreBytes key.now }
    {
        Locator {
            word: key.word(),
            run: run as u32,
            at: at as u32,
        }
    }

    pub(crate) fn key<V, A: Allocator + Copy>(self, runs: &[Run<V, A>]) -> &[u8]
        requires { IsIn (keys_of_runs runs.now) self }
        ensures { result.now ≡ key_at (keys_of_runs runs.now) self }
    {
        runs[self.run as usize].key(self.at as usize)
    }

    pub(crate) fn key_ref<V, A: Allocator + Copy>(self, runs: &[Run<V, A>]) -> KeyRef<'_>
        requires { IsIn (keys_of_runs runs.now) self }
        ensures { result ≡ key_at (keys_of_runs runs.now) self }
    {
        KeyRef::of_word(self.word, self.key(runs))
    }

    fn item<V, A: Allocator + Copy>(self, runs: &[Run<V, A>]) -> &Option<V>
        requires { IsIn (keys_of_runs runs.now) self }
        ensures { result.now ≡ change_at runs.now self }
    {
        runs[self.run as usize].item(self.at as usize)
    }

    /// The change at this place of `runs`, which are given oldest first.
    pub(crate) fn change<V, A: Allocator + Copy>(self, runs: &[Run<V, A>]) -> Option<&V>
        requires { IsIn (keys_of_runs runs.now) self }
        ensures { option_copied result ≡ change_at runs.now self }
    {
        self.item(runs).as_ref()
    }

    /// Swaps `cell` with the cell at this place of `runs`, unless the change there deletes its key. Returns whether there
    /// is a cell. The runs are given oldest first.
    pub(crate) fn swap_cell<V: Drop, A: Allocator + Copy>(
        self,
        runs: &mut [Run<V, A>],
        cell: &mut V,
    ) -> bool
        requires { IsIn (keys_of_runs runs.old) self }
        ensures cell { cell.new ≡ unwrap_or (change_at runs.old self) cell.old }
        ensures runs { runs.new
            ≡ exchanged_in runs.old self (in_place_of (change_at runs.old self) cell.old) }
        ensures found { result ≡ is_some (change_at runs.old self) }
    {
        runs[self.run as usize].swap_cell(self.at as usize, cell)
    }

    // Compares the key at this place to `key`.
    #[inline]
    pub(crate) fn compare<V, A: Allocator + Copy>(
        self,
        runs: &[Run<V, A>],
        key: &KeyRef<'_>,
    ) -> Ordering
        requires { IsIn (keys_of_runs runs.now) self }
        ensures { result ≡ order (key_at (keys_of_runs runs.now) self) key.now }
    {
        if self.word < key.word() {
            return Ordering::Less;
        }
        if self.word > key.word() {
            return Ordering::Greater;
        }
        compare(self.key(runs), key.as_bytes())
    }
}

/// Locates the newest change of `key`, by the list if the page has one. The runs are given oldest first.
pub(crate) fn locate<V, A: Allocator + Copy>(
    list: &Option<Vec<Locator, A>>,
    runs: &[Run<V, A>],
    key: &KeyRef<'_>,
) -> Option<Locator>
    requires numbered { AreNumbered (keys_of_runs runs.now) }
    requires list { IfSome list.now (λ list. AreNewest (keys_of_runs runs.now) list.items) }
    ensures value { result ≡ value_at key.now (newest_locators (reverse (keys_of_runs runs.now))) }
    ensures place { IfSome result (λ l. IsIn (keys_of_runs runs.now) l
        × (key_at (keys_of_runs runs.now) l ≡ key.now)) }
{
    match list {
        Some(locators) => listed(locators, runs, key),
        None => newest_of(runs, key),
    }
}

/// Locates the newest change of `key` as `locate` does, but searches near the place `guess` of the list first. Sets
/// `guess` to the place after the locator of `key`, or to the place where it would be inserted.
pub(crate) fn locate_near<V, A: Allocator + Copy>(
    list: &Option<Vec<Locator, A>>,
    runs: &[Run<V, A>],
    key: &KeyRef<'_>,
    guess: &mut usize,
) -> Option<Locator>
    requires numbered { AreNumbered (keys_of_runs runs.now) }
    requires list { IfSome list.now (λ list. AreNewest (keys_of_runs runs.now) list.items) }
    ensures value { result ≡ value_at key.now (newest_locators (reverse (keys_of_runs runs.now))) }
    ensures place { IfSome result (λ l. IsIn (keys_of_runs runs.now) l
        × (key_at (keys_of_runs runs.now) l ≡ key.now)) }
{
    match list {
        Some(locators) => match search_near(locators, runs, *guess, key) {
            Ok(at) => {
                *guess = at.saturating_add(1);
                Some(locators[at])
            }
            Err(at) => {
                *guess = at;
                None
            }
        },
        None => newest_of(runs, key),
    }
}

// `search`, which compares the locators at the place `guess` and right before it first.
fn search_near<V, A: Allocator + Copy>(
    locators: &[Locator],
    runs: &[Run<V, A>],
    guess: usize,
    key: &KeyRef<'_>,
) -> Result<usize, usize>
    requires all { AllByRecursion (IsIn (keys_of_runs runs.now)) locators.now }
    requires rising { IsRising (keyed (keys_of_runs runs.now) locators.now) }
    ensures { IsSearched key.now (keyed (keys_of_runs runs.now) locators.now) result }
{
    let mut low = 0;
    let mut high = locators.len();
    while low < high {
        let middle = near_place(guess, low, high);
        match locators[middle].compare(runs, key) {
            Ordering::Less => low = middle + 1,
            Ordering::Equal => return Ok(middle),
            Ordering::Greater => high = middle,
        }
    }
    Err(low)
}

// The next place to compare, in `low..high`: the guess if it is in that range, the last place if the guess comes right
// after the range, else the middle.
fn near_place(guess: usize, low: usize, high: usize) -> usize
    requires { low < high }
    ensures from { low ≤ result }
    ensures upto { result < high }
{
    if guess == high {
        high - 1
    } else if low <= guess && guess < high {
        guess
    } else {
        low + (high - low) / 2
    }
}

// The locator of `key` in the list. The runs are given oldest first.
fn listed<V, A: Allocator + Copy>(
    locators: &[Locator],
    runs: &[Run<V, A>],
    key: &KeyRef<'_>,
) -> Option<Locator>
    requires { AreNewest (keys_of_runs runs.now) locators.now }
    ensures value { result ≡ value_at key.now (newest_locators (reverse (keys_of_runs runs.now))) }
    ensures place { IfSome result (λ l. IsIn (keys_of_runs runs.now) l
        × (key_at (keys_of_runs runs.now) l ≡ key.now)) }
{
    match search(locators, runs, key) {
        Ok(at) => Some(locators[at]),
        Err(_) => None,
    }
}

// `Ok` with the place of `key` in the list, or `Err` with the place where it would be inserted. The runs are given
// oldest first.
fn search<V, A: Allocator + Copy>(
    locators: &[Locator],
    runs: &[Run<V, A>],
    key: &KeyRef<'_>,
) -> Result<usize, usize>
    requires all { AllByRecursion (IsIn (keys_of_runs runs.now)) locators.now }
    requires rising { IsRising (keyed (keys_of_runs runs.now) locators.now) }
    ensures { IsSearched key.now (keyed (keys_of_runs runs.now) locators.now) result }
{
    let mut low = 0;
    let mut high = locators.len();
    while low < high {
        let middle = low + (high - low) / 2;
        match locators[middle].compare(runs, key) {
            Ordering::Less => low = middle + 1,
            Ordering::Equal => return Ok(middle),
            Ordering::Greater => high = middle,
        }
    }
    Err(low)
}

/// The changes that the list locates, borrowed, each with its key. The runs are given oldest first.
pub(crate) fn lent_changes<'a, V, A: Allocator + Copy>(
    alloc: A,
    locators: &[Locator],
    runs: &'a [Run<V, A>],
) -> Result<Pairs<'a, Option<V>, A>, AllocError>
    requires { AllByRecursion (IsIn (keys_of_runs runs.now)) locators.now }
    ensures { IfOk result (λ changes. changes ≡ changes_of runs.now locators.now) }
{
    let count = locators.len();
    let mut lent = Vec::with_capacity(alloc, count)?;
    for at in 0..count {
        let locator = locators[at];
        lent.push_reserved((locator.key(runs), locator.item(runs)));
    }
    Ok(Pairs::of_list(lent))
}

/// Adds the changes of `run`, which is put in front of `runs`, to the list. `Err` means that allocation failed; the list
/// is then unchanged. Few changes are inserted in place if the list has room for them.
pub(crate) fn add_newest<V, A: Allocator + Copy>(
    alloc: A,
    list: &mut Option<Vec<Locator, A>>,
    runs: &[Run<V, A>],
    run: &Run<V, A>,
) -> Result<(), AllocError>
    requires numbered { AreNumbered (keys_of_runs runs.now) }
    requires list { IfSome list.old (λ list. AreNewest (keys_of_runs runs.now) list.items) }
    ensures numbered { OnOk result
        (AreNumbered (keys_of_runs runs.now ++ keys_of run.now ∷ [])) }
    ensures ok { OnOk result (IfSome list.new (λ list.
        AreNewest (keys_of_runs runs.now ++ keys_of run.now ∷ []) list.items)) }
    ensures err { OnErr result (IfSome list.new (λ list.
        AreNewest (keys_of_runs runs.now) list.items)) }
{
    // Counts as a failed allocation: hardly any memory has room for it.
    if runs.len() > MOST || run.len() > MOST {
        return Err(AllocError);
    }
    if runs.len() >= LISTED_RUNS {
        *list = None;
        return Ok(());
    }
    match list {
        Some(locators) => add_to(alloc, locators, runs, run),
        None => Ok(()),
    }
}

// `add_newest` to a list.
fn add_to<V, A: Allocator + Copy>(
    alloc: A,
    locators: &mut Vec<Locator, A>,
    runs: &[Run<V, A>],
    run: &Run<V, A>,
) -> Result<(), AllocError>
    requires number { length runs.now < 2 ^ 32 }
    requires places { length run.now ≤ 2 ^ 32 }
    requires newest { AreNewest (keys_of_runs runs.now) locators.old.items }
    ensures ok { OnOk result
        (AreNewest (keys_of_runs runs.now ++ keys_of run.now ∷ []) locators.new.items) }
    ensures err { OnErr result (locators.new ≡ locators.old) }
{
    let count = run.len();
    if count <= FEW_CHANGES && count <= locators.capacity().saturating_sub(locators.len()) {
        insert_newest(locators, runs, run);
        return Ok(());
    }
    let merged = merge_newest(alloc, locators, runs, run)?;
    *locators = merged;
    Ok(())
}

// Inserts the locators of `run`, which is put in front of `runs`. The list has room for them.
fn insert_newest<V, A: Allocator + Copy>(
    locators: &mut Vec<Locator, A>,
    runs: &[Run<V, A>],
    run: &Run<V, A>,
)
    requires number { length runs.now < 2 ^ 32 }
    requires places { length run.now ≤ 2 ^ 32 }
    requires newest { AreNewest (keys_of_runs runs.now) locators.old.items }
    requires room { vec_len locators.old + length run.now ≤ vec_capacity locators.old }
    ensures { AreNewest (keys_of_runs runs.now ++ keys_of run.now ∷ []) locators.new.items }
{
    // The keys of the run rise, so each locator goes after the one before it.
    let mut from = 0;
    for at in 0..run.len() {
        let key = run.key_ref(at);
        let (below, above) = bounds_of(&locators[from..], runs, &key);
        put(
            locators,
            from + below,
            from + above,
            Locator::new(&key, runs.len(), at),
        );
        from += below + 1;
    }
}

// Replaces the locators from place `from` up to `until`, which are one or none, by `locator`. The list has room for it.
fn put<A: Allocator>(locators: &mut Vec<Locator, A>, from: usize, until: usize, locator: Locator)
    requires order { (from ≤ until) × (until ≤ from + 1) }
    requires until { until ≤ length locators.old.items }
    requires room { vec_len locators.old < vec_capacity locators.old }
    ensures items { locators.new.items
        ≡ take from locators.old.items ++ locator ∷ drop until locators.old.items }
    ensures len { vec_len locators.new ≤ vec_len locators.old + 1 }
    ensures capacity { vec_capacity locators.new ≡ vec_capacity locators.old }
{
    if from < until {
        locators[from] = locator;
    } else if locators.insert(from, locator).is_err() {
        unreachable!()
    }
}

// The locators of `runs` and of `run`, which is put in front of them.
fn merge_newest<V, A: Allocator + Copy>(
    alloc: A,
    locators: &[Locator],
    runs: &[Run<V, A>],
    run: &Run<V, A>,
) -> Result<Vec<Locator, A>, AllocError>
    requires number { length runs.now < 2 ^ 32 }
    requires places { length run.now ≤ 2 ^ 32 }
    requires newest { AreNewest (keys_of_runs runs.now) locators.now }
    ensures { IfOk result (λ list.
        AreNewest (keys_of_runs runs.now ++ keys_of run.now ∷ []) list.items) }
{
    let count = run.len();
    let runs_to_come = if count > FEW_CHANGES { 0 } else { MORE_RUNS };
    let room = count.saturating_mul(1 + runs_to_come);
    let mut merged = Vec::with_capacity(alloc, locators.len().saturating_add(room))?;
    let mut rest = locators;
    for at in 0..count {
        let key = run.key_ref(at);
        let (below, above) = split(rest, runs, &key);
        merged.extend_from_slice(below)?;
        merged.push(Locator::new(&key, runs.len(), at))?;
        rest = above;
    }
    merged.extend_from_slice(rest)?;
    Ok(merged)
}

// The locators of the keys below `key`, and those of the keys above it.
fn split<'a, V, A: Allocator + Copy>(
    locators: &'a [Locator],
    runs: &[Run<V, A>],
    key: &KeyRef<'_>,
) -> (&'a [Locator], &'a [Locator])
    requires all { AllByRecursion (IsIn (keys_of_runs runs.now)) locators.now }
    requires rising { IsRising (keyed (keys_of_runs runs.now) locators.now) }
    ensures below { AllByRecursion (IsIn (keys_of_runs runs.now)) result.0.now }
    ensures above { AllByRecursion (IsIn (keys_of_runs runs.now)) result.1.now }
    ensures apart { (item : Locator) →
        with_pair (keyed (keys_of_runs runs.now) locators.now) key.now item
        ≡ keyed (keys_of_runs runs.now) result.0.now
        ++ (key.now, item) ∷ keyed (keys_of_runs runs.now) result.1.now }
{
    let (below, above) = bounds_of(locators, runs, key);
    (&locators[..below], &locators[above..])
}

// How many locators are those of keys below `key`, and the place from which on they are those of keys above it.
fn bounds_of<V, A: Allocator + Copy>(
    locators: &[Locator],
    runs: &[Run<V, A>],
    key: &KeyRef<'_>,
) -> (usize, usize)
    requires all { AllByRecursion (IsIn (keys_of_runs runs.now)) locators.now }
    requires rising { IsRising (keyed (keys_of_runs runs.now) locators.now) }
    ensures order { (result.0 ≤ result.1) × (result.1 ≤ result.0 + 1) }
    ensures most { result.1 ≤ length locators.now }
    ensures apart { (item : Locator) →
        with_pair (keyed (keys_of_runs runs.now) locators.now) key.now item
        ≡ keyed (keys_of_runs runs.now) (take result.0 locators.now)
        ++ (key.now, item) ∷ keyed (keys_of_runs runs.now) (drop result.1 locators.now) }
{
    match search(locators, runs, key) {
        Ok(at) => (at, at + 1),
        Err(at) => (at, at),
    }
}

/// Takes the newest run out of the list, where `older` are the other runs, oldest first. Does not allocate.
pub(crate) fn remove_newest<V, A: Allocator + Copy>(
    list: &mut Option<Vec<Locator, A>>,
    older: &[Run<V, A>],
    newest: &Run<V, A>,
)
    requires numbered { AreNumbered (keys_of_runs older.now) }
    requires list { IfSome list.old (λ list.
        AreNewest (keys_of_runs older.now ++ keys_of newest.now ∷ []) list.items) }
    ensures { IfSome list.new (λ list. AreNewest (keys_of_runs older.now) list.items) }
{
    if let Some(locators) = list {
        remove_from(locators, older, newest);
    }
}

// `remove_newest` of a list.
fn remove_from<V, A: Allocator + Copy>(
    locators: &mut Vec<Locator, A>,
    older: &[Run<V, A>],
    newest: &Run<V, A>,
)
    requires numbered { AreNumbered (keys_of_runs older.now) }
    requires newest { AreNewest (keys_of_runs older.now ++ keys_of newest.now ∷ []) locators.old.items }
    ensures { AreNewest (keys_of_runs older.now) locators.new.items }
{
    // Only for the proof: the keys of the run rise.
    let _rising = newest.len();
    let mut kept = 0;
    for at in 0..locators.len() {
        let locator = locators[at];
        let run = run_at(older, newest, locator.run as usize);
        if let Some(under) = newest_of(older, &run.key_ref(locator.at as usize)) {
            locators[kept] = under;
            kept += 1;
        }
    }
    locators.truncate(kept);
}

// The run with this number, where `newest` comes after the `older` ones.
fn run_at<'a, V, A: Allocator + Copy>(
    older: &'a [Run<V, A>],
    newest: &'a Run<V, A>,
    number: usize,
) -> &'a Run<V, A>
    requires { number ≤ length older.now }
    ensures { get_or (older.now ++ newest.now ∷ []) number [] ≡ result.now }
{
    if number < older.len() {
        &older[number]
    } else {
        newest
    }
}

// Locates the newest change of `key` without a list. The runs are given oldest first.
fn newest_of<V, A: Allocator + Copy>(runs: &[Run<V, A>], key: &KeyRef<'_>) -> Option<Locator>
    requires { AreNumbered (keys_of_runs runs.now) }
    ensures value { result ≡ value_at key.now (newest_locators (reverse (keys_of_runs runs.now))) }
    ensures place { IfSome result (λ l. IsIn (keys_of_runs runs.now) l
        × (key_at (keys_of_runs runs.now) l ≡ key.now)) }
{
    let (newest, older) = runs.split_last()?;
    // Only for the proof: the keys of the run rise.
    let _rising = newest.len();
    match newest.place_of(key) {
        Some(at) => Some(Locator::new(key, older.len(), at)),
        None => newest_of(older, key),
    }
}
