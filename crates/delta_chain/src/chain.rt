//! The state of a page: runs in front of a base, owned (`Chain`) or borrowed (`ChainRef`).
ghost use Rattle.std.specs.Prelude.{◌≡◌, ◌<◌, ◌≤◌, ◌+◌, ◌-◌, ◌∷◌, [], false, List, is_some, length, min, take, drop, reverse, vec_len, vec_capacity, if◌then◌else◌, OnOk, OnErr, IfOk, IfErr, IfSome, MatchOption};
ghost use Rattle.std.specs.List.{sum_by};
ghost use Rattle.std.specs.Option.{option_copied, unwrap_or};
ghost use Rattle.keys.specs.Bytes.{Bytes};
ghost use Rattle.keys.specs.Order.{IsRising};
ghost use Rattle.keys.specs.OrderedMap.{value_at};
ghost use Rattle.delta_chain.specs.Exchange.{exchanged, exchanged_under};
ghost use Rattle.delta_chain.specs.Located.{keys_of_runs};
ghost use Rattle.delta_chain.specs.Merging.{joined_changes};
ghost use Rattle.delta_chain.specs.Layers.{Layers, holds, held_under, entries_of, depth_of, IsInOrder};

use crate::base::Base;
use crate::change_list::ChangeList;
use crate::locators::{Locator, add_newest, lent_changes, locate, locate_near, remove_newest};
use crate::merging::{copied, lent_base, merged, with_run};
use crate::pairs::Pairs;
use crate::run::Run;
use keys::{Cell, Key, KeyRef};
use std::alloc::{AllocError, Allocator};
use std::marker::Model;

/// The state of a page: runs in front of a base (the Bw-tree's delta chain). Contracts see it as its runs, newest
/// first, and its base.
#[derive(Drop)]
pub struct Chain<V, A: Allocator> {
    base: Base<V, A>,
    // Oldest first in one block: a lookup reads contiguous memory, and a new run is appended.
    runs: Vec<Run<V, A>, A>,
    entries: EntryBounds,
    // For each key that the runs contain, its newest change, in key order. `None` if there are very many runs.
    list: Option<Vec<Locator, A>>,
}

impl<V, A: Allocator> Model for Chain<V, A> {
    ghost use Rattle.std.specs.Prelude.{reverse, IfSome};
    ghost use Rattle.delta_chain.specs.Layers.{Layers};
    ghost use Rattle.delta_chain.specs.Counted.{IsCounted};
    ghost use Rattle.delta_chain.specs.Located.{keys_of_runs, AreNumbered, AreNewest};

    ghost Value = { Layers V };

    ghost view = { λ c. record { runs = reverse c.runs.items; base = c.base } };

    ghost invariant = { λ c. IsCounted (record { runs = reverse c.runs.items; base = c.base })
        c.entries.fewest c.entries.most
        × AreNumbered (keys_of_runs c.runs.items)
        × IfSome c.list (λ list. AreNewest (keys_of_runs c.runs.items) list.items) };
}

/// Bounds on the number of entries of a page, known without reading them.
#[derive(Clone, Copy)]
pub struct EntryBounds {
    /// The page has at least this many entries.
    pub fewest: usize,
    /// The page has at most this many entries. The greatest `usize` means that no bound is known.
    pub most: usize,
}

/// A borrowed part of a page: its base and some consecutive runs. Contracts see it as a page.
#[derive(Drop)]
pub struct ChainRef<'a, V, A: Allocator> {
    // Oldest first.
    runs: &'a [Run<V, A>],
    base: &'a Base<V, A>,
}

impl<'a, V, A: Allocator> Model for ChainRef<'a, V, A> {
    ghost use Rattle.std.specs.Prelude.{reverse};
    ghost use Rattle.delta_chain.specs.Layers.{Layers};

    ghost Value = { Layers V };

    ghost view = { λ c. record { runs = reverse c.runs.now; base = c.base.now } };
}

/// Where `Chain::swap_cell` searches first: in the list of newest changes, and in the base.
#[derive(Clone, Copy)]
pub struct Guess {
    in_list: usize,
    in_base: usize,
}

impl Guess {
    /// Returns the guess for the first search: the start of the list and of the base.
    pub fn start() -> Guess {
        Guess {
            in_list: 0,
            in_base: 0,
        }
    }
}

impl EntryBounds {
    // The bounds after `count` changes were applied or undone: each one adds or removes at most one entry.
    fn with_changes(self, count: usize) -> EntryBounds
        ensures fewest { result.fewest ≡ self.fewest - count }
        ensures most { result.most ≡ min (self.most + count) usize.MAX }
    {
        EntryBounds {
            fewest: self.fewest.saturating_sub(count),
            most: self.most.saturating_add(count),
        }
    }
}

impl<'a, V, A: Allocator + Copy> ChainRef<'a, V, A> {
    /// Returns the newest run and the rest of the page below it, or `None` if there are no runs.
    pub fn newest(&self) -> Option<(&'a Run<V, A>, ChainRef<'a, V, A>)>
        ensures { MatchOption result (self.now.runs ≡ [])
            (λ p. self.now ≡ record { runs = p.0.now ∷ p.1.runs; base = p.1.base }) }
    {
        let (run, older) = self.runs.split_last()?;
        let below = ChainRef {
            runs: older,
            base: self.base,
        };
        Some((run, below))
    }

    /// Returns the number of runs, or the greatest `u64` if there are more.
    pub fn depth(&self) -> u64
        ensures { result ≡ min (depth_of self.now) u64.MAX }
    {
        self.runs.len() as u64
    }

    /// Returns the base below the runs.
    pub fn base(&self) -> &'a Base<V, A>
        ensures { result.now ≡ self.now.base }
    {
        self.base
    }

    /// Returns the entries of this part of the page, borrowed, in key order: the keys that are present, with their
    /// cells. `Err` means that allocation failed.
    pub fn pairs(&self, alloc: A) -> Result<Pairs<'a, V, A>, AllocError>
        ensures entries { IfOk result (λ pairs. pairs ≡ entries_of self.now) }
        ensures rising { IfOk result (λ pairs. IsRising pairs) }
    {
        let under = lent_base(alloc, self.base)?;
        if self.runs.is_empty() {
            return Ok(under);
        }
        // The runs are merged with each other first, so that the base, which is usually longer, is read only once.
        let changes = merged(alloc, self.runs)?;
        with_run(alloc, &under, &changes)
    }
}

// How many more runs a chain of at most `FEW_RUNS` reserves room for when it is full. Few pages have more runs, so the
// unused room stays small.
const MORE_RUNS: usize = 4;

// A chain with more runs than this has an unmerged base, or was read from a forged disk. Its room doubles when it is
// full: prepending n runs one by one then moves fewer than 3n runs in total, whereas adding room for four each time
// would move n * n / 8.
const FEW_RUNS: usize = 16;

impl<V, A: Allocator + Copy> Chain<V, A> {
    /// Makes a chain of `base` without runs.
    pub fn of_base(base: Base<V, A>) -> Self
        ensures { result ≡ record { runs = []; base = base } }
    {
        let count = base.len();
        let entries = EntryBounds {
            fewest: count,
            most: count,
        };
        let runs = Vec::new(base.alloc());
        let locators = Vec::new(base.alloc());
        Chain {
            base,
            runs,
            entries,
            list: Some(locators),
        }
    }

    /// Returns the number of runs, or the greatest `u64` if there are more.
    pub fn depth(&self) -> u64
        ensures count { result ≡ min (depth_of self.now) u64.MAX }
        ensures rising { IsInOrder self.now }
    {
        let count = self.runs.len();
        count as u64
    }

    /// Returns the number of runs.
    pub fn run_count(&self) -> usize
        ensures count { result ≡ depth_of self.now }
        ensures rising { IsInOrder self.now }
    {
        self.runs.len()
    }

    /// Returns the total number of changes in the runs, or the greatest `usize` if there are more.
    pub fn change_count(&self) -> usize
        ensures { result ≡ min (sum_by (λ run. length run) self.now.runs) usize.MAX }
    {
        named_by(&self.runs)
    }

    /// Returns bounds on the number of entries without reading them: the base's count plus or minus the lengths of the
    /// runs that were prepended or popped, or closer bounds if `bound` has set them.
    pub fn bounds(&self) -> EntryBounds
        ensures fewest { result.fewest ≤ length (entries_of self.now) }
        ensures most { min (length (entries_of self.now)) usize.MAX ≤ result.most }
    {
        self.entries
    }

    /// Returns the lower of the two `bounds`.
    pub fn fewest_entries(&self) -> usize
        ensures { result ≤ length (entries_of self.now) }
    {
        self.entries.fewest
    }

    /// Tightens the bounds to `known`.
    pub fn bound(&mut self, known: EntryBounds)
        requires fewest { known.fewest ≤ length (entries_of self.old) }
        requires most { min (length (entries_of self.old)) usize.MAX ≤ known.most }
        ensures { self.new ≡ self.old }
    {
        self.entries = EntryBounds {
            fewest: self.entries.fewest.max(known.fewest),
            most: self.entries.most.min(known.most),
        };
    }

    /// Borrows all runs and the base, for a search from the newest run down.
    pub fn lent(&self) -> ChainRef<'_, V, A>
        ensures { result ≡ self.now }
    {
        ChainRef {
            runs: &self.runs,
            base: &self.base,
        }
    }

    // The base and the oldest `count` runs.
    pub(crate) fn oldest(&self, count: usize) -> ChainRef<'_, V, A>
        requires { count ≤ length self.now.runs }
        ensures { result ≡ record {
          runs = drop (length self.now.runs - count) self.now.runs;
          base = self.now.base;
        } }
    {
        ChainRef {
            runs: &self.runs[..count],
            base: &self.base,
        }
    }

    // The base and all runs except the oldest `count`.
    pub(crate) fn newest_above(&self, count: usize) -> ChainRef<'_, V, A>
        requires { count ≤ length self.now.runs }
        ensures { result ≡ record {
          runs = take (length self.now.runs - count) self.now.runs;
          base = self.now.base;
        } }
    {
        ChainRef {
            runs: &self.runs[count..],
            base: &self.base,
        }
    }

    /// Returns the cell that the page holds at `key`, if it holds one: that of the newest run that contains the key,
    /// else that of the base.
    pub fn get(&self, key: &[u8]) -> Option<&V>
        ensures { option_copied result ≡ holds self.now key.now }
    {
        let key = KeyRef::new(key);
        match locate(&self.list, &self.runs, &key) {
            Some(locator) => locator.change(&self.runs),
            None => self.base.get(&key),
        }
    }

    /// Returns the base below the runs.
    pub fn base(&self) -> &Base<V, A>
        ensures { result.now ≡ self.now.base }
    {
        &self.base
    }

    /// Returns the merged changes of all runs, or `None` if there are very many runs.
    pub fn newest_changes(&self) -> Option<ChangeList<'_, V, A>>
        ensures { IfSome result (λ changes. changes ≡ joined_changes self.now.runs) }
    {
        match &self.list {
            Some(locators) => Some(ChangeList::new(&self.runs, locators)),
            None => None,
        }
    }

    /// Returns the page's entries, borrowed, in key order: the keys that are present, with their cells. `Err` means
    /// that allocation failed.
    pub fn pairs(&self, alloc: A) -> Result<Pairs<'_, V, A>, AllocError>
        ensures entries { IfOk result (λ pairs. pairs ≡ entries_of self.now) }
        ensures rising { IfOk result (λ pairs. IsRising pairs) }
    {
        let Some(locators) = &self.list else {
            return self.lent().pairs(alloc);
        };
        let under = lent_base(alloc, &self.base)?;
        if self.runs.is_empty() {
            return Ok(under);
        }
        let changes = lent_changes(alloc, locators, &self.runs)?;
        with_run(alloc, &under, &changes)
    }
}

impl<V: Drop, A: Allocator + Copy> Chain<V, A> {
    /// Adds `run` as the newest one. If allocation fails, the chain is unchanged and the run is returned with the
    /// error. A run of 2^32 changes counts as a failed allocation.
    pub fn prepend(&mut self, run: Run<V, A>) -> Result<(), (AllocError, Run<V, A>)>
        ensures ok { OnOk result (self.new ≡ record self.old { runs = run ∷ self.old.runs }) }
        ensures err { OnErr result (self.new ≡ self.old) }
        ensures back { IfErr result (λ e. e.1 ≡ run) }
    {
        if let Err(refused) = make_room(&mut self.runs) {
            return Err((refused, run));
        }
        if let Err(refused) = add_newest(self.base.alloc(), &mut self.list, &self.runs, &run) {
            return Err((refused, run));
        }
        self.entries = self.entries.with_changes(run.len());
        self.runs.push_reserved(run);
        Ok(())
    }

    /// Removes and returns the newest run, if there is one. This undoes `prepend`; it does not allocate.
    pub fn pop(&mut self) -> Option<Run<V, A>>
        ensures { MatchOption result (self.old.runs ≡ [] × self.new ≡ self.old)
            (λ run. self.old ≡ record self.new { runs = run ∷ self.new.runs }) }
    {
        let run = self.runs.pop()?;
        remove_newest(&mut self.list, &self.runs, &run);
        let added = run.len();
        self.entries = self.entries.with_changes(added);
        Some(run)
    }

    /// Swaps `cell` with the cell that the page holds at `key`: in the newest run that contains the key, or in the
    /// base. Searches near `guess` first, and sets `guess` to the place after the key. Returns whether the page holds a
    /// cell at the key; if it does not, neither the page nor `cell` changes.
    pub fn swap_cell(&mut self, key: &KeyRef<'_>, cell: &mut V, guess: &mut Guess) -> bool
        ensures cell { cell.new ≡ unwrap_or (holds self.old key.now) cell.old }
        ensures page { self.new ≡ exchanged self.old key.now cell.old }
        ensures found { result ≡ is_some (holds self.old key.now) }
    {
        match locate_near(&self.list, &self.runs, key, &mut guess.in_list) {
            Some(locator) => locator.swap_cell(&mut self.runs, cell),
            None => match self.base.place_near(guess.in_base, key) {
                Some(at) => {
                    guess.in_base = at.saturating_add(1);
                    self.base.swap_cell(at, cell);
                    true
                }
                None => false,
            },
        }
    }

    /// Returns the base of a chain without runs. This undoes `of_base`.
    pub fn into_base(self) -> Base<V, A>
        requires { self.runs ≡ [] }
        ensures { result ≡ self.base }
    {
        self.base
    }
}

impl<V: Cell<A> + Drop, A: Allocator + Copy> Chain<V, A> {
    /// Returns copies of the page's entries in key order. `Err` means that allocation failed.
    pub fn entries(&self, alloc: A) -> Result<Vec<(Key<A>, V), A>, AllocError>
        ensures entries { IfOk result (λ all. all.items ≡ entries_of self.now) }
        ensures rising { IfOk result (λ all. IsRising all.items) }
    {
        let pairs = self.pairs(alloc)?;
        copied(alloc, &pairs)
    }
}

// The total number of changes in these runs, or the greatest `usize` if there are more.
fn named_by<V, A: Allocator + Copy>(runs: &[Run<V, A>]) -> usize
    ensures { result ≡ min (sum_by (λ run. length run) (reverse runs.now)) usize.MAX }
{
    let mut named: usize = 0;
    for run in runs {
        named = named.saturating_add(run.len());
    }
    named
}

// Makes room for another run if there is none. Allocates a new list instead of growing the old one: to grow a block,
// the C library locks the heap of the thread that allocated it, which another worker may be using.
fn make_room<V: Drop, A: Allocator + Copy>(runs: &mut Vec<Run<V, A>, A>) -> Result<(), AllocError>
    ensures kept { runs.new.items ≡ runs.old.items }
    ensures room { OnOk result (vec_len runs.new < vec_capacity runs.new) }
{
    let count = runs.len();
    if count == runs.capacity() {
        let more = if count > FEW_RUNS { count } else { MORE_RUNS };
        let mut longer = Vec::with_capacity(*runs.allocator(), count.saturating_add(more))?;
        longer.append(runs)?;
        *runs = longer;
    }
    Ok(())
}
