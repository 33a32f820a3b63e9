//! A page whose base is merged late: what counts as its base may still be runs in memory.
ghost use Rattle.std.specs.Prelude.{◌≡◌, ◌≤◌, ◌∷◌, [], length, min, OnOk, OnErr, IfOk, IfErr, MatchOption};
ghost use Rattle.keys.specs.Order.{IsRising};
ghost use Rattle.delta_chain.specs.Lazy.{below_of, seen};
ghost use Rattle.delta_chain.specs.Layers.{depth_of, entries_of, IsInOrder};

use crate::base::Base;
use crate::chain::{Chain, ChainRef, EntryBounds};
use crate::pairs::Pairs;
use crate::run::Run;
use keys::Cell;
use std::alloc::{AllocError, Allocator};
use std::marker::Model;

/// A chain whose oldest runs may count as merged into its base, although they still lie in memory as runs. They are
/// merged when the page is next rebuilt. Contracts see it as a `Lazy`, and the page that it represents as `seen` of it.
#[derive(Drop)]
pub struct LazyChain<V, A: Allocator> {
    chain: Chain<V, A>,
    // How many of the oldest runs count as merged.
    merged_runs: usize,
}

impl<V, A: Allocator> Model for LazyChain<V, A> {
    ghost use Rattle.std.specs.Prelude.{◌≤◌, length};
    ghost use Rattle.delta_chain.specs.Lazy.{Lazy};

    ghost Value = { Lazy V };

    ghost view = { λ c. record { chain = c.chain; merged_runs = c.merged_runs } };

    ghost invariant = { λ c. c.merged_runs ≤ length c.chain.runs };
}

impl<V, A: Allocator + Copy> LazyChain<V, A> {
    /// Makes a page of `chain`, none of whose runs count as merged.
    pub fn of(chain: Chain<V, A>) -> Self
        ensures { result ≡ record { chain = chain; merged_runs = 0 } }
    {
        LazyChain {
            chain,
            merged_runs: 0,
        }
    }

    /// Returns the chain in memory. It has the page's entries, but may have more runs than the page.
    pub fn whole(&self) -> &Chain<V, A>
        ensures { result.now ≡ self.now.chain }
    {
        &self.chain
    }

    /// Returns how many of the oldest runs count as merged.
    pub fn merged_runs(&self) -> usize
        ensures count { result ≡ self.now.merged_runs }
        ensures within { self.now.merged_runs ≤ length self.now.chain.runs }
    {
        self.merged_runs
    }

    /// Returns the number of runs of the page, or the greatest `u64` if there are more.
    pub fn depth(&self) -> u64
        ensures count { result ≡ min (depth_of (seen self.now)) u64.MAX }
        ensures rising { IsInOrder (seen self.now) }
    {
        (self.chain.run_count() - self.merged_runs) as u64
    }

    /// Returns what counts as the page's base: the base in memory and the runs that count as merged.
    pub fn below(&self) -> ChainRef<'_, V, A>
        ensures { result ≡ below_of self.now }
    {
        self.chain.oldest(self.merged_runs)
    }

    /// Returns the page's own runs over the base in memory, which need not be the page's base.
    pub fn unmerged_runs(&self) -> ChainRef<'_, V, A>
        ensures { result ≡ record { runs = (seen self.now).runs; base = self.now.chain.base } }
    {
        self.chain.newest_above(self.merged_runs)
    }

    /// Returns the entries of the page's base, borrowed. `Err` means that allocation failed.
    pub fn base_pairs(&self, alloc: A) -> Result<Pairs<'_, V, A>, AllocError>
        ensures entries { IfOk result (λ pairs. pairs ≡ (seen self.now).base) }
        ensures rising { IfOk result (λ pairs. IsRising pairs) }
    {
        self.below().pairs(alloc)
    }
}

impl<V: Cell<A> + Drop, A: Allocator + Copy> LazyChain<V, A> {
    /// Returns a copy of the page's base. `Err` means that allocation failed.
    pub fn base_copy(&self, alloc: A) -> Result<Base<V, A>, AllocError>
        ensures { IfOk result (λ base. base ≡ (seen self.now).base) }
    {
        let pairs = self.base_pairs(alloc)?;
        pairs.copied_base(alloc)
    }
}

impl<V: Drop, A: Allocator + Copy> LazyChain<V, A> {
    /// Adds `run` as the newest one. If allocation fails, the page is unchanged and the run is returned with the error.
    pub fn prepend(&mut self, run: Run<V, A>) -> Result<(), (AllocError, Run<V, A>)>
        ensures ok { OnOk result (self.new ≡ record {
          chain = record { runs = run ∷ self.old.chain.runs; base = self.old.chain.base };
          merged_runs = self.old.merged_runs;
        }) }
        ensures err { OnErr result (self.new ≡ self.old) }
        ensures back { IfErr result (λ e. e.1 ≡ run) }
    {
        self.chain.prepend(run)
    }

    /// Removes and returns the newest run, if there is one. If all runs counted as merged, all remaining ones do. This
    /// undoes `prepend`; it does not allocate.
    pub fn pop(&mut self) -> Option<Run<V, A>>
        ensures chain { MatchOption result (self.old.chain.runs ≡ [] × self.new ≡ self.old)
            (λ run. self.old.chain
            ≡ record { runs = run ∷ self.new.chain.runs; base = self.new.chain.base }) }
        ensures merged_runs { self.new.merged_runs ≡ min self.old.merged_runs (length self.new.chain.runs) }
    {
        let popped = self.chain.pop();
        self.merged_runs = self.merged_runs.min(self.chain.run_count());
        popped
    }

    /// Declares all runs as merged: the page is now a base of its entries.
    pub fn mark_all_merged(&mut self)
        ensures { self.new
            ≡ record { chain = self.old.chain; merged_runs = length self.old.chain.runs } }
    {
        self.merged_runs = self.chain.run_count();
    }

    /// Sets the number of runs that count as merged to the oldest `merged_runs`. This undoes `mark_all_merged`.
    pub fn set_merged_runs(&mut self, merged_runs: usize)
        requires { merged_runs ≤ length self.old.chain.runs }
        ensures { self.new ≡ record { chain = self.old.chain; merged_runs = merged_runs } }
    {
        self.merged_runs = merged_runs;
    }

    /// Tightens the bounds on the number of entries to `known`.
    pub fn bound(&mut self, known: EntryBounds)
        requires fewest { known.fewest ≤ length (entries_of self.old.chain) }
        requires most { min (length (entries_of self.old.chain)) usize.MAX ≤ known.most }
        ensures { self.new ≡ self.old }
    {
        self.chain.bound(known);
    }

    /// Returns the chain in memory. This undoes `of`.
    pub fn into_chain(self) -> Chain<V, A>
        ensures { result ≡ self.chain }
    {
        self.chain
    }
}
