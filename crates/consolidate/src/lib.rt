//! Consolidation (the Bw-tree's word): replaces a page's runs and base by one new base.
#![tactic(auto)]

ghost use Rattle.std.specs.Prelude.{◌≡◌, IfOk, OnErr};
ghost use Rattle.delta_chain.specs.Layers.{entries_of};
ghost use Rattle.consolidate.specs.PutBack.{put_back};

use delta_chain::{Base, Chain, Guess};
use keys::Cell;
use std::alloc::{AllocError, Allocator};

// `take_base` moves each cell out of the run that holds it. A chain with more runs than this has no list of its newest
// changes, so it would be searched run by run, which costs more than copying the cells.
const FEW_RUNS: u64 = 64;

/// Returns a base of the page's entries: the keys that are present, with copies of their cells. Reads `chain` only.
pub fn consolidate<V: Cell<A> + Drop, A: Allocator + Copy>(
    alloc: A,
    chain: &Chain<V, A>,
) -> Result<Base<V, A>, AllocError>
    ensures { IfOk result (λ base. base ≡ entries_of chain.now) }
{
    let pairs = chain.pairs(alloc)?;
    pairs.copied_base(alloc)
}

/// Moves the page's entries out of `chain` into a base: the keys that are present, with their cells, or with copies of
/// the cells if the chain has many runs. The caller must then drop the chain or refill it by `put_back`. If allocation
/// fails, the chain is unchanged.
pub fn take_base<V: Cell<A> + Drop, A: Allocator + Copy>(
    alloc: A,
    chain: &mut Chain<V, A>,
) -> Result<Base<V, A>, AllocError>
    ensures base { IfOk result (λ base. base ≡ entries_of chain.old) }
    ensures back { IfOk result (λ base. put_back chain.new base ≡ chain.old) }
    ensures err { OnErr result (chain.new ≡ chain.old) }
{
    if chain.depth() > FEW_RUNS {
        return consolidate(alloc, chain);
    }
    let mut base = chain.pairs(alloc)?.blank_base(alloc)?;
    let mut guess = Guess::start();
    for at in 0..base.len() {
        let mut cell = V::blank(alloc);
        chain.swap_cell(&base.key_ref(at), &mut cell, &mut guess);
        let _blank = base.exchange(at, cell);
    }
    Ok(base)
}

/// Undoes `take_base`: moves the cells of the base back into the chain that they were taken from. Does not allocate.
pub fn put_back<V: Cell<A> + Drop, A: Allocator + Copy>(
    alloc: A,
    chain: &mut Chain<V, A>,
    base: Base<V, A>,
)
    ensures { chain.new ≡ put_back chain.old base }
{
    let mut base = base;
    let mut guess = Guess::start();
    let mut left = base.len();
    while left > 0 {
        left -= 1;
        let mut cell = base.exchange(left, V::blank(alloc));
        chain.swap_cell(&base.key_ref(left), &mut cell, &mut guess);
    }
}
