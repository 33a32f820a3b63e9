//! Merges the runs of a page with each other, and then with its base. Each merge is one pass over two lists.
ghost use Rattle.std.specs.Prelude.{◌≡◌, ◌<◌, ◌≤◌, ◌+◌, ◌-◌, ◌++◌, [], length, drop, reverse, vec_len, vec_capacity, IfOk};
ghost use Rattle.std.specs.Option.{option_copied};
ghost use Rattle.keys.specs.Order.{IsRising};
ghost use Rattle.delta_chain.specs.Layers.{AllRise, with_run};
ghost use Rattle.delta_chain.specs.Lent.{pairs_lent};
ghost use Rattle.delta_chain.specs.Merging.{pair_if, first_order, overlaid, joined_changes};

use crate::base::Base;
use crate::pairs::Pairs;
use crate::run::Run;
use keys::{Cell, Key, compare};
use std::alloc::{AllocError, Allocator};
use std::cmp::Ordering;

/// The entries of a base, borrowed.
pub(crate) fn lent_base<V, A: Allocator + Copy>(
    alloc: A,
    base: &Base<V, A>,
) -> Result<Pairs<'_, V, A>, AllocError>
    ensures entries { IfOk result (λ pairs. pairs ≡ base.now) }
    ensures rising { IfOk result (λ pairs. IsRising pairs) }
{
    let count = base.len();
    let mut lent = Vec::with_capacity(alloc, count)?;
    for at in 0..count {
        lent.push_reserved((base.key(at), base.cell(at)));
    }
    Ok(Pairs::of_list(lent))
}

// The changes of a run, borrowed.
fn lent_run<V, A: Allocator + Copy>(
    alloc: A,
    run: &Run<V, A>,
) -> Result<Pairs<'_, Option<V>, A>, AllocError>
    ensures changes { IfOk result (λ changes. changes ≡ run.now) }
    ensures rising { IsRising run.now }
{
    let count = run.len();
    let mut lent = Vec::with_capacity(alloc, count)?;
    for at in 0..count {
        lent.push_reserved((run.key(at), run.item(at)));
    }
    Ok(Pairs::of_list(lent))
}

/// The merged changes of these runs, borrowed: each key that a run contains, with the change of the newest such run.
/// The runs are given oldest first. Splits the list in two and merges each half first: a page that was read from a disk
/// may have as many runs as the disk has room for, and n runs then cost n * log n, with a recursion depth of log n.
pub(crate) fn merged<'a, V, A: Allocator + Copy>(
    alloc: A,
    runs: &'a [Run<V, A>],
) -> Result<Pairs<'a, Option<V>, A>, AllocError>
    ensures changes { IfOk result (λ changes. changes ≡ joined_changes (reverse runs.now)) }
    ensures rising { IfOk result (λ changes. AllRise {V = V} (reverse runs.now) []) }
{
    let Some((newest, others)) = runs.split_last() else {
        return Ok(Pairs::of_list(Vec::new(alloc)));
    };
    if others.is_empty() {
        return lent_run(alloc, newest);
    }
    let (older, newer) = runs.split_at(runs.len() / 2);
    let under = merged(alloc, older)?;
    let over = merged(alloc, newer)?;
    overlaid(alloc, &under, &over)
}

// The newer changes, and those older ones whose keys are not among them.
fn overlaid<'a, V, A: Allocator + Copy>(
    alloc: A,
    older: &Pairs<'a, Option<V>, A>,
    newer: &Pairs<'a, Option<V>, A>,
) -> Result<Pairs<'a, Option<V>, A>, AllocError>
    requires older { IsRising older.now }
    requires newer { IsRising newer.now }
    ensures { IfOk result (λ changes. changes ≡ overlaid older.now newer.now) }
{
    let count = newer.len();
    let Some(room) = older.len().checked_add(count) else {
        return Err(AllocError);
    };
    let mut lent = Vec::with_capacity(alloc, room)?;
    let mut from = 0;
    let mut at = 0;
    while at < count {
        let key = newer.key(at);
        match order_at(older, from, key) {
            Ordering::Less => {
                lent.push_reserved((older.key(from), older.cell(from)));
                from += 1;
            }
            Ordering::Equal => from += 1,
            Ordering::Greater => {
                lent.push_reserved((key, newer.cell(at)));
                at += 1;
            }
        }
    }
    push_rest(&mut lent, older, from);
    Ok(Pairs::of_list(lent))
}

/// The pairs with the changes applied: the pairs whose keys are not among the changes, and each changed key that has a
/// cell.
pub(crate) fn with_run<'a, V, A: Allocator + Copy>(
    alloc: A,
    under: &Pairs<'a, V, A>,
    run: &Pairs<'a, Option<V>, A>,
) -> Result<Pairs<'a, V, A>, AllocError>
    requires pairs { IsRising under.now }
    requires changes { IsRising run.now }
    ensures entries { IfOk result (λ pairs. pairs ≡ with_run under.now run.now) }
    ensures rising { IfOk result (λ pairs. IsRising pairs) }
{
    let changes = run.len();
    let Some(room) = under.len().checked_add(changes) else {
        return Err(AllocError);
    };
    let mut lent = Vec::with_capacity(alloc, room)?;
    let mut from = 0;
    let mut at = 0;
    while at < changes {
        let key = run.key(at);
        match order_at(under, from, key) {
            Ordering::Less => {
                lent.push_reserved((under.key(from), under.cell(from)));
                from += 1;
            }
            Ordering::Equal => from += 1,
            Ordering::Greater => {
                push_change(&mut lent, key, run.cell(at).as_ref());
                at += 1;
            }
        }
    }
    push_rest(&mut lent, under, from);
    Ok(Pairs::of_list(lent))
}

// Compares the key of the pair at place `at` to `key`. Past the last pair, returns `Greater`.
fn order_at<V, A: Allocator + Copy>(pairs: &Pairs<'_, V, A>, at: usize, key: &[u8]) -> Ordering
    ensures { result ≡ first_order (drop at pairs.now) key.now }
{
    if at < pairs.len() {
        compare(pairs.key(at), key)
    } else {
        Ordering::Greater
    }
}

// Appends the key with its cell, unless the change deletes the key. The list has room for it.
fn push_change<'a, V, A: Allocator + Copy>(
    lent: &mut Vec<(&'a [u8], &'a V), A>,
    key: &'a [u8],
    change: Option<&'a V>,
)
    requires { vec_len lent.old < vec_capacity lent.old }
    ensures pairs { pairs_lent lent.new.items
        ≡ pairs_lent lent.old.items ++ pair_if key.now (option_copied change.entry) }
    ensures count { vec_len lent.new ≤ vec_len lent.old + 1 }
    ensures room { vec_capacity lent.new ≡ vec_capacity lent.old }
{
    if let Some(cell) = change {
        lent.push_reserved((key, cell));
    }
}

// Appends the lower pairs from place `at` on. The list has room for them.
fn push_rest<'a, V, A: Allocator + Copy>(
    lent: &mut Vec<(&'a [u8], &'a V), A>,
    under: &Pairs<'a, V, A>,
    from: usize,
)
    requires { vec_len lent.old + (length under.now - from) ≤ vec_capacity lent.old }
    ensures { pairs_lent lent.new.items ≡ pairs_lent lent.old.items ++ drop from under.now }
{
    for at in from..under.len() {
        lent.push_reserved((under.key(at), under.cell(at)));
    }
}

pub(crate) fn copied<V: Cell<A> + Drop, A: Allocator + Copy>(
    alloc: A,
    pairs: &Pairs<'_, V, A>,
) -> Result<Vec<(Key<A>, V), A>, AllocError>
    ensures { IfOk result (λ all. all.items ≡ pairs.now) }
{
    let mut all = Vec::with_capacity(alloc, pairs.len())?;
    for at in 0..pairs.len() {
        let key = Key::from_bytes(alloc, pairs.key(at))?;
        let cell = pairs.cell(at).copy(alloc)?;
        all.push_reserved((key, cell));
    }
    Ok(all)
}
