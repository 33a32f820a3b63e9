//! Reads memory of leaves ahead of the work on them.
use crate::changes::LeafChain;
use crew::Depth;
use delta_chain::KeyList;
use keys::{Command, KeyRef};
use routing::PageRun;
use std::alloc::Global;

// How many entries of a list are in one line of the cache, at most.
const IN_LINE: usize = 4;

/// Reads memory of a leaf and of the commands of its run: near, the commands and the leaf's parts; far, the lists that a
/// search for the commands' keys reads. The result means nothing.
pub(crate) fn look_at(
    commands: &[Command<Global>],
    page_run: &PageRun,
    leaf: &LeafChain,
    depth: Depth,
) -> u64 {
    match depth {
        Depth::Near => look_near(commands, page_run, leaf),
        Depth::Far => look_far(leaf),
    }
}

fn look_near(commands: &[Command<Global>], page_run: &PageRun, leaf: &LeafChain) -> u64 {
    let mut sum = leaf.run_count() as u64;
    sum = sum.wrapping_add(leaf.base().len() as u64);
    for place in page_run.places() {
        if let Some(command) = commands.get(*place) {
            sum = sum.wrapping_add(command.key().len() as u64);
        }
    }
    sum
}

fn look_far(leaf: &LeafChain) -> u64 {
    let sum = count_after_first(leaf.base());
    match leaf.newest_changes() {
        Some(changes) => sum.wrapping_add(count_after_first(&changes)),
        None => sum,
    }
}

// Of some keys in each line of the cache, how many are after the empty key.
fn count_after_first(keys: &impl KeyList) -> u64 {
    let empty = KeyRef::new(&[]);
    let count = keys.len();
    let mut sum: u64 = 0;
    for line in 0..count.div_ceil(IN_LINE) {
        let at = line.saturating_mul(IN_LINE);
        if at < count && keys.compare_at(at, &empty).is_gt() {
            sum = sum.wrapping_add(1);
        }
    }
    sum
}
