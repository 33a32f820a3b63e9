//! Tidying: merges leaves that deletes have emptied into their neighbours, by batches that do not change the contents
//! of the store.
ghost use Rattle.std.specs.Prelude.{◌≡◌, ◌-◌, IsTrue, IfOk, OnOk, IfErr, false};
ghost use Rattle.std.specs.Option.{option_copied};
ghost use Rattle.keys.specs.Bytes.{Bytes, Pairs};
ghost use Rattle.keys.specs.Order.{IsRising};
ghost use Rattle.keys.specs.OrderedMap.{value_at};
ghost use Rattle.keys.specs.Step.{map_after_all};
ghost use Rattle.keys.specs.declared.fault.Fault.TheVariants.{NoMemory};
ghost use Rattle.mapping.specs.Levels.{contents};
ghost use Rattle.mapping.specs.TreeInMemory.{tree_of};
ghost use Rattle.engine.specs.Refusal.{IsAdmitted, is_crew};
ghost use Rattle.engine.specs.State.{IsOnlyInMemory};
ghost use Rattle.engine.specs.Tidied.{IsTidied, IsTidyFault, counted_pages};

use crate::refusal::admit_crew;
use crate::store::Store;
use crate::store::copy::push_put;
use crew::{Crew, NoGate};
use flush_log::Disk;
use keys::{Command, Fault, Pid, Settings};
use mapping::Tree;
use mapping::laws::the_contents_of_a_proper_tree_rise;
use std::alloc::{AllocError, Global};
use std::thread::Threads;

// How many leaves a batch may have commands for: it has 65,535 commands at most, and a leaf gets up to two.
const MOST_LEAVES: usize = 32_767;

// A leaf with few pairs, and its parent, by their page ids.
#[derive(Clone, Copy)]
struct ThinLeaf {
    pid: u64,
    parent: u64,
}

// For which of these leaves a batch of tidying has commands.
#[derive(Clone, Copy, PartialEq, Eq)]
enum Stage {
    // Those with fewer than `chain` runs: each gets one more.
    Fill,
    // Of the leaves that their next run replaces: one of each parent, or all if the next run also replaces the parent.
    JoinOne,
    // All leaves that their next run replaces.
    JoinAll,
}

// The low key of a page that is a leaf with few pairs, and how many runs it has.
fn thin_leaf<'a>(tree: &'a Tree<Global>, pid: u64, fan: u32) -> Option<(&'a [u8], u64)> {
    let page = tree.page(Pid(pid))?;
    let leaf = page.as_leaf()?;
    if leaf.whole().fewest_entries() < (fan / 4) as usize {
        Some((page.low(), leaf.depth()))
    } else {
        None
    }
}

// How many runs an index page has.
fn index_depth(tree: &Tree<Global>, pid: u64) -> Option<u64> {
    let page = tree.page(Pid(pid))?;
    Some(page.as_index()?.depth())
}

// Adds those children of a page that are leaves with few pairs, while there are fewer than `most`. The first child is
// left out, because leaves are merged into the leaf before them.
fn push_thin_children(
    tree: &Tree<Global>,
    parent: u64,
    fan: u32,
    most: usize,
    thin: &mut Vec<ThinLeaf>,
) -> Result<(), AllocError> {
    let Some(page) = tree.page(Pid(parent)) else {
        return Ok(());
    };
    let Some(children) = page.child_list() else {
        return Ok(());
    };
    for at in 1..children.len() {
        let pid = children.cell(at).0;
        if thin.len() < most && thin_leaf(tree, pid, fan).is_some() {
            thin.push(ThinLeaf { pid, parent })?;
        }
    }
    Ok(())
}

// The first leaves with few pairs, `most` at most, parent by parent.
fn thin_leaves(
    alloc: Global,
    tree: &Tree<Global>,
    fan: u32,
    most: usize,
) -> Result<Vec<ThinLeaf>, AllocError> {
    let mut thin = Vec::new(alloc);
    for pid in tree.pids() {
        push_thin_children(tree, pid, fan, most, &mut thin)?;
    }
    Ok(thin)
}

// The low keys of the leaves for which the stage has commands.
fn due_lows<'a>(
    alloc: Global,
    tree: &'a Tree<Global>,
    settings: &Settings,
    thin: &[ThinLeaf],
    stage: Stage,
) -> Result<Vec<&'a [u8]>, AllocError> {
    let chain = u64::from(settings.chain);
    let mut due = Vec::new(alloc);
    let mut joined = None;
    for leaf in thin {
        let Some((low, depth)) = thin_leaf(tree, leaf.pid, settings.fan) else {
            continue;
        };
        let is_due = match stage {
            Stage::Fill => depth < chain,
            Stage::JoinOne => {
                let is_first = joined != Some(leaf.parent);
                depth >= chain && (is_first || index_depth(tree, leaf.parent) >= Some(chain))
            }
            Stage::JoinAll => depth >= chain,
        };
        if is_due {
            due.push(low)?;
            joined = Some(leaf.parent);
        }
    }
    Ok(due)
}

// The stage of the batch with this number: the first `chain` batches fill, the next `chain` join one leaf of each
// parent, and the last one joins all.
fn stage_of(number: u32, chain: u32) -> Stage {
    if number < chain {
        Stage::Fill
    } else if number < chain.saturating_mul(2) {
        Stage::JoinOne
    } else {
        Stage::JoinAll
    }
}

/// How many pages a tree has.
pub(crate) fn count_pages(tree: &Tree<Global>) -> u64
    ensures { result ≡ counted_pages (tree_of tree.now) }
{
    let mut count = 0u64;
    'pages: for pid in tree.pids() {
        count = count.saturating_add(1);
    }
    count
}

// Appends commands on a key that do not change a map that has this value there: a put of the value, or if there is
// none, a put and a delete.
fn push_neutral(
    alloc: Global,
    key: &[u8],
    value: Option<&[u8]>,
    commands: &mut Vec<Command<Global>>,
) -> Result<(), AllocError>
    ensures { OnOk result ((m : Pairs Bytes) → IsRising m →
        value_at key.now m ≡ option_copied value.entry →
        map_after_all m commands.old.items ≡ m → map_after_all m commands.new.items ≡ m) }
{
    match value {
        Some(bytes) => push_put(alloc, key, bytes, commands)?,
        None => {
            push_put(alloc, key, b"", commands)?;
            commands.push(Command::del(alloc, key)?)?;
        }
    }
    Ok(())
}

impl<D: Disk> Store<D> {
    // Commands for the leaves of this stage that do not change the contents of the store.
    fn neutral_batch(&self, thin: &[ThinLeaf], stage: Stage) -> Result<Vec<Command<Global>>, Fault>
        ensures neutral { IfOk result (λ commands.
            map_after_all (contents self.now.store.tree) commands.items
            ≡ contents self.now.store.tree) }
        ensures err { IfErr result (λ fault. fault ≡ NoMemory) }
    {
        // Only for the proof.
        the_contents_of_a_proper_tree_rise();
        let due = due_lows(self.alloc, &self.tree, &self.settings, thin, stage)?;
        let mut commands = Vec::new(self.alloc);
        for low in due {
            push_neutral(self.alloc, low, self.get(low), &mut commands)?;
        }
        Ok(commands)
    }

    // Executes one batch for the leaves of this stage, if there are any. It does not change the contents of the store.
    fn tidy_once(
        &mut self,
        rt: &(impl Threads + Sync),
        crew: Crew,
        thin: &[ThinLeaf],
        stage: Stage,
    ) -> Result<(), Fault>
        requires fine { self.old.has_failed ≡ false }
        requires crew { IsTrue (is_crew crew) }
        ensures tidied { IsTidied self.old.settings self.old.store self.new.store }
        ensures rest { IsOnlyInMemory self.old self.new }
        ensures refused { IfErr result (IsTidyFault self.old.settings) }
    {
        let commands = self.neutral_batch(thin, stage)?;
        if commands.is_empty() {
            return Ok(());
        }
        self.batch(rt, crew, &NoGate, &commands)?;
        Ok(())
    }

    /// Merges leaves that deletes and wipes have left with fewer than a quarter of `fan` pairs into the leaves before
    /// them, at most `most` leaves, and returns by how many pages the store has shrunk. A leaf is replaced only when it
    /// gets more than `chain` runs, and if keys only move on, as in a queue, no command goes to such a leaf any more.
    /// So this call executes batches that do not change the contents of the store and that all these leaves share: the
    /// first `chain` batches give each leaf runs, until its next run replaces it; the next `chain` batches each merge
    /// one leaf of each parent, so that the parent gets runs too, and is itself replaced and merged if few children
    /// remain; and batch number `2 chain + 1` merges all remaining ones. Nothing is written to the disk before the next
    /// flush.
    ///
    /// Examines each page of the store once, counts the pages before and after, and allocates the page ids of these
    /// leaves and the batches. Call it if `verify` counts many more pages than the pairs account for
    /// (`docs/EMBEDDING.md`).
    ///
    /// Fails with `Fault::Failed` if the store has failed, then with `Fault::BadCrew` if the crew is out of range.
    /// Otherwise it may fail with `Fault::NoMemory` or `Fault::Spent`, like a batch. After an `Err` the store has the
    /// same contents, possibly in fewer pages if some batches were executed.
    pub fn tidy(
        &mut self,
        rt: &(impl Threads + Sync),
        crew: Crew,
        most: usize,
    ) -> Result<u64, Fault>
        // The contents are unchanged, and the tree is the result of some batches, whether the call succeeds or not.
        ensures tidied { IsTidied self.old.settings self.old.store self.new.store }
        ensures pages { IfOk result (λ count.
            count ≡ counted_pages self.old.store.tree - counted_pages self.new.store.tree) }
        ensures rest { IsOnlyInMemory self.old self.new }

        ensures admitted { IsAdmitted (is_crew crew) self.old result self.new }
        ensures refused { self.old.has_failed ≡ false → IsTrue (is_crew crew) →
            IfErr result (IsTidyFault self.old.settings) }
    {
        if self.has_failed {
            return Err(Fault::Failed);
        }
        admit_crew(crew)?;
        let before = count_pages(&self.tree);
        let chain = self.settings.chain;
        let most = most.min(MOST_LEAVES);
        let thin = thin_leaves(self.alloc, &self.tree, self.settings.fan, most)?;
        for round in 0..chain.saturating_mul(2).saturating_add(1) {
            self.tidy_once(rt, crew, &thin, stage_of(round, chain))?;
        }
        Ok(before.saturating_sub(count_pages(&self.tree)))
    }
}
