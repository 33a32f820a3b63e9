//! Prepends a run to a leaf, and undoes it. A leaf that must be replaced only counts as replaced: its runs are merged
//! when too much would lie over the old base, or when the class of the leaf does not follow from the bounds on its
//! number of entries.
ghost use Rattle.std.specs.Prelude.{◌≡◌, ◌<◌, ◌≤◌, ℕ, [], true, length, min, IfOk, IfErr, IfSome, OnOk, OnErr};
ghost use Rattle.delta_chain.specs.Lazy.{seen};
ghost use Rattle.delta_chain.specs.Layers.{entries_of, with_run};
ghost use Rattle.index_page.specs.InMemory.{page_shown, lazy_of};
ghost use Rattle.index_page.specs.InMemory.InMemory.{LeafInMemory};
ghost use Rattle.index_page.specs.Page.{low_of, IsLeaf};
ghost use Rattle.page_runs.specs.AfterRun.{must_replace, after_run, class_after, class_of_size, is_replaced};
ghost use Rattle.page_runs.specs.LeafOutcome.{leaf_before, without_newest, CanUndoLeaf, leaf_class_now, is_leaf_replaced_now};

use crate::changes::LeafRun;
use crate::class::Class;
use crate::page_after::{WayBack, replace};
use delta_chain::{Chain, EntryBounds, LazyChain};
use index_page::PageInMemory;
use keys::{Settings, Value};
use std::alloc::{AllocError, Global};

// A leaf with at most this many runs over its base in memory may count them all as merged instead of being rebuilt.
const PENDING_RUNS: usize = 16;

// The most changes that these runs may then contain together. Each scan of the leaf reads them, and they must be merged
// eventually.
const PENDING_CHANGES: usize = 32;

/// The values of a leaf.
pub(crate) type LazyValues = LazyChain<Value<Global>, Global>;

/// What is needed to undo a run on a leaf.
#[derive(Drop)]
pub(crate) enum LeafWayBack {
    /// The run has no change, and the leaf is unchanged.
    Same,
    /// The run was prepended to the leaf.
    InFront,
    /// All runs, including the new one, now count as merged. Before, the oldest `merged_runs` of them did.
    AllMerged {
        class: Class,
        merged_runs: usize,
    },
    /// The leaf was rebuilt. Before, `merged_runs` runs counted as merged. What undoes it is boxed, because it is
    /// large, and few leaves are rebuilt.
    Replaced {
        way_back: Box<WayBack<Value<Global>>, Global>,
        merged_runs: usize,
    },
}

/// Applies the run to the leaf, and returns what undoes it; if allocation fails, the leaf is unchanged. If the run is
/// longer than `fan`, or would be the leaf's run number `chain + 1`, the leaf is replaced by a base of its entries.
/// Otherwise, the run is prepended in place. `bounds` bounds the number of entries afterwards.
pub(crate) fn put_leaf_run(
    alloc: Global,
    settings: &Settings,
    page: &mut PageInMemory<Global>,
    run: LeafRun,
    bounds: EntryBounds,
) -> Result<LeafWayBack, AllocError>
    requires leaf { IsLeaf (page_shown page.old) }
    requires fewest { bounds.fewest ≤ length (with_run (entries_of (lazy_of page.old).chain) run) }
    requires most { min (length (with_run (entries_of (lazy_of page.old).chain) run)) usize.MAX
        ≤ bounds.most }
    ensures low { OnOk result (page.new ≡ LeafInMemory (low_of (page_shown page.old)) (lazy_of page.new)) }
    ensures page { OnOk result
        (seen (lazy_of page.new) ≡ after_run settings.now (seen (lazy_of page.old)) run) }
    ensures class { IfOk result
        (λ way_back. leaf_class_now way_back ≡ class_after settings.now (seen (lazy_of page.old)) run) }
    ensures replaced { IfOk result (λ way_back.
        is_leaf_replaced_now way_back ≡ is_replaced settings.now (seen (lazy_of page.old)) run) }
    ensures can_undo { IfOk result (λ way_back. CanUndoLeaf (lazy_of page.new) way_back) }
    ensures before { IfOk result
        (λ way_back. leaf_before (lazy_of page.new) way_back ≡ lazy_of page.old) }
    ensures back { OnErr result (page.new ≡ page.old) }
{
    let Some(leaf) = page.as_leaf() else {
        unreachable!()
    };
    if run.len() == 0 {
        return Ok(LeafWayBack::Same);
    }
    // Only for the proof: no more runs count as merged than there are.
    let _merged_runs = leaf.merged_runs();
    if must_replace_leaf(settings, leaf, &run) {
        return replace_page(alloc, settings, page, run, bounds);
    }
    page.prepend(run, bounds)?;
    Ok(LeafWayBack::InFront)
}

// Applies a run to a leaf that it replaces.
fn replace_page(
    alloc: Global,
    settings: &Settings,
    page: &mut PageInMemory<Global>,
    run: LeafRun,
    bounds: EntryBounds,
) -> Result<LeafWayBack, AllocError>
    requires leaf { IsLeaf (page_shown page.old) }
    requires fewest { bounds.fewest ≤ length (with_run (entries_of (lazy_of page.old).chain) run) }
    requires most { min (length (with_run (entries_of (lazy_of page.old).chain) run)) usize.MAX
        ≤ bounds.most }
    ensures low { OnOk result (page.new ≡ LeafInMemory (low_of (page_shown page.old)) (lazy_of page.new)) }
    ensures page { OnOk result (seen (lazy_of page.new)
        ≡ record { runs = []; base = with_run (entries_of (lazy_of page.old).chain) run }) }
    ensures class { IfOk result (λ way_back. leaf_class_now way_back ≡ class_of_size settings.now
        (length (with_run (entries_of (lazy_of page.old).chain) run))) }
    ensures replaced { IfOk result (λ way_back. is_leaf_replaced_now way_back ≡ true) }
    ensures can_undo { IfOk result (λ way_back. CanUndoLeaf (lazy_of page.new) way_back) }
    ensures before { IfOk result
        (λ way_back. leaf_before (lazy_of page.new) way_back ≡ lazy_of page.old) }
    ensures back { OnErr result (page.new ≡ page.old) }
{
    let chain = page.take_leaf(alloc);
    match replaced_by(alloc, settings, chain, run, bounds) {
        Ok((chain, way_back)) => {
            page.put_leaf(chain);
            Ok(way_back)
        }
        Err(chain) => {
            page.put_leaf(chain);
            Err(AllocError)
        }
    }
}

// Prepends a run to a leaf that it replaces, and replaces the leaf.
fn replaced_by(
    alloc: Global,
    settings: &Settings,
    page: LazyValues,
    run: LeafRun,
    bounds: EntryBounds,
) -> Result<(LazyValues, LeafWayBack), LazyValues>
    requires fewest { bounds.fewest ≤ length (with_run (entries_of page.chain) run) }
    requires most { min (length (with_run (entries_of page.chain) run)) usize.MAX ≤ bounds.most }
    ensures page { IfOk result (λ after.
        seen after.0 ≡ record { runs = []; base = with_run (entries_of page.chain) run }) }
    ensures class { IfOk result (λ after. leaf_class_now after.1
        ≡ class_of_size settings.now (length (with_run (entries_of page.chain) run))) }
    ensures replaced { IfOk result (λ after. is_leaf_replaced_now after.1 ≡ true) }
    ensures can_undo { IfOk result (λ after. CanUndoLeaf after.0 after.1) }
    ensures before { IfOk result (λ after. leaf_before after.0 after.1 ≡ page) }
    ensures back { IfErr result (λ again. again ≡ page) }
{
    // Only for the proof: no more runs count as merged than there are.
    let _merged_runs = page.merged_runs();
    let mut page = page;
    match page.prepend(run) {
        Err((_refused, _run)) => Err(page),
        Ok(()) => {
            page.bound(bounds);
            replace_leaf(alloc, settings, page, bounds)
        }
    }
}

// Whether the leaf must be replaced: the run is longer than `fan`, or would give the leaf more runs than `chain`.
fn must_replace_leaf(settings: &Settings, page: &LazyValues, run: &LeafRun) -> bool
    ensures { result ≡ must_replace settings.now (seen page.now) run.now }
{
    run.len() > settings.fan as usize || page.depth() >= u64::from(settings.chain)
}

// Replaces the leaf, to which a run was just prepended, by a base of its entries: a new base, or by counting all runs
// as merged. A fat leaf is split next, from its pairs, so nobody would read its new base. A thin leaf may have no
// neighbour to be merged with, and stay: without the bound on its runs it would keep every old value.
fn replace_leaf(
    alloc: Global,
    settings: &Settings,
    page: LazyValues,
    bounds: EntryBounds,
) -> Result<(LazyValues, LeafWayBack), LazyValues>
    requires some { page.merged_runs < length page.chain.runs }
    requires fewest { bounds.fewest ≤ length (entries_of page.chain) }
    requires most { min (length (entries_of page.chain)) usize.MAX ≤ bounds.most }
    ensures page { IfOk result
        (λ after. seen after.0 ≡ record { runs = []; base = entries_of page.chain }) }
    ensures class { IfOk result (λ after. leaf_class_now after.1
        ≡ class_of_size settings.now (length (entries_of page.chain))) }
    ensures replaced { IfOk result (λ after. is_leaf_replaced_now after.1 ≡ true) }
    ensures can_undo { IfOk result (λ after. CanUndoLeaf after.0 after.1) }
    ensures before { IfOk result (λ after. leaf_before after.0 after.1 ≡ without_newest page) }
    ensures back { IfErr result (λ again. again ≡ without_newest page) }
{
    match class_within(settings, bounds) {
        Some(class) if is_fat(class) || is_little(&page) => Ok(mark_all_merged(page, class)),
        _ => merge(alloc, settings, page),
    }
}

// The class of a replaced page, if these bounds determine it.
fn class_within(settings: &Settings, bounds: EntryBounds) -> Option<Class>
    ensures { IfSome result (λ class. (n : ℕ) → bounds.fewest ≤ n → min n usize.MAX ≤ bounds.most →
        class ≡ class_of_size settings.now n) }
{
    let quarter = (settings.fan / 4) as usize;
    let fan = settings.fan as usize;
    if bounds.fewest > fan {
        Some(Class::Fat)
    } else if bounds.most < quarter {
        Some(Class::Thin)
    } else if bounds.fewest >= quarter && bounds.most <= fan {
        Some(Class::Changed)
    } else {
        None
    }
}

// Whether a page of this class is split.
fn is_fat(class: Class) -> bool {
    matches!(class, Class::Fat)
}

// Whether few enough runs and changes lie over the base in memory.
fn is_little(page: &LazyValues) -> bool {
    page.whole().run_count() <= PENDING_RUNS && page.whole().change_count() <= PENDING_CHANGES
}

// Counts all runs as merged.
fn mark_all_merged(page: LazyValues, class: Class) -> (LazyValues, LeafWayBack)
    requires { page.merged_runs < length page.chain.runs }
    ensures page { seen result.0 ≡ record { runs = []; base = entries_of page.chain } }
    ensures class { leaf_class_now result.1 ≡ class }
    ensures replaced { is_leaf_replaced_now result.1 ≡ true }
    ensures can_undo { CanUndoLeaf result.0 result.1 }
    ensures before { leaf_before result.0 result.1 ≡ without_newest page }
{
    let merged_runs = page.merged_runs();
    let mut page = page;
    page.mark_all_merged();
    (page, LeafWayBack::AllMerged { class, merged_runs })
}

// Merges all runs into a new base.
fn merge(
    alloc: Global,
    settings: &Settings,
    page: LazyValues,
) -> Result<(LazyValues, LeafWayBack), LazyValues>
    requires { page.merged_runs < length page.chain.runs }
    ensures page { IfOk result
        (λ after. seen after.0 ≡ record { runs = []; base = entries_of page.chain }) }
    ensures class { IfOk result (λ after. leaf_class_now after.1
        ≡ class_of_size settings.now (length (entries_of page.chain))) }
    ensures replaced { IfOk result (λ after. is_leaf_replaced_now after.1 ≡ true) }
    ensures can_undo { IfOk result (λ after. CanUndoLeaf after.0 after.1) }
    ensures before { IfOk result (λ after. leaf_before after.0 after.1 ≡ without_newest page) }
    ensures back { IfErr result (λ again. again ≡ without_newest page) }
{
    let merged_runs = page.merged_runs();
    match replace(alloc, settings, page.into_chain()) {
        Ok((chain, way_back)) => match Box::new(alloc, way_back) {
            Ok(way_back) => Ok((
                LazyChain::of(chain),
                LeafWayBack::Replaced {
                    way_back,
                    merged_runs,
                },
            )),
            Err(refused) => {
                let (chain, _run) = refused.value.undo(alloc, chain);
                Err(late(chain, merged_runs))
            }
        },
        Err((chain, _run)) => Err(late(chain, merged_runs)),
    }
}

// The chain with its oldest `merged_runs` runs counted as merged.
fn late(chain: Chain<Value<Global>, Global>, merged_runs: usize) -> LazyValues
    requires { merged_runs ≤ length chain.runs }
    ensures { result ≡ record { chain = chain; merged_runs = merged_runs } }
{
    let mut page = LazyChain::of(chain);
    page.set_merged_runs(merged_runs);
    page
}

// The leaf without its newest run; `merged_runs` of the other runs count as merged.
fn taken_off(page: LazyValues, merged_runs: usize) -> LazyValues
    requires { merged_runs < length page.chain.runs }
    ensures { result ≡ record { chain = (without_newest page).chain; merged_runs = merged_runs } }
{
    let mut page = page;
    let _run = page.pop();
    page.set_merged_runs(merged_runs);
    page
}

impl LeafWayBack {
    /// Returns the leaf before the run. Does not allocate.
    pub(crate) fn undo(self, alloc: Global, page: LazyValues) -> LazyValues
        requires { CanUndoLeaf page self }
        ensures { result ≡ leaf_before page self }
    {
        match self {
            LeafWayBack::Same => page,
            LeafWayBack::InFront => {
                let merged_runs = page.merged_runs();
                taken_off(page, merged_runs)
            }
            LeafWayBack::AllMerged {
                class: _class,
                merged_runs,
            } => taken_off(page, merged_runs),
            LeafWayBack::Replaced {
                way_back,
                merged_runs,
            } => {
                let (chain, _run) = Box::into_inner(way_back).undo(alloc, page.into_chain());
                late(chain, merged_runs)
            }
        }
    }

    pub(crate) fn class(&self) -> Class
        ensures { result ≡ leaf_class_now self.now }
    {
        match self {
            LeafWayBack::Same => Class::Same,
            LeafWayBack::InFront => Class::Changed,
            LeafWayBack::AllMerged { class, .. } => *class,
            LeafWayBack::Replaced { way_back, .. } => way_back.class(),
        }
    }

    /// Whether the leaf was replaced, instead of getting a run in front.
    pub(crate) fn is_replaced(&self) -> bool
        ensures { result ≡ is_leaf_replaced_now self.now }
    {
        match self {
            LeafWayBack::Same => false,
            LeafWayBack::InFront => false,
            LeafWayBack::AllMerged { .. } => true,
            LeafWayBack::Replaced { way_back, .. } => way_back.is_replaced(),
        }
    }
}
