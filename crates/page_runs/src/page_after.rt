//! Prepends a run to a page, and undoes it, for pages of either kind.
ghost use Rattle.std.specs.Prelude.{◌≡◌, ◌<◌, [], true, length, IfOk, IfErr};
ghost use Rattle.delta_chain.specs.Layers.{entries_of};
ghost use Rattle.page_runs.specs.AfterRun.{must_replace, in_front, after_run, class_after, class_of_size, is_replaced};
ghost use Rattle.page_runs.specs.Outcome.{popped, newest, page_before, run_before, CanUndo, class_now, is_replaced_now};

use crate::class::Class;
use consolidate::{put_back, take_base};
use delta_chain::{Chain, Run};
use keys::{Cell, Settings};
use std::alloc::Global;

/// What is needed to undo a run on a page.
#[derive(Drop)]
pub(crate) enum WayBack<V> {
    /// The run has no change, and the page is unchanged.
    Same(Run<V, Global>),
    /// The run was prepended to the page.
    InFront,
    /// The page was rebuilt. Everything of the old page with the run in front is retained, except for the cells that
    /// were moved into the new page.
    Replaced {
        class: Class,
        emptied: Chain<V, Global>,
    },
}

/// Returns the page after the run and what undoes it; or, if allocation fails, the unchanged page and the run. If the
/// run is longer than `fan`, or would be the page's run number `chain + 1`, the page is replaced by a base of its
/// entries.
pub(crate) fn put_run<V: Cell<Global> + Drop>(
    alloc: Global,
    settings: &Settings,
    page: Chain<V, Global>,
    run: Run<V, Global>,
) -> Result<(Chain<V, Global>, WayBack<V>), (Chain<V, Global>, Run<V, Global>)>
    ensures page { IfOk result (λ after. after.0 ≡ after_run settings.now page run) }
    ensures class { IfOk result (λ after. class_now after.1 ≡ class_after settings.now page run) }
    ensures replaced { IfOk result
        (λ after. is_replaced_now after.1 ≡ is_replaced settings.now page run) }
    ensures can_undo { IfOk result (λ after. CanUndo after.0 after.1) }
    ensures page_before { IfOk result (λ after. page_before after.0 after.1 ≡ page) }
    ensures run_before { IfOk result (λ after. run_before after.0 after.1 ≡ run) }
    ensures page_back { IfErr result (λ again. again.0 ≡ page) }
    ensures run_back { IfErr result (λ again. again.1 ≡ run) }
{
    if run.len() == 0 {
        return Ok((page, WayBack::Same(run)));
    }
    let must_replace = must_replace(settings, &page, &run);
    let mut page = page;
    match page.prepend(run) {
        Err((_refused, run)) => Err((page, run)),
        Ok(()) if must_replace => replace(alloc, settings, page),
        Ok(()) => Ok((page, WayBack::InFront)),
    }
}

// Whether the page must be replaced: the run is longer than `fan`, or would make the chain longer than `chain`.
fn must_replace<V>(settings: &Settings, page: &Chain<V, Global>, run: &Run<V, Global>) -> bool
    ensures { result ≡ must_replace settings.now page.now run.now }
{
    run.len() > settings.fan as usize || page.depth() >= u64::from(settings.chain)
}

/// Replaces the page, to which a run was just prepended, by a base of its entries. Their cells are moved, or copied if
/// the page has many runs.
pub(crate) fn replace<V: Cell<Global> + Drop>(
    alloc: Global,
    settings: &Settings,
    before: Chain<V, Global>,
) -> Result<(Chain<V, Global>, WayBack<V>), (Chain<V, Global>, Run<V, Global>)>
    requires { 0 < length before.runs }
    ensures page { IfOk result (λ after. after.0 ≡ record { runs = []; base = entries_of before }) }
    ensures class { IfOk result
        (λ after. class_now after.1 ≡ class_of_size settings.now (length (entries_of before))) }
    ensures replaced { IfOk result (λ after. is_replaced_now after.1 ≡ true) }
    ensures can_undo { IfOk result (λ after. CanUndo after.0 after.1) }
    ensures page_before { IfOk result (λ after. page_before after.0 after.1 ≡ popped before) }
    ensures run_before { IfOk result (λ after. run_before after.0 after.1 ≡ newest before.runs) }
    ensures back { IfErr result (λ again. before ≡ in_front again.0 again.1) }
{
    let mut emptied = before;
    match take_base(alloc, &mut emptied) {
        Ok(base) => {
            let class = class_of(settings, base.len());
            Ok((Chain::of_base(base), WayBack::Replaced { class, emptied }))
        }
        Err(_) => Err(popped(emptied)),
    }
}

// The class of a replaced page with this many entries.
fn class_of(settings: &Settings, entries: usize) -> Class
    ensures { result ≡ class_of_size settings.now entries }
{
    if entries < (settings.fan / 4) as usize {
        Class::Thin
    } else if entries > settings.fan as usize {
        Class::Fat
    } else {
        Class::Changed
    }
}

fn popped<V: Drop>(page: Chain<V, Global>) -> (Chain<V, Global>, Run<V, Global>)
    requires { 0 < length page.runs }
    ensures { page ≡ in_front result.0 result.1 }
{
    let mut page = page;
    match page.pop() {
        Some(run) => (page, run),
        None => unreachable!(),
    }
}

impl<V: Cell<Global> + Drop> WayBack<V> {
    /// Returns the page before the run, and the run: moves the cells back, and removes the run. Does not allocate.
    pub(crate) fn undo(
        self,
        alloc: Global,
        page: Chain<V, Global>,
    ) -> (Chain<V, Global>, Run<V, Global>)
        requires { CanUndo page self }
        ensures page { result.0 ≡ page_before page self }
        ensures run { result.1 ≡ run_before page self }
    {
        match self {
            WayBack::Same(run) => (page, run),
            WayBack::InFront => popped(page),
            WayBack::Replaced {
                class: _class,
                emptied,
            } => {
                let mut before = emptied;
                put_back(alloc, &mut before, page.into_base());
                popped(before)
            }
        }
    }
}

impl<V> WayBack<V> {
    pub(crate) fn class(&self) -> Class
        ensures { result ≡ class_now self.now }
    {
        match self {
            WayBack::Same(_) => Class::Same,
            WayBack::InFront => Class::Changed,
            WayBack::Replaced { class, .. } => *class,
        }
    }

    /// Whether the page after the run is a new one.
    pub(crate) fn is_replaced(&self) -> bool
        ensures { result ≡ is_replaced_now self.now }
    {
        matches!(self, WayBack::Replaced { .. })
    }
}
