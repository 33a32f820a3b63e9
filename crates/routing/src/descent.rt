//! Routes a batch down the tree, level by level, with the sorted places split among the pages.
ghost use Rattle.std.specs.Prelude.{◌≡◌, ◌-◌, ◌/◌, ◌<◌, ◌≤◌, ◌∷◌, ◌++◌, List, [], length, take, drop, flat_map, IfOk, IfErr, OnOk};
ghost use Rattle.std.specs.List.{AllByRecursion, list_any};
ghost use Rattle.std.specs.Option.{option_copied};
ghost use Rattle.std.specs.Thread.{IsSync};
ghost use Rattle.keys.specs.CommandKey.{is_ranged};
ghost use Rattle.keys.specs.declared.command.Command.{Command};
ghost use Rattle.keys.specs.declared.fault.Fault.TheVariants.{NoMemory};
ghost use Rattle.mapping.specs.Levels.{levels_of};
ghost use Rattle.mapping.specs.Proper.{AreLevels, HoldsItsLevels};
ghost use Rattle.mapping.specs.TreeInMemory.{AreAllHome, tree_of};
ghost use Rattle.routing.specs.Keyed.{places_of, AreKeyed};
ghost use Rattle.routing.specs.Routes.{ranges};
ghost use Rattle.routing.specs.Runs.{AreRunsOf};
ghost use Rattle.routing.specs.SortedPlaces.{AreSortedPlaces};
ghost use Rattle.routing.specs.Shares.{share_of_lent, lent_shares, all_of, root_shares, shares_below, shares_down, CanGoDown, next_key, CanHandDownKeyed, CanHandDownShare, is_met, ArePoints, AreReadyShares, AreKeyedShares, share_below, HasEachPlaceOnce, IsInBatchOrder, AreInBatchOrder};

use crate::batch::BatchWithEnds;
use crate::page_run::PageRun;
use crate::reaching::{going_on, has_range_at, without_idle};
use crate::share::Share;
use crate::sort::{Keyed, count_below, in_batch_order, in_key_order, sharing, sorted_places};
use index_page::Page;
use keys::{Fault, Pid};
use mapping::Tree;
use smallvec::SmallVec;
use std::alloc::{AllocError, Global};
use std::thread::{Threads, join};

// Workers do not share a level with fewer pages than this, because starting a thread would take longer.
const LEAST_PAGES: usize = 32;

/// Returns, for each leaf that a command of the batch goes to, its page id and the places of these commands, from left
/// to right. Leaves out scans and wipes that find nothing: if a wipe deletes all of a leaf and the batch puts nothing
/// into it, later scans and wipes that begin in an earlier leaf do not visit it. A scan with a closer end goes to no
/// leaf at or after that end.
///
/// Sorts the commands once and visits each index page on their way once. `workers` threads, including the caller's,
/// share a long batch; the sort uses as many threads as there are processors. With one worker no thread is started. The
/// tree must be proper, with no page checked out. Fails only with `Fault::NoMemory`.
pub fn route(
    rt: &(impl Threads + Sync),
    workers: usize,
    alloc: Global,
    tree: &Tree<Global>,
    batch: &BatchWithEnds<'_>,
) -> Result<Vec<PageRun>, Fault>
    requires home { AreAllHome tree.now }
    requires held { HoldsItsLevels (tree_of tree.now) }
    requires levels { AreLevels (levels_of (tree_of tree.now)) }
    ensures ok { IfOk result (λ runs.
        AreRunsOf batch.now (ranges (levels_of (tree_of tree.now)).level) runs.items) }
    ensures err { IfErr result (λ fault. fault ≡ NoMemory) }
{
    let workers = sharing(workers, batch.len());
    let keyed = sorted_places(rt, workers, alloc, batch)?;
    let runs = route_sorted(rt, workers, alloc, tree, batch, &keyed)?;
    Ok(runs)
}

// `route` of a batch whose places are sorted: descends from the root.
fn route_sorted(
    rt: &(impl Threads + Sync),
    workers: usize,
    alloc: Global,
    tree: &Tree<Global>,
    batch: &BatchWithEnds<'_>,
    keyed: &[Keyed<'_>],
) -> Result<Vec<PageRun>, AllocError>
    requires home { AreAllHome tree.now }
    requires held { HoldsItsLevels (tree_of tree.now) }
    requires levels { AreLevels (levels_of (tree_of tree.now)) }
    requires sorted { AreSortedPlaces batch.now (places_of keyed.now) }
    requires keys { AreKeyed batch.now keyed.now }
    ensures { IfOk result (λ runs.
        AreRunsOf batch.now (ranges (levels_of (tree_of tree.now)).level) runs.items) }
{
    let ranged = batch.has_ranges();
    let levels = tree.height().saturating_sub(1) as usize;
    let shares = root_share(alloc, tree.root(), keyed)?;
    runs_below(rt, workers, alloc, tree, batch, ranged, levels, &shares)
}

// The runs of the leaves `levels` levels below the pages of these shares. Workers share a level with many pages. The
// recursion is at most 64 levels deep, and one deeper for each halving of the workers; all other work is in separate
// functions, to keep its stack frame small.
#[cycle(below)]
fn runs_below<R: Threads + Sync>(
    rt: &R,
    workers: usize,
    alloc: Global,
    tree: &Tree<Global>,
    batch: &BatchWithEnds<'_>,
    ranged: bool,
    levels: usize,
    shares: &[Share<'_, '_>],
) -> Result<Vec<PageRun>, AllocError>
    requires home { AreAllHome tree.now }
    requires ranged { ranged ≡ list_any is_ranged batch.now }
    requires ready { CanGoDown (tree_of tree.now).pages batch.now levels (lent_shares shares.now) }
    requires keys { AreKeyedShares batch.now shares.now }
    ensures { IfOk result (λ runs. AreInBatchOrder
        (shares_down (tree_of tree.now).pages batch.now levels (lent_shares shares.now))
        runs.items) }
{
    if workers > 1 && shares.len() >= LEAST_PAGES {
        let (low, high) = shares.split_at(shares.len() / 2);
        return runs_of_both(rt, workers, alloc, tree, batch, ranged, levels, low, high);
    }
    if levels == 0 {
        return each_run(alloc, batch, ranged, shares);
    }
    let below = one_level_down(alloc, tree, batch, ranged, shares)?;
    runs_below(rt, workers, alloc, tree, batch, ranged, levels - 1, &below)
}

// The runs below the first list of shares, followed by those below the second list, computed by two threads.
#[inline(never)]
#[cycle(below)]
fn runs_of_both<R: Threads + Sync>(
    rt: &R,
    workers: usize,
    alloc: Global,
    tree: &Tree<Global>,
    batch: &BatchWithEnds<'_>,
    ranged: bool,
    levels: usize,
    low: &[Share<'_, '_>],
    high: &[Share<'_, '_>],
) -> Result<Vec<PageRun>, AllocError>
    requires workers { 1 < workers }
    requires home { AreAllHome tree.now }
    requires ranged { ranged ≡ list_any is_ranged batch.now }
    requires low { CanGoDown (tree_of tree.now).pages batch.now levels (lent_shares low.now)
        × AreKeyedShares batch.now low.now }
    requires high { CanGoDown (tree_of tree.now).pages batch.now levels (lent_shares high.now)
        × AreKeyedShares batch.now high.now }
    ensures { IfOk result (λ runs. AreInBatchOrder (shares_down (tree_of tree.now).pages
        batch.now levels (lent_shares low.now ++ lent_shares high.now)) runs.items) }
{
    let few = workers / 2;
    let others = workers - few;
    let front = || -> Result<Vec<PageRun>, AllocError>
        requires { IsSync R.row × AreAllHome tree.now × (ranged ≡ list_any is_ranged batch.now)
            × CanGoDown (tree_of tree.now).pages batch.now levels (lent_shares low.now)
            × AreKeyedShares batch.now low.now }
        ensures { IfOk result (λ runs. AreInBatchOrder (shares_down (tree_of tree.entry.now).pages
            batch.entry.now levels (lent_shares low.entry.now)) runs.items) }
    { runs_below(rt, few, alloc, tree, batch, ranged, levels, low) };
    let back = || -> Result<Vec<PageRun>, AllocError>
        requires { IsSync R.row × AreAllHome tree.now × (ranged ≡ list_any is_ranged batch.now)
            × CanGoDown (tree_of tree.now).pages batch.now levels (lent_shares high.now)
            × AreKeyedShares batch.now high.now }
        ensures { IfOk result (λ runs. AreInBatchOrder (shares_down (tree_of tree.entry.now).pages
            batch.entry.now levels (lent_shares high.entry.now)) runs.items) }
    { runs_below(rt, others, alloc, tree, batch, ranged, levels, high) };
    let (low, high) = join(rt, front, back);
    let mut runs = low?;
    let mut rest = high?;
    runs.append(&mut rest)?;
    Ok(runs)
}

fn root_share<'a, 'k>(
    alloc: Global,
    root: Pid,
    keyed: &'a [Keyed<'k>],
) -> Result<Vec<Share<'a, 'k>>, AllocError>
    ensures shares { IfOk result
        (λ shares. lent_shares shares.items ≡ root_shares root (places_of keyed.now)) }
    ensures keys { IfOk result (λ shares. (cs : List (Command Global)) → AreKeyed cs keyed.now →
        AreKeyedShares cs shares.items) }
{
    let mut shares = Vec::new(alloc);
    if !keyed.is_empty() {
        shares.push(Share::new(root, keyed, Vec::new(alloc)))?;
    }
    Ok(shares)
}

// Distributes each share among the children of its page: the shares of the next level, in key order.
#[inline(never)]
fn one_level_down<'a, 'k>(
    alloc: Global,
    tree: &Tree<Global>,
    batch: &BatchWithEnds<'_>,
    ranged: bool,
    shares: &[Share<'a, 'k>],
) -> Result<Vec<Share<'a, 'k>>, AllocError>
    requires home { AreAllHome tree.now }
    requires ranged { ranged ≡ list_any is_ranged batch.now }
    requires ready { AreReadyShares (tree_of tree.now).pages batch.now shares.now }
    ensures shares { IfOk result (λ below. lent_shares below.items ≡
        flat_map (share_below (tree_of tree.now).pages batch.now) (lent_shares shares.now)) }
    ensures keys { IfOk result (λ below. AreKeyedShares batch.now below.items) }
{
    let mut below = Vec::with_capacity(alloc, shares.len())?;
    for share in shares {
        match tree.page(share.pid()) {
            Some(page) => hand_down(alloc, batch, ranged, page, share, &mut below)?,
            None => unreachable!(),
        }
    }
    Ok(below)
}

// Distributes a page's share among its children. In a batch with scans or wipes, first checks whether one of them meets
// the page.
fn hand_down<'a, 'k>(
    alloc: Global,
    batch: &BatchWithEnds<'_>,
    ranged: bool,
    page: &Page<Global>,
    share: &Share<'a, 'k>,
    below: &mut Vec<Share<'a, 'k>>,
) -> Result<(), AllocError>
    requires ranged { ranged ≡ list_any is_ranged batch.now }
    requires share { CanHandDownShare batch.now page.now (share_of_lent share.now) }
    requires keys { AreKeyed batch.now share.now.keyed }
    ensures shares { OnOk result (lent_shares below.new.items ≡ lent_shares below.old.items ++
        shares_below batch.now page.now (all_of (share_of_lent share.now))) }
    ensures keys { OnOk result (AreKeyedShares batch.now below.old.items →
        AreKeyedShares batch.now below.new.items) }
{
    if ranged && is_met(batch, share) {
        hand_down_with_ranges(alloc, batch, page, share, below)
    } else {
        hand_down_points(alloc, page, share.keyed(), below)
    }
}

// Whether a scan or a wipe reaches the share's page, or begins in it.
fn is_met(batch: &BatchWithEnds<'_>, share: &Share<'_, '_>) -> bool
    ensures { result ≡ is_met batch.now share.now }
{
    !share.reaching().is_empty() || has_range_at(batch, share.keyed())
}

// `hand_down` for a page that no scan and no wipe meets: each child gets the places in its range, if there are any.
fn hand_down_points<'a, 'k>(
    alloc: Global,
    page: &Page<Global>,
    keyed: &'a [Keyed<'k>],
    below: &mut Vec<Share<'a, 'k>>,
) -> Result<(), AllocError>
    requires { (cs : List (Command Global)) × CanHandDownKeyed cs page.now keyed.now }
    ensures shares { OnOk result ((cs : List (Command Global)) →
        ArePoints cs (places_of keyed.now) → CanHandDownKeyed cs page.now keyed.now →
        lent_shares below.new.items ≡
        lent_shares below.old.items ++ shares_below cs page.now (places_of keyed.now)) }
    ensures keys { OnOk result ((cs : List (Command Global)) → AreKeyed cs keyed.now →
        AreKeyedShares cs below.old.items → AreKeyedShares cs below.new.items) }
{
    let mut start = 0;
    while start < keyed.len() {
        let (pid, count) = first_child(page, &keyed[start..]);
        let end = start + count;
        below.push(Share::new(pid, &keyed[start..end], Vec::new(alloc)))?;
        start = end;
    }
    Ok(())
}

// The child that the first of these places goes to, and how many places go there. If it is the only place, the end of
// the child's range is not computed.
fn first_child(page: &Page<Global>, keyed: &[Keyed<'_>]) -> (Pid, usize)
    requires some { 0 < length keyed.now }
    requires ready { (cs : List (Command Global)) × CanHandDownKeyed cs page.now keyed.now }
    ensures some { 0 < result.1 }
    ensures most { result.1 ≤ length keyed.now }
    ensures first { (cs : List (Command Global)) → ArePoints cs (places_of keyed.now) →
        CanHandDownKeyed cs page.now keyed.now →
        shares_below cs page.now (places_of keyed.now) ≡
        record { pid = result.0; own = places_of (take result.1 keyed.now); reaching = [] } ∷
        shares_below cs page.now (places_of (drop result.1 keyed.now)) }
{
    let key = keyed[0].0.as_bytes();
    if keyed.len() == 1 {
        return (page.child_for(key), 1);
    }
    let (pid, end) = page.child_with_end(key);
    match end {
        Some(end) => (pid, count_below(keyed, end)),
        None => (pid, keyed.len()),
    }
}

// `hand_down` with scans and wipes: from left to right, each child gets the commands that begin in it and those that
// reach it. Children without commands are skipped.
fn hand_down_with_ranges<'a, 'k>(
    alloc: Global,
    batch: &BatchWithEnds<'_>,
    page: &Page<Global>,
    share: &Share<'a, 'k>,
    below: &mut Vec<Share<'a, 'k>>,
) -> Result<(), AllocError>
    requires share { CanHandDownShare batch.now page.now (share_of_lent share.now) }
    requires keys { AreKeyed batch.now share.now.keyed }
    ensures shares { OnOk result (lent_shares below.new.items ≡ lent_shares below.old.items ++
        shares_below batch.now page.now (all_of (share_of_lent share.now))) }
    ensures keys { OnOk result (AreKeyedShares batch.now below.old.items →
        AreKeyedShares batch.now below.new.items) }
{
    let keyed = share.keyed();
    let mut reaching = share.copied_reaching(alloc)?;
    let mut low = page.low();
    let mut start = 0;
    while let Some(key) = next_key(&keyed[start..], &reaching, low) {
        let (pid, end) = page.child_with_end(key);
        match end {
            Some(end) => {
                let until = start + count_below(&keyed[start..], end);
                let begun = &keyed[start..until];
                let onward = going_on(alloc, batch, &reaching, begun, end)?;
                let kept = without_idle(alloc, batch, Some(end), begun, reaching)?;
                below.push(Share::new(pid, begun, kept))?;
                reaching = onward;
                low = end;
                start = until;
            }
            None => {
                let begun = &keyed[start..];
                let kept = without_idle(alloc, batch, None, begun, reaching)?;
                below.push(Share::new(pid, begun, kept))?;
                return Ok(());
            }
        }
    }
    Ok(())
}

// A key of the next child with commands: the child's low key if scans or wipes reach it, else the first remaining key,
// if there is one.
fn next_key<'a, 'k>(keyed: &'a [Keyed<'k>], reaching: &[usize], low: &'a [u8]) -> Option<&'a [u8]>
    ensures { option_copied result ≡ next_key low.now reaching.now keyed.now }
{
    if !reaching.is_empty() {
        return Some(low);
    }
    match keyed.first() {
        Some(entry) => Some(entry.0.as_bytes()),
        None => None,
    }
}

#[inline(never)]
fn each_run(
    alloc: Global,
    batch: &BatchWithEnds<'_>,
    ranged: bool,
    shares: &[Share<'_, '_>],
) -> Result<Vec<PageRun>, AllocError>
    requires { AllByRecursion HasEachPlaceOnce (lent_shares shares.now) }
    ensures { IfOk result (λ runs. AreInBatchOrder (lent_shares shares.now) runs.items) }
{
    let mut runs = Vec::with_capacity(alloc, shares.len())?;
    for share in shares {
        let run = page_run_of(alloc, batch, ranged, share)?;
        runs.push(run)?;
    }
    Ok(runs)
}

// Makes the run of a share. A single place needs no list. If a scan or wipe is for this page, the places are sorted into
// batch order. Otherwise they stay in the order of their keys.
fn page_run_of(
    alloc: Global,
    batch: &BatchWithEnds<'_>,
    ranged: bool,
    share: &Share<'_, '_>,
) -> Result<PageRun, AllocError>
    requires { HasEachPlaceOnce (share_of_lent share.now) }
    ensures { IfOk result (λ run. IsInBatchOrder (share_of_lent share.now) run) }
{
    let pid = share.pid();
    let keyed = share.keyed();
    let reaching = share.reaching();
    if keyed.len() == 1 && reaching.is_empty() {
        return Ok(PageRun::of_one(alloc, pid, keyed[0].1));
    }
    if reaching.is_empty() && !(ranged && has_range_at(batch, keyed)) {
        return Ok(PageRun::new(pid, in_key_order(alloc, keyed)?));
    }
    let places = in_batch_order(alloc, keyed, reaching)?;
    Ok(PageRun::new(pid, SmallVec::from_vec(places)))
}
