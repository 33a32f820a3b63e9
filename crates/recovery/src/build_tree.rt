//! Builds the tree of a log's pages from the gathered frames, and verifies it.
ghost use Rattle.std.specs.Prelude.{◌≡◌, ◌⊎◌, ◌<◌, ◌++◌, ◌∷◌, [], List, length, map, Some, None, IfOk, IfErr, OnOk};
ghost use Rattle.std.specs.List.{AllByRecursion};
ghost use Rattle.std.specs.List.Sorted.{IsStrictlySortedBy};
ghost use Rattle.std.specs.Map.{keys_of};
ghost use Rattle.std.specs.Ordering.{nat_cmp};
ghost use Rattle.keys.specs.Limits.{first_bad_field};
ghost use Rattle.keys.specs.declared.fault.Fault.TheVariants.{NoMemory, BadStructure};
ghost use Rattle.mapping.specs.Finding.{Finding};
ghost use Rattle.mapping.specs.Levels.{contents};
ghost use Rattle.mapping.specs.Proper.{AreRisingPids};
ghost use Rattle.mapping.specs.Slots.{entry_if};
ghost use Rattle.mapping.specs.TreeInMemory.{AreAllHome, tree_of};
ghost use Rattle.flush_log.specs.Reading.{Found};
ghost use Rattle.recovery.specs.BuiltTree.{in_places, log_pids, pages_of_logs, logs_made, pages_made, filled, log_under};
ghost use Rattle.recovery.specs.Gathered.{AreGathered};
ghost use Rattle.recovery.specs.Rebuild.{held_log};
ghost use Rattle.recovery.specs.StoreOfDisk.{frames_in, tree_by_log, wrong_in};
ghost use Rattle.recovery.specs.declared.gather.Wanted.TheVariants.{Every};

use crate::gather::{Gathering, Kept};
use crate::rebuild::{PageLog, RebuildWork, Rebuilt};
use crew::{Crew, NoGate, run_round};
use flush_log::Slot;
use frame_codec::Format;
use index_page::Page;
use keys::{Fault, Pid};
use mapping::{Table, Tree};
use std::alloc::{AllocError, Global};
use std::collections::BTreeMap;
use std::mem;
use std::thread::Threads;
use verify::verify;

// How many pages are built at once. The frames of these pages are freed before the next pages are built, so a recovery
// needs little more memory than the built pages and the remaining frames.
const PAGES_AT_ONCE: usize = 512;

// Puts the page after those in the table, whose page ids are smaller.
fn put_last(
    table: &mut Table<Page<Global>, Global>,
    pid: Pid,
    page: Page<Global>,
) -> Result<(), AllocError>
    requires { AllByRecursion (λ n. n < pid) (keys_of table.old.places) }
    ensures { OnOk result (table.new ≡ record {
      places = table.old.places ++ (pid, Some page) ∷ [];
      logged = table.old.logged;
    }) }
{
    table.room(pid.0)?;
    table.put(pid.0, page);
    Ok(())
}

// Puts the rebuilt page, if there is one, after those in the table.
fn put_made(table: &mut Table<Page<Global>, Global>, made: Rebuilt) -> Result<(), AllocError>
    requires { AllByRecursion (λ n. n < made.log.pid) (keys_of table.old.places) }
    ensures { OnOk result (table.new ≡ filled table.old (entry_if made.log.pid made.page)) }
{
    let Rebuilt { log, page } = made;
    let Some(page) = page else {
        return Ok(());
    };
    put_last(table, log.pid, page)
}

fn put_all(table: &mut Table<Page<Global>, Global>, made: Vec<Rebuilt>) -> Result<(), AllocError>
    requires { AreRisingPids (keys_of table.old.places ++ log_pids (logs_made made.items)) }
    ensures { OnOk result (table.new ≡ filled table.old (pages_made made.items)) }
{
    for rebuilt in made {
        put_made(table, rebuilt)?;
    }
    Ok(())
}

// Builds the pages of these logs, and puts them after those in the table.
fn build_pages(
    rt: &(impl Threads + Sync),
    crew: Crew,
    work: &RebuildWork,
    table: &mut Table<Page<Global>, Global>,
    logs: Vec<PageLog>,
) -> Result<(), Fault>
    requires { AreRisingPids (keys_of table.old.places ++ log_pids (map held_log logs.items)) }
    ensures ok { OnOk result
        (table.new ≡ filled table.old (pages_of_logs work.now.format (map held_log logs.items))) }
    ensures err { IfErr result (λ fault. fault ≡ NoMemory) }
{
    match run_round(rt, crew, &NoGate, work, logs) {
        Ok(made) => {
            put_all(table, made)?;
            Ok(())
        }
        Err(_logs) => Err(Fault::NoMemory),
    }
}

// The table of the gathered pages, by rising page id.
fn table_of(
    rt: &(impl Threads + Sync),
    crew: Crew,
    work: &RebuildWork,
    by_pid: BTreeMap<u64, Kept, Global>,
) -> Result<Table<Page<Global>, Global>, Fault>
    ensures ok { IfOk result (λ table.
        table ≡ record {
          places = in_places (pages_of_logs work.now.format (map log_under by_pid.entries));
          logged = [];
        }) }
    ensures err { IfErr result (λ fault. fault ≡ NoMemory) }
    ensures ordered { IsStrictlySortedBy nat_cmp (keys_of by_pid.entries) }
{
    // `len` is called only for the proof: its contract says that the page ids rise.
    let _rising = by_pid.len();
    let mut table = Table::new(work.alloc);
    let mut logs = Vec::new(work.alloc);
    for entry in by_pid {
        let (pid, kept) = entry;
        if kept.frames.is_empty() {
            continue;
        }
        logs.push(PageLog {
            pid: Pid(pid),
            frames: kept.frames,
        })?;
        if logs.len() == PAGES_AT_ONCE {
            let full = mem::replace(&mut logs, Vec::new(work.alloc));
            build_pages(rt, crew, work, &mut table, full)?;
        }
    }
    build_pages(rt, crew, work, &mut table, logs)?;
    Ok(table)
}

/// Returns the tree of the gathered pages, with the root and the height in the slot, and the number of its pairs. The
/// tree is proper under the settings, no page is checked out, and each page is recorded as being in the log with all its
/// runs. The crew builds the pages.
///
/// Otherwise fails with `Fault::BadStructure` and the first finding: a page whose frames do not fit together, by the
/// least page id, or else the first finding of the walk from the root. Any other failure is `Fault::NoMemory`.
pub(crate) fn checked_tree(
    rt: &(impl Threads + Sync),
    crew: Crew,
    format: &Format,
    slot: &Slot,
    gathering: Gathering,
) -> Result<(Tree<Global>, u128), Fault>
    requires { first_bad_field format.now.settings ≡ None }
    ensures ok { (found : List Found) → AreGathered format.now Every gathering found →
        IfOk result (λ made. (wrong_in format.now.settings slot.now (frames_in found) ≡ None)
        × (tree_of made.0 ≡ tree_by_log slot.now (frames_in found)) × AreAllHome made.0) }
    ensures counted { IfOk result (λ made. made.1 ≡ length (contents (tree_of made.0))) }
    ensures err { (found : List Found) → AreGathered format.now Every gathering found →
        IfErr result (λ fault. (fault ≡ NoMemory) ⊎
        ((f : Finding) × (wrong_in format.now.settings slot.now (frames_in found) ≡ Some f)
        × (fault ≡ BadStructure f))) }
{
    if let Some(finding) = gathering.unfit() {
        return Err(Fault::BadStructure(finding));
    }
    let Gathering { alloc, by_pid, .. } = gathering;
    let work = RebuildWork {
        alloc,
        format: *format,
    };
    let table = table_of(rt, crew, &work, by_pid)?;
    let mut tree = Tree::new(table, slot.root, slot.height);
    let report = verify(rt, alloc, &tree, &format.settings)?;
    tree.flushed();
    tree.reserve()?;
    Ok((tree, report.pairs))
}
