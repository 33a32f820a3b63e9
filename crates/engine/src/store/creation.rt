//! Creates stores. The first byte is written last, so that a crash leaves no store, or all of it.
ghost use Rattle.std.specs.Prelude.{◌≡◌, ◌≢◌, Err, IsTrue, IfOk, IfErr, OnOk, MatchOption};
ghost use Rattle.mapping.specs.TreeInMemory.{new_in_memory};
ghost use Rattle.flush_log.specs.Disk.{IsSynced, Kept, LeavesOnly};
ghost use Rattle.flush_log.specs.NewStore.{disk_of_new};
ghost use Rattle.engine.specs.Hidden.{exchanged, HoldsNoStore, IsLeftHiding, IsRevealed};
ghost use Rattle.engine.specs.Late.{IsCreatedOn, IsLate, create_refusal};

use crate::hidden_disk::{Hidden, reveal, write_hidden};
use crate::store::Store;
use flush_log::{Disk, disk_size, first_slot, new_bytes};
use keys::{Fault, Settings};
use mapping::laws::the_first_tree_is_proper_and_empty;
use mapping::{Tree, new_tree};
use recovery::laws::a_new_disk_stands_for_the_first_store;
use std::alloc::Global;

// Writes a new store to a disk except for its first byte, and returns the tree. Nothing is written before all checks
// and allocations have succeeded.
fn make<D: Disk>(alloc: Global, disk: &mut D, settings: &Settings) -> Result<Tree<Global>, Fault>
    ensures refused { MatchOption (create_refusal settings.now (D.view disk.old).size)
        (IfErr result (IsLate (D.failed disk.old) (D.failed disk.new)))
        (λ fault. result ≡ Err fault) }
    ensures kept { Kept (D.view disk.old) (D.view disk.new) }
    ensures back { IfErr result (λ fault. fault ≢ Fault.Device → disk.new ≡ disk.old) }
    ensures tree { IfOk result (λ tree. tree ≡ new_in_memory) }
    ensures counted { OnOk result (D.failed disk.new ≡ D.failed disk.old) }
    ensures bytes { IsTrue (D.view disk.old).is_honest → OnOk result (
        (exchanged (D.view disk.new).seen ≡ disk_of_new settings.now (D.view disk.old).seen)
        × IsSynced (D.view disk.new)) }
    ensures crash { IsSynced (D.view disk.old) →
        LeavesOnly (D.view disk.old) (D.view disk.new) (IsLeftHiding (D.view disk.old).seen) }
{
    settings.check()?;
    if disk.len() < disk_size(settings) {
        return Err(Fault::DiskTooSmall);
    }
    let tree = new_tree(alloc)?;
    write_hidden(disk, &new_bytes(settings))?;
    Ok(tree)
}

// Creates a store on a disk that has no store until it is revealed.
pub(super) fn create_hidden<D: Disk>(
    alloc: Global,
    disk: D,
    settings: Settings,
) -> Result<Store<Hidden<D>>, (Fault, D)>
    ensures created { IsCreatedOn D.view D.failed ⟦<Hidden<D> as Disk>⟧.view (λ hidden. hidden.disk)
        exchanged settings disk (IsLeftHiding (D.view disk).seen) result }
    ensures hidden { IsTrue (D.view disk).is_honest →
        IfOk result (λ made. HoldsNoStore (D.view made.disk.disk).seen) }
{
    // Only for the proof.
    the_first_tree_is_proper_and_empty();
    a_new_disk_stands_for_the_first_store();
    let mut disk = disk;
    let first = first_slot();
    match make(alloc, &mut disk, &settings) {
        Ok(tree) => Ok(Store {
            settings,
            alloc,
            tree,
            log: first.ends,
            version: first.version,
            disk: Hidden { disk },
            has_failed: false,
            pairs: 0,
        }),
        Err(fault) => Err((fault, disk)),
    }
}

// Reveals a hidden store: writes and syncs the first byte.
pub(super) fn reveal_store<D: Disk>(hidden: Store<Hidden<D>>) -> Result<Store<D>, (Fault, D)>
    ensures { IsRevealed D.view D.failed hidden hidden.disk.disk result }
{
    let Store {
        settings,
        alloc,
        tree,
        log,
        version,
        disk,
        has_failed,
        pairs,
    } = hidden;
    let Hidden { disk } = disk;
    let mut disk = disk;
    match reveal(&mut disk) {
        Ok(()) => Ok(Store {
            settings,
            alloc,
            tree,
            log,
            version,
            disk,
            has_failed,
            pairs,
        }),
        Err(failed) => Err((failed.into(), disk)),
    }
}
