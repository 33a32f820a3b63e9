//! Opens stores: from a disk, or again from a store's own disk.
ghost use Rattle.std.specs.Prelude.{◌≡◌, ◌≢◌, ◌⊎◌, Err, true, false, length, IsTrue, IfOk, IfErr, OnOk};
ghost use Rattle.keys.specs.Bytes.{Bytes};
ghost use Rattle.flush_log.specs.Disk.{CountsFailure, IsSynced, Kept, Leaves, Same};
ghost use Rattle.recovery.specs.Recovered.{IsReadOf};
ghost use Rattle.mapping.specs.Levels.{contents};
ghost use Rattle.mapping.specs.TreeInMemory.{AreAllHome, tree_of};
ghost use Rattle.engine.specs.Opened.{IsOpened, IsOpenedOn, IsReopened, disk_left, read_on};
ghost use Rattle.engine.specs.Refusal.{is_crew};
ghost use Rattle.engine.specs.State.{IsSound};

use crate::refusal::admit_crew;
use crate::store::Store;
use crate::store::clean::is_of_disk;
use crew::Crew;
use flush_log::{Disk, DiskFault};
use keys::Fault;
use recovery::laws::what_is_read_is_a_store;
use recovery::{Recovered, recover};
use std::alloc::Global;
use std::thread::Threads;

// Syncs the disk.
fn settle<D: Disk>(disk: &mut D) -> Result<(), DiskFault>
    ensures kept { Kept (D.view disk.old) (D.view disk.new) }
    ensures failed { CountsFailure result (D.failed disk.old) (D.failed disk.new) }
    ensures is_synced { IsTrue (D.view disk.old).is_honest →
        OnOk result (IsSynced (D.view disk.new)) }
    ensures seen { IsTrue (D.view disk.old).is_honest →
        (D.view disk.new).seen ≡ (D.view disk.old).seen }
    ensures crash { IsTrue (D.view disk.old).is_honest →
        Leaves (D.view disk.old) (D.view disk.new) (λ before c. c ≡ before) }
{
    disk.sync()
}

// Syncs the disk, and reads the store on it.
fn read_synced<D: Disk>(
    rt: &(impl Threads + Sync),
    crew: Crew,
    alloc: Global,
    disk: &mut D,
) -> Result<Recovered, Fault>
    ensures opened { IsOpenedOn D.view D.failed true disk.old (read_on result disk.new) }
    ensures home { IfOk result (λ found. AreAllHome found.tree) }
    ensures counted { IfOk result
        (λ found. found.pairs ≡ length (contents (tree_of found.tree))) }
{
    // Only for the proof.
    what_is_read_is_a_store();
    match settle(disk) {
        Ok(()) => recover(rt, crew, alloc, disk),
        Err(failed) => Err(failed.into()),
    }
}

// Whether a store has failed after a call on it failed with this fault.
fn has_failed_after(had_failed: bool, fault: &Fault) -> bool
    ensures { ((fault.now ≡ Fault.Device) × (result ≡ true))
        ⊎ ((fault.now ≢ Fault.Device) × (result ≡ had_failed)) }
{
    is_of_disk(fault) || had_failed
}

impl<D: Disk> Store<D> {
    /// Opens the store on the disk: its pages, root, height and settings are those of the last flush or upgrade that
    /// succeeded, or, if one failed with `Fault::Device` after it, possibly those that it was writing. Its log has the
    /// version that it had then. Writes nothing.
    ///
    /// The disk should be synced: after its last write it had a sync, for example by a flush, an upgrade, a clean or a
    /// `reopen` that returned Ok, or by the caller's own `sync`. The store is also read from a disk that is not synced,
    /// but then a crash may undo what was read: all guarantees about crashes begin at a synced disk.
    ///
    /// Fails with `Fault::BadCrew` if the crew is out of range. If there is no store on the disk, fails with exactly
    /// one fault, as described at `recovery::recover`: `Fault::NotAStore`, `Fault::NoSlot`, `Fault::BadSegment`,
    /// `Fault::BadFrame` or `Fault::BadStructure`. It may also fail with `Fault::NoMemory`, or with `Fault::Device` if
    /// a read failed. The disk is returned with the fault, unchanged.
    pub fn recover(
        rt: &(impl Threads + Sync),
        alloc: Global,
        disk: D,
        crew: Crew,
    ) -> Result<Store<D>, (Fault, D)>
        // The crew is checked before the disk is called.
        ensures bad_crew { is_crew crew ≡ false → result ≡ Err (Fault.BadCrew, disk) }
        // For the bytes that were read, whatever the disk does; on an honest disk these are its readable contents.
        ensures read { IsTrue (is_crew crew) →
            (file : Bytes) × IsReadOf (D.view disk) file
            × IsOpened D.failed file (D.failed disk) result }
        ensures honest { IsTrue (is_crew crew) → IsTrue (D.view disk).is_honest →
            IsOpened D.failed (D.view disk).seen (D.failed disk) result }
        ensures fine { IfOk result (λ opened. opened.has_failed ≡ false) }

        // Neither the bytes changed, nor what a crash may leave.
        ensures same { IsTrue (D.view disk).is_honest →
            Same (D.view disk) (D.view (disk_left result)) }
        ensures kept { Kept (D.view disk) (D.view (disk_left result)) }
        ensures counted { IfOk result (λ opened. D.failed opened.disk ≡ D.failed disk) }
        ensures uncounted { IfErr result (λ e. e.0 ≢ Fault.Device → D.failed e.1 ≡ D.failed disk) }
        ensures sound { IfOk result (λ opened. IsSound D.view opened) }
    {
        // Only for the proof.
        what_is_read_is_a_store();
        if let Err(fault) = admit_crew(crew) {
            return Err((fault, disk));
        }
        let mut disk = disk;
        match recover(rt, crew, alloc, &mut disk) {
            Ok(found) => {
                let slot = found.slot;
                Ok(Store {
                    settings: found.settings,
                    alloc,
                    tree: found.tree,
                    log: slot.ends,
                    version: slot.version,
                    disk,
                    has_failed: false,
                    pairs: found.pairs,
                })
            }
            Err(fault) => Err((fault, disk)),
        }
    }

    /// Opens the store on a disk that another program may have left between a write and its sync: syncs the disk and
    /// then does the same as `Store::recover`, so that all guarantees about crashes hold from here on. Writes nothing.
    ///
    /// Fails with `Fault::BadCrew` if the crew is out of range, with `Fault::Device` if a call of the disk failed, and
    /// otherwise like `Store::recover`. The disk is returned with the fault; its readable contents are unchanged.
    pub fn open(
        rt: &(impl Threads + Sync),
        alloc: Global,
        disk: D,
        crew: Crew,
    ) -> Result<Store<D>, (Fault, D)>
        ensures { IsOpenedOn D.view D.failed (is_crew crew) disk result }
    {
        if let Err(fault) = admit_crew(crew) {
            return Err((fault, disk));
        }
        let mut disk = disk;
        match settle(&mut disk) {
            Ok(()) => Store::recover(rt, alloc, disk, crew),
            Err(failed) => Err((failed.into(), disk)),
        }
    }

    /// Drops the store's contents in memory, and opens the store on its disk, as `Store::open` does: the store of the
    /// last flush or upgrade that succeeded, or, if one failed with `Fault::Device`, possibly the store that it was
    /// writing. Use it to continue with a store that has failed (`Fault::Failed`).
    pub fn reopen(self, rt: &(impl Threads + Sync), crew: Crew) -> Result<Store<D>, (Fault, D)>
        ensures { IsOpenedOn D.view D.failed (is_crew crew) self.disk result }
    {
        let alloc = self.alloc;
        Store::open(rt, alloc, self.close(), crew)
    }

    // Opens the store on its disk, as `reopen` does, and replaces the contents in memory only then. The crew is in
    // range.
    pub(crate) fn reopen_in_place(
        &mut self,
        rt: &(impl Threads + Sync),
        crew: Crew,
    ) -> Result<(), Fault>
        ensures { IsReopened D.view D.failed self.old result self.new }
    {
        match read_synced(rt, crew, self.alloc, &mut self.disk) {
            Ok(found) => {
                let slot = found.slot;
                self.settings = found.settings;
                self.tree = found.tree;
                self.log = slot.ends;
                self.version = slot.version;
                self.has_failed = false;
                self.pairs = found.pairs;
                Ok(())
            }
            Err(fault) => {
                self.has_failed = has_failed_after(self.has_failed, &fault);
                Err(fault)
            }
        }
    }
}
