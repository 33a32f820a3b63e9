//! What every store promises, stated for an ordered map and a disk: no clause here mentions a page, a log or a position
//! on the disk. `docs/CLAIM.md` explains it.
ghost use Rattle.std.specs.Prelude.{◌≡◌, ◌≢◌, ◌⊎◌, ℕ, Bool, true, false, List, [], map, Option, Some, None, Ok, Err, IsTrue, IfOk, OnOk, OnErr, IfErr};
ghost use Rattle.std.specs.Option.{option_copied};
ghost use Rattle.std.specs.Thread.{IsSync};
ghost use Rattle.std.specs.declared.alloc.Global as global;
ghost use Rattle.keys.specs.Bytes.{Bytes, Pairs};
ghost use Rattle.keys.specs.Order.{IsRising};
ghost use Rattle.keys.specs.OrderedMap.{value_at};
ghost use Rattle.keys.specs.Range.{rows};
ghost use Rattle.keys.specs.Step.{replies_to, map_after_all};
ghost use Rattle.keys.specs.declared.command.Command as commanded;
ghost use Rattle.keys.specs.declared.fault.Fault.TheVariants.{NoMemory, Device, Failed};
ghost use Rattle.keys.specs.declared.settings.Settings as given;
ghost use Rattle.crew.specs.Crew.{is_crew};
ghost use Rattle.flush_log.specs.Disk.{HasFailed, IsSynced, Kept, Leaves, LeavesOnly, Same};
ghost use Rattle.engine.specs.Claim.{Held, FailsByDevice, IsLeftByCreate, RecoversEither, disk_in};

mod by_pages;
mod callers;
mod plays;
mod snapshots;

pub use crate::ordered_store::callers::{put_then_get, put_then_get_in_memory, put_twice_then_get};
pub use crate::ordered_store::plays::play;
pub use crate::ordered_store::snapshots::{SnapshotDisk, SnapshotStore};
use crew::Crew;
use flush_log::Disk;
use keys::{Command, Fault, Reply, Settings};
use std::alloc::Global;
use std::thread::Threads;

/// An ordered map of byte strings in memory, which a flush makes durable on a disk of type `D`.
///
/// `Fault::Device` from a flush, a clean or an upgrade makes the store a failed one. In a failed store, each later
/// batch, flush, clean and upgrade fails with `Fault::Failed`; reads still work. To continue, close it and open its
/// disk.
///
/// No clause says that memory can be allocated, or that a log has room: any call that returns a fault may return one at
/// any time.
pub trait OrderedStore<D: Disk> {
    // The pairs that the store holds in memory, in the order of their keys.
    ghost contents: { Self → Pairs Bytes };

    // The settings that the store was created with.
    ghost settings: { Self → given.Settings };

    // The disk that the store is on.
    ghost disk_of: { Self → D };

    // Whether the store is a failed one.
    ghost has_failed: { Self → Bool };

    // The settings and the pairs that these bytes of a disk encode, or nothing if they encode no store.
    ghost recovered: { Bytes → Option Held };

    // All other data of a store, as plain data of any type. Two stores with the same state and the same bytes are
    // replicas of each other.
    ghost State: { Type 0 };

    ghost state: { Self → State };

    // The state of a store that is created on a disk with these bytes, and the new bytes.
    ghost after_create: { given.Settings → Bytes → Option (State × Bytes) };

    // The state of the store that is opened from these bytes.
    ghost after_open: { Bytes → Option State };

    // The effect of the other calls on a state, and on the bytes of its disk. Each of the last three calls also returns
    // a number.
    ghost after_batch: { given.Settings → State → List (commanded.Command global.Global) → State };

    ghost after_flush: { given.Settings → State → Bytes → Option (ℕ × State × Bytes) };

    ghost after_clean: { given.Settings → State → Bytes → Option (ℕ × State × Bytes) };

    ghost after_upgrade: { given.Settings → State → Bytes → Option (ℕ × State × Bytes) };

    /// Creates an empty store on a disk. The old contents of the disk are lost.
    ///
    /// Fails with `Fault::BadSettings`, `Fault::DiskTooSmall`, `Fault::NoMemory` or `Fault::Device`. The disk is
    /// returned with the fault, unchanged unless the fault is `Device`.
    fn create(alloc: Global, disk: D, chosen: Settings) -> Result<Self, (Fault, D)>
        ensures made { IfOk result (λ x. (contents x ≡ []) × (settings x ≡ chosen)
            × (has_failed x ≡ false)) }
        ensures durable { IsTrue (D.view disk).is_honest → IfOk result (λ x.
            (recovered (D.view (disk_of x)).seen ≡ Some (chosen, []))
            × IsSynced (D.view (disk_of x))) }
        ensures crash { IsSynced (D.view disk) →
            LeavesOnly (D.view disk) (D.view (disk_in disk_of result))
            (IsLeftByCreate recovered (D.view disk).seen (chosen, [])) }
        ensures state { IsTrue (D.view disk).is_honest → IfOk result (λ x.
            after_create chosen (D.view disk).seen ≡ Some (state x, (D.view (disk_of x)).seen)) }
        ensures returned { IfErr result (λ e. e.0 ≢ Device → e.1 ≡ disk) }
        ensures kept { Kept (D.view disk) (D.view (disk_in disk_of result)) };

    /// Opens the store on a disk, with the contents of its last flush or upgrade. Syncs the disk, and writes nothing.
    ///
    /// Fails if there is no store on the disk, and with `Fault::BadCrew`, `Fault::NoMemory` or `Fault::Device`. The
    /// disk is returned with the fault.
    fn open<R: Threads + Sync>(
        rt: &R,
        alloc: Global,
        disk: D,
        crew: Crew,
    ) -> Result<Self, (Fault, D)>
        requires { IsSync R.row }
        ensures opened { IsTrue (D.view disk).is_honest → IfOk result (λ x.
            (recovered (D.view disk).seen ≡ Some (settings x, contents x))
            × IsSynced (D.view (disk_of x))) }
        ensures fine { IfOk result (λ x. (has_failed x ≡ false) × IsRising (contents x)) }
        ensures state { IsTrue (D.view disk).is_honest →
            IfOk result (λ x. after_open (D.view disk).seen ≡ Some (state x)) }
        // Opening a disk that has a store fails only if allocation or a call of the disk fails.
        ensures refused { IsTrue (D.view disk).is_honest → IsTrue (is_crew crew) →
            IfErr result (λ e. (recovered (D.view disk).seen ≡ None) ⊎ (e.0 ≡ NoMemory)
            ⊎ ((e.0 ≡ Device) × HasFailed (D.failed disk) (D.failed e.1))) }
        ensures seen { IsTrue (D.view disk).is_honest →
            (D.view (disk_in disk_of result)).seen ≡ (D.view disk).seen }
        ensures crash { IsTrue (D.view disk).is_honest →
            Leaves (D.view disk) (D.view (disk_in disk_of result)) (λ before c. c ≡ before) }
        ensures kept { Kept (D.view disk) (D.view (disk_in disk_of result)) };

    /// Returns the value of a key, or `None` if the store has no pair with this key. Also works in a failed store.
    fn get(&self, key: &[u8]) -> Option<&[u8]>
        ensures { option_copied result ≡ value_at key.now (contents self.now) };

    /// Returns the first `limit` pairs whose keys are `lo` or above, and below `hi` if it is given, in the order of
    /// their keys. Also works in a failed store. Fails with `Fault::NoMemory`.
    fn range(&self, lo: &[u8], hi: Option<&[u8]>, limit: u32) -> Result<Vec<(&[u8], &[u8])>, Fault>
        ensures rows { IfOk result (λ found. map (λ row. (row.0.now, row.1.now)) found.items
            ≡ rows lo.now (option_copied hi.entry) limit (contents self.now)) }
        ensures refused { IfErr result (λ fault. fault ≡ NoMemory) };

    /// Executes the commands in their order, and returns a reply to each. The disk is not called.
    ///
    /// Fails with `Fault::Failed`, `Fault::BadCrew`, `Fault::BatchTooLong`, `Fault::KeyTooLong`, `Fault::ValueTooLong`,
    /// `Fault::NoMemory` or `Fault::Spent`. The store is then unchanged.
    fn batch<R: Threads + Sync>(
        &mut self,
        rt: &R,
        crew: Crew,
        commands: &[Command<Global>],
    ) -> Result<Vec<Reply<Global>>, Fault>
        requires { IsSync R.row }
        ensures replies { IfOk result
            (λ replies. replies.items ≡ replies_to (contents self.old) commands.now) }
        ensures contents { OnOk result
            (contents self.new ≡ map_after_all (contents self.old) commands.now) }
        // The new state is a function of the old one and of the commands: it depends neither on the crew nor on what
        // threads do.
        ensures state { OnOk result
            (state self.new ≡ after_batch (settings self.old) (state self.old) commands.now) }
        ensures rest { (settings self.new ≡ settings self.old) × (disk_of self.new ≡ disk_of self.old)
            × (has_failed self.new ≡ has_failed self.old) }
        ensures failed { has_failed self.old ≡ true → result ≡ Err Failed }
        ensures refused { OnErr result (self.new ≡ self.old) }
        ensures never { IfErr result (λ fault. fault ≢ Device) };

    /// Makes the contents durable, and returns the number of commits so far.
    ///
    /// Fails with `Fault::Failed`, `Fault::BadCrew`, `Fault::NoMemory`, `Fault::Spent`, `Fault::Full` or
    /// `Fault::Device`. The store is then unchanged, unless the fault is `Device`: this leaves a failed store, whose
    /// disk has the old contents or the new ones.
    fn flush<R: Threads + Sync>(&mut self, rt: &R, crew: Crew) -> Result<u64, Fault>
        requires { IsSync R.row }
        ensures contents { contents self.new ≡ contents self.old }
        ensures durable { IsTrue (D.view (disk_of self.old)).is_honest →
            OnOk result (recovered (D.view (disk_of self.new)).seen
            ≡ Some (settings self.old, contents self.old)) }
        ensures is_synced { IsSynced (D.view (disk_of self.old)) →
            OnOk result (IsSynced (D.view (disk_of self.new))) }
        // A crash at any moment leaves what was durable, or the contents.
        ensures crash { has_failed self.old ≡ false → IsSynced (D.view (disk_of self.old)) →
            LeavesOnly (D.view (disk_of self.old)) (D.view (disk_of self.new))
            (RecoversEither recovered (recovered (D.view (disk_of self.old)).seen)
            (Some (settings self.old, contents self.old))) }
        // The number, the new state and the disk's bytes are functions of the old state and bytes.
        ensures state { IsTrue (D.view (disk_of self.old)).is_honest → IfOk result (λ n.
            after_flush (settings self.old) (state self.old) (D.view (disk_of self.old)).seen
            ≡ Some (n, state self.new, (D.view (disk_of self.new)).seen)) }
        ensures rest { (settings self.new ≡ settings self.old)
            × Kept (D.view (disk_of self.old)) (D.view (disk_of self.new)) }
        ensures fails { FailsByDevice result (has_failed self.old) (has_failed self.new) }
        ensures failed { has_failed self.old ≡ true → result ≡ Err Failed }
        ensures refused { IfErr result (λ fault. fault ≢ Device → self.new ≡ self.old) };

    /// Frees the first segment of the log, and returns the number of the segment with which the log begins now. The
    /// contents in memory and on the disk stay the same, with or without a crash.
    ///
    /// Fails with `Fault::Failed`, `Fault::BadCrew`, `Fault::NothingToClean`, `Fault::NoMemory`, `Fault::Spent`,
    /// `Fault::Full`, `Fault::Device`, or the fault of a damaged log. `Device` leaves a failed store.
    fn clean<R: Threads + Sync>(&mut self, rt: &R, crew: Crew) -> Result<u64, Fault>
        requires { IsSync R.row }
        ensures contents { contents self.new ≡ contents self.old }
        ensures durable { has_failed self.old ≡ false →
            IsTrue (D.view (disk_of self.old)).is_honest →
            OnOk result (recovered (D.view (disk_of self.new)).seen
            ≡ recovered (D.view (disk_of self.old)).seen) }
        ensures is_synced { IsTrue (D.view (disk_of self.old)).is_honest →
            OnOk result (IsSynced (D.view (disk_of self.new))) }
        ensures crash { has_failed self.old ≡ false → IsSynced (D.view (disk_of self.old)) →
            LeavesOnly (D.view (disk_of self.old)) (D.view (disk_of self.new))
            (λ c. recovered c ≡ recovered (D.view (disk_of self.old)).seen) }
        ensures state { IsTrue (D.view (disk_of self.old)).is_honest → IfOk result (λ n.
            after_clean (settings self.old) (state self.old) (D.view (disk_of self.old)).seen
            ≡ Some (n, state self.new, (D.view (disk_of self.new)).seen)) }
        ensures rest { (settings self.new ≡ settings self.old)
            × Kept (D.view (disk_of self.old)) (D.view (disk_of self.new)) }
        ensures fails { FailsByDevice result (has_failed self.old) (has_failed self.new) }
        ensures failed { has_failed self.old ≡ true → result ≡ Err Failed }
        ensures refused { OnErr result (state self.new ≡ state self.old) }
        ensures unwritten { IsTrue (D.view (disk_of self.old)).is_honest →
            IfErr result (λ fault. fault ≢ Device →
            Same (D.view (disk_of self.old)) (D.view (disk_of self.new))) };

    /// Brings the log to version 2, makes the contents durable, and returns the number of commits so far. An upgrade
    /// cannot be undone.
    ///
    /// Fails with `Fault::AlreadyUpgraded` if the log has version 2, and otherwise like `flush`, whose documentation
    /// describes the state after each fault.
    fn upgrade<R: Threads + Sync>(&mut self, rt: &R, crew: Crew) -> Result<u64, Fault>
        requires { IsSync R.row }
        ensures contents { contents self.new ≡ contents self.old }
        ensures durable { IsTrue (D.view (disk_of self.old)).is_honest →
            OnOk result (recovered (D.view (disk_of self.new)).seen
            ≡ Some (settings self.old, contents self.old)) }
        ensures is_synced { IsTrue (D.view (disk_of self.old)).is_honest →
            OnOk result (IsSynced (D.view (disk_of self.new))) }
        ensures crash { has_failed self.old ≡ false → IsSynced (D.view (disk_of self.old)) →
            LeavesOnly (D.view (disk_of self.old)) (D.view (disk_of self.new))
            (RecoversEither recovered (recovered (D.view (disk_of self.old)).seen)
            (Some (settings self.old, contents self.old))) }
        ensures state { IsTrue (D.view (disk_of self.old)).is_honest → IfOk result (λ n.
            after_upgrade (settings self.old) (state self.old) (D.view (disk_of self.old)).seen
            ≡ Some (n, state self.new, (D.view (disk_of self.new)).seen)) }
        ensures rest { (settings self.new ≡ settings self.old)
            × Kept (D.view (disk_of self.old)) (D.view (disk_of self.new)) }
        ensures fails { FailsByDevice result (has_failed self.old) (has_failed self.new) }
        ensures failed { has_failed self.old ≡ true → result ≡ Err Failed }
        ensures refused { IfErr result (λ fault. fault ≢ Device → self.new ≡ self.old) };

    /// Closes the store, and returns its disk. Does not flush.
    fn close(self) -> D
        ensures { result ≡ disk_of self };
}
