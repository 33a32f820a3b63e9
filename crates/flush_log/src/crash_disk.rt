//! A disk for tests that simulates a power failure.
ghost use Rattle.std.specs.Prelude.{◌≡◌, ◌⊎◌, ℕ, ◌+◌, ◌-◌, ◌^◌, ◌≤◌, ◌++◌, ◌∷◌, min, IsTrue, [], length, take, drop, replicate, Some, None, Ok, refl, IfOk, OnOk, OnErr};
ghost use Rattle.std.proofs.Common.{inl, ⊎_elim, sym, ap, ◌∙◌, arith, length-append};
ghost use Rattle.std.proofs.Props.{props};
ghost use Rattle.std.proofs.lemmas.List.{length-replicate};
ghost use Rattle.flush_log.specs.Overlay.{overlay};
ghost use Rattle.flush_log.specs.Disk.{IsSynced, Torn, Kept, Same, Leaves, CountsFailure, HasFailed};
ghost use Rattle.flush_log.specs.Record.{AreCalls, end_of_call, call_of, calls_of};
ghost use Rattle.flush_log.specs.Crash.{torn_by, left_with, all_torn, IsSyncedAt};
ghost use Rattle.flush_log.specs.Faults.{moment_at, IsCutShort};
ghost use Rattle.flush_log.specs.declared.crash_disk.Moment.TheVariants.{Running, Stopping, Stopped};

use crate::disk::{Disk, DiskFault, count_failure, counted};
use crate::mem_disk::{MemDisk, RecordedCall, overwrite};
use std::alloc::{AllocError, Allocator};

/// What a crash leaves in a range that was written since the last sync.
#[derive(Clone, Copy)]
pub enum Fill {
    /// The old bytes.
    Before,
    /// The written bytes.
    Written,
    /// This byte everywhere.
    Byte(u8),
}

/// A disk in memory that can stop like a machine that loses power: from a given call on, all writes and syncs fail. If
/// it stops at a write, that write is still made; if it stops at a sync, the sync has no effect; later calls have no
/// effect, but reads still succeed. If an allocation fails, a call may fail earlier, without effect. At any moment the
/// disk can show what a crash leaves, in three variants. The disk is honest, so all guarantees for a store on an honest
/// disk apply.
///
/// Creating a store takes four calls (two writes and two syncs), and its first flush takes six. Here the disk stops at
/// the fifth call of the flush, which writes the gate of the new slot; the crash leaves a byte there that is no gate:
///
/// ```
/// let mut disk = CrashDisk::new(alloc, 1_536)?;
/// disk.stop_at(9);
/// let mut store = Store::create(alloc, disk, settings).map_err(|(fault, _disk)| fault)?;
/// store.batch(rt, crew, &NoGate, &commands)?;
/// assert!(rt; store.flush(rt, crew) == Err(Fault::Device));
/// let left = store.disk().crashed(Fill::Byte(0xff))?;
/// let opened = Store::recover(rt, alloc, left, crew);
/// ```
///
/// To crash at each call in turn, run the program once without `stop_at`, and then once for each of the `calls` that
/// were counted. Like `MemDisk`, the disk allocates memory for each write and sync.
#[derive(Drop)]
pub struct CrashDisk<A: Allocator + Copy> {
    alloc: A,
    disk: MemDisk<A>,
    // The readable contents at the last sync, and the number of recorded calls at that time.
    is_synced: Vec<u8, A>,
    since: usize,
    // The number of the call at which the disk stops.
    stops_at: Option<u64>,
    calls: u64,
    failures: u64,
    ghost whole: { length disk.kept.items ≡ disk.len },
    ghost left: { IsSyncedAt (replicate disk.len 0)
        (calls_of disk.calls.items) since is_synced.items } by { Prim.hlevel props },
}

// Whether a write or a sync comes before, at or after the call at which the disk stops.
#[derive(Clone, Copy, PartialEq, Eq)]
enum Moment {
    Running,
    Stopping,
    Stopped,
}

impl<A: Allocator + Copy> CrashDisk<A> {
    /// Returns a synced disk of `len` zeros that never stops. `Err` means that allocation failed.
    pub fn new(alloc: A, len: usize) -> Result<Self, AllocError>
        ensures size { IfOk result (λ disk. (⟦<CrashDisk<A> as Disk>⟧.view disk).size ≡ len) }
        ensures seen { IfOk result
            (λ disk. (⟦<CrashDisk<A> as Disk>⟧.view disk).seen ≡ replicate len 0) }
        ensures is_synced { IfOk result (λ disk. IsSynced (⟦<CrashDisk<A> as Disk>⟧.view disk)) }
        ensures failures { IfOk result (λ disk. ⟦<CrashDisk<A> as Disk>⟧.failed disk ≡ 0) }
        ensures running { IfOk result (λ disk. disk.stops_at ≡ None) }
        ensures calls { IfOk result (λ disk. disk.calls ≡ 0) }
    {
        let mut bytes = Vec::new(alloc);
        bytes.resize(len, 0)?;
        CrashDisk::holding(alloc, bytes)
    }

    // A synced disk with these contents that never stops.
    fn holding(alloc: A, bytes: Vec<u8, A>) -> Result<Self, AllocError>
        ensures size { IfOk result
            (λ disk. (⟦<CrashDisk<A> as Disk>⟧.view disk).size ≡ length bytes.items) }
        ensures seen { IfOk result
            (λ disk. (⟦<CrashDisk<A> as Disk>⟧.view disk).seen ≡ bytes.items) }
        ensures is_synced { IfOk result (λ disk. IsSynced (⟦<CrashDisk<A> as Disk>⟧.view disk)) }
        ensures failures { IfOk result (λ disk. ⟦<CrashDisk<A> as Disk>⟧.failed disk ≡ 0) }
        ensures running { IfOk result (λ disk. disk.stops_at ≡ None) }
        ensures calls { IfOk result (λ disk. disk.calls ≡ 0) }
    {
        let is_synced = bytes.to_vec(alloc)?;
        let disk = MemDisk::holding(alloc, bytes)?;
        let since = disk.calls().len();
        Ok(CrashDisk {
            alloc,
            disk,
            is_synced,
            since,
            stops_at: None,
            calls: 0,
            failures: 0,
        })
    }

    /// Lets the disk stop at the write or sync with this number, counted from 1 for the next one.
    pub fn stop_at(&mut self, call: u64)
        ensures same { Same
            (⟦<CrashDisk<A> as Disk>⟧.view self.old) (⟦<CrashDisk<A> as Disk>⟧.view self.new) }
        ensures kept { Kept
            (⟦<CrashDisk<A> as Disk>⟧.view self.old) (⟦<CrashDisk<A> as Disk>⟧.view self.new) }
        ensures failures { ⟦<CrashDisk<A> as Disk>⟧.failed self.new
            ≡ ⟦<CrashDisk<A> as Disk>⟧.failed self.old }
        ensures stops { self.new.stops_at ≡ Some (min (self.old.calls + call) (2 ^ 64 - 1)) }
        ensures calls { self.new.calls ≡ self.old.calls }
    {
        self.stops_at = Some(self.calls.saturating_add(call));
    }

    /// Returns the number of writes and syncs since the disk was made, including failed ones. The count saturates.
    pub fn calls(&self) -> u64
        ensures { result ≡ self.now.calls }
    {
        self.calls
    }

    /// Returns the readable contents of the whole disk.
    pub fn bytes(&self) -> &[u8]
        ensures { result.now ≡ (⟦<CrashDisk<A> as Disk>⟧.view self.now).seen }
    {
        self.disk.bytes()
    }

    /// Returns what a crash may leave of this disk now, as a synced disk that never stops: the readable contents at the
    /// last sync, with the range of each later write filled as `fill` says, in order. This disk is unchanged. `Err`
    /// means that allocation failed.
    pub fn crashed(&self, fill: Fill) -> Result<CrashDisk<A>, AllocError>
        ensures left { IfOk result (λ disk. (⟦<CrashDisk<A> as Disk>⟧.view self.now).may_leave
            (⟦<CrashDisk<A> as Disk>⟧.view disk).seen) }
        // Which of the possible outcomes it is.
        ensures filled { IfOk result (λ disk. (⟦<CrashDisk<A> as Disk>⟧.view disk).seen
            ≡ left_with fill (calls_of self.now.disk.calls.items)
            (replicate self.now.disk.len 0) (replicate self.now.disk.len 0)) }
        ensures written { fill ≡ Fill.Written →
            IfOk result (λ disk. (⟦<CrashDisk<A> as Disk>⟧.view disk).seen
            ≡ (⟦<CrashDisk<A> as Disk>⟧.view self.now).seen) }
        ensures is_synced { IfOk result (λ disk. IsSynced (⟦<CrashDisk<A> as Disk>⟧.view disk)) }
        ensures size { IfOk result (λ disk. (⟦<CrashDisk<A> as Disk>⟧.view disk).size
            ≡ (⟦<CrashDisk<A> as Disk>⟧.view self.now).size) }
        ensures failures { IfOk result (λ disk. ⟦<CrashDisk<A> as Disk>⟧.failed disk ≡ 0) }
        ensures running { IfOk result (λ disk. disk.stops_at ≡ None) }
        ensures calls { IfOk result (λ disk. disk.calls ≡ 0) }
    {
        let mut bytes = self.is_synced.to_vec(self.alloc)?;
        tear(&mut bytes, &self.disk.calls()[self.since..], fill);
        CrashDisk::holding(self.alloc, bytes)
    }
}

// Counts a write or a sync, and returns its `Moment`.
fn next_moment(stops_at: Option<u64>, calls: &mut u64) -> Moment
    ensures counted { calls.new ≡ min (calls.old + 1) (2 ^ 64 - 1) }
    ensures moment { result ≡ moment_at stops_at calls.new }
{
    *calls = calls.saturating_add(1);
    match stops_at {
        Some(stop) if *calls == stop => Moment::Stopping,
        Some(stop) if stop < *calls => Moment::Stopped,
        _ => Moment::Running,
    }
}

// Fills the ranges of these calls in order.
fn tear<A: Allocator>(file: &mut Vec<u8, A>, calls: &[RecordedCall<A>], fill: Fill)
    requires { AreCalls (length file.old.items) (calls_of calls.now) }
    ensures torn { file.new.items ≡ all_torn fill (calls_of calls.now) file.old.items }
    ensures long { length file.new.items ≡ length file.old.items }
{
    for call in calls {
        tear_call(file, call, fill);
    }
}

// Fills the range of the call, if it is a write.
fn tear_call<A: Allocator>(file: &mut Vec<u8, A>, call: &RecordedCall<A>, fill: Fill)
    requires { end_of_call (call_of call.now) ≤ length file.old.items }
    ensures torn { file.new.items ≡ all_torn fill (call_of call.now ∷ []) file.old.items }
    ensures long { length file.new.items ≡ length file.old.items }
{
    match call {
        RecordedCall::Write { at, bytes } => fill_range(file, *at as usize, bytes, fill),
        RecordedCall::Sync => {}
    }
}

fn fill_range<A: Allocator>(file: &mut Vec<u8, A>, at: usize, bytes: &[u8], fill: Fill)
    requires { at + length bytes.now ≤ length file.old.items }
    ensures torn { file.new.items ≡ torn_by fill at bytes.now file.old.items }
    ensures long { length file.new.items ≡ length file.old.items }
{
    match fill {
        Fill::Before => {}
        Fill::Written => overwrite(file, at, bytes),
        Fill::Byte(byte) => file[at..at + bytes.len()].fill(byte),
    }
}

impl<A: Allocator + Copy> Disk for CrashDisk<A> {
    ghost view = { λ d. ⟦<MemDisk<A> as Disk>⟧.view d.disk };

    ghost failed = { λ d. d.failures };

    ghost lawful = { λ d _. record {
      whole =
          let both = length-append d.disk.kept.items
          (replicate (d.disk.len - length d.disk.kept.items) 0) in
          let rest = length-replicate {A = ℕ} (d.disk.len - length d.disk.kept.items) 0 in
          let all = length-replicate {A = ℕ} d.disk.len 0 in
          sym (ap length d.disk.recorded) ∙ Prim.omega (arith, both, rest, all, d.disk.short);
      may_stay = inl refl;
      counts_now = λ t c _ now. inl now;
      only_now = λ c left. ⊎_elim (λ now. now)
          (λ earlier. absurd (Prim.omega (arith, earlier.1, earlier.2))) left;
    } };

    fn len(&self) -> u64 {
        self.disk.len()
    }

    fn failures(&self) -> u64 {
        self.failures
    }

    fn read_at(&mut self, at: u64, buf: &mut [u8]) -> Result<(), DiskFault>
        requires { at + length buf.old ≤ (⟦<CrashDisk<A> as Disk>⟧.view self.old).size }
        ensures answers { result ≡ Ok tt }
        ensures bytes { buf.new
            ≡ take (length buf.old) (drop at (⟦<CrashDisk<A> as Disk>⟧.view self.old).seen) }
        ensures same { self.new ≡ self.old }
    {
        self.disk.read(at, buf);
        Ok(())
    }

    fn write_at(&mut self, at: u64, bytes: &[u8]) -> Result<(), DiskFault>
        requires { at + length bytes.now ≤ (⟦<CrashDisk<A> as Disk>⟧.view self.old).size }
        ensures kept { Kept
            (⟦<CrashDisk<A> as Disk>⟧.view self.old) (⟦<CrashDisk<A> as Disk>⟧.view self.new) }
        ensures failed { CountsFailure result
            (⟦<CrashDisk<A> as Disk>⟧.failed self.old) (⟦<CrashDisk<A> as Disk>⟧.failed self.new) }
        ensures written { IsTrue (⟦<CrashDisk<A> as Disk>⟧.view self.old).is_honest →
            OnOk result ((⟦<CrashDisk<A> as Disk>⟧.view self.new).seen
            ≡ overlay (⟦<CrashDisk<A> as Disk>⟧.view self.old).seen at bytes.now) }
        ensures torn { IsTrue (⟦<CrashDisk<A> as Disk>⟧.view self.old).is_honest →
            Torn at (length bytes.now) (⟦<CrashDisk<A> as Disk>⟧.view self.old).seen
            (⟦<CrashDisk<A> as Disk>⟧.view self.new).seen }
        ensures crash { IsTrue (⟦<CrashDisk<A> as Disk>⟧.view self.old).is_honest →
            Leaves (⟦<CrashDisk<A> as Disk>⟧.view self.old) (⟦<CrashDisk<A> as Disk>⟧.view self.new)
            (Torn at (length bytes.now)) }
        // At which call the disk stops, and the effect.
        ensures counted { self.new.calls ≡ min (self.old.calls + 1) (2 ^ 64 - 1) }
        ensures stops { self.new.stops_at ≡ self.old.stops_at }
        ensures running { OnOk result (moment_at self.old.stops_at self.new.calls ≡ Running) }
        ensures cut { OnErr result
            (IsCutShort (moment_at self.old.stops_at self.new.calls ≡ Stopping)
            (overlay (⟦<CrashDisk<A> as Disk>⟧.view self.old).seen at bytes.now)
            ((moment_at self.old.stops_at self.new.calls ≡ Stopped)
            ⊎ HasFailed (⟦<MemDisk<A> as Disk>⟧.failed self.old.disk)
            (⟦<MemDisk<A> as Disk>⟧.failed self.new.disk))
            (⟦<CrashDisk<A> as Disk>⟧.view self.old) (⟦<CrashDisk<A> as Disk>⟧.view self.new)) }
    {
        match next_moment(self.stops_at, &mut self.calls) {
            Moment::Running => counted(&mut self.failures, self.disk.write_recorded(at, bytes)),
            Moment::Stopping => {
                let _ = self.disk.write_recorded(at, bytes);
                Err(count_failure(&mut self.failures))
            }
            Moment::Stopped => Err(count_failure(&mut self.failures)),
        }
    }

    fn sync(&mut self) -> Result<(), DiskFault>
        ensures kept { Kept
            (⟦<CrashDisk<A> as Disk>⟧.view self.old) (⟦<CrashDisk<A> as Disk>⟧.view self.new) }
        ensures failed { CountsFailure result
            (⟦<CrashDisk<A> as Disk>⟧.failed self.old) (⟦<CrashDisk<A> as Disk>⟧.failed self.new) }
        ensures is_synced { IsTrue (⟦<CrashDisk<A> as Disk>⟧.view self.old).is_honest →
            OnOk result (IsSynced (⟦<CrashDisk<A> as Disk>⟧.view self.new)) }
        ensures seen { IsTrue (⟦<CrashDisk<A> as Disk>⟧.view self.old).is_honest →
            (⟦<CrashDisk<A> as Disk>⟧.view self.new).seen
            ≡ (⟦<CrashDisk<A> as Disk>⟧.view self.old).seen }
        ensures crash { IsTrue (⟦<CrashDisk<A> as Disk>⟧.view self.old).is_honest →
            Leaves (⟦<CrashDisk<A> as Disk>⟧.view self.old) (⟦<CrashDisk<A> as Disk>⟧.view self.new)
            (λ before c. c ≡ before) }
        // At which call the disk stops, and the effect.
        ensures counted { self.new.calls ≡ min (self.old.calls + 1) (2 ^ 64 - 1) }
        ensures stops { self.new.stops_at ≡ self.old.stops_at }
        ensures running { OnOk result (moment_at self.old.stops_at self.new.calls ≡ Running) }
        ensures none { OnErr result ((((moment_at self.old.stops_at self.new.calls ≡ Stopping)
            ⊎ (moment_at self.old.stops_at self.new.calls ≡ Stopped))
            ⊎ HasFailed (⟦<MemDisk<A> as Disk>⟧.failed self.old.disk)
            (⟦<MemDisk<A> as Disk>⟧.failed self.new.disk))
            × Same (⟦<CrashDisk<A> as Disk>⟧.view self.old)
            (⟦<CrashDisk<A> as Disk>⟧.view self.new)) }
    {
        if next_moment(self.stops_at, &mut self.calls) != Moment::Running {
            return Err(count_failure(&mut self.failures));
        }
        match self.disk.sync_recorded() {
            Ok(()) => {
                tear(
                    &mut self.is_synced,
                    &self.disk.calls()[self.since..],
                    Fill::Written,
                );
                self.since = self.disk.calls().len();
                Ok(())
            }
            Err(_) => Err(count_failure(&mut self.failures)),
        }
    }
}
