//! A disk for tests whose calls fail on request.
ghost use Rattle.std.specs.Prelude.{◌≡◌, ◌⊎◌, ℕ, ◌+◌, ◌-◌, ◌^◌, ◌≤◌, ◌++◌, min, true, false, IsTrue, Ok, length, take, drop, replicate, refl, OnOk, OnErr};
ghost use Rattle.std.proofs.Common.{inl, ⊎_elim, sym, ap, ◌∙◌, arith, length-append};
ghost use Rattle.std.proofs.lemmas.List.{length-replicate};
ghost use Rattle.flush_log.specs.Overlay.{overlay};
ghost use Rattle.flush_log.specs.Disk.{IsSynced, Torn, Kept, Same, Leaves, CountsFailure, HasFailed};
ghost use Rattle.flush_log.specs.Faults.{is_wanted, IsCutShort};

use crate::disk::{Disk, DiskFault, count_failure, counted};
use crate::mem_disk::MemDisk;
use std::alloc::Allocator;

/// Which calls of a disk fail. Writes and syncs are counted together, from 1; reads are not counted and do not fail.
#[derive(Clone, Copy)]
pub enum Failing {
    /// No call fails.
    Never,
    /// The call with this number fails; later calls succeed again.
    Once(u64),
    /// The call with this number and all later calls fail.
    From(u64),
}

/// A disk in memory whose calls fail on request, to test what a store returns and keeps after a failure. A write that
/// fails on request has written its first bytes, as many as were passed to `new`; a sync that fails has no effect. If
/// an allocation fails, a call may fail without a request, and writes nothing. The disk is honest, so all guarantees
/// for a store on an honest disk apply.
///
/// Creating a store takes four calls, two writes and two syncs. Here the fifth call fails, which is the first of the
/// flush:
///
/// ```
/// let disk = FaultDisk::new(MemDisk::new(alloc, 1_536)?, Failing::Once(5), 7);
/// let mut store = Store::create(alloc, disk, settings).map_err(|(fault, _disk)| fault)?;
/// store.batch(rt, crew, &NoGate, &commands)?;
/// assert!(rt; store.flush(rt, crew) == Err(Fault::Device));
/// assert!(rt; store.disk().calls() == 5 && store.disk().failures() == 1);
/// let mut left = store.close().into_inner();
/// left.sync()?;
/// let opened = Store::recover(rt, alloc, left, crew);
/// ```
///
/// To let each call fail in turn, run the program once with `Failing::Never`, and then once for each of the `calls`
/// that were counted.
#[derive(Drop)]
pub struct FaultDisk<A: Allocator + Copy> {
    disk: MemDisk<A>,
    failing: Failing,
    // How many bytes a failing write still writes.
    written: usize,
    calls: u64,
    failures: u64,
}

impl<A: Allocator + Copy> FaultDisk<A> {
    /// Wraps `disk`, whose calls then fail as requested. A failing write still writes its first `written` bytes, or all
    /// of them if there are fewer.
    pub fn new(disk: MemDisk<A>, failing: Failing, written: usize) -> Self
        ensures same { Same (⟦<MemDisk<A> as Disk>⟧.view disk)
            (⟦<FaultDisk<A> as Disk>⟧.view result) }
        ensures kept { Kept (⟦<MemDisk<A> as Disk>⟧.view disk)
            (⟦<FaultDisk<A> as Disk>⟧.view result) }
        ensures failures { ⟦<FaultDisk<A> as Disk>⟧.failed result ≡ 0 }
        ensures calls { result.calls ≡ 0 }
        ensures wanted { result.failing ≡ failing }
        ensures written { result.written ≡ written }
    {
        FaultDisk {
            disk,
            failing,
            written,
            calls: 0,
            failures: 0,
        }
    }

    /// Returns the number of writes and syncs since `new`, including failed ones. The count saturates.
    pub fn calls(&self) -> u64
        ensures { result ≡ self.now.calls }
    {
        self.calls
    }

    /// Returns the underlying disk in its current state, without further faults.
    pub fn into_inner(self) -> MemDisk<A>
        ensures same { Same (⟦<FaultDisk<A> as Disk>⟧.view self)
            (⟦<MemDisk<A> as Disk>⟧.view result) }
        ensures kept { Kept (⟦<FaultDisk<A> as Disk>⟧.view self)
            (⟦<MemDisk<A> as Disk>⟧.view result) }
    {
        let FaultDisk { disk, .. } = self;
        disk
    }
}

// Counts a write or a sync, and returns whether it must fail.
fn is_to_fail(failing: Failing, calls: &mut u64) -> bool
    ensures counted { calls.new ≡ min (calls.old + 1) (2 ^ 64 - 1) }
    ensures wanted { result ≡ is_wanted failing calls.new }
{
    *calls = calls.saturating_add(1);
    match failing {
        Failing::Never => false,
        Failing::Once(call) => *calls == call,
        Failing::From(call) => call <= *calls,
    }
}

impl<A: Allocator + Copy> Disk for FaultDisk<A> {
    ghost view = { λ d. ⟦<MemDisk<A> as Disk>⟧.view d.disk };

    ghost failed = { λ d. d.failures };

    ghost lawful = { λ d _. record {
      whole =
          let both = length-append d.disk.kept.items
          (replicate (d.disk.len - length d.disk.kept.items) 0) in
          let rest = length-replicate {A = ℕ} (d.disk.len - length d.disk.kept.items) 0 in
          let all = length-replicate {A = ℕ} d.disk.len 0 in
          sym (ap length d.disk.recorded) ∙ Prim.omega (arith, both, rest, all, d.disk.short);
      may_stay = inl refl;
      counts_now = λ t c _ now. inl now;
      only_now = λ c left. ⊎_elim (λ now. now)
          (λ earlier. absurd (Prim.omega (arith, earlier.1, earlier.2))) left;
    } };

    fn len(&self) -> u64 {
        self.disk.len()
    }

    fn failures(&self) -> u64 {
        self.failures
    }

    fn read_at(&mut self, at: u64, buf: &mut [u8]) -> Result<(), DiskFault>
        requires { at + length buf.old ≤ (⟦<FaultDisk<A> as Disk>⟧.view self.old).size }
        ensures answers { result ≡ Ok tt }
        ensures bytes { buf.new
            ≡ take (length buf.old) (drop at (⟦<FaultDisk<A> as Disk>⟧.view self.old).seen) }
        ensures same { self.new ≡ self.old }
    {
        self.disk.read(at, buf);
        Ok(())
    }

    fn write_at(&mut self, at: u64, bytes: &[u8]) -> Result<(), DiskFault>
        requires { at + length bytes.now ≤ (⟦<FaultDisk<A> as Disk>⟧.view self.old).size }
        ensures kept { Kept
            (⟦<FaultDisk<A> as Disk>⟧.view self.old) (⟦<FaultDisk<A> as Disk>⟧.view self.new) }
        ensures failed { CountsFailure result
            (⟦<FaultDisk<A> as Disk>⟧.failed self.old) (⟦<FaultDisk<A> as Disk>⟧.failed self.new) }
        ensures written { IsTrue (⟦<FaultDisk<A> as Disk>⟧.view self.old).is_honest →
            OnOk result ((⟦<FaultDisk<A> as Disk>⟧.view self.new).seen
            ≡ overlay (⟦<FaultDisk<A> as Disk>⟧.view self.old).seen at bytes.now) }
        ensures torn { IsTrue (⟦<FaultDisk<A> as Disk>⟧.view self.old).is_honest →
            Torn at (length bytes.now) (⟦<FaultDisk<A> as Disk>⟧.view self.old).seen
            (⟦<FaultDisk<A> as Disk>⟧.view self.new).seen }
        ensures crash { IsTrue (⟦<FaultDisk<A> as Disk>⟧.view self.old).is_honest →
            Leaves (⟦<FaultDisk<A> as Disk>⟧.view self.old) (⟦<FaultDisk<A> as Disk>⟧.view self.new)
            (Torn at (length bytes.now)) }
        // Which call fails, and its effect.
        ensures counted { self.new.calls ≡ min (self.old.calls + 1) (2 ^ 64 - 1) }
        ensures same { (self.new.failing ≡ self.old.failing)
            × (self.new.written ≡ self.old.written) }
        ensures wanted { OnOk result (is_wanted self.old.failing self.new.calls ≡ false) }
        ensures cut { OnErr result (IsCutShort (is_wanted self.old.failing self.new.calls ≡ true)
            (overlay (⟦<FaultDisk<A> as Disk>⟧.view self.old).seen at
            (take self.old.written bytes.now))
            (HasFailed (⟦<MemDisk<A> as Disk>⟧.failed self.old.disk)
            (⟦<MemDisk<A> as Disk>⟧.failed self.new.disk))
            (⟦<FaultDisk<A> as Disk>⟧.view self.old) (⟦<FaultDisk<A> as Disk>⟧.view self.new)) }
    {
        if is_to_fail(self.failing, &mut self.calls) {
            let written = self.written.min(bytes.len());
            let _ = self.disk.write_recorded(at, &bytes[..written]);
            return Err(count_failure(&mut self.failures));
        }
        counted(&mut self.failures, self.disk.write_recorded(at, bytes))
    }

    fn sync(&mut self) -> Result<(), DiskFault>
        ensures kept { Kept
            (⟦<FaultDisk<A> as Disk>⟧.view self.old) (⟦<FaultDisk<A> as Disk>⟧.view self.new) }
        ensures failed { CountsFailure result
            (⟦<FaultDisk<A> as Disk>⟧.failed self.old) (⟦<FaultDisk<A> as Disk>⟧.failed self.new) }
        ensures is_synced { IsTrue (⟦<FaultDisk<A> as Disk>⟧.view self.old).is_honest →
            OnOk result (IsSynced (⟦<FaultDisk<A> as Disk>⟧.view self.new)) }
        ensures seen { IsTrue (⟦<FaultDisk<A> as Disk>⟧.view self.old).is_honest →
            (⟦<FaultDisk<A> as Disk>⟧.view self.new).seen
            ≡ (⟦<FaultDisk<A> as Disk>⟧.view self.old).seen }
        ensures crash { IsTrue (⟦<FaultDisk<A> as Disk>⟧.view self.old).is_honest →
            Leaves (⟦<FaultDisk<A> as Disk>⟧.view self.old) (⟦<FaultDisk<A> as Disk>⟧.view self.new)
            (λ before c. c ≡ before) }
        // Which call fails, and its effect.
        ensures counted { self.new.calls ≡ min (self.old.calls + 1) (2 ^ 64 - 1) }
        ensures same { (self.new.failing ≡ self.old.failing)
            × (self.new.written ≡ self.old.written) }
        ensures wanted { OnOk result (is_wanted self.old.failing self.new.calls ≡ false) }
        ensures none { OnErr result (((is_wanted self.old.failing self.new.calls ≡ true)
            ⊎ HasFailed (⟦<MemDisk<A> as Disk>⟧.failed self.old.disk)
            (⟦<MemDisk<A> as Disk>⟧.failed self.new.disk))
            × Same (⟦<FaultDisk<A> as Disk>⟧.view self.old)
            (⟦<FaultDisk<A> as Disk>⟧.view self.new)) }
    {
        if is_to_fail(self.failing, &mut self.calls) {
            return Err(count_failure(&mut self.failures));
        }
        counted(&mut self.failures, self.disk.sync_recorded())
    }
}
