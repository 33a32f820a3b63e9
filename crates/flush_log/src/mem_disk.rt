//! A disk in memory: for tests, and for stores that need not be durable.
ghost use Rattle.std.specs.Prelude.{◌≡◌, ℕ, ◌+◌, ◌-◌, ◌≤◌, ◌∷◌, ◌++◌, [], length, take, drop, replicate, refl, IsOk, IfOk, OnOk, OnErr};
ghost use Rattle.std.proofs.Common.{inl, ⊎_elim, sym, ap, ◌∙◌, arith, length-append};
ghost use Rattle.std.proofs.Props.{props};
ghost use Rattle.std.proofs.lemmas.List.{length-replicate};
ghost use Rattle.flush_log.specs.Overlay.{overlay};
ghost use Rattle.flush_log.specs.Disk.{IsSynced, Torn, Kept, Same, Leaves, CountsFailure};
ghost use Rattle.flush_log.specs.Commit.{seen_after};
ghost use Rattle.flush_log.specs.Commit.Call.{Write, Sync};
ghost use Rattle.flush_log.specs.Record.{view_of, AreCalls, call_of, calls_of, with_zeros};

use crate::disk::{Disk, DiskFault, count_failure};
use std::alloc::{AllocError, Allocator};

// A call that changed the disk.
#[derive(Drop)]
pub(crate) enum RecordedCall<A: Allocator> {
    Write { at: u64, bytes: Vec<u8, A> },
    Sync,
}

/// A disk in memory. It is honest, and its calls fail only if allocation fails.
///
/// What a crash may leave depends on each write and sync, so the disk records them, and allocates memory for each call
/// that changes it. The length by itself takes no space: bytes are stored up to the last one that was written.
#[derive(Drop)]
pub struct MemDisk<A: Allocator + Copy> {
    alloc: A,
    len: usize,
    // The first bytes; all later ones are zeros.
    kept: Vec<u8, A>,
    // In the order of the calls.
    calls: Vec<RecordedCall<A>, A>,
    failures: u64,
    ghost in_range: { AreCalls len (calls_of calls.items) } by { Prim.hlevel props },
    ghost short: { length kept.items ≤ len },
    ghost recorded: { with_zeros len kept.items
        ≡ seen_after (calls_of calls.items) (replicate len 0) },
}

impl<A: Allocator + Copy> MemDisk<A> {
    /// Returns a synced disk of `len` zeros. Does not allocate, so the result is never `Err`.
    pub fn new(alloc: A, len: usize) -> Result<Self, AllocError>
        ensures never { IsOk result }
        ensures size { IfOk result (λ disk. (⟦<MemDisk<A> as Disk>⟧.view disk).size ≡ len) }
        ensures seen { IfOk result
            (λ disk. (⟦<MemDisk<A> as Disk>⟧.view disk).seen ≡ replicate len 0) }
        ensures is_synced { IfOk result (λ disk. IsSynced (⟦<MemDisk<A> as Disk>⟧.view disk)) }
        ensures failures { IfOk result (λ disk. ⟦<MemDisk<A> as Disk>⟧.failed disk ≡ 0) }
    {
        Ok(MemDisk {
            alloc,
            len,
            kept: Vec::new(alloc),
            calls: Vec::new(alloc),
            failures: 0,
        })
    }

    // A disk after these bytes were written to it and synced.
    pub(crate) fn holding(alloc: A, bytes: Vec<u8, A>) -> Result<Self, AllocError>
        ensures len { IfOk result (λ disk. disk.len ≡ length bytes.items) }
        ensures kept { IfOk result (λ disk. disk.kept.items ≡ bytes.items) }
        ensures calls { IfOk result
            (λ disk. calls_of disk.calls.items ≡ Write 0 bytes.items ∷ Sync ∷ []) }
    {
        let mut calls = Vec::new(alloc);
        note_write(alloc, &mut calls, 0, &bytes)?;
        note(&mut calls, RecordedCall::Sync)?;
        Ok(MemDisk {
            alloc,
            len: bytes.len(),
            kept: bytes,
            calls,
            failures: 0,
        })
    }

    /// Returns the readable contents up to the last written byte; all bytes beyond are zeros.
    pub fn bytes(&self) -> &[u8]
        ensures seen { with_zeros (⟦<MemDisk<A> as Disk>⟧.view self.now).size result.now
            ≡ (⟦<MemDisk<A> as Disk>⟧.view self.now).seen }
        ensures short { length result.now ≤ (⟦<MemDisk<A> as Disk>⟧.view self.now).size }
        ensures kept { result.now ≡ self.now.kept.items }
    {
        &self.kept
    }

    pub(crate) fn calls(&self) -> &[RecordedCall<A>]
        ensures { result.now ≡ self.now.calls.items }
    {
        &self.calls
    }

    // Implements `read_at`.
    pub(crate) fn read(&self, at: u64, buf: &mut [u8])
        requires { at + length buf.old ≤ (⟦<MemDisk<A> as Disk>⟧.view self.now).size }
        ensures { buf.new
            ≡ take (length buf.old) (drop at (⟦<MemDisk<A> as Disk>⟧.view self.now).seen) }
    {
        read_kept(&self.kept, self.len, at as usize, buf);
    }

    // Implements `write_at`, with the effect on the recorded calls.
    pub(crate) fn write_recorded(&mut self, at: u64, bytes: &[u8]) -> Result<(), DiskFault>
        requires { at + length bytes.now ≤ (⟦<MemDisk<A> as Disk>⟧.view self.old).size }
        ensures done { OnOk result (calls_of self.new.calls.items
            ≡ calls_of self.old.calls.items ++ Write at bytes.now ∷ []) }
        ensures refused { OnErr result
            (calls_of self.new.calls.items ≡ calls_of self.old.calls.items) }
        ensures kept { Kept
            (⟦<MemDisk<A> as Disk>⟧.view self.old) (⟦<MemDisk<A> as Disk>⟧.view self.new) }
        ensures len { self.new.len ≡ self.old.len }
        ensures grows { length self.old.kept.items ≤ length self.new.kept.items }
        ensures none { OnErr result
            (Same (⟦<MemDisk<A> as Disk>⟧.view self.old) (⟦<MemDisk<A> as Disk>⟧.view self.new)) }
        ensures failed { CountsFailure result
            (⟦<MemDisk<A> as Disk>⟧.failed self.old) (⟦<MemDisk<A> as Disk>⟧.failed self.new) }
        ensures written { OnOk result ((⟦<MemDisk<A> as Disk>⟧.view self.new).seen
            ≡ overlay (⟦<MemDisk<A> as Disk>⟧.view self.old).seen at bytes.now) }
        ensures torn { Torn at (length bytes.now) (⟦<MemDisk<A> as Disk>⟧.view self.old).seen
            (⟦<MemDisk<A> as Disk>⟧.view self.new).seen }
        ensures crash { Leaves (⟦<MemDisk<A> as Disk>⟧.view self.old)
            (⟦<MemDisk<A> as Disk>⟧.view self.new) (Torn at (length bytes.now)) }
    {
        let end = at as usize + bytes.len();
        if lengthen(&mut self.kept, self.len, end).is_err() {
            return Err(count_failure(&mut self.failures));
        }
        match note_write(self.alloc, &mut self.calls, at, bytes) {
            Ok(()) => {
                overwrite(&mut self.kept, at as usize, bytes);
                Ok(())
            }
            Err(_) => Err(count_failure(&mut self.failures)),
        }
    }

    // Implements `sync`, with the effect on the recorded calls.
    pub(crate) fn sync_recorded(&mut self) -> Result<(), DiskFault>
        ensures done { OnOk result
            (calls_of self.new.calls.items ≡ calls_of self.old.calls.items ++ Sync ∷ []) }
        ensures refused { OnErr result
            (calls_of self.new.calls.items ≡ calls_of self.old.calls.items) }
        ensures len { self.new.len ≡ self.old.len }
        ensures kept { self.new.kept.items ≡ self.old.kept.items }
        ensures none { OnErr result
            (Same (⟦<MemDisk<A> as Disk>⟧.view self.old) (⟦<MemDisk<A> as Disk>⟧.view self.new)) }
        ensures failed { CountsFailure result
            (⟦<MemDisk<A> as Disk>⟧.failed self.old) (⟦<MemDisk<A> as Disk>⟧.failed self.new) }
        ensures is_synced { OnOk result (IsSynced (⟦<MemDisk<A> as Disk>⟧.view self.new)) }
        ensures seen { (⟦<MemDisk<A> as Disk>⟧.view self.new).seen
            ≡ (⟦<MemDisk<A> as Disk>⟧.view self.old).seen }
        ensures crash { Leaves (⟦<MemDisk<A> as Disk>⟧.view self.old)
            (⟦<MemDisk<A> as Disk>⟧.view self.new) (λ before c. c ≡ before) }
    {
        match note(&mut self.calls, RecordedCall::Sync) {
            Ok(()) => Ok(()),
            Err(_) => Err(count_failure(&mut self.failures)),
        }
    }
}

// Reads from offset `at` on, in a file of `len` bytes: first those in `kept`, then zeros.
fn read_kept(kept: &[u8], len: usize, at: usize, buf: &mut [u8])
    requires short { length kept.now ≤ len }
    requires within { at + length buf.old ≤ len }
    ensures { buf.new ≡ take (length buf.old) (drop at (with_zeros len kept.now)) }
{
    let from = at.min(kept.len());
    let here = buf.len().min(kept.len() - from);
    buf.fill(0);
    buf[..here].copy_from_slice(&kept[from..from + here]);
}

// Extends the stored bytes by zeros up to this place.
fn lengthen<A: Allocator>(kept: &mut Vec<u8, A>, len: usize, end: usize) -> Result<(), AllocError>
    requires short { length kept.old.items ≤ len }
    requires within { end ≤ len }
    ensures same { with_zeros len kept.new.items ≡ with_zeros len kept.old.items }
    ensures short { length kept.new.items ≤ len }
    ensures grows { length kept.old.items ≤ length kept.new.items }
    ensures enough { OnOk result (end ≤ length kept.new.items) }
{
    if kept.len() < end {
        kept.resize(end, 0)?;
    }
    Ok(())
}

// Overwrites the bytes of a file from place `at` on.
pub(crate) fn overwrite<A: Allocator>(file: &mut Vec<u8, A>, at: usize, bytes: &[u8])
    requires { at + length bytes.now ≤ length file.old.items }
    ensures { file.new.items ≡ overlay file.old.items at bytes.now }
{
    file[at..at + bytes.len()].copy_from_slice(bytes);
}

fn note<A: Allocator>(
    calls: &mut Vec<RecordedCall<A>, A>,
    call: RecordedCall<A>,
) -> Result<(), AllocError>
    ensures ok { OnOk result
        (calls_of calls.new.items ≡ calls_of calls.old.items ++ call_of call ∷ []) }
    ensures err { OnErr result (calls.new.items ≡ calls.old.items) }
{
    calls.push(call)?;
    Ok(())
}

fn note_write<A: Allocator + Copy>(
    alloc: A,
    calls: &mut Vec<RecordedCall<A>, A>,
    at: u64,
    bytes: &[u8],
) -> Result<(), AllocError>
    ensures ok { OnOk result
        (calls_of calls.new.items ≡ calls_of calls.old.items ++ Write at bytes.now ∷ []) }
    ensures err { OnErr result (calls.new.items ≡ calls.old.items) }
{
    let copy = bytes.to_vec(alloc)?;
    note(calls, RecordedCall::Write { at, bytes: copy })?;
    Ok(())
}

impl<A: Allocator + Copy> Disk for MemDisk<A> {
    ghost view = { λ d. view_of (replicate d.len 0) (calls_of d.calls.items) };

    ghost failed = { λ d. d.failures };

    ghost lawful = { λ d _. record {
      whole =
          let both = length-append d.kept.items (replicate (d.len - length d.kept.items) 0) in
          let rest = length-replicate {A = ℕ} (d.len - length d.kept.items) 0 in
          let all = length-replicate {A = ℕ} d.len 0 in
          sym (ap length d.recorded) ∙ Prim.omega (arith, both, rest, all, d.short);
      may_stay = inl refl;
      counts_now = λ t c _ now. inl now;
      only_now = λ c left. ⊎_elim (λ now. now)
          (λ earlier. absurd (Prim.omega (arith, earlier.1, earlier.2))) left;
    } };

    fn len(&self) -> u64 {
        self.len as u64
    }

    fn failures(&self) -> u64 {
        self.failures
    }

    fn read_at(&mut self, at: u64, buf: &mut [u8]) -> Result<(), DiskFault> {
        self.read(at, buf);
        Ok(())
    }

    fn write_at(&mut self, at: u64, bytes: &[u8]) -> Result<(), DiskFault> {
        self.write_recorded(at, bytes)
    }

    fn sync(&mut self) -> Result<(), DiskFault> {
        self.sync_recorded()
    }
}
