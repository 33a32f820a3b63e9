//! The interface of a disk. `specs/Disk.antt` defines the state of a disk at one moment, including what a crash may
//! leave.
ghost use Rattle.std.specs.Prelude.{◌≡◌, ℕ, ◌+◌, ◌-◌, ◌^◌, ◌≤◌, min, IsTrue, length, take, drop, OnOk};
ghost use Rattle.keys.specs.declared.fault.Fault.TheVariants.{Device};
ghost use Rattle.flush_log.specs.Overlay.{overlay};
ghost use Rattle.flush_log.specs.Disk.{View, Lawful, IsSynced, Torn, Kept, Same, Leaves, CountsFailure};

use keys::Fault;
use std::error::Error;
use std::fmt;

/// The error of a disk call.
#[derive(Clone, Copy, Debug, PartialEq, Eq)]
pub struct DiskFault;

impl fmt::Display for DiskFault {
    fn fmt<W: fmt::Write>(&self, f: &mut fmt::Formatter<W>) -> fmt::Result {
        f.write_str("a call of the disk failed")
    }
}

impl Error for DiskFault {}

impl From<DiskFault> for Fault {
    ghost from_gives = { λ _ fault. fault ≡ Device };

    fn from(_failed: DiskFault) -> Fault {
        Fault::Device
    }
}

// Counts a failed call. The count saturates.
pub(crate) fn count_failure(failures: &mut u64) -> DiskFault
    ensures { failures.new ≡ min (failures.old + 1) (2 ^ 64 - 1) }
{
    *failures = failures.saturating_add(1);
    DiskFault
}

// Returns the answer of the underlying disk, and counts its failures here.
pub(crate) fn counted(failures: &mut u64, answer: Result<(), DiskFault>) -> Result<(), DiskFault>
    ensures same { result ≡ answer }
    ensures failed { CountsFailure result failures.old failures.new }
{
    match answer {
        Ok(()) => Ok(()),
        Err(_) => Err(count_failure(failures)),
    }
}

/// A disk of a fixed length. Each call may fail.
///
/// Whether a disk is honest is a property of the value, which no call changes. The clauses about bytes and crashes hold
/// for honest disks only; every disk keeps its length and counts its failures.
pub trait Disk {
    // The current state of the disk.
    ghost view: { Self → View };

    // The number of failed calls.
    ghost failed: { Self → ℕ };

    /// Returns the length in bytes.
    fn len(&self) -> u64
        ensures { result ≡ (view self.now).size };

    /// Returns the number of failed calls. The count saturates.
    fn failures(&self) -> u64
        ensures { result ≡ failed self.now };

    /// Fills the buffer with the bytes from offset `at` on. Changes neither the bytes of the disk
    /// nor what a crash may leave. After an `Err` the contents of the buffer are unspecified.
    fn read_at(&mut self, at: u64, buf: &mut [u8]) -> Result<(), DiskFault>
        requires { at + length buf.old ≤ (view self.old).size }
        ensures kept { Kept (view self.old) (view self.new) }
        ensures failed { CountsFailure result (failed self.old) (failed self.new) }
        ensures bytes { IsTrue (view self.old).is_honest →
            OnOk result (buf.new ≡ take (length buf.old) (drop at (view self.old).seen)) }
        ensures same { IsTrue (view self.old).is_honest → Same (view self.old) (view self.new) };

    /// Writes bytes from offset `at` on. Until a sync succeeds, a crash may leave any bytes in that
    /// range, and so may a failed write; bytes outside the range keep their values.
    fn write_at(&mut self, at: u64, bytes: &[u8]) -> Result<(), DiskFault>
        requires { at + length bytes.now ≤ (view self.old).size }
        ensures kept { Kept (view self.old) (view self.new) }
        ensures failed { CountsFailure result (failed self.old) (failed self.new) }
        ensures written { IsTrue (view self.old).is_honest →
            OnOk result ((view self.new).seen ≡ overlay (view self.old).seen at bytes.now) }
        ensures torn { IsTrue (view self.old).is_honest →
            Torn at (length bytes.now) (view self.old).seen (view self.new).seen }
        ensures crash { IsTrue (view self.old).is_honest →
            Leaves (view self.old) (view self.new) (Torn at (length bytes.now)) };

    /// Makes all earlier writes durable: a crash then leaves the readable contents. Does not change
    /// the readable contents. After an `Err` nothing is known to be durable.
    fn sync(&mut self) -> Result<(), DiskFault>
        ensures kept { Kept (view self.old) (view self.new) }
        ensures failed { CountsFailure result (failed self.old) (failed self.new) }
        ensures is_synced { IsTrue (view self.old).is_honest →
            OnOk result (IsSynced (view self.new)) }
        ensures seen { IsTrue (view self.old).is_honest →
            (view self.new).seen ≡ (view self.old).seen }
        ensures crash { IsTrue (view self.old).is_honest →
            Leaves (view self.old) (view self.new) (λ before c. c ≡ before) };

    // The readable contents have the disk's length and are a possible outcome of a crash, and the
    // present is one of the moments at which a crash may happen.
    ghost lawful: { (disk : Self) → IsTrue (view disk).is_honest → Lawful (view disk) };
}
