//! Reads bytes of a disk. A reading of a disk reads each place at most once, so some file agrees with everything that
//! was read, whatever the disk does.
ghost use Rattle.std.specs.Prelude.{◌+◌, ◌≤◌, length, IfErr, OnOk};
ghost use Rattle.keys.specs.Bytes.{Bytes};
ghost use Rattle.flush_log.specs.Overlay.{overlay};
ghost use Rattle.recovery.specs.Recovered.{IsReadOf, IsLate, OnlyReads};

use flush_log::Disk;
use keys::Fault;

/// Fills the buffer with the bytes from offset `at` on. On an honest disk these are its contents; for another disk, the
/// proof overlays them on the bytes that were read before. Fails with `Fault::Device` if the read fails.
pub fn read<D: Disk>(disk: &mut D, at: u64, buf: &mut [u8]) -> Result<(), Fault>
    requires { at + length buf.old ≤ (D.view disk.old).size }
    ensures only_reads { OnlyReads D.view D.failed disk.old disk.new result }
    ensures device { IfErr result (IsLate (D.failed disk.old) (D.failed disk.new)) }
    ensures stays { (file : Bytes) → IsReadOf (D.view disk.old) file →
        IsReadOf (D.view disk.new) file }
    ensures bytes { (file : Bytes) → IsReadOf (D.view disk.old) file →
        OnOk result (IsReadOf (D.view disk.new) (overlay file at buf.new)) }
{
    disk.read_at(at, buf)?;
    Ok(())
}
