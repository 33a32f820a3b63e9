//! A disk on which a store is created so that no reader finds it before it is complete.
ghost use Rattle.std.specs.Prelude.{◌≡◌, ◌+◌, ◌≤◌, IsTrue, length, take, drop, OnOk, [], ◌∷◌, refl, IfOk, slice_index};
ghost use Rattle.std.proofs.Common.{◌∙◌};
ghost use Rattle.keys.specs.Bytes.{Bytes};
ghost use Rattle.flush_log.specs.Disk.{IsSynced, Kept, Same, LeavesOnly, CountsFailure, OnlyRead};
ghost use Rattle.flush_log.specs.Overlay.{overlay};
ghost use Rattle.engine.specs.Hidden.{exchanged, exchanged_byte, exchanged_view, store_byte, IsLeftHiding, IsCleared, IsLeftRevealing, revealed};

use flush_log::{Disk, DiskFault, write_through};

/// The first byte of a settings block. A disk without it has no store.
const STORE_BYTE: u8 = b'B';

// Exchanges 0 and the first byte of a settings block.
pub(crate) fn exchanged_byte(byte: u8) -> u8
    ensures { result ≡ exchanged_byte byte }
{
    if byte == 0 {
        STORE_BYTE
    } else if byte == STORE_BYTE {
        0
    } else {
        byte
    }
}

/// A disk that exchanges its first byte in each read and each write: through it, a store that is created on it shows
/// the first byte of a settings block, while the byte on the underlying disk is 0. So the underlying disk has no store
/// until that byte is written.
#[derive(Drop)]
pub(crate) struct Hidden<D> {
    pub(crate) disk: D,
}

impl<D: Disk> Disk for Hidden<D> {
    ghost view = { λ d. exchanged_view (D.view d.disk) };

    ghost failed = { λ d. D.failed d.disk };

    ghost lawful = { λ d honest.
        let long : (c : Bytes) → length (exchanged c) ≡ length c =
        elim [ [] ↦ refl | b ∷ rest ↦ refl ] in
        let law = D.lawful d.disk honest in
        record {
          whole = long (D.view d.disk).seen ∙ law.whole;
          may_stay = ((D.view d.disk).seen, law.may_stay, refl);
          counts_now = λ t c le left. (left.0, law.counts_now t left.0 le left.1, left.2);
          only_now = λ c left. (left.0, law.only_now left.0 left.1, left.2);
        } };

    fn len(&self) -> u64 {
        self.disk.len()
    }

    fn failures(&self) -> u64 {
        self.disk.failures()
    }

    fn read_at(&mut self, at: u64, buf: &mut [u8]) -> Result<(), DiskFault> {
        self.disk.read_at(at, buf)?;
        if at == 0 && !buf.is_empty() {
            buf[0] = exchanged_byte(buf[0]);
        }
        Ok(())
    }

    fn write_at(&mut self, at: u64, bytes: &[u8]) -> Result<(), DiskFault> {
        if at > 0 || bytes.is_empty() {
            return self.disk.write_at(at, bytes);
        }
        self.disk.write_at(0, &[exchanged_byte(bytes[0])])?;
        self.disk.write_at(1, &bytes[1..])
    }

    fn sync(&mut self) -> Result<(), DiskFault> {
        self.disk.sync()
    }
}

// The first byte of a disk.
fn first_byte<D: Disk>(disk: &mut D) -> Result<u8, DiskFault>
    requires { 1 ≤ (D.view disk.old).size }
    ensures kept { Kept (D.view disk.old) (D.view disk.new) }
    ensures failed { CountsFailure result (D.failed disk.old) (D.failed disk.new) }
    ensures byte { IsTrue (D.view disk.old).is_honest →
        IfOk result (λ byte. byte ≡ slice_index (D.view disk.old).seen 0) }
    ensures same { OnlyRead (D.view disk.old) (D.view disk.new) }
{
    let mut first = [0];
    disk.read_at(0, &mut first)?;
    Ok(first[0])
}

// Sets the first byte of a disk to 0. A torn write of a byte that is neither 0 nor that of a store could leave the byte
// of a store, so the second byte is set to 0 first.
fn clear_first<D: Disk>(disk: &mut D, first: u8) -> Result<(), DiskFault>
    requires room { 2 ≤ (D.view disk.old).size }
    requires first { IsTrue (D.view disk.old).is_honest →
        first ≡ slice_index (D.view disk.old).seen 0 }
    ensures kept { Kept (D.view disk.old) (D.view disk.new) }
    ensures failed { CountsFailure result (D.failed disk.old) (D.failed disk.new) }
    ensures cleared { IsTrue (D.view disk.old).is_honest → OnOk result (
        IsCleared (D.view disk.old).seen (D.view disk.new).seen) }
    ensures is_synced { IsSynced (D.view disk.old) → OnOk result (IsSynced (D.view disk.new)) }
    ensures crash { IsSynced (D.view disk.old) →
        LeavesOnly (D.view disk.old) (D.view disk.new) (IsLeftHiding (D.view disk.old).seen) }
{
    if first == 0 {
        return Ok(());
    }
    if first == STORE_BYTE {
        return write_through(disk, 0, &[0]);
    }
    write_through(disk, 1, &[0])?;
    write_through(disk, 0, &[0])
}

/// Writes the bytes of a new store to a disk, with 0 in place of the first byte, and syncs. If there is a store on the
/// disk, its first byte is set to 0 first. A crash leaves the old bytes of the disk, or no store.
pub(crate) fn write_hidden<D: Disk>(disk: &mut D, bytes: &[u8]) -> Result<(), DiskFault>
    requires some { 2 ≤ length bytes.now }
    requires first { slice_index bytes.now 0 ≡ store_byte }
    requires room { length bytes.now ≤ (D.view disk.old).size }
    ensures kept { Kept (D.view disk.old) (D.view disk.new) }
    ensures failed { CountsFailure result (D.failed disk.old) (D.failed disk.new) }
    ensures written { IsTrue (D.view disk.old).is_honest → OnOk result
        (exchanged (D.view disk.new).seen ≡ overlay (D.view disk.old).seen 0 bytes.now) }
    ensures is_synced { IsTrue (D.view disk.old).is_honest →
        OnOk result (IsSynced (D.view disk.new)) }
    ensures crash { IsSynced (D.view disk.old) →
        LeavesOnly (D.view disk.old) (D.view disk.new) (IsLeftHiding (D.view disk.old).seen) }
{
    let first = first_byte(disk)?;
    clear_first(disk, first)?;
    write_through(disk, 1, &bytes[1..])
}

/// Sets the first byte of a disk to that of a store, and syncs. A crash leaves no store, or all of it.
pub(crate) fn reveal<D: Disk>(disk: &mut D) -> Result<(), DiskFault>
    requires { 1 ≤ (D.view disk.old).size }
    ensures kept { Kept (D.view disk.old) (D.view disk.new) }
    ensures failed { CountsFailure result (D.failed disk.old) (D.failed disk.new) }
    ensures written { IsTrue (D.view disk.old).is_honest →
        OnOk result ((D.view disk.new).seen ≡ revealed (D.view disk.old).seen) }
    ensures is_synced { IsTrue (D.view disk.old).is_honest →
        OnOk result (IsSynced (D.view disk.new)) }
    ensures crash { IsSynced (D.view disk.old) →
        LeavesOnly (D.view disk.old) (D.view disk.new) (IsLeftRevealing (D.view disk.old).seen) }
{
    write_through(disk, 0, &[STORE_BYTE])
}
