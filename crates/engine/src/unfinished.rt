//! Detects disks on which the creation of a store was interrupted.
ghost use Rattle.std.specs.Prelude.{◌≡◌, ◌+◌, ◌≤◌, ◌&&◌, IsTrue, not, length, take, drop, IfOk};
ghost use Rattle.flush_log.specs.Disk.{Kept, CountsFailure, OnlyRead};
ghost use Rattle.flush_log.specs.Slot.{slot_size};
ghost use Rattle.engine.specs.Hidden.{are_zeros, hides_block, is_later_slot, is_unfinished, was_complete};

use crate::hidden_disk::exchanged_byte;
use flush_log::{Disk, DiskFault, SLOT_SIZE, SLOTS_BEGIN, read_settings, slot_in};

// How many bytes the settings block has.
const BLOCK_SIZE: usize = 64;

// Where the second slot begins.
const SECOND_SLOT: u64 = SLOTS_BEGIN + SLOT_SIZE as u64;

// The greatest sequence number that a store has before its first byte is written: creation gives 1, and the flush of a
// copy's pairs 2.
const LAST_OF_CREATION: u64 = 2;

// How many bytes are read at a time.
const PIECE_SIZE: usize = 4_096;

// Whether the disk begins with a settings block whose first byte is 0.
fn hides_block<D: Disk>(disk: &mut D) -> Result<bool, DiskFault>
    ensures kept { Kept (D.view disk.old) (D.view disk.new) }
    ensures failed { CountsFailure result (D.failed disk.old) (D.failed disk.new) }
    ensures exact { IsTrue (D.view disk.old).is_honest →
        IfOk result (λ hides. hides ≡ hides_block (D.view disk.old).seen) }
    ensures same { OnlyRead (D.view disk.old) (D.view disk.new) }
{
    if disk.len() < BLOCK_SIZE as u64 {
        return Ok(false);
    }
    let mut block = [0; BLOCK_SIZE];
    disk.read_at(0, &mut block)?;
    block[0] = exchanged_byte(block[0]);
    Ok(read_settings(&block).is_some())
}

// Whether these are the bytes of an open slot that creation does not write.
fn is_later_slot(bytes: &[u8]) -> bool
    requires { length bytes.now ≡ slot_size }
    ensures { result ≡ is_later_slot bytes.now }
{
    bytes[0] == 1 && slot_in(bytes).ends.sequence > LAST_OF_CREATION
}

// Whether the disk has such a slot at this place.
fn has_later_slot<D: Disk>(disk: &mut D, at: u64) -> Result<bool, DiskFault>
    requires { at + slot_size ≤ (D.view disk.old).size }
    ensures kept { Kept (D.view disk.old) (D.view disk.new) }
    ensures failed { CountsFailure result (D.failed disk.old) (D.failed disk.new) }
    ensures exact { IsTrue (D.view disk.old).is_honest → IfOk result (λ has.
        has ≡ is_later_slot (take slot_size (drop at (D.view disk.old).seen))) }
    ensures same { OnlyRead (D.view disk.old) (D.view disk.new) }
{
    let mut slot = [0; SLOT_SIZE];
    disk.read_at(at, &mut slot)?;
    Ok(is_later_slot(&slot))
}

// Whether the disk has a slot that creation does not write, so that a store was complete there.
fn was_complete<D: Disk>(disk: &mut D) -> Result<bool, DiskFault>
    ensures kept { Kept (D.view disk.old) (D.view disk.new) }
    ensures failed { CountsFailure result (D.failed disk.old) (D.failed disk.new) }
    ensures exact { IsTrue (D.view disk.old).is_honest →
        IfOk result (λ complete. complete ≡ was_complete (D.view disk.old).seen) }
    ensures same { OnlyRead (D.view disk.old) (D.view disk.new) }
{
    if disk.len() < SECOND_SLOT + SLOT_SIZE as u64 {
        return Ok(false);
    }
    let first = has_later_slot(disk, SLOTS_BEGIN)?;
    let second = has_later_slot(disk, SECOND_SLOT)?;
    Ok(first | second)
}

// Whether the disk hides a store whose creation was not completed.
fn hides_new<D: Disk>(disk: &mut D) -> Result<bool, DiskFault>
    ensures kept { Kept (D.view disk.old) (D.view disk.new) }
    ensures failed { CountsFailure result (D.failed disk.old) (D.failed disk.new) }
    ensures exact { IsTrue (D.view disk.old).is_honest → IfOk result (λ hides.
        hides ≡ (hides_block (D.view disk.old).seen && not (was_complete (D.view disk.old).seen))) }
    ensures same { OnlyRead (D.view disk.old) (D.view disk.new) }
{
    if !hides_block(disk)? {
        return Ok(false);
    }
    let is_complete = was_complete(disk)?;
    Ok(!is_complete)
}

fn are_zeros(bytes: &[u8]) -> bool
    ensures { result ≡ are_zeros bytes.now }
{
    bytes.iter().all(|byte| *byte == 0)
}

// Whether the disk has only zeros from a place on, as many as the buffer has bytes.
fn reads_zeros<D: Disk>(disk: &mut D, at: u64, buf: &mut [u8]) -> Result<bool, DiskFault>
    requires { at + length buf.old ≤ (D.view disk.old).size }
    ensures kept { Kept (D.view disk.old) (D.view disk.new) }
    ensures failed { CountsFailure result (D.failed disk.old) (D.failed disk.new) }
    ensures exact { IsTrue (D.view disk.old).is_honest → IfOk result (λ zeros.
        zeros ≡ are_zeros (take (length buf.old) (drop at (D.view disk.old).seen))) }
    ensures same { OnlyRead (D.view disk.old) (D.view disk.new) }
{
    disk.read_at(at, buf)?;
    Ok(are_zeros(buf))
}

// Whether the disk has only zeros. Reads it up to the piece that has another byte.
fn has_only_zeros<D: Disk>(disk: &mut D) -> Result<bool, DiskFault>
    ensures kept { Kept (D.view disk.old) (D.view disk.new) }
    ensures failed { CountsFailure result (D.failed disk.old) (D.failed disk.new) }
    ensures exact { IsTrue (D.view disk.old).is_honest →
        IfOk result (λ zeros. zeros ≡ are_zeros (D.view disk.old).seen) }
    ensures same { OnlyRead (D.view disk.old) (D.view disk.new) }
{
    let len = disk.len();
    let mut piece = [0; PIECE_SIZE];
    let mut at = 0u64;
    'pieces: while at < len {
        let size = (len - at).min(PIECE_SIZE as u64);
        if !reads_zeros(disk, at, &mut piece[..size as usize])? {
            return Ok(false);
        }
        at += size;
    }
    Ok(true)
}

/// Returns whether the disk has what an interrupted attempt to create a store leaves: no bytes, only zeros, or a valid
/// settings block whose first byte is still 0, without an open slot that has a sequence number above 2. The attempts
/// are `Store::create`, `Store::copy_to` and `open_or_create`. Such a disk has no store. Creation gives sequence number
/// 1, and a copy 2; so a disk with a greater one had a complete store, whose first byte is damaged, or which an attempt
/// to create another store there has hidden.
///
/// Only reads: first 64 bytes, then the 64 bytes of each slot, and then, if these do not decide, 4,096 bytes at a time
/// up to the first piece that has a byte other than 0. So only a disk of zeros is read to its end. Fails with
/// `DiskFault` if a read fails.
pub fn is_unfinished<D: Disk>(disk: &mut D) -> Result<bool, DiskFault>
    ensures kept { Kept (D.view disk.old) (D.view disk.new) }
    ensures failed { CountsFailure result (D.failed disk.old) (D.failed disk.new) }
    // On an honest disk: for its readable contents.
    ensures exact { IsTrue (D.view disk.old).is_honest →
        IfOk result (λ unfinished. unfinished ≡ is_unfinished (D.view disk.old).seen) }
    // Neither the bytes changed, nor what a crash may leave.
    ensures same { OnlyRead (D.view disk.old) (D.view disk.new) }
{
    if hides_new(disk)? {
        return Ok(true);
    }
    has_only_zeros(disk)
}
