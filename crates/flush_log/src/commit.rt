//! The disk calls of a commit, which writes frames and makes a slot the store's. Their order ensures that a crash
//! leaves either the old store or the committed one.
ghost use Rattle.std.specs.Prelude.{◌≡◌, ◌⊎◌, ◌+◌, ◌≤◌, false, IsTrue, length, vec_capacity, None, IfOk, OnOk};
ghost use Rattle.keys.specs.Limits.{first_bad_field};
ghost use Rattle.flush_log.specs.Overlay.{overlay, AgreeAt};
ghost use Rattle.flush_log.specs.Disk.{IsSynced, Torn, Kept, Leaves, LeavesOnly, CountsFailure, OnlyRead};
ghost use Rattle.flush_log.specs.Images.{frames_in, FitSegments, ForText, HaveRoomAfter};
ghost use Rattle.flush_log.specs.Segments.{segments_begin, disk_size};
ghost use Rattle.flush_log.specs.Layout.{spans, with_spans};
ghost use Rattle.flush_log.specs.Slot.{slot_place, slot_bytes, is_open as is_open_on};
ghost use Rattle.flush_log.specs.Commit.{seen_after, AreWithin, close_gate, IsClosing, committed, LeavesGateClosed, IsBesideSpans, IsUncommitted};

use crate::disk::{Disk, DiskFault};
use crate::image::Image;
use crate::slot::{SLOT_SIZE, Slot, slot_bytes};
use crate::write::write_frames;
use keys::Settings;

/// The offset of the slots on a disk.
pub const SLOTS_BEGIN: u64 = 128;

/// Returns the offset on a disk of the slot for this sequence number.
pub fn slot_place(sequence: u64) -> u64
    ensures { result ≡ slot_place sequence }
{
    SLOTS_BEGIN + SLOT_SIZE as u64 * (sequence % 2)
}

/// Returns whether the gate (the first byte) of the slot for this sequence number is open.
pub fn is_gate_open<D: Disk>(disk: &mut D, sequence: u64) -> Result<bool, DiskFault>
    requires { segments_begin ≤ (D.view disk.old).size }
    ensures kept { Kept (D.view disk.old) (D.view disk.new) }
    ensures failed { CountsFailure result (D.failed disk.old) (D.failed disk.new) }
    ensures gate { IsTrue (D.view disk.old).is_honest →
        IfOk result (λ is_open. is_open ≡ is_open_on sequence (D.view disk.old).seen) }
    ensures same { OnlyRead (D.view disk.old) (D.view disk.new) }
{
    let mut gate = [0];
    disk.read_at(slot_place(sequence), &mut gate)?;
    Ok(gate[0] == 1)
}

/// Writes the bytes, then syncs.
pub fn write_through<D: Disk>(disk: &mut D, at: u64, bytes: &[u8]) -> Result<(), DiskFault>
    requires { at + length bytes.now ≤ (D.view disk.old).size }
    ensures kept { Kept (D.view disk.old) (D.view disk.new) }
    ensures failed { CountsFailure result (D.failed disk.old) (D.failed disk.new) }
    ensures written { IsTrue (D.view disk.old).is_honest →
        OnOk result ((D.view disk.new).seen ≡ overlay (D.view disk.old).seen at bytes.now) }
    ensures is_synced { IsTrue (D.view disk.old).is_honest →
        OnOk result (IsSynced (D.view disk.new)) }
    ensures crash { IsTrue (D.view disk.old).is_honest →
        Leaves (D.view disk.old) (D.view disk.new) (Torn at (length bytes.now)) }
{
    disk.write_at(at, bytes)?;
    disk.sync()
}

/// Closes the gate of the slot for this sequence number, if it is open. A closed gate is not written again, because a
/// crash during that write could leave it open in front of bytes that are no slot.
pub fn close_gate<D: Disk>(disk: &mut D, sequence: u64, is_open: bool) -> Result<(), DiskFault>
    requires { segments_begin ≤ (D.view disk.old).size }
    ensures kept { Kept (D.view disk.old) (D.view disk.new) }
    ensures failed { CountsFailure result (D.failed disk.old) (D.failed disk.new) }
    ensures written { IsTrue (D.view disk.old).is_honest →
        OnOk result ((D.view disk.new).seen
        ≡ seen_after (close_gate is_open (slot_place sequence)) (D.view disk.old).seen) }
    ensures crash { IsTrue (D.view disk.old).is_honest →
        Leaves (D.view disk.old) (D.view disk.new) (IsClosing is_open (slot_place sequence)) }
{
    if is_open {
        disk.write_at(slot_place(sequence), &[0])?;
    }
    Ok(())
}

/// Writes a slot while its gate is closed, and then opens the gate. A crash leaves either a closed slot or the whole
/// slot.
pub fn write_slot<D: Disk>(disk: &mut D, slot: &Slot) -> Result<(), DiskFault>
    requires { segments_begin ≤ (D.view disk.old).size }
    ensures kept { Kept (D.view disk.old) (D.view disk.new) }
    ensures failed { CountsFailure result (D.failed disk.old) (D.failed disk.new) }
    ensures written { IsTrue (D.view disk.old).is_honest → OnOk result ((D.view disk.new).seen
        ≡ overlay (D.view disk.old).seen (slot_place slot.now.sequence) (slot_bytes slot.now)) }
    ensures is_synced { IsTrue (D.view disk.old).is_honest →
        OnOk result (IsSynced (D.view disk.new)) }
    ensures crash { IsSynced (D.view disk.old) →
        is_open_on slot.now.sequence (D.view disk.old).seen ≡ false →
        LeavesOnly (D.view disk.old) (D.view disk.new)
        (λ c. LeavesGateClosed slot.now.sequence (D.view disk.old).seen c
        ⊎ (c ≡ overlay (D.view disk.old).seen
        (slot_place slot.now.sequence) (slot_bytes slot.now))) }
{
    let gate = slot_place(slot.ends.sequence);
    let bytes = slot_bytes(slot);
    write_through(disk, gate + 1, &bytes[1..])?;
    write_through(disk, gate, &bytes[..1])
}

// Writes the frames after the tail of a log, as `write_frames` does; without frames, writes nothing.
fn write_images<D: Disk>(
    disk: &mut D,
    settings: &Settings,
    tail: u64,
    images: &[Image],
    buffer: &mut Vec<u8>,
) -> Result<(), DiskFault>
    requires checked { first_bad_field settings.now ≡ None }
    requires within { disk_size settings.now ≤ (D.view disk.old).size }
    requires buffer { settings.now.seg_size ≤ vec_capacity buffer.old }
    requires fits { FitSegments settings.now (frames_in images.now) }
    requires room { HaveRoomAfter settings.now tail images.now }
    ensures kept { Kept (D.view disk.old) (D.view disk.new) }
    ensures failed { CountsFailure result (D.failed disk.old) (D.failed disk.new) }
    ensures written { ForText images.now (λ text.
        IsTrue (D.view disk.old).is_honest →
        OnOk result ((D.view disk.new).seen
        ≡ with_spans settings.now (D.view disk.old).seen (spans settings.now tail text))) }
    ensures crash { ForText images.now (λ text.
        IsTrue (D.view disk.old).is_honest →
        Leaves (D.view disk.old) (D.view disk.new)
        (AgreeAt (IsBesideSpans settings.now (spans settings.now tail text)))) }
{
    if images.is_empty() {
        return Ok(());
    }
    write_frames(disk, settings, tail, images, buffer)
}

// The first half of a commit: closes the gate, and writes and syncs the frames.
fn write_hidden<D: Disk>(
    disk: &mut D,
    settings: &Settings,
    tail: u64,
    images: &[Image],
    sequence: u64,
    is_open: bool,
    buffer: &mut Vec<u8>,
) -> Result<(), DiskFault>
    requires checked { first_bad_field settings.now ≡ None }
    requires within { disk_size settings.now ≤ (D.view disk.old).size }
    requires buffer { settings.now.seg_size ≤ vec_capacity buffer.old }
    requires fits { FitSegments settings.now (frames_in images.now) }
    requires room { HaveRoomAfter settings.now tail images.now }
    ensures kept { Kept (D.view disk.old) (D.view disk.new) }
    ensures failed { CountsFailure result (D.failed disk.old) (D.failed disk.new) }
    ensures written { ForText images.now (λ text.
        IsTrue (D.view disk.old).is_honest →
        OnOk result ((D.view disk.new).seen
        ≡ with_spans settings.now
        (seen_after (close_gate is_open (slot_place sequence)) (D.view disk.old).seen)
        (spans settings.now tail text))) }
    ensures is_synced { IsTrue (D.view disk.old).is_honest →
        OnOk result (IsSynced (D.view disk.new)) }
    ensures crash { ForText images.now (λ text.
        AreWithin settings.now (disk_size settings.now) (spans settings.now tail text) →
        IsSynced (D.view disk.old) → is_open ≡ is_open_on sequence (D.view disk.old).seen →
        LeavesOnly (D.view disk.old) (D.view disk.new) (IsUncommitted settings.now sequence
        (spans settings.now tail text) (D.view disk.old).seen)) }
{
    close_gate(disk, sequence, is_open)?;
    write_images(disk, settings, tail, images, buffer)?;
    disk.sync()
}

/// Writes frames after the tail of a log, and then makes a slot the store's: closes the slot's gate if it is open,
/// writes and syncs the frames, writes and syncs the slot's other bytes, and opens its gate. `is_open` is whether the
/// gate is open; `buffer` collects the bytes of a segment, and has capacity for them. After a failed call no further
/// call is made.
///
/// Flushes, upgrades and cleans use this function. A clean may have no frames: then only the slot is written.
///
/// If the disk was synced, a crash at any moment since the beginning of the call leaves either the old state or the
/// committed one. Frames for which there is room lie within the disk.
pub fn write_flush<D: Disk>(
    disk: &mut D,
    settings: &Settings,
    tail: u64,
    images: &[Image],
    slot: &Slot,
    is_open: bool,
    buffer: &mut Vec<u8>,
) -> Result<(), DiskFault>
    requires checked { first_bad_field settings.now ≡ None }
    requires within { disk_size settings.now ≤ (D.view disk.old).size }
    requires buffer { settings.now.seg_size ≤ vec_capacity buffer.old }
    requires fits { FitSegments settings.now (frames_in images.now) }
    requires room { HaveRoomAfter settings.now tail images.now }
    ensures kept { Kept (D.view disk.old) (D.view disk.new) }
    ensures failed { CountsFailure result (D.failed disk.old) (D.failed disk.new) }
    ensures written { ForText images.now (λ text.
        AreWithin settings.now (disk_size settings.now) (spans settings.now tail text) →
        IsTrue (D.view disk.old).is_honest →
        OnOk result ((D.view disk.new).seen
        ≡ committed settings.now (D.view disk.old).seen (spans settings.now tail text) slot.now)) }
    ensures is_synced { IsTrue (D.view disk.old).is_honest →
        OnOk result (IsSynced (D.view disk.new)) }
    ensures crash { ForText images.now (λ text.
        AreWithin settings.now (disk_size settings.now) (spans settings.now tail text) →
        IsSynced (D.view disk.old) →
        is_open ≡ is_open_on slot.now.sequence (D.view disk.old).seen →
        LeavesOnly (D.view disk.old) (D.view disk.new)
        (λ c. IsUncommitted settings.now slot.now.sequence
        (spans settings.now tail text) (D.view disk.old).seen c
        ⊎ (c ≡ committed settings.now (D.view disk.old).seen
        (spans settings.now tail text) slot.now))) }
{
    write_hidden(
        disk,
        settings,
        tail,
        images,
        slot.ends.sequence,
        is_open,
        buffer,
    )?;
    write_slot(disk, slot)
}
