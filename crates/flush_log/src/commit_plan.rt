//! A commit as one value: first planned, then written.
ghost use Rattle.std.specs.Prelude.{◌≡◌, ◌⊎◌, ◌*◌, ◌<◌, ◌≤◌, List, None, Err, IsTrue, OnOk, MatchResult};
ghost use Rattle.keys.specs.Limits.{first_bad_field};
ghost use Rattle.keys.specs.declared.fault.Fault.TheVariants.{NoMemory};
ghost use Rattle.frame_codec.specs.Frame.{Frame};
ghost use Rattle.flush_log.specs.CommitPlan.{AreImages, next_tail, IsPlanned, file_with, LeftOf};
ghost use Rattle.flush_log.specs.Disk.{IsSynced, Kept, LeavesOnly, CountsFailure};
ghost use Rattle.flush_log.specs.Segments.{disk_size};
ghost use Rattle.flush_log.specs.Slot as slots;
ghost use Rattle.flush_log.specs.Slot.{greatest, format_of};

use crate::commit::{is_gate_open, write_flush};
use crate::disk::{Disk, DiskFault};
use crate::image::Image;
use crate::layout::tail_of_commit;
use crate::slot::{LogEnds, Slot};
use keys::{Fault, Settings};
use std::alloc::Global;
use std::marker::Model;

/// A planned commit: the page frames to write, the tail after which they are written, the slot that commits them, and a
/// buffer with room for the bytes of a segment. Flushes, upgrades and cleans make one.
#[derive(Drop)]
pub struct Commit {
    images: Vec<Image>,
    tail: u64,
    slot: Slot,
    buffer: Vec<u8>,
}

impl Model for Commit {
    ghost use Rattle.std.specs.Prelude.{vec_capacity};
    ghost use Rattle.flush_log.specs.CommitPlan.{CommitPlan};

    ghost Value = { CommitPlan };

    ghost view = { λ m. record {
      images = m.images.items;
      tail = m.tail;
      slot = m.slot;
      room = vec_capacity m.buffer;
    } };
}

impl Commit {
    /// Plans the commit that adds frames to a log. `slot` describes that log (where it begins and ends, its number of
    /// commits), and has the root, the height and the version for the new slot. A clean passes the log without its
    /// first segment, which the commit frees; an upgrade passes the second version. Calls no disk.
    ///
    /// Fails with `Fault::NoMemory` if an allocation fails; else with `Fault::Spent` if a position or the sequence
    /// number would exceed 2^62; else with `Fault::Full` if no segment would be free.
    pub fn plan(
        alloc: Global,
        settings: &Settings,
        slot: &Slot,
        images: Vec<Image>,
    ) -> Result<Commit, Fault>
        requires checked { first_bad_field settings.now ≡ None }
        requires numbers { (slot.now.sequence ≤ greatest) × (slot.now.tail ≤ greatest) }
        requires log { slot.now.head * settings.now.seg_size < slot.now.tail }
        requires text { (text : List Frame) ×
            AreImages (format_of settings.now slot.now) text images.items }
        ensures { (text : List Frame) →
            AreImages (format_of settings.now slot.now) text images.items →
            MatchResult result
            (λ commit. IsPlanned settings.now slot.now text commit)
            (λ fault. (fault ≡ NoMemory) ⊎ (next_tail settings.now slot.now text ≡ Err fault)) }
    {
        let buffer = Vec::with_capacity(alloc, settings.seg_size as usize)?;
        let log = slot.ends;
        let sequence = log.sequence + 1;
        let tail = tail_of_commit(settings, sequence, log.head, log.tail, &images)?;
        let ends = LogEnds {
            sequence,
            head: log.head,
            tail,
        };
        Ok(Commit {
            images,
            tail: log.tail,
            slot: Slot {
                ends,
                root: slot.root,
                height: slot.height,
                version: slot.version,
            },
            buffer,
        })
    }

    /// Returns the slot that the commit makes the store's.
    pub fn slot(&self) -> Slot
        ensures { result ≡ self.now.slot }
    {
        self.slot
    }

    /// Writes the commit to the disk of a store with these settings: reads the gate of the slot, and calls
    /// `write_flush`.
    pub fn write<D: Disk>(self, disk: &mut D, settings: &Settings) -> Result<(), DiskFault>
        requires checked { first_bad_field settings.now ≡ None }
        requires within { disk_size settings.now ≤ (D.view disk.old).size }
        requires planned { (t : slots.Slot) × (text : List Frame) ×
            IsPlanned settings.now t text self }
        ensures kept { Kept (D.view disk.old) (D.view disk.new) }
        ensures failed { CountsFailure result (D.failed disk.old) (D.failed disk.new) }
        ensures written { (t : slots.Slot) (text : List Frame) →
            IsPlanned settings.now t text self → IsTrue (D.view disk.old).is_honest →
            OnOk result ((D.view disk.new).seen
            ≡ file_with settings.now t text (D.view disk.old).seen) }
        ensures is_synced { IsTrue (D.view disk.old).is_honest →
            OnOk result (IsSynced (D.view disk.new)) }
        ensures crash { (t : slots.Slot) (text : List Frame) → IsPlanned settings.now t text self →
            IsSynced (D.view disk.old) →
            LeavesOnly (D.view disk.old) (D.view disk.new)
            (LeftOf settings.now t text (D.view disk.old).seen) }
    {
        let Commit {
            images,
            tail,
            slot,
            buffer,
        } = self;
        let mut buffer = buffer;
        let is_open = is_gate_open(disk, slot.ends.sequence)?;
        write_flush(disk, settings, tail, &images, &slot, is_open, &mut buffer)
    }
}
