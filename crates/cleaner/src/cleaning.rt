//! Cleans a log: copies the live frames of its first segment to its end. A crash leaves the old store or the new one.
ghost use Rattle.std.specs.Prelude.{◌≡◌, ◌≢◌, ◌⊎◌, ◌≤◌, ◌<◌, ◌+◌, ◌-◌, suc, min, None, Some, Ok, IsTrue, IfOk, IfErr, OnOk, MatchResult};
ghost use Rattle.keys.specs.Bytes.{Bytes};
ghost use Rattle.keys.specs.Limits.{first_bad_field};
ghost use Rattle.mapping.specs.Tree.{Store};
ghost use Rattle.flush_log.specs.AfterFlush.{store_after};
ghost use Rattle.flush_log.specs.Disk.{IsSynced, Kept, Same, LeavesOnly, CountsNoOther};
ghost use Rattle.flush_log.specs.Ends.{ends_of, ends_in, AreEnds};
ghost use Rattle.flush_log.specs.Overlay.{AgreeAt};
ghost use Rattle.flush_log.specs.Segments.{segments_begin, disk_size, last_segment};
ghost use Rattle.flush_log.specs.Slot.{greatest};
ghost use Rattle.recovery.specs.InStep.{IsInStep};
ghost use Rattle.recovery.specs.Recovered.{IsReadOf, IsLate, OnlyReads};
ghost use Rattle.recovery.specs.StoreOfDisk.{store_of_disk};
ghost use Rattle.cleaner.specs.AfterClean.{slot_on_disk, after_clean};
ghost use Rattle.cleaner.specs.Cleaned.{WouldClean, IsCleanFault, IsRefused, cleaned_slot, IsClean};
ghost use Rattle.cleaner.specs.Live.{live_in};
ghost use Rattle.cleaner.specs.PagesRead.{HasTexts, IsReadingOf};

use crate::choose::choose;
use crate::reading::Reading;
use crew::Crew;
use flush_log::{Commit, Disk, LogEnds, SLOT_SIZE, Slot, last_segment, slot_in, slot_place};
use frame_codec::Format;
use keys::{Fault, Version};
use recovery::{Wanted, read, read_log};
use std::alloc::Global;
use std::thread::Threads;

// Reads and decodes the slot for this sequence number.
fn read_slot_on_disk<D: Disk>(disk: &mut D, sequence: u64) -> Result<Slot, Fault>
    requires { segments_begin ≤ (D.view disk.old).size }
    ensures read { (file : Bytes) → IsReadOf (D.view disk.old) file →
        (now : Bytes) × IsReadOf (D.view disk.new) now
        × AgreeAt (λ place. segments_begin ≤ place) file now
        × IfOk result (λ t. t ≡ slot_on_disk sequence now) }
    ensures err { IfErr result (IsLate (D.failed disk.old) (D.failed disk.new)) }
    ensures only_reads { OnlyReads D.view D.failed disk.old disk.new result }
{
    let mut bytes = [0; SLOT_SIZE];
    read(disk, slot_place(sequence), &mut bytes)?;
    Ok(slot_in(&bytes))
}

// The slot to which a clean adds its frames: the log without its first segment, in this version, with the root and the
// height in the slot on the disk.
fn cleaned_slot(version: Version, ends: &LogEnds, on_disk: &Slot) -> Slot
    requires { ends.now.head ≤ greatest }
    ensures { result ≡ cleaned_slot version ends.now on_disk.now }
{
    Slot {
        ends: LogEnds {
            sequence: ends.sequence,
            head: ends.head + 1,
            tail: ends.tail,
        },
        root: on_disk.root,
        height: on_disk.height,
        version,
    }
}

// Plans the clean of a log's first segment from what was read of it. Reads the slot on the disk, and writes nothing.
fn plan<D: Disk>(
    alloc: Global,
    disk: &mut D,
    format: &Format,
    ends: &LogEnds,
    reading: &mut Reading,
) -> Result<Commit, Fault>
    requires checked { first_bad_field format.now.settings ≡ None }
    requires within { disk_size format.now.settings ≤ (D.view disk.old).size }
    requires ends { AreEnds format.now.settings ends.now }
    requires has { ends.now.head < reading.old.limit }
    requires reading { IsReadingOf (D.view disk.old) format.now ends.now reading.old }
    ensures read { (file : Bytes) × IsReadOf (D.view disk.old) file
        × MatchResult result
        (λ m. (p : IsClean format.now ends.now file m)
        × HasTexts format.now (suc ends.now.head) p.0 reading.new)
        (λ fault. IsRefused format.now ends.now file fault
        ⊎ IsLate (D.failed disk.old) (D.failed disk.new) fault) }
    ensures limit { reading.new.limit ≡ reading.old.limit }
    ensures live { reading.new.live ≡ reading.old.live }
    ensures only_reads { OnlyReads D.view D.failed disk.old disk.new result }
{
    let on_disk = read_slot_on_disk(disk, ends.sequence)?;
    let pages = reading.take(ends.head);
    let images = choose(alloc, format, pages)?;
    let base = cleaned_slot(format.version, ends, &on_disk);
    Commit::plan(alloc, &format.settings, &base, images)
}

/// Reads a log for the cleans of its first `count` segments, which `clean_by` then does one after the other. If there
/// are fewer segments before the last one, the reading is for these. `format` and `ends` are those of the store's log.
/// The crew shares the work of skimming the log; the result does not depend on the crew. The reading contains the
/// frames of the pages that live in these segments. While the log is read, a few segments and some bytes for each page
/// are also in memory.
///
/// Fails with `Fault::NothingToClean` if the log is in one segment, before any allocation or disk call; with
/// `Fault::BadSegment` or `Fault::BadFrame`, whichever is at the least position of the log; with `Fault::BadStructure`
/// if the frames of a page do not fit together; with `Fault::NoMemory`; and with `Fault::Device` if a read failed.
/// Never writes to the disk.
pub fn read_for_cleans<D: Disk>(
    rt: &(impl Threads + Sync),
    crew: Crew,
    alloc: Global,
    disk: &mut D,
    format: &Format,
    ends: &LogEnds,
    count: u64,
) -> Result<Reading, Fault>
    requires checked { first_bad_field format.now.settings ≡ None }
    requires within { disk_size format.now.settings ≤ (D.view disk.old).size }
    requires ends { AreEnds format.now.settings ends.now }
    ensures reading { IfOk result (IsReadingOf (D.view disk.new) format.now ends.now) }
    ensures limit { IfOk result (λ reading. (reading.limit
        ≡ ends.now.head + min count (last_segment format.now.settings ends.now.tail - ends.now.head))
        × (ends.now.head < last_segment format.now.settings ends.now.tail)) }
    // The live bytes, for the bytes that were read. If it fails with a fault other than `NothingToClean`, `NoMemory`
    // and `Device`, there are none.
    ensures live { (file : Bytes) × IsReadOf (D.view disk.old) file
        × MatchResult result
        (λ reading. live_in format.now ends.now file ≡ Some reading.live)
        (λ fault. (fault ≡ Fault.NothingToClean)
        ⊎ IsLate (D.failed disk.old) (D.failed disk.new) fault
        ⊎ (live_in format.now ends.now file ≡ None)) }
    // Why it fails, as a clean fails: for the bytes that were read, which on an honest disk are its contents.
    ensures err { (file : Bytes) × IsReadOf (D.view disk.old) file ×
        ((st : Store) → ends_of st ≡ ends.now → st.version ≡ format.now.version →
        IfErr result (IsCleanFault format.now.settings st file (D.failed disk.old) (D.failed disk.new))) }
    ensures only_reads { OnlyReads D.view D.failed disk.old disk.new result }
{
    let last = last_segment(&format.settings, ends.tail);
    if ends.head == last {
        return Err(Fault::NothingToClean);
    }
    let limit = ends.head + count.min(last - ends.head);
    let pages = read_log(rt, crew, alloc, disk, format, ends, Wanted::Before(limit))?;
    Reading::new(pages, limit)
}

/// Cleans the log's first segment with a reading of the log. Has the effect of `clean`, but reads only the slot of the
/// disk. After `Ok` the reading is one of the cleaned log, whose ends are in the returned slot, so it can be used for
/// the next clean if it has the next segment (`Reading::has`). Nothing else may be written to the log before that
/// clean: after a flush, a reading is no longer valid.
///
/// Fails with `Fault::NoMemory`, `Fault::Spent`, `Fault::Full` and `Fault::Device`, as `clean` does. After an `Err` the
/// reading is incomplete: drop it.
pub fn clean_by<D: Disk>(
    alloc: Global,
    disk: &mut D,
    format: &Format,
    ends: &LogEnds,
    reading: &mut Reading,
) -> Result<Slot, Fault>
    requires checked { first_bad_field format.now.settings ≡ None }
    requires within { disk_size format.now.settings ≤ (D.view disk.old).size }
    requires ends { AreEnds format.now.settings ends.now }
    requires has { ends.now.head < reading.old.limit }
    requires reading { IsReadingOf (D.view disk.old) format.now ends.now reading.old }
    // For the bytes that were read, which on an honest disk are its contents.
    ensures read { (file : Bytes) × IsReadOf (D.view disk.old) file ×
        ((st : Store) → ends_of st ≡ ends.now → st.version ≡ format.now.version →
        MatchResult result
        (λ now. (bytes : Bytes) ×
        (after_clean format.now.settings st file ≡ Ok (store_after st.tree now, bytes)))
        (IsCleanFault format.now.settings st file (D.failed disk.old) (D.failed disk.new))) }
    ensures written { IsTrue (D.view disk.old).is_honest → (st : Store) → ends_of st ≡ ends.now →
        st.version ≡ format.now.version →
        IfOk result (λ now. after_clean format.now.settings st (D.view disk.old).seen
        ≡ Ok (store_after st.tree now, (D.view disk.new).seen)) }
    ensures is_synced { IsTrue (D.view disk.old).is_honest →
        OnOk result (IsSynced (D.view disk.new)) }
    // On a synced disk that encodes a store with which this one is in step, a crash leaves that store, or everything
    // that the clean writes.
    ensures crash { IsSynced (D.view disk.old) → (st : Store) → ends_of st ≡ ends.now →
        st.version ≡ format.now.version → IsInStep format.now.settings st (D.view disk.old).seen →
        LeavesOnly (D.view disk.old) (D.view disk.new)
        (λ c. (store_of_disk c ≡ store_of_disk (D.view disk.old).seen)
        ⊎ ((now : Store) ×
        (after_clean format.now.settings st (D.view disk.old).seen ≡ Ok (now, c)))) }
    // After an `Err` nothing was written, unless a disk call failed while the clean was being written.
    ensures unwritten { IsTrue (D.view disk.old).is_honest → (st : Store) → ends_of st ≡ ends.now →
        st.version ≡ format.now.version →
        IfErr result (λ fault. Same (D.view disk.old) (D.view disk.new)
        ⊎ ((fault ≡ Fault.Device) × WouldClean format.now.settings st (D.view disk.old).seen)) }
    ensures kept { Kept (D.view disk.old) (D.view disk.new) }
    ensures counted { OnOk result (D.failed disk.new ≡ D.failed disk.old) }
    ensures uncounted { CountsNoOther result (D.failed disk.old) (D.failed disk.new) }
    // The reading can be used for the next clean.
    ensures reading { IfOk result (λ now.
        IsReadingOf (D.view disk.new) format.now (ends_in now) reading.new) }
    ensures limit { reading.new.limit ≡ reading.old.limit }
    ensures live { reading.new.live ≡ reading.old.live }
{
    let commit = plan(alloc, disk, format, ends, reading)?;
    let next = commit.slot();
    commit.write(disk, &format.settings)?;
    Ok(next)
}

/// Cleans a log: copies the frames of the pages that live in its first segment to its end, and thereby frees that
/// segment. Returns the slot of the commit: the head is one greater, the version is the same, and the root and the
/// height are those in the present slot on the disk. `format` and `ends` are those of the store's log.
///
/// Frames are copied unchanged, so a log of the second version may still contain whole keys after a clean, from before
/// its upgrade. The clean changes the log alone: whatever a tree in memory has that the log lacks, the log still lacks.
/// The crew shares the work of skimming the log; the result and the written bytes do not depend on the crew.
///
/// Fails with `Fault::NothingToClean` if the log is in one segment, before any allocation or disk call. Otherwise reads
/// the log, and fails with the first of these faults that applies: `Fault::BadSegment` or `Fault::BadFrame`, whichever
/// is at the least position of the log; `Fault::BadStructure` if the frames of a page do not fit together;
/// `Fault::Spent` if a position or the sequence number would exceed 2^62; `Fault::Full` if the frames need more
/// segments than there are. It may also fail with `Fault::NoMemory`, or with `Fault::Device` if a disk call fails.
/// After a fault nothing was written, unless it is `Fault::Device` from a write or a sync: then the disk has the old
/// store or the new one.
pub fn clean<D: Disk>(
    rt: &(impl Threads + Sync),
    crew: Crew,
    alloc: Global,
    disk: &mut D,
    format: &Format,
    ends: &LogEnds,
) -> Result<Slot, Fault>
    requires checked { first_bad_field format.now.settings ≡ None }
    requires within { disk_size format.now.settings ≤ (D.view disk.old).size }
    requires ends { AreEnds format.now.settings ends.now }
    // For the bytes that were read, which on an honest disk are its contents.
    ensures read { (file : Bytes) × IsReadOf (D.view disk.old) file ×
        ((st : Store) → ends_of st ≡ ends.now → st.version ≡ format.now.version →
        MatchResult result
        (λ now. (bytes : Bytes) ×
        (after_clean format.now.settings st file ≡ Ok (store_after st.tree now, bytes)))
        (IsCleanFault format.now.settings st file (D.failed disk.old) (D.failed disk.new))) }
    ensures written { IsTrue (D.view disk.old).is_honest → (st : Store) → ends_of st ≡ ends.now →
        st.version ≡ format.now.version →
        IfOk result (λ now. after_clean format.now.settings st (D.view disk.old).seen
        ≡ Ok (store_after st.tree now, (D.view disk.new).seen)) }
    ensures is_synced { IsTrue (D.view disk.old).is_honest →
        OnOk result (IsSynced (D.view disk.new)) }
    // On a synced disk that encodes a store with which this one is in step, a crash leaves that store, or everything
    // that the clean writes.
    ensures crash { IsSynced (D.view disk.old) → (st : Store) → ends_of st ≡ ends.now →
        st.version ≡ format.now.version → IsInStep format.now.settings st (D.view disk.old).seen →
        LeavesOnly (D.view disk.old) (D.view disk.new)
        (λ c. (store_of_disk c ≡ store_of_disk (D.view disk.old).seen)
        ⊎ ((now : Store) ×
        (after_clean format.now.settings st (D.view disk.old).seen ≡ Ok (now, c)))) }
    // After an `Err` nothing was written, unless a disk call failed while the clean was being written.
    ensures unwritten { IsTrue (D.view disk.old).is_honest → (st : Store) → ends_of st ≡ ends.now →
        st.version ≡ format.now.version →
        IfErr result (λ fault. Same (D.view disk.old) (D.view disk.new)
        ⊎ ((fault ≡ Fault.Device) × WouldClean format.now.settings st (D.view disk.old).seen)) }
    ensures kept { Kept (D.view disk.old) (D.view disk.new) }
    ensures counted { OnOk result (D.failed disk.new ≡ D.failed disk.old) }
    ensures uncounted { CountsNoOther result (D.failed disk.old) (D.failed disk.new) }
{
    let mut reading = read_for_cleans(rt, crew, alloc, disk, format, ends, 1)?;
    clean_by(alloc, disk, format, ends, &mut reading)
}
