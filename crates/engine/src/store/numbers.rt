//! Numbers for operating a store: how full its log is, whether a flush is due and what it would add, and how many pairs
//! there are.
ghost use Rattle.std.specs.Prelude.{◌≡◌, ◌≢◌, ◌⊎◌, ◌↔◌, ◌+◌, ◌^◌, ◌-◌, ◌<◌, ◌≤◌, [], length, min, None, Ok, IsTrue, IfOk, IfErr, true, false};
ghost use Rattle.keys.specs.Limits.{first_bad_field};
ghost use Rattle.keys.specs.declared.fault.Fault.TheVariants.{NoMemory};
ghost use Rattle.mapping.specs.Levels.{contents};
ghost use Rattle.flush_log.specs.Ends.{AreEnds};
ghost use Rattle.flush_log.specs.FlushText.{flush_frames};
ghost use Rattle.flush_log.specs.Segments.{last_segment};
ghost use Rattle.engine.specs.Bounds.{pairs_within};
ghost use Rattle.engine.specs.Pending.{FlushAdds, IsFlushRefused};
ghost use Rattle.engine.specs.Refusal.{IsAdmitted, is_crew};
ghost use Rattle.verify.specs.Report.{report};

use crate::refusal::admit_crew;
use crate::store::Store;
use crate::store::flush::plan;
use crate::store::tidy::count_pages;
use crew::Crew;
use flush_log::{CommitKind, Disk, LogEnds, is_all_written, last_segment};
use keys::{Fault, Settings};
use scan::Range;
use std::ops::RangeBounds;
use std::thread::Threads;
use verify::Report;

// Takes the remaining pairs, and returns how many there were, or 2^128 - 1 if there were more.
fn count(pairs: &mut Range<'_>) -> u128
    ensures { result ≡ min (length pairs.old) (2 ^ 128 - 1) }
{
    let mut count = 0u128;
    while let Some(_pair) = pairs.next() {
        count = count.saturating_add(1);
    }
    count
}

// How many segments of a log with these ends are in use.
fn in_use(settings: &Settings, log: LogEnds) -> u64
    requires checked { first_bad_field settings.now ≡ None }
    requires ends { AreEnds settings.now log }
    ensures exact { log.head + result ≡ last_segment settings.now log.tail + 1 }
    ensures least { 1 ≤ result }
    ensures most { result ≤ settings.now.segments }
{
    last_segment(settings, log.tail) - log.head + 1
}

impl<D: Disk> Store<D> {
    /// Returns whether a call of the disk has failed in a flush, an upgrade, a clean or the `reopen` of a handle. Then
    /// every batch, flush, upgrade and clean fails with `Fault::Failed`, and so does `pending_bytes`; reads still work,
    /// and `reopen` returns the store of the last flush that succeeded, or of the one that failed.
    pub fn has_failed(&self) -> bool
        ensures { result ≡ self.now.has_failed }
    {
        self.has_failed
    }

    /// Returns the sequence number: the number of commits, including the creation of the store. Each flush that writes,
    /// each clean and each upgrade increments it; beyond 2^62 they fail with `Fault::Spent`.
    pub fn sequence(&self) -> u64
        ensures { result ≡ self.now.store.sequence }
    {
        self.log.sequence
    }

    /// Returns the number of the log's first segment. Segment numbers only grow, and each clean increments this one.
    pub fn head(&self) -> u64
        ensures { result ≡ self.now.store.head }
    {
        self.log.head
    }

    /// Returns the position at which the log ends, in bytes: byte `offset` of segment n has the position `n * seg_size
    /// + offset`. It only grows: by the bytes that a flush, an upgrade or a clean writes, and by the end of a segment
    /// that stays unused.
    pub fn tail(&self) -> u64
        ensures { result ≡ self.now.store.tail }
    {
        self.log.tail
    }

    /// Returns the number of segments that the log may have, as in the settings. A flush leaves one of them free, which
    /// a clean may use.
    pub fn segments(&self) -> u64
        ensures { result ≡ self.now.settings.segments }
    {
        u64::from(self.settings.segments)
    }

    /// Returns the number of segments in use, from the first one to the one in which the log ends. If all but one are
    /// in use, the next flush that needs another segment fails with `Fault::Full`. A clean may help, if at least two
    /// are in use.
    pub fn segments_in_use(&self) -> u64
        ensures exact { self.now.store.head + result
            ≡ last_segment self.now.settings self.now.store.tail + 1 }
        ensures least { 1 ≤ result }
        ensures most { result ≤ self.now.settings.segments }
    {
        in_use(&self.settings, self.log)
    }

    /// Returns whether a flush would write anything, that is, whether the log lacks a part of the store. Does not
    /// allocate. Examines the pages that were checked out since the last flush; after a recovery, or if the list of
    /// these pages could not be allocated, the number of runs of every page.
    pub fn is_flush_due(&self) -> bool
        ensures { IsTrue result ↔ (flush_frames self.now.store.version self.now.store.tree ≢ []) }
    {
        !is_all_written(&self.tree)
    }

    /// Returns how many bytes a flush would add to the log: the frames that the log lacks, and if they do not fit into
    /// the last segment, the unused end of that segment and the headers of new segments. Returns 0 if the log lacks
    /// nothing. Encodes the frames as the flush would, and needs memory for them and for one segment. Calls no disk and
    /// changes nothing.
    ///
    /// Fails with `Fault::Failed` if the store has failed, then with `Fault::BadCrew` if the crew is out of range.
    /// Otherwise it may fail with `Fault::NoMemory`, or with the `Fault::Spent` or `Fault::Full` of that flush.
    pub fn pending_bytes(&self, rt: &(impl Threads + Sync), crew: Crew) -> Result<u64, Fault>
        ensures bytes { IfOk result (λ n. FlushAdds self.now.settings self.now.store n) }
        ensures nothing { self.now.has_failed ≡ false → IsTrue (is_crew crew) →
            flush_frames self.now.store.version self.now.store.tree ≡ [] → result ≡ Ok 0 }

        // Which fault.
        ensures admitted { IsAdmitted (is_crew crew) self.now result self.now }
        ensures refused { self.now.has_failed ≡ false → IsTrue (is_crew crew) →
            IfErr result
            (λ fault. (fault ≡ NoMemory) ⊎ IsFlushRefused self.now.settings self.now.store fault) }
    {
        if self.has_failed {
            return Err(Fault::Failed);
        }
        admit_crew(crew)?;
        if is_all_written(&self.tree) {
            return Ok(0);
        }
        let commit = plan(
            rt,
            crew,
            self.alloc,
            &self.settings,
            &self.tree,
            self.log,
            CommitKind::Flush(self.version),
        )?;
        let slot = commit.slot();
        Ok(slot.ends.tail - self.log.tail)
    }

    /// Returns the number of pairs, in constant time.
    pub fn len(&self) -> u128
        ensures { result ≡ length (contents self.now.store.tree) }
    {
        self.pairs
    }

    /// Returns whether there are no pairs, in constant time.
    pub fn is_empty(&self) -> bool
        ensures yes { result ≡ true → contents self.now.store.tree ≡ [] }
        ensures no { contents self.now.store.tree ≡ [] → result ≡ true }
    {
        self.pairs == 0
    }

    /// Returns what `verify` reports of this store, without checking its pages: the numbers of pages, of levels and of
    /// pairs. Does not allocate. Counts the pages in their table.
    pub fn report(&self) -> Report
        ensures { result ≡ report self.now.store.tree }
    {
        // Only for the proof: the pages can be counted in 64 bits.
        let _most = self.tree.most_pages();
        Report {
            pages: u128::from(count_pages(&self.tree)),
            height: self.tree.height(),
            pairs: self.pairs,
        }
    }

    /// Returns the number of pairs, or 4,294,967,295 if there are more, in constant time.
    pub fn pairs(&self) -> u64
        ensures { result ≡ min (length (contents self.now.store.tree)) (2 ^ 32 - 1) }
    {
        self.pairs.min(u128::from(u32::MAX)) as u64
    }

    /// Returns how many pairs have keys in the range, whose forms are those of `pairs_in`. Does not allocate. Walks over
    /// these pairs.
    pub fn count<'k, B: RangeBounds<&'k [u8]>>(&self, bounds: B) -> u128
        ensures { B.has_bounds bounds → result ≡ length (pairs_within (B.start_bound bounds)
            (B.end_bound bounds) (contents self.now.store.tree)) }
    {
        // Only for the proof.
        self.pairs_fit(&[]);
        count(&mut self.pairs_in(bounds))
    }
}
