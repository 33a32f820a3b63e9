//! Many cleans in sequence, with one reading of the log.
ghost use Rattle.std.specs.Prelude.{◌≡◌, ◌≢◌, ◌⊎◌, ℕ, ◌+◌, ◌-◌, ◌<◌, ◌≤◌, Ok, Err, IsTrue, IfOk, IfErr, MatchResult, false};
ghost use Rattle.engine.specs.Cleaning.{AreDoneBy, AreStoppedBy, IsReadAhead};
ghost use Rattle.engine.specs.Cleans.{AreCleaned, AreStopped, IsReadFor, IsDoneClean, IsRefusedClean, IsCleanedOn, IsStoppedOn};
ghost use Rattle.engine.specs.Refusal.{IsAdmitted, is_crew};
ghost use Rattle.engine.specs.State.{IsSound};

use crate::refusal::admit_crew;
use crate::store::Store;
use crate::store::clean::is_of_disk;
use cleaner::laws::a_clean_keeps_the_store;
use cleaner::{Reading, clean_by, read_for_cleans};
use crew::Crew;
use flush_log::Disk;
use frame_codec::Format;
use keys::Fault;
use std::thread::Threads;

// The result if a clean fails after `done` others: how many succeeded; but the fault if none did, or if a call of the
// disk failed.
fn after_some(fault: Fault, done: u64) -> Result<u64, Fault>
    ensures { MatchResult result
        (λ n. (n ≡ done) × (0 < done) × (fault ≢ Fault.Device))
        (λ reported. (reported ≡ fault) × ((done ≡ 0) ⊎ (fault ≡ Fault.Device))) }
{
    if done == 0 || is_of_disk(&fault) {
        return Err(fault);
    }
    Ok(done)
}

impl<D: Disk> Store<D> {
    /// Reads the log once for its next `count` cleans, or for the cleans of all segments before the last one if these
    /// are fewer. `clean_by_reading` then performs these cleans with the result, a `cleaner::Reading`, one at a time.
    /// Nothing is written, and the store is unchanged.
    ///
    /// Fails like `clean` before it writes: with `Fault::NothingToClean` if the log is in one segment, with the faults
    /// of a damaged log, with `Fault::NoMemory`, or with `Fault::Device`, after which the store has failed. The store
    /// must not have failed before.
    pub fn read_ahead(
        &mut self,
        rt: &(impl Threads + Sync),
        crew: Crew,
        count: u64,
    ) -> Result<Reading, Fault>
        requires fine { self.old.has_failed ≡ false }
        requires some { 0 < count }
        ensures { IsReadAhead D.view D.failed self.old count result self.new }
    {
        let format = Format {
            settings: self.settings,
            version: self.version,
        };
        match read_for_cleans(
            rt,
            crew,
            self.alloc,
            &mut self.disk,
            &format,
            &self.log,
            count,
        ) {
            Ok(reading) => Ok(reading),
            Err(fault) => {
                self.has_failed = is_of_disk(&fault);
                Err(fault)
            }
        }
    }

    /// Cleans the first segment by a reading that has it (`Reading::has`), as `clean` does, but without reading the
    /// log. The reading must be of this store's log, which only such cleans may have changed since; it can then be used
    /// for the next clean. Drop it after an `Err`.
    pub fn clean_by_reading(&mut self, reading: &mut Reading) -> Result<u64, Fault>
        requires fine { self.old.has_failed ≡ false }
        requires read { IsReadFor D.view self.old reading.old }
        requires next { self.old.store.head < reading.old.limit }
        ensures done { IfOk result (λ head. IsDoneClean D.view D.failed self.old self.new head
            × IsReadFor D.view self.new reading.new) }
        ensures refused { IfErr result (IsRefusedClean D.view D.failed self.old self.new) }
        ensures limit { reading.new.limit ≡ reading.old.limit }
    {
        // Only for the proof.
        a_clean_keeps_the_store();
        let format = Format {
            settings: self.settings,
            version: self.version,
        };
        match clean_by(self.alloc, &mut self.disk, &format, &self.log, reading) {
            Ok(committed) => {
                self.log = committed.ends;
                self.version = committed.version;
                Ok(self.log.head)
            }
            Err(fault) => {
                self.has_failed = is_of_disk(&fault);
                Err(fault)
            }
        }
    }

    // Cleans up to `most` segments, as long as the reading has them, and returns how many. Fails with the number of
    // segments that were cleaned before the clean that failed, and its fault.
    pub(super) fn clean_all_read(
        &mut self,
        reading: &mut Reading,
        most: u64,
    ) -> Result<u64, (u64, Fault)>
        requires fine { self.old.has_failed ≡ false }
        requires read { IsReadFor D.view self.old reading.old }
        requires next { self.old.store.head < reading.old.limit }
        requires some { 0 < most }
        ensures done { IfOk result (AreDoneBy D.view D.failed self.old most
            (reading.old.limit - self.old.store.head) self.new) }
        ensures stopped { IfErr result (AreStoppedBy D.view D.failed self.old most
            (reading.old.limit - self.old.store.head) self.new) }
    {
        let mut done = 0;
        'each: loop {
            match self.clean_by_reading(reading) {
                Ok(_head) => done += 1,
                Err(fault) => return Err((done, fault)),
            }
            if done == most || !reading.has(self.log.head) {
                return Ok(done);
            }
        }
    }

    // Cleans up to `most` segments by one reading of the log, and returns how many. A clean that fails after the first
    // one ends the call, and is no error unless a call of the disk failed.
    pub(super) fn clean_ahead(
        &mut self,
        rt: &(impl Threads + Sync),
        crew: Crew,
        most: u64,
    ) -> Result<u64, Fault>
        requires fine { self.old.has_failed ≡ false }
        requires some { 0 < most }
        ensures done { IfOk result (λ n. (0 < n) × (n ≤ most)
            × IsCleanedOn D.view D.failed self.old n self.new) }
        ensures stopped { IfErr result (λ fault. (n : ℕ) × (n < most)
            × (((n ≡ 0) × (self.new.store ≡ self.old.store)) ⊎ (fault ≡ Fault.Device))
            × IsStoppedOn D.view D.failed self.old n fault self.new) }
    {
        let mut reading = self.read_ahead(rt, crew, most)?;
        match self.clean_all_read(&mut reading, most) {
            Ok(cleaned) => Ok(cleaned),
            Err(refused) => after_some(refused.1, refused.0),
        }
    }

    /// Frees up to `most` segments at the beginning of the log, one clean after the other, and returns how many. The
    /// log is read once for all of them, whereas each call of `clean` reads it. Each clean is a commit of its own, with
    /// the bytes that `clean` writes.
    ///
    /// Ends early if the log is in one segment, or if a later clean fails, for example with `Fault::Full` or
    /// `Fault::NoMemory` (so the number may depend on memory); the store is then in the state after the cleans that
    /// succeeded. Fails like `clean` if the first clean fails. If a call of the disk fails in a later clean, the fault
    /// is `Fault::Device`, too: the store has failed, and the disk still encodes the same pages. If `most` is 0, does
    /// nothing.
    pub fn clean_many(
        &mut self,
        rt: &(impl Threads + Sync),
        crew: Crew,
        most: u64,
    ) -> Result<u64, Fault>
        // As many cleans in sequence, as in a play of them, whatever the disk does.
        ensures done { IfOk result (λ n. (n ≤ most) × (0 < most → 0 < n)
            × AreCleaned D.view D.failed self.old n self.new) }

        // Which fault, and the state after it: the first clean failed, or a call of the disk failed in a later one.
        ensures admitted { IsAdmitted (is_crew crew) self.old result self.new }
        ensures refused { self.old.has_failed ≡ false → IsTrue (is_crew crew) →
            IfErr result (λ fault. (n : ℕ) × (n < most) × ((n ≡ 0) ⊎ (fault ≡ Fault.Device))
            × AreStopped D.view D.failed self.old self.new n fault) }

        // The store was sound, and is so again.
        ensures sound { IsSound D.view self.old × IsSound D.view self.new }
    {
        if self.has_failed {
            return Err(Fault::Failed);
        }
        admit_crew(crew)?;
        if most == 0 {
            return Ok(0);
        }
        self.clean_ahead(rt, crew, most)
    }
}
