//! The flush that makes itself room: it cleans if the log is tight or full, and compacts a bloated store.
ghost use Rattle.std.specs.Prelude.{◌≡◌, ◌≢◌, ◌⊎◌, ◌↔◌, ◌+◌, ⊤, ℕ, ◌<◌, ◌≤◌, [], None, Ok, Err, IsTrue, IfOk, OnOk, IfErr, IfSome, MatchResult, ◌&&◌, min, nat_le, true, false};
ghost use Rattle.flush_log.specs.FlushText.{flush_frames};
ghost use Rattle.keys.specs.declared.fault.Fault.TheVariants.{NoMemory};
ghost use Rattle.mapping.specs.Levels.{contents};
ghost use Rattle.engine.specs.ClaimFlush.{MakesDurable};
ghost use Rattle.engine.specs.Cleaning.{IsCalmOn, IsCleanRefusedOn, IsDoneEarly, IsDueAndTight, IsEarlyRow, IsEarlyStop, IsFlushedCleaning, IsHeld, IsNoReading, IsOfMachine, IsRowDone, IsRowReady, IsRowStopped, IsStart, IsStoppedCleaning, IsStoppedEarly, IsWantOfRoom, IsWhole, MayHelp, most_ahead};
ghost use Rattle.engine.specs.Cleans.{IsCleanedOn, IsRefusedClean};
ghost use Rattle.engine.specs.OneStep.{IsOnlyRead};
ghost use Rattle.engine.specs.Refusal.{IsAdmitted, is_crew};
ghost use Rattle.engine.specs.Room.{is_overfull};
ghost use Rattle.engine.specs.State.{State, IsSound};

use crate::laws::steps_answer_as_a_map_and_are_read_back;
use crate::refusal::admit_crew;
use crate::step::Step;
use crate::store::Store;
use cleaner::Reading;
use crew::{Crew, NoGate};
use flush_log::Disk;
use keys::Fault;
use std::alloc::Global;
use std::thread::Threads;

// Whether to go on after a flush that was refused: if the log is full, and more segments may be cleaned.
fn go_on(fault: Fault, left: u64) -> Result<(), Fault>
    ensures { ((fault ≡ Fault.Full) × (0 < left) × (result ≡ Ok tt))
        ⊎ ((fault ≡ Fault.Full → left ≡ 0) × (result ≡ Err fault)) }
{
    match fault {
        Fault::Full if left > 0 => Ok(()),
        other => Err(other),
    }
}

// The fault for that of a clean: a log in one segment is full.
fn want_of_room(fault: Fault) -> Fault
    ensures { IsWantOfRoom fault result }
{
    match fault {
        Fault::NothingToClean => Fault::Full,
        other => other,
    }
}

// Returns whether a fault ends a flush that cleans: a call of the disk or an allocation failed.
fn is_of_machine(fault: &Fault) -> bool
    ensures { (IsOfMachine fault.now × (result ≡ true))
        ⊎ ((fault.now ≢ Fault.Device) × (fault.now ≢ Fault.NoMemory) × (result ≡ false)) }
{
    matches!(fault, Fault::Device | Fault::NoMemory)
}

// What is answered if a clean of a row is refused after `done` others: how many were done; but the fault if none was, or if it ends the flush.
fn after_row(fault: Fault, done: u64) -> Result<u64, Fault>
    ensures { MatchResult result
        (λ n. (n ≡ done) × (0 < done) × (fault ≢ Fault.Device) × (fault ≢ Fault.NoMemory))
        (λ reported. (reported ≡ fault) × ((done ≡ 0) ⊎ IsOfMachine fault)) }
{
    if done == 0 || is_of_machine(&fault) {
        return Err(fault);
    }
    Ok(done)
}

// What is answered if early cleans are refused: that none was done; but the fault if it ends the flush.
fn early_refusal(fault: Fault) -> Result<(u64, Option<Reading>), Fault>
    ensures { MatchResult result
        (λ e. (e.0 ≡ 0) × (e.1 ≡ None) × (fault ≢ Fault.Device) × (fault ≢ Fault.NoMemory))
        (λ reported. (reported ≡ fault) × IsOfMachine fault) }
{
    if is_of_machine(&fault) {
        return Err(fault);
    }
    Ok((0, None))
}

impl<D: Disk> Store<D> {
    // Returns whether the log is tight while a flush is due.
    fn may_clean_early(&self) -> bool
        ensures { IsTrue result ↔ IsDueAndTight self.now.settings self.now.store }
    {
        self.is_tight() && self.is_flush_due()
    }

    // Compacts the tree if a flush is due and `compact_if_bloated` would.
    fn compact_if_due(&mut self, rt: &(impl Threads + Sync), crew: Crew) -> Result<(), Fault>
        requires fine { self.old.has_failed ≡ false }
        requires crew { IsTrue (is_crew crew) }
        ensures start { OnOk result (IsStart self.old self.new) }
        ensures err { IfErr result (λ fault. (fault ≡ NoMemory) × (self.new ≡ self.old)
            × (flush_frames self.old.store.version self.old.store.tree ≢ [])) }
    {
        if !self.may_be_bloated() {
            return Ok(());
        }
        if self.is_flush_due() {
            return self.compact_if_bloated(rt, crew);
        }
        Ok(())
    }

    // Returns how many segments a reading of the log is for, and a row of cleans cleans at most.
    fn most_ahead(&self) -> u64
        ensures exact { result ≡ most_ahead self.now.settings }
        ensures few { result ≤ self.now.settings.segments }
    {
        u64::from((self.settings.segments / 8).max(1))
    }

    // Returns whether a row of cleans is worth its cost, and may make room for the flush.
    fn may_help(
        &self,
        rt: &(impl Threads + Sync),
        crew: Crew,
        reading: &Reading,
    ) -> Result<bool, Fault>
        ensures exact { IfOk result (λ helps. IsTrue helps
            ↔ MayHelp self.now.settings self.now.store reading.now.live) }
        ensures err { IfErr result (λ fault. fault ≡ NoMemory) }
    {
        if !self.is_worth_cleaning(reading) {
            return Ok(false);
        }
        let is_overfull = self.is_overfull(rt, crew, reading)?;
        Ok(!is_overfull)
    }

    // Does a row of cleans by this reading, and returns how many. If a clean is refused after the first, that ends the row, and is no error
    // unless it ends the flush.
    fn clean_row(&mut self, reading: Reading, most: u64) -> Result<u64, Fault>
        requires ready { IsRowReady D.view self.old reading most }
        ensures done { IfOk result (IsRowDone D.view D.failed self.old most self.new) }
        ensures stopped { IfErr result (IsRowStopped D.view D.failed self.old most self.new) }
    {
        let mut reading = reading;
        match self.clean_all_read(&mut reading, most) {
            Ok(cleaned) => Ok(cleaned),
            Err(refused) => after_row(refused.1, refused.0),
        }
    }

    // Does a row of early cleans by this reading, and returns how many. A refusal is no error unless it ends the flush.
    fn clean_row_early(
        &mut self,
        reading: Reading,
        most: u64,
    ) -> Result<(u64, Option<Reading>), Fault>
        requires ready { IsRowReady D.view self.old reading most }
        ensures done { IfOk result (IsEarlyRow D.view D.failed ⊤ (IsCleanRefusedOn D.view self.new)
            self.old most self.new) }
        ensures stopped { IfErr result (IsEarlyStop D.view D.failed ⊤ self.old most self.new) }
    {
        match self.clean_row(reading, most) {
            Ok(cleaned) => Ok((cleaned, None)),
            Err(fault) => early_refusal(fault),
        }
    }

    // Does a row of early cleans by this reading if that may help, and returns how many; else it returns the reading.
    fn clean_if_worth(
        &mut self,
        rt: &(impl Threads + Sync),
        crew: Crew,
        reading: Reading,
        most: u64,
    ) -> Result<(u64, Option<Reading>), Fault>
        requires ready { IsRowReady D.view self.old reading most }
        ensures done { IfOk result (IsEarlyRow D.view D.failed
            (MayHelp self.old.settings self.old.store reading.live) (IsCalmOn D.view self.old)
            self.old most self.new) }
        ensures stopped { IfErr result (IsEarlyStop D.view D.failed
            (MayHelp self.old.settings self.old.store reading.live) self.old most self.new) }
    {
        // Only for the proof.
        let _settings = self.settings;
        if self.may_help(rt, crew, &reading)? {
            return self.clean_row_early(reading, most);
        }
        Ok((0, Some(reading)))
    }

    // Reads the log, and does a row of early cleans if that may help.
    fn read_and_clean(
        &mut self,
        rt: &(impl Threads + Sync),
        crew: Crew,
        most: u64,
    ) -> Result<(u64, Option<Reading>), Fault>
        requires fine { self.old.has_failed ≡ false }
        requires due { IsDueAndTight self.old.settings self.old.store }
        requires most { most ≡ most_ahead self.old.settings }
        ensures done { IfOk result (IsDoneEarly D.view D.failed self.old most self.new) }
        ensures stopped { IfErr result (IsStoppedEarly D.view D.failed self.old most self.new) }
    {
        match self.read_ahead(rt, crew, most) {
            Ok(reading) => self.clean_if_worth(rt, crew, reading, most),
            Err(fault) => early_refusal(fault),
        }
    }

    // Cleans before a flush if that is due, the log is tight, and the cleans may help. Returns how many segments were cleaned, or the
    // reading of the log if it still serves.
    fn clean_early(
        &mut self,
        rt: &(impl Threads + Sync),
        crew: Crew,
        most: u64,
    ) -> Result<(u64, Option<Reading>), Fault>
        requires fine { self.old.has_failed ≡ false }
        requires most { most ≡ most_ahead self.old.settings }
        ensures done { IfOk result (IsDoneEarly D.view D.failed self.old most self.new) }
        ensures stopped { IfErr result (IsStoppedEarly D.view D.failed self.old most self.new) }
    {
        if self.may_clean_early() {
            return self.read_and_clean(rt, crew, most);
        }
        Ok((0, None))
    }

    // Returns this reading of the log, or else a new one.
    fn held_or_read(
        &mut self,
        rt: &(impl Threads + Sync),
        crew: Crew,
        held: Option<Reading>,
        most: u64,
    ) -> Result<Reading, Fault>
        requires fine { self.old.has_failed ≡ false }
        requires held { IfSome held (IsHeld D.view self.old) }
        requires most { most ≡ most_ahead self.old.settings }
        ensures read { IfOk result (λ reading. IsOnlyRead D.view D.failed self.old self.new
            × IsHeld D.view self.new reading) }
        ensures refused { IfErr result (IsRefusedClean D.view D.failed self.old self.new) }
    {
        // Only for the proof.
        let _settings = self.settings;
        match held {
            Some(reading) => Ok(reading),
            None => self.read_ahead(rt, crew, most),
        }
    }

    // Returns a reading of the log, this one or else a new one, by which cleans may make room for the flush.
    fn reading_for_room(
        &mut self,
        rt: &(impl Threads + Sync),
        crew: Crew,
        held: Option<Reading>,
        most: u64,
    ) -> Result<Reading, Fault>
        requires fine { self.old.has_failed ≡ false }
        requires held { IfSome held (IsHeld D.view self.old) }
        requires most { most ≡ most_ahead self.old.settings }
        ensures read { IfOk result (λ reading. IsOnlyRead D.view D.failed self.old self.new
            × IsHeld D.view self.new reading
            × (is_overfull self.new.settings self.new.store reading.live ≡ false)) }
        ensures refused { IfErr result (IsNoReading D.view D.failed self.old self.new) }
    {
        let reading = self.held_or_read(rt, crew, held, most)?;
        if self.is_overfull(rt, crew, &reading)? {
            return Err(Fault::Full);
        }
        Ok(reading)
    }

    // Does a row of cleans by this reading, of at most `left`, and returns how many more may follow.
    fn clean_on(&mut self, reading: Reading, left: u64) -> Result<u64, Fault>
        requires fine { self.old.has_failed ≡ false }
        requires held { IsHeld D.view self.old reading }
        requires some { 0 < left }
        ensures done { IfOk result (λ more. (n : ℕ) × (0 < n) × (more + n ≡ left)
            × IsCleanedOn D.view D.failed self.old n self.new
            × IsWhole D.view self.old (min (most_ahead self.old.settings) left) n self.new) }
        ensures stopped { IfErr result (IsRowStopped D.view D.failed self.old
            (min (most_ahead self.old.settings) left) self.new) }
    {
        let most = self.most_ahead().min(left);
        let cleaned = self.clean_row(reading, most)?;
        Ok(left - cleaned)
    }

    // Cleans early, and then flushes. While the flush finds the log full and cleans may help, it does rows of cleans.
    fn flush_in_rows(&mut self, rt: &(impl Threads + Sync), crew: Crew) -> Result<u64, Fault>
        requires fine { self.old.has_failed ≡ false }
        requires crew { IsTrue (is_crew crew) }
        ensures number { IfOk result (λ n. n ≡ self.new.store.sequence) }
        ensures flushed { IfOk result (λ _. IsFlushedCleaning D.view D.failed self.old self.new) }
        ensures refused { IfErr result (IsStoppedCleaning D.view D.failed self.old self.new) }
        ensures sound { IsSound D.view self.old × IsSound D.view self.new }
    {
        let all = u64::from(self.settings.segments);
        let ahead = self.most_ahead();
        let (early, first) = self.clean_early(rt, crew, ahead)?;
        let mut held = first;
        let mut left = all - early;
        'room: loop {
            match self.step(rt, crew, &NoGate, Step::Flush) {
                Ok(_flushed) => return Ok(self.log.sequence),
                Err(fault) => go_on(fault, left)?,
            }
            let reading = match self.reading_for_room(rt, crew, held, ahead) {
                Ok(reading) => reading,
                Err(fault) => return Err(want_of_room(fault)),
            };
            held = None;
            match self.clean_on(reading, left) {
                Ok(more) => left = more,
                Err(fault) => return Err(want_of_room(fault)),
            }
        }
    }

    /// Writes what the log lacks, as `flush` does, and returns the sequence number. If there is something to write, it makes room first:
    ///
    /// 1. If at least two thirds of the segments are in use, `compact_if_bloated` may compact the tree.
    /// 2. If fewer than three of at least 16 segments are free, the log is read once. If enough bytes are dead (`is_worth_cleaning`), and not
    ///    too many live (`is_overfull`), up to an eighth of the segments are cleaned by this reading. If the reading or a clean is refused
    ///    here, the call goes on with the flush, unless an allocation or a call of the disk failed.
    /// 3. If the flush finds the log full, the log is read, unless it was read just before. If too much lives (`is_overfull`), that is
    ///    `Fault::Full`. Else up to an eighth of the segments are cleaned, and the flush is tried again. At most as many segments are
    ///    cleaned as there are.
    ///
    /// Fails with `Fault::Failed` if the store has failed, then with `Fault::BadCrew` if the crew is out of range. Fails with `Fault::Full`
    /// if what lives needs a larger log. Else it fails with the faults of `flush` and of `clean`. After an `Err` the store holds what it
    /// held, maybe compacted, and the cleans before it are done. After `Fault::Device` the store has failed, and the disk holds the store
    /// before the flush or the store in memory. An allocation that fails always ends the call with `Fault::NoMemory`, so the bytes that a
    /// successful call writes depend on no allocation. If the call is repeated then, it may clean other segments than it would have.
    ///
    /// If too much lives by the first reading (`is_overfull`), the log is read once before `Fault::Full`. At worst, the call reads 12 times
    /// as many bytes as the log has, or 15 times as many if the log has fewer than 16 segments.
    ///
    /// The segments that were cleaned follow one another: `head` before and after the call tells how many they are.
    pub fn flush_cleaning(&mut self, rt: &(impl Threads + Sync), crew: Crew) -> Result<u64, Fault>
        // Of the store, or of that compacted: rows of cleans and a flush, as a play of them does, whatever the disk does.
        ensures number { IfOk result (λ n. n ≡ self.new.store.sequence) }
        ensures flushed { IfOk result (λ _. (start : State D) × IsStart self.old start
            × IsFlushedCleaning D.view D.failed start self.new) }

        // Which fault, and what it leaves: rows of cleans of the same, as a play of them does.
        ensures admitted { IsAdmitted (is_crew crew) self.old result self.new }
        ensures refused { self.old.has_failed ≡ false → IsTrue (is_crew crew) →
            IfErr result (λ fault. (start : State D) × IsStart self.old start
            × IsStoppedCleaning D.view D.failed start self.new fault) }

        // What the store holds stays, whatever is answered. On an honest disk it is durable after success, and a crash
        // at any moment leaves it, or what was durable before.
        ensures holds { contents self.new.store.tree ≡ contents self.old.store.tree }
        ensures durable { MakesDurable D.view self.old.settings (contents self.old.store.tree)
            self.old.disk self.old.has_failed result self.new }

        // The store was sound, and is so again.
        ensures sound { IsSound D.view self.old × IsSound D.view self.new }
    {
        // Only for the proof.
        steps_answer_as_a_map_and_are_read_back::<Global>();
        if self.has_failed {
            return Err(Fault::Failed);
        }
        admit_crew(crew)?;
        self.compact_if_due(rt, crew)?;
        self.flush_in_rows(rt, crew)
    }
}
