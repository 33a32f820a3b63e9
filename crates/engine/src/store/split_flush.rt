//! A flush in parts, so that other threads can read the store while one thread waits for the disk.
ghost use Rattle.std.specs.Prelude.{◌≡◌, ◌⊎◌, Some, Err, IsTrue, IfOk, IfErr, MatchResult, true, false};
ghost use Rattle.std.specs.Arc.{arc_value};
ghost use Rattle.std.specs.Option.{option_copied};
ghost use Rattle.keys.specs.OrderedMap.{value_at};
ghost use Rattle.keys.specs.Range.{rows};
ghost use Rattle.keys.specs.declared.fault.Fault.TheVariants.{NoMemory};
ghost use Rattle.mapping.specs.Levels.{contents};
ghost use Rattle.scan.specs.Back.{rows_back};
ghost use Rattle.scan.specs.Prefix.{with_prefix};
ghost use Rattle.engine.specs.Bounds.{pairs_within};
ghost use Rattle.engine.specs.OneStep.{IsStep};
ghost use Rattle.engine.specs.Refusal.{is_crew};
ghost use Rattle.engine.specs.State.{IsSound};
ghost use Rattle.engine.specs.SplitFlush.{IsCommitOf, state_on, with_written};
ghost use Rattle.engine.specs.Steps.Answer.{Flushed};
ghost use Rattle.engine.specs.Steps.Step.{Flush};

use crate::refusal::admit_crew;
use crate::store::Store;
use crate::store::bounds::pairs_of;
use crate::store::flush::plan;
use crate::store::reads::value_of;
use crew::Crew;
use flush_log::{Commit, CommitKind, Disk, LogEnds, Slot, is_all_written};
use keys::{Fault, Settings, Version};
use mapping::Tree;
use recovery::laws::{
    a_crash_in_a_flush_leaves_the_store_before_or_after,
    a_crash_in_an_upgrade_leaves_the_store_before_or_after, what_was_flushed_is_what_is_read,
    what_was_upgraded_is_what_is_read,
};
use recovery::table_laws::a_table_marked_as_written_holds_the_flushed_tree;
use scan::{Range, Rows, RowsBack};
use std::alloc::{AllocError, Global};
use std::marker::Model;
use std::ops::RangeBounds;
use std::sync::Arc;
use std::thread::Threads;

/// A store without its disk. It can be read, by several threads at the same time.
#[derive(Drop)]
pub struct StoreInMemory {
    settings: Settings,
    alloc: Global,
    tree: Tree<Global>,
    log: LogEnds,
    version: Version,
    // The number of pairs.
    pairs: u128,
}

impl Model for StoreInMemory {
    ghost use Rattle.engine.specs.State.{store_in};
    ghost use Rattle.engine.specs.SplitFlush.{StateInMemory, IsCountedStoreInMemory};

    ghost Value = { StateInMemory };

    ghost view = { λ m. record {
      settings = m.settings;
      store = store_in m.tree m.log m.version;
    } };

    ghost invariant = { λ m.
        IsCountedStoreInMemory m.settings m.tree m.log m.version m.pairs };
}

impl StoreInMemory {
    /// Returns the value at the key, as `Store::get` does.
    pub fn get(&self, key: &[u8]) -> Option<&[u8]>
        ensures { option_copied result ≡ value_at key.now (contents self.now.store.tree) }
    {
        value_of(&self.tree, key)
    }

    /// Returns the pairs of a range, as `Store::range` does.
    pub fn range(&self, lo: &[u8], hi: Option<&[u8]>, limit: u32) -> Rows<'_>
        ensures { result
            ≡ rows lo.now (option_copied hi.entry) limit (contents self.now.store.tree) }
    {
        Rows::new(self.alloc, &self.tree, lo, hi, limit)
    }

    /// Returns the pairs whose keys lie in the range, as `Store::pairs_in` does.
    pub fn pairs_in<'k, B: RangeBounds<&'k [u8]>>(&self, bounds: B) -> Range<'_>
        ensures { B.has_bounds bounds → result ≡ pairs_within (B.start_bound bounds)
            (B.end_bound bounds) (contents self.now.store.tree) }
    {
        pairs_of(self.alloc, &self.tree, bounds)
    }

    /// Returns the last pairs of a range, from the greatest key down, as `Store::range_back` does.
    pub fn range_back(&self, lo: &[u8], hi: Option<&[u8]>, limit: u32) -> RowsBack<'_>
        ensures { result
            ≡ rows_back lo.now (option_copied hi.entry) limit (contents self.now.store.tree) }
    {
        RowsBack::new(self.alloc, &self.tree, lo, hi, limit)
    }

    /// Returns the pairs whose keys begin with these bytes, as `Store::prefix` does.
    pub fn prefix(&self, bytes: &[u8]) -> Rows<'_>
        ensures { result ≡ with_prefix bytes.now (contents self.now.store.tree) }
    {
        Rows::with_prefix(self.alloc, &self.tree, bytes)
    }

    fn settings(&self) -> Settings
        ensures { result ≡ self.now.settings }
    {
        self.settings
    }

    fn sequence(&self) -> u64
        ensures { result ≡ self.now.store.sequence }
    {
        self.log.sequence
    }
}

/// A flush that has begun: the store, and what is to be written. It can be sent to another thread.
#[derive(Drop)]
pub struct BegunFlush<D: Disk> {
    memory: Arc<StoreInMemory, Global>,
    disk: D,
    // What the log lacks, if it lacks anything.
    commit: Option<Commit>,
}

impl<D: Disk> Model for BegunFlush<D> {
    ghost use Rattle.std.specs.Prelude.{false};
    ghost use Rattle.std.specs.Arc.{arc_value};
    ghost use Rattle.engine.specs.State.{State};
    ghost use Rattle.engine.specs.SplitFlush.{IsBegun, state_on};

    ghost Value = { State D };

    ghost view = { λ begun. state_on (arc_value begun.memory) begun.disk false };

    ghost invariant = { λ begun.
        IsBegun D.view (state_on (arc_value begun.memory) begun.disk false) begun.commit };
}

/// A flush that was written, or failed.
#[derive(Drop)]
pub struct WrittenFlush<D: Disk> {
    memory: Arc<StoreInMemory, Global>,
    disk: D,
    // The slot of the commit that was written, if there was something to write.
    written: Option<Slot>,
    has_failed: bool,
}

impl<D: Disk> Model for WrittenFlush<D> {
    ghost use Rattle.std.specs.Arc.{arc_value};
    ghost use Rattle.engine.specs.State.{State, IsSound};
    ghost use Rattle.engine.specs.SplitFlush.{state_on, with_written};

    ghost Value = { State D };

    ghost view = { λ flush.
        state_on (with_written flush.written (arc_value flush.memory)) flush.disk flush.has_failed };

    ghost invariant = { λ flush. IsSound D.view
        (state_on (with_written flush.written (arc_value flush.memory)) flush.disk flush.has_failed) };
}

impl<D: Disk> Store<D> {
    /// Begins a flush, whose parts are together `flush`: `BegunFlush::write` waits for the disk, while other threads
    /// read the store through `BegunFlush::reader`, and `WrittenFlush::into_store` returns the store. There are no
    /// batches in between.
    ///
    ///     let begun = store.begin_flush(rt, crew)?;
    ///     let reader = begun.reader()?;
    ///     let ((written, flushed), found) =
    ///         thread::join(rt, || begun.write(), || reader.get(b"key"));
    ///
    /// Fails with `Fault::Failed`, `Fault::BadCrew`, `Fault::NoMemory`, `Fault::Spent` or `Fault::Full`, as `flush` does,
    /// and returns the unchanged store with the fault. The disk is not called.
    pub fn begin_flush(
        self,
        rt: &(impl Threads + Sync),
        crew: Crew,
    ) -> Result<BegunFlush<D>, (Fault, Store<D>)>
        ensures begun { IfOk result (λ begun. (begun ≡ self) × (self.has_failed ≡ false)
            × IsTrue (is_crew crew)) }
        ensures refused { IfErr result (λ e. (e.1 ≡ self) × ((e.0 ≡ NoMemory)
            ⊎ IsStep D.view D.failed (is_crew crew) self Flush (Err e.0) (λ n. Flushed n) self)) }
    {
        match self.flush_commit(rt, crew) {
            Ok(commit) => self.split(commit),
            Err(fault) => Err((fault, self)),
        }
    }

    // The commit of what the log lacks, if it lacks anything.
    fn flush_commit(&self, rt: &(impl Threads + Sync), crew: Crew) -> Result<Option<Commit>, Fault>
        ensures commit { IfOk result (λ commit. (self.now.has_failed ≡ false)
            × IsTrue (is_crew crew) × IsCommitOf self.now.settings self.now.store commit) }
        ensures refused { IfErr result (λ fault.
            IsStep D.view D.failed (is_crew crew) self.now Flush (Err fault) (λ n. Flushed n)
            self.now) }
    {
        if self.has_failed {
            return Err(Fault::Failed);
        }
        admit_crew(crew)?;
        if is_all_written(&self.tree) {
            return Ok(None);
        }
        let commit = plan(
            rt,
            crew,
            self.alloc,
            &self.settings,
            &self.tree,
            self.log,
            CommitKind::Flush(self.version),
        )?;
        Ok(Some(commit))
    }

    // Moves the store's memory to where it can be shared.
    fn split(self, commit: Option<Commit>) -> Result<BegunFlush<D>, (Fault, Store<D>)>
        requires fine { self.has_failed ≡ false }
        requires commit { IsCommitOf self.settings self.store commit }
        ensures { MatchResult result (λ begun. begun ≡ self)
            (λ e. (e.0 ≡ NoMemory) × (e.1 ≡ self)) }
    {
        let Store {
            settings,
            alloc,
            tree,
            log,
            version,
            disk,
            has_failed,
            pairs,
        } = self;
        let memory = StoreInMemory {
            settings,
            alloc,
            tree,
            log,
            version,
            pairs,
        };
        match Arc::new(alloc, memory) {
            Ok(memory) => Ok(BegunFlush {
                memory,
                disk,
                commit,
            }),
            Err(refused) => Err((
                Fault::NoMemory,
                store_on(refused.value, None, disk, has_failed),
            )),
        }
    }
}

// The store on its disk, after a commit with this slot was written, or without one.
fn store_on<D: Disk>(
    memory: StoreInMemory,
    written: Option<Slot>,
    disk: D,
    has_failed: bool,
) -> Store<D>
    requires { IsSound D.view (state_on (with_written written memory) disk has_failed) }
    ensures { result ≡ state_on (with_written written memory) disk has_failed }
{
    match written {
        Some(slot) => store_written(memory, slot, disk, has_failed),
        None => store_unwritten(memory, disk, has_failed),
    }
}

// The store on its disk, after a commit with this slot was written.
fn store_written<D: Disk>(memory: StoreInMemory, slot: Slot, disk: D, has_failed: bool) -> Store<D>
    requires { IsSound D.view (state_on (with_written (Some slot) memory) disk has_failed) }
    ensures { result ≡ state_on (with_written (Some slot) memory) disk has_failed }
{
    // Only for the proof.
    a_table_marked_as_written_holds_the_flushed_tree();
    let StoreInMemory {
        settings,
        alloc,
        mut tree,
        log: _log,
        version: _version,
        pairs,
    } = memory;
    tree.flushed();
    Store {
        settings,
        alloc,
        tree,
        log: slot.ends,
        version: slot.version,
        disk,
        has_failed,
        pairs,
    }
}

// The store on its disk, to which nothing was written.
fn store_unwritten<D: Disk>(memory: StoreInMemory, disk: D, has_failed: bool) -> Store<D>
    requires { IsSound D.view (state_on memory disk has_failed) }
    ensures { result ≡ state_on memory disk has_failed }
{
    let StoreInMemory {
        settings,
        alloc,
        tree,
        log,
        version,
        pairs,
    } = memory;
    Store {
        settings,
        alloc,
        tree,
        log,
        version,
        disk,
        has_failed,
        pairs,
    }
}

impl<D: Disk> BegunFlush<D> {
    /// Returns the store for reading, as it is in memory. It may be used in other threads, also during the call of
    /// `write`, and `Arc::try_clone` makes more readers. Fails only if there are too many readers.
    pub fn reader(&self) -> Result<Arc<StoreInMemory, Global>, AllocError>
        ensures { IfOk result (λ reader. ((arc_value reader).settings ≡ self.now.settings)
            × ((arc_value reader).store ≡ self.now.store)) }
    {
        Arc::try_clone(&self.memory)
    }

    /// Writes what the log lacks, and syncs it. Returns the sequence number, or `Fault::Device` if a call of the disk
    /// failed; then the store has failed. If there is nothing to write, the disk is not called.
    pub fn write(self) -> (WrittenFlush<D>, Result<u64, Fault>)
        ensures { IsStep D.view D.failed true self Flush result.1 (λ n. Flushed n) result.0 }
    {
        let BegunFlush {
            memory,
            disk,
            commit,
        } = self;
        let Some(commit) = commit else {
            let sequence = memory.sequence();
            let written = WrittenFlush {
                memory,
                disk,
                written: None,
                has_failed: false,
            };
            return (written, Ok(sequence));
        };
        write_commit(memory, disk, commit)
    }
}

// Writes the commit of a flush, and syncs it.
fn write_commit<D: Disk>(
    memory: Arc<StoreInMemory, Global>,
    disk: D,
    commit: Commit,
) -> (WrittenFlush<D>, Result<u64, Fault>)
    requires sound { IsSound D.view (state_on (arc_value memory) disk false) }
    requires commit { IsCommitOf (arc_value memory).settings (arc_value memory).store
        (Some commit) }
    ensures { IsStep D.view D.failed true (state_on (arc_value memory) disk false) Flush result.1
        (λ n. Flushed n) result.0 }
{
    // Only for the proof.
    what_was_flushed_is_what_is_read();
    what_was_upgraded_is_what_is_read();
    a_crash_in_a_flush_leaves_the_store_before_or_after();
    a_crash_in_an_upgrade_leaves_the_store_before_or_after();
    let mut disk = disk;
    let slot = commit.slot();
    let settings = memory.settings();
    match commit.write(&mut disk, &settings) {
        Ok(()) => {
            let written = WrittenFlush {
                memory,
                disk,
                written: Some(slot),
                has_failed: false,
            };
            (written, Ok(slot.ends.sequence))
        }
        Err(failed) => {
            let written = WrittenFlush {
                memory,
                disk,
                written: None,
                has_failed: true,
            };
            (written, Err(failed.into()))
        }
    }
}

impl<D: Disk> WrittenFlush<D> {
    /// Returns the store, if no reader is left. Otherwise returns the written flush, so that the call can be repeated
    /// after the readers were dropped.
    pub fn into_store(self) -> Result<Store<D>, WrittenFlush<D>>
        ensures { MatchResult result (λ store. store ≡ self) (λ flush. flush ≡ self) }
    {
        let WrittenFlush {
            memory,
            disk,
            written,
            has_failed,
        } = self;
        match Arc::try_unwrap(memory) {
            Ok(memory) => Ok(store_on(memory, written, disk, has_failed)),
            Err(memory) => Err(WrittenFlush {
                memory,
                disk,
                written,
                has_failed,
            }),
        }
    }
}
