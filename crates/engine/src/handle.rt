//! A store with the arguments of its calls.
ghost use Rattle.std.specs.Prelude.{◌≡◌, ◌-◌, [], true, false, not, is_some, if◌then◌else◌, length, drop, reverse, slice_get, Err, IfOk, IfErr, MatchOption, OnOk, OnErr};
ghost use Rattle.std.specs.Option.{option_copied, option_map};
ghost use Rattle.keys.specs.OrderedMap.{value_at, with_pair, without};
ghost use Rattle.keys.specs.Range.{in_range, out_of_range};
ghost use Rattle.keys.specs.declared.command.Command.TheVariants.{Put, Add, Del, Wipe};
ghost use Rattle.keys.specs.declared.command.Reply.TheVariants.{New, Replaced, Added, Exists, Deleted, Missing, Wiped};
ghost use Rattle.mapping.specs.Levels.{contents};
ghost use Rattle.scan.specs.Prefix.{with_prefix};
ghost use Rattle.engine.specs.Bounds.{pairs_within};
ghost use Rattle.engine.specs.Cleaning.{IsFlushedCleaning, IsStart, IsStoppedCleaning};
ghost use Rattle.engine.specs.Compacted.{IsCompactFault, IsCompacted};
ghost use Rattle.engine.specs.Handle.{IsCall, IsMade};
ghost use Rattle.engine.specs.OneStep.{IsBatch};
ghost use Rattle.engine.specs.Opened.{IsReopened};
ghost use Rattle.engine.specs.Refusal.{is_crew};
ghost use Rattle.engine.specs.State.{IsOnlyInMemory, State};
ghost use Rattle.engine.specs.Tidied.{IsTidied, IsTidyFault, counted_pages};

mod batch;
mod durable;

pub use crate::handle::batch::{Batch, Replies, Token};
use crate::handle::batch::{is_new, was_deleted, wipe_command, wiped_count};
use crate::refusal::admit_crew;
use crate::store::Store;
use crew::{Crew, NoGate};
use flush_log::Disk;
use keys::{Command, Fault, Key, Reply, Value};
use scan::Range;
use std::alloc::{AllocError, Global};
use std::marker::Model;
use std::ops::RangeBounds;
use std::thread::Threads;

/// A store together with the runtime and the crew for its calls: an ordered map of byte strings, with one call for each
/// operation. `Store::with` makes it.
///
/// Reads return references into the store's pages. They do not allocate, and also work in a store that has failed.
/// Writes change the map in memory. Only `flush` and `execute_durable` make writes durable, and all earlier writes with
/// them; dropping a handle does not flush.
///
/// After an `Err` of any call but `execute_durable` the map in memory is unchanged; `Unwritten` says what
/// `execute_durable` leaves. The writes `put`, `add`, `del`, `wipe`, `pop_first` and `execute` fail with:
///
/// - `Fault::NoMemory` if an allocation fails;
/// - `Fault::Failed` if a call of the disk failed in an earlier flush, clean, upgrade or `reopen`;
/// - `Fault::KeyTooLong` or `Fault::ValueTooLong` if a key, a bound or a value is longer than the settings allow, with
///   the place of the command in the batch, which is 0 for a call that takes one command;
/// - `Fault::Spent` if the tree would have more than 64 levels.
///
/// Contracts see a handle as the `State` of its store.
#[derive(Drop)]
pub struct Handle<'r, R, D: Disk> {
    rt: &'r R,
    crew: Crew,
    store: Store<D>,
}

impl<'r, R, D: Disk> Model for Handle<'r, R, D> {
    ghost use Rattle.engine.specs.Handle.{IsHandle};
    ghost use Rattle.engine.specs.State.{State};

    ghost Value = { State D };

    ghost view = { λ h. h.store };

    ghost invariant = { λ h. IsHandle h.crew };
}

impl<D: Disk> Store<D> {
    /// Returns a handle of this store, whose calls use this runtime and this crew. For batches of a few commands the
    /// default crew, which is the calling thread alone, is fastest.
    ///
    /// Fails only with `Fault::BadCrew`, if the crew is out of range. The store is returned with the fault. In a
    /// function that returns a `Fault`, `?` takes the fault and drops the store. In a function with another error, such
    /// as `anyhow::Error`, write `.map_err(|e| e.0)?`.
    pub fn with<R: Threads + Sync>(
        self,
        rt: &R,
        crew: Crew,
    ) -> Result<Handle<'_, R, D>, (Fault, Store<D>)>
        ensures { IsMade (is_crew crew) self result }
    {
        Handle::new(rt, crew, self)
    }
}

impl<'r, R: Threads + Sync, D: Disk> Handle<'r, R, D> {
    /// Does what `Store::with` does.
    pub fn new(rt: &'r R, crew: Crew, store: Store<D>) -> Result<Self, (Fault, Store<D>)>
        ensures { IsMade (is_crew crew) store result }
    {
        if let Err(fault) = admit_crew(crew) {
            return Err((fault, store));
        }
        Ok(Handle { rt, crew, store })
    }

    /// Sets the value at the key, and returns whether the key was absent.
    pub fn put(&mut self, key: &[u8], value: &[u8]) -> Result<bool, Fault>
        ensures answer { IfOk result (λ was_absent. was_absent
            ≡ not (is_some (value_at key.now (contents self.old.store.tree)))) }
        ensures contents { OnOk result (contents self.new.store.tree
            ≡ with_pair (contents self.old.store.tree) key.now value.now) }
        ensures unchanged { OnErr result (self.new ≡ self.old) }
        ensures call { IsCall D.view self.old (Put key.now value.now) result
            (λ was_absent. if was_absent then New else Replaced) self.new }
    {
        let command = Command::put(self.alloc(), key, value)?;
        let reply = self.execute_one(command)?;
        Ok(is_new(&reply))
    }

    /// Sets the value at the key if the key is absent, and returns whether it was.
    pub fn add(&mut self, key: &[u8], value: &[u8]) -> Result<bool, Fault>
        ensures answer { IfOk result (λ was_absent. was_absent
            ≡ not (is_some (value_at key.now (contents self.old.store.tree)))) }
        ensures contents { IfOk result (λ was_absent. contents self.new.store.tree
            ≡ (if was_absent then with_pair (contents self.old.store.tree) key.now value.now
            else contents self.old.store.tree)) }
        ensures unchanged { OnErr result (self.new ≡ self.old) }
        ensures call { IsCall D.view self.old (Add key.now value.now) result
            (λ was_absent. if was_absent then Added else Exists) self.new }
    {
        let command = Command::add(self.alloc(), key, value)?;
        let reply = self.execute_one(command)?;
        Ok(is_new(&reply))
    }

    /// Deletes the key, and returns whether it was present.
    pub fn del(&mut self, key: &[u8]) -> Result<bool, Fault>
        ensures answer { IfOk result (λ was_present. was_present
            ≡ is_some (value_at key.now (contents self.old.store.tree))) }
        ensures contents { OnOk result (contents self.new.store.tree
            ≡ without (contents self.old.store.tree) key.now) }
        ensures unchanged { OnErr result (self.new ≡ self.old) }
        ensures call { IsCall D.view self.old (Del key.now) result
            (λ was_present. if was_present then Deleted else Missing) self.new }
    {
        let command = Command::del(self.alloc(), key)?;
        let reply = self.execute_one(command)?;
        Ok(was_deleted(&reply))
    }

    /// Deletes all keys at or above `lo` and below `hi` (if given), and returns how many there were.
    pub fn wipe(&mut self, lo: &[u8], hi: Option<&[u8]>) -> Result<u128, Fault>
        ensures answer { IfOk result (λ count. count
            ≡ length (in_range lo.now (option_copied hi.entry) (contents self.old.store.tree))) }
        ensures contents { OnOk result (contents self.new.store.tree
            ≡ out_of_range lo.now (option_copied hi.entry) (contents self.old.store.tree)) }
        ensures unchanged { OnErr result (self.new ≡ self.old) }
        ensures call { IsCall D.view self.old (Wipe lo.now (option_copied hi.entry)) result
            (λ count. Wiped count) self.new }
    {
        let command = wipe_command(self.alloc(), lo, hi)?;
        let reply = self.execute_one(command)?;
        Ok(wiped_count(&reply))
    }

    /// Deletes the pair with the least key and returns it, or returns `None` if the map is empty. `as_bytes` gives the
    /// bytes of both.
    pub fn pop_first(&mut self) -> Result<Option<(Key<Global>, Value<Global>)>, Fault>
        ensures answer { IfOk result
            (λ popped. popped ≡ slice_get (contents self.old.store.tree) 0) }
        ensures contents { OnOk result
            (contents self.new.store.tree ≡ drop 1 (contents self.old.store.tree)) }
        ensures unchanged { OnErr result (self.new ≡ self.old) }
        ensures call { MatchOption (slice_get (contents self.old.store.tree) 0)
            (self.new ≡ self.old)
            (λ pair. IsCall D.view self.old (Del pair.0) result (λ _. Deleted) self.new) }
    {
        let Some((key, value)) = self.copied_first()? else {
            return Ok(None);
        };
        self.del(key.as_bytes())?;
        Ok(Some((key, value)))
    }

    /// Executes the commands of the batch in order, all or none, and returns the replies, which are found by the tokens
    /// of the batch. A batch of more than 65,535 commands fails with `Fault::BatchTooLong`. Even a batch that only reads
    /// needs `&mut self`, because the type of a batch does not say whether it writes; `get`, `range` and the other reads
    /// take `&self`.
    pub fn execute(&mut self, batch: &Batch) -> Result<Replies, Fault>
        ensures { IsBatch D.view true self.old batch.now result (λ replies. replies) self.new }
    {
        let replies = self.execute_all(batch.commands())?;
        Ok(Replies::new(replies))
    }

    /// Makes all earlier writes durable, and returns the sequence number. Calls `Store::flush_cleaning`, which cleans
    /// the log if it is tight or full, and has the same faults. A flush syncs the disk up to three times, so flush once
    /// after many writes.
    ///
    /// After an `Err` the map in memory is unchanged. After `Fault::Full` the log is too small for the store: copy the
    /// store to a larger disk. After `Fault::Device` the store has failed: reads still work, and `reopen` then gives the
    /// map of the last flush that succeeded, or of this one. If the disk is a `FileDisk`, `store().disk().last_error()`
    /// returns the system's reason.
    pub fn flush(&mut self) -> Result<u64, Fault>
        ensures number { IfOk result (λ n. n ≡ self.new.store.sequence) }
        ensures flushed { IfOk result (λ _. (start : State D) × IsStart self.old start
            × IsFlushedCleaning D.view D.failed start self.new) }

        // Which fault, and what it leaves.
        ensures failed { self.old.has_failed ≡ true →
            (result ≡ Err Fault.Failed) × (self.new ≡ self.old) }
        ensures refused { self.old.has_failed ≡ false →
            IfErr result (λ fault. (start : State D) × IsStart self.old start
            × IsStoppedCleaning D.view D.failed start self.new fault) }

        // Whatever it returns.
        ensures contents { contents self.new.store.tree ≡ contents self.old.store.tree }
    {
        self.store.flush_cleaning(self.rt, self.crew)
    }

    /// Merges up to `most` leaves that deletes have left with few pairs, and returns by how many pages the store has
    /// shrunk. The map is unchanged, and nothing is written before the next flush. Does what `Store::tidy` does, with
    /// the same costs and the same faults, except for `Fault::BadCrew`.
    pub fn tidy(&mut self, most: usize) -> Result<u64, Fault>
        ensures contents { contents self.new.store.tree ≡ contents self.old.store.tree }
        ensures tidied { IsTidied self.old.settings self.old.store self.new.store }
        ensures pages { IfOk result (λ count.
            count ≡ counted_pages self.old.store.tree - counted_pages self.new.store.tree) }
        ensures rest { IsOnlyInMemory self.old self.new }
        ensures failed { self.old.has_failed ≡ true →
            (result ≡ Err Fault.Failed) × (self.new ≡ self.old) }
        ensures refused { self.old.has_failed ≡ false →
            IfErr result (IsTidyFault self.old.settings) }
    {
        self.store.tidy(self.rt, self.crew, most)
    }

    /// Rebuilds the store's pages from its pairs, with as few leaves as they need, and returns by how many pages the
    /// store has shrunk, or 0 if it has grown. The map is unchanged, and nothing is written before the next flush, which
    /// writes every page: flush before this call, because that flush may fail with `Fault::Full`. Does what
    /// `Store::compact` does, with the same costs and the same faults, except for `Fault::BadCrew`.
    pub fn compact(&mut self) -> Result<u64, Fault>
        ensures contents { contents self.new.store.tree ≡ contents self.old.store.tree }
        ensures compacted { OnOk result
            (IsCompacted self.old.settings self.old.store self.new.store) }
        ensures pages { IfOk result (λ count.
            count ≡ counted_pages self.old.store.tree - counted_pages self.new.store.tree) }
        ensures rest { IsOnlyInMemory self.old self.new }
        ensures unchanged { OnErr result (self.new ≡ self.old) }
        ensures failed { self.old.has_failed ≡ true →
            (result ≡ Err Fault.Failed) × (self.new ≡ self.old) }
        ensures refused { self.old.has_failed ≡ false →
            IfErr result (IsCompactFault self.old.settings self.old.store.tree) }
    {
        self.store.compact(self.rt, self.crew)
    }

    /// Replaces the map in memory by the one on the disk, as `Store::reopen` does: the map of the last flush or upgrade
    /// that succeeded, or, if one failed with `Fault::Device`, possibly the map that it was writing. Writes that were
    /// not flushed are lost. Use it to continue with a store that has failed, or to drop writes that were not flushed.
    /// The pages in memory are freed after those on the disk were read, so for a time both are in memory.
    ///
    /// Fails like `Store::open`, except for `Fault::BadCrew`: with `Fault::Device` if a call of the disk fails, with
    /// `Fault::NoMemory`, or with the fault of a disk that has no store or a damaged one. After an `Err` the map in
    /// memory is unchanged, and after `Fault::Device` the store has failed. So this call can be tried again.
    pub fn reopen(&mut self) -> Result<(), Fault>
        ensures { IsReopened D.view D.failed self.old result self.new }
    {
        self.store.reopen_in_place(self.rt, self.crew)
    }

    fn execute_one(&mut self, command: Command<Global>) -> Result<Reply<Global>, Fault>
        ensures { IsCall D.view self.old command result (λ reply. reply) self.new }
    {
        let commands = vec![in self.alloc(); command]?;
        let mut replies = self.execute_all(&commands)?;
        match replies.pop() {
            Some(reply) => Ok(reply),
            None => unreachable!(),
        }
    }

    fn execute_all(&mut self, commands: &[Command<Global>]) -> Result<Vec<Reply<Global>>, Fault>
        ensures { IsBatch D.view true self.old commands.now result (λ replies. replies.items)
            self.new }
    {
        self.store.batch(self.rt, self.crew, &NoGate, commands)
    }
}

impl<'r, R, D: Disk> Handle<'r, R, D> {
    /// Returns the store.
    pub fn store(&self) -> &Store<D>
        ensures { result.now ≡ self.now }
    {
        &self.store
    }

    /// Drops the handle and returns its store. Does not flush.
    pub fn into_store(self) -> Store<D>
        ensures { result ≡ self.entry }
    {
        let Handle { store, .. } = self;
        store
    }

    /// Returns an empty batch. Does not allocate.
    pub fn new_batch(&self) -> Batch
        ensures { result ≡ [] }
    {
        Batch::new(self.alloc())
    }

    /// Returns the value at the key, if there is one, borrowed from its page. A key that is longer than the settings
    /// allow is absent.
    pub fn get(&self, key: &[u8]) -> Option<&[u8]>
        ensures { option_copied result ≡ value_at key.now (contents self.now.store.tree) }
    {
        self.store.get(key)
    }

    /// Returns whether the map has this key.
    pub fn contains_key(&self, key: &[u8]) -> bool
        ensures { result ≡ is_some (value_at key.now (contents self.now.store.tree)) }
    {
        self.store.get(key).is_some()
    }

    /// Returns the number of pairs, in constant time.
    pub fn len(&self) -> u128
        ensures { result ≡ length (contents self.now.store.tree) }
    {
        self.store.len()
    }

    /// Returns whether there are no pairs, in constant time.
    pub fn is_empty(&self) -> bool
        ensures yes { result ≡ true → contents self.now.store.tree ≡ [] }
        ensures no { contents self.now.store.tree ≡ [] → result ≡ true }
    {
        self.store.is_empty()
    }

    /// Returns the pair with the least key.
    pub fn first(&self) -> Option<(&[u8], &[u8])>
        ensures { option_map (λ pair. (pair.0.now, pair.1.now)) result
            ≡ slice_get (contents self.now.store.tree) 0 }
    {
        self.range(..).next()
    }

    /// Returns the pair with the greatest key.
    pub fn last(&self) -> Option<(&[u8], &[u8])>
        ensures { option_map (λ pair. (pair.0.now, pair.1.now)) result
            ≡ slice_get (reverse (contents self.now.store.tree)) 0 }
    {
        self.range(..).next_back()
    }

    /// Returns the pairs whose keys lie in the range, in key order. The range is `..` or has bounds of type `&[u8]`:
    /// `lo..`, `..hi`, `lo..hi`, `..=hi`, `lo..=hi` or a pair of `Bound`s. The bounds may have any length, and are not
    /// borrowed by the result. A range whose lower bound is above its upper bound has no pairs.
    ///
    /// The result iterates from both ends. `.rev()` returns the pairs from the greatest key down, and `.take(n)` the
    /// first `n`.
    pub fn range<'k, B: RangeBounds<&'k [u8]>>(&self, bounds: B) -> Range<'_>
        ensures { B.has_bounds bounds → result ≡ pairs_within (B.start_bound bounds)
            (B.end_bound bounds) (contents self.now.store.tree) }
    {
        self.store.pairs_in(bounds)
    }

    /// Returns the pairs whose keys begin with these bytes, in key order: all pairs if there are no bytes. The result
    /// iterates from both ends, as that of `range`.
    pub fn prefix(&self, bytes: &[u8]) -> Range<'_>
        ensures { result ≡ with_prefix bytes.now (contents self.now.store.tree) }
    {
        self.store.pairs_with_prefix(bytes)
    }

    /// Returns how many pairs have keys in the range, whose forms are those of `range`. Walks over these pairs and
    /// copies nothing.
    pub fn count<'k, B: RangeBounds<&'k [u8]>>(&self, bounds: B) -> u128
        ensures { B.has_bounds bounds → result ≡ length (pairs_within (B.start_bound bounds)
            (B.end_bound bounds) (contents self.now.store.tree)) }
    {
        self.store.count(bounds)
    }

    fn alloc(&self) -> Global {
        self.store.alloc()
    }

    // Returns a copy of the pair with the least key.
    fn copied_first(&self) -> Result<Option<(Key<Global>, Value<Global>)>, AllocError>
        ensures { IfOk result (λ pair. pair ≡ slice_get (contents self.now.store.tree) 0) }
    {
        match self.first() {
            Some((key, value)) => {
                let key = Key::from_bytes(self.alloc(), key)?;
                let value = Value::from_bytes(self.alloc(), value)?;
                Ok(Some((key, value)))
            }
            None => Ok(None),
        }
    }
}
