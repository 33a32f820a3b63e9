//! The copy: a new store on another disk, under settings of its own, with the same contents.
ghost use Rattle.std.specs.Prelude.{◌≡◌, ◌≢◌, ◌⊎◌, ◌≤◌, ◌++◌, ◌∷◌, [], None, Err, IsTrue, IfOk, IfErr, IsErr, OnOk, MatchOption, take, false};
ghost use Rattle.std.specs.Option.{option_copied};
ghost use Rattle.keys.specs.Bytes.{Bytes, Pairs};
ghost use Rattle.keys.specs.Order.{IsRising};
ghost use Rattle.mapping.specs.Levels.{contents};
ghost use Rattle.mapping.specs.Tree.{most_levels};
ghost use Rattle.mapping.specs.TreeInMemory.{tree_of};
ghost use Rattle.flush_log.specs.Disk.{IsSynced};
ghost use Rattle.flush_log.specs.NewStore.{disk_of_new};
ghost use Rattle.recovery.specs.StoreOfDisk.{store_of_disk};
ghost use Rattle.engine.specs.Copies.{ArePutInto, HoldsSomeStore, IsBegun, IsCopyFault, IsCopyOn, IsFilling, IsFresh, IsLeftCopying, IsLeftFilling, IsNextPut, last_key, most_puts, put_of, puts_of, with_store};
ghost use Rattle.engine.specs.Hidden.{exchanged};
ghost use Rattle.engine.specs.Late.{create_refusal};
ghost use Rattle.engine.specs.Refusal.{is_crew};
ghost use Rattle.engine.specs.SoundTree.{IsReadable};

use crate::hidden_disk::Hidden;
use crate::refusal::admit_crew;
use crate::store::Store;
use crate::store::creation::{create_hidden, reveal_store};
use crew::{Crew, NoGate};
use flush_log::Disk;
use keys::{Command, Fault, Settings};
use mapping::Tree;
use mapping::laws::the_contents_of_a_proper_tree_rise;
use recovery::laws::what_was_flushed_is_what_is_read;
use scan::Rows;
use std::alloc::{AllocError, Global};
use std::thread::Threads;

// How many pairs are put in one batch at most.
const MOST_PUTS: u32 = 4_096;

/// Adds puts of these rows to those that are there, and returns the key of the last row.
pub(crate) fn puts_of<'a>(
    alloc: Global,
    rows: Rows<'a>,
    puts: &mut Vec<Command<Global>>,
) -> Result<Option<&'a [u8]>, AllocError>
    ensures puts { OnOk result (puts.new.items ≡ puts.old.items ++ puts_of rows.entry) }
    ensures last { IfOk result (λ last. option_copied last ≡ last_key None rows.entry) }
{
    let mut last = None;
    for (key, value) in rows {
        push_put(alloc, key, value, puts)?;
        last = Some(key);
    }
    Ok(last)
}

// Adds a put of this pair.
pub(super) fn push_put(
    alloc: Global,
    key: &[u8],
    value: &[u8],
    puts: &mut Vec<Command<Global>>,
) -> Result<(), AllocError>
    ensures { OnOk result (puts.new.items ≡ puts.old.items ++ put_of (key.now, value.now) ∷ []) }
{
    puts.push(Command::put(alloc, key, value)?)?;
    Ok(())
}

// The first rows after this key, or of all where there is none, as many as are put in one batch.
fn rows_after<'a>(alloc: Global, tree: &'a Tree<Global>, last: Option<&'a [u8]>) -> Rows<'a>
    requires readable { IsReadable tree.now }
    requires height { tree.now.height ≤ most_levels }
    requires rising { IsRising (contents (tree_of tree.now)) }
    ensures { (some left : Pairs Bytes) → some ++ left ≡ contents (tree_of tree.now) →
        last_key None some ≡ option_copied last.entry → result ≡ take most_puts left }
{
    match last {
        None => Rows::new(alloc, tree, b"", None, MOST_PUTS),
        Some(key) => {
            let mut rows = Rows::new(alloc, tree, key, None, MOST_PUTS + 1);
            let _itself = rows.next();
            rows
        }
    }
}

impl<D: Disk> Store<D> {
    // Puts the next rows into a store that has those up to this key, and returns the last key that it has now; none, where it has all.
    fn put_next<'a, E: Disk>(
        &'a self,
        rt: &(impl Threads + Sync),
        crew: Crew,
        copy: &mut Store<E>,
        last: Option<&'a [u8]>,
    ) -> Result<Option<&'a [u8]>, Fault>
        requires begun { IsBegun (contents self.now.store.tree) (contents copy.old.store.tree)
            (option_copied last) }
        requires fine { copy.old.has_failed ≡ false }
        requires crew { IsTrue (is_crew crew) }
        ensures { IsNextPut (contents self.now.store.tree) copy.old result copy.new }
    {
        // Only for the proof.
        the_contents_of_a_proper_tree_rise();
        let mut puts = Vec::new(self.alloc);
        let rows = rows_after(self.alloc, &self.tree, last);
        match puts_of(self.alloc, rows, &mut puts)? {
            Some(key) => {
                copy.batch(rt, crew, &NoGate, &puts)?;
                Ok(Some(key))
            }
            None => Ok(None),
        }
    }

    // Puts all pairs into a store that has none.
    fn put_all<E: Disk>(
        &self,
        rt: &(impl Threads + Sync),
        crew: Crew,
        copy: &mut Store<E>,
    ) -> Result<(), Fault>
        requires empty { contents copy.old.store.tree ≡ [] }
        requires fine { copy.old.has_failed ≡ false }
        requires crew { IsTrue (is_crew crew) }
        ensures { ArePutInto (contents self.now.store.tree) copy.old result copy.new }
    {
        let mut last = None;
        'batches: loop {
            match self.put_next(rt, crew, copy, last)? {
                Some(key) => last = Some(key),
                None => return Ok(()),
            }
        }
    }

    // Puts all pairs into the first store of a disk, and flushes it.
    fn fill<E: Disk>(
        &self,
        rt: &(impl Threads + Sync),
        crew: Crew,
        copy: &mut Store<E>,
    ) -> Result<(), Fault>
        requires fresh { IsFresh E.view copy.old }
        requires crew { IsTrue (is_crew crew) }
        ensures filling { IsFilling E.view E.failed copy.old.settings
            (contents self.now.store.tree) copy.old.disk (E.view copy.old.disk).seen
            HoldsSomeStore (with_store result copy.new) }
        ensures settings { copy.new.settings ≡ copy.old.settings }
    {
        // Only for the proof.
        what_was_flushed_is_what_is_read();
        self.put_all(rt, crew, copy)?;
        copy.flush(rt, crew)?;
        Ok(())
    }

    // Fills a fresh store and returns it, or its disk where that is refused.
    fn fill_new<E: Disk>(
        &self,
        rt: &(impl Threads + Sync),
        crew: Crew,
        fresh: Store<E>,
    ) -> Result<Store<E>, (Fault, E)>
        requires fresh { IsFresh E.view fresh }
        requires crew { IsTrue (is_crew crew) }
        ensures { IsFilling E.view E.failed fresh.settings (contents self.now.store.tree)
            fresh.disk (E.view fresh.disk).seen HoldsSomeStore result }
    {
        let mut copy = fresh;
        match self.fill(rt, crew, &mut copy) {
            Ok(()) => Ok(copy),
            Err(fault) => Err((fault, copy.close())),
        }
    }

    // Fills a hidden store and reveals it, or returns the disk below where that is refused.
    fn fill_hidden<E: Disk>(
        &self,
        rt: &(impl Threads + Sync),
        crew: Crew,
        fresh: Store<Hidden<E>>,
    ) -> Result<Store<E>, (Fault, E)>
        requires fresh { IsFresh ⟦<Hidden<E> as Disk>⟧.view fresh }
        requires crew { IsTrue (is_crew crew) }
        ensures { IsFilling E.view E.failed fresh.settings (contents self.now.store.tree)
            fresh.disk.disk (exchanged (E.view fresh.disk.disk).seen)
            (IsLeftFilling fresh.settings (contents self.now.store.tree)) result }
    {
        match self.fill_new(rt, crew, fresh) {
            Ok(copy) => reveal_store(copy),
            Err((fault, hidden)) => {
                let Hidden { disk } = hidden;
                Err((fault, disk))
            }
        }
    }

    /// Makes a store on another disk that holds what this one holds, under settings of its own, and flushes it. So a full log is
    /// replaced by a larger one, the emptied pages of a queue go, `fan` and `chain` are changed, or a backup is made. This store and its
    /// disk stay as they were; one that has failed is copied too. What the other disk held is lost.
    ///
    /// It takes memory for the pages of the new store, for the commands of a batch of 4,096 puts, and for the bytes of the pages, as a flush
    /// does. All is flushed at once: so the new log has each page once. The first byte of the new disk is written last, as in
    /// `Store::create`: so a crash leaves what that disk held, no store (`Fault::NotAStore`), or the whole copy.
    ///
    /// A crew out of range is `Fault::BadCrew`; then come the faults of `Store::create`; then `Fault::KeyTooLong` or `Fault::ValueTooLong`
    /// for a pair that is too long for the new settings, with its place in its batch of 4,096 puts; `Fault::NoMemory`; `Fault::Spent`, where
    /// the tree would have more than 64 levels; `Fault::Full`, where the pairs have no room in the new log; and `Fault::Device`, where a call
    /// of the new disk failed. After an `Err` the other disk is handed back: as it was, or without a store; after
    /// `Fault::Device` it may hold the whole copy, too. In a function that returns a `Fault`, `?` takes the fault and drops the disk. In a
    /// function with another error, such as `anyhow::Error`, write `.map_err(|e| e.0)?`.
    pub fn copy_to<E: Disk>(
        &self,
        rt: &(impl Threads + Sync),
        crew: Crew,
        disk: E,
        settings: Settings,
    ) -> Result<Store<E>, (Fault, E)>
        // The crew is checked before the disk is called; then which fault: that of the settings and of the size, else a later one.
        ensures bad_crew { is_crew crew ≡ false → result ≡ Err (Fault.BadCrew, disk) }
        ensures refused { IsTrue (is_crew crew) →
            MatchOption (create_refusal settings (E.view disk).size)
            (IfErr result (λ e. IsCopyFault settings (contents self.now.store.tree)
            (E.failed disk) (E.failed e.1) e.0))
            (λ fault. IsErr result × IfErr result (λ e. e.0 ≡ fault)) }
        // The disk that is returned with a fault is unchanged, or has no store, unless a call of it failed.
        ensures left { IfErr result (λ e. e.0 ≢ Fault.Device →
            (e.1 ≡ disk) ⊎ (IsTrue (E.view disk).is_honest →
            (store_of_disk (E.view e.1).seen ≡ Err Fault.NotAStore)
            × IsSynced (E.view e.1))) }

        // The copy has the same contents, under the settings. On an honest disk its bytes are a function of the pairs,
        // the settings and the bytes that the disk held. On a synced disk, a crash at any moment leaves the old bytes,
        // no store, or the whole copy.
        ensures copy { IsCopyOn E.view E.failed settings (contents self.now.store.tree) disk
            (disk_of_new settings (E.view disk).seen)
            (IsLeftCopying settings (contents self.now.store.tree) (E.view disk).seen) result }
        ensures is_synced { IsTrue (E.view disk).is_honest →
            IfOk result (λ copy. IsSynced (E.view copy.disk)) }
    {
        if let Err(fault) = admit_crew(crew) {
            return Err((fault, disk));
        }
        match create_hidden(self.alloc, disk, settings) {
            Ok(fresh) => self.fill_hidden(rt, crew, fresh),
            Err(refused) => Err(refused),
        }
    }
}
