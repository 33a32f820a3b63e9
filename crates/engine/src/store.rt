//! The store: a tree of pages and its log on a disk.
ghost use Rattle.std.specs.Prelude.{◌≡◌, IfOk, IfErr};
ghost use Rattle.keys.specs.declared.fault.Fault.TheVariants.{NoMemory};
ghost use Rattle.engine.specs.Late.{IsCreatedOn, IsLeftCreating};
ghost use Rattle.engine.specs.OneStep.{IsBatch};
ghost use Rattle.engine.specs.Refusal.{is_crew};
ghost use Rattle.verify.specs.Report.{report};

mod bounds;
mod clean;
mod clean_many;
mod cleaning;
mod compact;
mod copy;
mod creation;
mod durable;
mod flush;
mod numbers;
mod pair_count;
mod play;
mod reads;
mod reopen;
mod room;
mod split_flush;
mod tidy;
mod upgrade;

use crate::execute::execute;
use crate::laws::a_batch_stays_in_step;
use crate::refusal::{admit, admit_crew};
use crate::store::creation::{create_hidden, reveal_store};
pub use crate::store::durable::Unwritten;
use crate::store::pair_count::pairs_after_all;
pub use crate::store::split_flush::{BegunFlush, StoreInMemory, WrittenFlush};
use crew::{Crew, Gate};
use flush_log::{Disk, LogEnds};
use keys::{Command, Fault, Reply, Settings, Version};
use mapping::Tree;
use mapping::laws::nothing_is_found_exactly_in_a_proper_tree;
use std::alloc::Global;
use std::marker::Model;
use std::thread::Threads;
use verify::Report;

/// A store of keys and values: a tree of pages in a mapping table, with a log on a disk. Contracts see it as a `State`.
/// Its invariant holds for every store, whatever the disk does.
///
/// After a call of the disk has failed in a flush, an upgrade, a clean or the `reopen` of a handle, every later batch,
/// flush, upgrade and clean fails with `Fault::Failed`.
///
/// A call that takes a disk or the store itself returns it with the fault, as `Err((fault, disk))`. In a function that
/// returns a `Fault`, `?` takes the fault and drops the disk. In a function with another error, such as `anyhow::Error`,
/// write `.map_err(|e| e.0)?`.
#[derive(Drop)]
pub struct Store<D: Disk> {
    settings: Settings,
    alloc: Global,
    tree: Tree<Global>,
    log: LogEnds,
    version: Version,
    disk: D,
    has_failed: bool,
    // The number of pairs.
    pairs: u128,
}

impl<D: Disk> Model for Store<D> {
    ghost use Rattle.engine.specs.State.{State, state_of, IsCountedStore};

    ghost Value = { State D };

    ghost view = { λ s. state_of s.settings s.tree s.log s.version s.disk s.has_failed };

    ghost invariant = { λ s.
        IsCountedStore D.view s.settings s.tree s.log s.version s.disk s.has_failed s.pairs };
}

impl<D: Disk> Store<D> {
    /// Creates an empty store on a disk: its log has version 1 and one frame, an empty leaf. The old contents of the
    /// disk are lost.
    ///
    /// Fails with the first of these faults that applies: `Fault::BadSettings` with the field that `Settings::check`
    /// reports; `Fault::DiskTooSmall` if the disk has no room for all segments; `Fault::NoMemory`; or `Fault::Device`
    /// if a call of the disk failed. The disk is returned with the fault, unchanged unless the fault is `Device`.
    ///
    /// The first byte of the settings block is written last, after everything else is synced, and is then synced too.
    /// So a crash leaves the old contents of the disk, no store (`Fault::NotAStore`), or the new store.
    pub fn create(alloc: Global, disk: D, settings: Settings) -> Result<Store<D>, (Fault, D)>
        ensures { IsCreatedOn D.view D.failed D.view (λ own. own) (λ bytes. bytes) settings disk
            (IsLeftCreating settings (D.view disk).seen) result }
    {
        match create_hidden(alloc, disk, settings) {
            Ok(hidden) => reveal_store(hidden),
            Err(refused) => Err(refused),
        }
    }

    /// Returns the settings that the store was created with.
    pub fn settings(&self) -> Settings
        ensures { result ≡ self.now.settings }
    {
        self.settings
    }

    pub(crate) fn alloc(&self) -> Global {
        self.alloc
    }

    /// Returns the disk. Bytes that are written to it outside the store are not the store's.
    pub fn disk(&self) -> &D
        ensures { result.now ≡ self.now.disk }
    {
        &self.disk
    }

    /// Executes the commands in the order of their places, and returns the reply to each at its place. The crew's
    /// threads share the work on the pages, and `gate` is called for each piece of that work; neither affects the
    /// result.
    ///
    /// Fails with `Fault::Failed` if the store has failed; then with `Fault::BadCrew` if the crew is out of range; then
    /// with `Fault::BatchTooLong` if there are more than 65,535 commands; then with the fault of the first command
    /// whose key is too long (`Fault::KeyTooLong`) or whose value is too long (`Fault::ValueTooLong`), with its place;
    /// a command's key is checked before its value. Otherwise it may fail with `Fault::NoMemory` if allocation fails,
    /// or with `Fault::Spent` if the tree would have more than 64 levels. After an `Err` the store is unchanged, and
    /// the same batch can be called again.
    ///
    /// Nothing is written to the disk before the next flush or upgrade.
    pub fn batch(
        &mut self,
        rt: &(impl Threads + Sync),
        crew: Crew,
        gate: &impl Gate,
        commands: &[Command<Global>],
    ) -> Result<Vec<Reply<Global>>, Fault>
        ensures { IsBatch D.view (is_crew crew) self.old commands.now result
            (λ replies. replies.items) self.new }
    {
        // Only for the proof.
        a_batch_stays_in_step::<Global>();
        self.pairs_fit(commands);
        if self.has_failed {
            return Err(Fault::Failed);
        }
        admit_crew(crew)?;
        admit(&self.settings, commands)?;
        let replies = execute(
            rt,
            crew,
            gate,
            self.alloc,
            &self.settings,
            &mut self.tree,
            commands,
        )?;
        let _of_64_bits = self.tree.root();
        self.pairs = pairs_after_all(self.pairs, &replies);
        Ok(replies)
    }

    /// Checks every page of the tree. The tree is always proper, so the result is a report: the numbers of pages, of
    /// levels and of pairs. Fails only with `Fault::NoMemory`.
    pub fn verify(&self, rt: &(impl Threads + Sync)) -> Result<Report, Fault>
        ensures ok { IfOk result (λ reported. reported ≡ report self.now.store.tree) }
        ensures err { IfErr result (λ fault. fault ≡ NoMemory) }
    {
        // Only for the proof.
        nothing_is_found_exactly_in_a_proper_tree();
        verify::verify(rt, self.alloc, &self.tree, &self.settings)
    }

    /// Closes the store and returns its disk. Does not flush.
    pub fn close(self) -> D
        ensures { result ≡ self.disk }
    {
        let Store { disk, .. } = self;
        disk
    }
}
