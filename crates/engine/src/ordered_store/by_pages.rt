//! The store of pages implements `OrderedStore`.
use crate::ordered_store::OrderedStore;
use crate::store::Store;
use cleaner::laws::a_clean_keeps_the_store;
use crew::{Crew, NoGate};
use flush_log::Disk;
use keys::{Command, Fault, Reply, Settings};
use mapping::laws::the_first_tree_is_proper_and_empty;
use recovery::laws::{
    a_new_disk_stands_for_the_first_store, what_was_flushed_is_what_is_read,
    what_was_upgraded_is_what_is_read,
};
use std::alloc::Global;
use std::thread::Threads;

impl<D: Disk> OrderedStore<D> for Store<D> {
    ghost use Rattle.mapping.specs.Levels as levels;
    ghost use Rattle.mapping.specs.Tree.{Store};
    ghost use Rattle.climb_plan.specs.Plan.{plan};
    ghost use Rattle.engine.specs.StoreClaim.{recovered_from, created_to, opened_to, flushed_to, cleaned_to, upgraded_to};

    ghost contents = { λ x. levels.contents x.store.tree };

    ghost settings = { λ x. x.settings };

    ghost disk_of = { λ x. x.disk };

    ghost has_failed = { λ x. x.has_failed };

    ghost recovered = { recovered_from };

    ghost State = { Store };

    ghost state = { λ x. x.store };

    ghost after_create = { created_to };

    ghost after_open = { opened_to };

    ghost after_batch = { plan };

    ghost after_flush = { flushed_to };

    ghost after_clean = { cleaned_to };

    ghost after_upgrade = { upgraded_to };

    fn create(alloc: Global, disk: D, chosen: Settings) -> Result<Store<D>, (Fault, D)> {
        // Only for the proof.
        a_new_disk_stands_for_the_first_store();
        the_first_tree_is_proper_and_empty();
        Store::create(alloc, disk, chosen)
    }

    fn open<R: Threads + Sync>(
        rt: &R,
        alloc: Global,
        disk: D,
        crew: Crew,
    ) -> Result<Store<D>, (Fault, D)> {
        Store::open(rt, alloc, disk, crew)
    }

    fn get(&self, key: &[u8]) -> Option<&[u8]> {
        self.get(key)
    }

    fn range(
        &self,
        lo: &[u8],
        hi: Option<&[u8]>,
        limit: u32,
    ) -> Result<Vec<(&[u8], &[u8])>, Fault> {
        self.list_range(lo, hi, limit)
    }

    fn batch<R: Threads + Sync>(
        &mut self,
        rt: &R,
        crew: Crew,
        commands: &[Command<Global>],
    ) -> Result<Vec<Reply<Global>>, Fault> {
        self.batch(rt, crew, &NoGate, commands)
    }

    fn flush<R: Threads + Sync>(&mut self, rt: &R, crew: Crew) -> Result<u64, Fault> {
        // Only for the proof.
        what_was_flushed_is_what_is_read();
        self.flush(rt, crew)
    }

    fn clean<R: Threads + Sync>(&mut self, rt: &R, crew: Crew) -> Result<u64, Fault> {
        // Only for the proof.
        a_clean_keeps_the_store();
        self.clean(rt, crew)
    }

    fn upgrade<R: Threads + Sync>(&mut self, rt: &R, crew: Crew) -> Result<u64, Fault> {
        // Only for the proof.
        what_was_upgraded_is_what_is_read();
        self.upgrade(rt, crew)
    }

    fn close(self) -> D {
        Store::close(self)
    }
}
