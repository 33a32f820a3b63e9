//! The steps of a session on its store, and its flushes.
ghost use Rattle.std.specs.Prelude.{false, true, ◌≡◌, ◌≢◌, ◌⊎◌, ◌-◌, Some, Ok, Err, IfErr};
ghost use Rattle.mapping.specs.Levels.{contents};
ghost use Rattle.mapping.specs.Tree as mapped;
ghost use Rattle.engine.specs.Plays.{step_of};
ghost use Rattle.engine.specs.Tidied.{IsTidied};
ghost use Rattle.bwsh.specs.declared.options.asked.Mode.{Mode};
ghost use Rattle.bwsh.specs.declared.order.Order.{Order};
ghost use Rattle.bwsh.specs.declared.order.Order.TheVariants as orders;
ghost use Rattle.bwsh.specs.Output.{Writes};
ghost use Rattle.bwsh.specs.Session.{Holds, IsByBatches, IsOnDisk, IsUntouched, OrderRuns, OrderRunsFrom, Stays, head_lines, map_after, step_in};

use crate::context::Context;
use crate::opening::store_fault;
use crate::session::{Result, SessionError};
use crate::show::{NumberLine, print_answers, print_numbers};
use cleaner::laws::a_clean_keeps_the_store;
use climb_plan::laws::the_plan_holds_the_map_after_the_commands;
use engine::{Disk, NoGate, Step, Store};
use keys::Fault;
use std::alloc::Global;
use std::io::Write;
use std::thread::Threads;

// Prints a line for each segment that was cleaned: `head` was the first of them, and `last` is the
// log's first segment after the cleans.
fn print_cleans<O: Write>(head: u64, last: u64, out: &mut O) -> Result<()>
    ensures { Writes (O.contents out.old) (O.contents out.new) (head_lines head (last - head)) result }
{
    for segment in head..last {
        print_numbers(NumberLine::Cleaned(segment + 1), out)?;
    }
    Ok(())
}

impl<'a, R: Threads + Sync> Context<'a, R> {
    /// Runs `step` on the store and writes the answer to `out`. A flush does no cleans.
    pub fn run_step<D: Disk, O: Write>(
        &self,
        store: &mut Store<D>,
        step: Step<'_>,
        out: &mut O,
    ) -> Result<()>
        requires fine { store.old.has_failed ≡ false }
        ensures runs { (mode : Mode) → (order : Order) → step_in order ≡ Some (step_of step.entry) →
            (order ≡ orders.Flush → mode.clean_when_full ≡ false) →
            OrderRuns D.view O.contents mode order store.old out.old result store.new out.new }
        ensures rest { Stays D.view store.old result store.new }
        ensures size { (D.view store.new.disk).size ≡ (D.view store.old.disk).size }
        ensures holds { (order : Order) → step_in order ≡ Some (step_of step.entry) →
            map_after (contents store.old.store.tree) order ≡ contents store.old.store.tree →
            contents store.new.store.tree ≡ contents store.old.store.tree }
        ensures kept { IfErr result (λ early. early ≢ SessionError.Device →
            IsUntouched D.view store.old store.new) }
    {
        // These calls do nothing at run time. Their contracts serve the proof.
        the_plan_holds_the_map_after_the_commands::<Global>();
        a_clean_keeps_the_store();
        match store.play(self.rt, self.crew, &NoGate, &[step]) {
            Ok(answers) => print_answers(self.alloc, &answers, out),
            Err(refused) => Err(store_fault(refused.2)),
        }
    }

    // Tidies the store. It has the same pairs even after a fault. Only a failed allocation is
    // returned, because the flush proceeds after any other fault.
    fn tidy_store<D: Disk>(&self, most: u32, store: &mut Store<D>) -> Result<()>
        requires fine { store.old.has_failed ≡ false }
        ensures tidied { IsTidied store.old.settings store.old.store store.new.store }
        ensures end { (result ≡ Ok tt) ⊎ (result ≡ Err (SessionError.Fault Fault.NoMemory)) }
        ensures rest { IsOnDisk store.old store.new }
    {
        match store.tidy(self.rt, self.crew, most as usize) {
            Err(Fault::NoMemory) => Err(SessionError::Fault(Fault::NoMemory)),
            _ => Ok(()),
        }
    }

    fn tidy_if_asked<D: Disk>(&self, store: &mut Store<D>) -> Result<()>
        requires fine { store.old.has_failed ≡ false }
        ensures tidied { IsByBatches self.now.mode store.old.settings store.old.store
            store.new.store }
        ensures end { (result ≡ Ok tt) ⊎ (result ≡ Err (SessionError.Fault Fault.NoMemory)) }
        ensures rest { IsOnDisk store.old store.new }
    {
        if self.mode.tidy == 0 {
            return Ok(());
        }
        self.tidy_store(self.mode.tidy, store)
    }

    // Flushes the store as `Store::flush_cleaning` does, and prints the lines of the cleans, and
    // then that of the flush.
    fn flush_and_print<D: Disk, O: Write>(&self, store: &mut Store<D>, out: &mut O) -> Result<()>
        requires fine { store.old.has_failed ≡ false }
        ensures runs { (mode : Mode) → mode.clean_when_full ≡ true → (first : mapped.Store) →
            IsByBatches mode store.old.settings first store.old.store →
            OrderRunsFrom D.view O.contents mode first orders.Flush store.old out.old result
            store.new out.new }
        ensures rest { Holds D.view store.old result store.new }
    {
        let head = store.head();
        let done = store.flush_cleaning(self.rt, self.crew);
        print_cleans(head, store.head(), out)?;
        match done {
            Ok(sequence) => print_numbers(NumberLine::Flushed(sequence), out),
            Err(fault) => Err(store_fault(fault)),
        }
    }

    // Flushes the store, which was tidied for that. With `--clean-when-full`, the flush makes room
    // for itself.
    fn flush_tidied<D: Disk, O: Write>(&self, store: &mut Store<D>, out: &mut O) -> Result<()>
        requires fine { store.old.has_failed ≡ false }
        ensures runs { (first : mapped.Store) →
            IsByBatches self.now.mode store.old.settings first store.old.store →
            OrderRunsFrom D.view O.contents self.now.mode first orders.Flush store.old out.old
            result store.new out.new }
        ensures rest { Holds D.view store.old result store.new }
    {
        if self.mode.clean_when_full {
            return self.flush_and_print(store, out);
        }
        self.run_step(store, Step::Flush, out)
    }

    /// Flushes the store. If an allocation fails in tidying, a stream refuses the flush; any other
    /// session flushes, and then ends with the fault.
    pub fn run_flush<D: Disk, O: Write>(&self, store: &mut Store<D>, out: &mut O) -> Result<()>
        requires fine { store.old.has_failed ≡ false }
        ensures runs { OrderRuns D.view O.contents self.now.mode orders.Flush store.old out.old
            result store.new out.new }
        ensures rest { Holds D.view store.old result store.new }
    {
        let tidied = self.tidy_if_asked(store);
        if self.mode.stream && tidied.is_err() {
            return tidied;
        }
        self.flush_tidied(store, out)?;
        tidied
    }
}
