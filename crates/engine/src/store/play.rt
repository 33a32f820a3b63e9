//! The play: steps one after the other, up to the first that is refused.
ghost use Rattle.std.specs.Prelude.{◌≡◌, ◌⊎◌, ◌<◌, [], map, length, Ok, IsTrue, IfOk, IfErr, OnOk, true, false};
ghost use Rattle.keys.specs.Bytes.{Bytes};
ghost use Rattle.mapping.specs.Tree as definitions;
ghost use Rattle.recovery.specs.StoreOfDisk.{store_of_disk};
ghost use Rattle.engine.specs.OneStep.{IsStep};
ghost use Rattle.engine.specs.Plays.{IsPlayFault, step_of, answer_of, played};
ghost use Rattle.engine.specs.Refusal.{is_crew};
ghost use Rattle.engine.specs.State.{IsSound};
ghost use Rattle.engine.specs.Steps.{ArePlayed, batching, plays};
ghost use Rattle.engine.specs.Turns.{IsStopped, IsTurn};

use crate::laws::steps_answer_as_a_map_and_are_read_back;
use crate::step::{Answer, Step};
use crate::store::Store;
use crew::{Crew, Gate};
use flush_log::Disk;
use keys::Fault;
use std::alloc::Global;
use std::thread::Threads;

impl<D: Disk> Store<D> {
    // Does a step. It serves a play, and a flush that cleans.
    pub(super) fn step(
        &mut self,
        rt: &(impl Threads + Sync),
        crew: Crew,
        gate: &impl Gate,
        step: Step<'_>,
    ) -> Result<Answer, Fault>
        ensures { IsStep D.view D.failed (is_crew crew) self.old (step_of step.entry) result
            answer_of self.new }
    {
        match step {
            Step::Batch(commands) => Ok(Answer::Replies(self.batch(rt, crew, gate, commands)?)),
            Step::Flush => Ok(Answer::Flushed(self.flush(rt, crew)?)),
            Step::Clean => Ok(Answer::Cleaned(self.clean(rt, crew)?)),
            Step::Upgrade => Ok(Answer::Upgraded(self.upgrade(rt, crew)?)),
        }
    }

    /// Does the steps one after the other, up to the first that is refused, and returns the answer to each at its place. Where one is
    /// refused, the error is its place, with the answers to those before it and the fault, which are those that `batch`, `flush`, `clean`
    /// and `upgrade` give; then the store is as those before it left it, but that it has failed after `Fault::Device`. Where there is no
    /// memory for the list of answers, that is place 0 with `Fault::NoMemory`. No steps are always done, whatever the crew.
    pub fn play(
        &mut self,
        rt: &(impl Threads + Sync),
        crew: Crew,
        gate: &impl Gate,
        steps: &[Step<'_>],
    ) -> Result<Vec<Answer>, (usize, Vec<Answer>, Fault)>
        // All are played, or those before one that is refused, whatever the disk does.
        ensures turn { IfOk result (λ answers. IsTurn D.view D.failed self.old
            (map step_of steps.now) answers.items self.new) }
        ensures place { IfErr result (λ e. e.0 < length steps.now) }
        ensures stopped { IfErr result (λ e. IsStopped D.view D.failed self.old
            steps.now e.0 e.1.items e.2 self.new) }

        // On an honest disk the replies are those of an ordered map, and the disk stands for the store of the last flush.
        ensures headline { self.old.has_failed ≡ false → IsTrue (D.view self.old.disk).is_honest →
            (on_disk : definitions.Store) →
            store_of_disk (D.view self.old.disk).seen ≡ Ok (self.old.settings, on_disk) →
            ArePlayed (batching self.old.settings)
            self.old.settings self.old.store.tree on_disk.tree (played result steps.now)
            (plays (batching self.old.settings) self.old.settings self.old.store
            (D.view self.old.disk).seen (played result steps.now)) }

        // Which fault, and what it leaves.
        ensures failed { self.old.has_failed ≡ true → OnOk result (steps.now ≡ []) }
        ensures still { self.old.has_failed ≡ true → self.new ≡ self.old }
        ensures still_failed { self.old.has_failed ≡ true →
            IfErr result (λ e. (e.0 ≡ 0) × ((e.2 ≡ Fault.Failed) ⊎ (e.2 ≡ Fault.NoMemory))) }
        ensures bad_crew { self.old.has_failed ≡ false → is_crew crew ≡ false →
            OnOk result (steps.now ≡ [])
            × IfErr result (λ e. (e.0 ≡ 0) × ((e.2 ≡ Fault.BadCrew) ⊎ (e.2 ≡ Fault.NoMemory))) }
        ensures refused { self.old.has_failed ≡ false → IsTrue (is_crew crew) →
            IfErr result (λ e. (file : Bytes) ×
            (IsTrue (D.view self.old.disk).is_honest →
            file ≡ (plays (batching self.old.settings) self.old.settings self.old.store
            (D.view self.old.disk).seen (played result steps.now)).bytes)
            × IsPlayFault self.old.settings self.new.store file
            (D.failed self.old.disk) (D.failed self.new.disk) steps.now e.0 e.2) }
        ensures sound { IsSound D.view self.old × IsSound D.view self.new }
    {
        // Only for the proof.
        steps_answer_as_a_map_and_are_read_back::<Global>();
        let mut answers = match Vec::with_capacity(self.alloc, steps.len()) {
            Ok(answers) => answers,
            Err(_) => return Err((0, Vec::new(self.alloc), Fault::NoMemory)),
        };
        for step in steps {
            match self.step(rt, crew, gate, *step) {
                Ok(answer) => answers.push_reserved(answer),
                Err(fault) => return Err((answers.len(), answers, fault)),
            }
        }
        Ok(answers)
    }
}
