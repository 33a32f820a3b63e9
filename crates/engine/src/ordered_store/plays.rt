//! Plays: lists of steps that are executed on any store that implements the trait.
ghost use Rattle.std.specs.Prelude.{◌≡◌, ◌<◌, List, [], ◌∷◌, map, take, drop, length, IfOk, IfErr};
ghost use Rattle.engine.specs.ClaimPlay.{IsTurnOf, IsStoppedOf, calls_of, members_of};
ghost use Rattle.engine.specs.Plays.{answer_of, step_of};
ghost use Rattle.engine.specs.declared.step.Step as code_step;

use crate::ordered_store::OrderedStore;
use crate::step::{Answer, Step};
use crew::Crew;
use flush_log::Disk;
use keys::Fault;
use std::alloc::Global;
use std::thread::Threads;

fn do_step<D: Disk, R: Threads + Sync, S: OrderedStore<D>>(
    rt: &R,
    crew: Crew,
    store: &mut S,
    step: Step<'_>,
) -> Result<Answer, Fault>
    ensures done { IfOk result (λ answer. IsTurnOf S.recovered
        (calls_of S.after_batch S.after_flush S.after_clean S.after_upgrade)
        (members_of S.contents S.settings S.has_failed S.state S.disk_of D.view store.old)
        (step_of step.entry ∷ []) (answer_of answer ∷ [])
        (members_of S.contents S.settings S.has_failed S.state S.disk_of D.view store.new)) }
    ensures refused { IfErr result (λ fault. IsStoppedOf S.recovered
        (calls_of S.after_batch S.after_flush S.after_clean S.after_upgrade)
        (members_of S.contents S.settings S.has_failed S.state S.disk_of D.view store.old)
        [] [] (step_of step.entry) fault
        (members_of S.contents S.settings S.has_failed S.state S.disk_of D.view store.new)) }
{
    match step {
        Step::Batch(commands) => Ok(Answer::Replies(store.batch(rt, crew, commands)?)),
        Step::Flush => Ok(Answer::Flushed(store.flush(rt, crew)?)),
        Step::Clean => Ok(Answer::Cleaned(store.clean(rt, crew)?)),
        Step::Upgrade => Ok(Answer::Upgraded(store.upgrade(rt, crew)?)),
    }
}

/// Executes the steps in order, up to the first one that fails, and returns the answer to each.
///
/// If a step fails, the error contains the place of the step, the answers to the steps before it, and the fault that
/// its call returned. The store is then in the state after the steps before it, except that `Device` leaves a failed
/// store. If the list of answers cannot be allocated, the error is place 0 with `Fault::NoMemory`, and no step was
/// executed.
pub fn play<D: Disk, R: Threads + Sync, S: OrderedStore<D>>(
    rt: &R,
    alloc: Global,
    crew: Crew,
    store: &mut S,
    steps: &[Step<'_>],
) -> Result<Vec<Answer>, (usize, Vec<Answer>, Fault)>
    ensures done { IfOk result (λ answers. IsTurnOf S.recovered
        (calls_of S.after_batch S.after_flush S.after_clean S.after_upgrade)
        (members_of S.contents S.settings S.has_failed S.state S.disk_of D.view store.old)
        (map step_of steps.now) (map answer_of answers.items)
        (members_of S.contents S.settings S.has_failed S.state S.disk_of D.view store.new)) }
    ensures place { IfErr result (λ e. e.0 < length steps.now) }
    // The step at this place is the one that failed.
    ensures refused { IfErr result (λ e. (x : code_step.Step) × (rest : List code_step.Step)
        × (drop e.0 steps.now ≡ x ∷ rest) × IsStoppedOf S.recovered
        (calls_of S.after_batch S.after_flush S.after_clean S.after_upgrade)
        (members_of S.contents S.settings S.has_failed S.state S.disk_of D.view store.old)
        (map step_of (take e.0 steps.now)) (map answer_of e.1.items) (step_of x) e.2
        (members_of S.contents S.settings S.has_failed S.state S.disk_of D.view store.new)) }
{
    let mut answers = match Vec::with_capacity(alloc, steps.len()) {
        Ok(answers) => answers,
        Err(_) => return Err((0, Vec::new(alloc), Fault::NoMemory)),
    };
    for next in steps {
        match do_step::<D, R, S>(rt, crew, store, *next) {
            Ok(answer) => answers.push_reserved(answer),
            Err(fault) => return Err((answers.len(), answers, fault)),
        }
    }
    Ok(answers)
}
