//! Does the jobs of a round, or of one piece of it, one after the other in one thread.
ghost use Rattle.std.specs.Prelude.{◌≡◌, ◌+◌, ◌<◌, ◌≤◌, ◌++◌, [], map, length, IfOk, IfErr, vec_capacity};
ghost use Rattle.std.specs.List.{All};

use crate::entry::Gate;
use crate::{Depth, Turn, Work};
use std::alloc::Allocator;

// Of how many jobs the memory is read together.
const AHEAD: usize = 16;

/// Does the jobs one after the other, and returns their outputs in order. If allocation fails, for the list of outputs
/// or in a job, undoes all work and returns all jobs unchanged, in order; undoing does not allocate. Calls the gate for
/// each piece of `grain` jobs; the first piece has the number `first`.
pub(crate) fn work_in_turn<W: Work, G: Gate, A: Allocator + Copy>(
    gate: &G,
    first: u64,
    grain: usize,
    work: &W,
    mut jobs: Vec<W::Job, A>,
) -> Result<Vec<W::Done, A>, Vec<W::Job, A>>
    requires grain { 0 < grain }
    requires accepted { All (λ job. W.accepts work.now (W.held job)) jobs.items }
    ensures made { IfOk result
        (λ dones. map W.outcome dones.items ≡ map (W.made work.now) (map W.held jobs.items)) }
    ensures origin { IfOk result (λ dones. map W.origin dones.items ≡ map W.held jobs.items) }
    ensures held { IfErr result (λ again. map W.held again.items ≡ map W.held jobs.items) }
{
    let Ok(mut dones) = Vec::with_capacity(*jobs.allocator(), jobs.len()) else {
        return Err(jobs);
    };
    // The first job is then at the end, where `pop` takes it.
    jobs.reverse();
    while let Some(job) = jobs.pop() {
        if dones.len() % grain == 0 {
            gate.enter(first.wrapping_add((dones.len() / grain) as u64));
        }
        look_ahead(work, &job, &jobs, &mut dones);
        match work.work(job) {
            Turn::Done(done) => dones.push_reserved(done),
            Turn::Back(job) => {
                jobs.push_reserved(job);
                jobs.reverse();
                return Err(undo_all(work, dones, jobs));
            }
        }
    }
    Ok(dones)
}

// Reads memory of this job and of the jobs that come next, if no earlier call did. Does not change the outputs.
fn look_ahead<W: Work, A: Allocator + Copy>(
    work: &W,
    job: &W::Job,
    jobs: &[W::Job],
    dones: &mut Vec<W::Done, A>,
)
    ensures items { dones.new.items ≡ dones.old.items }
    ensures room { vec_capacity dones.old ≤ vec_capacity dones.new }
{
    // What the condition does has no effect, but the compiler would leave out reads without a result.
    if dones.len() % AHEAD == 0 && look_at(work, job, jobs) == u64::MAX {
        let _fits = dones.reserve(1);
    }
}

// Reads memory of this job and of the jobs that come next, which are at the end of the list.
fn look_at<W: Work>(work: &W, job: &W::Job, jobs: &[W::Job]) -> u64 {
    let next = &jobs[jobs.len().saturating_sub(AHEAD - 1)..];
    let mut sum: u64 = 0;
    for depth in [Depth::Near, Depth::Far] {
        sum = sum.wrapping_add(work.look(job, depth));
        for job in next {
            sum = sum.wrapping_add(work.look(job, depth));
        }
    }
    sum
}

/// Undoes all work, and returns the jobs in order, followed by the given ones. Does not allocate, because the given
/// list has room for all.
pub(crate) fn undo_all<W: Work, A: Allocator>(
    work: &W,
    mut dones: Vec<W::Done, A>,
    mut jobs: Vec<W::Job, A>,
) -> Vec<W::Job, A>
    requires room { length jobs.items + length dones.items ≤ vec_capacity jobs }
    ensures { map W.held result.items ≡ map W.origin dones.items ++ map W.held jobs.items }
{
    jobs.reverse();
    while let Some(done) = dones.pop() {
        jobs.push_reserved(work.undo(done));
    }
    jobs.reverse();
    jobs
}

/// Undoes all work, and appends the jobs to the list in order. Does not allocate, because the list has room for all.
pub(crate) fn undo_made<W: Work>(work: &W, dones: &mut Vec<W::Done>, jobs: &mut Vec<W::Job>)
    requires room { length jobs.old.items + length dones.old.items ≤ vec_capacity jobs.old }
    ensures jobs { map W.held jobs.new.items
        ≡ map W.held jobs.old.items ++ map W.origin dones.old.items }
    ensures none { dones.new.items ≡ [] }
    ensures room { (vec_capacity jobs.new ≡ vec_capacity jobs.old)
        × (vec_capacity dones.new ≡ vec_capacity dones.old) }
{
    dones.reverse();
    while let Some(done) = dones.pop() {
        jobs.push_reserved(work.undo(done));
    }
}
