//! A round of work: either each of its jobs is done exactly once, or all jobs are returned unchanged. (PALM: each page
//! is changed by exactly one thread, and no thread waits for another within a round.)
ghost use Rattle.std.specs.Prelude.{◌≡◌, ℕ, List, length, map, IfOk, IfErr};
ghost use Rattle.std.specs.List.{All};
ghost use Rattle.crew.specs.Round.{joined, round, AreHome};
ghost use Rattle.crew.specs.declared.machine.Event.{Event};

use crate::Work;
use crate::drawn::work_drawn;
use crate::entry::Gate;
use crate::in_turn::work_in_turn;
use crate::limits::Crew;
use std::thread::Threads;

// The most pieces on a board. A round with more pieces runs in the caller's thread.
const MOST_PIECES: usize = 1 << 32;

/// Does the jobs, and returns their outputs in order. The jobs are split into pieces of `crew.grain` jobs on a board.
/// The crew's workers, including the caller, claim pieces until none is left; if one worker is enough, the caller works
/// alone and no thread is started. `gate` is called for each piece before its jobs are done. If `Crew::check` would
/// reject the crew, zero workers or a zero grain count as one.
///
/// If an allocation fails, in a job or in the round itself, all work is undone and all jobs are returned unchanged, in
/// order; undoing does not allocate. If the system does not start a thread, the thread that tried to start it does the
/// other's part.
pub fn run_round<R: Threads + Sync, G: Gate, W: Work>(
    rt: &R,
    crew: Crew,
    gate: &G,
    work: &W,
    jobs: Vec<W::Job>,
) -> Result<Vec<W::Done>, Vec<W::Job>>
    requires { All (λ job. W.accepts work.now (W.held job)) jobs.items }
    ensures made { IfOk result
        (λ dones. map W.outcome dones.items ≡ map (W.made work.now) (map W.held jobs.items)) }
    ensures origin { IfOk result (λ dones. map W.origin dones.items ≡ map W.held jobs.items) }
    ensures held { IfErr result (λ again. map W.held again.items ≡ map W.held jobs.items) }
    // Whatever the order of claims, jobs and collections: if all jobs are collected with outputs, these are the outputs
    // returned here.
    ensures round { (pieces : List (List W.Held)) (workers : ℕ)
        (events : List Event) (ds : List W.Made) →
        joined pieces ≡ map W.held jobs.items →
        AreHome (round (W.made work.now) pieces workers events) (length jobs.items) ds →
        IfOk result (λ dones. map W.outcome dones.items ≡ ds) }
{
    work_by_crew(rt, crew, gate, work, jobs)
}

// `run_round` without the clause about the state machine.
fn work_by_crew<R: Threads + Sync, G: Gate, W: Work>(
    rt: &R,
    crew: Crew,
    gate: &G,
    work: &W,
    jobs: Vec<W::Job>,
) -> Result<Vec<W::Done>, Vec<W::Job>>
    requires { All (λ job. W.accepts work.now (W.held job)) jobs.items }
    ensures made { IfOk result
        (λ dones. map W.outcome dones.items ≡ map (W.made work.now) (map W.held jobs.items)) }
    ensures origin { IfOk result (λ dones. map W.origin dones.items ≡ map W.held jobs.items) }
    ensures held { IfErr result (λ again. map W.held again.items ≡ map W.held jobs.items) }
{
    let grain = (crew.grain as usize).max(1);
    let pieces = jobs.len().div_ceil(grain);
    let workers = (crew.workers as usize).min(pieces);
    if workers <= 1 || pieces > MOST_PIECES {
        return work_in_turn(gate, 0, grain, work, jobs);
    }
    work_drawn(rt, gate, workers, grain, work, jobs)
}
