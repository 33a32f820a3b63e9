//! A round shared by several workers: its pieces are on a board, and each worker claims pieces and does their jobs
//! until none is left.
ghost use Rattle.std.specs.Prelude.{◌≡◌, ◌+◌, ◌^◌, ◌<◌, ◌≤◌, [], map, length, reverse, replicate, None, IfOk, IfErr, vec_len, vec_capacity};
ghost use Rattle.std.specs.Int.{div_ceil};
ghost use Rattle.std.specs.List.{All, AllByRecursion, flat_map};
ghost use Rattle.claim_board.specs.Passes.{pieces_of, IsNewPassOf};
ghost use Rattle.crew.specs.Drawn.{AreAccepted, IsHandOf, held_in};
ghost use Rattle.crew.specs.Home.{placed, home_origins, IsMadeHome};

use crate::Work;
use crate::entry::Gate;
use crate::home::{Home, PieceResult, gather, place_all, place_left};
use crate::in_turn::work_in_turn;
use crate::pieces::{cut, put_together};
use claim_board::{Board, Pass};
use std::alloc::{AllocError, Global};
use std::thread;
use std::thread::Threads;

/// The state of a worker: its pass for the board, and the results of the pieces that it claimed.
#[derive(Drop)]
pub(crate) struct WorkerState<J, D> {
    pub(crate) pass: Pass<Vec<J>>,
    pub(crate) worked: Vec<PieceResult<J, D>>,
}

/// Does the jobs in pieces of `grain` jobs, which `workers` workers claim, the caller among them. The result is that of
/// `run_round`.
pub(crate) fn work_drawn<R: Threads + Sync, G: Gate, W: Work>(
    rt: &R,
    gate: &G,
    workers: usize,
    grain: usize,
    work: &W,
    mut jobs: Vec<W::Job>,
) -> Result<Vec<W::Done>, Vec<W::Job>>
    requires workers { (0 < workers) × (workers ≤ 2 ^ 32) }
    requires grain { (0 < grain) × (div_ceil (length jobs.items) grain ≤ 2 ^ 32) }
    requires accepted { All (λ job. W.accepts work.now (W.held job)) jobs.items }
    ensures made { IfOk result
        (λ dones. map W.outcome dones.items ≡ map (W.made work.now) (map W.held jobs.items)) }
    ensures origin { IfOk result (λ dones. map W.origin dones.items ≡ map W.held jobs.items) }
    ensures held { IfErr result (λ again. map W.held again.items ≡ map W.held jobs.items) }
{
    let Ok(dones) = Vec::with_capacity(*jobs.allocator(), jobs.len()) else {
        return Err(jobs);
    };
    let Ok(pieces) = cut(&mut jobs, grain) else {
        return Err(jobs);
    };
    match draw_round(rt, gate, workers, grain, work, pieces) {
        Ok(homes) => gather(work, homes, dones, jobs),
        Err(pieces) => {
            put_together(&mut jobs, pieces);
            Err(jobs)
        }
    }
}

// Does the pieces' jobs, and returns the result of each piece at its place. If allocation fails before the first claim,
// returns the pieces.
fn draw_round<R: Threads + Sync, G: Gate, W: Work>(
    rt: &R,
    gate: &G,
    workers: usize,
    grain: usize,
    work: &W,
    pieces: Vec<Vec<W::Job>>,
) -> Result<Vec<Home<W::Job, W::Done>>, Vec<Vec<W::Job>>>
    requires workers { (0 < workers) × (workers ≤ 2 ^ 32) }
    requires pieces { length pieces.items ≤ 2 ^ 32 }
    requires grain { 0 < grain }
    requires accepted { AreAccepted W.Work work.now pieces.items }
    ensures home { IfOk result
        (λ homes. map (home_origins W.Work) homes.items ≡ map (held_in W.Work) pieces.items) }
    ensures made { IfOk result (λ homes. AllByRecursion (IsMadeHome W.Work work.now) homes.items) }
    ensures back { IfErr result (λ again. again.items ≡ pieces.items) }
{
    let alloc = *pieces.allocator();
    let Ok(mut homes) = no_homes(alloc, pieces.len()) else {
        return Err(pieces);
    };
    let Ok(mut hands) = Vec::with_capacity(alloc, workers) else {
        return Err(pieces);
    };
    let (board, mut passes) = match Board::open(pieces, workers) {
        Ok(opened) => opened,
        Err(pieces) => return Err(pieces),
    };
    deal(alloc, &mut passes, &mut hands);
    draw_all(rt, &board, gate, grain, work, &mut hands);
    bring_home(hands, &mut passes, &mut homes);
    let left = board.close(passes);
    let drawn = homes.len() - left.len();
    place_left(&mut homes, drawn as u64, left);
    Ok(homes)
}

fn no_homes<J: Drop, D: Drop>(alloc: Global, count: usize) -> Result<Vec<Home<J, D>>, AllocError>
    ensures { IfOk result (λ homes. homes.items ≡ replicate count None) }
{
    let mut homes = Vec::with_capacity(alloc, count)?;
    for _ in 0..count {
        homes.push_reserved(None);
    }
    Ok(homes)
}

// Gives each worker its pass. Empties the list of passes, which keeps its capacity.
fn deal<J: Drop, D: Drop>(
    alloc: Global,
    passes: &mut Vec<Pass<Vec<J>>>,
    hands: &mut Vec<WorkerState<J, D>>,
)
    requires room { (hands.old.items ≡ []) × (length passes.old.items ≤ vec_capacity hands.old) }
    ensures passes { map (λ hand. hand.pass) hands.new.items ≡ reverse passes.old.items }
    ensures none { AllByRecursion (λ hand. hand.worked.items ≡ []) hands.new.items }
    ensures emptied { passes.new.items ≡ [] }
    ensures same { vec_capacity passes.new ≡ vec_capacity passes.old }
{
    while let Some(pass) = passes.pop() {
        hands.push_reserved(WorkerState {
            pass,
            worked: Vec::new(alloc),
        });
    }
}

// Runs all workers, the caller as one of them. If the system does not start a worker's thread, the thread that tried to
// start it does that worker's part.
fn draw_all<R: Threads + Sync, G: Gate, W: Work>(
    rt: &R,
    board: &Board<Vec<W::Job>>,
    gate: &G,
    grain: usize,
    work: &W,
    hands: &mut Vec<WorkerState<W::Job, W::Done>>,
)
    requires some { 0 < length hands.old.items }
    requires grain { 0 < grain }
    requires accepted { AreAccepted W.Work work.now (pieces_of board.now) }
    requires hands { AllByRecursion (IsHandOf W.Work work.now board.now) hands.old.items }
    ensures len { length hands.new.items ≡ length hands.old.items }
    ensures hands { AllByRecursion (IsHandOf W.Work work.now board.now) hands.new.items }
{
    let count = hands.len();
    thread::for_each_mut(
        rt,
        hands.as_mut_slice(),
        count,
        &|_: usize, hand: &mut WorkerState<W::Job, W::Done>|
            requires { (0 < grain) × AreAccepted W.Work work.now (pieces_of board.now)
                × IsHandOf W.Work work.now board.now hand.now }
            ensures { IsHandOf W.Work work.entry.now board.entry.now hand.exit.now }
        { draw_and_work(board, gate, grain, work, hand) },
    )
}

// Claims pieces and does their jobs until none is left, or until no result more can be stored; unclaimed pieces stay on
// the board.
fn draw_and_work<G: Gate, W: Work>(
    board: &Board<Vec<W::Job>>,
    gate: &G,
    grain: usize,
    work: &W,
    hand: &mut WorkerState<W::Job, W::Done>,
)
    requires grain { 0 < grain }
    requires accepted { AreAccepted W.Work work.now (pieces_of board.now) }
    requires hand { IsHandOf W.Work work.now board.now hand.old }
    ensures { IsHandOf W.Work work.now board.now hand.new }
{
    for _ in 0..u64::MAX {
        let Ok(()) = hand.worked.reserve(1) else {
            return;
        };
        let Some(found) = board.claim(&mut hand.pass) else {
            return;
        };
        let (number, piece) = found;
        let made = work_in_turn(gate, number, grain, work, piece);
        hand.worked.push_reserved(PieceResult { number, made });
    }
}

// Puts the workers' results at their pieces' places, and their passes into the list, which has room for them.
fn bring_home<J: Drop, D: Drop>(
    hands: Vec<WorkerState<J, D>>,
    passes: &mut Vec<Pass<Vec<J>>>,
    homes: &mut Vec<Home<J, D>>,
)
    requires room { (passes.old.items ≡ []) × (length hands.items ≤ vec_capacity passes.old) }
    ensures passes { passes.new.items ≡ map (λ hand. hand.pass) hands.items }
    ensures homes { homes.new.items
        ≡ placed homes.old.items (flat_map (λ hand. hand.worked.items) hands.items) }
{
    for hand in hands {
        let WorkerState { pass, worked } = hand;
        passes.push_reserved(pass);
        place_all(homes, worked);
    }
}
