//! The state of a round by the numbers of its jobs. Jobs of one piece that are not done yet have consecutive numbers,
//! so a range represents them, and no event visits all jobs.
ghost use Rattle.std.specs.Prelude.{◌≡◌, ℕ, ◌<◌, ◌^◌, [], slice_index_or, length, map, replicate, IfOk};
ghost use Rattle.crew.specs.Round.{joined, numbered_pieces, begun, after_event};
ghost use Rattle.crew.specs.Marks.{forgotten, jobs_in, hand_by, state_by, event_by, mark_at};

use crate::machine::{Event, Mark};
use std::alloc::{AllocError, Global};
use std::collections::VecDeque;
use std::ops::Range;

/// The state of a worker.
#[derive(Drop)]
pub(crate) struct WorkerState {
    /// The jobs that it still has to do.
    unworked: Range<usize>,
    /// The results of other jobs.
    worked: Vec<(usize, Mark)>,
}

/// The state of a round.
#[derive(Drop)]
pub(crate) struct Progress {
    /// The unclaimed pieces, in order.
    board: VecDeque<Range<usize>>,
    hands: Vec<WorkerState>,
    /// The collected results, in the order in which they were collected.
    home: Vec<(usize, Mark)>,
}

impl Progress {
    /// The initial state: all pieces are on the board, and the workers have no jobs.
    pub(crate) fn begun<J>(
        alloc: Global,
        pieces: &[Vec<J>],
        workers: usize,
    ) -> Result<Progress, AllocError>
        requires { length (joined (map (λ piece. piece.items) pieces.now)) < 2 ^ 64 }
        ensures { IfOk result (λ progress. state_by progress
            ≡ begun (map (λ piece. forgotten piece.items) pieces.now) workers) }
    {
        let board = all_on_board(alloc, pieces)?;
        let hands = empty_hands(alloc, workers)?;
        Ok(Progress {
            board,
            hands,
            home: Vec::new(alloc),
        })
    }

    /// Applies an event. An event that is not possible changes nothing.
    pub(crate) fn pass(&mut self, event: Event) -> Result<(), AllocError>
        ensures { IfOk result
            (λ _. state_by self.new ≡ after_event (λ u. u) (state_by self.old) event) }
    {
        match event {
            Event::Draw(worker) => {
                self.draw(worker);
                Ok(())
            }
            Event::Work(worker) => self.work(worker, Mark::Made),
            Event::Back(worker) => self.work(worker, Mark::Back),
            Event::Home(worker) => self.bring_home(worker),
        }
    }

    fn draw(&mut self, worker: usize)
        ensures { state_by self.new ≡ after_event (λ u. u) (state_by self.old) (Event.Draw worker) }
    {
        if worker < self.hands.len() {
            let hand = &mut self.hands[worker];
            if hand.unworked.is_empty() {
                if let Some(piece) = self.board.pop_front() {
                    hand.unworked = piece;
                }
            }
        }
    }

    fn work(&mut self, worker: usize, mark: Mark) -> Result<(), AllocError>
        ensures { IfOk result (λ _. state_by self.new
            ≡ after_event (λ u. u) (state_by self.old) (event_by mark worker)) }
    {
        if worker < self.hands.len() {
            let hand = &mut self.hands[worker];
            if hand.unworked.start < hand.unworked.end {
                hand.worked.push((hand.unworked.start, mark))?;
                hand.unworked.start += 1;
            }
        }
        Ok(())
    }

    fn bring_home(&mut self, worker: usize) -> Result<(), AllocError>
        ensures { IfOk result (λ _. state_by self.new
            ≡ after_event (λ u. u) (state_by self.old) (Event.Home worker)) }
    {
        if worker < self.hands.len() && self.board.is_empty() {
            let hand = &mut self.hands[worker];
            if hand.unworked.is_empty() {
                self.home.append(&mut hand.worked)?;
            }
        }
        Ok(())
    }

    /// The mark of each of the first `jobs` jobs, or `None` if it is not collected.
    pub(crate) fn marks(&self, alloc: Global, jobs: usize) -> Result<Vec<Option<Mark>>, AllocError>
        ensures count { IfOk result (λ marks. length marks.items ≡ jobs) }
        ensures marks { IfOk result (λ marks. (job : ℕ) → job < jobs →
            slice_index_or marks.items job None ≡ mark_at (state_by self.now) job) }
    {
        let mut marks = vec![in alloc; None; jobs]?;
        for (job, mark) in &self.home {
            if *job < jobs && marks[*job].is_none() {
                marks[*job] = Some(*mark);
            }
        }
        Ok(marks)
    }
}

// The numbers of each piece's jobs, counted through all pieces.
fn all_on_board<J>(alloc: Global, pieces: &[Vec<J>]) -> Result<VecDeque<Range<usize>>, AllocError>
    requires { length (joined (map (λ piece. piece.items) pieces.now)) < 2 ^ 64 }
    ensures { IfOk result (λ board. map jobs_in board.items
        ≡ numbered_pieces 0 (map (λ piece. forgotten piece.items) pieces.now)) }
{
    let mut board = VecDeque::with_capacity(alloc, pieces.len())?;
    let mut first = 0;
    for piece in pieces {
        let end = first + piece.len();
        board.push_back_reserved(first..end);
        first = end;
    }
    Ok(board)
}

fn empty_hands(alloc: Global, workers: usize) -> Result<Vec<WorkerState>, AllocError>
    ensures { IfOk result (λ hands. map hand_by hands.items
        ≡ replicate workers (record { unworked = []; worked = [] })) }
{
    let mut hands = Vec::with_capacity(alloc, workers)?;
    for _ in 0..workers {
        hands.push_reserved(WorkerState {
            unworked: 0..0,
            worked: Vec::new(alloc),
        });
    }
    Ok(hands)
}
