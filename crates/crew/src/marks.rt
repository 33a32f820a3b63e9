//! Which jobs of a round are collected after a sequence of events, computed without doing any job.
ghost use Rattle.std.specs.Prelude.{◌≡◌, ℕ, ◌<◌, ◌^◌, length, map, slice_index_or, IfOk};
ghost use Rattle.crew.specs.Round.{joined, round};
ghost use Rattle.crew.specs.Marks.{mark_at};

use crate::machine::{Event, Mark};
use crate::progress::Progress;
use std::alloc::{AllocError, Global};
use std::marker::Model;

/// Which jobs of a round are collected after a sequence of events. Contracts see it as the mark of each job in order,
/// or `None`.
#[derive(Drop)]
pub struct Round {
    marks: Vec<Option<Mark>>,
}

impl Model for Round {
    ghost use Rattle.std.specs.Prelude.{List, Option};
    ghost use Rattle.crew.specs.declared.machine.Mark.{Mark};

    ghost Value = { List (Option Mark) };

    ghost view = { λ r. r.marks.items };
}

impl Round {
    /// Returns the state of a round of these pieces, shared by `workers` workers, after these events. Events that are
    /// not possible, or whose worker does not exist, change nothing. `Err` means that allocation failed, for example
    /// for the list of marks.
    pub fn after<J>(
        alloc: Global,
        pieces: &[Vec<J>],
        workers: usize,
        events: &[Event],
    ) -> Result<Round, AllocError>
        ensures { IfOk result (λ marks. (job : ℕ) →
            slice_index_or marks job None
            ≡ mark_at (round (λ j. j) (map (λ piece. piece.items) pieces.now) workers events.now)
            job) }
    {
        let jobs = count_jobs(pieces)?;
        let mut progress = Progress::begun(alloc, pieces, workers)?;
        for event in events {
            progress.pass(*event)?;
        }
        let marks = progress.marks(alloc, jobs)?;
        Ok(Round { marks })
    }

    /// Returns the mark of the job with this number, counted from 0 through all pieces, or `None` if it is not
    /// collected or there is no such job. Does not allocate.
    pub fn home(&self, job: usize) -> Option<Mark>
        ensures { result ≡ slice_index_or self.now job None }
    {
        self.marks.get(job).copied().flatten()
    }
}

// The number of jobs. If it overflows, there is no room for their marks either.
fn count_jobs<J>(pieces: &[Vec<J>]) -> Result<usize, AllocError>
    ensures { IfOk result (λ jobs. jobs ≡ length (joined (map (λ piece. piece.items) pieces.now))) }
{
    let mut jobs = 0usize;
    for piece in pieces {
        jobs = jobs.checked_add(piece.len()).ok_or(AllocError)?;
    }
    Ok(jobs)
}
