//! The work on the leaves of a batch, in one round: leaves that the batch only reads are read in the tree, and the
//! others, which were checked out, are changed.
ghost use Rattle.std.specs.Prelude.{◌≡◌};
ghost use Rattle.crew.specs.Turn.{IfDone, IfBack};
ghost use Rattle.page_runs.specs.LeafWork.{IsLeafHeld, leaf_held_of, leaf_made};
ghost use Rattle.page_runs.specs.Reads.{IsRouteToRead, route_answers};
ghost use Rattle.engine.specs.Tasks.{task_held, done_held, done_made};
ghost use Rattle.engine.specs.Tasks.TaskHeld.{Reads, Changes};
ghost use Rattle.engine.specs.Tasks.TaskMade.{Answered, Changed};

use crew::{Depth, Turn, Work};
use keys::{Command, Settings};
use mapping::Tree;
use page_runs::{LeafDone, LeafJob, LeafRead, LeafWork, ReadWork};
use routing::PageRun;
use std::alloc::Global;

/// A leaf that commands go to.
#[derive(Drop)]
pub(crate) enum LeafTask {
    /// It is only read, and stays in the tree.
    Read(PageRun),
    /// It may be changed, and was checked out of the tree.
    Change(LeafJob),
}

/// The result of a task: its answers, and what is needed to undo it.
#[derive(Drop)]
pub(crate) enum TaskDone {
    Read(LeafRead),
    Changed(LeafDone),
}

/// The work on the leaves of a batch.
#[derive(Drop)]
pub(crate) struct BatchWork<'a> {
    /// Allocates new runs, bases and answers.
    pub(crate) alloc: Global,
    /// The store's settings.
    pub(crate) settings: Settings,
    /// The whole batch.
    pub(crate) commands: &'a [Command<Global>],
    /// The tree, without the leaves that may be changed. All workers read it.
    pub(crate) tree: &'a Tree<Global>,
}

impl<'a> Work for BatchWork<'a> {
    ghost use Rattle.engine.specs.Tasks.{TaskHeld, TaskMade, MayBeWorked, task_made, task_held, done_held, done_made};

    type Job = LeafTask;

    type Done = TaskDone;

    ghost Held = { TaskHeld };

    ghost Made = { TaskMade };

    ghost accepts = { λ w h. MayBeWorked w.tree.now w.commands.now h };

    ghost held = { task_held };

    ghost origin = { done_held };

    ghost outcome = { done_made };

    ghost made = { λ w h. task_made w.tree.now w.settings w.commands.now h };

    fn work(&self, task: LeafTask) -> Turn<LeafTask, TaskDone> {
        match task {
            LeafTask::Read(page_run) => read(self, page_run),
            LeafTask::Change(job) => change(self, job),
        }
    }

    fn look(&self, task: &LeafTask, depth: Depth) -> u64 {
        match task {
            LeafTask::Read(page_run) => reading(self).look(page_run, depth),
            LeafTask::Change(job) => changing(self).look(job, depth),
        }
    }

    fn undo(&self, done: TaskDone) -> LeafTask {
        match done {
            TaskDone::Read(leaf) => LeafTask::Read(reading(self).undo(leaf)),
            TaskDone::Changed(leaf) => LeafTask::Change(changing(self).undo(leaf)),
        }
    }
}

// The part of the work that only reads.
fn reading<'a>(work: &BatchWork<'a>) -> ReadWork<'a>
    ensures commands { result.commands.now ≡ work.now.commands.now }
    ensures tree { result.tree.now ≡ work.now.tree.now }
{
    ReadWork {
        alloc: work.alloc,
        commands: work.commands,
        tree: work.tree,
    }
}

// The part that changes.
fn changing<'a>(work: &BatchWork<'a>) -> LeafWork<'a>
    ensures settings { result.settings ≡ work.now.settings }
    ensures commands { result.commands.now ≡ work.now.commands.now }
{
    LeafWork {
        alloc: work.alloc,
        settings: work.settings,
        commands: work.commands,
    }
}

// Reads a leaf in the tree.
fn read(work: &BatchWork<'_>, page_run: PageRun) -> Turn<LeafTask, TaskDone>
    requires { IsRouteToRead work.now.tree.now work.now.commands.now page_run }
    ensures origin { IfDone result (λ done. done_held done ≡ Reads page_run) }
    ensures made { IfDone result (λ done. done_made done
        ≡ Answered (route_answers work.now.tree.now work.now.commands.now page_run)) }
    ensures back { IfBack result (λ again. task_held again ≡ Reads page_run) }
{
    let reads = reading(work);
    match reads.work(page_run) {
        Turn::Done(leaf) => Turn::Done(TaskDone::Read(leaf)),
        Turn::Back(page_run) => Turn::Back(LeafTask::Read(page_run)),
    }
}

// Changes a leaf that was checked out of the tree.
fn change(work: &BatchWork<'_>, job: LeafJob) -> Turn<LeafTask, TaskDone>
    requires { IsLeafHeld work.now.commands.now (leaf_held_of job) }
    ensures origin { IfDone result (λ done. done_held done ≡ Changes (leaf_held_of job)) }
    ensures made { IfDone result (λ done. done_made done
        ≡ Changed (leaf_made work.now.settings work.now.commands.now (leaf_held_of job))) }
    ensures back { IfBack result (λ again. task_held again ≡ Changes (leaf_held_of job)) }
{
    let changes = changing(work);
    match changes.work(job) {
        Turn::Done(leaf) => Turn::Done(TaskDone::Changed(leaf)),
        Turn::Back(job) => Turn::Back(LeafTask::Change(job)),
    }
}
