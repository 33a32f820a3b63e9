//! The leaves of a batch: leaves that may be changed are checked out of the tree, all are processed and their answers
//! collected, and if the batch fails, the ones that were checked out are put back unchanged.
ghost use Rattle.std.specs.Prelude.{◌≡◌, ℕ, ◌+◌, ◌<◌, ◌≤◌, ◌∷◌, ◌++◌, [], Some, None, length, map, slice_get, IfOk, IsOkAnd, OnOk, OnErr, vec_capacity};
ghost use Rattle.std.specs.List.{All};
ghost use Rattle.mapping.specs.Proper.{AreRisingPids};
ghost use Rattle.mapping.specs.Table.{page_of, pids_in_use, place_of, with_place};
ghost use Rattle.replies.specs.ByPlace.{AreAnswers, IsPlaceOf, reply_at, with_pieces};
ghost use Rattle.climb_plan.specs.Installing.{all_taken, all_put, AreAway};
ghost use Rattle.engine.specs.Leaves.{route_pids, written_routes, AreLeavesHome, AreLeafRoutes, IsLeafAt, answers, leaf_held, leaves_made, without_answers};
ghost use Rattle.engine.specs.Tasks.{task_for, task_held, taken_in, taken_of, changed_in, changed_of, pieces_in, pieces_of, under_pids};

use crate::leaf_tasks::{BatchWork, LeafTask, TaskDone};
use crew::{Crew, Gate, Work, run_round};
use keys::{Command, Pieces, Reply};
use mapping::Tree;
use page_runs::{LeafDone, LeafJob, LeafWork, is_only_read};
use replies::{add_answers, blank_replies};
use routing::PageRun;
use std::alloc::{AllocError, Global};
use std::thread::Threads;

/// Applies the commands of a batch to its leaves, in one round of the crew. Leaves that may be changed are checked out
/// of the tree. If allocation fails, the tree is unchanged.
pub(crate) fn work_leaves(
    rt: &(impl Threads + Sync),
    crew: Crew,
    gate: &impl Gate,
    work: &LeafWork<'_>,
    tree: &mut Tree<Global>,
    page_runs: Vec<PageRun>,
) -> Result<Vec<TaskDone>, AllocError>
    requires routes { AreLeafRoutes tree.old.table work.now.commands.now page_runs.items }
    ensures count { IfOk result (λ dones. length dones.items ≡ length page_runs.items) }
    ensures answers { IfOk result (λ dones. pieces_of dones.items ≡
        answers
        (leaves_made work.now.settings work.now.commands.now tree.old.table page_runs.items)) }
    ensures made { IfOk result (λ dones. map (λ d. d.made) (changed_of dones.items) ≡
        leaves_made work.now.settings work.now.commands.now tree.old.table
        (written_routes work.now.commands.now page_runs.items)) }
    ensures held { IfOk result (λ dones. map (λ d. d.held) (changed_of dones.items) ≡
        map (leaf_held tree.old.table) (written_routes work.now.commands.now page_runs.items)) }
    ensures taken { OnOk result (tree.new ≡
        record tree.old {
          table = all_taken tree.old.table
              (route_pids (written_routes work.now.commands.now page_runs.items));
        }) }
    ensures err { AreRisingPids (pids_in_use tree.old.table) → OnErr result (tree.new ≡ tree.old) }
{
    let tasks = take_leaves(work, tree, page_runs)?;
    let round = BatchWork {
        alloc: work.alloc,
        settings: work.settings,
        commands: work.commands,
        tree,
    };
    match run_round(rt, crew, gate, &round, tasks) {
        Ok(dones) => Ok(dones),
        Err(tasks) => {
            put_back(tree, tasks);
            Err(AllocError)
        }
    }
}

// The tasks of the leaves: leaves that may be changed are checked out of the tree.
fn take_leaves(
    work: &LeafWork<'_>,
    tree: &mut Tree<Global>,
    page_runs: Vec<PageRun>,
) -> Result<Vec<LeafTask>, AllocError>
    requires { AreLeavesHome tree.old.table (route_pids page_runs.items) }
    ensures held { IfOk result (λ tasks. map task_held tasks.items ≡
        map (task_for tree.old.table work.now.commands.now) page_runs.items) }
    ensures taken { OnOk result (tree.new ≡
        record tree.old {
          table = all_taken tree.old.table
              (route_pids (written_routes work.now.commands.now page_runs.items));
        }) }
    ensures err { OnErr result (tree.new ≡ tree.old) }
{
    let mut tasks = Vec::with_capacity(work.alloc, page_runs.len())?;
    for page_run in page_runs {
        tasks.push_reserved(task_of(work.commands, tree, page_run));
    }
    Ok(tasks)
}

// The task of the leaf. If the leaf may be changed, it is checked out of the tree.
fn task_of(commands: &[Command<Global>], tree: &mut Tree<Global>, page_run: PageRun) -> LeafTask
    requires { IsLeafAt (page_of tree.old.table page_run.pid) }
    ensures held { task_held result ≡ task_for tree.old.table commands.now page_run }
    ensures taken { tree.new ≡
        record tree.old {
          table = all_taken tree.old.table
              (route_pids (written_routes commands.now (page_run ∷ [])));
        } }
{
    if is_only_read(commands, &page_run) {
        return LeafTask::Read(page_run);
    }
    LeafTask::Change(LeafJob {
        page: tree.take(page_run.pid()),
        page_run,
    })
}

// Puts the leaves of the tasks back into their places.
fn put_back(tree: &mut Tree<Global>, tasks: Vec<LeafTask>)
    requires { AreAway tree.old.table
        (map (λ h. h.route.pid) (taken_of (map task_held tasks.items))) }
    ensures { tree.new ≡ record tree.old {
      table = all_put tree.old.table (under_pids (taken_of (map task_held tasks.items)));
    } }
{
    for task in tasks {
        put_task_back(tree, task);
    }
}

// Puts the leaf of the task, if it has one, back into its place.
fn put_task_back(tree: &mut Tree<Global>, task: LeafTask)
    requires { AreAway tree.old.table (map (λ h. h.route.pid) (taken_in (task_held task))) }
    ensures { tree.new ≡ record tree.old {
      table = all_put tree.old.table (under_pids (taken_in (task_held task)));
    } }
{
    match task {
        LeafTask::Read(_page_run) => {}
        LeafTask::Change(job) => put_leaf_back(tree, job),
    }
}

/// Puts the leaf back into its place.
pub(crate) fn put_leaf_back(tree: &mut Tree<Global>, job: LeafJob)
    requires { place_of tree.old.table job.page_run.pid ≡ Some None }
    ensures { tree.new ≡
        record tree.old { table = with_place tree.old.table job.page_run.pid (Some job.page) } }
{
    let LeafJob { page, page_run } = job;
    tree.put(page_run.pid(), page);
}

/// The replies to the commands, each at its command's place, from the answers of the leaves in order. Leaves that may
/// have been changed are appended to the list, which has room for them, without their answers.
pub(crate) fn take_replies(
    alloc: Global,
    commands: &[Command<Global>],
    dones: Vec<TaskDone>,
    leaves: &mut Vec<LeafDone>,
) -> Result<Vec<Reply<Global>>, AllocError>
    requires answered { AreAnswers commands.now (pieces_of dones.items) }
    requires room { (leaves.old.items ≡ []) × (length dones.items ≤ vec_capacity leaves.old) }
    ensures replies { IfOk result (λ replies. (place : ℕ) →
        slice_get replies.items place ≡ reply_at commands.now (pieces_of dones.items) place) }
    ensures leaves { leaves.new.items ≡ map without_answers (changed_of dones.items) }
{
    let mut replies = blank_replies(alloc, commands);
    for done in dones {
        let pieces = take_answers(done, leaves);
        replies = with_answers(replies, commands, pieces);
    }
    replies
}

// The answers of a leaf, which is appended to the list if it may have been changed.
fn take_answers(done: TaskDone, leaves: &mut Vec<LeafDone>) -> Pieces<Global>
    requires { length leaves.old.items < vec_capacity leaves.old }
    ensures pieces { result ≡ pieces_in done }
    ensures leaves { leaves.new.items ≡ leaves.old.items ++ map without_answers (changed_in done) }
    ensures count { length leaves.new.items ≤ length leaves.old.items + 1 }
    ensures same { vec_capacity leaves.new ≡ vec_capacity leaves.old }
{
    match done {
        TaskDone::Read(leaf) => leaf.into_pieces(),
        TaskDone::Changed(mut leaf) => {
            let pieces = leaf.take_pieces();
            leaves.push_reserved(leaf);
            pieces
        }
    }
}

/// Adds the answers of one more leaf to the replies, unless an error occurred before.
pub(crate) fn with_answers(
    replies: Result<Vec<Reply<Global>>, AllocError>,
    commands: &[Command<Global>],
    pieces: Pieces<Global>,
) -> Result<Vec<Reply<Global>>, AllocError>
    requires count { IfOk replies (λ before. length before.items ≡ length commands.now) }
    requires within { All (IsPlaceOf commands.now) pieces }
    ensures { IfOk result (λ now. IsOkAnd replies
        (λ before. now.items ≡ with_pieces commands.now pieces before.items)) }
{
    let mut replies = replies?;
    add_answers(&mut replies, commands, pieces)?;
    Ok(replies)
}

/// Undoes the changes of the leaves, and puts the original leaves back into their places. Does not allocate.
pub(crate) fn undo_leaves(work: &LeafWork<'_>, tree: &mut Tree<Global>, leaves: Vec<LeafDone>)
    requires { AreAway tree.old.table (map (λ d. d.held.route.pid) leaves.items) }
    ensures { tree.new ≡ record tree.old {
      table = all_put tree.old.table (map (λ d. (d.held.route.pid, d.held.page)) leaves.items);
    } }
{
    for leaf in leaves {
        put_leaf_back(tree, work.undo(leaf));
    }
}
