//! A batch that only reads: its leaves are read in the tree, and nothing is changed.
ghost use Rattle.std.specs.Prelude.{◌≡◌, ℕ, List, true, length, map, slice_get, IfOk};
ghost use Rattle.std.specs.List.{AllByRecursion, list_all};
ghost use Rattle.std.specs.declared.alloc.Global.{Global};
ghost use Rattle.keys.specs.Lists.{flat};
ghost use Rattle.keys.specs.declared.piece.Piece.{Piece};
ghost use Rattle.page_runs.specs.Reads.{IsRouteToRead, is_read_only, route_answers};
ghost use Rattle.replies.specs.ByPlace.{AreAnswers, pieces_at, reply_at};
ghost use Rattle.routing.specs.Routes.{Route};
ghost use Rattle.engine.specs.GroupReads.{group_at, is_get};

use crate::group_reads::{GROUP, GroupRead, GroupReads};
use crate::leaves::with_answers;
use crew::{Crew, Gate, run_round};
use keys::{Command, Pieces, Reply};
use page_runs::{LeafRead, ReadWork};
use replies::blank_replies;
use routing::PageRun;
use std::alloc::{AllocError, Global};
use std::thread::Threads;

/// Whether all commands only read: gets and scans.
pub(crate) fn are_all_read_only(commands: &[Command<Global>]) -> bool
    ensures { result ≡ list_all is_read_only commands.now }
{
    commands.iter().all(|command| is_read_only(command))
}

// Whether the command only reads.
fn is_read_only(command: &Command<Global>) -> bool
    ensures { result ≡ is_read_only command.now }
{
    match command {
        Command::Get(_) => true,
        Command::Scan(_, _, _) => true,
        _ => false,
    }
}

// Whether all commands are gets.
fn are_all_gets(commands: &[Command<Global>]) -> bool
    ensures { result ≡ list_all is_get commands.now }
{
    commands.iter().all(|command| is_get(command))
}

fn is_get(command: &Command<Global>) -> bool
    ensures { result ≡ is_get command.now }
{
    matches!(command, Command::Get(_))
}

/// Reads these leaves, which stay in the tree, and returns the replies to the commands, each at its command's place.
pub(crate) fn read_replies(
    rt: &(impl Threads + Sync),
    crew: Crew,
    gate: &impl Gate,
    work: &ReadWork<'_>,
    page_runs: Vec<PageRun>,
) -> Result<Vec<Reply<Global>>, AllocError>
    requires routes { AllByRecursion
        (IsRouteToRead work.now.tree.now work.now.commands.now) page_runs.items }
    requires answers { AreAnswers work.now.commands.now
        (flat (map (route_answers work.now.tree.now work.now.commands.now) page_runs.items)) }
    ensures { IfOk result (λ replies. (place : ℕ) → slice_get replies.items place
        ≡ reply_at work.now.commands.now
        (flat (map (route_answers work.now.tree.now work.now.commands.now) page_runs.items))
        place) }
{
    if are_all_gets(work.commands) {
        let reads = read_groups(rt, crew, gate, work, &page_runs)?;
        return replies_of(work.alloc, work.commands, reads);
    }
    let reads = read_leaves(rt, crew, gate, work, page_runs)?;
    replies_of(work.alloc, work.commands, reads)
}

// Reads these leaves in groups, in one round of the crew, whose grain counts leaves.
fn read_groups(
    rt: &(impl Threads + Sync),
    crew: Crew,
    gate: &impl Gate,
    work: &ReadWork<'_>,
    page_runs: &[PageRun],
) -> Result<Vec<GroupRead>, AllocError>
    requires gets { list_all is_get work.now.commands.now ≡ true }
    requires routes { AllByRecursion
        (IsRouteToRead work.now.tree.now work.now.commands.now) page_runs.now }
    ensures { IfOk result (λ reads. (place : ℕ) →
        pieces_at (flat (map (λ d. d.pieces) reads.items)) place ≡ pieces_at
        (flat (map (route_answers work.now.tree.now work.now.commands.now) page_runs.now))
        place) }
{
    let groups = GroupReads {
        alloc: work.alloc,
        commands: work.commands,
        tree: work.tree,
        page_runs,
    };
    let crew = Crew {
        workers: crew.workers,
        grain: (crew.grain / GROUP as u32).max(1),
    };
    let starts = group_starts(work.alloc, page_runs.len())?;
    match run_round(rt, crew, gate, &groups, starts) {
        Ok(reads) => Ok(reads),
        Err(_starts) => Err(AllocError),
    }
}

// The places at which the groups of a list of this length begin.
fn group_starts(alloc: Global, count: usize) -> Result<Vec<usize>, AllocError>
    ensures { IfOk result (λ starts. (routes : List Route) → length routes ≡ count →
        flat (map (group_at routes) starts.items) ≡ routes) }
{
    let mut starts = Vec::with_capacity(alloc, count.div_ceil(GROUP))?;
    let mut start = 0;
    while start < count {
        starts.push(start)?;
        start += GROUP.min(count - start);
    }
    Ok(starts)
}

// Reads these leaves in one round of the crew.
fn read_leaves(
    rt: &(impl Threads + Sync),
    crew: Crew,
    gate: &impl Gate,
    work: &ReadWork<'_>,
    page_runs: Vec<PageRun>,
) -> Result<Vec<LeafRead>, AllocError>
    requires { AllByRecursion
        (IsRouteToRead work.now.tree.now work.now.commands.now) page_runs.items }
    ensures { IfOk result (λ reads. map (λ d. d.pieces) reads.items
        ≡ map (route_answers work.now.tree.now work.now.commands.now) page_runs.items) }
{
    match run_round(rt, crew, gate, work, page_runs) {
        Ok(reads) => Ok(reads),
        Err(_page_runs) => Err(AllocError),
    }
}

/// The answers of one leaf or of several.
trait Answers {
    ghost answers: { Self → List (Piece Global) };

    /// Returns the answers.
    fn into_pieces(self) -> Pieces<Global>
        ensures { result ≡ answers self };
}

impl Answers for LeafRead {
    ghost answers = { λ d. d.pieces };

    fn into_pieces(self) -> Pieces<Global> {
        LeafRead::into_pieces(self)
    }
}

impl Answers for GroupRead {
    ghost answers = { λ d. d.pieces };

    fn into_pieces(self) -> Pieces<Global> {
        GroupRead::into_pieces(self)
    }
}

// The replies to the commands, each at its command's place, from the answers of the leaves in order.
fn replies_of<R: Answers + Drop>(
    alloc: Global,
    commands: &[Command<Global>],
    reads: Vec<R>,
) -> Result<Vec<Reply<Global>>, AllocError>
    requires { AreAnswers commands.now (flat (map R.answers reads.items)) }
    ensures { IfOk result (λ replies. (place : ℕ) →
        slice_get replies.items place
        ≡ reply_at commands.now (flat (map R.answers reads.items)) place) }
{
    let mut replies = blank_replies(alloc, commands);
    for read in reads {
        let pieces = read.into_pieces();
        replies = with_answers(replies, commands, pieces);
    }
    replies
}
