//! Executes the commands of a leaf that a batch only reads.
ghost use Rattle.std.specs.Prelude.{◌≡◌, slice_get};
ghost use Rattle.std.specs.List.{list_all};
ghost use Rattle.std.specs.Option.{option_to_list};
ghost use Rattle.page_runs.specs.Reads.{is_read_only, is_only_read};
ghost use Rattle.page_runs.specs.Replies.{commands_at};

use crate::ahead::look_at;
use crate::replay::replay_run;
use crew::{Depth, Turn, Work};
use keys::{Command, Pieces};
use mapping::Tree;
use routing::PageRun;
use std::alloc::Global;
use std::marker::Model;

/// The work on leaves that a batch only reads. The input is the places of a leaf's commands; the output is the leaf's
/// answers. The leaf stays in the tree, which all workers read.
#[derive(Drop)]
pub struct ReadWork<'a> {
    /// Allocates the answers.
    pub alloc: Global,
    /// The whole batch.
    pub commands: &'a [Command<Global>],
    /// The tree of the leaves.
    pub tree: &'a Tree<Global>,
}

/// The answers of a leaf, and what is needed to undo the work.
#[derive(Drop)]
pub struct LeafRead {
    page_run: PageRun,
    pieces: Pieces<Global>,
}

impl Model for LeafRead {
    ghost use Rattle.page_runs.specs.Reads.{ReadLeaf};

    ghost Value = { ReadLeaf };

    ghost view = { λ d. record { route = d.page_run; pieces = d.pieces } };
}

impl LeafRead {
    /// Returns the answers. The work can no longer be undone.
    pub fn into_pieces(self) -> Pieces<Global>
        ensures { result ≡ self.pieces }
    {
        let LeafRead { pieces, .. } = self;
        pieces
    }
}

impl<'a> Work for ReadWork<'a> {
    ghost use Rattle.std.specs.Prelude.{List};
    ghost use Rattle.std.specs.declared.alloc.Global.{Global};
    ghost use Rattle.keys.specs.declared.piece.Piece.{Piece};
    ghost use Rattle.routing.specs.Routes.{Route};
    ghost use Rattle.page_runs.specs.Reads.{IsRouteToRead, route_answers};

    type Job = PageRun;

    type Done = LeafRead;

    ghost Held = { Route };

    ghost Made = { List (Piece Global) };

    ghost accepts = { λ w r. IsRouteToRead w.tree.now w.commands.now r };

    ghost held = { λ r. r };

    ghost origin = { λ d. d.route };

    ghost outcome = { λ d. d.pieces };

    ghost made = { λ w r. route_answers w.tree.now w.commands.now r };

    fn work(&self, page_run: PageRun) -> Turn<PageRun, LeafRead> {
        let Some(page) = self.tree.page(page_run.pid()) else {
            unreachable!()
        };
        let Some(leaf) = page.as_leaf() else {
            unreachable!()
        };
        match replay_run(self.alloc, self.commands, leaf.whole(), &page_run) {
            Ok((_no_run, pieces, _bounds)) => Turn::Done(LeafRead { page_run, pieces }),
            Err(_) => Turn::Back(page_run),
        }
    }

    fn look(&self, page_run: &PageRun, depth: Depth) -> u64 {
        let Some(page) = self.tree.page(page_run.pid()) else {
            return 0;
        };
        match page.as_leaf() {
            Some(leaf) => look_at(self.commands, page_run, leaf.whole(), depth),
            None => 0,
        }
    }

    fn undo(&self, done: LeafRead) -> PageRun {
        let LeafRead {
            page_run,
            pieces: _,
        } = done;
        page_run
    }
}

/// Returns whether all commands of this run only read: gets and scans.
pub fn is_only_read(commands: &[Command<Global>], page_run: &PageRun) -> bool
    ensures { result ≡ is_only_read commands.now page_run.now }
{
    are_all_read_only(commands, page_run.places())
}

// Whether all commands at these places only read.
fn are_all_read_only(commands: &[Command<Global>], places: &[usize]) -> bool
    ensures { result ≡ list_all is_read_only (commands_at commands.now places.now) }
{
    for place in places {
        if !is_read_only_at(commands, *place) {
            return false;
        }
    }
    true
}

// Whether the command at this place, if there is one, only reads.
fn is_read_only_at(commands: &[Command<Global>], place: usize) -> bool
    ensures { result ≡ list_all is_read_only (option_to_list (slice_get commands.now place)) }
{
    match commands.get(place) {
        Some(Command::Get(_) | Command::Scan(_, _, _)) => true,
        Some(_) => false,
        None => true,
    }
}
