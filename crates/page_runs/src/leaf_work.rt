//! Applies a batch to leaves.
ghost use Rattle.std.specs.Prelude.{◌≡◌, []};
ghost use Rattle.index_page.specs.InMemory.{page_shown, lazy_of};
ghost use Rattle.index_page.specs.InMemory.InMemory.{LeafInMemory};
ghost use Rattle.index_page.specs.Page.{low_of};
ghost use Rattle.index_page.specs.Page.PageOfKind.{Leaf};
ghost use Rattle.page_runs.specs.LeafOutcome.{leaf_before};
ghost use Rattle.page_runs.specs.LeafWork.{IsWorkedLeaf};

use crate::ahead::look_at;
use crate::class::Class;
use crate::leaf_after::{LeafWayBack, put_leaf_run};
use crate::replay::replay_run;
use crew::{Depth, Turn, Work};
use index_page::{Page, PageInMemory};
use keys::{Command, Pid, Pieces, Settings};
use routing::PageRun;
use std::alloc::Global;
use std::marker::Model;

/// The work on leaves in a batch. The input is a leaf and the places of its commands; the output is the leaf
/// afterwards, its class and its answers.
#[derive(Drop)]
pub struct LeafWork<'a> {
    /// Allocates new runs, bases and answers.
    pub alloc: Global,
    /// The store's settings; `fan` and `chain` are read.
    pub settings: Settings,
    /// The whole batch.
    pub commands: &'a [Command<Global>],
}

/// A leaf, and the commands of the batch that are applied to it.
#[derive(Drop)]
pub struct LeafJob {
    pub page: Page<Global>,
    /// The leaf's page id, and the places of its commands in the batch.
    pub page_run: PageRun,
}

/// A leaf after its commands, with its class and answers, and what is needed to undo the commands. Contracts see it as
/// the input and the output of the work.
#[derive(Drop)]
pub struct LeafDone {
    page: Box<PageInMemory<Global>, Global>,
    way_back: LeafWayBack,
    page_run: PageRun,
    pieces: Pieces<Global>,
}

impl Model for LeafDone {
    ghost use Rattle.page_runs.specs.LeafWork.{LeafUpdate, leaf_updated, IsWorkedLeaf};

    ghost Value = { LeafUpdate };

    ghost view = { λ d. leaf_updated d.page.value d.way_back d.page_run d.pieces };

    ghost invariant = { λ d. IsWorkedLeaf d.page.value d.way_back };
}

impl LeafDone {
    /// Returns the leaf's class.
    pub fn class(&self) -> Class
        ensures { result ≡ self.now.made.updated.class }
    {
        self.way_back.class()
    }

    /// Returns whether the leaf was replaced by a base, instead of getting a run in front.
    pub fn is_replaced(&self) -> bool
        ensures { result ≡ self.now.made.updated.replaced }
    {
        self.way_back.is_replaced()
    }

    /// Returns the leaf's representation in memory.
    pub fn page(&self) -> &PageInMemory<Global>
        ensures { page_shown result.now ≡ Leaf self.now.made.updated.placed.page }
    {
        self.page.as_ref()
    }

    /// Returns the leaf's page id.
    pub fn pid(&self) -> Pid
        ensures { result ≡ self.now.made.updated.placed.pid }
    {
        self.page_run.pid()
    }

    /// Takes the answers out and leaves none. The work can still be undone. Does not allocate.
    pub fn take_pieces(&mut self) -> Pieces<Global>
        ensures pieces { result ≡ self.old.made.pieces }
        ensures rest { self.new ≡ record {
          held = self.old.held;
          made = record { updated = self.old.made.updated; pieces = [] };
        } }
    {
        self.pieces.take()
    }

    /// Splits into the leaf and the rest. The work can no longer be undone.
    pub fn into_page_and_rest(self) -> (Page<Global>, LeafRest)
        ensures { result.0 ≡ Leaf self.made.updated.placed.page }
    {
        let LeafDone {
            page,
            way_back,
            page_run,
            pieces,
        } = self;
        let rest = LeafRest {
            way_back,
            page_run,
            pieces,
        };
        (Page::of_memory(page), rest)
    }
}

/// The remains of the work on a leaf after the leaf was taken out: the old leaf, if it was replaced, the places of its
/// commands, and the answers that were not taken. It exists to be dropped, which takes long.
#[derive(Drop)]
pub struct LeafRest {
    way_back: LeafWayBack,
    page_run: PageRun,
    pieces: Pieces<Global>,
}

impl<'a> Work for LeafWork<'a> {
    ghost use Rattle.page_runs.specs.LeafWork.{LeafHeld, LeafMade, IsLeafHeld, leaf_made, leaf_held_of};

    type Job = LeafJob;

    type Done = LeafDone;

    ghost Held = { LeafHeld };

    ghost Made = { LeafMade };

    ghost accepts = { λ w h. IsLeafHeld w.commands.now h };

    ghost held = { leaf_held_of };

    ghost origin = { λ d. d.held };

    ghost outcome = { λ d. d.made };

    ghost made = { λ w h. leaf_made w.settings w.commands.now h };

    fn work(&self, job: LeafJob) -> Turn<LeafJob, LeafDone> {
        let LeafJob { page, page_run } = job;
        let mut page = page.into_memory();
        let Some(leaf) = page.as_leaf() else {
            unreachable!()
        };
        let Ok((run, pieces, bounds)) = replay_run(
            self.alloc,
            self.commands,
            leaf.whole(),
            &page_run,
        ) else {
            return Turn::Back(LeafJob {
                page: Page::of_memory(page),
                page_run,
            });
        };
        // The replies show which entries were added and deleted; the chain alone knows only how many keys its runs
        // contain.
        match put_leaf_run(self.alloc, &self.settings, page.as_mut(), run, bounds) {
            Ok(way_back) => Turn::Done(LeafDone {
                page,
                way_back,
                page_run,
                pieces,
            }),
            Err(_) => Turn::Back(LeafJob {
                page: Page::of_memory(page),
                page_run,
            }),
        }
    }

    fn look(&self, job: &LeafJob, depth: Depth) -> u64 {
        match job.page.as_leaf() {
            Some(leaf) => look_at(self.commands, &job.page_run, leaf.whole(), depth),
            None => 0,
        }
    }

    fn undo(&self, done: LeafDone) -> LeafJob {
        let LeafDone {
            mut page,
            way_back,
            page_run,
            pieces: _,
        } = done;
        undo_run(self.alloc, page.as_mut(), way_back);
        LeafJob {
            page: Page::of_memory(page),
            page_run,
        }
    }
}

// Undoes a run on a leaf in place.
fn undo_run(alloc: Global, page: &mut PageInMemory<Global>, way_back: LeafWayBack)
    requires { IsWorkedLeaf page.old way_back }
    ensures { page.new ≡ LeafInMemory (low_of (page_shown page.old)) (leaf_before (lazy_of page.old) way_back) }
{
    let chain = page.take_leaf(alloc);
    page.put_leaf(way_back.undo(alloc, chain));
}
