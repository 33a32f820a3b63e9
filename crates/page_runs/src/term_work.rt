//! Applies the runs of terms to index pages.
ghost use Rattle.std.specs.Prelude.{◌≡◌};
ghost use Rattle.index_page.specs.Page.PageOfKind.{Index};

use crate::class::Class;
use crate::page_after::{WayBack, put_run};
use crew::{Turn, Work};
use delta_chain::Run;
use index_page::{ChildList, Page};
use keys::{Pid, Settings};
use std::alloc::Global;
use std::marker::Model;

/// The work on index pages in a batch. The input is an index page and the run of its terms, which describes the new and
/// the deleted children; the output is the page afterwards and its class.
#[derive(Drop)]
pub struct TermWork {
    /// Allocates new runs and bases.
    pub alloc: Global,
    /// The store's settings; `fan` and `chain` are read.
    pub settings: Settings,
}

/// An index page, and the run of its terms.
#[derive(Drop)]
pub struct TermJob {
    pub page: Page<Global>,
    /// The page's own id.
    pub pid: Pid,
    /// The low keys of new children, with their page ids, and those of deleted children.
    pub terms: Run<Pid, Global>,
}

/// An index page after its terms, with its class, and what is needed to undo the work. Contracts see it as the input
/// and the output of the work.
#[derive(Drop)]
pub struct TermDone {
    page: Page<Global>,
    way_back: WayBack<Pid>,
    // The list of the children before the terms.
    list_before: ChildList<Global>,
    pid: Pid,
}

impl Model for TermDone {
    ghost use Rattle.page_runs.specs.TermWork.{IndexUpdate, index_updated, IsWorkedIndex};

    ghost Value = { IndexUpdate };

    ghost view = { λ d. index_updated d.page d.way_back d.pid };

    ghost invariant = { λ d. IsWorkedIndex d.page d.way_back d.list_before };
}

impl TermDone {
    /// Returns the page's class.
    pub fn class(&self) -> Class
        ensures { result ≡ self.now.made.class }
    {
        self.way_back.class()
    }

    /// Returns whether the page was replaced by a base, instead of getting a run in front.
    pub fn is_replaced(&self) -> bool
        ensures { result ≡ self.now.made.replaced }
    {
        self.way_back.is_replaced()
    }

    /// Returns the page.
    pub fn page(&self) -> &Page<Global>
        ensures { result.now ≡ Index self.now.made.placed.page }
    {
        &self.page
    }

    /// Returns the page's own id.
    pub fn pid(&self) -> Pid
        ensures { result ≡ self.now.made.placed.pid }
    {
        self.pid
    }

    /// Returns the page. The work can no longer be undone.
    pub fn into_page(self) -> Page<Global>
        ensures { result ≡ Index self.made.placed.page }
    {
        let TermDone { page, .. } = self;
        page
    }
}

impl Work for TermWork {
    ghost use Rattle.index_page.specs.Page.{IsIndex};
    ghost use Rattle.page_runs.specs.TermWork.{TermHeld, index_made, term_held_of};
    ghost use Rattle.page_runs.specs.Updated.{Updated};
    ghost use Rattle.std.specs.Prelude.{ℕ};

    type Job = TermJob;

    type Done = TermDone;

    ghost Held = { TermHeld };

    ghost Made = { Updated ℕ };

    ghost accepts = { λ w h. IsIndex h.page };

    ghost held = { term_held_of };

    ghost origin = { λ d. d.held };

    ghost outcome = { λ d. d.made };

    ghost made = { λ w h. index_made w.settings h };

    fn work(&self, job: TermJob) -> Turn<TermJob, TermDone> {
        let TermJob {
            mut page,
            pid,
            terms,
        } = job;
        let (chain, list_before) = page.take_index(self.alloc);
        let (chain, way_back) = match put_run(self.alloc, &self.settings, chain, terms) {
            Ok(after) => after,
            Err((chain, terms)) => {
                page.put_index(chain, list_before);
                return Turn::Back(TermJob { page, pid, terms });
            }
        };
        match ChildList::of(self.alloc, &chain) {
            Ok(list) => {
                page.put_index(chain, list);
                Turn::Done(TermDone {
                    page,
                    way_back,
                    list_before,
                    pid,
                })
            }
            Err(_refused) => {
                let (chain, terms) = way_back.undo(self.alloc, chain);
                page.put_index(chain, list_before);
                Turn::Back(TermJob { page, pid, terms })
            }
        }
    }

    fn undo(&self, done: TermDone) -> TermJob {
        let TermDone {
            mut page,
            way_back,
            list_before,
            pid,
        } = done;
        let (chain, _list_now) = page.take_index(self.alloc);
        let (chain, terms) = way_back.undo(self.alloc, chain);
        page.put_index(chain, list_before);
        TermJob { page, pid, terms }
    }
}
