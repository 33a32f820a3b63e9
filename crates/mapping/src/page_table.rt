//! A table of pages that records which of them a flush may have to write.
ghost use Rattle.std.specs.Prelude.{◌≡◌, Some, None, IsSome, IfSome, IfOk, OnOk, OnErr};
ghost use Rattle.mapping.specs.Due.{AreDue};
ghost use Rattle.mapping.specs.Flushed.{marked_as_written};
ghost use Rattle.mapping.specs.Proper.{AreRisingPids};
ghost use Rattle.mapping.specs.Table.{place_of, page_of, with_place, log_outdated, freed, with_rooms, pids_in_use, fresh_pids};

use crate::due::Due;
use crate::logged::Logged;
use crate::table::Table;
use index_page::Page;
use std::alloc::{AllocError, Allocator};
use std::marker::Model;

/// A table of pages that records which pids a flush may have to write. For every other pid, the log already contains
/// what it would contain after a flush. Contracts see it as the table.
#[derive(Drop)]
pub(crate) struct PageTable<A: Allocator> {
    table: Table<Page<A>, A>,
    due: Due<A>,
}

impl<A: Allocator> Model for PageTable<A> {
    ghost use Rattle.index_page.specs.Page.{PageOfKind};
    ghost use Rattle.mapping.specs.Table.{Mapping};
    ghost use Rattle.mapping.specs.Due.{AreNoted};

    ghost Value = { Mapping PageOfKind };

    ghost view = { λ t. t.table };

    ghost invariant = { λ t. AreNoted t.table t.due };
}

impl<A: Allocator + Copy> PageTable<A> {
    /// Wraps `table`; every pid may be due.
    pub(crate) fn new(table: Table<Page<A>, A>) -> Self
        ensures { result ≡ table }
    {
        let due = Due::all(table.allocator());
        PageTable { table, due }
    }

    pub(crate) fn as_table(&self) -> &Table<Page<A>, A>
        ensures { result.now ≡ self.now }
    {
        &self.table
    }

    /// The recorded pids, or `None` if any pid may be due.
    pub(crate) fn due_pids(&self) -> Option<&[u64]>
        ensures { IfSome result (λ pids. AreDue self.now pids.now) }
    {
        self.due.listed()
    }

    /// Makes room to record as many pids as have places.
    pub(crate) fn reserve(&mut self) -> Result<(), AllocError>
        ensures { self.new ≡ self.old }
    {
        self.due.reserve(self.table.most_places())
    }

    /// This and the next functions do what those of `Table` do, and record the pid if it may become due. Recording does
    /// not allocate.
    #[inline]
    pub(crate) fn take(&mut self, pid: u64) -> Page<A>
        requires { IsSome (page_of self.old pid) }
        ensures page { page_of self.old pid ≡ Some result }
        ensures table { self.new ≡ with_place self.old pid None }
    {
        self.due.note(pid);
        self.table.take(pid)
    }

    #[inline]
    pub(crate) fn put(&mut self, pid: u64, page: Page<A>)
        requires { place_of self.old pid ≡ Some None }
        ensures { self.new ≡ with_place self.old pid (Some page) }
    {
        // With any other log state, a pid whose place is empty is recorded already.
        if let Logged::No = self.table.logged(pid) {
            self.due.note(pid);
        }
        self.table.put(pid, page);
    }

    pub(crate) fn free(&mut self, pid: u64)
        requires { place_of self.old pid ≡ Some None }
        ensures { self.new ≡ freed self.old pid }
    {
        // Only for the proof: the pids rise.
        let _rising = self.table.pids();
        self.table.free(pid);
    }

    pub(crate) fn outdate(&mut self, pid: u64)
        ensures { self.new ≡ log_outdated self.old pid }
    {
        self.due.note(pid);
        self.table.outdate(pid);
    }

    pub(crate) fn fresh(&mut self, count: usize) -> Result<Vec<u64, A>, AllocError>
        ensures pids { IfOk result (λ pids. pids.items ≡ fresh_pids (pids_in_use self.old) count) }
        ensures ok { OnOk result
            (self.new ≡ with_rooms self.old (fresh_pids (pids_in_use self.old) count)) }
        ensures err { OnErr result (self.new ≡ self.old) }
        ensures rising { AreRisingPids (pids_in_use self.old) }
    {
        // Only for the proof: the pids rise.
        let _rising = self.table.pids();
        self.due
            .reserve(self.table.most_places().saturating_add(count))?;
        self.table.fresh(count)
    }

    /// Examines only the recorded pids, unless any pid may be due.
    pub(crate) fn flushed(&mut self)
        ensures { self.new ≡ marked_as_written self.old }
    {
        // Only for the proof: the pids rise.
        let _rising = self.table.pids();
        match self.due.listed() {
            Some(pids) => self.table.flushed_at(pids),
            None => self.table.flushed(),
        }
        self.due.clear();
    }
}
