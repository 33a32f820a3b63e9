//! The mapping table: pages by pid, and the log state of each.
ghost use Rattle.std.specs.Prelude.{◌≡◌, ◌↔◌, ◌≤◌, length, Some, None, IsTrue, IsSome, is_some, IfOk, OnOk, OnErr};
ghost use Rattle.std.specs.Option.{option_copied};
ghost use Rattle.std.specs.List.{AllByRecursion};
ghost use Rattle.std.specs.Map.{keys_of};
ghost use Rattle.mapping.specs.LogState.{log_state};
ghost use Rattle.mapping.specs.Proper.{AreRisingPids};
ghost use Rattle.mapping.specs.Table.{no_places, place_of, page_of, log_of, with_place, log_outdated, freed, with_room, with_rooms, pids_in_use, fresh_pids, pids_in_use_or_old};
ghost use Rattle.mapping.specs.Flushed.{marked_as_written};
ghost use Rattle.mapping.specs.Due.{AreDue};
ghost use Rattle.mapping.specs.TreeInMemory.{home_pages};

use crate::flush::{logged_then, mark_all};
use crate::logged::Logged;
use crate::pids::{HomePids, Pids};
use crate::room::{least_free, occupy, occupy_all};
use crate::slots::{TablePlace, TableSlot, are_all_home, is_used, slot_in_use, slot_of};
use index_page::Page;
use std::alloc::{AllocError, Allocator};
use std::marker::Model;
use std::mem;

/// A map from pids to places for pages, with the log state of each pid. A place is empty while its page is checked out,
/// and before its first page is put. Contracts see the table as two lists by rising pid (`Mapping`): the places, each
/// with its page or with none; and the log states other than `No`.
#[derive(Drop)]
pub struct Table<P, A: Allocator> {
    // In order of the pids. A slot stays when its place is freed, so that most slots have their pids as indices.
    slots: Vec<TableSlot<P>, A>,
    // Each number below this one has a place.
    filled: u64,
}

impl<P, A: Allocator> Model for Table<P, A> {
    ghost use Rattle.mapping.specs.Table.{Mapping};

    ghost Value = { Mapping P };

    ghost use Rattle.mapping.specs.Slots.{table_of, AreSlots};

    ghost view = { λ t. table_of t.slots.items };

    ghost invariant = { λ t. AreSlots t.slots.items t.filled };
}

impl<P: Drop, A: Allocator + Copy> Table<P, A> {
    /// Returns a table without places. Does not allocate.
    pub fn new(alloc: A) -> Self
        ensures { result ≡ no_places }
    {
        Table {
            slots: Vec::new(alloc),
            filled: 0,
        }
    }

    pub(crate) fn allocator(&self) -> A {
        *self.slots.allocator()
    }

    /// Returns whether `pid` has a place.
    pub fn is_used(&self, pid: u64) -> bool
        ensures { result ≡ is_some (place_of self.now pid) }
    {
        is_used(&self.slots, pid)
    }

    /// Returns whether `pid` has an empty place, which `put` requires.
    pub fn is_away(&self, pid: u64) -> bool
        ensures { IsTrue result ↔ (place_of self.now pid ≡ Some None) }
    {
        match slot_of(&self.slots, pid) {
            Ok(at) => matches!(&self.slots[at].page, TablePlace::Away),
            Err(_) => false,
        }
    }

    /// Returns the page of `pid`, or `None` if it has no place or an empty one.
    pub fn get(&self, pid: u64) -> Option<&P>
        ensures { option_copied result ≡ page_of self.now pid }
    {
        match slot_of(&self.slots, pid) {
            Ok(at) => match &self.slots[at].page {
                TablePlace::Home(page) => Some(page),
                _ => None,
            },
            Err(_) => None,
        }
    }

    /// Returns whether no place is empty, so that no page is checked out.
    pub fn are_all_home(&self) -> bool
        ensures { IsTrue result ↔ AllByRecursion (λ e. IsSome e.1) self.now.places }
    {
        are_all_home(&self.slots)
    }

    /// Returns the log state of `pid`.
    pub fn logged(&self, pid: u64) -> Logged
        ensures { log_state result ≡ log_of self.now pid }
    {
        match slot_of(&self.slots, pid) {
            Ok(at) => self.slots[at].logged,
            Err(_) => Logged::No,
        }
    }

    /// Returns the pids that are in use or whose log state is `Old`, in rising order. Does not allocate.
    pub fn pids(&self) -> Pids<'_, P>
        ensures pids { result ≡ pids_in_use_or_old self.now }
        ensures rising { AreRisingPids (pids_in_use self.now) }
        ensures logged { AreRisingPids (keys_of self.now.logged) }
    {
        Pids { slots: &self.slots }
    }

    /// Returns the pids of the pages that are not checked out, in rising order. Does not allocate.
    pub fn home_pids(&self) -> HomePids<'_, P>
        ensures { result ≡ keys_of (home_pages self.now.places) }
    {
        HomePids { slots: &self.slots }
    }

    /// Returns an upper bound on the number of places. Reads only the number of slots.
    pub fn most_places(&self) -> usize
        ensures { length self.now.places ≤ result }
    {
        self.slots.len()
    }

    /// Checks out the page of `pid`: removes it and leaves its place empty. Like `put` and `free`, does not allocate.
    #[inline]
    pub fn take(&mut self, pid: u64) -> P
        requires { IsSome (page_of self.old pid) }
        ensures page { page_of self.old pid ≡ Some result }
        ensures table { self.new ≡ with_place self.old pid None }
    {
        let at = slot_in_use(&self.slots, pid);
        match mem::replace(&mut self.slots[at].page, TablePlace::Away) {
            TablePlace::Home(page) => page,
            _ => unreachable!(),
        }
    }

    /// Puts a page into the empty place of `pid`.
    #[inline]
    pub fn put(&mut self, pid: u64, page: P)
        requires { place_of self.old pid ≡ Some None }
        ensures { self.new ≡ with_place self.old pid (Some page) }
    {
        let at = slot_in_use(&self.slots, pid);
        self.slots[at].page = TablePlace::Home(page);
    }

    /// Frees the empty place of `pid`. The log state of the pid becomes that of a replaced page.
    pub fn free(&mut self, pid: u64)
        requires { place_of self.old pid ≡ Some None }
        ensures { self.new ≡ freed self.old pid }
    {
        let at = slot_in_use(&self.slots, pid);
        let slot = &mut self.slots[at];
        slot.page = TablePlace::Vacant;
        slot.logged = slot.logged.outdated();
        self.filled = self.filled.min(pid);
    }

    /// Records that the page of `pid` has been replaced since the log was written.
    pub fn outdate(&mut self, pid: u64)
        ensures { self.new ≡ log_outdated self.old pid }
    {
        if let Ok(at) = slot_of(&self.slots, pid) {
            let slot = &mut self.slots[at];
            slot.logged = slot.logged.outdated();
        }
    }

    /// Makes an empty place for `pid` if it has no place. If allocation fails, nothing changes.
    pub fn room(&mut self, pid: u64) -> Result<(), AllocError>
        ensures ok { OnOk result (self.new ≡ with_room self.old pid) }
        ensures err { OnErr result (self.new ≡ self.old) }
    {
        occupy(&mut self.slots, pid)
    }

    /// Allocates `count` new pids: the least numbers without a place, in rising order. Each gets an empty place
    /// and keeps its log state. If allocation fails, or too few numbers below `u64::MAX` are unused, nothing changes.
    pub fn fresh(&mut self, count: usize) -> Result<Vec<u64, A>, AllocError>
        ensures pids { IfOk result (λ pids. pids.items ≡ fresh_pids (pids_in_use self.old) count) }
        ensures ok { OnOk result
            (self.new ≡ with_rooms self.old (fresh_pids (pids_in_use self.old) count)) }
        ensures err { OnErr result (self.new ≡ self.old) }
        ensures rising { AreRisingPids (pids_in_use self.old) }
    {
        let alloc = *self.slots.allocator();
        let pids = least_free(alloc, &self.slots, self.filled, count)?;
        occupy_all(&mut self.slots, &pids)?;
        if count > 0 {
            self.filled = pids[count - 1].saturating_add(1);
        }
        Ok(pids)
    }
}

impl<A: Allocator + Copy> Table<Page<A>, A> {
    /// Records that the log contains each page of the table with all its runs, and nothing of any other pid. The places
    /// stay. Does not allocate.
    pub fn flushed(&mut self)
        ensures { self.new ≡ marked_as_written self.old }
    {
        for slot in self.slots.iter_mut() {
            slot.logged = logged_then(&slot.page);
        }
    }

    /// `flushed`, given that the log states of all pids except `pids` are final. Visits no other slots.
    pub(crate) fn flushed_at(&mut self, pids: &[u64])
        requires { AreDue self.old pids.now }
        ensures { self.new ≡ marked_as_written self.old }
    {
        mark_all(&mut self.slots, pids);
    }
}
