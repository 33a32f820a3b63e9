//! The slots of a table in order of their pids, and the search for a slot.
ghost use Rattle.std.specs.Prelude.{◌≡◌, ◌↔◌, IsTrue, MatchResult, IsSome, is_some};
ghost use Rattle.std.specs.List.{AllByRecursion};
ghost use Rattle.mapping.specs.Proper.{AreRisingPids};
ghost use Rattle.mapping.specs.Table.{place_of};
ghost use Rattle.mapping.specs.Slots.{slot_pids, table_of, StandsAt, GoesTo};

use crate::logged::Logged;

// The state of a slot's pid: no place, an empty place, or a place with its page.
#[derive(Drop)]
pub(crate) enum TablePlace<P> {
    Vacant,
    Away,
    Home(P),
}

// A pid with its place, if it has one, and its log state.
#[derive(Drop)]
pub(crate) struct TableSlot<P> {
    pub(crate) pid: u64,
    pub(crate) page: TablePlace<P>,
    pub(crate) logged: Logged,
}

// `Ok` with the index of the pid's slot, or `Err` with the index where it would be inserted. The pids are distinct and
// rising, so a slot's index is at most its pid, and usually equals it: that index is tried first, and later ones never.
pub(crate) fn slot_of<P>(slots: &[TableSlot<P>], pid: u64) -> Result<usize, usize>
    requires { AreRisingPids (slot_pids slots.now) }
    ensures { MatchResult result (StandsAt (slot_pids slots.now) pid)
        (GoesTo (slot_pids slots.now) pid) }
{
    let near = pid as usize;
    if near >= slots.len() {
        return search(slots, pid);
    }
    if slots[near].pid == pid {
        return Ok(near);
    }
    search(&slots[..near], pid)
}

// `slot_of` by binary search.
fn search<P>(slots: &[TableSlot<P>], pid: u64) -> Result<usize, usize>
    requires { AreRisingPids (slot_pids slots.now) }
    ensures { MatchResult result (StandsAt (slot_pids slots.now) pid)
        (GoesTo (slot_pids slots.now) pid) }
{
    slots.binary_search_by_key(&pid, |slot| slot.pid)
}

pub(crate) fn is_used<P>(slots: &[TableSlot<P>], pid: u64) -> bool
    requires { AreRisingPids (slot_pids slots.now) }
    ensures { result ≡ is_some (place_of (table_of slots.now) pid) }
{
    match slot_of(slots, pid) {
        Ok(at) => !matches!(&slots[at].page, TablePlace::Vacant),
        Err(_) => false,
    }
}

// Whether no place is empty.
pub(crate) fn are_all_home<P>(slots: &[TableSlot<P>]) -> bool
    ensures { IsTrue result ↔ AllByRecursion (λ e. IsSome e.1) (table_of slots.now).places }
{
    for slot in slots {
        if matches!(&slot.page, TablePlace::Away) {
            return false;
        }
    }
    true
}

// The index of the slot of a pid that has a place.
pub(crate) fn slot_in_use<P>(slots: &[TableSlot<P>], pid: u64) -> usize
    requires rising { AreRisingPids (slot_pids slots.now) }
    requires in_use { IsSome (place_of (table_of slots.now) pid) }
    ensures { StandsAt (slot_pids slots.now) pid result }
{
    match slot_of(slots, pid) {
        Ok(at) => at,
        Err(_) => unreachable!(),
    }
}
