//! What the log contains of a page after a flush.
ghost use Rattle.std.specs.Prelude.{◌≡◌, [], ◌∷◌};
ghost use Rattle.mapping.specs.Flushed.{depth_counted, logged_then, marked};
ghost use Rattle.mapping.specs.Proper.{AreRisingPids};
ghost use Rattle.mapping.specs.Slots.{slot_pids};

use crate::logged::Logged;
use crate::slots::{TablePlace, TableSlot, slot_of};
use index_page::Page;
use std::alloc::Allocator;

/// Returns the number of runs of the page, or the greatest `u64` if there are more.
pub fn depth<A: Allocator + Copy>(page: &Page<A>) -> u64
    ensures { result ≡ depth_counted page.now }
{
    if let Some(chain) = page.as_leaf() {
        return chain.depth();
    }
    match page.as_index() {
        Some(chain) => chain.depth(),
        None => unreachable!(),
    }
}

// What the log contains of the slot's pid after all pages in the table are written.
pub(crate) fn logged_then<A: Allocator + Copy>(place: &TablePlace<Page<A>>) -> Logged
    ensures { result ≡ logged_then place.now }
{
    match place {
        TablePlace::Home(page) => Logged::Upto(depth(page)),
        _ => Logged::No,
    }
}

// Records that the log contains the pages of these pids with all their runs, and nothing of those pids that have no
// page.
pub(crate) fn mark_all<A: Allocator + Copy>(slots: &mut Vec<TableSlot<Page<A>>, A>, pids: &[u64])
    requires { AreRisingPids (slot_pids slots.old.items) }
    ensures { slots.new.items ≡ marked slots.old.items pids.now }
{
    for pid in pids {
        mark(slots, *pid);
    }
}

// `mark_all` of one pid.
fn mark<A: Allocator + Copy>(slots: &mut Vec<TableSlot<Page<A>>, A>, pid: u64)
    requires { AreRisingPids (slot_pids slots.old.items) }
    ensures { slots.new.items ≡ marked slots.old.items (pid ∷ []) }
{
    if let Ok(at) = slot_of(slots, pid) {
        let slot = &mut slots[at];
        slot.logged = logged_then(&slot.page);
    }
}
