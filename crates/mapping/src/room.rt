//! Gives pids their places in a table, and finds unused numbers.
ghost use Rattle.std.specs.Prelude.{◌≡◌, ◌+◌, ◌<◌, ◌≤◌, IfOk, OnOk, OnErr, IsOk, vec_len, vec_capacity};
ghost use Rattle.mapping.specs.Proper.{AreRisingPids};
ghost use Rattle.mapping.specs.Table.{with_room, with_rooms, pids_in_use, fresh_pids};
ghost use Rattle.mapping.specs.Slots.{slot_pids, table_of, AreSlots};

use crate::logged::Logged;
use crate::slots::{TablePlace, TableSlot, is_used, slot_of};
use std::alloc::{AllocError, Allocator};

// Makes an empty place for `pid` if it has no place. Fails only if the slots fill their room.
pub(crate) fn occupy<P: Drop, A: Allocator + Copy>(
    slots: &mut Vec<TableSlot<P>, A>,
    pid: u64,
) -> Result<(), AllocError>
    requires { AreRisingPids (slot_pids slots.old.items) }
    ensures rising { AreRisingPids (slot_pids slots.new.items) }
    ensures ok { OnOk result (table_of slots.new.items ≡ with_room (table_of slots.old.items) pid) }
    ensures err { OnErr result (slots.new.items ≡ slots.old.items) }
    ensures succeeds { vec_len slots.old < vec_capacity slots.old → IsOk result }
    ensures len { vec_len slots.new ≤ vec_len slots.old + 1 }
    ensures capacity { vec_capacity slots.old ≤ vec_capacity slots.new }
{
    match slot_of(slots, pid) {
        Ok(at) => {
            let slot = &mut slots[at];
            if let TablePlace::Vacant = &slot.page {
                slot.page = TablePlace::Away;
            }
        }
        Err(at) => {
            let slot = TableSlot {
                pid,
                page: TablePlace::Away,
                logged: Logged::No,
            };
            slots.insert(at, slot)?;
        }
    }
    Ok(())
}

// Makes a place for each of the pids, as `occupy` does. If allocation fails, nothing changes.
pub(crate) fn occupy_all<P: Drop, A: Allocator + Copy>(
    slots: &mut Vec<TableSlot<P>, A>,
    pids: &[u64],
) -> Result<(), AllocError>
    requires { AreRisingPids (slot_pids slots.old.items) }
    ensures rising { AreRisingPids (slot_pids slots.new.items) }
    ensures ok { OnOk result
        (table_of slots.new.items ≡ with_rooms (table_of slots.old.items) pids.now) }
    ensures err { OnErr result (slots.new.items ≡ slots.old.items) }
{
    slots.reserve(pids.len())?;
    for pid in pids {
        occupy(slots, *pid)?;
    }
    Ok(())
}

// The least `count` numbers without a place, given that all numbers below `from` have one. Fails if allocation fails,
// or if too few numbers below `u64::MAX` have no place.
pub(crate) fn least_free<P, A: Allocator + Copy>(
    alloc: A,
    slots: &[TableSlot<P>],
    from: u64,
    count: usize,
) -> Result<Vec<u64, A>, AllocError>
    requires { AreSlots slots.now from }
    ensures { IfOk result
        (λ pids. pids.items ≡ fresh_pids (pids_in_use (table_of slots.now)) count) }
{
    let mut pids = Vec::with_capacity(alloc, count)?;
    for pid in from..u64::MAX {
        if pids.len() == count {
            break;
        }
        if !is_used(slots, pid) {
            pids.push(pid)?;
        }
    }
    if pids.len() < count {
        return Err(AllocError);
    }
    Ok(pids)
}
