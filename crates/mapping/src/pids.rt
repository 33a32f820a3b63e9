//! Iterators over the pids of a table: those in use, and those of the pages in the table.
ghost use Rattle.std.specs.Prelude.{◌≡◌};
ghost use Rattle.std.specs.Iterator.{YieldsFirst, item_count};
ghost use Rattle.mapping.specs.Slots.{is_known, is_home};

use crate::logged::Logged;
use crate::slots::{TablePlace, TableSlot};
use std::marker::Model;

/// An iterator over the pids that are in use or whose log state is `Old`, in rising order. Does not allocate. Contracts
/// see it as the list of the remaining pids.
#[derive(Drop)]
pub struct Pids<'a, P> {
    pub(crate) slots: &'a [TableSlot<P>],
}

impl<'a, P> Model for Pids<'a, P> {
    ghost use Rattle.std.specs.Prelude.{List, ℕ};
    ghost use Rattle.mapping.specs.Slots.{known_pids};

    ghost Value = { List ℕ };

    ghost view = { λ c. known_pids c.slots.now };
}

impl<'a, P> Iterator for Pids<'a, P> {
    type Item = u64;

    ghost next_gives = { YieldsFirst (λ left. left) };

    ghost remaining = { item_count (λ left. left) };

    fn next(&mut self) -> Option<u64> {
        let slots = self.slots;
        for (at, slot) in slots.iter().enumerate() {
            if is_known(slot) {
                self.slots = &slots[at + 1..];
                return Some(slot.pid);
            }
        }
        self.slots = &[];
        None
    }
}

/// An iterator over the pids of the pages that are not checked out, in rising order. Does not allocate. Contracts see
/// it as the list of the remaining pids.
#[derive(Drop)]
pub struct HomePids<'a, P> {
    pub(crate) slots: &'a [TableSlot<P>],
}

impl<'a, P> Model for HomePids<'a, P> {
    ghost use Rattle.std.specs.Prelude.{List, ℕ};
    ghost use Rattle.mapping.specs.Slots.{home_pids};

    ghost Value = { List ℕ };

    ghost view = { λ c. home_pids c.slots.now };
}

impl<'a, P> Iterator for HomePids<'a, P> {
    type Item = u64;

    ghost next_gives = { YieldsFirst (λ left. left) };

    ghost remaining = { item_count (λ left. left) };

    fn next(&mut self) -> Option<u64> {
        let ahead = self.slots;
        for (at, slot) in ahead.iter().enumerate() {
            if is_home(slot) {
                self.slots = &ahead[at + 1..];
                return Some(slot.pid);
            }
        }
        self.slots = &[];
        None
    }
}

fn is_home<P>(slot: &TableSlot<P>) -> bool
    ensures { result ≡ is_home slot.now }
{
    matches!(&slot.page, TablePlace::Home(_))
}

// Whether the slot's pid has a place, or its log state is `Old`.
fn is_known<P>(slot: &TableSlot<P>) -> bool
    ensures { result ≡ is_known slot.now }
{
    !matches!(&slot.page, TablePlace::Vacant) || slot.logged == Logged::Old
}
