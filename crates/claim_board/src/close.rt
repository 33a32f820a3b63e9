//! Closing a board.
ghost use Rattle.std.specs.Prelude.{◌≡◌, ◌+◌, ◌<◌, ◌≤◌, ◌++◌, length, vec_len, vec_capacity, IsTrue, IsFalse, [], ◌∷◌};
ghost use Rattle.std.specs.List.{All};
ghost use Rattle.claim_board.specs.Passes.{pieces_of, count_of_passes, drawn_by, IsPassOf, Closes};
ghost use Rattle.claim_board.specs.Rule.{Leaves};
ghost use Rattle.claim_board.specs.declared.rule.Slot.TheVariants.{Piece};

use crate::draw::{Board, Pass};
use crate::rule::{HandOver, PassState, Slot, StandForBoth};
use atomic_table::Seat;

impl<P: Drop> Board<P> {
    /// Closes the board, with all its passes. Returns the pieces that no pass claimed, in order, in the list that the
    /// board was opened with. Does not allocate.
    pub fn close(self, mut passes: Vec<Pass<P>>) -> Vec<P>
        requires passes { All (IsPassOf self) passes.items }
        requires all { length passes.items ≡ count_of_passes self }
        ensures { Closes (pieces_of self) passes.items result.items }
    {
        let Some(first) = passes.pop() else {
            unreachable!()
        };
        let mut all = first.seat;
        while let Some(pass) = passes.pop() {
            self.gather(&mut all, pass);
        }
        self.give_back(all)
    }

    // Merges another pass into one seat.
    fn gather(&self, all: &mut Seat<Slot<P>, PassState<P>>, pass: Pass<P>)
        requires all { (all.old.table_id ≡ self.now.table.shared.table_id)
            × (0 < all.old.me.0.passes) }
        requires pass { IsPassOf self.now pass }
        ensures same { all.new.table_id ≡ all.old.table_id }
        ensures passes { all.new.me.0.passes ≡ all.old.me.0.passes + 1 }
        ensures drawn { all.new.me.0.drawn ≡ all.old.me.0.drawn ++ drawn_by pass }
        ensures misses { all.new.me.0.misses ≡ all.old.me.0.misses + pass.seat.me.0.misses }
    {
        let mut seat = pass.seat;
        let whole = self.table.shared.split_seat::<HandOver>(&mut seat);
        drop(seat);
        self.table.shared.join_seat::<StandForBoth>(all, whole);
    }

    // Closes the board with a seat into which all passes were merged.
    fn give_back(self, all: Seat<Slot<P>, PassState<P>>) -> Vec<P>
        requires all { (all.table_id ≡ self.table.shared.table_id)
            × (all.me.0.passes ≡ count_of_passes self) }
        ensures { Leaves (pieces_of self) all.me.0 result.items }
    {
        let Board { table } = self;
        let count = table.slot_count() - 1;
        let mut closed = table.close_with(all);
        let draws = closed.word(0);
        let last = closed.take(count);
        let Slot::Kept(mut left) = last else {
            unreachable!()
        };
        for i in 0..count {
            put_back(&mut left, closed.take(i), i as u64 >= draws);
        }
        closed.free();
        left
    }
}

// Appends the piece of a slot, if no pass claimed it.
fn put_back<P: Drop>(left: &mut Vec<P>, slot: Slot<P>, is_left: bool)
    requires { vec_len left.old < vec_capacity left.old }
    ensures left { (piece : P) → IsTrue is_left → slot ≡ Piece piece →
        left.new.items ≡ left.old.items ++ piece ∷ [] }
    ensures drawn { IsFalse is_left → left.new.items ≡ left.old.items }
    ensures as_many { vec_len left.new ≤ vec_len left.old + 1 }
    ensures room { vec_capacity left.new ≡ vec_capacity left.old }
{
    if let Slot::Piece(piece) = slot {
        if is_left {
            left.push_reserved(piece);
        }
    }
}
