//! Opening a board.
ghost use Rattle.std.specs.Prelude.{◌≡◌, ◌+◌, ◌^◌, ◌<◌, ◌≤◌, [], map, length, IfOk, IfErr, vec_len, vec_capacity};
ghost use Rattle.std.specs.List.{All};
ghost use Rattle.claim_board.specs.Rule.{hand, slots_of};
ghost use Rattle.claim_board.specs.Passes.{pieces_of, count_of_passes, IsNewPassOf};
ghost use Rattle.claim_board.specs.declared.rule.Slot.TheVariants.{Piece, Kept};

use crate::draw::{Board, Pass};
use crate::rule::{About, CutOne, PassState, Slot};
use atomic_table::{Seat, Table};
use std::snapshot::Snapshot;

impl<P: Drop> Board<P> {
    /// Opens a board of these pieces, with this number of passes. If allocation fails, returns the pieces in `Err`.
    pub fn open(mut pieces: Vec<P>, passes: usize) -> Result<(Board<P>, Vec<Pass<P>>), Vec<P>>
        requires some { 0 < passes }
        requires few_passes { passes ≤ 2 ^ 32 }
        requires few_pieces { length pieces.items ≤ 2 ^ 32 }
        ensures pieces { IfOk result (λ opened. pieces_of opened.0 ≡ pieces.items) }
        ensures passes { IfOk result (λ opened. count_of_passes opened.0 ≡ passes) }
        ensures as_many { IfOk result (λ opened. length opened.1.items ≡ passes) }
        ensures new { IfOk result (λ opened. All (IsNewPassOf opened.0) opened.1.items) }
        ensures refused { IfErr result (λ back. back.items ≡ pieces.items) }
    {
        let alloc = *pieces.allocator();
        let Ok(mut dealt) = Vec::with_capacity(alloc, passes) else {
            return Err(pieces);
        };
        let Ok(mut slots) = Vec::with_capacity(alloc, pieces.len() + 1) else {
            return Err(pieces);
        };
        let given = Snapshot::of(&pieces);
        lay(&mut pieces, &mut slots);
        let about = About {
            pieces: given,
            list: Snapshot::of(&pieces),
            passes,
        };
        slots.push_reserved(Slot::Kept(pieces));
        match Table::new(alloc, &[0], slots, &about) {
            Ok((table, seat)) => {
                let board = Board { table };
                deal(&board, seat, passes, &mut dealt);
                Ok((board, dealt))
            }
            Err(refused) => Err(take_back(refused.slots, &about)),
        }
    }
}

// Moves the pieces into slots, in the same order. The list keeps its capacity.
fn lay<P>(pieces: &mut Vec<P>, slots: &mut Vec<Slot<P>>)
    requires { (slots.old.items ≡ [])
        × (vec_len slots.old + vec_len pieces.old < vec_capacity slots.old) }
    ensures slots { slots.new.items ≡ map Piece pieces.old.items }
    ensures room { vec_len slots.new < vec_capacity slots.new }
    ensures pieces { (pieces.new.items ≡ []) × (vec_len pieces.new ≡ 0)
        × (vec_capacity pieces.new ≡ vec_capacity pieces.old) }
{
    pieces.reverse();
    while let Some(piece) = pieces.pop() {
        slots.push_reserved(Slot::Piece(piece));
    }
}

// Moves the pieces back into the list that they came in.
fn take_back<P: Drop>(mut slots: Vec<Slot<P>>, about: &About<P>) -> Vec<P>
    requires { slots.items ≡ slots_of about.now.pieces.value.items (Kept about.now.list.value) }
    ensures { result.items ≡ about.now.pieces.value.items }
{
    let Some(last) = slots.pop() else {
        unreachable!()
    };
    let Slot::Kept(mut pieces) = last else {
        unreachable!()
    };
    while let Some(slot) = slots.pop() {
        let Slot::Piece(piece) = slot else {
            unreachable!()
        };
        pieces.push_reserved(piece);
    }
    pieces.reverse();
    pieces
}

// Splits the first seat, which represents all passes, into single passes.
fn deal<P: Drop>(
    board: &Board<P>,
    mut seat: Seat<Slot<P>, PassState<P>>,
    passes: usize,
    dealt: &mut Vec<Pass<P>>,
)
    requires passes { 0 < passes }
    requires seat { (seat.table_id ≡ board.now.table.shared.table_id)
        × (seat.me ≡ (hand (pieces_of board.now) passes [] 0, [])) }
    requires dealt { (dealt.old.items ≡ [])
        × (vec_len dealt.old + passes ≤ vec_capacity dealt.old) }
    ensures as_many { length dealt.new.items ≡ passes }
    ensures new { All (IsNewPassOf board.now) dealt.new.items }
{
    for _ in 1..passes {
        let other = board.table.shared.split_seat::<CutOne>(&mut seat);
        dealt.push_reserved(Pass {
            seat: other,
            is_spent: false,
        });
    }
    dealt.push_reserved(Pass {
        seat,
        is_spent: false,
    });
}
