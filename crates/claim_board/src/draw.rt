//! Claiming pieces from a board.
ghost use Rattle.std.specs.Prelude.{◌≡◌, ◌↔◌, ◌+◌, ◌<◌, ◌≤◌, [], ◌∷◌, ◌++◌, length, slice_get, Some, IsTrue, IsNone, IfSome, IfNone};
ghost use Rattle.std.specs.List.{All};

use crate::rule::{About, Draw, EachOnce, PassState, Slot};
use atomic_table::{Seat, Table};
use std::alloc::Global;

/// The unclaimed pieces, and the word that counts the claims. Worker threads share a board by `&`.
#[derive(Drop)]
pub struct Board<P> {
    pub(crate) table: Table<Slot<P>, PassState<P>, About<P>, EachOnce, Global>,
    ghost one_word: { table.shared.table_id.words ≡ 1 },
    ghost slots: { table.shared.table_id.slots ≡ length table.shared.key.pieces.value.items + 1 },
}

/// The right to claim from one board. Each worker has a pass of its own.
#[derive(Drop)]
pub struct Pass<P> {
    pub(crate) seat: Seat<Slot<P>, PassState<P>>,
    /// The pass found that no piece was left, and takes no more steps.
    pub(crate) is_spent: bool,
}

impl<P: Drop> Board<P> {
    ghost use Rattle.claim_board.specs.Passes.{pieces_of, drawn_by, found_none, IsPassOf};

    /// Returns how many pieces the board was opened with.
    pub fn piece_count(&self) -> usize
        ensures { result ≡ length (pieces_of self.now) }
    {
        self.table.slot_count() - 1
    }

    /// Claims the next piece, and returns its number among the pieces that the board was opened with, and the piece.
    /// Returns `None` if all pieces are claimed, and from then on always for this pass.
    pub fn claim(&self, pass: &mut Pass<P>) -> Option<(u64, P)>
        requires { IsPassOf self.now pass.old }
        ensures same_board { IsPassOf self.now pass.new }

        ensures within { IfSome result (λ found. found.0 < length (pieces_of self.now)) }
        ensures piece { IfSome result
            (λ found. slice_get (pieces_of self.now) found.0 ≡ Some found.1) }
        ensures drawn { IfSome result
            (λ found. drawn_by pass.new ≡ drawn_by pass.old ++ found.0 ∷ []) }
        ensures rising { IfSome result
            (λ found. All (λ earlier. earlier < found.0) (drawn_by pass.old)) }
        ensures as_many { IfSome result (λ found. length (drawn_by pass.old) ≤ found.0) }

        ensures none { IfNone result (drawn_by pass.new ≡ drawn_by pass.old) }
        ensures none_found { IsTrue (found_none pass.new) ↔ IsNone result }
        ensures again { IsTrue (found_none pass.old) → IsNone result }
    {
        if pass.is_spent {
            return None;
        }
        let number = self.table.shared.fetch_add::<Draw>(&mut pass.seat, 0, 1);
        if number >= self.piece_count() as u64 {
            pass.is_spent = true;
            return None;
        }
        let taken = self
            .table
            .shared
            .exchange(&mut pass.seat, number as usize, Slot::Empty);
        let Slot::Piece(piece) = taken else {
            unreachable!()
        };
        Some((number, piece))
    }
}
