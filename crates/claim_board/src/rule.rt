//! The invariant of a board, which each step on its table preserves.
ghost use Rattle.std.specs.Prelude.{◌≡◌, ◌+◌, ◌-◌, ◌^◌, ◌<◌, ◌≤◌, [], ◌++◌, length, vec_len, vec_capacity};
ghost use Rattle.claim_board.specs.Rule.{Keeps, Draws, hand};
ghost use Rattle.claim_board.specs.declared.rule.Slot.TheVariants.{Kept};

use atomic_table::{Join, Play, Split, TableRule};
use std::collections::LinkedList;
use std::snapshot::Snapshot;

/// The contents of a slot of the table.
#[derive(Drop)]
pub(crate) enum Slot<P> {
    /// An unclaimed piece.
    Piece(P),
    /// A piece was claimed from here.
    Empty,
    /// The emptied list that the pieces came in. The last slot keeps it for the pieces that remain.
    Kept(Vec<P>),
}

/// The state of one pass, or of several merged passes. It is for the proofs only: no value of it is made.
pub(crate) struct PassState<P> {
    pub(crate) pieces: LinkedList<P>,
    pub(crate) passes: usize,
    pub(crate) drawn: LinkedList<u64>,
    pub(crate) misses: u64,
}

/// What a board was opened with: its pieces, the emptied list that they came in, and its number of passes.
#[derive(Drop)]
pub(crate) struct About<P> {
    pub(crate) pieces: Snapshot<Vec<P>>,
    pub(crate) list: Snapshot<Vec<P>>,
    pub(crate) passes: usize,
    pub(crate) ghost is_empty: { (list.value.items ≡ []) × (vec_len list.value ≡ 0) },
    pub(crate) ghost has_room: { length pieces.value.items ≤ vec_capacity list.value },
    pub(crate) ghost some: { 0 < passes },
    pub(crate) ghost few: { length pieces.value.items + passes < 2 ^ 63 },
}

/// The claimed numbers are those below the word, each exactly once.
pub(crate) struct EachOnce;

impl<P> TableRule<Slot<P>, PassState<P>, About<P>> for EachOnce {
    ghost holds = { λ about s. Keeps about.pieces.value.items
        (Kept about.list.value) about.passes s };

    ghost first = { λ about. hand about.pieces.value.items about.passes [] 0 };
}

/// A claim increments the word.
pub(crate) struct Draw;

impl<P> Play<Slot<P>, PassState<P>> for Draw {
    ghost then = { λ step before number after. Draws before number after };
}

/// Splits one pass from a merged state.
pub(crate) struct CutOne;

impl<P> Split<PassState<P>> for CutOne {
    ghost left = { λ v. hand v.pieces (v.passes - 1) v.drawn v.misses };

    ghost right = { λ v. hand v.pieces 1 [] 0 };
}

/// Moves the whole state of a pass to a seat that holds no slot.
pub(crate) struct HandOver;

impl<P> Split<PassState<P>> for HandOver {
    ghost left = { λ v. hand [] 0 [] 0 };

    ghost right = { λ v. v };
}

/// Merges two passes into one state.
pub(crate) struct StandForBoth;

impl<P> Join<PassState<P>> for StandForBoth {
    ghost both = { λ v w. hand v.pieces (v.passes + w.passes)
        (v.drawn ++ w.drawn) (v.misses + w.misses) };

    ghost spent = { hand [] 0 [] 0 };
}
