//! The answers of one page to its commands.
ghost use Rattle.std.specs.Prelude.{◌≡◌, ◌++◌, [], true, length, min, IfOk, OnOk, OnErr};
ghost use Rattle.std.specs.Option.{option_to_list};
ghost use Rattle.keys.specs.PlacedPieces.{by_place, with_piece};
ghost use Rattle.keys.specs.Woven.{woven};
ghost use Rattle.keys.specs.declared.command.Reply.TheVariants.{Rows};

use crate::command::Reply;
use crate::piece::Piece;
use std::alloc::{AllocError, Allocator};
use std::marker::Model;
use std::mem;

// The greatest place, and the greatest number of preceding pieces, that an `EmptyScan` can hold.
const MOST: usize = u32::MAX as usize;

/// The answer of a page on which a scan found no rows. Such pieces are stored in eight bytes, because a batch of scans
/// over emptied pages can have millions of them.
#[derive(Drop)]
pub struct EmptyScan {
    /// The scan's place in the batch, counted from 0.
    pub place: u32,
    /// The number of pieces before this one.
    pub before: u32,
}

/// The answers of one page to its commands. Pieces may be added in any order. Contracts see them as one list in the
/// order of their places. The first piece is stored outside the list, so that the answer to a single command allocates
/// no list. Answers of scans that found no rows have a compact list of their own.
#[derive(Drop)]
pub struct Pieces<A: Allocator> {
    first: Option<Piece<A>>,
    rest: Vec<Piece<A>, A>,
    empty_scans: Vec<EmptyScan, A>,
}

impl<A: Allocator> Model for Pieces<A> {
    ghost use Rattle.std.specs.Prelude.{List, ◌++◌, length};
    ghost use Rattle.std.specs.Option.{option_to_list};
    ghost use Rattle.keys.specs.PlacedPieces.{by_place};
    ghost use Rattle.keys.specs.Woven.{woven, StandWithin};
    ghost use Rattle.keys.specs.declared.piece.Piece.{Piece};

    ghost Value = { List (Piece A) };

    ghost view = { λ p. by_place (woven (option_to_list p.first ++ p.rest.items) p.empty_scans.items) };

    ghost invariant = { λ p. StandWithin
        (length (option_to_list p.first ++ p.rest.items)) p.empty_scans.items };
}

impl<A: Allocator + Copy> Pieces<A> {
    /// Returns an empty list of pieces. Does not allocate.
    pub fn empty(alloc: A) -> Self
        ensures { result ≡ [] }
    {
        Pieces {
            first: None,
            rest: Vec::new(alloc),
            empty_scans: Vec::new(alloc),
        }
    }

    /// Returns an empty list with room for `count` pieces other than scans without rows. Room for one piece needs no
    /// allocation.
    pub fn with_capacity(alloc: A, count: usize) -> Result<Self, AllocError>
        ensures { IfOk result (λ pieces. pieces ≡ []) }
    {
        let rest = Vec::with_capacity(alloc, count.saturating_sub(1))?;
        let empty_scans = Vec::new(alloc);
        Ok(Pieces {
            first: None,
            rest,
            empty_scans,
        })
    }

    /// Adds `piece`, after the pieces whose places are at most its own. Allocates only if no room is reserved. After an
    /// `Err` the list is unchanged.
    pub fn push(&mut self, piece: Piece<A>) -> Result<(), AllocError>
        ensures ok { OnOk result (self.new ≡ with_piece self.old piece) }
        ensures err { OnErr result (self.new ≡ self.old) }
    {
        if is_without_rows(&piece.reply) {
            let before = self.count();
            if piece.place <= MOST && before <= MOST {
                self.empty_scans.push(EmptyScan {
                    place: piece.place as u32,
                    before: before as u32,
                })?;
                return Ok(());
            }
        }
        self.push_whole(piece)
    }

    fn count(&self) -> usize
        ensures { result ≡ min (length self.now) usize.MAX }
    {
        let others = self.rest.len().saturating_add(self.empty_scans.len());
        count_of(&self.first).saturating_add(others)
    }

    fn push_whole(&mut self, piece: Piece<A>) -> Result<(), AllocError>
        ensures ok { OnOk result (self.new ≡ with_piece self.old piece) }
        ensures err { OnErr result (self.new ≡ self.old) }
    {
        if self.first.is_none() && self.rest.is_empty() {
            self.first = Some(piece);
            return Ok(());
        }
        self.rest.push(piece)?;
        Ok(())
    }

    /// Takes all pieces and leaves an empty list. Does not allocate.
    pub fn take(&mut self) -> Self
        ensures taken { result ≡ self.old }
        ensures left { self.new ≡ [] }
    {
        let alloc = *self.rest.allocator();
        mem::replace(self, Pieces::empty(alloc))
    }

    /// Splits into the first piece that is not a scan without rows (if there is one), the other such pieces, and the
    /// scans without rows.
    pub fn into_parts(self) -> (Option<Piece<A>>, Vec<Piece<A>, A>, Vec<EmptyScan, A>)
        ensures { self ≡ by_place
            (woven (option_to_list result.0 ++ result.1.items) result.2.items) }
    {
        let Pieces {
            first,
            rest,
            empty_scans,
        } = self;
        (first, rest, empty_scans)
    }
}

fn count_of<A: Allocator>(first: &Option<Piece<A>>) -> usize
    ensures { result ≡ length (option_to_list first.now) }
{
    match first {
        Some(_) => 1,
        None => 0,
    }
}

fn is_without_rows<A: Allocator>(reply: &Reply<A>) -> bool
    ensures { result ≡ true → reply.now ≡ Rows [] }
{
    match reply {
        Reply::Rows(rows) => rows.len() == 0,
        _ => false,
    }
}
