//! Laws that relate the replies of a batch to its pieces. Each law is the contract of a function with an empty body.
ghost use Rattle.std.specs.Prelude.{◌≡◌, ℕ, false, min, List, ◌++◌, map, take, flat_map, length, slice_get, Option, Some};
ghost use Rattle.std.specs.List.{All, sum_by};
ghost use Rattle.keys.specs.Bytes.{Bytes};
ghost use Rattle.keys.specs.Places.{is_ranged_at};
ghost use Rattle.keys.specs.declared.command.Command.{Command};
ghost use Rattle.keys.specs.declared.command.Command.TheVariants.{Scan, Wipe};
ghost use Rattle.keys.specs.declared.command.Reply.{Reply};
ghost use Rattle.keys.specs.declared.command.Reply.TheVariants.{Rows, Wiped};
ghost use Rattle.keys.specs.declared.piece.Piece.{Piece};
ghost use Rattle.replies.specs.ByPlace.{AreAnswers, pieces_at, rows_of, count_of, most_counted, reply_at, blank_of, with_pieces};

use std::alloc::Allocator;

/// Adding all answers to the blank replies of a batch gives its replies: as many as commands, and at each place the
/// reply for that place. Adding pieces page by page is adding them one after the other.
pub fn blanks_with_all_answers_are_the_replies<A: Allocator>()
    ensures count { (cs : List (Command A)) (ps : List (Piece A)) →
        length (with_pieces cs ps (map blank_of cs)) ≡ length cs }
    ensures replies { (cs : List (Command A)) (ps : List (Piece A)) → AreAnswers cs ps →
        (place : ℕ) → slice_get (with_pieces cs ps (map blank_of cs)) place ≡ reply_at cs ps place }
    ensures pages { (cs : List (Command A)) (ps qs : List (Piece A)) (rs : List (Reply A)) →
        with_pieces cs (ps ++ qs) rs ≡ with_pieces cs qs (with_pieces cs ps rs) }
{}

/// The reply to a command on a single key is that of the piece at its place. The reply to a scan is the concatenated
/// rows of its pieces, in order and cut at the limit. The reply to a wipe is the sum of its pieces' counts, capped at
/// the greatest count of a reply. A list with as many replies as commands that has all these replies at their places is
/// the list of the replies.
pub fn each_piece_has_the_reply_at_its_place<A: Allocator>()
    ensures here { (cs : List (Command A)) (ps : List (Piece A)) → AreAnswers cs ps →
        All (λ p. is_ranged_at cs p.place ≡ false → reply_at cs ps p.place ≡ Some p.reply) ps }
    ensures scan { (cs : List (Command A)) (ps : List (Piece A)) (place : ℕ) (lo : Bytes)
        (hi : Option Bytes) (limit : ℕ) →
        slice_get cs place ≡ Some (Scan lo hi limit) →
        reply_at cs ps place
        ≡ Some (Rows (take limit (flat_map (λ p. rows_of p.reply) (pieces_at ps place)))) }
    ensures wipe { (cs : List (Command A)) (ps : List (Piece A)) (place : ℕ)
        (lo : Bytes) (hi : Option Bytes) →
        slice_get cs place ≡ Some (Wipe lo hi) →
        reply_at cs ps place
        ≡ Some (Wiped (min (sum_by (λ p. count_of p.reply) (pieces_at ps place)) most_counted)) }
    ensures determined { (cs : List (Command A)) (ps : List (Piece A)) (xs rs : List (Reply A)) →
        AreAnswers cs ps → ((place : ℕ) → slice_get xs place ≡ reply_at cs ps place) →
        length rs ≡ length cs →
        All (λ p. is_ranged_at cs p.place ≡ false → slice_get rs p.place ≡ Some p.reply) ps →
        ((place : ℕ) (lo : Bytes) (hi : Option Bytes) (limit : ℕ) →
        slice_get cs place ≡ Some (Scan lo hi limit) →
        slice_get rs place
        ≡ Some (Rows (take limit (flat_map (λ p. rows_of p.reply) (pieces_at ps place))))) →
        ((place : ℕ) (lo : Bytes) (hi : Option Bytes) → slice_get cs place ≡ Some (Wipe lo hi) →
        slice_get rs place
        ≡ Some (Wiped (min (sum_by (λ p. count_of p.reply) (pieces_at ps place)) most_counted))) →
        xs ≡ rs }
{}
