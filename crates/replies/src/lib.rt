//! The replies of a batch, combined from the answers of its pages. Other crates import items from this root, and laws
//! from the public module `laws`.
#![tactic(auto)]

mod in_turn;
pub mod laws;

ghost use Rattle.std.specs.Prelude.{◌≡◌, ◌<◌, [], map, take, length, IfOk, OnOk};
ghost use Rattle.std.specs.List.{All};
ghost use Rattle.std.specs.Option.{option_to_list};
ghost use Rattle.keys.specs.Woven.{piece_of_empty_scan};
ghost use Rattle.keys.specs.declared.command.Reply.TheVariants.{Rows};
ghost use Rattle.replies.specs.ByPlace.{IsPlaceOf, blank_of, limit_of, with_rows, with_count, with_answer, with_pieces};

pub use crate::in_turn::{LentMap, execute_in_turn};
use keys::{Command, EmptyScan, Piece, Pieces, Reply, RowList};
use std::alloc::{AllocError, Global};

/// Returns, for each command of a batch, a reply to which answers are to be added: no rows for a scan, a count of zero
/// for a wipe, and otherwise a placeholder. After `add_answers` with each page's answers, these are the replies. `Err`
/// means that the list could not be allocated.
pub fn blank_replies(
    alloc: Global,
    commands: &[Command<Global>],
) -> Result<Vec<Reply<Global>>, AllocError>
    ensures { IfOk result (λ replies. replies.items ≡ map blank_of commands.now) }
{
    let mut blanks = Vec::with_capacity(alloc, commands.len())?;
    for command in commands {
        blanks.push_reserved(blank(alloc, command));
    }
    Ok(blanks)
}

// The reply to `command` before any answer is added.
fn blank(alloc: Global, command: &Command<Global>) -> Reply<Global>
    ensures { result ≡ blank_of command.now }
{
    match command {
        Command::Scan(_, _, _) => Reply::Rows(RowList::empty(alloc)),
        Command::Wipe(_, _) => Reply::Wiped(0),
        _ => Reply::Missing,
    }
}

/// Adds the answers of a page to the replies at their commands' places. The rows of a scan are appended, up to its
/// limit, so pages must be added in key order. The counts of a wipe are summed. Replies are moved, and so are the rows
/// of a scan's first page; those of later pages are copied. `Err` means that rows could not be allocated; the replies
/// then contain some of the answers, and must be dropped.
pub fn add_answers(
    replies: &mut [Reply<Global>],
    commands: &[Command<Global>],
    pieces: Pieces<Global>,
) -> Result<(), AllocError>
    requires count { length replies.old ≡ length commands.now }
    requires within { All (IsPlaceOf commands.now) pieces }
    ensures { OnOk result (replies.new ≡ with_pieces commands.now pieces replies.old) }
{
    let (first, rest, empty_scans) = pieces.into_parts();
    add_first(replies, commands, first)?;
    add_all(replies, commands, rest)?;
    add_empty_scans(replies, commands, empty_scans);
    Ok(())
}

// Adds a page's first answer, if it has any, to the reply at its place.
fn add_first(
    replies: &mut [Reply<Global>],
    commands: &[Command<Global>],
    first: Option<Piece<Global>>,
) -> Result<(), AllocError>
    requires count { length replies.old ≡ length commands.now }
    requires within { All (IsPlaceOf commands.now) (option_to_list first) }
    ensures { OnOk result
        (replies.new ≡ with_pieces commands.now (option_to_list first) replies.old) }
{
    match first {
        Some(piece) => {
            let Piece { place, reply } = piece;
            add(&mut replies[place], &commands[place], reply)
        }
        None => Ok(()),
    }
}

// Adds each of these answers to the reply at its place.
fn add_all(
    replies: &mut [Reply<Global>],
    commands: &[Command<Global>],
    pieces: Vec<Piece<Global>>,
) -> Result<(), AllocError>
    requires count { length replies.old ≡ length commands.now }
    requires within { All (IsPlaceOf commands.now) pieces.items }
    ensures { OnOk result (replies.new ≡ with_pieces commands.now pieces.items replies.old) }
{
    for Piece { place, reply } in pieces {
        add(&mut replies[place], &commands[place], reply)?;
    }
    Ok(())
}

// Adds these answers of scans without rows to the replies at their places.
fn add_empty_scans(
    replies: &mut [Reply<Global>],
    commands: &[Command<Global>],
    empty_scans: Vec<EmptyScan>,
)
    requires count { length replies.old ≡ length commands.now }
    requires within { All (λ r. r.place < length commands.now) empty_scans.items }
    ensures { replies.new ≡ with_pieces commands.now (map piece_of_empty_scan empty_scans.items) replies.old }
{
    for EmptyScan { place, before: _ } in empty_scans {
        let place = place as usize;
        cut(&mut replies[place], limit_of(&commands[place]));
    }
}

// Adds an answer to the reply at its command's place.
fn add(
    at: &mut Reply<Global>,
    command: &Command<Global>,
    reply: Reply<Global>,
) -> Result<(), AllocError>
    ensures { OnOk result (at.new ≡ with_answer (limit_of command.now) at.old reply) }
{
    match reply {
        Reply::Rows(rows) => add_rows(at, rows, limit_of(command)),
        Reply::Wiped(count) => {
            add_count(at, count);
            Ok(())
        }
        reply => {
            *at = reply;
            Ok(())
        }
    }
}

// Appends rows to the reply, and drops rows past `limit`.
fn add_rows(at: &mut Reply<Global>, more: RowList<Global>, limit: usize) -> Result<(), AllocError>
    ensures { OnOk result (at.new ≡ with_rows limit at.old more) }
{
    if let Reply::Rows(rows) = at {
        if rows.len() < limit {
            rows.append(more)?;
        }
        rows.truncate(limit);
    }
    Ok(())
}

// Drops the rows past `limit`, as if no rows were added.
fn cut(at: &mut Reply<Global>, limit: usize)
    ensures { at.new ≡ with_rows limit at.old [] }
{
    if let Reply::Rows(rows) = at {
        rows.truncate(limit);
    }
}

// Adds a count to the reply, capped at the greatest `u128`.
fn add_count(at: &mut Reply<Global>, more: u128)
    ensures { at.new ≡ with_count at.old more }
{
    if let Reply::Wiped(count) = at {
        *count = count.saturating_add(more);
    }
}

// The most rows of the reply to `command`; only a scan's reply has rows.
fn limit_of(command: &Command<Global>) -> usize
    ensures { result ≡ limit_of command.now }
{
    match command {
        Command::Scan(_, _, limit) => *limit as usize,
        _ => 0,
    }
}
