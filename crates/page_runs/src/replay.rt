//! Executes the commands of one page. The changes so far lie over the page like a run, and the final changes are the net
//! run.
ghost use Rattle.std.specs.Prelude.{◌≡◌, ◌≤◌, [], length, min, Some, None, is_some, if◌then◌else◌, IfOk, OnOk};
ghost use Rattle.std.specs.Map.{keys_of};
ghost use Rattle.keys.specs.OrderedMap.{value_at, with_pair};
ghost use Rattle.keys.specs.PlacedPieces.{by_place};
ghost use Rattle.keys.specs.Range.{in_range, rows};
ghost use Rattle.keys.specs.Step.{found, reply_to, map_after, replies_to};
ghost use Rattle.keys.specs.declared.command.Reply.TheVariants.{New, Replaced, Added, Exists, Deleted, Missing, Wiped};
ghost use Rattle.delta_chain.specs.Layers.{entries_of, IsInOrder};
ghost use Rattle.page_runs.specs.NetRun.{noted_by, net_run};
ghost use Rattle.page_runs.specs.Replay.{map_by_now, with_absent, entries_after, most_after};
ghost use Rattle.page_runs.specs.Replies.{commands_at, pieces_of, ArePlacesOf};

use crate::changes::{Changes, LeafChain, LeafRun};
use crate::kinds::Kinds;
use crate::page_rows::{keys_within, rows_of};
use crate::places::{are_points_by_key, sorted};
use delta_chain::EntryBounds;
use keys::{Command, Key, Piece, Pieces, Reply, RowList, Value};
use routing::PageRun;
use std::alloc::{AllocError, Global};

/// Returns what `replay` returns for the commands of a page's run in the order of the batch. If all of them only read, or
/// are on one key each and in the order of their keys, it executes them in the order in which the run has them, because
/// the result is the same.
pub(crate) fn replay_run(
    alloc: Global,
    commands: &[Command<Global>],
    page: &LeafChain,
    page_run: &PageRun,
) -> Result<(LeafRun, Pieces<Global>, EntryBounds), AllocError>
    requires { ArePlacesOf commands.now page_run.now.places }
    ensures run { IfOk result
        (λ r. r.0 ≡ net_run (entries_of page.now) (commands_at commands.now page_run.now.places)) }
    ensures pieces { IfOk result (λ r. r.1 ≡ pieces_of page_run.now.places
        (replies_to (entries_of page.now) (commands_at commands.now page_run.now.places))) }
    ensures fewest { IfOk result (λ r. r.2.fewest ≤ length (map_by_now page.now r.0)) }
    ensures most { IfOk result (λ r. min (length (map_by_now page.now r.0)) usize.MAX ≤ r.2.most) }
{
    // Only for the proof: the contract of `depth` says that the page is in order.
    let _in_order = page.depth();
    let places = page_run.places();
    let kinds = Kinds::of(commands, places);
    if kinds.writes == 0 {
        return replay(alloc, commands, page, places, &kinds, false);
    }
    if are_points_by_key(commands, places) {
        return replay(alloc, commands, page, places, &kinds, true);
    }
    if places.is_sorted() {
        return replay(alloc, commands, page, places, &kinds, false);
    }
    let sorted = sorted(alloc, places)?;
    replay(alloc, commands, page, &sorted, &kinds, false)
}

// Executes the commands at these places in this order. Returns their net run, the page's answer to each of them, and the
// bounds on its number of entries afterwards: the old bounds, plus one for each reply that an entry was added, minus one
// for each deleted entry, and minus the number of wiped ones. `kinds` counts the commands, and `by_key` tells whether they
// are on one key each and in the order of their keys; both affect only the representation of the result.
fn replay(
    alloc: Global,
    commands: &[Command<Global>],
    page: &LeafChain,
    places: &[usize],
    kinds: &Kinds,
    by_key: bool,
) -> Result<(LeafRun, Pieces<Global>, EntryBounds), AllocError>
    requires { ArePlacesOf commands.now places.now }
    ensures run { IfOk result
        (λ r. r.0 ≡ net_run (entries_of page.now) (commands_at commands.now places.now)) }
    ensures pieces { IfOk result (λ r. r.1 ≡ by_place (pieces_of places.now
        (replies_to (entries_of page.now) (commands_at commands.now places.now)))) }
    ensures fewest { IfOk result (λ r. r.2.fewest ≤ length (map_by_now page.now r.0)) }
    ensures most { IfOk result (λ r. min (length (map_by_now page.now r.0)) usize.MAX ≤ r.2.most) }
{
    let mut pieces = Pieces::with_capacity(alloc, kinds.room())?;
    let mut changes = Changes::for_commands(alloc, kinds.writes, by_key);
    let bounds = execute_all(alloc, commands, page, places, &mut changes, &mut pieces)?;
    Ok((changes.into_run(alloc)?, pieces, bounds))
}

// Executes the commands at these places, with no changes and no answers at first. Returns the bounds on the number of
// entries afterwards.
fn execute_all(
    alloc: Global,
    commands: &[Command<Global>],
    page: &LeafChain,
    places: &[usize],
    changes: &mut Changes,
    pieces: &mut Pieces<Global>,
) -> Result<EntryBounds, AllocError>
    requires places { ArePlacesOf commands.now places.now }
    requires unchanged { changes.old ≡ [] }
    requires unanswered { pieces.old ≡ [] }
    ensures changes { OnOk result
        (changes.new ≡ net_run (entries_of page.now) (commands_at commands.now places.now)) }
    ensures pieces { OnOk result (pieces.new ≡ by_place (pieces_of places.now
        (replies_to (entries_of page.now) (commands_at commands.now places.now)))) }
    ensures fewest { IfOk result (λ bounds. bounds.fewest ≤ length (map_by_now page.now changes.new)) }
    ensures most { IfOk result
        (λ bounds. min (length (map_by_now page.now changes.new)) usize.MAX ≤ bounds.most) }
{
    // Only for the proof: the contract of `depth` says that the page is in order.
    let _in_order = page.depth();
    let mut bounds = page.bounds();
    for place in places {
        let reply = execute(alloc, page, changes, &commands[*place], bounds.most)?;
        bounds = bounds_after(bounds, &reply);
        pieces.push(Piece {
            place: *place,
            reply,
        })?;
    }
    Ok(bounds)
}

// The bounds on the number of entries after a command.
fn bounds_after(before: EntryBounds, reply: &Reply<Global>) -> EntryBounds
    ensures fewest { result.fewest ≡ min (entries_after before.fewest reply.now) usize.MAX }
    ensures most { result.most ≡ most_after usize.MAX before.most reply.now }
    ensures within { before.most ≤ usize.MAX }
{
    EntryBounds {
        fewest: entries_after(before.fewest, reply),
        most: most_after(before.most, reply),
    }
}

// The upper bound after a command. The greatest `usize` means that no bound is known.
fn most_after(before: usize, reply: &Reply<Global>) -> usize
    ensures { result ≡ most_after usize.MAX before reply.now }
{
    if before == usize::MAX {
        return before;
    }
    entries_after(before, reply)
}

// The number of entries after a command, capped at the greatest `usize`. The reply shows how many were added or
// deleted.
fn entries_after(before: usize, reply: &Reply<Global>) -> usize
    ensures { result ≡ min (entries_after before reply.now) usize.MAX }
{
    match reply {
        Reply::New => before.saturating_add(1),
        Reply::Added => before.saturating_add(1),
        Reply::Deleted => before.saturating_sub(1),
        Reply::Wiped(count) => (before as u128).saturating_sub(*count) as usize,
        _ => before,
    }
}

// Executes the command on the page with the changes so far, which has at most `most` entries. If it has none, no range
// is searched.
fn execute(
    alloc: Global,
    page: &LeafChain,
    changes: &mut Changes,
    command: &Command<Global>,
    most: usize,
) -> Result<Reply<Global>, AllocError>
    requires order { IsInOrder page.now }
    requires most { min (length (map_by_now page.now changes.old)) usize.MAX ≤ most }
    ensures reply { let before = map_by_now page.now changes.old in
        IfOk result (λ reply. reply ≡ reply_to before command.now) }
    ensures changes { let before = map_by_now page.now changes.old in OnOk result
        (changes.new ≡ noted_by (map_after before command.now) before command.now changes.old) }
{
    match command {
        Command::Get(key) => get(alloc, page, changes, key),
        Command::Put(key, value) => put(alloc, page, changes, key, value),
        Command::Add(key, value) => add(alloc, page, changes, key, value),
        Command::Del(key) => del(alloc, page, changes, key),
        Command::Scan(low, end, limit) => {
            let rows = scan(alloc, page, changes, low, end, *limit, most)?;
            Ok(Reply::Rows(rows))
        }
        Command::Wipe(low, end) => wipe(alloc, page, changes, low, end, most),
    }
}

fn get(
    alloc: Global,
    page: &LeafChain,
    changes: &Changes,
    key: &Key<Global>,
) -> Result<Reply<Global>, AllocError>
    requires { IsInOrder page.now }
    ensures { IfOk result
        (λ reply. reply ≡ found (value_at key.now (map_by_now page.now changes.now))) }
{
    match changes.value_now(page, key) {
        Some(value) => Ok(Reply::Value(value.copy(alloc)?)),
        None => Ok(Reply::Missing),
    }
}

fn put(
    alloc: Global,
    page: &LeafChain,
    changes: &mut Changes,
    key: &Key<Global>,
    value: &Value<Global>,
) -> Result<Reply<Global>, AllocError>
    requires { IsInOrder page.now }
    ensures reply { IfOk result
        (λ reply. reply ≡ (if is_some (value_at key.now (map_by_now page.now changes.old))
        then Replaced else New)) }
    ensures changes { OnOk result (changes.new ≡ with_pair changes.old key.now (Some value.now)) }
{
    let reply = match changes.value_now(page, key) {
        Some(_) => Reply::Replaced,
        None => Reply::New,
    };
    changes.note(alloc, key, Some(value))?;
    Ok(reply)
}

fn add(
    alloc: Global,
    page: &LeafChain,
    changes: &mut Changes,
    key: &Key<Global>,
    value: &Value<Global>,
) -> Result<Reply<Global>, AllocError>
    requires { IsInOrder page.now }
    ensures reply { IfOk result
        (λ reply. reply ≡ (if is_some (value_at key.now (map_by_now page.now changes.old))
        then Exists else Added)) }
    ensures changes { OnOk result
        (changes.new ≡ (if is_some (value_at key.now (map_by_now page.now changes.old))
        then changes.old else with_pair changes.old key.now (Some value.now))) }
{
    if changes.value_now(page, key).is_some() {
        return Ok(Reply::Exists);
    }
    changes.note(alloc, key, Some(value))?;
    Ok(Reply::Added)
}

fn del(
    alloc: Global,
    page: &LeafChain,
    changes: &mut Changes,
    key: &Key<Global>,
) -> Result<Reply<Global>, AllocError>
    requires { IsInOrder page.now }
    ensures reply { IfOk result
        (λ reply. reply ≡ (if is_some (value_at key.now (map_by_now page.now changes.old))
        then Deleted else Missing)) }
    ensures changes { OnOk result
        (changes.new ≡ (if is_some (value_at key.now (map_by_now page.now changes.old))
        then with_pair changes.old key.now None else changes.old)) }
{
    if changes.value_now(page, key).is_none() {
        return Ok(Reply::Missing);
    }
    changes.note(alloc, key, None)?;
    Ok(Reply::Deleted)
}

fn scan(
    alloc: Global,
    page: &LeafChain,
    changes: &Changes,
    low: &Key<Global>,
    end: &Option<Key<Global>>,
    limit: u32,
    most: usize,
) -> Result<RowList<Global>, AllocError>
    requires order { IsInOrder page.now }
    requires most { min (length (map_by_now page.now changes.now)) usize.MAX ≤ most }
    ensures { IfOk result
        (λ list. list ≡ rows low.now end.now limit (map_by_now page.now changes.now)) }
{
    if most == 0 {
        return Ok(RowList::empty(alloc));
    }
    rows_of(alloc, page, changes, low, end, limit)
}

// Deletes the keys of a range. Lists them before it records the first deletion, so that the range is searched once.
fn wipe(
    alloc: Global,
    page: &LeafChain,
    changes: &mut Changes,
    low: &Key<Global>,
    end: &Option<Key<Global>>,
    most: usize,
) -> Result<Reply<Global>, AllocError>
    requires order { IsInOrder page.now }
    requires most { min (length (map_by_now page.now changes.old)) usize.MAX ≤ most }
    ensures reply { IfOk result (λ reply. reply
        ≡ Wiped (length (in_range low.now end.now (map_by_now page.now changes.old)))) }
    ensures changes { OnOk result (changes.new ≡ with_absent changes.old
        (keys_of (in_range low.now end.now (map_by_now page.now changes.old)))) }
{
    if most == 0 {
        return Ok(Reply::Wiped(0));
    }
    let keys = keys_within(alloc, page, changes, low, end)?;
    let count = keys.len() as u128;
    note_absent(alloc, changes, keys)?;
    Ok(Reply::Wiped(count))
}

fn note_absent(
    alloc: Global,
    changes: &mut Changes,
    keys: Vec<Key<Global>>,
) -> Result<(), AllocError>
    ensures { OnOk result (changes.new ≡ with_absent changes.old keys.items) }
{
    for key in keys {
        changes.set(alloc, key, None)?;
    }
    Ok(())
}
