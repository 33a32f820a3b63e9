//! The scans and wipes that reach a page from the left: they begin in an earlier page.
ghost use Rattle.std.specs.Prelude.{◌≡◌, ◌++◌, Some, IfOk};
ghost use Rattle.std.specs.List.{filter, list_any};
ghost use Rattle.std.specs.Option.{option_copied, option_or};
ghost use Rattle.keys.specs.Narrowed.{with_end};
ghost use Rattle.keys.specs.Places.{is_ranged_at};
ghost use Rattle.index_page.specs.Range.{is_before};
ghost use Rattle.routing.specs.Idle.{gives, gives_at, covers, empties};
ghost use Rattle.routing.specs.Keyed.{places_of};
ghost use Rattle.routing.specs.Shares.{first_emptying, upto, without_idle};
ghost use Rattle.routing.specs.SortedPlaces.{reaches, reaches_at};

use crate::batch::BatchWithEnds;
use crate::sort::Keyed;
use keys::{Command, Key, compare, is_before};
use std::alloc::{AllocError, Global};

/// Whether one of these entries is the place of a command on a range of keys.
pub(crate) fn has_range_at(batch: &BatchWithEnds<'_>, keyed: &[Keyed<'_>]) -> bool
    ensures { result ≡ list_any (λ entry. is_ranged_at batch.now entry.1) keyed.now }
{
    keyed.iter().any(|entry| batch.is_ranged_at(entry.1))
}

/// The scans and wipes that continue into the page with low key `low`, from those that reach the page before it and
/// from the commands that begin there. Does not allocate if there are none.
pub(crate) fn going_on(
    alloc: Global,
    batch: &BatchWithEnds<'_>,
    reaching: &[usize],
    keyed: &[Keyed<'_>],
    low: &[u8],
) -> Result<Vec<usize>, AllocError>
    ensures { IfOk result (λ on. on.items ≡
        filter (reaches_at batch.now low.now) (reaching.now ++ places_of keyed.now)) }
{
    reaching
        .iter()
        .copied()
        .chain(keyed.iter().map(|entry| entry.1))
        .filter(|place| batch.reaches_at(*place, low))
        .collect(alloc)
}

/// Those of the scans and wipes reaching a page from the left that may find something there: all of them if a command
/// that begins in the page sets a value, else those up to the first wipe of the whole page.
pub(crate) fn without_idle(
    alloc: Global,
    batch: &BatchWithEnds<'_>,
    end: Option<&[u8]>,
    keyed: &[Keyed<'_>],
    reaching: Vec<usize>,
) -> Result<Vec<usize>, AllocError>
    ensures { IfOk result (λ kept. kept.items ≡
        without_idle batch.now (option_copied end.entry) (places_of keyed.now) reaching.items) }
{
    let Some(last) = first_emptying(batch, end, &reaching) else {
        return Ok(reaching);
    };
    if gives_any(batch, keyed) {
        return Ok(reaching);
    }
    upto(alloc, &reaching, last)
}

// The first of these places whose command wipes the whole page that ends at `end`.
fn first_emptying(
    batch: &BatchWithEnds<'_>,
    end: Option<&[u8]>,
    reaching: &[usize],
) -> Option<usize>
    ensures { result ≡ first_emptying batch.now (option_copied end.entry) reaching.now }
{
    reaching
        .iter()
        .copied()
        .filter(|place| batch.empties_at(*place, end))
        .min()
}

// Whether one of these commands sets the value of a key.
fn gives_any(batch: &BatchWithEnds<'_>, keyed: &[Keyed<'_>]) -> bool
    ensures { result ≡ list_any (λ entry. gives_at batch.now entry.1) keyed.now }
{
    keyed.iter().any(|entry| batch.gives_at(entry.1))
}

fn upto(alloc: Global, places: &[usize], last: usize) -> Result<Vec<usize>, AllocError>
    ensures { IfOk result (λ kept. kept.items ≡ upto (Some last) places.now) }
{
    places
        .iter()
        .copied()
        .filter(|place| *place <= last)
        .collect(alloc)
}

/// Whether the command is a wipe that covers all keys from its lower bound up to `end`.
pub(crate) fn empties(command: &Command<Global>, end: Option<&[u8]>) -> bool
    ensures { result ≡ empties (option_copied end.entry) command.now }
{
    match command {
        Command::Wipe(_, hi) => covers(end, hi),
        _ => false,
    }
}

pub(crate) fn gives(command: &Command<Global>) -> bool
    ensures { result ≡ gives command.now }
{
    matches!(command, Command::Put(_, _) | Command::Add(_, _))
}

// Whether all keys before `end` are below the upper bound.
fn covers(end: Option<&[u8]>, hi: &Option<Key<Global>>) -> bool
    ensures { result ≡ covers (option_copied end.entry) hi.now }
{
    match hi {
        Some(hi) => match end {
            Some(end) => !compare(hi.as_bytes(), end).is_lt(),
            None => false,
        },
        None => true,
    }
}

/// Whether the command is a scan or a wipe that begins below `low` and ends above it. A scan ends at its closer end, if
/// it has one, else at its upper bound.
pub(crate) fn reaches(command: &Command<Global>, end: Option<&[u8]>, low: &[u8]) -> bool
    ensures { result ≡ reaches low.now (with_end (option_copied end.entry) command.now) }
{
    match command {
        Command::Get(_) => false,
        Command::Put(_, _) => false,
        Command::Add(_, _) => false,
        Command::Del(_) => false,
        Command::Scan(lo, hi, _) => compare(lo.as_bytes(), low).is_lt()
            && is_before_end(end, hi, low),
        Command::Wipe(lo, hi) => compare(lo.as_bytes(), low).is_lt()
            && is_before_end(None, hi, low),
    }
}

// Whether `key` is below the closer end, or if there is none, below the upper bound.
fn is_before_end(end: Option<&[u8]>, hi: &Option<Key<Global>>, key: &[u8]) -> bool
    ensures { result ≡ is_before (option_or (option_copied end.entry) hi.now) key.now }
{
    match end {
        Some(end) => is_before(Some(end), key),
        None => match hi {
            Some(hi) => is_before(Some(hi.as_bytes()), key),
            None => true,
        },
    }
}
