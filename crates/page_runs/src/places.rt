//! Checks the order of a page's commands, and sorts them into the order of the batch.
ghost use Rattle.std.specs.Prelude.{◌≡◌, true, false, IfOk, IfSome};
ghost use Rattle.std.specs.List.Sorted.{IsPermutation, IsNonDecreasing};
ghost use Rattle.std.specs.declared.cmp.Ordering.TheVariants.{Less};
ghost use Rattle.keys.specs.Places.{is_ranged_at};
ghost use Rattle.routing.specs.BatchKeys.{key_at};
ghost use Rattle.routing.specs.Shares.{ArePoints};
ghost use Rattle.routing.specs.SortedPlaces.{order_of_places, AreInKeyOrder};

use keys::{Command, KeyRef};
use std::alloc::{AllocError, Global};
use std::cmp::Ordering;

/// Returns whether there are at least two places, and the commands at them are on one key each and in the order of their
/// keys; equal keys must be in the order of the batch.
pub(crate) fn are_points_by_key(commands: &[Command<Global>], places: &[usize]) -> bool
    ensures points { result ≡ true → ArePoints commands.now places.now }
    ensures in_order { result ≡ true → AreInKeyOrder commands.now places.now }
{
    for at in 1..places.len() {
        if !are_in_order(commands, places[at - 1], places[at]) {
            return false;
        }
    }
    places.len() > 1
}

// Returns whether the commands at these two places are on one key each and in the order of their keys.
#[inline]
fn are_in_order(commands: &[Command<Global>], one: usize, next: usize) -> bool
    ensures one { result ≡ true → is_ranged_at commands.now one ≡ false }
    ensures next { result ≡ true → is_ranged_at commands.now next ≡ false }
    ensures order { result ≡ true → order_of_places commands.now one next ≡ Less }
{
    match (point_key(commands, one), point_key(commands, next)) {
        (Some(key), Some(next_key)) => match key.compare(&next_key) {
            Ordering::Less => true,
            Ordering::Equal => one < next,
            Ordering::Greater => false,
        },
        _ => false,
    }
}

// Returns the key of the command at this place, unless it is a scan or a wipe.
#[inline]
fn point_key<'a>(commands: &'a [Command<Global>], place: usize) -> Option<KeyRef<'a>>
    ensures key { IfSome result (λ key. key ≡ key_at commands.now place) }
    ensures point { IfSome result (λ key. is_ranged_at commands.now place ≡ false) }
{
    match commands.get(place) {
        Some(command) if !command.is_ranged() => Some(KeyRef::new(command.key().as_bytes())),
        _ => None,
    }
}

/// Returns these places, sorted. Fails with `AllocError` if memory runs out.
pub(crate) fn sorted(alloc: Global, places: &[usize]) -> Result<Vec<usize>, AllocError>
    ensures same { IfOk result (λ sorted. IsPermutation places.now sorted.items) }
    ensures rising { IfOk result (λ sorted. IsNonDecreasing sorted.items) }
{
    let mut sorted: Vec<usize> = places.iter().copied().collect(alloc)?;
    sorted.sort_unstable();
    Ok(sorted)
}
