//! Iterates over a leaf in either direction: merges the changes of its runs with its base.
ghost use Rattle.std.specs.Prelude.{◌≡◌, ◌<◌, [], length, slice_get, Some, MatchOption};
ghost use Rattle.std.specs.Map.{keys_of};
ghost use Rattle.std.specs.Option.{option_copied};
ghost use Rattle.keys.specs.Bytes.{Bytes};
ghost use Rattle.delta_chain.specs.Layers.{with_run};
ghost use Rattle.delta_chain.specs.Merging.{pair_if};
ghost use Rattle.scan.specs.Direction.{IsNext, after, in_turn, left_at, until};
ghost use Rattle.scan.specs.Edge.{beyond, is_under};
ghost use Rattle.scan.specs.Merge.{merged, ArePairsNext, HasUntil};

use crate::ahead::Ahead;
use crate::direction::{Direction, Towards, next_place};
use crate::edge::{Edge, count_under};
use delta_chain::{Base, ChangeList, KeyList};
use keys::{KeyRef, Value};
use std::alloc::Global;
use std::cmp::Ordering;
use std::marker::{Model, PhantomData};

/// A merge of a leaf's base with the changes of its runs, with a place in each. Contracts see it as the remaining
/// changes and base pairs, in key order.
#[derive(Drop)]
pub(crate) struct Merge<'a, W: Towards> {
    base: &'a Base<Value<Global>, Global>,
    at: usize,
    ahead: Ahead,
    changes: ChangeList<'a, Value<Global>, Global>,
    change_at: usize,
    changes_ahead: Ahead,
    towards: PhantomData<W>,
}

impl<'a, W: Towards> Model for Merge<'a, W> {
    ghost use Rattle.scan.specs.Direction.{left_at};
    ghost use Rattle.scan.specs.Merge.{Merged};

    ghost Value = { Merged };

    ghost view = { λ m. record {
      changes = left_at W.direction m.change_at m.changes;
      pairs = left_at W.direction m.at m.base.now;
    } };
}

impl<'a, W: Towards> Merge<'a, W> {
    // Takes one binary search in the base, and one in the changes.
    pub(crate) fn new(
        base: &'a Base<Value<Global>, Global>,
        changes: ChangeList<'a, Value<Global>, Global>,
        edge: &Edge<'_>,
    ) -> Self
        ensures { merged result
            ≡ beyond W.direction (is_under edge.now) (with_run base.now changes.entry) }
    {
        Merge {
            base,
            at: count_under(base, edge),
            ahead: Ahead::new(),
            change_at: count_under(&changes, edge),
            changes,
            changes_ahead: Ahead::new(),
            towards: PhantomData,
        }
    }

    // Removes and returns the next change, unless a pair of the base comes before it. Also skips the base pair with the
    // same key.
    pub(crate) fn take_change(&mut self) -> Option<(&'a [u8], Option<&'a Value<Global>>)>
        ensures { MatchOption result
            ((self.new ≡ self.old)
            × ArePairsNext W.direction self.old.changes self.old.pairs)
            (λ c. (merged self.old
            ≡ in_turn W.direction (pair_if c.0.now (option_copied c.1)) (merged self.new))
            × (length self.new.changes < length self.old.changes)) }
    {
        let (place, later) = next_place(W::direction(), self.change_at, self.changes.len())?;
        // Only for the proof: the keys of the base rise.
        let _rising = self.base.len();
        let at = past(W::direction(), self.base, self.at, &self.changes, place)?;
        self.at = at;
        self.change_at = later;
        self.changes_ahead
            .pass(W::direction(), &self.changes, place);
        Some(self.changes.change(place))
    }

    // The base's next pair, before which there is no change.
    pub(crate) fn take_pair(&mut self) -> Option<(&'a [u8], &'a Value<Global>)>
        requires { ArePairsNext W.direction self.old.changes self.old.pairs }
        ensures { MatchOption result ((merged self.old ≡ []) × (merged self.new ≡ []))
            (λ p. IsNext W.direction (merged self.old) (p.0.now, p.1.now) (merged self.new)) }
    {
        // Only for the proof: the keys of the changes rise.
        let _rising = self.changes.len();
        let base = self.base;
        let (place, at) = next_place(W::direction(), self.at, base.len())?;
        self.at = at;
        self.ahead.pass(W::direction(), base, place);
        Some((base.key(place), base.cell(place)))
    }
}

// Removes and returns the next pair that is present after the changes.
pub(crate) fn next_pair<'a, W: Towards>(
    merge: &mut Merge<'a, W>,
) -> Option<(&'a [u8], &'a Value<Global>)>
    ensures { MatchOption result ((merged merge.old ≡ []) × (merged merge.new ≡ []))
        (λ p. IsNext W.direction (merged merge.old) (p.0.now, p.1.now) (merged merge.new)) }
{
    loop {
        let Some((key, said)) = merge.take_change() else {
            return merge.take_pair();
        };
        if let Some(value) = said {
            return Some((key, value));
        }
    }
}

// The place in a base after the key of the change at `change_place`, for an iteration that is at `at`, or `None` if the
// base's next pair comes before that key.
fn past(
    direction: Direction,
    base: &Base<Value<Global>, Global>,
    at: usize,
    changes: &ChangeList<'_, Value<Global>, Global>,
    change_place: usize,
) -> Option<usize>
    requires { change_place < length changes.now }
    ensures { (k : Bytes) → slice_get (keys_of changes.now) change_place ≡ Some k →
        MatchOption result (HasUntil direction k (left_at direction at base.now))
        (λ later. (until direction k (left_at direction at base.now) ≡ [])
        × (left_at direction later base.now
        ≡ after direction k (left_at direction at base.now))) }
{
    let Some((place, later)) = next_place(direction, at, base.len()) else {
        return Some(at);
    };
    let order = changes.compare_at(change_place, &base.key_ref(place));
    match direction {
        Direction::Up => match order {
            Ordering::Less => Some(at),
            Ordering::Equal => Some(later),
            Ordering::Greater => None,
        },
        Direction::Down => match order {
            Ordering::Less => None,
            Ordering::Equal => Some(later),
            Ordering::Greater => Some(at),
        },
    }
}
