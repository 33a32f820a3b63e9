//! Iterates over the changes to a leaf from a key on.
ghost use Rattle.std.specs.Prelude.{◌≡◌, ◌∷◌, [], drop, MatchOption};
ghost use Rattle.std.specs.Iterator.{YieldsFirstBy, item_count};
ghost use Rattle.page_runs.specs.PageRows.{change_lent};

use crate::changes::LeafRun;
use keys::{Key, Value};
use std::alloc::Global;
use std::collections::btree_map::Range;
use std::marker::Model;

/// A changed key with its current value, or `None` if it is now absent.
pub(crate) type Change<'a> = (&'a [u8], Option<&'a Value<Global>>);

/// An iterator over the changes to a leaf from a key on, in key order. Contracts see it as the list of the remaining
/// changes.
#[derive(Drop)]
pub(crate) struct ChangesFrom<'a> {
    kept: KeptFrom<'a>,
}

#[derive(Drop)]
enum KeptFrom<'a> {
    // The run, and the place of the next change.
    Few(&'a LeafRun, usize),
    Many(Range<'a, Key<Global>, Option<Value<Global>>>),
}

impl<'a> Model for ChangesFrom<'a> {
    ghost use Rattle.std.specs.Prelude.{List, Option};
    ghost use Rattle.keys.specs.Bytes.{Bytes};
    ghost use Rattle.page_runs.specs.PageRows.{changes_left};

    ghost Value = { List (Bytes × Option Bytes) };

    ghost view = { λ c. changes_left c.kept };
}

impl<'a> ChangesFrom<'a> {
    pub(crate) fn of_run(run: &'a LeafRun, at: usize) -> Self
        ensures { result ≡ drop at run.now }
    {
        ChangesFrom {
            kept: KeptFrom::Few(run, at),
        }
    }

    pub(crate) fn of_map(range: Range<'a, Key<Global>, Option<Value<Global>>>) -> Self
        ensures { result ≡ range.entry }
    {
        ChangesFrom {
            kept: KeptFrom::Many(range),
        }
    }
}

impl<'a> Iterator for ChangesFrom<'a> {
    type Item = Change<'a>;

    ghost next_gives = { YieldsFirstBy change_lent (λ left. left) };

    ghost remaining = { item_count (λ left. left) };

    fn next(&mut self) -> Option<Change<'a>> {
        match &mut self.kept {
            KeptFrom::Few(run, at) => next_of_run(run, at),
            KeptFrom::Many(range) => next_of_map(range),
        }
    }
}

// The change of the run at place `at`, which advances to the next one.
fn next_of_run<'a>(run: &'a LeafRun, at: &mut usize) -> Option<Change<'a>>
    ensures { MatchOption result ((drop at.old run.now ≡ []) × (drop at.new run.now ≡ []))
        (λ change. drop at.old run.now ≡ change_lent change ∷ drop at.new run.now) }
{
    let here = *at;
    if here < run.len() {
        *at += 1;
        Some((run.key(here), run.change(here)))
    } else {
        None
    }
}

fn next_of_map<'a>(range: &mut Range<'a, Key<Global>, Option<Value<Global>>>) -> Option<Change<'a>>
    ensures { MatchOption result ((range.old ≡ []) × (range.new ≡ []))
        (λ change. range.old ≡ change_lent change ∷ range.new) }
{
    match range.next() {
        Some((key, change)) => Some((key.as_bytes(), change.as_ref())),
        None => None,
    }
}
