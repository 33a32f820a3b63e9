//! The run of a parent whose children were rewritten.
ghost use Rattle.std.specs.Prelude.{◌≡◌, ◌<◌, ◌+◌, [], ◌∷◌, ⊤, length, IfOk, MatchOption};
ghost use Rattle.keys.specs.Order.{IsRising};
ghost use Rattle.delta_chain.specs.Layers.{with_run};
ghost use Rattle.split_plan.specs.Terms.{absent, present, front_order};

use crate::name::Separator;
use delta_chain::Run;
use keys::{Key, Pid};
use std::alloc::{AllocError, Global};
use std::cmp::Ordering;
use std::collections::VecDeque;

/// Returns the run of a parent's terms. `freed` has the entries of the freed members of its groups, and `fresh` those
/// of the new pages, both by rising low key. The run deletes the low keys of freed members and sets those of new pages
/// to their page ids; a key in both lists is a new page's. Keys are moved into the run. `Err` means that allocation
/// failed.
pub fn terms(
    alloc: Global,
    freed: Vec<Separator>,
    fresh: Vec<Separator>,
) -> Result<Run<Pid, Global>, AllocError>
    requires freed { IsRising freed.items }
    requires fresh { IsRising fresh.items }
    ensures { IfOk result (λ run. run ≡ with_run (absent freed.items) (present fresh.items)) }
{
    let Some(room) = freed.len().checked_add(fresh.len()) else {
        return Err(AllocError);
    };
    let mut run = Run::with_capacity(alloc, room)?;
    let mut gone = VecDeque::from(freed);
    let mut come = VecDeque::from(fresh);
    while let Some(term) = next_term(&mut gone, &mut come) {
        run.push_next(term.0, term.1)?;
    }
    Ok(run)
}

// Removes the least key from both lists and returns its term: that of the new page if both have it. Returns `None` if
// both are empty.
fn next_term(
    freed: &mut VecDeque<Separator>,
    fresh: &mut VecDeque<Separator>,
) -> Option<(Key<Global>, Option<Pid>)>
    requires freed { IsRising freed.old.items }
    requires fresh { IsRising fresh.old.items }
    ensures freed { IsRising freed.new.items }
    ensures fresh { IsRising fresh.new.items }
    ensures terms { MatchOption result
        (with_run (absent freed.old.items) (present fresh.old.items) ≡ [])
        (λ term. with_run (absent freed.old.items) (present fresh.old.items)
        ≡ term ∷ with_run (absent freed.new.items) (present fresh.new.items)) }
    ensures fewer { MatchOption result ⊤
        (λ _. length freed.new.items + length fresh.new.items
        < length freed.old.items + length fresh.old.items) }
{
    match front_order(freed, fresh) {
        Ordering::Less => {
            let member = freed.pop_front()?;
            Some((member.low, None))
        }
        Ordering::Equal => {
            let _replaced = freed.pop_front();
            let both = fresh.pop_front()?;
            Some((both.low, Some(both.pid)))
        }
        Ordering::Greater => {
            let piece = fresh.pop_front()?;
            Some((piece.low, Some(piece.pid)))
        }
    }
}

// Compares the first freed key to the first fresh one; an empty list counts as greater than every key.
fn front_order(freed: &VecDeque<Separator>, fresh: &VecDeque<Separator>) -> Ordering
    ensures { result ≡ front_order freed.now.items fresh.now.items }
{
    match (freed.front(), fresh.front()) {
        (None, _) => Ordering::Greater,
        (Some(_), None) => Ordering::Less,
        (Some(gone), Some(come)) => gone.low.cmp(&come.low),
    }
}
