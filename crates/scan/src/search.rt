//! Iterates over a leaf with many runs in either direction: searches each next key.
ghost use Rattle.std.specs.Prelude.{◌≡◌, [], not, MatchOption};
ghost use Rattle.std.specs.List.{filter};
ghost use Rattle.std.specs.Option.{option_map};
ghost use Rattle.delta_chain.specs.Layers.{entries_of, IsInOrder};
ghost use Rattle.scan.specs.Direction.{IsNext, precedes};
ghost use Rattle.scan.specs.Edge.{beyond, is_under};
ghost use Rattle.scan.specs.Search.{left_with, NamesNone, AreNamedFrom, IsPassed};

use crate::direction::{Direction, Towards, next_place};
use crate::edge::{Edge, count_under};
use delta_chain::{Chain, ChainRef};
use keys::{KeyRef, Value};
use page_search::{Probes, above, find, floor};
use std::alloc::Global;
use std::marker::{Model, PhantomData};

/// An iteration over a leaf that searches for each next key. Contracts see it as the list of the remaining pairs, in key
/// order.
#[derive(Drop)]
pub(crate) struct Search<'a, W: Towards> {
    chain: &'a Chain<Value<Global>, Global>,
    next: Option<(&'a [u8], &'a Value<Global>)>,
    towards: PhantomData<W>,
}

impl<'a, W: Towards> Model for Search<'a, W> {
    ghost use Rattle.std.specs.Option.{option_map};
    ghost use Rattle.keys.specs.Bytes.{Bytes, Pairs};
    ghost use Rattle.delta_chain.specs.Layers.{entries_of};
    ghost use Rattle.scan.specs.Search.{left_with};

    ghost Value = { Pairs Bytes };

    ghost view = { λ s. left_with W.direction
        (option_map (λ e. (e.0.now, e.1.now)) s.next) (entries_of s.chain.now) };
}

impl<'a, W: Towards> Search<'a, W> {
    pub(crate) fn new(chain: &'a Chain<Value<Global>, Global>, edge: &Edge<'_>) -> Self
        ensures { result ≡ beyond W.direction (is_under edge.now) (entries_of chain.now) }
    {
        Search {
            chain,
            next: next_from::<W>(chain, edge),
            towards: PhantomData,
        }
    }

    pub(crate) fn next(&mut self) -> Option<(&'a [u8], &'a Value<Global>)>
        ensures { MatchOption result ((self.old ≡ []) × (self.new ≡ []))
            (λ p. IsNext W.direction self.old (p.0.now, p.1.now) self.new) }
    {
        match self.next {
            Some((key, value)) => {
                self.next = next_from::<W>(self.chain, &past_key(W::direction(), key));
                Some((key, value))
            }
            None => None,
        }
    }
}

// The edge from which an iteration continues after `key`.
#[inline]
fn past_key<'a>(direction: Direction, key: &'a [u8]) -> Edge<'a>
    ensures { IsPassed direction key.now (is_under result) }
{
    match direction {
        Direction::Up => Edge::After(key),
        Direction::Down => Edge::Before(key),
    }
}

// The next pair beyond the edge. No pair lies between the edge and the next key that a list contains.
fn next_from<'a, W: Towards>(
    chain: &'a Chain<Value<Global>, Global>,
    edge: &Edge<'_>,
) -> Option<(&'a [u8], &'a Value<Global>)>
    ensures { left_with W.direction (option_map (λ e. (e.0.now, e.1.now)) result)
        (entries_of chain.now)
        ≡ beyond W.direction (is_under edge.now) (entries_of chain.now) }
{
    let _in_order = chain.depth();
    let key = next_named::<W>(&chain.lent(), edge)?;
    nearest(W::direction(), chain, key.as_bytes())
}

// The pair at `key`, or else the next one.
fn nearest<'a>(
    direction: Direction,
    chain: &'a Chain<Value<Global>, Global>,
    key: &[u8],
) -> Option<(&'a [u8], &'a Value<Global>)>
    requires { IsInOrder chain.now }
    ensures { left_with direction (option_map (λ e. (e.0.now, e.1.now)) result)
        (entries_of chain.now)
        ≡ filter (λ e. not (precedes direction e.0 key.now)) (entries_of chain.now) }
{
    match direction {
        Direction::Down => floor(chain, key, &mut Probes::new()),
        Direction::Up => match find(chain, key, &mut Probes::new()) {
            Some(_) => floor(chain, key, &mut Probes::new()),
            None => above(chain, key, &mut Probes::new()),
        },
    }
}

// Whether an iteration comes to `key` before `other`.
#[inline]
fn comes_before(direction: Direction, key: &KeyRef<'_>, other: &KeyRef<'_>) -> bool
    ensures { result ≡ precedes direction key.now other.now }
{
    match direction {
        Direction::Up => key.compare(other).is_lt(),
        Direction::Down => other.compare(key).is_lt(),
    }
}

// The next key beyond the edge that the runs or the base contain.
fn next_named<'a, W: Towards>(
    lists: &ChainRef<'a, Value<Global>, Global>,
    edge: &Edge<'_>,
) -> Option<KeyRef<'a>>
    requires { IsInOrder lists.now }
    ensures { MatchOption result (NamesNone W.direction (is_under edge.now) lists.now)
        (λ key. AreNamedFrom W.direction key (is_under edge.now) lists.now) }
{
    let direction = W::direction();
    let Some((run, below)) = lists.newest() else {
        let base = lists.base();
        let (place, _later) = next_place(direction, count_under(base, edge), base.len())?;
        return Some(base.key_ref(place));
    };
    let under = next_named::<W>(&below, edge);
    let Some((place, _later)) = next_place(direction, count_under(run, edge), run.len()) else {
        return under;
    };
    let key = run.key_ref(place);
    let Some(other) = under else {
        return Some(key);
    };
    if comes_before(direction, &other, &key) {
        Some(other)
    } else {
        Some(key)
    }
}
