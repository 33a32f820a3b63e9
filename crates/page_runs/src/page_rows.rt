//! The rows of a scan and the keys of a wipe on one page, from one pass in key order over the page's pairs and the
//! changes so far.
ghost use Rattle.std.specs.Prelude.{◌≡◌, ◌∷◌, [], None, IfOk, MatchOption};
ghost use Rattle.std.specs.Map.{keys_of};
ghost use Rattle.keys.specs.Bytes as bytes;
ghost use Rattle.keys.specs.Bytes.{Bytes, Pairs};
ghost use Rattle.keys.specs.Order.{IsRising};
ghost use Rattle.keys.specs.Range.{is_before, in_range, rows};
ghost use Rattle.delta_chain.specs.Layers.{entries_of, with_run, IsInOrder};
ghost use Rattle.scan.specs.Leaf.{from};
ghost use Rattle.page_runs.specs.PageRows.{change_lent, named_by_either};
ghost use Rattle.page_runs.specs.Replay.{map_by_now};

use crate::changes::{Changes, LeafChain};
use crate::changes_from::{Change, ChangesFrom};
use keys::{Key, RowList, Value, compare, is_before};
use scan::LeafPairs;
use std::alloc::{AllocError, Global};
use std::cmp::Ordering;
use std::marker::Model;

/// The rows of the range on the page with the changes so far: those with keys at or above `low` and below `end` (if
/// given), at most `limit`. Takes about as many steps as there are rows and changes in the range.
#[inline(never)]
pub(crate) fn rows_of(
    alloc: Global,
    page: &LeafChain,
    changes: &Changes,
    low: &Key<Global>,
    end: &Option<Key<Global>>,
    limit: u32,
) -> Result<RowList<Global>, AllocError>
    requires { IsInOrder page.now }
    ensures { IfOk result
        (λ list. list ≡ rows low.now end.now limit (map_by_now page.now changes.now)) }
{
    let mut named = NamedKeys::new(page, changes, low);
    rows_left(alloc, &mut named, end, limit)
}

fn rows_left(
    alloc: Global,
    named: &mut NamedKeys<'_>,
    end: &Option<Key<Global>>,
    limit: u32,
) -> Result<RowList<Global>, AllocError>
    requires { IsRising named.old }
    ensures { (pairs : Pairs Bytes) (changes : bytes.Changes Bytes) (low : Bytes) → IsRising pairs
        → IsRising changes
        → named.old ≡ named_by_either (from low pairs) (in_range low None changes)
        → IfOk result (λ list. list ≡ rows low end.now limit (with_run pairs changes)) }
{
    let mut rows = RowList::empty(alloc);
    while let Some((key, value)) = named.step() {
        if rows.len() >= limit as usize || !is_before_end(end, key) {
            break;
        }
        if let Some(value) = value {
            rows.push(key, value.as_bytes())?;
        }
    }
    Ok(rows)
}

/// Copies of the keys of the range that are present on the page with the changes so far: those at or above `low` and
/// below `end` (if given). Takes about as many steps as there are keys and changes in the range.
#[inline(never)]
pub(crate) fn keys_within(
    alloc: Global,
    page: &LeafChain,
    changes: &Changes,
    low: &Key<Global>,
    end: &Option<Key<Global>>,
) -> Result<Vec<Key<Global>>, AllocError>
    requires { IsInOrder page.now }
    ensures { IfOk result (λ keys. keys.items
        ≡ keys_of (in_range low.now end.now (map_by_now page.now changes.now))) }
{
    let mut named = NamedKeys::new(page, changes, low);
    keys_left(alloc, &mut named, end)
}

// The remaining keys that have a value and are below the end.
fn keys_left(
    alloc: Global,
    named: &mut NamedKeys<'_>,
    end: &Option<Key<Global>>,
) -> Result<Vec<Key<Global>>, AllocError>
    requires { IsRising named.old }
    ensures { (pairs : Pairs Bytes) (changes : bytes.Changes Bytes) (low : Bytes) → IsRising pairs
        → IsRising changes
        → named.old ≡ named_by_either (from low pairs) (in_range low None changes)
        → IfOk result (λ keys. keys.items ≡ keys_of (in_range low end.now (with_run pairs changes))) }
{
    let mut keys = Vec::new(alloc);
    while let Some((key, value)) = named.step() {
        if !is_before_end(end, key) {
            break;
        }
        if value.is_some() {
            keys.push(Key::from_bytes(alloc, key)?)?;
        }
    }
    Ok(keys)
}

// Whether `key` is below `end`. Without an end, every key is.
fn is_before_end(end: &Option<Key<Global>>, key: &[u8]) -> bool
    ensures { result ≡ is_before end.now key.now }
{
    match end {
        Some(end) => is_before(Some(end.as_bytes()), key),
        None => true,
    }
}

// An iterator over the keys that the page or the changes contain, from a key on, in key order: each with its current
// value, or `None` if it is now absent.
#[derive(Drop)]
struct NamedKeys<'a> {
    pairs: LeafPairs<'a>,
    changes: ChangesFrom<'a>,
    // The next pair and the next change, already taken out of their iterators.
    pair: Option<(&'a [u8], &'a Value<Global>)>,
    change: Option<Change<'a>>,
}

impl<'a> Model for NamedKeys<'a> {
    ghost use Rattle.keys.specs.Bytes.{Bytes, Changes};
    ghost use Rattle.keys.specs.Order.{IsRising};
    ghost use Rattle.page_runs.specs.PageRows.{ahead, pair_lent, change_lent, named_by_either};

    ghost Value = { Changes Bytes };

    ghost view = { λ n. named_by_either (ahead pair_lent n.pair n.pairs)
        (ahead change_lent n.change n.changes) };

    ghost invariant = { λ n. IsRising (ahead pair_lent n.pair n.pairs)
        × IsRising (ahead change_lent n.change n.changes) };
}

impl<'a> NamedKeys<'a> {
    // The keys at or above `low`.
    fn new(page: &'a LeafChain, changes: &'a Changes, low: &'a Key<Global>) -> Self
        requires { IsInOrder page.now }
        ensures named { result ≡ named_by_either (from low.now (entries_of page.now))
            (in_range low.now None changes.now) }
        ensures rising { IsRising result }
        ensures changes_rise { IsRising changes.now }
    {
        let mut pairs = LeafPairs::new(page, low.as_bytes());
        let mut changes = changes.from_key(low);
        let pair = pairs.next();
        let change = changes.next();
        NamedKeys {
            pairs,
            changes,
            pair,
            change,
        }
    }

    // The next key with its value: the lesser one of the next pair and the next change, or the change if their keys are
    // equal.
    fn step(&mut self) -> Option<Change<'a>>
        ensures { MatchOption result ((self.old ≡ []) × (self.new ≡ []))
            (λ item. self.old ≡ change_lent item ∷ self.new) }
    {
        match (self.pair, self.change) {
            (None, None) => None,
            (Some((key, value)), None) => {
                self.pair = self.pairs.next();
                Some((key, Some(value)))
            }
            (None, Some((key, value))) => {
                self.change = self.changes.next();
                Some((key, value))
            }
            (Some((key, value)), Some((changed, change))) => match compare(key, changed) {
                Ordering::Less => {
                    self.pair = self.pairs.next();
                    Some((key, Some(value)))
                }
                Ordering::Equal => {
                    self.pair = self.pairs.next();
                    self.change = self.changes.next();
                    Some((changed, change))
                }
                Ordering::Greater => {
                    self.change = self.changes.next();
                    Some((changed, change))
                }
            },
        }
    }
}
