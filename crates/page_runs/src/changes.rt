//! The changes that the commands of a leaf have made so far.
ghost use Rattle.std.specs.Prelude.{◌≡◌, [], None, IfOk, OnOk};
ghost use Rattle.std.specs.Option.{option_copied};
ghost use Rattle.keys.specs.Order.{IsRising};
ghost use Rattle.keys.specs.OrderedMap.{value_at, with_pair};
ghost use Rattle.keys.specs.Range.{in_range};
ghost use Rattle.delta_chain.specs.Layers.{IsInOrder};
ghost use Rattle.page_runs.specs.Replay.{map_by_now};

use crate::changes_from::ChangesFrom;
use delta_chain::{Chain, Run};
use keys::{Key, Value};
use std::alloc::{AllocError, Global};
use std::collections::BTreeMap;
use std::marker::Model;

pub(crate) type LeafChain = Chain<Value<Global>, Global>;

pub(crate) type LeafRun = Run<Value<Global>, Global>;

type ChangeMap = BTreeMap<Key<Global>, Option<Value<Global>>, Global>;

// With up to this many changes, inserting a key moves at most 31 entries, some two kilobytes. That is no slower than a
// search in a map, and the first node of a map takes 640 bytes, which most leaves would need for a single change.
const FEW: usize = 32;

/// The changed keys, each with its current value, or `None` if it is now absent. Contracts see them as a run over the
/// page.
///
/// There are two representations. A run takes the least memory, but inserting a key moves all entries above it, so it
/// is used for few changes, and for commands in rising order of keys. Other commands use a map, because building a run
/// out of order takes quadratic time. Without changes, neither allocates.
#[derive(Drop)]
pub(crate) struct Changes {
    kept: KeptChanges,
    // How many commands may change a key. It bounds the number of changes, except that a wipe counts as one and may
    // change many keys.
    writes: usize,
}

#[derive(Drop)]
enum KeptChanges {
    Few(LeafRun),
    Many(ChangeMap),
}

impl Model for Changes {
    ghost use Rattle.std.specs.Prelude.{List, Option};
    ghost use Rattle.keys.specs.Bytes.{Bytes};

    ghost Value = { List (Bytes × Option Bytes) };

    ghost use Rattle.page_runs.specs.Changes.{changes_kept};

    ghost view = { λ c. changes_kept c.kept };
}

impl Changes {
    /// Returns no changes. `writes` is the number of commands that may change a key, and `are_sorted` tells whether the
    /// commands are on one key each and in the order of their keys. Both affect only the representation.
    pub(crate) fn for_commands(alloc: Global, writes: usize, are_sorted: bool) -> Self
        ensures { result ≡ [] }
    {
        let kept = if writes <= FEW || are_sorted {
            KeptChanges::Few(Run::empty(alloc))
        } else {
            KeptChanges::Many(BTreeMap::new(alloc))
        };
        Changes { kept, writes }
    }

    /// The key's current value: that of the changes if they contain the key, else that of the page.
    pub(crate) fn value_now<'a>(
        &'a self,
        page: &'a LeafChain,
        key: &Key<Global>,
    ) -> Option<&'a Value<Global>>
        requires { IsInOrder page.now }
        ensures { option_copied result ≡ value_at key.now (map_by_now page.now self.now) }
    {
        // The contract of `len` says that the keys rise. For the map it is called only for that.
        match &self.kept {
            KeptChanges::Few(run) => {
                if run.len() > 0 {
                    if let Some(at) = run.place(key.as_bytes()) {
                        return run.change(at);
                    }
                }
            }
            KeptChanges::Many(map) => {
                let _rising = map.len();
                if let Some(change) = map.get(key) {
                    return change.as_ref();
                }
            }
        }
        page.get(key.as_bytes())
    }

    pub(crate) fn from_key<'a>(&'a self, low: &'a Key<Global>) -> ChangesFrom<'a>
        ensures left { result ≡ in_range low.now None self.now }
        ensures rising { IsRising self.now }
    {
        // `len` is called only for the proof: its contract says that the keys rise.
        match &self.kept {
            KeptChanges::Few(run) => {
                let _rising = run.len();
                ChangesFrom::of_run(run, run.lower(low.as_bytes()))
            }
            KeptChanges::Many(map) => {
                let _rising = map.len();
                ChangesFrom::of_map(map.range(low..))
            }
        }
    }

    /// Sets the change of `key`, with copies of the key and the value.
    pub(crate) fn note(
        &mut self,
        alloc: Global,
        key: &Key<Global>,
        value: Option<&Value<Global>>,
    ) -> Result<(), AllocError>
        ensures { OnOk result (self.new ≡ with_pair self.old key.now (option_copied value.entry)) }
    {
        let key = key.copy(alloc)?;
        let change = match value {
            Some(value) => Some(value.copy(alloc)?),
            None => None,
        };
        self.set(alloc, key, change)
    }

    #[inline(always)]
    pub(crate) fn set(
        &mut self,
        alloc: Global,
        key: Key<Global>,
        change: Option<Value<Global>>,
    ) -> Result<(), AllocError>
        ensures { OnOk result (self.new ≡ with_pair self.old key change) }
    {
        let room = self.writes.min(FEW);
        match &mut self.kept {
            KeptChanges::Few(run) => {
                if run.len() == 0 {
                    make_room(alloc, run, room)?;
                }
                run.set(key, change)
            }
            KeptChanges::Many(map) => {
                map.insert(key, change)?;
                Ok(())
            }
        }
    }

    pub(crate) fn into_run(self, alloc: Global) -> Result<LeafRun, AllocError>
        ensures { IfOk result (λ run. run ≡ self) }
    {
        let Changes {
            kept,
            writes: _writes,
        } = self;
        match kept {
            KeptChanges::Few(run) => Ok(run),
            KeptChanges::Many(map) => run_of(alloc, map),
        }
    }
}

// Reserves room in an empty run. The run keeps this room as long as it is in front of the page, so it gets no more than
// it can need, and at most `FEW`.
#[inline(never)]
fn make_room(alloc: Global, run: &mut LeafRun, room: usize) -> Result<(), AllocError>
    requires { run.old ≡ [] }
    ensures { OnOk result (run.new ≡ run.old) }
{
    *run = Run::with_capacity(alloc, room)?;
    Ok(())
}

fn run_of(alloc: Global, map: ChangeMap) -> Result<LeafRun, AllocError>
    ensures { IfOk result (λ run. run ≡ map.entries) }
{
    let mut run = Run::with_capacity(alloc, map.len())?;
    for (key, change) in map {
        run.push_next(key, change)?;
    }
    Ok(run)
}
