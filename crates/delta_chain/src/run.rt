//! A run of changes to a page.
ghost use Rattle.std.specs.Prelude.{◌≡◌, ◌<◌, ◌∷◌, ◌++◌, [], true, false, is_some, length, drop, slice_get, Option, Some, None, IfOk, IfSome, MatchOption, OnOk, OnErr, IsErrOf, ◌↔◌};
ghost use Rattle.std.specs.Map.{keys_of, values_of};
ghost use Rattle.std.specs.Option.{option_copied, unwrap_or};
ghost use Rattle.keys.specs.Order.{IsRising};
ghost use Rattle.keys.specs.OrderedMap.{value_at, with_pair};
ghost use Rattle.keys.specs.Range.{in_range};
ghost use Rattle.delta_chain.specs.Building.{goes_last};
ghost use Rattle.delta_chain.specs.Exchange.{exchanged_at, in_place_of};

use crate::builder::PushError;
use crate::entries::Entries;
use keys::{Key, KeyRef};
use std::alloc::{AllocError, Allocator};
use std::marker::Model;
use std::mem;

/// A run of changes to a page: strictly rising keys, each with its new cell, or `None` if the run deletes the key.
/// Contracts see it as the list of these pairs.
#[derive(Drop)]
pub struct Run<V, A: Allocator> {
    changes: Entries<Option<V>, A>,
}

impl<V, A: Allocator> Model for Run<V, A> {
    ghost use Rattle.keys.specs.Bytes.{Changes};

    ghost Value = { Changes V };

    ghost view = { λ r. r.changes };
}

impl<V, A: Allocator + Copy> Run<V, A> {
    /// Returns a run without changes. Does not allocate.
    pub fn empty(alloc: A) -> Self
        ensures { result ≡ [] }
    {
        Run {
            changes: Entries::empty(alloc),
        }
    }

    /// Returns a run without changes, with room for `count` of them. Room for one needs no allocation.
    pub fn with_capacity(alloc: A, count: usize) -> Result<Self, AllocError>
        ensures { IfOk result (λ run. run ≡ []) }
    {
        let changes = Entries::with_capacity(alloc, count)?;
        Ok(Run { changes })
    }

    /// Returns the number of changes.
    pub fn len(&self) -> usize
        ensures count { result ≡ length self.now }
        ensures rising { IsRising self.now }
    {
        self.changes.len()
    }

    /// Returns the bytes of the key at place `at`, counted from 0.
    pub fn key(&self, at: usize) -> &[u8]
        requires { at < length self.now }
        ensures { slice_get (keys_of self.now) at ≡ Some result.now }
    {
        self.changes.key(at)
    }

    /// Returns the key at place `at`, counted from 0, with its first word for quick comparisons.
    pub fn key_ref(&self, at: usize) -> KeyRef<'_>
        requires { at < length self.now }
        ensures { slice_get (keys_of self.now) at ≡ Some result }
    {
        self.changes.key_ref(at)
    }

    /// Returns the change at place `at`: a cell, or `None` if the run deletes the key.
    pub fn change(&self, at: usize) -> Option<&V>
        requires { at < length self.now }
        ensures { slice_get (values_of self.now) at ≡ Some (option_copied result) }
    {
        self.changes.item(at).as_ref()
    }

    pub(crate) fn item(&self, at: usize) -> &Option<V>
        requires { at < length self.now }
        ensures { slice_get (values_of self.now) at ≡ Some result.now }
    {
        self.changes.item(at)
    }

    /// Returns the place of `key`, counted from 0, or `None` if the run does not contain it. Takes a binary search, or
    /// one comparison if `key` is above all keys.
    pub fn place(&self, key: &[u8]) -> Option<usize>
        ensures place { MatchOption result (value_at key.now self.now ≡ None)
            (λ at. slice_get (keys_of self.now) at ≡ Some key.now) }
        ensures within { IfSome result (λ at. at < length self.now) }
        ensures change { IfSome result
            (λ at. value_at key.now self.now ≡ slice_get (values_of self.now) at) }
    {
        self.place_of(&KeyRef::new(key))
    }

    // `place` of a key with its first word, which is computed once for a lookup in many runs.
    pub(crate) fn place_of(&self, key: &KeyRef<'_>) -> Option<usize>
        ensures place { MatchOption result (value_at key.now self.now ≡ None)
            (λ at. slice_get (keys_of self.now) at ≡ Some key.now) }
        ensures within { IfSome result (λ at. at < length self.now) }
        ensures change { IfSome result
            (λ at. value_at key.now self.now ≡ slice_get (values_of self.now) at) }
    {
        self.changes.search(key).ok()
    }

    /// Returns the place, counted from 0, of the first key that is not below `key`, or the number of keys if all are.
    /// Takes a binary search, or one comparison if `key` is above all keys.
    pub fn lower(&self, key: &[u8]) -> usize
        ensures { drop result self.now ≡ in_range key.now None self.now }
    {
        let _rising = self.changes.len();
        match self.changes.search(&KeyRef::new(key)) {
            Ok(at) => at,
            Err(at) => at,
        }
    }
}

impl<V: Drop, A: Allocator + Copy> Run<V, A> {
    // Swaps `cell` with the cell at place `at`, unless the change there deletes its key. Returns whether there is a cell.
    pub(crate) fn swap_cell(&mut self, at: usize, cell: &mut V) -> bool
        requires { at < length self.old }
        ensures cell { (o : Option V) → slice_get (values_of self.old) at ≡ Some o →
            cell.new ≡ unwrap_or o cell.old }
        ensures run { (o : Option V) → slice_get (values_of self.old) at ≡ Some o →
            self.new ≡ exchanged_at self.old at (in_place_of o cell.old) }
        ensures found { (o : Option V) → slice_get (values_of self.old) at ≡ Some o →
            result ≡ is_some o }
    {
        if let Some(held) = self.changes.exchange(at, None) {
            let mine = mem::replace(cell, held);
            let _none = self.changes.exchange(at, Some(mine));
            true
        } else {
            false
        }
    }

    /// Appends a change. Returns `OutOfOrder` if the key is not above the last one, and `NoMemory` if allocation fails;
    /// both drop the change and leave the run unchanged.
    pub fn push(&mut self, key: Key<A>, change: Option<V>) -> Result<(), PushError>
        ensures ok { OnOk result (self.new ≡ self.old ++ (key, change) ∷ []) }
        ensures order { IsErrOf result PushError.OutOfOrder ↔ (goes_last key self.old ≡ false) }
        ensures err { OnErr result (self.new ≡ self.old) }
    {
        if !self.changes.takes(key.as_bytes()) {
            return Err(PushError::OutOfOrder);
        }
        self.changes.push(key, change)?;
        Ok(())
    }

    /// Appends a change whose key the caller knows to be above the last key (else use `push`). If allocation fails, the
    /// change is dropped and the run is unchanged.
    pub fn push_next(&mut self, key: Key<A>, change: Option<V>) -> Result<(), AllocError>
        requires { goes_last key self.old ≡ true }
        ensures ok { OnOk result (self.new ≡ self.old ++ (key, change) ∷ []) }
        ensures err { OnErr result (self.new ≡ self.old) }
    {
        self.changes.push(key, change)
    }

    /// Sets the run's change of `key`: replaces the old change, or inserts a new one, so that keys may come in any
    /// order. If allocation fails, the change is dropped and the run is unchanged.
    #[inline(always)]
    pub fn set(&mut self, key: Key<A>, change: Option<V>) -> Result<(), AllocError>
        ensures ok { OnOk result (self.new ≡ with_pair self.old key change) }
        ensures err { OnErr result (self.new ≡ self.old) }
    {
        self.changes.set(key, change)
    }
}
