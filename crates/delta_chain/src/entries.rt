//! Items under rising keys, as runs store them: one in place, more in a list.
ghost use Rattle.std.specs.Prelude.{◌≡◌, ◌<◌, ◌≤◌, ◌∷◌, ◌++◌, [], true, length, set, slice_get, vec_capacity, Some, None, MatchResult, IfOk, OnOk, OnErr};
ghost use Rattle.std.specs.List.{insert};
ghost use Rattle.std.specs.Map.{keys_of, values_of};
ghost use Rattle.keys.specs.Order.{IsRising};
ghost use Rattle.keys.specs.OrderedMap.{value_at, with_pair};
ghost use Rattle.delta_chain.specs.Building.{goes_last};
ghost use Rattle.delta_chain.specs.Exchange.{exchanged_at};
ghost use Rattle.delta_chain.specs.Kept.{entries_kept};

use keys::{Key, KeyRef, KeyWithWord};
use std::alloc::{AllocError, Allocator};
use std::cmp::Ordering;
use std::marker::Model;
use std::mem;

/// Items under strictly rising keys. A single entry is stored in place, because most runs have one change. The bytes of
/// long keys are outside the list; a search seldom reads them.
#[derive(Drop)]
pub(crate) struct Entries<T, A: Allocator> {
    alloc: A,
    kept: KeptEntries<T, A>,
}

#[derive(Drop)]
enum KeptEntries<T, A: Allocator> {
    One((KeyWithWord<A>, T)),
    // Without capacity the list is not allocated, and the first entry turns it into `One`.
    Many(Vec<(KeyWithWord<A>, T), A>),
}

impl<T, A: Allocator> Model for Entries<T, A> {
    ghost use Rattle.keys.specs.Bytes.{Pairs};
    ghost use Rattle.keys.specs.Order.{IsRising};

    ghost Value = { Pairs T };

    ghost use Rattle.delta_chain.specs.Kept.{entries_kept};

    ghost view = { λ e. entries_kept e.kept };

    ghost invariant = { λ e. IsRising (entries_kept e.kept) };
}

impl<T, A: Allocator + Copy> Entries<T, A> {
    // No entries. Does not allocate.
    pub(crate) fn empty(alloc: A) -> Self
        ensures { result ≡ [] }
    {
        Entries {
            alloc,
            kept: KeptEntries::Many(Vec::new(alloc)),
        }
    }

    // No entries, with room for `count` of them. Room for one needs no allocation.
    pub(crate) fn with_capacity(alloc: A, count: usize) -> Result<Self, AllocError>
        ensures { IfOk result (λ entries. entries ≡ []) }
    {
        if count <= 1 {
            return Ok(Entries::empty(alloc));
        }
        let list = Vec::with_capacity(alloc, count)?;
        Ok(Entries {
            alloc,
            kept: KeptEntries::Many(list),
        })
    }

    #[inline]
    pub(crate) fn len(&self) -> usize
        ensures count { result ≡ length self.now }
        ensures rising { IsRising self.now }
    {
        match &self.kept {
            KeptEntries::One(_) => 1,
            KeptEntries::Many(list) => list.len(),
        }
    }

    #[inline]
    pub(crate) fn key(&self, at: usize) -> &[u8]
        requires { at < length self.now }
        ensures { slice_get (keys_of self.now) at ≡ Some result.now }
    {
        self.entry(at).0.as_bytes()
    }

    #[inline]
    pub(crate) fn key_ref(&self, at: usize) -> KeyRef<'_>
        requires { at < length self.now }
        ensures { slice_get (keys_of self.now) at ≡ Some result }
    {
        self.entry(at).0.key_ref()
    }

    #[inline]
    pub(crate) fn item(&self, at: usize) -> &T
        requires { at < length self.now }
        ensures { slice_get (values_of self.now) at ≡ Some result.now }
    {
        &self.entry(at).1
    }

    #[inline]
    fn entry(&self, at: usize) -> &(KeyWithWord<A>, T)
        requires { at < length self.now }
        ensures { slice_get self.now at ≡ Some result.now }
    {
        match &self.kept {
            KeptEntries::One(entry) => entry,
            KeptEntries::Many(list) => &list[at],
        }
    }

    // `Ok` with the place of `key`, or `Err` with the place where it would be inserted.
    pub(crate) fn search(&self, key: &KeyRef<'_>) -> Result<usize, usize>
        ensures { MatchResult result
            (λ at. (at < length self.now) × (slice_get (keys_of self.now) at ≡ Some key.now)
            × (value_at key.now self.now ≡ slice_get (values_of self.now) at))
            (λ at. (at ≤ length self.now) × (value_at key.now self.now ≡ None)
            × ((item : T) → with_pair self.now key.now item ≡ insert self.now at (key.now, item))) }
    {
        match &self.kept {
            KeptEntries::One(entry) => match entry.0.key_ref().compare(key) {
                Ordering::Less => Err(1),
                Ordering::Equal => Ok(0),
                Ordering::Greater => Err(0),
            },
            KeptEntries::Many(list) => {
                // Keys mostly arrive in rising order, so the end is tried first.
                if goes_last(list, key) {
                    return Err(list.len());
                }
                list.binary_search_by(|entry| entry.0.key_ref().compare(key))
            }
        }
    }

    // Whether `key` is above the last key, so that it may be appended.
    pub(crate) fn takes(&self, key: &[u8]) -> bool
        ensures { result ≡ goes_last key.now self.now }
    {
        let key = KeyRef::new(key);
        match &self.kept {
            KeptEntries::One(entry) => entry.0.key_ref().compare(&key).is_lt(),
            KeptEntries::Many(list) => goes_last(list, &key),
        }
    }
}

impl<T, A: Allocator + Copy> Entries<T, A> {
    // Replaces the item at place `at` and returns the old item.
    pub(crate) fn exchange(&mut self, at: usize, item: T) -> T
        requires { at < length self.old }
        ensures held { slice_get (values_of self.old) at ≡ Some result }
        ensures new { self.new ≡ exchanged_at self.old at item }
    {
        self.kept.exchange(at, item)
    }
}

impl<T, A: Allocator + Copy> KeptEntries<T, A> {
    fn exchange(&mut self, at: usize, item: T) -> T
        requires { at < length (entries_kept self.old) }
        ensures held { slice_get (values_of (entries_kept self.old)) at ≡ Some result }
        ensures new { entries_kept self.new ≡ exchanged_at (entries_kept self.old) at item }
    {
        match self {
            KeptEntries::One(entry) => mem::replace(&mut entry.1, item),
            KeptEntries::Many(list) => mem::replace(&mut list[at].1, item),
        }
    }
}

impl<T: Drop, A: Allocator + Copy> Entries<T, A> {
    // Appends the entry. If allocation fails, the entries are unchanged.
    pub(crate) fn push(&mut self, key: Key<A>, item: T) -> Result<(), AllocError>
        requires { goes_last key self.old ≡ true }
        ensures ok { OnOk result (self.new ≡ self.old ++ (key, item) ∷ []) }
        ensures err { OnErr result (self.new ≡ self.old) }
    {
        let alloc = self.alloc;
        let at = self.len();
        let key = KeyWithWord::new(key);
        self.kept.insert(alloc, at, (key, item))?;
        Ok(())
    }

    // Sets the item at `key`: replaces the old item, or inserts a new entry. If allocation fails, the entries are
    // unchanged.
    #[inline(always)]
    pub(crate) fn set(&mut self, key: Key<A>, item: T) -> Result<(), AllocError>
        ensures ok { OnOk result (self.new ≡ with_pair self.old key item) }
        ensures err { OnErr result (self.new ≡ self.old) }
    {
        let alloc = self.alloc;
        let key = KeyWithWord::new(key);
        match self.search(&key.key_ref()) {
            Ok(at) => {
                self.kept.write(at, (key, item));
                Ok(())
            }
            Err(at) => Ok(self.kept.insert(alloc, at, (key, item))?),
        }
    }
}

impl<T: Drop, A: Allocator + Copy> KeptEntries<T, A> {
    #[inline(never)]
    fn write(&mut self, at: usize, entry: (KeyWithWord<A>, T))
        requires { at < length (entries_kept self.old) }
        ensures { entries_kept self.new ≡ set (entries_kept self.old) at entry }
    {
        match self {
            KeptEntries::One(held) => *held = entry,
            KeptEntries::Many(list) => list[at] = entry,
        }
    }

    // Inserts the entry at place `at`. If allocation fails, the entries are unchanged.
    #[inline(always)]
    fn insert(&mut self, alloc: A, at: usize, entry: (KeyWithWord<A>, T)) -> Result<(), AllocError>
        requires { at ≤ length (entries_kept self.old) }
        ensures ok { OnOk result (entries_kept self.new ≡ insert (entries_kept self.old) at entry) }
        ensures err { OnErr result (entries_kept self.new ≡ entries_kept self.old) }
    {
        if let KeptEntries::Many(list) = self {
            if at == list.len() && at < list.capacity() {
                list.push_reserved(entry);
                return Ok(());
            }
        }
        self.insert_within(alloc, at, entry)
    }

    // `insert` where a list has to be made or to grow, or where entries have to be moved. Not inlined, so that `insert`
    // is, and most entries are written only once.
    #[inline(never)]
    fn insert_within(
        &mut self,
        alloc: A,
        at: usize,
        entry: (KeyWithWord<A>, T),
    ) -> Result<(), AllocError>
        requires { at ≤ length (entries_kept self.old) }
        ensures ok { OnOk result (entries_kept self.new ≡ insert (entries_kept self.old) at entry) }
        ensures err { OnErr result (entries_kept self.new ≡ entries_kept self.old) }
    {
        match mem::replace(self, KeptEntries::Many(Vec::new(alloc))) {
            KeptEntries::One(other) => match Vec::with_capacity(alloc, 2) {
                Ok(list) => {
                    *self = KeptEntries::Many(with_two(list, other, at, entry));
                    Ok(())
                }
                Err(refused) => {
                    *self = KeptEntries::One(other);
                    Err(refused)
                }
            },
            KeptEntries::Many(mut list) => {
                if list.capacity() == 0 {
                    *self = KeptEntries::One(entry);
                    return Ok(());
                }
                let inserted = list.insert(at, entry);
                *self = KeptEntries::Many(list);
                Ok(inserted?)
            }
        }
    }
}

// `list`, which has room for two entries, with the entry that was stored alone and another one at place `at` beside it.
fn with_two<T, A: Allocator + Copy>(
    mut list: Vec<(KeyWithWord<A>, T), A>,
    alone: (KeyWithWord<A>, T),
    at: usize,
    entry: (KeyWithWord<A>, T),
) -> Vec<(KeyWithWord<A>, T), A>
    requires none { list.items ≡ [] }
    requires room { 2 ≤ vec_capacity list }
    requires place { at ≤ 1 }
    ensures { result.items ≡ insert (alone ∷ []) at entry }
{
    if at == 0 {
        list.push_reserved(entry);
        list.push_reserved(alone);
        return list;
    }
    list.push_reserved(alone);
    list.push_reserved(entry);
    list
}

// Whether `key` is above the last key, if there is one.
fn goes_last<T, A: Allocator + Copy>(items: &[(KeyWithWord<A>, T)], key: &KeyRef<'_>) -> bool
    ensures { result ≡ goes_last key.now items.now }
{
    match items.last() {
        None => true,
        Some(last) => last.0.key_ref().compare(key).is_lt(),
    }
}
