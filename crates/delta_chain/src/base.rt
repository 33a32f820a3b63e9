//! The base of a page: rising keys in one buffer, and a cell for each key.
ghost use Rattle.std.specs.Prelude.{◌≡◌, ◌<◌, ◌≤◌, ◌∷◌, ◌++◌, [], true, length, slice_get, Some, None, IfOk, IfSome, MatchOption, OnOk, OnErr};
ghost use Rattle.std.specs.Map.{keys_of, values_of};
ghost use Rattle.std.specs.Option.{option_copied};
ghost use Rattle.keys.specs.Bytes.{Bytes};
ghost use Rattle.keys.specs.Order.{order, IsRising};
ghost use Rattle.keys.specs.OrderedMap.{value_at};
ghost use Rattle.delta_chain.specs.Building.{goes_last};
ghost use Rattle.delta_chain.specs.Exchange.{exchanged_at};

use keys::{KeyRef, compare};
use std::alloc::{AllocError, Allocator};
use std::cmp::Ordering;
use std::marker::Model;
use std::mem;

/// The base of a page: strictly rising keys, each with a cell (a value, or a page id in an index page). Contracts see
/// it as the list of these pairs. A `BaseBuilder` makes it. All keys are in one buffer, so that a search touches little
/// memory.
#[derive(Drop)]
pub struct Base<V, A: Allocator> {
    // The concatenated keys.
    bytes: Vec<u8, A>,
    // The first word and the end in `bytes` of each key. A search reads few keys beside these.
    marks: Vec<KeyMark, A>,
    cells: Vec<V, A>,
}

// The first eight bytes of a key, and its end among the bytes of all keys.
#[derive(Clone, Copy)]
struct KeyMark {
    word: u64,
    end: usize,
}

impl<V, A: Allocator> Model for Base<V, A> {
    ghost use Rattle.std.specs.Map.{keys_of};
    ghost use Rattle.keys.specs.Bytes.{Pairs};
    ghost use Rattle.delta_chain.specs.Packed.{packed_from, ends_of, IsPacked, AreMarked};

    ghost Value = { Pairs V };

    ghost view = { λ b. packed_from 0 b.bytes.items (ends_of b.marks.items) b.cells.items };

    ghost invariant = { λ b. IsPacked b.bytes.items (ends_of b.marks.items) b.cells.items
        × AreMarked (keys_of (packed_from 0 b.bytes.items (ends_of b.marks.items) b.cells.items))
        b.marks.items };
}

impl<V, A: Allocator + Copy> Base<V, A> {
    /// Returns a base without entries. Does not allocate.
    pub fn empty(alloc: A) -> Self
        ensures { result ≡ [] }
    {
        Base {
            bytes: Vec::new(alloc),
            marks: Vec::new(alloc),
            cells: Vec::new(alloc),
        }
    }

    // An empty base with room for `count` entries whose keys have `bytes` bytes in total.
    pub(crate) fn with_capacity(alloc: A, count: usize, bytes: usize) -> Result<Self, AllocError>
        ensures { IfOk result (λ base. base ≡ []) }
    {
        let bytes = Vec::with_capacity(alloc, bytes)?;
        let marks = Vec::with_capacity(alloc, count)?;
        let cells = Vec::with_capacity(alloc, count)?;
        Ok(Base {
            bytes,
            marks,
            cells,
        })
    }

    pub(crate) fn alloc(&self) -> A {
        *self.cells.allocator()
    }

    /// Returns the number of entries.
    pub fn len(&self) -> usize
        ensures count { result ≡ length self.now }
        ensures rising { IsRising self.now }
    {
        self.cells.len()
    }

    /// Returns the bytes of the key at place `at`, counted from 0.
    pub fn key(&self, at: usize) -> &[u8]
        requires { at < length self.now }
        ensures { slice_get (keys_of self.now) at ≡ Some result.now }
    {
        let end = self.marks[at].end;
        if at == 0 {
            &self.bytes[0..end]
        } else {
            &self.bytes[self.marks[at - 1].end..end]
        }
    }

    /// Returns the key at place `at`, counted from 0, with its first word for quick comparisons.
    #[inline]
    pub fn key_ref(&self, at: usize) -> KeyRef<'_>
        requires { at < length self.now }
        ensures { slice_get (keys_of self.now) at ≡ Some result }
    {
        KeyRef::of_word(self.marks[at].word, self.key(at))
    }

    /// Compares the key at place `at`, counted from 0, to `key`. Reads its bytes only if the first words are equal.
    #[inline]
    pub fn compare_at(&self, at: usize, key: &KeyRef<'_>) -> Ordering
        requires { at < length self.now }
        ensures { (k : Bytes) → slice_get (keys_of self.now) at ≡ Some k → result ≡ order k key.now }
    {
        let word = self.marks[at].word;
        if word < key.word() {
            return Ordering::Less;
        }
        if word > key.word() {
            return Ordering::Greater;
        }
        compare(self.key(at), key.as_bytes())
    }

    /// Returns the cell at place `at`, counted from 0.
    pub fn cell(&self, at: usize) -> &V
        requires { at < length self.now }
        ensures { slice_get (values_of self.now) at ≡ Some result.now }
    {
        &self.cells[at]
    }

    // The place of the key, or `None` if the base has no such key. Tries the caller's `guess` first, then does a binary
    // search.
    pub(crate) fn place_near(&self, guess: usize, key: &KeyRef<'_>) -> Option<usize>
        ensures place { MatchOption result (value_at key.now self.now ≡ None)
            (λ at. slice_get (keys_of self.now) at ≡ Some key.now) }
        ensures within { IfSome result (λ at. at < length self.now) }
    {
        let mut low = 0;
        let mut high = self.len();
        while low < high {
            let middle = next_place(guess, low, high);
            match self.compare_at(middle, key) {
                Ordering::Less => low = middle + 1,
                Ordering::Equal => return Some(middle),
                Ordering::Greater => high = middle,
            }
        }
        None
    }

    // The cell of `key`, if the base has the key.
    pub(crate) fn get(&self, key: &KeyRef<'_>) -> Option<&V>
        ensures { option_copied result ≡ value_at key.now self.now }
    {
        // Only for the proof: the keys rise.
        let _rising = self.len();
        match self.place_near(usize::MAX, key) {
            Some(at) => Some(self.cell(at)),
            None => None,
        }
    }

    // Whether `key` is above the last key, so that it may be appended.
    pub(crate) fn takes(&self, key: &[u8]) -> bool
        ensures { result ≡ goes_last key.now self.now }
    {
        let count = self.len();
        if count == 0 {
            return true;
        }
        compare(self.key(count - 1), key).is_lt()
    }
}

impl<V, A: Allocator + Copy> Base<V, A> {
    /// Replaces the cell at place `at`, counted from 0, and returns the old cell.
    pub fn exchange(&mut self, at: usize, cell: V) -> V
        requires { at < length self.old }
        ensures held { slice_get (values_of self.old) at ≡ Some result }
        ensures new { self.new ≡ exchanged_at self.old at cell }
    {
        mem::replace(&mut self.cells[at], cell)
    }

    pub(crate) fn swap_cell(&mut self, at: usize, cell: &mut V)
        requires { at < length self.old }
        ensures cell { slice_get (values_of self.old) at ≡ Some cell.new }
        ensures base { self.new ≡ exchanged_at self.old at cell.old }
    {
        mem::swap(&mut self.cells[at], cell);
    }
}

impl<V: Drop, A: Allocator + Copy> Base<V, A> {
    // Appends an entry with a copy of `key`. If allocation fails, the base is unchanged.
    pub(crate) fn push(&mut self, key: &[u8], cell: V) -> Result<(), AllocError>
        requires { goes_last key.now self.old ≡ true }
        ensures ok { OnOk result (self.new ≡ self.old ++ (key.now, cell) ∷ []) }
        ensures err { OnErr result (self.new ≡ self.old) }
    {
        self.marks.reserve(1)?;
        self.cells.reserve(1)?;
        self.bytes.extend_from_slice(key)?;
        let word = KeyRef::new(key).word();
        let end = self.bytes.len();
        self.marks.push_reserved(KeyMark { word, end });
        self.cells.push_reserved(cell);
        Ok(())
    }
}

// The next place to compare, in `low..high`: the guess if it is in that range, else the middle.
fn next_place(guess: usize, low: usize, high: usize) -> usize
    requires { low < high }
    ensures from { low ≤ result }
    ensures upto { result < high }
{
    if low <= guess && guess < high {
        guess
    } else {
        low + (high - low) / 2
    }
}
