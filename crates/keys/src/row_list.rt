//! The rows of a scan, copied into one buffer.
ghost use Rattle.std.specs.Prelude.{◌≡◌, ◌<◌, ◌≤◌, ◌^◌, ◌∷◌, ◌++◌, [], length, take, drop, OnOk, OnErr};
ghost use Rattle.std.specs.Iterator.{YieldsFirstBy, item_count};
ghost use Rattle.std.specs.Cmp.{partial_equiv_from_equiv};
ghost use Rattle.std.proofs.lemmas.Cmp.{nat_list_cmp_total, eq_by_cmp_equiv, lists_equiv, and_equiv, on_equiv};
ghost use Rattle.keys.specs.Order.{same_pairs};
ghost use Rattle.keys.specs.RowBytes.{row_bytes, first_len, first_key, first_value, after_row, after_rows, IsWhole, rows_in, StartWithRows, AreRows};

use std::alloc::{AllocError, Allocator};
use std::marker::Model;

// A list of up to this many bytes is allocated to its exact size. A longer one grows geometrically, so that the rows of
// many pages are copied only a few times.
const SMALL: usize = 16_384;

/// The rows of a scan: keys and values, copied out of the pages into one buffer, which contracts see as a list of
/// pairs. The caller must append the rows in rising order of keys.
#[derive(Drop)]
pub struct RowList<A: Allocator> {
    count: usize,
    // The encoded rows, one after the other: the length of the key, the length of the value, the key, the value.
    bytes: Vec<u8, A>,
}

impl<A: Allocator> Model for RowList<A> {
    ghost use Rattle.keys.specs.Bytes.{Bytes, Pairs};
    ghost use Rattle.keys.specs.RowBytes.{rows_in, AreRows};

    ghost Value = { Pairs Bytes };

    ghost view = { λ l. rows_in l.count l.bytes.items };

    ghost invariant = { λ l. AreRows l.count l.bytes.items };
}

impl<A: Allocator + Copy> RowList<A> {
    /// Returns an empty list. Does not allocate.
    pub fn empty(alloc: A) -> Self
        ensures { result ≡ [] }
    {
        RowList {
            count: 0,
            bytes: Vec::new(alloc),
        }
    }

    /// Appends a row with copies of `key` and `value`. After an `Err` the list is unchanged.
    pub fn push(&mut self, key: &[u8], value: &[u8]) -> Result<(), AllocError>
        ensures ok { OnOk result (self.new ≡ self.old ++ (key.now, value.now) ∷ []) }
        ensures err { OnErr result (self.new ≡ self.old) }
    {
        let len = self.bytes.len();
        let pushed = push_row(&mut self.bytes, key, value);
        match pushed {
            Ok(()) => self.count += 1,
            Err(_) => self.bytes.truncate(len),
        }
        pushed
    }

    /// Appends the rows of `other`. If this list is empty, `other` is moved instead of copied, and its unused memory is
    /// freed. After an `Err` this list is unchanged.
    pub fn append(&mut self, other: RowList<A>) -> Result<(), AllocError>
        ensures ok { OnOk result (self.new ≡ self.old ++ other) }
        ensures err { OnErr result (self.new ≡ self.old) }
    {
        let RowList { count, mut bytes } = other;
        if self.count == 0 {
            bytes.shrink_to_fit();
            self.bytes = bytes;
            self.count = count;
            return Ok(());
        }
        make_room(&mut self.bytes, bytes.len())?;
        self.bytes.extend_from_slice(&bytes)?;
        let _within = self.bytes.len();
        self.count += count;
        Ok(())
    }

    /// Keeps the first `len` rows, drops the others, and frees their memory.
    pub fn truncate(&mut self, len: usize)
        ensures { self.new ≡ take len self.old }
    {
        if len < self.count {
            let left_out = after_rows(&self.bytes, len).len();
            self.bytes.truncate(self.bytes.len() - left_out);
            self.bytes.shrink_to_fit();
            self.count = len;
        }
    }
}

impl<A: Allocator> RowList<A> {
    /// Returns the number of rows.
    pub fn len(&self) -> usize
        ensures { result ≡ length self.now }
    {
        self.count
    }
}

impl<A: Allocator> PartialEq for RowList<A> {
    ghost eq = { same_pairs };

    ghost laws = { partial_equiv_from_equiv
        (lists_equiv (and_equiv (on_equiv (λ p. p.0) (eq_by_cmp_equiv nat_list_cmp_total))
        (on_equiv (λ p. p.1) (eq_by_cmp_equiv nat_list_cmp_total)))) };

    fn eq(&self, other: &Self) -> bool {
        same_rows(self.count, &self.bytes, other.count, &other.bytes)
    }
}

impl<A: Allocator> Eq for RowList<A> {
    ghost laws = { lists_equiv (and_equiv (on_equiv (λ p. p.0) (eq_by_cmp_equiv nat_list_cmp_total))
        (on_equiv (λ p. p.1) (eq_by_cmp_equiv nat_list_cmp_total))) };
}

// Whether the encoded rows are equal. Each row has exactly one encoding, so equal rows have equal bytes.
#[inline]
fn same_rows(count: usize, bytes: &[u8], other_count: usize, other_bytes: &[u8]) -> bool
    requires rows { AreRows count bytes.now }
    requires others { AreRows other_count other_bytes.now }
    ensures { result ≡ same_pairs (rows_in count bytes.now) (rows_in other_count other_bytes.now) }
{
    // `==` borrows these two names, so the proof can still refer to the parameters.
    let (one, other) = (bytes, other_bytes);
    count == other_count && one == other
}

fn make_room<A: Allocator>(bytes: &mut Vec<u8, A>, more: usize) -> Result<(), AllocError>
    ensures { bytes.new.items ≡ bytes.old.items }
{
    if bytes.len() < SMALL {
        bytes.reserve_exact(more)?;
    }
    Ok(())
}

// Appends the encoding of a row. After an `Err` a part of the row may have been appended.
fn push_row<A: Allocator>(
    bytes: &mut Vec<u8, A>,
    key: &[u8],
    value: &[u8],
) -> Result<(), AllocError>
    ensures ok { OnOk result (bytes.new.items ≡ bytes.old.items ++ row_bytes key.now value.now) }
    ensures err { OnErr result (take (length bytes.old.items) bytes.new.items ≡ bytes.old.items) }
    ensures key { length key.now < 2 ^ 64 }
    ensures value { length value.now < 2 ^ 64 }
{
    bytes.reserve(key.len().saturating_add(value.len()).saturating_add(16))?;
    bytes.extend_from_slice(&key.len().to_le_bytes())?;
    bytes.extend_from_slice(&value.len().to_le_bytes())?;
    bytes.extend_from_slice(key)?;
    bytes.extend_from_slice(value)?;
    Ok(())
}

fn after_rows(bytes: &[u8], count: usize) -> &[u8]
    requires { StartWithRows count bytes.now }
    ensures { result.now ≡ after_rows count bytes.now }
{
    let mut left = count;
    let mut rest = bytes;
    while left > 0 {
        rest = first_row(rest).2;
        left -= 1;
    }
    rest
}

// The first row's key, its value, and the bytes after that row.
#[inline]
fn first_row(bytes: &[u8]) -> (&[u8], &[u8], &[u8])
    requires { IsWhole bytes.now }
    ensures key { result.0.now ≡ first_key bytes.now }
    ensures value { result.1.now ≡ first_value bytes.now }
    ensures after { result.2.now ≡ after_row bytes.now }
{
    let (key_len, bytes) = first_len(bytes);
    let (value_len, bytes) = first_len(bytes);
    let (key, bytes) = bytes.split_at(key_len);
    let (value, bytes) = bytes.split_at(value_len);
    (key, value, bytes)
}

// The length that `bytes` begin with, and the bytes after it.
#[inline]
fn first_len(bytes: &[u8]) -> (usize, &[u8])
    requires { 8 ≤ length bytes.now }
    ensures len { result.0 ≡ first_len bytes.now }
    ensures after { result.1.now ≡ drop 8 bytes.now }
{
    match bytes.split_first_chunk::<8>() {
        Some((len, after)) => (usize::from_le_bytes(*len), after),
        None => (0, bytes),
    }
}

/// Iterates over the rows in their order, as borrowed keys and values.
#[derive(Drop)]
pub struct RowIter<'a> {
    left: usize,
    bytes: &'a [u8],
}

impl<'a> Model for RowIter<'a> {
    ghost use Rattle.keys.specs.Bytes.{Bytes, Pairs};
    ghost use Rattle.keys.specs.RowBytes.{rows_in, AreRows};

    ghost Value = { Pairs Bytes };

    ghost view = { λ r. rows_in r.left r.bytes.now };

    ghost invariant = { λ r. AreRows r.left r.bytes.now };
}

impl<'a> Iterator for RowIter<'a> {
    type Item = (&'a [u8], &'a [u8]);

    ghost next_gives = { YieldsFirstBy (λ item. (item.0.now, item.1.now)) (λ left. left) };

    ghost remaining = { item_count (λ left. left) };

    fn next(&mut self) -> Option<(&'a [u8], &'a [u8])> {
        if self.left == 0 {
            return None;
        }
        let (key, value, after) = first_row(self.bytes);
        self.left -= 1;
        self.bytes = after;
        Some((key, value))
    }
}

impl<'a, A: Allocator> IntoIterator for &'a RowList<A> {
    ghost use Rattle.std.specs.Prelude.{◌≡◌};

    type Item = (&'a [u8], &'a [u8]);

    type IntoIter = RowIter<'a>;

    ghost into_iter_gives = { λ rows it. it ≡ rows.now };

    fn into_iter(self) -> RowIter<'a> {
        RowIter {
            left: self.count,
            bytes: &self.bytes,
        }
    }
}
