//! Keys with their first eight bytes as a number, borrowed (`KeyRef`) or owned (`KeyWithWord`).
ghost use Rattle.std.specs.Prelude.{◌≡◌, ◌<◌, length};
ghost use Rattle.std.proofs.Common.{rules};
ghost use Rattle.std.proofs.lemmas.Cmp.{nat_list_cmp_total, eq_by_cmp_equiv};
ghost use Rattle.std.specs.Cmp.{partial_order_from_own_ties, partial_equiv_from_equiv};
ghost use Rattle.std.specs.Cmp.Rules.{comparing};
ghost use Rattle.std.specs.Ordering.{eq_by_cmp, as_partial_cmp};
ghost use Rattle.keys.specs.Cells.{AreBytes};
ghost use Rattle.keys.specs.Order.{order};
ghost use Rattle.keys.specs.Words.{first_word, IsWordOf};

use crate::key::Key;
use crate::order::compare;
use std::alloc::Allocator;
use std::cmp::Ordering;
use std::marker::Model;

/// A borrowed key with its first eight bytes as a number, so that most comparisons need only the numbers. Contracts see
/// it as the list of its bytes.
#[derive(Drop)]
pub struct KeyRef<'a> {
    word: u64,
    bytes: &'a [u8],
}

impl<'a> Model for KeyRef<'a> {
    ghost use Rattle.keys.specs.Bytes.{Bytes};
    ghost use Rattle.keys.specs.Words.{IsWordOf};

    ghost Value = { Bytes };

    ghost view = { λ k. k.bytes.now };

    ghost invariant = { λ k. IsWordOf k.word k.bytes.now };
}

impl<'a> KeyRef<'a> {
    /// Wraps `bytes` and computes their first word.
    #[inline]
    pub fn new(bytes: &'a [u8]) -> Self
        ensures { result ≡ bytes.entry.now }
    {
        KeyRef {
            word: first_word(bytes),
            bytes,
        }
    }

    /// Wraps `bytes`, whose first word is known to be `word`.
    #[inline]
    pub fn of_word(word: u64, bytes: &'a [u8]) -> Self
        requires { IsWordOf word bytes.now }
        ensures { result ≡ bytes.entry.now }
    {
        KeyRef { word, bytes }
    }

    /// Returns a copy of this reference.
    #[inline]
    pub fn again(&self) -> KeyRef<'a>
        ensures { result ≡ self.now }
    {
        KeyRef {
            word: self.word,
            bytes: self.bytes,
        }
    }

    /// Returns the bytes of the key.
    #[inline]
    pub fn as_bytes(&self) -> &'a [u8]
        ensures { result.now ≡ self.now }
    {
        self.bytes
    }

    /// Returns the first eight bytes as a big-endian number, in which missing bytes count as zeros. If the words of two
    /// keys differ, the keys compare as their words do.
    #[inline]
    pub fn word(&self) -> u64
        ensures word { result ≡ first_word self.now }
        ensures bytes { AreBytes self.now }
    {
        self.word
    }

    /// Compares this key to `other` in the order of keys.
    #[inline]
    pub fn compare(&self, other: &KeyRef<'_>) -> Ordering
        ensures { result ≡ order self.now other.now }
    {
        // Written with constants, because searches branch on the result: the compiler then needs no number for it.
        if self.word < other.word {
            return Ordering::Less;
        }
        if self.word > other.word {
            return Ordering::Greater;
        }
        compare(self.bytes, other.bytes)
    }
}

impl PartialEq for KeyRef<'_> {
    ghost eq = { eq_by_cmp order };

    ghost laws = { partial_equiv_from_equiv (eq_by_cmp_equiv nat_list_cmp_total) };

    #[inline]
    fn eq(&self, other: &Self) -> bool {
        self.compare(other).is_eq()
    }
}

impl Eq for KeyRef<'_> {
    ghost laws = { eq_by_cmp_equiv nat_list_cmp_total };
}

impl PartialOrd for KeyRef<'_> {
    ghost partial_cmp = { as_partial_cmp order };

    ghost laws = { partial_order_from_own_ties
        (Prim.search (comparing, rules)) (Prim.search (comparing, rules)) };

    #[inline]
    fn partial_cmp(&self, other: &Self) -> Option<Ordering> {
        Some(self.compare(other))
    }
}

impl Ord for KeyRef<'_> {
    ghost cmp = { order };

    ghost total = { nat_list_cmp_total };

    ghost matches_partial_cmp = { Prim.search (comparing, rules) };

    ghost matches_eq = { Prim.search (comparing, rules) };

    #[inline]
    fn cmp(&self, other: &Self) -> Ordering {
        self.compare(other)
    }
}

/// An owned key with its first eight bytes as a number, so that a search in a list of keys seldom reads the bytes of a
/// key (the poor man's normalized keys of B-trees). Contracts see it as the list of its bytes.
#[derive(Drop)]
pub struct KeyWithWord<A: Allocator> {
    word: u64,
    key: Key<A>,
}

impl<A: Allocator> Model for KeyWithWord<A> {
    ghost use Rattle.keys.specs.Bytes.{Bytes};
    ghost use Rattle.keys.specs.Words.{IsWordOf};

    ghost Value = { Bytes };

    ghost view = { λ k. k.key };

    ghost invariant = { λ k. IsWordOf k.word k.key };
}

impl<A: Allocator> KeyWithWord<A> {
    /// Stores `key` together with the number of its first eight bytes.
    pub fn new(key: Key<A>) -> Self
        ensures { result ≡ key }
    {
        KeyWithWord {
            word: first_word(key.as_bytes()),
            key,
        }
    }

    /// Returns the bytes of the key.
    #[inline]
    pub fn as_bytes(&self) -> &[u8]
        ensures { result.now ≡ self.now }
    {
        self.key.as_bytes()
    }

    /// Borrows the key together with its word.
    #[inline]
    pub fn key_ref(&self) -> KeyRef<'_>
        ensures { result ≡ self.now }
    {
        KeyRef {
            word: self.word,
            bytes: self.key.as_bytes(),
        }
    }
}

// The first eight bytes as a big-endian number; missing bytes count as zeros.
#[inline]
pub(crate) fn first_word(bytes: &[u8]) -> u64
    ensures word { result ≡ first_word bytes.now }
    ensures bytes { AreBytes bytes.now }
{
    match bytes.split_first_chunk::<8>() {
        Some((word, _)) => u64::from_be_bytes(*word),
        None => short_word(bytes),
    }
}

// `first_word` of fewer than eight bytes.
fn short_word(bytes: &[u8]) -> u64
    requires { length bytes.now < 8 }
    ensures word { result ≡ first_word bytes.now }
    ensures bytes { AreBytes bytes.now }
{
    let mut padded = [0u8; 8];
    padded[..bytes.len()].copy_from_slice(bytes);
    u64::from_be_bytes(padded)
}
