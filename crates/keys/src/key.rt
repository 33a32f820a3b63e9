//! Keys: byte strings, compared by their bytes.
ghost use Rattle.std.specs.Prelude.{◌≡◌, [], length, IfOk};
ghost use Rattle.std.proofs.Common.{rules};
ghost use Rattle.std.proofs.lemmas.Cmp.{nat_list_cmp_total, eq_by_cmp_equiv};
ghost use Rattle.std.specs.Cmp.{partial_order_from_own_ties, partial_equiv_from_equiv};
ghost use Rattle.std.specs.Cmp.Rules.{comparing};
ghost use Rattle.std.specs.Ordering.{eq_by_cmp, as_partial_cmp};
ghost use Rattle.keys.specs.Order.{order};

use crate::kept_bytes::KeptBytes;
use crate::order::compare;
use std::alloc::{AllocError, Allocator};
use std::cmp::Ordering;
use std::marker::Model;

/// A key: a byte string, which contracts see as the list of its bytes. Keys compare bytewise, and a proper prefix comes
/// first, so the empty key is the least. Keys of up to 23 bytes are stored in place and need no allocation.
#[derive(Drop)]
pub struct Key<A: Allocator> {
    kept: KeptBytes<A>,
}

impl<A: Allocator> Model for Key<A> {
    ghost use Rattle.keys.specs.Bytes.{Bytes};

    ghost Value = { Bytes };

    ghost view = { λ k. k.kept };
}

impl<A: Allocator + Copy> Key<A> {
    /// Returns the empty key. Does not allocate.
    #[inline]
    pub fn empty(_alloc: A) -> Self
        ensures { result ≡ [] }
    {
        Key {
            kept: KeptBytes::empty(),
        }
    }

    /// Copies `bytes` into a key. Allocates only if there are more than 23; `Err` if that fails.
    pub fn from_bytes(alloc: A, bytes: &[u8]) -> Result<Self, AllocError>
        ensures { IfOk result (λ key. key ≡ bytes.now) }
    {
        Ok(Key {
            kept: KeptBytes::from_bytes(alloc, bytes)?,
        })
    }

    /// Returns an equal key. Allocates only if the key is longer than 23 bytes; `Err` if that fails.
    #[inline]
    pub fn copy(&self, alloc: A) -> Result<Self, AllocError>
        ensures { IfOk result (λ key. key ≡ self.now) }
    {
        Ok(Key {
            kept: self.kept.copy(alloc)?,
        })
    }
}

impl<A: Allocator> Key<A> {
    /// Returns the bytes of the key.
    #[inline]
    pub fn as_bytes(&self) -> &[u8]
        ensures { result.now ≡ self.now }
    {
        self.kept.as_bytes()
    }

    /// Returns the number of bytes of the key.
    #[inline]
    pub fn len(&self) -> usize
        ensures { result ≡ length self.now }
    {
        self.as_bytes().len()
    }
}

impl<A: Allocator> PartialEq for Key<A> {
    ghost eq = { eq_by_cmp order };

    ghost laws = { partial_equiv_from_equiv (eq_by_cmp_equiv nat_list_cmp_total) };

    fn eq(&self, other: &Self) -> bool {
        compare(self.as_bytes(), other.as_bytes()).is_eq()
    }
}

impl<A: Allocator> Eq for Key<A> {
    ghost laws = { eq_by_cmp_equiv nat_list_cmp_total };
}

impl<A: Allocator> PartialOrd for Key<A> {
    ghost partial_cmp = { as_partial_cmp order };

    ghost laws = { partial_order_from_own_ties
        (Prim.search (comparing, rules)) (Prim.search (comparing, rules)) };

    fn partial_cmp(&self, other: &Self) -> Option<Ordering> {
        Some(self.cmp(other))
    }
}

impl<A: Allocator> Ord for Key<A> {
    ghost cmp = { order };

    ghost total = { nat_list_cmp_total };

    ghost matches_partial_cmp = { Prim.search (comparing, rules) };

    ghost matches_eq = { Prim.search (comparing, rules) };

    fn cmp(&self, other: &Self) -> Ordering {
        compare(self.as_bytes(), other.as_bytes())
    }
}
