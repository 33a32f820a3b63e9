//! Values: byte strings.
ghost use Rattle.std.specs.Prelude.{◌≡◌, [], length, IfOk};
ghost use Rattle.std.proofs.lemmas.Cmp.{nat_list_cmp_total, eq_by_cmp_equiv};
ghost use Rattle.std.specs.Cmp.{partial_equiv_from_equiv};
ghost use Rattle.std.specs.Ordering.{eq_by_cmp};
ghost use Rattle.keys.specs.Order.{order};

use crate::kept_bytes::KeptBytes;
use crate::order::compare;
use std::alloc::{AllocError, Allocator};
use std::marker::Model;

/// A value: a byte string, which contracts see as the list of its bytes. Values of up to 23 bytes are stored in place
/// and need no allocation.
#[derive(Drop)]
pub struct Value<A: Allocator> {
    kept: KeptBytes<A>,
}

impl<A: Allocator> Model for Value<A> {
    ghost use Rattle.keys.specs.Bytes.{Bytes};

    ghost Value = { Bytes };

    ghost view = { λ v. v.kept };
}

impl<A: Allocator + Copy> Value<A> {
    /// Returns the empty value. Does not allocate.
    #[inline]
    pub fn empty(_alloc: A) -> Self
        ensures { result ≡ [] }
    {
        Value {
            kept: KeptBytes::empty(),
        }
    }

    /// Copies `bytes` into a value. Allocates only if there are more than 23; `Err` if that fails.
    pub fn from_bytes(alloc: A, bytes: &[u8]) -> Result<Self, AllocError>
        ensures { IfOk result (λ value. value ≡ bytes.now) }
    {
        Ok(Value {
            kept: KeptBytes::from_bytes(alloc, bytes)?,
        })
    }

    /// Returns an equal value. Allocates only if the value is longer than 23 bytes; `Err` if that fails.
    #[inline]
    pub fn copy(&self, alloc: A) -> Result<Self, AllocError>
        ensures { IfOk result (λ value. value ≡ self.now) }
    {
        Ok(Value {
            kept: self.kept.copy(alloc)?,
        })
    }
}

impl<A: Allocator> Value<A> {
    /// Returns the bytes of the value.
    #[inline]
    pub fn as_bytes(&self) -> &[u8]
        ensures { result.now ≡ self.now }
    {
        self.kept.as_bytes()
    }

    /// Returns the number of bytes of the value.
    #[inline]
    pub fn len(&self) -> usize
        ensures { result ≡ length self.now }
    {
        self.as_bytes().len()
    }
}

impl<A: Allocator> PartialEq for Value<A> {
    ghost eq = { eq_by_cmp order };

    ghost laws = { partial_equiv_from_equiv (eq_by_cmp_equiv nat_list_cmp_total) };

    fn eq(&self, other: &Self) -> bool {
        compare(self.as_bytes(), other.as_bytes()).is_eq()
    }
}

impl<A: Allocator> Eq for Value<A> {
    ghost laws = { eq_by_cmp_equiv nat_list_cmp_total };
}
