//! The trait of lists of rising keys.
ghost use Rattle.std.specs.Prelude.{◌≡◌, ◌<◌, List, Some, length, slice_get};
ghost use Rattle.std.specs.Map.{keys_of};
ghost use Rattle.keys.specs.Bytes.{Bytes};
ghost use Rattle.keys.specs.Order.{order, AreRisingKeys};

use crate::base::Base;
use crate::run::Run;
use keys::KeyRef;
use std::alloc::Allocator;
use std::cmp::Ordering;

/// A list of strictly rising keys with access by place. Binary search is written once for all such lists.
pub trait KeyList {
    ghost keys: { Self → List Bytes };

    /// Returns the number of keys.
    fn len(&self) -> usize
        ensures count { result ≡ length (keys self.now) }
        ensures rising { AreRisingKeys (keys self.now) };

    /// Returns the bytes of the key at place `at`, counted from 0.
    fn key(&self, at: usize) -> &[u8]
        requires { at < length (keys self.now) }
        ensures { slice_get (keys self.now) at ≡ Some result.now };

    /// Returns the key at place `at`, counted from 0, with its first word for quick comparisons.
    fn key_ref(&self, at: usize) -> KeyRef<'_>
        requires { at < length (keys self.now) }
        ensures { slice_get (keys self.now) at ≡ Some result };

    /// Compares the key at place `at`, counted from 0, to `key`.
    fn compare_at(&self, at: usize, key: &KeyRef<'_>) -> Ordering
        requires { at < length (keys self.now) }
        ensures { (k : Bytes) → slice_get (keys self.now) at ≡ Some k → result ≡ order k key.now };
}

impl<V, A: Allocator + Copy> KeyList for Base<V, A> {
    ghost keys = { keys_of };

    fn len(&self) -> usize {
        Base::len(self)
    }

    fn key(&self, at: usize) -> &[u8] {
        Base::key(self, at)
    }

    fn key_ref(&self, at: usize) -> KeyRef<'_> {
        Base::key_ref(self, at)
    }

    #[inline]
    fn compare_at(&self, at: usize, key: &KeyRef<'_>) -> Ordering {
        Base::compare_at(self, at, key)
    }
}

impl<V, A: Allocator + Copy> KeyList for Run<V, A> {
    ghost keys = { keys_of };

    fn len(&self) -> usize {
        Run::len(self)
    }

    fn key(&self, at: usize) -> &[u8] {
        Run::key(self, at)
    }

    fn key_ref(&self, at: usize) -> KeyRef<'_> {
        Run::key_ref(self, at)
    }

    #[inline]
    fn compare_at(&self, at: usize, key: &KeyRef<'_>) -> Ordering {
        Run::key_ref(self, at).compare(key)
    }
}
