//! Counts comparisons of keys.
ghost use Rattle.std.specs.Prelude.{◌≡◌, ◌+◌, ◌≤◌, ◌<◌, Some, min, length, slice_get};
ghost use Rattle.keys.specs.Bytes.{Bytes};
ghost use Rattle.keys.specs.Order.{order};

use delta_chain::KeyList;
use keys::KeyRef;
use std::cmp::Ordering;
use std::marker::Model;

/// The number of comparisons of keys. Every comparison of a search goes through it, so the count is the cost of the
/// search. It saturates at the greatest `u64`. Contracts see it as a number.
#[derive(Drop)]
pub struct Probes {
    compared: u64,
}

impl Model for Probes {
    ghost use Rattle.std.specs.Prelude.{ℕ};

    ghost Value = { ℕ };

    ghost view = { λ p. p.compared };
}

impl Probes {
    /// Returns a counter at zero.
    pub fn new() -> Self
        ensures { result ≡ 0 }
    {
        Probes { compared: 0 }
    }

    /// Returns the number of comparisons.
    pub fn count(&self) -> u64
        ensures { result ≡ self.now }
    {
        self.compared
    }

    /// Compares two keys and counts the comparison.
    pub fn compare(&mut self, one: &KeyRef<'_>, other: &KeyRef<'_>) -> Ordering
        ensures order { result ≡ order one.now other.now }
        ensures counted { self.new ≡ min (self.old + 1) u64.MAX }
        ensures kept { self.old ≤ self.new }
    {
        self.compared = self.compared.saturating_add(1);
        one.compare(other)
    }

    /// Compares the key at place `at` of the list to `key`, and counts the comparison.
    #[inline]
    pub fn compare_at<L: KeyList>(&mut self, list: &L, at: usize, key: &KeyRef<'_>) -> Ordering
        requires { at < length (L.keys list.now) }
        ensures order { (k : Bytes) → slice_get (L.keys list.now) at ≡ Some k → result ≡ order k key.now }
        ensures counted { self.new ≡ min (self.old + 1) u64.MAX }
        ensures kept { self.old ≤ self.new }
    {
        self.compared = self.compared.saturating_add(1);
        list.compare_at(at, key)
    }
}
