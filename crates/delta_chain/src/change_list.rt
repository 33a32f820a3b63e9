//! The merged changes of a page's runs, borrowed from the page.
ghost use Rattle.std.specs.Prelude.{◌≡◌, ◌<◌, length, slice_get, Some};
ghost use Rattle.std.specs.Map.{keys_of, values_of};
ghost use Rattle.std.specs.Option.{option_copied};
ghost use Rattle.keys.specs.Order.{IsRising};
ghost use Rattle.delta_chain.specs.Located.{keys_of_runs, changes_of, AreNewest};

use crate::key_list::KeyList;
use crate::locators::Locator;
use crate::run::Run;
use keys::KeyRef;
use std::alloc::Allocator;
use std::cmp::Ordering;
use std::marker::Model;

/// The merged changes of a page's runs, borrowed from the page: each key that a run contains, with its newest change.
/// Contracts see them as their list, in key order.
#[derive(Drop)]
pub struct ChangeList<'a, V, A: Allocator> {
    // Oldest first.
    runs: &'a [Run<V, A>],
    locators: &'a [Locator],
}

impl<'a, V, A: Allocator> Model for ChangeList<'a, V, A> {
    ghost use Rattle.std.specs.List.{AllByRecursion};
    ghost use Rattle.keys.specs.Bytes.{Changes};
    ghost use Rattle.keys.specs.Order.{IsRising};
    ghost use Rattle.delta_chain.specs.Located.{keys_of_runs, changes_of, IsIn};

    ghost Value = { Changes V };

    ghost view = { λ c. changes_of c.runs.now c.locators.now };

    ghost invariant = { λ c. AllByRecursion (IsIn (keys_of_runs c.runs.now)) c.locators.now
        × IsRising (changes_of c.runs.now c.locators.now) };
}

impl<'a, V, A: Allocator + Copy> ChangeList<'a, V, A> {
    pub(crate) fn new(runs: &'a [Run<V, A>], locators: &'a [Locator]) -> Self
        requires { AreNewest (keys_of_runs runs.now) locators.now }
        ensures { result ≡ changes_of runs.entry.now locators.entry.now }
    {
        ChangeList { runs, locators }
    }

    /// Returns the number of changes.
    pub fn len(&self) -> usize
        ensures count { result ≡ length self.now }
        ensures rising { IsRising self.now }
    {
        self.locators.len()
    }

    /// Returns the change at place `at`, counted from 0: the bytes of its key, and the new cell, or `None` if the key
    /// is deleted.
    pub fn change(&self, at: usize) -> (&'a [u8], Option<&'a V>)
        requires { at < length self.now }
        ensures key { slice_get (keys_of self.now) at ≡ Some result.0.now }
        ensures cell { slice_get (values_of self.now) at ≡ Some (option_copied result.1) }
    {
        let locator = locator_at(self.locators, at);
        (locator.key(self.runs), locator.change(self.runs))
    }
}

impl<'a, V, A: Allocator + Copy> KeyList for ChangeList<'a, V, A> {
    ghost keys = { keys_of };

    fn len(&self) -> usize {
        ChangeList::len(self)
    }

    fn key(&self, at: usize) -> &[u8] {
        locator_at(self.locators, at).key(self.runs)
    }

    fn key_ref(&self, at: usize) -> KeyRef<'_> {
        locator_at(self.locators, at).key_ref(self.runs)
    }

    #[inline]
    fn compare_at(&self, at: usize, key: &KeyRef<'_>) -> Ordering {
        locator_at(self.locators, at).compare(self.runs, key)
    }
}

fn locator_at(locators: &[Locator], at: usize) -> Locator
    requires { at < length locators.now }
    ensures { slice_get locators.now at ≡ Some result }
{
    locators[at]
}
