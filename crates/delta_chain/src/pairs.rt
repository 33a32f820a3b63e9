//! A page's entries, borrowed from its runs and its base.
ghost use Rattle.std.specs.Prelude.{◌≡◌, ◌<◌, length, min, slice_get, Some, IfOk};
ghost use Rattle.std.specs.List.{sum_by};
ghost use Rattle.std.specs.Map.{keys_of, values_of};
ghost use Rattle.keys.specs.Order.{IsRising};
ghost use Rattle.delta_chain.specs.Lent.{pairs_lent};

use crate::base::Base;
use crate::builder::BaseBuilder;
use keys::Cell;
use std::alloc::{AllocError, Allocator};
use std::marker::Model;

/// A page's entries, borrowed from its runs and its base. Contracts see them as the list of pairs.
#[derive(Drop)]
pub struct Pairs<'a, V, A: Allocator> {
    lent: Vec<(&'a [u8], &'a V), A>,
}

impl<'a, V, A: Allocator> Model for Pairs<'a, V, A> {
    ghost use Rattle.std.specs.Prelude.{List};
    ghost use Rattle.keys.specs.Bytes.{Bytes};

    ghost Value = { List (Bytes × V) };

    ghost use Rattle.delta_chain.specs.Lent.{pairs_lent};

    ghost view = { λ p. pairs_lent p.lent.items };
}

impl<'a, V, A: Allocator + Copy> Pairs<'a, V, A> {
    pub(crate) fn of_list(lent: Vec<(&'a [u8], &'a V), A>) -> Self
        ensures { result ≡ pairs_lent lent.entry.items }
    {
        Pairs { lent }
    }

    /// Returns the number of pairs.
    pub fn len(&self) -> usize
        ensures { result ≡ length self.now }
    {
        self.lent.len()
    }

    /// Returns the bytes of the key at place `at`, counted from 0.
    pub fn key(&self, at: usize) -> &'a [u8]
        requires { at < length self.now }
        ensures { slice_get (keys_of self.now) at ≡ Some result.now }
    {
        self.lent[at].0
    }

    /// Returns the cell at place `at`, counted from 0.
    pub fn cell(&self, at: usize) -> &'a V
        requires { at < length self.now }
        ensures { slice_get (values_of self.now) at ≡ Some result.now }
    {
        self.lent[at].1
    }
}

impl<'a, V: Cell<A> + Drop, A: Allocator + Copy> Pairs<'a, V, A> {
    /// Returns a base with copies of the keys, each with a blank cell. `Err` means that allocation failed.
    pub fn blank_base(&self, alloc: A) -> Result<Base<V, A>, AllocError>
        requires { IsRising self.now }
        ensures { IfOk result (λ base. keys_of base ≡ keys_of self.now) }
    {
        blank_base(alloc, &self.lent)
    }

    /// Returns a base with copies of the pairs. `Err` means that allocation failed.
    pub fn copied_base(&self, alloc: A) -> Result<Base<V, A>, AllocError>
        requires { IsRising self.now }
        ensures { IfOk result (λ base. base ≡ self.now) }
    {
        copied_base(alloc, &self.lent)
    }
}

/// Returns a base with copies of the keys of `entries`, each with a blank cell. `Err` means that allocation failed.
pub fn blank_base<V: Cell<A> + Drop, A: Allocator + Copy>(
    alloc: A,
    entries: &[(&[u8], &V)],
) -> Result<Base<V, A>, AllocError>
    requires { IsRising (pairs_lent entries.now) }
    ensures { IfOk result (λ base. keys_of base ≡ keys_of (pairs_lent entries.now)) }
{
    let mut builder = BaseBuilder::with_capacity(alloc, entries.len(), key_bytes(entries))?;
    for entry in entries {
        builder.push_next(entry.0, V::blank(alloc))?;
    }
    Ok(builder.finish())
}

/// Returns a base with copies of `entries`. `Err` means that allocation failed.
pub fn copied_base<V: Cell<A> + Drop, A: Allocator + Copy>(
    alloc: A,
    entries: &[(&[u8], &V)],
) -> Result<Base<V, A>, AllocError>
    requires { IsRising (pairs_lent entries.now) }
    ensures { IfOk result (λ base. base ≡ pairs_lent entries.now) }
{
    let mut builder = BaseBuilder::with_capacity(alloc, entries.len(), key_bytes(entries))?;
    for entry in entries {
        let cell = entry.1.copy(alloc)?;
        builder.push_next(entry.0, cell)?;
    }
    Ok(builder.finish())
}

// The total number of bytes of these keys, or the greatest `usize` if there are more.
fn key_bytes<V>(entries: &[(&[u8], &V)]) -> usize
    ensures { result ≡ min (sum_by (λ e. length e.0) (pairs_lent entries.now)) usize.MAX }
{
    let mut bytes: usize = 0;
    for entry in entries {
        bytes = bytes.saturating_add(entry.0.len());
    }
    bytes
}
