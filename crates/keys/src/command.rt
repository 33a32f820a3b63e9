//! Commands, and the replies to them.
ghost use Rattle.std.specs.Prelude.{◌≡◌, IfOk};
ghost use Rattle.keys.specs.declared.command.Command.TheVariants.{Get, Put, Add, Del};
ghost use Rattle.keys.specs.CommandKey.{key_of, is_ranged, is_scan};

use crate::key::Key;
use crate::row_list::RowList;
use crate::value::Value;
use std::alloc::{AllocError, Allocator};

/// A request to the store. The commands of a batch take effect in the order of their places; `specs/Step.antt` defines
/// what each one does.
#[derive(Drop)]
#[derive_where(Debug, PartialEq, Eq)]
pub enum Command<A: Allocator> {
    /// Reads the value at the key.
    Get(Key<A>),
    /// Sets the value at the key.
    Put(Key<A>, Value<A>),
    /// Sets the value at the key if the key is absent.
    Add(Key<A>, Value<A>),
    /// Deletes the key.
    Del(Key<A>),
    /// Reads pairs in key order: those at or above the lower bound and below the upper bound (if there is one), at most
    /// as many as the limit.
    Scan(Key<A>, Option<Key<A>>, u32),
    /// Deletes all keys at or above the lower bound and below the upper bound (if there is one).
    Wipe(Key<A>, Option<Key<A>>),
}

impl<A: Allocator + Copy> Command<A> {
    /// Makes a `Get` of `key`. Like the other constructors it copies its bytes: keys and values of up to 23 bytes are
    /// stored in place, longer ones are allocated, and `Err` means that the allocation failed.
    pub fn get(alloc: A, key: &[u8]) -> Result<Self, AllocError>
        ensures { IfOk result (λ command. command ≡ Get key.now) }
    {
        Ok(Command::Get(Key::from_bytes(alloc, key)?))
    }

    /// Makes a `Put` of `value` at `key`.
    pub fn put(alloc: A, key: &[u8], value: &[u8]) -> Result<Self, AllocError>
        ensures { IfOk result (λ command. command ≡ Put key.now value.now) }
    {
        let key = Key::from_bytes(alloc, key)?;
        let value = Value::from_bytes(alloc, value)?;
        Ok(Command::Put(key, value))
    }

    /// Makes an `Add` of `value` at `key`.
    pub fn add(alloc: A, key: &[u8], value: &[u8]) -> Result<Self, AllocError>
        ensures { IfOk result (λ command. command ≡ Add key.now value.now) }
    {
        let key = Key::from_bytes(alloc, key)?;
        let value = Value::from_bytes(alloc, value)?;
        Ok(Command::Add(key, value))
    }

    /// Makes a `Del` of `key`.
    pub fn del(alloc: A, key: &[u8]) -> Result<Self, AllocError>
        ensures { IfOk result (λ command. command ≡ Del key.now) }
    {
        Ok(Command::Del(Key::from_bytes(alloc, key)?))
    }
}

impl<A: Allocator> Command<A> {
    /// Returns the key of the command; for a scan or a wipe, its lower bound.
    pub fn key(&self) -> &Key<A>
        ensures { result.now ≡ key_of self.now }
    {
        match self {
            Command::Get(key) => key,
            Command::Put(key, _) => key,
            Command::Add(key, _) => key,
            Command::Del(key) => key,
            Command::Scan(lo, _, _) => lo,
            Command::Wipe(lo, _) => lo,
        }
    }

    /// Returns whether the command is a scan or a wipe: it covers a range of keys, which may lie in several pages.
    pub fn is_ranged(&self) -> bool
        ensures { result ≡ is_ranged self.now }
    {
        match self {
            Command::Scan(_, _, _) => true,
            Command::Wipe(_, _) => true,
            _ => false,
        }
    }

    /// Returns whether the command is a scan. Only scans are answered with rows.
    pub fn is_scan(&self) -> bool
        ensures { result ≡ is_scan self.now }
    {
        matches!(self, Command::Scan(_, _, _))
    }
}

/// The store's answer to one command.
#[derive(Drop)]
#[derive_where(Debug, PartialEq, Eq)]
pub enum Reply<A: Allocator> {
    /// To `Get`: the value at the key.
    Value(Value<A>),
    /// To `Get` and `Del`: the key was absent.
    Missing,
    /// To `Put`: the key was absent.
    New,
    /// To `Put`: the key was present.
    Replaced,
    /// To `Add`: the key was absent.
    Added,
    /// To `Add`: the key was present and keeps its value.
    Exists,
    /// To `Del`: the key was present.
    Deleted,
    /// To `Scan`: the pairs, in key order.
    Rows(RowList<A>),
    /// To `Wipe`: the number of keys that it deleted.
    Wiped(u128),
}
