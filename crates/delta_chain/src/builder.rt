//! Builds a base entry by entry.
ghost use Rattle.std.specs.Prelude.{◌≡◌, ◌∷◌, ◌++◌, [], true, false, IfOk, OnOk, OnErr, IsErrOf, ◌↔◌};
ghost use Rattle.delta_chain.specs.Building.{goes_last};

use crate::base::Base;
use std::alloc::{AllocError, Allocator};
use std::marker::Model;

/// Why an entry was rejected. The run or builder is unchanged.
#[derive(Clone, Copy, Debug, PartialEq, Eq)]
pub enum PushError {
    /// The key is not above the last one.
    OutOfOrder,
    /// An allocation failed.
    NoMemory,
}

impl From<AllocError> for PushError {
    ghost use Rattle.std.specs.Prelude.{◌≡◌};
    ghost use Rattle.delta_chain.specs.declared.builder.PushError.TheVariants.{NoMemory};

    ghost from_gives = { λ _ e. e ≡ NoMemory };

    fn from(_refused: AllocError) -> PushError {
        PushError::NoMemory
    }
}

/// Builds a base from entries in rising order of their keys; `push` checks the order. Contracts see it as the entries
/// so far.
#[derive(Drop)]
pub struct BaseBuilder<V, A: Allocator> {
    base: Base<V, A>,
}

impl<V, A: Allocator> Model for BaseBuilder<V, A> {
    ghost use Rattle.keys.specs.Bytes.{Pairs};

    ghost Value = { Pairs V };

    ghost view = { λ b. b.base };
}

impl<V, A: Allocator + Copy> BaseBuilder<V, A> {
    /// Returns an empty builder with room for `count` entries whose keys have `bytes` bytes in total. It grows beyond
    /// that if needed.
    pub fn with_capacity(alloc: A, count: usize, bytes: usize) -> Result<Self, AllocError>
        ensures { IfOk result (λ builder. builder ≡ []) }
    {
        let base = Base::with_capacity(alloc, count, bytes)?;
        Ok(BaseBuilder { base })
    }

    /// Returns the base of the entries.
    pub fn finish(self) -> Base<V, A>
        ensures { result ≡ self }
    {
        self.base
    }
}

impl<V: Drop, A: Allocator + Copy> BaseBuilder<V, A> {
    /// Appends an entry with a copy of `key`. Returns `OutOfOrder` if the key is not above the last one, and `NoMemory`
    /// if allocation fails; both drop the cell and leave the builder unchanged.
    pub fn push(&mut self, key: &[u8], cell: V) -> Result<(), PushError>
        ensures ok { OnOk result (self.new ≡ self.old ++ (key.now, cell) ∷ []) }
        ensures order { IsErrOf result PushError.OutOfOrder ↔ (goes_last key.now self.old ≡ false) }
        ensures err { OnErr result (self.new ≡ self.old) }
    {
        if !self.base.takes(key) {
            return Err(PushError::OutOfOrder);
        }
        self.base.push(key, cell)?;
        Ok(())
    }

    /// Appends an entry with a copy of `key`, which the caller knows to be above the last key (else use `push`). If
    /// allocation fails, the cell is dropped and the builder is unchanged.
    pub fn push_next(&mut self, key: &[u8], cell: V) -> Result<(), AllocError>
        requires { goes_last key.now self.old ≡ true }
        ensures ok { OnOk result (self.new ≡ self.old ++ (key.now, cell) ∷ []) }
        ensures err { OnErr result (self.new ≡ self.old) }
    {
        self.base.push(key, cell)
    }
}
