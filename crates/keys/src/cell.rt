//! The trait of what a page stores at a key: a value or a page id.
ghost use Rattle.std.specs.Prelude.{◌≡◌, IfOk};

use crate::pid::Pid;
use crate::value::Value;
use std::alloc::{AllocError, Allocator};

/// What a page stores at a key: a value in a leaf, a page id in an index page.
pub trait Cell<A: Allocator + Copy> {
    /// Returns an equal cell in memory of its own, or `Err` if allocation fails.
    fn copy(&self, alloc: A) -> Result<Self, AllocError>
        ensures { IfOk result (λ cell. cell ≡ self.now) };

    /// Returns a placeholder to leave where a cell was moved out. Its content is unspecified; it
    /// does not allocate.
    fn blank(alloc: A) -> Self;
}

impl<A: Allocator + Copy> Cell<A> for Value<A> {
    fn copy(&self, alloc: A) -> Result<Self, AllocError> {
        Value::copy(self, alloc)
    }

    fn blank(alloc: A) -> Self {
        Value::empty(alloc)
    }
}

impl<A: Allocator + Copy> Cell<A> for Pid {
    fn copy(&self, _alloc: A) -> Result<Self, AllocError> {
        Ok(*self)
    }

    fn blank(_alloc: A) -> Self {
        Pid(0)
    }
}
