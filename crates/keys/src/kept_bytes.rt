//! The bytes of a key or a value: short ones in place, longer ones in a list.
ghost use Rattle.std.specs.Prelude.{◌≡◌, [], IfOk};

use crate::short_bytes::ShortBytes;
use std::alloc::{AllocError, Allocator};
use std::marker::Model;

/// The bytes of a key or a value: up to 23 bytes in place, more in an allocated list. Contracts see them as a list of
/// bytes.
#[derive(Drop)]
pub(crate) struct KeptBytes<A: Allocator> {
    form: Form<A>,
}

#[derive(Drop)]
enum Form<A: Allocator> {
    Short(ShortBytes),
    Long(Vec<u8, A>),
}

impl<A: Allocator> Model for KeptBytes<A> {
    ghost use Rattle.keys.specs.Bytes.{Bytes};
    ghost use Rattle.keys.specs.Kept.{bytes_of};

    ghost Value = { Bytes };

    ghost view = { λ k. bytes_of k.form };
}

impl<A: Allocator> KeptBytes<A> {
    /// Returns the empty byte string. Does not allocate.
    #[inline]
    pub(crate) fn empty() -> Self
        ensures { result ≡ [] }
    {
        KeptBytes {
            form: Form::Short(ShortBytes::empty()),
        }
    }

    /// Copies `bytes`. Allocates only if there are more than 23; `Err` if that fails.
    #[inline]
    pub(crate) fn from_bytes(alloc: A, bytes: &[u8]) -> Result<Self, AllocError>
        ensures { IfOk result (λ kept. kept ≡ bytes.now) }
    {
        match ShortBytes::from_bytes(bytes) {
            Some(short) => Ok(KeptBytes {
                form: Form::Short(short),
            }),
            None => Ok(KeptBytes {
                form: Form::Long(bytes.to_vec(alloc)?),
            }),
        }
    }

    /// Returns an equal byte string. Allocates only if there are more than 23 bytes; `Err` if that fails.
    #[inline]
    pub(crate) fn copy(&self, alloc: A) -> Result<Self, AllocError>
        ensures { IfOk result (λ kept. kept ≡ self.now) }
    {
        match &self.form {
            Form::Short(short) => Ok(KeptBytes {
                form: Form::Short(short.again()),
            }),
            Form::Long(long) => Ok(KeptBytes {
                form: Form::Long(long.as_slice().to_vec(alloc)?),
            }),
        }
    }

    #[inline]
    pub(crate) fn as_bytes(&self) -> &[u8]
        ensures { result.now ≡ self.now }
    {
        match &self.form {
            Form::Short(short) => short.as_bytes(),
            Form::Long(long) => long.as_slice(),
        }
    }
}
