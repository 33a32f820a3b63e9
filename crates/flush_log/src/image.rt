//! Encoded frames in one buffer.
ghost use Rattle.std.specs.Prelude.{◌≡◌, ◌<◌, ◌++◌, ◌∷◌, [], length, slice_get, IfOk, OnOk};
ghost use Rattle.frame_codec.specs.Frame.{bytes_of};
ghost use Rattle.frame_codec.specs.Frame.Content.{Free};
ghost use Rattle.frame_codec.specs.Sized.{IsSized, FitsU64};

use crate::kind::Kind;
use delta_chain::{Base, Run};
use frame_codec::{KeyEncoding, write_free};
use keys::Pid;
use std::alloc::{AllocError, Allocator, Global};
use std::marker::Model;

/// Encoded frames that are written together: those of one page in a flush, or those that a clean copies. Contracts see
/// it as the list of each frame's bytes.
#[derive(Drop)]
pub struct Image {
    bytes: Vec<u8>,
    // The end of each frame in the buffer.
    ends: Vec<usize>,
}

impl Model for Image {
    ghost use Rattle.std.specs.Prelude.{List, length};
    ghost use Rattle.delta_chain.specs.Packed.{AreEnds};
    ghost use Rattle.keys.specs.Bytes.{Bytes};
    ghost use Rattle.flush_log.specs.Images.{cut_at};

    ghost Value = { List Bytes };

    ghost view = { λ i. cut_at 0 i.bytes.items i.ends.items };

    ghost invariant = { λ i. AreEnds 0 i.ends.items (length i.bytes.items) };
}

impl Image {
    // An image without frames, with room for the ends of `frames` frames.
    pub(crate) fn with_capacity(alloc: Global, frames: usize) -> Result<Self, AllocError>
        ensures { IfOk result (λ image. image ≡ []) }
    {
        let ends = Vec::with_capacity(alloc, frames)?;
        Ok(Image {
            bytes: Vec::new(alloc),
            ends,
        })
    }

    /// Returns an image without frames. Does not allocate.
    pub fn new(alloc: Global) -> Self
        ensures { result ≡ [] }
    {
        Image {
            bytes: Vec::new(alloc),
            ends: Vec::new(alloc),
        }
    }

    /// Appends an encoded frame, for example one that a clean copies. `Err` means that allocation failed.
    pub fn push(&mut self, frame: &[u8]) -> Result<(), AllocError>
        ensures ok { OnOk result (self.new ≡ self.old ++ frame.now ∷ []) }
    {
        self.ends.reserve(1)?;
        self.bytes.extend_from_slice(frame)?;
        self.ends.push_reserved(self.bytes.len());
        Ok(())
    }

    // Appends the frame of a base under its low key. Like the other functions, shows that each page id in the frame has
    // 64 bits.
    pub(crate) fn push_full<V: Kind<A>, A: Allocator>(
        &mut self,
        pid: Pid,
        encoding: KeyEncoding,
        low: &[u8],
        base: &Base<V, A>,
    ) -> Result<(), AllocError>
        requires { IsSized (V.full encoding low.now base.now) }
        ensures ok { OnOk result (self.new ≡ self.old
            ++ bytes_of (record { pid = pid; content = V.full encoding low.now base.now }) ∷ []) }
        ensures words { OnOk result
            (FitsU64 (record { pid = pid; content = V.full encoding low.now base.now })) }
    {
        self.ends.reserve(1)?;
        V::write_full(pid, encoding, low, base, &mut self.bytes)?;
        self.ends.push_reserved(self.bytes.len());
        Ok(())
    }

    pub(crate) fn push_delta<V: Kind<A>, A: Allocator>(
        &mut self,
        pid: Pid,
        run: &Run<V, A>,
    ) -> Result<(), AllocError>
        requires { IsSized (V.delta run.now) }
        ensures ok { OnOk result (self.new
            ≡ self.old ++ bytes_of (record { pid = pid; content = V.delta run.now }) ∷ []) }
        ensures words { OnOk result (FitsU64 (record { pid = pid; content = V.delta run.now })) }
    {
        self.ends.reserve(1)?;
        V::write_delta(pid, run, &mut self.bytes)?;
        self.ends.push_reserved(self.bytes.len());
        Ok(())
    }

    // Appends the frame that records that the page was freed.
    pub(crate) fn push_free(&mut self, pid: Pid) -> Result<(), AllocError>
        ensures ok { OnOk result
            (self.new ≡ self.old ++ bytes_of (record { pid = pid; content = Free }) ∷ []) }
        ensures words { OnOk result (FitsU64 (record { pid = pid; content = Free })) }
    {
        self.ends.reserve(1)?;
        write_free(pid, &mut self.bytes)?;
        self.ends.push_reserved(self.bytes.len());
        Ok(())
    }

    /// Returns the number of frames.
    pub fn len(&self) -> usize
        ensures { result ≡ length self.now }
    {
        self.ends.len()
    }

    /// Returns the bytes of the frame at place `at`, counted from 0.
    pub fn frame(&self, at: usize) -> &[u8]
        requires { at < length self.now }
        ensures { slice_get self.now at ≡ Some result.now }
    {
        let end = self.ends[at];
        if at == 0 {
            &self.bytes[0..end]
        } else {
            &self.bytes[self.ends[at - 1]..end]
        }
    }
}
