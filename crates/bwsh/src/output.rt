//! Writing answers to the output.
ghost use Rattle.std.specs.Prelude.{◌≡◌, ◌⊎◌, [], ◌++◌, IfOk, OnOk, OnErr, IsOkUnless, take, length, ◌≤◌};
ghost use Rattle.std.specs.Bool.{MatchBool};
ghost use Rattle.std.specs.Io.KnownBytes.{Appends, Keeps};
ghost use Rattle.bwsh.specs.Output.{IsBegun, Puts};

use crate::session::{Result, SessionError};
use std::alloc::Global;
use std::io::{ErrorKind, Write};

// At how many bytes a buffer is written out.
const FULL: usize = 65_536;

// Makes one write call. Returns how many bytes were written, or 0 if the call was interrupted.
fn write_some<O: Write>(bytes: &[u8], out: &mut O) -> Result<usize>
    ensures ok { IfOk result (λ taken. (taken ≤ length bytes.now)
        × Appends (O.contents out.old) (O.contents out.new) (take taken bytes.now)) }
    ensures err { OnErr result (Keeps (O.contents out.old) (O.contents out.new)) }
    ensures device { IsOkUnless result SessionError.Device }
{
    match out.write(bytes) {
        Ok(0) => Err(SessionError::Device),
        Ok(taken) => Ok(taken),
        Err(error) if error.kind() == ErrorKind::Interrupted => Ok(0),
        Err(_) => Err(SessionError::Device),
    }
}

// Writes all bytes. After an error, `out` has a prefix of `bytes`, which `write_all` does not
// promise.
pub(crate) fn write_bytes<O: Write>(bytes: &[u8], out: &mut O) -> Result<()>
    ensures ok { OnOk result (Appends (O.contents out.old) (O.contents out.new) bytes.now) }
    ensures err { OnErr result (IsBegun (O.contents out.old) (O.contents out.new) bytes.now) }
    ensures device { IsOkUnless result SessionError.Device }
{
    let mut rest = bytes;
    for _ in 0..u64::MAX {
        if rest.is_empty() {
            return Ok(());
        }
        let taken = write_some(rest, out)?;
        rest = &rest[taken..];
    }
    Err(SessionError::Device)
}

/// The text of an answer that is not written yet. Adding to it fails only if the output does: if an
/// allocation fails, the bytes are written out at once.
#[derive(Drop)]
pub struct Buffer {
    text: Vec<u8>,
}

impl Buffer {
    pub fn new(alloc: Global) -> Self
        ensures { result.text.items ≡ [] }
    {
        Buffer {
            text: Vec::new(alloc),
        }
    }

    // Adds these bytes to the text if it is not full. Returns whether it has them.
    fn keep(&mut self, bytes: &[u8]) -> bool
        ensures { MatchBool result
            (self.new.text.items ≡ self.old.text.items ++ bytes.now)
            (self.new.text.items ≡ self.old.text.items) }
    {
        if self.text.len() >= FULL {
            return false;
        }
        self.text.extend_from_slice(bytes).is_ok()
    }

    /// Adds these bytes to the text.
    pub fn put<O: Write>(&mut self, bytes: &[u8], out: &mut O) -> Result<()>
        ensures { Puts O.contents self.old out.old self.new out.new bytes.now result }
    {
        if self.keep(bytes) {
            return Ok(());
        }
        self.write(out)?;
        write_bytes(bytes, out)
    }

    /// Writes the text out.
    pub fn write<O: Write>(&mut self, out: &mut O) -> Result<()>
        ensures text { OnOk result (self.new.text.items ≡ []) }
        ensures puts { Puts O.contents self.old out.old self.new out.new [] result }
    {
        write_bytes(&self.text, out)?;
        self.text.clear();
        Ok(())
    }
}

// Flushes `out`. Returns `done`, or `Device` if flushing fails.
pub(crate) fn flush<O: Write>(done: Result<()>, out: &mut O) -> Result<()>
    ensures bytes { Keeps (O.contents out.old) (O.contents out.new) }
    ensures end { (result ≡ done) ⊎ (result ≡ Err SessionError.Device) }
{
    match out.flush() {
        Ok(()) => done,
        Err(_) => Err(SessionError::Device),
    }
}

// Fails if `out` is closed, which a write of no bytes shows. If `out` were closed, the next file
// opened could get its descriptor, and the answers. An interrupted call shows that `out` is open.
pub(crate) fn check_open<O: Write>(out: &mut O) -> Result<()>
    ensures bytes { Appends (O.contents out.old) (O.contents out.new) [] }
    ensures device { IsOkUnless result SessionError.Device }
{
    match out.write(&[]) {
        Ok(_) => Ok(()),
        Err(error) if error.kind() == ErrorKind::Interrupted => Ok(()),
        Err(_) => Err(SessionError::Device),
    }
}
