//! Advisory locks on whole files, by which programs that open the same file exclude each other.
use std::fs::File;
use std::io;

/// A file that can be locked. A lock lasts until the file is closed, so it ends with its program, however the program
/// ends. It excludes only programs that also ask for a lock. If another lock is in the way, the error has the kind
/// `WouldBlock`.
pub trait LockFile {
    /// Takes an exclusive lock, or fails at once if the file is locked or shared by another.
    fn hold(&self) -> io::Result<()>;

    /// Takes a shared lock, or fails at once if another has an exclusive one.
    fn share(&self) -> io::Result<()>;
}

impl LockFile for File {
    fn hold(&self) -> io::Result<()> {
        Ok(self.try_lock()?)
    }

    fn share(&self) -> io::Result<()> {
        Ok(self.try_lock_shared()?)
    }
}
