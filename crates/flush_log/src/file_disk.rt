//! A disk over a file of the system.
ghost use Rattle.std.specs.Prelude.{◌≡◌, ◌<◌, IfOk, IsSome};
ghost use Rattle.flush_log.specs.Disk.{CountsFailure};
ghost use Rattle.flush_log.specs.FileDisk.{of_length};

use crate::disk::{Disk, DiskFault, count_failure};
use crate::lock_file::LockFile;
use std::fs::{OpenFile, OpenOptions};
use std::io;
use std::io::{ErrorKind, Read, Seek, SeekFrom, Write};
use std::rt::Files;

/// A disk over an open file. It locks the file for itself, or shares the lock with other readers. Its length is that of
/// the file when the disk was made. It counts failed calls and keeps the error of the last one. The library's clauses
/// do not describe the contents of files, so the contract does not call this disk honest.
///
/// A partial read or write is continued, and an interrupted one is repeated. Reading at the end of the file is a
/// failure. A sync calls `sync_data` (`fdatasync`), which returns after the device has the bytes and the file's length;
/// `flush` would have no effect.
#[derive(Drop)]
pub struct FileDisk<F> {
    file: F,
    len: u64,
    is_shared: bool,
    failures: u64,
    last_error: Option<io::Error>,
    ghost reason: { 0 < failures → IsSome last_error },
}

impl<F: Read + Write + Seek + OpenFile + LockFile + Drop> FileDisk<F> {
    /// Opens the existing file at `path` for reading and writing, and locks it.
    pub fn open<R: Files<File = F>>(rt: &R, path: &str) -> io::Result<FileDisk<F>> {
        FileDisk::of_file(OpenOptions::new().read(true).write(true).open(rt, path)?)
    }

    /// Opens the existing file at `path` for reading only, with a shared lock. Each write to this disk fails.
    pub fn open_shared<R: Files<File = F>>(rt: &R, path: &str) -> io::Result<FileDisk<F>> {
        FileDisk::of_shared(OpenOptions::new().read(true).open(rt, path)?)
    }

    /// Opens the file at `path`, or creates it, and replaces its contents by `len` zeros, as `of_zeros` does.
    pub fn create<R: Files<File = F>>(rt: &R, path: &str, len: u64) -> io::Result<FileDisk<F>>
        ensures { IfOk result (λ disk. (⟦<FileDisk<F> as Disk>⟧.view disk).size ≡ len) }
    {
        let mut how = OpenOptions::new();
        how.read(true).write(true).create(true);
        FileDisk::of_zeros(how.open(rt, path)?, len)
    }

    /// Makes a disk of a file that is open for reading and writing, with the file's length. Fails if another program
    /// has locked or shared the file.
    pub fn of_file(file: F) -> io::Result<FileDisk<F>> {
        file.hold()?;
        FileDisk::of_locked(file, false)
    }

    /// Makes a disk of a file that is open for reading, with the file's length. Fails if another program has locked the
    /// file.
    pub fn of_shared(file: F) -> io::Result<FileDisk<F>> {
        file.share()?;
        FileDisk::of_locked(file, true)
    }

    // A disk of a locked file; only the lock ensures that its length stays the same.
    fn of_locked(file: F, is_shared: bool) -> io::Result<FileDisk<F>> {
        let len = file.metadata()?.len();
        Ok(FileDisk {
            file,
            len,
            is_shared,
            failures: 0,
            last_error: None,
        })
    }

    /// Locks a file that is open for reading and writing, replaces its contents by `len` zeros, and returns its disk.
    /// Fails if another program has locked or shared the file.
    ///
    /// Sets three lengths in turn, and stops at the first failure. The first one is greater than the current length and
    /// at least `len`: if the system rejects it because the file would be too long, the file is unchanged. The second
    /// one is zero: if that fails, the file has its old contents followed by zeros, which is a disk of the same store.
    /// The third one is `len`: if that fails, the file is empty.
    pub fn of_zeros(file: F, len: u64) -> io::Result<FileDisk<F>>
        ensures { IfOk result (λ disk. (⟦<FileDisk<F> as Disk>⟧.view disk).size ≡ len) }
    {
        FileDisk::of_file(file)?.zeroed(len)
    }

    /// Does the same for the file of this disk, which is already locked.
    pub fn zeroed(self, len: u64) -> io::Result<FileDisk<F>>
        ensures { IfOk result (λ disk. (⟦<FileDisk<F> as Disk>⟧.view disk).size ≡ len) }
    {
        let mut disk = self;
        disk.file.set_len(disk.len.saturating_add(1).max(len))?;
        disk.file.set_len(0)?;
        disk.file.set_len(len)?;
        disk.len = len;
        Ok(disk)
    }

    /// Returns the system's error of the last failed call, for a message, or `None` if no call has failed.
    pub fn last_error(&self) -> Option<io::Error>
        ensures { 0 < ⟦<FileDisk<F> as Disk>⟧.failed self.now → IsSome result }
    {
        self.last_error
    }

    // Counts the call if it failed, and keeps its error.
    fn count(&mut self, done: io::Result<()>) -> Result<(), DiskFault>
        ensures failed { CountsFailure result self.old.failures self.new.failures }
        ensures len { self.new.len ≡ self.old.len }
    {
        match done {
            Ok(()) => Ok(()),
            Err(reason) => {
                self.last_error = Some(reason);
                Err(count_failure(&mut self.failures))
            }
        }
    }
}

fn read_from<F: Read + Seek>(file: &mut F, at: u64, buf: &mut [u8]) -> io::Result<()> {
    file.seek(SeekFrom::Start(at))?;
    file.read_exact(buf)
}

fn write_from<F: Write + Seek>(file: &mut F, at: u64, bytes: &[u8]) -> io::Result<()> {
    file.seek(SeekFrom::Start(at))?;
    file.write_all(bytes)
}

// Whether a sync failed only because the file system does not support it or is read-only: then no write is waiting to
// be synced.
fn has_no_sync(error: &io::Error) -> bool {
    matches!(
        error.kind(),
        ErrorKind::InvalidInput | ErrorKind::ReadOnlyFilesystem
    )
}

impl<F: Read + Write + Seek + OpenFile + LockFile + Drop> Disk for FileDisk<F> {
    ghost view = { λ d. of_length d.len };

    ghost failed = { λ d. d.failures };

    ghost lawful = { λ d honest. absurd (Prim.cc) };

    fn len(&self) -> u64 {
        self.len
    }

    fn failures(&self) -> u64 {
        self.failures
    }

    fn read_at(&mut self, at: u64, buf: &mut [u8]) -> Result<(), DiskFault> {
        let done = read_from(&mut self.file, at, buf);
        self.count(done)
    }

    fn write_at(&mut self, at: u64, bytes: &[u8]) -> Result<(), DiskFault> {
        let done = write_from(&mut self.file, at, bytes);
        self.count(done)
    }

    fn sync(&mut self) -> Result<(), DiskFault> {
        match self.file.sync_data() {
            Err(error) if self.is_shared && has_no_sync(&error) => Ok(()),
            done => self.count(done),
        }
    }
}
