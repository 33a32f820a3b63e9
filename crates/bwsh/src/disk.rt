//! The disk of a session's store, in memory or in a file, which reports the segments that it reads
//! and writes.
ghost use Rattle.std.specs.Prelude.{◌≡◌};
ghost use Rattle.bwsh.specs.StoreDisk.{view_of, failed_of, lawful_of};

use crate::progress::{Event, Observer};
use engine::{Disk, DiskFault, FileDisk, LockFile, MemDisk};
use std::alloc::Global;
use std::fs::{File, OpenFile};
use std::io;
use std::io::{ErrorKind, Read, Seek, Write};

// The byte offset of the first segment. Calls for the header before it are not counted.
const SEGMENTS_BEGIN: u64 = 512;

/// A file whose lock can be released while the file is open.
pub trait StoreFile: LockFile {
    /// Releases the lock.
    fn release(&self) -> io::Result<()>;
}

impl StoreFile for File {
    fn release(&self) -> io::Result<()> {
        self.unlock()
    }
}

/// A disk that knows why a call failed.
pub trait LastError {
    /// Returns the reason of the last failure, if there was one.
    fn reason(&self) -> Option<io::Error>;
}

#[derive(Drop)]
pub enum Base<M, F> {
    Memory(M),
    File(F),
}

/// One disk or the other, which reports its calls. The log makes one call for each segment.
#[derive(Drop)]
pub struct ReportingDisk<'a, M, F, P> {
    base: Base<M, F>,
    report: &'a P,
}

/// A disk of a store.
pub type StoreDisk<'a, F, P> = ReportingDisk<'a, MemDisk<Global>, FileDisk<F>, P>;

impl<'a, M, F, P: Observer> ReportingDisk<'a, M, F, P> {
    pub fn new(base: Base<M, F>, report: &'a P) -> ReportingDisk<'a, M, F, P>
        ensures { result.base ≡ base }
    {
        ReportingDisk { base, report }
    }

    pub fn into_base(self) -> Base<M, F>
        ensures { result ≡ self.entry.base }
    {
        let ReportingDisk { base, .. } = self;
        base
    }

    // Reports a call at offset `at`, unless it is for the header.
    fn count(&self, at: u64) {
        if at >= SEGMENTS_BEGIN {
            self.report.observe(Event::SegmentDone);
        }
    }
}

impl<'a, F: Read + Write + Seek + OpenFile + LockFile + Drop, P: Observer> LastError
    for ReportingDisk<'a, MemDisk<Global>, FileDisk<F>, P> {
    fn reason(&self) -> Option<io::Error> {
        match &self.base {
            Base::File(disk) => disk.last_error(),
            Base::Memory(disk) if disk.failures() == 0 => None,
            Base::Memory(_) => Some(ErrorKind::OutOfMemory.into()),
        }
    }
}

impl<'a, M: Disk, F: Disk, P: Observer> Disk for ReportingDisk<'a, M, F, P> {
    ghost view = { λ d. view_of M.view F.view d.base };

    ghost failed = { λ d. failed_of M.failed F.failed d.base };

    ghost lawful = { λ d honest. lawful_of M.view F.view M.lawful F.lawful d.base honest };

    fn len(&self) -> u64 {
        match &self.base {
            Base::Memory(disk) => disk.len(),
            Base::File(disk) => disk.len(),
        }
    }

    fn failures(&self) -> u64 {
        match &self.base {
            Base::Memory(disk) => disk.failures(),
            Base::File(disk) => disk.failures(),
        }
    }

    fn read_at(&mut self, at: u64, buf: &mut [u8]) -> Result<(), DiskFault> {
        let done = match &mut self.base {
            Base::Memory(disk) => disk.read_at(at, buf),
            Base::File(disk) => disk.read_at(at, buf),
        };
        self.count(at);
        done
    }

    fn write_at(&mut self, at: u64, bytes: &[u8]) -> Result<(), DiskFault> {
        let done = match &mut self.base {
            Base::Memory(disk) => disk.write_at(at, bytes),
            Base::File(disk) => disk.write_at(at, bytes),
        };
        self.count(at);
        done
    }

    fn sync(&mut self) -> Result<(), DiskFault> {
        match &mut self.base {
            Base::Memory(disk) => disk.sync(),
            Base::File(disk) => disk.sync(),
        }
    }
}
