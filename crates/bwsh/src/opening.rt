//! Opening the store of a session: in memory, in a new file, or in an existing file.
ghost use Rattle.std.specs.Prelude.{false, replicate, ◌≡◌, ◌≢◌, ◌⊎◌, None, Some, Ok, IfOk, ◌≤◌};
ghost use Rattle.keys.specs.Bytes.{Bytes};
ghost use Rattle.keys.specs.Limits.{first_bad_field};
ghost use Rattle.flush_log.specs.Segments.{disk_size};
ghost use Rattle.bwsh.specs.Options.{request_of};
ghost use Rattle.bwsh.specs.Session.{IsHolding, IsOpening, IsStartBy, Opens, IsHonestStore, Start, new_start, found_start};

use crate::context::Session;
use crate::disk::{Base, LastError, ReportingDisk, StoreDisk, StoreFile};
use crate::notes::Source;
use crate::progress::{Event, LongCall, Observer};
use crate::session::{Result, SessionError};
use engine::{Disk, FileDisk, LockFile, MemDisk, Store, admit_file, sync_folder};
use flush_log::disk_size;
use keys::Fault;
use std::fs::{OpenFile, OpenOptions};
use std::io::ErrorKind;
use std::rt::Files;
use std::thread::Threads;
use std::time::{Clock, Duration};
use std::{io, thread};

// How many times a second a lock is tried with `--wait`, and how many milliseconds pass after a
// try.
const TRIES: u64 = 10;

const PAUSE: u64 = 100;

pub fn store_fault(fault: Fault) -> SessionError
    ensures { ((fault ≡ Fault.Device) × (result ≡ SessionError.Device))
        ⊎ ((fault ≢ Fault.Device) × (result ≡ SessionError.Fault fault)) }
{
    match fault {
        Fault::Device => SessionError::Device,
        _ => SessionError::Fault(fault),
    }
}

fn release<F: StoreFile + Drop>(held: Option<F>) -> io::Result<()> {
    match held {
        Some(file) => file.release(),
        None => Ok(()),
    }
}

impl<'a, R: Files + Clock, P: Observer> Session<'a, R, P>
where
    R::File: LockFile,
{
    /// Opens a file for reading, and for writing if `writes`, and locks it: exclusively if
    /// `writes`, and shared otherwise. If `creates`, creates a missing file, and makes its name
    /// durable. If another program has locked the file, tries again for about as many seconds as
    /// `--wait` gives, and then fails with `WouldBlock`. Each try opens the file again, because
    /// another one may be at the path.
    pub fn open_locked(&self, path: &str, writes: bool, creates: bool) -> io::Result<R::File> {
        for _try in 0..TRIES * u64::from(self.calls.mode.wait) {
            match self.try_open(path, writes, creates) {
                Err(error) if error.kind() == ErrorKind::WouldBlock => {
                    thread::sleep(self.calls.rt, Duration::from_millis(PAUSE));
                }
                done => return done,
            }
        }
        self.try_open(path, writes, creates)
    }

    fn try_open(&self, path: &str, writes: bool, creates: bool) -> io::Result<R::File> {
        let mut how = OpenOptions::new();
        how.read(true).write(writes).create(creates);
        let file = how.open(self.calls.rt, path)?;
        if writes { file.hold() } else { file.share() }?;
        admit_file(self.calls.rt, &file, path)?;
        if creates {
            sync_folder(self.calls.rt, path)?;
        }
        Ok(file)
    }
}

impl<'a, R, P: Observer> Session<'a, R, P> {
    pub fn disk<M, F>(&self, base: Base<M, F>) -> ReportingDisk<'a, M, F, P>
        ensures { result.base ≡ base }
    {
        ReportingDisk::new(base, self.report)
    }

    // Creates a store on this disk, whose old contents are lost.
    fn create_store<D: Disk + LastError + Drop>(&self, disk: D) -> Result<Store<D>>
        requires good { first_bad_field self.now.asked.now.settings ≡ None }
        requires room { disk_size self.now.asked.now.settings ≤ (D.view disk).size }
        ensures opens { (file : Bytes) → IsHolding (D.view disk) file →
            Opens D.view (new_start self.now.asked.now.settings file) result }
        ensures honest { IfOk result
            (λ store. (D.view store.disk).is_honest ≡ (D.view disk).is_honest) }
    {
        match Store::create(self.calls.alloc, disk, self.asked.settings) {
            Ok(store) => Ok(store),
            Err(refused) => {
                self.notes.record_failure(Source::File, refused.1.reason());
                Err(store_fault(refused.0))
            }
        }
    }
}

impl<'a, R: Files + Clock, P: Observer> Session<'a, R, P>
where
    R::File: StoreFile,
{
    // Opens an existing file. If the session writes nothing, also returns a clone of the open file,
    // which shares its lock.
    fn open_old(
        &self,
        path: &str,
        writes: bool,
    ) -> io::Result<(FileDisk<R::File>, Option<R::File>)> {
        let file = self.open_locked(path, writes, false)?;
        if writes {
            return Ok((FileDisk::of_file(file)?, None));
        }
        let held = file.try_clone()?;
        Ok((FileDisk::of_shared(file)?, Some(held)))
    }

    // Creates a store in a file. Does not touch the file if the settings are refused.
    fn new_store(&self, path: &str) -> Result<Store<StoreDisk<'a, R::File, P>>>
        // The disk of a file is not honest, so any old contents of the file satisfy this clause.
        ensures { (file : Bytes) → Opens ⟦<StoreDisk<'a, R::File, P> as Disk>⟧.view (new_start
            self.now.asked.now.settings file) result }
    {
        self.asked.settings.check()?;
        let file = self.check_call(Source::File, self.open_locked(path, true, true))?;
        let disk = self.check_call(
            Source::File,
            FileDisk::of_zeros(file, disk_size(&self.asked.settings)),
        )?;
        self.create_store(self.disk(Base::File(disk)))
    }

    fn store_in_memory(&self) -> Result<Store<StoreDisk<'a, R::File, P>>>
        ensures opens { Opens ⟦<StoreDisk<'a, R::File, P> as Disk>⟧.view
            (new_start self.now.asked.now.settings (replicate (disk_size
            self.now.asked.now.settings) 0)) result }
        ensures honest { IsHonestStore ⟦<StoreDisk<'a, R::File, P> as Disk>⟧.view result }
    {
        self.asked.settings.check()?;
        let len = disk_size(&self.asked.settings) as usize;
        let disk = MemDisk::new(self.calls.alloc, len)?;
        self.create_store(self.disk(Base::Memory(disk)))
    }
}

impl<'a, R: Threads + Sync + Files + Clock, P: Observer> Session<'a, R, P>
where
    R::File: StoreFile,
{
    // Recovers the store on the disk. The disk is synced first, because an earlier program may have
    // ended between a write and the sync. Nothing is written.
    fn recover_store<D: Disk + LastError + Drop>(&self, disk: D) -> Result<Store<D>>
        ensures { (file : Bytes) × Opens D.view (found_start file) result }
    {
        match Store::open(self.calls.rt, self.calls.alloc, disk, self.calls.crew) {
            Ok(store) => Ok(store),
            Err(refused) => {
                self.notes.record_failure(Source::File, refused.1.reason());
                Err(store_fault(refused.0))
            }
        }
    }

    // Opens the store in an existing file. If the session writes nothing, releases the lock as soon
    // as the store is in memory.
    fn old_store(&self, path: &str, writes: bool) -> Result<Store<StoreDisk<'a, R::File, P>>>
        ensures { (file : Bytes) × Opens ⟦<StoreDisk<'a, R::File, P> as Disk>⟧.view
            (found_start file) result }
    {
        let opened = self.check_call(Source::File, self.open_old(path, writes))?;
        let (disk, held) = opened;
        let store = self.recover_store(self.disk(Base::File(disk)))?;
        self.check_call(Source::File, release(held))?;
        Ok(store)
    }

    // Opens the store in the file.
    fn store_in_file(&self, path: &str, writes: bool) -> Result<Store<StoreDisk<'a, R::File, P>>>
        // The file has some bytes, about which nothing is known.
        ensures { (start : Start) × IsStartBy self.now.asked.now.settings (Some path.now)
            self.now.asked.now.create None start
            × Opens ⟦<StoreDisk<'a, R::File, P> as Disk>⟧.view start result }
    {
        if self.asked.create {
            self.new_store(path)
        } else {
            self.old_store(path, writes)
        }
    }

    /// Opens the store of the session. The file is locked exclusively if the session `writes` or
    /// creates it. Otherwise the lock is shared, the file is only read, and the lock is released as
    /// soon as the store is in memory. A file that cannot be opened or locked, or, without
    /// `--create`, that has no store, is unchanged. If the length of a created file cannot be set,
    /// `FileDisk::of_zeros` describes the contents of the file; after a later failure, its old
    /// contents are lost.
    pub fn open_store(&self, writes: bool) -> Result<Store<StoreDisk<'a, R::File, P>>>
        ensures { IsOpening ⟦<StoreDisk<'a, R::File, P> as Disk>⟧.view (request_of
            self.now.asked.now) result }
    {
        let Some(path) = &self.asked.disk else {
            return self.store_in_memory();
        };
        self.report.observe(Event::CallBegun(LongCall::Opening));
        let opened = self.store_in_file(path, writes);
        self.report.observe(Event::CallEnded);
        opened
    }
}
