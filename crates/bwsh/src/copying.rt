//! Copies of the store: the copy of `--copy-to`, whose file is opened and checked before anything
//! runs and which is written last, and the copies that the lines of a stream ask for.
ghost use Rattle.std.specs.Prelude.{◌≡◌, ◌≤◌, None, Ok, Err, IfOk, IfErr, IfSome, IsTrue, OnOk};
ghost use Rattle.std.specs.Option.{option_map};
ghost use Rattle.keys.specs.Limits.{first_bad_field};
ghost use Rattle.mapping.specs.Levels.{contents};
ghost use Rattle.flush_log.specs.Disk.{IsSynced};
ghost use Rattle.flush_log.specs.Segments.{disk_size};
ghost use Rattle.engine.specs.Copies.{HoldsCopy};
ghost use Rattle.bwsh.specs.Options.{copy_of, request_of};
ghost use Rattle.bwsh.specs.Session.{CopiesTo, IsCopyEnd, IsCopyMade, IsUncopied};

use crate::context::Session;
use crate::disk::{Base, LastError, StoreDisk};
use crate::notes::Source;
use crate::opening::store_fault;
use crate::progress::{Event, LongCall, Observer};
use crate::session::{Result, SessionError};
use engine::{Disk, FileDisk, LockFile, Store, is_unfinished};
use flush_log::disk_size;
use keys::Settings;
use std::fs::OpenFile;
use std::io::{ErrorKind, Read, Seek, Write};
use std::rt::Files;
use std::thread::Threads;
use std::time::Clock;
use std::{io, str};

/// An empty, locked file for a copy, and the settings of the copy.
#[derive(Drop)]
pub struct Copying<F> {
    file: F,
    settings: Settings,
}

// Returns whether the locked file is empty, or has only the bytes of an unfinished store.
fn is_free<F: Read + Write + Seek + OpenFile + LockFile + Drop>(file: &F) -> io::Result<bool> {
    if file.metadata()?.len() == 0 {
        return Ok(true);
    }
    let mut disk = FileDisk::of_file(file.try_clone()?)?;
    match is_unfinished(&mut disk) {
        Ok(is_free) => Ok(is_free),
        Err(_) => Err(match disk.last_error() {
            Some(reason) => reason,
            None => ErrorKind::Other.into(),
        }),
    }
}

// Extends the file to the copy's length and truncates it, so that a file that cannot be extended is
// found before anything runs (for `--copy-to`). Lack of room is found only when the copy is
// written. Fails, and leaves the file as it was, if `is_free` returns false.
fn try_length<F: Read + Write + Seek + OpenFile + LockFile + Drop>(
    file: &F,
    settings: Settings,
) -> io::Result<()>
    requires good { first_bad_field settings ≡ None }
{
    if !is_free(file)? {
        return Err(ErrorKind::AlreadyExists.into());
    }
    file.set_len(disk_size(&settings))?;
    file.set_len(0)
}

// Extends the file to the size of a store. Fails if the file has bytes by now: standard output, for
// example, may have been redirected to it.
fn disk_with_room<F: Read + Write + Seek + OpenFile + LockFile + Drop>(
    file: F,
    settings: &Settings,
) -> io::Result<FileDisk<F>>
    requires good { first_bad_field settings.now ≡ None }
    ensures { IfOk result
        (λ disk. (⟦<FileDisk<F> as Disk>⟧.view disk).size ≡ disk_size settings.now) }
{
    let disk = FileDisk::of_file(file)?;
    if disk.len() > 0 {
        return Err(ErrorKind::AlreadyExists.into());
    }
    disk.zeroed(disk_size(settings))
}

impl<'a, R: Files + Clock, P: Observer> Session<'a, R, P>
where
    R::File: LockFile,
{
    // Opens, locks and empties the file of a copy.
    fn empty_file(&self, path: &str, settings: Settings) -> io::Result<R::File>
        requires good { first_bad_field settings ≡ None }
    {
        let file = self.open_locked(path, true, true)?;
        try_length(&file, settings)?;
        Ok(file)
    }

    /// Opens the file of a copy. Opens none if the settings are refused.
    pub fn begin_copy(&self, path: &str, settings: Settings) -> Result<Copying<R::File>>
        ensures settings { IfOk result (λ copy. copy.settings ≡ settings) }
        ensures good { OnOk result (first_bad_field settings ≡ None) }
        ensures refused { IfErr result (IsUncopied (Some settings)) }
    {
        settings.check()?;
        let file = self.check_call(Source::Copy, self.empty_file(path, settings))?;
        Ok(Copying { file, settings })
    }

    /// Opens the file of a copy. Fails with `InvalidInput` if the path is not valid UTF-8.
    pub fn begin_asked(&self, path: &[u8], settings: Settings) -> Result<Copying<R::File>>
        ensures settings { IfOk result (λ copy. copy.settings ≡ settings) }
        ensures good { OnOk result (first_bad_field settings ≡ None) }
        ensures refused { IfErr result (IsUncopied (Some settings)) }
    {
        match str::from_utf8(path) {
            Ok(path) => self.begin_copy(path, settings),
            Err(_) => self.check_call(Source::Copy, Err(ErrorKind::InvalidInput.into())),
        }
    }

    /// Opens the file of the copy, if the session is asked for one.
    pub fn prepare_copy(&self) -> Result<Option<Copying<R::File>>>
        ensures asked { IfOk result
            (λ copy. option_map (λ c. c.settings) copy ≡ copy_of (request_of self.now.asked.now)) }
        ensures good { IfOk result (λ copy. IfSome copy (λ c. first_bad_field c.settings ≡ None)) }
        ensures admitted { OnOk result (IfSome (copy_of (request_of self.now.asked.now))
            (λ settings. first_bad_field settings ≡ None)) }
        ensures refused { IfErr result (IsUncopied (copy_of (request_of self.now.asked.now))) }
    {
        match &self.asked.copy_to {
            Some(path) => Ok(Some(self.begin_copy(path, self.asked.settings)?)),
            None => Ok(None),
        }
    }

    // Records why a copy failed, and truncates its file to zero length, if that is still possible.
    fn abandon_copy(&self, disk: StoreDisk<'_, R::File, P>) {
        self.notes.record_failure(Source::Copy, disk.reason());
        if let Base::File(disk) = disk.into_base() {
            let _emptied = disk.zeroed(0);
        }
    }
}

impl<'a, R: Threads + Sync + Files + Clock, P: Observer> Session<'a, R, P>
where
    R::File: LockFile,
{
    // Copies the store to a disk that is large enough, flushes the copy and closes it. Returns the
    // disk, with the error on failure.
    fn fill_disk<D: Disk, E: Disk>(
        &self,
        store: &Store<D>,
        disk: E,
        settings: Settings,
    ) -> Result<E, (SessionError, E)>
        requires good { first_bad_field settings ≡ None }
        requires room { disk_size settings ≤ (E.view disk).size }
        ensures copied { OnOk result (IsCopyMade settings (contents store.now.store.tree)) }
        ensures holds { IsTrue (E.view disk).is_honest → IfOk result (λ left.
            HoldsCopy settings (contents store.now.store.tree) (E.view left).seen
            × IsSynced (E.view left)) }
        ensures refused { IfErr result
            (λ e. IsCopyEnd settings (contents store.now.store.tree) e.0) }
    {
        match store.copy_to(self.calls.rt, self.calls.crew, disk, settings) {
            Ok(copy) => Ok(copy.close()),
            Err(refused) => Err((store_fault(refused.0), refused.1)),
        }
    }

    /// Copies the store into the file.
    pub fn copy_into<D: Disk>(&self, store: &Store<D>, copy: Copying<R::File>) -> Result<()>
        requires good { first_bad_field copy.settings ≡ None }
        ensures copied { OnOk result (IsCopyMade copy.settings (contents store.now.store.tree)) }
        ensures refused { IfErr result
            (IsCopyEnd copy.settings (contents store.now.store.tree)) }
    {
        let Copying { file, settings } = copy;
        let disk = self.check_call(Source::Copy, disk_with_room(file, &settings))?;
        let disk: StoreDisk<'_, R::File, P> = self.disk(Base::File(disk));
        match self.fill_disk(store, disk, settings) {
            Ok(_holds_the_copy) => Ok(()),
            Err((error, disk)) => {
                self.abandon_copy(disk);
                Err(error)
            }
        }
    }

    fn write_copy<D: Disk>(&self, store: &Store<D>, copy: Option<Copying<R::File>>) -> Result<()>
        requires good { IfSome copy (λ c. first_bad_field c.settings ≡ None) }
        ensures copies { CopiesTo (option_map (λ c. c.settings) copy)
            (contents store.now.store.tree) result }
    {
        let Some(copy) = copy else {
            return Ok(());
        };
        self.notes.is_copying.set(true);
        self.report.observe(Event::CallBegun(LongCall::Copying));
        self.copy_into(store, copy)
    }

    /// Writes the copy, unless an error ended the orders.
    pub fn copy_after<D: Disk>(
        &self,
        store: &Store<D>,
        copy: Option<Copying<R::File>>,
        done: Result<()>,
    ) -> Result<()>
        requires good { IfSome copy (λ c. first_bad_field c.settings ≡ None) }
        ensures copies { OnOk done (CopiesTo (option_map (λ c. c.settings) copy)
            (contents store.now.store.tree) result) }
        ensures failed { IfErr done (λ early. result ≡ Err early) }
    {
        match done {
            Ok(()) => self.write_copy(store, copy),
            Err(early) => Err(early),
        }
    }
}
