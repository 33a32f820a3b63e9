//! Options for opening the store in a file.
ghost use Rattle.std.specs.Prelude.{◌≡◌, ⊤, Ok, Err, IsTrue, IfOk, IfErr, IfSome, MatchOption, MatchResult, None, false, string_bytes};
ghost use Rattle.keys.specs.Bytes.{Bytes};
ghost use Rattle.keys.specs.Limits.{first_bad_field};
ghost use Rattle.crew.specs.Crew.{is_crew};
ghost use Rattle.flush_log.specs.Disk.{IsSynced};
ghost use Rattle.flush_log.specs.Segments.{disk_size};
ghost use Rattle.recovery.specs.Recovered.{IsReadOf};
ghost use Rattle.recovery.specs.StoreOfDisk.{store_of_disk};
ghost use Rattle.engine.specs.Opening.{HasOpenFault, IsFaultOfStore, IsOpenedBy, IsRefusedBy, bad_field};
ghost use Rattle.engine.specs.declared.options.Access.TheVariants.{Existing};

use crate::explain::ExplainedOpenFault;
use crate::file_store::{
    DiskOfFile, OpenFault, new_store, open_disk, store_of, sync_folder, with_reason,
};
use crate::handle::Handle;
use crate::refusal::admit_crew;
use crate::store::Store;
use crew::Crew;
use flush_log::{Disk, FileDisk, LockFile, disk_size};
use keys::{Fault, Settings};
use std::alloc::Global;
use std::error::Error;
use std::fs::OpenOptions;
use std::io::ErrorKind;
use std::rt::Files;
use std::thread::Threads;
use std::time::{Clock, Duration};
use std::{fmt, io, thread};

// How many times a second a locked file is tried, and how many milliseconds pass after a try.
const TRIES: u64 = 10;

const PAUSE: u64 = 100;

/// Why the store in a file was not opened. Prints the path, what is wrong and, often, what to do about it.
#[derive(Debug, Drop)]
pub struct OpenError {
    /// The path of the file, or `None` if there was no memory for a copy of it.
    pub path: Option<String>,
    pub fault: OpenFault,
}

impl fmt::Display for OpenError {
    fn fmt<W: fmt::Write>(&self, f: &mut fmt::Formatter<W>) -> fmt::Result {
        let path = match &self.path {
            Some(path) => path.as_str(),
            None => "the file of the store",
        };
        let explained = ExplainedOpenFault {
            path,
            fault: &self.fault,
        };
        write!(f, "{explained}")
    }
}

impl Error for OpenError {}

/// Drops the path.
impl From<OpenError> for OpenFault {
    ghost from_gives = { λ error fault. fault ≡ error.fault };

    fn from(error: OpenError) -> OpenFault {
        error.fault
    }
}

// Adds the path to the fault, if there is memory for it.
fn with_path<T: Drop>(
    alloc: Global,
    path: &str,
    opened: Result<T, OpenFault>,
) -> Result<T, OpenError>
    ensures same { MatchResult opened (λ x. result ≡ Ok x) (HasOpenFault result) }
    ensures path { IfErr result
        (λ error. IfSome error.path (λ kept. string_bytes kept ≡ path.now)) }
{
    match opened {
        Ok(opened) => Ok(opened),
        Err(fault) => {
            let path = String::from_str(alloc, path).ok();
            Err(OpenError { path, fault })
        }
    }
}

/// When a store is created.
#[derive(Clone, Copy, Debug, PartialEq, Eq)]
pub enum Creation {
    /// A store is created if the file is missing, empty or unfinished (see `is_unfinished`). Any
    /// other file is opened.
    IfMissing,
    /// The file is created, and a store in it. Opening fails if there is a file at the path,
    /// whatever the file has.
    New,
}

/// What may be done to the file of a store.
#[derive(Clone, Copy, Debug, PartialEq, Eq)]
pub enum Access {
    /// The file has to exist, and is only read.
    ReadOnly,
    /// The file has to exist, and is read and written.
    Existing,
    /// The file is read and written, and a store with these settings may be created in it.
    Create(Creation, Settings),
}

/// How the store in a file is opened. By default the file has to exist, is read and written, and must not be locked;
/// and the caller's thread works alone.
///
///     let settings = Settings::for_pairs(100_000, 64, 256)?;
///     let mut map = Options::new()
///         .create(Creation::IfMissing, settings)
///         .open_map(rt, "first.store")?;
#[derive(Clone, Copy, Debug, PartialEq, Eq)]
pub struct Options {
    pub access: Access,
    pub crew: Crew,
    /// For about how many seconds a locked file is tried again.
    pub wait: u32,
}

impl Default for Options {
    ghost is_default = { λ options. options ≡ record {
      access = Existing;
      crew = record { workers = 1; grain = 64 };
      wait = 0;
    } };

    fn default() -> Options {
        Options {
            access: Access::Existing,
            crew: Crew::default(),
            wait: 0,
        }
    }
}

impl Options {
    /// Returns the default options.
    pub fn new() -> Self
        ensures { result ≡ record {
          access = Access.Existing;
          crew = record { workers = 1; grain = 64 };
          wait = 0;
        } }
    {
        Options::default()
    }

    /// Lets `open` create a store with these settings, when `creation` says so, and write to it. Replaces an earlier
    /// `read_only`. A store that exists keeps the settings of its creation.
    pub fn create(self, creation: Creation, settings: Settings) -> Self
        ensures { result ≡ record self { access = Access.Create creation settings } }
    {
        Options {
            access: Access::Create(creation, settings),
            ..self
        }
    }

    /// Opens the file for reading only, with a lock that other readers share. Replaces an earlier `create`.
    ///
    /// Batches change the store in memory, but a flush of a changed store fails with `Fault::Device`. After that the store
    /// has failed: `get` and the other reads work, and batches and flushes fail with `Fault::Failed`.
    pub fn read_only(self) -> Self
        ensures { result ≡ record self { access = Access.ReadOnly } }
    {
        Options {
            access: Access::ReadOnly,
            ..self
        }
    }

    /// Lets `open` use up to this many threads, 1 to 64, the caller's among them. Later calls of the store get a crew of
    /// their own. The calls of a handle from `open_map` use up to this many threads too.
    pub fn workers(self, workers: u32) -> Self
        ensures { result ≡ record self { crew = record self.crew { workers = workers } } }
    {
        let crew = Crew {
            workers,
            ..self.crew
        };
        Options { crew, ..self }
    }

    /// Lets `open` wait for about this many seconds, while another program has locked the file.
    pub fn wait(self, seconds: u32) -> Self
        ensures { result ≡ record self { wait = seconds } }
    {
        Options {
            wait: seconds,
            ..self
        }
    }

    /// Opens the store in the file at this path, and locks the file as long as the store or its disk exists. Syncs the
    /// file, because an earlier program may have ended between a write and its sync, and recovers the store of the last
    /// flush. A new store's file gets the length that the settings require, and is synced. If a store may be created, the
    /// folder of the file is synced too.
    ///
    /// Fails with `Fault::BadCrew` if the number of workers is out of range, and then with `Fault::BadSettings` and the
    /// first field that is out of range of the settings for a new store; no file was opened or created then. Otherwise
    /// fails with `OpenFault::Locked`, also after waiting; with the reason why the file cannot be opened or created;
    /// with the fault that `Store::recover` reports for the bytes of the file, if they have no store or a damaged one,
    /// or for an unfinished file, unless a store may be created in it; with `Fault::NoMemory`; or with the reason why a
    /// call failed.
    ///
    /// A file in which no store was to be created has not been written. A file in which a store was to be created is
    /// empty or unfinished, so `Creation::IfMissing` creates the store there later; but if the file could not be emptied
    /// after a failure, it may have a part of the new store: remove it.
    pub fn open<R: AllocGlobal + Threads + Sync + Files + Clock>(
        self,
        rt: &R,
        path: &str,
    ) -> Result<Store<FileDisk<R::File>>, OpenError>
    where
        R::File: LockFile,
        ensures bad_crew { is_crew self.crew ≡ false →
            HasOpenFault result (OpenFault.Store Fault.BadCrew) }
        // No clause of the library describes the contents of a file. So there are some bytes that decide, unless
        // allocation or a call failed.
        ensures opened { IsTrue (is_crew self.crew) → MatchOption (bad_field self.access)
            ((file : Bytes) × MatchResult result (IsOpenedBy self.access file)
            (λ error. IsRefusedBy self.access file error.fault))
            (λ field. HasOpenFault result (OpenFault.Store (Fault.BadSettings field))) }
        ensures fine { IfOk result (λ store. store.has_failed ≡ false) }
        ensures path { IfErr result
            (λ error. IfSome error.path (λ kept. string_bytes kept ≡ path.now)) }
    {
        with_path(rt.alloc(), path, self.store_at(rt, path))
    }

    /// Opens the store in the file at this path, as `open` does, and returns a handle of it, as `Store::with` does, whose
    /// calls use this runtime and the crew of these options.
    ///
    /// Fails like `open`. Also fails with `Fault::NoMemory` if an allocation fails while the pairs are counted. A store
    /// that was created before is then in the file.
    pub fn open_map<'r, R: AllocGlobal + Threads + Sync + Files + Clock>(
        self,
        rt: &'r R,
        path: &str,
    ) -> Result<Handle<'r, R, FileDisk<R::File>>, OpenError>
    where
        R::File: LockFile,
        ensures bad_crew { is_crew self.crew ≡ false →
            HasOpenFault result (OpenFault.Store Fault.BadCrew) }
        ensures opened { IsTrue (is_crew self.crew) → MatchOption (bad_field self.access)
            ((file : Bytes) × MatchResult result (IsOpenedBy self.access file)
            (λ error. IsRefusedBy self.access file error.fault))
            (λ field. HasOpenFault result (OpenFault.Store (Fault.BadSettings field))) }
        ensures fine { IfOk result (λ map. map.has_failed ≡ false) }
        ensures path { IfErr result
            (λ error. IfSome error.path (λ kept. string_bytes kept ≡ path.now)) }
    {
        with_path(rt.alloc(), path, self.map_at(rt, path))
    }

    // Opens the store at this path, and makes a handle of it.
    fn map_at<'r, R: AllocGlobal + Threads + Sync + Files + Clock>(
        self,
        rt: &'r R,
        path: &str,
    ) -> Result<Handle<'r, R, FileDisk<R::File>>, OpenFault>
    where
        R::File: LockFile,
        ensures bad_crew { is_crew self.crew ≡ false →
            result ≡ Err (OpenFault.Store Fault.BadCrew) }
        ensures opened { IsTrue (is_crew self.crew) → MatchOption (bad_field self.access)
            ((file : Bytes) × MatchResult result (IsOpenedBy self.access file)
            (IsRefusedBy self.access file))
            (λ field. result ≡ Err (OpenFault.Store (Fault.BadSettings field))) }
        ensures fine { IfOk result (λ map. map.has_failed ≡ false) }
    {
        let store = self.store_at(rt, path)?;
        match store.with(rt, self.crew) {
            Ok(map) => Ok(map),
            Err(refused) => Err(OpenFault::Store(refused.0)),
        }
    }

    // Opens the store at this path.
    fn store_at<R: AllocGlobal + Threads + Sync + Files + Clock>(
        self,
        rt: &R,
        path: &str,
    ) -> Result<Store<FileDisk<R::File>>, OpenFault>
    where
        R::File: LockFile,
        ensures bad_crew { is_crew self.crew ≡ false →
            result ≡ Err (OpenFault.Store Fault.BadCrew) }
        ensures opened { IsTrue (is_crew self.crew) → MatchOption (bad_field self.access)
            ((file : Bytes) × MatchResult result (IsOpenedBy self.access file)
            (IsRefusedBy self.access file))
            (λ field. result ≡ Err (OpenFault.Store (Fault.BadSettings field))) }
        ensures fine { IfOk result (λ store. store.has_failed ≡ false) }
    {
        admit_crew(self.crew)?;
        self.access.check()?;
        let disk = self.disk_in_time(rt, path)?;
        store_by(rt, self.crew, self.access, disk)
    }

    // Opens and locks the file. While another program has locked it, tries again: another file may be at the path then.
    fn disk_in_time<R: Files + Clock>(self, rt: &R, path: &str) -> io::Result<FileDisk<R::File>>
    where
        R::File: LockFile,
    {
        for _try in 0..TRIES * u64::from(self.wait) {
            match self.access.disk(rt, path) {
                Err(error) if error.kind() == ErrorKind::WouldBlock => {
                    thread::sleep(rt, Duration::from_millis(PAUSE));
                }
                done => return done,
            }
        }
        self.access.disk(rt, path)
    }
}

impl Access {
    // Checks the settings for a store that may be created.
    fn check(self) -> Result<(), Fault>
        ensures { MatchOption (bad_field self) (result ≡ Ok tt)
            (λ field. result ≡ Err (Fault.BadSettings field)) }
    {
        match self {
            Access::ReadOnly | Access::Existing => Ok(()),
            Access::Create(_, settings) => settings.check(),
        }
    }

    // Opens the file and tries to lock it. Makes the name of a file that may be new durable.
    fn disk<R: Files>(self, rt: &R, path: &str) -> io::Result<FileDisk<R::File>>
    where
        R::File: LockFile,
    {
        let is_shared = matches!(self, Access::ReadOnly);
        let disk = open_disk(rt, path, &self.how(), is_shared)?;
        if matches!(self, Access::Create(_, _)) {
            sync_folder(rt, path)?;
        }
        Ok(disk)
    }

    fn how(self) -> OpenOptions {
        let mut how = OpenOptions::new();
        how.read(true);
        match self {
            Access::ReadOnly => {}
            Access::Existing => {
                how.write(true);
            }
            Access::Create(creation, _) => {
                let is_new = matches!(creation, Creation::New);
                how.write(true).create(true).create_new(is_new);
            }
        }
        how
    }
}

// The store in a locked file that has to have one.
fn existing_store<D: DiskOfFile>(
    rt: &(impl AllocGlobal + Threads + Sync),
    crew: Crew,
    disk: D,
) -> Result<Store<D>, OpenFault>
    requires { IsTrue (is_crew crew) }
    ensures opened { (file : Bytes) × IsReadOf (D.view disk) file × MatchResult result
        (λ store. store_of_disk file ≡ Ok (store.settings, store.store)) (IsFaultOfStore file) }
    ensures is_synced { IsTrue (D.view disk).is_honest →
        IfOk result (λ store. IsSynced (D.view store.disk)) }
    ensures fine { IfOk result (λ store. store.has_failed ≡ false) }
{
    match Store::open(rt, rt.alloc(), disk, crew) {
        Ok(store) => Ok(store),
        Err(refused) => Err(with_reason(refused.0, refused.1.reason())),
    }
}

// The store in a locked file.
fn store_by<D: DiskOfFile>(
    rt: &(impl AllocGlobal + Threads + Sync),
    crew: Crew,
    access: Access,
    disk: D,
) -> Result<Store<D>, OpenFault>
    requires crew { IsTrue (is_crew crew) }
    requires good { bad_field access ≡ None }
    ensures opened { (file : Bytes) × IsReadOf (D.view disk) file × MatchResult result
        (IsOpenedBy access file) (IsRefusedBy access file) }
    ensures is_synced { IsTrue (D.view disk).is_honest →
        IfOk result (λ store. IsSynced (D.view store.disk)) }
    ensures fine { IfOk result (λ store. store.has_failed ≡ false) }
{
    match access {
        Access::ReadOnly | Access::Existing => existing_store(rt, crew, disk),
        Access::Create(Creation::IfMissing, settings) => store_of(rt, crew, disk, settings),
        Access::Create(Creation::New, settings) => new_store(rt.alloc(), disk, settings),
    }
}

// Creates the file, locks it, and gives it the length of a store.
fn new_disk<R: Files>(
    rt: &R,
    path: &str,
    settings: &Settings,
) -> Result<FileDisk<R::File>, OpenFault>
where
    R::File: LockFile,
    ensures refused { MatchOption (first_bad_field settings.now) ⊤
        (λ field. result ≡ Err (OpenFault.Store (Fault.BadSettings field))) }
    ensures size { IfOk result (λ disk. (⟦<FileDisk<R::File> as Disk>⟧.view disk).size
        ≡ disk_size settings.now) }
{
    settings.check()?;
    let mut how = OpenOptions::new();
    how.read(true).write(true).create_new(true);
    let file = how.open(rt, path)?;
    let disk = FileDisk::of_zeros(file, disk_size(settings))?;
    Ok(disk)
}

/// Creates the file at this path, and returns a disk of zeros in it, which is large enough for a store with these
/// settings. Use it with `copy_to`, for a backup that replaces no file. In a function that returns `anyhow::Result`:
///
///     let disk = create_disk(rt, "backup.store", &settings)?;
///     store
///         .copy_to(rt, Crew::default(), disk, settings)
///         .map_err(|e| e.0)?;
///
/// Fails with `Fault::BadSettings` and the first field that is out of range; no file was created then. Otherwise fails
/// with the reason why the file cannot be created, for example because there is a file at the path, which is left as it
/// was; or with the reason why the length of the new file cannot be set. If this call or `copy_to` fails, remove the
/// new file.
pub fn create_disk<R: AllocGlobal + Files>(
    rt: &R,
    path: &str,
    settings: &Settings,
) -> Result<FileDisk<R::File>, OpenError>
where
    R::File: LockFile,
    ensures refused { MatchOption (first_bad_field settings.now) ⊤
        (λ field. HasOpenFault result (OpenFault.Store (Fault.BadSettings field))) }
    ensures size { IfOk result (λ disk. (⟦<FileDisk<R::File> as Disk>⟧.view disk).size
        ≡ disk_size settings.now) }
    ensures path { IfErr result
        (λ error. IfSome error.path (λ kept. string_bytes kept ≡ path.now)) }
{
    with_path(rt.alloc(), path, new_disk(rt, path, settings))
}
