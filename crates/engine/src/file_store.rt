//! Stores in files of the system.
ghost use Rattle.std.specs.Prelude.{◌≡◌, ◌≢◌, ◌⊎◌, ◌<◌, None, Ok, Err, IsTrue, IsSome, IfOk, IfErr, MatchOption, MatchResult, replicate, false, true};
ghost use Rattle.keys.specs.Bytes.{Bytes};
ghost use Rattle.keys.specs.Limits.{first_bad_field};
ghost use Rattle.crew.specs.Crew.{is_crew};
ghost use Rattle.flush_log.specs.Disk.{IsSynced, Kept};
ghost use Rattle.recovery.specs.Recovered.{IsReadOf, IsLate};
ghost use Rattle.engine.specs.FileStore.{IfStoreFound, IsFaultOfFile, IsFound, IsNewStore, IsStoreOfFile, disk_found, made_on_zeros};
ghost use Rattle.engine.specs.Hidden.{is_unfinished};
ghost use Rattle.engine.specs.declared.file_store.OpenFault.TheVariants.{Locked};
ghost use Rattle.engine.specs.declared.file_store.OpenFault.TheVariants as open_fault;

use crate::refusal::admit_crew;
use crate::store::Store;
use crate::unfinished::is_unfinished;
use crew::Crew;
use flush_log::{Disk, FileDisk, LockFile, disk_size};
use keys::{Fault, Settings};
use std::alloc::Global;
use std::error::Error;
use std::fs::{OpenFile, OpenOptions};
use std::io::{ErrorKind, Read, Seek, Write};
use std::os::unix::fs::MetadataExt;
use std::path::Path;
use std::rt::Files;
use std::thread::Threads;
use std::{fmt, fs, io};

/// Why the store in a file was not opened.
#[derive(Debug, Drop)]
pub enum OpenFault {
    /// Another program has locked the file, or shares it. Nothing was read or written.
    Locked,
    /// A call on the file failed for this reason.
    File(io::Error),
    /// The fault of the arguments or of the bytes of the file, or `Fault::NoMemory`. Never `Fault::Device`, because
    /// such a failure has a reason.
    Store(Fault),
}

impl fmt::Display for OpenFault {
    fn fmt<W: fmt::Write>(&self, f: &mut fmt::Formatter<W>) -> fmt::Result {
        match self {
            OpenFault::Locked => f.write_str("another program has the file of the store"),
            OpenFault::File(reason) => write!(f, "the file of the store: {reason}"),
            OpenFault::Store(fault) => write!(f, "{fault}"),
        }
    }
}

impl Error for OpenFault {}

impl From<Fault> for OpenFault {
    ghost from_gives = { λ fault reported. reported ≡ open_fault.Store fault };

    fn from(fault: Fault) -> OpenFault {
        OpenFault::Store(fault)
    }
}

impl From<io::Error> for OpenFault {
    ghost from_gives = { λ reason fault. (fault ≡ Locked) ⊎ (fault ≡ open_fault.File reason) };

    fn from(reason: io::Error) -> OpenFault {
        match reason.kind() {
            ErrorKind::WouldBlock => OpenFault::Locked,
            _ => OpenFault::File(reason),
        }
    }
}

// The error for this fault: if a call of the disk failed, the reason of that failure.
pub(crate) fn with_reason(fault: Fault, reason: Option<io::Error>) -> OpenFault
    ensures { ((fault ≡ Fault.Device)
        × MatchOption reason (result ≡ OpenFault.Store fault) (λ r. result ≡ OpenFault.File r))
        ⊎ ((fault ≢ Fault.Device) × (result ≡ OpenFault.Store fault)) }
{
    match fault {
        Fault::Device => match reason {
            Some(reason) => OpenFault::File(reason),
            None => OpenFault::Store(Fault::Device),
        },
        _ => OpenFault::Store(fault),
    }
}

/// A disk over a file.
pub(crate) trait DiskOfFile: Disk + Drop {
    /// Replaces the contents of the file by `len` zeros.
    fn erased(self, len: u64) -> io::Result<Self>
        ensures size { IfOk result (λ disk. (Self.view disk).size ≡ len) }
        ensures honest { IfOk result
            (λ disk. (Self.view disk).is_honest ≡ (Self.view self).is_honest) }
        ensures zeros { IsTrue (Self.view self).is_honest →
            IfOk result (λ disk. (Self.view disk).seen ≡ replicate len 0) };

    /// Returns the error of the last call that failed.
    fn reason(&self) -> Option<io::Error>
        ensures { 0 < Self.failed self.now → IsSome result };
}

impl<F: Read + Write + Seek + OpenFile + LockFile + Drop> DiskOfFile for FileDisk<F> {
    fn erased(self, len: u64) -> io::Result<Self> {
        self.zeroed(len)
    }

    fn reason(&self) -> Option<io::Error> {
        self.last_error()
    }
}

// Creates a store on the disk, which is erased first. If that fails, the disk is emptied.
pub(crate) fn new_store<D: DiskOfFile>(
    alloc: Global,
    disk: D,
    settings: Settings,
) -> Result<Store<D>, OpenFault>
    requires good { first_bad_field settings ≡ None }
    ensures made { IfOk result (IsNewStore settings) }
    ensures refused { IfErr result (λ fault. (file : Bytes) → IsFaultOfFile file fault) }
    ensures bytes { IsTrue (D.view disk).is_honest → IfOk result (λ store.
        ((D.view store.disk).seen ≡ made_on_zeros settings) × IsSynced (D.view store.disk)) }
    ensures fine { IfOk result (λ store. store.has_failed ≡ false) }
{
    let disk = disk.erased(disk_size(&settings))?;
    match Store::create(alloc, disk, settings) {
        Ok(store) => Ok(store),
        Err(refused) => {
            let reason = refused.1.reason();
            let _emptied = refused.1.erased(0);
            Err(with_reason(refused.0, reason))
        }
    }
}

/// What was found on a disk.
#[derive(Drop)]
pub(crate) enum Found<D: Disk> {
    /// The store that its bytes encode.
    Store(Store<D>),
    /// No bytes, or those of an unfinished store.
    Nothing(D),
}

// Checks whether the disk, from which no store could be read because of this fault, has an unfinished store.
fn find_unfinished<D: Disk>(fault: Fault, disk: D) -> Result<Found<D>, (Fault, D)>
    ensures cases { ((fault ≢ Fault.NotAStore) × (result ≡ Err (fault, disk)))
        ⊎ ((fault ≡ Fault.NotAStore) × MatchResult result
        (λ f. f ≡ Found.Nothing (disk_found f))
        (λ e. (e.0 ≡ Fault.NotAStore) ⊎ IsLate (D.failed disk) (D.failed e.1) e.0)) }
    ensures exact { IsTrue (D.view disk).is_honest → fault ≡ Fault.NotAStore →
        MatchResult result
        (λ f. is_unfinished (D.view disk).seen ≡ true)
        (λ e. e.0 ≡ Fault.NotAStore → is_unfinished (D.view disk).seen ≡ false) }
    ensures kept { IfOk result (λ f. Kept (D.view disk) (D.view (disk_found f))) }
{
    let mut disk = disk;
    match fault {
        Fault::NotAStore => match is_unfinished(&mut disk) {
            Ok(true) => Ok(Found::Nothing(disk)),
            Ok(false) => Err((Fault::NotAStore, disk)),
            Err(failed) => Err((failed.into(), disk)),
        },
        _ => Err((fault, disk)),
    }
}

// Finds what is on a disk. No clause describes the bytes of a file, or says that they are synced, so this function is
// written for any disk.
fn find_store<D: Disk>(
    rt: &(impl Threads + Sync),
    alloc: Global,
    disk: D,
    crew: Crew,
) -> Result<Found<D>, (Fault, D)>
    requires crew { IsTrue (is_crew crew) }
    ensures nothing { (D.view disk).size ≡ 0 → result ≡ Ok (Found.Nothing disk) }
    ensures read { (file : Bytes) × IsReadOf (D.view disk) file
        × IsFound D.failed file (D.failed disk) result }
    ensures kept { IfOk result (λ f. Kept (D.view disk) (D.view (disk_found f))) }
    ensures is_synced { IsTrue (D.view disk).is_honest →
        IfOk result (IfStoreFound (λ x. IsSynced (D.view x.disk))) }
    ensures fine { IfOk result (IfStoreFound (λ x. x.has_failed ≡ false)) }
{
    if disk.len() == 0 {
        return Ok(Found::Nothing(disk));
    }
    match Store::open(rt, alloc, disk, crew) {
        Ok(store) => Ok(Found::Store(store)),
        Err(refused) => find_unfinished(refused.0, refused.1),
    }
}

// The store in a locked file: a new one if the file is empty or has an unfinished store, and otherwise the one that its
// bytes encode.
pub(crate) fn store_of<D: DiskOfFile>(
    rt: &(impl AllocGlobal + Threads + Sync),
    crew: Crew,
    disk: D,
    settings: Settings,
) -> Result<Store<D>, OpenFault>
    requires crew { IsTrue (is_crew crew) }
    requires good { first_bad_field settings ≡ None }
    ensures opened { (file : Bytes) × IsReadOf (D.view disk) file
        × MatchResult result (IsStoreOfFile settings file) (IsFaultOfFile file) }
    // On an honest disk: no old byte remains under a new store, and the disk is synced.
    ensures bytes { IsTrue (D.view disk).is_honest → IsTrue (is_unfinished (D.view disk).seen) →
        IfOk result (λ store. (D.view store.disk).seen ≡ made_on_zeros settings) }
    ensures is_synced { IsTrue (D.view disk).is_honest →
        IfOk result (λ store. IsSynced (D.view store.disk)) }
    ensures fine { IfOk result (λ store. store.has_failed ≡ false) }
{
    match find_store(rt, rt.alloc(), disk, crew) {
        Ok(Found::Store(store)) => Ok(store),
        Ok(Found::Nothing(disk)) => new_store(rt.alloc(), disk, settings),
        Err(refused) => Err(with_reason(refused.0, refused.1.reason())),
    }
}

/// Opens the store in the file at this path, and locks the file as long as the store or its disk exists.
///
/// If there is no file, or the file is empty or unfinished (see `is_unfinished`), creates a store there with these
/// settings: the file gets the length that they require, its contents are replaced, and it is synced; its directory is
/// not. So this call also completes a file that a crash left while a store was created or copied. Any other file is
/// synced, and the store in it is recovered with its own settings, as by `Store::open`. To open a file only for
/// reading, use `FileDisk::open_shared` and `Store::open`.
///
/// Fails with `Fault::BadCrew` if the crew is out of range, and then with `Fault::BadSettings` and the first field of
/// the settings that is out of range, even if the file has a store with other settings; no file was opened or created
/// then. Otherwise fails with `OpenFault::Locked`, or with the reason why the file cannot be opened; with the fault
/// that `Store::recover` reports if the file has no store and is not unfinished, or if its store is damaged; with
/// `Fault::NoMemory`; or with the reason why a call failed. A file in which no store was to be created has not been
/// written. A file in which a store was to be created is empty or unfinished, and the next call creates the store; but
/// if the file could not be emptied after a failure, it may have a part of the new store: delete it.
pub fn open_or_create<R: AllocGlobal + Threads + Sync + Files>(
    rt: &R,
    crew: Crew,
    path: &str,
    settings: Settings,
) -> Result<Store<FileDisk<R::File>>, OpenFault>
where
    R::File: LockFile,
    ensures bad_crew { is_crew crew ≡ false → result ≡ Err (OpenFault.Store Fault.BadCrew) }
    // No clause of the library describes the contents of a file. So there are some bytes such that the store is a new
    // one if they are those of an unfinished store, and else the one that they encode; or the fault is theirs; or
    // allocation or a call failed.
    ensures opened { IsTrue (is_crew crew) → MatchOption (first_bad_field settings)
        ((file : Bytes) × MatchResult result (IsStoreOfFile settings file) (IsFaultOfFile file))
        (λ field. result ≡ Err (OpenFault.Store (Fault.BadSettings field))) }
    ensures fine { IfOk result (λ store. store.has_failed ≡ false) }
{
    admit_crew(crew)?;
    settings.check()?;
    let mut how = OpenOptions::new();
    how.read(true).write(true).create(true);
    let disk = open_disk(rt, path, &how, false)?;
    store_of(rt, crew, disk, settings)
}

// Opens the file and tries to lock it, for itself or shared with other readers.
pub(crate) fn open_disk<R: Files>(
    rt: &R,
    path: &str,
    how: &OpenOptions,
    is_shared: bool,
) -> io::Result<FileDisk<R::File>>
where
    R::File: LockFile,
{
    let file = how.open(rt, path)?;
    if is_shared {
        file.share()?;
        admit_file(rt, &file, path)?;
        FileDisk::of_shared(file)
    } else {
        file.hold()?;
        admit_file(rt, &file, path)?;
        FileDisk::of_file(file)
    }
}

/// Fails with `ErrorKind::WouldBlock`, as a lock that another program has, if another file is at the path than this one.
/// Call it after `file` was locked: while a program waits for a lock, the one that has it may put a larger copy of the
/// store at the path, and what was then written to the old file would be lost.
pub fn admit_file<R: Files, F: OpenFile>(rt: &R, file: &F, path: &str) -> io::Result<()> {
    let (locked, named) = (file.metadata()?, fs::metadata(rt, path)?);
    if locked.dev() == named.dev() && locked.ino() == named.ino() {
        Ok(())
    } else {
        Err(ErrorKind::WouldBlock.into())
    }
}

/// Syncs the folder of the file at this path, so that a new name in it stays after a crash.
pub fn sync_folder<R: Files>(rt: &R, path: &str) -> io::Result<()> {
    let folder = Path::new(path).parent();
    let name = match &folder {
        Some(folder) if !folder.as_str().is_empty() => folder.as_str(),
        _ => ".",
    };
    fs::open(rt, name)?.sync_all()
}
