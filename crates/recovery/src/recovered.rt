//! Recovery: reads a store from the bytes of a disk, or finds their single fault.
ghost use Rattle.std.specs.Prelude.{◌≡◌, ◌⊎◌, length, None, Ok, Err, IfOk, MatchResult};
ghost use Rattle.keys.specs.Bytes.{Bytes};
ghost use Rattle.keys.specs.Limits.{first_bad_field};
ghost use Rattle.mapping.specs.Levels.{contents};
ghost use Rattle.mapping.specs.TreeInMemory.{AreAllHome, tree_of};
ghost use Rattle.recovery.specs.Recovered.{IsReadOf, IsLate, OnlyReads, IsLogRead, store_recovered};
ghost use Rattle.recovery.specs.StoreOfDisk.{store_of_disk};

use crate::build_tree::checked_tree;
use crate::gather::{Gathering, Wanted};
use crate::log_reading::read_log;
use crate::read_disk::{read_settings, read_store_slot};
use crew::Crew;
use flush_log::{Disk, Slot};
use frame_codec::Format;
use keys::{Fault, Settings};
use mapping::Tree;
use std::alloc::Global;
use std::thread::Threads;

/// A store that was read from a disk.
#[derive(Drop)]
pub struct Recovered {
    /// The settings from its creation.
    pub settings: Settings,
    /// The ends of its log, the log's version, and the number of its last commit.
    pub slot: Slot,
    /// Its pages; the log contains each of them with all its runs.
    pub tree: Tree<Global>,
    /// The number of its pairs.
    pub pairs: u128,
}

// What was read of a disk.
#[derive(Drop)]
struct LogRead {
    format: Format,
    slot: Slot,
    gathering: Gathering,
}

fn read_parts<D: Disk>(
    rt: &(impl Threads + Sync),
    crew: Crew,
    alloc: Global,
    disk: &mut D,
) -> Result<LogRead, Fault>
    ensures read { (file : Bytes) × IsReadOf (D.view disk.old) file
        × MatchResult result
        (λ read. IsLogRead read file)
        (λ fault. (store_of_disk file ≡ Err fault)
        ⊎ IsLate (D.failed disk.old) (D.failed disk.new) fault) }
    ensures good { IfOk result (λ read. first_bad_field read.format.settings ≡ None) }
    ensures only_reads { OnlyReads D.view D.failed disk.old disk.new result }
{
    let settings = read_settings(disk)?;
    let slot = read_store_slot(disk, &settings)?;
    let format = Format {
        settings,
        version: slot.version,
    };
    let gathering = read_log(rt, crew, alloc, disk, &format, &slot.ends, Wanted::Every)?;
    Ok(LogRead {
        format,
        slot,
        gathering,
    })
}

/// Reads the store on the disk. Does not write to the disk. The crew scans the segments and builds the pages; the
/// result does not depend on the crew. Logs of both versions are read, each by the version in its slot: a frame that
/// only the second version allows is no frame in a log of the first.
///
/// Fails with the first of these faults that applies: `Fault::NotAStore` if the disk has no settings block, or is
/// shorter than its settings require; `Fault::NoSlot` if no slot is open, or an open one is malformed;
/// `Fault::BadSegment` or `Fault::BadFrame`, whichever is at the least position of the log; `Fault::BadStructure` with
/// the first finding, on the frames of a page or on the tree. It may also fail with `Fault::NoMemory`, or with
/// `Fault::Device` if a read fails, even if the failed read comes after a fault in the log.
pub fn recover<D: Disk>(
    rt: &(impl Threads + Sync),
    crew: Crew,
    alloc: Global,
    disk: &mut D,
) -> Result<Recovered, Fault>
    // For the bytes that were read, which on an honest disk are its contents: their store, exactly their fault, or
    // `NoMemory` or `Device`.
    ensures read { (file : Bytes) × IsReadOf (D.view disk.old) file
        × MatchResult result
        (λ found. (store_of_disk file ≡ Ok (found.settings, store_recovered found))
        × AreAllHome found.tree)
        (λ fault. (store_of_disk file ≡ Err fault)
        ⊎ IsLate (D.failed disk.old) (D.failed disk.new) fault) }
    ensures counted { IfOk result
        (λ found. found.pairs ≡ length (contents (tree_of found.tree))) }
    ensures only_reads { OnlyReads D.view D.failed disk.old disk.new result }
{
    let LogRead {
        format,
        slot,
        gathering,
    } = read_parts(rt, crew, alloc, disk)?;
    let (tree, pairs) = checked_tree(rt, crew, &format, &slot, gathering)?;
    Ok(Recovered {
        settings: format.settings,
        slot,
        tree,
        pairs,
    })
}
