//! A second implementation of `OrderedStore`, as simple as the trait allows: an ordered map in memory, and a disk that
//! keeps snapshots of it.
ghost use Rattle.std.specs.Prelude.{◌≡◌, ◌⊎◌, ◌+◌, ◌-◌, ◌^◌, ◌∷◌, ◌++◌, [], min, map, Some, None, false, IsErr, IfOk, IfErr, OnOk, OnErr};
ghost use Rattle.std.specs.Option.{option_copied};
ghost use Rattle.keys.specs.Bytes.{Bytes};
ghost use Rattle.keys.specs.Order.{IsRising};
ghost use Rattle.keys.specs.OrderedMap.{value_at};
ghost use Rattle.keys.specs.Range.{is_within, rows};
ghost use Rattle.keys.specs.Step.{reply_to, map_after, replies_to, map_after_all};
ghost use Rattle.keys.specs.declared.fault.Fault.TheVariants.{NoMemory};
ghost use Rattle.flush_log.specs.Disk.{LeavesOnly};
ghost use Rattle.engine.specs.Snapshots.{snapshot_of, bytes_with, view_of};

use crate::ordered_store::OrderedStore;
use crate::refusal::{admit, admit_crew};
use crew::Crew;
use flush_log::{Disk, DiskFault};
use keys::{Command, Fault, Reply, RowList, Settings, compare, is_before};
use replies::LentMap;
use std::alloc::{AllocError, Global};
use std::marker::Model;
use std::thread::Threads;

// Settings, and pairs in the order of their keys.
#[derive(Drop)]
struct Snapshot {
    settings: Settings,
    pairs: RowList<Global>,
}

impl Model for Snapshot {
    ghost use Rattle.keys.specs.Order.{IsRising};
    ghost use Rattle.engine.specs.Claim.{Held};

    ghost Value = { Held };

    ghost view = { λ s. (s.settings, s.pairs) };

    ghost invariant = { λ s. IsRising s.pairs };
}

impl Snapshot {
    fn new(alloc: Global, settings: Settings) -> Self
        ensures { result ≡ (settings, []) }
    {
        Snapshot {
            settings,
            pairs: RowList::empty(alloc),
        }
    }

    fn copy(&self, alloc: Global) -> Result<Self, AllocError>
        ensures copy { IfOk result (λ copy. copy ≡ self.now) }
        ensures rising { IsRising self.now.1 }
    {
        Ok(Snapshot {
            settings: self.settings,
            pairs: self.to_map(alloc)?.to_rows(alloc)?,
        })
    }

    fn to_map(&self, alloc: Global) -> Result<LentMap<'_>, AllocError>
        ensures { IfOk result (λ map. map ≡ self.now.1) }
    {
        let mut map = LentMap::new(alloc);
        for (key, value) in &self.pairs {
            let _there = map.insert(key, value)?;
        }
        Ok(map)
    }

    fn get(&self, key: &[u8]) -> Option<&[u8]>
        ensures { option_copied result ≡ value_at key.now self.now.1 }
    {
        for (own, value) in &self.pairs {
            if compare(key, own).is_eq() {
                return Some(value);
            }
        }
        None
    }

    fn range(
        &self,
        alloc: Global,
        lo: &[u8],
        hi: Option<&[u8]>,
        limit: u32,
    ) -> Result<Vec<(&[u8], &[u8])>, AllocError>
        ensures { IfOk result (λ found. map (λ row. (row.0.now, row.1.now)) found.items
            ≡ rows lo.now (option_copied hi.entry) limit self.now.1) }
    {
        let mut found = Vec::new(alloc);
        for row in &self.pairs {
            if found.len() < limit as usize && is_within(lo, hi, row.0) {
                found.push(row)?;
            }
        }
        Ok(found)
    }

    // Executes the commands on a copy.
    fn after(
        &self,
        alloc: Global,
        commands: &[Command<Global>],
    ) -> Result<(Vec<Reply<Global>>, Snapshot), AllocError>
        ensures replies { IfOk result
            (λ r. r.0.items ≡ replies_to self.now.1 commands.now) }
        ensures snapshot { IfOk result
            (λ r. r.1 ≡ (self.now.0, map_after_all self.now.1 commands.now)) }
    {
        let (replies, pairs) = executed(alloc, self.to_map(alloc)?, commands)?;
        let after = Snapshot {
            settings: self.settings,
            pairs,
        };
        Ok((replies, after))
    }
}

fn executed<'a>(
    alloc: Global,
    map: LentMap<'a>,
    commands: &'a [Command<Global>],
) -> Result<(Vec<Reply<Global>>, RowList<Global>), AllocError>
    ensures replies { IfOk result (λ r. r.0.items ≡ replies_to map.entry commands.now) }
    ensures pairs { IfOk result (λ r. r.1 ≡ map_after_all map.entry commands.now) }
    ensures rising { IfOk result (λ r. IsRising r.1) }
{
    let mut map = map;
    let mut replies = Vec::new(alloc);
    for command in commands {
        execute_next(alloc, &mut map, command, &mut replies)?;
    }
    Ok((replies, map.to_rows(alloc)?))
}

fn execute_next<'a>(
    alloc: Global,
    map: &mut LentMap<'a>,
    command: &'a Command<Global>,
    replies: &mut Vec<Reply<Global>>,
) -> Result<(), AllocError>
    ensures replies { OnOk result
        (replies.new.items ≡ replies.old.items ++ reply_to map.old command.now ∷ []) }
    ensures map { OnOk result (map.new ≡ map_after map.old command.now) }
{
    let mut points = Vec::new(alloc);
    replies.push(map.execute(alloc, command, &mut points)?)?;
    Ok(())
}

fn is_within(lo: &[u8], hi: Option<&[u8]>, key: &[u8]) -> bool
    ensures { result ≡ is_within lo.now (option_copied hi.entry) key.now }
{
    !compare(key, lo).is_lt() && is_before(hi, key)
}

/// A disk in memory, which keeps each snapshot that a `SnapshotStore` flushes to it. A kept snapshot is durable. Its
/// bytes exist only in contracts: calls that read or write bytes fail.
#[derive(Drop)]
pub struct SnapshotDisk {
    // Oldest first.
    snapshots: Vec<Snapshot>,
    failures: u64,
}

impl Model for SnapshotDisk {
    ghost use Rattle.engine.specs.Snapshots.{SnapshotsOnDisk};

    ghost Value = { SnapshotsOnDisk };

    ghost view = { λ d. record { snapshots = d.snapshots.items; failures = d.failures } };
}

impl SnapshotDisk {
    /// Returns a disk without a snapshot. It does not allocate.
    pub fn new(alloc: Global) -> Self
        ensures { result ≡ record { snapshots = []; failures = 0 } }
    {
        SnapshotDisk {
            snapshots: Vec::new(alloc),
            failures: 0,
        }
    }

    // Keeps one more snapshot. A crash leaves the bytes before it, or those of this snapshot.
    fn keep(&mut self, snapshot: Snapshot) -> Result<(), AllocError>
        ensures seen { OnOk result ((view_of self.new).seen
            ≡ bytes_with snapshot (view_of self.old).seen) }
        ensures crash { LeavesOnly (view_of self.old) (view_of self.new)
            (λ c. (c ≡ (view_of self.old).seen) ⊎ (snapshot_of c ≡ Some snapshot)) }
        ensures err { OnErr result (self.new ≡ self.old) }
    {
        self.snapshots.push(snapshot)?;
        Ok(())
    }

    // Returns a copy of the last snapshot.
    fn last(&self, alloc: Global) -> Result<Snapshot, Fault>
        ensures ok { IfOk result (λ last. (snapshot_of (view_of self.now).seen ≡ Some last)
            × IsRising last.1) }
        ensures err { IfErr result (λ fault. (snapshot_of (view_of self.now).seen ≡ None)
            ⊎ (fault ≡ NoMemory)) }
    {
        match self.snapshots.last() {
            Some(last) => Ok(last.copy(alloc)?),
            None => Err(Fault::NotAStore),
        }
    }

    // Counts a call that fails.
    fn fail(&mut self) -> Result<(), DiskFault>
        ensures result { IsErr result }
        ensures snapshots { self.new.snapshots ≡ self.old.snapshots }
        ensures failures { self.new.failures ≡ min (self.old.failures + 1) (2 ^ 64 - 1) }
    {
        self.failures = self.failures.saturating_add(1);
        Err(DiskFault)
    }
}

impl Disk for SnapshotDisk {
    ghost use Rattle.std.proofs.Common.{◌∙◌, length, refl, ap, arith};
    ghost use Rattle.engine.specs.Snapshots.{bytes_after, view_of};

    ghost view = { view_of };

    ghost failed = { λ d. d.failures };

    ghost lawful = { λ d _. record {
      whole = refl;
      may_stay = refl;
      counts_now = λ t c early same. (length d.snapshots, early, Prim.omega (arith), same);
      only_now = λ c left.
          left.3 ∙ ap (bytes_after d.snapshots) (Prim.omega (arith, left.1, left.2));
    } };

    fn len(&self) -> u64 {
        2
    }

    fn failures(&self) -> u64 {
        self.failures
    }

    fn read_at(&mut self, _at: u64, _buf: &mut [u8]) -> Result<(), DiskFault> {
        self.fail()
    }

    fn write_at(&mut self, _at: u64, _bytes: &[u8]) -> Result<(), DiskFault> {
        self.fail()
    }

    fn sync(&mut self) -> Result<(), DiskFault> {
        Ok(())
    }
}

/// A store on a `SnapshotDisk`, for tests of programs that use `OrderedStore`. It copies all pairs in each batch and
/// flush, and the disk keeps the copy of each flush. `clean` and `upgrade` always fail (`NothingToClean`,
/// `AlreadyUpgraded`).
#[derive(Drop)]
pub struct SnapshotStore {
    alloc: Global,
    now: Snapshot,
    disk: SnapshotDisk,
}

impl OrderedStore<SnapshotDisk> for SnapshotStore {
    ghost use Rattle.std.specs.Prelude.{[], Some, None, false};
    ghost use Rattle.keys.specs.Bytes.{Bytes, Pairs};
    ghost use Rattle.keys.specs.Step.{map_after_all};
    ghost use Rattle.engine.specs.Snapshots.{snapshot_of, bytes_with, flushed_with, pairs_held};

    ghost contents = { λ x. x.now.1 };

    ghost settings = { λ x. x.now.0 };

    ghost disk_of = { λ x. x.disk };

    ghost has_failed = { λ _. false };

    ghost recovered = { snapshot_of };

    ghost State = { Pairs Bytes };

    ghost state = { λ x. x.now.1 };

    ghost after_create = { λ s file. Some ([], bytes_with (s, []) file) };

    ghost after_open = { λ file. pairs_held (snapshot_of file) };

    ghost after_batch = { λ _ m commands. map_after_all m commands };

    ghost after_flush = { flushed_with };

    ghost after_clean = { λ _ _ _. None };

    ghost after_upgrade = { λ _ _ _. None };

    fn create(
        alloc: Global,
        disk: SnapshotDisk,
        chosen: Settings,
    ) -> Result<SnapshotStore, (Fault, SnapshotDisk)> {
        let mut disk = disk;
        if let Err(fault) = chosen.check() {
            return Err((fault, disk));
        }
        match disk.keep(Snapshot::new(alloc, chosen)) {
            Ok(()) => Ok(SnapshotStore {
                alloc,
                now: Snapshot::new(alloc, chosen),
                disk,
            }),
            Err(_) => Err((Fault::NoMemory, disk)),
        }
    }

    fn open<R: Threads + Sync>(
        _rt: &R,
        alloc: Global,
        disk: SnapshotDisk,
        crew: Crew,
    ) -> Result<SnapshotStore, (Fault, SnapshotDisk)> {
        if let Err(fault) = admit_crew(crew) {
            return Err((fault, disk));
        }
        match disk.last(alloc) {
            Ok(now) => Ok(SnapshotStore { alloc, now, disk }),
            Err(fault) => Err((fault, disk)),
        }
    }

    fn get(&self, key: &[u8]) -> Option<&[u8]> {
        self.now.get(key)
    }

    fn range(
        &self,
        lo: &[u8],
        hi: Option<&[u8]>,
        limit: u32,
    ) -> Result<Vec<(&[u8], &[u8])>, Fault> {
        Ok(self.now.range(self.alloc, lo, hi, limit)?)
    }

    fn batch<R: Threads + Sync>(
        &mut self,
        _rt: &R,
        crew: Crew,
        commands: &[Command<Global>],
    ) -> Result<Vec<Reply<Global>>, Fault> {
        admit_crew(crew)?;
        admit(&self.now.settings, commands)?;
        let (replies, now) = self.now.after(self.alloc, commands)?;
        self.now = now;
        Ok(replies)
    }

    fn flush<R: Threads + Sync>(&mut self, _rt: &R, crew: Crew) -> Result<u64, Fault> {
        admit_crew(crew)?;
        let snapshot = self.now.copy(self.alloc)?;
        self.disk.keep(snapshot)?;
        Ok(self.disk.snapshots.len() as u64)
    }

    fn clean<R: Threads + Sync>(&mut self, _rt: &R, crew: Crew) -> Result<u64, Fault> {
        admit_crew(crew)?;
        Err(Fault::NothingToClean)
    }

    fn upgrade<R: Threads + Sync>(&mut self, _rt: &R, crew: Crew) -> Result<u64, Fault> {
        admit_crew(crew)?;
        Err(Fault::AlreadyUpgraded)
    }

    fn close(self) -> SnapshotDisk {
        self.disk
    }
}
