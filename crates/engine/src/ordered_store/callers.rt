//! Callers that use the trait alone, with a crash in between.
ghost use Rattle.std.specs.Prelude.{◌≡◌, ◌⊎◌, false, [], Result, IsTrue, IfOk};
ghost use Rattle.keys.specs.declared.fault.Fault as faults;
ghost use Rattle.keys.specs.Step.{replies_to, map_after_all};

use crate::ordered_store::OrderedStore;
use crew::Crew;
use flush_log::{CrashDisk, Disk, Fill};
use keys::{Command, Fault, Reply, Settings};
use std::alloc::Global;
use std::thread::Threads;

/// Creates a store on a disk, executes the batch `puts`, and flushes. Then the machine crashes: `crash` turns the disk
/// into any disk that a crash may leave of it. Opens the store again from this disk, and returns the replies to the
/// batch `gets`.
///
/// If the disk is honest and every call succeeds, the replies are those of an ordered map on which `puts` and then
/// `gets` were executed. Fails with the first fault of a call.
pub fn put_then_get<
    D: Disk + Drop,
    R: Threads + Sync,
    S: OrderedStore<D> + Drop,
    C: FnOnce(D) -> Result<D, Fault>,
>(
    rt: &R,
    alloc: Global,
    crew: Crew,
    disk: D,
    chosen: Settings,
    puts: &[Command<Global>],
    crash: C,
    gets: &[Command<Global>],
) -> Result<Vec<Reply<Global>>, Fault>
    requires callable { (d : D) → C.pre crash d }
    requires crash { (d : D) (left : Result D faults.Fault) → C.post crash d left →
        IfOk left (λ e. (D.view d).may_leave (D.view e).seen × IsTrue (D.view e).is_honest) }
    ensures { IsTrue (D.view disk).is_honest →
        IfOk result (λ replies. replies.items ≡ replies_to (map_after_all [] puts.now) gets.now) }
{
    let mut store = S::create(alloc, disk, chosen).map_err(|e| e.0)?;
    store.batch(rt, crew, puts)?;
    store.flush(rt, crew)?;
    let left = crash(store.close())?;
    let mut again = S::open(rt, alloc, left, crew).map_err(|e| e.0)?;
    again.batch(rt, crew, gets)
}

/// Calls `put_then_get` on a disk in memory, which is honest, and whose simulated crashes are proved to be possible
/// crashes. `fill` selects what a crash leaves in each range that was written but not synced.
pub fn put_then_get_in_memory<R: Threads + Sync, S: OrderedStore<CrashDisk<Global>> + Drop>(
    rt: &R,
    alloc: Global,
    crew: Crew,
    disk: CrashDisk<Global>,
    chosen: Settings,
    puts: &[Command<Global>],
    fill: Fill,
    gets: &[Command<Global>],
) -> Result<Vec<Reply<Global>>, Fault>
    ensures { IfOk result
        (λ replies. replies.items ≡ replies_to (map_after_all [] puts.now) gets.now) }
{
    let crash = |disk: CrashDisk<Global>| -> Result<CrashDisk<Global>, Fault> {
        Ok(disk.crashed(fill)?)
    };
    put_then_get::<CrashDisk<Global>, R, S, _>(rt, alloc, crew, disk, chosen, puts, crash, gets)
}

/// Creates a store, executes the batch `first`, flushes, executes the batch `second`, and flushes again. The machine
/// may crash after the second flush, or at any call of the disk in it, which then fails, as do all later calls: `crash`
/// turns the disk into any disk that a crash may leave of it. Opens the store again from this disk. Returns whether the
/// second flush succeeded, and the replies to the batch `gets`.
///
/// If the disk is honest, the replies are those of an ordered map on which both batches were executed, or, unless the
/// second flush succeeded, `first` alone. Fails with the first fault of a call other than the second flush.
pub fn put_twice_then_get<
    D: Disk + Drop,
    R: Threads + Sync,
    S: OrderedStore<D> + Drop,
    C: FnOnce(D) -> Result<D, Fault>,
>(
    rt: &R,
    alloc: Global,
    crew: Crew,
    disk: D,
    chosen: Settings,
    first: &[Command<Global>],
    second: &[Command<Global>],
    crash: C,
    gets: &[Command<Global>],
) -> Result<(bool, Vec<Reply<Global>>), Fault>
    requires callable { (d : D) → C.pre crash d }
    requires crash { (d : D) (left : Result D faults.Fault) → C.post crash d left →
        IfOk left (λ e. (D.view d).may_leave (D.view e).seen × IsTrue (D.view e).is_honest) }
    ensures { IsTrue (D.view disk).is_honest → IfOk result (λ x.
        (x.1.items ≡ replies_to (map_after_all (map_after_all [] first.now) second.now) gets.now)
        ⊎ ((x.0 ≡ false) × (x.1.items ≡ replies_to (map_after_all [] first.now) gets.now))) }
{
    let mut store = S::create(alloc, disk, chosen).map_err(|e| e.0)?;
    store.batch(rt, crew, first)?;
    store.flush(rt, crew)?;
    store.batch(rt, crew, second)?;
    let is_flushed = store.flush(rt, crew).is_ok();
    let left = crash(store.close())?;
    let mut again = S::open(rt, alloc, left, crew).map_err(|e| e.0)?;
    let replies = again.batch(rt, crew, gets)?;
    Ok((is_flushed, replies))
}
