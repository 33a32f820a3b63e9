//! Drops the remains of a round on several threads.
use crate::limits::Crew;
use crate::pieces::cut;
use std::thread;
use std::thread::Threads;

/// Drops the items. If there are more items than the crew's grain, each worker drops an equal part, because freeing
/// much memory takes as long as filling it. Allocates one list per worker; if that fails, the caller drops all items.
pub fn drop_all<R: Threads + Sync, T: Send + Drop>(rt: &R, crew: Crew, mut items: Vec<T>) {
    let pieces = items.len().div_ceil((crew.grain as usize).max(1));
    let workers = (crew.workers as usize).min(pieces);
    if workers <= 1 {
        return;
    }
    let each = items.len().div_ceil(workers).max(1);
    let Ok(mut parts) = cut(&mut items, each) else {
        return;
    };
    let count = parts.len();
    thread::for_each_mut(
        rt,
        parts.as_mut_slice(),
        count,
        &|_: usize, part: &mut Vec<T>| { part.clear() },
    )
}
