//! How full the log is, by one reading of it: whether cleaning is worth its cost, and whether it can help at all.
ghost use Rattle.std.specs.Prelude.{◌≡◌, ◌+◌, ◌-◌, ◌^◌, ◌≤◌, ◌<◌, IfOk, IfErr, IsTrue, false, None, length, min, sum_by};
ghost use Rattle.flush_log.specs.ImageWork.{IsOfStore};
ghost use Rattle.flush_log.specs.Images.{frames_in};
ghost use Rattle.keys.specs.Limits.{first_bad_field};
ghost use Rattle.keys.specs.declared.fault.Fault.TheVariants.{NoMemory};
ghost use Rattle.mapping.specs.TreeInMemory.{AreAllHome, tree_of};
ghost use Rattle.engine.specs.Room.{is_overfull, is_tight, is_two_thirds_full, is_worth, most_live, room_in};

use crate::store::Store;
use cleaner::Reading;
use crew::Crew;
use flush_log::{CommitKind, Disk, Image, images};
use keys::{Fault, Settings};
use mapping::Tree;
use std::alloc::Global;
use std::thread::Threads;

// How many bytes a segment's header has.
const SEGMENT_HEADER_SIZE: u64 = 16;

// How many bytes of frames this many segments have room for.
fn room_in(settings: &Settings, count: u64) -> u64
    requires checked { first_bad_field settings.now ≡ None }
    requires few { count ≤ 2 ^ 32 - 1 }
    ensures { result ≡ room_in settings.now count }
{
    count * (u64::from(settings.seg_size) - SEGMENT_HEADER_SIZE)
}

// How many bytes of frames a log can have if cleans are to make room. The unused end of a segment, where the next frame
// did not fit, is assumed to have the size of about half a leaf of small pairs.
pub(super) fn most_live(settings: &Settings) -> u64
    requires checked { first_bad_field settings.now ≡ None }
    ensures exact { result ≡ most_live settings.now }
    ensures small { result < 2 ^ 64 - 1 }
{
    let size = u64::from(settings.seg_size);
    let unused = (32 * u64::from(settings.fan)).min(size / 8);
    u64::from(settings.segments - 1) * (size - SEGMENT_HEADER_SIZE - unused)
}

// Adds the bytes of an image's frames to a number of bytes.
fn with_image(bytes: u64, image: &Image) -> u64
    ensures { result ≡ min (bytes + sum_by (λ f. length f) image.now) (2 ^ 64 - 1) }
{
    let mut total = bytes;
    for at in 0..image.len() {
        total = total.saturating_add(image.frame(at).len() as u64);
    }
    total
}

// Adds the bytes of the frames of all these images to a number of bytes.
fn with_images(bytes: u64, images: &[Image]) -> u64
    ensures { result ≡ min (bytes + sum_by (λ f. length f) (frames_in images.now)) (2 ^ 64 - 1) }
{
    let mut total = bytes;
    for image in images {
        total = with_image(total, image);
    }
    total
}

// How many bytes the frames of this commit of a tree have.
fn frame_bytes(
    rt: &(impl Threads + Sync),
    crew: Crew,
    alloc: Global,
    tree: &Tree<Global>,
    text: CommitKind,
) -> Result<u64, Fault>
    requires home { AreAllHome tree.now }
    requires proper { IsOfStore (tree_of tree.now) }
    ensures { IfErr result (λ fault. fault ≡ NoMemory) }
{
    let images = images(rt, crew, alloc, tree, text)?;
    Ok(with_images(0, &images))
}

// Estimates how many bytes frames have without key compression, from their bytes with it. Key compression shortens other
// frames with such keys from `whole` to `compressed` bytes.
fn uncompressed(bytes: u64, whole: u64, compressed: u64) -> u64 {
    let times = (bytes / compressed.max(1)).saturating_add(1);
    bytes.saturating_add(times.saturating_mul(whole.saturating_sub(compressed)))
}

// Whether this fault of a flush is a full log; but `Fault::NoMemory` if an allocation failed.
pub(super) fn is_full(fault: Fault) -> Result<bool, Fault>
    ensures { IfErr result (λ reported. reported ≡ NoMemory) }
{
    match fault {
        Fault::NoMemory => Err(Fault::NoMemory),
        Fault::Full => Ok(true),
        _ => Ok(false),
    }
}

impl<D: Disk> Store<D> {
    // Returns whether the next flush would find the log full, or may clean before that.
    pub(super) fn may_need_cleans(
        &self,
        rt: &(impl Threads + Sync),
        crew: Crew,
    ) -> Result<bool, Fault>
        ensures { IfErr result (λ fault. fault ≡ NoMemory) }
    {
        if self.is_tight() {
            return Ok(true);
        }
        match self.pending_bytes(rt, crew) {
            Ok(_bytes) => Ok(false),
            Err(fault) => is_full(fault),
        }
    }

    // Returns how many bytes the frames of all pages have, as an upgrade would write them. About as many bytes of the log
    // are live, or more if its keys are not compressed.
    pub(super) fn page_bytes(&self, rt: &(impl Threads + Sync), crew: Crew) -> Result<u64, Fault>
        ensures { IfErr result (λ fault. fault ≡ NoMemory) }
    {
        frame_bytes(rt, crew, self.alloc, &self.tree, CommitKind::Upgrade)
    }

    // Returns for how many bytes of frames cleans can make room if about `live` bytes of the log are live. A sixteenth of
    // these and a segment are left free: a flush that would succeed without a compaction must not fail because of one.
    pub(super) fn room_beside(&self, live: u64) -> u64 {
        let spare = (live / 16).saturating_add(u64::from(self.settings.seg_size));
        most_live(&self.settings).saturating_sub(live.saturating_add(spare))
    }

    // Estimates, without reading the log, whether cleans can make room for the flush of a compacted tree.
    pub(super) fn can_make_room(
        &self,
        rt: &(impl Threads + Sync),
        crew: Crew,
        compacted: &Tree<Global>,
    ) -> Result<bool, Fault>
        requires home { AreAllHome compacted.now }
        requires proper { IsOfStore (tree_of compacted.now) }
        ensures { IfErr result (λ fault. fault ≡ NoMemory) }
    {
        let text = CommitKind::Flush(self.version);
        let flush = frame_bytes(rt, crew, self.alloc, compacted, text)?;
        let shortened = frame_bytes(rt, crew, self.alloc, compacted, CommitKind::Upgrade)?;
        let pages = self.page_bytes(rt, crew)?;
        let live = uncompressed(pages, flush, shortened);
        Ok(flush <= self.room_beside(live))
    }

    /// Returns whether the log has 16 segments or more, of which fewer than three are free. A flush leaves at least one
    /// free. A clean may need two, and seldom more, because it also copies frames that pages of the first segment have
    /// in other segments. So `flush_cleaning` may clean a tight log, even if the flush would fit. A smaller log is
    /// never tight: there a row of cleans is a single one, after which few segments are still free, so a call that is
    /// repeated after `Fault::NoMemory` would clean a second segment, and leave other bytes.
    pub fn is_tight(&self) -> bool
        ensures { result ≡ is_tight self.now.settings self.now.store }
    {
        self.settings.segments >= 16 && self.segments() - self.segments_in_use() < 3
    }

    /// Returns whether at least two thirds of the log's segments are in use.
    pub(super) fn is_two_thirds_full(&self) -> bool
        ensures { result ≡ is_two_thirds_full self.now.settings self.now.store }
    {
        2 * u64::from(self.settings.segments) <= self.segments_in_use().saturating_mul(3)
    }

    /// Returns whether a row of cleans is worth its cost: whether, of the bytes that the segments in use have room for,
    /// at least a segment and a sixteenth are dead. The reading must be one of this store's log, from `read_ahead`.
    pub fn is_worth_cleaning(&self, reading: &Reading) -> bool
        ensures { result ≡ is_worth self.now.settings self.now.store reading.now.live }
    {
        let room = room_in(&self.settings, self.segments_in_use());
        let least = u64::from(self.settings.seg_size).max(room / 16);
        least <= room.saturating_sub(reading.live())
    }

    /// Returns whether the live bytes in this reading of the store's log and the bytes that a flush would write are
    /// together more than the log can have if cleans are to make room. A flush leaves one segment free. The end of a
    /// segment, where the next frame did not fit, stays unused: it is assumed to have 32 bytes for each entry of a page
    /// (`fan`), but at most an eighth of the segment. Cleans copy frames unchanged, so they then make no room, or
    /// hardly any at a high cost. This call encodes the frames, as that flush would.
    ///
    /// Fails only with `Fault::NoMemory`. Nothing changes.
    pub fn is_overfull(
        &self,
        rt: &(impl Threads + Sync),
        crew: Crew,
        reading: &Reading,
    ) -> Result<bool, Fault>
        ensures exact { IfOk result (λ is.
            is ≡ is_overfull self.now.settings self.now.store reading.now.live) }
        ensures err { IfErr result (λ fault. fault ≡ NoMemory) }
    {
        let images = images(
            rt,
            crew,
            self.alloc,
            &self.tree,
            CommitKind::Flush(self.version),
        )?;
        Ok(most_live(&self.settings) < with_images(reading.live(), &images))
    }
}
