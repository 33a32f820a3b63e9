//! Gathers frames by page: for each page id the state after its frames, and the bytes of the wanted frames, as they are
//! in the log.
//!
//! Whoever wrote a disk chose its page ids. So the page ids are looked up in an ordered map and not by a hash, because
//! page ids could be chosen to collide.
ghost use Rattle.std.specs.Prelude.{◌≡◌, ◌++◌, ◌∷◌, [], List, IfOk, OnOk};
ghost use Rattle.flush_log.specs.Reading.{Found};
ghost use Rattle.recovery.specs.Gathered.{AreLive, is_wanted_in, state_after, segment_after, run_size, size_after, with_base, with_run, kept_with, is_unfit};
ghost use Rattle.recovery.specs.LogPages.{broken_in};
ghost use Rattle.recovery.specs.Scan.{held_frame, said_of_frame};
ghost use Rattle.recovery.specs.StoreOfDisk.{frames_in};
ghost use Rattle.recovery.specs.declared.gather.Wanted as declared;

use crate::scan_segment::ScannedFrame;
use frame_codec::FrameKind;
use keys::{Finding, Pid};
use std::alloc::{AllocError, Global};
use std::collections::BTreeMap;

// The number of the rule that frames of a page fit together.
const UNFIT_FRAMES: u32 = 1;

/// Which pages' frames are retained while a log is read.
#[derive(Clone, Copy, Debug, PartialEq, Eq)]
pub enum Wanted {
    /// Those of every page, for a recovery.
    Every,
    /// Those of the pages whose base is in a segment below this one, for cleans.
    Before(u64),
}

/// The state of a page after its frames so far. Frames before the last base or free frame do not count.
#[derive(Clone, Copy, Debug, PartialEq, Eq)]
pub enum PageState {
    /// No base and no free frame yet.
    Nothing,
    /// The page is a leaf.
    Leaf,
    /// The page is an index page.
    Index,
    /// The page was freed.
    Free,
    /// The frames do not fit together: a run without a page, or for a page of the other kind.
    Unfit,
}

/// What is retained of a page.
#[derive(Drop)]
pub struct Kept {
    /// The state after the page's frames.
    pub state: PageState,
    /// The segment of the page's last base or free frame, or 0 if it has neither.
    pub segment: u64,
    /// The size in bytes of the page's frames from the last base on, whether they are wanted or not; 0 if the page has
    /// no base. Capped at `u64::MAX`.
    pub size: u64,
    /// The page's encoded frames from its last base on, if they are wanted. Otherwise empty and not allocated.
    pub frames: Vec<u8>,
}

/// What is retained of each page, by page id, after the frames so far.
#[derive(Drop)]
pub struct Gathering {
    /// Allocates all of it.
    pub alloc: Global,
    /// Which pages' frames are retained.
    pub wanted: Wanted,
    /// What is retained, by the number of the page id.
    pub by_pid: BTreeMap<u64, Kept, Global>,
}

// The page's state after one more frame of this kind.
fn state_after(state: PageState, kind: FrameKind) -> PageState
    ensures { result ≡ state_after state kind }
{
    match kind {
        FrameKind::FullLeaf => PageState::Leaf,
        FrameKind::DeltaLeaf => match state {
            PageState::Nothing => PageState::Nothing,
            PageState::Leaf => PageState::Leaf,
            PageState::Index => PageState::Unfit,
            PageState::Free => PageState::Unfit,
            PageState::Unfit => PageState::Unfit,
        },
        FrameKind::FullIndex => PageState::Index,
        FrameKind::DeltaIndex => match state {
            PageState::Nothing => PageState::Nothing,
            PageState::Leaf => PageState::Unfit,
            PageState::Index => PageState::Index,
            PageState::Free => PageState::Unfit,
            PageState::Unfit => PageState::Unfit,
        },
        FrameKind::Free => PageState::Free,
    }
}

// The segment of the page's last base or free frame, after one more frame of this kind in `segment`.
fn segment_after(last: u64, kind: FrameKind, segment: u64) -> u64
    ensures { result ≡ segment_after last kind segment }
{
    match kind {
        FrameKind::FullLeaf => segment,
        FrameKind::DeltaLeaf => last,
        FrameKind::FullIndex => segment,
        FrameKind::DeltaIndex => last,
        FrameKind::Free => segment,
    }
}

// The size of the page's frames after a run of `more` bytes.
fn run_size(size: u64, more: u64) -> u64
    ensures { result ≡ run_size size more }
{
    if size == 0 {
        0
    } else {
        size.saturating_add(more)
    }
}

// The size of the page's frames from its last base on, after one more frame of this kind with `more` bytes.
fn size_after(size: u64, kind: FrameKind, more: u64) -> u64
    ensures { result ≡ size_after size kind more }
{
    match kind {
        FrameKind::FullLeaf => more,
        FrameKind::DeltaLeaf => run_size(size, more),
        FrameKind::FullIndex => more,
        FrameKind::DeltaIndex => run_size(size, more),
        FrameKind::Free => 0,
    }
}

fn is_unfit(state: PageState) -> bool
    ensures { result ≡ is_unfit state }
{
    match state {
        PageState::Nothing => false,
        PageState::Leaf => false,
        PageState::Index => false,
        PageState::Free => false,
        PageState::Unfit => true,
    }
}

// The retained frames after a new base: only that base, if it is wanted.
fn with_base(mut frames: Vec<u8>, is_wanted: bool, frame: &[u8]) -> Result<Vec<u8>, AllocError>
    ensures { IfOk result (λ now. now.items ≡ with_base is_wanted frame.now) }
{
    frames.clear();
    if is_wanted {
        frames.extend_from_slice(frame)?;
    }
    Ok(frames)
}

// The retained frames with a run appended, if there are any.
fn with_run(mut frames: Vec<u8>, frame: &[u8]) -> Result<Vec<u8>, AllocError>
    ensures { IfOk result (λ now. now.items ≡ with_run frames.items frame.now) }
{
    if !frames.is_empty() {
        frames.extend_from_slice(frame)?;
    }
    Ok(frames)
}

// The retained frames of a page after one more frame of this kind. If the base isn't wanted, its runs are not retained
// either.
fn frames_with(
    alloc: Global,
    frames: Vec<u8>,
    kind: FrameKind,
    is_wanted: bool,
    frame: &[u8],
) -> Result<Vec<u8>, AllocError>
    ensures { IfOk result (λ now. now.items ≡ kept_with frames.items kind is_wanted frame.now) }
{
    match kind {
        FrameKind::FullLeaf => with_base(frames, is_wanted, frame),
        FrameKind::DeltaLeaf => with_run(frames, frame),
        FrameKind::FullIndex => with_base(frames, is_wanted, frame),
        FrameKind::DeltaIndex => with_run(frames, frame),
        FrameKind::Free => Ok(Vec::new(alloc)),
    }
}

impl Gathering {
    /// Returns a gathering without frames.
    pub fn new(alloc: Global, wanted: Wanted) -> Self
        ensures { AreLive wanted result [] }
    {
        Gathering {
            alloc,
            wanted,
            by_pid: BTreeMap::new(alloc),
        }
    }

    // Whether frames are retained of a page whose base is in this segment.
    fn is_wanted(&self, segment: u64) -> bool
        ensures { result ≡ is_wanted_in self.now.wanted segment }
    {
        match self.wanted {
            Wanted::Every => true,
            Wanted::Before(end) => segment < end,
        }
    }

    /// Adds the next frame of the log, which is in this segment. After an `Err` the retained frames of its page may be
    /// lost.
    pub fn add(&mut self, segment: u64, frame: ScannedFrame<'_>) -> Result<(), AllocError>
        ensures { (w : declared.Wanted) (found : List Found) (f : Found) →
            said_of_frame f ≡ held_frame segment frame.entry → AreLive w self.old found →
            OnOk result (AreLive w self.new (found ++ f ∷ [])) }
    {
        let ScannedFrame { pid, kind, bytes } = frame;
        let is_wanted = self.is_wanted(segment);
        let before = match self.by_pid.remove(&pid) {
            Some(kept) => kept,
            None => Kept {
                state: PageState::Nothing,
                segment: 0,
                size: 0,
                frames: Vec::new(self.alloc),
            },
        };
        let Kept {
            state,
            segment: last,
            size,
            frames,
        } = before;
        let kept = Kept {
            state: state_after(state, kind),
            segment: segment_after(last, kind, segment),
            size: size_after(size, kind, bytes.len() as u64),
            frames: frames_with(self.alloc, frames, kind, is_wanted, bytes)?,
        };
        self.by_pid.insert(pid, kept)?;
        Ok(())
    }

    /// Returns the first page whose frames do not fit together, by the least page id.
    pub fn unfit(&self) -> Option<Finding>
        ensures { (w : declared.Wanted) (found : List Found) → AreLive w self.now found →
            result ≡ broken_in (frames_in found) }
    {
        for entry in self.by_pid.iter() {
            let (pid, kept) = entry;
            if is_unfit(kept.state) {
                return Some(Finding {
                    rule: UNFIT_FRAMES,
                    pid: Pid(*pid),
                });
            }
        }
        None
    }
}
