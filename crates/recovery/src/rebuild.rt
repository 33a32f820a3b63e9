//! Builds pages from their frames in the log.
ghost use Rattle.std.specs.Prelude.{◌≡◌, ◌⊎◌, ◌<◌, length, None, Some, IfOk, MatchOption};
ghost use Rattle.keys.specs.Bytes.{Bytes};
ghost use Rattle.frame_codec.specs.Frame.{Frame};
ghost use Rattle.frame_codec.specs.Reading.{read_frame};
ghost use Rattle.recovery.specs.PageByLog.{page_in, continued};
ghost use Rattle.recovery.specs.PageByLog.InLog.{Present, Broken};
ghost use Rattle.recovery.specs.Rebuild.{page_of_frames, page_of_parts};

use crate::page_parts::PageParts;
use crew::{Turn, Work};
use frame_codec::{Format, read_frame};
use index_page::Page;
use keys::Pid;
use std::alloc::{AllocError, Global};

/// The frames of a page.
#[derive(Drop)]
pub struct PageLog {
    /// The page's id.
    pub pid: Pid,
    /// The encoded frames of the page, as they are in the log: its last base, and the later runs.
    pub frames: Vec<u8>,
}

/// The result of building a page.
#[derive(Drop)]
pub struct Rebuilt {
    /// The frames, which are retained until all pages of the round are built.
    pub log: PageLog,
    /// The page, if the frames form one.
    pub page: Option<Page<Global>>,
}

/// Builds the page of these encoded frames: a base, followed by runs of its kind. Returns `None` if the bytes are not
/// exactly such frames. `Err` means that allocation failed.
pub fn rebuild(
    alloc: Global,
    format: &Format,
    frames: &[u8],
) -> Result<Option<Page<Global>>, AllocError>
    ensures { IfOk result (λ page. page ≡ page_in (page_of_frames format.now frames.now)) }
{
    let Some((base, size)) = read_frame(alloc, frames, format)? else {
        return Ok(None);
    };
    let Some(begun) = PageParts::of_base(base) else {
        return Ok(None);
    };
    let mut page = begun;
    let mut rest = &frames[size..];
    while !rest.is_empty() {
        let Some(following) = push_next(alloc, format, &mut page, rest)? else {
            return Ok(None);
        };
        rest = following;
    }
    Ok(Some(page.into_page(alloc)?))
}

// Decodes the frame at the front and prepends its run to the page. Returns the bytes after the frame, or `None` if
// there is no frame, or it is no run for this kind of page.
fn push_next<'a>(
    alloc: Global,
    format: &Format,
    page: &mut PageParts,
    bytes: &'a [u8],
) -> Result<Option<&'a [u8]>, AllocError>
    ensures { let read = read_frame format.now bytes.now in
        let then =
        λ (f : Frame). continued (Present (page_of_parts page.old)) f.content in
        IfOk result (λ found. MatchOption found
        ((read ≡ None) ⊎ ((f : Frame) × (rest : Bytes) × (read ≡ Some (f, rest))
        × (length rest < length bytes.now) × (then f ≡ Broken)))
        (λ rest. (f : Frame) × (read ≡ Some (f, rest.now))
        × (length rest.now < length bytes.now)
        × (then f ≡ Present (page_of_parts page.new)))) }
{
    let Some((frame, size)) = read_frame(alloc, bytes, format)? else {
        return Ok(None);
    };
    let is_run = page.push(frame)?;
    if !is_run {
        return Ok(None);
    }
    Ok(Some(&bytes[size..]))
}

/// The work of building pages. The input is the frames of a page, the output is the page.
#[derive(Drop)]
pub struct RebuildWork {
    /// Allocates the pages.
    pub alloc: Global,
    /// The format of the log, which determines how the frames are decoded.
    pub format: Format,
}

impl Work for RebuildWork {
    ghost use Rattle.std.specs.Prelude.{⊤, Option};
    ghost use Rattle.index_page.specs.Page.{PageOfKind};
    ghost use Rattle.recovery.specs.PageByLog.{page_in};
    ghost use Rattle.recovery.specs.Rebuild.{HeldLog, held_log, page_of_frames};

    type Job = PageLog;

    type Done = Rebuilt;

    ghost Held = { HeldLog };

    ghost Made = { Option PageOfKind };

    ghost accepts = { λ _ _. ⊤ };

    ghost held = { held_log };

    ghost origin = { λ d. held_log d.log };

    ghost outcome = { λ d. d.page };

    ghost made = { λ w h. page_in (page_of_frames w.format h.frames) };

    fn work(&self, job: PageLog) -> Turn<PageLog, Rebuilt> {
        match rebuild(self.alloc, &self.format, &job.frames) {
            Ok(page) => Turn::Done(Rebuilt { log: job, page }),
            Err(_refused) => Turn::Back(job),
        }
    }

    fn undo(&self, done: Rebuilt) -> PageLog {
        done.log
    }
}
