//! The frames of a flush or of an upgrade, as images.
ghost use Rattle.std.specs.Prelude.{◌≡◌, ◌≢◌, ◌↔◌, ℕ, true, [], map, flat_map, IfOk, IsTrue};
ghost use Rattle.std.specs.List.{AllByRecursion};
ghost use Rattle.std.specs.Option.{option_copied};
ghost use Rattle.keys.specs.declared.settings.Settings as limits;
ghost use Rattle.keys.specs.declared.version.Version as versions;
ghost use Rattle.mapping.specs.LogState.{log_state};
ghost use Rattle.mapping.specs.FreshPids.{is_among};
ghost use Rattle.mapping.specs.Proper.{AreRisingPids, IsProper};
ghost use Rattle.mapping.specs.TreeInMemory.{AreAllHome, tree_of};
ghost use Rattle.frame_codec.specs.declared.format.KeyEncoding as encodings;
ghost use Rattle.frame_codec.specs.Sized.{FitsU64};
ghost use Rattle.flush_log.specs.FlushText.{encoding_of, lacking, version_with, taken, pid_frames, commit_frames, flush_frames, HasFrames};
ghost use Rattle.flush_log.specs.declared.text.CommitKind.TheVariants as texts;
ghost use Rattle.flush_log.specs.ImageWork.{job_held, held_of_pid, held_text, image_made, HasFewRuns, CanBeWritten, IsDue, IsOfStore};
ghost use Rattle.flush_log.specs.Images.{AreOfText};

use crate::image::Image;
use crate::image_work::{ImageDone, ImageJob, ImageWork};
use crew::{Crew, NoGate, run_round};
use frame_codec::KeyEncoding;
use index_page::Page;
use keys::{Pid, Version};
use mapping::{Logged, Tree, depth};
use std::alloc::{AllocError, Global};
use std::thread::Threads;

/// Which pages a commit writes, and how.
#[derive(Clone, Copy, Debug, PartialEq, Eq)]
pub enum CommitKind {
    /// A flush of a store with a log of this version: whatever the log lacks.
    Flush(Version),
    /// An upgrade: all pages, for a log of the second version.
    Upgrade,
}

// The version of the log after this commit: an upgrade leads to the second one.
fn version_with(text: CommitKind) -> Version
    ensures { result ≡ version_with text }
{
    match text {
        CommitKind::Flush(version) => version,
        CommitKind::Upgrade => Version::Two,
    }
}

// The key encoding for bases in a log of this version.
fn encoding_of(version: Version) -> KeyEncoding
    ensures { result ≡ encoding_of version }
{
    match version {
        Version::One => KeyEncoding::Whole,
        Version::Two => KeyEncoding::PrefixCompressed,
    }
}

// The log state of a page id, as this kind of commit treats it.
fn taken(text: CommitKind, logged: Logged) -> Logged
    ensures { log_state result ≡ taken text (log_state logged) }
{
    match (text, logged) {
        (CommitKind::Upgrade, Logged::Upto(_)) => Logged::Old,
        _ => logged,
    }
}

/// Returns the frames of a flush or of an upgrade: an image for each page id with something to write, in rising order.
/// Each page id in them is then known to have 64 bits, so that a store may have these frames. The crew makes the
/// images; the result does not depend on the crew.
pub fn images(
    rt: &(impl Threads + Sync),
    crew: Crew,
    alloc: Global,
    tree: &Tree<Global>,
    text: CommitKind,
) -> Result<Vec<Image>, AllocError>
    requires home { AreAllHome tree.now }
    requires proper { IsOfStore (tree_of tree.now) }
    ensures text { IfOk result
        (λ images. AreOfText images.items (commit_frames text (tree_of tree.now))) }
    ensures some { IfOk result (λ images. AllByRecursion (λ image. image ≢ []) images.items) }
    ensures frames { IfOk result (λ _. (s : limits.Settings) → IsProper s (tree_of tree.now) →
        HasFrames s text (tree_of tree.now)) }
{
    let jobs = due_jobs(alloc, tree, text)?;
    match run_round(rt, crew, &NoGate, &ImageWork::new(alloc), jobs) {
        Ok(dones) => images_of(alloc, dones),
        Err(_) => Err(AllocError),
    }
}

/// Returns whether a flush has nothing to write: the log contains the whole tree. Does not allocate, and reads nothing
/// of a page except its number of runs.
pub fn is_all_written(tree: &Tree<Global>) -> bool
    requires home { AreAllHome tree.now }
    requires proper { IsOfStore (tree_of tree.now) }
    ensures { (version : versions.Version) →
        IsTrue result ↔ (flush_frames version (tree_of tree.now) ≡ []) }
{
    match tree.due_pids() {
        Some(pids) => are_written(tree, pids),
        None => are_all_written(tree),
    }
}

// Whether there is nothing to write for these page ids.
fn are_written(tree: &Tree<Global>, pids: &[u64]) -> bool
    requires home { AreAllHome tree.now }
    requires proper { IsOfStore (tree_of tree.now) }
    ensures { (version : versions.Version) →
        IsTrue result
        ↔ (flat_map (pid_frames (texts.Flush version) (tree_of tree.now)) pids.now ≡ []) }
{
    for pid in pids {
        let job = job_of(tree, *pid, CommitKind::Flush(Version::One));
        if !is_written(job.page, job.logged) {
            return false;
        }
    }
    true
}

// Whether there is nothing to write for any page id.
fn are_all_written(tree: &Tree<Global>) -> bool
    requires home { AreAllHome tree.now }
    requires proper { IsOfStore (tree_of tree.now) }
    ensures { (version : versions.Version) →
        IsTrue result ↔ (flush_frames version (tree_of tree.now) ≡ []) }
{
    for pid in tree.known_pids() {
        let job = job_of(tree, pid, CommitKind::Flush(Version::One));
        if !is_written(job.page, job.logged) {
            return false;
        }
    }
    true
}

// The jobs for all page ids with something to write.
fn due_jobs<'a>(
    alloc: Global,
    tree: &'a Tree<Global>,
    text: CommitKind,
) -> Result<Vec<ImageJob<'a>>, AllocError>
    requires home { AreAllHome tree.now }
    requires proper { IsOfStore (tree_of tree.now) }
    ensures text { IfOk result
        (λ jobs. flat_map held_text (map job_held jobs.items) ≡ commit_frames text (tree_of tree.now)) }
    ensures due { IfOk result (λ jobs. AllByRecursion IsDue (map job_held jobs.items)) }
{
    match (text, tree.due_pids()) {
        (CommitKind::Flush(_), Some(due)) => {
            let pids = rising(alloc, due)?;
            jobs_of(alloc, tree, text, &pids)
        }
        _ => all_jobs(alloc, tree, text),
    }
}

// These numbers in rising order, without repetitions.
fn rising(alloc: Global, numbers: &[u64]) -> Result<Vec<u64>, AllocError>
    ensures rising { IfOk result (λ rising. AreRisingPids rising.items) }
    ensures all { IfOk result
        (λ rising. (n : ℕ) → is_among n numbers.now ≡ true → is_among n rising.items ≡ true) }
{
    let mut rising = Vec::new(alloc);
    rising.extend_from_slice(numbers)?;
    rising.sort_unstable();
    rising.dedup();
    Ok(rising)
}

// The jobs for those of these page ids that have something to write.
fn jobs_of<'a>(
    alloc: Global,
    tree: &'a Tree<Global>,
    text: CommitKind,
    pids: &[u64],
) -> Result<Vec<ImageJob<'a>>, AllocError>
    requires home { AreAllHome tree.now }
    requires writable { (pid : ℕ) → CanBeWritten (held_of_pid text (tree_of tree.now) pid) }
    ensures text { IfOk result (λ jobs. flat_map held_text (map job_held jobs.items)
        ≡ flat_map (pid_frames text (tree_of tree.now)) pids.now) }
    ensures due { IfOk result (λ jobs. AllByRecursion IsDue (map job_held jobs.items)) }
{
    let mut jobs = Vec::new(alloc);
    for pid in pids {
        let job = job_of(tree, *pid, text);
        if !is_written(job.page, job.logged) {
            jobs.reserve(1)?;
            jobs.push_reserved(job);
        }
    }
    Ok(jobs)
}

// The jobs for all page ids with something to write.
fn all_jobs<'a>(
    alloc: Global,
    tree: &'a Tree<Global>,
    text: CommitKind,
) -> Result<Vec<ImageJob<'a>>, AllocError>
    requires home { AreAllHome tree.now }
    requires writable { (pid : ℕ) → CanBeWritten (held_of_pid text (tree_of tree.now) pid) }
    ensures text { IfOk result
        (λ jobs. flat_map held_text (map job_held jobs.items) ≡ commit_frames text (tree_of tree.now)) }
    ensures due { IfOk result (λ jobs. AllByRecursion IsDue (map job_held jobs.items)) }
{
    let mut jobs = Vec::new(alloc);
    for pid in tree.known_pids() {
        let job = job_of(tree, pid, text);
        if !is_written(job.page, job.logged) {
            jobs.reserve(1)?;
            jobs.push_reserved(job);
        }
    }
    Ok(jobs)
}

fn images_of<'a>(alloc: Global, dones: Vec<ImageDone<'a>>) -> Result<Vec<Image>, AllocError>
    ensures images { IfOk result (λ images. images.items ≡ map image_made dones.entry.items) }
    ensures words { IfOk result
        (λ _. AllByRecursion FitsU64 (flat_map held_text dones.entry.items)) }
{
    let mut images = Vec::with_capacity(alloc, dones.len())?;
    for done in dones {
        images.push_reserved(done.into_image());
    }
    Ok(images)
}

// The job for a page id: its page and its log state.
fn job_of<'a>(tree: &'a Tree<Global>, pid: u64, text: CommitKind) -> ImageJob<'a>
    requires { AreAllHome tree.now }
    ensures { job_held result ≡ held_of_pid text (tree_of tree.now) pid }
{
    let pid = Pid(pid);
    ImageJob {
        pid,
        encoding: encoding_of(version_with(text)),
        page: tree.page(pid),
        logged: taken(text, tree.logged(pid)),
    }
}

// Whether the log contains the whole page, or, if there is no page, nothing that must be marked as freed.
fn is_written(page: Option<&Page<Global>>, logged: Logged) -> bool
    requires { HasFewRuns (option_copied page) }
    ensures { (encoding : encodings.KeyEncoding) →
        IsTrue result ↔ (lacking encoding (option_copied page.entry) (log_state logged) ≡ []) }
{
    match page {
        None => logged != Logged::Old,
        Some(page) => match logged {
            Logged::Upto(kept) => depth(page) <= kept,
            _ => false,
        },
    }
}
