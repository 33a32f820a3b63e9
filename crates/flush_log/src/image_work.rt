//! Encodes the frames of a flush, page by page.
ghost use Rattle.std.specs.Prelude.{◌≡◌, ◌^◌, ◌<◌, ◌∷◌, [], map, reverse, drop, Some, None, IfOk, OnOk};
ghost use Rattle.std.specs.List.{AllByRecursion};
ghost use Rattle.delta_chain.specs.Layers.{depth_of};
ghost use Rattle.delta_chain.specs.Lazy.{seen};
ghost use Rattle.mapping.specs.Flushed.{page_depth};
ghost use Rattle.mapping.specs.LogState.{log_state};
ghost use Rattle.frame_codec.specs.declared.format.KeyEncoding as encodings;
ghost use Rattle.frame_codec.specs.Frame.Content.{FullLeaf, DeltaLeaf, FullIndex, DeltaIndex};
ghost use Rattle.frame_codec.specs.Sized.{IsSized, FitsU64};
ghost use Rattle.flush_log.specs.FlushText.{lacking};
ghost use Rattle.flush_log.specs.ImageWork.{image_held, held_text, image_made, CanBeWritten, lacking_by, AreWritten, IsImageOf};

use crate::image::Image;
use crate::kind::Kind;
use crew::{Turn, Work};
use delta_chain::{Base, Chain, ChainRef, LazyChain};
use frame_codec::KeyEncoding;
use index_page::Page;
use keys::{Pid, Value};
use mapping::Logged;
use std::alloc::{AllocError, Allocator, Global};
use std::marker::{Model, PhantomData};

/// The work of making images. The input is a page and its log state; the output is the frames that the log lacks.
#[derive(Drop)]
pub struct ImageWork<'a> {
    /// Allocates the images.
    pub alloc: Global,
    // The pages of its jobs are borrowed.
    lent: PhantomData<&'a Page<Global>>,
}

/// A page id, the key encoding for its base, its page if it has one, and its log state.
#[derive(Drop)]
pub struct ImageJob<'a> {
    pub pid: Pid,
    pub encoding: KeyEncoding,
    pub page: Option<&'a Page<Global>>,
    pub logged: Logged,
}

/// The image for a job, together with the job. Contracts see it as the input, which determines the image.
#[derive(Drop)]
pub struct ImageDone<'a> {
    job: ImageJob<'a>,
    image: Image,
}

impl<'a> ImageWork<'a> {
    /// Makes the work with this allocator.
    pub fn new(alloc: Global) -> Self {
        ImageWork {
            alloc,
            lent: PhantomData,
        }
    }
}

impl<'a> Model for ImageDone<'a> {
    ghost use Rattle.flush_log.specs.ImageWork.{ImageHeld, job_held, IsImageOf};

    ghost Value = { ImageHeld };

    ghost view = { λ d. job_held d.job };

    ghost invariant = { λ d. IsImageOf (job_held d.job) d.image };
}

impl<'a> ImageDone<'a> {
    /// Returns the image. The work can no longer be undone. Each page id in its frames has 64 bits.
    pub fn into_image(self) -> Image
        ensures image { result ≡ image_made self.entry }
        ensures words { AllByRecursion FitsU64 (held_text self.entry) }
    {
        let ImageDone { job: _job, image } = self;
        image
    }
}

impl<'a> Work for ImageWork<'a> {
    ghost use Rattle.std.specs.Prelude.{List};
    ghost use Rattle.keys.specs.Bytes.{Bytes};
    ghost use Rattle.flush_log.specs.ImageWork.{ImageHeld, job_held, image_made, CanBeWritten};

    type Job = ImageJob<'a>;

    type Done = ImageDone<'a>;

    ghost Held = { ImageHeld };

    ghost Made = { List Bytes };

    ghost accepts = { λ _ h. CanBeWritten h };

    ghost held = { job_held };

    ghost origin = { λ d. d };

    ghost outcome = { λ d. image_made d };

    ghost made = { λ _ h. image_made h };

    fn work(&self, job: ImageJob<'a>) -> Turn<ImageJob<'a>, ImageDone<'a>> {
        let ImageJob {
            pid,
            encoding,
            page,
            logged,
        } = job;
        match image_of(self.alloc, pid, encoding, page, logged) {
            Ok(image) => Turn::Done(ImageDone {
                job: ImageJob {
                    pid,
                    encoding,
                    page,
                    logged,
                },
                image,
            }),
            Err(_) => Turn::Back(ImageJob {
                pid,
                encoding,
                page,
                logged,
            }),
        }
    }

    fn undo(&self, done: ImageDone<'a>) -> ImageJob<'a> {
        done.job
    }
}

fn image_of(
    alloc: Global,
    pid: Pid,
    encoding: KeyEncoding,
    page: Option<&Page<Global>>,
    logged: Logged,
) -> Result<Image, AllocError>
    requires { CanBeWritten (image_held pid encoding page logged) }
    ensures { IfOk result (λ image. IsImageOf (image_held pid encoding page.entry logged) image) }
{
    match page {
        None => free_image(alloc, pid, logged),
        Some(page) => page_image(alloc, pid, encoding, page, logged),
    }
}

// The image for a page id without a page.
fn free_image(alloc: Global, pid: Pid, logged: Logged) -> Result<Image, AllocError>
    ensures { (encoding : encodings.KeyEncoding) →
        IfOk result (λ image. AreWritten pid (lacking encoding None (log_state logged)) [] image) }
{
    if logged != Logged::Old {
        return Image::with_capacity(alloc, 0);
    }
    let mut image = Image::with_capacity(alloc, 1)?;
    image.push_free(pid)?;
    Ok(image)
}

fn page_image(
    alloc: Global,
    pid: Pid,
    encoding: KeyEncoding,
    page: &Page<Global>,
    logged: Logged,
) -> Result<Image, AllocError>
    requires few { page_depth page.now < 2 ^ 31 }
    requires sized { AllByRecursion IsSized (lacking encoding (Some page.now) (log_state logged)) }
    ensures { IfOk result
        (λ image. AreWritten pid (lacking encoding (Some page.now) (log_state logged)) [] image) }
{
    if let Some(chain) = page.as_leaf() {
        return leaf_image(alloc, pid, encoding, page.low(), chain, logged);
    }
    match page.as_index() {
        Some(chain) => index_image(alloc, pid, encoding, page.low(), chain, logged),
        None => unreachable!(),
    }
}

fn leaf_image(
    alloc: Global,
    pid: Pid,
    encoding: KeyEncoding,
    low: &[u8],
    chain: &LazyChain<Value<Global>, Global>,
    logged: Logged,
) -> Result<Image, AllocError>
    requires few { depth_of (seen chain.now) < 2 ^ 31 }
    requires sized { AllByRecursion IsSized
        (lacking_by (log_state logged) (FullLeaf encoding low.now (seen chain.now).base)
        (map DeltaLeaf (reverse (seen chain.now).runs))) }
    ensures { IfOk result (λ image. AreWritten pid
        (lacking_by (log_state logged) (FullLeaf encoding low.now (seen chain.now).base)
        (map DeltaLeaf (reverse (seen chain.now).runs))) [] image) }
{
    match logged {
        Logged::Upto(kept) => newer_image(alloc, pid, &chain.unmerged_runs(), kept),
        _ => whole_leaf(alloc, pid, encoding, low, chain),
    }
}

// The image of a leaf that the log lacks. If runs count as merged into the base, they are merged for this frame only.
fn whole_leaf(
    alloc: Global,
    pid: Pid,
    encoding: KeyEncoding,
    low: &[u8],
    chain: &LazyChain<Value<Global>, Global>,
) -> Result<Image, AllocError>
    requires few { depth_of (seen chain.now) < 2 ^ 31 }
    requires base { IsSized (FullLeaf encoding low.now (seen chain.now).base) }
    requires runs { AllByRecursion IsSized (map DeltaLeaf (reverse (seen chain.now).runs)) }
    ensures { IfOk result (λ image. AreWritten pid (FullLeaf encoding low.now (seen chain.now).base
        ∷ map DeltaLeaf (reverse (seen chain.now).runs)) [] image) }
{
    let runs = chain.unmerged_runs();
    if chain.merged_runs() == 0 {
        return whole_image(alloc, pid, encoding, low, chain.whole().base(), &runs);
    }
    let base = chain.base_copy(alloc)?;
    whole_image(alloc, pid, encoding, low, &base, &runs)
}

fn index_image(
    alloc: Global,
    pid: Pid,
    encoding: KeyEncoding,
    low: &[u8],
    chain: &Chain<Pid, Global>,
    logged: Logged,
) -> Result<Image, AllocError>
    requires few { depth_of chain.now < 2 ^ 31 }
    requires sized { AllByRecursion IsSized (lacking_by (log_state logged)
        (FullIndex encoding low.now chain.now.base) (map DeltaIndex (reverse chain.now.runs))) }
    ensures { IfOk result (λ image. AreWritten pid
        (lacking_by (log_state logged) (FullIndex encoding low.now chain.now.base)
        (map DeltaIndex (reverse chain.now.runs))) [] image) }
{
    let runs = chain.lent();
    match logged {
        Logged::Upto(kept) => newer_image(alloc, pid, &runs, kept),
        _ => whole_image(alloc, pid, encoding, low, chain.base(), &runs),
    }
}

// The image of a page that the log lacks: its base and its runs.
fn whole_image<V: Kind<Global>>(
    alloc: Global,
    pid: Pid,
    encoding: KeyEncoding,
    low: &[u8],
    base: &Base<V, Global>,
    lists: &ChainRef<'_, V, Global>,
) -> Result<Image, AllocError>
    requires few { depth_of lists.now < 2 ^ 31 }
    requires base { IsSized (V.full encoding low.now base.now) }
    requires runs { AllByRecursion IsSized (map V.delta (reverse lists.now.runs)) }
    ensures { IfOk result (λ image. AreWritten pid
        (V.full encoding low.now base.now ∷ map V.delta (reverse lists.now.runs)) [] image) }
{
    let depth = lists.depth() as usize;
    let mut image = Image::with_capacity(alloc, depth + 1)?;
    image.push_full(pid, encoding, low, base)?;
    push_runs(&mut image, pid, lists, 0)?;
    Ok(image)
}

// The image of a page whose base and oldest `kept` runs are in the log: its other runs.
fn newer_image<V: Kind<Global>>(
    alloc: Global,
    pid: Pid,
    lists: &ChainRef<'_, V, Global>,
    kept: u64,
) -> Result<Image, AllocError>
    requires few { depth_of lists.now < 2 ^ 31 }
    requires sized { AllByRecursion IsSized (drop kept (map V.delta (reverse lists.now.runs))) }
    ensures { IfOk result
        (λ image. AreWritten pid (drop kept (map V.delta (reverse lists.now.runs))) [] image) }
{
    let newer = lists.depth().saturating_sub(kept) as usize;
    let mut image = Image::with_capacity(alloc, newer)?;
    push_runs(&mut image, pid, lists, kept)?;
    Ok(image)
}

// Appends the runs after the oldest `kept`, oldest first.
fn push_runs<V: Kind<A>, A: Allocator + Copy>(
    image: &mut Image,
    pid: Pid,
    lists: &ChainRef<'_, V, A>,
    kept: u64,
) -> Result<(), AllocError>
    requires few { depth_of lists.now < 2 ^ 31 }
    requires sized { AllByRecursion IsSized (drop kept (map V.delta (reverse lists.now.runs))) }
    ensures { OnOk result
        (AreWritten pid (drop kept (map V.delta (reverse lists.now.runs))) image.old image.new) }
{
    if lists.depth() <= kept {
        return Ok(());
    }
    match lists.newest() {
        None => Ok(()),
        Some((run, below)) => {
            push_runs(image, pid, &below, kept)?;
            image.push_delta(pid, run)
        }
    }
}
