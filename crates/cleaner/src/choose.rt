//! Makes the frames of a clean: those of the pages whose live frames begin in the head segment.
ghost use Rattle.std.specs.Prelude.{◌≡◌, ◌≢◌, [], flat_map, IfOk};
ghost use Rattle.std.specs.List.{AllByRecursion};
ghost use Rattle.flush_log.specs.Images.{frames_in};
ghost use Rattle.cleaner.specs.Chosen.{image_in, held};

use flush_log::Image;
use frame_codec::{Format, skim_frame};
use std::alloc::{AllocError, Global};

// The frames in these bytes as an image; without frames, if the bytes contain anything else.
fn image_of(alloc: Global, format: &Format, frames: &[u8]) -> Result<Image, AllocError>
    ensures { IfOk result (λ image. image ≡ image_in format.now frames.now) }
{
    let mut image = Image::new(alloc);
    let mut rest = frames;
    while !rest.is_empty() {
        let Some(skimmed) = skim_frame(rest, format) else {
            return Ok(Image::new(alloc));
        };
        let size = skimmed.size;
        image.push(&rest[..size])?;
        rest = &rest[size..];
    }
    Ok(image)
}

// The images of these pages, in order; a page without frames has none.
fn images_in(alloc: Global, format: &Format, pages: Vec<Vec<u8>>) -> Result<Vec<Image>, AllocError>
    ensures frames { IfOk result (λ images. frames_in images.items
        ≡ flat_map (λ page. image_in format.now page.items) pages.items) }
    ensures some { IfOk result (λ images. AllByRecursion (λ image. image ≢ []) images.items) }
{
    let mut images = Vec::new(alloc);
    for page in pages {
        let image = image_of(alloc, format, &page)?;
        if image.len() == 0 {
            continue;
        }
        images.push(image)?;
    }
    Ok(images)
}

/// Returns the images of these pages, each given by its encoded frames. The images are in the order of the pages, and
/// none of them is empty.
pub(crate) fn choose(
    alloc: Global,
    format: &Format,
    pages: Option<Vec<Vec<u8>>>,
) -> Result<Vec<Image>, AllocError>
    ensures frames { IfOk result
        (λ images. frames_in images.items ≡ flat_map (image_in format.now) (held pages)) }
    ensures some { IfOk result (λ images. AllByRecursion (λ image. image ≢ []) images.items) }
{
    match pages {
        Some(pages) => images_in(alloc, format, pages),
        None => Ok(Vec::new(alloc)),
    }
}
