//! Writes frames after the tail of a log, with one write per segment.
ghost use Rattle.std.specs.Prelude.{◌≡◌, ◌+◌, ◌-◌, ◌/◌, ◌%◌, ◌≤◌, List, ◌∷◌, [], IsTrue, length, replicate, vec_len, vec_capacity, None, IfOk, OnOk};
ghost use Rattle.keys.specs.Limits.{first_bad_field};
ghost use Rattle.keys.specs.Sizes.{segment_header_size};
ghost use Rattle.frame_codec.specs.Appended.{HasRoomFor, IsAppended};
ghost use Rattle.frame_codec.specs.Frame.{Frame};
ghost use Rattle.flush_log.specs.Disk.{Kept, Leaves, CountsFailure};
ghost use Rattle.flush_log.specs.Overlay.{AgreeAt};
ghost use Rattle.flush_log.specs.Commit.{IsBesideSpans};
ghost use Rattle.flush_log.specs.Gathering.{left_by, open_after, span_of, IsInside};
ghost use Rattle.flush_log.specs.Images.{frames_in, AreOfText, FitSegments, HaveRoomAfter};
ghost use Rattle.flush_log.specs.Layout.{begun, opened, spans, with_spans};
ghost use Rattle.flush_log.specs.Segments.{disk_size};
ghost use Rattle.flush_log.specs.Slot.{greatest};

use crate::disk::{Disk, DiskFault};
use crate::image::Image;
use crate::segments::{place_of_segment, segment_header};
use keys::Settings;

// The place of the bytes that are collected but not yet written, which the buffer has: a segment, and the offset of the
// first byte.
#[derive(Clone, Copy)]
struct Part {
    segment: u64,
    from: usize,
}

fn put(buffer: &mut Vec<u8>, bytes: &[u8])
    requires { HasRoomFor buffer.old (length bytes.now) }
    ensures { IsAppended buffer.old buffer.new bytes.now }
{
    let _never_refused = buffer.extend_from_slice(bytes);
}

// Appends zeros, up to this length.
fn pad(buffer: &mut Vec<u8>, len: usize)
    requires rising { vec_len buffer.old ≤ len }
    requires within { len ≤ vec_capacity buffer.old }
    ensures { IsAppended buffer.old buffer.new (replicate (len - vec_len buffer.old) 0) }
{
    let _never_refused = buffer.resize(len, 0);
}

// Begins collecting the bytes of a new segment, with its header.
fn begin_segment(segment: u64, buffer: &mut Vec<u8>) -> Part
    requires { segment_header_size ≤ vec_capacity buffer.old }
    ensures same { span_of result buffer.new.items ≡ begun segment [] }
    ensures room { vec_capacity buffer.old ≤ vec_capacity buffer.new }
{
    buffer.clear();
    put(buffer, &segment_header(segment));
    Part { segment, from: 0 }
}

// Writes the collected bytes of a segment.
fn write_part<D: Disk>(
    disk: &mut D,
    settings: &Settings,
    part: Part,
    bytes: &[u8],
) -> Result<(), DiskFault>
    requires checked { first_bad_field settings.now ≡ None }
    requires inside { IsInside settings.now (span_of part bytes.now) }
    requires within { disk_size settings.now ≤ (D.view disk.old).size }
    ensures kept { Kept (D.view disk.old) (D.view disk.new) }
    ensures failed { CountsFailure result (D.failed disk.old) (D.failed disk.new) }
    ensures written { IsTrue (D.view disk.old).is_honest → OnOk result ((D.view disk.new).seen
        ≡ with_spans settings.now (D.view disk.old).seen (span_of part bytes.now ∷ [])) }
    ensures crash { IsTrue (D.view disk.old).is_honest → Leaves (D.view disk.old) (D.view disk.new)
        (AgreeAt (IsBesideSpans settings.now (span_of part bytes.now ∷ []))) }
{
    let at = place_of_segment(settings, part.segment) + part.from as u64;
    disk.write_at(at, bytes)
}

// Adds a frame to the collected bytes, if it fits into the segment. Otherwise fills the segment with zeros and writes
// it, and puts the frame after the header of the next segment.
fn put_frame<D: Disk>(
    disk: &mut D,
    settings: &Settings,
    part: Part,
    buffer: &mut Vec<u8>,
    frame: &[u8],
) -> Result<Part, DiskFault>
    requires checked { first_bad_field settings.now ≡ None }
    requires inside { IsInside settings.now (span_of part buffer.old.items) }
    requires buffer { settings.now.seg_size ≤ vec_capacity buffer.old }
    requires within { disk_size settings.now ≤ (D.view disk.old).size }
    requires fits { segment_header_size + length frame.now ≤ settings.now.seg_size }
    requires room { (open_after settings.now (span_of part buffer.old.items) (frame.now ∷ [])).segment
        ≤ greatest }
    ensures inside { IfOk result (λ next. IsInside settings.now (span_of next buffer.new.items)) }
    ensures buffer { settings.now.seg_size ≤ vec_capacity buffer.new }
    ensures same { IfOk result (λ next. span_of next buffer.new.items
        ≡ open_after settings.now (span_of part buffer.old.items) (frame.now ∷ [])) }
    ensures kept { Kept (D.view disk.old) (D.view disk.new) }
    ensures failed { CountsFailure result (D.failed disk.old) (D.failed disk.new) }
    ensures written { IsTrue (D.view disk.old).is_honest →
        OnOk result ((D.view disk.new).seen
        ≡ with_spans settings.now (D.view disk.old).seen
        (left_by settings.now (span_of part buffer.old.items) (frame.now ∷ []))) }
    ensures crash { IsTrue (D.view disk.old).is_honest →
        Leaves (D.view disk.old) (D.view disk.new) (AgreeAt (IsBesideSpans settings.now
        (left_by settings.now (span_of part buffer.old.items) (frame.now ∷ [])))) }
{
    let seg_size = settings.seg_size as usize;
    let end = part.from + buffer.len() + frame.len();
    if end <= seg_size {
        put(buffer, frame);
        return Ok(part);
    }
    pad(buffer, seg_size - part.from);
    write_part(disk, settings, part, buffer)?;
    let next = begin_segment(part.segment + 1, buffer);
    put(buffer, frame);
    Ok(next)
}

// Adds the frames of an image, each as `put_frame` does.
fn put_image<D: Disk>(
    disk: &mut D,
    settings: &Settings,
    part: Part,
    buffer: &mut Vec<u8>,
    image: &Image,
) -> Result<Part, DiskFault>
    requires checked { first_bad_field settings.now ≡ None }
    requires inside { IsInside settings.now (span_of part buffer.old.items) }
    requires buffer { settings.now.seg_size ≤ vec_capacity buffer.old }
    requires within { disk_size settings.now ≤ (D.view disk.old).size }
    requires fits { FitSegments settings.now image.now }
    requires room { (open_after settings.now (span_of part buffer.old.items) image.now).segment
        ≤ greatest }
    ensures inside { IfOk result (λ next. IsInside settings.now (span_of next buffer.new.items)) }
    ensures buffer { settings.now.seg_size ≤ vec_capacity buffer.new }
    ensures same { IfOk result (λ next. span_of next buffer.new.items
        ≡ open_after settings.now (span_of part buffer.old.items) image.now) }
    ensures kept { Kept (D.view disk.old) (D.view disk.new) }
    ensures failed { CountsFailure result (D.failed disk.old) (D.failed disk.new) }
    ensures written { IsTrue (D.view disk.old).is_honest →
        OnOk result ((D.view disk.new).seen
        ≡ with_spans settings.now (D.view disk.old).seen
        (left_by settings.now (span_of part buffer.old.items) image.now)) }
    ensures crash { IsTrue (D.view disk.old).is_honest →
        Leaves (D.view disk.old) (D.view disk.new) (AgreeAt
        (IsBesideSpans settings.now (left_by settings.now (span_of part buffer.old.items) image.now))) }
{
    let mut gathered = part;
    for at in 0..image.len() {
        gathered = put_frame(disk, settings, gathered, buffer, image.frame(at))?;
    }
    Ok(gathered)
}

// Begins collecting bytes from this tail on: with a segment's header, if the segment is new.
fn begin_part(settings: &Settings, tail: u64, buffer: &mut Vec<u8>) -> Part
    requires checked { first_bad_field settings.now ≡ None }
    requires buffer { settings.now.seg_size ≤ vec_capacity buffer.old }
    ensures inside { IsInside settings.now (span_of result buffer.new.items) }
    ensures buffer { settings.now.seg_size ≤ vec_capacity buffer.new }
    ensures same { span_of result buffer.new.items
        ≡ opened (tail / settings.now.seg_size) (tail % settings.now.seg_size) }
{
    let seg_size = u64::from(settings.seg_size);
    let segment = tail / seg_size;
    let used = (tail % seg_size) as usize;
    if used > 0 {
        buffer.clear();
        return Part {
            segment,
            from: used,
        };
    }
    begin_segment(segment, buffer)
}

/// Writes frames after the tail, with one call for each segment: the header of a new segment, the frames, and zeros up
/// to the end of a segment that is full. `buffer` collects the bytes of a segment, and has capacity for them, so the
/// call does not allocate; the buffer's old contents are dropped. After a failed call no further call is made.
///
/// A crash during the calls leaves the old contents, except for any bytes in the ranges that are written.
pub fn write_frames<D: Disk>(
    disk: &mut D,
    settings: &Settings,
    tail: u64,
    images: &[Image],
    buffer: &mut Vec<u8>,
) -> Result<(), DiskFault>
    requires checked { first_bad_field settings.now ≡ None }
    requires within { disk_size settings.now ≤ (D.view disk.old).size }
    requires buffer { settings.now.seg_size ≤ vec_capacity buffer.old }
    requires fits { FitSegments settings.now (frames_in images.now) }
    requires room { HaveRoomAfter settings.now tail images.now }
    ensures kept { Kept (D.view disk.old) (D.view disk.new) }
    ensures failed { CountsFailure result (D.failed disk.old) (D.failed disk.new) }
    ensures written { (text : List Frame) → AreOfText images.now text → 1 ≤ length text →
        IsTrue (D.view disk.old).is_honest → OnOk result ((D.view disk.new).seen
        ≡ with_spans settings.now (D.view disk.old).seen (spans settings.now tail text)) }
    ensures crash { (text : List Frame) → AreOfText images.now text → 1 ≤ length text →
        IsTrue (D.view disk.old).is_honest → Leaves (D.view disk.old) (D.view disk.new)
        (AgreeAt (IsBesideSpans settings.now (spans settings.now tail text))) }
{
    let mut part = begin_part(settings, tail, buffer);
    for image in images {
        part = put_image(disk, settings, part, buffer, image)?;
    }
    write_part(disk, settings, part, buffer)
}
