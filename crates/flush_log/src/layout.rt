//! How frames move the tail of a log, and when there is no room for them.
ghost use Rattle.std.specs.Prelude.{◌≡◌, ◌+◌, ◌≤◌, List, None, Some, nat_lt, if◌then◌else◌};
ghost use Rattle.keys.specs.Limits.{first_bad_field};
ghost use Rattle.keys.specs.Sizes.{segment_header_size};
ghost use Rattle.frame_codec.specs.Frame.{Frame};
ghost use Rattle.flush_log.specs.Images.{frames_in, AreOfText, FitSegments, from_tail, after_frame, after_frames, IsReached, unless_spent, admitted};
ghost use Rattle.flush_log.specs.AfterFlush.{is_spent};
ghost use Rattle.flush_log.specs.Layout.{tail_after, is_full_for_flush};
ghost use Rattle.flush_log.specs.Slot.{Slot, greatest};

use crate::image::Image;
use crate::segments::{SEGMENT_HEADER_SIZE, last_segment};
use crate::slot::GREATEST;
use keys::{Fault, Settings};
use std::marker::Model;

// The end of a log: the segment and the offset of the next frame if it fits there, both after the header of a new
// segment; and the position after the last frame.
#[derive(Clone, Copy)]
struct Reached {
    segment: u64,
    offset: u64,
    tail: u64,
}

impl Model for Reached {
    ghost use Rattle.flush_log.specs.Images.{Reached as ReachedEnd};

    ghost Value = { ReachedEnd };

    ghost view = { λ r. record { segment = r.segment; offset = r.offset; tail = r.tail } };

    ghost inverse = { λ r. record { segment = r.segment; offset = r.offset; tail = r.tail } };
}

// The end at which new frames are written.
fn from_tail(settings: &Settings, tail: u64) -> Reached
    requires { first_bad_field settings.now ≡ None }
    ensures { result ≡ from_tail settings.now tail }
{
    let seg_size = u64::from(settings.seg_size);
    let used = tail % seg_size;
    Reached {
        segment: tail / seg_size,
        offset: if used == 0 { SEGMENT_HEADER_SIZE } else { used },
        tail,
    }
}

fn after_frame(settings: &Settings, end: Reached, size: u64) -> Reached
    requires checked { first_bad_field settings.now ≡ None }
    requires fits { segment_header_size + size ≤ settings.now.seg_size }
    requires end { IsReached settings.now end }
    requires room { end.tail ≤ greatest }
    ensures { result ≡ after_frame settings.now end size }
{
    let seg_size = u64::from(settings.seg_size);
    let following = end.offset + size;
    let (segment, offset) = if following <= seg_size {
        (end.segment, following)
    } else {
        (end.segment + 1, SEGMENT_HEADER_SIZE + size)
    };
    Reached {
        segment,
        offset,
        tail: segment * seg_size + offset,
    }
}

// The end after the frames of an image, or `None` if it is above the greatest position.
fn after_image(settings: &Settings, end: Reached, image: &Image) -> Option<Reached>
    requires checked { first_bad_field settings.now ≡ None }
    requires fits { FitSegments settings.now image.now }
    requires end { IsReached settings.now end }
    requires room { end.tail ≤ greatest }
    ensures { result ≡ unless_spent (after_frames settings.now end image.now) }
{
    let mut reached = end;
    for at in 0..image.len() {
        reached = after_frame(settings, reached, image.frame(at).len() as u64);
        if reached.tail > GREATEST {
            return None;
        }
    }
    Some(reached)
}

// The tail after these images, or `None` if it is above the greatest position.
fn text_end(settings: &Settings, tail: u64, images: &[Image]) -> Option<u64>
    requires checked { first_bad_field settings.now ≡ None }
    requires fits { FitSegments settings.now (frames_in images.now) }
    requires room { tail ≤ greatest }
    ensures { (text : List Frame) → AreOfText images.now text →
        let after = tail_after settings.now tail text in
        result ≡ (if nat_lt greatest after then None else Some after) }
{
    let mut reached = from_tail(settings, tail);
    for image in images {
        reached = after_image(settings, reached, image)?;
    }
    Some(reached.tail)
}

// The tail of a commit with this number, or `None` if the number or the tail is above the greatest.
fn unspent_tail(settings: &Settings, sequence: u64, tail: u64, images: &[Image]) -> Option<u64>
    requires checked { first_bad_field settings.now ≡ None }
    requires fits { FitSegments settings.now (frames_in images.now) }
    requires room { tail ≤ greatest }
    ensures { (t : Slot) (text : List Frame) → AreOfText images.now text →
        t.sequence ≡ sequence → t.tail ≡ tail_after settings.now tail text →
        result ≡ (if is_spent t then None else Some t.tail) }
{
    if sequence > GREATEST {
        return None;
    }
    text_end(settings, tail, images)
}

/// Returns the tail of a commit that writes these images from `tail` on, has this sequence number, and lets the log
/// begin at segment `head`. Fails with `Fault::Spent` if the number or the tail is above the greatest, else with
/// `Fault::Full` if that log would leave no segment free. A clean frees the first segment, so it may write into all
/// segments that were free before.
pub(crate) fn tail_of_commit(
    settings: &Settings,
    sequence: u64,
    head: u64,
    tail: u64,
    images: &[Image],
) -> Result<u64, Fault>
    requires checked { first_bad_field settings.now ≡ None }
    requires fits { FitSegments settings.now (frames_in images.now) }
    requires head { head ≤ greatest }
    requires room { tail ≤ greatest }
    ensures { (t : Slot) (text : List Frame) → AreOfText images.now text →
        t.sequence ≡ sequence → t.head ≡ head → t.tail ≡ tail_after settings.now tail text →
        result ≡ admitted t (is_full_for_flush settings.now t.head t.tail) }
{
    match unspent_tail(settings, sequence, tail, images) {
        None => Err(Fault::Spent),
        Some(after) if is_full(settings, head, after) => Err(Fault::Full),
        Some(after) => Ok(after),
    }
}

// Whether a log from segment `head` to this position leaves no segment free.
fn is_full(settings: &Settings, head: u64, tail: u64) -> bool
    requires checked { first_bad_field settings.now ≡ None }
    requires head { head ≤ greatest }
    ensures { result ≡ is_full_for_flush settings.now head tail }
{
    head + u64::from(settings.segments) - 1 <= last_segment(settings, tail)
}
