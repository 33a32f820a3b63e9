//! Scans a segment: finds the frames in its bytes, or its first fault. Frames are not decoded yet, because a decoded
//! frame can take many times its encoded size, and most frames are obsolete when the log has been read.
ghost use Rattle.std.specs.Prelude.{◌≡◌, ◌⊎◌, ◌^◌, ◌<◌, ◌==◌, map, length, Ok, Err, IfOk, IfErr};
ghost use Rattle.std.specs.List.{list_all};
ghost use Rattle.keys.specs.declared.fault.Fault.TheVariants.{NoMemory};
ghost use Rattle.recovery.specs.Scan.{is_end_at, held_segment, scanned, held_frame, said_of};

use crew::{Turn, Work};
use flush_log::segment_header;
use frame_codec::{Format, FrameKind, skim_frame};
use keys::Fault;
use std::alloc::Global;
use std::marker::PhantomData;

/// Where the frames of a segment end.
#[derive(Clone, Copy)]
pub enum End {
    /// At the end of the bytes: this is the last segment, with the bytes up to the tail.
    Tail,
    /// Where only zeros remain, or nothing: another segment follows.
    Padding,
}

/// A segment in use.
#[derive(Clone, Copy)]
pub struct Segment<'a> {
    /// Its number.
    pub number: u64,
    /// Where its frames end.
    pub end: End,
    /// Its bytes.
    pub bytes: &'a [u8],
}

/// A frame of a segment, not decoded yet.
#[derive(Clone, Copy)]
pub struct ScannedFrame<'a> {
    /// The number of its page id.
    pub pid: u64,
    /// What kind of frame it is.
    pub kind: FrameKind,
    /// The encoded frame, borrowed from the segment.
    pub bytes: &'a [u8],
}

fn are_zeros(bytes: &[u8]) -> bool
    ensures { result ≡ list_all (λ b. b == 0) bytes.now }
{
    bytes.iter().all(|byte| *byte == 0)
}

/// Returns whether the frames end before these bytes.
pub fn is_end(end: End, rest: &[u8]) -> bool
    ensures { result ≡ is_end_at end rest.now }
{
    match end {
        End::Tail => rest.is_empty(),
        End::Padding => are_zeros(rest),
    }
}

/// Returns the frames of a segment: those after its header, up to their end. The bytes may be arbitrary.
///
/// Fails with `Fault::BadSegment` if the bytes do not begin with the segment's header, and with `Fault::BadFrame` and
/// the first offset at which there is neither a frame nor the end of the frames. Any other failure is
/// `Fault::NoMemory`.
pub fn scan_segment<'a>(
    alloc: Global,
    format: &Format,
    segment: Segment<'a>,
) -> Result<Vec<ScannedFrame<'a>>, Fault>
    requires { length (held_segment segment).bytes < 2 ^ 32 }
    ensures ok { IfOk result (λ frames. said_of (scanned format.now (held_segment segment.entry))
        ≡ Ok (map (held_frame segment.entry.number) frames.items)) }
    ensures err { IfErr result (λ fault. (fault ≡ NoMemory)
        ⊎ (scanned format.now (held_segment segment.entry) ≡ Err fault)) }
{
    let Segment { number, end, bytes } = segment;
    let header = segment_header(number);
    if !bytes.starts_with(&header) {
        return Err(Fault::BadSegment(number));
    }
    let mut frames = Vec::new(alloc);
    let mut rest = &bytes[header.len()..];
    while !is_end(end, rest) {
        let Some(skimmed) = skim_frame(rest, format) else {
            return Err(Fault::BadFrame(number, (bytes.len() - rest.len()) as u32));
        };
        let size = skimmed.size;
        let frame = ScannedFrame {
            pid: skimmed.pid.0,
            kind: skimmed.kind,
            bytes: &rest[..size],
        };
        frames.push(frame)?;
        rest = &rest[size..];
    }
    Ok(frames)
}

/// The work of scanning segments. The input is a segment with borrowed bytes; the output is its frames or its first
/// fault.
#[derive(Drop)]
pub struct ScanWork<'a> {
    alloc: Global,
    format: Format,
    lent: PhantomData<&'a [u8]>,
}

/// The result of a scan, with the segment.
#[derive(Drop)]
pub struct ScanDone<'a> {
    /// The segment.
    pub segment: Segment<'a>,
    /// Its frames, or its first fault.
    pub scan: Result<Vec<ScannedFrame<'a>>, Fault>,
}

impl<'a> ScanWork<'a> {
    /// Makes the work with this allocator, for segments of a log of this format.
    pub fn new(alloc: Global, format: &Format) -> Self
        ensures { result.format ≡ format.now }
    {
        ScanWork {
            alloc,
            format: *format,
            lent: PhantomData,
        }
    }
}

impl<'a> Work for ScanWork<'a> {
    ghost use Rattle.std.specs.Prelude.{◌^◌, ◌<◌, List, Result, length};
    ghost use Rattle.keys.specs.declared.fault.Fault.{Fault};
    ghost use Rattle.recovery.specs.Scan.{HeldSegment, HeldFrame, held_segment, scanned, said_of, said_by_scan};

    type Job = Segment<'a>;

    type Done = ScanDone<'a>;

    ghost Held = { HeldSegment };

    ghost Made = { Result (List HeldFrame) Fault };

    ghost accepts = { λ _ h. length h.bytes < 2 ^ 32 };

    ghost held = { held_segment };

    ghost origin = { λ d. held_segment d.segment };

    ghost outcome = { said_by_scan };

    ghost made = { λ w h. said_of (scanned w.format h) };

    fn work(&self, job: Segment<'a>) -> Turn<Segment<'a>, ScanDone<'a>> {
        match scan_segment(self.alloc, &self.format, job) {
            Ok(frames) => Turn::Done(ScanDone {
                segment: job,
                scan: Ok(frames),
            }),
            Err(Fault::NoMemory) => Turn::Back(job),
            Err(fault) => Turn::Done(ScanDone {
                segment: job,
                scan: Err(fault),
            }),
        }
    }

    fn undo(&self, done: ScanDone<'a>) -> Segment<'a> {
        done.segment
    }
}
