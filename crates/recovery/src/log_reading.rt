//! Reads a log: reads its segments from the head to the tail, several at a time, and gathers their frames by page.
ghost use Rattle.std.specs.Prelude.{◌≡◌, ◌⊎◌, ℕ, ◌+◌, ◌-◌, ◌*◌, ◌^◌, ◌<◌, ◌≤◌, [], List, map, length, take, None, Ok, Err, MatchResult, IfOk, IfErr, OnOk};
ghost use Rattle.std.specs.List.{All};
ghost use Rattle.keys.specs.Bytes.{Bytes};
ghost use Rattle.keys.specs.Limits.{first_bad_field};
ghost use Rattle.flush_log.specs.Ends.{AreEnds};
ghost use Rattle.flush_log.specs.Reading.{Found, read_earlier as earlier_segments, log_between};
ghost use Rattle.flush_log.specs.Segments.{segments_begin, disk_size, last_segment, bytes_in_use};
ghost use Rattle.recovery.specs.Gathered.{AreGathered, IsPartialLog};
ghost use Rattle.recovery.specs.Recovered.{IsReadOf, IsLate, OnlyReads};
ghost use Rattle.recovery.specs.Scan.{held_segment, scanned_after};
ghost use Rattle.recovery.specs.declared.gather.Wanted as declared;

use crate::gather::{Gathering, Wanted};
use crate::partial_log::PartialLog;
use crate::read_bytes::read;
use crate::scan_segment::{End, Segment};
use crew::Crew;
use flush_log::{Disk, LogEnds, last_segment, place_of_segment};
use frame_codec::Format;
use keys::Fault;
use std::alloc::Global;
use std::thread::Threads;

// How many bytes are read before the crew scans them: whole segments; the longest allowed segment is a quarter of this.
// The number does not depend on the crew, so that a reading needs the same memory and makes the same disk calls for
// every crew.
const BYTES_AT_ONCE: u64 = 4_194_304;

// The number of bytes in use of the last segment.
fn bytes_in_use(format: &Format, ends: &LogEnds) -> usize
    requires checked { first_bad_field format.now.settings ≡ None }
    requires ends { AreEnds format.now.settings ends.now }
    ensures same { result ≡ bytes_in_use format.now.settings ends.now.tail }
    ensures within { result ≤ format.now.settings.seg_size }
{
    let last = last_segment(&format.settings, ends.tail);
    (ends.tail - last * u64::from(format.settings.seg_size)) as usize
}

// How many segments are read before the crew scans them: as many as fit, but at most those before the last segment, and
// at least one.
fn segments_at_once(format: &Format, ends: &LogEnds) -> usize
    requires checked { first_bad_field format.now.settings ≡ None }
    requires ends { AreEnds format.now.settings ends.now }
    ensures some { 0 < result }
    ensures bounded { result * format.now.settings.seg_size ≤ 4194304 }
{
    let earlier = last_segment(&format.settings, ends.tail) - ends.head;
    let most = BYTES_AT_ONCE / u64::from(format.settings.seg_size);
    most.min(earlier.max(1)) as usize
}

// Reads `count` segments from `first` on; the last segment of the log must not be among them. The buffer has room for
// exactly these.
fn read_whole<'b, D: Disk>(
    alloc: Global,
    disk: &mut D,
    format: &Format,
    first: u64,
    count: usize,
    buf: &'b mut [u8],
) -> Result<Vec<Segment<'b>>, Fault>
    requires checked { first_bad_field format.now.settings ≡ None }
    requires within { disk_size format.now.settings ≤ (D.view disk.old).size }
    requires numbers { first + count < 2 ^ 64 }
    requires whole { length buf.old ≡ count * format.now.settings.seg_size }
    ensures read { (file : Bytes) (head : ℕ) → IsReadOf (D.view disk.old) file → head ≤ first →
        first + count ≤ head + format.now.settings.segments →
        (now : Bytes) × IsReadOf (D.view disk.new) now
        × (take segments_begin now ≡ take segments_begin file)
        × IfOk result (λ segments. scanned_after format.now
        (earlier_segments format.now file head (first - head)) (map held_segment segments.items)
        ≡ earlier_segments format.now now head (first + count - head)) }
    ensures short { IfOk result
        (λ segments. All (λ g. length (held_segment g).bytes < 2 ^ 32) segments.items) }
    ensures err { IfErr result (IsLate (D.failed disk.old) (D.failed disk.new)) }
    ensures only_reads { OnlyReads D.view D.failed disk.old disk.new result }
{
    let mut segments = Vec::with_capacity(alloc, count)?;
    let mut rest = buf;
    for number in first..first + count as u64 {
        let (bytes, following) = rest.split_at_mut(format.settings.seg_size as usize);
        read(disk, place_of_segment(&format.settings, number), bytes)?;
        segments.push_reserved(Segment {
            number,
            end: End::Padding,
            bytes,
        });
        rest = following;
    }
    Ok(segments)
}

// Reads the used part of the last segment. The buffer has room for a segment.
fn read_last<'b, D: Disk>(
    alloc: Global,
    disk: &mut D,
    format: &Format,
    ends: &LogEnds,
    buf: &'b mut [u8],
) -> Result<Vec<Segment<'b>>, Fault>
    requires checked { first_bad_field format.now.settings ≡ None }
    requires within { disk_size format.now.settings ≤ (D.view disk.old).size }
    requires ends { AreEnds format.now.settings ends.now }
    requires room { format.now.settings.seg_size ≤ length buf.old }
    ensures read { (file : Bytes) → IsReadOf (D.view disk.old) file →
        (now : Bytes) × IsReadOf (D.view disk.new) now
        × (take segments_begin now ≡ take segments_begin file)
        × IfOk result (λ segments. scanned_after format.now (earlier_segments format.now file
        ends.now.head (last_segment format.now.settings ends.now.tail - ends.now.head))
        (map held_segment segments.items)
        ≡ log_between format.now now ends.now.head ends.now.tail) }
    ensures short { IfOk result
        (λ segments. All (λ g. length (held_segment g).bytes < 2 ^ 32) segments.items) }
    ensures err { IfErr result (IsLate (D.failed disk.old) (D.failed disk.new)) }
    ensures only_reads { OnlyReads D.view D.failed disk.old disk.new result }
{
    let number = last_segment(&format.settings, ends.tail);
    let bytes = &mut buf[..bytes_in_use(format, ends)];
    let mut segments = Vec::with_capacity(alloc, 1)?;
    read(disk, place_of_segment(&format.settings, number), bytes)?;
    segments.push_reserved(Segment {
        number,
        end: End::Tail,
        bytes,
    });
    Ok(segments)
}

// Reads all segments before the last one, at a time as many as the buffer has room for.
fn read_earlier<D: Disk>(
    rt: &(impl Threads + Sync),
    crew: Crew,
    disk: &mut D,
    format: &Format,
    ends: &LogEnds,
    buffer: &mut Vec<u8>,
    so_far: &mut PartialLog,
) -> Result<(), Fault>
    requires checked { first_bad_field format.now.settings ≡ None }
    requires within { disk_size format.now.settings ≤ (D.view disk.old).size }
    requires ends { AreEnds format.now.settings ends.now }
    requires room { format.now.settings.seg_size ≤ length buffer.old.items }
    ensures read { (w : declared.Wanted) (file : Bytes) → IsReadOf (D.view disk.old) file →
        IsPartialLog w so_far.old.gathering so_far.old.fault (Ok []) →
        (now : Bytes) × IsReadOf (D.view disk.new) now
        × (take segments_begin now ≡ take segments_begin file)
        × OnOk result (IsPartialLog w so_far.new.gathering so_far.new.fault (earlier_segments format.now
        now ends.now.head (last_segment format.now.settings ends.now.tail - ends.now.head))) }
    ensures room { length buffer.new.items ≡ length buffer.old.items }
    ensures err { IfErr result (IsLate (D.failed disk.old) (D.failed disk.new)) }
    ensures only_reads { OnlyReads D.view D.failed disk.old disk.new result }
{
    let alloc = *buffer.allocator();
    let size = format.settings.seg_size as usize;
    let at_once = (buffer.len() / size) as u64;
    let last = last_segment(&format.settings, ends.tail);
    let mut first = ends.head;
    while first < last {
        let count = at_once.min(last - first) as usize;
        let buf = &mut buffer[..count * size];
        let segments = read_whole(alloc, disk, format, first, count, buf)?;
        so_far.take(rt, crew, format, segments)?;
        first += count as u64;
    }
    Ok(())
}

// Reads the log as `read_log` does. The buffer has room for at least one segment.
fn read_segments<D: Disk>(
    rt: &(impl Threads + Sync),
    crew: Crew,
    disk: &mut D,
    format: &Format,
    ends: &LogEnds,
    buffer: &mut Vec<u8>,
    so_far: &mut PartialLog,
) -> Result<(), Fault>
    requires checked { first_bad_field format.now.settings ≡ None }
    requires within { disk_size format.now.settings ≤ (D.view disk.old).size }
    requires ends { AreEnds format.now.settings ends.now }
    requires room { format.now.settings.seg_size ≤ length buffer.old.items }
    ensures read { (w : declared.Wanted) (file : Bytes) → IsReadOf (D.view disk.old) file →
        IsPartialLog w so_far.old.gathering so_far.old.fault (Ok []) →
        (now : Bytes) × IsReadOf (D.view disk.new) now
        × (take segments_begin now ≡ take segments_begin file)
        × OnOk result (IsPartialLog w so_far.new.gathering so_far.new.fault
        (log_between format.now now ends.now.head ends.now.tail)) }
    ensures err { IfErr result (IsLate (D.failed disk.old) (D.failed disk.new)) }
    ensures only_reads { OnlyReads D.view D.failed disk.old disk.new result }
{
    let alloc = *buffer.allocator();
    read_earlier(rt, crew, disk, format, ends, buffer, so_far)?;
    let segments = read_last(alloc, disk, format, ends, buffer)?;
    so_far.take(rt, crew, format, segments)
}

/// Reads the log between its ends, and gathers its frames by page: the state of each page, and the bytes of the wanted
/// frames. The crew scans the segments. Does not write to the disk.
///
/// Fails with the fault at the least position of the log, `Fault::BadSegment` or `Fault::BadFrame`; with
/// `Fault::NoMemory`; or with `Fault::Device` if a read fails. All segments are read, also those after a segment with a
/// fault, so `Fault::Device` may come instead of that fault. Besides the gathered frames it needs memory for at most 4
/// MiB of segments at a time, whatever the crew, and for the places of their frames.
pub fn read_log<D: Disk>(
    rt: &(impl Threads + Sync),
    crew: Crew,
    alloc: Global,
    disk: &mut D,
    format: &Format,
    ends: &LogEnds,
    wanted: Wanted,
) -> Result<Gathering, Fault>
    requires checked { first_bad_field format.now.settings ≡ None }
    requires within { disk_size format.now.settings ≤ (D.view disk.old).size }
    requires ends { AreEnds format.now.settings ends.now }
    // For the bytes that were read, which before the segments are the same as earlier, and on an honest disk are its
    // contents.
    ensures read { (file : Bytes) → IsReadOf (D.view disk.old) file →
        (now : Bytes) × IsReadOf (D.view disk.new) now
        × (take segments_begin now ≡ take segments_begin file)
        × MatchResult result
        (λ g. (found : List Found) ×
        (log_between format.now now ends.now.head ends.now.tail ≡ Ok found)
        × AreGathered format.now wanted g found)
        (λ fault. (log_between format.now now ends.now.head ends.now.tail ≡ Err fault)
        ⊎ IsLate (D.failed disk.old) (D.failed disk.new) fault) }
    ensures only_reads { OnlyReads D.view D.failed disk.old disk.new result }
{
    let mut so_far = PartialLog::new(alloc, wanted);
    let at_once = segments_at_once(format, ends);
    let mut buffer = Vec::new(alloc);
    buffer.resize(at_once * format.settings.seg_size as usize, 0)?;
    read_segments(rt, crew, disk, format, ends, &mut buffer, &mut so_far)?;
    so_far.into_gathering()
}
