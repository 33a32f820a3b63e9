//! The two slots of a disk: their encoding and decoding, and which of the two is the store's.
ghost use Rattle.std.specs.Prelude.{◌≡◌, ℕ, ◌*◌, ◌+◌, ◌%◌, ◌^◌, ◌<◌, ◌≤◌, ◌&&◌, ◌==◌, nat_lt, nat_le, length, take, drop, None};
ghost use Rattle.keys.specs.Bytes.{Bytes};
ghost use Rattle.keys.specs.Limits.{is_in_limits, first_bad_field};
ghost use Rattle.keys.specs.Sizes.{segment_header_size};
ghost use Rattle.mapping.specs.Tree.{most_levels};
ghost use Rattle.flush_log.specs.Segments.{last_segment};
ghost use Rattle.flush_log.specs.Slot.{greatest, slot_size, slot_place, version_number, version_in, slot_bytes, slot_in, is_tail, is_slot, read_slot, newer};

use crate::segments::{SEGMENT_HEADER_SIZE, last_segment};
use byteorder::{BigEndian, ByteOrder};
use keys::{Fault, Pid, Settings, Version};
use std::marker::Model;

/// The greatest position of a log, and the greatest sequence number.
pub const GREATEST: u64 = 1 << 62;

/// The size of a slot in bytes.
pub const SLOT_SIZE: usize = 64;

/// Where a log begins and ends, and its number of commits.
#[derive(Clone, Copy, Debug, PartialEq, Eq)]
pub struct LogEnds {
    /// The number of commits of the store, the creation included.
    pub sequence: u64,
    /// The number of the log's first segment.
    pub head: u64,
    /// The position in bytes at which the log ends.
    pub tail: u64,
}

/// The fields of a slot. Contracts see it as the definitions' slot.
#[derive(Clone, Copy, Debug, PartialEq, Eq)]
pub struct Slot {
    /// Where the log begins and ends.
    pub ends: LogEnds,
    /// The page id of the root.
    pub root: Pid,
    /// The number of levels of the tree.
    pub height: u32,
    /// The version of the log.
    pub version: Version,
}

impl Model for Slot {
    ghost use Rattle.flush_log.specs.Slot.{Slot as SlotSaid};

    ghost Value = { SlotSaid };

    ghost view = { λ t. record {
      sequence = t.ends.sequence;
      head = t.ends.head;
      tail = t.ends.tail;
      root = t.root;
      height = t.height;
      version = t.version;
    } };

    ghost inverse = { λ t. record {
      ends = record { sequence = t.sequence; head = t.head; tail = t.tail };
      root = t.root;
      height = t.height;
      version = t.version;
    } };
}

fn version_number(version: Version) -> u32
    ensures { result ≡ version_number version }
{
    match version {
        Version::One => 0,
        Version::Two => 2,
    }
}

// The version that is encoded as `number`: 0 or 2. Any other number is decoded as the first version, which is not
// encoded as that number.
fn version_in(number: u32) -> Version
    ensures { result ≡ version_in number }
{
    if number == 2 {
        Version::Two
    } else {
        Version::One
    }
}

/// Encodes the slot with an open gate.
pub fn slot_bytes(slot: &Slot) -> [u8; SLOT_SIZE]
    ensures { result ≡ slot_bytes slot.now }
{
    let mut bytes = [0; SLOT_SIZE];
    bytes[0] = 1;
    BigEndian::write_u64(&mut bytes[8..16], slot.ends.sequence);
    BigEndian::write_u64(&mut bytes[16..24], slot.ends.head);
    BigEndian::write_u64(&mut bytes[24..32], slot.ends.tail);
    BigEndian::write_u64(&mut bytes[32..40], slot.root.0);
    BigEndian::write_u32(&mut bytes[40..44], slot.height);
    BigEndian::write_u32(&mut bytes[44..48], version_number(slot.version));
    bytes
}

/// Decodes the fields of a slot unchecked; `read_slot` checks that they are valid.
pub fn slot_in(bytes: &[u8]) -> Slot
    requires { length bytes.now ≡ slot_size }
    ensures said { result ≡ slot_in bytes.now }
    ensures root { result.root < 2 ^ 64 }
{
    Slot {
        ends: LogEnds {
            sequence: BigEndian::read_u64(&bytes[8..16]),
            head: BigEndian::read_u64(&bytes[16..24]),
            tail: BigEndian::read_u64(&bytes[24..32]),
        },
        root: Pid(BigEndian::read_u64(&bytes[32..40])),
        height: BigEndian::read_u32(&bytes[40..44]),
        version: version_in(BigEndian::read_u32(&bytes[44..48])),
    }
}

// Whether the tail is after the head segment's header. `head` is unchecked, and `head * seg_size` could overflow, so
// this divides.
fn is_past_header(settings: &Settings, head: u64, tail: u64) -> bool
    requires { first_bad_field settings.now ≡ None }
    ensures { result ≡ nat_lt (head * settings.now.seg_size + segment_header_size) tail }
{
    SEGMENT_HEADER_SIZE < tail
        && head <= (tail - (SEGMENT_HEADER_SIZE + 1)) / u64::from(settings.seg_size)
}

// Whether a log may end at this position: at the end of a segment, or after a byte of a frame.
fn is_tail(settings: &Settings, tail: u64) -> bool
    requires { first_bad_field settings.now ≡ None }
    ensures { result ≡ is_tail settings.now tail }
{
    let offset = tail % u64::from(settings.seg_size);
    offset == 0 || SEGMENT_HEADER_SIZE < offset
}

// Whether the last segment in use is less than `segments` segments after the head.
fn is_in_segments(settings: &Settings, head: u64, tail: u64) -> bool
    requires checked { first_bad_field settings.now ≡ None }
    requires following { head * settings.now.seg_size + segment_header_size < tail }
    requires tail { tail ≤ greatest }
    ensures { result ≡ nat_lt (last_segment settings.now tail) (head + settings.now.segments) }
{
    last_segment(settings, tail) < head + u64::from(settings.segments)
}

// Whether a log may extend from this head to this tail.
fn is_log(settings: &Settings, head: u64, tail: u64) -> bool
    requires { first_bad_field settings.now ≡ None }
    ensures { result ≡ (nat_lt (head * settings.now.seg_size + segment_header_size) tail
        && nat_le tail greatest && is_tail settings.now tail
        && nat_lt (last_segment settings.now tail) (head + settings.now.segments)) }
{
    is_past_header(settings, head, tail)
        && tail <= GREATEST
        && is_tail(settings, tail)
        && is_in_segments(settings, head, tail)
}

fn is_sequence(n: u64, sequence: u64) -> bool
    ensures { result ≡ (is_in_limits 1 greatest sequence && sequence % 2 == n % 2) }
{
    1 <= sequence && sequence <= GREATEST && sequence % 2 == n % 2
}

fn is_height(height: u32) -> bool
    ensures { result ≡ is_in_limits 1 most_levels height }
{
    1 <= height && height <= 64
}

// Whether a store with these settings may have this as slot `n`.
fn is_slot(settings: &Settings, n: u64, slot: &Slot) -> bool
    requires checked { first_bad_field settings.now ≡ None }
    requires root { slot.now.root < 2 ^ 64 }
    ensures { result ≡ is_slot settings.now n slot.now }
{
    is_sequence(n, slot.ends.sequence)
        && is_log(settings, slot.ends.head, slot.ends.tail)
        && is_height(slot.height)
}

/// Decodes slot `n` from its 64 bytes. Returns `None` if its gate is closed, and fails with `Fault::NoSlot` if it is
/// open and malformed.
pub fn read_slot(settings: &Settings, n: u64, bytes: &[u8]) -> Result<Option<Slot>, Fault>
    requires checked { first_bad_field settings.now ≡ None }
    requires length { length bytes.now ≡ slot_size }
    ensures { (disk : Bytes) → take slot_size (drop (slot_place n) disk) ≡ bytes.now →
        result ≡ read_slot settings.now n disk }
{
    if bytes[0] != 1 {
        return Ok(None);
    }
    let slot = slot_in(bytes);
    if slot_bytes(&slot).as_slice() == bytes && is_slot(settings, n, &slot) {
        Ok(Some(slot))
    } else {
        Err(Fault::NoSlot)
    }
}

/// Returns the slot with the greater sequence number. Fails with the first fault of the two, and with `Fault::NoSlot`
/// if no slot is open.
pub fn newer(
    first: Result<Option<Slot>, Fault>,
    second: Result<Option<Slot>, Fault>,
) -> Result<Slot, Fault>
    ensures { result ≡ newer first second }
{
    match (first?, second?) {
        (Some(one), Some(other)) if one.ends.sequence < other.ends.sequence => Ok(other),
        (Some(one), _) => Ok(one),
        (None, Some(other)) => Ok(other),
        (None, None) => Err(Fault::NoSlot),
    }
}
