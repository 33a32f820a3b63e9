//! The headers of segments, and their places on a disk.
ghost use Rattle.std.specs.Prelude.{◌≡◌, None};
ghost use Rattle.keys.specs.Limits.{first_bad_field};
ghost use Rattle.flush_log.specs.Segments.{segment_header, place_of_segment, disk_size, last_segment};

use byteorder::{BigEndian, ByteOrder};
use keys::Settings;

/// The size of a segment's header in bytes.
pub const SEGMENT_HEADER_SIZE: u64 = 16;

// The offset of the first segment on a disk.
const SEGMENTS_BEGIN: u64 = 512;

/// Returns the header of segment `number`.
pub fn segment_header(number: u64) -> [u8; 16]
    ensures { result ≡ segment_header number }
{
    let mut bytes = [0; 16];
    bytes[0..4].copy_from_slice(b"BWSG");
    BigEndian::write_u64(&mut bytes[8..16], number);
    bytes
}

/// Returns the offset of segment `number` on a disk.
pub fn place_of_segment(settings: &Settings, number: u64) -> u64
    requires { first_bad_field settings.now ≡ None }
    ensures { result ≡ place_of_segment settings.now number }
{
    SEGMENTS_BEGIN + number % u64::from(settings.segments) * u64::from(settings.seg_size)
}

/// Returns the least size of a disk in bytes.
pub fn disk_size(settings: &Settings) -> u64
    requires { first_bad_field settings.now ≡ None }
    ensures { result ≡ disk_size settings.now }
{
    SEGMENTS_BEGIN + u64::from(settings.segments) * u64::from(settings.seg_size)
}

/// Returns the last segment in use of a log that ends at this position.
pub fn last_segment(settings: &Settings, tail: u64) -> u64
    requires { first_bad_field settings.now ≡ None }
    ensures { result ≡ last_segment settings.now tail }
{
    tail.saturating_sub(1) / u64::from(settings.seg_size)
}
