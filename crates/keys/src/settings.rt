//! The settings of a store: their fields, the default, and the check of their limits.
ghost use Rattle.std.specs.Prelude.{◌≡◌, ◌+◌, ◌*◌, ◌≤◌, Ok, Err, None, if◌then◌else◌, IfOk, MatchOption};
ghost use Rattle.keys.specs.Limits.{is_in_limits, first_bad_field};
ghost use Rattle.keys.specs.LogSize.{room_of_pairs};

use crate::fault::Fault;
use std::fmt;

/// A field of the settings. It prints as its name.
#[derive(Clone, Copy, Debug, PartialEq, Eq)]
pub enum Field {
    Fan,
    Chain,
    MaxKey,
    MaxValue,
    SegSize,
    Segments,
}

impl fmt::Display for Field {
    ghost use Rattle.std.specs.Prelude.{Some};
    ghost use Rattle.keys.specs.Limits.{field_name};

    ghost output = { λ field. Some (field_name field) };

    fn fmt<W: fmt::Write>(&self, f: &mut fmt::Formatter<W>) -> fmt::Result {
        f.write_str(match self {
            Field::Fan => "fan",
            Field::Chain => "chain",
            Field::MaxKey => "max_key",
            Field::MaxValue => "max_value",
            Field::SegSize => "seg_size",
            Field::Segments => "segments",
        })
    }
}

/// The limits of a store, fixed when it is created.
#[derive(Clone, Copy, Debug, PartialEq, Eq)]
pub struct Settings {
    /// The number of entries of a page above which it is split: 4 to 64.
    pub fan: u32,
    /// The number of runs in front of a page's base before they are merged into it: 1 to 16.
    pub chain: u32,
    /// The greatest length of a key in bytes: 1 to 255.
    pub max_key: u32,
    /// The greatest length of a value in bytes: 0 to 1,024.
    pub max_value: u32,
    /// The size of a segment of the log in bytes: 256 to 1,048,576.
    pub seg_size: u32,
    /// The number of segments of the log: 3 to 65,536.
    pub segments: u32,
}

impl Default for Settings {
    ghost use Rattle.std.specs.Prelude.{◌≡◌};

    ghost is_default = { λ s. s ≡ record {
      fan = 16;
      chain = 4;
      max_key = 64;
      max_value = 256;
      seg_size = 65536;
      segments = 64;
    } };

    /// Returns the program's default settings: a log of 4 MiB, in 64 segments.
    fn default() -> Settings {
        Settings {
            fan: 16,
            chain: 4,
            max_key: 64,
            max_value: 256,
            seg_size: 65_536,
            segments: 64,
        }
    }
}

impl Settings {
    /// Checks the limits of the fields in their order, and then that the longest frame of a page fits into a segment.
    /// Returns `Fault::BadSettings` with the first field that is out of range, or with `seg_size` if a segment is too
    /// short for the longest frame.
    pub fn check(&self) -> Result<(), Fault>
        ensures { MatchOption (first_bad_field self.now) (result ≡ Ok tt)
            (λ field. result ≡ Err (Fault.BadSettings field)) }
    {
        within(Field::Fan, self.fan, 4, 64)?;
        within(Field::Chain, self.chain, 1, 16)?;
        within(Field::MaxKey, self.max_key, 1, 255)?;
        within(Field::MaxValue, self.max_value, 0, 1_024)?;
        within(Field::SegSize, self.seg_size, 256, 1_048_576)?;
        within(Field::Segments, self.segments, 3, 65_536)?;
        let cell = (2 + self.max_value).max(8);
        let longest = 16 + 17 + self.max_key + self.fan * (3 + self.max_key + cell);
        within(Field::SegSize, longest, 0, self.seg_size)
    }

    /// Returns the least size in bytes of a disk for a store with these settings.
    pub fn disk_size(&self) -> u64
        ensures { result ≡ 512 + self.now.segments * self.now.seg_size }
    {
        512 + u64::from(self.segments) * u64::from(self.seg_size)
    }

    /// Returns settings for a store of `pairs` pairs, with keys of at most `key` bytes and values of at most `value`
    /// bytes: pages of 32 entries, at most sixteen runs in a leaf, and a log with room for a base and sixteen runs of
    /// each leaf and for one more commit. These pages write the fewest bytes for small commits; fewer runs need a
    /// smaller log, and write more (`docs/OPERATING.md` compares the choices). A log of this size that is full has room
    /// again after its segments are cleaned, in whatever batches the pairs are put again. If the keys only move on, as
    /// in a queue, `pairs` must count all pairs that are ever put, unless `flush_cleaning`, `compact` or `tidy` removes
    /// the leaves that deletes have emptied: then twice the pairs that are there at any time are enough.
    ///
    /// Returns `Fault::BadSettings` if `key` or `value` is out of range, or (naming `segments`) if the pairs do not fit
    /// into 65,536 segments of 1 MiB.
    pub fn for_pairs(pairs: u32, key: u32, value: u32) -> Result<Settings, Fault>
        ensures good { IfOk result (λ settings. first_bad_field settings ≡ None) }
        ensures lengths { IfOk result
            (λ settings. (settings.max_key ≡ key) × (settings.max_value ≡ value)) }
        ensures room { IfOk result
            (λ settings. room_of_pairs pairs key value + 3 * settings.seg_size
            ≤ settings.segments * settings.seg_size) }
    {
        within(Field::MaxKey, key, 1, 255)?;
        within(Field::MaxValue, value, 0, 1_024)?;
        let room = room_of_pairs(pairs, key, value);
        let longest = 33 + key + 32 * (3 + key + (2 + value).max(8));
        let seg_size = (room / 16).min(1_048_576).max(u64::from(8 * longest));
        let segments = room / seg_size + 4;
        if segments > 65_536 {
            return Err(Fault::BadSettings(Field::Segments));
        }
        let settings = Settings {
            fan: 32,
            chain: 16,
            max_key: key,
            max_value: value,
            seg_size: seg_size as u32,
            segments: segments as u32,
        };
        settings.check()?;
        Ok(settings)
    }
}

fn room_of_pairs(pairs: u32, key: u32, value: u32) -> u64
    requires key { key ≤ 255 }
    requires value { value ≤ 1024 }
    ensures { result ≡ room_of_pairs pairs key value }
{
    let pairs = u64::from(pairs);
    let (key, value) = (u64::from(key), u64::from(value));
    21 * (pairs * (5 + key + value) + (pairs / 16 + 1) * (28 + 2 * key))
}

// Returns `BadSettings` with `field` if `number` is not from `least` to `greatest`.
fn within(field: Field, number: u32, least: u32, greatest: u32) -> Result<(), Fault>
    ensures { result
        ≡ (if is_in_limits least greatest number then Ok tt else Err (Fault.BadSettings field)) }
{
    if least <= number && number <= greatest {
        Ok(())
    } else {
        Err(Fault::BadSettings(field))
    }
}
