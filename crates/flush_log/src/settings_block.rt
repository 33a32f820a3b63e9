//! The settings block at the beginning of a disk.
ghost use Rattle.std.specs.Prelude.{◌≡◌, length, None};
ghost use Rattle.keys.specs.Limits.{first_bad_field};
ghost use Rattle.flush_log.specs.SettingsBlock.{settings_block_size, settings_block, settings_in, read_settings};

use byteorder::{BigEndian, ByteOrder};
use keys::Settings;

/// Encodes the settings block.
pub fn settings_block(settings: &Settings) -> [u8; 64]
    requires { first_bad_field settings.now ≡ None }
    ensures { result ≡ settings_block settings.now }
{
    let mut bytes = [0; 64];
    bytes[0..8].copy_from_slice(b"BWBATCH1");
    BigEndian::write_uint(&mut bytes[8..10], u64::from(settings.fan), 2);
    BigEndian::write_uint(&mut bytes[10..12], u64::from(settings.chain), 2);
    BigEndian::write_uint(&mut bytes[12..14], u64::from(settings.max_key), 2);
    BigEndian::write_uint(&mut bytes[14..16], u64::from(settings.max_value), 2);
    BigEndian::write_u32(&mut bytes[16..20], settings.seg_size);
    BigEndian::write_u32(&mut bytes[20..24], settings.segments);
    bytes
}

// The numbers of the block as settings, unchecked.
fn settings_in(bytes: &[u8]) -> Settings
    requires { length bytes.now ≡ settings_block_size }
    ensures { result ≡ settings_in bytes.now }
{
    Settings {
        fan: u32::from(BigEndian::read_u16(&bytes[8..10])),
        chain: u32::from(BigEndian::read_u16(&bytes[10..12])),
        max_key: u32::from(BigEndian::read_u16(&bytes[12..14])),
        max_value: u32::from(BigEndian::read_u16(&bytes[14..16])),
        seg_size: BigEndian::read_u32(&bytes[16..20]),
        segments: BigEndian::read_u32(&bytes[20..24]),
    }
}

/// Decodes the settings block. Returns `None` if the bytes are not the block of valid settings.
pub fn read_settings(bytes: &[u8]) -> Option<Settings>
    ensures { result ≡ read_settings bytes.now }
{
    if bytes.len() != 64 {
        return None;
    }
    let settings = settings_in(bytes);
    if settings.check().is_ok() && settings_block(&settings).as_slice() == bytes {
        Some(settings)
    } else {
        None
    }
}
