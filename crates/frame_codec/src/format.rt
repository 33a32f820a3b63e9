//! The format of a log: what a reader must know besides its bytes, and how keys are encoded.
ghost use Rattle.std.specs.Prelude.{◌≡◌};
ghost use Rattle.frame_codec.specs.Frame.{is_known};

use keys::{Settings, Version};

/// The encoding of a base's keys in a frame.
#[derive(Clone, Copy, Debug, PartialEq, Eq)]
pub enum KeyEncoding {
    /// Each key is stored whole.
    Whole,
    /// Prefix compression: each key is stored without the prefix that it shares with the key before it, the first key
    /// without the prefix that it shares with the low key.
    PrefixCompressed,
}

/// What a reader of a log's frames must know besides their bytes.
#[derive(Clone, Copy, Debug, PartialEq, Eq)]
pub struct Format {
    /// The settings of the store.
    pub settings: Settings,
    /// The version of the log.
    pub version: Version,
}

impl Format {
    /// Returns whether a log of this format may contain a base with this key encoding.
    pub fn knows(&self, encoding: KeyEncoding) -> bool
        ensures { result ≡ is_known self.now.version encoding }
    {
        match (self.version, encoding) {
            (Version::One, KeyEncoding::PrefixCompressed) => false,
            _ => true,
        }
    }
}
