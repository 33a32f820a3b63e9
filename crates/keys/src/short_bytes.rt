//! Up to 23 bytes, kept in place.
ghost use Rattle.std.specs.Prelude.{◌≡◌, ◌<◌, [], length, MatchOption};

use std::marker::Model;

// With the byte that counts them, 23 bytes take as much space as a list that stores its bytes elsewhere.
const ROOM: usize = 23;

/// Up to 23 bytes, kept in place. Contracts see them as their list.
#[derive(Drop)]
pub(crate) struct ShortBytes {
    // An empty array, whose alignment lets a key or a value be moved by words.
    words: [u64; 0],
    // How many of `places` are in use, from the first one on.
    len: u8,
    places: [u8; ROOM],
}

impl Model for ShortBytes {
    ghost use Rattle.std.specs.Prelude.{◌≤◌, take};
    ghost use Rattle.keys.specs.Bytes.{Bytes};

    ghost Value = { Bytes };

    ghost view = { λ s. take s.len s.places };

    ghost invariant = { λ s. s.len ≤ 23 };
}

impl ShortBytes {
    #[inline]
    pub(crate) fn empty() -> Self
        ensures { result ≡ [] }
    {
        ShortBytes {
            words: [],
            len: 0,
            places: [0; ROOM],
        }
    }

    /// Copies `bytes`, or returns `None` if there are more than 23.
    #[inline]
    pub(crate) fn from_bytes(bytes: &[u8]) -> Option<Self>
        ensures { MatchOption result (23 < length bytes.now) (λ short. short ≡ bytes.now) }
    {
        let count = bytes.len();
        if count > ROOM {
            return None;
        }
        let mut places = [0; ROOM];
        places[..count].copy_from_slice(bytes);
        Some(ShortBytes {
            words: [],
            len: count as u8,
            places,
        })
    }

    /// Returns a copy. It is made by words, so it is cheaper than `from_bytes`.
    #[inline]
    pub(crate) fn again(&self) -> Self
        ensures { result ≡ self.now }
    {
        ShortBytes {
            words: [],
            len: self.len,
            places: self.places,
        }
    }

    #[inline]
    pub(crate) fn as_bytes(&self) -> &[u8]
        ensures { result.now ≡ self.now }
    {
        &self.places[..self.len as usize]
    }
}
