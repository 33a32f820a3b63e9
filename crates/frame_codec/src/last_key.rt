//! The previous key, from which the next prefix-compressed key is decoded.
ghost use Rattle.std.specs.Prelude.{◌≡◌, ◌≢◌, ◌+◌, ◌≤◌, length, take, None, Some, MatchOption};
ghost use Rattle.std.specs.Ordering.{is_lt};
ghost use Rattle.keys.specs.Cells.{read_where};
ghost use Rattle.keys.specs.Order.{order};
ghost use Rattle.frame_codec.specs.Codecs.{common, rejoined, sharing};
ghost use Rattle.frame_codec.specs.Frame.{is_key};

use crate::parts::{read_byte, read_short};
use keys::Settings;
use std::cmp::Ordering;
use std::marker::Model;

// A byte counts the shared prefix, and another one the rest of the key: at most 255 each.
const ROOM: usize = 510;

/// A key of up to 510 bytes, stored in place. Contracts see it as the list of its bytes.
#[derive(Drop)]
pub(crate) struct LastKey {
    // How many of `places` are in use, from the first one on.
    len: usize,
    places: [u8; ROOM],
}

impl Model for LastKey {
    ghost use Rattle.std.specs.Prelude.{◌≤◌, take};
    ghost use Rattle.keys.specs.Bytes.{Bytes};

    ghost Value = { Bytes };

    ghost view = { λ k. take k.len k.places };

    ghost invariant = { λ k. k.len ≤ 510 };
}

// Compares the two by their first bytes. Returns `None` if they share the first byte.
fn apart(one: &[u8], other: &[u8]) -> Option<Ordering>
    ensures { MatchOption result (common one.now other.now ≢ 0)
        (λ o. (common one.now other.now ≡ 0) × (o ≡ order one.now other.now)) }
{
    match (one.split_first(), other.split_first()) {
        (Some((byte, _)), Some((other_byte, _))) => match byte.cmp(other_byte) {
            Ordering::Equal => None,
            differs => Some(differs),
        },
        (Some(_), None) => Some(Ordering::Greater),
        (None, Some(_)) => Some(Ordering::Less),
        (None, None) => Some(Ordering::Equal),
    }
}

// Compares `key` with the key made of its first `shared` bytes followed by `rest`, by the bytes at that place alone.
// Returns `None` if they also share the byte there.
fn parted(key: &[u8], shared: usize, rest: &[u8]) -> Option<Ordering>
    ensures { let next = rejoined key.now (shared, rest.now) in
        MatchOption result (common key.now next ≢ shared)
        (λ o. (common key.now next ≡ shared) × (o ≡ order key.now next)) }
{
    if shared > key.len() {
        return None;
    }
    apart(&key[shared..], rest)
}

impl LastKey {
    fn of_bytes(bytes: &[u8]) -> Self
        requires { length bytes.now ≤ 510 }
        ensures { result ≡ bytes.now }
    {
        let len = bytes.len();
        let mut places = [0; ROOM];
        places[..len].copy_from_slice(bytes);
        LastKey { len, places }
    }

    /// The first bytes of the low key. They are enough to decode the first key.
    pub(crate) fn of_low(low: &[u8]) -> Self
        ensures { result ≡ take 510 low.now }
    {
        LastKey::of_bytes(&low[..ROOM.min(low.len())])
    }

    pub(crate) fn as_bytes(&self) -> &[u8]
        ensures { result.now ≡ self.now }
    {
        &self.places[..self.len]
    }

    pub(crate) fn len(&self) -> usize
        ensures { result ≡ length self.now }
    {
        self.len
    }

    // Keeps the first `shared` bytes of the key, and appends `rest`.
    fn go_on(&mut self, shared: usize, rest: &[u8])
        requires shared { shared ≤ length self.old }
        requires room { shared + length rest.now ≤ 510 }
        ensures { self.new ≡ rejoined self.old (shared, rest.now) }
    {
        let len = shared + rest.len();
        self.places[shared..len].copy_from_slice(rest);
        self.len = len;
    }

    /// Decodes the key at the front, if it is no longer than the settings allow, and stores it as the previous key.
    /// Returns whether it is above the old previous key, and the bytes after it. If there is no such key, nothing
    /// changes.
    pub(crate) fn read_next<'a>(
        &mut self,
        bytes: &'a [u8],
        settings: &Settings,
    ) -> Option<(bool, &'a [u8])>
        ensures { let read = read_where (is_key settings.now) ((sharing self.old).read bytes.now) in
            MatchOption result ((read ≡ None) × (self.new ≡ self.old))
            (λ p. (read ≡ Some (self.new, p.1.now)) × (p.0 ≡ is_lt (order self.old self.new))) }
    {
        let (shared, bytes) = read_byte(bytes)?;
        let (rest, following) = read_short(bytes)?;
        let shared = shared as usize;
        let stands = parted(self.as_bytes(), shared, rest)?;
        if shared + rest.len() > settings.max_key as usize {
            return None;
        }
        self.go_on(shared, rest);
        Some((stands.is_lt(), following))
    }
}
