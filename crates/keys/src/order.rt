//! How byte strings compare.
ghost use Rattle.std.specs.Prelude.{◌≡◌};
ghost use Rattle.std.specs.Option.{option_copied};
ghost use Rattle.keys.specs.Order.{order};
ghost use Rattle.keys.specs.Range.{is_before};

use std::cmp::Ordering;

/// Compares two byte strings: the first byte in which they differ decides, and a proper prefix comes first. Compares
/// eight bytes at a time, as numbers.
#[inline]
pub fn compare(one: &[u8], other: &[u8]) -> Ordering
    ensures { result ≡ order one.now other.now }
{
    let mut left = one;
    let mut right = other;
    while let (Some((word, rest)), Some((other_word, other_rest))) = (
        left.split_first_chunk::<8>(),
        right.split_first_chunk::<8>(),
    ) {
        let (word, other_word) = (u64::from_be_bytes(*word), u64::from_be_bytes(*other_word));
        if word < other_word {
            return Ordering::Less;
        }
        if word > other_word {
            return Ordering::Greater;
        }
        left = rest;
        right = other_rest;
    }
    compare_bytes(left, right)
}

/// Returns whether `key` is below `end`. Without an end, every key is.
#[inline]
pub fn is_before(end: Option<&[u8]>, key: &[u8]) -> bool
    ensures { result ≡ is_before (option_copied end.entry) key.now }
{
    match end {
        None => true,
        Some(end) => compare(key, end).is_lt(),
    }
}

// Compares byte by byte: for the remainders that are shorter than eight bytes.
fn compare_bytes(one: &[u8], other: &[u8]) -> Ordering
    ensures { result ≡ order one.now other.now }
{
    match (one.split_first(), other.split_first()) {
        (Some((byte, rest)), Some((other_byte, other_rest))) => match byte.cmp(other_byte) {
            Ordering::Equal => compare_bytes(rest, other_rest),
            apart => apart,
        },
        (Some(_), None) => Ordering::Greater,
        (None, Some(_)) => Ordering::Less,
        (None, None) => Ordering::Equal,
    }
}
