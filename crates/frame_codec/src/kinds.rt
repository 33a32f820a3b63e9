//! The numbers of the kinds of frames.
ghost use Rattle.std.specs.Prelude.{◌≡◌};
ghost use Rattle.frame_codec.specs.Frame.{leaf_kind, index_kind};

use crate::format::KeyEncoding;

pub(crate) const FULL_LEAF: u8 = 1;

pub(crate) const DELTA_LEAF: u8 = 2;

pub(crate) const FULL_INDEX: u8 = 3;

pub(crate) const DELTA_INDEX: u8 = 4;

pub(crate) const FREE: u8 = 5;

pub(crate) const SHARED_LEAF: u8 = 6;

pub(crate) const SHARED_INDEX: u8 = 7;

/// The kind number of a leaf's full image with this key encoding.
pub(crate) fn leaf_kind(encoding: KeyEncoding) -> u8
    ensures { result ≡ leaf_kind encoding }
{
    match encoding {
        KeyEncoding::Whole => FULL_LEAF,
        KeyEncoding::PrefixCompressed => SHARED_LEAF,
    }
}

/// The kind number of an index page's full image with this key encoding.
pub(crate) fn index_kind(encoding: KeyEncoding) -> u8
    ensures { result ≡ index_kind encoding }
{
    match encoding {
        KeyEncoding::Whole => FULL_INDEX,
        KeyEncoding::PrefixCompressed => SHARED_INDEX,
    }
}
