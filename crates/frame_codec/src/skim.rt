//! Identifies the frame at the front of arbitrary bytes, without decoding its content and without allocating.
ghost use Rattle.std.specs.Prelude.{◌≡◌, ◌≤◌, ◌&&◌, length, take, drop, None, Some, IfSome, MatchOption};
ghost use Rattle.std.specs.Option.{option_copied};
ghost use Rattle.keys.specs.Bytes.{Bytes, Pairs, Changes};
ghost use Rattle.std.specs.Ordering.{is_lt};
ghost use Rattle.keys.specs.Cells.{read_where, counted};
ghost use Rattle.keys.specs.Order.{order};
ghost use Rattle.frame_codec.specs.declared.format.KeyEncoding.TheVariants.{PrefixCompressed};
ghost use Rattle.frame_codec.specs.Codecs.{both, read_each, sharing};
ghost use Rattle.frame_codec.specs.Frame as said;
ghost use Rattle.frame_codec.specs.Frame.{read_base, full, delta, bytes_of, is_key, are_entries, is_full, is_run, is_known, is_allowed};
ghost use Rattle.frame_codec.specs.Reading.{read_content, read_frame};
ghost use Rattle.frame_codec.specs.Skimmed.{kind_of, IsSkimmed, is_above};

use crate::cell::{FrameCell, FrameItem};
use crate::format::{Format, KeyEncoding};
use crate::kinds::{
    DELTA_INDEX, DELTA_LEAF, FREE, FULL_INDEX, FULL_LEAF, SHARED_INDEX, SHARED_LEAF,
};
use crate::last_key::LastKey;
use crate::parts::{frame_size, read_header, read_key, read_length};
use keys::{Pid, Settings, Value, compare};
use std::alloc::Global;

/// The kind of a frame.
#[derive(Clone, Copy, Debug, PartialEq, Eq)]
pub enum FrameKind {
    /// A full image of a leaf.
    FullLeaf,
    /// A run of a leaf.
    DeltaLeaf,
    /// A full image of an index page.
    FullIndex,
    /// A run of an index page.
    DeltaIndex,
    /// The page was freed.
    Free,
}

/// A frame that was identified without decoding its content.
#[derive(Clone, Copy, Debug, PartialEq, Eq)]
pub struct Skimmed {
    /// The id of the frame's page.
    pub pid: Pid,
    /// The kind of the frame.
    pub kind: FrameKind,
    /// The size of the frame in bytes.
    pub size: usize,
}

// Whether `key` is above the last key, if there is one.
fn is_above(last: Option<&[u8]>, key: &[u8]) -> bool
    ensures { result ≡ is_above (option_copied last.entry) key.now }
{
    match last {
        None => true,
        Some(last) => compare(last, key).is_lt(),
    }
}

// The key of the base entry or change at the front, if a frame may contain it, with the bytes after the entry.
fn skip_entry<'a, C: FrameItem>(
    bytes: &'a [u8],
    settings: &Settings,
) -> Option<(&'a [u8], &'a [u8])>
    ensures { let read =
        read_where (λ e. is_key settings.now e.0 && C.is_short settings.now e.1)
        ((both counted C.codec).read bytes.now) in
        MatchOption result (read ≡ None)
        (λ p. (cell : C) × (read ≡ Some ((p.0.now, cell), p.1.now))) }
{
    let (key, rest) = read_key(bytes, settings)?;
    let rest = C::skip(rest, settings)?;
    Some((key, rest))
}

/// The total number of bytes in the keys of `count` entries or changes at the front, if a frame may contain these, with
/// the bytes after them. With this size, a base is allocated at once, and only for entries that exist.
pub(crate) fn skim_entries<'a, C: FrameItem>(
    count: usize,
    bytes: &'a [u8],
    settings: &Settings,
) -> Option<(usize, &'a [u8])>
    ensures { let read =
        read_where (are_entries settings.now (C.is_short settings.now))
        (read_each (both counted C.codec) count bytes.now) in
        MatchOption result (read ≡ None) (λ p. (es : Pairs C) × (read ≡ Some (es, p.1.now))) }
{
    if count > settings.fan as usize {
        return None;
    }
    let mut sum: usize = 0;
    let mut last: Option<&[u8]> = None;
    let mut rest = bytes;
    for _at in 0..count {
        let (key, following) = skip_entry::<C>(rest, settings)?;
        if !is_above(last, key) {
            return None;
        }
        sum = sum.saturating_add(key.len());
        last = Some(key);
        rest = following;
    }
    Some((sum, rest))
}

// Like `skip_entry`, for a prefix-compressed entry. `last` is the previous key, and becomes the entry's key. Returns
// whether the key is above the previous one, with the bytes after the entry. If there is no such entry, `last` is
// unspecified.
fn skip_shared<'a, C: FrameItem>(
    last: &mut LastKey,
    bytes: &'a [u8],
    settings: &Settings,
) -> Option<(bool, &'a [u8])>
    ensures { let test =
        λ (e : Bytes × C). is_key settings.now e.0 && C.is_short settings.now e.1 in
        let read = read_where test ((both (sharing last.old) C.codec).read bytes.now) in
        MatchOption result (read ≡ None)
        (λ p. (cell : C) × (read ≡ Some ((last.new, cell), p.1.now))
        × (p.0 ≡ is_lt (order last.old last.new))) }
{
    let (rises, rest) = last.read_next(bytes, settings)?;
    let rest = C::skip(rest, settings)?;
    Some((rises, rest))
}

/// Like `skim_entries`, for prefix-compressed entries under this low key. Copies at most as many bytes as it reads.
pub(crate) fn skim_shared<'a, C: FrameItem>(
    low: &[u8],
    count: usize,
    bytes: &'a [u8],
    settings: &Settings,
) -> Option<(usize, &'a [u8])>
    ensures { let all = read_base PrefixCompressed C.codec low.now count bytes.now in
        let read = read_where (are_entries settings.now (C.is_short settings.now)) all in
        MatchOption result (read ≡ None) (λ p. (es : Pairs C) × (read ≡ Some (es, p.1.now))) }
{
    if count > settings.fan as usize {
        return None;
    }
    let mut sum: usize = 0;
    let mut last = LastKey::of_low(low);
    let mut rest = bytes;
    for at in 0..count {
        let (rises, following) = skip_shared::<C>(&mut last, rest, settings)?;
        if at > 0 && !rises {
            return None;
        }
        sum = sum.saturating_add(last.len());
        rest = following;
    }
    Some((sum, rest))
}

// Like `skim_entries`, for entries of a base with this key encoding.
fn skim_base<'a, V: FrameCell>(
    encoding: KeyEncoding,
    low: &[u8],
    count: usize,
    bytes: &'a [u8],
    settings: &Settings,
) -> Option<(usize, &'a [u8])>
    ensures { let all = read_base encoding V.codec low.now count bytes.now in
        let read = read_where (are_entries settings.now (V.is_short settings.now)) all in
        MatchOption result (read ≡ None) (λ p. (es : Pairs V) × (read ≡ Some (es, p.1.now))) }
{
    match encoding {
        KeyEncoding::Whole => skim_entries::<V>(count, bytes, settings),
        KeyEncoding::PrefixCompressed => skim_shared::<V>(low, count, bytes, settings),
    }
}

// The bytes after the low key and the base at the front, if a frame may contain them.
fn skim_full<'a, V: FrameCell>(
    encoding: KeyEncoding,
    bytes: &'a [u8],
    settings: &Settings,
) -> Option<&'a [u8]>
    ensures { let all = (full encoding V.codec).read bytes.now in
        let read = read_where (λ p. is_full settings.now (V.is_short settings.now) p.0 p.1) all in
        MatchOption result (read ≡ None)
        (λ rest. (p : Bytes × Pairs V) × (read ≡ Some (p, rest.now))) }
{
    let (low, rest) = read_key(bytes, settings)?;
    let (count, rest) = read_length(rest)?;
    let (_key_bytes, rest) = skim_base::<V>(encoding, low, count, rest, settings)?;
    Some(rest)
}

// `skim_full`, if the version knows the key encoding.
fn skim_known<'a, V: FrameCell>(
    encoding: KeyEncoding,
    bytes: &'a [u8],
    format: &Format,
) -> Option<&'a [u8]>
    ensures { let s = format.now.settings in let test =
        λ (p : Bytes × Pairs V). is_known format.now.version encoding
        && is_full s (V.is_short s) p.0 p.1 in
        let read = read_where test ((full encoding V.codec).read bytes.now) in
        MatchOption result (read ≡ None)
        (λ rest. (p : Bytes × Pairs V) × (read ≡ Some (p, rest.now))) }
{
    if !format.knows(encoding) {
        return None;
    }
    skim_full::<V>(encoding, bytes, &format.settings)
}

// The bytes after the run at the front, if a frame may contain it.
fn skim_run<'a, V: FrameCell>(bytes: &'a [u8], settings: &Settings) -> Option<&'a [u8]>
    ensures { let read =
        read_where (is_run settings.now (V.is_short settings.now))
        ((delta V.codec).read bytes.now) in
        MatchOption result (read ≡ None)
        (λ rest. (run : Changes V) × (read ≡ Some (run, rest.now))) }
{
    let (count, rest) = read_length(bytes)?;
    if count == 0 {
        return None;
    }
    let (_key_bytes, rest) = skim_entries::<Option<V>>(count, rest, settings)?;
    Some(rest)
}

// The kind with this number, with the bytes after the content of that kind at the front, if a log may contain it.
fn skim_content<'a>(number: u8, bytes: &'a [u8], format: &Format) -> Option<(FrameKind, &'a [u8])>
    ensures { let read = read_where (is_allowed format.now) (read_content number bytes.now) in
        MatchOption result (read ≡ None)
        (λ p. (content : said.Content) × (read ≡ Some (content, p.1.now))
        × (kind_of content ≡ p.0)) }
{
    match number {
        FULL_LEAF => {
            let rest = skim_known::<Value<Global>>(KeyEncoding::Whole, bytes, format);
            with_kind(FrameKind::FullLeaf, rest)
        }
        DELTA_LEAF => {
            let rest = skim_run::<Value<Global>>(bytes, &format.settings);
            with_kind(FrameKind::DeltaLeaf, rest)
        }
        FULL_INDEX => {
            let rest = skim_known::<Pid>(KeyEncoding::Whole, bytes, format);
            with_kind(FrameKind::FullIndex, rest)
        }
        DELTA_INDEX => {
            let rest = skim_run::<Pid>(bytes, &format.settings);
            with_kind(FrameKind::DeltaIndex, rest)
        }
        FREE => Some((FrameKind::Free, bytes)),
        SHARED_LEAF => {
            let rest = skim_known::<Value<Global>>(KeyEncoding::PrefixCompressed, bytes, format);
            with_kind(FrameKind::FullLeaf, rest)
        }
        SHARED_INDEX => {
            let rest = skim_known::<Pid>(KeyEncoding::PrefixCompressed, bytes, format);
            with_kind(FrameKind::FullIndex, rest)
        }
        _ => None,
    }
}

// The kind with `rest`, if there is a rest.
fn with_kind<'a>(kind: FrameKind, rest: Option<&'a [u8]>) -> Option<(FrameKind, &'a [u8])>
    ensures { MatchOption rest.entry (result ≡ None) (λ rest. result ≡ Some (kind, rest)) }
{
    Some((kind, rest?))
}

/// Like `read_frame`, but returns only the page, the kind and the size, and does not allocate. It finds a frame for
/// exactly the same bytes and formats.
pub fn skim_frame(bytes: &[u8], format: &Format) -> Option<Skimmed>
    ensures found { let read = read_frame format.now bytes.now in MatchOption result (read ≡ None)
        (λ k. (f : said.Frame) × (read ≡ Some (f, drop k.size bytes.now)) × IsSkimmed k f
        × (take k.size bytes.now ≡ bytes_of f)) }
    ensures within { IfSome result (λ k. k.size ≤ length bytes.now) }
{
    let (number, len, pid, content) = read_header(bytes)?;
    let (kind, rest) = skim_content(number, content, format)?;
    let size = frame_size(bytes, len, content, rest)?;
    Some(Skimmed {
        pid: Pid(pid),
        kind,
        size,
    })
}
