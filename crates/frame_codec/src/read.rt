//! Decodes frames from arbitrary bytes. Allocates only for what the frame stores, for at most `fan` entries.
ghost use Rattle.std.specs.Prelude.{◌≡◌, ◌≤◌, ◌&&◌, [], ◌∷◌, ◌++◌, Option, length, drop, None, Some, IfOk, IfSome, MatchOption};
ghost use Rattle.keys.specs.Bytes.{Bytes, Pairs};
ghost use Rattle.keys.specs.Cells.{read_as, read_where, counted, value_cell, pid_cell};
ghost use Rattle.delta_chain.specs.Building.{goes_last};
ghost use Rattle.frame_codec.specs.declared.format.KeyEncoding.TheVariants.{PrefixCompressed};
ghost use Rattle.frame_codec.specs.Codecs.{both, read_each, flagged, sharing};
ghost use Rattle.frame_codec.specs.Frame.{read_base, full, delta, bytes_of, is_key, are_entries, is_full, is_run, is_known, is_allowed};
ghost use Rattle.frame_codec.specs.Frame.Content.{FullLeaf, FullIndex};
ghost use Rattle.frame_codec.specs.Reading.{read_content, read_frame};
ghost use Rattle.frame_codec.specs.Shown.{frame_of};
ghost use Rattle.index_page.specs.Rules.{of_cell};

use crate::cell::{FrameCell, read_flagged};
use crate::format::{Format, KeyEncoding};
use crate::frame::Frame;
use crate::kinds::{
    DELTA_INDEX, DELTA_LEAF, FREE, FULL_INDEX, FULL_LEAF, SHARED_INDEX, SHARED_LEAF,
};
use crate::last_key::LastKey;
use crate::parts::{frame_size, read_header, read_key, read_length};
use crate::skim::{skim_entries, skim_shared};
use delta_chain::{Base, BaseBuilder, PushError, Run};
use keys::{Key, Pid, Settings};
use std::alloc::{AllocError, Global};

// Decodes the entry of a base at the front, if a frame may contain it, and returns it with the bytes after it.
fn read_entry<'a, V: FrameCell>(
    alloc: Global,
    bytes: &'a [u8],
    settings: &Settings,
) -> Result<Option<(&'a [u8], V, &'a [u8])>, AllocError>
    ensures { let read =
        read_where (λ e. is_key settings.now e.0 && V.is_short settings.now e.1)
        ((both counted V.codec).read bytes.now) in
        IfOk result
        (λ found. MatchOption found (read ≡ None) (λ p. read ≡ Some ((p.0.now, p.1), p.2.now))) }
{
    let Some((key, rest)) = read_key(bytes, settings) else {
        return Ok(None);
    };
    let Some((cell, rest)) = V::read(alloc, rest, settings)? else {
        return Ok(None);
    };
    Ok(Some((key, cell, rest)))
}

// Decodes `count` entries with whole keys into a base, and returns it with the bytes after them.
fn read_whole<'a, V: FrameCell>(
    alloc: Global,
    count: usize,
    bytes: &'a [u8],
    settings: &Settings,
) -> Result<Option<(Base<V, Global>, &'a [u8])>, AllocError>
    ensures { let read =
        read_where (are_entries settings.now (V.is_short settings.now))
        (read_each (both counted V.codec) count bytes.now) in
        IfOk result (λ found. MatchOption found (read ≡ None) (λ p. read ≡ Some (p.0, p.1.now))) }
{
    let Some((key_bytes, _end)) = skim_entries::<V>(count, bytes, settings) else {
        return Ok(None);
    };
    let mut builder = BaseBuilder::with_capacity(alloc, count, key_bytes)?;
    let mut rest = bytes;
    for _at in 0..count {
        let Some((key, cell, following)) = read_entry(alloc, rest, settings)? else {
            return Ok(None);
        };
        builder.push_next(key, cell)?;
        rest = following;
    }
    let base = builder.finish();
    let _in_order = base.len();
    Ok(Some((base, rest)))
}

// Like `read_entry`, for a prefix-compressed entry. `last` is the previous key, and becomes the entry's key. If there
// is no such entry, `last` is unspecified.
fn read_next_entry<'a, V: FrameCell>(
    alloc: Global,
    last: &mut LastKey,
    bytes: &'a [u8],
    settings: &Settings,
) -> Result<Option<(V, &'a [u8])>, AllocError>
    ensures { let test =
        λ (e : Bytes × V). is_key settings.now e.0 && V.is_short settings.now e.1 in
        let read = read_where test ((both (sharing last.old) V.codec).read bytes.now) in IfOk result
        (λ found. MatchOption found (read ≡ None) (λ p. read ≡ Some ((last.new, p.0), p.1.now))) }
{
    let Some((_rises, rest)) = last.read_next(bytes, settings) else {
        return Ok(None);
    };
    let Some((cell, rest)) = V::read(alloc, rest, settings)? else {
        return Ok(None);
    };
    Ok(Some((cell, rest)))
}

// Like `read_whole`, for prefix-compressed entries under this low key.
fn read_shared<'a, V: FrameCell>(
    alloc: Global,
    low: &[u8],
    count: usize,
    bytes: &'a [u8],
    settings: &Settings,
) -> Result<Option<(Base<V, Global>, &'a [u8])>, AllocError>
    ensures { let all = read_base PrefixCompressed V.codec low.now count bytes.now in
        let read = read_where (are_entries settings.now (V.is_short settings.now)) all in
        IfOk result (λ found. MatchOption found (read ≡ None) (λ p. read ≡ Some (p.0, p.1.now))) }
{
    let Some((key_bytes, _end)) = skim_shared::<V>(low, count, bytes, settings) else {
        return Ok(None);
    };
    let mut builder = BaseBuilder::with_capacity(alloc, count, key_bytes)?;
    let mut last = LastKey::of_low(low);
    let mut rest = bytes;
    for _at in 0..count {
        let Some((cell, following)) = read_next_entry(alloc, &mut last, rest, settings)? else {
            return Ok(None);
        };
        builder.push_next(last.as_bytes(), cell)?;
        rest = following;
    }
    let base = builder.finish();
    let _in_order = base.len();
    Ok(Some((base, rest)))
}

// Decodes `count` entries with this key encoding under this low key into a base, and returns it with the bytes after
// them.
fn read_base<'a, V: FrameCell>(
    alloc: Global,
    encoding: KeyEncoding,
    low: &[u8],
    count: usize,
    bytes: &'a [u8],
    settings: &Settings,
) -> Result<Option<(Base<V, Global>, &'a [u8])>, AllocError>
    ensures { let all = read_base encoding V.codec low.now count bytes.now in
        let read = read_where (are_entries settings.now (V.is_short settings.now)) all in
        IfOk result (λ found. MatchOption found (read ≡ None) (λ p. read ≡ Some (p.0, p.1.now))) }
{
    match encoding {
        KeyEncoding::Whole => read_whole(alloc, count, bytes, settings),
        KeyEncoding::PrefixCompressed => read_shared(alloc, low, count, bytes, settings),
    }
}

// Decodes the change at the front and appends it to the run, if a frame may contain it there. Returns the bytes after
// it.
fn push_change<'a, V: FrameCell>(
    alloc: Global,
    run: &mut Run<V, Global>,
    bytes: &'a [u8],
    settings: &Settings,
) -> Result<Option<&'a [u8]>, AllocError>
    ensures { let test =
        λ (e : Bytes × Option V). (is_key settings.now e.0 && of_cell (V.is_short settings.now) e.1)
        && goes_last e.0 run.old in
        let read = read_where test ((both counted (flagged V.codec)).read bytes.now) in
        IfOk result
        (λ found. MatchOption found (read ≡ None) (λ rest. (e : Bytes × Option V)
        × (read ≡ Some (e, rest.now)) × (run.new ≡ run.old ++ e ∷ []))) }
{
    let Some((key, rest)) = read_key(bytes, settings) else {
        return Ok(None);
    };
    let Some((change, rest)) = read_flagged(alloc, rest, settings)? else {
        return Ok(None);
    };
    match run.push(Key::from_bytes(alloc, key)?, change) {
        Ok(()) => Ok(Some(rest)),
        Err(PushError::OutOfOrder) => Ok(None),
        Err(PushError::NoMemory) => Err(AllocError),
    }
}

// Decodes `count` changes into a run, and returns it with the bytes after them.
fn read_run<'a, V: FrameCell>(
    alloc: Global,
    count: usize,
    bytes: &'a [u8],
    settings: &Settings,
) -> Result<Option<(Run<V, Global>, &'a [u8])>, AllocError>
    ensures { let read =
        read_where (are_entries settings.now (of_cell (V.is_short settings.now)))
        (read_each (both counted (flagged V.codec)) count bytes.now) in
        IfOk result (λ found. MatchOption found (read ≡ None) (λ p. read ≡ Some (p.0, p.1.now))) }
{
    if count > settings.fan as usize {
        return Ok(None);
    }
    let mut run = Run::with_capacity(alloc, count)?;
    let mut rest = bytes;
    for _at in 0..count {
        let Some(following) = push_change(alloc, &mut run, rest, settings)? else {
            return Ok(None);
        };
        rest = following;
    }
    let _in_order = run.len();
    Ok(Some((run, rest)))
}

// Decodes the low key and the base at the front, if a frame may contain them, and returns them with the bytes after
// them.
fn read_full<'a, V: FrameCell>(
    alloc: Global,
    encoding: KeyEncoding,
    bytes: &'a [u8],
    settings: &Settings,
) -> Result<Option<(Key<Global>, Base<V, Global>, &'a [u8])>, AllocError>
    ensures { let all = (full encoding V.codec).read bytes.now in
        let read = read_where (λ p. is_full settings.now (V.is_short settings.now) p.0 p.1) all in
        IfOk result
        (λ found. MatchOption found (read ≡ None) (λ p. read ≡ Some ((p.0, p.1), p.2.now))) }
{
    let Some((low, rest)) = read_key(bytes, settings) else {
        return Ok(None);
    };
    let Some((count, rest)) = read_length(rest) else {
        return Ok(None);
    };
    let Some((base, rest)) = read_base(alloc, encoding, low, count, rest, settings)? else {
        return Ok(None);
    };
    Ok(Some((Key::from_bytes(alloc, low)?, base, rest)))
}

// `read_full`, if the version knows the key encoding.
fn read_known<'a, V: FrameCell>(
    alloc: Global,
    encoding: KeyEncoding,
    bytes: &'a [u8],
    format: &Format,
) -> Result<Option<(Key<Global>, Base<V, Global>, &'a [u8])>, AllocError>
    ensures { let s = format.now.settings in let test =
        λ (p : Bytes × Pairs V). is_known format.now.version encoding
        && is_full s (V.is_short s) p.0 p.1 in
        let read = read_where test ((full encoding V.codec).read bytes.now) in IfOk result
        (λ found. MatchOption found (read ≡ None) (λ p. read ≡ Some ((p.0, p.1), p.2.now))) }
{
    if !format.knows(encoding) {
        return Ok(None);
    }
    read_full(alloc, encoding, bytes, &format.settings)
}

// Decodes the run at the front, if a frame may contain it, and returns it with the bytes after it.
fn read_delta<'a, V: FrameCell>(
    alloc: Global,
    bytes: &'a [u8],
    settings: &Settings,
) -> Result<Option<(Run<V, Global>, &'a [u8])>, AllocError>
    ensures { let read =
        read_where (is_run settings.now (V.is_short settings.now))
        ((delta V.codec).read bytes.now) in
        IfOk result (λ found. MatchOption found (read ≡ None) (λ p. read ≡ Some (p.0, p.1.now))) }
{
    let Some((count, rest)) = read_length(bytes) else {
        return Ok(None);
    };
    if count == 0 {
        return Ok(None);
    }
    read_run(alloc, count, rest, settings)
}

// Decodes a leaf's full image with this key encoding.
fn read_leaf<'a>(
    alloc: Global,
    encoding: KeyEncoding,
    pid: Pid,
    bytes: &'a [u8],
    format: &Format,
) -> Result<Option<(Frame, &'a [u8])>, AllocError>
    ensures { let content =
        read_as (λ p. FullLeaf encoding p.0 p.1) ((full encoding value_cell).read bytes.now) in
        let read =
        read_as (λ content. record { pid = pid; content = content })
        (read_where (is_allowed format.now) content) in
        IfOk result
        (λ found. MatchOption found (read ≡ None) (λ p. read ≡ Some (frame_of p.0, p.1.now))) }
{
    let Some((low, base, rest)) = read_known(alloc, encoding, bytes, format)? else {
        return Ok(None);
    };
    let frame = Frame::FullLeaf {
        pid,
        encoding,
        low,
        base,
    };
    Ok(Some((frame, rest)))
}

// Decodes an index page's full image with this key encoding.
fn read_index<'a>(
    alloc: Global,
    encoding: KeyEncoding,
    pid: Pid,
    bytes: &'a [u8],
    format: &Format,
) -> Result<Option<(Frame, &'a [u8])>, AllocError>
    ensures { let content =
        read_as (λ p. FullIndex encoding p.0 p.1) ((full encoding pid_cell).read bytes.now) in
        let read =
        read_as (λ content. record { pid = pid; content = content })
        (read_where (is_allowed format.now) content) in
        IfOk result
        (λ found. MatchOption found (read ≡ None) (λ p. read ≡ Some (frame_of p.0, p.1.now))) }
{
    let Some((low, base, rest)) = read_known(alloc, encoding, bytes, format)? else {
        return Ok(None);
    };
    let frame = Frame::FullIndex {
        pid,
        encoding,
        low,
        base,
    };
    Ok(Some((frame, rest)))
}

// Decodes the content at the front of a frame with this kind and page id, if a log may contain it. Returns the frame
// with the bytes after it.
fn read_content<'a>(
    alloc: Global,
    kind: u8,
    pid: Pid,
    bytes: &'a [u8],
    format: &Format,
) -> Result<Option<(Frame, &'a [u8])>, AllocError>
    ensures { let content = read_where (is_allowed format.now) (read_content kind bytes.now) in
        let read = read_as (λ content. record { pid = pid; content = content }) content in
        IfOk result
        (λ found. MatchOption found (read ≡ None) (λ p. read ≡ Some (frame_of p.0, p.1.now))) }
{
    match kind {
        FULL_LEAF => read_leaf(alloc, KeyEncoding::Whole, pid, bytes, format),
        DELTA_LEAF => {
            let Some((run, rest)) = read_delta(alloc, bytes, &format.settings)? else {
                return Ok(None);
            };
            Ok(Some((Frame::DeltaLeaf { pid, run }, rest)))
        }
        FULL_INDEX => read_index(alloc, KeyEncoding::Whole, pid, bytes, format),
        DELTA_INDEX => {
            let Some((run, rest)) = read_delta(alloc, bytes, &format.settings)? else {
                return Ok(None);
            };
            Ok(Some((Frame::DeltaIndex { pid, run }, rest)))
        }
        FREE => Ok(Some((Frame::Free { pid }, bytes))),
        SHARED_LEAF => read_leaf(alloc, KeyEncoding::PrefixCompressed, pid, bytes, format),
        SHARED_INDEX => read_index(alloc, KeyEncoding::PrefixCompressed, pid, bytes, format),
        _ => Ok(None),
    }
}

/// Returns the frame at the front of these bytes, if a log of this format may contain it, and its size in bytes. The
/// bytes may be arbitrary. `Err` means that allocation failed.
pub fn read_frame(
    alloc: Global,
    bytes: &[u8],
    format: &Format,
) -> Result<Option<(Frame, usize)>, AllocError>
    ensures found { let read = read_frame format.now bytes.now in
        IfOk result (λ found. MatchOption found (read ≡ None)
        (λ p. read ≡ Some (frame_of p.0, drop p.1 bytes.now))) }
    ensures size { IfOk result
        (λ found. IfSome found (λ p. p.1 ≡ length (bytes_of (frame_of p.0)))) }
    ensures within { IfOk result (λ found. IfSome found (λ p. p.1 ≤ length bytes.now)) }
{
    let Some((kind, len, pid, content)) = read_header(bytes) else {
        return Ok(None);
    };
    let Some((frame, rest)) = read_content(alloc, kind, Pid(pid), content, format)? else {
        return Ok(None);
    };
    let Some(size) = frame_size(bytes, len, content, rest) else {
        return Ok(None);
    };
    Ok(Some((frame, size)))
}
