//! Encodes frames from the contents of pages. Each frame's size is computed first, and its bytes are allocated at once.
ghost use Rattle.std.specs.Prelude.{◌≡◌, ◌+◌, ◌<◌, ◌^◌, ◌++◌, true, length, flat_map, None, OnOk, OnErr};
ghost use Rattle.std.specs.List.{list_all};
ghost use Rattle.index_page.specs.Rules.{of_cell};
ghost use Rattle.keys.specs.Cells.{counted};
ghost use Rattle.keys.specs.Limits.{first_bad_field};
ghost use Rattle.keys.specs.Sizes.{pid_size};
ghost use Rattle.frame_codec.specs.declared.format.Format.{Format};
ghost use Rattle.frame_codec.specs.declared.format.KeyEncoding.TheVariants.{PrefixCompressed};
ghost use Rattle.frame_codec.specs.Appended.{HasRoomFor, IsAppended, IsCount, AreEncodable};
ghost use Rattle.frame_codec.specs.Codecs.{both, flagged};
ghost use Rattle.frame_codec.specs.Frame.{encode_base, full, delta, header, bytes_of, is_pid, is_frame};
ghost use Rattle.frame_codec.specs.Frame.Content.{FullLeaf, DeltaLeaf, FullIndex, DeltaIndex, Free};
ghost use Rattle.frame_codec.specs.Shown.{frame_of};
ghost use Rattle.frame_codec.specs.Sized.{IsSized, FitsU64, framed};

use crate::cell::{FrameCell, append_flagged, flagged_len};
use crate::format::KeyEncoding;
use crate::frame::Frame;
use crate::kinds::{DELTA_INDEX, DELTA_LEAF, FREE, index_kind, leaf_kind};
use crate::parts::{
    append_byte, append_counted, append_length, append_pid, append_sharing, append_u32, sharing_len,
};
use delta_chain::{Base, Run};
use keys::{Pid, Value};
use std::alloc::{AllocError, Global};

// The size of a base's entries with whole keys.
fn whole_len<V: FrameCell>(base: &Base<V, Global>) -> usize
    requires small { AreEncodable V.codec base.now }
    requires few { length (flat_map (both counted V.codec).encode base.now) < 2 ^ 31 }
    ensures { result ≡ length (flat_map (both counted V.codec).encode base.now) }
{
    let mut len: usize = 0;
    for at in 0..base.len() {
        len += 2 + base.key(at).len() + base.cell(at).encoded_len();
    }
    len
}

// The size of a base's entries with prefix compression.
fn shared_len<V: FrameCell>(low: &[u8], base: &Base<V, Global>) -> usize
    requires small { AreEncodable V.codec base.now }
    requires few { length (encode_base PrefixCompressed V.codec low.now base.now) < 2 ^ 31 }
    ensures { result ≡ length (encode_base PrefixCompressed V.codec low.now base.now) }
{
    let mut len: usize = 0;
    let mut before = low;
    for at in 0..base.len() {
        let key = base.key(at);
        let cell = base.cell(at);
        len += sharing_len(before, key) + cell.encoded_len();
        before = key;
    }
    len
}

// The size of a base's entries with this key encoding.
fn base_len<V: FrameCell>(encoding: KeyEncoding, low: &[u8], base: &Base<V, Global>) -> usize
    requires small { AreEncodable V.codec base.now }
    requires few { length (encode_base encoding V.codec low.now base.now) < 2 ^ 31 }
    ensures { result ≡ length (encode_base encoding V.codec low.now base.now) }
{
    match encoding {
        KeyEncoding::Whole => whole_len(base),
        KeyEncoding::PrefixCompressed => shared_len(low, base),
    }
}

fn run_len<V: FrameCell>(run: &Run<V, Global>) -> usize
    requires small { AreEncodable (flagged V.codec) run.now }
    requires few { length (flat_map (both counted (flagged V.codec)).encode run.now) < 2 ^ 31 }
    ensures { result ≡ length (flat_map (both counted (flagged V.codec)).encode run.now) }
{
    let mut len: usize = 0;
    for at in 0..run.len() {
        len += 2 + run.key(at).len() + flagged_len(run.change(at));
    }
    len
}

// Appends the entries of a base in order, with whole keys. There is room for them.
fn append_whole<V: FrameCell>(base: &Base<V, Global>, out: &mut Vec<u8>)
    requires small { AreEncodable V.codec base.now }
    requires room { HasRoomFor out.old (length (flat_map (both counted V.codec).encode base.now)) }
    ensures bytes { IsAppended out.old out.new (flat_map (both counted V.codec).encode base.now) }
    ensures words { list_all (λ e. V.is_word e.1) base.now ≡ true }
{
    for at in 0..base.len() {
        let cell = base.cell(at);
        append_counted(out, base.key(at));
        cell.append(out);
    }
}

// Appends the entries of a base in order, with prefix compression. There is room for them.
fn append_shared<V: FrameCell>(low: &[u8], base: &Base<V, Global>, out: &mut Vec<u8>)
    requires small { AreEncodable V.codec base.now }
    requires room { HasRoomFor out.old (length (encode_base PrefixCompressed V.codec low.now base.now)) }
    ensures bytes { IsAppended out.old out.new (encode_base PrefixCompressed V.codec low.now base.now) }
    ensures words { list_all (λ e. V.is_word e.1) base.now ≡ true }
{
    let mut before = low;
    for at in 0..base.len() {
        let key = base.key(at);
        let cell = base.cell(at);
        append_sharing(out, before, key);
        cell.append(out);
        before = key;
    }
}

// Appends the entries of a base in order, with this key encoding. There is room for them.
fn append_entries<V: FrameCell>(
    encoding: KeyEncoding,
    low: &[u8],
    base: &Base<V, Global>,
    out: &mut Vec<u8>,
)
    requires small { AreEncodable V.codec base.now }
    requires room { HasRoomFor out.old (length (encode_base encoding V.codec low.now base.now)) }
    ensures bytes { IsAppended out.old out.new (encode_base encoding V.codec low.now base.now) }
    ensures words { list_all (λ e. V.is_word e.1) base.now ≡ true }
{
    match encoding {
        KeyEncoding::Whole => append_whole(base, out),
        KeyEncoding::PrefixCompressed => append_shared(low, base, out),
    }
}

// Appends the changes of a run in order. There is room for them.
fn append_changes<V: FrameCell>(run: &Run<V, Global>, out: &mut Vec<u8>)
    requires small { AreEncodable (flagged V.codec) run.now }
    requires room { HasRoomFor out.old
        (length (flat_map (both counted (flagged V.codec)).encode run.now)) }
    ensures bytes { IsAppended out.old out.new
        (flat_map (both counted (flagged V.codec)).encode run.now) }
    ensures words { list_all (λ e. of_cell V.is_word e.1) run.now ≡ true }
{
    for at in 0..run.len() {
        let change = run.change(at);
        append_counted(out, run.key(at));
        append_flagged(out, change);
    }
}

// Allocates room for a whole frame with `len` bytes after the page id, and appends the frame's header. If allocation
// fails, nothing is appended.
fn begin_frame(kind: u8, pid: Pid, len: usize, out: &mut Vec<u8>) -> Result<(), AllocError>
    requires { len < 2 ^ 31 }
    ensures ok { OnOk result
        (IsAppended out.old out.new (header.encode ((kind, pid_size + len), pid))) }
    ensures room { OnOk result (HasRoomFor out.new len) }
    ensures err { OnErr result (out.new.items ≡ out.old.items) }
    ensures word { OnOk result (is_pid pid ≡ true) }
{
    let following = 8 + len;
    out.reserve(5 + following)?;
    append_byte(out, kind);
    append_u32(out, following as u32);
    append_pid(out, pid);
    Ok(())
}

// Appends a full image of this kind number: a low key, and a base with this key encoding.
fn write_full<V: FrameCell>(
    kind: u8,
    pid: Pid,
    encoding: KeyEncoding,
    low: &[u8],
    base: &Base<V, Global>,
    out: &mut Vec<u8>,
) -> Result<(), AllocError>
    requires low { IsCount (length low.now) }
    requires count { IsCount (length base.now) }
    requires small { AreEncodable V.codec base.now }
    requires few { length ((full encoding V.codec).encode (low.now, base.now)) < 2 ^ 31 }
    ensures ok { OnOk result (out.new.items ≡
        out.old.items ++ framed kind pid ((full encoding V.codec).encode (low.now, base.now))) }
    ensures err { OnErr result (out.new.items ≡ out.old.items) }
    ensures words { OnOk result
        ((is_pid pid ≡ true) × (list_all (λ e. V.is_word e.1) base.now ≡ true)) }
{
    begin_frame(
        kind,
        pid,
        4 + low.len() + base_len(encoding, low, base),
        out,
    )?;
    append_counted(out, low);
    append_length(out, base.len());
    append_entries(encoding, low, base, out);
    Ok(())
}

// Appends the frame of a run with this kind number.
fn write_delta<V: FrameCell>(
    kind: u8,
    pid: Pid,
    run: &Run<V, Global>,
    out: &mut Vec<u8>,
) -> Result<(), AllocError>
    requires count { IsCount (length run.now) }
    requires small { AreEncodable (flagged V.codec) run.now }
    requires few { length ((delta V.codec).encode run.now) < 2 ^ 31 }
    ensures ok { OnOk result
        (out.new.items ≡ out.old.items ++ framed kind pid ((delta V.codec).encode run.now)) }
    ensures err { OnErr result (out.new.items ≡ out.old.items) }
    ensures words { OnOk result
        ((is_pid pid ≡ true) × (list_all (λ e. of_cell V.is_word e.1) run.now ≡ true)) }
{
    begin_frame(kind, pid, 2 + run_len(run), out)?;
    append_length(out, run.len());
    append_changes(run, out);
    Ok(())
}

/// Appends a full image of a leaf: this base under this low key, with this key encoding. Like the other functions that
/// write frames, appends the whole frame, from its kind to its last byte; if allocation fails, appends nothing. After
/// `Ok`, all page ids in the frame are known to have 64 bits.
pub fn write_full_leaf(
    pid: Pid,
    encoding: KeyEncoding,
    low: &[u8],
    base: &Base<Value<Global>, Global>,
    out: &mut Vec<u8>,
) -> Result<(), AllocError>
    requires { IsSized (FullLeaf encoding low.now base.now) }
    ensures ok { OnOk result (out.new.items ≡ out.old.items
        ++ bytes_of (record { pid = pid; content = FullLeaf encoding low.now base.now })) }
    ensures words { OnOk result
        (FitsU64 (record { pid = pid; content = FullLeaf encoding low.now base.now })) }
    ensures err { OnErr result (out.new.items ≡ out.old.items) }
{
    write_full(leaf_kind(encoding), pid, encoding, low, base, out)
}

/// Appends the frame of a run that was prepended to a leaf.
pub fn write_delta_leaf(
    pid: Pid,
    run: &Run<Value<Global>, Global>,
    out: &mut Vec<u8>,
) -> Result<(), AllocError>
    requires { IsSized (DeltaLeaf run.now) }
    ensures ok { OnOk result (out.new.items ≡
        out.old.items ++ bytes_of (record { pid = pid; content = DeltaLeaf run.now })) }
    ensures words { OnOk result (FitsU64 (record { pid = pid; content = DeltaLeaf run.now })) }
    ensures err { OnErr result (out.new.items ≡ out.old.items) }
{
    write_delta(DELTA_LEAF, pid, run, out)
}

/// Appends a full image of an index page: this base under this low key, with this key encoding.
pub fn write_full_index(
    pid: Pid,
    encoding: KeyEncoding,
    low: &[u8],
    base: &Base<Pid, Global>,
    out: &mut Vec<u8>,
) -> Result<(), AllocError>
    requires { IsSized (FullIndex encoding low.now base.now) }
    ensures ok { OnOk result (out.new.items ≡ out.old.items
        ++ bytes_of (record { pid = pid; content = FullIndex encoding low.now base.now })) }
    ensures words { OnOk result
        (FitsU64 (record { pid = pid; content = FullIndex encoding low.now base.now })) }
    ensures err { OnErr result (out.new.items ≡ out.old.items) }
{
    write_full(index_kind(encoding), pid, encoding, low, base, out)
}

/// Appends the frame of a run that was prepended to an index page.
pub fn write_delta_index(
    pid: Pid,
    run: &Run<Pid, Global>,
    out: &mut Vec<u8>,
) -> Result<(), AllocError>
    requires { IsSized (DeltaIndex run.now) }
    ensures ok { OnOk result (out.new.items ≡
        out.old.items ++ bytes_of (record { pid = pid; content = DeltaIndex run.now })) }
    ensures words { OnOk result (FitsU64 (record { pid = pid; content = DeltaIndex run.now })) }
    ensures err { OnErr result (out.new.items ≡ out.old.items) }
{
    write_delta(DELTA_INDEX, pid, run, out)
}

/// Appends the frame that records that the page was freed.
pub fn write_free(pid: Pid, out: &mut Vec<u8>) -> Result<(), AllocError>
    ensures ok { OnOk result
        (out.new.items ≡ out.old.items ++ bytes_of (record { pid = pid; content = Free })) }
    ensures words { OnOk result (FitsU64 (record { pid = pid; content = Free })) }
    ensures err { OnErr result (out.new.items ≡ out.old.items) }
{
    begin_frame(FREE, pid, 0, out)
}

/// Appends the frame.
pub fn write_frame(frame: &Frame, out: &mut Vec<u8>) -> Result<(), AllocError>
    requires { (g : Format) × (first_bad_field g.settings ≡ None)
        × (is_frame g (frame_of frame.now) ≡ true) }
    ensures ok { OnOk result (out.new.items ≡ out.old.items ++ bytes_of (frame_of frame.now)) }
    ensures err { OnErr result (out.new.items ≡ out.old.items) }
{
    match frame {
        Frame::FullLeaf {
            pid,
            encoding,
            low,
            base,
        } => write_full_leaf(*pid, *encoding, low.as_bytes(), base, out),
        Frame::DeltaLeaf { pid, run } => write_delta_leaf(*pid, run, out),
        Frame::FullIndex {
            pid,
            encoding,
            low,
            base,
        } => write_full_index(*pid, *encoding, low.as_bytes(), base, out),
        Frame::DeltaIndex { pid, run } => write_delta_index(*pid, run, out),
        Frame::Free { pid } => write_free(*pid, out),
    }
}
