//! The parts of frames: numbers, keys and values. The functions that decode them follow the definitions' decoders; the
//! functions that encode them append to bytes that have room.
ghost use Rattle.std.specs.Prelude.{◌≡◌, ◌≢◌, ◌+◌, ◌-◌, ◌≤◌, ◌∷◌, [], true, length, None, Some, MatchOption, IfSome};
ghost use Rattle.keys.specs.Cells.{read_number, read_where, number, counted, pid_cell};
ghost use Rattle.keys.specs.Sizes.{pid_size};
ghost use Rattle.frame_codec.specs.Appended.{HasRoomFor, IsAppended, IsCount, IsShortCount};
ghost use Rattle.frame_codec.specs.Codecs.{counted_short, common, sharing};
ghost use Rattle.frame_codec.specs.Frame.{header, is_pid, is_key};

use byteorder::{BigEndian, ByteOrder};
use keys::{Pid, Settings};

/// Decodes the byte at the front, and returns it with the bytes after it.
pub(crate) fn read_byte(bytes: &[u8]) -> Option<(u8, &[u8])>
    ensures { MatchOption result (read_number 1 bytes.now ≡ None)
        (λ p. read_number 1 bytes.now ≡ Some (p.0, p.1.now)) }
{
    let (first, rest) = bytes.split_first()?;
    Some((*first, rest))
}

/// Decodes the two-byte number at the front, and returns it with the bytes after it. Lengths and counts are encoded in
/// two bytes.
pub(crate) fn read_length(bytes: &[u8]) -> Option<(usize, &[u8])>
    ensures number { MatchOption result (read_number 2 bytes.now ≡ None)
        (λ p. read_number 2 bytes.now ≡ Some (p.0, p.1.now)) }
    ensures small { IfSome result (λ p. IsCount p.0) }
{
    if bytes.len() < 2 {
        return None;
    }
    Some((BigEndian::read_u16(bytes) as usize, &bytes[2..]))
}

/// Decodes the four-byte number at the front, and returns it with the bytes after it.
pub(crate) fn read_u32(bytes: &[u8]) -> Option<(u32, &[u8])>
    ensures { MatchOption result (read_number 4 bytes.now ≡ None)
        (λ p. read_number 4 bytes.now ≡ Some (p.0, p.1.now)) }
{
    if bytes.len() < 4 {
        return None;
    }
    Some((BigEndian::read_u32(bytes), &bytes[4..]))
}

/// Decodes the page id at the front, and returns it with the bytes after it.
pub(crate) fn read_pid(bytes: &[u8]) -> Option<(Pid, &[u8])>
    ensures number { MatchOption result (pid_cell.read bytes.now ≡ None)
        (λ p. pid_cell.read bytes.now ≡ Some (p.0, p.1.now)) }
    ensures word { IfSome result (λ p. is_pid p.0 ≡ true) }
{
    if bytes.len() < 8 {
        return None;
    }
    Some((Pid(BigEndian::read_u64(bytes)), &bytes[8..]))
}

/// Decodes the key or the value at the front, and returns it with the bytes after it.
pub(crate) fn read_counted(bytes: &[u8]) -> Option<(&[u8], &[u8])>
    ensures { MatchOption result (counted.read bytes.now ≡ None)
        (λ p. counted.read bytes.now ≡ Some (p.0.now, p.1.now)) }
{
    let (len, rest) = read_length(bytes)?;
    if rest.len() < len {
        return None;
    }
    Some(rest.split_at(len))
}

/// Decodes the bytes at the front that follow their length in one byte, and returns them with the bytes after them.
pub(crate) fn read_short(bytes: &[u8]) -> Option<(&[u8], &[u8])>
    ensures bytes { MatchOption result (counted_short.read bytes.now ≡ None)
        (λ p. counted_short.read bytes.now ≡ Some (p.0.now, p.1.now)) }
    ensures small { IfSome result (λ p. IsShortCount (length p.0.now)) }
{
    let (len, rest) = read_byte(bytes)?;
    let len = len as usize;
    if rest.len() < len {
        return None;
    }
    Some(rest.split_at(len))
}

/// Decodes the frame header at the front: kind, length and page id. Returns them with the bytes after them.
pub(crate) fn read_header(bytes: &[u8]) -> Option<(u8, u32, u64, &[u8])>
    ensures header { let read = header.read bytes.now in
        MatchOption result (read ≡ None) (λ p. read ≡ Some (((p.0, p.1), p.2), p.3.now)) }
    ensures word { IfSome result (λ p. is_pid p.2 ≡ true) }
{
    let (kind, rest) = read_byte(bytes)?;
    let (len, rest) = read_u32(rest)?;
    let Some((pid, rest)) = read_pid(rest) else {
        return None;
    };
    Some((kind, len, pid.0, rest))
}

/// Decodes the key at the front, if it is no longer than the settings allow, and returns it with the bytes after it.
pub(crate) fn read_key<'a>(bytes: &'a [u8], settings: &Settings) -> Option<(&'a [u8], &'a [u8])>
    ensures { let read = read_where (is_key settings.now) (counted.read bytes.now) in
        MatchOption result (read ≡ None) (λ p. read ≡ Some (p.0.now, p.1.now)) }
{
    let (key, rest) = read_counted(bytes)?;
    if key.len() > settings.max_key as usize {
        return None;
    }
    Some((key, rest))
}

/// The size of the frame whose content is `content` without `rest`, if the length in its header is right.
pub(crate) fn frame_size(bytes: &[u8], len: u32, content: &[u8], rest: &[u8]) -> Option<usize>
    requires following { length rest.now ≤ length content.now }
    requires within { length content.now ≤ length bytes.now }
    ensures { MatchOption result (len ≢ pid_size + (length content.now - length rest.now))
        (λ size. (len ≡ pid_size + (length content.now - length rest.now))
        × (size ≡ length bytes.now - length rest.now)) }
{
    // The length counts from the page id on.
    if len as usize != 8 + (content.len() - rest.len()) {
        return None;
    }
    Some(bytes.len() - rest.len())
}

/// Appends the bytes. There is room for them, so nothing is allocated.
pub(crate) fn append(out: &mut Vec<u8>, bytes: &[u8])
    requires { HasRoomFor out.old (length bytes.now) }
    ensures { IsAppended out.old out.new bytes.now }
{
    let _never_refused = out.extend_from_slice(bytes);
}

pub(crate) fn append_byte(out: &mut Vec<u8>, byte: u8)
    requires { HasRoomFor out.old 1 }
    ensures { IsAppended out.old out.new (byte ∷ []) }
{
    append(out, &[byte]);
}

pub(crate) fn append_length(out: &mut Vec<u8>, count: usize)
    requires small { IsCount count }
    requires room { HasRoomFor out.old 2 }
    ensures { IsAppended out.old out.new ((number 2).encode count) }
{
    let mut bytes = [0; 2];
    BigEndian::write_u16(&mut bytes, count as u16);
    append(out, &bytes);
}

pub(crate) fn append_u32(out: &mut Vec<u8>, count: u32)
    requires { HasRoomFor out.old 4 }
    ensures { IsAppended out.old out.new ((number 4).encode count) }
{
    let mut bytes = [0; 4];
    BigEndian::write_u32(&mut bytes, count);
    append(out, &bytes);
}

pub(crate) fn append_pid(out: &mut Vec<u8>, pid: Pid)
    requires { HasRoomFor out.old 8 }
    ensures bytes { IsAppended out.old out.new (pid_cell.encode pid) }
    ensures word { is_pid pid ≡ true }
{
    let mut bytes = [0; 8];
    BigEndian::write_u64(&mut bytes, pid.0);
    append(out, &bytes);
}

/// Appends a key or a value with its length. There is room for it.
pub(crate) fn append_counted(out: &mut Vec<u8>, bytes: &[u8])
    requires small { IsCount (length bytes.now) }
    requires room { HasRoomFor out.old (2 + length bytes.now) }
    ensures { IsAppended out.old out.new (counted.encode bytes.now) }
{
    append_length(out, bytes.len());
    append(out, bytes);
}

fn common_len(one: &[u8], other: &[u8]) -> usize
    ensures same { result ≡ common one.now other.now }
    ensures within { result ≤ length other.now }
{
    let most = one.len().min(other.len());
    for at in 0..most {
        if one[at] != other[at] {
            return at;
        }
    }
    most
}

/// The size of the prefix-compressed key, where `before` is the key before it.
pub(crate) fn sharing_len(before: &[u8], key: &[u8]) -> usize
    requires { IsShortCount (length key.now) }
    ensures { result ≡ length ((sharing before.now).encode key.now) }
{
    2 + (key.len() - common_len(before, key))
}

/// Appends the prefix-compressed key, where `before` is the key before it. There is room for it.
pub(crate) fn append_sharing(out: &mut Vec<u8>, before: &[u8], key: &[u8])
    requires small { IsShortCount (length key.now) }
    requires room { HasRoomFor out.old (length ((sharing before.now).encode key.now)) }
    ensures { IsAppended out.old out.new ((sharing before.now).encode key.now) }
{
    let shared = common_len(before, key);
    let rest = &key[shared..];
    append_byte(out, shared as u8);
    append_byte(out, rest.len() as u8);
    append(out, rest);
}
