//! Tokens: byte strings encoded as words of a batch file.
ghost use Rattle.std.specs.Prelude.{◌≡◌, ◌<◌, ◌++◌, ◌/◌, ◌%◌, [], ◌∷◌, length, take, Some, None, if◌then◌else◌, IfOk, IfSome, MatchOption, OnOk, OnErr};
ghost use Rattle.std.specs.List.{list_all};
ghost use Rattle.bwsh.specs.Token.{hex_value, hex_byte, stands_for_itself, unescaped, byte_in_front, with_front, token_bytes, hex_digit, shown_byte, shown_token};
ghost use Rattle.bwsh.specs.Output.{Puts};

use crate::output::Buffer;
use crate::session::Result;
use std::alloc::AllocError;
use std::io::Write;

fn hex_value(digit: u8) -> Option<u8>
    ensures value { result ≡ hex_value digit }
    ensures small { IfSome result (λ value. value < 16) }
{
    match digit {
        b'0'..=b'9' => Some(digit - b'0'),
        b'A'..=b'F' => Some(digit - b'A' + 10),
        b'a'..=b'f' => Some(digit - b'a' + 10),
        _ => None,
    }
}

fn hex_byte(high: u8, low: u8) -> Option<u8>
    ensures { result ≡ hex_byte high low }
{
    Some(16 * hex_value(high)? + hex_value(low)?)
}

fn stands_for_itself(byte: u8) -> bool
    ensures { result ≡ stands_for_itself byte }
{
    byte.is_ascii_graphic() && byte != b'%'
}

// Tests all bytes without an early exit, so that the compiler can vectorize the loop.
fn are_plain(bytes: &[u8]) -> bool
    ensures { result ≡ list_all stands_for_itself bytes.now }
{
    let mut plain = true;
    for byte in bytes {
        plain &= stands_for_itself(*byte);
    }
    plain
}

// Decodes the first byte of `text`. Returns the byte and the rest of `text`.
fn first_byte(text: &[u8]) -> Option<(u8, &[u8])>
    requires { 0 < length text.now }
    ensures value { MatchOption result (unescaped text.now ≡ None)
        (λ first. unescaped text.now ≡ byte_in_front (Some first.0) (unescaped first.1.now)) }
    ensures shorter { IfSome result (λ first. length first.1.now < length text.now) }
{
    match text {
        [b'%', high, low, rest @ ..] => Some((hex_byte(*high, *low)?, rest)),
        [byte, rest @ ..] if stands_for_itself(*byte) => Some((*byte, rest)),
        _ => None,
    }
}

// Appends the decoded `text` to `bytes`. Returns false if `text` is malformed.
fn push_unescaped(text: &[u8], bytes: &mut Vec<u8>) -> Result<bool, AllocError>
    ensures { IfOk result (λ well. (if well then Some bytes.new.items else None)
        ≡ with_front bytes.old.items (unescaped text.now)) }
{
    bytes.reserve(text.len())?;
    let mut rest = text;
    while !rest.is_empty() {
        let Some((byte, following)) = first_byte(rest) else {
            return Ok(false);
        };
        bytes.push(byte)?;
        rest = following;
    }
    Ok(true)
}

/// Decodes `token` into `bytes`, which is cleared first. Returns false if `token` is malformed.
/// Then, and after an `Err`, `bytes` may hold the first decoded bytes.
pub fn unescape(token: &[u8], bytes: &mut Vec<u8>) -> Result<bool, AllocError>
    ensures { IfOk result
        (λ well. (if well then Some bytes.new.items else None) ≡ token_bytes token.now) }
{
    bytes.clear();
    if token == b"%".as_slice() {
        return Ok(true);
    }
    if token.is_empty() {
        return Ok(false);
    }
    if are_plain(token) {
        bytes.extend_from_slice(token)?;
        return Ok(true);
    }
    push_unescaped(token, bytes)
}

fn hex_digit(value: u8) -> u8
    requires { value < 16 }
    ensures { result ≡ hex_digit value }
{
    if value < 10 {
        b'0' + value
    } else {
        b'A' - 10 + value
    }
}

fn put_byte<O: Write>(byte: u8, buffer: &mut Buffer, out: &mut O) -> Result<()>
    ensures { Puts O.contents buffer.old out.old buffer.new out.new (shown_byte byte) result }
{
    if stands_for_itself(byte) {
        return buffer.put(&[byte], out);
    }
    let token = [b'%', hex_digit(byte / 16), hex_digit(byte % 16)];
    buffer.put(&token, out)
}

/// Encodes `bytes` as a token and adds it to the buffer.
pub fn put_token<O: Write>(bytes: &[u8], buffer: &mut Buffer, out: &mut O) -> Result<()>
    ensures { Puts O.contents buffer.old out.old buffer.new out.new (shown_token bytes.now) result }
{
    if bytes.is_empty() {
        return buffer.put(b"%", out);
    }
    if are_plain(bytes) {
        return buffer.put(bytes, out);
    }
    for byte in bytes {
        put_byte(*byte, buffer, out)?;
    }
    Ok(())
}
