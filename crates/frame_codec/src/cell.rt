//! Cells in frames: a value or a page id, or the absence of either.
ghost use Rattle.std.specs.Prelude.{◌≡◌, ℕ, ◌+◌, ◌<◌, true, length, None, Some, IfOk, MatchOption};
ghost use Rattle.std.specs.Option.{option_copied};
ghost use Rattle.keys.specs.Bytes.{Bytes};
ghost use Rattle.keys.specs.Cells.{read_where};
ghost use Rattle.index_page.specs.Rules.{of_cell};
ghost use Rattle.frame_codec.specs.Appended.{HasRoomFor, IsAppended, IsCount};
ghost use Rattle.frame_codec.specs.Codecs.{encode_flag, flagged};

use crate::parts::{append_byte, append_counted, append_pid, read_counted, read_pid};
use keys::{Pid, Settings, Value};
use std::alloc::{AllocError, Global};

/// What follows a key in a frame: a cell, or a change, which is a cell or its absence.
pub(crate) trait FrameItem {
    ghost use Rattle.std.specs.Prelude.{Bool};
    ghost use Rattle.keys.specs.Cells.{Codec};
    ghost use Rattle.keys.specs.declared.settings.Settings as limits;

    // The encoding, and which cells a frame may contain under the settings.
    ghost codec: { Codec Self };

    ghost is_short: { limits.Settings → Self → Bool };

    /// Skips the cell at the front, if a frame may contain it, and returns the bytes after it.
    fn skip<'a>(bytes: &'a [u8], settings: &Settings) -> Option<&'a [u8]>
        ensures { let read = read_where (is_short settings.now) (codec.read bytes.now) in
            MatchOption result (read ≡ None)
            (λ rest. (cell : Self) × (read ≡ Some (cell, rest.now))) };
}

/// A kind of cell: the values of leaves, or the page ids of index pages.
pub(crate) trait FrameCell: FrameItem + Drop {
    ghost use Rattle.std.specs.Prelude.{Bool, true};
    ghost use Rattle.keys.specs.declared.settings.Settings as limits;

    // The two parts of `is_short`: the size of the cell, which is known from its page, and whether a page id has 64
    // bits, which `append` shows.
    ghost has_size: { limits.Settings → Self → Bool };

    ghost is_word: { Self → Bool };

    /// Decodes the cell at the front, if a frame may contain it, and returns it with the bytes
    /// after it.
    fn read<'a>(
        alloc: Global,
        bytes: &'a [u8],
        settings: &Settings,
    ) -> Result<Option<(Self, &'a [u8])>, AllocError>
        ensures { IfOk result (λ found. MatchOption found
            (read_where (Self.is_short settings.now) (Self.codec.read bytes.now) ≡ None)
            (λ p. read_where (Self.is_short settings.now) (Self.codec.read bytes.now)
            ≡ Some (p.0, p.1.now))) };

    /// Returns the number of bytes of the encoded cell.
    fn encoded_len(&self) -> usize
        requires { IsCount (length (Self.codec.encode self.now)) }
        ensures { result ≡ length (Self.codec.encode self.now) };

    /// Appends the encoded cell. `out` has room for it.
    fn append(&self, out: &mut Vec<u8>)
        requires small { IsCount (length (Self.codec.encode self.now)) }
        requires room { HasRoomFor out.old (length (Self.codec.encode self.now)) }
        ensures bytes { IsAppended out.old out.new (Self.codec.encode self.now) }
        ensures word { is_word self.now ≡ true };

    // Together, the two parts are the requirement for frames.
    ghost is_short_by_both: { (s : limits.Settings) (cell : Self) → has_size s cell ≡ true →
        is_word cell ≡ true → Self.is_short s cell ≡ true };
}

impl FrameItem for Value<Global> {
    ghost use Rattle.keys.specs.Cells.{value_cell};
    ghost use Rattle.index_page.specs.Rules.{is_short_value};

    ghost codec = { value_cell };

    ghost is_short = { is_short_value };

    fn skip<'a>(bytes: &'a [u8], settings: &Settings) -> Option<&'a [u8]>
        ensures { let read = read_where (is_short_value settings.now) (value_cell.read bytes.now) in
            MatchOption result (read ≡ None)
            (λ rest. (cell : Bytes) × (read ≡ Some (cell, rest.now))) }
    {
        let (value, rest) = read_counted(bytes)?;
        if value.len() > settings.max_value as usize {
            return None;
        }
        Some(rest)
    }
}

impl FrameCell for Value<Global> {
    ghost use Rattle.std.specs.Prelude.{true};
    ghost use Rattle.keys.specs.Cells.{value_cell};
    ghost use Rattle.index_page.specs.Rules.{is_short_value};

    ghost has_size = { is_short_value };

    ghost is_word = { λ _. true };

    ghost is_short_by_both = { λ s cell h k. h };

    fn read<'a>(
        alloc: Global,
        bytes: &'a [u8],
        settings: &Settings,
    ) -> Result<Option<(Self, &'a [u8])>, AllocError>
        ensures { IfOk result (λ found. MatchOption found
            (read_where (is_short_value settings.now) (value_cell.read bytes.now) ≡ None)
            (λ p. read_where (is_short_value settings.now) (value_cell.read bytes.now)
            ≡ Some (p.0, p.1.now))) }
    {
        let Some((value, rest)) = read_counted(bytes) else {
            return Ok(None);
        };
        if value.len() > settings.max_value as usize {
            return Ok(None);
        }
        Ok(Some((Value::from_bytes(alloc, value)?, rest)))
    }

    fn encoded_len(&self) -> usize {
        2 + self.len()
    }

    fn append(&self, out: &mut Vec<u8>) {
        append_counted(out, self.as_bytes());
    }
}

impl FrameItem for Pid {
    ghost use Rattle.keys.specs.Cells.{pid_cell};
    ghost use Rattle.frame_codec.specs.Frame.{is_pid};

    ghost codec = { pid_cell };

    ghost is_short = { λ _. is_pid };

    fn skip<'a>(bytes: &'a [u8], _settings: &Settings) -> Option<&'a [u8]>
        ensures { let read = read_where is_pid (pid_cell.read bytes.now) in
            MatchOption result (read ≡ None) (λ rest. (cell : ℕ) × (read ≡ Some (cell, rest.now))) }
    {
        match read_pid(bytes) {
            Some((_, rest)) => Some(rest),
            None => None,
        }
    }
}

impl FrameCell for Pid {
    ghost use Rattle.std.specs.Prelude.{true};
    ghost use Rattle.keys.specs.Cells.{pid_cell};
    ghost use Rattle.index_page.specs.Rules.{is_any_pid};
    ghost use Rattle.frame_codec.specs.Frame.{is_pid};

    ghost has_size = { λ _. is_any_pid };

    ghost is_word = { is_pid };

    ghost is_short_by_both = { λ s cell h k. k };

    fn read<'a>(
        _alloc: Global,
        bytes: &'a [u8],
        _settings: &Settings,
    ) -> Result<Option<(Self, &'a [u8])>, AllocError>
        ensures { IfOk result (λ found. MatchOption found
            (read_where is_pid (pid_cell.read bytes.now) ≡ None)
            (λ p. read_where is_pid (pid_cell.read bytes.now) ≡ Some (p.0, p.1.now))) }
    {
        Ok(read_pid(bytes))
    }

    fn encoded_len(&self) -> usize {
        8
    }

    fn append(&self, out: &mut Vec<u8>) {
        append_pid(out, *self);
    }
}

impl<V: FrameItem> FrameItem for Option<V> {
    ghost use Rattle.std.specs.Prelude.{Option};

    ghost codec = { flagged V.codec };

    ghost is_short = { λ s. of_cell (V.is_short s) };

    fn skip<'a>(bytes: &'a [u8], settings: &Settings) -> Option<&'a [u8]>
        ensures { let read =
            read_where (of_cell (V.is_short settings.now)) ((flagged V.codec).read bytes.now) in
            MatchOption result (read ≡ None)
            (λ rest. (cell : Option V) × (read ≡ Some (cell, rest.now))) }
    {
        match bytes.split_first() {
            Some((0, rest)) => Some(rest),
            Some((1, rest)) => V::skip(rest, settings),
            _ => None,
        }
    }
}

/// Decodes the flag at the front, and after a flag 1 the cell, if a frame may contain it. Returns the change with the
/// bytes after it.
pub(crate) fn read_flagged<'a, V: FrameCell>(
    alloc: Global,
    bytes: &'a [u8],
    settings: &Settings,
) -> Result<Option<(Option<V>, &'a [u8])>, AllocError>
    ensures { IfOk result (λ found. MatchOption found
        (read_where (of_cell (V.is_short settings.now)) ((flagged V.codec).read bytes.now) ≡ None)
        (λ p. read_where (of_cell (V.is_short settings.now)) ((flagged V.codec).read bytes.now)
        ≡ Some (p.0, p.1.now))) }
{
    match bytes.split_first() {
        Some((0, rest)) => Ok(Some((None, rest))),
        Some((1, rest)) => match V::read(alloc, rest, settings)? {
            Some((cell, rest)) => Ok(Some((Some(cell), rest))),
            None => Ok(None),
        },
        _ => Ok(None),
    }
}

/// The number of bytes of the flag and, if there is one, the cell.
pub(crate) fn flagged_len<V: FrameCell>(cell: Option<&V>) -> usize
    requires { IsCount (length (encode_flag V.codec (option_copied cell))) }
    ensures { result ≡ length (encode_flag V.codec (option_copied cell.entry)) }
{
    match cell {
        None => 1,
        Some(cell) => 1 + cell.encoded_len(),
    }
}

/// Appends the flag and, if there is one, the cell. `out` has room for them.
pub(crate) fn append_flagged<V: FrameCell>(out: &mut Vec<u8>, cell: Option<&V>)
    requires small { IsCount (length (encode_flag V.codec (option_copied cell))) }
    requires room { HasRoomFor out.old (length (encode_flag V.codec (option_copied cell))) }
    ensures bytes { IsAppended out.old out.new (encode_flag V.codec (option_copied cell.entry)) }
    ensures word { of_cell V.is_word (option_copied cell.entry) ≡ true }
{
    match cell {
        None => append_byte(out, 0),
        Some(cell) => {
            append_byte(out, 1);
            cell.append(out);
        }
    }
}
