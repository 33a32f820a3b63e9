//! Printing answers.
ghost use Rattle.std.specs.Prelude.{◌≡◌, ◌∷◌, ◌++◌, [], codes, map, Some, Ok, IfSome, OnOk, OnErr, IsOkUnless, false, true};
ghost use Rattle.std.specs.Fmt.{WritesOnOk};
ghost use Rattle.std.specs.List.{flat_map};
ghost use Rattle.std.specs.Io.KnownBytes.{Appends};
ghost use Rattle.keys.specs.Bytes.{Bytes};
ghost use Rattle.engine.specs.Plays.{answer_of};
ghost use Rattle.bwsh.specs.Output.{IsBegun, Puts, Writes};
ghost use Rattle.bwsh.specs.Session.{error_text, fault_line};
ghost use Rattle.bwsh.specs.Shown.{number_line, shown_answer, shown_numbers, shown_reply, shown_row, shown_settings};
ghost use Rattle.bwsh.specs.Token.{shown_token};

use crate::output::{Buffer, write_bytes};
use crate::session::{Result, SessionError};
use crate::token::put_token;
use engine::{Answer, Report};
use keys::{Fault, Reply, RowList, Settings};
use std::alloc::Global;
use std::fmt;
use std::fmt::{InlineText, Write as _};
use std::io::Write;

// Room for each line of numbers: seven numbers of at most 39 digits, and the words around them.
const LINE: usize = 384;

/// The statistics that `--stat` and `.stat` print.
#[derive(Clone, Copy, Debug, PartialEq, Eq)]
pub struct StoreNumbers {
    /// How many commits there were: the creation, flushes that wrote, cleans and upgrades.
    pub sequence: u64,
    /// The number of the log's first segment.
    pub head: u64,
    /// The position at which the log ends (`Store::tail`): byte `offset` of segment n has the
    /// position `n * seg_size + offset`.
    pub tail: u64,
    /// How many segments of the log are in use.
    pub in_use: u64,
    /// How many segments the log may have.
    pub segments: u64,
    pub pages: u128,
    pub pairs: u128,
}

/// A line of numbers, with its line feed.
#[derive(Clone, Copy)]
pub enum NumberLine {
    Rows(usize),
    Wiped(u128),
    Flushed(u64),
    Cleaned(u64),
    Upgraded(u64),
    Tidied(u64),
    Copied(u128),
    Report(Report),
    Numbers(StoreNumbers),
    Settings(Settings),
}

impl fmt::Display for NumberLine {
    ghost output = { λ line. Some (number_line line) };

    fn fmt<W: fmt::Write>(&self, f: &mut fmt::Formatter<W>) -> fmt::Result {
        match self {
            NumberLine::Rows(count) => writeln!(f, "rows {count}"),
            NumberLine::Wiped(count) => writeln!(f, "wiped {count}"),
            NumberLine::Flushed(sequence) => writeln!(f, "flushed {sequence}"),
            NumberLine::Cleaned(head) => writeln!(f, "cleaned {head}"),
            NumberLine::Upgraded(sequence) => writeln!(f, "upgraded {sequence}"),
            NumberLine::Tidied(pages) => writeln!(f, "tidied {pages}"),
            NumberLine::Copied(pairs) => writeln!(f, "copied {pairs}"),
            NumberLine::Report(r) => writeln!(f, "ok {} {} {}", r.pages, r.height, r.pairs),
            NumberLine::Numbers(numbers) => write_numbers(numbers, f),
            NumberLine::Settings(settings) => write_settings(settings, f),
        }
    }
}

fn write_numbers<W: fmt::Write>(numbers: &StoreNumbers, f: &mut fmt::Formatter<W>) -> fmt::Result
    ensures { WritesOnOk W.write_str_gives f.old result (shown_numbers numbers.now) f.new }
{
    let StoreNumbers {
        sequence,
        head,
        tail,
        in_use,
        segments,
        pages,
        pairs,
    } = *numbers;
    write!(f, "stat sequence {sequence} head {head} tail {tail}")?;
    writeln!(
        f,
        " segments {in_use} of {segments} pages {pages} pairs {pairs}"
    )
}

fn write_settings<W: fmt::Write>(settings: &Settings, f: &mut fmt::Formatter<W>) -> fmt::Result
    ensures { WritesOnOk W.write_str_gives f.old result (shown_settings settings.now) f.new }
{
    let Settings {
        fan,
        chain,
        max_key,
        max_value,
        seg_size,
        segments,
    } = *settings;
    write!(f, "settings fan {fan} chain {chain} max-key {max_key}")?;
    writeln!(
        f,
        " max-value {max_value} seg-size {seg_size} segments {segments}"
    )
}

impl Buffer {
    /// Adds a line of numbers.
    pub fn put_numbers<O: Write>(&mut self, line: NumberLine, out: &mut O) -> Result<()>
        ensures { Puts O.contents self.old out.old self.new out.new (number_line line) result }
    {
        let mut text = InlineText::<LINE>::new();
        if write!(text, "{line}").is_err() {
            // Not reached: each line fits.
            return Err(SessionError::Device);
        }
        self.put(text.as_str().as_bytes(), out)
    }

    /// Adds the line of a row.
    pub fn put_row<O: Write>(&mut self, key: &[u8], value: &[u8], out: &mut O) -> Result<()>
        ensures { Puts O.contents self.old out.old self.new out.new
            (shown_row (key.now, value.now)) result }
    {
        put_token(key, self, out)?;
        self.put(b" ", out)?;
        put_token(value, self, out)?;
        self.put(b"\n", out)
    }

    fn put_rows<O: Write>(&mut self, rows: &RowList<Global>, out: &mut O) -> Result<()>
        ensures { Puts O.contents self.old out.old self.new out.new
            (flat_map shown_row rows.now) result }
    {
        for (key, value) in rows {
            self.put_row(key, value, out)?;
        }
        Ok(())
    }

    fn put_value<O: Write>(&mut self, value: &[u8], out: &mut O) -> Result<()>
        ensures { Puts O.contents self.old out.old self.new out.new
            (codes "value " ++ shown_token value.now ++ 10 ∷ []) result }
    {
        self.put(b"value ", out)?;
        put_token(value, self, out)?;
        self.put(b"\n", out)
    }

    fn put_reply<O: Write>(&mut self, reply: &Reply<Global>, out: &mut O) -> Result<()>
        ensures { Puts O.contents self.old out.old self.new out.new
            (shown_reply reply.now) result }
    {
        match reply {
            Reply::Value(value) => self.put_value(value.as_bytes(), out),
            Reply::Missing => self.put(b"missing\n", out),
            Reply::New => self.put(b"new\n", out),
            Reply::Replaced => self.put(b"replaced\n", out),
            Reply::Added => self.put(b"added\n", out),
            Reply::Exists => self.put(b"exists\n", out),
            Reply::Deleted => self.put(b"deleted\n", out),
            Reply::Rows(rows) => {
                self.put_numbers(NumberLine::Rows(rows.len()), out)?;
                self.put_rows(rows, out)
            }
            Reply::Wiped(count) => self.put_numbers(NumberLine::Wiped(*count), out),
        }
    }
}

fn print_replies<O: Write>(alloc: Global, replies: &[Reply<Global>], out: &mut O) -> Result<()>
    ensures { Writes (O.contents out.old) (O.contents out.new)
        (map shown_reply replies.now) result }
{
    let mut buffer = Buffer::new(alloc);
    for reply in replies {
        buffer.put_reply(reply, out)?;
    }
    buffer.write(out)
}

/// Prints a line of numbers.
pub fn print_numbers<O: Write>(line: NumberLine, out: &mut O) -> Result<()>
    ensures { Writes (O.contents out.old) (O.contents out.new)
        (number_line line ∷ []) result }
{
    let mut text = InlineText::<LINE>::new();
    if write!(text, "{line}").is_err() {
        // Not reached: each line fits.
        return Err(SessionError::Device);
    }
    write_bytes(text.as_str().as_bytes(), out)
}

/// Prints the answer to a step.
pub fn print_answer<O: Write>(alloc: Global, answer: &Answer, out: &mut O) -> Result<()>
    ensures { Writes (O.contents out.old) (O.contents out.new)
        (shown_answer (answer_of answer.now)) result }
{
    match answer {
        Answer::Replies(replies) => print_replies(alloc, replies, out),
        Answer::Flushed(sequence) => print_numbers(NumberLine::Flushed(*sequence), out),
        Answer::Cleaned(head) => print_numbers(NumberLine::Cleaned(*head), out),
        Answer::Upgraded(sequence) => print_numbers(NumberLine::Upgraded(*sequence), out),
    }
}

pub(crate) fn print_answers<O: Write>(alloc: Global, answers: &[Answer], out: &mut O) -> Result<()>
    ensures { Writes (O.contents out.old) (O.contents out.new)
        (flat_map shown_answer (map answer_of answers.now)) result }
{
    for answer in answers {
        print_answer(alloc, answer, out)?;
    }
    Ok(())
}

/// Prints an error: the answer to a bad line of a stream, the last line of a stream whose disk
/// failed, or the report of a session's end. The error is formatted first, so that it is one write.
pub fn print_error<O: Write>(error: &SessionError, out: &mut O) -> Result<()>
    ensures ok { OnOk result (IfSome (error_text error.now)
        (Appends (O.contents out.old) (O.contents out.new))) }
    ensures err { OnErr result (IfSome (error_text error.now)
        (IsBegun (O.contents out.old) (O.contents out.new))) }
    ensures device { IsOkUnless result SessionError.Device }
{
    let mut line = InlineText::<LINE>::new();
    if write!(line, "{error}").is_err() {
        return Err(SessionError::Device);
    }
    write_bytes(line.as_str().as_bytes(), out)
}

/// Prints the line that answers a refused order of a stream.
pub fn print_refusal<O: Write>(fault: &Fault, out: &mut O) -> Result<()>
    ensures { (told : Bytes) × Writes (O.contents out.old) (O.contents out.new)
        (fault_line told ∷ []) result }
{
    let (mut told, mut line) = (InlineText::<LINE>::new(), InlineText::<LINE>::new());
    if write!(told, "{fault}").is_err() || writeln!(line, "fault {}", told.as_str()).is_err() {
        return Err(SessionError::Device);
    }
    write_bytes(line.as_str().as_bytes(), out)
}
