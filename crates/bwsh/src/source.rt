//! The source of a session's orders: reads the lines of a stream or of a text one at a time.
ghost use Rattle.std.specs.Prelude.{◌≡◌, ◌==◌, ◌&&◌, ◌+◌, ◌-◌, ◌^◌, ◌++◌, ℕ, [], List, None, Some, IfOk, IfErr, IfSome, false, true, if◌then◌else◌, min, nat_lt, not, option_to_list};
ghost use Rattle.std.specs.Io.{StopsAt};
ghost use Rattle.std.specs.Io.BufRead.{drop_through, take_through};
ghost use Rattle.bstr.specs.Text.{last_byte_of, line_len, without_terminator};
ghost use Rattle.bwsh.specs.declared.line.Line.{Line};
ghost use Rattle.bwsh.specs.BatchFile.{asked, asks_too_much, is_too_long};
ghost use Rattle.bwsh.specs.BatchFile.Pending.{begun, skipped};
ghost use Rattle.bwsh.specs.Source.{IsBatched, IsFront, IsKept, IsLong, IsNext, IsParsed, IsPushed, IsRead, IsSkipped, Orders, is_line, pending_of, to_come, unended};

use crate::context::Session;
use crate::line::{Line, LineReader, MOST_BYTES, Why};
use crate::notes::Source as FailedSource;
use crate::order::{Bounds, Order};
use crate::progress::{Event, Observer};
use crate::session::{Result, SessionError};
use bstr::ByteSlice;
use engine::Batch;
use keys::Command;
use std::alloc::Global;
use std::io::{BufRead, ErrorKind};
use std::{io, mem};

// How many commands a batch may have. A stream runs a longer one as soon as it has one command
// more, so that the store refuses it, and skips the rest of the batch.
const MOST_COMMANDS: usize = 65_535;

// How many bytes of a line of a stream are kept. If a line has more, these suffice to parse it: it
// is longer than `MOST_BYTES` even without a line feed and a carriage return at its end.
const MOST_KEPT: usize = MOST_BYTES + 3;

/// How many bytes are reserved for a line of a stream: as many as are kept, and what one read shows.
pub const ROOM: usize = MOST_KEPT + 8_192;

// Returns whether `rows` are more than a bound, of which 0 is none.
fn is_beyond(bound: u32, rows: u64) -> bool
    ensures { (all : ℕ) → rows ≡ min all (2 ^ 64 - 1) →
        result ≡ (not (bound == 0) && nat_lt bound all) }
{
    bound != 0 && u64::from(bound) < rows
}

// Removes the line feed at the end of `line`, and a carriage return before it.
fn without_end(line: &[u8]) -> &[u8]
    ensures { result.now ≡ without_terminator line.now }
{
    let n = line.len();
    if n == 0 || line[n - 1] != b'\n' {
        return line;
    }
    if n == 1 || line[n - 2] != b'\r' {
        return &line[..n - 1];
    }
    &line[..n - 2]
}

fn line_len(bytes: &[u8]) -> usize
    ensures { result ≡ line_len bytes.now }
{
    match bytes.find_byte(b'\n') {
        Some(at) => at + 1,
        None => bytes.len(),
    }
}

// Skips the buffered part of a line, up to its line feed. Returns the last byte that was skipped,
// or `None` at the end of the input.
fn skip_shown<I: BufRead>(input: &mut I) -> io::Result<Option<u8>>
    ensures { IfOk result (IsSkipped (I.remaining input.old) (I.remaining input.new)) }
{
    let shown = match input.fill_buf() {
        Ok(shown) => shown,
        Err(error) => return Err(error),
    };
    let len = line_len(shown);
    let skipped = &shown[..len];
    let last = skipped.last_byte();
    input.consume(len);
    Ok(last)
}

// Skips the rest of a line that begins with `read`. Returns the last byte of the line, if there is
// one.
fn skip_rest<I: BufRead>(input: &mut I, read: &[u8]) -> io::Result<Option<u8>>
    requires { StopsAt read.now 10 }
    ensures { IfOk result (λ last. IfSome (I.remaining input.old) (λ left.
        (last ≡ last_byte_of (take_through 10 (read.now ++ left)))
        × (I.remaining input.new ≡ Some (drop_through 10 (read.now ++ left))))) }
{
    let mut last = read.last_byte();
    for _ in 0..u64::MAX {
        if last == Some(b'\n') {
            return Ok(last);
        }
        let skipped = skip_shown(input)?;
        let Some(byte) = skipped else {
            return Ok(last);
        };
        last = Some(byte);
    }
    // Reached only after 2^64 - 1 reads.
    Err(io::Error::from(ErrorKind::TimedOut))
}

// Appends the buffered part of a line, up to its line feed, to `text`. Returns the last byte that
// was appended, or `None` at the end of the input.
fn push_shown<I: BufRead>(input: &mut I, text: &mut Vec<u8>) -> io::Result<Option<u8>>
    ensures { IfOk result (IsPushed (I.remaining input.old) (I.remaining input.new)
        text.old.items text.new.items) }
{
    let shown = match input.fill_buf() {
        Ok(shown) => shown,
        Err(error) => return Err(error),
    };
    let len = line_len(shown);
    let part = &shown[..len];
    let last = part.last_byte();
    if text.extend_from_slice(part).is_err() {
        // Not reached where `ROOM` is reserved and the buffer of `input` has at most 8 KiB.
        return Err(io::Error::from(ErrorKind::OutOfMemory));
    }
    input.consume(len);
    Ok(last)
}

// Reads a line into `text`, which is empty, but not much more than `MOST_KEPT` bytes of it. Returns
// whether the line was read to its end.
fn read_front<I: BufRead>(input: &mut I, text: &mut Vec<u8>) -> io::Result<bool>
    requires { text.old.items ≡ [] }
    ensures { IfOk result (IsFront (I.remaining input.old) (I.remaining input.new)
        text.new.items) }
{
    for _ in 0..u64::MAX {
        if text.len() >= MOST_KEPT {
            return Ok(false);
        }
        let shown = push_shown(input, text)?;
        let Some(byte) = shown else {
            return Ok(true);
        };
        if byte == b'\n' {
            return Ok(true);
        }
    }
    // Reached only after 2^64 - 1 reads.
    Err(io::Error::from(ErrorKind::TimedOut))
}

/// Lines, and the orders that they make.
#[derive(Drop)]
pub struct Source<I> {
    input: I,
    alloc: Global,
    bounds: Bounds,
    reader: LineReader,
    // The last line. In a stream, it never grows beyond the room that is reserved for it.
    text: Vec<u8>,
    // The number of the last line that was read, counted from 1.
    number: u64,
    // The batch that is not ended yet.
    batch: Batch,
    // Whether that batch was answered already, so that its other lines are skipped.
    is_discarded: bool,
    // The order of the last line, if a batch was returned first.
    queued: Option<Order>,
    // The order that comes after the last line.
    last: Option<Order>,
    is_at_end: bool,
}

impl<I: BufRead> Source<I> {
    /// Creates the source of the lines of `input`. `last`, if there is one, comes after them. Lines
    /// are read into `text`, which has room for `ROOM` bytes in a stream.
    pub fn new(alloc: Global, input: I, text: Vec<u8>, bounds: Bounds, last: Option<Order>) -> Self
        ensures come { (parsed : List Line) → to_come result parsed
            ≡ asked bounds 1 (begun []) parsed ++ option_to_list last }
        ensures input { result.input ≡ input }
        ensures bounds { result.bounds ≡ bounds }
    {
        Source {
            input,
            alloc,
            bounds,
            reader: LineReader::new(alloc),
            text,
            number: 0,
            batch: Batch::new(alloc),
            is_discarded: false,
            queued: None,
            last,
            is_at_end: false,
        }
    }

    // Returns whether the bytes that were read, of which `last` is the last one, are a line. A
    // stream discards a last line without a line feed, whose writer may have died while writing it.
    fn is_line(&self, last: Option<u8>) -> bool
        ensures { result ≡ is_line self.now.bounds.is_stream last }
    {
        match last {
            Some(byte) => !self.bounds.is_stream || byte == b'\n',
            None => false,
        }
    }

    fn parse(&mut self) -> Option<Line>
        ensures parsed { IsParsed self.old.bounds.is_stream self.old.text.items result }
        ensures input { self.new.input ≡ self.old.input }
        ensures number { self.new.number ≡ self.old.number }
        ensures kept { IsKept self.old self.new }
    {
        let last = self.text.as_slice().last_byte();
        if !self.is_line(last) {
            return None;
        }
        Some(
            self.reader
                .read(without_end(&self.text), self.bounds.is_stream),
        )
    }

    // Skips the rest of a line of a text for which an allocation failed.
    fn lose_line(&mut self) -> io::Result<Option<Line>>
        requires text { self.old.bounds.is_stream ≡ false }
        requires stops { StopsAt self.old.text.items 10 }
        ensures lost { IfOk result (λ line. IfSome (I.remaining self.old.input) (λ left.
            IsParsed self.old.bounds.is_stream (take_through 10 (self.old.text.items ++ left)) line
            × (I.remaining self.new.input ≡ Some (drop_through 10 (self.old.text.items ++ left))))) }
        ensures number { self.new.number ≡ self.old.number }
        ensures kept { IsKept self.old self.new }
    {
        let last = skip_rest(&mut self.input, &self.text)?;
        self.text = Vec::new(self.alloc);
        Ok(self.is_line(last).then_some(Line::Lost))
    }

    // Skips the rest of a line that is too long for a stream, and parses what was read of it.
    fn end_long_line(&mut self) -> io::Result<Option<Line>>
        requires stream { self.old.bounds.is_stream ≡ true }
        requires long { IsLong self.old.text.items }
        ensures parsed { IfOk result (λ line. IfSome (I.remaining self.old.input) (λ left.
            IsParsed self.old.bounds.is_stream (take_through 10 (self.old.text.items ++ left)) line
            × (I.remaining self.new.input ≡ Some (drop_through 10 (self.old.text.items ++ left))))) }
        ensures number { self.new.number ≡ self.old.number }
        ensures kept { IsKept self.old self.new }
    {
        let last = skip_rest(&mut self.input, &self.text)?;
        if !self.is_line(last) {
            return Ok(None);
        }
        Ok(Some(self.reader.read(without_end(&self.text), true)))
    }

    // Reads a line of a stream. A long one is not kept.
    fn try_read_bounded(&mut self) -> io::Result<Option<Line>>
        requires stream { self.old.bounds.is_stream ≡ true }
        requires empty { self.old.text.items ≡ [] }
        ensures read { IfOk result (IsRead self.old.bounds.is_stream (I.remaining self.old.input)
            (I.remaining self.new.input)) }
        ensures number { self.new.number ≡ self.old.number }
        ensures kept { IsKept self.old self.new }
    {
        if read_front(&mut self.input, &mut self.text)? {
            return Ok(self.parse());
        }
        self.end_long_line()
    }

    fn try_read(&mut self) -> io::Result<Option<Line>>
        ensures read { IfOk result (IsRead self.old.bounds.is_stream (I.remaining self.old.input)
            (I.remaining self.new.input)) }
        ensures number { self.new.number ≡ self.old.number }
        ensures kept { IsKept self.old self.new }
    {
        self.text.clear();
        if self.bounds.is_stream {
            return self.try_read_bounded();
        }
        match self.input.read_until(b'\n', &mut self.text) {
            Ok(_) => Ok(self.parse()),
            Err(error) if error.kind() == ErrorKind::OutOfMemory => self.lose_line(),
            Err(error) => Err(error),
        }
    }

    // Reads and parses the next line. Returns `None` at the end of the input.
    fn read_line<R, P: Observer>(&mut self, at: &Session<'_, R, P>) -> Result<Option<Line>>
        ensures read { IfOk result (IsRead self.old.bounds.is_stream (I.remaining self.old.input)
            (I.remaining self.new.input)) }
        ensures device { IfErr result (λ early. early ≡ SessionError.Device) }
        ensures number { IfOk result (λ _. self.new.number ≡ self.old.number + 1) }
        ensures kept { IsKept self.old self.new }
    {
        let Some(number) = self.number.checked_add(1) else {
            // Reached only after 2^64 - 1 lines.
            return Err(SessionError::Device);
        };
        self.number = number;
        at.notes.begin_line(number);
        match self.try_read() {
            Ok(Some(line)) => {
                at.notes.record_line(number, &line);
                at.report.observe(Event::LineRead(number));
                Ok(Some(line))
            }
            Ok(None) => {
                at.notes.end_of_input();
                Ok(None)
            }
            Err(error) => {
                at.notes.record_failure(FailedSource::Input, Some(error));
                Err(SessionError::Device)
            }
        }
    }

    // Discards the commands of the batch, and all lines up to the one that ends it. Returns the
    // order that answers the batch, or `None` if the batch was already answered.
    fn discard(&mut self, answer: Order) -> Option<Order>
        ensures answer { result ≡ (if self.old.is_discarded then None else Some answer) }
        ensures pending { pending_of self.new ≡ skipped }
        ensures queued { self.new.queued ≡ self.old.queued }
        ensures kept { IsBatched self.old self.new }
    {
        self.batch = Batch::new(self.alloc);
        if self.is_discarded {
            return None;
        }
        self.is_discarded = true;
        Some(answer)
    }

    // Ends the batch. Returns it, unless it was already answered.
    fn end_batch(&mut self) -> Option<Order>
        ensures batch { result
            ≡ (if self.old.is_discarded then None else Some (Order.Batch self.old.batch)) }
        ensures pending { pending_of self.new ≡ begun [] }
        ensures queued { self.new.queued ≡ self.old.queued }
        ensures kept { IsBatched self.old self.new }
    {
        let batch = mem::replace(&mut self.batch, Batch::new(self.alloc));
        if self.is_discarded {
            self.is_discarded = false;
            return None;
        }
        Some(Order::Batch(batch))
    }

    fn is_too_long(&self) -> bool
        ensures { result ≡ is_too_long self.now.bounds self.now.batch }
    {
        self.bounds.is_stream && self.batch.len() > MOST_COMMANDS
    }

    fn asks_too_much(&self) -> bool
        ensures { result ≡ asks_too_much self.now.bounds self.now.batch }
    {
        self.bounds.is_stream && is_beyond(self.bounds.max_rows, self.batch.most_rows())
    }

    fn add(&mut self, command: Command<Global>) -> Option<Order>
        requires { self.old.queued ≡ None }
        ensures orders { Orders self.old self.new (Line.Command command) result }
        ensures queued { self.new.queued ≡ None }
        ensures kept { IsBatched self.old self.new }
    {
        if self.is_discarded {
            return None;
        }
        if self.batch.push(command).is_err() {
            return self.discard(Order::Lost);
        }
        if self.asks_too_much() {
            let (line, why) = (self.number, Why::TooManyRows);
            return self.discard(Order::BadLine { line, why });
        }
        if self.is_too_long() {
            let batch = self.end_batch();
            self.is_discarded = true;
            return batch;
        }
        None
    }

    // Ends the batch. If it has commands and was not answered, returns it and queues `order`.
    // Otherwise returns `order`.
    fn before(&mut self, order: Option<Order>) -> Option<Order>
        requires { self.old.queued ≡ None }
        ensures orders { option_to_list result ++ option_to_list self.new.queued
            ≡ unended (pending_of self.old) ++ option_to_list order }
        ensures queued { result ≡ None → self.new.queued ≡ None }
        ensures pending { pending_of self.new ≡ begun [] }
        ensures kept { IsBatched self.old self.new }
    {
        if self.is_discarded || self.batch.is_empty() {
            let _ = self.end_batch();
            return order;
        }
        self.queued = order;
        self.end_batch()
    }

    // Returns the first order that this line completes, if it completes one.
    fn order_of(&mut self, line: Line) -> Option<Order>
        requires { self.old.queued ≡ None }
        ensures orders { Orders self.old self.new line result }
        ensures queued { result ≡ None → self.new.queued ≡ None }
        ensures kept { IsBatched self.old self.new }
    {
        match line {
            Line::Blank => None,
            Line::Command(command) => self.add(command),
            Line::Go => self.end_batch(),
            Line::Order(order) => self.before(Some(order)),
            Line::Bad(why) => {
                let line = self.number;
                self.discard(Order::BadLine { line, why })
            }
            Line::Lost => self.discard(Order::Lost),
        }
    }

    // Ends the input. Returns the order that comes next, if there is one.
    fn end(&mut self) -> Option<Order>
        requires { self.old.queued ≡ None }
        ensures orders { option_to_list result ++ option_to_list self.new.queued
            ≡ unended (pending_of self.old) ++ option_to_list self.old.last }
        ensures queued { result ≡ None → self.new.queued ≡ None }
        ensures ended { self.new.is_at_end ≡ true }
        ensures bounds { self.new.bounds ≡ self.old.bounds }
    {
        self.is_at_end = true;
        let last = self.last.take();
        self.before(last)
    }

    /// Reads up to the next order, and returns it; `None` after the last one. Fails if the input
    /// cannot be read, or has 2^64 lines.
    pub fn next<R, P: Observer>(&mut self, at: &Session<'_, R, P>) -> Result<Option<Order>>
        ensures next { IfOk result (IsNext I.remaining self.old self.new) }
        ensures device { IfErr result (λ early. early ≡ SessionError.Device) }
        ensures bounds { self.new.bounds ≡ self.old.bounds }
    {
        if let Some(order) = self.queued.take() {
            return Ok(Some(order));
        }
        for _ in 0..u64::MAX {
            if self.is_at_end {
                return Ok(None);
            }
            let Some(line) = self.read_line(at)? else {
                return Ok(self.end());
            };
            if let Some(order) = self.order_of(line) {
                return Ok(Some(order));
            }
        }
        // Not reached: lines are counted in 64 bits, too.
        Err(SessionError::Device)
    }
}
