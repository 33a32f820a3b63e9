//! What a session writes to standard error while it runs: one line that is rewritten in place, and
//! explanations of the faults that a stream goes on after.
use crate::options::Options;
use crate::output::{check_open, write_bytes};
use crate::session::Result;
use std::cell::RefCell;
use std::fmt::{InlineText, Write as _};
use std::io::Write;
use std::time::{Clock, Instant};

// Room for two numbers of 20 digits and the words around them.
const TEXT: usize = 64;

// `START` moves to the start of the line. `END`, after the text, erases the rest of the line.
const START: &[u8] = b"\r";

const END: &[u8] = b"\x1b[K";

// How many lines of a stream are read before the clock is read again, at most.
const LINES: u64 = 256;

/// A call that can take long.
#[derive(Clone, Copy, Debug, PartialEq, Eq)]
pub enum LongCall {
    Opening,
    Copying,
}

/// Something that happens in a session.
#[derive(Clone, Copy)]
pub enum Event<'a> {
    /// A call on the store's file, or on the file of the copy, begins.
    CallBegun(LongCall),
    CallEnded,
    /// A segment was read or written.
    SegmentDone,
    /// The line with this number was read.
    LineRead(u64),
    OrderDone { is_batch: bool },
    /// The input is a text, which was read whole and has so many orders.
    OrdersCounted(u64),
    /// A fault has this explanation, which is a line.
    Explained(&'a [u8]),
}

/// Reports on a session while it runs. It is called on the session's own thread.
pub trait Observer {
    fn observe(&self, _event: Event<'_>) {}
}

/// An observer that reports nothing.
#[derive(Drop)]
pub struct Silent;

impl Observer for Silent {}

#[derive(Drop)]
struct State<'a, 'e, R, E> {
    rt: &'a R,
    asked: &'a Options,
    err: &'e mut E,
    // Whether progress is shown: it was asked for, and no write has failed.
    is_shown: bool,
    // Whether a line is visible.
    has_line: bool,
    // When something was last shown, or when the session began.
    last: Option<Instant>,
    // How many orders the text has, or `None` for a stream.
    orders: Option<u64>,
    // How many orders, or batches of a stream, are completed.
    run: u64,
    // The number of the last line.
    line: u64,
    call: Option<LongCall>,
    // How many segments were read or written since the last call began.
    segments: u64,
}

impl<'a, 'e, R: Clock, E: Write> State<'a, 'e, R, E> {
    // Replaces the visible line. After a failed write, nothing is shown any more.
    fn show(&mut self, text: &[u8], path: &[u8], rest: &[u8]) {
        if self.is_shown {
            self.is_shown = write_in_place(text, path, rest, self.err).is_ok();
            self.has_line = true;
        }
    }

    fn erase(&mut self) {
        if self.has_line {
            self.show(b"", b"", b"");
            self.has_line = false;
        }
    }

    // Returns whether a second has passed since `last`, or true if that is unknown; if so, sets
    // `last` to now. Returns false if nothing is shown or the clock cannot be read.
    fn is_due(&mut self) -> bool {
        if !self.is_shown {
            return false;
        }
        let Ok(now) = Instant::now(self.rt) else {
            return false;
        };
        if let Some(last) = self.last {
            if now.duration_since(last).as_secs() == 0 {
                return false;
            }
        }
        self.last = Some(now);
        true
    }

    fn show_counts(&mut self) {
        let mut text = InlineText::<TEXT>::new();
        let (run, line) = (self.run, self.line);
        let made = match self.orders {
            Some(orders) => write!(text, "{run} of {orders} orders run"),
            None => write!(text, "{line} lines read, {run} batches run"),
        };
        if made.is_ok() {
            self.show(text.as_str().as_bytes(), b"", b"");
        }
    }

    // Shows the call, the path of its file, and how many segments were read or written, if any
    // were.
    fn show_call(&mut self, call: LongCall) {
        let asked = self.asked;
        let (text, path, done): (&[u8], _, _) = match call {
            LongCall::Opening => (b"opening ", asked.disk.as_deref(), "read"),
            LongCall::Copying => (b"copying to ", asked.copy_to.as_deref(), "written"),
        };
        let (segments, mut rest) = (self.segments, InlineText::<TEXT>::new());
        if segments == 0 || write!(rest, ", {segments} segments {done}").is_ok() {
            let path = path.unwrap_or("");
            self.show(text, path.as_bytes(), rest.as_str().as_bytes());
        }
    }

    fn begin_call(&mut self, call: LongCall) {
        self.call = Some(call);
        self.segments = 0;
        self.show_call(call);
    }

    fn count_segment(&mut self) {
        self.segments = self.segments.saturating_add(1);
        if let Some(call) = self.call {
            if self.is_due() {
                self.show_call(call);
            }
        }
    }

    fn count_line(&mut self, line: u64) {
        self.line = line;
        if self.asked.mode.stream && line % LINES == 0 && self.is_due() {
            self.show_counts();
        }
    }

    fn count_order(&mut self, is_batch: bool) {
        if is_batch || !self.asked.mode.stream {
            self.run = self.run.saturating_add(1);
        }
        if self.is_due() {
            self.show_counts();
        }
    }

    fn follow(&mut self, event: Event<'_>) {
        match event {
            Event::CallBegun(call) => self.begin_call(call),
            Event::CallEnded => self.call = None,
            Event::SegmentDone => self.count_segment(),
            Event::LineRead(line) => self.count_line(line),
            Event::OrderDone { is_batch } => self.count_order(is_batch),
            Event::OrdersCounted(orders) => self.orders = Some(orders),
            Event::Explained(line) => {
                self.erase();
                let _ = write_bytes(line, self.err);
            }
        }
    }
}

fn write_in_place<E: Write>(text: &[u8], path: &[u8], rest: &[u8], err: &mut E) -> Result<()> {
    write_bytes(START, err)?;
    write_bytes(text, err)?;
    write_bytes(path, err)?;
    write_bytes(rest, err)?;
    write_bytes(END, err)
}

/// Reports to standard error.
#[derive(Drop)]
pub struct Reporter<'a, 'e, R, E> {
    state: RefCell<State<'a, 'e, R, E>>,
}

impl<'a, 'e, R: Clock, E: Write> Reporter<'a, 'e, R, E> {
    /// Called before any file is opened. If `err` is closed, returns `None`: the next file opened
    /// could get its descriptor, and the reports would be written into it.
    pub fn begin(rt: &'a R, asked: &'a Options, err: &'e mut E) -> Option<Self> {
        if check_open(err).is_err() {
            return None;
        }
        let state = State {
            rt,
            asked,
            err,
            is_shown: asked.mode.progress,
            has_line: false,
            last: Instant::now(rt).ok(),
            orders: None,
            run: 0,
            line: 0,
            call: None,
            segments: 0,
        };
        Some(Reporter {
            state: RefCell::new(state),
        })
    }

    /// Erases the line.
    pub fn end(&self) {
        if let Ok(mut state) = self.state.try_borrow_mut() {
            state.erase();
        }
    }
}

impl<'a, 'e, R: Clock, E: Write> Observer for Reporter<'a, 'e, R, E> {
    fn observe(&self, event: Event<'_>) {
        if let Ok(mut state) = self.state.try_borrow_mut() {
            state.follow(event);
        }
    }
}
