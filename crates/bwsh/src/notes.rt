//! What a session records, so that `--explain` can report where an error came from.
ghost use Rattle.std.specs.Prelude.{◌≡◌};

use crate::line::Line;
use crate::options::Options;
use crate::order::Order;
use keys::Settings;
use std::alloc::Global;
use std::cell::{Cell, RefCell};
use std::io;

/// The file or stream on which a call failed.
#[derive(Clone, Copy, Debug, PartialEq, Eq)]
pub enum Source {
    Input,
    File,
    Copy,
}

/// The line numbers of an order, counted from 1: the commands of its batch, and its last line.
#[derive(Drop)]
pub struct OrderLines {
    commands: Vec<u64>,
    // False after an allocation for `commands` failed.
    is_whole: bool,
    /// The line that completed the order, or, until then, the last line that was read; 0 if none
    /// was.
    pub end: u64,
    /// Whether `end` is a line `flush`.
    pub is_flush: bool,
    // Whether `end` completed the order, so that the next line begins another one.
    is_ended: bool,
}

impl OrderLines {
    // Records the next line.
    fn follow(&mut self, line: u64, parsed: &Line) {
        if self.is_ended {
            self.commands.clear();
            self.is_whole = true;
        }
        self.end = line;
        self.is_flush = matches!(parsed, Line::Order(Order::Flush));
        self.is_ended = matches!(parsed, Line::Go | Line::Order(_));
        if let Line::Command(_) = parsed {
            self.is_whole &= self.commands.push(line).is_ok();
        }
    }

    /// Returns the line number of the command at `place` in its batch, or `None` if an allocation
    /// for the lines failed.
    pub fn line_of_command(&self, place: usize) -> Option<u64> {
        if !self.is_whole {
            return None;
        }
        self.commands.get(place).copied()
    }
}

#[derive(Drop)]
pub struct Notes<'a> {
    pub alloc: Global,
    pub asked: &'a Options,
    /// The last call on a file or a stream that failed, and why.
    pub failed: Cell<Option<(Source, io::Error)>>,
    /// The lines of the last order, with `--explain`.
    pub lines: RefCell<OrderLines>,
    /// Whether all orders are done, and the copy has begun.
    pub is_copying: Cell<bool>,
    // The settings of the store, once it is open.
    settings: Cell<Option<Settings>>,
    /// The number of the line that is being read or was lost, or `None` after a line was read.
    pub unread: Cell<Option<u64>>,
}

impl<'a> Notes<'a> {
    /// Creates the notes of a new session. Without `--explain`, lines are not recorded.
    pub fn new(alloc: Global, asked: &'a Options) -> Self
        ensures asked { result.asked.now ≡ asked.entry.now }
    {
        Notes {
            alloc,
            asked,
            failed: Cell::new(None),
            lines: RefCell::new(OrderLines {
                commands: Vec::new(alloc),
                is_whole: true,
                end: 0,
                is_flush: false,
                is_ended: false,
            }),
            is_copying: Cell::new(false),
            settings: Cell::new(None),
            unread: Cell::new(None),
        }
    }

    pub fn record_failure(&self, source: Source, reason: Option<io::Error>) {
        if let Some(reason) = reason {
            self.failed.set(Some((source, reason)));
        }
    }

    pub fn store_opened(&self, settings: Settings) {
        self.settings.set(Some(settings));
    }

    /// Returns whether the store is open.
    pub fn is_open(&self) -> bool {
        self.settings.get().is_some()
    }

    /// Returns whether the settings of the command line were to have an effect, and have none: the
    /// store has others, and there is no copy that could have them.
    pub fn has_idle_settings(&self) -> bool {
        let asked = self.asked;
        let are_asked = asked.settings != Settings::default() && asked.copy_to.is_none();
        are_asked && matches!(self.settings.get(), Some(settings) if settings != asked.settings)
    }

    pub fn begin_line(&self, line: u64) {
        self.unread.set(Some(line));
    }

    pub fn end_of_input(&self) {
        self.unread.set(None);
    }

    pub fn record_line(&self, line: u64, parsed: &Line) {
        if !matches!(parsed, Line::Lost | Line::Order(Order::Lost)) {
            self.unread.set(None);
        }
        if !self.asked.mode.explain || matches!(parsed, Line::Lost) {
            return;
        }
        if let Ok(mut lines) = self.lines.try_borrow_mut() {
            lines.follow(line, parsed);
        }
    }
}
