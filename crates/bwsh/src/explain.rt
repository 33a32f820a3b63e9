//! The explanations of `--explain`: where an error came from, and what to do about it.
use crate::line::Why;
use crate::notes::{Notes, OrderLines, Source};
use crate::session::SessionError;
use engine::{ExplainedFault, file_remedy, meaning};
use keys::{Fault, Field};
use std::alloc::{AllocError, Global};
use std::io::ErrorKind;
use std::{fmt, io, str};

fn file_advice(has_copy: bool, reason: &io::Error) -> &'static str {
    match reason.kind() {
        ErrorKind::NotFound => "Use --create to create a store there.",
        ErrorKind::PermissionDenied => {
            "A session that streams, flushes, cleans, upgrades or creates needs permission to write the file."
        }
        ErrorKind::WouldBlock if has_copy => {
            "Another program has locked the file, or it is the file of --copy-to too."
        }
        ErrorKind::WouldBlock => {
            "Another program has locked the file. Wait until it ends, or use --wait."
        }
        _ => file_remedy(reason),
    }
}

// `is_own` says whether the copy was to replace the file of the store.
fn copy_advice(is_own: bool, reason: &io::Error) -> &'static str {
    match reason.kind() {
        ErrorKind::WouldBlock if is_own => "This is the file of the store itself.",
        ErrorKind::AlreadyExists => {
            "The file was left as it was. A copy needs a path without a file, or an empty or unfinished file."
        }
        ErrorKind::NotFound => "The directory of a copy has to exist.",
        ErrorKind::PermissionDenied => "A copy needs permission to write its file.",
        ErrorKind::WouldBlock => {
            "Another program has locked the file, or it is the file of the store itself."
        }
        ErrorKind::IsADirectory => "A copy has to be a file.",
        _ => file_remedy(reason),
    }
}

fn copy_rule(fault: &Fault) -> &'static str {
    match fault {
        Fault::KeyTooLong(_) => "A key is too long for the copy. Use a larger --max-key.",
        Fault::ValueTooLong(_) => "A value is too long for the copy. Use a larger --max-value.",
        Fault::Full => {
            "The log of the copy has no room for all pairs. Use more --segments or a larger --seg-size."
        }
        Fault::NoMemory => meaning(fault),
        Fault::Spent => "The copy needs more levels than a store can have. Use a larger --fan.",
        _ => "The settings of the copy are refused.",
    }
}

// `has_cleaned` says whether the session cleans a full log by itself.
fn order_rule(has_cleaned: bool, fault: &Fault) -> &'static str {
    match fault {
        Fault::NoMemory => "There was not enough memory to run it. Smaller batches need less.",
        Fault::Full if has_cleaned => {
            "The log has no room for this. With --stream, .tidy may make room. If it does not, copy the store with .copy or \
            --copy-to to a file with more --segments."
        }
        Fault::Full => {
            "The log has no room for this. Lines clean or --clean-when-full may make room. If they do not, copy the store \
            with .copy or --copy-to to a file with more --segments."
        }
        _ => meaning(fault),
    }
}

fn line_rule(is_stream: bool, why: Why) -> &'static str {
    match why {
        Why::UnknownCommand if is_stream => {
            "A line begins with a command that --help lists, or with #."
        }
        Why::UnknownCommand => {
            "A line begins with a command that --help lists, or with #. Lines with a dot need --stream."
        }
        Why::WordCount => "--help lists the words of each command. In a word, %20 is a space.",
        Why::BadToken => "Words are printable ASCII, and two hexadecimal digits follow each %.",
        Why::BadNumber => "Numbers go from 0 to 4294967295.",
        Why::TooLong => "A line of a stream has at most 16384 bytes, unless it is a comment.",
        Why::TooManyRows => "The limits of its scans together are more than --max-rows allows.",
    }
}

fn is_order_fault(fault: &Fault) -> bool {
    matches!(
        fault,
        Fault::KeyTooLong(_)
            | Fault::ValueTooLong(_)
            | Fault::BatchTooLong
            | Fault::NoMemory
            | Fault::Full
            | Fault::NothingToClean
            | Fault::AlreadyUpgraded
            | Fault::Spent
    )
}

// Explains that a call on the file or stream `name` failed. `advice` and `done` may be empty.
fn explain_call(
    alloc: Global,
    name: &str,
    reason: &io::Error,
    advice: &str,
    done: &str,
) -> Result<String, AllocError> {
    format!(in alloc; "{name}: {reason}.{}{}\n", Sentence(advice), Sentence(done))
}

fn explain_order(
    alloc: Global,
    has_cleaned: bool,
    lines: &OrderLines,
    fault: &Fault,
) -> Result<String, AllocError> {
    let end = lines.end;
    let (place, what) = match fault {
        Fault::KeyTooLong(place) => (*place, "a key that is longer than max-key"),
        Fault::ValueTooLong(place) => (*place, "a value that is longer than max-value"),
        Fault::BatchTooLong => {
            return format!(in alloc;
                "The batch up to line {end} was not run. It has more than 65535 commands. Divide it by lines go.\n"
            );
        }
        _ => return format!(in alloc; "line {end}: {}\n", order_rule(has_cleaned, fault)),
    };
    match lines.line_of_command(place) {
        Some(line) => format!(in alloc;
            "The batch that line {end} ended was not run. The command in line {line} has {what} of this store.\n"
        ),
        None => format!(in alloc;
            "The batch that line {end} ended was not run. One of its commands has {what} of this store.\n"
        ),
    }
}

fn explain_tidied_flush(alloc: Global, line: u64) -> Result<String, AllocError> {
    format!(in alloc;
        "line {line}: There was not enough memory. If this flush was answered, it is done, and only --tidy before it failed.\n"
    )
}

impl<'a> Notes<'a> {
    fn store_path(&self) -> &str {
        match &self.asked.disk {
            Some(path) => path,
            None => "the store in memory",
        }
    }

    // Explains why there is no copy at `path`, by the error of the copy's file or by the fault of
    // the copy, and adds `done`.
    fn explain_copy(
        &self,
        path: &str,
        error: &SessionError,
        done: &str,
    ) -> Result<String, AllocError> {
        match (error, self.failed.get()) {
            (SessionError::Device, Some((_, reason))) => {
                let is_own = self.asked.disk.as_deref() == Some(path);
                let advice = copy_advice(is_own, &reason);
                explain_call(self.alloc, path, &reason, advice, done)
            }
            (SessionError::Fault(fault), _) => {
                format!(in self.alloc; "{path}: {} {done}\n", copy_rule(fault))
            }
            _ => format!(in self.alloc; "{path}: {done}\n"),
        }
    }

    // Only a failure of standard output has no recorded reason.
    fn explain_failure(&self) -> Result<String, AllocError> {
        match self.failed.get() {
            None => format!(in self.alloc;
                "Standard output could not be written. Some answers are missing.\n"
            ),
            Some((Source::File, reason)) => {
                let advice = file_advice(self.asked.copy_to.is_some(), &reason);
                explain_call(self.alloc, self.store_path(), &reason, advice, "")
            }
            Some((_, reason)) => explain_call(self.alloc, "standard input", &reason, "", ""),
        }
    }

    fn explain_start(&self, fault: &Fault) -> Result<String, AllocError> {
        match fault {
            Fault::BadSettings(Field::Segments) if self.asked.pairs > 0 => format!(in self.alloc;
                "Nothing was run. These --pairs do not fit into the largest log, of 65536 segments of 1 MiB.\n"
            ),
            Fault::BadSettings(field) => format!(in self.alloc;
                "Nothing was run. --help has the range of {field}. A segment has to hold a full page of the longest keys and values.\n"
            ),
            Fault::BadCrew => format!(in self.alloc;
                "Nothing was run. --workers takes 1 to 64, and --grain takes 1 to 65535.\n"
            ),
            Fault::NoMemory => format!(in self.alloc; "Nothing was run. {}\n", meaning(fault)),
            Fault::NotAStore => format!(in self.alloc;
                "{}: {} With --create a new store replaces what it holds.\n",
                self.store_path(),
                ExplainedFault(fault)
            ),
            _ => format!(in self.alloc; "{}: {}\n", self.store_path(), ExplainedFault(fault)),
        }
    }

    // Returns whether the fault may be that of `--tidy` alone, after which only a stream does not
    // flush.
    fn is_of_tidied_flush(&self, lines: &OrderLines, fault: &Fault) -> bool {
        let mode = self.asked.mode;
        lines.is_flush && mode.tidy > 0 && !mode.stream && matches!(fault, Fault::NoMemory)
    }

    fn explain_fault(&self, fault: &Fault) -> Result<String, AllocError> {
        if let Some(line) = self.unread.get() {
            return format!(in self.alloc; "line {line}: There was not enough memory to read it.\n");
        }
        if is_order_fault(fault) {
            if let Ok(lines) = self.lines.try_borrow() {
                if self.is_of_tidied_flush(&*lines, fault) {
                    return explain_tidied_flush(self.alloc, lines.end);
                }
                if lines.end > 0 {
                    let has_cleaned = self.asked.mode.clean_when_full;
                    return explain_order(self.alloc, has_cleaned, &*lines, fault);
                }
            }
        }
        if self.is_open() {
            // A clean has found the log damaged, from which the store was read before.
            return format!(in self.alloc;
                "{}: The log in the file is damaged. A stream can save the store with .copy.\n",
                self.store_path()
            );
        }
        self.explain_start(fault)
    }

    // Returns why `--copy-to` made no copy, if that is why the session ends.
    fn copy_failure(&self, error: &SessionError) -> Option<Result<String, AllocError>> {
        let path = self.asked.copy_to.as_deref()?;
        if self.is_copying.get() {
            let done = "All orders are done, but there is no copy.";
            return Some(self.explain_copy(path, error, done));
        }
        match (error, self.failed.get()) {
            (SessionError::Device, Some((Source::Copy, _))) => {
                Some(self.explain_copy(path, error, "Nothing was run."))
            }
            _ => None,
        }
    }

    fn explain(&self, error: &SessionError) -> Result<String, AllocError> {
        if let Some(text) = self.copy_failure(error) {
            return text;
        }
        match error {
            SessionError::Words(_) => Ok(String::new(self.alloc)),
            SessionError::Bad { line: _, why } => {
                let is_stream = self.asked.mode.stream;
                let before = if is_stream {
                    "The batch was not run."
                } else {
                    "Nothing was run."
                };
                format!(in self.alloc; "{before} {}\n", line_rule(is_stream, *why))
            }
            SessionError::Fault(fault) => self.explain_fault(fault),
            SessionError::Device => self.explain_failure(),
        }
    }

    /// Returns a line that explains an error, with its line feed, or an empty string if an
    /// allocation fails.
    #[inline(never)]
    pub fn explanation(&self, error: &SessionError) -> String {
        self.explain(error).unwrap_or(String::new(self.alloc))
    }

    fn add_idle_options(&self, text: &mut String) -> Result<(), AllocError> {
        if self.asked.create && self.asked.disk.is_none() && self.asked.pairs == 0 {
            text.push_str("--create has no effect without --disk.\n")?;
        }
        if self.has_idle_settings() {
            text.push_str("The settings have no effect: an existing store keeps its own.\n")?;
        }
        if self.asked.mode.max_rows > 0 && !self.asked.mode.stream {
            text.push_str("--max-rows has no effect without --stream.\n")?;
        }
        Ok(())
    }

    /// Returns what is written at the end of a session: an explanation of its error, and a line for
    /// each kind of option that had no effect.
    pub fn last_words(&self, done: &Result<(), SessionError>) -> String {
        let mut text = match done {
            Ok(()) => String::new(self.alloc),
            Err(error) => self.explanation(error),
        };
        // If an allocation fails, these lines are left out.
        let _ = self.add_idle_options(&mut text);
        text
    }

    /// Explains why there is no copy that a stream asked for, and forgets the recorded failure.
    pub fn copy_explanation(&self, path: &[u8], error: &SessionError) -> String {
        let device = SessionError::Device;
        let error = match error {
            SessionError::Fault(Fault::Device) => &device,
            error => error,
        };
        let path = str::from_utf8(path).unwrap_or("the copy");
        let text = self.explain_copy(path, error, "There is no copy.");
        self.failed.set(None);
        text.unwrap_or(String::new(self.alloc))
    }
}

// A sentence after a space, or nothing.
#[derive(Drop)]
struct Sentence<'a>(&'a str);

impl<'a> fmt::Display for Sentence<'a> {
    fn fmt<W: fmt::Write>(&self, f: &mut fmt::Formatter<W>) -> fmt::Result {
        if self.0.is_empty() {
            return Ok(());
        }
        write!(f, " {}", self.0)
    }
}
