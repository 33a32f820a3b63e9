//! A session: runs a batch file, or a stream of lines, on the store that the command line names.
ghost use Rattle.std.specs.Prelude.{List, false, true, IsTrue, ◌≡◌, ◌≢◌, ◌↔◌, ◌⊎◌, [], ◌∷◌, ◌++◌, map, None, Some, IfSome, Ok, Err, IfOk, IfErr, OnOk, OnErr, Option};
ghost use Rattle.std.specs.String.{string_bytes};
ghost use Rattle.std.specs.IoError.{error_kind};
ghost use Rattle.std.specs.Io.KnownBytes.{Appends, Keeps};
ghost use Rattle.clap.specs.Words.{kind_of};
ghost use Rattle.clap.specs.declared.error.kind.ErrorKind.TheVariants.{DisplayHelp, OutOfMemory};
ghost use Rattle.keys.specs.declared.fault.Fault.TheVariants.{NoMemory};
ghost use Rattle.keys.specs.declared.fault.Fault.TheVariants as faults;
ghost use Rattle.bwsh.specs.declared.line.Line.{Line};
ghost use Rattle.bwsh.specs.declared.order.Order.{Order};
ghost use Rattle.bwsh.specs.declared.session.SessionError.TheVariants.{Device};
ghost use Rattle.bwsh.specs.declared.session.SessionError.TheVariants as errors;
ghost use Rattle.bwsh.specs.BatchFile.{AreRead, orders_in, parse_text};
ghost use Rattle.bwsh.specs.Ends.{HasBegun, IsAllDone, IsBad};
ghost use Rattle.bwsh.specs.Options.{AsksForReports, AsksToExplain, AreRefused, bounds_of, reports, request_of};
ghost use Rattle.bwsh.specs.Output.{IsBegun};
ghost use Rattle.bwsh.specs.Session.{Answers, EndsBy, EndsReported, IsForWords, IsQuiet, IsReportedWith, OrdersAll, Prints, PrintsOneText, RunsRead, error_text, status_of, status_of_end, unread_text, version_text};
ghost use Rattle.bwsh.specs.Source.{IsToCome};

use crate::context::Session;
use crate::disk::{LastError, StoreFile};
use crate::line::Why;
use crate::notes::{Notes, Source};
use crate::options::{Options, options};
use crate::order::Order;
use crate::output::{check_open, flush, write_bytes};
use crate::progress::{Event, Observer, Reporter, Silent};
use crate::show::print_error;
use crate::source as lines;
use crate::text::check;
use engine::{BadCrew, Disk, Store};
use keys::Fault;
use std::alloc::{AllocError, Global};
use std::io::{BufRead, BufReader, ErrorKind, Read, Write};
use std::rt::Files;
use std::thread::Threads;
use std::time::Clock;
use std::{fmt, io};

const VERSION: &[u8] = b"bwsh 0.2.0 bytes 1\n";

const UNREAD: &[u8] = b"error: a word of the command line is no text\n";

/// The result of a step of a session.
pub type Result<T, E = SessionError> = std::result::Result<T, E>;

/// Why a session ends early, or why a stream refuses an order. `Display` writes the report of it.
#[derive(Drop)]
pub enum SessionError {
    /// The command line is refused. Nothing was read.
    Words(clap::Error),
    /// A line of the input is bad.
    Bad { line: u64, why: Why },
    /// Settings, a crew or a call of the store are refused, or an allocation failed.
    Fault(Fault),
    /// A file or a stream could not be opened, read, written or locked, or a copy's file has bytes.
    Device,
}

impl SessionError {
    fn status(&self) -> u8
        ensures { result ≡ status_of self.now }
    {
        match self {
            SessionError::Words(_) => 2,
            SessionError::Bad { .. } => 3,
            SessionError::Fault(_) | SessionError::Device => 4,
        }
    }
}

impl fmt::Display for SessionError {
    ghost output = { λ error. error_text error };

    fn fmt<W: fmt::Write>(&self, f: &mut fmt::Formatter<W>) -> fmt::Result {
        match self {
            SessionError::Words(error) => write!(f, "{error}"),
            SessionError::Bad { line, why } => writeln!(f, "line {line}: {why}"),
            SessionError::Fault(fault) => writeln!(f, "fault {fault}"),
            SessionError::Device => writeln!(f, "fault 9 Device"),
        }
    }
}

impl From<AllocError> for SessionError {
    ghost from_gives = { λ _ error. error ≡ errors.Fault NoMemory };

    fn from(_refused: AllocError) -> SessionError {
        SessionError::Fault(Fault::NoMemory)
    }
}

impl From<Fault> for SessionError {
    ghost from_gives = { λ fault error. error ≡ errors.Fault fault };

    fn from(fault: Fault) -> SessionError {
        SessionError::Fault(fault)
    }
}

impl From<BadCrew> for SessionError {
    ghost from_gives = { λ _ error. error ≡ errors.Fault faults.BadCrew };

    fn from(_refused: BadCrew) -> SessionError {
        SessionError::Fault(Fault::BadCrew)
    }
}

pub fn read_fault(error: io::Error) -> SessionError
    ensures memory { (result ≡ SessionError.Fault Fault.NoMemory)
        ↔ (error_kind error ≡ ErrorKind.OutOfMemory) }
    ensures either { (result ≡ SessionError.Fault Fault.NoMemory) ⊎ (result ≡ SessionError.Device) }
{
    match error.kind() {
        ErrorKind::OutOfMemory => SessionError::Fault(Fault::NoMemory),
        _ => SessionError::Device,
    }
}

fn read_text<I: Read>(notes: &Notes<'_>, input: &mut I) -> Result<Vec<u8>>
    ensures read { IfOk result (λ text. IfSome (I.remaining input.old)
        (λ known. text.items ≡ known)) }
    ensures either { IfErr result
        (λ early. (early ≡ SessionError.Fault Fault.NoMemory) ⊎ (early ≡ SessionError.Device)) }
{
    let mut text = Vec::new(notes.alloc);
    match input.read_to_end(&mut text) {
        Ok(_) => Ok(text),
        Err(error) => {
            notes.record_failure(Source::Input, Some(error));
            Err(read_fault(error))
        }
    }
}

// Fails if `input` is closed, which a read of no bytes shows. If `input` were closed, the next file
// opened could get its descriptor, and be read as the input.
fn check_input_open<I: Read>(notes: &Notes<'_>, input: &mut I) -> Result<()>
    ensures bytes { Keeps (I.remaining input.old) (I.remaining input.new) }
    ensures either { IfErr result
        (λ early. (early ≡ SessionError.Fault Fault.NoMemory) ⊎ (early ≡ SessionError.Device)) }
{
    match input.read(&mut []) {
        Ok(_) => Ok(()),
        Err(error) if error.kind() == ErrorKind::Interrupted => Ok(()),
        Err(error) => {
            notes.record_failure(Source::Input, Some(error));
            Err(read_fault(error))
        }
    }
}

impl<'a, R: Threads + Sync + Files + Clock, P: Observer> Session<'a, R, P>
where
    R::File: StoreFile,
{
    fn run_orders<D: Disk, I: BufRead, O: Write>(
        &self,
        store: &mut Store<D>,
        source: &mut lines::Source<I>,
        out: &mut O,
    ) -> Result<()>
        requires fine { store.old.has_failed ≡ false }
        ensures { (orders : List Order) × IsToCome I.remaining source.old orders
            × OrdersAll D.view O.contents self.now.calls.mode orders store.old out.old result
            store.new out.new }
    {
        for _ in 0..u64::MAX {
            let Some(order) = source.next(self)? else {
                return Ok(());
            };
            let is_batch = matches!(order, Order::Batch(_));
            let done = self.answer(store, &order, out);
            drop(order);
            done?;
            self.report.observe(Event::OrderDone { is_batch });
        }
        // Reached only after 2^64 - 1 orders.
        Err(SessionError::Device)
    }

    // Answers the orders of `input` on the open store, and flushes `out`.
    fn run_opened<D: Disk + LastError, I: BufRead + Drop, O: Write>(
        &self,
        store: &mut Store<D>,
        input: I,
        text: Vec<u8>,
        out: &mut O,
    ) -> Result<()>
        requires fine { store.old.has_failed ≡ false }
        ensures { (parsed : List Line)
            × IfSome (I.remaining input)
            (λ text. AreRead self.now.calls.mode.stream
            (parse_text self.now.calls.mode.stream text) parsed)
            × OrdersAll D.view O.contents self.now.calls.mode
            (orders_in (bounds_of self.now.calls.mode) self.now.calls.mode.stat parsed) store.old
            out.old result store.new out.new }
    {
        self.notes.store_opened(store.settings());
        let mode = self.calls.mode;
        let last = mode.stat.then_some(Order::Numbers);
        let mut source = lines::Source::new(self.calls.alloc, input, text, mode.bounds(), last);
        let done = self.run_orders(store, &mut source, out);
        drop(source);
        if done.is_err() {
            self.notes
                .record_failure(Source::File, store.disk().reason());
        }
        flush(done, out)
    }

    // Opens the files and answers the orders of `input`, whose lines are read into `text`. If no
    // error ends them, writes the copy.
    fn run_source<I: BufRead + Drop, O: Write>(
        &self,
        input: I,
        text: Vec<u8>,
        writes: bool,
        out: &mut O,
    ) -> Result<()>
        requires mode { self.now.calls.mode ≡ self.now.asked.now.mode }
        requires crew { self.now.calls.crew ≡ self.now.asked.now.crew }
        ensures { RunsRead (request_of self.now.asked.now) (I.remaining input) (O.contents out.old)
            (O.contents out.new) result }
    {
        let copy = self.prepare_copy()?;
        let mut store = self.open_store(writes)?;
        let done = self.run_opened(&mut store, input, text, out);
        self.copy_after(&store, copy, done)
    }
}

// Runs a session whose text is read and checked before anything runs.
fn run_text<R: Threads + Sync + Files + Clock, P: Observer, I: Read, O: Write>(
    rt: &R,
    notes: &Notes<'_>,
    report: &P,
    input: &mut I,
    out: &mut O,
) -> Result<()>
where
    R::File: StoreFile,
    requires { notes.now.asked.now.mode.stream ≡ false }
    ensures { Answers (request_of notes.now.asked.now) (I.remaining input.old)
        (O.contents out.old) (O.contents out.new) result }
{
    let text = read_text(notes, input)?;
    let checked = check(notes.alloc, &text)?;
    check_open(out)?;
    let at = Session::new(rt, notes, report)?;
    let orders = checked.orders.saturating_add(u64::from(at.calls.mode.stat));
    report.observe(Event::OrdersCounted(orders));
    at.run_source(text.as_slice(), Vec::new(notes.alloc), checked.writes, out)
}

// Runs a session that answers each order before it reads the next line.
fn run_stream<R: Threads + Sync + Files + Clock, P: Observer, I: Read, O: Write>(
    rt: &R,
    notes: &Notes<'_>,
    report: &P,
    input: &mut I,
    out: &mut O,
) -> Result<()>
where
    R::File: StoreFile,
    requires { notes.now.asked.now.mode.stream ≡ true }
    ensures { Answers (request_of notes.now.asked.now) (I.remaining input.old)
        (O.contents out.old) (O.contents out.new) result }
{
    check_open(out)?;
    let at = Session::new(rt, notes, report)?;
    check_input_open(notes, input)?;
    let text = Vec::with_capacity(notes.alloc, lines::ROOM)?;
    match BufReader::new(notes.alloc, input) {
        Ok(reader) => at.run_source(reader, text, true, out),
        Err(error) => Err(read_fault(error)),
    }
}

// Runs the session that `notes.asked` asks for, and writes the answers to `out`.
//
// Without `--stream`, errors are found in this order: a bad line, a closed output, a crew out of
// range, errors of the copy's settings and file, errors of the store's settings and file, faults of
// the orders, faults of the copy. If flushing `out` fails, this error replaces an earlier one.
//
// With `--stream`, the session ends with an error only if it cannot start, if the store's disk, the
// input or the output fails, or if the copy at its end does.
fn run<R: Threads + Sync + Files + Clock, P: Observer, I: Read, O: Write>(
    rt: &R,
    notes: &Notes<'_>,
    report: &P,
    input: &mut I,
    out: &mut O,
) -> Result<()>
where
    R::File: StoreFile,
    ensures { Answers (request_of notes.now.asked.now) (I.remaining input.old)
        (O.contents out.old) (O.contents out.new) result }
{
    if notes.asked.mode.stream {
        return run_stream(rt, notes, report, input, out);
    }
    run_text(rt, notes, report, input, out)
}

fn show_help<O: Write>(alloc: Global, help: &clap::Error, out: &mut O) -> Result<()>
    ensures { PrintsOneText (O.contents out.old) (O.contents out.new) result }
{
    let text = format!(in alloc; "{help}")?;
    let done = write_bytes(text.as_bytes(), out);
    flush(done, out)
}

fn show_version<O: Write>(out: &mut O) -> Result<()>
    ensures { Prints false (O.contents out.old) (O.contents out.new) (version_text ∷ []) (Ok tt)
        result }
{
    let done = write_bytes(VERSION, out);
    flush(done, out)
}

fn answer_words<O: Write>(alloc: Global, error: clap::Error, out: &mut O) -> Result<()>
    ensures help { kind_of error ≡ DisplayHelp →
        PrintsOneText (O.contents out.old) (O.contents out.new) result }
    ensures memory { kind_of error ≡ OutOfMemory →
        (result ≡ Err (SessionError.Fault Fault.NoMemory)) × (out.new ≡ out.old) }
    ensures refused { kind_of error ≢ DisplayHelp → kind_of error ≢ OutOfMemory →
        IsForWords result × (out.new ≡ out.old) }
{
    match error.kind() {
        clap::error::ErrorKind::DisplayHelp => show_help(alloc, &error, out),
        clap::error::ErrorKind::OutOfMemory => Err(SessionError::Fault(Fault::NoMemory)),
        _ => Err(SessionError::Words(error)),
    }
}

// Runs the session, which reports to `err` while it runs if it is asked to. Without an open `err`,
// nothing is reported.
fn run_reported<'a, R: Threads + Sync + Files + Clock, I: Read, O: Write, E: Write>(
    rt: &'a R,
    notes: &'a Notes<'a>,
    input: &mut I,
    out: &mut O,
    err: &mut E,
) -> Result<()>
where
    R::File: StoreFile,
    ensures answers { Answers (request_of notes.now.asked.now) (I.remaining input.old)
        (O.contents out.old) (O.contents out.new) result }
    ensures quiet { reports notes.now.asked.now.mode ≡ false → err.new ≡ err.old }
{
    let mode = notes.asked.mode;
    if !mode.progress && !(mode.stream && mode.explain) {
        return run(rt, notes, &Silent, input, out);
    }
    match Reporter::begin(rt, notes.asked, err) {
        Some(reporter) => {
            let done = run(rt, notes, &reporter, input, out);
            reporter.end();
            done
        }
        None => run(rt, notes, &Silent, input, out),
    }
}

// Prints the version, or runs the session. With `--explain`, `more` gets what `Notes::last_words`
// returns.
fn execute_options<R: AllocGlobal + Threads + Sync + Files + Clock, I: Read, O: Write, E: Write>(
    rt: &R,
    request: &Options,
    input: &mut I,
    out: &mut O,
    more: &mut Vec<u8>,
    err: &mut E,
) -> Result<()>
where
    R::File: StoreFile,
    requires { more.old.items ≡ [] }
    ensures version { request.now.mode.version ≡ true → (input.new ≡ input.old)
        × Prints false (O.contents out.old) (O.contents out.new) (version_text ∷ []) (Ok tt) result }
    ensures answers { request.now.mode.version ≡ false →
        Answers (request_of request.now) (I.remaining input.old)
        (O.contents out.old) (O.contents out.new) result }
    ensures more { request.now.mode.explain ≡ false → more.new.items ≡ [] }
    ensures quiet { reports request.now.mode ≡ false → err.new ≡ err.old }
{
    let mode = request.mode;
    if mode.version {
        return show_version(out);
    }
    let notes = Notes::new(rt.alloc(), request);
    let done = run_reported(rt, &notes, input, out, err);
    if mode.explain {
        *more = notes.last_words(&done).into_bytes();
    }
    done
}

fn execute<R: AllocGlobal + Threads + Sync + Files + Clock, I: Read, O: Write, E: Write>(
    rt: &R,
    words: &[String],
    input: &mut I,
    out: &mut O,
    more: &mut Vec<u8>,
    err: &mut E,
) -> Result<()>
where
    R::File: StoreFile,
    requires { more.old.items ≡ [] }
    ensures ends { EndsBy (map string_bytes words.now) (I.remaining input.old) (O.contents out.old)
        (O.contents out.new) (input.new ≡ input.old) (out.new ≡ out.old) result }
    ensures more { AsksToExplain (map string_bytes words.now) ⊎ (more.new.items ≡ []) }
    ensures quiet { AsksForReports (map string_bytes words.now) ⊎ (err.new ≡ err.old) }
{
    match options(rt.alloc(), words) {
        Ok(request) => execute_options(rt, &request, input, out, more, err),
        Err(error) => answer_words(rt.alloc(), error, out),
    }
}

// Writes the error: a refused command line in several writes, any other error in one.
fn write_error<E: Write>(error: &SessionError, err: &mut E) -> Result<()>
    ensures ok { OnOk result (IfSome (error_text error.now)
        (Appends (E.contents err.old) (E.contents err.new))) }
    ensures err { OnErr result (IfSome (error_text error.now)
        (IsBegun (E.contents err.old) (E.contents err.new))) }
{
    match error {
        SessionError::Words(error) => write!(err, "{error}").map_err(|_| SessionError::Device),
        error => print_error(error, err),
    }
}

fn write_error_and<E: Write>(error: &SessionError, more: &[u8], err: &mut E) -> Result<()>
    ensures { IfSome (error_text error.now)
        (λ text. IsBegun (E.contents err.old) (E.contents err.new) (text ++ more.now)) }
{
    write_error(error, err)?;
    write_bytes(more, err)
}

// Writes the error, if there is one, and then `more` to standard error, and returns the exit
// status. A failed write is ignored.
fn end<E: Write>(done: Result<()>, more: &[u8], err: &mut E) -> u8
    ensures status { result ≡ status_of_end done }
    ensures quiet { IfOk done (λ _. more.now ≡ [] → err.new ≡ err.old) }
    ensures told { IfOk done (λ _. (err.new ≡ err.old)
        ⊎ IsBegun (E.contents err.old) (E.contents err.new) more.now) }
    ensures reported { IfErr done (λ early. IsReportedWith more.now (Err early)
        (E.contents err.old) (E.contents err.new)) }
{
    match done {
        Ok(()) => {
            if !more.is_empty() {
                let _ = write_bytes(more, err);
            }
            0
        }
        Err(error) => {
            let _ = write_error_and(&error, more, err);
            error.status()
        }
    }
}

/// Reports that the command line cannot be read, and returns the exit status: 4 if an allocation
/// failed, and 2 if a word is not valid text.
pub fn unread_words<E: Write>(error: io::Error, err: &mut E) -> u8
    ensures memory { (result ≡ 4) ↔ (error_kind error ≡ ErrorKind.OutOfMemory) }
    ensures status { (result ≡ 2) ⊎ (result ≡ 4) }
    ensures reported { result ≡ 2 → IsBegun (E.contents err.old) (E.contents err.new) unread_text }
{
    match error.kind() {
        ErrorKind::OutOfMemory => end(Err(SessionError::Fault(Fault::NoMemory)), &[], err),
        _ => {
            let _ = write_bytes(UNREAD, err);
            2
        }
    }
}

/// Runs the session that the `words` of the command line ask for, and returns the exit status.
/// Answers, and the refusals of a stream, go to `out`; the error that ends the session,
/// explanations and progress go to `err`.
///
/// - 0: all orders are done or, in a stream, answered; or the help or the version was printed.
/// - 2: the command line is refused, and nothing was read.
/// - 3: without `--stream`, a line of the input is bad. Nothing was run and no file was opened.
/// - 4: a fault. `out` has the answers of the orders before the fault; if a device failed, some
///   prefix of all answers. A stream ends so only if it could not start, a device failed, or the
///   copy at its end failed.
///
/// In a stream, an order that is refused is answered by one line that begins with `fault`, and a
/// bad line by one that begins with `line`. The store then holds the pairs that it held, and the
/// stream goes on. Without a stream, the first fault ends the session.
pub fn session<R: AllocGlobal + Threads + Sync + Files + Clock, I: Read, O: Write, E: Write>(
    rt: &R,
    words: &[String],
    input: &mut I,
    out: &mut O,
    err: &mut E,
) -> u8
where
    R::File: StoreFile,
    ensures status { (result ≡ 0) ⊎ (result ≡ 2) ⊎ (result ≡ 3) ⊎ (result ≡ 4) }

    // Status 2 is returned only for a refused command line, which gives 4 if an allocation fails.
    ensures refused { (result ≡ 2) ↔ (AreRefused (map string_bytes words.now) × (result ≢ 4)) }
    ensures untouched { AreRefused (map string_bytes words.now) →
        (input.new ≡ input.old) × (out.new ≡ out.old) }

    // With status 0, the output is the help or the version, or the answers of the orders (batches,
    // flushes and the like) of all lines, on a new store, or, for an existing file, on a store that
    // some bytes encode: no clause says that these are the bytes of the file, and none that the
    // file of `--copy-to` holds the copy that was made.
    ensures done { result ≡ 0 → IsAllDone (map string_bytes words.now) (I.remaining input.old)
        (O.contents out.old) (O.contents out.new) }
    ensures bad { result ≡ 3 → IsBad (map string_bytes words.now) (I.remaining input.old)
        (O.contents out.old) (O.contents out.new) }

    // With each status, the output is the help, the version, or a beginning of those answers, after
    // which a stream may have written the line for a failed device, or a part of it.
    ensures beginning { HasBegun (map string_bytes words.now) (I.remaining input.old)
        (O.contents out.old) (O.contents out.new) }

    // The exit status and the output are those defined for this command line, this input and such a
    // store, unless an allocation or a device fails; a fault of the copy may make the status 4.
    // Standard error gets the report of the error, or a prefix of it, unless reports are written to
    // it while the session runs. Clauses say what the report is only for a bad line and for fault
    // 9.
    ensures ends { EndsReported (map string_bytes words.now)
        (I.remaining input.old) (O.contents out.old) (O.contents out.new)
        (E.contents err.old) (E.contents err.new)
        (input.new ≡ input.old) (out.new ≡ out.old) result }

    // A session that succeeds writes nothing to standard error, except with `--explain` which
    // options have no effect, and what is reported while it runs: with `--progress`, and with
    // `--explain` and `--stream`.
    ensures quiet { result ≡ 0 → IsQuiet E.contents (map string_bytes words.now) err.old err.new }
{
    let mut more = Vec::new(rt.alloc());
    let done = execute(rt, words, input, out, &mut more, err);
    end(done, &more, err)
}
