//! Answering the orders of a session, each on its own.
ghost use Rattle.std.specs.Prelude.{false, true, ◌≡◌, ◌⊎◌, ◌<◌, ◌^◌, [], ◌∷◌, length, min, take, None, Some, Ok, Err, IfErr, IfSome, OnOk};
ghost use Rattle.std.specs.List.{flat_map};
ghost use Rattle.std.specs.Option.{option_copied};
ghost use Rattle.keys.specs.Bytes.{Bytes};
ghost use Rattle.mapping.specs.Levels.{contents};
ghost use Rattle.scan.specs.Back.{rows_back};
ghost use Rattle.scan.specs.Prefix.{with_prefix};
ghost use Rattle.verify.specs.Report.{report};
ghost use Rattle.bwsh.specs.declared.order.Order.TheVariants as orders;
ghost use Rattle.bwsh.specs.Output.{IsBegun, Puts, Writes};
ghost use Rattle.bwsh.specs.Session.{Holds, IsCopyEnd, IsCopyMade, IsUncopied, OrderRuns, OrdersAnswered, OrdersRun, Stays, copy_settings, device_line, error_text, fault_line, numbers_of};
ghost use Rattle.bwsh.specs.Shown.{shown_row, shown_rows};

use crate::context::Session;
use crate::options::STREAM_LINES;
use crate::order::Order;
use crate::output::{Buffer, flush, write_bytes};
use crate::progress::{Event, Observer};
use crate::session::{Result, SessionError};
use crate::show::{NumberLine, StoreNumbers, print_error, print_numbers, print_refusal};
use engine::{Disk, LockFile, Report, Rows, RowsBack, Step, Store};
use keys::{Fault, Key, Settings};
use std::alloc::Global;
use std::io::Write;
use std::rt::Files;
use std::thread::Threads;
use std::time::Clock;

fn numbers_of<D: Disk>(store: &Store<D>, tree: &Report) -> StoreNumbers
    requires { tree.now ≡ report store.now.store.tree }
    ensures { result ≡ numbers_of store.now.settings store.now.store }
{
    StoreNumbers {
        sequence: store.sequence(),
        head: store.head(),
        tail: store.tail(),
        in_use: store.segments_in_use(),
        segments: store.segments(),
        pages: tree.pages,
        pairs: tree.pairs,
    }
}

fn count_back(rows: RowsBack<'_>) -> usize
    requires { length rows < 2 ^ 32 }
    ensures { result ≡ length rows.entry }
{
    let mut count = 0;
    for _row in rows {
        count += 1;
    }
    count
}

fn put_back<O: Write>(rows: &mut RowsBack<'_>, buffer: &mut Buffer, out: &mut O) -> Result<()>
    ensures { Puts O.contents buffer.old out.old buffer.new out.new
        (flat_map shown_row rows.old) result }
{
    while let Some((key, value)) = rows.next() {
        buffer.put_row(key, value, out)?;
    }
    Ok(())
}

fn count_first(rows: &mut Rows<'_>, most: u32) -> u32
    ensures { result ≡ min most (length rows.old) }
{
    let mut count = 0;
    while let Some(_row) = rows.next() {
        if count == most {
            return most;
        }
        count += 1;
    }
    count
}

fn put_first<O: Write>(
    rows: &mut Rows<'_>,
    limit: u32,
    buffer: &mut Buffer,
    out: &mut O,
) -> Result<()>
    ensures { Puts O.contents buffer.old out.old buffer.new out.new
        (flat_map shown_row (take limit rows.old)) result }
{
    let mut left = limit;
    while let Some((key, value)) = rows.next() {
        if left == 0 {
            return Ok(());
        }
        buffer.put_row(key, value, out)?;
        left -= 1;
    }
    Ok(())
}

fn copy_settings(settings: Settings, segments: Option<u32>) -> Settings
    ensures { result ≡ copy_settings settings segments }
{
    Settings {
        segments: segments.unwrap_or(settings.segments),
        ..settings
    }
}

fn bound_of(key: &Option<Key<Global>>) -> Option<&[u8]>
    ensures { option_copied result ≡ key.now }
{
    match key {
        Some(key) => Some(key.as_bytes()),
        None => None,
    }
}

impl<'a, R, P: Observer> Session<'a, R, P> {
    // Prints the last rows of a range, from the greatest key down. They are counted first.
    fn print_back<D: Disk, O: Write>(
        &self,
        store: &Store<D>,
        lo: &[u8],
        hi: Option<&[u8]>,
        limit: u32,
        out: &mut O,
    ) -> Result<()>
        ensures { Writes (O.contents out.old) (O.contents out.new)
            (shown_rows (rows_back lo.now (option_copied hi.entry) limit (contents
            store.now.store.tree)) ∷ []) result }
    {
        let mut buffer = Buffer::new(self.calls.alloc);
        let count = count_back(store.range_back(lo, hi, limit));
        buffer.put_numbers(NumberLine::Rows(count), out)?;
        // The rows are dropped before the result is tested, which makes the proof short.
        let put = put_back(&mut store.range_back(lo, hi, limit), &mut buffer, out);
        put?;
        buffer.write(out)
    }

    // Prints the first rows whose keys begin with `bytes`. They are counted first.
    fn print_prefix<D: Disk, O: Write>(
        &self,
        store: &Store<D>,
        bytes: &[u8],
        limit: u32,
        out: &mut O,
    ) -> Result<()>
        ensures { Writes (O.contents out.old) (O.contents out.new)
            (shown_rows (take limit (with_prefix bytes.now (contents store.now.store.tree))) ∷ [])
            result }
    {
        let mut buffer = Buffer::new(self.calls.alloc);
        let count = count_first(&mut store.prefix(bytes), limit);
        buffer.put_numbers(NumberLine::Rows(count as usize), out)?;
        // The rows are dropped before the result is tested, which makes the proof short.
        let put = {
            let mut rows = store.prefix(bytes);
            put_first(&mut rows, limit, &mut buffer, out)
        };
        put?;
        buffer.write(out)
    }

    // With `--explain`, writes to standard error why a stream has refused an order.
    fn explain_refusal(&self, order: &Order, error: &SessionError) {
        if !self.calls.mode.explain {
            return;
        }
        let text = match order {
            Order::Copy { path, .. } => self.notes.copy_explanation(path.as_bytes(), error),
            _ => self.notes.explanation(error),
        };
        self.report.observe(Event::Explained(text.as_bytes()));
    }

    // Answers a bad line, whose batch is discarded, by a line that reports it.
    fn report_line<O: Write>(&self, order: &Order, error: &SessionError, out: &mut O) -> Result<()>
        ensures { IfSome (error_text error.now) (λ text.
            Writes (O.contents out.old) (O.contents out.new) (text ∷ []) result) }
    {
        self.explain_refusal(order, error);
        print_error(error, out)
    }

    // Ends the answer to an order of a stream: if the order failed, adds a line that reports the
    // fault. Fails only if a device failed, which ends the stream.
    fn end_answer<O: Write>(
        &self,
        order: &Order,
        done: Result<()>,
        is_failed: bool,
        out: &mut O,
    ) -> Result<()>
        ensures done { done ≡ Ok tt → (result ≡ Ok tt) × (out.new ≡ out.old) }
        ensures fault { (fault : Fault) → done ≡ Err (SessionError.Fault fault) → (told : Bytes) ×
            Writes (O.contents out.old) (O.contents out.new) (fault_line told ∷ []) result }
        ensures device { done ≡ Err SessionError.Device → (result ≡ Err SessionError.Device)
            × IsBegun (O.contents out.old) (O.contents out.new) (device_line true) }
    {
        let Err(error) = done else {
            return Ok(());
        };
        if let SessionError::Fault(fault) = &error {
            self.explain_refusal(order, &error);
            return print_refusal(fault, out);
        }
        if is_failed {
            print_error(&error, out)?;
        }
        Err(error)
    }
}

impl<'a, R: Threads + Sync, P: Observer> Session<'a, R, P> {
    fn print_report<D: Disk, O: Write>(&self, store: &Store<D>, out: &mut O) -> Result<()>
        ensures { OrderRuns D.view O.contents self.now.calls.mode orders.Verify store.now out.old
            result store.now out.new }
    {
        let report = store.verify(self.calls.rt)?;
        print_numbers(NumberLine::Report(report), out)
    }

    fn print_statistics<D: Disk, O: Write>(&self, store: &Store<D>, out: &mut O) -> Result<()>
        ensures { OrderRuns D.view O.contents self.now.calls.mode orders.Numbers store.now out.old
            result store.now out.new }
    {
        let report = store.report();
        print_numbers(NumberLine::Numbers(numbers_of(store, &report)), out)
    }

    fn print_stat<D: Disk, O: Write>(&self, store: &Store<D>, out: &mut O) -> Result<()>
        ensures { OrderRuns D.view O.contents self.now.calls.mode orders.Stat store.now out.old
            result store.now out.new }
    {
        let report = store.report();
        print_numbers(NumberLine::Numbers(numbers_of(store, &report)), out)?;
        print_numbers(NumberLine::Settings(store.settings()), out)
    }

    fn run_tidy<D: Disk, O: Write>(
        &self,
        store: &mut Store<D>,
        most: u32,
        out: &mut O,
    ) -> Result<()>
        requires fine { store.old.has_failed ≡ false }
        ensures runs { OrderRuns D.view O.contents self.now.calls.mode (orders.Tidy most) store.old
            out.old result store.new out.new }
        ensures holds { Holds D.view store.old result store.new }
    {
        let pages = store.tidy(self.calls.rt, self.calls.crew, most as usize)?;
        print_numbers(NumberLine::Tidied(pages), out)
    }
}

impl<'a, R: Threads + Sync + Files + Clock, P: Observer> Session<'a, R, P>
where
    R::File: LockFile,
{
    fn copy_asked<D: Disk>(&self, store: &Store<D>, path: &[u8], settings: Settings) -> Result<()>
        ensures copied { OnOk result (IsCopyMade settings (contents store.now.store.tree)) }
        ensures refused { IfErr result (λ early. IsUncopied (Some settings) early
            ⊎ IsCopyEnd settings (contents store.now.store.tree) early) }
    {
        let copy = self.begin_asked(path, settings)?;
        self.copy_into(store, copy)
    }

    // Copies the store as it is now to a new file. A failure of this file leaves the store
    // unchanged.
    fn run_copy<D: Disk, O: Write>(
        &self,
        store: &Store<D>,
        path: &[u8],
        segments: Option<u32>,
        out: &mut O,
    ) -> Result<()>
        ensures { OrderRuns D.view O.contents self.now.calls.mode (orders.Copy path.now segments)
            store.now out.old result store.now out.new }
    {
        let pairs = store.len();
        let settings = copy_settings(store.settings(), segments);
        match self.copy_asked(store, path, settings) {
            Ok(()) => print_numbers(NumberLine::Copied(pairs), out),
            Err(SessionError::Device) => Err(SessionError::Fault(Fault::Device)),
            Err(refused) => Err(refused),
        }
    }

    fn run_order<D: Disk, O: Write>(
        &self,
        store: &mut Store<D>,
        order: &Order,
        out: &mut O,
    ) -> Result<()>
        requires fine { store.old.has_failed ≡ false }
        ensures runs { OrdersRun D.view O.contents self.now.calls.mode (order.now ∷ []) store.old
            out.old result store.new out.new }
        ensures rest { Stays D.view store.old result store.new }
    {
        match order {
            Order::Batch(batch) => self
                .calls
                .run_step(store, Step::Batch(batch.commands()), out),
            Order::BadLine { line, why } => {
                let (line, why) = (*line, *why);
                self.report_line(order, &SessionError::Bad { line, why }, out)
            }
            Order::Lost => Err(SessionError::Fault(Fault::NoMemory)),
            Order::Flush => self.calls.run_flush(store, out),
            Order::Clean => self.calls.run_step(store, Step::Clean, out),
            Order::Upgrade => self.calls.run_step(store, Step::Upgrade, out),
            Order::Verify => self.print_report(store, out),
            Order::Numbers => self.print_statistics(store, out),
            Order::Stat => self.print_stat(store, out),
            Order::Copy { path, segments } => self.run_copy(store, path.as_bytes(), *segments, out),
            Order::Tidy(most) => self.run_tidy(store, *most, out),
            Order::Back(lo, hi, limit) => {
                self.print_back(store, lo.as_bytes(), bound_of(hi), *limit, out)
            }
            Order::Prefix(bytes, limit) => self.print_prefix(store, bytes.as_bytes(), *limit, out),
            Order::Help => write_bytes(STREAM_LINES.as_bytes(), out),
        }
    }

    /// Answers an order: runs it, and prints its answer. In a stream, prints a fault as the end of
    /// the answer, flushes `out`, and fails only if the disk of the store or `out` has failed.
    pub fn answer<D: Disk, O: Write>(
        &self,
        store: &mut Store<D>,
        order: &Order,
        out: &mut O,
    ) -> Result<()>
        requires fine { store.old.has_failed ≡ false }
        ensures runs { OrdersAnswered D.view O.contents self.now.calls.mode (order.now ∷ [])
            store.old out.old result store.new out.new }
        ensures rest { Stays D.view store.old result store.new }
    {
        let done = self.run_order(store, order, out);
        if !self.calls.mode.stream {
            return done;
        }
        let done = self.end_answer(order, done, store.has_failed(), out);
        flush(done, out)
    }
}
