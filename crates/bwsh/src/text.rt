//! Checking a batch file before anything runs.
ghost use Rattle.std.specs.Prelude.{◌≡◌, ◌||◌, [], ◌∷◌, None, IfOk, IfErr, OnOk, false};
ghost use Rattle.std.specs.List.{list_any};
ghost use Rattle.bwsh.specs.BatchFile.{IsReadError, IsWithin, first_bad, line_writes, orders_of, parse_text, writes};

use crate::line::{Line, LineReader};
use crate::session::{Result, SessionError};
use bstr::ByteSlice;
use keys::Fault;
use std::alloc::Global;

/// What a session knows of its text before it runs.
#[derive(Clone, Copy)]
pub struct Checked {
    /// Whether an order writes to the store's disk.
    pub writes: bool,
    /// How many orders there are.
    pub orders: u64,
    // Whether commands wait for the line that ends their batch.
    is_pending: bool,
}

impl Checked {
    // Counts the orders of the line with this number. Fails if the line is bad or lost.
    fn count(&mut self, number: u64, line: &Line) -> Result<()>
        ensures within { OnOk result (IsWithin (line.now ∷ [])) }
        ensures writes { OnOk result
            (self.new.writes ≡ (self.old.writes || line_writes line.now)) }
        ensures bad { IfErr result (IsReadError (first_bad number (line.now ∷ []))) }
    {
        match line {
            Line::Blank => Ok(()),
            Line::Command(_) => {
                self.is_pending = true;
                Ok(())
            }
            Line::Go => {
                self.end_batch(1);
                Ok(())
            }
            Line::Order(order) => {
                self.writes |= order.writes();
                let is_pending = self.is_pending;
                self.end_batch(1 + u64::from(is_pending));
                Ok(())
            }
            Line::Bad(why) => Err(SessionError::Bad {
                line: number,
                why: *why,
            }),
            Line::Lost => Err(SessionError::Fault(Fault::NoMemory)),
        }
    }

    fn end_batch(&mut self, orders: u64)
        ensures { self.new.writes ≡ self.old.writes }
    {
        self.orders = self.orders.saturating_add(orders);
        self.is_pending = false;
    }
}

/// Checks that each line of a text can be parsed, and counts the orders. Fails with the first bad
/// line, or if an allocation fails.
pub fn check(alloc: Global, text: &[u8]) -> Result<Checked>
    ensures good { IfOk result (λ _. first_bad 1 (parse_text false text.now) ≡ None) }
    ensures writes { IfOk result (λ checked. checked.writes
        ≡ list_any writes (orders_of [] (parse_text false text.now))) }
    ensures bad { IfErr result (IsReadError (first_bad 1 (parse_text false text.now))) }
{
    let mut reader = LineReader::new(alloc);
    let mut checked = Checked {
        writes: false,
        orders: 0,
        is_pending: false,
    };
    let mut number: u64 = 0;
    for bytes in text.lines() {
        number += 1;
        let line = reader.read(bytes, false);
        let counted = checked.count(number, &line);
        drop(line);
        counted?;
    }
    let is_pending = checked.is_pending;
    checked.end_batch(u64::from(is_pending));
    Ok(checked)
}
