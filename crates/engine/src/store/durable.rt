//! A batch and its flush as one call: the batch becomes durable, or it is undone.
ghost use Rattle.std.specs.Prelude.{◌≡◌, ◌⊎◌, ◌<◌, ◌≤◌, [], ◌∷◌, ◌++◌, length, None, Err, IsTrue, IfOk, OnOk, IfErr, MatchOption, MatchResult, true, false};
ghost use Rattle.std.specs.Option.{option_copied};
ghost use Rattle.keys.specs.OrderedMap.{value_at};
ghost use Rattle.keys.specs.Range.{rows};
ghost use Rattle.keys.specs.Step.{map_after_all, replies_to};
ghost use Rattle.keys.specs.declared.fault.Fault.TheVariants.{NoMemory};
ghost use Rattle.mapping.specs.Levels.{contents};
ghost use Rattle.engine.specs.ClaimFlush.{MakesDurable};
ghost use Rattle.engine.specs.Copies.{puts_of};
ghost use Rattle.engine.specs.Durable.{IsDurable, IsFlushed, IsGivenUp, IsUndoTried, IsUnwritten, contents_after, fault_of, with_fault};
ghost use Rattle.engine.specs.Refusal.{is_crew, longest_batch, refusal};
ghost use Rattle.engine.specs.Undo.{IsTooLongToUndo, most_restored, restore, undo_of, undo_of_all, undo_within};

use crate::explain::ExplainedFault;
use crate::refusal::{LONGEST_BATCH, admit, admit_crew};
use crate::store::Store;
use crate::store::copy::puts_of;
use crew::{Crew, NoGate};
use flush_log::Disk;
use keys::{Command, Fault, Reply};
use mapping::laws::the_contents_of_a_proper_tree_rise;
use scan::Rows;
use std::alloc::{AllocError, Global};
use std::error::Error;
use std::fmt;
use std::thread::Threads;

/// Why `Store::batch_durable` or `Handle::execute_durable` did not make a batch durable.
#[derive(Debug, Drop, PartialEq, Eq)]
pub enum Unwritten {
    /// The batch was refused, or its flush was refused and the batch was undone. The store has the contents that it had
    /// before the call. Nothing of the batch is read later, or becomes durable with a later flush. The fault is never
    /// `Fault::Device`.
    ///
    /// The undo commands leave the leaves that the batch has added, emptied, and the next flush writes them and every
    /// other page that the batch has changed. So after `Fault::Full` even a small batch may find the log full.
    /// `Store::tidy` merges the emptied leaves.
    Undone(Fault),
    /// The store has in memory the contents that the batch left. `fault` is the flush's. After `Fault::Device` the store
    /// has failed: the disk holds the store of the last flush that succeeded or that of this one, and `Store::reopen`
    /// returns it. After any other fault the disk holds the store of the last flush that succeeded, and the batch could
    /// not be undone: a later flush makes the batch durable.
    ///
    /// `undo` is the fault with which the undo commands were refused, `Fault::NoMemory` or `Fault::Spent`. It is `None`
    /// if and only if `fault` is `Fault::Device`: then they were not executed.
    InDoubt { fault: Fault, undo: Option<Fault> },
}

impl Unwritten {
    /// Returns the fault for which the batch was refused, or for which its flush was.
    pub fn fault(&self) -> &Fault
        ensures { result.now ≡ fault_of self.now }
    {
        match self {
            Unwritten::Undone(fault) | Unwritten::InDoubt { fault, .. } => fault,
        }
    }

    // What happened to the batch, in a sentence.
    fn outcome(&self) -> &'static str {
        match self {
            Unwritten::Undone(_) => "The batch has no effect.",
            Unwritten::InDoubt {
                fault: Fault::Device,
                ..
            } => "The batch may or may not be durable.",
            Unwritten::InDoubt { .. } => {
                "The batch is in memory, and the next flush that succeeds makes it durable."
            }
        }
    }
}

/// Prints what happened to the batch, what the fault means, and what to do about it.
impl fmt::Display for Unwritten {
    fn fmt<W: fmt::Write>(&self, f: &mut fmt::Formatter<W>) -> fmt::Result {
        let outcome = self.outcome();
        let explained = ExplainedFault(self.fault());
        write!(f, "{outcome} {explained}")
    }
}

impl Error for Unwritten {}

/// Drops whether the batch was undone. So `?` turns an `Unwritten` into its fault in a function that returns a `Fault`.
impl From<Unwritten> for Fault {
    ghost from_gives = { λ unwritten fault. fault ≡ fault_of unwritten };

    fn from(unwritten: Unwritten) -> Fault {
        match unwritten {
            Unwritten::Undone(fault) | Unwritten::InDoubt { fault, .. } => fault,
        }
    }
}

// How many pairs of a wipe are restored at most: one more than a batch may have commands.
const MOST_RESTORED: u32 = 65_536;

// The command that gives a key this value, or deletes the key if there is no value.
fn restore(alloc: Global, key: &[u8], value: Option<&[u8]>) -> Result<Command<Global>, AllocError>
    ensures { IfOk result (λ command. command ≡ restore key.now (option_copied value.entry)) }
{
    match value {
        Some(value) => Command::put(alloc, key, value),
        None => Command::del(alloc, key),
    }
}

impl<D: Disk> Store<D> {
    // Adds the command that gives a key the value that it has now, or deletes the key if it has none.
    fn push_key(&self, key: &[u8], undo: &mut Vec<Command<Global>>) -> Result<(), AllocError>
        ensures { OnOk result (undo.new.items ≡ undo.old.items
            ++ restore key.now (value_at key.now (contents self.now.store.tree)) ∷ []) }
    {
        let command = restore(self.alloc, key, self.get(key))?;
        undo.push(command)?;
        Ok(())
    }

    // Adds puts of the first pairs of a range, `MOST_RESTORED` at most.
    fn push_range(
        &self,
        lo: &[u8],
        hi: Option<&[u8]>,
        undo: &mut Vec<Command<Global>>,
    ) -> Result<(), AllocError>
        ensures { OnOk result (undo.new.items ≡ undo.old.items ++ puts_of
            (rows lo.now (option_copied hi.entry) most_restored (contents self.now.store.tree))) }
    {
        let pairs = Rows::new(self.alloc, &self.tree, lo, hi, MOST_RESTORED);
        puts_of(self.alloc, pairs, undo)?;
        Ok(())
    }

    // Adds the commands that undo this one. For a wipe it stops at `MOST_RESTORED`.
    fn push_undo(
        &self,
        command: &Command<Global>,
        undo: &mut Vec<Command<Global>>,
    ) -> Result<(), AllocError>
        ensures { OnOk result (undo.new.items ≡ undo.old.items
            ++ undo_within (contents self.now.store.tree) command.now) }
    {
        match command {
            Command::Put(key, _) => self.push_key(key.as_bytes(), undo),
            Command::Add(key, _) => self.push_key(key.as_bytes(), undo),
            Command::Del(key) => self.push_key(key.as_bytes(), undo),
            Command::Wipe(lo, Some(hi)) => {
                self.push_range(lo.as_bytes(), Some(hi.as_bytes()), undo)
            }
            Command::Wipe(lo, None) => self.push_range(lo.as_bytes(), None, undo),
            Command::Get(_) => Ok(()),
            Command::Scan(_, _, _) => Ok(()),
        }
    }

    // Adds the commands that undo this one. Fails with `Fault::BatchTooLong` if there are then more than a batch may
    // have.
    fn push_few(
        &self,
        command: &Command<Global>,
        undo: &mut Vec<Command<Global>>,
    ) -> Result<(), Fault>
        ensures added { OnOk result ((undo.new.items ≡ undo.old.items
            ++ undo_of (contents self.now.store.tree) command.now)
            × (length undo.new.items ≤ longest_batch)) }
        ensures refused { IfErr result (λ fault. (fault ≡ NoMemory) ⊎ ((fault ≡ Fault.BatchTooLong)
            × (longest_batch < length (undo.old.items
            ++ undo_of (contents self.now.store.tree) command.now)))) }
    {
        self.push_undo(command, undo)?;
        if undo.len() > LONGEST_BATCH {
            return Err(Fault::BatchTooLong);
        }
        Ok(())
    }

    // The commands that undo these, on the present contents of the store.
    fn undo_of(&self, commands: &[Command<Global>]) -> Result<Vec<Command<Global>>, Fault>
        ensures made { IfOk result (λ undo.
            (undo.items ≡ undo_of_all (contents self.now.store.tree) commands.now)
            × (length undo.items ≤ longest_batch)) }
        ensures refused { IfErr result (λ fault. (fault ≡ NoMemory)
            ⊎ IsTooLongToUndo (contents self.now.store.tree) commands.now fault) }
    {
        let mut undo = Vec::with_capacity(self.alloc, commands.len())?;
        for command in commands {
            self.push_few(command, &mut undo)?;
        }
        Ok(undo)
    }

    // Refuses a batch that `batch` refuses before it executes anything. Else returns the commands that undo it.
    pub(crate) fn undo_for(
        &self,
        crew: Crew,
        commands: &[Command<Global>],
    ) -> Result<Vec<Command<Global>>, Fault>
        ensures made { IfOk result (λ undo.
            (undo.items ≡ undo_of_all (contents self.now.store.tree) commands.now)
            × (length undo.items ≤ longest_batch)) }
        ensures admitted { OnOk result ((self.now.has_failed ≡ false) × IsTrue (is_crew crew)
            × (refusal self.now.settings commands.now ≡ None)) }
        ensures failed { self.now.has_failed ≡ true → result ≡ Err Fault.Failed }
        ensures bad_crew { self.now.has_failed ≡ false → is_crew crew ≡ false →
            result ≡ Err Fault.BadCrew }
        ensures refused { self.now.has_failed ≡ false → IsTrue (is_crew crew) →
            MatchOption (refusal self.now.settings commands.now)
            (IfErr result (λ fault. (fault ≡ NoMemory)
            ⊎ IsTooLongToUndo (contents self.now.store.tree) commands.now fault))
            (λ fault. result ≡ Err fault) }
    {
        if self.has_failed {
            return Err(Fault::Failed);
        }
        admit_crew(crew)?;
        admit(&self.settings, commands)?;
        self.undo_of(commands)
    }

    // Executes the undo commands after a flush was refused with this fault, unless a call of the disk failed.
    fn undo_after(
        &mut self,
        rt: &(impl Threads + Sync),
        crew: Crew,
        undo: &[Command<Global>],
        fault: Fault,
    ) -> Unwritten
        ensures { IsUndoTried D.view (is_crew crew) self.old undo.now fault self.new result }
    {
        if matches!(fault, Fault::Device) {
            return Unwritten::InDoubt { fault, undo: None };
        }
        match self.batch(rt, crew, &NoGate, undo) {
            Ok(_replies) => Unwritten::Undone(fault),
            Err(refused) => {
                let undo = Some(refused);
                Unwritten::InDoubt { fault, undo }
            }
        }
    }

    // Flushes. If the flush is refused, executes the undo commands, unless a call of the disk failed.
    pub(crate) fn flush_or_undo(
        &mut self,
        rt: &(impl Threads + Sync),
        crew: Crew,
        undo: &[Command<Global>],
    ) -> Result<(), Unwritten>
        requires fine { self.old.has_failed ≡ false }
        requires crew { IsTrue (is_crew crew) }
        ensures flushed { OnOk result (IsFlushed D.view D.failed self.old self.new) }
        ensures refused { IfErr result
            (IsGivenUp D.view D.failed (is_crew crew) self.old undo.now self.new) }
        ensures on_disk { MakesDurable D.view self.old.settings (contents self.old.store.tree)
            self.old.disk self.old.has_failed (with_fault result) self.new }
    {
        match self.flush_cleaning(rt, crew) {
            Ok(_number) => Ok(()),
            Err(fault) => Err(self.undo_after(rt, crew, undo, fault)),
        }
    }

    /// Executes the commands as `batch` does, and then flushes as `flush_cleaning` does, which also makes the earlier
    /// batches durable that were not flushed yet. If the flush is refused, and no call of the disk failed, it undoes
    /// the batch. So a batch that was refused, as with `Fault::Full`, is not read later, and does not become durable
    /// with a later flush.
    ///
    /// First it makes the commands that undo the batch, from what the store has now: one for each put, add and delete,
    /// and one for each pair in the range of a wipe. They take one descent for each key, and memory for the keys and
    /// values. A batch that needs more than 65,535 of them is refused with `Fault::BatchTooLong`; `batch` and
    /// `flush_cleaning` execute it.
    ///
    /// Fails with `Unwritten::Undone` and the fault of `batch`, or with `Fault::BatchTooLong`, and then nothing has
    /// changed; or, after the batch was undone, with the fault of `flush_cleaning`, which may have compacted the store
    /// and cleaned segments. Fails with `Unwritten::InDoubt` and the fault of `flush_cleaning` if a call of the disk
    /// failed (`Fault::Device`), or if the undo commands were refused with `Fault::NoMemory` or `Fault::Spent`. The
    /// store then has the contents that the batch left.
    pub fn batch_durable(
        &mut self,
        rt: &(impl Threads + Sync),
        crew: Crew,
        commands: &[Command<Global>],
    ) -> Result<Vec<Reply<Global>>, Unwritten>
        // The replies are those of an ordered map, and the contents are those of the map after or before the batch.
        ensures replies { IfOk result (λ replies.
            replies.items ≡ replies_to (contents self.old.store.tree) commands.now) }
        ensures contents { MatchResult result
            (λ _. contents self.new.store.tree
            ≡ map_after_all (contents self.old.store.tree) commands.now)
            (λ unwritten. contents self.new.store.tree
            ≡ contents_after (contents self.old.store.tree) commands.now unwritten) }

        // If the disk is honest: after success it encodes the contents, and after a failure what it encoded, unless a
        // call of it failed. A crash at any moment leaves what it encoded, or the contents that the batch left.
        ensures on_disk { MakesDurable D.view self.old.settings
            (map_after_all (contents self.old.store.tree) commands.now)
            self.old.disk self.old.has_failed (with_fault result) self.new }

        // Executed as a batch, and flushed: all that is promised of both.
        ensures durable { IfOk result (λ replies. IsDurable D.view D.failed (is_crew crew)
            self.old commands.now replies.items self.new) }

        // Which fault, and what is left then.
        ensures failed { self.old.has_failed ≡ true →
            (result ≡ Err (Unwritten.Undone Fault.Failed)) × (self.new ≡ self.old) }
        ensures bad_crew { self.old.has_failed ≡ false → is_crew crew ≡ false →
            (result ≡ Err (Unwritten.Undone Fault.BadCrew)) × (self.new ≡ self.old) }
        ensures refused { self.old.has_failed ≡ false → IsTrue (is_crew crew) →
            MatchOption (refusal self.old.settings commands.now)
            (IfErr result (IsUnwritten D.view D.failed (is_crew crew)
            self.old commands.now self.new))
            (λ fault. (result ≡ Err (Unwritten.Undone fault)) × (self.new ≡ self.old)) }
    {
        // Only for the proof.
        the_contents_of_a_proper_tree_rise();
        let undo = match self.undo_for(crew, commands) {
            Ok(undo) => undo,
            Err(fault) => return Err(Unwritten::Undone(fault)),
        };
        let replies = match self.batch(rt, crew, &NoGate, commands) {
            Ok(replies) => replies,
            Err(fault) => return Err(Unwritten::Undone(fault)),
        };
        self.flush_or_undo(rt, crew, &undo)?;
        Ok(replies)
    }
}
