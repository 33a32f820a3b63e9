//! A batch and its flush as one call of a handle.
ghost use Rattle.std.specs.Prelude.{◌≡◌, Err, IfOk, IfErr, MatchOption, MatchResult, true, false};
ghost use Rattle.keys.specs.Step.{map_after_all, replies_to};
ghost use Rattle.mapping.specs.Levels.{contents};
ghost use Rattle.engine.specs.ClaimFlush.{MakesDurable};
ghost use Rattle.engine.specs.Durable.{IsDurable, IsUnwritten, contents_after, with_fault};
ghost use Rattle.engine.specs.Refusal.{refusal};

use crate::handle::Handle;
use crate::handle::batch::{Batch, Replies};
use crate::store::Unwritten;
use flush_log::Disk;
use keys::{Command, Fault, Reply};
use mapping::laws::the_contents_of_a_proper_tree_rise;
use std::alloc::Global;
use std::thread::Threads;

impl<'r, R: Threads + Sync, D: Disk> Handle<'r, R, D> {
    /// Executes the commands of the batch as `execute` does, and makes them and all earlier writes durable as `flush`
    /// does. If the flush is refused, and no call of the disk failed, undoes the batch. Does what `Store::batch_durable`
    /// does, with the same costs and the same errors.
    ///
    /// After `Unwritten::Undone` the map is as before the call, and nothing of the batch is read or becomes durable
    /// later. After `Unwritten::InDoubt` the map has the batch in memory: with `Fault::Device` the store has failed, and
    /// `reopen` gives the map of the last flush that succeeded, or of this one; with any other fault a later flush makes
    /// the batch durable.
    ///
    /// A batch whose undo commands would be more than 65,535 is refused, with `Undone` and `Fault::BatchTooLong`. Each
    /// pair that a wipe deletes is one of them, so delete many pairs by `wipe` and `flush`, or in parts.
    pub fn execute_durable(&mut self, batch: &Batch) -> Result<Replies, Unwritten>
        // The replies are those of an ordered map, and the contents are those of the map after or before the batch.
        ensures replies { IfOk result (λ replies.
            replies ≡ replies_to (contents self.old.store.tree) batch.now) }
        ensures contents { MatchResult result
            (λ _. contents self.new.store.tree
            ≡ map_after_all (contents self.old.store.tree) batch.now)
            (λ unwritten. contents self.new.store.tree
            ≡ contents_after (contents self.old.store.tree) batch.now unwritten) }

        // If the disk is honest: after success it encodes the contents, and after a failure what it encoded, unless a
        // call of it failed. A crash at any moment leaves what it encoded, or the contents that the batch left.
        ensures on_disk { MakesDurable D.view self.old.settings
            (map_after_all (contents self.old.store.tree) batch.now)
            self.old.disk self.old.has_failed (with_fault result) self.new }

        // Executed as a batch, and flushed: all that is promised of both.
        ensures durable { IfOk result (λ replies. IsDurable D.view D.failed true
            self.old batch.now replies self.new) }

        // Which fault, and what is left then.
        ensures failed { self.old.has_failed ≡ true →
            (result ≡ Err (Unwritten.Undone Fault.Failed)) × (self.new ≡ self.old) }
        ensures refused { self.old.has_failed ≡ false →
            MatchOption (refusal self.old.settings batch.now)
            (IfErr result (IsUnwritten D.view D.failed true self.old batch.now self.new))
            (λ fault. (result ≡ Err (Unwritten.Undone fault)) × (self.new ≡ self.old)) }
    {
        let replies = self.execute_or_undo(batch.commands())?;
        Ok(Replies::new(replies))
    }

    // Executes the commands and flushes, or undoes them.
    fn execute_or_undo(
        &mut self,
        commands: &[Command<Global>],
    ) -> Result<Vec<Reply<Global>>, Unwritten>
        ensures replies { IfOk result (λ replies.
            replies.items ≡ replies_to (contents self.old.store.tree) commands.now) }
        ensures contents { MatchResult result
            (λ _. contents self.new.store.tree
            ≡ map_after_all (contents self.old.store.tree) commands.now)
            (λ unwritten. contents self.new.store.tree
            ≡ contents_after (contents self.old.store.tree) commands.now unwritten) }
        ensures on_disk { MakesDurable D.view self.old.settings
            (map_after_all (contents self.old.store.tree) commands.now)
            self.old.disk self.old.has_failed (with_fault result) self.new }
        ensures durable { IfOk result (λ replies. IsDurable D.view D.failed true
            self.old commands.now replies.items self.new) }
        ensures failed { self.old.has_failed ≡ true →
            (result ≡ Err (Unwritten.Undone Fault.Failed)) × (self.new ≡ self.old) }
        ensures refused { self.old.has_failed ≡ false →
            MatchOption (refusal self.old.settings commands.now)
            (IfErr result (IsUnwritten D.view D.failed true self.old commands.now self.new))
            (λ fault. (result ≡ Err (Unwritten.Undone fault)) × (self.new ≡ self.old)) }
    {
        // Only for the proof.
        the_contents_of_a_proper_tree_rise();
        let undo = match self.store.undo_for(self.crew, commands) {
            Ok(undo) => undo,
            Err(fault) => return Err(Unwritten::Undone(fault)),
        };
        let replies = match self.execute_all(commands) {
            Ok(replies) => replies,
            Err(fault) => return Err(Unwritten::Undone(fault)),
        };
        match self.store.flush_or_undo(self.rt, self.crew, &undo) {
            Ok(()) => Ok(replies),
            Err(unwritten) => Err(unwritten),
        }
    }
}
