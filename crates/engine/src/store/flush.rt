//! The flush: what the log lacks is written, and a crash leaves the store of before or of after.
ghost use Rattle.std.specs.Prelude.{◌≡◌, ◌≢◌, ◌⊎◌, [], Ok, Err, IsTrue, IfOk, IfErr, OnOk, true, false};
ghost use Rattle.keys.specs.declared.fault.Fault.TheVariants.{NoMemory};
ghost use Rattle.keys.specs.declared.version.Version as versions;
ghost use Rattle.mapping.specs.TreeInMemory.{AreAllHome, tree_of};
ghost use Rattle.flush_log.specs.AfterFlush.{slot_of};
ghost use Rattle.flush_log.specs.CommitPlan.{next_tail};
ghost use Rattle.flush_log.specs.FlushText.{version_with, commit_frames, flush_frames};
ghost use Rattle.recovery.specs.InStep.{IsStore};
ghost use Rattle.engine.specs.Calls.{IsOwnText, IsToWrite, IsWriting};
ghost use Rattle.engine.specs.OneStep.{IsStep, answer_by, step_by};
ghost use Rattle.engine.specs.Refusal.{is_crew};
ghost use Rattle.engine.specs.State.{store_in};
ghost use Rattle.engine.specs.Steps.Answer.{Flushed};
ghost use Rattle.engine.specs.Steps.Step.{Flush};

use crate::refusal::admit_crew;
use crate::store::Store;
use crew::Crew;
use flush_log::laws::an_upgrade_is_a_flush_of_outdated_pages;
use flush_log::{Commit, CommitKind, Disk, LogEnds, Slot, images, is_all_written};
use keys::{Fault, Settings, Version};
use mapping::Tree;
use recovery::laws::{
    a_crash_in_a_flush_leaves_the_store_before_or_after,
    a_crash_in_an_upgrade_leaves_the_store_before_or_after, what_was_flushed_is_what_is_read,
    what_was_upgraded_is_what_is_read,
};
use recovery::table_laws::a_table_marked_as_written_holds_the_flushed_tree;
use std::alloc::Global;
use std::thread::Threads;

// The version of the log that has this text: an upgrade brings the second one.
fn version_with(text: CommitKind) -> Version
    ensures { result ≡ version_with text }
{
    match text {
        CommitKind::Flush(version) => version,
        CommitKind::Upgrade => Version::Two,
    }
}

// Plans the commit of a text of a tree, which has something to write, at the end of its store's log. It reads no disk.
pub(super) fn plan(
    rt: &(impl Threads + Sync),
    crew: Crew,
    alloc: Global,
    settings: &Settings,
    tree: &Tree<Global>,
    log: LogEnds,
    text: CommitKind,
) -> Result<Commit, Fault>
    requires home { AreAllHome tree.now }
    requires store { (version : versions.Version) ×
        IsStore settings.now (store_in tree.now log version) }
    requires some { commit_frames text (tree_of tree.now) ≢ [] }
    ensures plan { (version : versions.Version) →
        IfOk result (IsWriting text settings.now (store_in tree.now log version)) }
    ensures err { IfErr result (λ fault. (fault ≡ NoMemory)
        ⊎ (next_tail settings.now (slot_of (store_in tree.now log (version_with text)))
        (commit_frames text (tree_of tree.now)) ≡ Err fault)) }
{
    let images = images(rt, crew, alloc, tree, text)?;
    let slot = Slot {
        ends: log,
        root: tree.root(),
        height: tree.height(),
        version: version_with(text),
    };
    Commit::plan(alloc, settings, &slot, images)
}

impl<D: Disk> Store<D> {
    // Writes this text, by a commit whose slot names its version. It serves a flush and an upgrade.
    pub(super) fn write(
        &mut self,
        rt: &(impl Threads + Sync),
        crew: Crew,
        text: CommitKind,
    ) -> Result<u64, Fault>
        requires fine { self.old.has_failed ≡ false }
        requires own { IsOwnText text self.old.store }
        requires due { IsToWrite text self.old.store }
        // It is the step that writes the text, with a crew in range.
        ensures step { IsStep D.view D.failed true self.old (step_by text) result
            (λ n. answer_by text n) self.new }
        ensures version { OnOk result (self.new.store.version ≡ version_with text) }
    {
        // Only for the proof.
        what_was_flushed_is_what_is_read();
        what_was_upgraded_is_what_is_read();
        a_crash_in_a_flush_leaves_the_store_before_or_after();
        a_crash_in_an_upgrade_leaves_the_store_before_or_after();
        an_upgrade_is_a_flush_of_outdated_pages();
        a_table_marked_as_written_holds_the_flushed_tree();
        let commit = plan(
            rt,
            crew,
            self.alloc,
            &self.settings,
            &self.tree,
            self.log,
            text,
        )?;
        let slot = commit.slot();
        if let Err(failed) = commit.write(&mut self.disk, &self.settings) {
            self.has_failed = true;
            return Err(failed.into());
        }
        self.tree.flushed();
        self.log = slot.ends;
        self.version = slot.version;
        Ok(self.log.sequence)
    }

    /// Writes what the log lacks, so that it has all that the store holds, and returns the sequence number now. Where there is
    /// nothing to write, that is all: no memory is taken, and the disk is not called.
    ///
    /// A store that has failed is `Fault::Failed`, and then a crew out of range `Fault::BadCrew`. Else there are `Fault::NoMemory`;
    /// `Fault::Spent`, where a position or the number would be above 2^62; `Fault::Full`, where no segment would stay free; and
    /// `Fault::Device`, where a call of the disk failed. After `Device` the store has failed, and the disk holds the store of before or
    /// the one that it has; after any other fault all is as it was.
    pub fn flush(&mut self, rt: &(impl Threads + Sync), crew: Crew) -> Result<u64, Fault>
        // It is the step of a flush, and answers the sequence number.
        ensures step { IsStep D.view D.failed (is_crew crew) self.old Flush result
            (λ n. Flushed n) self.new }
        ensures nothing { self.old.has_failed ≡ false → IsTrue (is_crew crew) →
            flush_frames self.old.store.version self.old.store.tree ≡ [] →
            (result ≡ Ok self.old.store.sequence) × (self.new ≡ self.old) }
    {
        if self.has_failed {
            return Err(Fault::Failed);
        }
        admit_crew(crew)?;
        if is_all_written(&self.tree) {
            return Ok(self.log.sequence);
        }
        self.write(rt, crew, CommitKind::Flush(self.version))
    }
}
