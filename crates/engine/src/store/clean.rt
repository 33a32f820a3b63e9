//! The clean: the first segment of the log is made free, and a crash leaves the store that the disk held.
ghost use Rattle.std.specs.Prelude.{◌≡◌, ◌≢◌, ◌⊎◌, IsTrue, IfErr, true, false};
ghost use Rattle.flush_log.specs.Disk.{Same};
ghost use Rattle.cleaner.specs.Cleaned.{WouldClean};
ghost use Rattle.engine.specs.OneStep.{IsStep};
ghost use Rattle.engine.specs.Refusal.{is_crew};
ghost use Rattle.engine.specs.Steps.Answer.{Cleaned};
ghost use Rattle.engine.specs.Steps.Step.{Clean};

use crate::refusal::admit_crew;
use crate::store::Store;
use cleaner::clean;
use cleaner::laws::a_clean_keeps_the_store;
use crew::Crew;
use flush_log::Disk;
use frame_codec::Format;
use keys::Fault;
use std::thread::Threads;

// Whether a call of the disk failed.
pub(super) fn is_of_disk(fault: &Fault) -> bool
    ensures { ((fault.now ≡ Fault.Device) × (result ≡ true))
        ⊎ ((fault.now ≢ Fault.Device) × (result ≡ false)) }
{
    matches!(fault, Fault::Device)
}

impl<D: Disk> Store<D> {
    /// Makes the first segment of the log free, and returns the number of the segment with which the log begins now. The pages
    /// whose base stands in that segment are written again at the log's end, as they stand in the log: base and deltas. A
    /// commit makes that the store's, with a log that begins one segment later. All that is done on the log alone: what was not
    /// flushed stays in memory, unflushed, the disk stands for the same pages as before, and the log keeps its version.
    ///
    /// A store that has failed is `Fault::Failed`, and then a crew out of range `Fault::BadCrew`. A log in one segment is
    /// `Fault::NothingToClean`; the disk isn't called then. Else the log is read: the fault at its least position is `Fault::BadSegment`
    /// or `Fault::BadFrame`; then the first page whose frames fit no page is `Fault::BadStructure`, of rule 1. Then there are
    /// `Fault::Spent`, where a position or the number would be above 2^62, and `Fault::Full`, where what is to be written needs more
    /// segments than there are. Besides, where the log isn't in one segment, there are `Fault::NoMemory`, and `Fault::Device` where a
    /// call of the disk failed. After `Device` the store has failed, and the disk stands for the same pages still; after any other
    /// fault all is as it was.
    pub fn clean(&mut self, rt: &(impl Threads + Sync), crew: Crew) -> Result<u64, Fault>
        // It is the step of a clean, and answers the first segment of the log.
        ensures step { IsStep D.view D.failed (is_crew crew) self.old Clean result
            (λ head. Cleaned head) self.new }
        // A call of the disk that failed in reading has changed nothing on it.
        ensures unwritten { self.old.has_failed ≡ false → IsTrue (D.view self.old.disk).is_honest →
            IfErr result (λ fault. Same (D.view self.old.disk) (D.view self.new.disk)
            ⊎ ((fault ≡ Fault.Device)
            × WouldClean self.old.settings self.old.store (D.view self.old.disk).seen)) }
    {
        // Only for the proof.
        a_clean_keeps_the_store();
        if self.has_failed {
            return Err(Fault::Failed);
        }
        admit_crew(crew)?;
        let format = Format {
            settings: self.settings,
            version: self.version,
        };
        match clean(rt, crew, self.alloc, &mut self.disk, &format, &self.log) {
            Ok(committed) => {
                self.log = committed.ends;
                self.version = committed.version;
                Ok(self.log.head)
            }
            Err(fault) => {
                self.has_failed = is_of_disk(&fault);
                Err(fault)
            }
        }
    }
}
