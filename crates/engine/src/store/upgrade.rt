//! The upgrade: all pages are written again, for a log of version 2, and a crash leaves the store of before or of after.
ghost use Rattle.std.specs.Prelude.{◌≡◌, ◌↔◌, Err, IsTrue, OnOk, false};
ghost use Rattle.keys.specs.declared.version.Version.TheVariants.{Two};
ghost use Rattle.engine.specs.OneStep.{IsStep};
ghost use Rattle.engine.specs.Refusal.{is_crew};
ghost use Rattle.engine.specs.Steps.Answer.{Upgraded};
ghost use Rattle.engine.specs.Steps.Step.{Upgrade};

use crate::refusal::admit_crew;
use crate::store::Store;
use crew::Crew;
use flush_log::{CommitKind, Disk};
use keys::{Fault, Version};
use std::thread::Threads;

impl<D: Disk> Store<D> {
    /// Brings the log to version 2, and returns the sequence number now. Every page is written again, base and runs, each key of a base by
    /// what it doesn't share with the key before it. One commit makes that the store's, so that the log has all that the store holds, as
    /// after a flush. From then on flushes write bases so. There is no way back.
    ///
    /// A store that has failed is `Fault::Failed`, and then a crew out of range `Fault::BadCrew`. A log of version 2 is
    /// `Fault::AlreadyUpgraded`; no memory is taken then, and the disk is not called. Else there are `Fault::NoMemory`; `Fault::Spent`,
    /// where a position or the number would be above 2^62; `Fault::Full`, where no segment would stay free; and `Fault::Device`, where a
    /// call of the disk failed. After `Device` the store has failed, and the disk holds the store of before or the one that it has, whose
    /// log has version 2; after any other fault all is as it was.
    pub fn upgrade(&mut self, rt: &(impl Threads + Sync), crew: Crew) -> Result<u64, Fault>
        // It is the step of an upgrade, and answers the sequence number.
        ensures step { IsStep D.view D.failed (is_crew crew) self.old Upgrade result
            (λ n. Upgraded n) self.new }
        ensures version { OnOk result (self.new.store.version ≡ Two) }
        ensures already { self.old.has_failed ≡ false → IsTrue (is_crew crew) →
            (self.old.store.version ≡ Two) ↔ (result ≡ Err Fault.AlreadyUpgraded) }
        ensures nothing { self.old.store.version ≡ Two → self.new ≡ self.old }
    {
        if self.has_failed {
            return Err(Fault::Failed);
        }
        admit_crew(crew)?;
        if self.version == Version::Two {
            return Err(Fault::AlreadyUpgraded);
        }
        self.write(rt, crew, CommitKind::Upgrade)
    }
}
