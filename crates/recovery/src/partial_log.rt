//! What is retained of a log while it is read: its frames by page, or the first fault.
ghost use denote.Param.Send.{IsSync};
ghost use Rattle.std.specs.Prelude.{◌≡◌, ◌^◌, ◌<◌, ◌++◌, [], List, map, fold, length, None, Result, Ok, Err, MatchResult, IfErr, OnOk};
ghost use Rattle.std.specs.List.{All};
ghost use Rattle.keys.specs.declared.fault.Fault as faults;
ghost use Rattle.keys.specs.declared.fault.Fault.TheVariants.{NoMemory};
ghost use Rattle.flush_log.specs.Reading.{Found, followed_by};
ghost use Rattle.recovery.specs.Gathered.{AreLive, IsPartialLog};
ghost use Rattle.recovery.specs.Scan.{held_frame, held_segment, said_of_frame, said_of, said_by_scan, scanned_after};
ghost use Rattle.recovery.specs.declared.gather.Wanted as declared;

use crate::gather::{Gathering, Wanted};
use crate::scan_segment::{ScanDone, ScanWork, ScannedFrame, Segment};
use crew::{Crew, NoGate, run_round};
use frame_codec::Format;
use keys::Fault;
use std::alloc::Global;
use std::thread::Threads;

/// The part of a log that was read so far.
#[derive(Drop)]
pub(crate) struct PartialLog {
    alloc: Global,
    // The frames before the first fault.
    pub(crate) gathering: Gathering,
    // The first fault of the bytes.
    pub(crate) fault: Option<Fault>,
}

// Adds the frames of the segment with this number, in order.
fn add_all(
    gathering: &mut Gathering,
    number: u64,
    frames: Vec<ScannedFrame<'_>>,
) -> Result<(), Fault>
    ensures ok { (w : declared.Wanted) (found more : List Found) →
        map said_of_frame more ≡ map (held_frame number) frames.entry.items →
        AreLive w gathering.old found → OnOk result (AreLive w gathering.new (found ++ more)) }
    ensures err { IfErr result (λ fault. fault ≡ NoMemory) }
{
    for frame in frames {
        gathering.add(number, frame)?;
    }
    Ok(())
}

impl PartialLog {
    /// An empty part of a log; `wanted` selects the frames that are retained.
    pub(crate) fn new(alloc: Global, wanted: Wanted) -> Self
        ensures { IsPartialLog wanted result.gathering result.fault (Ok []) }
    {
        PartialLog {
            alloc,
            gathering: Gathering::new(alloc, wanted),
            fault: None,
        }
    }

    /// The frames, or the first fault.
    pub(crate) fn into_gathering(self) -> Result<Gathering, Fault>
        ensures { (w : declared.Wanted) (state : Result (List Found) faults.Fault) →
            IsPartialLog w self.gathering self.fault state →
            MatchResult result
            (λ g. (found : List Found) × (state ≡ Ok found) × AreLive w g found)
            (λ fault. state ≡ Err fault) }
    {
        let PartialLog {
            alloc: _alloc,
            gathering,
            fault,
        } = self;
        match fault {
            Some(fault) => Err(fault),
            None => Ok(gathering),
        }
    }

    // Adds the results of these scans in order, up to the first fault.
    fn gather(&mut self, scans: Vec<ScanDone<'_>>) -> Result<(), Fault>
        requires { self.old.fault ≡ None }
        ensures ok { (w : declared.Wanted) (state : Result (List Found) faults.Fault)
            (read : List (Result (List Found) faults.Fault)) →
            map said_of read ≡ map said_by_scan scans.entry.items →
            IsPartialLog w self.old.gathering self.old.fault state →
            OnOk result
            (IsPartialLog w self.new.gathering self.new.fault (fold followed_by state read)) }
        ensures err { IfErr result (λ fault. fault ≡ NoMemory) }
    {
        for done in scans {
            let ScanDone { segment, scan } = done;
            match scan {
                Ok(frames) => add_all(&mut self.gathering, segment.number, frames)?,
                Err(fault) => {
                    self.fault = Some(fault);
                    return Ok(());
                }
            }
        }
        Ok(())
    }

    /// Adds the next segments, which the crew scans in parallel. A fault in their bytes is part of the result and not
    /// an error: segments after it do not count, and the next calls do nothing. The only error is `Fault::NoMemory`;
    /// the result is then unspecified.
    pub(crate) fn take<R: Threads + Sync>(
        &mut self,
        rt: &R,
        crew: Crew,
        format: &Format,
        segments: Vec<Segment<'_>>,
    ) -> Result<(), Fault>
        requires sync { IsSync R.row }
        requires short { All (λ g. length (held_segment g).bytes < 2 ^ 32) segments.items }
        ensures ok { (w : declared.Wanted) (state : Result (List Found) faults.Fault) →
            IsPartialLog w self.old.gathering self.old.fault state →
            OnOk result (IsPartialLog w self.new.gathering self.new.fault
            (scanned_after format.now state (map held_segment segments.entry.items))) }
        ensures err { IfErr result (λ fault. fault ≡ NoMemory) }
    {
        if self.fault.is_some() {
            return Ok(());
        }
        let work = ScanWork::new(self.alloc, format);
        // Each segment is claimed by itself: it is enough work for one claim, and with the crew's grain one worker
        // might get all segments.
        let crew = Crew { grain: 1, ..crew };
        match run_round(rt, crew, &NoGate, &work, segments) {
            Ok(scans) => self.gather(scans),
            Err(_segments) => Err(Fault::NoMemory),
        }
    }
}
