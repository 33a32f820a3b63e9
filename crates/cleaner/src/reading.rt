//! What one reading of a log retains for the cleans of its first segments.
ghost use Rattle.std.specs.Prelude.{◌≡◌, ◌≢◌, ◌⊎◌, ◌++◌, ◌-◌, ◌^◌, ℕ, List, None, Some, min, nat_lt, sum_by, OnOk, IfOk, MatchResult};
ghost use Rattle.std.specs.BTreeMap.{get};
ghost use Rattle.std.specs.List.Sorted.{IsStrictlySortedBy};
ghost use Rattle.std.specs.Map.{keys_of};
ghost use Rattle.std.specs.Ordering.{nat_cmp};
ghost use Rattle.keys.specs.Limits.{first_bad_field};
ghost use Rattle.keys.specs.declared.fault.Fault.TheVariants.{NoMemory, BadStructure};
ghost use Rattle.mapping.specs.Finding as findings;
ghost use Rattle.frame_codec.specs.declared.format.Format.{Format};
ghost use Rattle.flush_log.specs.Reading.{Found};
ghost use Rattle.recovery.specs.Gathered.{AreGathered};
ghost use Rattle.recovery.specs.LogPages.{broken_in};
ghost use Rattle.recovery.specs.StoreOfDisk.{frames_in};
ghost use Rattle.recovery.specs.declared.gather.Wanted.TheVariants.{Before};
ghost use Rattle.cleaner.specs.Chosen.{page_in, pages_in, held};
ghost use Rattle.cleaner.specs.Live.{live_bytes};
ghost use Rattle.cleaner.specs.PagesRead.{pages_at, HasTexts};

use keys::Fault;
use recovery::{Gathering, Kept};
use std::alloc::{AllocError, Global};
use std::collections::BTreeMap;
use std::marker::Model;

/// The pages that live in the first segments of a log, from one reading of the log. It is enough to clean the segments
/// below a limit, one after the other. `read_for_cleans` makes it, and `clean_by` consumes it.
#[derive(Drop)]
pub struct Reading {
    limit: u64,
    // The number of live bytes in the log when it was read.
    live: u64,
    // For each segment the pages that live in it, by rising page id: the encoded frames of each page.
    pages: BTreeMap<u64, Vec<Vec<u8>>, Global>,
}

impl Model for Reading {
    ghost use Rattle.cleaner.specs.Chosen.{entries_held};
    ghost use Rattle.cleaner.specs.PagesRead.{PagesRead};

    ghost Value = { PagesRead };

    ghost view = { λ r. record { limit = r.limit; live = r.live; pages = entries_held r.pages.entries } };
}

// Appends a page to those of its segment, unless none of its frames are retained.
fn add_page(
    alloc: Global,
    pages: &mut BTreeMap<u64, Vec<Vec<u8>>, Global>,
    kept: Kept,
) -> Result<(), AllocError>
    ensures { (n : ℕ) → OnOk result
        (held (get nat_cmp pages.new n) ≡ held (get nat_cmp pages.old n) ++ page_in n kept) }
{
    let Kept {
        segment,
        frames,
        ..
    } = kept;
    if frames.is_empty() {
        return Ok(());
    }
    let mut here = match pages.remove(&segment) {
        Some(here) => here,
        None => Vec::new(alloc),
    };
    here.push(frames)?;
    pages.insert(segment, here)?;
    Ok(())
}

// Groups the pages by the segment in which each of them lives.
fn by_segment(
    alloc: Global,
    by_pid: BTreeMap<u64, Kept, Global>,
) -> Result<BTreeMap<u64, Vec<Vec<u8>>, Global>, AllocError>
    ensures pages { IfOk result
        (λ pages. (n : ℕ) → held (get nat_cmp pages n) ≡ pages_in n by_pid.entries) }
    ensures ordered { IsStrictlySortedBy nat_cmp (keys_of by_pid.entries) }
{
    // `len` is called only for the proof: its contract says that the page ids rise.
    let _rising = by_pid.len();
    let mut pages = BTreeMap::new(alloc);
    for entry in by_pid {
        let (_pid, kept) = entry;
        add_page(alloc, &mut pages, kept)?;
    }
    Ok(pages)
}

// The total size of these pages' live frames in bytes.
fn live_bytes(by_pid: &BTreeMap<u64, Kept, Global>) -> u64
    ensures { result ≡ min (sum_by (λ e. e.1.size) by_pid.now.entries) (2 ^ 64 - 1) }
{
    let mut live = 0u64;
    for entry in by_pid.iter() {
        let (_pid, kept) = entry;
        live = live.saturating_add(kept.size);
    }
    live
}

impl Reading {
    /// Retains the pages that live in the segments below this limit.
    ///
    /// Fails with `Fault::BadStructure`, rule 1 and the least page id if the frames of a page do not fit together; and
    /// with `Fault::NoMemory`.
    pub(crate) fn new(pages: Gathering, limit: u64) -> Result<Reading, Fault>
        ensures { (g : Format) (found : List Found) → first_bad_field g.settings ≡ None →
            AreGathered g (Before limit) pages found →
            MatchResult result
            (λ r. (broken_in (frames_in found) ≡ None) × (r.limit ≡ limit)
            × (r.live ≡ live_bytes found) × HasTexts g 0 found r)
            (λ fault. (fault ≡ NoMemory)
            ⊎ ((f : findings.Finding) × (broken_in (frames_in found) ≡ Some f)
            × (fault ≡ BadStructure f))) }
    {
        if let Some(finding) = pages.unfit() {
            return Err(Fault::BadStructure(finding));
        }
        let Gathering { alloc, by_pid, .. } = pages;
        let live = live_bytes(&by_pid);
        let pages = by_segment(alloc, by_pid)?;
        Ok(Reading { limit, live, pages })
    }

    /// Returns whether a log that begins at this segment can be cleaned by this reading.
    pub fn has(&self, head: u64) -> bool
        ensures { result ≡ nat_lt head self.now.limit }
    {
        head < self.limit
    }

    /// Returns the number of live bytes in the whole log when it was read: the frames of each page from its last base
    /// on. A clean copies frames unchanged, so it does not change this number. Headers and unused ends of segments do
    /// not count. Capped at `u64::MAX`.
    pub fn live(&self) -> u64
        ensures { result ≡ self.now.live }
    {
        self.live
    }

    /// Takes the pages that live in this segment out of the reading, if there are any.
    pub(crate) fn take(&mut self, segment: u64) -> Option<Vec<Vec<u8>>>
        ensures taken { held result ≡ pages_at segment self.old }
        ensures limit { self.new.limit ≡ self.old.limit }
        ensures live { self.new.live ≡ self.old.live }
        ensures rest { (n : ℕ) → n ≢ segment → pages_at n self.new ≡ pages_at n self.old }
    {
        self.pages.remove(&segment)
    }
}
