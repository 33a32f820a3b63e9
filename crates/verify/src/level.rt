//! One level of the walk: checks all its pages, then marks them as visited from left to right, and lists the places of
//! the level below.
ghost use Rattle.std.specs.Prelude.{◌≡◌, ◌+◌, ◌++◌, ◌∷◌, None, map, flat_map, length, IfOk, IfErr, OnOk};
ghost use Rattle.std.specs.Option.{option_copied};
ghost use Rattle.index_page.specs.Children.{children};
ghost use Rattle.mapping.specs.Levels.{leaf_at, joined};
ghost use Rattle.mapping.specs.Finding.{on_level, children_at, all_met};
ghost use Rattle.mapping.specs.TreeInMemory.{AreAllHome, tree_of};
ghost use Rattle.verify.specs.Met.{HaveMetTheSame};
ghost use Rattle.verify.specs.Report.{IsFaultOf};
ghost use Rattle.verify.specs.Seen.{seen_at, broken_at, found_by, first_found, pairs_of, all_pairs};

use crate::look::{Level, Verdict, look};
use crate::met::Met;
use crate::place::Place;
use crate::rules::MET_BEFORE;
use delta_chain::Pairs;
use keys::{Fault, Finding, Pid, Settings};
use mapping::Tree;
use rayon::prelude::*;
use std::alloc::{AllocError, Global};
use std::thread::Threads;

/// Checks the pages at these places of a level, adds them to the visited pages, and returns the number of pairs in
/// them. Fails with `BadStructure` and the first finding, or with `NoMemory`.
pub(crate) fn pass_level(
    rt: &(impl Threads + Sync),
    alloc: Global,
    tree: &Tree<Global>,
    settings: &Settings,
    level: Level,
    places: &[Place<'_>],
    met: &mut Met,
) -> Result<u128, Fault>
    requires { AreAllHome tree.now }
    ensures ok { OnOk result
        (on_level (broken_at settings.now level (tree_of tree.now).pages) met.old places.now
        ≡ None) }
    ensures pairs { IfOk result (λ pairs. pairs ≡ length
        (joined (map (leaf_at (tree_of tree.now).pages) (map (λ at. at.pid) places.now)))) }
    ensures met { OnOk result (HaveMetTheSame met.new (all_met met.old places.now)) }
    ensures count { OnOk result (length met.new ≡ length met.old + length places.now) }
    ensures err { IfErr result (IsFaultOf
        (on_level (broken_at settings.now level (tree_of tree.now).pages) met.old places.now)) }
{
    let seen = look_at_all(rt, alloc, tree, settings, level, places)?;
    meet_all(places, &seen, met)
}

// The verdict on the page at each place. Threads share the work.
fn look_at_all(
    rt: &(impl Threads + Sync),
    alloc: Global,
    tree: &Tree<Global>,
    settings: &Settings,
    level: Level,
    places: &[Place<'_>],
) -> Result<Vec<Verdict>, AllocError>
    requires { AreAllHome tree.now }
    ensures { IfOk result (λ seen. seen.items
        ≡ map (seen_at settings.now level (tree_of tree.now).pages) places.now) }
{
    places
        .par_iter()
        .map(
            |at: &Place<'_>| -> Result<Verdict, AllocError>
                ensures { AreAllHome tree.entry.now →
                    IfOk result (λ seen. seen
                    ≡ seen_at settings.entry.now level (tree_of tree.entry.now).pages at.now) }
            { look(alloc, tree, settings, level, at) },
        )
        .collect::<Result<Vec<Verdict>, AllocError>>(rt, alloc)?
}

// Visits the pages from left to right, up to the first one with a finding.
fn meet_all(places: &[Place<'_>], seen: &[Verdict], met: &mut Met) -> Result<u128, Fault>
    requires { length seen.now ≡ length places.now }
    ensures ok { OnOk result (first_found met.old places.now seen.now ≡ None) }
    ensures pairs { IfOk result (λ pairs. pairs ≡ all_pairs seen.now) }
    ensures met { OnOk result (HaveMetTheSame met.new (all_met met.old places.now)) }
    ensures count { OnOk result (length met.new ≡ length met.old + length places.now) }
    ensures err { IfErr result (IsFaultOf (first_found met.old places.now seen.now)) }
{
    let mut pairs = 0;
    for at in 0..places.len() {
        let place = &places[at];
        pairs += meet_page(place.pid, seen[at], met)? as u128;
    }
    Ok(pairs)
}

// Visits a page with this verdict. Returns the number of its pairs.
fn meet_page(pid: Pid, seen: Verdict, met: &mut Met) -> Result<usize, Fault>
    ensures ok { OnOk result (found_by met.old pid seen ≡ None) }
    ensures pairs { IfOk result (λ pairs. pairs ≡ pairs_of seen) }
    ensures met { OnOk result (HaveMetTheSame met.new (pid ∷ met.old)) }
    ensures count { OnOk result (length met.new ≡ length met.old + 1) }
    ensures err { IfErr result (IsFaultOf (found_by met.old pid seen)) }
{
    match seen {
        Verdict::Broken(rule) => Err(Fault::BadStructure(Finding { rule, pid })),
        Verdict::Sound(pairs) => {
            if met.meet(pid)? {
                Ok(pairs)
            } else {
                Err(Fault::BadStructure(Finding {
                    rule: MET_BEFORE,
                    pid,
                }))
            }
        }
    }
}

/// Returns the places of the children of these places' pages.
pub(crate) fn places_below<'a>(
    alloc: Global,
    tree: &'a Tree<Global>,
    places: &[Place<'a>],
) -> Result<Vec<Place<'a>>, AllocError>
    requires { AreAllHome tree.now }
    ensures { IfOk result
        (λ below. below.items ≡ flat_map (children_at (tree_of tree.now).pages) places.now) }
{
    let mut below = Vec::new(alloc);
    for place in places {
        push_children(alloc, tree, place, &mut below)?;
    }
    Ok(below)
}

// Appends the places of the children of the page at a place.
fn push_children<'a>(
    alloc: Global,
    tree: &'a Tree<Global>,
    at: &Place<'a>,
    below: &mut Vec<Place<'a>>,
) -> Result<(), AllocError>
    requires { AreAllHome tree.now }
    ensures { OnOk result
        (below.new.items ≡ below.old.items ++ children_at (tree_of tree.now).pages at.now) }
{
    let Some(page) = tree.page(at.pid) else {
        return Ok(());
    };
    let Some(chain) = page.as_index() else {
        return Ok(());
    };
    let entries = chain.pairs(alloc)?;
    push_places(&entries, at.end, below)
}

// Appends the places of the children in these entries; the last one's range ends at `end`.
fn push_places<'a>(
    entries: &Pairs<'a, Pid, Global>,
    end: Option<&'a [u8]>,
    below: &mut Vec<Place<'a>>,
) -> Result<(), AllocError>
    ensures { OnOk result
        (below.new.items ≡ below.old.items ++ children entries.now (option_copied end.entry)) }
{
    let count = entries.len();
    for at in 0..count {
        let next = if at + 1 < count {
            Some(entries.key(at + 1))
        } else {
            end
        };
        below.push(Place {
            pid: *entries.cell(at),
            low: entries.key(at),
            end: next,
        })?;
    }
    Ok(())
}
