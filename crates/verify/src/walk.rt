//! Verifies a tree, from its root down, level by level.
ghost use Rattle.std.specs.Prelude.{◌≡◌, [], ◌∷◌, None, IfOk, IfErr};
ghost use Rattle.mapping.specs.Finding.{finding, unmet};
ghost use Rattle.mapping.specs.TreeInMemory.{AreAllHome, tree_of};
ghost use Rattle.verify.specs.Report.{report, IsFaultOf};
ghost use Rattle.verify.specs.Walked.{HasComeTo};

use crate::level::{pass_level, places_below};
use crate::look::Level;
use crate::met::Met;
use crate::place::Place;
use crate::report::Report;
use crate::rules::NOT_REACHED;
use keys::{Fault, Finding, Pid, Settings};
use mapping::Tree;
use std::alloc::{AllocError, Global};
use std::thread::Threads;

/// Checks whether the tree, with no page checked out, is proper under the settings. Walks down from the root, checks
/// the pages of each level in parallel, and finally looks for pages that the walk has not visited. Returns a report on
/// a proper tree. Otherwise fails with `Fault::BadStructure` and the first finding: on the highest level that has one,
/// from left to right. Any other failure is `Fault::NoMemory`.
pub fn verify(
    rt: &(impl Threads + Sync),
    alloc: Global,
    tree: &Tree<Global>,
    settings: &Settings,
) -> Result<Report, Fault>
    requires { AreAllHome tree.now }
    ensures sound { IfOk result (λ reported. finding settings.now (tree_of tree.now) ≡ None) }
    ensures report { IfOk result (λ reported. reported ≡ report (tree_of tree.now)) }
    ensures err { IfErr result (IsFaultOf (finding settings.now (tree_of tree.now))) }
{
    let mut met = Met::none(alloc);
    let leaves = walk_to_leaves(rt, alloc, tree, settings, &mut met)?;
    let pairs = pass_level(rt, alloc, tree, settings, Level::Leaves, &leaves, &mut met)?;
    match first_unmet(tree, &met) {
        Some(finding) => Err(Fault::BadStructure(finding)),
        None => Ok(Report {
            pages: met.len() as u128,
            height: tree.height(),
            pairs,
        }),
    }
}

// The places of the leaves. Checks and visits the levels of index pages on the way from the root.
fn walk_to_leaves<'a>(
    rt: &(impl Threads + Sync),
    alloc: Global,
    tree: &'a Tree<Global>,
    settings: &Settings,
    met: &mut Met,
) -> Result<Vec<Place<'a>>, Fault>
    requires home { AreAllHome tree.now }
    requires none { met.old ≡ [] }
    ensures ok { IfOk result
        (λ places. HasComeTo settings.now (tree_of tree.now) 0 1 met.new places.items) }
    ensures err { IfErr result (IsFaultOf (finding settings.now (tree_of tree.now))) }
{
    let mut places = root_place(alloc, tree.root())?;
    // Only the root must have at least two children.
    let mut least = 2;
    for _level in 1..tree.height() {
        pass_level(rt, alloc, tree, settings, Level::Above(least), &places, met)?;
        places = places_below(alloc, tree, &places)?;
        least = 1;
    }
    Ok(places)
}

fn root_place<'a>(alloc: Global, root: Pid) -> Result<Vec<Place<'a>>, AllocError>
    ensures { IfOk result
        (λ places. places.items ≡ record { pid = root; low = []; end = None } ∷ []) }
{
    let mut places = Vec::new(alloc);
    places.push(Place {
        pid: root,
        low: &[],
        end: None,
    })?;
    Ok(places)
}

// The first page of the table that has not been visited.
fn first_unmet(tree: &Tree<Global>, met: &Met) -> Option<Finding>
    ensures { result ≡ unmet met.now (tree_of tree.now).pages }
{
    for pid in tree.pids() {
        let pid = Pid(pid);
        if !met.has(pid) {
            return Some(Finding {
                rule: NOT_REACHED,
                pid,
            });
        }
    }
    None
}
