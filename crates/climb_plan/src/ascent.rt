//! Splits and merges of a batch, level by level upward: groups of a level are rewritten and their parents get terms, up
//! to the root. Only when all levels have succeeded are the new pages moved into the tree, from the root down, by steps
//! that cannot fail. The information for undoing is in the stack frames: a level that fails undoes its own changes, and
//! then the level below undoes its. (The Bw-tree's splits and merges, a level at a time as in PALM.)
ghost use Rattle.std.specs.Prelude.{◌≡◌, ◌<◌, ◌≤◌, List, map, IfErr, OnOk, OnErr};
ghost use Rattle.index_page.specs.Page.PageOfKind.{Leaf, Index};
ghost use Rattle.keys.specs.declared.command.Command.{Command};
ghost use Rattle.mapping.specs.Tree as definitions;
ghost use Rattle.mapping.specs.Tree.{most_levels};
ghost use Rattle.mapping.specs.TreeInMemory.{AreAllHome, tree_of};
ghost use Rattle.climb_plan.specs.Changing.{leaves_seen, parents_seen};
ghost use Rattle.climb_plan.specs.LevelSteps.{SomeLevel, ClimbsFrom, IsTooHighFrom, Working, CanEnd};
ghost use Rattle.climb_plan.specs.Plan.{planned_tree};
ghost use Rattle.climb_plan.specs.Ready.{IsReady};

use crate::change::{Rewritten, free_drawn};
use crate::install::{install_all, put_home, undo_parents};
use crate::level::{Changed, change_level};
use crate::refused::Refused;
use crate::seen::UpdatedPage;
use crate::shrink::shrink;
use crate::top::climb_root;
use crew::{Crew, Gate};
use index_page::Page;
use keys::Settings;
use mapping::Tree;
use mapping::laws::drawn_pids_get_places_that_are_away;
use page_runs::{LeafDone, TermDone};
use std::alloc::Global;
use std::thread::Threads;

/// Completes a batch: puts these leaves, which were checked out and to which the batch was applied, back into the tree,
/// splits and merges their groups, does the same level by level upward, and then shrinks the root while it has one
/// child. Afterwards the tree is the one of the plan. Fails if allocation fails or if the tree would have more than 64
/// levels; the tree is then unchanged, and the leaves are returned as they were given.
///
/// Visits only the parents of thin or fat leaves. On each level the crew rewrites the groups and updates the parents;
/// `gate` is called for each piece of this work. Neither affects the resulting tree.
pub fn climb(
    rt: &(impl Threads + Sync),
    crew: Crew,
    gate: &impl Gate,
    alloc: Global,
    settings: &Settings,
    tree: &mut Tree<Global>,
    leaves: Vec<LeafDone>,
) -> Result<(), (Refused, Vec<LeafDone>)>
    requires fan { 1 < settings.now.fan }
    requires ready { (t : definitions.Tree) × (cs : List (Command Global)) ×
        IsReady settings.now t cs tree.old (leaves_seen leaves.items) }
    requires height { tree.old.height ≤ most_levels }
    ensures planned { OnOk result ((t : definitions.Tree) (cs : List (Command Global)) →
        IsReady settings.now t cs tree.old (leaves_seen leaves.items) →
        AreAllHome tree.new × (tree_of tree.new ≡ planned_tree settings.now t cs)) }
    ensures low { OnOk result (tree.new.height ≤ most_levels) }
    ensures back { IfErr result (λ e. e.1.items ≡ leaves.items) }
    ensures err { OnErr result (tree.new ≡ tree.old) }
    ensures high { IfErr result (λ e. (t : definitions.Tree) (cs : List (Command Global)) →
        IsReady settings.now t cs tree.old (leaves_seen leaves.items) → e.0 ≡ Refused.TooHigh →
        most_levels < (planned_tree settings.now t cs).height) }
{
    let depth = tree.height() - 1;
    climb_leaves(rt, crew, gate, alloc, settings, tree, depth, leaves)?;
    shrink(tree);
    Ok(())
}

// Climbs from these leaves, to which the batch was applied; they are `depth` levels below the root. On failure, the
// tree is unchanged, and the pages are returned as they were given.
fn climb_leaves(
    rt: &(impl Threads + Sync),
    crew: Crew,
    gate: &impl Gate,
    alloc: Global,
    settings: &Settings,
    tree: &mut Tree<Global>,
    depth: u32,
    dones: Vec<LeafDone>,
) -> Result<(), (Refused, Vec<LeafDone>)>
    requires fan { 1 < settings.now.fan }
    requires level { SomeLevel Leaf tree.old (leaves_seen dones.items) depth }
    requires height { tree.old.height ≤ most_levels }
    ensures climbed { OnOk result
        (ClimbsFrom Leaf settings.now tree.old tree.new (leaves_seen dones.items) depth) }
    ensures low { OnOk result (tree.new.height ≤ most_levels) }
    ensures back { IfErr result (λ e. e.1.items ≡ dones.items) }
    ensures err { OnErr result (tree.new ≡ tree.old) }
    ensures high { IfErr result (λ e. e.0 ≡ Refused.TooHigh →
        IsTooHighFrom Leaf settings.now tree.old (leaves_seen dones.items) depth) }
{
    if dones.is_empty() {
        return Ok(());
    }
    if depth == 0 {
        return climb_root(rt, crew, gate, alloc, settings, tree, dones);
    }
    let changed = match change_level(rt, crew, gate, alloc, settings, tree, depth - 1, &dones) {
        Ok(changed) => changed,
        Err(_) => return Err((Refused::NoMemory, dones)),
    };
    let Changed { groups, parents } = changed;
    let climbed = climb_parents(rt, crew, gate, alloc, settings, tree, depth - 1, parents);
    finish_level(rt, crew, alloc, settings, tree, climbed, groups, dones)
}

// Climbs from these index pages, to which terms were applied; they are `depth` levels below the root. On failure, the
// tree is unchanged, and the pages are returned as they were given. Recurses once per level, at most 64 times; all
// other work is in separate functions, to keep the stack frame small.
fn climb_parents(
    rt: &(impl Threads + Sync),
    crew: Crew,
    gate: &impl Gate,
    alloc: Global,
    settings: &Settings,
    tree: &mut Tree<Global>,
    depth: u32,
    dones: Vec<TermDone>,
) -> Result<(), (Refused, Vec<TermDone>)>
    requires fan { 1 < settings.now.fan }
    requires level { SomeLevel Index tree.old (parents_seen dones.items) depth }
    requires height { tree.old.height ≤ most_levels }
    ensures climbed { OnOk result
        (ClimbsFrom Index settings.now tree.old tree.new (parents_seen dones.items) depth) }
    ensures low { OnOk result (tree.new.height ≤ most_levels) }
    ensures back { IfErr result (λ e. e.1.items ≡ dones.items) }
    ensures err { OnErr result (tree.new ≡ tree.old) }
    ensures high { IfErr result (λ e. e.0 ≡ Refused.TooHigh →
        IsTooHighFrom Index settings.now tree.old (parents_seen dones.items) depth) }
{
    if dones.is_empty() {
        return Ok(());
    }
    if depth == 0 {
        return climb_root(rt, crew, gate, alloc, settings, tree, dones);
    }
    let changed = match change_level(rt, crew, gate, alloc, settings, tree, depth - 1, &dones) {
        Ok(changed) => changed,
        Err(_) => return Err((Refused::NoMemory, dones)),
    };
    let Changed { groups, parents } = changed;
    let climbed = climb_parents(rt, crew, gate, alloc, settings, tree, depth - 1, parents);
    finish_level(rt, crew, alloc, settings, tree, climbed, groups, dones)
}

// Completes a level after the climb from its parents. If that succeeded, puts the level's pages into the tree and
// replaces its groups. Otherwise undoes the changes of its parents and frees the page ids of its new pages, which
// restores the tree.
#[inline(never)]
fn finish_level<D: UpdatedPage>(
    rt: &(impl Threads + Sync),
    crew: Crew,
    alloc: Global,
    settings: &Settings,
    tree: &mut Tree<Global>,
    climbed: Result<(), (Refused, Vec<TermDone>)>,
    groups: Vec<Rewritten>,
    dones: Vec<D>,
) -> Result<(), (Refused, Vec<D>)>
    requires { (w : Working) ×
        CanEnd D.of settings.now w tree.old (map D.seen_page dones.items) groups.items climbed }
    ensures climbed { OnOk result ((w : Working) →
        CanEnd D.of settings.now w tree.old (map D.seen_page dones.items) groups.items climbed →
        ClimbsFrom D.of settings.now w.before tree.new (map D.seen_page dones.items) w.depth) }
    ensures low { OnOk result (tree.new.height ≤ most_levels) }
    ensures back { IfErr result (λ e. e.1.items ≡ dones.items) }
    ensures err { OnErr result ((w : Working) →
        CanEnd D.of settings.now w tree.old (map D.seen_page dones.items) groups.items climbed →
        tree.new ≡ w.before) }
    ensures high { IfErr result (λ e. (w : Working) →
        CanEnd D.of settings.now w tree.old (map D.seen_page dones.items) groups.items climbed →
        e.0 ≡ Refused.TooHigh →
        IsTooHighFrom D.of settings.now w.before (map D.seen_page dones.items) w.depth) }
{
    D::is_of_a_kind();
    match climbed {
        Ok(()) => {
            put_home(rt, crew, alloc, tree, dones);
            install_all(alloc, tree, groups);
            Ok(())
        }
        Err((refused, parents)) => {
            undo_parents(alloc, settings, tree, parents);
            // Freeing the allocated page ids restores the table.
            drawn_pids_get_places_that_are_away::<Page<Global>>();
            free_drawn(tree, &groups);
            Err((refused, dones))
        }
    }
}
