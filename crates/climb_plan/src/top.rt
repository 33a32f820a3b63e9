//! The highest level of a climb: its only page is the root.
ghost use Rattle.std.specs.Prelude.{◌≡◌, ◌<◌, ◌≤◌, ◌+◌, [], ◌∷◌, Err, map, length, IfOk, IfErr, OnOk, OnErr};
ghost use Rattle.std.specs.List.{filter};
ghost use Rattle.keys.specs.Order.{IsRising};
ghost use Rattle.mapping.specs.Proper.{AreRisingPids};
ghost use Rattle.mapping.specs.Table.{pids_in_use, IsOldWithoutPlace};
ghost use Rattle.mapping.specs.Tree.{most_levels};
ghost use Rattle.climb_plan.specs.Installing.{OfGrown, HasGrown};
ghost use Rattle.climb_plan.specs.LevelSteps.{SomeLevel, TopChangesFrom, ClimbsFrom, IsTooHighFrom};
ghost use Rattle.climb_plan.specs.Rewriting.{is_rewritten_seen, cut_group, CanBeCut, top_names};
ghost use Rattle.climb_plan.specs.declared.refused.Refused.TheVariants.{TooHigh};

use crate::change::{Rewritten, cut_all, draw_all, free_drawn};
use crate::install::{install_all, put_home};
use crate::refused::Refused;
use crate::root::grow;
use crate::seen::{Seen, UpdatedPage, see_all};
use crew::{Crew, Gate};
use keys::{Key, Pid, Settings};
use mapping::Tree;
use page_runs::Class;
use split_plan::Separator;
use std::alloc::{AllocError, Global};
use std::thread::Threads;

/// Climbs from the root, to which a run was applied and which is the only page of this list: splits it if it is fat,
/// and adds levels above. On failure, the tree is unchanged, and the page is returned as it was given.
#[inline(never)]
pub(crate) fn climb_root<D: UpdatedPage>(
    rt: &(impl Threads + Sync),
    crew: Crew,
    gate: &impl Gate,
    alloc: Global,
    settings: &Settings,
    tree: &mut Tree<Global>,
    dones: Vec<D>,
) -> Result<(), (Refused, Vec<D>)>
    requires fan { 1 < settings.now.fan }
    requires some { 0 < length dones.items }
    requires level { SomeLevel D.of tree.old (map D.seen_page dones.items) 0 }
    requires height { tree.old.height ≤ most_levels }
    ensures climbed { OnOk result
        (ClimbsFrom D.of settings.now tree.old tree.new (map D.seen_page dones.items) 0) }
    ensures low { OnOk result (tree.new.height ≤ most_levels) }
    ensures back { IfErr result (λ e. e.1.items ≡ dones.items) }
    ensures err { OnErr result (tree.new ≡ tree.old) }
    ensures high { IfErr result (λ e. e.0 ≡ Refused.TooHigh →
        IsTooHighFrom D.of settings.now tree.old (map D.seen_page dones.items) 0) }
{
    D::is_of_a_kind();
    match change_root(rt, crew, gate, alloc, settings, tree, &dones) {
        Ok((groups, root, height)) => {
            put_home(rt, crew, alloc, tree, dones);
            install_all(alloc, tree, groups);
            tree.set_root(root, height);
            Ok(())
        }
        Err(refused) => Err((refused, dones)),
    }
}

// Splits the root if it is fat, allocates the page ids of the new pages, and adds levels above them. Returns the group,
// if the root was split, the new root and the number of levels. On failure, the tree is unchanged.
fn change_root<D: UpdatedPage>(
    rt: &(impl Threads + Sync),
    crew: Crew,
    gate: &impl Gate,
    alloc: Global,
    settings: &Settings,
    tree: &mut Tree<Global>,
    dones: &[D],
) -> Result<(Vec<Rewritten>, Pid, u32), Refused>
    requires fan { 1 < settings.now.fan }
    requires some { 0 < length dones.now }
    requires level { SomeLevel D.of tree.old (map D.seen_page dones.now) 0 }
    requires height { tree.old.height ≤ most_levels }
    ensures changed { IfOk result (λ r. TopChangesFrom D.of settings.now tree.old tree.new
        (map D.seen_page dones.now) r.0.items r.1 r.2) }
    ensures low { IfOk result (λ r. r.2 ≤ most_levels) }
    ensures err { OnErr result (tree.new ≡ tree.old) }
    ensures high { IfErr result (λ e. e ≡ Refused.TooHigh →
        IsTooHighFrom D.of settings.now tree.old (map D.seen_page dones.now) 0) }
{
    D::is_of_a_kind();
    let mut groups = cut_root(rt, crew, gate, alloc, settings, dones)?;
    draw_all(tree, &mut groups)?;
    match grow_above(alloc, settings, tree, &groups) {
        Ok((root, height)) => Ok((groups, root, height)),
        Err(refused) => {
            free_drawn(tree, &groups);
            Err(refused)
        }
    }
}

// The root as a group by itself, split, if it is fat.
fn cut_root<D: UpdatedPage>(
    rt: &(impl Threads + Sync),
    crew: Crew,
    gate: &impl Gate,
    alloc: Global,
    settings: &Settings,
    dones: &[D],
) -> Result<Vec<Rewritten>, AllocError>
    requires fan { 0 < settings.now.fan }
    requires one { length dones.now ≡ 1 }
    requires joined { CanBeCut (filter is_rewritten_seen (map D.seen_page dones.now ∷ [])) }
    ensures { IfOk result (λ groups. groups.items ≡
        map (cut_group settings.now) (filter is_rewritten_seen (map D.seen_page dones.now ∷ []))) }
{
    let seen = see_all(alloc, dones)?;
    let mut groups = Vec::new(alloc);
    if seen[0].class == Class::Fat {
        groups.push(seen)?;
    }
    cut_all(rt, crew, gate, alloc, settings, &groups)
}

// Adds levels above the new pages of the root, if it was split. On failure, the tree is unchanged.
fn grow_above(
    alloc: Global,
    settings: &Settings,
    tree: &mut Tree<Global>,
    groups: &[Rewritten],
) -> Result<(Pid, u32), Refused>
    requires fan { 1 < settings.now.fan }
    requires some { 0 < length (top_names tree.old.root groups.now) }
    requires named { IsRising (top_names tree.old.root groups.now) }
    requires rising { AreRisingPids (pids_in_use tree.old.table) }
    requires logs { IsOldWithoutPlace tree.old.table }
    requires height { tree.old.height ≤ most_levels }
    ensures grown { OfGrown settings.now tree.old.table (top_names tree.old.root groups.now)
        (λ ps ls. IfOk result (λ top. HasGrown tree.old tree.new top tree.old.height ps ls)) }
    ensures low { IfOk result (λ top. top.1 ≤ most_levels) }
    ensures high { OfGrown settings.now tree.old.table (top_names tree.old.root groups.now)
        (λ ps ls. result ≡ Err TooHigh → most_levels < tree.old.height + length ls) }
    ensures err { OnErr result (tree.new ≡ tree.old) }
{
    let root = tree.root();
    let height = tree.height();
    match groups.first() {
        None => Ok((root, height)),
        Some(group) => {
            let names = group.names(alloc)?;
            grow(alloc, settings, tree, &names, height)
        }
    }
}
