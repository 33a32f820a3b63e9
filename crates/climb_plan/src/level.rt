//! One level of a climb: rewrites its groups, allocates their page ids, and updates its parents.
ghost use Rattle.std.specs.Prelude.{◌≡◌, ◌<◌, map, IfOk, OnOk, OnErr};
ghost use Rattle.mapping.specs.Proper.{AreRisingPids};
ghost use Rattle.mapping.specs.Table.{pids_in_use};
ghost use Rattle.page_runs.specs.TermWork.{index_made};
ghost use Rattle.climb_plan.specs.Installing.{all_taken, AreParentsHome, parent_held};
ghost use Rattle.climb_plan.specs.LevelSteps.{SomeChildren, CutsFrom, ChangesFrom};
ghost use Rattle.climb_plan.specs.Rewriting.{all_names, term_parents, terms_by_parent, CanTakeTerms};

use crate::change::{Rewritten, all_freed, all_terms, cut_all, draw_all, free_drawn};
use crate::family::rewrites;
use crate::install::work_parents;
use crate::seen::{UpdatedPage, see_all};
use crew::{Crew, Gate};
use keys::{Pid, Settings};
use mapping::Tree;
use page_runs::TermDone;
use split_plan::Separator;
use std::alloc::{AllocError, Global};
use std::thread::Threads;

/// The changes of a level: its rewritten groups, with the page ids of their new pages, and its parents, after their
/// terms.
#[derive(Drop)]
pub(crate) struct Changed {
    pub(crate) groups: Vec<Rewritten>,
    pub(crate) parents: Vec<TermDone>,
}

/// Rewrites the groups of this level, allocates page ids for the new pages, and applies the resulting terms to their
/// parents, which are `depth` levels below the root. `dones` are the pages of the level that got runs. If allocation
/// fails, the tree is unchanged.
#[inline(never)]
pub(crate) fn change_level<D: UpdatedPage>(
    rt: &(impl Threads + Sync),
    crew: Crew,
    gate: &impl Gate,
    alloc: Global,
    settings: &Settings,
    tree: &mut Tree<Global>,
    depth: u32,
    dones: &[D],
) -> Result<Changed, AllocError>
    requires fan { 1 < settings.now.fan }
    requires level { SomeChildren D.of tree.old (map D.seen_page dones.now) depth }
    ensures changed { IfOk result (λ c. ChangesFrom D.of settings.now tree.old tree.new
        (map D.seen_page dones.now) depth c.groups.items c.parents.items) }
    ensures err { OnErr result (tree.new ≡ tree.old) }
{
    D::is_of_a_kind();
    let cut = cut_level(rt, crew, gate, alloc, settings, tree, depth, dones)?;
    let CutLevel {
        parents,
        freed,
        mut groups,
    } = cut;
    draw_all(tree, &mut groups)?;
    match update_parents(
        rt, crew, gate, alloc, settings, tree, &parents, freed, &groups,
    ) {
        Ok(parents) => Ok(Changed { groups, parents }),
        Err(refused) => {
            free_drawn(tree, &groups);
            Err(refused)
        }
    }
}

// Checks out these parents, and applies to each the terms of its groups. If allocation fails, the tree is unchanged.
fn update_parents(
    rt: &(impl Threads + Sync),
    crew: Crew,
    gate: &impl Gate,
    alloc: Global,
    settings: &Settings,
    tree: &mut Tree<Global>,
    parents: &[(Pid, usize)],
    freed: Vec<Vec<Separator>>,
    groups: &[Rewritten],
) -> Result<Vec<TermDone>, AllocError>
    requires rising { AreRisingPids (pids_in_use tree.old.table) }
    requires names { CanTakeTerms parents.now (all_names freed.items) groups.now }
    requires home { AreParentsHome tree.old.table
        (term_parents parents.now (all_names freed.items) groups.now) }
    ensures made { IfOk result (λ dones. map (λ d. d.made) dones.items ≡
        map (λ t. index_made settings.now (parent_held tree.old.table t))
        (terms_by_parent parents.now (all_names freed.items) groups.now)) }
    ensures held { IfOk result (λ dones. map (λ d. d.held) dones.items ≡
        map (parent_held tree.old.table)
        (terms_by_parent parents.now (all_names freed.items) groups.now)) }
    ensures taken { OnOk result (tree.new ≡ record tree.old {
      table = all_taken tree.old.table
          (term_parents parents.now (all_names freed.items) groups.now);
    }) }
    ensures err { OnErr result (tree.new ≡ tree.old) }
{
    let termed = all_terms(alloc, parents, freed, groups)?;
    work_parents(rt, crew, gate, alloc, settings, tree, termed)
}

// The groups of a level that are rewritten, after the split.
#[derive(Drop)]
struct CutLevel {
    // Their parents, each with the number of its groups.
    parents: Vec<(Pid, usize)>,
    // The freed entries of each group.
    freed: Vec<Vec<Separator>>,
    groups: Vec<Rewritten>,
}

fn cut_level<D: UpdatedPage>(
    rt: &(impl Threads + Sync),
    crew: Crew,
    gate: &impl Gate,
    alloc: Global,
    settings: &Settings,
    tree: &Tree<Global>,
    depth: u32,
    dones: &[D],
) -> Result<CutLevel, AllocError>
    requires fan { 0 < settings.now.fan }
    requires level { SomeChildren D.of tree.now (map D.seen_page dones.now) depth }
    ensures cut { IfOk result (λ cut. CutsFrom D.of settings.now tree.now
        (map D.seen_page dones.now) depth
        cut.parents.items (all_names cut.freed.items) cut.groups.items) }
{
    D::is_of_a_kind();
    let seen = see_all(alloc, dones)?;
    let to_rewrite = rewrites(alloc, tree, depth, &seen)?;
    let freed = all_freed(alloc, &to_rewrite.groups)?;
    let groups = cut_all(rt, crew, gate, alloc, settings, &to_rewrite.groups)?;
    Ok(CutLevel {
        parents: to_rewrite.parents,
        freed,
        groups,
    })
}
