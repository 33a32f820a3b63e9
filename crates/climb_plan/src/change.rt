//! The new pages of a level's groups, and the runs for their parents.
ghost use Rattle.std.specs.Prelude.{◌≡◌, ℕ, ◌+◌, ◌-◌, ◌<◌, ◌≤◌, ◌++◌, List, [], map, flat_map, take, drop, length, vec_len, vec_capacity, IfOk, OnOk, OnErr};
ghost use Rattle.keys.specs.Lists.{flat};
ghost use Rattle.keys.specs.Order.{IsRising};
ghost use Rattle.index_page.specs.InMemory.{page_shown};
ghost use Rattle.mapping.specs.Proper.{AreRisingPids};
ghost use Rattle.mapping.specs.Table.{pids_in_use, with_rooms, fresh_pids, freed_all, IsOldWithoutPlace};
ghost use Rattle.split_plan.specs.Frames.{frame_in, frame_of};
ghost use Rattle.split_plan.specs.Pieces.{pages_lent};
ghost use Rattle.climb_plan.specs.Rewriting.{seen_name, all_seen, groups_seen, all_names, cut_group, CanBeCut, joined_groups, freed_names, fresh_names, named_pages, HaveSome, with_numbers, numbers, terms_of, CanTakeTerms, terms_by_parent};
ghost use Rattle.climb_plan.specs.Installing.{AreAway, DrawsFrom};

use crate::seen::Seen;
use crew::{Crew, Gate, run_round};
use delta_chain::Run;
use index_page::{Page, PageInMemory};
use keys::{Key, Pid, Settings};
use mapping::Tree;
use mapping::laws::drawn_pids_get_places_that_are_away;
use split_plan::{GroupDone, GroupJob, GroupWork, NewPages, Separator, terms};
use std::alloc::{AllocError, Global};
use std::collections::VecDeque;
use std::marker::Model;
use std::thread::Threads;

/// A group that is rewritten: its members, and the pages that replace them.
#[derive(Drop)]
pub(crate) struct Rewritten {
    // The members' page ids. The first new page keeps the first of them.
    members: Vec<Pid>,
    // The pages that replace the group.
    pieces: NewPages,
    // The page ids of all new pages but the first, once they are allocated.
    fresh: Vec<u64>,
    // Room for the members' pages when they are replaced, which may not fail.
    room: Vec<Page<Global>>,
}

impl Model for Rewritten {
    ghost use Rattle.std.specs.Prelude.{◌≡◌, ◌≤◌, [], length, vec_len, vec_capacity};
    ghost use Rattle.climb_plan.specs.Rewriting.{Remade};

    ghost Value = { Remade };

    ghost view = { λ r.
        record { members = r.members.items; pieces = r.pieces; fresh = r.fresh.items } };

    ghost invariant = { λ r. (r.room.items ≡ []) × (vec_len r.room ≡ 0) ×
        (length r.members.items ≤ vec_capacity r.room) };
}

/// Splits the groups. The new pages have no page ids yet, and their values are still in the members.
pub(crate) fn cut_all(
    rt: &(impl Threads + Sync),
    crew: Crew,
    gate: &impl Gate,
    alloc: Global,
    settings: &Settings,
    groups: &[Vec<Seen<'_>>],
) -> Result<Vec<Rewritten>, AllocError>
    requires fan { 0 < settings.now.fan }
    requires joined { CanBeCut (groups_seen groups.now) }
    ensures { IfOk result (λ all. all.items ≡
        map (cut_group settings.now) (groups_seen groups.now)) }
{
    let jobs = jobs_of(alloc, groups)?;
    let work = GroupWork::new(alloc, *settings);
    match run_round(rt, crew, gate, &work, jobs) {
        Ok(dones) => all_cut(alloc, groups, dones),
        Err(_) => Err(AllocError),
    }
}

fn jobs_of<'a>(alloc: Global, groups: &[Vec<Seen<'a>>]) -> Result<Vec<GroupJob<'a>>, AllocError>
    ensures { IfOk result (λ jobs. map (λ job. pages_lent job.members.items) jobs.items ≡
        map (λ g. map (λ x. x.page) (all_seen g.items)) groups.now) }
{
    let mut jobs = Vec::with_capacity(alloc, groups.len())?;
    for group in groups {
        jobs.push_reserved(job_of(alloc, group)?);
    }
    Ok(jobs)
}

// The members' pages, borrowed.
fn job_of<'a>(alloc: Global, group: &[Seen<'a>]) -> Result<GroupJob<'a>, AllocError>
    ensures { IfOk result (λ job. pages_lent job.members.items ≡
        map (λ x. x.page) (all_seen group.now)) }
{
    let mut members = Vec::with_capacity(alloc, group.len())?;
    for member in group {
        members.push_reserved(member.page);
    }
    Ok(GroupJob { members })
}

// Each group's members, with their new pages.
fn all_cut(
    alloc: Global,
    groups: &[Vec<Seen<'_>>],
    dones: Vec<GroupDone<'_>>,
) -> Result<Vec<Rewritten>, AllocError>
    ensures { IfOk result (λ all. all.items ≡
        joined_groups (groups_seen groups.now) (map (λ d. d.made) dones.entry.items)) }
{
    let mut all = Vec::with_capacity(alloc, groups.len())?;
    let mut dones = VecDeque::from(dones);
    for group in groups {
        let Some(done) = dones.pop_front() else {
            break;
        };
        all.push_reserved(rewritten_group(alloc, group, done)?);
    }
    Ok(all)
}

fn rewritten_group(
    alloc: Global,
    group: &[Seen<'_>],
    done: GroupDone<'_>,
) -> Result<Rewritten, AllocError>
    ensures { IfOk result (λ r. r ≡ record {
      members = map (λ x. x.pid) (all_seen group.now);
      pieces = done.entry.made;
      fresh = [];
    }) }
{
    let members = pids_of(alloc, group)?;
    let room = Vec::with_capacity(alloc, members.len())?;
    Ok(Rewritten {
        members,
        pieces: done.into_pieces(),
        fresh: Vec::new(alloc),
        room,
    })
}

fn pids_of(alloc: Global, group: &[Seen<'_>]) -> Result<Vec<Pid>, AllocError>
    ensures { IfOk result (λ pids. pids.items ≡ map (λ x. x.pid) (all_seen group.now)) }
{
    let mut pids = Vec::with_capacity(alloc, group.len())?;
    for member in group {
        pids.push_reserved(member.pid);
    }
    Ok(pids)
}

/// The parents' entries of each group's members except the first: these members are freed.
pub(crate) fn all_freed(
    alloc: Global,
    groups: &[Vec<Seen<'_>>],
) -> Result<Vec<Vec<Separator>>, AllocError>
    ensures { IfOk result (λ all. all_names all.items ≡ map freed_names (groups_seen groups.now)) }
{
    let mut all = Vec::with_capacity(alloc, groups.len())?;
    for group in groups {
        all.push_reserved(freed_of(alloc, group)?);
    }
    Ok(all)
}

// The parent's entries of a group's members except the first.
fn freed_of(alloc: Global, group: &[Seen<'_>]) -> Result<Vec<Separator>, AllocError>
    ensures { IfOk result (λ names. names.items ≡ freed_names (all_seen group.now)) }
{
    match group {
        [] => Ok(Vec::new(alloc)),
        [_kept, freed @ ..] => names_of(alloc, freed),
    }
}

// The entries of these pages in their parent.
fn names_of(alloc: Global, pages: &[Seen<'_>]) -> Result<Vec<Separator>, AllocError>
    ensures { IfOk result (λ names. names.items ≡ map seen_name (all_seen pages.now)) }
{
    let mut names = Vec::with_capacity(alloc, pages.len())?;
    for seen in pages {
        names.push_reserved(Separator {
            low: Key::from_bytes(alloc, seen.page.low())?,
            pid: seen.pid,
        });
    }
    Ok(names)
}

/// Allocates the page ids of the new pages, from left to right. If that fails, the tree is unchanged.
pub(crate) fn draw_all(tree: &mut Tree<Global>, all: &mut [Rewritten]) -> Result<(), AllocError>
    requires some { HaveSome all.old }
    requires rising { AreRisingPids (pids_in_use tree.old.table) }
    requires logs { IsOldWithoutPlace tree.old.table }
    ensures numbers { OnOk result ((used : List ℕ) (from : ℕ) →
        DrawsFrom tree.old.table used from → all.new ≡ with_numbers used from all.old) }
    ensures tree { OnOk result (tree.new ≡ record tree.old {
      table = with_rooms tree.old.table (fresh_pids (pids_in_use tree.old.table) (numbers all.old));
    }) }
    ensures err { OnErr result (tree.new ≡ tree.old) }
{
    // Allocated page ids have no pages, and freeing them restores the table.
    drawn_pids_get_places_that_are_away::<Page<Global>>();
    let drawn = draw_each(tree, all);
    if drawn < all.len() {
        free_drawn(tree, &all[..drawn]);
        return Err(AllocError);
    }
    Ok(())
}

// Allocates the page ids for one group after the other until an allocation fails. Returns how many groups have theirs.
fn draw_each(tree: &mut Tree<Global>, all: &mut [Rewritten]) -> usize
    requires some { HaveSome all.old }
    requires rising { AreRisingPids (pids_in_use tree.old.table) }
    ensures within { result ≤ length all.old }
    ensures numbers { all.new ≡
        with_numbers (pids_in_use tree.old.table) 0 (take result all.old) ++ drop result all.old }
    ensures tree { tree.new ≡ record tree.old {
      table = with_rooms tree.old.table
          (fresh_pids (pids_in_use tree.old.table) (numbers (take result all.old)));
    } }
{
    // The next allocated page ids follow those allocated before.
    drawn_pids_get_places_that_are_away::<Page<Global>>();
    for at in 0..all.len() {
        let group = &mut all[at];
        let Ok(()) = group.draw(tree) else {
            return at;
        };
    }
    all.len()
}

/// Frees the page ids of these groups' new pages, which are not in the tree yet.
pub(crate) fn free_drawn(tree: &mut Tree<Global>, all: &[Rewritten])
    requires { AreAway tree.old.table (flat_map (λ r. r.fresh) all.now) }
    ensures { tree.new ≡
        record tree.old { table = freed_all tree.old.table (flat_map (λ r. r.fresh) all.now) } }
{
    for group in all {
        free_all(tree, &group.fresh);
    }
}

pub(crate) fn free_all(tree: &mut Tree<Global>, pids: &[u64])
    requires { AreAway tree.old.table pids.now }
    ensures { tree.new ≡ record tree.old { table = freed_all tree.old.table pids.now } }
{
    for pid in pids {
        tree.free(Pid(*pid));
    }
}

/// Returns the run of terms of each of these parents, with the parent's page id.
pub(crate) fn all_terms(
    alloc: Global,
    parents: &[(Pid, usize)],
    freed: Vec<Vec<Separator>>,
    all: &[Rewritten],
) -> Result<Vec<(Pid, Run<Pid, Global>)>, AllocError>
    requires { CanTakeTerms parents.now (all_names freed.items) all.now }
    ensures { IfOk result (λ runs. runs.items ≡
        terms_by_parent parents.now (all_names freed.items) all.now) }
{
    let mut runs = Vec::with_capacity(alloc, parents.len())?;
    let mut freed = VecDeque::from(freed);
    let mut rest = all;
    for parent in parents {
        let (own, later) = rest.split_at(parent.1);
        let run = next_terms(alloc, &mut freed, own)?;
        runs.push_reserved((parent.0, run));
        rest = later;
    }
    Ok(runs)
}

// The run of terms of a parent with these groups. Removes their lists of freed entries, which come first, from `freed`.
fn next_terms(
    alloc: Global,
    freed: &mut VecDeque<Vec<Separator>>,
    own: &[Rewritten],
) -> Result<Run<Pid, Global>, AllocError>
    requires freed { IsRising (flat (take (length own.now) (all_names freed.old.items))) }
    requires fresh { IsRising (flat_map fresh_names own.now) }
    ensures terms { IfOk result (λ run. run ≡
        terms_of (take (length own.now) (all_names freed.old.items)) own.now) }
    ensures rest { OnOk result (all_names freed.new.items ≡
        drop (length own.now) (all_names freed.old.items)) }
{
    let gone = next_names(alloc, freed, own.len())?;
    let come = new_names(alloc, own)?;
    terms(alloc, gone, come)
}

// Removes the next `count` lists of entries and concatenates them.
fn next_names(
    alloc: Global,
    lists: &mut VecDeque<Vec<Separator>>,
    count: usize,
) -> Result<Vec<Separator>, AllocError>
    ensures names { IfOk result (λ names. names.items ≡
        flat (take count (all_names lists.old.items))) }
    ensures rest { OnOk result (all_names lists.new.items ≡
        drop count (all_names lists.old.items)) }
{
    let mut names = Vec::new(alloc);
    for _list in 0..count {
        let Some(mut list) = lists.pop_front() else {
            break;
        };
        names.append(&mut list)?;
    }
    Ok(names)
}

// The entries for the groups' new pages, from left to right.
fn new_names(alloc: Global, all: &[Rewritten]) -> Result<Vec<Separator>, AllocError>
    ensures { IfOk result (λ names. names.items ≡ flat_map fresh_names all.now) }
{
    let mut names = Vec::new(alloc);
    for group in all {
        push_names(alloc, group.new_pieces(), &group.fresh, &mut names)?;
    }
    Ok(names)
}

// Appends the entries for these pages under these page ids.
fn push_names(
    alloc: Global,
    pages: &[Box<PageInMemory<Global>>],
    pids: &[u64],
    names: &mut Vec<Separator>,
) -> Result<(), AllocError>
    ensures { OnOk result (names.new.items ≡
        names.old.items ++ named_pages (map (λ page. page_shown page.value) pages.now) pids.now) }
{
    for (page, pid) in pages.iter().zip(pids) {
        names.push(Separator {
            low: Key::from_bytes(alloc, page.low())?,
            pid: Pid(*pid),
        })?;
    }
    Ok(())
}

// The entries for these pages, the first one under the first member's page id.
fn names_in(
    alloc: Global,
    pages: &[Box<PageInMemory<Global>>],
    members: &[Pid],
    fresh: &[u64],
) -> Result<Vec<Separator>, AllocError>
    ensures { IfOk result (λ names. names.items ≡
        named_pages (map (λ page. page_shown page.value) pages.now) (take 1 members.now ++ fresh.now)) }
{
    let mut names = Vec::with_capacity(alloc, pages.len())?;
    let others = match (pages, members.first()) {
        ([first, others @ ..], Some(pid)) => {
            names.push_reserved(Separator {
                low: Key::from_bytes(alloc, first.low())?,
                pid: *pid,
            });
            others
        }
        (pages, _) => pages,
    };
    push_names(alloc, others, fresh, &mut names)?;
    Ok(names)
}

impl Rewritten {
    /// The members, the new pages, the page ids of all new pages except the first, and room for the members' pages.
    pub(crate) fn into_parts(self) -> (Vec<Pid>, NewPages, Vec<u64>, Vec<Page<Global>>)
        ensures parts { self ≡
            record { members = result.0.items; pieces = result.1; fresh = result.2.items } }
        ensures room { (result.3.items ≡ []) × (vec_len result.3 ≡ 0) ×
            (length result.0.items ≤ vec_capacity result.3) }
    {
        let Rewritten {
            members,
            pieces,
            fresh,
            room,
        } = self;
        (members, pieces, fresh, room)
    }

    /// The entries for all pages of the group, the first one under the first member's page id.
    pub(crate) fn names(&self, alloc: Global) -> Result<Vec<Separator>, AllocError>
        ensures { IfOk result (λ names. names.items ≡
            named_pages self.now.pieces (take 1 self.now.members ++ self.now.fresh)) }
    {
        names_in(alloc, self.pieces.blanks(), &self.members, &self.fresh)
    }

    // All new pages except the first, without their values: they need page ids of their own.
    fn new_pieces(&self) -> &[Box<PageInMemory<Global>>]
        ensures { map (λ page. frame_in page.value) result.now
            ≡ map frame_of (drop 1 self.now.pieces) }
    {
        match self.pieces.blanks() {
            [] => &[],
            [_first, others @ ..] => others,
        }
    }

    // Allocates the page ids of the new pages. If that fails, nothing changes.
    fn draw(&mut self, tree: &mut Tree<Global>) -> Result<(), AllocError>
        requires { 0 < length self.old.pieces }
        ensures numbers { OnOk result (self.new ≡ record self.old {
          fresh = fresh_pids (pids_in_use tree.old.table) (length self.old.pieces - 1);
        }) }
        ensures tree { OnOk result (tree.new ≡ record tree.old {
          table = with_rooms tree.old.table
              (fresh_pids (pids_in_use tree.old.table) (length self.old.pieces - 1));
        }) }
        ensures kept { OnErr result (self.new ≡ self.old) }
        ensures tree_kept { OnErr result (tree.new ≡ tree.old) }
    {
        self.fresh = tree.fresh(self.pieces.len() - 1)?;
        Ok(())
    }
}
