//! The changes of a climb to the mapping table: parents are checked out, updated and put back; at the end, pages are
//! put back and groups are replaced by steps that cannot fail.
ghost use Rattle.std.specs.Prelude.{◌≡◌, ◌+◌, ◌<◌, ◌≤◌, ◌++◌, [], map, length, Some, None, IsSome, vec_len, vec_capacity, IfOk, OnErr, OnOk};
ghost use Rattle.std.specs.List.{AllByRecursion};
ghost use Rattle.std.specs.Vec.Iter.{into_iter_items};
ghost use Rattle.index_page.specs.InMemory.{page_shown};
ghost use Rattle.mapping.specs.Proper.{Distinct, AreRisingPids};
ghost use Rattle.page_runs.specs.TermWork.{index_made, term_held_of};
ghost use Rattle.mapping.specs.Table.{page_of, place_of, with_place, pids_in_use};
ghost use Rattle.climb_plan.specs.Installing.{all_taken, all_put, AreAway, AreParentsHome, parent_held, come_home, all_come_home, pages_under, members_freed, members_taken, put_under, group_installed, all_installed, CanInstall, CanInstallAll};

use crate::change::Rewritten;
use crate::seen::UpdatedPage;
use crew::{Crew, Gate, Work, drop_all, run_round};
use delta_chain::Run;
use index_page::{Page, PageInMemory};
use keys::{Pid, Settings};
use mapping::Tree;
use page_runs::{LeafRest, TermDone, TermJob, TermWork};
use std::alloc::{AllocError, Global};
use std::thread::Threads;
use std::vec::IntoIter;

/// Checks the parents out and applies to each the run of its terms. If allocation fails, the tree is unchanged.
pub(crate) fn work_parents(
    rt: &(impl Threads + Sync),
    crew: Crew,
    gate: &impl Gate,
    alloc: Global,
    settings: &Settings,
    tree: &mut Tree<Global>,
    termed: Vec<(Pid, Run<Pid, Global>)>,
) -> Result<Vec<TermDone>, AllocError>
    requires { AreParentsHome tree.old.table (map (λ t. t.0) termed.items) }
    ensures made { IfOk result (λ dones. map (λ d. d.made) dones.items ≡
        map (λ t. index_made settings.now (parent_held tree.old.table t)) termed.items) }
    ensures held { IfOk result (λ dones. map (λ d. d.held) dones.items ≡
        map (parent_held tree.old.table) termed.items) }
    ensures taken { OnOk result (tree.new ≡
        record tree.old { table = all_taken tree.old.table (map (λ t. t.0) termed.items) }) }
    ensures err { AreRisingPids (pids_in_use tree.old.table) → OnErr result (tree.new ≡ tree.old) }
{
    let work = TermWork {
        alloc,
        settings: *settings,
    };
    let jobs = take_all(alloc, tree, termed)?;
    match run_round(rt, crew, gate, &work, jobs) {
        Ok(dones) => Ok(dones),
        Err(jobs) => {
            put_back(tree, jobs);
            Err(AllocError)
        }
    }
}

// Checks the parents out, as jobs.
fn take_all(
    alloc: Global,
    tree: &mut Tree<Global>,
    termed: Vec<(Pid, Run<Pid, Global>)>,
) -> Result<Vec<TermJob>, AllocError>
    requires { AreParentsHome tree.old.table (map (λ t. t.0) termed.items) }
    ensures held { IfOk result (λ jobs. map term_held_of jobs.items ≡
        map (parent_held tree.old.table) termed.items) }
    ensures taken { OnOk result (tree.new ≡
        record tree.old { table = all_taken tree.old.table (map (λ t. t.0) termed.items) }) }
    ensures err { OnErr result (tree.new ≡ tree.old) }
{
    let mut jobs = Vec::with_capacity(alloc, termed.len())?;
    for (pid, terms) in termed {
        jobs.push_reserved(TermJob {
            page: tree.take(pid),
            pid,
            terms,
        });
    }
    Ok(jobs)
}

fn put_back(tree: &mut Tree<Global>, jobs: Vec<TermJob>)
    requires { AreAway tree.old.table (map (λ j. j.pid) jobs.items) }
    ensures { tree.new ≡ record tree.old {
      table = all_put tree.old.table (map (λ j. (j.pid, j.page)) jobs.items);
    } }
{
    for job in jobs {
        put_job_back(tree, job);
    }
}

fn put_job_back(tree: &mut Tree<Global>, job: TermJob)
    requires { place_of tree.old.table job.pid ≡ Some None }
    ensures { tree.new ≡ record tree.old {
      table = with_place tree.old.table job.pid (Some job.page);
    } }
{
    let TermJob {
        page,
        pid,
        terms: _terms,
    } = job;
    tree.put(pid, page);
}

/// Undoes the changes of the parents, and puts the original pages back. Does not allocate.
pub(crate) fn undo_parents(
    alloc: Global,
    settings: &Settings,
    tree: &mut Tree<Global>,
    parents: Vec<TermDone>,
)
    requires { AreAway tree.old.table (map (λ d. d.held.pid) parents.items) }
    ensures { tree.new ≡ record tree.old {
      table = all_put tree.old.table (map (λ d. (d.held.pid, d.held.page)) parents.items);
    } }
{
    let work = TermWork {
        alloc,
        settings: *settings,
    };
    for parent in parents {
        put_job_back(tree, work.undo(parent));
    }
}

/// Puts the pages back after their runs. The crew drops the remains of the leaves' work, for example replaced leaves,
/// because that takes as long as making new ones. If there is no memory to collect the remains for the crew, drops them
/// one by one instead.
pub(crate) fn put_home<D: UpdatedPage>(
    rt: &(impl Threads + Sync),
    crew: Crew,
    alloc: Global,
    tree: &mut Tree<Global>,
    dones: Vec<D>,
)
    requires { AreAway tree.old.table (map (λ d. (D.seen_page d).pid) dones.items) }
    ensures { tree.new ≡
        record tree.old { table = all_come_home tree.old.table (map D.seen_page dones.items) } }
{
    drop_all(rt, crew, rests_once_home(alloc, tree, dones))
}

// Puts the pages back, and returns the remains of their work, as far as there is room for them.
fn rests_once_home<D: UpdatedPage>(
    alloc: Global,
    tree: &mut Tree<Global>,
    dones: Vec<D>,
) -> Vec<LeafRest>
    requires { AreAway tree.old.table (map (λ d. (D.seen_page d).pid) dones.items) }
    ensures { tree.new ≡
        record tree.old { table = all_come_home tree.old.table (map D.seen_page dones.items) } }
{
    let mut rests = D::room_for_rests(alloc, dones.len());
    for done in dones {
        let rest = come_home(tree, done);
        keep_if_room(&mut rests, rest);
    }
    rests
}

// Appends the item, if there is one and the list has room for it.
fn keep_if_room<T: Drop>(items: &mut Vec<T>, item: Option<T>) {
    if let Some(item) = item {
        if items.len() < items.capacity() {
            items.push_reserved(item);
        }
    }
}

// Puts the page back after its run, and returns the remains of its work. If the page was replaced, its log state
// becomes outdated.
fn come_home<D: UpdatedPage>(tree: &mut Tree<Global>, done: D) -> Option<LeafRest>
    requires { place_of tree.old.table (D.seen_page done).pid ≡ Some None }
    ensures { tree.new ≡ record tree.old { table = come_home tree.old.table (D.seen_page done) } }
{
    let seen = done.as_seen();
    let pid = seen.pid;
    if seen.replaced {
        tree.outdate(pid);
    }
    let (page, rest) = done.into_parts();
    tree.put(pid, page);
    rest
}

/// Puts the new pages of the groups into the tree, with the values of the members that they replace, and frees these.
/// All members must be in the tree. Does not allocate.
pub(crate) fn install_all(alloc: Global, tree: &mut Tree<Global>, all: Vec<Rewritten>)
    requires { CanInstallAll tree.old.table all.items }
    ensures { tree.new ≡ record tree.old { table = all_installed tree.old.table all.items } }
{
    for group in all {
        install(alloc, tree, group);
    }
}

// Replaces the members of the group by its new pages. Does not allocate.
fn install(alloc: Global, tree: &mut Tree<Global>, group: Rewritten)
    requires { CanInstall tree.old.table group }
    ensures { tree.new ≡ record tree.old { table = group_installed tree.old.table group } }
{
    let (members, pieces, fresh, room) = group.into_parts();
    let pages = take_members(tree, &members, room);
    let mut rest = pieces.filled(alloc, pages).into_iter();
    let (Some(first), Some(piece)) = (members.first(), rest.next()) else {
        unreachable!()
    };
    tree.put(*first, Page::of_memory(piece));
    put_pieces(tree, &fresh, rest);
}

// Takes the pages of a group out of the tree. The first one's place stays, and its log state becomes outdated; the
// other places are freed.
fn take_members(
    tree: &mut Tree<Global>,
    members: &[Pid],
    room: Vec<Page<Global>>,
) -> Vec<Page<Global>>
    requires some { 0 < length members.now }
    requires home { AllByRecursion (λ pid. IsSome (page_of tree.old.table pid)) members.now ×
        Distinct members.now }
    requires room { (room.items ≡ []) × (vec_len room ≡ 0) ×
        (length members.now ≤ vec_capacity room) }
    ensures pages { result.items ≡ pages_under tree.old.table members.now }
    ensures tree { tree.new ≡
        record tree.old { table = members_taken tree.old.table members.now } }
{
    let [first, others @ ..] = members else {
        unreachable!()
    };
    let mut pages = room;
    pages.push_reserved(tree.take(*first));
    tree.outdate(*first);
    take_others(tree, others, &mut pages);
    pages
}

// Takes these pages out of the tree and frees their places.
fn take_others(tree: &mut Tree<Global>, pids: &[Pid], pages: &mut Vec<Page<Global>>)
    requires home { AllByRecursion (λ pid. IsSome (page_of tree.old.table pid)) pids.now ×
        Distinct pids.now }
    requires room { vec_len pages.old + length pids.now ≤ vec_capacity pages.old }
    ensures pages { pages.new.items ≡ pages.old.items ++ pages_under tree.old.table pids.now }
    ensures tree { tree.new ≡
        record tree.old { table = members_freed tree.old.table pids.now } }
{
    for pid in pids {
        pages.push_reserved(tree.take(*pid));
        tree.free(*pid);
    }
}

/// Puts each page into its place, which has none.
pub(crate) fn put_pieces(
    tree: &mut Tree<Global>,
    pids: &[u64],
    pages: IntoIter<Box<PageInMemory<Global>>>,
)
    requires { AreAway tree.old.table pids.now }
    ensures { tree.new ≡ record tree.old {
      table = put_under tree.old.table pids.now (map (λ page. page_shown page.value) (into_iter_items pages));
    } }
{
    let mut rest = pages;
    for pid in pids {
        let Some(page) = rest.next() else {
            return;
        };
        tree.put(Pid(*pid), Page::of_memory(page));
    }
}
