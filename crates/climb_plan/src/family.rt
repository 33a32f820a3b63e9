//! Finds the groups of a level that are rewritten, starting from the thin and fat pages. Only the parents of such pages
//! are visited.
ghost use Rattle.std.specs.Prelude.{◌≡◌, ℕ, ◌≤◌, false, List, [], ◌∷◌, ◌++◌, map, drop, length, Some, IsSome, MatchOption, IfOk, OnOk};
ghost use Rattle.std.specs.List.{AllByRecursion, filter};
ghost use Rattle.index_page.specs.InMemory.{page_shown};
ghost use Rattle.index_page.specs.Page.{low_of};
ghost use Rattle.index_page.specs.Range.{is_below};
ghost use Rattle.mapping.specs.Levels.{Placed};
ghost use Rattle.mapping.specs.Table.{page_of};
ghost use Rattle.page_runs.specs.declared.class.Class.TheVariants.{Same};
ghost use Rattle.climb_plan.specs.Changing.{SeenPage};
ghost use Rattle.climb_plan.specs.Rewriting.{seen_now, all_seen, groups_seen, AreSeenIn, AreParents, SomeLevelSeen, OfLevelSeen, IsQuiet, HasFirstCall, pids_for, AreParted, begins_at, IsNextChild, SomeFamily, OfFamily, rewriting_families, rewritten_groups, with_rewriting, rewriting_counts, groups_of, is_rewritten_seen};

use crate::seen::Seen;
use keys::{Pid, compare};
use mapping::Tree;
use page_runs::Class;
use split_plan::groups;
use std::alloc::{AllocError, Global};

/// The groups of a level that are rewritten, from left to right, and their parents.
#[derive(Drop)]
pub(crate) struct ToRewrite<'a> {
    /// Each parent of such groups, with the number of these groups among its children.
    pub(crate) parents: Vec<(Pid, usize)>,
    /// The members of each group.
    pub(crate) groups: Vec<Vec<Seen<'a>>>,
}

/// Returns the groups of a level that are rewritten. `seen` are the pages of the level that got a run; the others are
/// in the table. Their parents are `depth` levels below the root. Only reads the tree.
pub(crate) fn rewrites<'a>(
    alloc: Global,
    tree: &'a Tree<Global>,
    depth: u32,
    seen: &'a [Seen<'a>],
) -> Result<ToRewrite<'a>, AllocError>
    requires { SomeLevelSeen tree.now depth (all_seen seen.now) }
    ensures parents { IfOk result (λ r. OfLevelSeen tree.now depth (all_seen seen.now)
        (λ all ps. r.parents.items ≡ rewriting_counts (rewriting_families ps all))) }
    ensures groups { IfOk result (λ r. OfLevelSeen tree.now depth (all_seen seen.now)
        (λ all ps. groups_seen r.groups.items ≡ groups_of (rewriting_families ps all))) }
{
    let mut rewrites = ToRewrite {
        parents: Vec::new(alloc),
        groups: Vec::new(alloc),
    };
    let mut done = 0;
    while let Some(low) = first_to_restructure(left_from(seen, done)) {
        let parent = parent_of(tree, depth, low);
        done += add_family(alloc, tree, parent, left_from(seen, done), &mut rewrites)?;
    }
    Ok(rewrites)
}

fn left_from<'s, 'a>(seen: &'s [Seen<'a>], done: usize) -> &'s [Seen<'a>]
    requires { done ≤ length seen.now }
    ensures { result.now ≡ drop done seen.now }
{
    let (_done, left) = seen.split_at(done);
    left
}

// The low key of the first page that is thin or fat.
fn first_to_restructure<'a>(seen: &[Seen<'a>]) -> Option<&'a [u8]>
    ensures { MatchOption result (AllByRecursion IsQuiet (all_seen seen.now))
        (λ low. HasFirstCall (all_seen seen.now) low.now) }
{
    for page in seen {
        if page.needs_restructuring() {
            return Some(page.page.low());
        }
    }
    None
}

// The page id of the index page, `depth` levels below the root, whose range contains the key.
fn parent_of(tree: &Tree<Global>, depth: u32, key: &[u8]) -> Pid
    requires { (ps : List (Placed ℕ)) × (ups : List (List (Placed ℕ))) ×
        AreParents tree.now depth ps ups }
    ensures { (ps : List (Placed ℕ)) (ups : List (List (Placed ℕ))) →
        AreParents tree.now depth ps ups → pids_for ps key.now ≡ result ∷ [] }
{
    tree.descend(depth, key)
}

// Appends the groups of the parent's children that are rewritten. Returns the place after the last of the pages `seen`
// that is a child of the parent.
fn add_family<'a>(
    alloc: Global,
    tree: &'a Tree<Global>,
    parent: Pid,
    seen: &[Seen<'a>],
    rewrites: &mut ToRewrite<'a>,
) -> Result<usize, AllocError>
    requires { SomeFamily tree.now.table (all_seen seen.now) parent }
    ensures most { IfOk result (λ following. following ≤ length seen.now) }
    ensures later { IfOk result (λ following. OfFamily tree.now.table (all_seen seen.now) parent
        (λ f. AreSeenIn tree.now.table (all_seen (drop following seen.now)) f.later)) }
    ensures parents { OnOk result (OfFamily tree.now.table (all_seen seen.now) parent
        (λ f. rewrites.new.parents.items ≡ rewrites.old.parents.items ++
        rewriting_counts (with_rewriting f.parent.pid (rewritten_groups f.children) []))) }
    ensures groups { OnOk result (OfFamily tree.now.table (all_seen seen.now) parent
        (λ f. groups_seen rewrites.new.groups.items ≡
        groups_seen rewrites.old.groups.items ++ rewritten_groups f.children)) }
{
    let (children, following) = family(alloc, tree, parent, seen)?;
    let before = rewrites.groups.len();
    add_groups(alloc, &children, &mut rewrites.groups)?;
    let count = rewrites.groups.len() - before;
    if count > 0 {
        rewrites.parents.push((parent, count))?;
    }
    Ok(following)
}

// The parent's children after their runs, and the place after the last of the pages `seen` among them.
fn family<'a>(
    alloc: Global,
    tree: &'a Tree<Global>,
    parent: Pid,
    seen: &[Seen<'a>],
) -> Result<(Vec<Seen<'a>>, usize), AllocError>
    requires { SomeFamily tree.now.table (all_seen seen.now) parent }
    ensures most { IfOk result (λ r. r.1 ≤ length seen.now) }
    ensures children { IfOk result (λ r. OfFamily tree.now.table (all_seen seen.now) parent
        (λ f. all_seen r.0.items ≡ f.children)) }
    ensures later { IfOk result (λ r. OfFamily tree.now.table (all_seen seen.now) parent
        (λ f. AreSeenIn tree.now.table (all_seen (drop r.1 seen.now)) f.later)) }
{
    let Some(page) = tree.page(parent) else {
        unreachable!()
    };
    let Some(chain) = page.as_index() else {
        unreachable!()
    };
    let entries = chain.pairs(alloc)?;
    let mut children = Vec::with_capacity(alloc, entries.len())?;
    let mut next = count_below(seen, page.low());
    for at in 0..entries.len() {
        let child = next_child(tree, seen, entries.key(at), *entries.cell(at), &mut next);
        children.push_reserved(child);
    }
    Ok((children, next))
}

// The child with this low key and page id: the next page of `seen`, or a page that got no run.
fn next_child<'a>(
    tree: &'a Tree<Global>,
    seen: &[Seen<'a>],
    low: &[u8],
    pid: Pid,
    next: &mut usize,
) -> Seen<'a>
    requires within { next.old ≤ length seen.now }
    requires child { (x : SeenPage) × (later : List SeenPage) ×
        IsNextChild tree.now.table (all_seen (drop next.old seen.now)) low.now pid x later }
    ensures within { next.new ≤ length seen.now }
    ensures child { (x : SeenPage) (later : List SeenPage) →
        IsNextChild tree.now.table (all_seen (drop next.old seen.now)) low.now pid x later →
        (seen_now result ≡ x) × AreSeenIn tree.now.table (all_seen (drop next.new seen.now)) later }
{
    if !has_low(seen, *next, low) {
        return page_at_home(tree, pid);
    }
    let child = seen[*next].again();
    *next += 1;
    child
}

// Whether there is a page at this place with this low key.
fn has_low(seen: &[Seen<'_>], at: usize, low: &[u8]) -> bool
    ensures { result ≡ begins_at low.now (all_seen (drop at seen.now)) }
{
    match seen.get(at) {
        Some(page) => compare(page.page.low(), low).is_eq(),
        None => false,
    }
}

// How many of the pages have low keys below `key`. Takes a binary search.
fn count_below(seen: &[Seen<'_>], key: &[u8]) -> usize
    requires { (before : List SeenPage) × (from : List SeenPage) ×
        AreParted key.now (all_seen seen.now) before from }
    ensures { (before from : List SeenPage) → AreParted key.now (all_seen seen.now) before from →
        result ≡ length before }
{
    seen.partition_point(
        |page: &Seen<'_>| -> bool
            ensures { result ≡ is_below (low_of (page_shown page.now.page.now)) key.entry.now }
        { compare(page.page.low(), key).is_lt() },
    )
}

// A page that got no run.
fn page_at_home(tree: &Tree<Global>, pid: Pid) -> Seen<'_>
    requires { IsSome (page_of tree.now.table pid) }
    ensures page { page_of tree.now.table pid ≡ Some (page_shown result.page.now) }
    ensures rest { seen_now result ≡
        record { pid = pid; page = page_shown result.page.now; class = Same; replaced = false } }
{
    match tree.page(pid) {
        Some(page) => Seen {
            pid,
            page: page.in_memory(),
            class: Class::Same,
            replaced: false,
        },
        None => unreachable!(),
    }
}

fn add_groups<'a>(
    alloc: Global,
    children: &[Seen<'a>],
    rewritten: &mut Vec<Vec<Seen<'a>>>,
) -> Result<(), AllocError>
    ensures { OnOk result (groups_seen rewritten.new.items ≡
        groups_seen rewritten.old.items ++ rewritten_groups (all_seen children.now)) }
{
    let classes = classes_of(alloc, children)?;
    let sizes = groups(alloc, &classes)?;
    let mut start = 0;
    for size in sizes.as_slice() {
        let (_earlier, left) = children.split_at(start);
        let (group, _later) = left.split_at(*size);
        add_group(alloc, group, rewritten)?;
        start += *size;
    }
    Ok(())
}

fn add_group<'a>(
    alloc: Global,
    group: &[Seen<'a>],
    rewritten: &mut Vec<Vec<Seen<'a>>>,
) -> Result<(), AllocError>
    ensures { OnOk result (groups_seen rewritten.new.items ≡
        groups_seen rewritten.old.items ++ filter is_rewritten_seen (all_seen group.now ∷ [])) }
{
    if is_rewritten(group) {
        rewritten.push(group.to_vec(alloc)?)?;
    }
    Ok(())
}

fn classes_of(alloc: Global, children: &[Seen<'_>]) -> Result<Vec<Class>, AllocError>
    ensures { IfOk result (λ classes. classes.items ≡ map (λ x. x.class) children.now) }
{
    let mut classes = Vec::with_capacity(alloc, children.len())?;
    for child in children {
        classes.push_reserved(child.class);
    }
    Ok(classes)
}

// Whether the group is rewritten: it has several members, or a single fat one.
fn is_rewritten(group: &[Seen<'_>]) -> bool
    ensures { result ≡ is_rewritten_seen (all_seen group.now) }
{
    match group {
        [] => false,
        [only] => only.class == Class::Fat,
        _ => true,
    }
}
