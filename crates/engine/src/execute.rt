//! Executes a batch on a tree: finds the leaves that its commands go to, applies the commands to them, and climbs from
//! the changed leaves to the root.
ghost use Rattle.std.specs.Prelude.{◌≡◌, ◌+◌, ◌<◌, ◌≤◌, ℕ, true, [], length, List, IfOk, IsOkAnd, IfErr, OnOk, OnErr, IfSome, map};
ghost use Rattle.std.specs.List.{list_all};
ghost use Rattle.std.specs.Map.{keys_of};
ghost use Rattle.std.specs.Option.{option_copied};
ghost use Rattle.keys.specs.Narrowed.{MayEndAtAll};
ghost use Rattle.keys.specs.declared.command.Command.{Command};
ghost use Rattle.keys.specs.declared.fault.Fault.TheVariants.{NoMemory};
ghost use Rattle.keys.specs.Step.{replies_to, map_after_all};
ghost use Rattle.mapping.specs.Levels.{contents, levels_of, names};
ghost use Rattle.mapping.specs.Proper.{AreLevels, HoldsItsLevels};
ghost use Rattle.mapping.specs.Tree as definitions;
ghost use Rattle.mapping.specs.Tree.{most_levels};
ghost use Rattle.mapping.specs.TreeInMemory.{AreAllHome, tree_of};
ghost use Rattle.page_runs.specs.Reads.{is_read_only};
ghost use Rattle.replies.specs.ByPlace.{most_counted};
ghost use Rattle.replies.specs.InTurn.{points_of};
ghost use Rattle.climb_plan.specs.Changing.{leaves_seen};
ghost use Rattle.climb_plan.specs.Limits.{AreShort};
ghost use Rattle.climb_plan.specs.Plan.{planned_tree};
ghost use Rattle.climb_plan.specs.Ready.{IsReady};
ghost use Rattle.engine.specs.Batch.{IsLaterFault, fault_by};
ghost use Rattle.engine.specs.Leaves.{AreRoutesFor};
ghost use Rattle.engine.specs.SoundTree.{IsSoundInMemory};

use crate::execute_one::execute_one;
use crate::leaves::{take_replies, undo_leaves, work_leaves};
use crate::reads::{are_all_read_only, read_replies};
use climb_plan::laws::{
    the_log_states_stay_true, the_plan_holds_the_map_after_the_commands,
    the_plan_of_a_proper_store_is_proper,
};
use climb_plan::{Refused, climb};
use crew::{Crew, Gate};
use keys::{Command, Fault, Reply, Settings};
use mapping::Tree;
use page_runs::{LeafDone, LeafWork, ReadWork};
use replies::{LentMap, execute_in_turn};
use routing::{BatchWithEnds, PageRun, route};
use scan::{Rows, scan_ends};
use std::alloc::{AllocError, Global};
use std::thread::Threads;

/// Executes the commands on the tree, and returns the replies; the tree is then the one of the plan. Fails if
/// allocation fails or if the tree would have more than 64 levels; the tree is then unchanged.
pub(crate) fn execute(
    rt: &(impl Threads + Sync),
    crew: Crew,
    gate: &impl Gate,
    alloc: Global,
    settings: &Settings,
    tree: &mut Tree<Global>,
    commands: &[Command<Global>],
) -> Result<Vec<Reply<Global>>, Fault>
    requires sound { IsSoundInMemory settings.now tree.old }
    requires short { AreShort settings.now commands.now }
    ensures replies { IfOk result
        (λ replies. replies.items ≡ replies_to (contents (tree_of tree.old)) commands.now) }
    ensures tree { OnOk result
        (tree_of tree.new ≡ planned_tree settings.now (tree_of tree.old) commands.now) }
    ensures contents { OnOk result
        (contents (tree_of tree.new) ≡ map_after_all (contents (tree_of tree.old)) commands.now) }
    ensures sound { IsSoundInMemory settings.now tree.new }
    ensures err { OnErr result (tree.new ≡ tree.old) }
    ensures fault { IfErr result (IsLaterFault settings.now (tree_of tree.old) commands.now) }
{
    let work = LeafWork {
        alloc,
        settings: *settings,
        commands,
    };
    if let [command] = commands {
        if !command.is_ranged() {
            return execute_one(rt, crew, gate, &work, tree, command);
        }
    }
    let Some(page_runs) = routes_to_leaves(rt, crew, alloc, tree, commands)? else {
        return execute_by_map(rt, crew, gate, &work, tree);
    };
    if is_costly(commands, &page_runs, tree.most_pages()) {
        return execute_by_map(rt, crew, gate, &work, tree);
    }
    if are_all_read_only(commands) {
        return read_routed(rt, crew, gate, &work, tree, page_runs);
    }
    execute_routed(rt, crew, gate, &work, tree, page_runs)
}

// Returns which leaves the commands go to, or `None` if the scans and wipes would visit too many leaves in vain. A scan
// goes only to as many leaves as it needs for its rows.
fn routes_to_leaves(
    rt: &(impl Threads + Sync),
    crew: Crew,
    alloc: Global,
    tree: &Tree<Global>,
    commands: &[Command<Global>],
) -> Result<Option<Vec<PageRun>>, Fault>
    requires home { AreAllHome tree.now }
    requires height { tree.now.height ≤ most_levels }
    requires held { HoldsItsLevels (tree_of tree.now) }
    requires levels { AreLevels (levels_of (tree_of tree.now)) }
    ensures ok { IfOk result (λ found. IfSome found
        (λ runs. AreRoutesFor (tree_of tree.now) commands.now runs.items)) }
    ensures err { IfErr result (λ fault. fault ≡ NoMemory) }
{
    let Some(ends) = scan_ends(alloc, tree, commands)? else {
        return Ok(None);
    };
    let page_runs = routes_with_ends(rt, crew, alloc, tree, commands, ends)?;
    Ok(Some(page_runs))
}

// Returns which leaves the commands go to, if each scan ends at the key that `ends` has for it.
fn routes_with_ends<'a>(
    rt: &(impl Threads + Sync),
    crew: Crew,
    alloc: Global,
    tree: &Tree<Global>,
    commands: &'a [Command<Global>],
    ends: Vec<Option<&'a [u8]>>,
) -> Result<Vec<PageRun>, Fault>
    requires home { AreAllHome tree.now }
    requires held { HoldsItsLevels (tree_of tree.now) }
    requires levels { AreLevels (levels_of (tree_of tree.now)) }
    requires ends { MayEndAtAll (keys_of (names (levels_of (tree_of tree.now)).level))
        (contents (tree_of tree.now)) commands.now (map option_copied ends.items) }
    ensures ok { IfOk result (λ runs. AreRoutesFor (tree_of tree.now) commands.now runs.items) }
    ensures err { IfErr result (λ fault. fault ≡ NoMemory) }
{
    let workers = crew.workers as usize;
    route(
        rt,
        workers,
        alloc,
        tree,
        &BatchWithEnds::new(commands, ends),
    )
}

// Whether scans and wipes may have to skip many changes that the batch made to their leaves before. The result affects
// only the cost.
fn is_costly(commands: &[Command<Global>], page_runs: &[PageRun], pages: usize) -> bool {
    if !commands.iter().any(|command| command.is_ranged()) {
        return false;
    }
    let room = commands.len().saturating_add(pages).saturating_mul(64);
    let mut steps: usize = 0;
    for page_run in page_runs {
        steps = steps.saturating_add(most_steps(commands, page_run.places()));
    }
    steps > room
}

// Returns how many changes the scans and wipes of a leaf skip at most: each of them one for each command that writes.
fn most_steps(commands: &[Command<Global>], places: &[usize]) -> usize {
    let mut ranged: usize = 0;
    let mut writing: usize = 0;
    for place in places {
        match commands.get(*place) {
            Some(Command::Scan(_, _, _) | Command::Wipe(_, _)) => ranged = ranged.saturating_add(1),
            Some(Command::Get(_)) | None => {}
            Some(_) => writing = writing.saturating_add(1),
        }
    }
    ranged.saturating_mul(writing)
}

// `execute` for a batch whose scans and wipes would visit many leaves or changes in vain. A map of all pairs executes
// the commands one after the other. Then commands on one key each, which have the same net run, change the tree. This
// takes time and memory for each pair of the tree.
fn execute_by_map(
    rt: &(impl Threads + Sync),
    crew: Crew,
    gate: &impl Gate,
    work: &LeafWork<'_>,
    tree: &mut Tree<Global>,
) -> Result<Vec<Reply<Global>>, Fault>
    requires sound { IsSoundInMemory work.now.settings tree.old }
    requires short { AreShort work.now.settings work.now.commands.now }
    ensures replies { IfOk result (λ replies. replies.items
        ≡ replies_to (contents (tree_of tree.old)) work.now.commands.now) }
    ensures tree { OnOk result (tree_of tree.new
        ≡ planned_tree work.now.settings (tree_of tree.old) work.now.commands.now) }
    ensures contents { OnOk result (contents (tree_of tree.new)
        ≡ map_after_all (contents (tree_of tree.old)) work.now.commands.now) }
    ensures sound { IsSoundInMemory work.now.settings tree.new }
    ensures err { OnErr result (tree.new ≡ tree.old) }
    ensures fault { IfErr result
        (IsLaterFault work.now.settings (tree_of tree.old) work.now.commands.now) }
{
    let (replies, points) = replies_and_points(work.alloc, tree, work.commands)?;
    let change = LeafWork {
        alloc: work.alloc,
        settings: work.settings,
        commands: &points,
    };
    change_by_points(rt, crew, gate, &change, tree)?;
    Ok(replies)
}

// Executes commands on one key each, and drops the replies.
fn change_by_points(
    rt: &(impl Threads + Sync),
    crew: Crew,
    gate: &impl Gate,
    work: &LeafWork<'_>,
    tree: &mut Tree<Global>,
) -> Result<(), Fault>
    requires sound { IsSoundInMemory work.now.settings tree.old }
    requires short { AreShort work.now.settings work.now.commands.now }
    ensures tree { OnOk result (tree_of tree.new
        ≡ planned_tree work.now.settings (tree_of tree.old) work.now.commands.now) }
    ensures contents { OnOk result (contents (tree_of tree.new)
        ≡ map_after_all (contents (tree_of tree.old)) work.now.commands.now) }
    ensures sound { IsSoundInMemory work.now.settings tree.new }
    ensures err { OnErr result (tree.new ≡ tree.old) }
    ensures fault { IfErr result
        (IsLaterFault work.now.settings (tree_of tree.old) work.now.commands.now) }
{
    let page_runs = routes_with_ends(
        rt,
        crew,
        work.alloc,
        tree,
        work.commands,
        Vec::new(work.alloc),
    )?;
    let _replies = execute_routed(rt, crew, gate, work, tree, page_runs)?;
    Ok(())
}

// Returns the replies to the commands, and commands on one key each that make the same changes.
fn replies_and_points(
    alloc: Global,
    tree: &Tree<Global>,
    commands: &[Command<Global>],
) -> Result<(Vec<Reply<Global>>, Vec<Command<Global>>), AllocError>
    requires home { AreAllHome tree.now }
    requires height { tree.now.height ≤ most_levels }
    requires held { HoldsItsLevels (tree_of tree.now) }
    requires levels { AreLevels (levels_of (tree_of tree.now)) }
    ensures replies { IfOk result
        (λ r. r.0.items ≡ replies_to (contents (tree_of tree.now)) commands.now) }
    ensures points { IfOk result
        (λ r. r.1.items ≡ points_of (contents (tree_of tree.now)) commands.now) }
{
    let map = map_of(alloc, tree)?;
    execute_in_turn(alloc, map, commands)
}

// Returns a map of the tree's pairs, borrowed from the tree.
fn map_of<'a>(alloc: Global, tree: &'a Tree<Global>) -> Result<LentMap<'a>, AllocError>
    requires home { AreAllHome tree.now }
    requires height { tree.now.height ≤ most_levels }
    requires held { HoldsItsLevels (tree_of tree.now) }
    requires levels { AreLevels (levels_of (tree_of tree.now)) }
    ensures { IfOk result (λ map. map ≡ contents (tree_of tree.now)) }
{
    let mut map = LentMap::new(alloc);
    for (key, value) in Rows::with_prefix(alloc, tree, &[]) {
        let _there = map.insert(key, value)?;
    }
    Ok(map)
}

// `execute`, after the commands were routed to their leaves.
fn execute_routed(
    rt: &(impl Threads + Sync),
    crew: Crew,
    gate: &impl Gate,
    work: &LeafWork<'_>,
    tree: &mut Tree<Global>,
    page_runs: Vec<PageRun>,
) -> Result<Vec<Reply<Global>>, Fault>
    requires sound { IsSoundInMemory work.now.settings tree.old }
    requires short { AreShort work.now.settings work.now.commands.now }
    requires routed { AreRoutesFor (tree_of tree.old) work.now.commands.now page_runs.items }
    ensures replies { IfOk result (λ replies. replies.items
        ≡ replies_to (contents (tree_of tree.old)) work.now.commands.now) }
    ensures tree { OnOk result (tree_of tree.new
        ≡ planned_tree work.now.settings (tree_of tree.old) work.now.commands.now) }
    ensures contents { OnOk result (contents (tree_of tree.new)
        ≡ map_after_all (contents (tree_of tree.old)) work.now.commands.now) }
    ensures sound { IsSoundInMemory work.now.settings tree.new }
    ensures err { OnErr result (tree.new ≡ tree.old) }
    ensures fault { IfErr result
        (IsLaterFault work.now.settings (tree_of tree.old) work.now.commands.now) }
{
    // Only for the proof.
    the_plan_holds_the_map_after_the_commands::<Global>();
    the_plan_of_a_proper_store_is_proper::<Global>();
    the_log_states_stay_true::<Global>();
    pairs_can_be_counted(&work.settings, tree, work.commands);
    let mut leaves = Vec::with_capacity(work.alloc, page_runs.len())?;
    let dones = work_leaves(rt, crew, gate, work, tree, page_runs)?;
    let replies = take_replies(work.alloc, work.commands, dones, &mut leaves);
    match finish(rt, crew, gate, work, tree, replies, leaves) {
        Ok(replies) => Ok(replies),
        Err((fault, leaves)) => {
            undo_leaves(work, tree, leaves);
            Err(fault)
        }
    }
}

// `execute_routed` for commands that only read: their leaves stay in the tree.
fn read_routed(
    rt: &(impl Threads + Sync),
    crew: Crew,
    gate: &impl Gate,
    work: &LeafWork<'_>,
    tree: &mut Tree<Global>,
    page_runs: Vec<PageRun>,
) -> Result<Vec<Reply<Global>>, Fault>
    requires sound { IsSoundInMemory work.now.settings tree.old }
    requires short { AreShort work.now.settings work.now.commands.now }
    requires routed { AreRoutesFor (tree_of tree.old) work.now.commands.now page_runs.items }
    requires looks { list_all is_read_only work.now.commands.now ≡ true }
    ensures replies { IfOk result (λ replies. replies.items
        ≡ replies_to (contents (tree_of tree.old)) work.now.commands.now) }
    ensures tree { OnOk result (tree_of tree.new
        ≡ planned_tree work.now.settings (tree_of tree.old) work.now.commands.now) }
    ensures contents { OnOk result (contents (tree_of tree.new)
        ≡ map_after_all (contents (tree_of tree.old)) work.now.commands.now) }
    ensures sound { IsSoundInMemory work.now.settings tree.new }
    ensures err { OnErr result (tree.new ≡ tree.old) }
    ensures fault { IfErr result
        (IsLaterFault work.now.settings (tree_of tree.old) work.now.commands.now) }
{
    // Only for the proof.
    the_plan_holds_the_map_after_the_commands::<Global>();
    the_plan_of_a_proper_store_is_proper::<Global>();
    the_log_states_stay_true::<Global>();
    pairs_can_be_counted(&work.settings, tree, work.commands);
    let reading = ReadWork {
        alloc: work.alloc,
        commands: work.commands,
        tree,
    };
    let replies = read_replies(rt, crew, gate, &reading, page_runs);
    let none = no_leaves(work.alloc);
    match finish(rt, crew, gate, work, tree, replies, none) {
        Ok(replies) => Ok(replies),
        Err((fault, _none)) => Err(fault),
    }
}

// No leaves. Does not allocate.
fn no_leaves(alloc: Global) -> Vec<LeafDone>
    ensures { result.items ≡ [] }
{
    Vec::new(alloc)
}

/// Shows that a sound tree, even with one more pair per command, has no more pairs than a reply can count. Only for the
/// proof.
pub(crate) fn pairs_can_be_counted(
    settings: &Settings,
    tree: &Tree<Global>,
    commands: &[Command<Global>],
)
    requires { IsSoundInMemory settings.now tree.now }
    ensures { length (contents (tree_of tree.now)) + length commands.now ≤ most_counted }
{
    let _pages = tree.most_pages();
    let _count = count_of(commands);
}

// The number of commands, as a number of 64 bits. Only for the proof.
fn count_of(commands: &[Command<Global>]) -> usize
    ensures { result ≡ length commands.now }
{
    commands.len()
}

// Collects the replies, and climbs from these leaves, which were checked out and updated. If either fails, the tree is
// unchanged and the leaves are returned.
fn finish(
    rt: &(impl Threads + Sync),
    crew: Crew,
    gate: &impl Gate,
    work: &LeafWork<'_>,
    tree: &mut Tree<Global>,
    replies: Result<Vec<Reply<Global>>, AllocError>,
    leaves: Vec<LeafDone>,
) -> Result<Vec<Reply<Global>>, (Fault, Vec<LeafDone>)>
    requires fan { 1 < work.now.settings.fan }
    requires ready { (t : definitions.Tree) × (cs : List (Command Global)) ×
        IsReady work.now.settings t cs tree.old (leaves_seen leaves.items) }
    requires height { tree.old.height ≤ most_levels }
    ensures replies { IfOk result (λ now. IsOkAnd replies (λ before. now.items ≡ before.items)) }
    ensures planned { OnOk result ((t : definitions.Tree) (cs : List (Command Global)) →
        IsReady work.now.settings t cs tree.old (leaves_seen leaves.items) →
        AreAllHome tree.new × (tree_of tree.new ≡ planned_tree work.now.settings t cs)) }
    ensures low { OnOk result (tree.new.height ≤ most_levels) }
    ensures back { IfErr result (λ e. e.1.items ≡ leaves.items) }
    ensures err { OnErr result (tree.new ≡ tree.old) }
    ensures fault { IfErr result (λ e. (t : definitions.Tree) (cs : List (Command Global)) →
        IsReady work.now.settings t cs tree.old (leaves_seen leaves.items) →
        IsLaterFault work.now.settings t cs e.0) }
{
    let Ok(replies) = replies else {
        return Err((Fault::NoMemory, leaves));
    };
    match climb(rt, crew, gate, work.alloc, &work.settings, tree, leaves) {
        Ok(()) => Ok(replies),
        Err((refused, leaves)) => Err((fault_of(refused), leaves)),
    }
}

/// The fault for a climb that failed.
pub(crate) fn fault_of(refused: Refused) -> Fault
    ensures { result ≡ fault_by refused }
{
    match refused {
        Refused::NoMemory => Fault::NoMemory,
        Refused::TooHigh => Fault::Spent,
    }
}
