//! A batch of one command on one key: one descent to its leaf, which is updated and put back. No list is sorted, split
//! or merged for it.
ghost use Rattle.std.specs.Prelude.{◌≡◌, ℕ, ◌+◌, ◌≤◌, ◌<◌, List, ◌∷◌, [], false, length, slice_get, Some, None, IfOk, IfErr, OnOk, OnErr};
ghost use Rattle.keys.specs.CommandKey.{is_ranged};
ghost use Rattle.keys.specs.Step.{replies_to, map_after_all};
ghost use Rattle.keys.specs.declared.command.Command.{Command};
ghost use Rattle.index_page.specs.Page.PageOfKind.{Leaf};
ghost use Rattle.mapping.specs.Levels.{contents, levels_of};
ghost use Rattle.mapping.specs.Proper.{AreLevels, HoldsItsLevels};
ghost use Rattle.mapping.specs.Table.{place_of, with_place};
ghost use Rattle.mapping.specs.Tree as definitions;
ghost use Rattle.mapping.specs.Tree.{most_levels};
ghost use Rattle.mapping.specs.TreeInMemory.{AreAllHome, tree_of};
ghost use Rattle.replies.specs.ByPlace.{AreAnswers, most_counted, reply_at};
ghost use Rattle.climb_plan.specs.Changing.{page_seen};
ghost use Rattle.climb_plan.specs.Limits.{AreShort};
ghost use Rattle.climb_plan.specs.Plan.{planned_tree};
ghost use Rattle.climb_plan.specs.Ready.{IsReady};
ghost use Rattle.engine.specs.Batch.{IsLaterFault};
ghost use Rattle.engine.specs.OnlyRoute.{IsOnlyRoute, IsOnlyLeaf, is_quiet};
ghost use Rattle.engine.specs.SoundTree.{IsSoundInMemory};

use crate::execute::{fault_of, pairs_can_be_counted};
use crate::leaves::{put_leaf_back, undo_leaves};
use climb_plan::climb;
use climb_plan::laws::{
    commands_that_come_to_nothing_change_nothing, the_log_states_stay_true,
    the_plan_holds_the_map_after_the_commands, the_plan_of_a_proper_store_is_proper,
};
use crew::{Crew, Gate, Turn, Work};
use keys::{Command, Fault, Pid, Pieces, Reply};
use mapping::Tree;
use page_runs::{Class, LeafDone, LeafJob, LeafWork, ReadWork, is_only_read};
use replies::{add_answers, blank_replies};
use routing::PageRun;
use std::alloc::{AllocError, Global};
use std::thread::Threads;

/// Executes a batch of this one command, which is on one key. Has the effect of `execute`. The gate is called for one
/// piece, as in a round of one leaf, and if the leaf was replaced, for the pieces of the climb.
pub(crate) fn execute_one(
    rt: &(impl Threads + Sync),
    crew: Crew,
    gate: &impl Gate,
    work: &LeafWork<'_>,
    tree: &mut Tree<Global>,
    command: &Command<Global>,
) -> Result<Vec<Reply<Global>>, Fault>
    requires sound { IsSoundInMemory work.now.settings tree.old }
    requires short { AreShort work.now.settings work.now.commands.now }
    requires one { work.now.commands.now ≡ command.now ∷ [] }
    requires point { is_ranged command.now ≡ false }
    ensures replies { IfOk result (λ replies. replies.items
        ≡ replies_to (contents (tree_of tree.old)) work.now.commands.now) }
    ensures tree { OnOk result (tree_of tree.new
        ≡ planned_tree work.now.settings (tree_of tree.old) work.now.commands.now) }
    ensures contents { OnOk result (contents (tree_of tree.new)
        ≡ map_after_all (contents (tree_of tree.old)) work.now.commands.now) }
    ensures sound { IsSoundInMemory work.now.settings tree.new }
    ensures err { OnErr result (tree.new ≡ tree.old) }
    ensures fault { IfErr result
        (IsLaterFault work.now.settings (tree_of tree.old) work.now.commands.now) }
{
    // Only for the proof.
    commands_that_come_to_nothing_change_nothing::<Global>();
    the_plan_holds_the_map_after_the_commands::<Global>();
    the_plan_of_a_proper_store_is_proper::<Global>();
    the_log_states_stay_true::<Global>();
    pairs_can_be_counted(&work.settings, tree, work.commands);
    let page_run = PageRun::of_one(work.alloc, leaf_of(tree, command), 0);
    gate.enter(0);
    if is_only_read(work.commands, &page_run) {
        let replies = read_leaf(work, tree, page_run)?;
        return Ok(replies);
    }
    change_leaf(rt, crew, gate, work, tree, page_run)
}

// The page id of the leaf that the command goes to.
fn leaf_of(tree: &Tree<Global>, command: &Command<Global>) -> Pid
    requires home { AreAllHome tree.now }
    requires held { HoldsItsLevels (tree_of tree.now) }
    requires levels { AreLevels (levels_of (tree_of tree.now)) }
    requires point { is_ranged command.now ≡ false }
    ensures { IsOnlyLeaf (tree_of tree.now) command.now result }
{
    tree.leaf_for(command.key().as_bytes())
}

// The replies, if the command only reads. Its leaf stays in the tree.
fn read_leaf(
    work: &LeafWork<'_>,
    tree: &Tree<Global>,
    page_run: PageRun,
) -> Result<Vec<Reply<Global>>, AllocError>
    requires sound { IsSoundInMemory work.now.settings tree.now }
    requires only { IsOnlyRoute (tree_of tree.now) work.now.commands.now page_run }
    requires few { length (contents (tree_of tree.now)) + length work.now.commands.now
        ≤ most_counted }
    ensures { IfOk result (λ replies. replies.items
        ≡ replies_to (contents (tree_of tree.now)) work.now.commands.now) }
{
    let reading = ReadWork {
        alloc: work.alloc,
        commands: work.commands,
        tree,
    };
    match reading.work(page_run) {
        Turn::Done(read) => replies_of(work.alloc, work.commands, read.into_pieces()),
        Turn::Back(_page_run) => Err(AllocError),
    }
}

// The replies to the commands, from these pieces.
fn replies_of(
    alloc: Global,
    commands: &[Command<Global>],
    pieces: Pieces<Global>,
) -> Result<Vec<Reply<Global>>, AllocError>
    requires { AreAnswers commands.now pieces }
    ensures { IfOk result (λ replies. (place : ℕ) →
        slice_get replies.items place ≡ reply_at commands.now pieces place) }
{
    let mut replies = blank_replies(alloc, commands)?;
    add_answers(&mut replies, commands, pieces)?;
    Ok(replies)
}

// The replies, if the command may change its leaf: the leaf is checked out, updated and put back. If that fails, the
// tree is unchanged.
fn change_leaf(
    rt: &(impl Threads + Sync),
    crew: Crew,
    gate: &impl Gate,
    work: &LeafWork<'_>,
    tree: &mut Tree<Global>,
    page_run: PageRun,
) -> Result<Vec<Reply<Global>>, Fault>
    requires sound { IsSoundInMemory work.now.settings tree.old }
    requires only { IsOnlyRoute (tree_of tree.old) work.now.commands.now page_run }
    requires few { length (contents (tree_of tree.old)) + length work.now.commands.now
        ≤ most_counted }
    ensures replies { IfOk result (λ replies. replies.items
        ≡ replies_to (contents (tree_of tree.old)) work.now.commands.now) }
    ensures planned { OnOk result (AreAllHome tree.new
        × (tree_of tree.new ≡ planned_tree work.now.settings
        (tree_of tree.old) work.now.commands.now)) }
    ensures low { OnOk result (tree.new.height ≤ most_levels) }
    ensures err { OnErr result (tree.new ≡ tree.old) }
    ensures fault { IfErr result
        (IsLaterFault work.now.settings (tree_of tree.old) work.now.commands.now) }
{
    let page = tree.take(page_run.pid());
    match work.work(LeafJob { page, page_run }) {
        Turn::Done(done) => bring_home(rt, crew, gate, work, tree, done),
        Turn::Back(job) => {
            put_leaf_back(tree, job);
            Err(Fault::NoMemory)
        }
    }
}

// The replies of the leaf, which was checked out and updated. It is put back into its place if no other page has to
// change with it; otherwise the climb begins at it. If that fails, the original leaf is back in its place.
fn bring_home(
    rt: &(impl Threads + Sync),
    crew: Crew,
    gate: &impl Gate,
    work: &LeafWork<'_>,
    tree: &mut Tree<Global>,
    mut done: LeafDone,
) -> Result<Vec<Reply<Global>>, Fault>
    requires fan { 1 < work.now.settings.fan }
    requires answered { AreAnswers work.now.commands.now done.made.pieces }
    requires ready { (t : definitions.Tree) × (cs : List (Command Global)) ×
        IsReady work.now.settings t cs tree.old (page_seen Leaf done.made.updated ∷ []) }
    requires away { place_of tree.old.table done.held.route.pid ≡ Some None }
    requires same { done.made.updated.placed.pid ≡ done.held.route.pid }
    requires height { tree.old.height ≤ most_levels }
    ensures replies { IfOk result (λ replies. (place : ℕ) →
        slice_get replies.items place ≡ reply_at work.now.commands.now done.made.pieces place) }
    ensures planned { OnOk result ((t : definitions.Tree) (cs : List (Command Global)) →
        IsReady work.now.settings t cs tree.old (page_seen Leaf done.made.updated ∷ []) →
        AreAllHome tree.new × (tree_of tree.new ≡ planned_tree work.now.settings t cs)) }
    ensures low { OnOk result (tree.new.height ≤ most_levels) }
    ensures back { OnErr result (tree.new ≡ record tree.old {
      table = with_place tree.old.table done.held.route.pid (Some done.held.page);
    }) }
    ensures fault { IfErr result (λ fault. (t : definitions.Tree) (cs : List (Command Global)) →
        IsReady work.now.settings t cs tree.old (page_seen Leaf done.made.updated ∷ []) →
        IsLaterFault work.now.settings t cs fault) }
{
    let Ok(replies) = take_reply(work, &mut done) else {
        put_leaf_back(tree, work.undo(done));
        return Err(Fault::NoMemory);
    };
    if is_quiet(&done) {
        put_home(tree, done);
        return Ok(replies);
    }
    match climb_from(rt, crew, gate, work, tree, done) {
        Ok(()) => Ok(replies),
        Err(fault) => Err(fault),
    }
}

// Takes the reply out of the leaf's result; everything else is unchanged.
fn take_reply(work: &LeafWork<'_>, done: &mut LeafDone) -> Result<Vec<Reply<Global>>, AllocError>
    requires { AreAnswers work.now.commands.now done.old.made.pieces }
    ensures replies { IfOk result (λ replies. (place : ℕ) →
        slice_get replies.items place ≡ reply_at work.now.commands.now done.old.made.pieces place) }
    ensures held { done.new.held ≡ done.old.held }
    ensures updated { done.new.made.updated ≡ done.old.made.updated }
{
    replies_of(work.alloc, work.commands, done.take_pieces())
}

// Whether the leaf was not replaced, so that its parent need not change.
fn is_quiet(done: &LeafDone) -> bool
    ensures { result ≡ is_quiet done.now.made.updated }
{
    !done.is_replaced() && !matches!(done.class(), Class::Thin | Class::Fat)
}

// Puts the leaf into its place after its run.
fn put_home(tree: &mut Tree<Global>, done: LeafDone)
    requires { place_of tree.old.table done.made.updated.placed.pid ≡ Some None }
    ensures { tree.new ≡ record tree.old {
      table = with_place tree.old.table done.made.updated.placed.pid
          (Some (Leaf done.made.updated.placed.page));
    } }
{
    let pid = done.pid();
    let (page, _rest) = done.into_page_and_rest();
    tree.put(pid, page);
}

// Climbs from the leaf, which was checked out and updated. If that fails, the original leaf is back in its place.
fn climb_from(
    rt: &(impl Threads + Sync),
    crew: Crew,
    gate: &impl Gate,
    work: &LeafWork<'_>,
    tree: &mut Tree<Global>,
    done: LeafDone,
) -> Result<(), Fault>
    requires fan { 1 < work.now.settings.fan }
    requires ready { (t : definitions.Tree) × (cs : List (Command Global)) ×
        IsReady work.now.settings t cs tree.old (page_seen Leaf done.made.updated ∷ []) }
    requires away { place_of tree.old.table done.held.route.pid ≡ Some None }
    requires height { tree.old.height ≤ most_levels }
    ensures planned { OnOk result ((t : definitions.Tree) (cs : List (Command Global)) →
        IsReady work.now.settings t cs tree.old (page_seen Leaf done.made.updated ∷ []) →
        AreAllHome tree.new × (tree_of tree.new ≡ planned_tree work.now.settings t cs)) }
    ensures low { OnOk result (tree.new.height ≤ most_levels) }
    ensures back { OnErr result (tree.new ≡ record tree.old {
      table = with_place tree.old.table done.held.route.pid (Some done.held.page);
    }) }
    ensures fault { IfErr result (λ fault. (t : definitions.Tree) (cs : List (Command Global)) →
        IsReady work.now.settings t cs tree.old (page_seen Leaf done.made.updated ∷ []) →
        IsLaterFault work.now.settings t cs fault) }
{
    let Ok(mut leaves) = Vec::with_capacity(work.alloc, 1) else {
        put_leaf_back(tree, work.undo(done));
        return Err(Fault::NoMemory);
    };
    leaves.push_reserved(done);
    match climb(rt, crew, gate, work.alloc, &work.settings, tree, leaves) {
        Ok(()) => Ok(()),
        Err((refused, leaves)) => {
            undo_leaves(work, tree, leaves);
            Err(fault_of(refused))
        }
    }
}
