//! Laws about sequences of batches, flushes, cleans and upgrades, in terms of the single calls. Each law is the
//! contract of a function with an empty body.
ghost use Rattle.std.specs.Prelude.{◌≡◌, ◌≢◌, ◌^◌, ◌<◌, ◌≤◌, ◌↔◌, ℕ, List, [], ◌∷◌, length, slice_get, take, None, Some, Ok, Err};
ghost use Rattle.std.specs.List.{AllByRecursion};
ghost use Rattle.keys.specs.Bytes.{Bytes, Pairs};
ghost use Rattle.keys.specs.Limits.{first_bad_field};
ghost use Rattle.keys.specs.Lists.{flat};
ghost use Rattle.keys.specs.OrderedMap.{value_at};
ghost use Rattle.keys.specs.Range.{rows};
ghost use Rattle.keys.specs.Step.{reply_to, replies_to, map_after_all};
ghost use Rattle.keys.specs.declared.command.Command.{Command};
ghost use Rattle.keys.specs.declared.fault.Fault.TheVariants.{NotAStore};
ghost use Rattle.keys.specs.declared.settings.Settings.{Settings};
ghost use Rattle.mapping.specs.Levels.{contents};
ghost use Rattle.mapping.specs.Proper.{AreLogsTrue, IsProper};
ghost use Rattle.mapping.specs.Tree.{Tree, Store};
ghost use Rattle.climb_plan.specs.Limits.{AreShort};
ghost use Rattle.climb_plan.specs.Plan.{plan, planned_tree};
ghost use Rattle.flush_log.specs.SettingsBlock.{store_magic};
ghost use Rattle.recovery.specs.InStep.{IsStore, IsStoreOf};
ghost use Rattle.recovery.specs.StoreOfDisk.{store_of_disk};
ghost use Rattle.engine.specs.Batch.{refusal_by};
ghost use Rattle.engine.specs.Batches.{replies_in_turn, map_in_turn, tree_in_turn};
ghost use Rattle.engine.specs.Steps.{Step, AllNumbersFit, KeepsStores, ArePlayed, batching, plays};
ghost use Rattle.engine.specs.Tokens.{most_rows, row_counts};

use crate::step_laws::steps_are_played_one_by_one;
use climb_plan::laws::{
    the_log_states_stay_true, the_plan_holds_the_map_after_the_commands,
    the_plan_of_a_proper_store_is_proper, what_the_log_has_of_a_page_stays_true,
};
use std::alloc::Allocator;

/// The value of a store's tree at a key is the first row from that key on, if that row has the key: so `get` and a
/// `range` with limit 1 return the same.
pub fn a_value_is_the_first_row_from_its_key()
    ensures { (s : Settings) (t : Tree) (k v : Bytes) → IsProper s t →
        ((value_at k (contents t) ≡ Some v) ↔ (rows k None 1 (contents t) ≡ (k, v) ∷ [])) }
{}

/// A token finds the reply to its command, on the map that the earlier commands of the batch left (`IsAdded` says that
/// a token is the place of a command in its batch).
pub fn a_token_finds_its_reply<A: Allocator>()
    ensures { (m : Pairs Bytes) (cs : List (Command A)) (token : ℕ) (c : Command A) →
        slice_get cs token ≡ Some c →
        slice_get (replies_to m cs) token ≡ Some (reply_to (map_after_all m (take token cs)) c) }
{}

/// The replies to a batch have together at most as many rows as the limits of its scans add up to.
pub fn a_batch_returns_at_most_its_rows<A: Allocator>()
    ensures { (m : Pairs Bytes) (cs : List (Command A)) →
        row_counts (replies_to m cs) ≤ most_rows cs }
{}

/// A disk whose bytes do not begin with the magic word of a settings block has no store, whatever its other bytes are.
/// So a store comes into existence with its first byte, which is written last.
pub fn a_disk_without_the_first_word_holds_no_store()
    ensures { (file : Bytes) → take (length store_magic) file ≢ store_magic →
        store_of_disk file ≡ Err NotAStore }
{}

/// Batches that are executed one after the other have the same replies and the same resulting map as one batch of all
/// their commands: how a list of commands is split into batches makes no difference.
pub fn batches_are_their_commands_joined<A: Allocator>()
    ensures replies { (m : Pairs Bytes) (batches : List (List (Command A))) →
        flat (replies_in_turn m batches) ≡ replies_to m (flat batches) }
    ensures map { (m : Pairs Bytes) (batches : List (List (Command A))) →
        map_in_turn m batches ≡ map_after_all m (flat batches) }
{}

/// After batches were executed one after the other on a proper tree, the tree has the map that results from them in
/// order. It is proper again, and its log states are true.
pub fn batches_are_planned_in_turn<A: Allocator>()
    ensures contents { (s : Settings) (t : Tree) (batches : List (List (Command A))) →
        first_bad_field s ≡ None → IsProper s t → AllByRecursion (AreShort s) batches →
        contents (tree_in_turn s t batches) ≡ map_in_turn (contents t) batches }
    ensures proper { (s : Settings) (t : Tree) (batches : List (List (Command A))) →
        first_bad_field s ≡ None → IsProper s t → AllByRecursion (AreShort s) batches →
        IsProper s (tree_in_turn s t batches) }
    ensures logs { (s : Settings) (t : Tree) (batches : List (List (Command A))) →
        first_bad_field s ≡ None → IsProper s t → AllByRecursion (AreShort s) batches →
        AreLogsTrue t → AreLogsTrue (tree_in_turn s t batches) }
{
    the_plan_holds_the_map_after_the_commands::<A>();
    the_plan_of_a_proper_store_is_proper::<A>();
    the_log_states_stay_true::<A>();
}

/// A batch that is not refused leaves the store in step with the bytes of its disk, which it does not touch, and keeps
/// the invariant of stores, whatever the disk does. The root's page id has 64 bits, as it has in memory.
pub fn a_batch_stays_in_step<A: Allocator>()
    ensures step { (s : Settings) (st : Store) (file : Bytes) (cs : List (Command A)) →
        IsStoreOf s st file → refusal_by s st.tree cs ≡ None →
        (planned_tree s st.tree cs).root < 2 ^ 64 → IsStoreOf s (plan s st cs) file }
    ensures kept { (s : Settings) (st : Store) (cs : List (Command A)) → IsStore s st →
        refusal_by s st.tree cs ≡ None → (planned_tree s st.tree cs).root < 2 ^ 64 →
        IsStore s (plan s st cs) }
    ensures batches { (s : Settings) → KeepsStores {A = A} s (batching s) }
{
    the_plan_holds_the_map_after_the_commands::<A>();
    the_plan_of_a_proper_store_is_proper::<A>();
    the_log_states_stay_true::<A>();
    what_the_log_has_of_a_page_stays_true::<A>();
}

/// Batches, flushes, cleans and upgrades, one after the other, up to the first one that is refused: the replies are
/// those of an ordered map, and the disk encodes the store of the last flush or upgrade, with the present head, tail,
/// number and version. All intermediate numbers have 64 bits, as they have in memory.
pub fn steps_answer_as_a_map_and_are_read_back<A: Allocator>()
    ensures { (s : Settings) (st on_disk : Store) (file : Bytes) (steps : List (Step A)) →
        IsStoreOf s st file → store_of_disk file ≡ Ok (s, on_disk) →
        AllNumbersFit (batching s) s st file steps →
        ArePlayed (batching s) s st.tree on_disk.tree steps (plays (batching s) s st file steps) }
{
    a_batch_stays_in_step::<A>();
    steps_are_played_one_by_one::<A>();
}
