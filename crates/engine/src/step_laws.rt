//! Laws about steps that are played one after the other, and about crashes during a play. Each law is the contract of a
//! function with an empty body.
ghost use Rattle.std.specs.Prelude.{◌≡◌, ◌⊎◌, List, ◌++◌, None, Ok};
ghost use Rattle.keys.specs.Bytes.{Bytes};
ghost use Rattle.keys.specs.declared.settings.Settings.{Settings};
ghost use Rattle.mapping.specs.Tree.{Store};
ghost use Rattle.flush_log.specs.Commit.{LeftDuring};
ghost use Rattle.recovery.specs.InStep.{IsStoreOf};
ghost use Rattle.recovery.specs.StoreOfDisk.{store_of_disk};
ghost use Rattle.engine.specs.Steps.{Step, Answer, Batching, NumbersFit, AllNumbersFit, KeepsStores, ArePlayed, LeftInPlay, StandsAfterSome, after_step, plays, plays_further, step_calls};

use std::alloc::Allocator;

/// For any sequence of batches, flushes, cleans and upgrades, up to the first one that is refused: the replies are
/// those of an ordered map that executes the commands one by one, and the disk encodes the tree of the last flush or
/// upgrade, or if there was none, the tree that it encoded before. This holds whatever a batch does to the tree, as
/// long as it keeps the invariant of stores.
pub fn steps_are_played_one_by_one<A: Allocator>()
    ensures { (b : Batching A) (s : Settings) (steps : List (Step A))
        (st on_disk : Store) (file : Bytes) →
        KeepsStores s b → store_of_disk file ≡ Ok (s, on_disk) → IsStoreOf s st file →
        AllNumbersFit b s st file steps →
        ArePlayed b s st.tree on_disk.tree steps (plays b s st file steps) }
{}

/// Two lists of steps that are joined are played one after the other: the answers and the results of the second list
/// are those of playing it on the result of the first one; if a step of the first list is refused, the second list is
/// not played.
pub fn steps_that_are_joined_are_played_in_turn<A: Allocator>()
    ensures joined { (b : Batching A) (s : Settings) (st : Store)
        (file : Bytes) (xs ys : List (Step A)) →
        plays b s st file (xs ++ ys) ≡ plays_further b s (plays b s st file xs) ys }
    ensures words { (b : Batching A) (s : Settings) (st : Store)
        (file : Bytes) (xs ys : List (Step A)) →
        AllNumbersFit b s st file xs →
        ((plays b s st file xs).fault ≡ None →
        AllNumbersFit b s (plays b s st file xs).store (plays b s st file xs).bytes ys) →
        AllNumbersFit b s st file (xs ++ ys) }
{}

/// A crash at any moment of a play leaves a disk that encodes the store after some number of its steps, at most as many
/// as are played. During one step it leaves the store before the step, or the bytes after it. A store after some of the
/// steps is also one after some steps of a longer play, and so is the store after all steps.
pub fn a_crash_in_a_play_leaves_the_store_after_some_steps<A: Allocator>()
    ensures play { (b : Batching A) (s : Settings) (st : Store)
        (file c : Bytes) (steps : List (Step A)) →
        KeepsStores s b → IsStoreOf s st file → AllNumbersFit b s st file steps →
        LeftInPlay b s st file steps c → StandsAfterSome b s st file steps c }
    ensures step { (b : Batching A) (s : Settings) (st now : Store) (file bytes c : Bytes)
        (x : Step A) (a : Answer A) →
        KeepsStores s b →
        IsStoreOf s st file → NumbersFit b s st x → after_step b s st file x ≡ Ok (a, (now, bytes)) →
        LeftDuring (step_calls s st file x) file c →
        (store_of_disk c ≡ store_of_disk file) ⊎ (c ≡ bytes) }
    ensures kept { (b : Batching A) (s : Settings) (st now : Store) (file bytes : Bytes)
        (x : Step A) (a : Answer A) →
        KeepsStores s b → IsStoreOf s st file → NumbersFit b s st x →
        after_step b s st file x ≡ Ok (a, (now, bytes)) → IsStoreOf s now bytes }
    ensures later { (b : Batching A) (s : Settings) (st : Store)
        (file c : Bytes) (xs ys : List (Step A)) →
        StandsAfterSome b s st file xs c → StandsAfterSome b s st file (xs ++ ys) c }
    ensures last { (b : Batching A) (s : Settings) (st : Store)
        (file c : Bytes) (steps : List (Step A)) →
        store_of_disk c ≡ store_of_disk (plays b s st file steps).bytes →
        StandsAfterSome b s st file steps c }
{}
