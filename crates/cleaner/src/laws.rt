//! Laws about the definitions of `specs/`. Each law is the contract of a function with an empty body.
ghost use Rattle.std.specs.Prelude.{◌≡◌, ◌⊎◌, suc, List, Ok};
ghost use Rattle.keys.specs.Bytes.{Bytes};
ghost use Rattle.keys.specs.declared.settings.Settings.{Settings};
ghost use Rattle.mapping.specs.Tree.{Store, with_tree};
ghost use Rattle.flush_log.specs.AfterFlush.{slot_of};
ghost use Rattle.flush_log.specs.Commit.{LeftDuring, IsUncommitted};
ghost use Rattle.flush_log.specs.Layout.{spans};
ghost use Rattle.flush_log.specs.Reading.{Found, log};
ghost use Rattle.recovery.specs.InStep.{AreInStep, IsInStep, IsStore, IsStoreOf};
ghost use Rattle.recovery.specs.StoreOfDisk.{store_of_disk};
ghost use Rattle.cleaner.specs.AfterClean.{after_clean, clean_calls};
ghost use Rattle.cleaner.specs.CleanText.{clean_frames};

/// A clean keeps the store: the disk afterwards encodes the same tree as before, with the head, tail and number that
/// the clean commits. The tree in memory is unchanged, including what was not flushed, and in step with the disk, and
/// the log keeps its version. Whatever the disk does, the store satisfies the invariant of stores.
pub fn a_clean_keeps_the_store()
    ensures disk { (s : Settings) (st on_disk now : Store) (file bytes : Bytes) →
        store_of_disk file ≡ Ok (s, on_disk) → AreInStep st on_disk →
        after_clean s st file ≡ Ok (now, bytes) →
        (store_of_disk bytes ≡ Ok (s, with_tree now on_disk.tree)) × IsInStep s now bytes }
    ensures memory { (s : Settings) (st now : Store) (file bytes : Bytes) →
        after_clean s st file ≡ Ok (now, bytes) →
        (now.tree ≡ st.tree) × (now.head ≡ suc st.head) × (now.sequence ≡ suc st.sequence)
        × (now.version ≡ st.version) }
    ensures step { (s : Settings) (st now : Store) (file bytes : Bytes) → IsStoreOf s st file →
        after_clean s st file ≡ Ok (now, bytes) → IsStoreOf s now bytes }
    ensures kept { (s : Settings) (st now : Store) (file bytes : Bytes) → IsStore s st →
        after_clean s st file ≡ Ok (now, bytes) → IsStore s now }
{}

/// A crash at any moment of a clean leaves a disk that encodes the same store as before, or everything that the clean
/// writes. Until the commit is done, it encodes the old store.
pub fn a_crash_in_a_clean_leaves_the_store_before_or_after()
    ensures hidden { (s : Settings) (st now : Store) (found : List Found) (file bytes c : Bytes) →
        IsInStep s st file →
        after_clean s st file ≡ Ok (now, bytes) → log s file (slot_of st) ≡ Ok found →
        IsUncommitted s (suc st.sequence) (spans s st.tail (clean_frames st.head found)) file c →
        store_of_disk c ≡ store_of_disk file }
    ensures calls { (s : Settings) (st now : Store) (file bytes c : Bytes) → IsInStep s st file →
        after_clean s st file ≡ Ok (now, bytes) → LeftDuring (clean_calls s st file) file c →
        (store_of_disk c ≡ store_of_disk file) ⊎ (c ≡ bytes) }
{}
