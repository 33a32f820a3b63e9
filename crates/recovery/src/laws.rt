//! Laws about the definitions of `specs/`. Each law is the contract of a function with an empty body.
ghost use Rattle.std.specs.Prelude.{◌≡◌, ◌≢◌, ◌⊎◌, [], suc, ◌^◌, ◌<◌, ◌≤◌, false, None, Ok};
ghost use Rattle.keys.specs.Bytes.{Bytes};
ghost use Rattle.keys.specs.Limits.{first_bad_field};
ghost use Rattle.keys.specs.declared.settings.Settings.{Settings};
ghost use Rattle.mapping.specs.Tree.{Tree, most_levels, Store, with_tree};
ghost use Rattle.mapping.specs.Proper.{AreLogsTrue, IsProper};
ghost use Rattle.flush_log.specs.AfterFlush.{after_flush, after_upgrade, flush_calls, upgrade_calls};
ghost use Rattle.flush_log.specs.Commit.{LeftDuring, IsUncommitted};
ghost use Rattle.flush_log.specs.Layout.{spans};
ghost use Rattle.flush_log.specs.FlushText.{flush_frames, upgrade_frames, HasFrames, flushed};
ghost use Rattle.flush_log.specs.NewStore.{disk_of_new};
ghost use Rattle.flush_log.specs.Overlay.{AgreeAt};
ghost use Rattle.flush_log.specs.Segments.{HasSegments};
ghost use Rattle.flush_log.specs.Slot.{is_open};
ghost use Rattle.flush_log.specs.declared.text.CommitKind.TheVariants.{Flush, Upgrade};
ghost use Rattle.recovery.specs.InStep.{KeepsLogged, IsStore, IsStoreOf};
ghost use Rattle.recovery.specs.LookedAt.{IsInSlot, IsLookedAt};
ghost use Rattle.recovery.specs.StoreOfDisk.{first_store, store_of_disk};

/// A flush is read back: the disk after a flush encodes exactly the store after it, which satisfies the invariant of
/// stores. Its tree is the same as before, and its log states say that the log contains each page with all its runs,
/// and nothing of any other pid. A flush with nothing to write changes neither store nor disk, and this already holds.
/// A store may have the frames of the flush, because page ids in memory have 64 bits. Whatever the disk does, the store
/// satisfies the invariant.
pub fn what_was_flushed_is_what_is_read()
    ensures read { (s : Settings) (st now : Store) (file bytes : Bytes) → IsStoreOf s st file →
        HasFrames s (Flush st.version) st.tree → after_flush s st file ≡ Ok (now, bytes) →
        (store_of_disk bytes ≡ Ok (s, now)) × IsStoreOf s now bytes }
    ensures tree { (s : Settings) (st now : Store) (file bytes : Bytes) → IsStore s st →
        after_flush s st file ≡ Ok (now, bytes) → now.tree ≡ flushed st.tree }
    ensures kept { (s : Settings) (st now : Store) (file bytes : Bytes) → IsStore s st →
        HasFrames s (Flush st.version) st.tree →
        after_flush s st file ≡ Ok (now, bytes) → IsStore s now }
{}

/// A crash at any moment of a flush leaves a disk that encodes the same store as before, or everything that the flush
/// writes. Until the commit is done, it encodes the old store.
pub fn a_crash_in_a_flush_leaves_the_store_before_or_after()
    ensures hidden { (s : Settings) (st now : Store) (file bytes c : Bytes) → IsStoreOf s st file →
        HasFrames s (Flush st.version) st.tree →
        flush_frames st.version st.tree ≢ [] → after_flush s st file ≡ Ok (now, bytes) →
        IsUncommitted s (suc st.sequence) (spans s st.tail (flush_frames st.version st.tree)) file c →
        store_of_disk c ≡ store_of_disk file }
    ensures calls { (s : Settings) (st now : Store) (file bytes c : Bytes) → IsStoreOf s st file →
        HasFrames s (Flush st.version) st.tree →
        after_flush s st file ≡ Ok (now, bytes) → LeftDuring (flush_calls s st file) file c →
        (store_of_disk c ≡ store_of_disk file) ⊎ (c ≡ bytes) }
{}

/// An upgrade is read back: the disk after an upgrade encodes exactly the store after it, which satisfies the invariant
/// of stores and whose log has the second version. Its tree is the one that a flush would leave. Whatever the disk
/// does, the store satisfies the invariant.
pub fn what_was_upgraded_is_what_is_read()
    ensures read { (s : Settings) (st now : Store) (file bytes : Bytes) → IsStoreOf s st file →
        HasFrames s Upgrade st.tree → after_upgrade s st file ≡ Ok (now, bytes) →
        (store_of_disk bytes ≡ Ok (s, now)) × IsStoreOf s now bytes }
    ensures tree { (s : Settings) (st now : Store) (file bytes : Bytes) → IsStore s st →
        after_upgrade s st file ≡ Ok (now, bytes) → now.tree ≡ flushed st.tree }
    ensures kept { (s : Settings) (st now : Store) (file bytes : Bytes) → IsStore s st →
        HasFrames s Upgrade st.tree → after_upgrade s st file ≡ Ok (now, bytes) → IsStore s now }
{}

/// A crash at any moment of an upgrade leaves a disk that encodes the same store as before, with a log of the first
/// version, or everything that the upgrade writes. Until the commit is done, it encodes the old store.
pub fn a_crash_in_an_upgrade_leaves_the_store_before_or_after()
    ensures hidden { (s : Settings) (st now : Store) (file bytes c : Bytes) → IsStoreOf s st file →
        HasFrames s Upgrade st.tree → after_upgrade s st file ≡ Ok (now, bytes) →
        IsUncommitted s (suc st.sequence) (spans s st.tail (upgrade_frames st.tree)) file c →
        store_of_disk c ≡ store_of_disk file }
    ensures calls { (s : Settings) (st now : Store) (file bytes c : Bytes) → IsStoreOf s st file →
        HasFrames s Upgrade st.tree →
        after_upgrade s st file ≡ Ok (now, bytes) → LeftDuring (upgrade_calls s st file) file c →
        (store_of_disk c ≡ store_of_disk file) ⊎ (c ≡ bytes) }
{}

/// The store that a disk encodes satisfies the invariant of stores: it is proper, and in step with that disk, whatever
/// the disk's bytes are.
pub fn what_is_read_is_a_store()
    ensures { (s : Settings) (st : Store) (file : Bytes) → store_of_disk file ≡ Ok (s, st) →
        IsStoreOf s st file }
{}

/// Bytes after the tail, in free segments, in a closed slot or outside the format do not matter: a disk that agrees
/// with another one at all places that a reading examines encodes the same store.
pub fn bytes_that_no_reading_looks_at_do_not_matter()
    ensures closed { (s : Settings) (st : Store) (file c : Bytes) →
        store_of_disk file ≡ Ok (s, st) → AgreeAt (IsLookedAt s st) file c →
        is_open (suc st.sequence) c ≡ false → store_of_disk c ≡ Ok (s, st) }
    ensures same { (s : Settings) (st : Store) (file c : Bytes) → store_of_disk file ≡ Ok (s, st) →
        AgreeAt (λ place. IsLookedAt s st place ⊎ IsInSlot (suc st.sequence) place) file c →
        store_of_disk c ≡ Ok (s, st) }
{}

/// The disk of a new store encodes the first store, which satisfies the invariant of stores, whatever bytes the disk
/// had before.
pub fn a_new_disk_stands_for_the_first_store()
    ensures { (s : Settings) (disk : Bytes) → first_bad_field s ≡ None → HasSegments s disk →
        (store_of_disk (disk_of_new s disk) ≡ Ok (s, first_store))
        × IsStoreOf s first_store (disk_of_new s disk) }
{}

/// A store stays in step with its disk if its tree is replaced, as a batch does, by a tree that keeps the log states.
/// It still satisfies the invariant of stores, whatever its disk does.
pub fn a_tree_that_keeps_what_the_log_has_stays_in_step()
    ensures step { (s : Settings) (st : Store) (new : Tree) (file : Bytes) → IsStoreOf s st file →
        IsProper s new → AreLogsTrue new → new.root < 2 ^ 64 → new.height ≤ most_levels →
        KeepsLogged st.tree new → IsStoreOf s (with_tree st new) file }
    ensures kept { (s : Settings) (st : Store) (new : Tree) → IsStore s st → IsProper s new →
        AreLogsTrue new → new.root < 2 ^ 64 →
        new.height ≤ most_levels → IsStore s (with_tree st new) }
{}
