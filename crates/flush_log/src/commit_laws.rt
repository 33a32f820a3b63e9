//! Laws about crashes during a commit, and about reading a commit. Each law is the contract of a function with an empty
//! body.
ghost use Rattle.std.specs.Prelude.{◌≡◌, ◌⊎◌, ◌↔◌, ℕ, suc, ◌+◌, ◌-◌, ◌*◌, ◌/◌, ◌^◌, ◌<◌, ◌≤◌, true, List, [], ◌∷◌, ◌++◌, length, None, Ok};
ghost use Rattle.std.specs.List.{AllByRecursion};
ghost use Rattle.keys.specs.Bytes.{Bytes};
ghost use Rattle.keys.specs.Limits.{first_bad_field};
ghost use Rattle.keys.specs.Sizes.{segment_header_size};
ghost use Rattle.keys.specs.declared.settings.Settings.{Settings};
ghost use Rattle.mapping.specs.Tree.{most_levels};
ghost use Rattle.frame_codec.specs.declared.format.Format.{Format};
ghost use Rattle.frame_codec.specs.Frame.{Frame, is_frame};
ghost use Rattle.flush_log.specs.Segments.{segments_begin, disk_size, HasSegments, position, last_segment, place_of_segment};
ghost use Rattle.flush_log.specs.Reading.{Found, log, log_between};
ghost use Rattle.flush_log.specs.Layout.{Span, tail_after, found_in_text, spans, with_spans};
ghost use Rattle.flush_log.specs.SettingsBlock.{store_settings};
ghost use Rattle.flush_log.specs.Slot.{Slot, greatest, is_slot, store_slot};
ghost use Rattle.flush_log.specs.Commit.{seen_after, MayLeave, LeftDuring, AreWithin, prepare, commit_calls, committed, HasRoom, IsUncommitted};
ghost use Rattle.flush_log.specs.NewStore.{first_frame, first_slot, disk_of_new};

/// A crash at any moment of a commit on a synced disk leaves one of two states: either only the spans and the closed
/// slot have changed, or everything is committed. Until the gate is being opened it is the first; after all calls have
/// succeeded, the second.
pub fn a_crash_leaves_what_was_before_or_all_of_a_commit()
    ensures during { (s : Settings) (file : Bytes) (rs : List Span) (t : Slot) (c : Bytes) →
        segments_begin ≤ length file →
        AreWithin s (length file) rs → LeftDuring (commit_calls s file rs t) file c →
        IsUncommitted s t.sequence rs file c ⊎ (c ≡ committed s file rs t) }
    ensures before { (s : Settings) (file : Bytes) (rs : List Span) (t : Slot) (c : Bytes) →
        segments_begin ≤ length file → AreWithin s (length file) rs →
        LeftDuring (prepare s file rs t) file c → IsUncommitted s t.sequence rs file c }
    ensures read { (s : Settings) (file : Bytes) (rs : List Span) (t : Slot) →
        segments_begin ≤ length file → AreWithin s (length file) rs →
        seen_after (commit_calls s file rs t) file ≡ committed s file rs t }
    ensures after { (s : Settings) (file : Bytes) (rs : List Span) (t : Slot) (c : Bytes) →
        segments_begin ≤ length file → AreWithin s (length file) rs →
        MayLeave (commit_calls s file rs t) file (λ d. d ≡ file) c → c ≡ committed s file rs t }
{}

/// Until the gate of the next slot is open, a commit is hidden: settings, slot and log are read as before. So a crash
/// at any moment of a commit leaves these, or everything that was committed.
pub fn a_commit_is_hidden_until_its_gate_is_open()
    ensures settings { (s : Settings) (n : ℕ) (rs : List Span) (file c : Bytes) →
        segments_begin ≤ length file → IsUncommitted s n rs file c →
        store_settings c ≡ store_settings file }
    ensures slot { (s : Settings) (t : Slot) (rs : List Span) (file c : Bytes) →
        segments_begin ≤ length file → store_slot s file ≡ Ok t →
        IsUncommitted s (suc t.sequence) rs file c → store_slot s c ≡ Ok t }
    ensures log { (g : Format) (file : Bytes) (t : Slot) (text : List Frame) (c : Bytes) →
        let s = g.settings in HasRoom g file t text →
        IsUncommitted s (suc t.sequence) (spans s t.tail text) file c → log s c t ≡ log s file t }
    ensures crash { (g : Format) (file : Bytes) (t : Slot)
        (text : List Frame) (u : Slot) (c : Bytes) →
        let s = g.settings in HasRoom g file t text → u.sequence ≡ suc t.sequence →
        LeftDuring (commit_calls s file (spans s t.tail text) u) file c →
        ((store_settings c ≡ store_settings file) × (store_slot s c ≡ Ok t)
        × (log s c t ≡ log s file t)) ⊎
        (c ≡ committed s file (spans s t.tail text) u) }
{}

/// A commit is read back: the settings as before, the new slot as the store's, and the log with the new spans.
pub fn what_was_committed_is_read()
    ensures length { (s : Settings) (file : Bytes) (rs : List Span) (u : Slot) →
        segments_begin ≤ length file → AreWithin s (length file) rs →
        length (committed s file rs u) ≡ length file }
    ensures settings { (s : Settings) (file : Bytes) (rs : List Span) (u : Slot) →
        segments_begin ≤ length file → AreWithin s (length file) rs →
        store_settings (committed s file rs u) ≡ store_settings file }
    ensures slot { (s : Settings) (file : Bytes) (rs : List Span) (t u : Slot) →
        first_bad_field s ≡ None → segments_begin ≤ length file → AreWithin s (length file) rs →
        store_slot s file ≡ Ok t → u.sequence ≡ suc t.sequence → is_slot s u.sequence u ≡ true →
        store_slot s (committed s file rs u) ≡ Ok u }
    ensures log { (g : Format) (file : Bytes) (rs : List Span) (u : Slot) (head tail : ℕ) →
        let s = g.settings in first_bad_field s ≡ None →
        HasSegments s file → AreWithin s (length file) rs →
        log_between g (committed s file rs u) head tail
        ≡ log_between g (with_spans s file rs) head tail }
    ensures text { (g : Format) (file : Bytes) (t : Slot) (text : List Frame)
        (u : Slot) (found : List Found) →
        let s = g.settings in HasRoom g file t text → log_between g file t.head t.tail ≡ Ok found →
        log_between g (committed s file (spans s t.tail text) u) t.head (tail_after s t.tail text)
        ≡ Ok (found ++ found_in_text s t.tail text) }
    ensures within { (g : Format) (file : Bytes) (t : Slot) (text : List Frame) →
        let s = g.settings in HasRoom g file t text →
        AreWithin s (length file) (spans s t.tail text) }
{}

/// The slot of a commit is well formed, if its number and its tail are at most the greatest, there is room for the
/// frames, and the head is unchanged or moves to at most the last segment.
pub fn the_slot_of_a_commit_is_well_formed()
    ensures { (g : Format) (n : ℕ) (t u : Slot) (text : List Frame) →
        let s = g.settings in first_bad_field s ≡ None → is_slot s n t ≡ true →
        AllByRecursion (λ f. is_frame g f ≡ true) text → u.sequence ≡ suc t.sequence →
        u.sequence ≤ greatest → u.tail ≡ tail_after s t.tail text → u.tail ≤ greatest →
        t.head ≤ u.head → u.head ≤ last_segment s t.tail →
        last_segment s u.tail < u.head + s.segments → u.root < 2 ^ 64 →
        1 ≤ u.height → u.height ≤ most_levels → is_slot s u.sequence u ≡ true }
{}

/// A disk with a new store has its settings, the first slot, and a log of one empty leaf.
pub fn a_new_store_is_one_empty_leaf()
    ensures { (s : Settings) (disk : Bytes) → first_bad_field s ≡ None → HasSegments s disk →
        (store_settings (disk_of_new s disk) ≡ Ok s) ×
        (store_slot s (disk_of_new s disk) ≡ Ok first_slot) ×
        (log s (disk_of_new s disk) first_slot
        ≡ Ok (record { segment = 0; frame = first_frame } ∷ [])) }
{}

/// 64-bit integers suffice for a log: with a head and a tail that a slot may have, all intermediate results are below
/// 2^63, also the tail after a commit of up to 2^41 frames, and offsets in the file are below 2^37. The check of a head
/// and a tail does not overflow either, however great the head is.
pub fn a_log_has_room_for_its_positions()
    ensures test { (s : Settings) (head tail : ℕ) → first_bad_field s ≡ None →
        (head * s.seg_size + segment_header_size < tail) ↔
        ((segment_header_size < tail) × (head ≤ (tail - (segment_header_size + 1)) / s.seg_size)) }
    ensures head { (s : Settings) (head tail : ℕ) → first_bad_field s ≡ None →
        head * s.seg_size + segment_header_size < tail → tail ≤ greatest → head < greatest }
    ensures next_head { (s : Settings) (head tail : ℕ) → first_bad_field s ≡ None →
        head * s.seg_size + segment_header_size < tail → tail ≤ greatest →
        head + s.segments < 2 ^ 63 }
    ensures position { (s : Settings) (head tail n offset : ℕ) → first_bad_field s ≡ None →
        head * s.seg_size + segment_header_size < tail → tail ≤ greatest → n < head + s.segments →
        offset ≤ s.seg_size → position s n offset < 2 ^ 63 }
    ensures tail { (g : Format) (tail : ℕ) (text : List Frame) →
        let s = g.settings in first_bad_field s ≡ None → tail ≤ greatest →
        AllByRecursion (λ f. is_frame g f ≡ true) text → length text ≤ 2 ^ 41 →
        tail_after s tail text < 2 ^ 63 }
    ensures sequence { (n : ℕ) → n ≤ greatest → suc n < 2 ^ 63 }
    ensures place { (s : Settings) (n offset : ℕ) → first_bad_field s ≡ None → offset ≤ s.seg_size →
        place_of_segment s n + offset < 2 ^ 37 }
    ensures size { (s : Settings) → first_bad_field s ≡ None → disk_size s < 2 ^ 37 }
{}
