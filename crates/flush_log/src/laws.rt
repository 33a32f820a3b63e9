//! Laws about the definitions of `specs/`. Each law is the contract of a function with an empty body.
ghost use Rattle.std.specs.Prelude.{◌≡◌, ◌≢◌, ℕ, suc, ◌+◌, ◌*◌, ◌<◌, ◌≤◌, Bool, true, false, not, nat_eq, List, [], ◌++◌, length, take, drop, None, Ok, Err};
ghost use Rattle.std.specs.List.{AllByRecursion, filter, starts_with, sum_by};
ghost use Rattle.keys.specs.Bytes.{Bytes};
ghost use Rattle.keys.specs.Cells.{AreBytes};
ghost use Rattle.keys.specs.Limits.{first_bad_field};
ghost use Rattle.keys.specs.Sizes.{segment_header_size};
ghost use Rattle.keys.specs.declared.settings.Settings.{Settings};
ghost use Rattle.keys.specs.declared.fault.Fault.{Fault};
ghost use Rattle.keys.specs.declared.fault.Fault.TheVariants.{BadSegment, BadFrame};
ghost use Rattle.keys.specs.declared.version.Version.TheVariants.{One, Two};
ghost use Rattle.mapping.specs.Proper.{AreLogsTrue, IsProper};
ghost use Rattle.mapping.specs.Tree.{Tree};
ghost use Rattle.frame_codec.specs.declared.format.Format.{Format};
ghost use Rattle.frame_codec.specs.Frame.{Frame, bytes_of, is_frame};
ghost use Rattle.flush_log.specs.Commit.{AreWithin, IsBesideSpans};
ghost use Rattle.flush_log.specs.FlushText.{flush_frames, upgrade_frames, outdated, flushed};
ghost use Rattle.flush_log.specs.Layout.{placed, tail_after, found_in_text, is_full_for_flush, is_full_for_clean, spans, with_spans};
ghost use Rattle.flush_log.specs.Overlay.{AgreeAt};
ghost use Rattle.flush_log.specs.Reading.{Found, all_in, is_at_tail, is_padding, read_segment, log_between};
ghost use Rattle.flush_log.specs.Segments.{segment_header, segments_begin, disk_size, segment_bytes, HasSegments, IsInLog, last_segment};
ghost use Rattle.flush_log.specs.Standing.{AreFrames, IsBrokenAt, IsFirstFault};

/// Each frame that a store may have fits into a segment, after its header.
pub fn a_frame_fits_into_a_segment()
    ensures { (g : Format) (f : Frame) →
        let s = g.settings in first_bad_field s ≡ None → is_frame g f ≡ true →
        segment_header_size + length (bytes_of f) ≤ s.seg_size }
{}

/// Frames that are written from the tail on are found by the next reading, in order, after the older ones, if they need
/// no more segments than there are. A clean may use all segments; a flush leaves one free.
pub fn a_text_is_read_back()
    ensures { (g : Format) (file : Bytes) (head tail : ℕ) (found : List Found) (text : List Frame) →
        let s = g.settings in first_bad_field s ≡ None → HasSegments s file →
        AllByRecursion (λ f. is_frame g f ≡ true) text → head * s.seg_size < tail →
        log_between g file head tail ≡ Ok found →
        last_segment s (tail_after s tail text) < head + s.segments →
        log_between g (with_spans s file (spans s tail text)) head (tail_after s tail text)
        ≡ Ok (found ++ found_in_text s tail text) }
{}

/// After a commit is written, each of its frames is at its place: in its segment, at its offset.
pub fn each_frame_stands_at_its_place()
    ensures { (g : Format) (file : Bytes) (head tail : ℕ) (text : List Frame) →
        let s = g.settings in first_bad_field s ≡ None → HasSegments s file →
        AllByRecursion (λ f. is_frame g f ≡ true) text → head * s.seg_size < tail →
        last_segment s (tail_after s tail text) < head + s.segments →
        AllByRecursion (λ p. take (length (bytes_of p.frame))
        (drop p.offset (segment_bytes s (with_spans s file (spans s tail text)) p.segment))
        ≡ bytes_of p.frame)
        (placed s tail text) }
{}

/// Two files that agree in the range of the log have the same log, whatever else they contain: after the tail, in free
/// segments, and before the first segment.
pub fn what_is_after_the_tail_is_hidden()
    ensures hidden { (g : Format) (file other : Bytes) (head tail : ℕ) →
        let s = g.settings in first_bad_field s ≡ None → HasSegments s file →
        head * s.seg_size < tail → AgreeAt (IsInLog s head tail) file other →
        log_between g other head tail ≡ log_between g file head tail }
    ensures places { (s : Settings) (head tail place : ℕ) → first_bad_field s ≡ None →
        IsInLog s head tail place → (segments_begin ≤ place) × (place < disk_size s) }
{}

/// The bytes that are written for a commit for which there is room are outside the log, and within the segments.
pub fn a_text_lies_after_the_tail()
    ensures following { (g : Format) (head tail : ℕ) (text : List Frame) →
        let s = g.settings in first_bad_field s ≡ None → head * s.seg_size < tail →
        AllByRecursion (λ f. is_frame g f ≡ true) text →
        last_segment s (tail_after s tail text) < head + s.segments →
        (place : ℕ) → IsInLog s head tail place → IsBesideSpans s (spans s tail text) place }
    ensures apart { (g : Format) (head tail : ℕ) (text : List Frame) →
        let s = g.settings in first_bad_field s ≡ None → head * s.seg_size < tail →
        AllByRecursion (λ f. is_frame g f ≡ true) text →
        last_segment s (tail_after s tail text) < head + s.segments →
        (place : ℕ) → place < segments_begin → IsBesideSpans s (spans s tail text) place }
    ensures inside { (g : Format) (head tail : ℕ) (text : List Frame) →
        let s = g.settings in first_bad_field s ≡ None → head * s.seg_size < tail →
        AllByRecursion (λ f. is_frame g f ≡ true) text →
        last_segment s (tail_after s tail text) < head + s.segments →
        AreWithin s (disk_size s) (spans s tail text) }
{}

/// A reading from the next segment on finds what a reading from the head finds, without the frames of the head segment.
/// All frames that it finds are in segments from the head to the last one, and new frames are in segments from that of
/// the tail on.
pub fn the_head_segment_is_taken_off()
    ensures rest { (g : Format) (file : Bytes) (head tail : ℕ) (found : List Found) →
        head < last_segment g.settings tail → log_between g file head tail ≡ Ok found →
        log_between g file (suc head) tail ≡ Ok (filter (λ f. not (nat_eq f.segment head)) found) }
    ensures found { (g : Format) (file : Bytes) (head tail : ℕ) (found : List Found) →
        let s = g.settings in first_bad_field s ≡ None → head * s.seg_size < tail →
        log_between g file head tail ≡ Ok found →
        AllByRecursion (λ f. (head ≤ f.segment) × (f.segment ≤ last_segment s tail)) found }
    ensures text { (s : Settings) (tail : ℕ) (text : List Frame) → first_bad_field s ≡ None →
        0 < tail →
        AllByRecursion (λ f. last_segment s tail ≤ f.segment) (found_in_text s tail text) }
{}

/// A commit moves the tail by at least the size of its frames, and by at most a segment for each frame and one more; if
/// there is room, not past the existing segments. There is room for a flush only if another segment stays free. There
/// is no room for frames as large as all segments together.
pub fn a_text_moves_the_tail()
    ensures rises { (g : Format) (tail : ℕ) (text : List Frame) →
        let s = g.settings in
        first_bad_field s ≡ None → AllByRecursion (λ f. is_frame g f ≡ true) text →
        tail + sum_by (λ f. length (bytes_of f)) text ≤ tail_after s tail text }
    ensures bounded { (g : Format) (tail : ℕ) (text : List Frame) →
        let s = g.settings in
        first_bad_field s ≡ None → AllByRecursion (λ f. is_frame g f ≡ true) text →
        tail_after s tail text ≤ tail + (length text + 1) * s.seg_size }
    ensures in_room { (s : Settings) (head tail : ℕ) → first_bad_field s ≡ None →
        last_segment s tail < head + s.segments → tail ≤ (head + s.segments) * s.seg_size }
    ensures clean { (s : Settings) (head tail : ℕ) → is_full_for_clean s head tail ≡ false →
        last_segment s tail < head + s.segments }
    ensures flush { (s : Settings) (head tail : ℕ) → is_full_for_flush s head tail ≡ false →
        last_segment s tail + 1 < head + s.segments }
    ensures too_long { (g : Format) (head tail : ℕ) (text : List Frame) →
        let s = g.settings in first_bad_field s ≡ None →
        AllByRecursion (λ f. is_frame g f ≡ true) text → head * s.seg_size < tail →
        s.segments * s.seg_size ≤ sum_by (λ f. length (bytes_of f)) text →
        (is_full_for_clean s head (tail_after s tail text) ≡ true)
        × (is_full_for_flush s head (tail_after s tail text) ≡ true) }
{}

/// The frames found in a segment are in its bytes: its header, the frames, and then zeros up to its end, or in the last
/// segment the tail. Conversely, such bytes are read as these frames. If a reading reports a bad header, the header is
/// wrong; if it reports a bad frame, then after good frames there is neither a frame nor the end at that offset.
pub fn a_segment_is_read_as_it_stands()
    ensures earlier { (g : Format) (n : ℕ) (bytes : Bytes) (found : List Found) → AreBytes bytes →
        read_segment g is_padding n bytes ≡ Ok found →
        (fs : List Frame) × (zeros : ℕ) × AreFrames g n fs zeros bytes × (found ≡ all_in n fs) }
    ensures last { (g : Format) (n : ℕ) (bytes : Bytes) (found : List Found) → AreBytes bytes →
        read_segment g is_at_tail n bytes ≡ Ok found →
        (fs : List Frame) × AreFrames g n fs 0 bytes × (found ≡ all_in n fs) }
    ensures earlier_back { (g : Format) (n zeros : ℕ) (bytes : Bytes) (fs : List Frame) →
        first_bad_field g.settings ≡ None →
        AreFrames g n fs zeros bytes → read_segment g is_padding n bytes ≡ Ok (all_in n fs) }
    ensures last_back { (g : Format) (n : ℕ) (bytes : Bytes) (fs : List Frame) →
        first_bad_field g.settings ≡ None →
        AreFrames g n fs 0 bytes → read_segment g is_at_tail n bytes ≡ Ok (all_in n fs) }
    ensures bad_segment { (g : Format) (is_end : Bytes → Bool) (n m : ℕ) (bytes : Bytes) →
        read_segment g is_end n bytes ≡ Err (BadSegment m) →
        (m ≡ n) × (starts_with nat_eq bytes (segment_header n) ≡ false) }
    ensures bad_frame { (g : Format) (is_end : Bytes → Bool) (n m offset : ℕ) (bytes : Bytes) →
        AreBytes bytes → is_end [] ≡ true →
        read_segment g is_end n bytes ≡ Err (BadFrame m offset) →
        (m ≡ n) × IsBrokenAt g is_end n offset bytes }
{}

/// A reading reports the fault of the first segment that has one.
pub fn the_first_fault_is_answered()
    ensures { (g : Format) (file : Bytes) (head tail : ℕ) (fault : Fault) →
        let s = g.settings in first_bad_field s ≡ None → head * s.seg_size < tail →
        log_between g file head tail ≡ Err fault → (n : ℕ) × IsFirstFault g file head tail n fault }
{}

/// The contents of a log of version 1 are the same when it is read as a log of version 2.
pub fn a_log_of_version_one_is_read_as_one_of_version_two()
    ensures { (s : Settings) (file : Bytes) (head tail : ℕ) (found : List Found) →
        log_between (record { settings = s; version = One }) file head tail ≡ Ok found →
        log_between (record { settings = s; version = Two }) file head tail ≡ Ok found }
{}

/// The frames of an upgrade are those of a flush of version 2, as if the log had an outdated page for each page id of
/// which it has a page, and the resulting tree is the same. There is always something to write.
pub fn an_upgrade_is_a_flush_of_outdated_pages()
    ensures text { (t : Tree) → AreLogsTrue t → upgrade_frames t ≡ flush_frames Two (outdated t) }
    ensures left { (t : Tree) → flushed (outdated t) ≡ flushed t }
    ensures some { (s : Settings) (t : Tree) → IsProper s t → upgrade_frames t ≢ [] }
{}
