//! Laws about the definitions of `specs/`. Each law is the contract of a function with an empty body.
ghost use Rattle.std.specs.Prelude.{◌≡◌, ℕ, ◌+◌, ◌<◌, ◌≤◌, ◌^◌, true, ◌++◌, length, Some, None};
ghost use Rattle.std.specs.List.{AllByRecursion};
ghost use Rattle.keys.specs.Bytes.{Bytes, Pairs, Separators};
ghost use Rattle.keys.specs.Cells.{AreBytes, IsReadBack, ReadsEncodings, value_cell, pid_cell};
ghost use Rattle.keys.specs.Limits.{first_bad_field};
ghost use Rattle.delta_chain.specs.Layers.{IsInOrder};
ghost use Rattle.index_page.specs.Page.{Page};
ghost use Rattle.index_page.specs.Rules.{IsShortValue, Fits};
ghost use Rattle.keys.specs.declared.settings.Settings.{Settings};
ghost use Rattle.frame_codec.specs.declared.format.Format.{Format};
ghost use Rattle.frame_codec.specs.declared.format.KeyEncoding.{KeyEncoding};
ghost use Rattle.frame_codec.specs.declared.format.KeyEncoding.TheVariants.{Whole};
ghost use Rattle.keys.specs.declared.version.Version.TheVariants.{One, Two};
ghost use Rattle.frame_codec.specs.Frame.{Frame, bytes_of, is_known, is_frame};
ghost use Rattle.frame_codec.specs.Frame.Content.{FullLeaf, DeltaLeaf, FullIndex, DeltaIndex};
ghost use Rattle.frame_codec.specs.Reading.{BeginsWithFrame, read_frame};
ghost use Rattle.frame_codec.specs.Sizes.{size_of};

/// Values of up to 65,535 bytes and page ids are decoded from their cells, whatever follows them, and a decoded cell is
/// encoded in the bytes. No cell is a prefix of another.
pub fn a_cell_is_read_back()
    ensures value { (v : Bytes) → length v < 65536 → IsReadBack value_cell v }
    ensures pid { (p : ℕ) → p < 2 ^ 64 → IsReadBack pid_cell p }
    ensures values { ReadsEncodings value_cell }
    ensures pids { ReadsEncodings pid_cell }
    ensures one_value { (v w following other : Bytes) → length v < 65536 → length w < 65536 →
        value_cell.encode v ++ following ≡ value_cell.encode w ++ other →
        (v ≡ w) × (following ≡ other) }
    ensures one_pid { (p q : ℕ) (following other : Bytes) → p < 2 ^ 64 → q < 2 ^ 64 →
        pid_cell.encode p ++ following ≡ pid_cell.encode q ++ other → (p ≡ q) × (following ≡ other) }
{}

/// A frame is decoded from its bytes, whatever follows them.
pub fn a_frame_is_read_back()
    ensures { (g : Format) (f : Frame) (rest : Bytes) → first_bad_field g.settings ≡ None →
        is_frame g f ≡ true → read_frame g (bytes_of f ++ rest) ≡ Some (f, rest) }
{}

/// A frame that is decoded from some bytes is also decoded if more bytes follow.
pub fn what_is_read_needs_no_byte_after_it()
    ensures { (g : Format) (bytes : Bytes) (f : Frame) (rest more : Bytes) →
        read_frame g bytes ≡ Some (f, rest) →
        read_frame g (bytes ++ more) ≡ Some (f, rest ++ more) }
{}

/// Two frames that are prefixes of the same bytes are equal: no frame's encoding is a prefix of another's.
pub fn a_frame_has_one_encoding()
    ensures { (g : Format) (e f : Frame) (following other : Bytes) →
        first_bad_field g.settings ≡ None → is_frame g e ≡ true → is_frame g f ≡ true →
        bytes_of e ++ following ≡ bytes_of f ++ other → (e ≡ f) × (following ≡ other) }
{}

/// The decoder returns a frame if and only if the bytes begin with one, and it returns that frame.
pub fn what_is_read_is_what_stands_there()
    ensures found { (g : Format) (bytes : Bytes) (f : Frame) (rest : Bytes) → AreBytes bytes →
        read_frame g bytes ≡ Some (f, rest) → BeginsWithFrame g bytes f rest }
    ensures none { (g : Format) (bytes : Bytes) (f : Frame) (rest : Bytes) →
        first_bad_field g.settings ≡ None →
        read_frame g bytes ≡ None → BeginsWithFrame g bytes f rest → ⊥ }
{}

/// A frame of a log of version 1 is one of version 2, and is decoded alike.
pub fn version_two_knows_what_version_one_knows()
    ensures frame { (s : Settings) (f : Frame) →
        is_frame (record { settings = s; version = One }) f ≡ true →
        is_frame (record { settings = s; version = Two }) f ≡ true }
    ensures read { (s : Settings) (bytes : Bytes) (f : Frame) (rest : Bytes) →
        read_frame (record { settings = s; version = One }) bytes ≡ Some (f, rest) →
        read_frame (record { settings = s; version = Two }) bytes ≡ Some (f, rest) }
{}

/// The size of a frame follows from its fields.
pub fn a_frame_has_its_size()
    ensures { (f : Frame) → length (bytes_of f) ≡ size_of f.content }
{}

/// Prefix compression never makes a base longer.
pub fn shared_keys_take_no_more()
    ensures leaf { (encoding : KeyEncoding) (low : Bytes) (base : Pairs Bytes) →
        size_of (FullLeaf encoding low base) ≤ size_of (FullLeaf Whole low base) }
    ensures index_page { (encoding : KeyEncoding) (low : Bytes) (base : Separators) →
        size_of (FullIndex encoding low base) ≤ size_of (FullIndex Whole low base) }
{}

/// If a page's base is in order and within the settings, its full image is a valid frame with each key encoding that
/// the version knows, and so is the frame of each of its runs.
pub fn a_page_has_frames_within_settings()
    ensures leaf { (g : Format) (encoding : KeyEncoding) (pid : ℕ) (p : Page Bytes) →
        is_known g.version encoding ≡ true → pid < 2 ^ 64 → length p.low ≤ g.settings.max_key →
        IsInOrder p.layers → Fits g.settings (IsShortValue g.settings) p →
        (is_frame g (record { pid = pid; content = FullLeaf encoding p.low p.layers.base })
        ≡ true) ×
        AllByRecursion
        (λ run. is_frame g (record { pid = pid; content = DeltaLeaf run }) ≡ true) p.layers.runs }
    ensures index_page { (g : Format) (encoding : KeyEncoding) (pid : ℕ) (p : Page ℕ) →
        is_known g.version encoding ≡ true → pid < 2 ^ 64 → length p.low ≤ g.settings.max_key →
        IsInOrder p.layers → Fits g.settings (λ child. child < 2 ^ 64) p →
        (is_frame g (record { pid = pid; content = FullIndex encoding p.low p.layers.base })
        ≡ true) ×
        AllByRecursion
        (λ run. is_frame g (record { pid = pid; content = DeltaIndex run }) ≡ true) p.layers.runs }
{}
