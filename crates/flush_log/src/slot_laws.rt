//! Laws about the settings block and the slots. Each law is the contract of a function with an empty body.
ghost use Rattle.std.specs.Prelude.{◌≡◌, ◌⊎◌, ◌↔◌, ℕ, suc, ◌≤◌, true, false, length, take, drop, Some, None, Ok, Err};
ghost use Rattle.keys.specs.Bytes.{Bytes};
ghost use Rattle.keys.specs.Limits.{first_bad_field};
ghost use Rattle.keys.specs.declared.settings.Settings.{Settings};
ghost use Rattle.keys.specs.declared.fault.Fault.{Fault};
ghost use Rattle.keys.specs.declared.fault.Fault.TheVariants.{NoSlot};
ghost use Rattle.flush_log.specs.Segments.{HasSegments};
ghost use Rattle.flush_log.specs.SettingsBlock.{settings_block_size, settings_block, read_settings, store_settings};
ghost use Rattle.flush_log.specs.Slot.{Slot, slot_size, slot_place, slot_bytes, is_slot, is_open, read_slot, store_slot};

/// Valid settings are decoded from their block of 64 bytes, and decoded settings are encoded in the bytes.
pub fn the_settings_block_is_read_back()
    ensures length { (s : Settings) → length (settings_block s) ≡ settings_block_size }
    ensures read { (s : Settings) → first_bad_field s ≡ None →
        read_settings (settings_block s) ≡ Some s }
    ensures stands { (bytes : Bytes) (s : Settings) → read_settings bytes ≡ Some s →
        (bytes ≡ settings_block s) × (first_bad_field s ≡ None) }
{}

/// A disk has the settings in the block at its beginning, if it has room for all segments.
pub fn a_disk_has_the_settings_of_its_block()
    ensures { (disk : Bytes) (s : Settings) →
        store_settings disk ≡ Ok s ↔
        (take settings_block_size disk ≡ settings_block s) × (first_bad_field s ≡ None)
        × HasSegments s disk }
{}

/// A well-formed slot is decoded from its 64 bytes, whatever else is on the disk. A slot that is decoded from an open
/// slot is encoded there and is well formed. Nothing is decoded from a closed slot, whatever follows its gate.
pub fn a_slot_is_read_back()
    ensures length { (t : Slot) → length (slot_bytes t) ≡ slot_size }
    ensures read { (s : Settings) (n : ℕ) (t : Slot) (disk : Bytes) → first_bad_field s ≡ None →
        is_slot s n t ≡ true → take slot_size (drop (slot_place n) disk) ≡ slot_bytes t →
        read_slot s n disk ≡ Ok (Some t) }
    ensures stands { (s : Settings) (n : ℕ) (t : Slot) (disk : Bytes) →
        read_slot s n disk ≡ Ok (Some t) →
        (take slot_size (drop (slot_place n) disk) ≡ slot_bytes t) × (is_slot s n t ≡ true) }
    ensures closed { (s : Settings) (n : ℕ) (disk : Bytes) →
        is_open n disk ≡ false ↔ read_slot s n disk ≡ Ok None }
{}

/// Two well-formed slots with the same bytes are equal.
pub fn a_slot_has_one_encoding()
    ensures { (s : Settings) (m n : ℕ) (t u : Slot) → first_bad_field s ≡ None →
        is_slot s m t ≡ true → is_slot s n u ≡ true → slot_bytes t ≡ slot_bytes u → t ≡ u }
{}

/// The store's slot is open, at the place for its own sequence number, and no other open slot has a greater number.
/// There is none if and only if no slot is open, or an open one is malformed.
pub fn the_open_slot_with_the_greater_number_is_the_stores()
    ensures own { (s : Settings) (disk : Bytes) (t : Slot) → store_slot s disk ≡ Ok t →
        read_slot s t.sequence disk ≡ Ok (Some t) }
    ensures greatest { (s : Settings) (disk : Bytes) (t u : Slot) (n : ℕ) →
        store_slot s disk ≡ Ok t → read_slot s n disk ≡ Ok (Some u) → u.sequence ≤ t.sequence }
    ensures none { (s : Settings) (disk : Bytes) (fault : Fault) → store_slot s disk ≡ Err fault →
        (fault ≡ NoSlot) ×
        (((is_open 0 disk ≡ false) × (is_open 1 disk ≡ false))
        ⊎ ((n : ℕ) × (read_slot s n disk ≡ Err NoSlot))) }
    ensures none_open { (s : Settings) (disk : Bytes) → is_open 0 disk ≡ false →
        is_open 1 disk ≡ false → store_slot s disk ≡ Err NoSlot }
    ensures one_refused { (s : Settings) (n : ℕ) (disk : Bytes) → read_slot s n disk ≡ Err NoSlot →
        store_slot s disk ≡ Err NoSlot }
{}
