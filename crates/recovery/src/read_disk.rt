//! Reads the settings of a disk and the slot of its store.
ghost use Rattle.std.specs.Prelude.{◌≡◌, ◌⊎◌, ◌≤◌, true, length, take, drop, None, Ok, Err, MatchResult, IfOk};
ghost use Rattle.keys.specs.Bytes.{Bytes};
ghost use Rattle.keys.specs.Limits.{first_bad_field};
ghost use Rattle.flush_log.specs.Segments.{disk_size};
ghost use Rattle.flush_log.specs.SettingsBlock.{settings_block_size, store_settings};
ghost use Rattle.flush_log.specs.Slot.{slots_begin, is_slot, store_slot};
ghost use Rattle.recovery.specs.Recovered.{IsReadOf, IsLate, OnlyReads};

use crate::read_bytes::read;
use flush_log::{
    Disk, SLOT_SIZE, SLOTS_BEGIN, Slot, disk_size, newer, read_settings as read_block, read_slot,
};
use keys::{Fault, Settings};

// The size of the settings block in bytes.
const BLOCK_SIZE: usize = 64;

// Decodes the settings block of a disk of this length, if the disk has room for the segments.
fn settings_in(block: &[u8], len: u64) -> Result<Settings, Fault>
    ensures read { (file : Bytes) → take settings_block_size file ≡ block.now → length file ≡ len →
        result ≡ store_settings file }
    ensures good { IfOk result (λ s. (first_bad_field s ≡ None) × (disk_size s ≤ len)) }
{
    let Some(settings) = read_block(block) else {
        return Err(Fault::NotAStore);
    };
    if len < disk_size(&settings) {
        return Err(Fault::NotAStore);
    }
    Ok(settings)
}

/// Reads the settings of the store on the disk. Fails with `Fault::NotAStore` if the disk has no settings block, or is
/// too short for the block or for the segments in the settings; and with `Fault::Device` if a read fails.
pub(crate) fn read_settings<D: Disk>(disk: &mut D) -> Result<Settings, Fault>
    ensures read { (file : Bytes) × IsReadOf (D.view disk.new) file
        × MatchResult result
        (λ s. store_settings file ≡ Ok s)
        (λ fault. (store_settings file ≡ Err fault)
        ⊎ IsLate (D.failed disk.old) (D.failed disk.new) fault) }
    ensures good { IfOk result
        (λ s. (first_bad_field s ≡ None) × (disk_size s ≤ (D.view disk.old).size)) }
    ensures only_reads { OnlyReads D.view D.failed disk.old disk.new result }
{
    let len = disk.len();
    if len < BLOCK_SIZE as u64 {
        return Err(Fault::NotAStore);
    }
    let mut block = [0; BLOCK_SIZE];
    read(disk, 0, &mut block)?;
    settings_in(&block, len)
}

// Decodes both slots, and chooses that of the store.
fn slot_in(settings: &Settings, slots: &[u8]) -> Result<Slot, Fault>
    requires checked { first_bad_field settings.now ≡ None }
    requires length { length slots.now ≡ 128 }
    ensures read { (disk : Bytes) → take 128 (drop slots_begin disk) ≡ slots.now →
        result ≡ store_slot settings.now disk }
    ensures slot { IfOk result (λ t. is_slot settings.now t.sequence t ≡ true) }
{
    let first = read_slot(settings, 0, &slots[..SLOT_SIZE]);
    let second = read_slot(settings, 1, &slots[SLOT_SIZE..]);
    newer(first, second)
}

/// Reads the slot of the store: the open slot with the greater sequence number. Fails with `Fault::NoSlot` if no slot
/// is open, or an open one is malformed; and with `Fault::Device` if a read fails.
pub(crate) fn read_store_slot<D: Disk>(disk: &mut D, settings: &Settings) -> Result<Slot, Fault>
    requires checked { first_bad_field settings.now ≡ None }
    requires within { disk_size settings.now ≤ (D.view disk.old).size }
    ensures read { (file : Bytes) → IsReadOf (D.view disk.old) file →
        store_settings file ≡ Ok settings.now →
        (now : Bytes) × IsReadOf (D.view disk.new) now × (store_settings now ≡ Ok settings.now)
        × MatchResult result
        (λ t. store_slot settings.now now ≡ Ok t)
        (λ fault. (store_slot settings.now now ≡ Err fault)
        ⊎ IsLate (D.failed disk.old) (D.failed disk.new) fault) }
    ensures slot { IfOk result (λ t. is_slot settings.now t.sequence t ≡ true) }
    ensures only_reads { OnlyReads D.view D.failed disk.old disk.new result }
{
    let mut slots = [0; 2 * SLOT_SIZE];
    read(disk, SLOTS_BEGIN, &mut slots)?;
    slot_in(settings, &slots)
}
