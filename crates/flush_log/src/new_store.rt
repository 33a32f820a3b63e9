//! The bytes of a new store.
ghost use Rattle.std.specs.Prelude.{◌≡◌, None};
ghost use Rattle.keys.specs.Limits.{first_bad_field};
ghost use Rattle.frame_codec.specs.Frame.{bytes_of};
ghost use Rattle.flush_log.specs.NewStore.{first_frame, first_slot, new_bytes};

use crate::segments::segment_header;
use crate::settings_block::settings_block;
use crate::slot::{LogEnds, Slot, slot_bytes};
use keys::{Pid, Settings, Version};

/// Returns the slot of a new store: its log has one empty leaf, with the page id 0.
pub fn first_slot() -> Slot
    ensures { result ≡ first_slot }
{
    Slot {
        ends: LogEnds {
            sequence: 1,
            head: 0,
            tail: 33,
        },
        root: Pid(0),
        height: 1,
        version: Version::One,
    }
}

// The frame of that leaf: its kind, the length of the rest, the page id, an empty low key, and no entries.
fn first_frame() -> [u8; 17]
    ensures { result ≡ bytes_of first_frame }
{
    let mut bytes = [0; 17];
    bytes[0] = 1;
    bytes[4] = 12;
    bytes
}

/// Returns the first bytes of a new store's disk, up to the tail of its log.
pub fn new_bytes(settings: &Settings) -> [u8; 545]
    requires { first_bad_field settings.now ≡ None }
    ensures { result ≡ new_bytes settings.now }
{
    let mut bytes = [0; 545];
    bytes[0..64].copy_from_slice(&settings_block(settings));
    bytes[192..256].copy_from_slice(&slot_bytes(&first_slot()));
    bytes[512..528].copy_from_slice(&segment_header(0));
    bytes[528..545].copy_from_slice(&first_frame());
    bytes
}
