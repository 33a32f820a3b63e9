//! The log on a disk: the settings block and the slots, the segments, the places of frames, reading the log, and the
//! commit, which adds frames and makes a new slot the store's. `specs/` has the definitions.
//!
//! Laws: encoded blocks and slots are decoded; written frames are found by the next reading; a crash during a commit
//! leaves the old state or the committed one. Other crates import items from this root, and laws from the public
//! modules `commit_laws`, `laws`, `record_laws` and `slot_laws`.
#![tactic(auto)]

mod commit;
pub mod commit_laws;
mod commit_plan;
mod crash_disk;
mod disk;
mod fault_disk;
mod file_disk;
mod image;
mod image_work;
mod kind;
pub mod laws;
mod layout;
mod lock_file;
mod mem_disk;
mod new_store;
pub mod record_laws;
mod segments;
mod settings_block;
mod slot;
pub mod slot_laws;
mod text;
mod write;

pub use crate::commit::{SLOTS_BEGIN, is_gate_open, slot_place, write_flush, write_through};
pub use crate::commit_plan::Commit;
pub use crate::crash_disk::{CrashDisk, Fill};
pub use crate::disk::{Disk, DiskFault};
pub use crate::fault_disk::{Failing, FaultDisk};
pub use crate::file_disk::FileDisk;
pub use crate::image::Image;
pub use crate::lock_file::LockFile;
pub use crate::mem_disk::MemDisk;
pub use crate::new_store::{first_slot, new_bytes};
pub use crate::segments::{disk_size, last_segment, place_of_segment, segment_header};
pub use crate::settings_block::read_settings;
pub use crate::slot::{LogEnds, SLOT_SIZE, Slot, newer, read_slot, slot_in};
pub use crate::text::{CommitKind, images, is_all_written};
