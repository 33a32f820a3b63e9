//! The frames of the log: what each kind records about a page, its encoding in bytes, and which frames a log with given
//! settings and of a given version may contain. Frames are decoded from arbitrary bytes, and encoded from a page's base
//! and runs.
//!
//! Laws: a frame is decoded from its encoding; no encoding is a prefix of another; a decoded frame is encoded in the
//! bytes; the size of a frame; the base and the runs of a page are frames. The same for cells. Other crates import
//! items from this root, and laws from the public module `laws`.
#![tactic(auto)]

mod cell;
mod format;
mod frame;
mod kinds;
mod last_key;
pub mod laws;
mod parts;
mod read;
mod skim;
mod write;

pub use crate::format::{Format, KeyEncoding};
pub use crate::frame::Frame;
pub use crate::read::read_frame;
pub use crate::skim::{FrameKind, Skimmed, skim_frame};
pub use crate::write::{
    write_delta_index, write_delta_leaf, write_frame, write_free, write_full_index, write_full_leaf,
};
