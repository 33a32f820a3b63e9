//! Cleaning a log: the live frames of its head segment are copied to its end, and then that segment is free. The log is
//! read as by a recovery, but only the frames of the pages that live in its first segments are retained (`Reading`).
//! One reading is enough for the cleans of all these segments, one after the other: each clean takes the pages of the
//! head segment from it, and commits their frames as a flush commits its own. Frames are copied unchanged, and the log
//! keeps its version.
//!
//! Laws: a clean keeps the store that the disk encodes; a crash during a clean leaves the old store or the new one.
//! Other crates import items from this root, and laws from the public module `laws`.
#![tactic(auto)]

mod choose;
mod cleaning;
pub mod laws;
mod reading;

pub use crate::cleaning::{clean, clean_by, read_for_cleans};
pub use crate::reading::Reading;
