//! The store that the bytes of a disk encode: its pages, from their frames, or the single fault of the bytes; and when
//! a store in memory is in step with its disk. `recover` reads the settings and the slot (`read_disk`) and the log,
//! segment by segment (`read_log`, `scan_segment`), gathers the frames by page (`partial_log`, `gather`), builds the
//! pages (`rebuild`), and makes a tree of them, which it verifies (`build_tree`). A clean reads the log by the same
//! `read_log`.
//!
//! Laws: a flush is read back, and so is an upgrade; the store that is read satisfies the invariant of stores; a new
//! disk encodes the first store; a tree that keeps the log states stays in step; bytes that no reading examines do not
//! matter; a crash during a flush or an upgrade leaves the old store or the new one; the effect of a flush on the table
//! in memory. Other crates import items from this root, and laws from the public modules `laws` and `table_laws`.
#![tactic(auto)]

mod build_tree;
mod gather;
pub mod laws;
mod log_reading;
mod page_parts;
mod partial_log;
mod read_bytes;
mod read_disk;
mod rebuild;
mod recovered;
mod scan_segment;
pub mod table_laws;

pub use crate::gather::{Gathering, Kept, PageState, Wanted};
pub use crate::log_reading::read_log;
pub use crate::read_bytes::read;
pub use crate::recovered::{Recovered, recover};
