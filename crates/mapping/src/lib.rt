//! The mapping table: a map from page ids (pids) to pages. It knows which pages are checked out, which pids are free,
//! and what the log contains of each page.
//!
//! `specs/` defines stores, the levels of a tree, proper trees, and the choice of pids for new pages; `laws` has the
//! laws about them. Other crates import items from this root, and laws from the public module `laws`.
#![tactic(auto)]

mod descent;
mod due;
mod flush;
pub mod laws;
mod logged;
mod page_table;
mod pids;
mod room;
mod slots;
mod table;
mod tree;

pub use crate::flush::depth;
pub use crate::logged::Logged;
pub use crate::pids::{HomePids, Pids};
pub use crate::table::Table;
pub use crate::tree::{Tree, empty_leaf, new_tree};
