//! The state of a page: runs of changes in front of a base. A page is not changed in place: a change is a run that is
//! prepended (the Bw-tree's delta), until the page is replaced as a whole. A replaced page may still lie in memory as
//! runs, because its base can be merged later. Other crates import items from this root, and laws from the public
//! module `laws`.
#![tactic(auto)]

mod base;
mod builder;
mod chain;
mod change_list;
mod entries;
mod key_list;
mod late;
pub mod laws;
mod locators;
mod merging;
mod pairs;
mod run;

pub use crate::base::Base;
pub use crate::builder::{BaseBuilder, PushError};
pub use crate::chain::{Chain, ChainRef, EntryBounds, Guess};
pub use crate::change_list::ChangeList;
pub use crate::key_list::KeyList;
pub use crate::late::LazyChain;
pub use crate::pairs::{Pairs, blank_base, copied_base};
pub use crate::run::Run;
