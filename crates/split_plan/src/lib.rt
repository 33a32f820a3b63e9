//! Splits and merges: which children of a parent are rewritten together, the pages that replace them, and the resulting
//! run for the parent.
//!
//! `specs/` defines how entries are split, how children are grouped, which pages replace a group, and the terms for its
//! parent. Other crates import items from this root, and laws from the public module `laws`.
#![tactic(auto)]

mod cutting;
mod group_work;
mod grouping;
mod kind;
pub mod laws;
mod moving;
mod name;
mod new_pages;
mod parent_run;

pub use crate::group_work::{GroupDone, GroupJob, GroupWork, index_pages};
pub use crate::grouping::groups;
pub use crate::name::Separator;
pub use crate::new_pages::NewPages;
pub use crate::parent_run::terms;
