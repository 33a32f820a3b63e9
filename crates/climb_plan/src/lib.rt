//! The effect of a batch on the levels of a tree, from the leaves up to the root.
//!
//! `specs/` defines the plan of a batch, and `laws` has the laws about it. The climb makes the tree of that plan, level
//! by level from the leaves up: it finds the groups that are rewritten, makes their new pages, and computes the runs
//! for their parents. Then it changes the mapping table, from the root down. Other crates import items from this root,
//! and laws from the public module `laws`.
#![tactic(auto)]

mod ascent;
mod change;
mod family;
mod install;
pub mod laws;
mod level;
mod refused;
mod root;
mod seen;
mod shrink;
mod top;

pub use crate::ascent::climb;
pub use crate::refused::Refused;
