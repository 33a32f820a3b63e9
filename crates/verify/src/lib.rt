//! Checks whether a tree is proper, by a walk from its root, level by level. The result is a report, or the first
//! violation.
#![tactic(auto)]

mod chain_tests;
mod level;
mod look;
mod met;
mod page_rules;
mod place;
mod report;
mod rules;
mod walk;

pub use crate::report::Report;
pub use crate::walk::verify;
