//! Binary search in the parts of a page, with a count of the comparisons. Other crates import items from this root, and
//! laws from the public module `laws`.
#![tactic(auto)]

pub mod laws;
mod nearest;
mod probes;
mod search;
mod side;

pub use crate::nearest::{above, floor};
pub use crate::probes::Probes;
pub use crate::search::{find, lower, place};
