//! Routing: which commands of a batch go to which page. Other crates import items from this root, and laws from the
//! public module `laws`.
#![tactic(auto)]

mod batch;
mod buckets;
mod descent;
pub mod laws;
mod page_run;
mod reaching;
mod share;
mod sort;

pub use crate::batch::BatchWithEnds;
pub use crate::descent::route;
pub use crate::page_run::PageRun;
