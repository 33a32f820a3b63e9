//! Applies a batch to single pages: a leaf's commands are executed on its contents, and their net run changes the leaf
//! once; an index page is changed once, by the run of its terms. Other crates import items from this root, and laws
//! from the public module `laws`.
#![tactic(auto)]

mod ahead;
mod changes;
mod changes_from;
mod class;
mod kinds;
pub mod laws;
mod leaf_after;
mod leaf_work;
mod page_after;
mod page_rows;
mod places;
mod read_work;
mod replay;
mod term_work;

pub use crate::class::Class;
pub use crate::leaf_work::{LeafDone, LeafJob, LeafRest, LeafWork};
pub use crate::read_work::{LeafRead, ReadWork, is_only_read};
pub use crate::term_work::{TermDone, TermJob, TermWork};
