//! Iterators over the rows of a range of keys, borrowed from a tree's pages, from both ends. An iteration moves from leaf
//! to leaf and does not allocate. For a batch, the crate also computes keys at which its scans may end early.
#![tactic(auto)]

mod ahead;
mod bounded;
mod children;
mod direction;
mod edge;
mod ends;
mod leaf;
mod leaf_pairs;
mod leaves;
mod level;
mod merge;
mod point;
mod range;
mod rows;
mod search;
mod taken;
mod tally;
mod walk;

pub use crate::edge::Edge;
pub use crate::ends::scan_ends;
pub use crate::leaf_pairs::LeafPairs;
pub use crate::point::value_in;
pub use crate::range::Range;
pub use crate::rows::{Rows, RowsBack};
