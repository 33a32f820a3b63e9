//! The report on a proper tree.

/// The report on a proper tree.
#[derive(Clone, Copy, Debug, PartialEq, Eq)]
pub struct Report {
    /// The number of pages that the walk from the root reaches.
    pub pages: u128,
    /// The number of levels.
    pub height: u32,
    /// The number of pairs in the leaves.
    pub pairs: u128,
}
