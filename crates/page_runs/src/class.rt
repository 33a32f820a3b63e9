//! The classes of pages after a batch has been applied to them.

/// What a batch did to a page, which decides what its parent must do.
#[derive(Clone, Copy, Debug, PartialEq, Eq)]
pub enum Class {
    /// The page's run has no changes, and the page is unchanged.
    Same,
    /// The page got a run in front, or was replaced by a page that is neither thin nor fat.
    Changed,
    /// The page was replaced, and has fewer than `fan / 4` entries.
    Thin,
    /// The page was replaced, and has more than `fan` entries.
    Fat,
}
