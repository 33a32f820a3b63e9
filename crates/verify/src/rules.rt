//! The numbers of the rules.

/// The page does not exist.
pub(crate) const NO_PAGE: u32 = 2;
/// The page is a leaf above the lowest level, or an index page on the lowest level.
pub(crate) const WRONG_KIND: u32 = 3;
/// The page's low key differs from the one in its parent.
pub(crate) const LOW_KEY: u32 = 4;
/// A key of the page lies outside its range.
pub(crate) const RANGE: u32 = 5;
/// The base or a run has too many entries, a run is empty, or a key or a value is too long.
pub(crate) const SIZES: u32 = 6;
/// The page has too many runs.
pub(crate) const DEPTH: u32 = 7;
/// The page has too few children, or its first child is not at its low key.
pub(crate) const CHILDREN: u32 = 8;
/// The walk has already visited the page.
pub(crate) const MET_BEFORE: u32 = 9;
/// The walk does not reach the page.
pub(crate) const NOT_REACHED: u32 = 10;
