//! The versions of a store's log.

/// The version of a store's log: it decides which frames may occur and how a flush encodes a base. A new store has the
/// first version; an upgrade gives it the second.
#[derive(Clone, Copy, Debug, PartialEq, Eq)]
pub enum Version {
    /// Each base stores its keys whole.
    One,
    /// A base may be prefix-compressed, and every base that a flush writes is.
    Two,
}
