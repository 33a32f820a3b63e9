//! A place in the tree: a page id and a range of keys.
use keys::Pid;
use std::marker::Model;

/// A page's place in the tree: its page id, and the range of keys that its parent gives it. Contracts see it as a
/// `Place`.
#[derive(Drop)]
pub(crate) struct Place<'a> {
    pub(crate) pid: Pid,
    pub(crate) low: &'a [u8],
    pub(crate) end: Option<&'a [u8]>,
}

impl<'a> Model for Place<'a> {
    ghost use Rattle.std.specs.Option.{option_copied};
    ghost use Rattle.index_page.specs.Children as children;

    ghost Value = { children.Place };

    ghost view = { λ p. record { pid = p.pid; low = p.low.now; end = option_copied p.end } };
}
