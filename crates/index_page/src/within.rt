//! Iterates over the children whose ranges meet two bounds.
ghost use Rattle.std.specs.Prelude.{◌≡◌, [], MatchOption};
ghost use Rattle.std.specs.Iterator.{YieldsFirstBy, item_count};
ghost use Rattle.std.specs.Option.{option_copied};
ghost use Rattle.index_page.specs.NextChild.{PassesOne, left_with};

use crate::child_list::{after_first, after_next, child_at};
use crate::page::Page;
use delta_chain::Base;
use keys::Pid;
use std::alloc::Allocator;
use std::marker::Model;

/// An iterator over the children whose ranges meet two bounds, in order, with their low keys and page ids. The first
/// step takes a binary search, later steps take none, and no step allocates. Contracts see it as the list of the
/// remaining children.
#[derive(Drop)]
pub struct Children<'a, A: Allocator> {
    pub(crate) page: &'a Page<A>,
    pub(crate) end: Option<&'a [u8]>,
    pub(crate) next: NextChild<'a>,
}

// The next child. The first child is searched for when it is asked for.
#[derive(Clone, Copy)]
pub(crate) enum NextChild<'a> {
    // The child whose range contains this key.
    For(&'a [u8]),
    // The child at this place.
    At(usize),
}

impl<'a, A: Allocator> Model for Children<'a, A> {
    ghost use Rattle.std.specs.Option.{option_copied};
    ghost use Rattle.keys.specs.Bytes.{Separators};
    ghost use Rattle.index_page.specs.Children.{child_entries};
    ghost use Rattle.index_page.specs.NextChild.{left_with};

    ghost Value = { Separators };

    ghost view = { λ c. left_with c.next (option_copied c.end) (child_entries c.page.now) };
}

impl<'a, A: Allocator + Copy> Iterator for Children<'a, A> {
    type Item = (&'a [u8], Pid);

    ghost next_gives = { YieldsFirstBy (λ item. (item.0.now, item.1)) (λ left. left) };

    ghost remaining = { item_count (λ left. left) };

    fn next(&mut self) -> Option<(&'a [u8], Pid)> {
        let list = self.page.child_list()?;
        match after(list, self.next, self.end) {
            Some(place) => {
                self.next = NextChild::At(place);
                Some(child_at(list, place - 1))
            }
            None => None,
        }
    }
}

// The place after the next of these children, if there is one.
fn after<A: Allocator + Copy>(
    list: &Base<Pid, A>,
    next: NextChild<'_>,
    end: Option<&[u8]>,
) -> Option<usize>
    ensures { MatchOption result (left_with next.entry (option_copied end.entry) list.now ≡ [])
        (PassesOne (option_copied end.entry) list.now
        (left_with next.entry (option_copied end.entry) list.now)) }
{
    match next {
        NextChild::For(key) => after_first(list, key, end),
        NextChild::At(at) => after_next(list, at, end),
    }
}
