//! Iterates over the children of one index page in either direction: one level of a path.
ghost use Rattle.std.specs.Prelude.{◌≡◌, ◌<◌, [], MatchOption};
ghost use Rattle.std.specs.Map.{values_of};
ghost use Rattle.scan.specs.Direction.{IsNext};
ghost use Rattle.scan.specs.Edge.{is_under};
ghost use Rattle.scan.specs.Path.{child_place, children_beyond};

use crate::direction::{Direction, Towards, next_place};
use crate::edge::{Edge, count_under};
use delta_chain::Base;
use keys::Pid;
use std::alloc::Global;
use std::marker::{Model, PhantomData};

/// The remaining children of one index page: one level of a path. Contracts see it as their page ids, in key order. The
/// default is empty.
#[derive(Default, Drop)]
pub(crate) struct Children<'a, W: Towards> {
    // The page's children, and the place of the iteration.
    children: Option<(&'a Base<Pid, Global>, usize)>,
    towards: PhantomData<W>,
}

impl<'a, W: Towards> Model for Children<'a, W> {
    ghost use Rattle.std.specs.Prelude.{List, ℕ};
    ghost use Rattle.std.specs.Option.{option_map};
    ghost use Rattle.scan.specs.Path.{pids_at};

    ghost Value = { List ℕ };

    ghost view = { λ s. pids_at W.direction (option_map (λ c. (c.0.now, c.1)) s.children) };
}

impl<'a, W: Towards> Children<'a, W> {
    // The children that may have keys beyond the edge: the one whose range contains the edge, and those that come after
    // it.
    pub(crate) fn new(list: &'a Base<Pid, Global>, edge: &Edge<'_>) -> Self
        ensures { result ≡ values_of (children_beyond W.direction (is_under edge.now) list.now) }
    {
        // The last child whose low key is below the edge contains it. The first child has all smaller keys, too.
        let under = count_under(list, edge).max(1);
        Children {
            children: Some((list, child_place(W::direction(), under))),
            towards: PhantomData,
        }
    }

    pub(crate) fn next(&mut self) -> Option<Pid>
        ensures { MatchOption result ((self.old ≡ []) × (self.new ≡ []))
            (λ pid. IsNext W.direction self.old pid self.new) }
    {
        let (list, at) = self.children?;
        let (place, later) = next_place(W::direction(), at, list.len())?;
        self.children = Some((list, later));
        Some(*list.cell(place))
    }
}

// The place of an iteration whose next child is the last of the first `count` ones.
#[inline]
fn child_place(direction: Direction, count: usize) -> usize
    requires { 0 < count }
    ensures { result ≡ child_place direction count }
{
    match direction {
        Direction::Up => count - 1,
        Direction::Down => count,
    }
}
