//! The two directions of an iteration over keys.
ghost use Rattle.std.specs.Prelude.{◌≡◌, MatchOption};
ghost use Rattle.scan.specs.Direction.{IsNonePlace, IsNextPlace};

/// The direction of an iteration: to greater keys, or to smaller ones.
#[derive(Clone, Copy)]
pub(crate) enum Direction {
    Up,
    Down,
}

/// A direction that is known at compile time, so that no step tests it. `Default` is there for lists of slots, which
/// are filled with defaults.
pub(crate) trait Towards: Default + Drop {
    ghost use Rattle.scan.specs.declared.direction.Direction.{Direction};

    ghost direction: { Direction };

    fn direction() -> Direction
        ensures { result ≡ direction };
}

/// To greater keys.
#[derive(Default, Drop)]
pub(crate) struct Upward;

/// To smaller keys.
#[derive(Default, Drop)]
pub(crate) struct Downward;

impl Towards for Upward {
    ghost use Rattle.scan.specs.declared.direction.Direction.TheVariants.{Up};

    ghost direction = { Up };

    #[inline]
    fn direction() -> Direction {
        Direction::Up
    }
}

impl Towards for Downward {
    ghost use Rattle.scan.specs.declared.direction.Direction.TheVariants.{Down};

    ghost direction = { Down };

    #[inline]
    fn direction() -> Direction {
        Direction::Down
    }
}

// The place of the next item of a list with `len` items, and the place after it, for an iteration that is at `at`.
#[inline]
pub(crate) fn next_place(direction: Direction, at: usize, len: usize) -> Option<(usize, usize)>
    ensures { MatchOption result (IsNonePlace direction at len)
        (λ next. IsNextPlace direction at len next.0 next.1) }
{
    match direction {
        Direction::Up => { if at < len { Some((at, at + 1)) } else { None } }
        Direction::Down => {
            let before = at.min(len).checked_sub(1)?;
            Some((before, before))
        }
    }
}
