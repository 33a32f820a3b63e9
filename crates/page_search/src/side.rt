//! The side of a key on which the nearest entry is searched.
ghost use Rattle.std.specs.Prelude.{◌≡◌, ◌+◌, ◌≤◌};
ghost use Rattle.std.specs.Ordering.{is_lt};
ghost use Rattle.page_search.specs.Nearest.{nearness, past};

use crate::probes::Probes;
use keys::KeyRef;

// The side of a key on which the nearest key is searched. `UpTo` includes the key itself.
#[derive(Clone, Copy)]
pub(crate) enum Side {
    UpTo,
    Below,
    Above,
}

impl Side {
    // The side on which the search continues from a key that it has found on this side.
    pub(crate) fn past(self) -> Side
        ensures { result ≡ past self }
    {
        match self {
            Side::UpTo | Side::Below => Side::Below,
            Side::Above => Side::Above,
        }
    }

    // Whether `one` is nearer than `other`, where both are on this side of a third key.
    pub(crate) fn is_nearer(self, one: &KeyRef<'_>, other: &KeyRef<'_>, probes: &mut Probes) -> bool
        ensures nearer { result ≡ is_lt (nearness self other.now one.now) }
        ensures cost { probes.new ≤ probes.old + 1 }
        ensures kept { probes.old ≤ probes.new }
    {
        match self {
            Side::UpTo | Side::Below => probes.compare(other, one).is_lt(),
            Side::Above => probes.compare(one, other).is_lt(),
        }
    }
}
