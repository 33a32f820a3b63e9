//! The rules for all pages.
ghost use Rattle.std.specs.Prelude.{◌≡◌};
ghost use Rattle.delta_chain.specs.Layers.{IsInOrder};
ghost use Rattle.mapping.specs.Finding.{common_rules, first_broken};

use crate::chain_tests::{BaseList, CellSize, fits_sizes, names_within};
use crate::place::Place;
use crate::rules::{DEPTH, LOW_KEY, RANGE, SIZES};
use delta_chain::ChainRef;
use keys::{Settings, compare};
use std::alloc::Global;

/// Returns the first of the rules for all pages that the page of these runs and this base breaks: on its low key, its
/// range, its sizes and its depth. The keys of each run and of the base always rise, by the invariants of their types.
/// The base of `runs` itself is not read.
pub(crate) fn broken_rule<V: CellSize, B: BaseList<V>>(
    settings: &Settings,
    at: &Place<'_>,
    low: &[u8],
    runs: &ChainRef<'_, V, Global>,
    base: &B,
) -> Option<u32>
    requires { IsInOrder (record { runs = runs.now.runs; base = B.entries base.now }) }
    ensures { result ≡ first_broken (common_rules settings.now (V.is_short settings.now) at.now
        (record {
          low = low.now;
          layers = record { runs = runs.now.runs; base = B.entries base.now };
        })) }
{
    if !compare(low, at.low).is_eq() {
        return Some(LOW_KEY);
    }
    if !names_within(runs, base, at.low, at.end) {
        return Some(RANGE);
    }
    if !fits_sizes(runs, base, settings) {
        return Some(SIZES);
    }
    if runs.depth() > settings.chain as u64 {
        return Some(DEPTH);
    }
    None
}
