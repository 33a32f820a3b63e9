//! Laws about the definitions of `specs/`. Each law is the contract of a function with an empty body.
ghost use Rattle.std.specs.Prelude.{◌≡◌, ◌<◌, ◌==◌, ◌++◌, ℕ, true, false, List, [], length, take, drop, flat_map, count_by, slice_get, Option, None, Some};
ghost use Rattle.std.specs.declared.cmp.Ordering.TheVariants.{Less};
ghost use Rattle.std.specs.List.{AllByRecursion, filter};
ghost use Rattle.std.specs.List.Sorted.{IsPermutation, IsNonDecreasing};
ghost use Rattle.keys.specs.Bytes.{Bytes};
ghost use Rattle.keys.specs.CommandKey.{key_of};
ghost use Rattle.keys.specs.Order.{order};
ghost use Rattle.keys.specs.Places.{is_ranged_at};
ghost use Rattle.keys.specs.declared.command.Command.{Command};
ghost use Rattle.keys.specs.declared.command.Command.TheVariants.{Scan, Wipe};
ghost use Rattle.index_page.specs.Children.{Place, meets};
ghost use Rattle.index_page.specs.Range.{is_below, is_within, IsBefore};
ghost use Rattle.mapping.specs.FreshPids.{is_among};
ghost use Rattle.mapping.specs.Levels.{Placed};
ghost use Rattle.mapping.specs.Proper.{next_low, Tiled};
ghost use Rattle.routing.specs.BatchKeys.{key_at};
ghost use Rattle.routing.specs.Idle.{gives};
ghost use Rattle.routing.specs.Routes.{Route, goes_to, goes_at, places_within, ranges, routes, AreRoutesTo};
ghost use Rattle.routing.specs.Runs.{IsRunOf, AreRunsOf};
ghost use Rattle.routing.specs.SortedPlaces.{reaches_at, AreSortedPlaces, AreSortedWithin, AreSortedReaching};

use std::alloc::Allocator;

/// The routes contain only places of the batch. If the pages tile all keys, each place of the batch occurs in a route,
/// and exactly once if its command has a single key.
pub fn each_command_goes_to_its_pages<V, A: Allocator>()
    ensures within { (level : List (Placed V)) (cs : List (Command A)) →
        AllByRecursion (λ place. place < length cs) (flat_map (λ r. r.places) (routes level cs)) }
    ensures some { (level : List (Placed V)) (cs : List (Command A)) (place : ℕ) →
        next_low level None ≡ Some [] → Tiled level None →
        place < length cs → is_among place (flat_map (λ r. r.places) (routes level cs)) ≡ true }
    ensures once { (level : List (Placed V)) (cs : List (Command A)) (place : ℕ) →
        next_low level None ≡ Some [] → Tiled level None →
        place < length cs → is_ranged_at cs place ≡ false →
        count_by (λ other. other == place) (flat_map (λ r. r.places) (routes level cs)) ≡ 1 }
{}

/// The runs of a level are for its pages, from left to right. Each has places of the batch, in rising order, of
/// commands that go to its page. If the pages tile all keys, each place of the batch occurs in a run, and exactly once
/// if its command has a single key.
pub fn each_command_is_in_the_runs_of_its_pages<V, A: Allocator>()
    ensures order { (level : List (Placed V)) (cs : List (Command A)) (rs : List Route) →
        AreRunsOf cs (ranges level) rs → AreRoutesTo cs (ranges level) rs }
    ensures some { (level : List (Placed V)) (cs : List (Command A)) (rs : List Route) (place : ℕ) →
        AreRunsOf cs (ranges level) rs → next_low level None ≡ Some [] → Tiled level None →
        place < length cs → is_among place (flat_map (λ r. r.places) rs) ≡ true }
    ensures once { (level : List (Placed V)) (cs : List (Command A)) (rs : List Route) (place : ℕ) →
        AreRunsOf cs (ranges level) rs → next_low level None ≡ Some [] → Tiled level None →
        place < length cs → is_ranged_at cs place ≡ false →
        count_by (λ other. other == place) (flat_map (λ r. r.places) rs) ≡ 1 }
{}

/// A page's run lacks a command that goes to the page only if the command reaches the page from the left, the run has
/// an earlier wipe that deletes all keys of the page, and no command of the batch sets a value in the page.
pub fn only_what_finds_nothing_is_left_out<A: Allocator>()
    ensures reaches { (cs : List (Command A)) (at : Place) (r : Route) (place : ℕ) →
        IsRunOf cs at r → goes_at cs at.low at.end place ≡ true → is_among place r.places ≡ false →
        reaches_at cs at.low place ≡ true }
    ensures wiped { (cs : List (Command A)) (at : Place) (r : Route) (place : ℕ) → IsRunOf cs at r →
        goes_at cs at.low at.end place ≡ true → is_among place r.places ≡ false →
        (earlier : ℕ) × (earlier < place) × (is_among earlier r.places ≡ true) ×
        ((lo : Bytes) × (hi : Option Bytes) × (slice_get cs earlier ≡ Some (Wipe lo hi)) ×
        ((key : Bytes) → is_within at.low at.end key ≡ true → is_within lo hi key ≡ true)) }
    ensures unput { (cs : List (Command A)) (at : Place) (r : Route)
        (place other : ℕ) (c : Command A) →
        IsRunOf cs at r → goes_at cs at.low at.end place ≡ true → is_among place r.places ≡ false →
        slice_get cs other ≡ Some c → gives c ≡ true → is_within at.low at.end (key_of c) ≡ false }
{}

/// A scan goes to exactly those pages whose ranges meet its bounds (at or above the lower one, below the upper one).
pub fn a_scan_goes_to_the_pages_that_it_meets<A: Allocator>()
    ensures { (lo : Bytes) (hi : Option Bytes) (limit : ℕ) (at : Place) →
        goes_to {A = A} at.low at.end (Scan lo hi limit) ≡ meets lo hi at }
{}

/// A wipe goes to exactly those pages too.
pub fn a_wipe_goes_to_the_pages_that_it_meets<A: Allocator>()
    ensures { (lo : Bytes) (hi : Option Bytes) (at : Place) →
        goes_to {A = A} at.low at.end (Wipe lo hi) ≡ meets lo hi at }
{}

/// The routes of a level are to its pages, from left to right. Each has the places, in rising order, of commands that
/// go to its page.
pub fn routes_are_in_the_order_of_the_pages<V, A: Allocator>()
    ensures { (level : List (Placed V)) (cs : List (Command A)) →
        AreRoutesTo cs (ranges level) (routes level cs) }
{}

/// A batch has only one list of sorted places.
pub fn sorted_places_are_determined<A: Allocator>()
    ensures { (cs : List (Command A)) (ps qs : List ℕ) → AreSortedPlaces cs ps →
        AreSortedPlaces cs qs → ps ≡ qs }
{}

/// Distributing sorted places down the tree: the places of the batch are those of the range of all keys; places in a
/// range, split at a key within it, are the places in the two parts; the commands that reach the next range are exactly
/// those of the ones that reach or begin in a range and extend past it; and the places that reach a page and those that
/// begin in it, sorted into batch order, are the places of the commands that go to the page.
pub fn sorted_places_are_handed_down<A: Allocator>()
    ensures all { (cs : List (Command A)) (ps : List ℕ) → AreSortedPlaces cs ps →
        AreSortedWithin [] None cs ps }
    ensures none { (cs : List (Command A)) → AreSortedReaching [] cs [] }
    ensures parted { (cs : List (Command A)) (low mid : Bytes)
        (end : Option Bytes) (ps : List ℕ) (n : ℕ) →
        AreSortedWithin low end cs ps → order low mid ≡ Less → IsBefore end mid →
        AllByRecursion (λ place. is_below (key_at cs place) mid ≡ true) (take n ps) →
        AllByRecursion (λ place. is_below (key_at cs place) mid ≡ false) (drop n ps) →
        AreSortedWithin low (Some mid) cs (take n ps) × AreSortedWithin mid end cs (drop n ps) }
    ensures onward { (cs : List (Command A)) (low mid : Bytes) (rs ps : List ℕ) →
        AreSortedReaching low cs rs → AreSortedWithin low (Some mid) cs ps → order low mid ≡ Less →
        AreSortedReaching mid cs (filter (reaches_at cs mid) (rs ++ ps)) }
    ensures in_batch_order { (cs : List (Command A)) (low : Bytes)
        (end : Option Bytes) (rs ps qs : List ℕ) →
        AreSortedReaching low cs rs → AreSortedWithin low end cs ps → IsPermutation (rs ++ ps) qs →
        IsNonDecreasing qs → qs ≡ places_within low end cs }
{}
