//! Laws about the definitions of `specs/`. Each law is the contract of a function with an empty body.
ghost use Rattle.std.specs.Prelude.{◌≡◌, ◌+◌, ◌*◌, ◌^◌, ◌<◌, ◌≤◌, ◌↔◌, ℕ, false, List, slice_get, Some};
ghost use Rattle.std.specs.declared.cmp.Ordering.TheVariants.{Less};
ghost use Rattle.keys.specs.Bytes.{Bytes};
ghost use Rattle.keys.specs.Order.{order, AreRisingKeys};
ghost use Rattle.page_search.specs.Costs.{most_among, fewest_among};
ghost use Rattle.page_search.specs.Digits.{binary_digits};
ghost use Rattle.page_search.specs.Places.{count_below};

/// A number can be written with its `binary_digits`, and not with fewer.
pub fn binary_digits_are_enough_and_none_is_spare()
    ensures enough { (n : ℕ) → n < 2 ^ binary_digits n }
    ensures none_spare { (n : ℕ) → 0 < n → 2 ^ binary_digits n ≤ 2 * n }
    ensures none_for_zero { binary_digits 0 ≡ 0 }
{}

/// A search for an absent key takes at least the base-2 logarithm (rounded down) of the number of places where the key
/// could be inserted, and at most one comparison more.
pub fn a_search_is_by_halves()
    ensures no_less { (n : ℕ) → 2 ^ fewest_among false n ≤ n + 1 }
    ensures no_more { (n : ℕ) → n + 1 < 2 ^ (fewest_among false n + 1) }
    ensures close { (n : ℕ) → most_among false n ≤ fewest_among false n + 1 }
{}

/// Of rising keys, exactly those whose place is below the key's count are below the key.
pub fn keys_below_stand_first()
    ensures { (k : Bytes) (ks : List Bytes) (at : ℕ) (j : Bytes) → AreRisingKeys ks →
        slice_get ks at ≡ Some j → ((order j k ≡ Less) ↔ (at < count_below k ks)) }
{}
