//! Laws about the definitions of `specs/`. Each law is the contract of a function with an empty body.
ghost use Rattle.std.specs.Prelude.{◌≡◌, ℕ, ◌<◌, true, false, ◌↔◌, Option, map, length, count_by};
ghost use Rattle.std.specs.Map.{keys_of, values_of};
ghost use Rattle.keys.specs.Bytes.{Bytes, Separators};
ghost use Rattle.keys.specs.Order.{IsRising};
ghost use Rattle.keys.specs.declared.settings.Settings.{Settings};
ghost use Rattle.index_page.specs.Page.{Page, first_key};
ghost use Rattle.index_page.specs.Range.{is_before, is_within, AreBefore};
ghost use Rattle.index_page.specs.Children.{Place, children, is_place_for, meets};
ghost use Rattle.index_page.specs.Rules.{KeepsRange, keeps_range, IsShortValue, IsAnyPid, is_short_value, is_any_pid, Fits, fits_sizes, fits_depth, IsHeaded, is_headed};

/// A page passes a test of its keys, sizes or children if and only if the corresponding fact holds.
pub fn a_page_passes_a_test_where_the_fact_holds<V>()
    ensures keys { (low : Bytes) (end : Option Bytes) (p : Page V) →
        (keeps_range low end p ≡ true) ↔ KeepsRange low end p }
    ensures sizes_of_a_leaf { (s : Settings) (p : Page Bytes) →
        ((fits_sizes s (is_short_value s) p ≡ true) × (fits_depth s p ≡ true))
        ↔ Fits s (IsShortValue s) p }
    ensures sizes_of_an_index_page { (s : Settings) (p : Page ℕ) →
        ((fits_sizes s is_any_pid p ≡ true) × (fits_depth s p ≡ true)) ↔ Fits s IsAnyPid p }
    ensures children { (least : ℕ) (p : Page ℕ) → (is_headed least p ≡ true) ↔ IsHeaded least p }
{}

/// The children that entries denote have the entries' page ids and low keys, and tile the range from the first key to
/// the end: each key of that range lies in the range of exactly one child, and any other key in the range of none.
pub fn children_tile_the_range_of_their_page()
    ensures pids { (es : Separators) (end : Option Bytes) →
        map (λ at. at.pid) (children es end) ≡ values_of es }
    ensures lows { (es : Separators) (end : Option Bytes) →
        map (λ at. at.low) (children es end) ≡ keys_of es }
    ensures one { (es : Separators) (end : Option Bytes) (k : Bytes) → IsRising es → 0 < length es →
        is_within (first_key es) end k ≡ true → count_by (is_place_for k) (children es end) ≡ 1 }
    ensures none { (es : Separators) (end : Option Bytes) (k : Bytes) → IsRising es →
        AreBefore end (keys_of es) → is_within (first_key es) end k ≡ false →
        count_by (is_place_for k) (children es end) ≡ 0 }
{}

/// A child's range meets two bounds if and only if some key lies in both. If there is no key between the bounds, it
/// meets them if and only if the lower bound lies in the range.
pub fn a_range_meets_bounds_where_they_share_a_key()
    ensures shared { (lo : Bytes) (hi : Option Bytes) (at : Place) → is_before hi lo ≡ true →
        is_before at.end at.low ≡ true →
        (meets lo hi at ≡ true)
        ↔ ((k : Bytes) × (is_within lo hi k ≡ true) × (is_place_for k at ≡ true)) }
    ensures empty { (lo : Bytes) (hi : Option Bytes) (at : Place) → is_before hi lo ≡ false →
        meets lo hi at ≡ is_place_for lo at }
{}
