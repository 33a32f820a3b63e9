//! Laws about the definitions of `specs/`. Each law is the contract of a function with an empty body.
ghost use Rattle.std.specs.Prelude.{◌≡◌, ◌↔◌, ◌<◌, ◌≤◌, ◌+◌, ℕ, suc, false, List, [], None, length, Bool, true, ◌||◌, nat_eq, ◌∷◌, ◌++◌, Option, Some, is_some, count_by};
ghost use Rattle.std.specs.Map.{keys_of};
ghost use Rattle.keys.specs.Bytes.{Bytes};
ghost use Rattle.keys.specs.Order.{IsRising};
ghost use Rattle.keys.specs.declared.settings.Settings.{Settings};
ghost use Rattle.index_page.specs.Page.{PageOfKind};
ghost use Rattle.mapping.specs.Tree.{Tree, first_tree, listed_at, logged_of};
ghost use Rattle.mapping.specs.Levels.{Levels, levels_of, contents, all_pages, by_pid, top_pid, all_pids, Placed, entries, joined, names};
ghost use Rattle.mapping.specs.FreshPids.{is_among, unused, with_number};
ghost use Rattle.mapping.specs.Table.{Mapping, pids_in_use, place_of, log_of, is_old, fresh_pids, with_rooms, freed_all, IsOldWithoutPlace, pids_in_use_or_old};
ghost use Rattle.mapping.specs.Finding.{finding};
ghost use Rattle.mapping.specs.Proper.{Stacked, Distinct, AreRisingPids, HoldsLevels, AreLogsTrue, IsTree, IsProper, next_low, Tiled};
ghost use Rattle.keys.specs.OrderedMap.{value_at};
ghost use Rattle.index_page.specs.Children.{children, is_place_for};
ghost use Rattle.index_page.specs.Range.{is_within};

/// The walk from the root finds no violation if and only if the tree is proper.
pub fn nothing_is_found_exactly_in_a_proper_tree()
    ensures { (s : Settings) (t : Tree) → IsTree t → ((finding s t ≡ None) ↔ IsProper s t) }
{}

/// The contents of a proper tree are an ordered map.
pub fn the_contents_of_a_proper_tree_rise()
    ensures { (s : Settings) (t : Tree) → IsProper s t → IsRising (contents t) }
{}

/// The tree of a new store is proper under any settings, its log states are true, and it is empty.
pub fn the_first_tree_is_proper_and_empty()
    ensures proper { (s : Settings) → IsProper s first_tree }
    ensures logs { AreLogsTrue first_tree }
    ensures empty { contents first_tree ≡ [] }
{}

/// A table made of levels with distinct pids contains their pages and no others, and its pids rise; no other table
/// does. A walk from the root of a table made of levels finds these levels.
pub fn levels_are_found_in_their_table()
    ensures holds { (l : Levels) → Distinct (all_pids l.level l.above) →
        HoldsLevels (by_pid (all_pages l)) l }
    ensures rising { (l : Levels) → AreRisingPids (keys_of (by_pid (all_pages l))) }
    ensures only { (t : List (ℕ × PageOfKind)) (l : Levels) → AreRisingPids (keys_of t) →
        Distinct (all_pids l.level l.above) → HoldsLevels t l → by_pid (all_pages l) ≡ t }
    ensures found { (t : Tree) (l : Levels) → HoldsLevels t.pages l → Stacked l.level l.above →
        t.root ≡ top_pid l.level l.above → t.height ≡ suc (length l.above) → levels_of t ≡ l }
{}

/// A proper tree is determined by its pages: they allow only one root and one height.
pub fn a_proper_tree_is_determined_by_its_pages()
    ensures { (s : Settings) (t u : Tree) → IsProper s t → IsProper s u → t.pages ≡ u.pages →
        (t.root ≡ u.root) × (t.height ≡ u.height) }
{}

/// The pids for new pages are unused, rise from place to place, and skip no unused number. After one of them is taken
/// into use, the following ones move one place forward, so allocating several pids at once equals allocating them one
/// by one.
pub fn fresh_pids_are_the_least_unused_numbers()
    ensures free { (used : List ℕ) (n : ℕ) → AreRisingPids used →
        is_among (unused used n) used ≡ false }
    ensures rising { (used : List ℕ) (m n : ℕ) → m < n → unused used m < unused used n }
    ensures least { (used : List ℕ) (n k : ℕ) → AreRisingPids used → is_among k used ≡ false →
        k < unused used n → (m : ℕ) × (m < n) × (k ≡ unused used m) }
    ensures drawn { (used : List ℕ) (n m : ℕ) → AreRisingPids used → n ≤ m →
        unused (with_number (unused used n) used) m ≡ unused used (suc m) }
{}

/// Taking an unused number into use keeps the numbers rising and adds only that number.
pub fn a_number_taken_into_use_is_one_more()
    ensures rising { (used : List ℕ) (n : ℕ) → AreRisingPids used → is_among n used ≡ false →
        AreRisingPids (with_number n used) }
    ensures among { (used : List ℕ) (m n : ℕ) →
        is_among m (with_number n used) ≡ (nat_eq m n || is_among m used) }
{}

/// Two lists by rising pid with the same entry under each pid are equal. So are the log states of two trees that are
/// true and equal for each pid.
pub fn a_table_is_what_it_has<V>()
    ensures listed { (ps qs : List (ℕ × V)) → AreRisingPids (keys_of ps) →
        AreRisingPids (keys_of qs) → ((pid : ℕ) → listed_at ps pid ≡ listed_at qs pid) → ps ≡ qs }
    ensures logged { (t u : Tree) → AreLogsTrue t → AreLogsTrue u →
        ((pid : ℕ) → logged_of t pid ≡ logged_of u pid) → t.logged ≡ u.logged }
{}

/// In a level whose pages' ranges are contiguous, the parents' entries give the pages' ranges; each key from the first
/// low key up to the end lies in the range of exactly one page, and any other key in none; and that page has at the key
/// what all pages of the level together have there.
pub fn each_key_of_a_level_is_in_one_page<V>()
    ensures range { (xs ys : List (Placed V)) (p : Placed V) (end : Option Bytes) →
        children (names (xs ++ p ∷ ys)) end
        ≡ children (names xs) (Some p.page.low)
        ++ record { pid = p.pid; low = p.page.low; end = next_low ys end }
        ∷ children (names ys) end }
    ensures one { (ps : List (Placed V)) (end : Option Bytes) (low k : Bytes) → Tiled ps end →
        next_low ps end ≡ Some low → is_within low end k ≡ true →
        count_by (is_place_for k) (children (names ps) end) ≡ 1 }
    ensures none { (ps : List (Placed V)) (end : Option Bytes) (low k : Bytes) → Tiled ps end →
        next_low ps end ≡ Some low → is_within low end k ≡ false →
        count_by (is_place_for k) (children (names ps) end) ≡ 0 }
    ensures found { (ps : List (Placed V)) (end : Option Bytes) (low k : Bytes) →
        next_low ps end ≡ Some low → is_within low end k ≡ true →
        (xs : List (Placed V)) × (p : Placed V) × (ys : List (Placed V)) × (ps ≡ xs ++ p ∷ ys)
        × (is_within p.page.low (next_low ys end) k ≡ true) }
    ensures held { (xs ys : List (Placed V)) (p : Placed V) (end : Option Bytes) (k : Bytes) →
        Tiled (xs ++ p ∷ ys) end → is_within p.page.low (next_low ys end) k ≡ true →
        value_at k (entries p) ≡ value_at k (joined (xs ++ p ∷ ys)) }
{}

/// The pids that a table iterates over rise. A pid is among them if and only if it has a place or its log state is
/// `Old`.
pub fn a_table_knows_the_pids_in_use_and_the_old_ones<P>()
    ensures rising { (t : Mapping P) → AreRisingPids (pids_in_use t) →
        AreRisingPids (pids_in_use_or_old t) }
    ensures among { (t : Mapping P) (pid : ℕ) → AreRisingPids (keys_of t.logged) →
        is_among pid (pids_in_use_or_old t) ≡ (is_some (place_of t pid) || is_old (log_of t pid)) }
{}

/// Allocated pids get empty places; other places and all log states stay. The next allocated pids are those
/// that would have followed, and freeing the allocated pids restores the table.
pub fn drawn_pids_get_places_that_are_away<P>()
    ensures away { (t : Mapping P) (n pid : ℕ) → AreRisingPids (pids_in_use t) →
        is_among pid (fresh_pids (pids_in_use t) n) ≡ true →
        place_of (with_rooms t (fresh_pids (pids_in_use t) n)) pid ≡ Some None }
    ensures others { (t : Mapping P) (n pid : ℕ) → AreRisingPids (pids_in_use t) →
        is_among pid (fresh_pids (pids_in_use t) n) ≡ false →
        place_of (with_rooms t (fresh_pids (pids_in_use t) n)) pid ≡ place_of t pid }
    ensures logged { (t : Mapping P) (n : ℕ) → AreRisingPids (pids_in_use t) →
        (with_rooms t (fresh_pids (pids_in_use t) n)).logged ≡ t.logged }
    ensures rising { (t : Mapping P) (n : ℕ) → AreRisingPids (pids_in_use t) →
        AreRisingPids (pids_in_use (with_rooms t (fresh_pids (pids_in_use t) n))) }
    ensures next { (t : Mapping P) (n m : ℕ) → AreRisingPids (pids_in_use t) →
        unused (pids_in_use (with_rooms t (fresh_pids (pids_in_use t) n))) m
        ≡ unused (pids_in_use t) (n + m) }
    ensures freed { (t : Mapping P) (n : ℕ) → AreRisingPids (pids_in_use t) → IsOldWithoutPlace t →
        freed_all (with_rooms t (fresh_pids (pids_in_use t) n)) (fresh_pids (pids_in_use t) n) ≡ t }
{}
