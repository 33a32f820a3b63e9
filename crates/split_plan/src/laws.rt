//! Laws about the definitions of `specs/`. Each law is the contract of a function with an empty body.
ghost use Rattle.std.specs.Prelude.{◌≡◌, ◌<◌, ◌/◌, ℕ, ◌⊎◌, ◌↔◌, Bool, true, false, List, [], ◌∷◌, Option, Some, None, length, drop, map, flat_map};
ghost use Rattle.std.specs.List.{AllByRecursion, Any};
ghost use Rattle.keys.specs.Bytes.{Bytes, Changes};
ghost use Rattle.keys.specs.Order.{IsRising};
ghost use Rattle.keys.specs.OrderedMap.{value_at};
ghost use Rattle.keys.specs.declared.settings.Settings.{Settings};
ghost use Rattle.delta_chain.specs.Layers.{with_run};
ghost use Rattle.keys.specs.Lists.{flat};
ghost use Rattle.mapping.specs.FreshPids.{is_among};
ghost use Rattle.mapping.specs.Levels.{Placed, joined, names};
ghost use Rattle.mapping.specs.Proper.{next_low, Tiled};
ghost use Rattle.split_plan.specs.Cut.{piece_count, cut, AllAtMost, AllAtLeast};
ghost use Rattle.split_plan.specs.Groups.{groups, count_kept, begins_thin, cut_by};
ghost use Rattle.page_runs.specs.Updated.{Updated, is_thin, is_fat, is_thin_class};
ghost use Rattle.split_plan.specs.UpdatedLevel.{updated_leaves, placed_of};
ghost use Rattle.split_plan.specs.Change.{Change, is_rewritten, changes, family_changes, new_of, fresh_of, outdated, IsOutdatedIn, all_outdated};
ghost use Rattle.split_plan.specs.Terms.{freed_of, terms, term_at};

/// The concatenated pieces of a split are the entries. No piece has more than `fan` entries, and if there are more than
/// `fan`, no piece has fewer than half of `fan`.
pub fn pieces_are_the_entries<X>()
    ensures joined { (fan : ℕ) (es : List X) → flat (cut fan es) ≡ es }
    ensures count { (fan : ℕ) (es : List X) → length (cut fan es) ≡ piece_count fan (length es) }
    ensures most { (fan : ℕ) (es : List X) → 0 < fan → AllAtMost fan (cut fan es) }
    ensures least { (fan : ℕ) (es : List X) → 0 < fan → fan < length es →
        AllAtLeast (fan / 2) (cut fan es) }
{}

/// The concatenated groups are the children. If some child isn't thin, each group has exactly one such child, and each
/// group except the first begins with it; if all are thin, they form one group.
pub fn groups_are_the_children<X>()
    ensures joined { (thin : X → Bool) (xs : List X) → flat (groups thin xs) ≡ xs }
    ensures one { (thin : X → Bool) (xs : List X) → 0 < count_kept thin xs →
        AllByRecursion (λ g. count_kept thin g ≡ 1) (groups thin xs) }
    ensures later { (thin : X → Bool) (xs : List X) →
        AllByRecursion (λ g. begins_thin thin g ≡ false) (drop 1 (groups thin xs)) }
    ensures thin { (thin : X → Bool) (xs : List X) → count_kept thin xs ≡ 0 → 0 < length xs →
        groups thin xs ≡ xs ∷ [] }
{}

/// The sizes of a family's groups depend only on its pages' classes, and split the family into its groups.
pub fn groups_are_found_by_classes<V>()
    ensures classes { (f : List (Updated V)) →
        map length (groups is_thin_class (map (λ w. w.class) f)) ≡ map length (groups is_thin f) }
    ensures sizes_cut { (f : List (Updated V)) →
        cut_by (map length (groups is_thin f)) f ≡ groups is_thin f }
{}

/// A group is rewritten if and only if it has two or more members, or is a single fat page.
pub fn a_group_is_rewritten_for_its_members<V>()
    ensures { (g : List (Updated V)) →
        (is_rewritten g ≡ true)
        ↔ ((1 < length g) ⊎ ((w : Updated V) × (g ≡ w ∷ []) × (is_fat w ≡ true))) }
{}

/// Which log states become outdated: in a group, those of the members that their run replaced, and those of all members
/// if the group is rewritten; in a family those of its groups, and in a level those of its families.
pub fn outdated_pages_were_replaced_or_rewritten<V>()
    ensures members { (c : Change V) (pid : ℕ) →
        (is_among pid (outdated c) ≡ true) ↔ IsOutdatedIn c.members pid }
    ensures family { (s : Settings) (used : List ℕ) (i : ℕ)
        (gs : List (List (Updated V))) (pid : ℕ) →
        (is_among pid (flat_map outdated (changes s used i gs)) ≡ true)
        ↔ Any (λ g. IsOutdatedIn g pid) gs }
    ensures level { (s : Settings) (used : List ℕ) (i : ℕ) (fs : List (List (Updated V))) (pid : ℕ) →
        (is_among pid (all_outdated (family_changes s used i fs)) ≡ true)
        ↔ Any (λ f. Any (λ g. IsOutdatedIn g pid) (groups is_thin f)) fs }
{}

/// The leaves after their parts of a run have together all their entries with the run applied.
pub fn leaves_share_a_run<V>()
    ensures { (s : Settings) (run : Changes V) (p : Placed V)
        (ps : List (Placed V)) (end : Option Bytes) →
        Tiled (p ∷ ps) end →
        joined (placed_of (updated_leaves s run (p ∷ ps))) ≡ with_run (joined (p ∷ ps)) run }
{}

/// The new pages of a family's groups have its entries and tile its range.
pub fn what_is_made_of_groups_has_their_entries<V>()
    ensures entries { (s : Settings) (used : List ℕ) (i : ℕ) (f : List (Updated V)) →
        joined (new_of (changes s used i (groups is_thin f))) ≡ joined (placed_of f) }
    ensures tiled { (s : Settings) (used : List ℕ) (i : ℕ)
        (f : List (Updated V)) (end : Option Bytes) →
        0 < s.fan → Tiled (placed_of f) end →
        Tiled (new_of (changes s used i (groups is_thin f))) end }
    ensures first { (s : Settings) (used : List ℕ) (i : ℕ)
        (f : List (Updated V)) (end : Option Bytes) →
        next_low (new_of (changes s used i (groups is_thin f))) end ≡ next_low (placed_of f) end }
{}

/// The terms of a family rise. They contain exactly the low keys of freed members and of new pages: with its pid for a
/// new page, and deleted otherwise. They turn the family's entries in the parent into those of the new pages.
pub fn terms_name_the_new_pages<V>()
    ensures rising { (s : Settings) (used : List ℕ) (i : ℕ)
        (f : List (Updated V)) (end : Option Bytes) →
        0 < s.fan → Tiled (placed_of f) end →
        IsRising (terms (changes s used i (groups is_thin f))) }
    ensures said { (s : Settings) (used : List ℕ) (i : ℕ) (f : List (Updated V))
        (end : Option Bytes) (k : Bytes) →
        0 < s.fan → Tiled (placed_of f) end →
        value_at k (terms (changes s used i (groups is_thin f)))
        ≡ term_at (value_at k (names (fresh_of (changes s used i (groups is_thin f)))))
        (value_at k (names (freed_of (changes s used i (groups is_thin f))))) }
    ensures names { (s : Settings) (used : List ℕ) (i : ℕ)
        (f : List (Updated V)) (end : Option Bytes) →
        0 < s.fan → Tiled (placed_of f) end →
        with_run (names (placed_of f)) (terms (changes s used i (groups is_thin f)))
        ≡ names (new_of (changes s used i (groups is_thin f))) }
{}
