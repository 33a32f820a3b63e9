//! Laws about the plan of a batch. Each law is the contract of a function with an empty body.
ghost use Rattle.std.specs.Prelude.{◌≡◌, ◌↔◌, ◌⊎◌, ℕ, ◌+◌, true, false, not, List, [], ◌∷◌, ◌++◌, map, drop, length, None, Some, if◌then◌else◌};
ghost use Rattle.std.specs.List.{AllByRecursion, Any, filter, range_with_len};
ghost use Rattle.std.specs.Map.{keys_of};
ghost use Rattle.keys.specs.Bytes.{Bytes};
ghost use Rattle.keys.specs.Limits.{first_bad_field};
ghost use Rattle.keys.specs.Step.{map_after_all};
ghost use Rattle.keys.specs.declared.command.Command.{Command};
ghost use Rattle.keys.specs.declared.command.Command.TheVariants.{Get};
ghost use Rattle.keys.specs.declared.settings.Settings.{Settings};
ghost use Rattle.index_page.specs.Over.{IsPageOver};
ghost use Rattle.index_page.specs.Page.{PageOfKind};
ghost use Rattle.mapping.specs.Tree.{Tree, Store, page_at, logged_of};
ghost use Rattle.mapping.specs.Tree.Logged.{No, Upto};
ghost use Rattle.mapping.specs.FreshPids.{is_among, unused};
ghost use Rattle.mapping.specs.Levels.{Placed, contents, levels_of, all_pids};
ghost use Rattle.mapping.specs.Proper.{AreLogsTrue, IsProper};
ghost use Rattle.page_runs.specs.NetRun.{net_run};
ghost use Rattle.page_runs.specs.Updated.{Updated, is_thin};
ghost use Rattle.split_plan.specs.Groups.{groups};
ghost use Rattle.split_plan.specs.UpdatedLevel.{updated_parents};
ghost use Rattle.split_plan.specs.Change.{Change, family_changes, all_fresh, IsOutdatedIn};
ghost use Rattle.split_plan.specs.Terms.{terms};
ghost use Rattle.climb_plan.specs.Limits.{AreShort};
ghost use Rattle.climb_plan.specs.Climb.{families, climb, is_lone, kept_levels};
ghost use Rattle.mapping.specs.Outdate.{outdate};
ghost use Rattle.climb_plan.specs.Plan.{batch_climb, plan, outdated_pids, shrunk_pids};

use std::alloc::Allocator;

/// The contents of the planned store are the map after the commands. (A plan has no replies: `page_runs` has the law
/// about the commands on some keys, from which they follow.)
pub fn the_plan_holds_the_map_after_the_commands<A: Allocator>()
    ensures { (s : Settings) (st : Store) (cs : List (Command A)) →
        first_bad_field s ≡ None → IsProper s st.tree →
        contents (plan s st cs).tree ≡ map_after_all (contents st.tree) cs }
{}

/// The plan of a proper store is proper, if the commands' keys and values are within the settings.
pub fn the_plan_of_a_proper_store_is_proper<A: Allocator>()
    ensures { (s : Settings) (st : Store) (cs : List (Command A)) →
        first_bad_field s ≡ None → IsProper s st.tree → AreShort s cs →
        IsProper s (plan s st cs).tree }
{}

/// True log states stay true: if the log contains the base and k runs of a pid, there is a page with at least k runs.
pub fn the_log_states_stay_true<A: Allocator>()
    ensures { (s : Settings) (st : Store) (cs : List (Command A)) →
        first_bad_field s ≡ None → IsProper s st.tree → AreLogsTrue st.tree →
        AreLogsTrue (plan s st cs).tree }
{}

/// What a batch leaves unchanged. The log state of a pid changes if and only if the pid is outdated, from `Upto` to
/// `Old`. A page whose pid isn't outdated keeps its contents, with newer runs in front, whatever its log state is.
pub fn what_is_not_outdated_stands<A: Allocator>()
    ensures logged { (s : Settings) (st : Store) (cs : List (Command A)) (pid : ℕ) →
        logged_of (plan s st cs).tree pid ≡ (if is_among pid (outdated_pids s st.tree cs)
        then outdate (logged_of st.tree pid) else logged_of st.tree pid) }
    ensures stands { (s : Settings) (st : Store) (cs : List (Command A)) (pid : ℕ)
        (p : PageOfKind) → first_bad_field s ≡ None → IsProper s st.tree →
        is_among pid (outdated_pids s st.tree cs) ≡ false → page_at st.tree.pages pid ≡ Some p →
        (q : PageOfKind) × (page_at (plan s st cs).tree.pages pid ≡ Some q) × IsPageOver p q }
{}

/// The outdated pids are those of the climb and those removed with the old root. In a climb, they are on the highest
/// level the outdated ones of its single group; on a level below, those of its families' groups and those of the climb
/// above. Each was in use, so a fresh pid keeps its log state.
pub fn outdated_pids_are_those_of_groups_and_of_the_old_root<A: Allocator, V>()
    ensures plan { (s : Settings) (t : Tree) (cs : List (Command A)) (pid : ℕ) →
        (is_among pid (outdated_pids s t cs) ≡ true) ↔
        ((is_among pid (batch_climb s t cs).outdated ≡ true)
        ⊎ (is_among pid (shrunk_pids (batch_climb s t cs).tower.above) ≡ true)) }
    ensures in_use { (s : Settings) (t : Tree) (cs : List (Command A)) (pid : ℕ) → IsProper s t →
        is_among pid (outdated_pids s t cs) ≡ true → is_among pid (keys_of t.pages) ≡ true }
    ensures top { (s : Settings) (used : List ℕ) (i : ℕ) (ws : List (Updated V)) (pid : ℕ) →
        (is_among pid (climb s used i ws []).outdated ≡ true) ↔ IsOutdatedIn ws pid }
    ensures below { (s : Settings) (used : List ℕ) (i : ℕ) (ws : List (Updated V))
        (parents : List (Placed ℕ)) (ups : List (List (Placed ℕ))) (pid : ℕ) →
        let css : List (List (Change V)) = family_changes s used i (families parents ws) in
        (is_among pid (climb s used i ws (parents ∷ ups)).outdated ≡ true) ↔
        (Any (λ f. Any (λ g. IsOutdatedIn g pid) (groups is_thin f)) (families parents ws)
        ⊎ (is_among pid (climb s used (i + length (all_fresh css))
        (updated_parents s parents (map terms css)) ups).outdated ≡ true)) }
{}

/// The root shrinks while it has one child: the removed levels are the highest ones, each of them is one page with one
/// child, and the highest remaining level is not.
pub fn the_root_shrinks_while_it_has_one_child()
    ensures joined { (ls : List (List (Placed ℕ))) →
        kept_levels ls ++ drop (length (kept_levels ls)) ls ≡ ls }
    ensures lone { (ls : List (List (Placed ℕ))) →
        AllByRecursion (λ l. is_lone l ≡ true) (drop (length (kept_levels ls)) ls) }
    ensures top { (ls lower : List (List (Placed ℕ))) (top : List (Placed ℕ)) →
        kept_levels ls ≡ lower ++ top ∷ [] → is_lone top ≡ false }
{}

/// Commands whose net run is empty, for example a batch of gets, leave the store unchanged: every page, the root, the
/// height and the log states. No pid is outdated.
pub fn commands_that_come_to_nothing_change_nothing<A: Allocator>()
    ensures store { (s : Settings) (st : Store) (cs : List (Command A)) → IsProper s st.tree →
        net_run (contents st.tree) cs ≡ [] → plan s st cs ≡ st }
    ensures outdated { (s : Settings) (st : Store) (cs : List (Command A)) → IsProper s st.tree →
        net_run (contents st.tree) cs ≡ [] → outdated_pids s st.tree cs ≡ [] }
    ensures gets { (s : Settings) (st : Store) (keys : List Bytes) → IsProper s st.tree →
        plan {A = A} s st (map (λ k. Get k) keys) ≡ st }
{}

/// The pids of new pages are the unused numbers, from the least on and without gaps, in the order of the pages: level
/// by level from the leaves up, and within a level from left to right.
pub fn new_pages_are_numbered_in_order<A: Allocator>()
    ensures { (s : Settings) (st : Store) (cs : List (Command A)) →
        first_bad_field s ≡ None → IsProper s st.tree →
        (n : ℕ) × (filter (λ pid. not (is_among pid (keys_of st.tree.pages)))
        (all_pids (levels_of (plan s st cs).tree).level (levels_of (plan s st cs).tree).above)
        ≡ map (unused (keys_of st.tree.pages)) (range_with_len 0 n)) }
{}

/// Log states stay true. After the batch, a pid has the log state `No` if and only if it had that state before, and
/// `Upto k` only if it had that state before. A page whose log state is still `Upto k` keeps its contents, with newer
/// runs in front.
pub fn what_the_log_has_of_a_page_stays_true<A: Allocator>()
    ensures none { (s : Settings) (st : Store) (cs : List (Command A)) (pid : ℕ) →
        (logged_of st.tree pid ≡ No) ↔ (logged_of (plan s st cs).tree pid ≡ No) }
    ensures upto { (s : Settings) (st : Store) (cs : List (Command A)) (pid k : ℕ) →
        logged_of (plan s st cs).tree pid ≡ Upto k → logged_of st.tree pid ≡ Upto k }
    ensures stands { (s : Settings) (st : Store) (cs : List (Command A)) (pid k : ℕ)
        (p : PageOfKind) → first_bad_field s ≡ None → IsProper s st.tree →
        logged_of (plan s st cs).tree pid ≡ Upto k → page_at st.tree.pages pid ≡ Some p →
        (q : PageOfKind) × (page_at (plan s st cs).tree.pages pid ≡ Some q) × IsPageOver p q }
{}
