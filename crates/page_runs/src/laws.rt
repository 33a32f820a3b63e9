//! Laws about the definitions of `specs/`. Each law is the contract of a function with an empty body.
ghost use Rattle.std.specs.Prelude.{◌≡◌, ℕ, Bool, true, false, if◌then◌else◌, length, List, [], flat_map, take, Option, Some, None};
ghost use Rattle.std.specs.List.{filter, sum_by};
ghost use Rattle.keys.specs.Bytes.{Bytes, Pairs, Changes};
ghost use Rattle.keys.specs.CommandKey.{is_ranged};
ghost use Rattle.keys.specs.Order.{IsRising};
ghost use Rattle.keys.specs.OrderedMap.{value_at};
ghost use Rattle.keys.specs.Range.{in_range, rows};
ghost use Rattle.keys.specs.Step.{reply_to, map_after, replies_to, map_after_all};
ghost use Rattle.keys.specs.declared.command.Command.{Command};
ghost use Rattle.keys.specs.declared.command.Command.TheVariants.{Scan, Wipe};
ghost use Rattle.keys.specs.declared.settings.Settings.{Settings};
ghost use Rattle.delta_chain.specs.Layers.{Layers, with_run, entries_of, IsInOrder};
ghost use Rattle.mapping.specs.Levels.{Placed};
ghost use Rattle.mapping.specs.Proper.{next_low, Tiled};
ghost use Rattle.routing.specs.Routes.{goes_to, ranges};
ghost use Rattle.page_runs.specs.AfterRun.{after_run};
ghost use Rattle.page_runs.specs.NetRun.{net_run};
ghost use Rattle.page_runs.specs.Apart.{single_key, is_on_one, IsOff, IsWithin, TakesAll, TakesNoOther, GivesNoOther, HasNoOther, replies_where, AgreeOn};

use std::alloc::Allocator;

/// Applying the net run of commands to the map before them gives the map after them. The keys of the net run rise.
pub fn the_net_run_is_what_the_commands_come_to<A: Allocator>()
    ensures map { (m : Pairs Bytes) (cs : List (Command A)) → IsRising m →
        with_run m (net_run m cs) ≡ map_after_all m cs }
    ensures rising { (m : Pairs Bytes) (cs : List (Command A)) → IsRising (net_run m cs) }
{}

/// A page's entries after a run are its entries with the run applied, whether or not the page was replaced.
pub fn a_page_after_a_run_has_the_run_applied<V>()
    ensures entries { (s : Settings) (p : Layers V) (run : Changes V) →
        entries_of (after_run s p run) ≡ with_run (entries_of p) run }
    ensures in_order { (s : Settings) (p : Layers V) (run : Changes V) → IsInOrder p →
        IsRising run → IsInOrder (after_run s p run) }
{}

/// The commands on some of the keys can be executed alone, on any map that agrees with the whole map at these keys;
/// other commands may be executed with them. The commands on one of these keys get the same replies as among all
/// commands, and if only they are executed, there are no other replies. The maps afterwards agree at these keys, where
/// the net run has the changes of the net run of all commands. The net run contains no other key if no command on
/// another key is executed, or if the map has no other key and no executed command sets one. A command on a single key
/// is on one of these keys if and only if its key is.
pub fn commands_on_some_keys_can_be_executed_apart<A: Allocator>()
    ensures replies { (is_own : Bytes → Bool) (is_taken : Command A → Bool)
        (m x : Pairs Bytes) (cs : List (Command A)) →
        TakesAll is_own is_taken → IsRising m → IsRising x → AgreeOn is_own m x →
        replies_where (is_on_one is_own) cs (replies_to m cs)
        ≡ replies_where (is_on_one is_own) (filter is_taken cs)
        (replies_to x (filter is_taken cs)) }
    ensures all_replies { (is_own : Bytes → Bool) (x : Pairs Bytes) (cs : List (Command A)) →
        let own = filter (is_on_one is_own) cs in
        replies_where (is_on_one is_own) own (replies_to x own) ≡ replies_to x own }
    ensures map { (is_own : Bytes → Bool) (is_taken : Command A → Bool)
        (m x : Pairs Bytes) (cs : List (Command A)) →
        TakesAll is_own is_taken → IsRising m → IsRising x → AgreeOn is_own m x →
        AgreeOn is_own (map_after_all m cs) (map_after_all x (filter is_taken cs)) }
    ensures run { (is_own : Bytes → Bool) (is_taken : Command A → Bool) (m x : Pairs Bytes)
        (cs : List (Command A)) (k : Bytes) →
        TakesAll is_own is_taken → IsRising m → IsRising x → AgreeOn is_own m x → is_own k ≡ true →
        value_at k (net_run m cs) ≡ value_at k (net_run x (filter is_taken cs)) }
    ensures no_other { (is_own : Bytes → Bool) (is_taken : Command A → Bool) (x : Pairs Bytes)
        (cs : List (Command A)) (k : Bytes) →
        TakesNoOther is_own is_taken → is_own k ≡ false →
        value_at k (net_run x (filter is_taken cs)) ≡ None }
    ensures no_other_there { (is_own : Bytes → Bool) (is_taken : Command A → Bool) (x : Pairs Bytes)
        (cs : List (Command A)) (k : Bytes) →
        GivesNoOther is_own is_taken → HasNoOther is_own x → IsRising x → is_own k ≡ false →
        value_at k (net_run x (filter is_taken cs)) ≡ None }
    ensures within { (is_own : Bytes → Bool) (c : Command A) (k : Bytes) → single_key c ≡ Some k →
        is_own k ≡ true → IsWithin is_own c }
    ensures off { (is_own : Bytes → Bool) (c : Command A) (k : Bytes) → single_key c ≡ Some k →
        is_own k ≡ false → IsOff is_own c }
{}

/// A command that goes to a page changes the page's range as it changes the page's own pairs. A command on a single key
/// gets its page's answer; a scan's rows are the concatenated rows of its pages, cut at the limit; and a wipe deletes
/// as many pairs as it deletes in its pages together.
pub fn each_page_answers_its_part<V, A: Allocator>()
    ensures map { (low : Bytes) (end : Option Bytes) (m : Pairs Bytes) (c : Command A) →
        IsRising m →
        in_range low end (map_after m c)
        ≡ (if goes_to low end c then map_after (in_range low end m) c else in_range low end m) }
    ensures reply { (low : Bytes) (end : Option Bytes) (m : Pairs Bytes) (c : Command A) →
        IsRising m → is_ranged c ≡ false → goes_to low end c ≡ true →
        reply_to (in_range low end m) c ≡ reply_to m c }
    ensures rows { (level : List (Placed V)) (m : Pairs Bytes) (lo : Bytes)
        (hi : Option Bytes) (limit : ℕ) →
        next_low level None ≡ Some [] → Tiled level None → IsRising m →
        take limit (flat_map (λ at. if goes_to {A = A} at.low at.end (Scan lo hi limit)
        then rows lo hi limit (in_range at.low at.end m) else []) (ranges level))
        ≡ rows lo hi limit m }
    ensures counts { (level : List (Placed V)) (m : Pairs Bytes) (lo : Bytes) (hi : Option Bytes) →
        next_low level None ≡ Some [] → Tiled level None → IsRising m →
        sum_by (λ at. if goes_to {A = A} at.low at.end (Wipe lo hi)
        then length (in_range lo hi (in_range at.low at.end m)) else 0) (ranges level)
        ≡ length (in_range lo hi m) }
{}
