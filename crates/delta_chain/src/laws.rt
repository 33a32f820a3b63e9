//! Laws about the definitions of `specs/`. Each law is the contract of a function with an empty body.
ghost use Rattle.std.specs.Prelude.{◌≡◌, ◌≤◌, ◌∷◌, [], length};
ghost use Rattle.keys.specs.Bytes.{Bytes, Pairs, Changes};
ghost use Rattle.keys.specs.Order.{IsRising};
ghost use Rattle.keys.specs.OrderedMap.{value_at};
ghost use Rattle.delta_chain.specs.Lazy.{Lazy, seen};
ghost use Rattle.delta_chain.specs.Layers.{Layers, change_or, holds, with_run, entries_of, IsInOrder};

/// Entries with a run applied have at each key the run's change, or their own value if the run does not contain the
/// key. Their keys rise.
pub fn a_run_says_or_leaves<V>()
    ensures holds { (m : Pairs V) (run : Changes V) (k : Bytes) → IsRising m → IsRising run →
        value_at k (with_run m run) ≡ change_or (value_at k run) (value_at k m) }
    ensures rising { (m : Pairs V) (run : Changes V) → IsRising m → IsRising (with_run m run) }
{}

/// A page's entries are exactly what the page holds at each key, and their keys rise.
pub fn entries_are_what_is_held<V>()
    ensures holds { (p : Layers V) (k : Bytes) → IsInOrder p →
        value_at k (entries_of p) ≡ holds p k }
    ensures rising { (p : Layers V) → IsInOrder p → IsRising (entries_of p) }
{}

/// Counting runs as merged does not change what the page holds. If none count as merged, the page is the chain; if all
/// do, it is a base of the chain's entries. Prepending a run to the chain prepends it to the page.
pub fn a_late_base_is_what_its_runs_make<V>()
    ensures entries { (c : Lazy V) → entries_of (seen c) ≡ entries_of c.chain }
    ensures rising { (c : Lazy V) → IsInOrder c.chain → IsInOrder (seen c) }
    ensures holds { (c : Lazy V) (k : Bytes) → IsInOrder c.chain →
        holds (seen c) k ≡ holds c.chain k }
    ensures early { (p : Layers V) → seen (record { chain = p; merged_runs = 0 }) ≡ p }
    ensures merged_runs { (p : Layers V) →
        seen (record { chain = p; merged_runs = length p.runs })
        ≡ record { runs = []; base = entries_of p } }
    ensures in_front { (c : Lazy V) (run : Changes V) → c.merged_runs ≤ length c.chain.runs →
        seen (record {
          chain = record { runs = run ∷ c.chain.runs; base = c.chain.base };
          merged_runs = c.merged_runs;
        }) ≡
        record { runs = run ∷ (seen c).runs; base = (seen c).base } }
{}
