//! Laws about the definitions of `specs/`, stated in terms of an ordered map. Each law is the contract of a function
//! with an empty body.
ghost use Rattle.std.specs.Prelude.{◌≡◌, ◌≢◌, ◌⊎◌, ℕ, ◌+◌, ◌≤◌, true, false, List, [], ◌++◌, length, Option, None, Some};
ghost use Rattle.std.specs.List.{AllByRecursion};
ghost use Rattle.std.specs.Map.{keys_of};
ghost use Rattle.std.specs.declared.cmp.Ordering.TheVariants.{Equal};
ghost use Rattle.std.specs.Cmp.{IsTotalOrder};
ghost use Rattle.keys.specs.Bytes.{Bytes, Pairs};
ghost use Rattle.keys.specs.Order.{order, IsRising, same_pairs};
ghost use Rattle.keys.specs.OrderedMap.{value_at, with_pair, without};
ghost use Rattle.keys.specs.Narrowed.{with_ends, IsEnough, MayEndAtAll};
ghost use Rattle.keys.specs.Range.{is_below, is_within, in_range, rows};
ghost use Rattle.keys.specs.Step.{reply_to, map_after, replies_to, map_after_all};
ghost use Rattle.keys.specs.declared.command.Command.{Command};
ghost use Rattle.keys.specs.declared.command.Command.TheVariants.{Scan, Wipe};
ghost use Rattle.keys.specs.declared.command.Reply.TheVariants.{Rows, Wiped};

use std::alloc::Allocator;

/// The order of keys is total, and only equal byte strings compare as equal.
pub fn keys_are_totally_ordered()
    ensures total { IsTotalOrder order }
    ensures exact { (j k : Bytes) → order j k ≡ Equal → j ≡ k }
{}

/// Two lists of rows are equal if and only if they are the same pairs.
pub fn equal_rows_are_the_same_pairs()
    ensures itself { (m : Pairs Bytes) → same_pairs m m ≡ true }
    ensures exact { (m n : Pairs Bytes) → same_pairs m n ≡ true → m ≡ n }
{}

/// After a put, the key has the new value, and every other key has its old one.
pub fn what_is_put_is_read_back<V>()
    ensures here { (m : Pairs V) (k : Bytes) (v : V) → value_at k (with_pair m k v) ≡ Some v }
    ensures elsewhere { (m : Pairs V) (k q : Bytes) (v : V) → q ≢ k →
        value_at q (with_pair m k v) ≡ value_at q m }
    ensures rising { (m : Pairs V) (k : Bytes) (v : V) → IsRising m → IsRising (with_pair m k v) }
{}

/// After a delete, the key is absent, and every other key has its old value.
pub fn what_is_deleted_is_missing<V>()
    ensures here { (m : Pairs V) (k : Bytes) → IsRising m → value_at k (without m k) ≡ None }
    ensures elsewhere { (m : Pairs V) (k q : Bytes) → IsRising m → q ≢ k →
        value_at q (without m k) ≡ value_at q m }
    ensures rising { (m : Pairs V) (k : Bytes) → IsRising m → IsRising (without m k) }
{}

/// Two maps with the same value at every key are the same list of pairs.
pub fn a_map_is_what_it_has<V>()
    ensures { (m n : Pairs V) → IsRising m → IsRising n →
        ((q : Bytes) → value_at q m ≡ value_at q n) → m ≡ n }
{}

/// Commands keep the keys of a map strictly rising.
pub fn commands_keep_the_order<A: Allocator>()
    ensures one { (m : Pairs Bytes) (c : Command A) → IsRising m → IsRising (map_after m c) }
    ensures all { (m : Pairs Bytes) (cs : List (Command A)) → IsRising m →
        IsRising (map_after_all m cs) }
{}

/// A scan is answered with the rows of its range and does not change the map.
pub fn a_scan_leaves_the_map<A: Allocator>()
    ensures reply { (m : Pairs Bytes) (lo : Bytes) (hi : Option Bytes) (limit : ℕ) →
        reply_to {A = A} m (Scan lo hi limit) ≡ Rows (rows lo hi limit m) }
    ensures map { (m : Pairs Bytes) (lo : Bytes) (hi : Option Bytes) (limit : ℕ) →
        map_after {A = A} m (Scan lo hi limit) ≡ m }
{}

/// A wipe is answered with the number of pairs of the map in its range. Afterwards these keys are absent, every other
/// key has its old value, and the map is shorter by that number of pairs.
pub fn a_wipe_removes_what_lies_in_its_range<A: Allocator>()
    ensures reply { (m : Pairs Bytes) (lo : Bytes) (hi : Option Bytes) →
        reply_to {A = A} m (Wipe lo hi) ≡ Wiped (length (in_range lo hi m)) }
    ensures within { (m : Pairs Bytes) (lo : Bytes) (hi : Option Bytes) (k : Bytes) →
        is_within lo hi k ≡ true → value_at k (map_after {A = A} m (Wipe lo hi)) ≡ None }
    ensures elsewhere { (m : Pairs Bytes) (lo : Bytes) (hi : Option Bytes) (k : Bytes) →
        is_within lo hi k ≡ false → value_at k (map_after {A = A} m (Wipe lo hi)) ≡ value_at k m }
    ensures gone { (m : Pairs Bytes) (lo : Bytes) (hi : Option Bytes) →
        length (map_after {A = A} m (Wipe lo hi)) + length (in_range lo hi m) ≡ length m }
{}

/// Executing the concatenation of two lists of commands is executing the second list on the map that the first one
/// produced. So a theorem about one batch extends to any list of batches.
pub fn joined_commands_follow_one_another<A: Allocator>()
    ensures replies { (m : Pairs Bytes) (cs ds : List (Command A)) →
        replies_to m (cs ++ ds) ≡ replies_to m cs ++ replies_to (map_after_all m cs) ds }
    ensures map { (m : Pairs Bytes) (cs ds : List (Command A)) →
        map_after_all m (cs ++ ds) ≡ map_after_all (map_after_all m cs) ds }
{}

/// The rows of a range are in rising order. Each row is a pair of the map whose key lies in the range. Conversely, each
/// such pair is a row, unless the limit is reached by rows with smaller keys. There are no rows if the range is empty
/// or the limit is zero.
pub fn rows_are_the_first_pairs_of_a_range<V>()
    ensures rising { (m : Pairs V) (lo : Bytes) (hi : Option Bytes) (limit : ℕ) → IsRising m →
        IsRising (rows lo hi limit m) }
    ensures held { (m : Pairs V) (lo : Bytes) (hi : Option Bytes) (limit : ℕ) (k : Bytes) (v : V) →
        IsRising m → value_at k (rows lo hi limit m) ≡ Some v →
        (value_at k m ≡ Some v) × (is_within lo hi k ≡ true) }
    ensures none_left_out { (m : Pairs V) (lo : Bytes) (hi : Option Bytes)
        (limit : ℕ) (k : Bytes) (v : V) →
        IsRising m → value_at k m ≡ Some v → is_within lo hi k ≡ true →
        (value_at k (rows lo hi limit m) ≡ Some v)
        ⊎ ((length (rows lo hi limit m) ≡ limit)
        × AllByRecursion (λ j. is_below j k ≡ true) (keys_of (rows lo hi limit m))) }
    ensures at_most { (m : Pairs V) (lo : Bytes) (hi : Option Bytes) (limit : ℕ) →
        length (rows lo hi limit m) ≤ limit }
    ensures empty_range { (m : Pairs V) (lo hi : Bytes) (limit : ℕ) → is_below lo hi ≡ false →
        rows lo (Some hi) limit m ≡ [] }
    ensures no_limit_left { (m : Pairs V) (lo : Bytes) (hi : Option Bytes) → rows lo hi 0 m ≡ [] }
{}

/// A scan that reaches its limit before some key of the tree may use that key as its upper bound: its answer is the
/// same, and nothing above that key needs to be read for it. Replies and map of a batch stay the same, whichever of its
/// scans are narrowed in this way.
pub fn a_scan_with_enough_rows_may_end<A: Allocator>()
    ensures rows { (keys : List Bytes) (m : Pairs Bytes) (lo : Bytes)
        (hi : Option Bytes) (limit : ℕ) (end : Bytes) →
        IsRising m → IsEnough keys m lo hi limit end →
        rows lo (Some end) limit m ≡ rows lo hi limit m }
    ensures replies { (keys : List Bytes) (m : Pairs Bytes) (cs : List (Command A))
        (ends : List (Option Bytes)) → IsRising m → MayEndAtAll keys m cs ends →
        replies_to m (with_ends cs ends) ≡ replies_to m cs }
    ensures map { (m : Pairs Bytes) (cs : List (Command A)) (ends : List (Option Bytes)) →
        map_after_all m (with_ends cs ends) ≡ map_after_all m cs }
{}
