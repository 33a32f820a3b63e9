//! The keys at which a batch's scans may end, because the tree certainly has as many rows before them as each scan may
//! have. So a scan visits only the leaves before its end, and not every leaf of its range.
ghost use Rattle.std.specs.Prelude.{◌≡◌, ◌≤◌, ◌&&◌, [], true, Some, map, min, IfOk, IfSome};
ghost use Rattle.std.specs.Map.{keys_of};
ghost use Rattle.std.specs.Option.{option_copied};
ghost use Rattle.keys.specs.Bytes.{Bytes, Pairs};
ghost use Rattle.keys.specs.Narrowed.{IsEnough, MayEndAt, MayEndAtAll};
ghost use Rattle.keys.specs.Range.{is_before, is_below, in_range};
ghost use Rattle.delta_chain.specs.Layers.{entries_of};
ghost use Rattle.mapping.specs.Levels.{levels_of, names, contents};
ghost use Rattle.mapping.specs.Proper.{AreLevels, HoldsItsLevels};
ghost use Rattle.mapping.specs.Tree.{most_levels};
ghost use Rattle.mapping.specs.TreeInMemory.{AreAllHome, tree_of};
ghost use Rattle.scan.specs.Ends.{LacksAtMost, AreCertain, later, named_below};
ghost use Rattle.scan.specs.Ends as ends;
ghost use Rattle.scan.specs.Deletions.{AreReady, IsTaken, IsTakenBelow};

use crate::direction::Upward;
use crate::edge::{Edge, place_from};
use crate::leaves::Leaves;
use crate::taken::{Deletions, DeletionsBelow};
use delta_chain::Chain;
use keys::{Command, Value, compare, is_before};
use mapping::Tree;
use std::alloc::{AllocError, Global};

// A batch with at most this many scans and wipes may visit any number of leaves.
const FEW_RANGES: usize = 16;

/// Returns, for each command of the batch, the key at which its scan may end, if there is one: the low key of a leaf,
/// before which the scan certainly finds as many pairs as its limit, on the map as it is at the scan's place in the
/// batch. So the scan has the same rows if this key is its upper bound, and need not visit that leaf or any after it.
/// The list is empty if the batch has no scan.
///
/// Returns `None` if the batch has more than 16 scans and wipes, and these visit too many leaves, counting each leaf in
/// the range of a wipe, and each leaf that a scan passes although none of its pairs certainly remain. The limit is four
/// times the sum of the numbers of commands and pages.
///
/// For a scan, the time is that of one descent and a step for each leaf up to its end. A step does not read pairs: it
/// takes binary searches in the keys that the batch deletes, and in the bounds of the ranges that it wipes. For a wipe,
/// it is that of one descent and its leaves. Fails with `AllocError` if memory runs out.
pub fn scan_ends<'a>(
    alloc: Global,
    tree: &'a Tree<Global>,
    commands: &[Command<Global>],
) -> Result<Option<Vec<Option<&'a [u8]>>>, AllocError>
    requires home { AreAllHome tree.now }
    requires height { tree.now.height ≤ most_levels }
    requires held { HoldsItsLevels (tree_of tree.now) }
    requires levels { AreLevels (levels_of (tree_of tree.now)) }
    ensures { IfOk result (λ found. IfSome found
        (λ ends. MayEndAtAll (keys_of (names (levels_of (tree_of tree.now)).level))
        (contents (tree_of tree.now)) commands.now (map option_copied ends.items))) }
{
    let Some(room) = room_for_scans(alloc, tree, commands) else {
        return Ok(None);
    };
    if !has_scan(commands) {
        return Ok(Some(Vec::new(alloc)));
    }
    let mut taken = Deletions::before_all(alloc, commands)?;
    all_ends(alloc, tree, commands, &mut taken, room)
}

// Returns how many leaves scans may visit in vain, after the wipes have visited theirs, or `None` if the wipes visit
// too many. This affects only the time and memory of a batch, never its result.
fn room_for_scans(alloc: Global, tree: &Tree<Global>, commands: &[Command<Global>]) -> Option<usize>
    requires home { AreAllHome tree.now }
    requires height { tree.now.height ≤ most_levels }
    requires held { HoldsItsLevels (tree_of tree.now) }
    requires levels { AreLevels (levels_of (tree_of tree.now)) }
{
    if has_few_ranges(commands) {
        return Some(usize::MAX);
    }
    let mut room = most_visits(commands.len(), tree.most_pages());
    for command in commands {
        room = room_after(alloc, tree, command, room)?;
    }
    Some(room)
}

// Returns how many leaves the wipes of a batch may visit, and its scans visit in vain.
fn most_visits(commands: usize, pages: usize) -> usize {
    commands.saturating_add(pages).saturating_mul(4)
}

// Returns what remains of `room` after `command`, if it is a wipe, has visited its leaves, or `None` if it visits more.
fn room_after(
    alloc: Global,
    tree: &Tree<Global>,
    command: &Command<Global>,
    room: usize,
) -> Option<usize>
    requires home { AreAllHome tree.now }
    requires height { tree.now.height ≤ most_levels }
    requires held { HoldsItsLevels (tree_of tree.now) }
    requires levels { AreLevels (levels_of (tree_of tree.now)) }
{
    match command {
        Command::Wipe(lo, Some(hi)) => {
            room_after_wipe(alloc, tree, lo.as_bytes(), Some(hi.as_bytes()), room)
        }
        Command::Wipe(lo, None) => room_after_wipe(alloc, tree, lo.as_bytes(), None, room),
        _ => Some(room),
    }
}

// Returns what remains of `room` after a wipe has visited its leaves, or `None` if it visits more.
fn room_after_wipe(
    alloc: Global,
    tree: &Tree<Global>,
    lo: &[u8],
    hi: Option<&[u8]>,
    room: usize,
) -> Option<usize>
    requires home { AreAllHome tree.now }
    requires height { tree.now.height ≤ most_levels }
    requires held { HoldsItsLevels (tree_of tree.now) }
    requires levels { AreLevels (levels_of (tree_of tree.now)) }
{
    let (_first, mut leaves) = Leaves::<Upward>::new(alloc, tree, &Edge::After(lo));
    let mut room = room;
    while let Some(leaf) = leaves.next() {
        if !is_before(hi, leaf.0) {
            break;
        }
        if room == 0 {
            return None;
        }
        room -= 1;
    }
    Some(room)
}

// Returns whether at most `FEW_RANGES` commands are scans or wipes.
fn has_few_ranges(commands: &[Command<Global>]) -> bool {
    let mut count: usize = 0;
    for command in commands {
        if command.is_ranged() {
            count = count.saturating_add(1);
        }
    }
    count <= FEW_RANGES
}

// Returns the key at which each command may end, if it is a scan, or `None` if the scans visit `room` leaves or more in
// vain. Before the first command nothing is deleted.
fn all_ends<'a>(
    alloc: Global,
    tree: &'a Tree<Global>,
    commands: &[Command<Global>],
    taken: &mut Deletions<'_>,
    room: usize,
) -> Result<Option<Vec<Option<&'a [u8]>>>, AllocError>
    requires home { AreAllHome tree.now }
    requires height { tree.now.height ≤ most_levels }
    requires held { HoldsItsLevels (tree_of tree.now) }
    requires levels { AreLevels (levels_of (tree_of tree.now)) }
    requires none { IsTaken ([], []) taken.old }
    requires ready { AreReady commands.now taken.old }
    ensures { IfOk result (λ found. IfSome found
        (λ ends. MayEndAtAll (keys_of (names (levels_of (tree_of tree.now)).level))
        (contents (tree_of tree.now)) commands.now (map option_copied ends.items))) }
{
    let mut room = room;
    let mut ends = Vec::with_capacity(alloc, commands.len())?;
    for command in commands {
        ends.push(end_of(alloc, tree, command, taken, &mut room))?;
        if room == 0 {
            return Ok(None);
        }
        taken.note(command);
    }
    Ok(Some(ends))
}

// Returns whether one of the commands is a scan. Affects cost only, never the result.
fn has_scan(commands: &[Command<Global>]) -> bool {
    for command in commands {
        if command.is_scan() {
            return true;
        }
    }
    false
}

// Returns the key at which the command may end, if it is a scan, and subtracts its visits in vain from `room`. The
// commands before it delete at most `taken`.
fn end_of<'a>(
    alloc: Global,
    tree: &'a Tree<Global>,
    command: &Command<Global>,
    taken: &Deletions<'_>,
    room: &mut usize,
) -> Option<&'a [u8]>
    requires home { AreAllHome tree.now }
    requires height { tree.now.height ≤ most_levels }
    requires held { HoldsItsLevels (tree_of tree.now) }
    requires levels { AreLevels (levels_of (tree_of tree.now)) }
    ensures { (gone : ends.Deletions) (m : Pairs Bytes) → IsTaken gone taken.now
        → LacksAtMost gone (contents (tree_of tree.now)) m
        → MayEndAt (keys_of (names (levels_of (tree_of tree.now)).level))
        m command.now (option_copied result) }
{
    let Command::Scan(lo, hi, limit) = command else {
        return None;
    };
    match hi {
        Some(hi) => end_of_scan(
            alloc,
            tree,
            lo.as_bytes(),
            Some(hi.as_bytes()),
            *limit,
            taken,
            room,
        ),
        None => end_of_scan(alloc, tree, lo.as_bytes(), None, *limit, taken, room),
    }
}

// Returns the key at which a scan with these bounds may end. The walk sums the pairs that certainly remain in the
// leaves that it passes. The first leaf contains `lo`, so its end is above `lo`.
fn end_of_scan<'a>(
    alloc: Global,
    tree: &'a Tree<Global>,
    lo: &[u8],
    hi: Option<&[u8]>,
    limit: u32,
    taken: &Deletions<'_>,
    room: &mut usize,
) -> Option<&'a [u8]>
    requires home { AreAllHome tree.now }
    requires height { tree.now.height ≤ most_levels }
    requires held { HoldsItsLevels (tree_of tree.now) }
    requires levels { AreLevels (levels_of (tree_of tree.now)) }
    ensures { (gone : ends.Deletions) (m : Pairs Bytes) → IsTaken gone taken.now
        → LacksAtMost gone (contents (tree_of tree.now)) m
        → IfSome result (λ end. IsEnough (keys_of (names (levels_of (tree_of tree.now)).level))
        m lo.now (option_copied hi.entry) limit end.now) }
{
    let (mut leaf, mut leaves) = Leaves::<Upward>::new(alloc, tree, &Edge::After(lo));
    let mut before = taken.below(later(leaf.0, lo));
    let mut certain: usize = 0;
    while let Some(next) = leaves.next() {
        let end = next.0;
        if !is_inside(lo, hi, end) {
            break;
        }
        let here = taken.below(end);
        let more = certain_pairs(leaf.1.whole(), leaf.0, lo, &before, &here);
        if !may_go_on(more, room) {
            break;
        }
        certain = certain.saturating_add(more);
        if certain >= limit as usize {
            return Some(end);
        }
        leaf = next;
        before = here;
    }
    None
}

// Returns whether a leaf with this low key begins inside a scan's range and not at its lower bound.
fn is_inside(lo: &[u8], hi: Option<&[u8]>, low: &[u8]) -> bool
    ensures { result ≡ (is_before (option_copied hi.entry) low.now && is_below lo.now low.now) }
{
    is_before(hi, low) && compare(lo, low).is_lt()
}

// Returns whether a scan may continue after a leaf with `more` certain pairs. If there are none, subtracts this visit
// from `room`.
fn may_go_on(more: usize, room: &mut usize) -> bool {
    if more > 0 {
        return true;
    }
    *room = room.saturating_sub(1);
    *room > 0
}

// Returns the greater of a leaf's low key and a scan's lower bound.
fn later<'k>(low: &'k [u8], lo: &'k [u8]) -> &'k [u8]
    ensures { result.now ≡ later low.entry.now lo.entry.now }
{
    if compare(low, lo).is_lt() { lo } else { low }
}

// Returns how many pairs at or above `lo` certainly remain in a leaf with low key `low`. `before` and `here` count the
// deletions below the start of the scan's part of the leaf and below the leaf's end, and earlier commands delete no
// more than that. If a wiped range may have keys in that part, no pair is certain.
fn certain_pairs(
    chain: &Chain<Value<Global>, Global>,
    low: &[u8],
    lo: &[u8],
    before: &DeletionsBelow,
    here: &DeletionsBelow,
) -> usize
    ensures { (gone : ends.Deletions) (end : Bytes) (m n : Pairs Bytes)
        → IsTakenBelow gone (later low.now lo.now) before.now → IsTakenBelow gone end here.now
        → LacksAtMost gone m n
        → is_below low.now end ≡ true → is_below lo.now end ≡ true
        → entries_of chain.now ≡ in_range low.now (Some end) m
        → AreCertain lo.now n low.now end result }
{
    let Some(most) = before.most_until(here) else {
        return 0;
    };
    let fewest = chain.fewest_entries();
    if compare(low, lo).is_lt() {
        // The scan begins in this leaf, which also contains keys below `lo`.
        fewest
            .saturating_sub(named_below(chain, lo))
            .saturating_sub(most)
    } else {
        fewest.saturating_sub(most)
    }
}

// Returns how many keys below `key` the leaf's lists contain, counted separately in each list: an upper bound on its
// entries below `key`. Takes a binary search in each list.
fn named_below(chain: &Chain<Value<Global>, Global>, key: &[u8]) -> usize
    ensures { result ≡ min (named_below key.now chain.now) usize.MAX }
{
    let mut named = 0usize;
    let mut rest = chain.lent();
    while let Some((run, below)) = rest.newest() {
        named = named.saturating_add(place_from(run, key));
        rest = below;
    }
    named.saturating_add(place_from(rest.base(), key))
}
