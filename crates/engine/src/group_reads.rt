//! The work on the leaves of a batch of gets. Leaves are read in groups: memory that the searches of a group will need is
//! first read for all its leaves, so that their cache misses overlap.
ghost use Rattle.std.specs.Prelude.{◌≡◌, ◌++◌, ℕ, true, map, IfOk, OnOk};
ghost use Rattle.std.specs.List.{AllByRecursion, list_all};
ghost use Rattle.keys.specs.Lists.{flat};
ghost use Rattle.keys.specs.PlacedPieces.{by_place};
ghost use Rattle.page_runs.specs.Reads.{IsRouteToRead, route_answers};
ghost use Rattle.page_runs.specs.Replies.{ArePlacesOf};
ghost use Rattle.replies.specs.ByPlace.{pieces_at};
ghost use Rattle.engine.specs.GroupReads.{group_at, group_answers, is_get, group_leaf_answers, piece_of};

use crew::{Turn, Work};
use delta_chain::{Chain, KeyList};
use keys::{Command, KeyRef, Piece, Pieces, Reply, Value};
use mapping::Tree;
use routing::PageRun;
use std::alloc::{AllocError, Global};
use std::marker::Model;

/// How many leaves a group has.
pub(crate) const GROUP: usize = 16;

// A number that the sum of the reads equals only by chance.
const UNLIKELY: usize = 0x9e37_79b9_7f4a_7c15;

type LeafChain = Chain<Value<Global>, Global>;

/// The work on groups of leaves. The input is the place of a group's first leaf in the list; the output is the answers
/// of the group's leaves.
#[derive(Drop)]
pub(crate) struct GroupReads<'a> {
    /// Allocates the answers.
    pub(crate) alloc: Global,
    /// The whole batch, which has only gets.
    pub(crate) commands: &'a [Command<Global>],
    /// The tree of the leaves.
    pub(crate) tree: &'a Tree<Global>,
    /// The places of each leaf's commands.
    pub(crate) page_runs: &'a [PageRun],
}

/// The answers of a group's leaves.
#[derive(Drop)]
pub(crate) struct GroupRead {
    start: usize,
    pieces: Pieces<Global>,
}

// A leaf, and the places of its commands.
#[derive(Drop)]
pub(crate) struct GroupLeaf<'a> {
    page_run: &'a PageRun,
    chain: &'a LeafChain,
}

// The value that the `Get` at a place of the batch finds.
#[derive(Drop)]
pub(crate) struct Found<'a> {
    place: usize,
    value: Option<&'a Value<Global>>,
}

impl GroupRead {
    /// Returns the answers.
    pub(crate) fn into_pieces(self) -> Pieces<Global>
        ensures { result ≡ self.pieces }
    {
        let GroupRead { start: _, pieces } = self;
        pieces
    }
}

impl<'a> Work for GroupReads<'a> {
    ghost use Rattle.std.specs.Prelude.{◌≡◌, ℕ, List, true};
    ghost use Rattle.std.specs.List.{AllByRecursion, list_all};
    ghost use Rattle.std.specs.declared.alloc.Global.{Global};
    ghost use Rattle.keys.specs.declared.piece.Piece.{Piece};
    ghost use Rattle.page_runs.specs.Reads.{IsRouteToRead};
    ghost use Rattle.engine.specs.GroupReads.{group_at, group_answers, is_get};

    type Job = usize;

    type Done = GroupRead;

    ghost Held = { ℕ };

    ghost Made = { List (Piece Global) };

    ghost accepts = { λ w start. (list_all is_get w.commands.now ≡ true)
        × AllByRecursion (IsRouteToRead w.tree.now w.commands.now) w.page_runs.now };

    ghost held = { λ start. start };

    ghost origin = { λ d. d.start };

    ghost outcome = { λ d. d.pieces };

    ghost made = { λ w start. group_answers w.tree.now w.commands.now
        (group_at w.page_runs.now start) };

    fn work(&self, start: usize) -> Turn<usize, GroupRead> {
        let page_runs = group_at(self.page_runs, start);
        match read_group(self.alloc, self.commands, self.tree, page_runs) {
            Ok(pieces) => Turn::Done(GroupRead { start, pieces }),
            Err(_) => Turn::Back(start),
        }
    }

    fn undo(&self, done: GroupRead) -> usize {
        done.start
    }
}

// The group that begins at this place.
fn group_at(page_runs: &[PageRun], start: usize) -> &[PageRun]
    ensures { result.now ≡ group_at page_runs.now start }
{
    let start = start.min(page_runs.len());
    let rest = &page_runs[start..];
    &rest[..GROUP.min(rest.len())]
}

// The answers of the leaves of these routes. What the functions `look_at_*` read means nothing: they only bring the
// memory into the caches.
fn read_group(
    alloc: Global,
    commands: &[Command<Global>],
    tree: &Tree<Global>,
    page_runs: &[PageRun],
) -> Result<Pieces<Global>, AllocError>
    requires gets { list_all is_get commands.now ≡ true }
    requires routes { AllByRecursion (IsRouteToRead tree.now commands.now) page_runs.now }
    ensures { IfOk result (λ pieces. pieces ≡ group_answers tree.now commands.now page_runs.now) }
{
    let mut sum = look_at_commands(commands, page_runs);
    let leaves = find_leaves(alloc, commands, tree, page_runs)?;
    sum = sum.wrapping_add(look_at_counts(&leaves));
    sum = sum.wrapping_add(look_at_keys(&leaves));
    let mut found = search(alloc, commands, &leaves)?;
    sum = sum.wrapping_add(look_at_values(&found));
    use_sum(sum, &mut found)?;
    pieces_of(alloc, &found)
}

// Uses the sum of the reads before the search, so that the compiler does not remove them. Does not change the list.
fn use_sum(sum: usize, found: &mut Vec<Found<'_>>) -> Result<(), AllocError>
    ensures { OnOk result (found.new.items ≡ found.old.items) }
{
    if sum == UNLIKELY {
        found.reserve(1)?;
    }
    Ok(())
}

// The leaves of these routes.
fn find_leaves<'a>(
    alloc: Global,
    commands: &[Command<Global>],
    tree: &'a Tree<Global>,
    page_runs: &'a [PageRun],
) -> Result<Vec<GroupLeaf<'a>>, AllocError>
    requires { AllByRecursion (IsRouteToRead tree.now commands.now) page_runs.now }
    ensures places { IfOk result (λ leaves. AllByRecursion
        (λ l. ArePlacesOf commands.now l.page_run.now.places) leaves.items) }
    ensures answers { IfOk result (λ leaves. map (group_leaf_answers commands.now) leaves.items
        ≡ map (route_answers tree.now commands.now) page_runs.now) }
{
    let mut leaves = Vec::with_capacity(alloc, page_runs.len())?;
    for page_run in page_runs {
        leaves.push_reserved(find_leaf(commands, tree, page_run));
    }
    Ok(leaves)
}

// The leaf of this route.
fn find_leaf<'a>(
    commands: &[Command<Global>],
    tree: &'a Tree<Global>,
    page_run: &'a PageRun,
) -> GroupLeaf<'a>
    requires { IsRouteToRead tree.now commands.now page_run.now }
    ensures places { ArePlacesOf commands.now result.page_run.now.places }
    ensures answers { group_leaf_answers commands.now result
        ≡ route_answers tree.now commands.now page_run.now }
{
    let Some(page) = tree.page(page_run.pid()) else {
        unreachable!()
    };
    let Some(leaf) = page.as_leaf() else {
        unreachable!()
    };
    GroupLeaf {
        page_run,
        chain: leaf.whole(),
    }
}

// The values that the gets find in these leaves.
fn search<'a>(
    alloc: Global,
    commands: &[Command<Global>],
    leaves: &[GroupLeaf<'a>],
) -> Result<Vec<Found<'a>>, AllocError>
    requires gets { list_all is_get commands.now ≡ true }
    requires places { AllByRecursion (λ l. ArePlacesOf commands.now l.page_run.now.places) leaves.now }
    ensures { IfOk result (λ found. (place : ℕ) → pieces_at (map piece_of found.items) place
        ≡ pieces_at (flat (map (group_leaf_answers commands.now) leaves.now)) place) }
{
    let mut found = Vec::with_capacity(alloc, 4 * GROUP)?;
    for leaf in leaves {
        search_leaf(commands, leaf, &mut found)?;
    }
    Ok(found)
}

// Appends the values that the gets of this leaf find.
fn search_leaf<'a>(
    commands: &[Command<Global>],
    leaf: &GroupLeaf<'a>,
    found: &mut Vec<Found<'a>>,
) -> Result<(), AllocError>
    requires gets { list_all is_get commands.now ≡ true }
    requires places { ArePlacesOf commands.now leaf.now.page_run.now.places }
    ensures { OnOk result ((place : ℕ) → pieces_at (map piece_of found.new.items) place
        ≡ pieces_at (map piece_of found.old.items) place
        ++ pieces_at (group_leaf_answers commands.now leaf.now) place) }
{
    // Only for the proof: the contract of `depth` says that the page is in order.
    let _in_order = leaf.chain.depth();
    for place in leaf.page_run.places() {
        let value = leaf.chain.get(commands[*place].key().as_bytes());
        found.push(Found {
            place: *place,
            value,
        })?;
    }
    Ok(())
}

// The answers, with copies of the values that were found.
fn pieces_of(alloc: Global, found: &[Found<'_>]) -> Result<Pieces<Global>, AllocError>
    ensures { IfOk result (λ pieces. pieces ≡ by_place (map piece_of found.now)) }
{
    let mut pieces = Pieces::with_capacity(alloc, found.len())?;
    for one in found {
        pieces.push(piece_of(alloc, one)?)?;
    }
    Ok(pieces)
}

fn piece_of(alloc: Global, found: &Found<'_>) -> Result<Piece<Global>, AllocError>
    ensures { IfOk result (λ piece. piece ≡ piece_of found.now) }
{
    let reply = match found.value {
        Some(value) => Reply::Value(value.copy(alloc)?),
        None => Reply::Missing,
    };
    Ok(Piece {
        place: found.place,
        reply,
    })
}

// Reads the commands at these places.
fn look_at_commands(commands: &[Command<Global>], page_runs: &[PageRun]) -> usize {
    let mut sum: usize = 0;
    for page_run in page_runs {
        sum = sum.wrapping_add(look_at_places(commands, page_run.places()));
    }
    sum
}

fn look_at_places(commands: &[Command<Global>], places: &[usize]) -> usize {
    let mut sum: usize = 0;
    for place in places {
        if let Some(command) = commands.get(*place) {
            sum = sum.wrapping_add(command.key().len());
        }
    }
    sum
}

// Reads the headers of these leaves.
fn look_at_counts(leaves: &[GroupLeaf<'_>]) -> usize {
    let mut sum: usize = 0;
    for leaf in leaves {
        sum = sum.wrapping_add(leaf.chain.run_count());
        sum = sum.wrapping_add(leaf.chain.base().len());
    }
    sum
}

// Reads the first words of these leaves' keys.
fn look_at_keys(leaves: &[GroupLeaf<'_>]) -> usize {
    let mut sum: usize = 0;
    for leaf in leaves {
        if let Some(changes) = leaf.chain.newest_changes() {
            sum = sum.wrapping_add(look_at_list(&changes));
        }
        sum = sum.wrapping_add(look_at_list(leaf.chain.base()));
    }
    sum
}

// Reads the first word of every fourth key, so that each cache line is read.
fn look_at_list<L: KeyList>(list: &L) -> usize {
    let least = KeyRef::new(&[]);
    let mut sum: usize = 0;
    for at in (0..list.len()).step_by(4) {
        if list.compare_at(at, &least).is_gt() {
            sum = sum.wrapping_add(1);
        }
    }
    sum
}

// Reads the first and the last byte of each value.
fn look_at_values(found: &[Found<'_>]) -> usize {
    let mut sum: usize = 0;
    for one in found {
        if let Some(value) = one.value {
            sum = sum.wrapping_add(look_at_bytes(value.as_bytes()));
        }
    }
    sum
}

fn look_at_bytes(bytes: &[u8]) -> usize {
    match (bytes.first(), bytes.last()) {
        (Some(first), Some(last)) => (*first as usize).wrapping_add(*last as usize),
        _ => 0,
    }
}
