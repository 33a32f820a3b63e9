//! Joins the entries of pages and splits them into new pages of nearly the same length.
ghost use Rattle.std.specs.Prelude.{◌≡◌, ◌<◌, ◌≤◌, ◌*◌, ◌/◌, ◌++◌, map, length, IfOk, OnOk};
ghost use Rattle.std.specs.List.{AllByRecursion};
ghost use Rattle.keys.specs.Order.{IsRising};
ghost use Rattle.delta_chain.specs.Lent.{pairs_lent};
ghost use Rattle.index_page.specs.Page.{bare, first_key};
ghost use Rattle.split_plan.specs.Cut.{piece_count, cut};
ghost use Rattle.split_plan.specs.Frames.{frame_in, frame_of};
ghost use Rattle.split_plan.specs.Pieces.{pages_lent, joined_pages, low_at, pages_from};

use crate::kind::Kind;
use delta_chain::Pairs;
use index_page::PageInMemory;
use keys::Key;
use std::alloc::{AllocError, Global};

/// The entries of these pages of one kind, borrowed, from the first page to the last.
pub(crate) fn joined<'a, V: Kind>(
    alloc: Global,
    members: &[&'a PageInMemory<Global>],
) -> Result<Vec<(&'a [u8], &'a V)>, AllocError>
    requires { AllByRecursion V.is_of (pages_lent members.now) }
    ensures { IfOk result (λ entries. pairs_lent entries.items
        ≡ joined_pages (map V.taken (pages_lent members.now))) }
{
    let mut entries = Vec::new(alloc);
    for member in members {
        let pairs = V::chain(*member).pairs(alloc)?;
        push_pairs(&mut entries, &pairs)?;
    }
    Ok(entries)
}

fn push_pairs<'a, V>(
    entries: &mut Vec<(&'a [u8], &'a V)>,
    pairs: &Pairs<'a, V, Global>,
) -> Result<(), AllocError>
    ensures { OnOk result
        (pairs_lent entries.new.items ≡ pairs_lent entries.old.items ++ pairs.now) }
{
    entries.reserve(pairs.len())?;
    for at in 0..pairs.len() {
        entries.push_reserved((pairs.key(at), pairs.cell(at)));
    }
    Ok(())
}

/// Splits the entries into pages: the first one gets the low key `low`, each other one its own first key. The cells of
/// leaves are blank.
pub(crate) fn cut_pages<'a, V: Kind>(
    alloc: Global,
    fan: u32,
    low: &'a [u8],
    entries: &[(&'a [u8], &'a V)],
) -> Result<Vec<Box<PageInMemory<Global>>>, AllocError>
    requires fan { 0 < fan }
    requires rising { IsRising (pairs_lent entries.now) }
    ensures { IfOk result (λ pages. map (λ page. frame_in page.value) pages.items
        ≡ map frame_of (map V.made (pages_from low.now (cut fan (pairs_lent entries.now))))) }
{
    let count = piece_count(fan, entries.len());
    let mut pages = Vec::with_capacity(alloc, count)?;
    for at in 0..count {
        let piece = &entries[begin(at, entries.len(), count)..begin(at + 1, entries.len(), count)];
        pages.push_reserved(blank_page(alloc, low_at(low, at, piece), piece)?);
    }
    Ok(pages)
}

fn piece_count(fan: u32, entries: usize) -> usize
    requires { 0 < fan }
    ensures { result ≡ piece_count fan entries }
{
    entries.div_ceil(fan as usize).max(1)
}

// The place of the first entry of piece `at`; for `at == pieces`, the number of entries.
fn begin(at: usize, entries: usize, pieces: usize) -> usize
    requires some { 0 < pieces }
    requires within { at ≤ pieces }
    ensures place { result ≡ at * entries / pieces }
    ensures within { result ≤ entries }
{
    // The product may have twice as many bits.
    (at as u128 * entries as u128 / pieces as u128) as usize
}

// The low key of piece `at`: `low` for the first one, else its own first key.
fn low_at<'a, V>(low: &'a [u8], at: usize, piece: &[(&'a [u8], &'a V)]) -> &'a [u8]
    ensures { result.now ≡ low_at low.now at (pairs_lent piece.now) }
{
    if at == 0 { low } else { first_key(piece) }
}

/// The first key, or the empty key if there are no entries.
pub(crate) fn first_key<'a, V>(entries: &[(&'a [u8], &'a V)]) -> &'a [u8]
    ensures { result.now ≡ first_key (pairs_lent entries.now) }
{
    match entries.first() {
        Some(entry) => entry.0,
        None => &[],
    }
}

// A page with copies of this low key and of the entries. In a leaf, the cells are blank.
fn blank_page<V: Kind>(
    alloc: Global,
    low: &[u8],
    entries: &[(&[u8], &V)],
) -> Result<Box<PageInMemory<Global>>, AllocError>
    requires { IsRising (pairs_lent entries.now) }
    ensures { IfOk result (λ page.
        frame_in page.value ≡ frame_of (V.made (bare low.now (pairs_lent entries.now)))) }
{
    let low = Key::from_bytes(alloc, low)?;
    V::blank_page(alloc, low, entries)
}
