//! New levels above a root that was split.
ghost use Rattle.std.specs.Prelude.{◌≡◌, ◌+◌, ◌<◌, ◌≤◌, Err, map, length, IfOk, OnErr};
ghost use Rattle.keys.specs.Order.{IsRising};
ghost use Rattle.index_page.specs.InMemory.{page_shown};
ghost use Rattle.mapping.specs.Proper.{AreRisingPids};
ghost use Rattle.mapping.specs.Table.{pids_in_use, fresh_pids, IsOldWithoutPlace};
ghost use Rattle.mapping.specs.Tree.{most_levels};
ghost use Rattle.climb_plan.specs.Rewriting.{named_pages};
ghost use Rattle.climb_plan.specs.Installing.{AreDrawn, OfGrown, HasGrown};
ghost use Rattle.climb_plan.specs.declared.refused.Refused.TheVariants.{TooHigh};

use crate::change::free_all;
use crate::install::put_pieces;
use crate::refused::Refused;
use index_page::{Page, PageInMemory};
use keys::{Key, Pid, Settings};
use mapping::Tree;
use mapping::laws::drawn_pids_get_places_that_are_away;
use split_plan::{Separator, index_pages};
use std::alloc::{AllocError, Global};

// The most levels that a tree may have.
const MOST_LEVELS: u32 = 64;

/// Adds levels of index pages above the pages with these entries until one page is left, and puts them into the tree's
/// table. Returns the page id of that page and the number of levels, where the pages with these entries are the top of
/// a tree of `height` levels. Does not change the tree's root and height. If allocation fails, or there would be more
/// than 64 levels, the tree is unchanged.
pub(crate) fn grow(
    alloc: Global,
    settings: &Settings,
    tree: &mut Tree<Global>,
    below: &[Separator],
    height: u32,
) -> Result<(Pid, u32), Refused>
    requires fan { 1 < settings.now.fan }
    requires some { 0 < length below.now }
    requires named { IsRising below.now }
    requires rising { AreRisingPids (pids_in_use tree.old.table) }
    requires logs { IsOldWithoutPlace tree.old.table }
    requires height { height ≤ most_levels }
    ensures grown { OfGrown settings.now tree.old.table below.now
        (λ ps ls. IfOk result (λ top. HasGrown tree.old tree.new top height ps ls)) }
    ensures low { IfOk result (λ top. top.1 ≤ most_levels) }
    ensures high { OfGrown settings.now tree.old.table below.now
        (λ ps ls. result ≡ Err TooHigh → most_levels < height + length ls) }
    ensures err { OnErr result (tree.new ≡ tree.old) }
{
    if below.len() == 1 {
        let only = &below[0];
        return Ok((only.pid, height));
    }
    if height >= MOST_LEVELS {
        return Err(Refused::TooHigh);
    }
    let pages = index_pages(alloc, settings, below)?;
    let (fresh, upper) = draw_names(alloc, tree, &pages)?;
    match grow(alloc, settings, tree, &upper, height + 1) {
        Ok(top) => {
            put_pieces(tree, &fresh, pages.into_iter());
            Ok(top)
        }
        Err(refused) => {
            free_all(tree, &fresh);
            Err(refused)
        }
    }
}

// Allocates page ids for these pages, and returns the pages' entries. If allocation fails, the tree is unchanged.
fn draw_names(
    alloc: Global,
    tree: &mut Tree<Global>,
    pages: &[Box<PageInMemory<Global>>],
) -> Result<(Vec<u64>, Vec<Separator>), AllocError>
    requires rising { AreRisingPids (pids_in_use tree.old.table) }
    requires logs { IsOldWithoutPlace tree.old.table }
    ensures pids { IfOk result (λ drawn. drawn.0.items ≡
        fresh_pids (pids_in_use tree.old.table) (length pages.now)) }
    ensures names { IfOk result (λ drawn. drawn.1.items ≡
        named_pages (map (λ page. page_shown page.value) pages.now) drawn.0.items) }
    ensures drawn { IfOk result (λ drawn. AreDrawn tree.old tree.new drawn.0.items) }
    ensures err { OnErr result (tree.new ≡ tree.old) }
{
    let fresh = draw(tree, pages.len())?;
    match names_of(alloc, pages, &fresh) {
        Ok(names) => Ok((fresh, names)),
        Err(refused) => {
            free_all(tree, &fresh);
            Err(refused)
        }
    }
}

// Allocates `count` new page ids, which have no pages yet.
fn draw(tree: &mut Tree<Global>, count: usize) -> Result<Vec<u64>, AllocError>
    requires { AreRisingPids (pids_in_use tree.old.table) }
    ensures pids { IfOk result (λ pids. pids.items ≡
        fresh_pids (pids_in_use tree.old.table) count) }
    ensures drawn { IfOk result (λ pids. AreDrawn tree.old tree.new pids.items) }
    ensures err { OnErr result (tree.new ≡ tree.old) }
{
    drawn_pids_get_places_that_are_away::<Page<Global>>();
    let pids = tree.fresh(count)?;
    Ok(pids)
}

// The entries of these pages under these page ids.
fn names_of(
    alloc: Global,
    pages: &[Box<PageInMemory<Global>>],
    pids: &[u64],
) -> Result<Vec<Separator>, AllocError>
    requires { length pages.now ≡ length pids.now }
    ensures { IfOk result (λ names. names.items ≡
        named_pages (map (λ page. page_shown page.value) pages.now) pids.now) }
{
    let mut names = Vec::with_capacity(alloc, pages.len())?;
    for at in 0..pages.len() {
        names.push_reserved(Separator {
            low: Key::from_bytes(alloc, pages[at].low())?,
            pid: Pid(pids[at]),
        });
    }
    Ok(names)
}
