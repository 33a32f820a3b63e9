//! Checks one page by itself, given its level.
ghost use Rattle.std.specs.Prelude.{◌≡◌, ◌&&◌, nat_le, [], Some, length, IfOk};
ghost use Rattle.delta_chain.specs.Lazy.{seen};
ghost use Rattle.index_page.specs.Page.{entries, first_key};
ghost use Rattle.index_page.specs.Page.PageOfKind.{Leaf, Index};
ghost use Rattle.index_page.specs.Rules.{is_same_key, is_short_value};
ghost use Rattle.mapping.specs.Finding.{broken_leaf, broken_index, common_rules, first_broken};
ghost use Rattle.mapping.specs.TreeInMemory.{AreAllHome, tree_of};
ghost use Rattle.verify.specs.Seen.{seen_as, seen_at};

use crate::page_rules::broken_rule;
use crate::place::Place;
use crate::rules::{CHILDREN, NO_PAGE, WRONG_KIND};
use delta_chain::{Chain, LazyChain, Pairs};
use keys::{Pid, Settings, Value, compare};
use mapping::Tree;
use std::alloc::{AllocError, Global};

/// The level that a page must belong to.
#[derive(Clone, Copy)]
pub(crate) enum Level {
    /// The lowest level.
    Leaves,
    /// A higher level, whose pages have at least this many children.
    Above(usize),
}

/// The result of checking a page by itself.
#[derive(Clone, Copy)]
pub(crate) enum Verdict {
    /// The page breaks this rule, and no earlier rule.
    Broken(u32),
    /// The page breaks no rule, and has this many pairs (none in an index page).
    Sound(usize),
}

/// Checks the page at a place of the level. Fails only with `NoMemory`.
pub(crate) fn look(
    alloc: Global,
    tree: &Tree<Global>,
    settings: &Settings,
    level: Level,
    at: &Place<'_>,
) -> Result<Verdict, AllocError>
    ensures { AreAllHome tree.now →
        IfOk result (λ seen. seen ≡ seen_at settings.now level (tree_of tree.now).pages at.now) }
{
    let Some(page) = tree.page(at.pid) else {
        return Ok(Verdict::Broken(NO_PAGE));
    };
    match level {
        Level::Leaves => match page.as_leaf() {
            Some(chain) => look_at_leaf(alloc, settings, at, page.low(), chain),
            None => Ok(Verdict::Broken(WRONG_KIND)),
        },
        Level::Above(least) => match page.as_index() {
            Some(chain) => look_at_index(alloc, settings, least, at, page.low(), chain),
            None => Ok(Verdict::Broken(WRONG_KIND)),
        },
    }
}

fn look_at_leaf(
    alloc: Global,
    settings: &Settings,
    at: &Place<'_>,
    low: &[u8],
    chain: &LazyChain<Value<Global>, Global>,
) -> Result<Verdict, AllocError>
    ensures { IfOk result (λ verdict. verdict ≡ seen_as (broken_leaf settings.now [] at.now
        (Some (Leaf (record { low = low.now; layers = seen chain.now }))))
        (length (entries (record { low = low.now; layers = seen chain.now })))) }
{
    let broken = broken_rule_of_leaf(alloc, settings, at, low, chain)?;
    if let Some(rule) = broken {
        return Ok(Verdict::Broken(rule));
    }
    let pairs = chain.whole().pairs(alloc)?;
    Ok(Verdict::Sound(pairs.len()))
}

// The first of the rules for all pages that a leaf breaks. If runs count as merged into its base, the merged pairs are
// computed and borrowed.
fn broken_rule_of_leaf(
    alloc: Global,
    settings: &Settings,
    at: &Place<'_>,
    low: &[u8],
    chain: &LazyChain<Value<Global>, Global>,
) -> Result<Option<u32>, AllocError>
    ensures { IfOk result (λ rule. rule ≡ first_broken (common_rules settings.now
        (is_short_value settings.now) at.now (record { low = low.now; layers = seen chain.now }))) }
{
    // Only for the proof: its keys rise.
    let _depth = chain.depth();
    let runs = chain.unmerged_runs();
    if chain.merged_runs() == 0 {
        return Ok(broken_rule(settings, at, low, &runs, chain.whole().base()));
    }
    let base = chain.base_pairs(alloc)?;
    Ok(broken_rule(settings, at, low, &runs, &base))
}

fn look_at_index(
    alloc: Global,
    settings: &Settings,
    least: usize,
    at: &Place<'_>,
    low: &[u8],
    chain: &Chain<Pid, Global>,
) -> Result<Verdict, AllocError>
    ensures { IfOk result (λ seen. seen ≡ seen_as (broken_index settings.now least [] at.now
        (Some (Index (record { low = low.now; layers = chain.now })))) 0) }
{
    // Only for the proof: its keys rise.
    let _depth = chain.depth();
    if let Some(rule) = broken_rule(settings, at, low, &chain.lent(), chain.base()) {
        return Ok(Verdict::Broken(rule));
    }
    let children = chain.pairs(alloc)?;
    if !is_headed(&children, least, low) {
        return Ok(Verdict::Broken(CHILDREN));
    }
    Ok(Verdict::Sound(0))
}

// Whether there are at least `least` children, and the first one's key is the low key.
fn is_headed(children: &Pairs<'_, Pid, Global>, least: usize, low: &[u8]) -> bool
    ensures { result
        ≡ (nat_le least (length children.now) && is_same_key (first_key children.now) low.now) }
{
    if children.len() < least {
        return false;
    }
    if children.len() == 0 {
        return low.is_empty();
    }
    compare(children.key(0), low).is_eq()
}
