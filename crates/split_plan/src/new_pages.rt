//! The new pages of a group, and the values that are moved into them.
ghost use Rattle.std.specs.Prelude.{◌≡◌, map, length, IfOk};
ghost use Rattle.index_page.specs.InMemory.{page_shown};
ghost use Rattle.keys.specs.declared.settings.Settings as given;
ghost use Rattle.split_plan.specs.Frames.{begins_with_leaf, frame_in, frame_of};
ghost use Rattle.split_plan.specs.Pieces.{pages_lent, CanJoin, group_made};

use crate::moving::{Source, fill_all};
use index_page::{Page, PageInMemory};
use keys::Settings;
use std::alloc::{AllocError, Global};
use std::marker::Model;
use std::snapshot::Snapshot;

/// The pages that replace a group. Their values stay in the members until `filled` moves them: a split copies no value,
/// and if a later step fails, no value has to be moved back. Contracts see the pages as they are after that.
#[derive(Drop)]
pub struct NewPages {
    // The pages; the cells of leaves are blank.
    blanks: Vec<Box<PageInMemory<Global>>>,
    // What the pages were made of. Without bytes, for contracts.
    settings: Snapshot<Settings>,
    members: Vec<Snapshot<PageInMemory<Global>>>,
}

impl Model for NewPages {
    ghost use Rattle.std.specs.Prelude.{◌≡◌, List, map};
    ghost use Rattle.index_page.specs.InMemory.{page_shown};
    ghost use Rattle.index_page.specs.Page.{PageOfKind};
    ghost use Rattle.split_plan.specs.Frames.{frame_in, frame_of};
    ghost use Rattle.split_plan.specs.Pieces.{group_made};

    ghost Value = { List PageOfKind };

    ghost view = { λ p. group_made p.settings.value
        (map (λ member. page_shown member.value) p.members.items) };

    ghost invariant = { λ p. map (λ page. frame_in page.value) p.blanks.items
        ≡ map frame_of (group_made p.settings.value
        (map (λ member. page_shown member.value) p.members.items)) };
}

impl NewPages {
    /// The pages that replace the members, of which `blanks` lack the values. `Err` means that allocation failed.
    pub(crate) fn of(
        alloc: Global,
        settings: &Settings,
        members: &[&PageInMemory<Global>],
        blanks: Vec<Box<PageInMemory<Global>>>,
    ) -> Result<Self, AllocError>
        requires { map (λ page. frame_in page.value) blanks.items
            ≡ map frame_of (group_made settings.now (pages_lent members.now)) }
        ensures { IfOk result
            (λ pages. pages ≡ group_made settings.now (pages_lent members.now)) }
    {
        let members = snapshots(alloc, members)?;
        Ok(NewPages {
            blanks,
            settings: Snapshot::of(settings),
            members,
        })
    }

    /// Returns the number of pages.
    pub fn len(&self) -> usize
        ensures { result ≡ length self.now }
    {
        self.blanks.len()
    }

    /// Returns the pages without the values of leaves: only their low keys and keys may be used.
    pub fn blanks(&self) -> &[Box<PageInMemory<Global>>]
        ensures { map (λ page. frame_in page.value) result.now ≡ map frame_of self.now }
    {
        &self.blanks
    }

    /// Moves the values of the members into the pages, and returns these. Does not allocate.
    pub fn filled(self, alloc: Global, members: Vec<Page<Global>>) -> Vec<Box<PageInMemory<Global>>>
        requires { (s : given.Settings) × CanJoin members.items ×
            (self ≡ group_made s members.items) }
        ensures { map (λ page. page_shown page.value) result.items ≡ self }
    {
        let NewPages {
            blanks,
            settings: _settings,
            members: _members,
        } = self;
        if begins_with_leaf(&members) {
            fill_all(alloc, blanks, Source::new(alloc, members))
        } else {
            blanks
        }
    }
}

fn begins_with_leaf(pages: &[Page<Global>]) -> bool
    ensures { result ≡ begins_with_leaf pages.now }
{
    match pages.first() {
        Some(first) => first.as_leaf().is_some(),
        None => false,
    }
}

// The members as contracts see them.
fn snapshots(
    alloc: Global,
    members: &[&PageInMemory<Global>],
) -> Result<Vec<Snapshot<PageInMemory<Global>>>, AllocError>
    ensures { IfOk result (λ all. map (λ member. page_shown member.value) all.items
        ≡ pages_lent members.now) }
{
    let mut all = Vec::with_capacity(alloc, members.len())?;
    for member in members {
        all.push_reserved(Snapshot::of(*member));
    }
    Ok(all)
}
