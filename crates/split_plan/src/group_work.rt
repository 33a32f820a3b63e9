//! Rewrites groups of pages: joins their entries and splits them into new pages.
ghost use Rattle.std.specs.Prelude.{◌≡◌, ◌<◌, map, IfOk};
ghost use Rattle.std.specs.List.{AllByRecursion};
ghost use Rattle.keys.specs.Order.{IsRising};
ghost use Rattle.index_page.specs.InMemory.{page_shown};
ghost use Rattle.index_page.specs.Page.{bare, first_key};
ghost use Rattle.index_page.specs.Page.PageOfKind.{Index};
ghost use Rattle.split_plan.specs.Cut.{cut};
ghost use Rattle.split_plan.specs.Frames.{frame_in, frame_of};
ghost use Rattle.split_plan.specs.Pieces.{pages_lent, CanJoin, group_made, joined_pages, pages_made};

use crate::cutting::{cut_pages, first_key, joined};
use crate::kind::Kind;
use crate::name::Separator;
use crate::new_pages::NewPages;
use crew::{Turn, Work};
use index_page::PageInMemory;
use keys::{Pid, Settings, Value};
use std::alloc::{AllocError, Global};
use std::marker::{Model, PhantomData};

/// The work on groups of pages that are rewritten. The input is the borrowed members of a group; the output is the
/// pages that their entries are split into.
#[derive(Drop)]
pub struct GroupWork<'a> {
    /// Allocates the new pages.
    pub alloc: Global,
    /// The store's settings; only `fan` is read.
    pub settings: Settings,
    // The members of its jobs are borrowed.
    lent: PhantomData<&'a PageInMemory<Global>>,
}

/// The members of a group, in order.
#[derive(Drop)]
pub struct GroupJob<'a> {
    pub members: Vec<&'a PageInMemory<Global>>,
}

/// The new pages of a group, with its members, which are needed to undo the work. Contracts see it as the members and
/// the new pages.
#[derive(Drop)]
pub struct GroupDone<'a> {
    members: Vec<&'a PageInMemory<Global>>,
    pieces: NewPages,
}

impl<'a> GroupWork<'a> {
    /// Makes the work for these settings.
    pub fn new(alloc: Global, settings: Settings) -> Self
        ensures { result.settings ≡ settings }
    {
        GroupWork {
            alloc,
            settings,
            lent: PhantomData,
        }
    }
}

impl<'a> Model for GroupDone<'a> {
    ghost use Rattle.split_plan.specs.Pieces.{GroupRemade, pages_lent};

    ghost Value = { GroupRemade };

    ghost view = { λ d. record { held = pages_lent d.members.items; made = d.pieces } };
}

impl<'a> GroupDone<'a> {
    /// Returns the new pages. The work can no longer be undone.
    pub fn into_pieces(self) -> NewPages
        ensures { result ≡ self.entry.made }
    {
        let GroupDone {
            members: _members,
            pieces,
        } = self;
        pieces
    }
}

impl<'a> Work for GroupWork<'a> {
    ghost use Rattle.std.specs.Prelude.{◌<◌, List};
    ghost use Rattle.index_page.specs.Page.{PageOfKind};
    ghost use Rattle.split_plan.specs.Pieces.{pages_lent, CanJoin, group_made};

    type Job = GroupJob<'a>;

    type Done = GroupDone<'a>;

    ghost Held = { List PageOfKind };

    ghost Made = { List PageOfKind };

    ghost accepts = { λ w h. (0 < w.settings.fan) × CanJoin h };

    ghost held = { λ j. pages_lent j.members.items };

    ghost origin = { λ d. d.held };

    ghost outcome = { λ d. d.made };

    ghost made = { λ w h. group_made w.settings h };

    fn work(&self, job: GroupJob<'a>) -> Turn<GroupJob<'a>, GroupDone<'a>> {
        match remade(self.alloc, &self.settings, &job.members) {
            Ok(pieces) => Turn::Done(GroupDone {
                members: job.members,
                pieces,
            }),
            Err(_) => Turn::Back(job),
        }
    }

    fn undo(&self, done: GroupDone<'a>) -> GroupJob<'a> {
        GroupJob {
            members: done.members,
        }
    }
}

// The pages that replace the members.
fn remade<'a>(
    alloc: Global,
    settings: &Settings,
    members: &[&'a PageInMemory<Global>],
) -> Result<NewPages, AllocError>
    requires fan { 0 < settings.now.fan }
    requires members { CanJoin (pages_lent members.now) }
    ensures { IfOk result (λ pages. pages ≡ group_made settings.now (pages_lent members.now)) }
{
    let blanks = blanks_of(alloc, settings, members)?;
    NewPages::of(alloc, settings, members, blanks)
}

// The pages that replace the members. The cells of leaves are blank.
fn blanks_of<'a>(
    alloc: Global,
    settings: &Settings,
    members: &[&'a PageInMemory<Global>],
) -> Result<Vec<Box<PageInMemory<Global>>>, AllocError>
    requires fan { 0 < settings.now.fan }
    requires members { CanJoin (pages_lent members.now) }
    ensures { IfOk result (λ pages. map (λ page. frame_in page.value) pages.items
        ≡ map frame_of (group_made settings.now (pages_lent members.now))) }
{
    match members.first() {
        Some(first) if first.as_leaf().is_some() => blanks_as::<Value<Global>>(
            alloc, settings, members,
        ),
        Some(_) => blanks_as::<Pid>(alloc, settings, members),
        None => unreachable!(),
    }
}

// `blanks_of` members of one kind.
fn blanks_as<'a, V: Kind + 'a>(
    alloc: Global,
    settings: &Settings,
    members: &[&'a PageInMemory<Global>],
) -> Result<Vec<Box<PageInMemory<Global>>>, AllocError>
    requires fan { 0 < settings.now.fan }
    requires kind { AllByRecursion V.is_of (pages_lent members.now) }
    requires rising { IsRising (joined_pages (map V.taken (pages_lent members.now))) }
    ensures { IfOk result (λ pages. map (λ page. frame_in page.value) pages.items ≡ map frame_of
        (map V.made (pages_made settings.now (map V.taken (pages_lent members.now))))) }
{
    let Some(first) = members.first() else {
        return Ok(Vec::new(alloc));
    };
    let entries = joined::<V>(alloc, members)?;
    cut_pages::<V>(alloc, settings.fan, first.low(), &entries)
}

/// Splits the list of children `names` into index pages. The low key of each page is that of its first child.
pub fn index_pages(
    alloc: Global,
    settings: &Settings,
    names: &[Separator],
) -> Result<Vec<Box<PageInMemory<Global>>>, AllocError>
    requires fan { 0 < settings.now.fan }
    requires rising { IsRising names.now }
    ensures { IfOk result (λ pages. map (λ page. page_shown page.value) pages.items
        ≡ map (λ b. Index (bare (first_key b) b)) (cut settings.now.fan names.now)) }
{
    let mut entries = Vec::with_capacity(alloc, names.len())?;
    for name in names {
        entries.push_reserved((name.low.as_bytes(), &name.pid));
    }
    cut_pages::<Pid>(alloc, settings.fan, first_key(&entries), &entries)
}
