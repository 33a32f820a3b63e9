//! The pages of a level after their runs, as seen by their parents.
ghost use Rattle.std.specs.Prelude.{◌≡◌, map, IfOk};
ghost use Rattle.index_page.specs.Page.PageOfKind.{Leaf, Index};
ghost use Rattle.climb_plan.specs.Changing.{page_seen};
ghost use Rattle.climb_plan.specs.Rewriting.{seen_now, all_seen};
ghost use Rattle.page_runs.specs.Updated.{is_thin_class, is_fat_class};
ghost use Rattle.std.specs.Prelude.{◌||◌};

use index_page::{Page, PageInMemory};
use keys::Pid;
use page_runs::{Class, LeafDone, LeafRest, TermDone};
use std::alloc::{AllocError, Global};

/// A page of a level after its run, as seen by its parent.
#[derive(Clone, Copy)]
pub(crate) struct Seen<'a> {
    pub(crate) pid: Pid,
    pub(crate) page: &'a PageInMemory<Global>,
    pub(crate) class: Class,
    pub(crate) replaced: bool,
}

impl<'a> Seen<'a> {
    /// Returns a copy of this view.
    pub(crate) fn again(&self) -> Seen<'a>
        ensures { result ≡ self.now }
    {
        Seen {
            pid: self.pid,
            page: self.page,
            class: self.class,
            replaced: self.replaced,
        }
    }

    /// Whether the page may have to be split or merged: it is thin or fat.
    pub(crate) fn needs_restructuring(&self) -> bool
        ensures { result ≡ (is_thin_class self.now.class || is_fat_class self.now.class) }
    {
        matches!(self.class, Class::Thin | Class::Fat)
    }
}

/// A page of either kind after its run.
pub(crate) trait UpdatedPage: Drop {
    ghost use Rattle.std.specs.Prelude.{◌≡◌};
    ghost use Rattle.index_page.specs.Page.{Page, PageOfKind};
    ghost use Rattle.page_runs.specs.Updated.{Updated};
    ghost use Rattle.climb_plan.specs.Changing.{SeenPage, page_seen};
    ghost use Rattle.climb_plan.specs.Level.{IsKind};

    // The cells of its pages.
    ghost Cells: { Type 0 };

    // A page of its kind.
    ghost of: { Page Cells → PageOfKind };

    // The page after its run.
    ghost outcome: { Self → Updated Cells };

    // The page under its pid, its class, and whether it was replaced.
    ghost seen_page: { Self → SeenPage };

    /// The page as seen by its parent.
    fn as_seen(&self) -> Seen<'_>
        ensures { seen_now result ≡ seen_page self.now };

    /// A law, without effect: the type is one of the two kinds of pages.
    fn is_of_a_kind()
        ensures { IsKind of };

    /// Splits into the page and the remains of a leaf's work. The work can no longer be undone.
    fn into_parts(self) -> (Page<Global>, Option<LeafRest>)
        ensures { result.0 ≡ (seen_page self).page };

    /// A list with room for the remains of `count` pages, or without room if allocation fails.
    fn room_for_rests(alloc: Global, count: usize) -> Vec<LeafRest>;

    // The parent's view is that of the page after its run.
    ghost seen_as_updated: { (d : Self) → seen_page d ≡ page_seen of (outcome d) };
}

impl UpdatedPage for LeafDone {
    ghost use Rattle.std.specs.Prelude.{refl};
    ghost use Rattle.keys.specs.Bytes.{Bytes};

    ghost Cells = { Bytes };

    ghost of = { Leaf };

    ghost outcome = { λ d. d.made.updated };

    ghost seen_page = { λ d. page_seen Leaf d.made.updated };

    ghost seen_as_updated = { λ d. refl };

    fn as_seen(&self) -> Seen<'_> {
        Seen {
            pid: self.pid(),
            page: self.page(),
            class: self.class(),
            replaced: self.is_replaced(),
        }
    }

    fn is_of_a_kind() {}

    fn into_parts(self) -> (Page<Global>, Option<LeafRest>) {
        let (page, rest) = self.into_page_and_rest();
        (page, Some(rest))
    }

    fn room_for_rests(alloc: Global, count: usize) -> Vec<LeafRest> {
        Vec::with_capacity(alloc, count).unwrap_or(Vec::new(alloc))
    }
}

impl UpdatedPage for TermDone {
    ghost use Rattle.std.specs.Prelude.{ℕ, refl};

    ghost Cells = { ℕ };

    ghost of = { Index };

    ghost outcome = { λ d. d.made };

    ghost seen_page = { λ d. page_seen Index d.made };

    ghost seen_as_updated = { λ d. refl };

    fn as_seen(&self) -> Seen<'_> {
        Seen {
            pid: self.pid(),
            page: self.page().in_memory(),
            class: self.class(),
            replaced: self.is_replaced(),
        }
    }

    fn is_of_a_kind() {}

    fn into_parts(self) -> (Page<Global>, Option<LeafRest>) {
        (self.into_page(), None)
    }

    fn room_for_rests(alloc: Global, _count: usize) -> Vec<LeafRest> {
        Vec::new(alloc)
    }
}

/// The pages as seen by their parents.
pub(crate) fn see_all<D: UpdatedPage>(
    alloc: Global,
    dones: &[D],
) -> Result<Vec<Seen<'_>>, AllocError>
    ensures { IfOk result (λ all. all_seen all.items ≡ map D.seen_page dones.now) }
{
    let mut all = Vec::with_capacity(alloc, dones.len())?;
    for done in dones {
        all.push_reserved(done.as_seen());
    }
    Ok(all)
}
