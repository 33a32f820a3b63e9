//! The two kinds of pages, distinguished by their cells.
ghost use Rattle.std.specs.Prelude.{◌≡◌, IfOk};
ghost use Rattle.keys.specs.Order.{IsRising};
ghost use Rattle.delta_chain.specs.Layers.{entries_of};
ghost use Rattle.delta_chain.specs.Lent.{pairs_lent};
ghost use Rattle.index_page.specs.InMemory.{page_shown};
ghost use Rattle.index_page.specs.Page.{bare, entries};
ghost use Rattle.split_plan.specs.Frames.{frame_in, frame_of};

use delta_chain::{Base, Chain, LazyChain, blank_base, copied_base};
use index_page::{Page, PageInMemory};
use keys::{Cell, Key, Pid, Value};
use std::alloc::{AllocError, Global};

/// A kind of page, by the cells of its pages: values for leaves, page ids for index pages.
pub(crate) trait Kind: Cell<Global> + Drop {
    ghost use Rattle.std.specs.Prelude.{List, ℕ};
    ghost use Rattle.index_page.specs.Page.{Page as PageOf, PageOfKind, low_of};

    // Which pages are of this kind.
    ghost is_of: { PageOfKind → Type 0 };

    // A page of this kind as a page with its cells, and back.
    ghost taken: { PageOfKind → PageOf Self };

    ghost made: { PageOf Self → PageOfKind };

    /// The chain in memory of a page of this kind. It has the page's entries.
    fn chain(page: &PageInMemory<Global>) -> &Chain<Self, Global>
        requires { is_of (page_shown page.now) }
        ensures { entries_of result.now ≡ entries (taken (page_shown page.now)) };

    /// A page with this low key and these entries. In a leaf, the cells are blank.
    fn blank_page(
        alloc: Global,
        low: Key<Global>,
        entries: &[(&[u8], &Self)],
    ) -> Result<Box<PageInMemory<Global>>, AllocError>
        requires { IsRising (pairs_lent entries.now) }
        ensures { IfOk result (λ page.
            frame_in page.value ≡ frame_of (made (bare low (pairs_lent entries.now)))) };

    // Viewing a page as one of this kind retains its low key.
    ghost keeps_low: { (p : PageOfKind) → (taken p).low ≡ low_of p };
}

impl Kind for Value<Global> {
    ghost use Rattle.std.specs.Prelude.{refl};
    ghost use Rattle.index_page.specs.Page.{IsLeaf, leaf_of};
    ghost use Rattle.index_page.specs.Page.PageOfKind.{Leaf, Index};

    ghost is_of = { IsLeaf };

    ghost taken = { leaf_of };

    ghost made = { Leaf };

    ghost keeps_low = { elim [ Leaf p ↦ refl | Index p ↦ refl ] };

    fn chain(page: &PageInMemory<Global>) -> &Chain<Self, Global> {
        match page.as_leaf() {
            Some(chain) => chain.whole(),
            None => unreachable!(),
        }
    }

    fn blank_page(
        alloc: Global,
        low: Key<Global>,
        entries: &[(&[u8], &Self)],
    ) -> Result<Box<PageInMemory<Global>>, AllocError> {
        let base = blank_base(alloc, entries)?;
        // The contract of `put_leaf` says how the values are stored; the contract of `Page::leaf` does not.
        let mut page = Page::leaf(alloc, low, Chain::of_base(Base::empty(alloc)))?.into_memory();
        page.as_mut().put_leaf(LazyChain::of(Chain::of_base(base)));
        Ok(page)
    }
}

impl Kind for Pid {
    ghost use Rattle.std.specs.Prelude.{refl};
    ghost use Rattle.index_page.specs.Page.{IsIndex, index_of};
    ghost use Rattle.index_page.specs.Page.PageOfKind.{Leaf, Index};

    ghost is_of = { IsIndex };

    ghost taken = { index_of };

    ghost made = { Index };

    ghost keeps_low = { elim [ Leaf p ↦ refl | Index p ↦ refl ] };

    fn chain(page: &PageInMemory<Global>) -> &Chain<Self, Global> {
        match page.as_index() {
            Some(chain) => chain,
            None => unreachable!(),
        }
    }

    fn blank_page(
        alloc: Global,
        low: Key<Global>,
        entries: &[(&[u8], &Self)],
    ) -> Result<Box<PageInMemory<Global>>, AllocError> {
        let base = copied_base(alloc, entries)?;
        Ok(Page::bare_index(alloc, low, base)?.into_memory())
    }
}
