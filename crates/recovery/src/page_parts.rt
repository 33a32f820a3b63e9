//! A page that is being built from its frames.
ghost use Rattle.std.specs.Prelude.{◌≡◌, None, Some, IfOk, MatchOption};
ghost use Rattle.std.specs.Bool.{MatchBool};
ghost use Rattle.frame_codec.specs.Frame.Content.{DeltaLeaf, DeltaIndex};
ghost use Rattle.recovery.specs.PageByLog.{base_in};
ghost use Rattle.recovery.specs.Rebuild.{content_of, page_of_parts, IsPushed};

use delta_chain::{Chain, Run};
use frame_codec::Frame;
use index_page::{ChildList, Page};
use keys::{Key, Pid, Value};
use std::alloc::{AllocError, Global};

/// The low key and the chain of a page. The list of an index page's children is made after all runs are there.
#[derive(Drop)]
pub(crate) enum PageParts {
    /// The parts of a leaf.
    Leaf(Key<Global>, Chain<Value<Global>, Global>),
    /// The parts of an index page.
    Index(Key<Global>, Chain<Pid, Global>),
}

impl PageParts {
    /// The page of a single frame, if it is a base.
    pub(crate) fn of_base(frame: Frame) -> Option<Self>
        ensures { MatchOption result (base_in (content_of frame) ≡ None)
            (λ page. base_in (content_of frame) ≡ Some (page_of_parts page)) }
    {
        match frame {
            Frame::FullLeaf { low, base, .. } => Some(PageParts::Leaf(low, Chain::of_base(base))),
            Frame::FullIndex { low, base, .. } => Some(PageParts::Index(low, Chain::of_base(base))),
            _ => None,
        }
    }

    /// Prepends the frame's run to the page, and returns whether it did. A frame that is no run, or a run for the other
    /// kind of page, is dropped.
    pub(crate) fn push(&mut self, frame: Frame) -> Result<bool, AllocError>
        ensures { let old = page_of_parts self.old in let content = content_of frame in IfOk result
            (λ is_run. MatchBool is_run (IsPushed old content (Some self.new))
            (IsPushed old content None)) }
    {
        match frame {
            Frame::DeltaLeaf { run, .. } => self.push_leaf_run(run),
            Frame::DeltaIndex { run, .. } => self.push_index_run(run),
            _ => Ok(false),
        }
    }

    // Prepends the run if the page is a leaf, and returns whether it is.
    fn push_leaf_run(&mut self, run: Run<Value<Global>, Global>) -> Result<bool, AllocError>
        ensures { let old = page_of_parts self.old in IfOk result
            (λ is_run. MatchBool is_run (IsPushed old (DeltaLeaf run) (Some self.new))
            (IsPushed old (DeltaLeaf run) None)) }
    {
        match self {
            PageParts::Leaf(_low, chain) => match chain.prepend(run) {
                Ok(()) => Ok(true),
                Err(_refused) => Err(AllocError),
            },
            PageParts::Index(_low, _chain) => Ok(false),
        }
    }

    // Prepends the run if the page is an index page, and returns whether it is.
    fn push_index_run(&mut self, run: Run<Pid, Global>) -> Result<bool, AllocError>
        ensures { let old = page_of_parts self.old in IfOk result
            (λ is_run. MatchBool is_run (IsPushed old (DeltaIndex run) (Some self.new))
            (IsPushed old (DeltaIndex run) None)) }
    {
        match self {
            PageParts::Leaf(_low, _chain) => Ok(false),
            PageParts::Index(_low, chain) => match chain.prepend(run) {
                Ok(()) => Ok(true),
                Err(_refused) => Err(AllocError),
            },
        }
    }

    pub(crate) fn into_page(self, alloc: Global) -> Result<Page<Global>, AllocError>
        ensures { IfOk result (λ page. page ≡ page_of_parts self) }
    {
        match self {
            PageParts::Leaf(low, chain) => Page::leaf(alloc, low, chain),
            PageParts::Index(low, chain) => {
                let list = ChildList::of(alloc, &chain)?;
                Page::index(alloc, low, chain, list)
            }
        }
    }
}
