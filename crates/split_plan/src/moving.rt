//! Moves the values of joined leaves, in key order, into new leaves.
ghost use Rattle.std.specs.Prelude.{◌≡◌, ◌<◌, List, [], ◌∷◌, ◌++◌, map, flat_map, length};
ghost use Rattle.std.specs.List.{AllByRecursion};
ghost use Rattle.std.specs.Map.{keys_of};
ghost use Rattle.keys.specs.Bytes.{Bytes, Pairs};
ghost use Rattle.keys.specs.Order.{IsRising};
ghost use Rattle.delta_chain.specs.Layers.{entries_of, IsInOrder};
ghost use Rattle.index_page.specs.InMemory.{page_shown};
ghost use Rattle.index_page.specs.Page.{bare, entries, IsLeaf, leaf_of};
ghost use Rattle.index_page.specs.Page.PageOfKind.{Leaf};
ghost use Rattle.split_plan.specs.Frames.{frame_in};
ghost use Rattle.split_plan.specs.Frames.Frame.{LeafFrame};
ghost use Rattle.split_plan.specs.Moving.{HasLeft};
ghost use Rattle.split_plan.specs.Pieces.{joined_pages};

use delta_chain::{Base, Chain, Guess, LazyChain};
use index_page::{Page, PageInMemory};
use keys::{KeyRef, Value};
use std::alloc::Global;
use std::collections::VecDeque;

/// Joined leaves whose values are moved out, in key order.
#[derive(Drop)]
pub(crate) struct Source {
    alloc: Global,
    // The leaf that values are moved out of now, and where its next value probably is.
    chain: Chain<Value<Global>, Global>,
    guess: Guess,
    // The later leaves.
    leaves: VecDeque<Page<Global>>,
}

impl Source {
    pub(crate) fn new(alloc: Global, leaves: Vec<Page<Global>>) -> Self
        requires leaves { AllByRecursion IsLeaf leaves.items }
        requires rising { IsRising (joined_pages (map leaf_of leaves.items)) }
        ensures { HasLeft result.chain result.leaves.items
            (joined_pages (map leaf_of leaves.items)) }
    {
        Source {
            alloc,
            chain: Chain::of_base(Base::empty(alloc)),
            guess: Guess::start(),
            leaves: VecDeque::from(leaves),
        }
    }

    // Moves the next value out. Its key is `key`.
    fn take(&mut self, key: &KeyRef<'_>) -> Value<Global>
        requires { (v : Bytes) × (es : Pairs Bytes) ×
            HasLeft self.old.chain self.old.leaves.items ((key.now, v) ∷ es) }
        ensures { (v : Bytes) (es : Pairs Bytes) →
            HasLeft self.old.chain self.old.leaves.items ((key.now, v) ∷ es) →
            (result ≡ v) × HasLeft self.new.chain self.new.leaves.items es }
    {
        let mut value = Value::empty(self.alloc);
        while !self.chain.swap_cell(key, &mut value, &mut self.guess) {
            self.go_on();
        }
        value
    }

    // Goes on to the next leaf, when no value is left in this one.
    fn go_on(&mut self)
        requires some { 0 < length self.old.leaves.items }
        requires leaves { AllByRecursion IsLeaf self.old.leaves.items }
        requires rising { IsRising (joined_pages (map leaf_of self.old.leaves.items)) }
        ensures left { HasLeft self.new.chain self.new.leaves.items
            (joined_pages (map leaf_of self.old.leaves.items)) }
        ensures fewer { length self.new.leaves.items < length self.old.leaves.items }
    {
        let Some(leaf) = self.leaves.pop_front() else {
            unreachable!()
        };
        self.chain = chain_of(self.alloc, leaf);
        self.guess = Guess::start();
    }
}

fn chain_of(alloc: Global, leaf: Page<Global>) -> Chain<Value<Global>, Global>
    requires { IsLeaf leaf }
    ensures entries { entries_of result ≡ entries (leaf_of leaf) }
    ensures order { IsInOrder result }
{
    let mut page = leaf.into_memory();
    let chain = page.as_mut().take_leaf(alloc).into_chain();
    // Only for the proof: the keys rise.
    let _rising = chain.run_count();
    chain
}

/// Moves the next values of `source` into the new leaves, whose cells are blank. The new leaves have these low keys and
/// entries. Does not allocate.
pub(crate) fn fill_all(
    alloc: Global,
    blanks: Vec<Box<PageInMemory<Global>>>,
    source: Source,
) -> Vec<Box<PageInMemory<Global>>>
    requires { (bs : List (Bytes × Pairs Bytes)) ×
        (map (λ page. frame_in page.value) blanks.items
        ≡ map (λ b. LeafFrame b.0 [] (keys_of b.1)) bs) ×
        HasLeft source.chain source.leaves.items (flat_map (λ b. b.1) bs) }
    ensures { (bs : List (Bytes × Pairs Bytes)) →
        map (λ page. frame_in page.value) blanks.items
        ≡ map (λ b. LeafFrame b.0 [] (keys_of b.1)) bs →
        HasLeft source.chain source.leaves.items (flat_map (λ b. b.1) bs) →
        map (λ page. page_shown page.value) result.items ≡ map (λ b. Leaf (bare b.0 b.1)) bs }
{
    let mut pages = blanks;
    let mut source = source;
    for at in 0..pages.len() {
        fill(alloc, pages[at].as_mut(), &mut source);
    }
    pages
}

// Moves the next values into a new leaf, whose cells are blank.
fn fill(alloc: Global, page: &mut PageInMemory<Global>, source: &mut Source)
    requires { (low : Bytes) × (base : Pairs Bytes) × (es : Pairs Bytes) ×
        (frame_in page.old ≡ LeafFrame low [] (keys_of base)) ×
        HasLeft source.old.chain source.old.leaves.items (base ++ es) }
    ensures { (low : Bytes) (base : Pairs Bytes) (es : Pairs Bytes) →
        frame_in page.old ≡ LeafFrame low [] (keys_of base) →
        HasLeft source.old.chain source.old.leaves.items (base ++ es) →
        (page_shown page.new ≡ Leaf (bare low base)) ×
        HasLeft source.new.chain source.new.leaves.items es }
{
    let blank = page.take_leaf(alloc).into_chain().into_base();
    let base = filled(blank, source);
    page.put_leaf(LazyChain::of(Chain::of_base(base)));
}

// The base with the next values in its cells.
fn filled(blank: Base<Value<Global>, Global>, source: &mut Source) -> Base<Value<Global>, Global>
    requires { (base : Pairs Bytes) × (es : Pairs Bytes) × (keys_of blank ≡ keys_of base) ×
        HasLeft source.old.chain source.old.leaves.items (base ++ es) }
    ensures { (base : Pairs Bytes) (es : Pairs Bytes) → keys_of blank ≡ keys_of base →
        HasLeft source.old.chain source.old.leaves.items (base ++ es) →
        (result ≡ base) × HasLeft source.new.chain source.new.leaves.items es }
{
    let mut base = blank;
    for at in 0..base.len() {
        let value = source.take(&base.key_ref(at));
        let _blank = base.exchange(at, value);
    }
    base
}
