//! A tree in memory: its pages in their table, its root and its height.
ghost use Rattle.std.specs.Prelude.{◌≡◌, ◌↔◌, ◌≤◌, length, [], Some, None, IsTrue, IsSome, IfSome, IfOk, OnOk, OnErr};
ghost use Rattle.std.specs.Option.{option_copied};
ghost use Rattle.std.specs.Map.{keys_of};
ghost use Rattle.index_page.specs.Page.{bare};
ghost use Rattle.index_page.specs.Page.PageOfKind.{Leaf};
ghost use Rattle.mapping.specs.Tree.{page_at};
ghost use Rattle.mapping.specs.LogState.{log_state};
ghost use Rattle.mapping.specs.Proper.{AreRisingPids};
ghost use Rattle.mapping.specs.Table.{place_of, page_of, log_of, with_place, freed, with_rooms, pids_in_use, fresh_pids, log_outdated, pids_in_use_or_old};
ghost use Rattle.mapping.specs.Due.{AreDue};
ghost use Rattle.mapping.specs.Flushed.{marked_as_written};
ghost use Rattle.mapping.specs.TreeInMemory.{AreAllHome, tree_of, new_in_memory};

use crate::logged::Logged;
use crate::page_table::PageTable;
use crate::pids::{HomePids, Pids};
use crate::table::Table;
use delta_chain::{Base, Chain};
use index_page::Page;
use keys::{Key, Pid};
use std::alloc::{AllocError, Allocator};
use std::marker::Model;

/// A tree in memory: the table of its pages, its root's page id, and the number of levels. Contracts see it as a
/// `TreeInMemory`. If no place is empty, this represents a tree of the definitions (`tree_of`).
#[derive(Drop)]
pub struct Tree<A: Allocator> {
    table: PageTable<A>,
    root: Pid,
    height: u32,
}

impl<A: Allocator> Model for Tree<A> {
    ghost use Rattle.mapping.specs.TreeInMemory.{TreeInMemory};

    ghost Value = { TreeInMemory };

    ghost view = { λ t. record { table = t.table; root = t.root; height = t.height } };
}

impl<A: Allocator + Copy> Tree<A> {
    /// Makes a tree of the pages in `table`, with this root and this number of levels.
    pub fn new(table: Table<Page<A>, A>, root: Pid, height: u32) -> Self
        ensures { result ≡ record { table = table; root = root; height = height } }
    {
        Tree {
            table: PageTable::new(table),
            root,
            height,
        }
    }

    /// Returns the root's page id.
    pub fn root(&self) -> Pid
        ensures { result ≡ self.now.root }
    {
        self.root
    }

    /// Returns the number of levels.
    pub fn height(&self) -> u32
        ensures { result ≡ self.now.height }
    {
        self.height
    }

    /// Returns the page of `pid`, or `None` if it has no place or an empty one.
    pub fn page(&self, pid: Pid) -> Option<&Page<A>>
        ensures home { option_copied result ≡ page_of self.now.table pid }
        ensures listed { AreAllHome self.now →
            option_copied result ≡ page_at (tree_of self.now).pages pid }
    {
        self.table.as_table().get(pid.0)
    }

    /// Returns an upper bound on the number of pages. Reads no page.
    pub fn most_pages(&self) -> usize
        ensures { length (tree_of self.now).pages ≤ result }
    {
        self.table.as_table().most_places()
    }

    /// Returns whether no place is empty, so that no page is checked out.
    pub fn are_all_home(&self) -> bool
        ensures { IsTrue result ↔ AreAllHome self.now }
    {
        self.table.as_table().are_all_home()
    }

    /// Returns the log state of `pid`.
    pub fn logged(&self, pid: Pid) -> Logged
        ensures { log_state result ≡ log_of self.now.table pid }
    {
        self.table.as_table().logged(pid.0)
    }

    /// Returns the ids of the pages that are not checked out, in rising order. Does not allocate.
    pub fn pids(&self) -> HomePids<'_, Page<A>>
        ensures { result ≡ keys_of (tree_of self.now).pages }
    {
        self.table.as_table().home_pids()
    }

    /// Returns the page ids that a flush may have to write, in rising order: those in use, and those whose log state is
    /// `Old`. Does not allocate.
    pub fn known_pids(&self) -> Pids<'_, Page<A>>
        ensures { result ≡ pids_in_use_or_old self.now.table }
    {
        self.table.as_table().pids()
    }

    /// Returns the page ids that a flush may have to write, in any order, possibly more than once; for all others, the
    /// log already contains what it would contain after the flush. Returns `None` if any page may be due.
    pub fn due_pids(&self) -> Option<&[u64]>
        ensures { IfSome result (λ pids. AreDue self.now.table pids.now) }
    {
        self.table.due_pids()
    }

    /// Makes room to record each page id in use as due. This affects only speed: without room, a flush examines all
    /// page ids. If allocation fails, nothing changes.
    pub fn reserve(&mut self) -> Result<(), AllocError>
        ensures { self.new ≡ self.old }
    {
        self.table.reserve()
    }

    /// Checks out the page of `pid`: removes it and leaves its place empty. Like `put` and `free`, does not allocate.
    #[inline]
    pub fn take(&mut self, pid: Pid) -> Page<A>
        requires { IsSome (page_of self.old.table pid) }
        ensures page { page_of self.old.table pid ≡ Some result }
        ensures tree { self.new ≡ record self.old { table = with_place self.old.table pid None } }
    {
        self.table.take(pid.0)
    }

    /// Puts a page into the empty place of `pid`.
    #[inline]
    pub fn put(&mut self, pid: Pid, page: Page<A>)
        requires { place_of self.old.table pid ≡ Some None }
        ensures { self.new ≡ record self.old { table = with_place self.old.table pid (Some page) } }
    {
        self.table.put(pid.0, page);
    }

    /// Frees the empty place of `pid`. The log state of the page id becomes that of a replaced page.
    pub fn free(&mut self, pid: Pid)
        requires { place_of self.old.table pid ≡ Some None }
        ensures { self.new ≡ record self.old { table = freed self.old.table pid } }
    {
        self.table.free(pid.0);
    }

    /// Records that the page has been replaced since the log was written.
    pub fn outdate(&mut self, pid: Pid)
        ensures { self.new ≡ record self.old { table = log_outdated self.old.table pid } }
    {
        self.table.outdate(pid.0);
    }

    /// Allocates `count` new page ids: the least ones without a place, in rising order. Each gets a place without a
    /// page. If allocation fails, or too few numbers are unused, nothing changes.
    pub fn fresh(&mut self, count: usize) -> Result<Vec<u64, A>, AllocError>
        ensures pids { IfOk result
            (λ pids. pids.items ≡ fresh_pids (pids_in_use self.old.table) count) }
        ensures ok { OnOk result (self.new ≡ record self.old {
          table = with_rooms self.old.table (fresh_pids (pids_in_use self.old.table) count);
        }) }
        ensures err { OnErr result (self.new ≡ self.old) }
        ensures rising { AreRisingPids (pids_in_use self.old.table) }
    {
        self.table.fresh(count)
    }

    /// Makes this page the root of a tree with `height` levels.
    pub fn set_root(&mut self, root: Pid, height: u32)
        ensures { self.new ≡ record self.old { root = root; height = height } }
    {
        self.root = root;
        self.height = height;
    }

    /// Records that the log contains each page of the table with all its runs, and nothing of any other page id. Does
    /// not allocate.
    pub fn flushed(&mut self)
        ensures { self.new ≡ record self.old { table = marked_as_written self.old.table } }
    {
        self.table.flushed();
    }
}

/// Returns the tree of a new store: one empty leaf, which the log contains. `Err` means that allocation failed.
pub fn new_tree<A: Allocator + Copy>(alloc: A) -> Result<Tree<A>, AllocError>
    ensures { IfOk result (λ tree. tree ≡ new_in_memory) }
{
    let mut table = Table::new(alloc);
    table.room(0)?;
    table.put(0, empty_leaf(alloc)?);
    table.flushed();
    Ok(Tree::new(table, Pid(0), 1))
}

/// Returns a leaf without entries. `Err` means that allocation failed.
pub fn empty_leaf<A: Allocator + Copy>(alloc: A) -> Result<Page<A>, AllocError>
    ensures { IfOk result (λ page. page ≡ Leaf (bare [] [])) }
{
    Page::leaf(alloc, Key::empty(alloc), Chain::of_base(Base::empty(alloc)))
}
