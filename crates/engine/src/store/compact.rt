//! Compaction: builds the tree again from its pairs, with as few leaves as these need.
ghost use Rattle.std.specs.Prelude.{◌≡◌, ◌⊎◌, ◌≤◌, ◌<◌, ◌+◌, ◌-◌, ◌*◌, ◌/◌, ◌^◌, ◌++◌, ◌∷◌, ◌&&◌, ℕ, List, [], length, None, Some, IsTrue, IfOk, IfSome, OnOk, IfErr, OnErr, false};
ghost use Rattle.std.specs.Map.{keys_of};
ghost use Rattle.keys.specs.Bytes.{Bytes};
ghost use Rattle.keys.specs.declared.fault.Fault.TheVariants.{NoMemory};
ghost use Rattle.keys.specs.declared.settings.Settings.{Settings};
ghost use Rattle.mapping.specs.FreshPids.{is_among};
ghost use Rattle.mapping.specs.Levels.{contents};
ghost use Rattle.mapping.specs.Proper.{AreLogsTrue, AreRisingPids};
ghost use Rattle.mapping.specs.Table.{log_of, pids_in_use_or_old};
ghost use Rattle.mapping.specs.Tree as definitions;
ghost use Rattle.mapping.specs.Tree.{most_levels, with_tree};
ghost use Rattle.mapping.specs.TreeInMemory.{AreAllHome, tree_of};
ghost use Rattle.recovery.specs.InStep.{IsStore, IsStoreOf};
ghost use Rattle.engine.specs.Compacted.{AreFreed, HasLeavesAt, IsCompactFault, IsCompacted, IsCompactedIfBloated, all_puts, compacted, is_logged, no_pairs, outdated_tree};
ghost use Rattle.engine.specs.Refusal.{IsAdmitted, is_crew};
ghost use Rattle.engine.specs.Room.{is_bloated, is_two_thirds_full};
ghost use Rattle.engine.specs.SoundTree.{IsReadable, IsSoundInMemory};
ghost use Rattle.engine.specs.State.{IsOnlyInMemory};
ghost use Rattle.engine.specs.Tidied.{counted_pages};

use crate::execute::execute;
use crate::refusal::admit_crew;
use crate::store::Store;
use crate::store::copy::puts_of;
use crate::store::flush::plan;
use crate::store::room::{is_full, most_live};
use crate::store::tidy::count_pages;
use climb_plan::laws::{
    the_log_states_stay_true, the_plan_holds_the_map_after_the_commands,
    the_plan_of_a_proper_store_is_proper, what_the_log_has_of_a_page_stays_true,
};
use crew::{Crew, NoGate};
use flush_log::{CommitKind, Disk, is_all_written};
use index_page::Page;
use keys::{Command, Fault, Pid, Settings};
use mapping::laws::{the_contents_of_a_proper_tree_rise, the_first_tree_is_proper_and_empty};
use mapping::{Logged, Table, Tree, empty_leaf};
use scan::Rows;
use std::alloc::{AllocError, Global};
use std::thread::Threads;

// A compacted tree has the pairs of the store's tree. With it, the store satisfies the invariant of stores and stays in
// step with the bytes of its disk.
fn a_compacted_tree_keeps_the_store_in_step()
    ensures holds { (s : Settings) (st : definitions.Store) → IsStore s st →
        contents (compacted s st.tree) ≡ contents st.tree }
    ensures kept { (s : Settings) (st : definitions.Store) → IsStore s st →
        (compacted s st.tree).height ≤ most_levels → (compacted s st.tree).root < 2 ^ 64 →
        IsStore s (with_tree st (compacted s st.tree)) }
    ensures step { (s : Settings) (st : definitions.Store) (file : Bytes) → IsStoreOf s st file →
        (compacted s st.tree).height ≤ most_levels → (compacted s st.tree).root < 2 ^ 64 →
        IsStoreOf s (with_tree st (compacted s st.tree)) file }
{
    the_plan_holds_the_map_after_the_commands::<Global>();
    the_plan_of_a_proper_store_is_proper::<Global>();
    the_log_states_stay_true::<Global>();
    what_the_log_has_of_a_page_stays_true::<Global>();
    the_first_tree_is_proper_and_empty();
    the_contents_of_a_proper_tree_rise();
}

// Whether the log has anything of a page id.
fn is_logged(tree: &Tree<Global>, pid: u64) -> bool
    ensures { result ≡ is_logged (log_of tree.now.table pid) }
{
    !matches!(tree.logged(Pid(pid)), Logged::No)
}

// The page ids of which the log has anything.
fn logged_pids(alloc: Global, tree: &Tree<Global>) -> Result<Vec<u64>, AllocError>
    ensures { IfOk result (λ pids. (q : ℕ) → is_among q pids.items
        ≡ (is_among q (pids_in_use_or_old tree.now.table) && is_logged (log_of tree.now.table q))) }
{
    let mut pids = Vec::new(alloc);
    for pid in tree.known_pids() {
        if is_logged(tree, pid) {
            pids.push(pid)?;
        }
    }
    Ok(pids)
}

// Puts an empty leaf under a page id that has no place.
fn put_leaf(
    alloc: Global,
    table: &mut Table<Page<Global>, Global>,
    pid: u64,
) -> Result<(), AllocError>
    ensures { OnOk result ((pids : List ℕ) → HasLeavesAt pids table.old →
        HasLeavesAt (pids ++ pid ∷ []) table.new) }
{
    table.room(pid)?;
    if table.is_away(pid) {
        table.put(pid, empty_leaf(alloc)?);
    }
    Ok(())
}

// A table with an empty leaf under each of the page ids.
fn leaves_at(alloc: Global, pids: &[u64]) -> Result<Table<Page<Global>, Global>, AllocError>
    ensures { IfOk result (λ table. HasLeavesAt pids.now table) }
{
    let mut table = Table::new(alloc);
    for pid in pids {
        put_leaf(alloc, &mut table, *pid)?;
    }
    Ok(table)
}

// Frees the page of a page id; the log then has an outdated page of it.
fn free_leaf(table: &mut Table<Page<Global>, Global>, pid: u64)
    ensures { (pids gone : List ℕ) → AreFreed pids gone table.old →
        AreFreed pids (gone ++ pid ∷ []) table.new }
{
    if table.get(pid).is_some() {
        let _leaf = table.take(pid);
        // Only for the proof: it says that the page ids rise.
        let _rising = table.pids();
        table.free(pid);
    }
}

// Frees the pages of all these page ids.
fn free_leaves(table: &mut Table<Page<Global>, Global>, pids: &[u64])
    ensures { AreFreed pids.now [] table.old → AreFreed pids.now pids.now table.new }
{
    for pid in pids {
        free_leaf(table, *pid);
    }
}

// A table without places, with the log state `Old` for each of these page ids.
fn outdated_table(alloc: Global, pids: &[u64]) -> Result<Table<Page<Global>, Global>, AllocError>
    ensures freed { IfOk result (λ table. AreFreed pids.now pids.now table) }
    ensures rising { IfOk result (λ table. AreRisingPids (keys_of table.logged)) }
{
    let mut table = leaves_at(alloc, pids)?;
    // Only for the proof, as the other: they say that the page ids rise.
    let _rising = table.pids();
    table.flushed();
    free_leaves(&mut table, pids);
    let _rising_still = table.pids();
    Ok(table)
}

// The tree of one empty leaf, with the log states of this table.
fn first_tree_of(
    alloc: Global,
    table: Table<Page<Global>, Global>,
) -> Result<Tree<Global>, AllocError>
    requires { table.places ≡ [] }
    ensures { IfOk result (λ tree. tree ≡ record {
      table = record { places = (0, Some no_pairs) ∷ []; logged = table.logged };
      root = 0;
      height = 1;
    }) }
{
    let mut table = table;
    table.room(0)?;
    table.put(0, empty_leaf(alloc)?);
    Ok(Tree::new(table, Pid(0), 1))
}

// The tree of a new store, with the log state `Old` for each page id of which the log has anything now.
fn outdated_tree(alloc: Global, tree: &Tree<Global>) -> Result<Tree<Global>, AllocError>
    requires home { AreAllHome tree.now }
    requires logs { AreLogsTrue (tree_of tree.now) }
    ensures { IfOk result (λ new.
        AreAllHome new × (tree_of new ≡ outdated_tree (tree_of tree.now))) }
{
    let pids = logged_pids(alloc, tree)?;
    let table = outdated_table(alloc, &pids)?;
    first_tree_of(alloc, table)
}

// Puts of all pairs of a tree.
fn all_puts(alloc: Global, tree: &Tree<Global>) -> Result<Vec<Command<Global>>, AllocError>
    requires readable { IsReadable tree.now }
    requires height { tree.now.height ≤ most_levels }
    ensures { IfOk result (λ puts. puts.items ≡ all_puts (tree_of tree.now)) }
{
    let mut puts = Vec::new(alloc);
    puts_of(alloc, Rows::with_prefix(alloc, tree, b""), &mut puts)?;
    Ok(puts)
}

// The compacted tree. The tree itself is unchanged.
fn compacted_tree(
    rt: &(impl Threads + Sync),
    crew: Crew,
    alloc: Global,
    settings: &Settings,
    tree: &Tree<Global>,
) -> Result<Tree<Global>, Fault>
    requires { IsSoundInMemory settings.now tree.now }
    ensures sound { IfOk result (λ new. IsSoundInMemory settings.now new) }
    ensures tree { IfOk result (λ new. tree_of new ≡ compacted settings.now (tree_of tree.now)) }
    ensures fault { IfErr result (IsCompactFault settings.now (tree_of tree.now)) }
{
    // Only for the proof.
    the_first_tree_is_proper_and_empty();
    let mut new = outdated_tree(alloc, tree)?;
    let puts = all_puts(alloc, tree)?;
    execute(rt, crew, &NoGate, alloc, settings, &mut new, &puts)?;
    Ok(new)
}

// Whether the keys and values of these rows have at most `room` bytes. Stops at the first row that is too much.
fn fit_into(rows: Rows<'_>, room: u64) -> bool {
    let mut room = room;
    for (key, value) in rows {
        let bytes = (key.len() + value.len()) as u64;
        if room < bytes {
            return false;
        }
        room -= bytes;
    }
    true
}

// A number of pairs below which a tree of so many pages and levels is bloated.
fn most_pairs(pages: u64, height: u32, fan: u32) -> u64
    ensures { (n : ℕ) → n < result → 4 * n / fan + 4 * height < pages }
{
    let beyond = pages.saturating_sub(u64::from(height) * 4);
    let entries = beyond.saturating_mul(u64::from(fan));
    entries / 4
}

// The result if a compaction fails: no compacted tree, or `Fault::NoMemory` if an allocation failed.
fn no_compacted(fault: Fault) -> Result<Option<Tree<Global>>, Fault>
    ensures none { IfOk result (λ o. o ≡ None) }
    ensures err { IfErr result (λ fault. fault ≡ NoMemory) }
{
    match fault {
        Fault::NoMemory => Err(Fault::NoMemory),
        _ => Ok(None),
    }
}

impl<D: Disk> Store<D> {
    // Returns whether the tree has fewer pairs than a tree with so many pages should have.
    fn has_too_few_pairs(&self, pages: u64) -> bool
        ensures { pages ≡ counted_pages self.now.store.tree → IsTrue result →
            IsTrue (is_bloated self.now.settings self.now.store.tree) }
    {
        let most = most_pairs(pages, self.tree.height(), self.settings.fan);
        self.pairs < u128::from(most)
    }

    // Returns whether the tree has more pages than its pairs account for. The number of slots of its table is at least
    // that of its pages, and shows at once that most trees have not.
    pub(super) fn is_bloated(&self) -> bool
        ensures { IsTrue result → IsTrue (is_bloated self.now.settings self.now.store.tree) }
    {
        self.has_too_few_pairs(self.tree.most_pages() as u64)
            && self.has_too_few_pairs(count_pages(&self.tree))
    }

    // Returns whether the keys and values of all pairs have at most `room` bytes.
    fn needs_at_most(&self, room: u64) -> bool {
        fit_into(Rows::with_prefix(self.alloc, &self.tree, b""), room)
    }

    // Whether to try to compact a bloated tree: if its pairs alone do not fill the free segments, or if the next flush
    // needs cleans, which may make room for the pairs. Such a flush reads the whole log, so a compaction that fails does
    // not make it much slower.
    fn may_compact_now(&self, rt: &(impl Threads + Sync), crew: Crew) -> Result<bool, Fault>
        ensures { IfErr result (λ fault. fault ≡ NoMemory) }
    {
        let free = self.segments() - self.segments_in_use();
        if self.needs_at_most(free * u64::from(self.settings.seg_size)) {
            return Ok(true);
        }
        if !self.may_need_cleans(rt, crew)? {
            return Ok(false);
        }
        let pages = self.page_bytes(rt, crew)?;
        Ok(self.needs_at_most(self.room_beside(pages)))
    }

    // The compacted tree whose flush was refused with this fault, if cleans can make room for the flush.
    fn compacted_after_cleans(
        &self,
        rt: &(impl Threads + Sync),
        crew: Crew,
        new: Tree<Global>,
        refused: Fault,
    ) -> Result<Option<Tree<Global>>, Fault>
        requires sound { IsSoundInMemory self.now.settings new }
        ensures same { IfOk result (λ o. IfSome o (λ tree. tree ≡ new)) }
        ensures err { IfErr result (λ fault. fault ≡ NoMemory) }
    {
        if is_full(refused)? && self.can_make_room(rt, crew, &new)? {
            return Ok(Some(new));
        }
        Ok(None)
    }

    // The compacted tree, if its flush finds room now or after cleans.
    fn compacted_that_fits(
        &self,
        rt: &(impl Threads + Sync),
        crew: Crew,
    ) -> Result<Option<Tree<Global>>, Fault>
        ensures fits { IfOk result (λ o. IfSome o (λ new. IsSoundInMemory self.now.settings new
            × (tree_of new ≡ compacted self.now.settings self.now.store.tree)
            × (new.root < 2 ^ 64))) }
        ensures err { IfErr result (λ fault. fault ≡ NoMemory) }
    {
        // Only for the proof.
        a_compacted_tree_keeps_the_store_in_step();
        if !self.may_compact_now(rt, crew)? {
            return Ok(None);
        }
        let new = match compacted_tree(rt, crew, self.alloc, &self.settings, &self.tree) {
            Ok(new) => new,
            Err(fault) => return no_compacted(fault),
        };
        let _of_64_bits = new.root();
        if is_all_written(&new) {
            return Ok(None);
        }
        let text = CommitKind::Flush(self.version);
        match plan(rt, crew, self.alloc, &self.settings, &new, self.log, text) {
            Ok(_planned) => Ok(Some(new)),
            Err(fault) => self.compacted_after_cleans(rt, crew, new, fault),
        }
    }

    // Returns whether to add up the pairs' bytes now. Those of a small tree are added up at each flush, because that is
    // cheap; those of a larger one at one of as many flushes as it has multiples of 2,048 pages. The decision depends
    // only on the contents of the store, as everything must that determines what is written: not on the free page ids,
    // which a reopened store does not know. The sequence numbers are scattered, because cleans, which also count, come
    // in groups of equal length.
    fn is_time_to_add_up(&self) -> bool {
        let every = count_pages(&self.tree) / 2_048 + 1;
        let scattered = self.log.sequence.wrapping_mul(0x9e37_79b9_7f4a_7c15) >> 32;
        scattered % every == 0 || self.is_tight()
    }

    // Returns whether at least two thirds of the log are in use and the tree is bloated.
    pub(super) fn may_be_bloated(&self) -> bool
        ensures { IsTrue result → IsTrue (is_two_thirds_full self.now.settings self.now.store)
            × IsTrue (is_bloated self.now.settings self.now.store.tree) }
    {
        self.is_two_thirds_full() && self.is_bloated()
    }

    // Returns whether at least two thirds of the log are in use and the tree is bloated. Returns false if the log has no
    // room for the pairs twice, because a compaction writes them while their old frames are live, and at flushes at
    // which their bytes are not added up.
    fn may_be_compacted(&self) -> bool
        ensures { IsTrue result → IsTrue (is_two_thirds_full self.now.settings self.now.store)
            × IsTrue (is_bloated self.now.settings self.now.store.tree) }
    {
        let room = most_live(&self.settings) / 2;
        self.may_be_bloated() && self.is_time_to_add_up() && self.needs_at_most(room)
    }

    // Compacts the tree if its flush finds room now or after cleans.
    fn compact_if_it_fits(&mut self, rt: &(impl Threads + Sync), crew: Crew) -> Result<(), Fault>
        ensures compacted { OnOk result ((self.new ≡ self.old)
            ⊎ IsCompacted self.old.settings self.old.store self.new.store) }
        ensures rest { (self.new.settings ≡ self.old.settings) × (self.new.disk ≡ self.old.disk)
            × (self.new.has_failed ≡ self.old.has_failed) }
        ensures err { IfErr result (λ fault. fault ≡ NoMemory) }
        ensures unchanged { OnErr result (self.new ≡ self.old) }
    {
        // Only for the proof.
        a_compacted_tree_keeps_the_store_in_step();
        let fitting = self.compacted_that_fits(rt, crew)?;
        let Some(new) = fitting else {
            return Ok(());
        };
        self.tree = new;
        Ok(())
    }

    /// Compacts the tree, as `compact` does, if at least two thirds of the log's segments are in use, the tree has more
    /// pages than its pairs account for, and the flush of the compacted tree fits into the free segments, or is likely
    /// to fit after cleans. Else nothing changes. A tree has more pages than its pairs account for if it has more than
    /// `4 * pairs / fan + 4 * height`. The store must not have failed, and the crew must be in range.
    ///
    /// Fails only with `Fault::NoMemory`. Then nothing changes.
    ///
    /// Whether there are too many pages is two numbers, which the store keeps; a store that has become smaller since it
    /// was opened counts its pages. Only if there are too many, the bytes of the pairs are added up, to see whether they
    /// fit: at each flush if there are fewer than 2,048 pages, otherwise more rarely, unless the log is tight.
    pub fn compact_if_bloated(
        &mut self,
        rt: &(impl Threads + Sync),
        crew: Crew,
    ) -> Result<(), Fault>
        requires fine { self.old.has_failed ≡ false }
        requires crew { IsTrue (is_crew crew) }
        ensures compacted { OnOk result (IsCompactedIfBloated self.old self.new) }
        ensures rest { IsOnlyInMemory self.old self.new }
        ensures err { IfErr result (λ fault. fault ≡ NoMemory) }
        ensures unchanged { OnErr result (self.new ≡ self.old) }
    {
        if self.may_be_compacted() {
            return self.compact_if_it_fits(rt, crew);
        }
        Ok(())
    }

    /// Rebuilds the tree from its pairs, as one batch that puts all of them into an empty store would: with as few
    /// leaves as the pairs need. Returns how many pages fewer the store has, or 0 if it has more. Call it if `tidy`
    /// leaves many more pages.
    ///
    /// It allocates the new pages, and a command for each pair, while the old pages still exist. Nothing is written to
    /// the disk before the next flush. That flush writes every page, so the log needs free segments for the whole new
    /// tree. If it has too few, the flush fails with `Fault::Full`, and earlier batches cannot be flushed either, so
    /// flush first. `copy_to` still works.
    ///
    /// Fails with `Fault::Failed` if the store has failed, then with `Fault::BadCrew` if the crew is out of range. Else
    /// it fails with `Fault::NoMemory`, or with `Fault::Spent` if the tree would have more than 64 levels. After an
    /// `Err` the store is unchanged.
    pub fn compact(&mut self, rt: &(impl Threads + Sync), crew: Crew) -> Result<u64, Fault>
        // The contents are unchanged, and the tree is that of a batch that puts all pairs into an empty tree.
        ensures compacted { OnOk result
            (IsCompacted self.old.settings self.old.store self.new.store) }
        ensures pages { IfOk result (λ count.
            count ≡ counted_pages self.old.store.tree - counted_pages self.new.store.tree) }
        ensures rest { IsOnlyInMemory self.old self.new }
        ensures unchanged { OnErr result (self.new ≡ self.old) }

        ensures admitted { IsAdmitted (is_crew crew) self.old result self.new }
        ensures refused { self.old.has_failed ≡ false → IsTrue (is_crew crew) →
            IfErr result (IsCompactFault self.old.settings self.old.store.tree) }
    {
        // Only for the proof.
        a_compacted_tree_keeps_the_store_in_step();
        if self.has_failed {
            return Err(Fault::Failed);
        }
        admit_crew(crew)?;
        let before = count_pages(&self.tree);
        let new = compacted_tree(rt, crew, self.alloc, &self.settings, &self.tree)?;
        let _of_64_bits = new.root();
        self.tree = new;
        Ok(before.saturating_sub(count_pages(&self.tree)))
    }
}
