//! Laws about the effect of a flush on the table of a tree in memory. Each law is the contract of a function with an
//! empty body.
ghost use Rattle.std.specs.Prelude.{◌≡◌, ◌↔◌, [], None};
ghost use Rattle.std.specs.List.{AllByRecursion};
ghost use Rattle.keys.specs.Limits.{first_bad_field};
ghost use Rattle.keys.specs.declared.settings.Settings.{Settings};
ghost use Rattle.keys.specs.declared.version.Version.{Version};
ghost use Rattle.mapping.specs.Flushed.{marked_as_written};
ghost use Rattle.mapping.specs.Proper.{IsProper};
ghost use Rattle.mapping.specs.Table.{pids_in_use_or_old};
ghost use Rattle.mapping.specs.Tree.{Tree, page_at, logged_of};
ghost use Rattle.mapping.specs.TreeInMemory.{TreeInMemory, AreAllHome, tree_of};
ghost use Rattle.flush_log.specs.FlushText.{encoding_of, lacking, pids_to_write, flush_frames, flushed};

/// If no page is checked out, a flush visits the pids that the table iterates over. It has nothing to write if and only
/// if the log lacks nothing of any of them.
pub fn a_flush_goes_over_the_pids_that_the_table_knows()
    ensures pids { (t : TreeInMemory) → AreAllHome t →
        pids_to_write (tree_of t) ≡ pids_in_use_or_old t.table }
    ensures nothing { (version : Version) (t : Tree) →
        (flush_frames version t ≡ []) ↔
        AllByRecursion (λ pid. lacking (encoding_of version) (page_at t.pages pid) (logged_of t pid)
        ≡ []) (pids_to_write t) }
{}

/// A table that is marked as written contains the tree that a flush leaves.
pub fn a_table_marked_as_written_holds_the_flushed_tree()
    ensures { (s : Settings) (t : TreeInMemory) → first_bad_field s ≡ None →
        IsProper s (tree_of t) →
        tree_of (record { table = marked_as_written t.table; root = t.root; height = t.height })
        ≡ flushed (tree_of t) }
{}
