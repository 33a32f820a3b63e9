//! Counts the commands of each kind for one page.
ghost use Rattle.std.specs.Prelude.{◌≡◌, true};
ghost use Rattle.std.specs.List.{list_all};
ghost use Rattle.std.specs.Option.{option_copied, option_to_list};
ghost use Rattle.page_runs.specs.Reads.{is_read_only};
ghost use Rattle.page_runs.specs.Replies.{commands_at};

use keys::Command;
use std::alloc::Global;

// Room is reserved for the answers of at most this many scans, because in a batch of more scans, most pages may answer
// without rows.
const FEW_SCANS: usize = 16;

/// How many commands of each kind there are for a page. Affects only how much room is reserved, in which order commands
/// are executed and how changes are stored, never the result.
#[derive(Drop)]
pub(crate) struct Kinds {
    gets: usize,
    scans: usize,
    /// Commands that may change a key.
    pub(crate) writes: usize,
}

impl Kinds {
    pub(crate) fn of(commands: &[Command<Global>], places: &[usize]) -> Self
        ensures { result.writes ≡ 0 →
            list_all is_read_only (commands_at commands.now places.now) ≡ true }
    {
        let mut kinds = Kinds {
            gets: 0,
            scans: 0,
            writes: 0,
        };
        for place in places {
            kinds.count(commands.get(*place));
        }
        kinds
    }

    fn count(&mut self, command: Option<&Command<Global>>)
        ensures { self.new.writes ≡ 0 → (self.old.writes ≡ 0)
            × (list_all is_read_only (option_to_list (option_copied command.entry)) ≡ true) }
    {
        match command {
            Some(Command::Get(_)) => self.gets = self.gets.saturating_add(1),
            Some(Command::Scan(_, _, _)) => self.scans = self.scans.saturating_add(1),
            _ => self.writes = self.writes.saturating_add(1),
        }
    }

    /// How many answers to reserve room for.
    pub(crate) fn room(&self) -> usize {
        let others = self.gets.saturating_add(self.writes);
        others.saturating_add(self.scans.min(FEW_SCANS))
    }
}
