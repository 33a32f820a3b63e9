//! A batch whose scans may have closer upper bounds.
ghost use Rattle.std.specs.Prelude.{◌≡◌, length, map, drop};
ghost use Rattle.std.specs.List.{list_any};
ghost use Rattle.std.specs.Option.{option_copied};
ghost use Rattle.keys.specs.CommandKey.{is_ranged};
ghost use Rattle.keys.specs.Narrowed.{first_end, with_ends};
ghost use Rattle.keys.specs.Places.{is_ranged_at};
ghost use Rattle.routing.specs.BatchKeys.{key_at};
ghost use Rattle.routing.specs.Idle.{gives_at, empties_at};
ghost use Rattle.routing.specs.SortedPlaces.{reaches_at};

use crate::reaching::{empties, gives, reaches};
use keys::Command;
use std::alloc::Global;
use std::marker::Model;

/// The commands of a batch during routing. A scan may have a closer end instead of its own upper bound, if it is known
/// to find all its rows before that end. Contracts see it as the list of the commands with these ends.
#[derive(Drop)]
pub struct BatchWithEnds<'a> {
    commands: &'a [Command<Global>],
    // The closer end of the scan at each place, if it has one; places after the end of the list have none.
    ends: Vec<Option<&'a [u8]>>,
}

impl<'a> Model for BatchWithEnds<'a> {
    ghost use Rattle.std.specs.Prelude.{List, map};
    ghost use Rattle.std.specs.Option.{option_copied};
    ghost use Rattle.std.specs.declared.alloc.Global.{Global};
    ghost use Rattle.keys.specs.Narrowed.{with_ends};
    ghost use Rattle.keys.specs.declared.command.Command.{Command};

    ghost Value = { List (Command Global) };

    ghost view = { λ b. with_ends b.commands.now (map option_copied b.ends.items) };
}

impl<'a> BatchWithEnds<'a> {
    /// Combines `commands` with the closer end of the scan at each place, if it has one. `ends` may be shorter than
    /// `commands`: the remaining places have none.
    pub fn new(commands: &'a [Command<Global>], ends: Vec<Option<&'a [u8]>>) -> Self
        ensures { result ≡ with_ends commands.entry.now (map option_copied ends.entry.items) }
    {
        BatchWithEnds { commands, ends }
    }

    pub(crate) fn len(&self) -> usize
        ensures { result ≡ length self.now }
    {
        self.commands.len()
    }

    // The key of the command at this place, or the empty key if there is no command.
    #[inline]
    pub(crate) fn key_at(&self, place: usize) -> &'a [u8]
        ensures { result.now ≡ key_at self.now place }
    {
        match self.commands.get(place) {
            Some(command) => command.key().as_bytes(),
            None => &[],
        }
    }

    // Whether a command of the batch covers a range of keys.
    pub(crate) fn has_ranges(&self) -> bool
        ensures { result ≡ list_any is_ranged self.now }
    {
        has_range(self.commands)
    }

    // Whether the command at this place covers a range of keys.
    pub(crate) fn is_ranged_at(&self, place: usize) -> bool
        ensures { result ≡ is_ranged_at self.now place }
    {
        match self.commands.get(place) {
            Some(command) => command.is_ranged(),
            None => false,
        }
    }

    // Whether the command at this place sets the value of a key.
    pub(crate) fn gives_at(&self, place: usize) -> bool
        ensures { result ≡ gives_at self.now place }
    {
        match self.commands.get(place) {
            Some(command) => gives(command),
            None => false,
        }
    }

    // Whether the command at this place is a wipe that covers all keys from its lower bound up to `end`.
    pub(crate) fn empties_at(&self, place: usize, end: Option<&[u8]>) -> bool
        ensures { result ≡ empties_at self.now (option_copied end.entry) place }
    {
        match self.commands.get(place) {
            Some(command) => empties(command, end),
            None => false,
        }
    }

    // Whether the command at this place reaches the page with this low key from the left.
    pub(crate) fn reaches_at(&self, place: usize, low: &[u8]) -> bool
        ensures { result ≡ reaches_at self.now low.now place }
    {
        match self.commands.get(place) {
            Some(command) => reaches(command, end_at(&self.ends, place), low),
            None => false,
        }
    }
}

// Whether one of these commands covers a range of keys.
fn has_range(commands: &[Command<Global>]) -> bool
    ensures { result ≡ list_any is_ranged commands.now }
{
    commands.iter().any(|command| command.is_ranged())
}

// The closer end at this place, if there is one.
fn end_at<'a>(ends: &[Option<&'a [u8]>], place: usize) -> Option<&'a [u8]>
    ensures { option_copied result ≡ first_end (drop place (map option_copied ends.now)) }
{
    match ends.get(place) {
        Some(end) => *end,
        None => None,
    }
}
