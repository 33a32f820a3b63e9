//! What the commands before a place of a batch delete.
ghost use Rattle.std.specs.Prelude.{◌≡◌, true, List, [], ◌∷◌, ◌++◌, ◌-◌, ◌^◌, ◌<◌, ◌≤◌, length, Contains, Option, IfOk, IfSome, option_copied};
ghost use Rattle.keys.specs.Bytes.{Bytes};
ghost use Rattle.keys.specs.Range.{is_below};
ghost use Rattle.scan.specs.Ends.{deleted, deleted_by, wiped_by, IsUntouched, count_within};
ghost use Rattle.scan.specs.Ends as ends;
ghost use Rattle.scan.specs.Deletions.{all_lower, all_upper, AreWiped, IsTaken, IsTakenBelow, IsReadyFor, AreReady, HasKeysOf};

use crate::tally::RankCounter;
use keys::{Command, Key, KeyRef, is_before};
use std::alloc::{AllocError, Global};
use std::marker::Model;

/// What the commands before a place delete: single keys, and ranges that are wiped. Contracts see it as three rank
/// counters: of the deleted keys, of the lower bounds of the wiped ranges, and of their upper bounds.
#[derive(Drop)]
pub(crate) struct Deletions<'c> {
    deleted: RankCounter<'c>,
    wiped_from: RankCounter<'c>,
    wiped_to: RankCounter<'c>,
}

impl<'c> Model for Deletions<'c> {
    ghost use Rattle.scan.specs.Deletions.{Tallies};

    ghost Value = { Tallies };

    ghost view = { λ t. (t.deleted, t.wiped_from, t.wiped_to) };
}

/// What is deleted below a key: how many keys are deleted, how many wiped ranges begin there, and how many end there or
/// at the key.
#[derive(Drop)]
pub(crate) struct DeletionsBelow {
    deleted: usize,
    begun: usize,
    ended: usize,
}

impl<'c> Deletions<'c> {
    /// Nothing, before the first of these commands.
    pub(crate) fn before_all(
        alloc: Global,
        commands: &'c [Command<Global>],
    ) -> Result<Self, AllocError>
        ensures none { IfOk result (λ taken. IsTaken ([], []) taken) }
        ensures ready { IfOk result (λ taken. AreReady commands.now taken) }
    {
        let deleted = RankCounter::new(alloc, deleted_keys(alloc, commands)?)?;
        let wiped_from = RankCounter::new(alloc, lower_bounds(alloc, commands)?)?;
        let wiped_to = RankCounter::new(alloc, upper_bounds(alloc, commands)?)?;
        Ok(Deletions {
            deleted,
            wiped_from,
            wiped_to,
        })
    }

    /// Records what `command`, one of those commands, deletes.
    pub(crate) fn note(&mut self, command: &Command<Global>)
        ensures keys { HasKeysOf self.old self.new }
        ensures taken { (gone : ends.Deletions) → IsTaken gone self.old
            → IsReadyFor command.now self.old
            → length gone.0 < 2 ^ 64 - 1 → length gone.1 < 2 ^ 64 - 1
            → IsTaken (gone.0 ++ deleted_by command.now, gone.1 ++ wiped_by command.now) self.new }
    {
        match command {
            Command::Del(key) => self.deleted.note(key.as_bytes()),
            Command::Wipe(lo, hi) => self.note_range(lo, hi.as_ref()),
            _ => {}
        }
    }

    // Records the bounds of a range if it isn't empty.
    fn note_range(&mut self, lo: &Key<Global>, hi: Option<&Key<Global>>)
        ensures keys { HasKeysOf self.old self.new }
        ensures deleted { self.new.0 ≡ self.old.0 }
        ensures wiped { (ranges : List (Bytes × Option Bytes)) → AreWiped ranges self.old
            → Contains self.old.1.0 lo.now
            → IfSome (option_copied hi.entry) (λ k. Contains self.old.2.0 k)
            → length ranges < 2 ^ 64 - 1
            → AreWiped (ranges ++ (lo.now, option_copied hi.entry) ∷ []) self.new }
    {
        match hi {
            None => self.wiped_from.note(lo.as_bytes()),
            Some(hi) => {
                if is_before(Some(hi.as_bytes()), lo.as_bytes()) {
                    self.wiped_from.note(lo.as_bytes());
                    self.wiped_to.note(hi.as_bytes());
                }
            }
        }
    }

    pub(crate) fn below(&self, key: &[u8]) -> DeletionsBelow
        ensures { (gone : ends.Deletions) → IsTaken gone self.now → IsTakenBelow gone key.now result }
    {
        let key = KeyRef::new(key);
        DeletionsBelow {
            deleted: self.deleted.below(&key),
            begun: self.wiped_from.below(&key),
            ended: self.wiped_to.up_to(&key),
        }
    }
}

impl DeletionsBelow {
    /// The most keys that are deleted at or above this key and below the key of `end`, or `None` if a wiped range may
    /// have keys between the two.
    pub(crate) fn most_until(&self, end: &DeletionsBelow) -> Option<usize>
        ensures { (gone : ends.Deletions) (low high : Bytes) → is_below low high ≡ true
            → IsTakenBelow gone low self.now → IsTakenBelow gone high end.now
            → IfSome result (λ most. IsUntouched low high gone.1
            × (count_within low high gone.0 ≤ most)) }
    {
        if end.begun > self.ended {
            return None;
        }
        Some(end.deleted.saturating_sub(self.deleted))
    }
}

fn deleted_keys<'c>(
    alloc: Global,
    commands: &'c [Command<Global>],
) -> Result<Vec<KeyRef<'c>>, AllocError>
    ensures { IfOk result (λ keys. keys.items ≡ deleted commands.now) }
{
    let mut keys = Vec::new(alloc);
    for command in commands {
        if let Command::Del(key) = command {
            keys.push(KeyRef::new(key.as_bytes()))?;
        }
    }
    Ok(keys)
}

fn lower_bounds<'c>(
    alloc: Global,
    commands: &'c [Command<Global>],
) -> Result<Vec<KeyRef<'c>>, AllocError>
    ensures { IfOk result (λ keys. keys.items ≡ all_lower commands.now) }
{
    let mut keys = Vec::new(alloc);
    for command in commands {
        if let Command::Wipe(lo, _) = command {
            keys.push(KeyRef::new(lo.as_bytes()))?;
        }
    }
    Ok(keys)
}

fn upper_bounds<'c>(
    alloc: Global,
    commands: &'c [Command<Global>],
) -> Result<Vec<KeyRef<'c>>, AllocError>
    ensures { IfOk result (λ keys. keys.items ≡ all_upper commands.now) }
{
    let mut keys = Vec::new(alloc);
    for command in commands {
        if let Command::Wipe(_, Some(hi)) = command {
            keys.push(KeyRef::new(hi.as_bytes()))?;
        }
    }
    Ok(keys)
}
