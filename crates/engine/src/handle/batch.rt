//! Batches that are built command by command, and their replies.
ghost use Rattle.std.specs.Prelude.{◌≡◌, ◌==◌, ◌+◌, ◌-◌, ◌^◌, ◌<◌, ◌≤◌, min, [], length, slice_get, false, None, IfOk, MatchOption, OnErr};
ghost use Rattle.std.specs.Option.{option_copied};
ghost use Rattle.keys.specs.declared.command.Command.TheVariants.{Get, Put, Add, Del, Scan, Wipe};
ghost use Rattle.engine.specs.Tokens.{IsAdded, is_new, most_rows, row_limit, was_deleted, value_of, rows_of, wiped_count};

use keys::{Command, Key, Reply, RowList};
use std::alloc::{AllocError, Global};
use std::marker::Model;

/// A list of commands that `Handle::execute` executes together, all or none. Each call that adds a command returns a
/// token, with which `Replies` finds the reply to this command. A batch can be executed several times.
///
/// A call that adds a command copies its keys and its value. If an allocation fails, it returns `AllocError`, and the
/// batch is unchanged. The lengths of keys and values are checked when the batch is executed.
///
/// Contracts see a batch as the list of its commands.
#[derive(Drop)]
pub struct Batch {
    alloc: Global,
    commands: Vec<Command<Global>>,
    // The sum of the limits of the scans.
    rows: u64,
}

/// Identifies a command of a batch. Contracts see it as the command's place in the batch.
#[derive(Clone, Copy, Debug, PartialEq, Eq)]
pub struct Token {
    place: usize,
}

impl Model for Batch {
    ghost use Rattle.std.specs.Prelude.{◌≡◌, ◌-◌, ◌^◌, List, min};
    ghost use Rattle.std.specs.declared.alloc.Global.{Global};
    ghost use Rattle.keys.specs.declared.command.Command.{Command};
    ghost use Rattle.engine.specs.Tokens.{most_rows};

    ghost Value = { List (Command Global) };

    ghost view = { λ b. b.commands.items };

    ghost invariant = { λ b. b.rows ≡ min (most_rows b.commands.items) (2 ^ 64 - 1) };
}

impl Model for Token {
    ghost use Rattle.std.specs.Prelude.{ℕ};

    ghost Value = { ℕ };

    ghost view = { λ t. t.place };

    ghost inverse = { λ n. record { place = n } };
}

impl Batch {
    /// Returns an empty batch. Does not allocate.
    pub fn new(alloc: Global) -> Self
        ensures { result ≡ [] }
    {
        Batch {
            alloc,
            commands: Vec::new(alloc),
            rows: 0,
        }
    }

    /// Returns the commands in the order in which they were added.
    pub fn commands(&self) -> &[Command<Global>]
        ensures { result.now ≡ self.now }
    {
        &self.commands
    }

    /// Returns the number of commands.
    pub fn len(&self) -> usize
        ensures { result ≡ length self.now }
    {
        self.commands.len()
    }

    /// Returns whether the batch has no commands.
    pub fn is_empty(&self) -> bool
        ensures { result ≡ (length self.now == 0) }
    {
        self.commands.is_empty()
    }

    /// Removes all commands, so that the batch can be built again without another allocation for its list. A token of a
    /// removed command then finds the reply to the command that is later added at the same place.
    pub fn clear(&mut self)
        ensures { self.new ≡ [] }
    {
        self.commands.clear();
        self.rows = 0;
    }

    /// Returns how many rows the replies to the batch may have together: the sum of the limits of its scans, or
    /// `u64::MAX` if the sum is larger. Takes constant time.
    pub fn most_rows(&self) -> u64
        ensures { result ≡ min (most_rows self.now) (2 ^ 64 - 1) }
    {
        self.rows
    }

    /// Adds a command that the caller made.
    pub fn push(&mut self, command: Command<Global>) -> Result<Token, AllocError>
        ensures added { IfOk result (IsAdded self.old self.new command) }
        ensures unchanged { OnErr result (self.new ≡ self.old) }
    {
        let place = self.commands.len();
        let rows = self.rows.saturating_add(u64::from(row_limit(&command)));
        self.commands.push(command)?;
        self.rows = rows;
        Ok(Token { place })
    }

    /// Adds a `Command::Get`. `Replies::value` returns the value at the key.
    pub fn get(&mut self, key: &[u8]) -> Result<Token, AllocError>
        ensures added { IfOk result (IsAdded self.old self.new (Get key.now)) }
        ensures unchanged { OnErr result (self.new ≡ self.old) }
    {
        let command = Command::get(self.alloc, key)?;
        self.push(command)
    }

    /// Adds a `Command::Put`, which sets the value at the key. `Replies::is_new` returns whether the key was absent.
    pub fn put(&mut self, key: &[u8], value: &[u8]) -> Result<Token, AllocError>
        ensures added { IfOk result (IsAdded self.old self.new (Put key.now value.now)) }
        ensures unchanged { OnErr result (self.new ≡ self.old) }
    {
        let command = Command::put(self.alloc, key, value)?;
        self.push(command)
    }

    /// Adds a `Command::Add`, which sets the value at the key if the key is absent. `Replies::is_new` returns whether
    /// the key was absent.
    pub fn add(&mut self, key: &[u8], value: &[u8]) -> Result<Token, AllocError>
        ensures added { IfOk result (IsAdded self.old self.new (Add key.now value.now)) }
        ensures unchanged { OnErr result (self.new ≡ self.old) }
    {
        let command = Command::add(self.alloc, key, value)?;
        self.push(command)
    }

    /// Adds a `Command::Del`, which deletes the key. `Replies::was_deleted` returns whether the key was present.
    pub fn del(&mut self, key: &[u8]) -> Result<Token, AllocError>
        ensures added { IfOk result (IsAdded self.old self.new (Del key.now)) }
        ensures unchanged { OnErr result (self.new ≡ self.old) }
    {
        let command = Command::del(self.alloc, key)?;
        self.push(command)
    }

    /// Adds a `Command::Scan`, which reads the first `limit` pairs whose keys are at or above `lo` and below `hi` (if
    /// given). `Replies::rows` returns them.
    pub fn scan(&mut self, lo: &[u8], hi: Option<&[u8]>, limit: u32) -> Result<Token, AllocError>
        ensures added { IfOk result
            (IsAdded self.old self.new (Scan lo.now (option_copied hi.entry) limit)) }
        ensures unchanged { OnErr result (self.new ≡ self.old) }
    {
        let command = scan_command(self.alloc, lo, hi, limit)?;
        self.push(command)
    }

    /// Adds a scan as `scan` does, if the sum of the limits of all scans of the batch (`most_rows`), including this
    /// one, is at most `budget`. Otherwise returns `None`, and the batch is unchanged: the scan is left out, not
    /// shortened. The sum counts limits, not the rows that the scans will find. Rows are copied when the batch is
    /// executed, so a budget limits the memory and the time that the scans of a batch take.
    pub fn scan_within(
        &mut self,
        lo: &[u8],
        hi: Option<&[u8]>,
        limit: u32,
        budget: u32,
    ) -> Result<Option<Token>, AllocError>
        ensures added { IfOk result (λ token. MatchOption token
            ((budget < most_rows self.old + limit) × (self.new ≡ self.old))
            (λ place. IsAdded self.old self.new (Scan lo.now (option_copied hi.entry) limit) place
            × (most_rows self.new ≤ budget))) }
        ensures unchanged { OnErr result (self.new ≡ self.old) }
    {
        let rows = self.rows.saturating_add(u64::from(limit));
        if rows > u64::from(budget) {
            return Ok(None);
        }
        let token = self.scan(lo, hi, limit)?;
        Ok(Some(token))
    }

    /// Adds a `Command::Wipe`, which deletes all keys at or above `lo` and below `hi` (if given). `Replies::wiped`
    /// returns how many keys there were.
    pub fn wipe(&mut self, lo: &[u8], hi: Option<&[u8]>) -> Result<Token, AllocError>
        ensures added { IfOk result
            (IsAdded self.old self.new (Wipe lo.now (option_copied hi.entry))) }
        ensures unchanged { OnErr result (self.new ≡ self.old) }
    {
        let command = wipe_command(self.alloc, lo, hi)?;
        self.push(command)
    }
}

// How many rows the reply to the command may have.
fn row_limit(command: &Command<Global>) -> u32
    ensures { result ≡ row_limit command.now }
{
    match command {
        Command::Scan(_, _, limit) => *limit,
        _ => 0,
    }
}

fn scan_command(
    alloc: Global,
    lo: &[u8],
    hi: Option<&[u8]>,
    limit: u32,
) -> Result<Command<Global>, AllocError>
    ensures { IfOk result (λ command. command ≡ Scan lo.now (option_copied hi.entry) limit) }
{
    let lo = Key::from_bytes(alloc, lo)?;
    let hi = copied_bound(alloc, hi)?;
    Ok(Command::Scan(lo, hi, limit))
}

pub(crate) fn wipe_command(
    alloc: Global,
    lo: &[u8],
    hi: Option<&[u8]>,
) -> Result<Command<Global>, AllocError>
    ensures { IfOk result (λ command. command ≡ Wipe lo.now (option_copied hi.entry)) }
{
    let lo = Key::from_bytes(alloc, lo)?;
    let hi = copied_bound(alloc, hi)?;
    Ok(Command::Wipe(lo, hi))
}

fn copied_bound(alloc: Global, hi: Option<&[u8]>) -> Result<Option<Key<Global>>, AllocError>
    ensures { IfOk result (λ bound. bound ≡ option_copied hi.entry) }
{
    match hi {
        Some(hi) => Ok(Some(Key::from_bytes(alloc, hi)?)),
        None => Ok(None),
    }
}

/// The replies to the commands of a batch, which are found by the tokens of this batch. If the token belongs to another
/// batch, or to a command of another kind than the call is for, the call returns `None`, `false` or 0, or the reply to
/// another command.
///
/// Contracts see the list of the replies.
#[derive(Drop)]
pub struct Replies {
    replies: Vec<Reply<Global>>,
}

impl Model for Replies {
    ghost use Rattle.std.specs.Prelude.{List};
    ghost use Rattle.std.specs.declared.alloc.Global.{Global};
    ghost use Rattle.keys.specs.declared.command.Reply.{Reply};

    ghost Value = { List (Reply Global) };

    ghost view = { λ r. r.replies.items };
}

impl Replies {
    // The replies must be in the order of their commands.
    pub(crate) fn new(replies: Vec<Reply<Global>>) -> Self
        ensures { result ≡ replies.items }
    {
        Replies { replies }
    }

    /// Returns the reply to the command of this token.
    pub fn reply(&self, token: Token) -> Option<&Reply<Global>>
        ensures { option_copied result ≡ slice_get self.now token }
    {
        self.replies.get(token.place)
    }

    /// Returns the value that a `Command::Get` found, or `None` if the key was absent.
    pub fn value(&self, token: Token) -> Option<&[u8]>
        ensures { MatchOption (slice_get self.now token) (result ≡ None)
            (λ reply. option_copied result ≡ value_of reply) }
    {
        match self.reply(token) {
            Some(Reply::Value(value)) => Some(value.as_bytes()),
            _ => None,
        }
    }

    /// Returns whether a `Command::Put` or a `Command::Add` found the key absent.
    pub fn is_new(&self, token: Token) -> bool
        ensures { MatchOption (slice_get self.now token) (result ≡ false)
            (λ reply. result ≡ is_new reply) }
    {
        match self.reply(token) {
            Some(reply) => is_new(reply),
            None => false,
        }
    }

    /// Returns whether a `Command::Del` found the key present.
    pub fn was_deleted(&self, token: Token) -> bool
        ensures { MatchOption (slice_get self.now token) (result ≡ false)
            (λ reply. result ≡ was_deleted reply) }
    {
        match self.reply(token) {
            Some(reply) => was_deleted(reply),
            None => false,
        }
    }

    /// Returns the pairs that a `Command::Scan` found, in key order: `for (key, value) in rows` iterates over slices of
    /// bytes.
    pub fn rows(&self, token: Token) -> Option<&RowList<Global>>
        ensures { MatchOption (slice_get self.now token) (result ≡ None)
            (λ reply. option_copied result ≡ rows_of reply) }
    {
        match self.reply(token) {
            Some(Reply::Rows(rows)) => Some(rows),
            _ => None,
        }
    }

    /// Returns how many keys a `Command::Wipe` deleted.
    pub fn wiped(&self, token: Token) -> u128
        ensures { MatchOption (slice_get self.now token) (result ≡ 0)
            (λ reply. result ≡ wiped_count reply) }
    {
        match self.reply(token) {
            Some(reply) => wiped_count(reply),
            None => 0,
        }
    }
}

// Whether a put or an add found the key absent.
pub(crate) fn is_new(reply: &Reply<Global>) -> bool
    ensures { result ≡ is_new reply.now }
{
    matches!(reply, Reply::New | Reply::Added)
}

// Whether a del found the key present.
pub(crate) fn was_deleted(reply: &Reply<Global>) -> bool
    ensures { result ≡ was_deleted reply.now }
{
    matches!(reply, Reply::Deleted)
}

// How many keys a wipe deleted.
pub(crate) fn wiped_count(reply: &Reply<Global>) -> u128
    ensures { result ≡ wiped_count reply.now }
{
    match reply {
        Reply::Wiped(count) => *count,
        _ => 0,
    }
}
