//! Executes a batch on an ordered map, and lists the puts, adds and deletes that make the same changes.
ghost use Rattle.std.specs.Prelude.{◌≡◌, ◌∷◌, ◌++◌, [], length, is_some, if◌then◌else◌, IfOk, OnOk};
ghost use Rattle.std.specs.Map.{keys_of};
ghost use Rattle.std.specs.declared.alloc.Global.{Global};
ghost use Rattle.keys.specs.Order.{IsRising};
ghost use Rattle.keys.specs.OrderedMap.{value_at, with_pair, without};
ghost use Rattle.keys.specs.Range.{is_before, in_range, out_of_range, rows};
ghost use Rattle.keys.specs.Step.{found, reply_to, map_after, map_after_all, replies_to};
ghost use Rattle.keys.specs.declared.command.Reply.TheVariants.{New, Replaced, Deleted, Missing, Added, Exists, Wiped};
ghost use Rattle.keys.specs.declared.command.Command.TheVariants.{Put, Add, Del};
ghost use Rattle.replies.specs.InTurn.{points_by, points_of, dels_of};

use keys::{Command, Key, KeyRef, Reply, RowList, Value, is_before};
use std::alloc::{AllocError, Global};
use std::collections::BTreeMap;
use std::marker::Model;

// A borrowed value. Contracts see its bytes.
#[derive(Drop)]
struct ValueRef<'a> {
    bytes: &'a [u8],
}

impl<'a> Model for ValueRef<'a> {
    ghost use Rattle.keys.specs.Bytes.{Bytes};

    ghost Value = { Bytes };

    ghost view = { λ v. v.bytes.now };
}

/// An ordered map that borrows its keys and values. Contracts see the list of its pairs.
#[derive(Drop)]
pub struct LentMap<'a> {
    pairs: BTreeMap<KeyRef<'a>, ValueRef<'a>, Global>,
}

impl<'a> Model for LentMap<'a> {
    ghost use Rattle.keys.specs.Bytes.{Bytes, Pairs};

    ghost Value = { Pairs Bytes };

    ghost view = { λ m. m.pairs.entries };
}

impl<'a> LentMap<'a> {
    /// Returns an empty map. It does not allocate.
    pub fn new(alloc: Global) -> Self
        ensures { result ≡ [] }
    {
        LentMap {
            pairs: BTreeMap::new(alloc),
        }
    }

    /// Sets the value of `key`, and returns whether the map had this key. Fails with `AllocError` if memory runs out;
    /// drop the map then.
    pub fn insert(&mut self, key: &'a [u8], value: &'a [u8]) -> Result<bool, AllocError>
        ensures map { OnOk result (self.new ≡ with_pair self.old key.now value.now) }
        ensures there { IfOk result (λ there. there ≡ is_some (value_at key.now self.old)) }
    {
        let value = ValueRef { bytes: value };
        let before = self.pairs.insert(KeyRef::new(key), value)?;
        Ok(before.is_some())
    }

    /// Executes `command` and returns its reply. Appends to `points` commands on one key each that make the same
    /// change: a put, add or delete itself, and for a wipe the delete of each key that it finds. Fails with
    /// `AllocError` if memory runs out; drop the map and `points` then.
    pub fn execute(
        &mut self,
        alloc: Global,
        command: &'a Command<Global>,
        points: &mut Vec<Command<Global>>,
    ) -> Result<Reply<Global>, AllocError>
        ensures reply { IfOk result (λ reply. reply ≡ reply_to self.old command.now) }
        ensures map { OnOk result (self.new ≡ map_after self.old command.now) }
        ensures points { OnOk result
            (points.new.items ≡ points.old.items ++ points_by self.old command.now) }
    {
        match command {
            Command::Get(key) => self.get(alloc, key.as_bytes()),
            Command::Put(key, value) => {
                push_put(alloc, key.as_bytes(), value.as_bytes(), points)?;
                self.put(key.as_bytes(), value.as_bytes())
            }
            Command::Add(key, value) => {
                push_add(alloc, key.as_bytes(), value.as_bytes(), points)?;
                self.add(key.as_bytes(), value.as_bytes())
            }
            Command::Del(key) => {
                push_del(alloc, key.as_bytes(), points)?;
                Ok(self.del(key.as_bytes()))
            }
            Command::Scan(lo, hi, limit) => {
                let rows = self.rows(alloc, lo.as_bytes(), hi, *limit)?;
                Ok(Reply::Rows(rows))
            }
            Command::Wipe(lo, hi) => self.wipe(alloc, lo.as_bytes(), hi, points),
        }
    }

    /// Returns a copy of the pairs. Fails with `AllocError` if memory runs out.
    pub fn to_rows(&self, alloc: Global) -> Result<RowList<Global>, AllocError>
        ensures rows { IfOk result (λ rows. rows ≡ self.now) }
        ensures rising { IsRising self.now }
    {
        let mut rows = RowList::empty(alloc);
        // Only for the proof: the contract of `len` states that the keys are sorted.
        let _rising = self.pairs.len();
        for (key, value) in &self.pairs {
            rows.push(key.as_bytes(), value.bytes)?;
        }
        Ok(rows)
    }

    fn get(&self, alloc: Global, key: &'a [u8]) -> Result<Reply<Global>, AllocError>
        ensures { IfOk result (λ reply. reply ≡ found (value_at key.now self.now)) }
    {
        match self.pairs.get(&KeyRef::new(key)) {
            Some(value) => Ok(Reply::Value(Value::from_bytes(alloc, value.bytes)?)),
            None => Ok(Reply::Missing),
        }
    }

    fn put(&mut self, key: &'a [u8], value: &'a [u8]) -> Result<Reply<Global>, AllocError>
        ensures reply { IfOk result (λ reply. reply
            ≡ (if is_some (value_at key.now self.old) then Replaced else New)) }
        ensures map { OnOk result (self.new ≡ with_pair self.old key.now value.now) }
    {
        if self.insert(key, value)? {
            Ok(Reply::Replaced)
        } else {
            Ok(Reply::New)
        }
    }

    fn add(&mut self, key: &'a [u8], value: &'a [u8]) -> Result<Reply<Global>, AllocError>
        ensures reply { IfOk result (λ reply. reply
            ≡ (if is_some (value_at key.now self.old) then Exists else Added)) }
        ensures map { OnOk result (self.new
            ≡ (if is_some (value_at key.now self.old)
            then self.old else with_pair self.old key.now value.now)) }
    {
        if self.pairs.contains_key(&KeyRef::new(key)) {
            return Ok(Reply::Exists);
        }
        let _there = self.insert(key, value)?;
        Ok(Reply::Added)
    }

    fn del(&mut self, key: &'a [u8]) -> Reply<Global>
        ensures reply { result
            ≡ (if is_some (value_at key.now self.old) then Deleted else Missing) }
        ensures map { self.new ≡ without self.old key.now }
    {
        match self.pairs.remove(&KeyRef::new(key)) {
            Some(_) => Reply::Deleted,
            None => Reply::Missing,
        }
    }

    // Returns the first rows of a range, at most `limit`.
    fn rows(
        &self,
        alloc: Global,
        lo: &'a [u8],
        hi: &Option<Key<Global>>,
        limit: u32,
    ) -> Result<RowList<Global>, AllocError>
        ensures { IfOk result (λ list. list ≡ rows lo.now hi.now limit self.now) }
    {
        let mut rows = RowList::empty(alloc);
        let low = KeyRef::new(lo);
        // Only for the proof: the contract of `len` states that the keys are sorted.
        let _rising = self.pairs.len();
        for (key, value) in self.pairs.range(&low..) {
            if rows.len() >= limit as usize || !is_before_end(hi, key.as_bytes()) {
                break;
            }
            rows.push(key.as_bytes(), value.bytes)?;
        }
        Ok(rows)
    }

    // Deletes the keys of a range, and appends these deletes to `points`.
    fn wipe(
        &mut self,
        alloc: Global,
        lo: &'a [u8],
        hi: &Option<Key<Global>>,
        points: &mut Vec<Command<Global>>,
    ) -> Result<Reply<Global>, AllocError>
        ensures reply { IfOk result (λ reply. reply
            ≡ Wiped (length (in_range lo.now hi.now self.old))) }
        ensures map { OnOk result (self.new ≡ out_of_range lo.now hi.now self.old) }
        ensures points { OnOk result (points.new.items
            ≡ points.old.items ++ dels_of (keys_of (in_range lo.now hi.now self.old))) }
    {
        let keys = self.keys_within(alloc, lo, hi)?;
        let count = keys.len() as u128;
        self.remove_all(alloc, keys, points)?;
        Ok(Reply::Wiped(count))
    }

    // Deletes these keys, and appends these deletes to `points`.
    fn remove_all(
        &mut self,
        alloc: Global,
        keys: Vec<KeyRef<'a>>,
        points: &mut Vec<Command<Global>>,
    ) -> Result<(), AllocError>
        ensures map { OnOk result (self.new ≡ map_after_all self.old (dels_of {A = Global} keys.entry.items)) }
        ensures points { OnOk result (points.new.items ≡ points.old.items ++ dels_of keys.entry.items) }
    {
        for key in keys {
            let _reply = self.del(key.as_bytes());
            push_del(alloc, key.as_bytes(), points)?;
        }
        Ok(())
    }

    fn keys_within(
        &self,
        alloc: Global,
        lo: &'a [u8],
        hi: &Option<Key<Global>>,
    ) -> Result<Vec<KeyRef<'a>>, AllocError>
        ensures keys { IfOk result
            (λ keys. keys.items ≡ keys_of (in_range lo.now hi.now self.now)) }
        ensures rising { IsRising self.now }
    {
        let mut keys = Vec::new(alloc);
        let low = KeyRef::new(lo);
        // Only for the proof: the contract of `len` states that the keys are sorted.
        let _rising = self.pairs.len();
        for (key, _value) in self.pairs.range(&low..) {
            if !is_before_end(hi, key.as_bytes()) {
                break;
            }
            keys.push(key.again())?;
        }
        Ok(keys)
    }
}

/// Executes `commands` on `map`, in their order. Returns their replies, and commands on one key each (see
/// `LentMap::execute`) that make the same changes. Fails with `AllocError` if memory runs out.
pub fn execute_in_turn<'a>(
    alloc: Global,
    map: LentMap<'a>,
    commands: &'a [Command<Global>],
) -> Result<(Vec<Reply<Global>>, Vec<Command<Global>>), AllocError>
    ensures replies { IfOk result (λ r. r.0.items ≡ replies_to map.entry commands.now) }
    ensures points { IfOk result (λ r. r.1.items ≡ points_of map.entry commands.now) }
{
    let mut map = map;
    let mut replies = Vec::with_capacity(alloc, commands.len())?;
    let mut points = Vec::with_capacity(alloc, commands.len())?;
    for command in commands {
        execute_next(alloc, &mut map, command, &mut replies, &mut points)?;
    }
    Ok((replies, points))
}

// Executes `command`, and appends its reply and its changes.
fn execute_next<'a>(
    alloc: Global,
    map: &mut LentMap<'a>,
    command: &'a Command<Global>,
    replies: &mut Vec<Reply<Global>>,
    points: &mut Vec<Command<Global>>,
) -> Result<(), AllocError>
    ensures replies { OnOk result
        (replies.new.items ≡ replies.old.items ++ reply_to map.old command.now ∷ []) }
    ensures map { OnOk result (map.new ≡ map_after map.old command.now) }
    ensures points { OnOk result
        (points.new.items ≡ points.old.items ++ points_by map.old command.now) }
{
    let reply = map.execute(alloc, command, points)?;
    replies.push(reply)?;
    Ok(())
}

fn push_put(
    alloc: Global,
    key: &[u8],
    value: &[u8],
    points: &mut Vec<Command<Global>>,
) -> Result<(), AllocError>
    ensures { OnOk result (points.new.items ≡ points.old.items ++ Put key.now value.now ∷ []) }
{
    points.push(Command::put(alloc, key, value)?)?;
    Ok(())
}

fn push_add(
    alloc: Global,
    key: &[u8],
    value: &[u8],
    points: &mut Vec<Command<Global>>,
) -> Result<(), AllocError>
    ensures { OnOk result (points.new.items ≡ points.old.items ++ Add key.now value.now ∷ []) }
{
    points.push(Command::add(alloc, key, value)?)?;
    Ok(())
}

fn push_del(alloc: Global, key: &[u8], points: &mut Vec<Command<Global>>) -> Result<(), AllocError>
    ensures { OnOk result (points.new.items ≡ points.old.items ++ Del key.now ∷ []) }
{
    points.push(Command::del(alloc, key)?)?;
    Ok(())
}

// Returns whether `key` is below `end`, if there is an end.
fn is_before_end(end: &Option<Key<Global>>, key: &[u8]) -> bool
    ensures { result ≡ is_before end.now key.now }
{
    match end {
        Some(end) => is_before(Some(end.as_bytes()), key),
        None => true,
    }
}
