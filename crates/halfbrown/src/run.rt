//! Whole runs: a list of commands, done one after another, with a reply to each.
ghost use Rattle.std.specs.Prelude.{◌≡◌, ◌+◌, ◌*◌, ◌≤◌, true, false, [], length, vec_capacity, IsOk, IfOk, IfErr, OnErr};
ghost use Rattle.halfbrown.specs.CostRanges.{TallyGrewBy};
ghost use Rattle.halfbrown.specs.Run.{Runs, cost_of, has_shrink, Executes, ExecutesAtCost};

use crate::{KeyHasher, Limit, LimitedHashMap, Refused};
use half_store::{Refusal, Tally, uncounted};
use std::alloc::Global;
use std::hash::Hash;

/// One call on a map.
#[derive(Clone, Copy, Debug, PartialEq, Eq, Drop)]
pub enum Command<K, V> {
    /// `insert`.
    Insert(K, V),
    /// `contains_key`, and `insert_nocheck` if the key is not held.
    InsertNew(K, V),
    /// `entry`, and `or_insert` through it.
    EntryOrInsert(K, V),
    /// `raw_entry_mut`, `from_key`, and `or_insert_entry` through that.
    RawOrInsert(K, V),
    /// `get`.
    Get(K),
    /// `remove_entry`.
    Remove(K),
    /// `clear`.
    Clear,
    /// `reserve`.
    Reserve(usize),
    /// `shrink_to_fit`.
    Shrink,
    /// `is_vec`.
    IsVec,
    /// `len`.
    Len,
}

/// What a command replies.
#[derive(Clone, Copy, Debug, PartialEq, Eq, Drop)]
pub enum Reply<K, V> {
    /// The old value of an inserted key, or none where it was new.
    Was(Option<V>),
    /// The pair is new, and is held now.
    Added,
    /// An equal key was held, so the pair comes back.
    Present(K, V),
    /// The value that the key has now: the one that it had, or the one that was inserted.
    Value(V),
    /// The value of the key, or none if it is not held.
    Found(Option<V>),
    /// The pair that was removed, or none if the key was not held.
    Removed(Option<(K, V)>),
    /// It is done.
    Done,
    /// Whether the form is the vector: what `IsVec` asks, and what it is after `Shrink`.
    Form(bool),
    /// How many pairs are held.
    Length(usize),
    /// The command was refused, and nothing has changed.
    Refused(Command<K, V>, Refusal),
}

/// Runs the commands in order, and returns a reply to each.
///
/// Memory for all replies is allocated first. If that fails, the error has the commands, and nothing was done. The
/// reply to a command that fails says so, and the run goes on. It costs what its commands cost.
///
/// ```
/// let mut ages = HashMap::<u64, u32>::new(alloc);
/// let commands = vec![in alloc; Command::Insert(1, 36), Command::Get(1), Command::Len]?;
/// let replies = run(alloc, &mut ages, commands);
/// assert_eq!(rt; replies, Ok(vec![in alloc; Reply::Was(None), Reply::Found(Some(36)), Reply::Length(1)]?));
/// ```
pub fn run<K: Eq + Hash + Drop, V: Copy, S: KeyHasher<K>, L: Limit>(
    alloc: Global,
    map: &mut LimitedHashMap<K, V, S, L>,
    commands: Vec<Command<K, V>>,
) -> Result<Vec<Reply<K, V>>, Vec<Command<K, V>>>
    ensures run { IfOk result (λ replies.
        Runs L.LIMIT K.eq map.old commands.items replies.items map.new) }
    ensures stays_a_table { has_shrink commands.items ≡ false → map.old.is_vec ≡ false
        → map.new.is_vec ≡ false }
    ensures empty { commands.items ≡ [] → IsOk result }
    ensures memory { IfOk result (λ replies. vec_capacity replies ≡ length commands.items) }
    ensures returned { IfErr result (λ back. back.items ≡ commands.items) }
    ensures err { OnErr result (map.new ≡ map.old) }
{
    uncounted!(run_counted(alloc, map, commands))
}

/// `run`, with the work of all commands counted.
pub fn run_counted<K: Eq + Hash + Drop, V: Copy, S: KeyHasher<K>, L: Limit>(
    alloc: Global,
    map: &mut LimitedHashMap<K, V, S, L>,
    commands: Vec<Command<K, V>>,
    tally: &mut Tally,
) -> Result<Vec<Reply<K, V>>, Vec<Command<K, V>>>
    // There are steps that lead from the old map to the new one, with these commands and replies, and the tally grew by what they cost.
    ensures run { IfOk result (λ replies.
        (run : Runs L.LIMIT K.eq map.old commands.items replies.items map.new)
        × TallyGrewBy (cost_of L.LIMIT K.eq S.hash run.steps) tally.old tally.new) }
    ensures empty { commands.items ≡ [] → IsOk result }
    ensures memory { IfOk result (λ replies. vec_capacity replies ≡ length commands.items) }

    // Without `Shrink`: once a table, always a table; a run that ends with a vector has hashed nothing; and a run hashes at most
    // two keys for each command, and for its one switch at most as many as the limit.
    ensures stays_a_table { has_shrink commands.items ≡ false → map.old.is_vec ≡ false
        → map.new.is_vec ≡ false }
    ensures nothing_hashed { has_shrink commands.items ≡ false → map.new.is_vec ≡ true
        → tally.new.asked ≡ tally.old.asked }
    ensures hashes { has_shrink commands.items ≡ false
        → tally.new.asked ≤ tally.old.asked + (2 * length commands.items + L.LIMIT) }

    // If memory for the replies is refused, nothing was done.
    ensures returned { IfErr result (λ back. back.items ≡ commands.items) }
    ensures err { OnErr result (map.new ≡ map.old) }
    ensures no_work { OnErr result (tally.new ≡ tally.old) }
{
    let Ok(mut replies) = Vec::with_capacity(alloc, commands.len()) else {
        return Err(commands);
    };
    let mut left = commands.into_iter();
    while let Some(command) = left.next() {
        replies.push_reserved(step(map, command, tally));
        let _ = map.len(); // tells the prover `IsValid` of the map
    }
    left.destroy_empty();
    Ok(replies)
}

// One command.
fn step<K: Eq + Hash + Drop, V: Copy, S: KeyHasher<K>, L: Limit>(
    map: &mut LimitedHashMap<K, V, S, L>,
    command: Command<K, V>,
    tally: &mut Tally,
) -> Reply<K, V>
    ensures { ExecutesAtCost L.LIMIT K.eq S.hash map.old command result map.new tally.old tally.new }
{
    match command {
        Command::Insert(key, value) => insert(map, key, value, tally),
        Command::InsertNew(key, value) => insert_new(map, key, value, tally),
        Command::EntryOrInsert(key, value) => entry_or_insert(map, key, value, tally),
        Command::RawOrInsert(key, value) => raw_or_insert(map, key, value, tally),
        Command::Clear => {
            map.clear();
            Reply::Done
        }
        Command::Reserve(additional) => reserve(map, additional),
        Command::Shrink => {
            map.shrink_to_fit();
            Reply::Form(map.is_vec())
        }
        Command::Get(key) => Reply::Found(map.get_counted(&key, tally).copied()),
        Command::Remove(key) => Reply::Removed(map.remove_entry_counted(&key, tally)),
        Command::IsVec => Reply::Form(map.is_vec()),
        Command::Len => Reply::Length(map.len()),
    }
}

// Inserts a pair, or replaces the value of its key.
fn insert<K: Eq + Hash + Drop, V, S: KeyHasher<K>, L: Limit>(
    map: &mut LimitedHashMap<K, V, S, L>,
    key: K,
    value: V,
    tally: &mut Tally,
) -> Reply<K, V>
    ensures { ExecutesAtCost L.LIMIT K.eq S.hash map.old (Command.Insert key value) result map.new
        tally.old tally.new }
{
    match map.insert_counted(key, value, tally) {
        Ok(old) => Reply::Was(old),
        Err(Refused { key, value, why }) => Reply::Refused(Command::Insert(key, value), why),
    }
}

// Inserts a pair if the key is not held, by a search and an insertion without one.
fn insert_new<K: Eq + Hash + Drop, V: Copy, S: KeyHasher<K>, L: Limit>(
    map: &mut LimitedHashMap<K, V, S, L>,
    key: K,
    value: V,
    tally: &mut Tally,
) -> Reply<K, V>
    ensures { ExecutesAtCost L.LIMIT K.eq S.hash map.old (Command.InsertNew key value) result map.new
        tally.old tally.new }
{
    if map.contains_key_counted(&key, tally) {
        return Reply::Present(key, value);
    }
    match map.insert_nocheck_counted(key, value, tally) {
        Ok(()) => Reply::Added,
        Err(Refused { key, value, why }) => Reply::Refused(Command::InsertNew(key, value), why),
    }
}

// Inserts a pair if the key is not held, by one search.
fn entry_or_insert<K: Eq + Hash + Drop, V: Copy, S: KeyHasher<K>, L: Limit>(
    map: &mut LimitedHashMap<K, V, S, L>,
    key: K,
    value: V,
    tally: &mut Tally,
) -> Reply<K, V>
    ensures { ExecutesAtCost L.LIMIT K.eq S.hash map.old (Command.EntryOrInsert key value) result map.new
        tally.old tally.new }
{
    match map.entry_counted(key, tally) {
        Ok(entry) => Reply::Value(*entry.or_insert(value)),
        Err(refused) => Reply::Refused(Command::EntryOrInsert(refused.key, value), refused.why),
    }
}

// Inserts a pair if the key is not held, through a raw entry.
fn raw_or_insert<K: Eq + Hash + Drop, V: Copy, S: KeyHasher<K>, L: Limit>(
    map: &mut LimitedHashMap<K, V, S, L>,
    key: K,
    value: V,
    tally: &mut Tally,
) -> Reply<K, V>
    ensures { ExecutesAtCost L.LIMIT K.eq S.hash map.old (Command.RawOrInsert key value) result map.new
        tally.old tally.new }
{
    match map.raw_entry_mut_counted(tally) {
        Ok(entries) => {
            let found = entries.from_key_counted(&key, tally);
            let entry = found.or_insert_entry_counted(key, value, tally);
            Reply::Value(*entry.get())
        }
        Err(why) => Reply::Refused(Command::RawOrInsert(key, value), why),
    }
}

// Makes the capacity enough for more pairs.
fn reserve<K: Eq + Hash, V, S: KeyHasher<K>, L: Limit>(
    map: &mut LimitedHashMap<K, V, S, L>,
    additional: usize,
) -> Reply<K, V>
    ensures { Executes L.LIMIT K.eq map.old (Command.Reserve additional) result map.new }
{
    match map.reserve(additional) {
        Ok(()) => Reply::Done,
        Err(why) => Reply::Refused(Command::Reserve(additional), why),
    }
}
