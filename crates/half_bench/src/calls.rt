//! Calls of our map by name, done with each key. Each says whether something was found, and these are counted.
use crate::keys::Key;
use crate::unknown;
use half_store::Tally;
use halfbrown::{Entry, HashMap, RawEntryMut};
use std::hash::BuildHasher;
use std::io;

type Numbers<K, S> = HashMap<K, u64, S>;

// Does the call of this name with each key.
macro_rules! calls {
    ($call:ident, $keys:ident, $key:ident => $($name:literal: $found:expr,)*) => {
        match $call {
            $($name => {
                let mut found = 0u64;
                for $key in $keys {
                    found = found.wrapping_add(u64::from($found));
                }
                Ok(found)
            })*
            _ => Err(unknown()),
        }
    };
}

// Finds something by the hash of a key.
macro_rules! hashed {
    ($map:ident, $key:ident, $hash:ident => $found:expr) => {{
        let $hash = $map.hasher().hash_one(&$key);
        $found
    }};
}

// The same, if the raw entry that is found by both is vacant.
macro_rules! vacant {
    ($map:ident, $key:ident, $hash:ident, $entry:ident => $found:expr) => {
        hashed!($map, $key, $hash => match $map.raw_entry_mut()?.from_key_hashed_nocheck($hash, &$key) {
            RawEntryMut::Occupied(_entry) => true,
            RawEntryMut::Vacant($entry) => $found,
        })
    };
}

/// Searches for keys, reads `map[key]` where they are held, or takes out their pairs, in part by their hashes.
pub(crate) fn search<K: Key, S: BuildHasher>(
    call: &str,
    map: &mut Numbers<K, S>,
    keys: Vec<K>,
) -> io::Result<u64> {
    let tally = &mut Tally::new();
    calls!(call, keys, key =>
        "get": map.get(&key).is_some(),
        "get_counted": map.get_counted(&key, tally).is_some(),
        "get_key_value": map.get_key_value(&key).is_some(),
        "get_key_value_counted": map.get_key_value_counted(&key, tally).is_some(),
        "contains_key": map.contains_key(&key),
        "contains_key_counted": map.contains_key_counted(&key, tally),
        "get_index_of": map.get_index_of(&key).is_some(),
        "get_index_of_counted": map.get_index_of_counted(&key, tally).is_some(),
        "from_key": map.raw_entry().from_key(&key).is_some(),
        "from_key_counted": map.raw_entry().from_key_counted(&key, tally).is_some(),
        "index": map.contains_key(&key) && map[&key] == 0,
        "index_counted": map.contains_key(&key) && *map.index_counted(&key, tally) == 0,
        "get_mut": map.get_mut(&key).is_some(),
        "get_mut_counted": map.get_mut_counted(&key, tally).is_some(),
        "remove": map.remove(&key).is_some(),
        "remove_counted": map.remove_counted(&key, tally).is_some(),
        "remove_entry": map.remove_entry(&key).is_some(),
        "remove_entry_counted": map.remove_entry_counted(&key, tally).is_some(),
        "from_key_hashed_nocheck": hashed!(map, key, hash =>
            map.raw_entry().from_key_hashed_nocheck(hash, &key).is_some()),
        "from_key_hashed_nocheck_counted": hashed!(map, key, hash =>
            map.raw_entry().from_key_hashed_nocheck_counted(hash, &key, tally).is_some()),
        "from_hash_counted": hashed!(map, key, hash =>
            map.raw_entry().from_hash_counted(hash, |held| *held == key, tally).is_some()),
        "remove_entry_hashed_nocheck": hashed!(map, key, hash =>
            map.remove_entry_hashed_nocheck(hash, &key).is_some()),
        "remove_entry_hashed_nocheck_counted": hashed!(map, key, hash =>
            map.remove_entry_hashed_nocheck_counted(hash, &key, tally).is_some()),
    )
}

/// Inserts keys, or adds them by their entries, and writes the values of those that are held, or takes their pairs out.
pub(crate) fn insert<K: Key, S: BuildHasher>(
    call: &str,
    map: &mut Numbers<K, S>,
    keys: Vec<K>,
) -> io::Result<u64> {
    let tally = &mut Tally::new();
    calls!(call, keys, key =>
        "insert": map.insert(key, 1)?.is_some(),
        "insert_counted": map.insert_counted(key, 1, tally)?.is_some(),
        "insert_full": map.insert_full(key, 1)?.1.is_some(),
        "insert_full_counted": map.insert_full_counted(key, 1, tally)?.1.is_some(),
        "insert_nocheck": map.contains_key(&key) || {
            map.insert_nocheck(key, 1)?;
            false
        },
        "insert_nocheck_counted": map.contains_key(&key) || {
            map.insert_nocheck_counted(key, 1, tally)?;
            false
        },
        "or_insert": *map.entry(key)?.or_insert(1) == 1,
        "entry_counted": *map.entry_counted(key, tally)?.or_insert(1) == 1,
        "or_insert_with": *map.entry(key)?.or_insert_with(|| 1) == 1,
        "or_default": *map.entry(key)?.or_default() == 1,
        "and_modify": *map.entry(key)?.and_modify(|value| *value = 2).or_insert(1) == 1,
        "OccupiedEntry::remove": match map.entry(key)? {
            Entry::Occupied(entry) => entry.remove() == 1,
            Entry::Vacant(entry) => *entry.insert(1) == 1,
        },
        "OccupiedEntry::insert": match map.entry(key)? {
            Entry::Occupied(mut entry) => entry.insert(2) == 1,
            Entry::Vacant(entry) => *entry.insert(1) == 1,
        },
        "replace_entry_with": match map.entry(key)? {
            Entry::Occupied(entry) => entry.replace_entry_with(|_, value| value.checked_sub(1)).index() == 0,
            Entry::Vacant(entry) => *entry.insert(1) == 1,
        },
        "replace_entry_with_counted": match map.entry(key)? {
            Entry::Occupied(entry) => entry.replace_entry_with_counted(|_, value| value.checked_sub(1), tally).index() == 0,
            Entry::Vacant(entry) => *entry.insert(1) == 1,
        },
    )
}

/// Finds or adds keys by their raw entries.
pub(crate) fn by_raw_entry<K: Key, S: BuildHasher>(
    call: &str,
    map: &mut Numbers<K, S>,
    keys: Vec<K>,
) -> io::Result<u64> {
    let tally = &mut Tally::new();
    calls!(call, keys, key =>
        "RawEntryMut::insert": *map.raw_entry_mut()?.from_key(&key).insert(key, 1).get() == 1,
        "RawEntryMut::insert_counted":
            *map.raw_entry_mut_counted(tally)?.from_key_counted(&key, tally).insert_counted(key, 1, tally).get() == 1,
        "RawEntryMut::or_insert": *map.raw_entry_mut()?.from_key(&key).or_insert(key, 1).1 == 1,
        "RawEntryMut::or_insert_counted":
            *map.raw_entry_mut_counted(tally)?.from_key_counted(&key, tally).or_insert_counted(key, 1, tally).1 == 1,
        "RawEntryMut::or_insert_with":
            *map.raw_entry_mut()?.from_key(&key).or_insert_with(|| (key, 1)).1 == 1,
        "RawVacantEntryMut::insert":
            vacant!(map, key, hash, entry => *entry.insert(key, 1).1 == 1),
        "insert_hashed_nocheck":
            vacant!(map, key, hash, entry => *entry.insert_hashed_nocheck(hash, key, 1).1 == 1),
        "insert_with_hasher":
            vacant!(map, key, hash, entry => *entry.insert_with_hasher(hash, key, 1, |_| hash).1 == 1),
    )
}
