//! The first example, and callers of calls that have a condition, each of which finds it met before it calls. An edit in
//! `tests/edits` takes that away in each, and the prover refuses it. The crate is small, so that this is quick.
#![tactic(auto)]

pub mod first_example;

use halfbrown::{DefaultHashBuilder, Equivalent, HashMap, RawEntryMut, Refusal, SizedHashMap};
use std::hash::{BuildHasher, Hash};

/// A map from numbers to numbers, with any builder.
pub type Numbers<S> = HashMap<u64, u64, S>;

/// The value of a key by `[]`, where the key is held.
pub fn by_index<K: Eq + Hash + Drop, V: Copy + Drop, Q: Equivalent<K>, const N: usize>(
    map: &SizedHashMap<K, V, DefaultHashBuilder, N>,
    query: Q,
) -> Option<V> {
    if map.contains_key(query) {
        return Some(map[query]);
    }
    None
}

/// Adds a key where it is not held.
pub fn add_if_new<S: BuildHasher>(map: &mut Numbers<S>, key: u64) -> Result<(), Refusal> {
    if !map.contains_key(&key) {
        map.insert_nocheck(key, 0)?;
    }
    Ok(())
}

/// Stores this key in place of an equal one, or adds it, by a raw entry.
pub fn store_key<S: BuildHasher>(map: &mut Numbers<S>, key: u64) -> Result<(), Refusal> {
    match map.raw_entry_mut()?.from_key(&key) {
        RawEntryMut::Occupied(mut entry) => {
            entry.insert_key(key);
        }
        RawEntryMut::Vacant(entry) => {
            entry.insert(key, 0);
        }
    }
    Ok(())
}

/// Adds a key that is not held, by its hash.
pub fn add_hashed<S: BuildHasher>(map: &mut Numbers<S>, key: u64) -> Result<(), Refusal> {
    let hash = map.hasher().hash_one(&key);
    if let RawEntryMut::Vacant(entry) = map.raw_entry_mut()?.from_key(&key) {
        entry.insert_hashed_nocheck(hash, key, 0);
    }
    Ok(())
}
