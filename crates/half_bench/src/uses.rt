//! What the crates above the map do with so many keys, pairs, labels or members.
use crate::keys::{Key, keys, list};
use crate::unknown;
use half_serde::Map;
use half_set::HashSet;
use half_uses::cache::Cache;
use half_uses::labels::Labels;
use half_uses::object::Object;
use halfbrown::{DefaultHashBuilder, HashMap, Tally};
use json_value::Value;
use std::alloc::Global;
use std::hash::BuildHasher;
use std::io;

/// Does what this crate is for. The answer is some number.
pub(crate) fn work<K: Key>(name: &str, size: u64, alloc: Global) -> io::Result<u64> {
    match name {
        "set" => set::<K>(alloc, size),
        "object" => object::<K>(alloc, size),
        "cache" => cache::<K>(alloc, size),
        "labels" => labels(alloc, size),
        "json" => json(alloc, size),
        "serde" => serde(alloc, size),
        _ => Err(unknown()),
    }
}

// The keys of the numbers below the size, each with its number.
fn pairs<K: Key>(alloc: Global, size: u64) -> io::Result<Vec<(K, u64)>> {
    let pair = |number| Ok((K::of_number(alloc, number)?, number));
    list(alloc, 0..size, &pair)
}

// Two sets, of which half of the values are the same, and these.
fn set<K: Key>(alloc: Global, size: u64) -> io::Result<u64> {
    let ours = HashSet::from_iter(alloc, keys::<K>(alloc, 0..size)?)?;
    let end = size.saturating_mul(3) / 2;
    let theirs = HashSet::from_iter(alloc, keys::<K>(alloc, size / 2..end)?)?;
    Ok(ours.intersection(&theirs).count() as u64)
}

// An object whose members are set, and each compared.
fn object<K: Key>(alloc: Global, size: u64) -> io::Result<u64> {
    let mut object = Object::new(alloc);
    for (name, value) in pairs::<K>(alloc, size)? {
        object.set(name, value)?;
    }
    Ok(u64::from(object.has_same_members(&object)))
}

// A cache that is asked for each key in vain, and then computes its value.
fn cache<K: Key>(alloc: Global, size: u64) -> io::Result<u64> {
    let mut cache = Cache::<K, u64, DefaultHashBuilder>::new(alloc, DefaultHashBuilder::new());
    let mut sum = 0u64;
    for key in keys::<K>(alloc, 0..size)? {
        let hashed = cache.hashed(key);
        let tally = &mut Tally::new();
        let held = cache.get(&hashed, tally).is_some();
        let value = cache.get_or_insert_with(hashed, || 1, tally)?;
        sum = sum.wrapping_add(value).wrapping_add(u64::from(held));
    }
    Ok(sum)
}

// Labels that are set, compared and hashed.
fn labels(alloc: Global, size: u64) -> io::Result<u64> {
    let mut labels = Labels::new(alloc);
    for name in keys::<String>(alloc, 0..size)? {
        labels.set(name, String::from_str(alloc, "text")?)?;
    }
    let hash = DefaultHashBuilder::new().hash_one(&labels);
    Ok(hash.wrapping_add(u64::from(labels == labels)))
}

// An object that is written, read, and compared with what was read.
fn json(alloc: Global, size: u64) -> io::Result<u64> {
    let mut members = HashMap::new(alloc);
    for name in keys::<String>(alloc, 0..size)? {
        members.insert(name, Value::Bool(true))?;
    }
    let value = Value::Object(members);
    let text = value.to_string(alloc).ok().ok_or(unknown())?;
    let read = Value::parse(alloc, &text).ok().ok_or(unknown())?;
    Ok(u64::from(read == value))
}

// A map that is written, read, and compared with what was read.
fn serde(alloc: Global, size: u64) -> io::Result<u64> {
    let map = Map::from(HashMap::from_iter(alloc, pairs::<String>(alloc, size)?)?);
    let text = serde_json::to_string(alloc, &map).ok().ok_or(unknown())?;
    let read: Map<String, u64> = serde_json::from_str(alloc, &text).ok().ok_or(unknown())?;
    Ok(u64::from(read == map))
}
