//! The operations: what each is given, and its work, which is timed or counted.
pub(crate) mod given;

use crate::keys::Key;
use crate::maps::{Map, OfIndex, OfStd, Ours, sum};
use crate::rounds::Timer;
use crate::{calls, unknown, uses, whole};
use given::{Made, absent, hashed, held, lists, maps, oldest, places, words};
use std::time::CpuClock;
use std::{io, mem};

// Adds up the answers of work with a map and each item of its list.
macro_rules! each {
    ($given:ident, $map:ident, $item:ident => $answer:expr) => {{
        let ($map, list) = $given;
        let mut sum = 0u64;
        for $item in list.as_mut_slice() {
            sum = sum.wrapping_add($answer);
        }
        Ok(sum)
    }};
}

// Does an operation once on maps of a type. Only taking out and draining are not called the same in all.
macro_rules! operation {
    ($timer:ident, $name:ident, $map:ty, $take:ident, $range:tt) => {{
        let (alloc, size) = ($timer.alloc, $timer.size);
        let get = |given: &mut ($map, Vec<K>)| each!(given, map, key => map.get(&*key).copied().unwrap_or(1));
        match $name {
            "hit" | "raw_hit" => $timer.time(true, held(alloc, size), get),
            "miss" => $timer.time(true, absent(alloc, size), get),
            "remove" => $timer.time(false, maps(alloc, size, size), |given: &mut ($map, Vec<K>)| {
                each!(given, map, key => map.$take(&*key).ok_or(io::ErrorKind::NotFound)?.1)
            }),
            // The list keeps the old key.
            "churn" => $timer.time(false, oldest(alloc, size), |given: &mut ($map, Vec<(K, K)>)| {
                each!(given, map, keys => {
                    let (key, value) = map.$take(&keys.0).ok_or(io::ErrorKind::NotFound)?;
                    map.put(mem::replace(&mut keys.1, key), value)?;
                    value
                })
            }),
            "build" => $timer.time(false, lists(alloc, size, 1), |given: &mut ($map, Vec<K>)| {
                let mut map = <$map>::empty(alloc);
                for key in mem::replace(&mut given.1, Vec::new(alloc)) {
                    map.put(key, 0)?;
                }
                Ok(map.len() as u64)
            }),
            "entry_few" => $timer.time(false, words(alloc, size), |given: &mut ($map, Vec<K>)| {
                let (map, keys) = given;
                for key in mem::replace(keys, Vec::new(alloc)) {
                    add_one(map.entry(key)?.or_insert(0));
                }
                Ok(0)
            }),
            "entry_many" => $timer.time(false, lists(alloc, size, 2), |given: &mut ($map, Vec<K>)| {
                let mut map = <$map>::empty(alloc);
                for key in mem::replace(&mut given.1, Vec::new(alloc)) {
                    add_one(map.entry(key)?.or_insert(0));
                }
                Ok(map.len() as u64)
            }),
            "clone" => $timer.time(false, places(alloc, size), |given: &mut ($map, Vec<Option<$map>>)| {
                each!(given, map, place => {
                    let copy = map.clone()?;
                    let length = copy.len() as u64;
                    *place = Some(copy);
                    length
                })
            }),
            "iter" => $timer.time(true, maps(alloc, size, 0), |given: &mut ($map, Vec<K>)| Ok(given.0.sum())),
            "retain" => $timer.time(false, maps(alloc, size, 0), |given: &mut ($map, Vec<K>)| {
                given.0.retain(|_, value| *value % 2 == 0);
                Ok(given.0.len() as u64)
            }),
            "drain" => $timer.time(false, maps(alloc, size, 0), |given: &mut ($map, Vec<K>)| {
                Ok(sum!(given.0.drain $range, value => value))
            }),
            _ => Err(unknown()),
        }
    }};
}

fn add_one(value: &mut u64) {
    *value = value.wrapping_add(1);
}

/// Does an operation once on maps of this name. Ours has calls by a known hash, and the others do not.
pub(crate) fn measure<K: Key>(
    timer: &mut Timer<'_, impl CpuClock>,
    map: &str,
    name: &str,
) -> io::Result<()> {
    match (map, name) {
        ("halfbrown", "raw_hit") => timer.time(
            true,
            hashed(timer.alloc, timer.size),
            |given: &mut (Ours<K>, Vec<(K, u64)>)| {
                each!(given, map, hashed => {
                    let is_match = |held: &K| *held == hashed.0;
                    let pair = map.raw_entry().from_hash(hashed.1, is_match);
                    pair.map_or(1, |pair| *pair.1)
                })
            },
        ),
        ("halfbrown", _) => operation!(timer, name, Ours<K>, remove_entry, ()),
        ("std", _) => operation!(timer, name, OfStd<K>, remove_entry, ()),
        _ => operation!(timer, name, OfIndex<K>, swap_remove_entry, (..)),
    }
}

/// Does an operation, or a call with each key or on each map. Searches are for held keys and as many others, and a key is added
/// twice.
pub(crate) fn count_ours<K: Key>(
    timer: &mut Timer<'_, impl CpuClock>,
    group: &str,
    call: &str,
) -> io::Result<()> {
    let (alloc, size) = (timer.alloc, timer.size);
    let given: Made<K, Ours<K>, K> = match group {
        "timed" => return measure::<K>(timer, "halfbrown", call),
        "search" | "take" | "hashed" => maps(alloc, size, size.saturating_mul(2)),
        "whole" | "use" => maps(alloc, size, 0),
        _ => lists(alloc, size, 2),
    };
    timer.time(false, given, |given: &mut (Ours<K>, Vec<K>)| {
        let (map, keys) = given;
        let keys = mem::replace(keys, Vec::new(alloc));
        match group {
            "search" | "take" | "hashed" => calls::search(call, map, keys),
            "insert" | "entry" | "occupied" => calls::insert(call, map, keys),
            "raw" => calls::by_raw_entry(call, map, keys),
            "whole" => whole::work(call, map, alloc),
            "use" => uses::work::<K>(call, map.len() as u64, alloc),
            _ => Err(unknown()),
        }
    })
}
