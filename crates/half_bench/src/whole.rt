//! Calls on whole maps by name. Each answers with some number.
use crate::keys::Key;
use crate::maps::Ours;
use crate::unknown;
use half_store::Tally;
use halfbrown::HashMap;
use halfbrown::run::{Command, run};
use std::alloc::Global;
use std::{io, mem};

/// Goes over a map, compares it, changes its memory, or takes pairs out.
pub(crate) fn work<K: Key>(call: &str, map: &mut Ours<K>, alloc: Global) -> io::Result<u64> {
    match call {
        "keys" => return Ok(map.keys().count() as u64),
        "iter_mut" => return Ok(map.iter_mut().count() as u64),
        "values_mut" => return Ok(map.values_mut().count() as u64),
        "equal" => return Ok(u64::from(*map == map.clone()?)),
        "same_pairs_counted" => {
            return Ok(u64::from(map.same_pairs_counted(&map.clone()?, &mut Tally::new())));
        }
        "clear" => map.clear(),
        "reserve" => map.reserve(map.len())?,
        "shrink_to_fit" => map.shrink_to_fit(),
        "pop" => return Ok(popped(map)),
        "shift_remove" => return Ok(map.shift_remove(&K::of_number(alloc, 0)?).unwrap_or(1)),
        _ => return add_pairs(call, map, alloc),
    }
    Ok(map.len() as u64)
}

// Takes out all pairs, the last first, and returns how many.
fn popped<K: Key>(map: &mut Ours<K>) -> u64 {
    let mut popped = 0u64;
    for _ in 0..map.len() {
        popped = popped.wrapping_add(u64::from(map.pop().is_some()));
    }
    popped
}

// Adds the pairs of a map to a new one.
fn add_pairs<K: Key>(call: &str, map: &mut Ours<K>, alloc: Global) -> io::Result<u64> {
    let pairs = mem::replace(map, HashMap::new(alloc));
    let tally = &mut Tally::new();
    match call {
        "from_iter" => *map = HashMap::from_iter(alloc, pairs)?,
        "from_iter_counted" => *map = HashMap::from_iter_counted(alloc, pairs, tally)?,
        "extend" => map.extend(pairs)?,
        "extend_counted" => map.extend_counted(pairs, tally)?,
        "run" => return run_insertions(map, pairs, alloc),
        _ => return Err(unknown()),
    }
    Ok(map.len() as u64)
}

// Inserts pairs by a run, and returns how many replies there are.
fn run_insertions<K: Key>(map: &mut Ours<K>, pairs: Ours<K>, alloc: Global) -> io::Result<u64> {
    let mut commands = Vec::new(alloc);
    for (key, value) in pairs {
        commands.push(Command::Insert(key, value))?;
    }
    match run(alloc, map, commands) {
        Ok(replies) => Ok(replies.len() as u64),
        Err(_) => Err(io::Error::other("the replies got no memory")),
    }
}
