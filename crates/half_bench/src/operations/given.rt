//! What operations are given. It is made before the clock is read.
use crate::keys::{Key, list, scrambled};
use crate::maps::{Map, filled};
use crate::rounds::LEAST_KEYS;
use halfbrown::DefaultHashBuilder;
use std::alloc::Global;
use std::hash::BuildHasher;
use std::io;
use std::marker::PhantomData;

/// Maps with keys of type K, each with a list.
#[derive(Drop)]
pub(crate) struct Given<K, M, T> {
    pub maps: Vec<(M, Vec<T>)>,
    /// How many operations the work does.
    pub operations: u64,
    keys: PhantomData<K>,
}

pub(crate) type Made<K, M, T> = io::Result<Given<K, M, T>>;

impl<K: Key, M: Map<K>, T: Drop> Given<K, M, T> {
    // So many maps, each of this many pairs, with lists of what is made of the numbers below the length. There is an operation
    // for each item of a list, or for each pair of a map if these are more.
    fn new<F: Fn(u64) -> io::Result<T>>(
        alloc: Global,
        maps: u64,
        held: u64,
        length: u64,
        make: F,
    ) -> io::Result<Self>
        requires { F.IsAlwaysCallable make }
    {
        let mut made = Vec::new(alloc);
        for _ in 0..maps {
            let list = list(alloc, 0..length, &make)?;
            made.push((filled(alloc, held)?, list))?;
        }
        Ok(Given {
            maps: made,
            operations: maps.saturating_mul(length.max(held)),
            keys: PhantomData,
        })
    }

    /// Does work with each map and its list, and adds the answers to that of the last pass, so that none can be left out.
    #[inline(never)]
    pub fn pass<W>(&mut self, last: u64, work: &W) -> io::Result<u64>
    where
        W: Fn(&mut (M, Vec<T>)) -> io::Result<u64>,
        requires work { W.IsAlwaysCallable work.now }
    {
        let mut sum = last;
        for map_and_list in self.maps.as_mut_slice() {
            sum = sum.wrapping_add(work(map_and_list)?);
        }
        Ok(sum)
    }
}

// How many maps of this size a run has.
fn many(size: u64) -> u64 {
    LEAST_KEYS.checked_div(size).unwrap_or(1).max(1)
}

// The key of a number below the size, which looks random.
fn at_random<K: Key>(alloc: Global, size: u64, turn: u64) -> io::Result<K> {
    K::of_number(alloc, scrambled(turn).checked_rem(size).unwrap_or(0))
}

/// A map, and keys that it holds, in an order that looks random. A key may come more than once.
pub(crate) fn held<K: Key, M: Map<K>>(alloc: Global, size: u64) -> Made<K, M, K> {
    Given::new(alloc, 1, size, size.max(LEAST_KEYS), |turn| {
        at_random(alloc, size, turn)
    })
}

/// The same, each key with its hash.
pub(crate) fn hashed<K: Key, M: Map<K>>(alloc: Global, size: u64) -> Made<K, M, (K, u64)> {
    Given::new(alloc, 1, size, size.max(LEAST_KEYS), |turn| {
        let key = at_random(alloc, size, turn)?;
        let hash = DefaultHashBuilder::new().hash_one(&key);
        Ok((key, hash))
    })
}

/// A map, and keys that it does not hold.
pub(crate) fn absent<K: Key, M: Map<K>>(alloc: Global, size: u64) -> Made<K, M, K> {
    Given::new(alloc, 1, size, size.max(LEAST_KEYS), |turn| {
        K::of_number(alloc, turn.saturating_add(size))
    })
}

/// A map, and its keys from the oldest on, each with a new one.
pub(crate) fn oldest<K: Key, M: Map<K>>(alloc: Global, size: u64) -> Made<K, M, (K, K)> {
    Given::new(alloc, 1, size, size.max(LEAST_KEYS), |turn| {
        let new = K::of_number(alloc, turn.saturating_add(size))?;
        Ok((K::of_number(alloc, turn)?, new))
    })
}

/// An empty map, and words, of which each comes about four times or more.
pub(crate) fn words<K: Key, M: Map<K>>(alloc: Global, size: u64) -> Made<K, M, K> {
    let count = size.saturating_mul(4).max(LEAST_KEYS);
    Given::new(alloc, 1, 0, count, |turn| at_random(alloc, size, turn))
}

/// Empty maps, and for each a list that has the keys so many times.
pub(crate) fn lists<K: Key, M: Map<K>>(alloc: Global, size: u64, times: u64) -> Made<K, M, K> {
    Given::new(alloc, many(size), 0, size.saturating_mul(times), |turn| {
        K::of_number(alloc, turn.checked_rem(size).unwrap_or(0))
    })
}

/// Maps, and for each a list of so many keys, of which those that it holds come first.
pub(crate) fn maps<K: Key, M: Map<K>>(alloc: Global, size: u64, length: u64) -> Made<K, M, K> {
    Given::new(alloc, many(size), size, length, |turn| {
        K::of_number(alloc, turn)
    })
}

/// Maps, and for each a place for a copy.
pub(crate) fn places<K: Key, M: Map<K>>(alloc: Global, size: u64) -> Made<K, M, Option<M>> {
    Given::new(alloc, many(size), size, 1, |_| Ok(None))
}
