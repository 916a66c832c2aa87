//! The maps that are compared. All hash by the same builder, which is the default of each.
use crate::keys::{Key, list};
use crate::unknown;
use halfbrown::DefaultHashBuilder;
use indexmap::IndexMap;
use std::alloc::Global;
use std::collections::HashMap;
use std::io;
use std::io::Read;

// The sum of the values of pairs.
macro_rules! sum {
    ($pairs:expr, $value:ident => $number:expr) => {{
        let mut sum = 0u64;
        for (_, $value) in $pairs {
            sum = sum.wrapping_add($number);
        }
        sum
    }};
}

pub(crate) use sum;

/// Our map.
pub(crate) type Ours<K> = halfbrown::HashMap<K, u64>;

/// The hash map of std.
pub(crate) type OfStd<K> = HashMap<K, u64, DefaultHashBuilder>;

/// A hash map that keeps its pairs in order, as ours does.
pub(crate) type OfIndex<K> = IndexMap<K, u64, DefaultHashBuilder>;

/// A map from keys to numbers, as far as what an operation is given is made, and its answer.
pub(crate) trait Map<K: Key>: Drop {
    fn empty(alloc: Global) -> Self;

    fn put(&mut self, key: K, value: u64) -> io::Result<()>;

    /// The sum of all values.
    fn sum(&self) -> u64;
}

impl<K: Key> Map<K> for Ours<K> {
    fn empty(alloc: Global) -> Self {
        halfbrown::HashMap::new(alloc)
    }

    #[inline(always)]
    fn put(&mut self, key: K, value: u64) -> io::Result<()> {
        self.insert(key, value)?;
        Ok(())
    }

    fn sum(&self) -> u64 {
        sum!(self.iter(), value => *value)
    }
}

impl<K: Key> Map<K> for OfStd<K> {
    fn empty(alloc: Global) -> Self {
        HashMap::new(alloc)
    }

    #[inline(always)]
    fn put(&mut self, key: K, value: u64) -> io::Result<()> {
        self.insert(key, value)?;
        Ok(())
    }

    fn sum(&self) -> u64 {
        sum!(self.iter(), value => *value)
    }
}

impl<K: Key> Map<K> for OfIndex<K> {
    fn empty(alloc: Global) -> Self {
        IndexMap::new(alloc)
    }

    #[inline(always)]
    fn put(&mut self, key: K, value: u64) -> io::Result<()> {
        self.insert(key, value)?;
        Ok(())
    }

    fn sum(&self) -> u64 {
        sum!(self.iter(), value => *value)
    }
}

/// A map of the keys of the numbers below the size, each with its number.
pub(crate) fn filled<K: Key, M: Map<K>>(alloc: Global, size: u64) -> io::Result<M> {
    let mut map = M::empty(alloc);
    for number in 0..size {
        map.put(K::of_number(alloc, number)?, number)?;
    }
    Ok(map)
}

/// Fills maps with pairs, prints how many maps there are, and waits for the end of its input.
pub(crate) fn hold<K: Key>(
    rt: &(impl Print + Input + AllocGlobal),
    map: &str,
    maps: u64,
    size: u64,
) -> io::Result<()> {
    match map {
        "halfbrown" => hold_maps::<K, Ours<K>>(rt, maps, size),
        "std" => hold_maps::<K, OfStd<K>>(rt, maps, size),
        "indexmap" => hold_maps::<K, OfIndex<K>>(rt, maps, size),
        _ => Err(unknown()),
    }
}

fn hold_maps<K: Key, M: Map<K>>(
    rt: &(impl Print + Input + AllocGlobal),
    maps: u64,
    size: u64,
) -> io::Result<()> {
    let alloc = rt.alloc();
    let held: Vec<M> = list(alloc, 0..maps, &|_| filled::<K, M>(alloc, size))?;
    println!(rt; "{}", held.len())?;
    let mut rest = Vec::new(alloc);
    rt.reader().read_to_end(&mut rest)?;
    Ok(())
}
