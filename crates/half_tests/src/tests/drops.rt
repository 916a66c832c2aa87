//! In what order keys and values are dropped, which no contract says.

use super::items::{Item, Items, Told, filled};
use half_set::HashSet;
use half_uses::bounded_cache::BoundedCache;
use half_uses::cache::Cache;
use half_uses::scopes::Scopes;
use halfbrown::{DefaultHashBuilder, Refusal, SizedHashMap, Tally};
use std::alloc::Global;
use std::hash::Hash;
use std::test::Fail;
use test_support::asserts::{assert_same, assert_same_at};

// All at once: the keys, and then the values. Taken out one by one: each key with its value.
fn whole_maps<const N: usize>(alloc: Global) -> Result<(), Fail> {
    let told = Told::new();
    drop(filled::<N>(alloc, &told)?);
    assert_same_at(N, told.dropped.replace(0), 123456, "the map")?;
    let mut map = filled::<N>(alloc, &told)?;
    map.clear();
    assert_same_at(N, told.dropped.replace(0), 123456, "`clear`")?;
    drop(filled::<N>(alloc, &told)?.into_keys());
    assert_same_at(N, told.dropped.replace(0), 456123, "`into_keys`")?;
    drop(filled::<N>(alloc, &told)?.into_values());
    assert_same_at(N, told.dropped.replace(0), 123456, "`into_values`")?;
    for _pair in filled::<N>(alloc, &told)? {
        break;
    }
    assert_same_at(N, told.dropped.replace(0), 142356, "a loop that is left")
}

// Takes this number of pairs, each of which is dropped at once, and drops the others.
fn drain<K: Eq + Hash + Drop, V: Drop, const N: usize>(
    map: &mut SizedHashMap<K, V, DefaultHashBuilder, N>,
    taken: usize,
) {
    let mut pairs = map.drain();
    for _ in 0..taken {
        drop(pairs.next());
    }
}

fn drained<const N: usize>(alloc: Global, taken: usize) -> Result<u64, Fail> {
    let told = Told::new();
    let mut map = filled::<N>(alloc, &told)?;
    drain(&mut map, taken);
    Ok(told.dropped.get())
}

// Gives the key 1 the value 7.
fn overwrite<'a, const N: usize>(
    map: &mut Items<'a, N>,
    told: &'a Told,
) -> Result<Option<Item<'a>>, Refusal> {
    Ok(map.insert(Item::equal_to(1, 9, told), Item::new(7, told))?)
}

// A given key that is not stored is dropped by the call, and so is the key of a value that is returned.
fn single_pairs<const N: usize>(alloc: Global) -> Result<(), Fail> {
    let told = Told::new();
    let mut map = filled::<N>(alloc, &told)?;
    let before = overwrite(&mut map, &told)?;
    assert_same_at(N, told.dropped.get(), 9, "the given key")?;
    drop(before);
    map.retain(|_, value| value.digit == 5);
    assert_same_at(N, told.dropped.replace(0), 941376, "`retain`")?;
    let value = map.remove(&Item::equal_to(2, 8, &told));
    assert_same_at(N, told.dropped.get(), 28, "the stored key, and the query")?;
    drop(value);
    assert_same_at(N, told.dropped.get(), 285, "the value")
}

fn assert_order<const N: usize>(alloc: Global) -> Result<(), Fail> {
    whole_maps::<N>(alloc)?;
    assert_same_at(N, drained::<N>(alloc, 0)?, 123456, "`drain`")?;
    assert_same_at(N, drained::<N>(alloc, 1)?, 142356, "one is taken")?;
    assert_same_at(N, drained::<N>(alloc, 4)?, 142536, "all are taken")?;
    single_pairs::<N>(alloc)
}

#[test]
fn maps_drop_keys_before_values(rt: HostRuntime) -> Result<(), Fail> {
    assert_order::<5>(rt.alloc())?;
    assert_order::<0>(rt.alloc())
}

#[test]
fn a_set_drops_its_values_in_order(rt: HostRuntime) -> Result<(), Fail> {
    let told = Told::new();
    let mut set = HashSet::<Item<'_>>::new(rt.alloc());
    for value in [2u64, 1, 3] {
        set.insert(Item::new(value, &told))?;
    }
    set.insert(Item::equal_to(1, 9, &told))?;
    drop(set);
    assert_same(told.dropped.get(), 9213, "the equal value, and all")
}

// The pair that makes way, and then the oldest first.
#[test]
fn a_bounded_cache_drops_the_oldest_first(rt: HostRuntime) -> Result<(), Fail> {
    let told = Told::new();
    let mut cache = BoundedCache::<Item<'_>, Item<'_>>::new(rt.alloc(), 2)?;
    for key in [1u64, 2, 3] {
        drop(cache.insert(Item::new(key, &told), Item::new(key + 3, &told)));
    }
    cache.refresh(&Item::equal_to(2, 9, &told));
    drop(cache);
    assert_same(
        told.dropped.get(),
        1493265,
        "1 made way, and 2 is the newest",
    )
}

#[test]
fn a_cache_keeps_the_first_key(rt: HostRuntime) -> Result<(), Fail> {
    let told = Told::new();
    let mut cache = Cache::<Item<'_>, u64, DefaultHashBuilder>::new(
        rt.alloc(),
        DefaultHashBuilder::default(),
    );
    for (id, digit) in [(1u64, 1u64), (2, 2), (1, 9)] {
        let key = cache.hashed(Item::equal_to(id, digit, &told));
        cache.get_or_insert_with(key, || id, &mut Tally::new())?;
    }
    drop(cache);
    assert_same(told.dropped.get(), 912, "the equal key, and those in order")
}

fn declare<'a>(
    scopes: &mut Scopes<Item<'a>, Item<'a>>,
    name: u64,
    told: &'a Told,
) -> Result<(), Refusal> {
    scopes.declare(
        Item::new(name, told),
        Item::new(name.saturating_add(4), told),
    )?;
    Ok(())
}

// `leave` drops the names of its scope. The rest goes with the innermost first, and then from the outermost.
#[test]
fn scopes_drop_the_innermost_first(rt: HostRuntime) -> Result<(), Fail> {
    let told = Told::new();
    let mut scopes = Scopes::<Item<'_>, Item<'_>>::new(rt.alloc());
    for name in [1u64, 2, 3, 4] {
        scopes.enter()?;
        declare(&mut scopes, name, &told)?;
    }
    scopes.leave();
    assert_same(told.dropped.get(), 48, "the innermost scope")?;
    drop(scopes);
    assert_same(told.dropped.get(), 48371526, "the others")
}
