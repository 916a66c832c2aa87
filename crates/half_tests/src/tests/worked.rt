//! Worked examples that no script says, in the order of `tests/scripts/worked`: of texts and characters, of calls on one entry,
//! and of numbers as keys.

use super::items::{Item, Told};
use super::uses::assert_collected;
use half_callers::drains::take_first;
use half_conditions::by_index;
use halfbrown::{
    DefaultHashBuilder, Entry, HashMap, Limit, LimitedHashMap, RawEntryMut, Refusal, SizedHashMap,
    hashmap,
};
use std::alloc::Global;
use std::cell::Cell;
use std::hash::BuildHasher;
use std::iter::repeat_n;
use std::test::Fail;
use test_support::asserts::{assert_same, assert_same_at};
use test_support::builders::{Counting, Rule};

type Letters = HashMap<u64, &'static str>;

type Ponies = HashMap<&'static str, u64>;

// Its keys have an owner: a caller whose key type holds a reference gets no proof of `replace_entry_with`.
type Texts = HashMap<String, u64>;

const PONIES: &str = "poneyland";

const HORSES: &str = "horseyland";

#[test]
fn a_pair_is_replaced_and_lost(rt: HostRuntime) -> Result<(), Fail> {
    let mut map = Texts::new(rt.alloc());
    let key = || String::from_str(rt.alloc(), PONIES);
    map.insert(key()?, 42)?;
    replace(&mut map, key()?)?;
    lose(&mut map, key()?)
}

fn replace(map: &mut Texts, key: String) -> Result<(), Fail> {
    if let Entry::Occupied(entry) = map.entry(key)? {
        let left = entry.replace_entry_with(|_, value| value.checked_add(1));
        let is_occupied = matches!(left, Entry::Occupied(_));
        assert_same((is_occupied, left.key().as_str()), (true, PONIES), "kept")?;
    }
    assert_same(map.get(PONIES).copied(), Some(43), "one more")
}

fn lose(map: &mut Texts, key: String) -> Result<(), Fail> {
    if let Entry::Occupied(entry) = map.entry(key)? {
        let left = entry.replace_entry_with(|_, _| None);
        let is_vacant = matches!(left, Entry::Vacant(_));
        assert_same((is_vacant, left.key().as_str()), (true, PONIES), "lost")?;
    }
    assert_same(map.contains_key(PONIES), false, "it is gone")
}

#[test]
fn a_letter_is_overwritten(rt: HostRuntime) -> Result<(), Fail> {
    overwrite(&mut Letters::new(rt.alloc()))
}

fn overwrite(map: &mut Letters) -> Result<(), Fail> {
    assert_same(map.insert(37, "a")?, None, "new")?;
    assert_same(map.is_empty(), false, "it has a pair")?;
    assert_same(map.insert(37, "b")?, Some("a"), "the first letter")?;
    assert_same(map.insert(37, "c")?, Some("b"), "the second")?;
    assert_same(by_index(map, &37), Some("c"), "the third")
}

#[test]
fn written_pairs(rt: HostRuntime) -> Result<(), Fail> {
    let alloc = rt.alloc();
    let names: Letters = hashmap! {in alloc; 1 => "one", 2 => "two"}?;
    let two = (names.len(), by_index(&names, &1), by_index(&names, &2));
    assert_same(two, (2, Some("one"), Some("two")), "two names, by index")?;
    assert_same(names.get(&3).copied(), None, "no third")?;
    let none: Letters = hashmap! {in alloc;}?;
    assert_same((none.len(), none.capacity()), (0, 0), "no names")?;
    let nested: HashMap<u64, Letters> = hashmap! {in alloc; 1 => names,}?;
    assert_same(nested.len(), 1, "a map of maps")
}

// By the seed and the multiplier of std's `FoldHasher`.
#[test]
fn the_default_builder_hashes_as_it_always_did(rt: HostRuntime) -> Result<(), Fail> {
    let map = HashMap::<u64, u64>::new(rt.alloc());
    let hash = map.hasher().hash_one(&7u64);
    assert_same(hash, 0x4445_b387_2ebe_072e, "the hash of 7")
}

#[test]
fn characters_are_counted(rt: HostRuntime) -> Result<(), Fail> {
    let mut times = HashMap::<char, u64>::new(rt.alloc());
    for character in "a short treatise on fungi".chars() {
        let count = times.entry(character)?.or_insert(0);
        *count = count.saturating_add(1);
    }
    assert_same(times.len(), 13, "the characters")?;
    let counts = ['s', 't', 'u', ' ', 'y'].map(|it| times.get(&it).copied());
    let expected = [Some(2), Some(3), Some(1), Some(4), None];
    assert_same(counts, expected, "how often")
}

#[test]
fn raw_entries_of_ponies(rt: HostRuntime) -> Result<(), Fail> {
    let mut map = Ponies::new(rt.alloc());
    let entry = map.raw_entry_mut()?.from_key(&HORSES).insert(HORSES, 37);
    assert_same(entry.remove_entry(), (HORSES, 37), "horses")?;
    let added = map.raw_entry_mut()?.from_key(&PONIES).or_insert(PONIES, 3);
    assert_same(*added.1, 3, "ponies")?;
    let held = map.raw_entry_mut()?.from_key(&PONIES).or_insert(PONIES, 10);
    *held.1 = held.1.saturating_mul(2);
    assert_same(map.get(PONIES).copied(), Some(6), "twice as many")
}

#[test]
fn an_entry_of_ponies_twice(rt: HostRuntime) -> Result<(), Fail> {
    let mut map = Ponies::new(rt.alloc());
    for expected in [42, 43] {
        let entry = map.entry(PONIES)?;
        let value = *entry
            .and_modify(|value| *value = value.saturating_add(1))
            .or_insert(42);
        assert_same(value, expected, "made, and changed")?;
    }
    Ok(())
}

#[test]
fn one_of_two_letters_is_drained(rt: HostRuntime) -> Result<(), Fail> {
    let mut map = Letters::new(rt.alloc());
    map.insert(1, "a")?;
    map.insert(2, "b")?;
    assert_same(take_first(&mut map), Some((1, "a")), "the first")?;
    assert_same(map.is_empty() && map.is_vec(), true, "drained")
}

#[test]
fn a_raw_entry_gets_another_spelling(rt: HostRuntime) -> Result<(), Fail> {
    let told = Told::new();
    let mut map = SizedHashMap::<Item<'_>, u64, DefaultHashBuilder, 5>::new(rt.alloc());
    map.insert(Item::equal_to(1, 1, &told), 10)
        .map_err(|refused| refused.why)?;
    let found = map.raw_entry_mut()?.from_key(&Item::equal_to(1, 2, &told));
    let is_held = matches!(found, RawEntryMut::Occupied(_));
    assert_same(is_held, true, "it is held")?;
    let mut entry = found.insert(Item::equal_to(1, 4, &told), 20);
    assert_same((entry.key().digit, *entry.get()), (1, 20), "the stored key")?;
    let before = entry.insert_key(Item::equal_to(1, 3, &told));
    assert_same(before.digit, 1, "the key before")?;
    let (key, value) = entry.remove_entry();
    assert_same((key.id, key.digit, value), (1, 3, 20), "the other spelling")
}

// Inserts key 5 by its hash, and returns it. What is asked is counted after the hash. Any builder will do: a caller whose map
// holds a reference gets no proof of an insertion into a vacant raw entry.
fn add_five<S: BuildHasher, L: Limit>(
    map: &mut LimitedHashMap<u64, u64, S, L>,
    asked: &Cell<u64>,
) -> Result<u64, Fail> {
    let hash = map.hasher().hash_one(&5u64);
    asked.set(0);
    match map.raw_entry_mut()?.from_key_hashed_nocheck(hash, &5) {
        RawEntryMut::Occupied(_) => return Err(Fail::new("no key is held")),
        RawEntryMut::Vacant(entry) => {
            entry.insert_hashed_nocheck(hash, 5, 50);
        }
    }
    Ok(hash)
}

#[test]
fn a_known_hash_asks_no_builder(rt: HostRuntime) -> Result<(), Fail> {
    let asked = Cell::new(0);
    let builder = Counting::new(Rule::Plain, &asked);
    let mut map = SizedHashMap::<u64, u64, _, 0>::with_capacity_and_hasher(rt.alloc(), 1, builder)?;
    assert_same(map.capacity(), 3, "of four buckets")?;
    let hash = add_five(&mut map, &asked)?;
    assert_same((hash, asked.get()), (5, 0), "by the three calls")?;
    let value = map.get(&5).copied();
    assert_same((value, asked.get()), (Some(50), 1), "by its key")
}

fn assert_even_keys_are_kept<const N: usize>(alloc: Global) -> Result<(bool, usize), Fail> {
    let asked = Cell::new(0);
    let builder = Counting::new(Rule::Plain, &asked);
    let mut map = SizedHashMap::<u64, u64, _, N>::with_hasher(alloc, builder);
    for number in 0..8u64 {
        map.insert(number, 10 * number)?;
    }
    let calls = Cell::new(0u64);
    map.retain(|key, _| {
        calls.set(calls.get().saturating_add(1));
        *key % 2 == 0
    });
    assert_same((calls.get(), map.len()), (8, 4), "calls, and pairs")?;
    let keys = map.keys().copied().collect(alloc);
    assert_collected(keys, &[0, 2, 4, 6], "their order")?;
    for number in 0..8u64 {
        let value = (number % 2 == 0).then_some(10 * number);
        assert_same_at(number, map.get(&number).copied(), value, "its value")?;
    }
    Ok((map.is_vec(), map.capacity()))
}

#[test]
fn even_keys_are_kept(rt: HostRuntime) -> Result<(), Fail> {
    let few = assert_even_keys_are_kept::<32>(rt.alloc())?;
    assert_same(few.0, true, "a vector")?;
    let table = assert_even_keys_are_kept::<0>(rt.alloc())?;
    assert_same(table, (false, 12), "a table of sixteen buckets")
}

#[test]
fn more_pairs_than_there_can_be(rt: HostRuntime) -> Result<(), Fail> {
    let pairs = repeat_n((1, 1), 1152921504606846977);
    let refused = HashMap::<u64, u64>::from_iter(rt.alloc(), pairs).err();
    assert_same(refused, Some(Refusal::Size), "one pair repeated")?;
    type Most = SizedHashMap<u64, u64, DefaultHashBuilder, 18446744073709551615>;
    for (capacity, why) in [
        (18446744073709551615, Refusal::Size),
        (1152921504606846976, Refusal::Memory),
    ] {
        let refused = Most::vec_with_capacity(rt.alloc(), capacity).err();
        assert_same_at(capacity, refused, Some(why), "a vector")?;
    }
    let refused = HashMap::<u64, u64>::with_capacity(rt.alloc(), 1152921504606846976).err();
    assert_same(refused, Some(Refusal::Memory), "a table")
}
