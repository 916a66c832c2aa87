//! Sizes that no script reaches. No contract says that memory is found, so that a body which gives up from a size on, or where
//! it needs no memory, is proved: here each call has to succeed.

use half_set::HashSet;
use half_uses::interner::Interner;
use half_uses::scopes::Scopes;
use half_uses::words::{count_words, report};
use halfbrown::{HashMap, SizedHashMap, hashmap};
use std::alloc::Global;
use std::cell::Cell;
use std::test::Fail;
use test_support::asserts::{assert_same, assert_same_at};
use test_support::builders::{Counting, Rule};

// A vector of as many pairs as its limit, of which one more makes a table, and shrinking a vector again. The switch hashes each
// key once, and later each look-up one.
fn assert_limit<const N: usize>(alloc: Global, hashes: u64, capacity: usize) -> Result<(), Fail> {
    let asked = Cell::new(0);
    let builder = Counting::new(Rule::Plain, &asked);
    let mut map = SizedHashMap::<usize, usize, _, N>::with_hasher(alloc, builder);
    for number in 0..N {
        map.insert(number, number)?;
    }
    assert_same_at(N, (map.is_vec(), asked.get()), (true, 0), "a vector")?;
    map.insert(N, N)?;
    let switched = (map.capacity(), asked.replace(0));
    assert_same_at(N, switched, (capacity, hashes), "a table")?;
    for number in 0..N {
        let found = (map.get(&number).copied(), asked.replace(0));
        assert_same_at(N, found, (Some(number), 1), "found")?;
    }
    map.pop();
    map.shrink_to_fit();
    let shrunk = (map.is_vec(), map.capacity(), asked.get());
    assert_same_at(N, shrunk, (true, N, 0), "a full vector again")
}

#[test]
fn limits_that_no_script_has(rt: HostRuntime) -> Result<(), Fail> {
    assert_limit::<6>(rt.alloc(), 7, 12)?;
    assert_limit::<16>(rt.alloc(), 17, 24)?;
    assert_limit::<100>(rt.alloc(), 101, 192)
}

#[test]
fn five_hundred_texts(rt: HostRuntime) -> Result<(), Fail> {
    let alloc = rt.alloc();
    let mut map = HashMap::<String, u64>::new(alloc);
    for number in 0..500u64 {
        map.insert(format!(in alloc; "text {number}")?, number)?;
    }
    for number in 250..500u64 {
        let text = format!(in alloc; "text {number}")?;
        let held = map.get(text.as_str()).copied();
        let removed = map.remove(text.as_str());
        assert_same((held, removed), (Some(number), held), "held")?;
    }
    map.shrink_to_fit();
    assert_same(map.capacity(), 384, "of 512 buckets")?;
    map.retain(|_, value| *value < 32);
    map.shrink_to_fit();
    assert_same((map.is_vec(), map.capacity()), (true, 32), "a full vector")
}

#[test]
fn six_and_eight_written_pairs(rt: HostRuntime) -> Result<(), Fail> {
    type Written = HashMap<u64, u64>;
    let alloc = rt.alloc();
    let six: Written = hashmap! {in alloc; 1 => 1, 2 => 2, 3 => 3, 4 => 4, 5 => 5, 6 => 6}?;
    let eight: Written = hashmap! {
        in alloc; 1 => 1, 2 => 2, 3 => 3, 4 => 4, 5 => 5, 6 => 6, 7 => 7, 8 => 8
    }?;
    assert_same((six.capacity(), eight.capacity()), (6, 8), "none to spare")
}

// At each size what was inserted last is held, and in the second round all is.
#[test]
fn two_hundred_values_and_texts(rt: HostRuntime) -> Result<(), Fail> {
    let mut set = HashSet::<usize>::new(rt.alloc());
    let mut names = Interner::new(rt.alloc());
    for is_new in [true, false] {
        insert_values(&mut set, is_new)?;
        intern_texts(rt.alloc(), &mut names)?;
    }
    Ok(())
}

fn insert_values(set: &mut HashSet<usize>, is_new: bool) -> Result<(), Fail> {
    for number in 0..200usize {
        let inserted = (set.insert(number)?, set.insert(number)?);
        assert_same_at(number, inserted, (is_new, false), "new once")?;
    }
    Ok(())
}

fn intern_texts(alloc: Global, names: &mut Interner) -> Result<(), Fail> {
    for number in 0..200usize {
        let name = format!(in alloc; "name {number}")?;
        let numbers = (names.intern(name.as_str())?, names.intern(name.as_str())?);
        assert_same(numbers, (number, number), "its number")?;
    }
    Ok(())
}

// In each scope each name means the number of the scope, and one more name means 7 in all of them.
#[test]
fn twenty_scopes_of_twenty_names(rt: HostRuntime) -> Result<(), Fail> {
    let mut scopes = Scopes::<u64, u64>::new(rt.alloc());
    scopes.declare(20, 7)?;
    for scope in 0..20u64 {
        enter_and_declare(&mut scopes, scope)?;
    }
    leave_each(&mut scopes)
}

fn enter_and_declare(scopes: &mut Scopes<u64, u64>, scope: u64) -> Result<(), Fail> {
    scopes.enter()?;
    for name in 0..20u64 {
        let before = (scopes.declare(name, 0)?, scopes.declare(name, scope)?);
        assert_same_at((scope, name), before, (None, Some(0)), "new here")?;
    }
    Ok(())
}

fn leave_each(scopes: &mut Scopes<u64, u64>) -> Result<(), Fail> {
    for left in 0..20u64 {
        let meanings = [19, 20].map(|name: u64| scopes.resolve(&name).copied());
        let seen = (meanings, scopes.leave());
        let expected = ([Some(19 - left), Some(7)], true);
        assert_same(seen, expected, "of the innermost, and of the outermost")?;
    }
    assert_same(scopes.leave(), false, "the outermost is not left")
}

// A thousand words, each 520 times: 2,890 digits and as many spaces as words are 3,890 bytes.
#[test]
fn two_megabytes_of_words(rt: HostRuntime) -> Result<(), Fail> {
    let alloc = rt.alloc();
    let mut words = String::new(alloc);
    for number in 0..1000u64 {
        words.push_str(format!(in alloc; "{number} ")?.as_str())?;
    }
    let text = words.repeat(alloc, 520)?;
    let counts = count_words(alloc, text.as_str())?;
    let lengths = (text.len(), report(alloc, &counts)?.len());
    assert_same(lengths, (2_022_800, 7_890), "a line for each word")
}
