//! The libraries of `half_uses`, and the set of `half_set`, in use: their contracts do not say that memory is found, nor that no
//! hash escapes the count.

use half_set::HashSet;
use half_uses::bank::Bank;
use half_uses::cache::Cache;
use half_uses::labels::{Labels, Sums};
use halfbrown::{Refusal, Tally};
use std::alloc::{AllocError, Global};
use std::cell::Cell;
use std::fmt::Debug;
use std::test::Fail;
use test_support::asserts::{assert_same, assert_same_at};
use test_support::builders::{Counting, Rule};

// Of ten values, for which the table grows twice.
#[test]
fn a_cache_hashes_each_key_once(rt: HostRuntime) -> Result<(), Fail> {
    let asked = Cell::new(0);
    let builder = Counting::new(Rule::Plain, &asked);
    let mut squares = Cache::<u64, u64, Counting<'_>>::new(rt.alloc(), builder);
    let mut tally = Tally::new();
    for number in 0..10u64 {
        let key = squares.hashed(number);
        let square = squares.get_or_insert_with(key, || number * number, &mut tally)?;
        assert_same_at(number, square, number * number, "computed")?;
        assert_same_at(number, asked.replace(0), 1, "hashed by `hashed` alone")?;
    }
    for number in 0..10u64 {
        let key = squares.hashed(number);
        let square = squares.get(&key, &mut tally).copied();
        assert_same_at(number, square, Some(number * number), "cached")?;
        let removed = squares.remove(&key, &mut tally);
        assert_same_at(number, removed, square, "forgotten")?;
        assert_same_at(number, asked.replace(0), 1, "hashed by `hashed` alone")?;
    }
    Ok(())
}

// What was collected is this, in this order.
pub fn assert_collected<T: PartialEq + Debug + Drop>(
    items: Result<Vec<T>, AllocError>,
    expected: &[T],
    what: &str,
) -> Result<(), Fail> {
    let items = items?;
    assert_same(items.as_slice(), expected, what)
}

#[test]
fn a_set_keeps_the_order_of_insertions(rt: HostRuntime) -> Result<(), Fail> {
    let alloc = rt.alloc();
    let mut set = HashSet::<u64>::from_iter(alloc, [1, 2, 1, 3])?;
    let mut others = HashSet::<u64>::from_iter(alloc, [5, 3, 2])?;
    assert_compared(alloc, &set, &others)?;
    set.extend(others.iter().copied())?;
    make_smaller(&mut set)?;
    assert_same((set == others, others.len()), (true, 3), "in any order")?;
    others.clear();
    assert_same(others.is_empty(), true, "no value is left")?;
    let values = set.into_iter().collect(alloc);
    assert_collected(values, &[2, 3, 5], "the others keep their order")
}

fn assert_compared(alloc: Global, set: &HashSet<u64>, others: &HashSet<u64>) -> Result<(), Fail> {
    let union = set.union(others).copied().collect(alloc);
    assert_collected(union, &[1, 2, 3, 5], "and then 5")?;
    let both = set.intersection(others).copied().collect(alloc);
    assert_collected(both, &[2, 3], "in the order of the left")?;
    let left = set.difference(others).copied().collect(alloc);
    assert_collected(left, &[1], "without 2 and 3")?;
    assert_same(set.is_subset(others), false, "1 is not there")
}

// Of 1, 2, 3 and 5 the first goes, and 4 and 6, which are added.
fn make_smaller(set: &mut HashSet<u64>) -> Result<(), Fail> {
    let inserted = (set.insert(4)?, set.insert(4)?, set.insert(6)?);
    assert_same(inserted, (true, false, true), "new once")?;
    set.retain(|value| *value < 6);
    let removed = (set.shift_remove(&1), set.remove(&4), set.remove(&4));
    assert_same(removed, (true, true, false), "each was there once")
}

// The labels `method=GET` and `path=/NUMBER`.
fn labels_of(alloc: Global, number: u64) -> Result<Labels, Refusal> {
    let mut labels = Labels::new(alloc);
    labels.set(
        String::from_str(alloc, "method")?,
        String::from_str(alloc, "GET")?,
    )?;
    labels.set(
        String::from_str(alloc, "path")?,
        format!(in alloc; "/{number}")?,
    )?;
    Ok(labels)
}

fn add_twice(alloc: Global, sums: &mut Sums<Labels>, number: u64) -> Result<(), Fail> {
    for value in [number, 1] {
        if sums.total() > u64::MAX - value {
            return Err(Fail::new("the sum does not fit"));
        }
        sums.add(labels_of(alloc, number)?, value)?;
    }
    let labels = labels_of(alloc, number)?;
    assert_same(
        sums.get(&labels),
        number.checked_add(1),
        "the sum of these labels",
    )
}

// Of forty groups, so that the sums become a table.
#[test]
fn values_are_summed_by_labels(rt: HostRuntime) -> Result<(), Fail> {
    let mut sums = Sums::<Labels>::new(rt.alloc());
    for number in 0..40u64 {
        add_twice(rt.alloc(), &mut sums, number)?;
    }
    assert_same(sums.total(), 820, "0 to 39, and 40")
}

#[test]
fn accounts_are_opened(rt: HostRuntime) -> Result<(), Fail> {
    let mut bank = Bank::<u64>::new(rt.alloc());
    bank.open(1, 50)?;
    bank.open(2, 0)?;
    let moved = bank.transfer(&1, &2, 20).map(|_| bank.balance(&2));
    assert_same(moved, Ok(Some(20)), "20 are moved")
}
