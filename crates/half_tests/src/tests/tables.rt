//! Tables worked out by hand, in the order of `tests/scripts/worked`: in which bucket each pair is, where a search ends, which
//! pairs it asks for, and how many buckets it reads. The buckets count their reads themselves, so none is read beside the tally.

use half_store::{Table, TableMemory, Tally};
use std::alloc::Global;
use std::test::Fail;
use test_support::asserts::{assert_same, assert_same_at};
use test_support::probes::{NONE, Search, probed, searched};

// The key of each pair is its entry index.
const KEYS: [usize; 8] = [0, 1, 2, 3, 4, 5, 6, 7];

// Makes the capacity enough for this many pairs, as a store does.
fn reserve(alloc: Global, table: &mut Table, needed: usize) -> Result<(), Fail> {
    if needed <= table.capacity() {
        return Ok(());
    }
    make_anew(alloc, table, needed)
}

// Moves the pairs into memory for this many.
fn make_anew(alloc: Global, table: &mut Table, needed: usize) -> Result<(), Fail> {
    let memory = TableMemory::for_pairs(alloc, needed)?;
    if memory.capacity() < table.len() {
        return Err(Fail::new("the pairs do not fit"));
    }
    table.move_to(memory);
    Ok(())
}

// Adds a pair of this hash, where its probe ends. The table grows where it has no capacity.
fn add(alloc: Global, table: &mut Table, hash: u64) -> Result<(), Fail> {
    reserve(alloc, table, table.len().wrapping_add(1))?;
    if table.len() >= table.capacity() {
        return Err(Fail::new("there is no capacity"));
    }
    let bucket = table.insertion_probe(hash, &mut Tally::new());
    table.add_at(hash, bucket);
    Ok(())
}

// A table made for this capacity, to which pairs of these hashes were added in order.
fn table_of(alloc: Global, capacity: usize, hashes: &[u64]) -> Result<Table, Fail> {
    let mut table = TableMemory::for_pairs(alloc, capacity)?.into_table();
    for hash in hashes {
        add(alloc, &mut table, *hash)?;
    }
    Ok(table)
}

// Removes the pair of this index, which has this hash. The last pair takes its index.
fn remove(table: &mut Table, index: usize, hash: u64) -> Result<(), Fail> {
    if index >= table.len() {
        return Err(Fail::new("no pair has this entry index"));
    }
    let bucket = table.bucket_of(index, &mut Tally::new());
    let removed = table.remove_at(index, bucket, &mut Tally::new());
    assert_same_at(index, removed, hash, "its hash")
}

// A search that accepts this entry index.
fn assert_search(table: &Table, hash: u64, accepted: usize, search: Search) -> Result<(), Fail> {
    let found = searched(table, &KEYS, hash, &accepted);
    assert_same_at(hash, found, search, "the search")
}

// Each of six pairs, of hashes 0 to 5, is found in the bucket of this number.
fn assert_at_home(table: &Table) -> Result<(), Fail> {
    for hash in 0..6 {
        let bucket = hash as usize;
        assert_search(table, hash, bucket, (Ok((bucket, bucket)), 1, 1))?;
    }
    Ok(())
}

// A change of a table, or what is asserted of it. Tests are lists of steps, since each `?` of a function that owns a table is
// one more path on which its drop is proved.
#[derive(Clone, Copy)]
enum Step {
    Add(u64),
    // The entry index and the hash.
    Remove(usize, u64),
    Reserve(usize),
    MakeAnew(usize),
    HasCapacity(usize),
    AtHome,
    // The only pair of this hash has this entry index, and is in this bucket. A search for it reads this many.
    Found(u64, usize, usize, u64),
    Searched(u64, usize, Search),
    // An insertion probe for this hash ends at this empty bucket, and reads this many.
    Probed(u64, usize, u64),
}

use Step::{Add, AtHome, Found, HasCapacity, MakeAnew, Probed, Remove, Reserve, Searched};

fn play_step(alloc: Global, table: &mut Table, step: Step) -> Result<(), Fail> {
    match step {
        Add(hash) => add(alloc, table, hash),
        Remove(index, hash) => remove(table, index, hash),
        Reserve(needed) => reserve(alloc, table, needed),
        MakeAnew(needed) => make_anew(alloc, table, needed),
        HasCapacity(capacity) => assert_same(table.capacity(), capacity, "the capacity"),
        AtHome => assert_at_home(table),
        Found(hash, index, bucket, reads) => {
            assert_search(table, hash, index, (Ok((index, bucket)), 1, reads))
        }
        Searched(hash, accepted, search) => assert_search(table, hash, accepted, search),
        Probed(hash, bucket, reads) => {
            assert_same_at(hash, probed(table, hash), (bucket, reads), "a placing")
        }
    }
}

fn play_steps(alloc: Global, table: &mut Table, steps: &[Step]) -> Result<(), Fail> {
    for step in steps {
        play_step(alloc, table, *step)?;
    }
    Ok(())
}

// Takes these steps with a table of this capacity and these hashes.
fn play(alloc: Global, capacity: usize, hashes: &[u64], steps: &[Step]) -> Result<(), Fail> {
    let mut table = table_of(alloc, capacity, hashes)?;
    play_steps(alloc, &mut table, steps)
}

#[test]
fn three_of_one_home(rt: HostRuntime) -> Result<(), Fail> {
    let steps = [
        Found(3, 0, 3, 1),
        Found(7, 1, 0, 2),
        Found(11, 2, 1, 3),
        Searched(15, NONE, (Err(2), 0, 4)),
        Probed(15, 2, 4),
        // The other two move back.
        Remove(0, 3),
        Found(7, 1, 3, 1),
        Found(11, 0, 0, 2),
        // The pair that is lost is placed anew, through buckets 3 and 0.
        Probed(3, 1, 3),
        // The last one has its home.
        Remove(1, 7),
        Found(11, 0, 3, 1),
        Remove(0, 11),
        Searched(15, NONE, (Err(3), 0, 1)),
    ];
    play(rt.alloc(), 0, &[3, 7, 11], &steps)
}

#[test]
fn a_bucket_each(rt: HostRuntime) -> Result<(), Fail> {
    // Of eight buckets, then of 32, and of eight again.
    let steps = [
        AtHome,
        Reserve(13),
        HasCapacity(24),
        MakeAnew(6),
        HasCapacity(6),
        AtHome,
    ];
    play(rt.alloc(), 0, &[0, 1, 2, 3, 4, 5], &steps)
}

#[test]
fn around_the_end(rt: HostRuntime) -> Result<(), Fail> {
    let steps = [
        Found(u64::MAX, 0, 3, 1),
        Found(3, 1, 0, 2),
        Found(0, 2, 1, 2),
        Remove(0, u64::MAX),
        Found(3, 1, 3, 1),
        Found(0, 0, 0, 1),
    ];
    play(rt.alloc(), 0, &[u64::MAX, 3, 0], &steps)
}

// What 14, 7, 15 and 0 make each search read, whatever was there before.
const WITHOUT_SIX: [Step; 4] = [
    Searched(8, NONE, (Err(2), 0, 3)),
    Searched(22, NONE, (Err(2), 0, 5)),
    Searched(23, NONE, (Err(2), 0, 4)),
    Searched(3, NONE, (Err(3), 0, 1)),
];

#[test]
fn a_removal_around_the_end(rt: HostRuntime) -> Result<(), Fail> {
    let steps = [Found(0, 4, 2, 3), Remove(0, 6), Found(0, 0, 1, 2)];
    let mut table = table_of(rt.alloc(), 5, &[6, 14, 7, 15, 0])?;
    play_steps(rt.alloc(), &mut table, &steps)?;
    play_steps(rt.alloc(), &mut table, &WITHOUT_SIX)?;
    play(rt.alloc(), 5, &[0, 15, 14, 7], &WITHOUT_SIX)
}

#[test]
fn each_second_bucket(rt: HostRuntime) -> Result<(), Fail> {
    let steps = [
        Found(0, 0, 0, 1),
        Searched(16, NONE, (Err(1), 0, 2)),
        Searched(12, NONE, (Err(12), 0, 1)),
    ];
    play(rt.alloc(), 12, &[0, 2, 4, 6, 8, 10], &steps)
}

#[test]
fn under_another_hash(rt: HostRuntime) -> Result<(), Fail> {
    let steps = [Searched(999, NONE, (Err(3), 0, 1))];
    play(rt.alloc(), 0, &[8, 16], &steps)
}

#[test]
fn three_of_one_hash(rt: HostRuntime) -> Result<(), Fail> {
    let steps = [
        Searched(0, 2, (Ok((2, 2)), 3, 3)),
        Searched(0, NONE, (Err(3), 3, 4)),
    ];
    play(rt.alloc(), 0, &[0, 0, 0], &steps)?;
    let top = u64::MAX;
    let steps = [
        Searched(top, 2, (Ok((2, 1)), 3, 3)),
        Remove(0, top),
        // The third pair has entry index 0 now, and comes after the second.
        Searched(top, 0, (Ok((0, 0)), 2, 2)),
    ];
    play(rt.alloc(), 0, &[top, top, top], &steps)
}

#[test]
fn many_of_one_hash(rt: HostRuntime) -> Result<(), Fail> {
    let table = table_of(rt.alloc(), 0, &[0; 768])?;
    assert_same(table.capacity(), 768, "of 1,024 buckets")?;
    let found = searched(&table, &[0; 768], 0, &NONE);
    assert_same(found, (Err(768), 768, 769), "all of them")
}

#[test]
fn a_removal_brings_a_pair_home(rt: HostRuntime) -> Result<(), Fail> {
    let steps = [
        Found(0, 0, 0, 1),
        Found(8, 1, 1, 2),
        Found(1, 2, 2, 2),
        Remove(1, 8),
        Found(1, 1, 1, 1),
        Found(0, 0, 0, 1),
    ];
    play(rt.alloc(), 0, &[0, 8, 1], &steps)?;
    // Of eight buckets 1 is the home of 1 and 9. The pair of 3 has its home, and stays.
    let steps = [Remove(0, 1), Found(9, 1, 1, 1), Found(3, 0, 3, 1)];
    play(rt.alloc(), 5, &[1, 9, 3], &steps)
}

#[test]
fn a_removal_of_a_copy_leaves_the_table(rt: HostRuntime) -> Result<(), Fail> {
    let mut table = table_of(rt.alloc(), 0, &[6, 14, 7, 15, 0])?;
    let mut copy = table.memory_alike()?.into_copy_of(&table);
    let steps = [Remove(1, 14), Found(15, 3, 0, 2), Found(0, 1, 1, 2)];
    play_steps(rt.alloc(), &mut copy, &steps)?;
    let steps = [Found(15, 3, 1, 3), Found(0, 4, 2, 3)];
    play_steps(rt.alloc(), &mut table, &steps)
}

#[test]
fn eight_buckets_sixteen_and_eight(rt: HostRuntime) -> Result<(), Fail> {
    let steps = [
        // All of home 7.
        Found(47, 5, 4, 6),
        // Of homes 7, 15, 7, 15, 7 and 15.
        Reserve(7),
        Found(47, 5, 1, 3),
        // In bucket 10.
        Add(55),
        Probed(71, 11, 5),
        // Those of 39 and 55 move back.
        Remove(2, 23),
        Found(39, 4, 8, 2),
        Found(55, 2, 9, 3),
        MakeAnew(6),
        Found(47, 5, 4, 6),
    ];
    play(rt.alloc(), 0, &[7, 15, 23, 31, 39, 47], &steps)
}
