//! How many buckets probes read, by the hashes of keys. The buckets count their reads.
use crate::keys::Key;
use half_store::{Table, TableMemory, Tally};
use halfbrown::{DefaultHashBuilder, HashMap};
use std::alloc::Global;
use std::hash::BuildHasher;
use std::io;
use std::ops::Range;
use test_support::probes::{probed, searched};

// Which pair is replaced next: a prime, so that they lie all over the table.
const STRIDE: u64 = 1_000_003;

// How many probes have read how many buckets.
type Reads = HashMap<u64, u64>;

fn count(reads: &mut Reads, read: u64) -> io::Result<()> {
    let probes = reads.entry(read)?.or_insert(0);
    *probes = probes.wrapping_add(1);
    Ok(())
}

// The hash of the key of the number.
fn hash_of<K: Key>(alloc: Global, number: u64) -> io::Result<u64> {
    Ok(DefaultHashBuilder::new().hash_one(&K::of_number(alloc, number)?))
}

// Adds the keys of these numbers, as far as there is capacity, and returns what that reads.
fn adding<K: Key>(alloc: Global, table: &mut Table, numbers: Range<u64>) -> io::Result<Reads> {
    let mut reads = HashMap::new(alloc);
    for number in numbers {
        let hash = hash_of::<K>(alloc, number)?;
        count(&mut reads, probed(table, hash).1)?;
        if table.len() < table.capacity() {
            table.add(hash, &mut Tally::new());
        }
    }
    Ok(reads)
}

// Removes pairs from all over the table, and adds the keys of these numbers in their place.
fn replace<K: Key>(
    alloc: Global,
    table: &mut Table,
    held: &mut Vec<u64>,
    numbers: Range<u64>,
) -> io::Result<()> {
    for number in numbers {
        let index = (number.wrapping_mul(STRIDE) % held.len().max(1) as u64) as usize;
        if index < table.len() && index < held.len() {
            let bucket = table.bucket_of(index, &mut Tally::new());
            table.remove_at(index, bucket, &mut Tally::new());
            held.swap_remove(index);
            held.push(number)?;
        }
        adding::<K>(alloc, table, number..number.wrapping_add(1))?;
    }
    Ok(())
}

// What searches for the keys of these numbers read, none of which is held.
fn missing<K: Key>(alloc: Global, table: &Table, numbers: Range<u64>) -> io::Result<Reads> {
    let mut reads = HashMap::new(alloc);
    for number in numbers {
        count(&mut reads, probed(table, hash_of::<K>(alloc, number)?).1)?;
    }
    Ok(reads)
}

// What searches for all held keys read.
fn finding<K: Key>(alloc: Global, table: &Table, held: &[u64]) -> io::Result<Reads> {
    let mut reads = HashMap::new(alloc);
    for number in held {
        let hash = hash_of::<K>(alloc, *number)?;
        count(&mut reads, searched(table, held, hash, number).2)?;
    }
    Ok(reads)
}

fn print_reads(rt: &impl Print, pairs: u64, probes: &str, reads: &Reads) -> io::Result<()> {
    for (read, many) in reads.iter() {
        println!(rt; "{pairs} {probes} {read} {many}")?;
    }
    Ok(())
}

/// Fills a table with a third, a half, two thirds, five sixths and all of the pairs that it has memory for, and makes as many
/// replacements. Prints of the insertions before these, of as many misses as there is memory for, and of a hit of each pair
/// how many read how many buckets.
pub(crate) fn print<K: Key>(rt: &(impl Print + AllocGlobal), capacity: u64) -> io::Result<()> {
    let alloc = rt.alloc();
    for sixths in 2..7 {
        let pairs = capacity.wrapping_mul(sixths) / 6;
        let mut table = TableMemory::for_pairs(alloc, capacity as usize)?.into_table();
        let added = adding::<K>(alloc, &mut table, 0..pairs)?;
        print_reads(rt, pairs, "insertions", &added)?;
        let mut held: Vec<u64> = (0..pairs).collect(alloc)?;
        replace::<K>(alloc, &mut table, &mut held, pairs..pairs.wrapping_mul(2))?;
        let others = capacity.wrapping_mul(2)..capacity.wrapping_mul(3);
        print_reads(rt, pairs, "misses", &missing::<K>(alloc, &table, others)?)?;
        let found = finding::<K>(alloc, &table, held.as_slice())?;
        print_reads(rt, pairs, "hits", &found)?;
    }
    Ok(())
}
