//! The memory of a table: had first, and then filled with no pairs, with a copy, or with pairs that move, by their stored hashes.
ghost use Rattle.std.specs.Prelude.{◌≡◌, ◌^◌, ◌<◌, ◌≤◌, ◌↔◌, [], length, replicate, Err, IfOk};
ghost use Rattle.half_store.specs.Table.{IsIndexed};
ghost use Rattle.half_store.specs.Capacity.{capacity_of, least_buckets, least_table_capacity, buckets_of, IsBucketCount};
ghost use Rattle.half_store.specs.Words.{word_size};

use super::Table;
use super::probe::first_empty;
use crate::blocks::{copy_all, move_to};
use crate::capacity::{capacity_of, least_buckets};
use crate::refusal::check_size;
use crate::words::{MOST_IN_FOUR_BYTES, WordArray, WordMemory, Words, WordsMut};
use crate::{Refusal, uncounted};
use std::alloc::{AllocError, Global};
use std::marker::Model;

/// Memory for a table: all of it is granted, and none of it is filled. Its value is how many buckets it is for.
#[derive(Drop)]
pub struct TableMemory {
    buckets: WordMemory,
    hashes: Vec<u64>,
}

impl Model for TableMemory {
    ghost use Rattle.std.specs.Prelude.{ℕ};
    ghost use Rattle.std.specs.Coded.{coded_ℕ};
    ghost use Rattle.half_store.specs.Table.{IsTableMemory};
    ghost use Rattle.half_store.specs.Words.{room_of};

    ghost Value = { ℕ };

    ghost coded = { coded_ℕ };

    ghost view = { λ m. room_of m.buckets };

    ghost invariant = { λ m. IsTableMemory m.hashes m.buckets };
}

impl TableMemory {
    /// Memory for the least number of buckets whose capacity is enough for this many pairs.
    ///
    /// Fails with `Size` exactly for more than 2^60 pairs.
    pub fn for_pairs(alloc: Global, needed: usize) -> Result<TableMemory, Refusal>
        ensures buckets { IfOk result (λ m. m ≡ least_buckets needed) }
        ensures capacity { IfOk result (λ m. needed ≤ capacity_of m) }
        ensures size { (result ≡ Err Refusal.Size) ↔ (2 ^ 60 < needed) }
    {
        check_size(needed)?;
        Ok(TableMemory::for_buckets(alloc, least_buckets(needed))?)
    }

    /// Memory for this many buckets.
    pub(crate) fn for_buckets(alloc: Global, buckets: usize) -> Result<TableMemory, AllocError>
        requires { IsBucketCount buckets }
        ensures { IfOk result (λ m. m ≡ buckets) }
    {
        let capacity = capacity_of(buckets);
        let buckets = if capacity <= MOST_IN_FOUR_BYTES {
            WordMemory::FourBytes(Vec::with_capacity(alloc, buckets)?)
        } else {
            WordMemory::EightBytes(Vec::with_capacity(alloc, buckets)?)
        };
        let hashes = Vec::with_capacity(alloc, capacity)?;
        Ok(TableMemory { buckets, hashes })
    }

    /// How many pairs the table will have capacity for.
    pub fn capacity(&self) -> usize
        ensures value { result ≡ capacity_of self.now }
        ensures series { result ≡ least_table_capacity result }
    {
        self.hashes.capacity()
    }

    /// An empty table of as many buckets.
    pub fn into_table(self) -> Table
        ensures hashes { result.hashes ≡ [] }
        ensures buckets { result.buckets ≡ self }
    {
        let TableMemory { buckets, hashes } = self;
        Table {
            buckets: buckets.into_empty(),
            hashes,
        }
    }

    /// A copy of a table that has as many buckets, with the same stored hashes.
    pub fn into_copy_of(self, table: &Table) -> Table
        requires { self ≡ table.now.buckets }
        ensures { result ≡ table.now }
    {
        let TableMemory { buckets, hashes } = self;
        Table {
            buckets: buckets.into_copy_of(&table.buckets),
            hashes: copy_all(table.hashes.as_slice(), hashes),
        }
    }
}

impl Table {
    /// A table with no buckets. It takes no memory.
    pub fn new(alloc: Global) -> Table
        ensures hashes { result.hashes ≡ [] }
        ensures buckets { result.buckets ≡ 0 }
    {
        let memory = TableMemory {
            buckets: WordMemory::FourBytes(Vec::new(alloc)),
            hashes: Vec::new(alloc),
        };
        memory.into_table()
    }

    /// Memory for as many buckets as it has.
    pub fn memory_alike(&self) -> Result<TableMemory, AllocError>
        ensures { IfOk result (λ m. m ≡ self.now.buckets) }
    {
        TableMemory::for_buckets(*self.hashes.allocator(), self.buckets.count())
    }

    /// Moves the pairs into memory that is enough for them: probes each anew, by its stored hash.
    #[cold]
    #[inline(never)]
    pub fn move_to(&mut self, memory: TableMemory)
        requires { length self.old.hashes ≤ capacity_of memory }
        ensures hashes { self.new.hashes ≡ self.old.hashes }
        ensures buckets { self.new.buckets ≡ memory }
    {
        let TableMemory { buckets, hashes } = memory;
        let mut buckets = buckets.into_empty();
        rehash(&mut buckets, self.hashes.as_slice());
        // The old buckets are freed before the hashes move.
        self.buckets = buckets;
        move_to(&mut self.hashes, hashes);
    }

    /// For how many hashes and for how many words of buckets there is memory, and the bytes of a word.
    pub fn memory(&self) -> (usize, usize, usize)
        ensures hashes { result.0 ≡ capacity_of self.now.buckets }
        ensures words { result.1 ≡ buckets_of (capacity_of self.now.buckets) }
        ensures size { result.2 ≡ word_size (capacity_of self.now.buckets) }
    {
        let hashes = self.hashes.capacity();
        match &self.buckets {
            WordArray::FourBytes(array) => (hashes, array.words.capacity(), size_of::<u32>()),
            WordArray::EightBytes(array) => (hashes, array.words.capacity(), size_of::<usize>()),
        }
    }
}

/// Puts all pairs into empty buckets, in the order of their entry indices.
pub(crate) fn rehash<B: WordsMut>(buckets: &mut B, hashes: &[u64])
    requires count { IsBucketCount (length (B.words buckets.old)) }
    requires empty { B.words buckets.old ≡ replicate (length (B.words buckets.old)) 0 }
    requires capacity { length hashes.now ≤ capacity_of (length (B.words buckets.old)) }
    requires fits { length hashes.now ≤ B.most buckets.old }
    ensures indexed { IsIndexed hashes.now (B.words buckets.new) }
    ensures len { length (B.words buckets.new) ≡ length (B.words buckets.old) }
    ensures most { B.most buckets.new ≡ B.most buckets.old }
{
    for index in 0..hashes.len() {
        let bucket = uncounted!(first_empty(buckets, &hashes[..index], hashes[index]));
        buckets.set_word(bucket, index + 1);
    }
}
