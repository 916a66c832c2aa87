//! An index over entry indices: from a hash to the entry indices of the pairs that have it.
//!
//! A bucket contains an entry index, and a column has the stored hash of each. There are no keys: a search is handed their
//! column, and a test of a key. Probes go up from the home bucket of a hash, one bucket at a time, and a removal shifts
//! back what follows it, so no tombstone is left.
#![tactic(auto, using(crate::proofs::lemmas::table::Find::table_steps))]

ghost use Rattle.std.specs.Prelude.{◌≡◌, ◌^◌, ◌<◌, ◌≤◌, [], ◌∷◌, ◌++◌, length, slice_index};
ghost use Rattle.std.specs.Fn.{FnReturnsAt};
ghost use Rattle.half_store.specs.Search.{CallableOnKeysOfHash, ReturnsAt};
ghost use Rattle.half_store.specs.Reach.{reach};
ghost use Rattle.half_store.specs.Capacity.{capacity_of, IsBucketCount, least_table_capacity, buckets_of};
ghost use Rattle.half_store.specs.Work.{looked_more, reads_up_to, ReadsWithin, removal_reads_at};
ghost use Rattle.half_store.specs.Table.{with_hash_in, IsTablePlace, IsTableVacancy, TableSearch, RemovesFromTable};

mod deletion;
pub mod memory;
pub mod probe;
mod shift;

use crate::Tally;
use crate::capacity::capacity_of;
use crate::words::{WordArray, Words, WordsMut, of_either_size};
use deletion::{backward_shift, bucket_of};
use probe::{first_empty, probe_for};
use std::marker::Model;

/// Buckets that lead from a hash to the entry indices of the pairs that have it.
///
/// Entry indices count up in the order of insertion. `remove_at` gives the last pair the index that became free,
/// `shift_remove_at` gives each pair behind the removed one the index before its own. There are no buckets, or a power
/// of two from 4 on, and the load factor is three quarters. A bucket takes four bytes if that is enough for as many pairs as
/// fit, and otherwise eight.
#[derive(Drop)]
pub struct Table {
    // 0 for an empty bucket, otherwise the entry index and one more
    pub(crate) buckets: WordArray,
    // by entry index
    pub(crate) hashes: Vec<u64>,
}

impl Model for Table {
    ghost use Rattle.std.specs.Prelude.{vec_capacity};
    ghost use Rattle.half_store.specs.Table.{TableState, state_of_words, table_code, IsTable};
    ghost use Rattle.half_store.specs.Words.{words_of, greatest_word};

    ghost Value = { TableState };

    ghost coded = { table_code };

    ghost view = { λ t. state_of_words t.hashes.items (words_of t.buckets) };

    ghost invariant = { λ t. IsTable t.hashes.items (words_of t.buckets) (greatest_word t.buckets)
        (vec_capacity t.hashes) };
}

impl Table {
    ghost use Rattle.half_store.specs.Table.{state_of_words, IsIndexed};
    ghost use Rattle.half_store.specs.Words.{words_of};

    /// How many pairs it holds.
    #[inline(always)]
    pub fn len(&self) -> usize
        ensures value { result ≡ length self.now.hashes }
        ensures small { result ≤ 2 ^ 62 }
    {
        self.hashes.len()
    }

    /// How many pairs fit, those that it holds among them.
    #[inline(always)]
    pub fn capacity(&self) -> usize
        ensures value { result ≡ capacity_of self.now.buckets }
        ensures within { length self.now.hashes ≤ result }
        ensures count { IsBucketCount self.now.buckets }
        ensures series { result ≡ least_table_capacity result }
        ensures buckets { self.now.buckets ≡ buckets_of result }
    {
        capacity_of(self.buckets.count())
    }

    /// Searches for a pair of this hash whose key `matches` accepts. `matches` is called only with keys of that hash.
    ///
    /// Returns its entry index and its bucket, or the empty bucket at which the probe ended, which is 0 if there are none.
    /// If none is found it has read exactly `reach` buckets and called `matches` once for each pair of that hash.
    #[inline(always)]
    pub fn find<K, F: Fn(&K) -> bool>(
        &self,
        keys: &[K],
        hash: u64,
        matches: &F,
        tally: &mut Tally,
    ) -> Result<(usize, usize), usize>
        requires keys { length self.now.hashes ≤ length keys.now }
        requires callable { CallableOnKeysOfHash (F.pre matches.now) self.now.hashes hash keys.now }
        ensures { TableSearch (ReturnsAt (FnReturnsAt F.Fn matches.now) keys.now) self.now
            hash result tally.old tally.new }
    {
        let hashes = self.hashes.as_slice();
        of_either_size!(
            &self.buckets,
            buckets => probe_for(buckets, hashes, keys, hash, matches, tally)
        )
    }

    /// Probes for the empty bucket where a pair of this hash belongs. It reads exactly `reach` buckets.
    #[inline(always)]
    pub fn insertion_probe(&self, hash: u64, tally: &mut Tally) -> usize
        requires { 0 < self.now.buckets }
        ensures vacancy { IsTableVacancy self.now hash result }
        ensures cost { tally.new ≡ looked_more (reach self.now.hashes self.now.buckets hash)
            tally.old }
        ensures buckets { self.now.buckets ≡ buckets_of (capacity_of self.now.buckets) }
    {
        let hashes = self.hashes.as_slice();
        of_either_size!(
            &self.buckets,
            buckets => first_empty(buckets, hashes, hash, tally)
        )
    }

    /// Adds a pair of this hash in the empty bucket at which a probe for it ended. It reads no bucket.
    #[inline(always)]
    pub fn add_at(&mut self, hash: u64, bucket: usize)
        requires capacity { length self.old.hashes < capacity_of self.old.buckets }
        requires vacancy { IsTableVacancy self.old hash bucket }
        ensures after { self.new ≡ with_hash_in self.old hash bucket }
        ensures buckets { self.new.buckets ≡ self.old.buckets }
        ensures at { IsTablePlace self.new (length self.old.hashes) bucket }
    {
        let word = self.len() + 1;
        self.buckets.set_word(bucket, word);
        self.hashes.push_reserved(hash);
    }

    /// Adds a pair of this hash. It reads exactly `reach` buckets.
    #[inline(always)]
    pub fn add(&mut self, hash: u64, tally: &mut Tally)
        requires { length self.old.hashes < capacity_of self.old.buckets }
        ensures hashes { self.new.hashes ≡ self.old.hashes ++ hash ∷ [] }
        ensures buckets { self.new.buckets ≡ self.old.buckets }
        ensures cost { tally.new ≡ looked_more (reach self.old.hashes self.old.buckets hash)
            tally.old }
        ensures capacity { self.old.buckets ≡ buckets_of (capacity_of self.old.buckets) }
    {
        let _ = &self.hashes; // opens the invariant for the prover, and does nothing
        let bucket = self.insertion_probe(hash, tally);
        self.add_at(hash, bucket);
    }

    /// The bucket of the pair at this entry index, which is probed for by the stored hash. It reads as many buckets as a search
    /// that finds the pair, fewer than an unsuccessful probe for its hash.
    #[inline(always)]
    pub fn bucket_of(&self, index: usize, tally: &mut Tally) -> usize
        requires { index < length self.now.hashes }
        ensures at { IsTablePlace self.now index result }
        ensures cost { tally.new ≡ looked_more (reads_up_to self.now.buckets
            (slice_index self.now.hashes index) result) tally.old }
        ensures near { reads_up_to self.now.buckets (slice_index self.now.hashes index) result
            < reach self.now.hashes self.now.buckets (slice_index self.now.hashes index) }
    {
        of_either_size!(
            &self.buckets,
            buckets => bucket_of(buckets, self.hashes.as_slice(), index, tally)
        )
    }

    /// Removes the pair at this entry index, which stands in this bucket, and returns its stored hash. The last pair takes its
    /// index. With what `bucket_of` reads it reads fewer buckets than two unsuccessful probes: for the hash of the pair, and for
    /// that of the last one.
    #[inline(always)]
    pub fn remove_at(&mut self, index: usize, bucket: usize, tally: &mut Tally) -> u64
        requires within { index < length self.old.hashes }
        requires at { IsTablePlace self.old index bucket }
        ensures removes { RemovesFromTable self.old index self.new result }
        ensures cost { ReadsWithin (removal_reads_at self.old.hashes self.old.buckets index bucket)
            tally.old tally.new }
    {
        of_either_size!(&mut self.buckets, buckets => {
            let last = self.hashes.len() - 1;
            if index != last {
                let last_bucket = bucket_of(buckets, self.hashes.as_slice(), last, tally);
                buckets.set_word(last_bucket, index + 1);
            }
            let hash = self.hashes.swap_remove(index);
            backward_shift(buckets, self.hashes.as_slice(), bucket, tally);
            hash
        })
    }

    /// Removes all pairs. The capacity stays.
    pub fn clear(&mut self)
        ensures hashes { self.new.hashes ≡ [] }
        ensures buckets { self.new.buckets ≡ self.old.buckets }
    {
        self.buckets.clear();
        self.hashes.clear();
    }

    /// The buckets and the stored hashes, as a probe reads them.
    #[inline(always)]
    pub fn buckets(&self) -> (&WordArray, &[u64])
        ensures indexed { IsIndexed result.1.now (words_of result.0.now) }
        ensures shown { state_of_words result.1.now (words_of result.0.now) ≡ self.now }
    {
        (&self.buckets, self.hashes.as_slice())
    }
}
