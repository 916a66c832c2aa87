//! A search by a match on keys, and a probe for a vacancy.
ghost use Rattle.std.specs.Prelude.{◌≡◌, ◌<◌, length, if◌then◌else◌};
ghost use Rattle.std.specs.Fn.{FnReturnsAt};
ghost use Rattle.std.specs.Map.{keys_of};
ghost use Rattle.half_store.specs.Search.{CallableOnKeys, StoreSearch, IsStoreSearchCost, found_index};
ghost use Rattle.half_store.specs.Capacity.{buckets_of};
ghost use Rattle.half_store.specs.Work.{looked_more};
ghost use Rattle.half_store.specs.Reach.{reach};
ghost use Rattle.half_store.specs.Store.{IsPlaced, IsVacancy};

use super::Store;
use crate::vecmap::search::{Scan, first_match};
use crate::{Tally, uncounted};

/// Where a pair is held: at this index of the columns, and in a table in this bucket. A vector does not look at the bucket.
#[derive(Clone, Copy)]
pub struct Found {
    /// The index.
    pub index: usize,
    /// The bucket.
    pub bucket: usize,
}

/// Where a pair may be added: at the end of the columns, and in a table under this hash in this bucket, which is empty. A
/// vector looks at neither.
#[derive(Clone, Copy)]
pub struct Vacancy {
    /// The hash of the pair's key.
    pub hash: u64,
    /// The bucket.
    pub bucket: usize,
}

impl<K, V> Store<K, V> {
    /// Searches for a key that `matches` accepts: in a vector for the first, in a table among the keys of this hash.
    #[inline(always)]
    pub fn find<F: Fn(&K) -> bool>(
        &self,
        hash: u64,
        matches: &F,
        scan: Scan,
        tally: &mut Tally,
    ) -> Result<Found, Vacancy>
        requires { CallableOnKeys (F.pre matches.now) (keys_of self.now.pairs) }
        ensures found { StoreSearch (FnReturnsAt F.Fn matches.now) self.now hash result }
        ensures cost { IsStoreSearchCost self.now hash scan (found_index result) tally.old tally.new }
    {
        // This test comes before the keys are read, so that LLVM can join it to the one before the hash.
        let Some(table) = &self.table else {
            return match first_match(self.columns.keys(), matches, scan, tally) {
                Some(index) => Ok(Found { index, bucket: 0 }),
                None => Err(Vacancy { hash, bucket: 0 }),
            };
        };
        match table.find(self.columns.keys(), hash, matches, tally) {
            Ok((index, bucket)) => Ok(Found { index, bucket }),
            Err(bucket) => Err(Vacancy { hash, bucket }),
        }
    }

    /// Where a pair of this hash may be added. In a table its bucket is probed for.
    #[inline(always)]
    pub fn vacancy_for(&self, hash: u64, tally: &mut Tally) -> Vacancy
        requires { length self.now.pairs < self.now.capacity }
        ensures hash { result.hash ≡ hash }
        ensures vacant { IsVacancy self.now hash result }
        ensures cost { tally.new ≡ looked_more (if self.now.is_vec then 0
            else reach self.now.table.hashes (buckets_of self.now.capacity) hash) tally.old }
    {
        let bucket = match &self.table {
            Some(table) => table.insertion_probe(hash, tally),
            None => 0,
        };
        Vacancy { hash, bucket }
    }
    /// Where the pair at this index is held. In a table its bucket is probed for, by the stored hash.
    #[inline(always)]
    pub fn place_of(&self, index: usize) -> Found
        requires { index < length self.now.pairs }
        ensures index { result.index ≡ index }
        ensures placed { IsPlaced self.now result }
    {
        let bucket = match &self.table {
            Some(table) => uncounted!(table.bucket_of(index)),
            None => 0,
        };
        Found { index, bucket }
    }
}
