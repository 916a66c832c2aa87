//! The search for a key, or by a match on keys: in a vector among all keys, in a table among the keys of one hash.
ghost use Rattle.std.specs.Prelude.{◌≡◌, ◌+◌, true, false, length};
ghost use Rattle.std.specs.Fn.{FnReturnsAt};
ghost use Rattle.std.specs.Map.{keys_of};
ghost use Rattle.half_store.specs.Search.{CallableOnKeys, found_index};
ghost use Rattle.half_store.specs.Work.{asked_more, first_match_cost};
ghost use Rattle.halfbrown.specs.Costs.{IsLookupCost, IsLookupCostByHash, IsSearchCost, search_asked};
ghost use Rattle.halfbrown.specs.Lookup.{KeySearch, MatchSearch};
ghost use Rattle.halfbrown.specs.State.{IsValid};

use super::LimitedHashMap;
use crate::{Equivalent, KeyHasher, Limit};
use half_store::{Found, Scan, Tally, Vacancy};
use std::hash::Hash;

impl<K: Eq + Hash, V, S: KeyHasher<K>, L: Limit> LimitedHashMap<K, V, S, L> {
    /// Searches for a key: in a vector among all keys, in a table among the keys of its hash.
    #[inline(always)]
    pub(crate) fn find<Q: Equivalent<K>>(&self, key: Q, tally: &mut Tally) -> Result<Found, Vacancy>
        ensures found { KeySearch (Q.equivalent key)
            (S.hash_writes self.now.builder (Q.hash_input key)) self.now result }
        ensures cost { IsLookupCost S.KeyHasher Q.hash_input Q.equivalent key self.now
            tally.old tally.new }
        ensures valid { IsValid L.LIMIT K.eq self.now }
    {
        let hash = self.hash_in_table(&key, tally);
        self.find_hashed(hash, key, Scan::ByBlock, tally)
    }

    /// `find`, under a hash that is known. A vector does not look at it.
    #[inline(always)]
    pub(crate) fn find_hashed<Q: Equivalent<K>>(
        &self,
        hash: u64,
        key: Q,
        scan: Scan,
        tally: &mut Tally,
    ) -> Result<Found, Vacancy>
        requires known { self.now.is_vec ≡ false
            → hash ≡ S.hash_writes self.now.builder (Q.hash_input key) }
        ensures found { KeySearch (Q.equivalent key)
            (S.hash_writes self.now.builder (Q.hash_input key)) self.now result }
        ensures cost { IsLookupCostByHash S.KeyHasher Q.hash_input Q.equivalent key self.now
            tally.old tally.new }
        ensures valid { IsValid L.LIMIT K.eq self.now }
    {
        let matches = move |held: &K| -> bool
            ensures { result ≡ Q.equivalent key held.now }
        { key.equivalent(held) };
        self.store.find(hash, &matches, scan, tally)
    }

    /// Searches for a key that `matches` accepts: in a vector for the first, in a table among the keys of this hash.
    #[inline(always)]
    pub(crate) fn find_match<F: Fn(&K) -> bool>(
        &self,
        hash: u64,
        matches: &F,
        tally: &mut Tally,
    ) -> Result<Found, Vacancy>
        requires { CallableOnKeys (F.pre matches.now) (keys_of self.now.pairs) }
        ensures found { MatchSearch (FnReturnsAt F.Fn matches.now) S.hash hash self.now result }
        ensures cost { IsSearchCost S.hash hash self.now (found_index result) 0 tally.old tally.new }
        ensures in_order { self.now.is_vec ≡ true → tally.new.compared
            ≡ tally.old.compared + first_match_cost (found_index result) (length self.now.pairs) }
        ensures valid { IsValid L.LIMIT K.eq self.now }
    {
        self.store.find(hash, matches, Scan::ByKey, tally)
    }

    /// The hash of a key in a table. In a vector nothing is hashed, and it is 0.
    #[inline(always)]
    pub(crate) fn hash_in_table<Q: Hash>(&self, key: &Q, tally: &mut Tally) -> u64
        ensures hash { self.now.is_vec ≡ false
            → result ≡ S.hash_writes self.now.builder (Q.hash_input key.now) }
        ensures work { tally.new ≡ asked_more (search_asked self.now.is_vec) tally.old }
    {
        if self.store.is_vec() {
            return 0;
        }
        self.builder.hash_key(key, tally)
    }
}
