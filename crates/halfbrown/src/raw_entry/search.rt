//! What raw entries are made from, and the searches of it.
//!
//! A clause `unchanged` says that the map stays as it is if memory is refused.
ghost use Rattle.std.specs.Prelude.{◌≡◌, false, is_ok, if◌then◌else◌};
ghost use Rattle.std.specs.Borrow.{sem};
ghost use Rattle.std.specs.Fn.{FnReturnsAt};
ghost use Rattle.std.specs.Map.{keys_of};
ghost use Rattle.std.specs.Map.Iter.{deref_pair};
ghost use Rattle.std.specs.Option.{option_map};
ghost use Rattle.half_store.specs.Search.{CallableOnKeys};
ghost use Rattle.half_store.specs.Work.{asked_more};
ghost use Rattle.halfbrown.specs.Costs.{IsLookupCost, IsLookupCostByHash, switch_asked};
ghost use Rattle.halfbrown.specs.Lookup.{FindsMatch, IsMatchCost};
ghost use Rattle.halfbrown.specs.Entry.{raw_view};
ghost use Rattle.halfbrown.specs.EntryView.{entry_pair, FindsRawEntry, FindsRawEntryByMatch};
ghost use Rattle.halfbrown.specs.RawEntry.{searched_map, prepared_map, prepared_map_ref, PreparesRawEntries, RestsIfUnprepared, FindsPair};

use super::{Prepared, RawEntryBuilder, RawEntryBuilderMut, RawEntryMut, RawVacantEntryMut};
use crate::{Equivalent, KeyHasher, Limit, LimitedHashMap, OccupiedEntry};
use half_store::{Found, Refusal, Scan, Tally, uncounted};
use std::hash::Hash;

impl<K: Eq + Hash, V, S: KeyHasher<K>, L: Limit> LimitedHashMap<K, V, S, L> {
    /// Returns what looks pairs up by a key, by a key with its hash, or by a hash and a match on keys. It costs nothing.
    ///
    /// ```
    /// assert_eq!(rt; ages.raw_entry().from_key(&2), Some((&2, &41)));
    /// ```
    #[inline(always)]
    pub fn raw_entry(&self) -> RawEntryBuilder<'_, K, V, S, L>
        ensures { searched_map result ≡ self.now }
    {
        RawEntryBuilder { map: self }
    }

    /// Returns what finds a raw entry by a key, by a key with its hash, or by a hash and a match on keys. Through the entry
    /// a pair is read, written, removed or added.
    ///
    /// A full vector becomes a table first, and the capacity is made enough for one more pair, whatever is searched
    /// afterwards. Fails only if more capacity is needed, and then nothing changes. No call on the entry fails.
    ///
    /// ```
    /// let (_, age) = ages.raw_entry_mut()?.from_key(&3).or_insert(3, 5);
    /// assert_eq!(rt; *age, 5);
    /// ```
    #[inline]
    pub fn raw_entry_mut(&mut self) -> Result<RawEntryBuilderMut<'_, K, V, S, L>, Refusal>
        ensures* unchanged { sem 𝓛
            (RestsIfUnprepared K.row V.row S.row L.row S.Hasher.row self.entry result) }
        ensures makes { PreparesRawEntries L.LIMIT K.eq self.entry result }
    {
        uncounted!(self.raw_entry_mut_counted())
    }

    /// `raw_entry_mut`, with its work counted: one hash for each pair at a switch, and nothing else.
    #[inline]
    pub fn raw_entry_mut_counted(
        &mut self,
        tally: &mut Tally,
    ) -> Result<RawEntryBuilderMut<'_, K, V, S, L>, Refusal>
        ensures* unchanged { sem 𝓛
            (RestsIfUnprepared K.row V.row S.row L.row S.Hasher.row self.entry result) }
        ensures makes { PreparesRawEntries L.LIMIT K.eq self.entry result }
        ensures cost { tally.new ≡ (if is_ok result
            then asked_more (switch_asked L.LIMIT self.old) tally.old else tally.old) }
    {
        self.switch_if_full(tally)?;
        self.reserve_one()?;
        Ok(RawEntryBuilderMut::Prepared(Prepared { map: self }))
    }
}

impl<'a, K: Eq + Hash, V, S: KeyHasher<K>, L: Limit> RawEntryBuilder<'a, K, V, S, L> {
    /// Returns the stored key that equals this one, and its value. It costs one search.
    ///
    /// ```
    /// assert_eq!(rt; ages.raw_entry().from_key(&1), Some((&1, &36)));
    /// ```
    #[inline(always)]
    pub fn from_key<Q: Equivalent<K>>(self, key: Q) -> Option<(&'a K, &'a V)>
        ensures { FindsPair (Q.equivalent key) (searched_map self.entry) result }
    {
        uncounted!(self.from_key_counted(key))
    }

    /// `from_key`, with its work counted: that of one search.
    #[inline(always)]
    pub fn from_key_counted<Q: Equivalent<K>>(
        self,
        key: Q,
        tally: &mut Tally,
    ) -> Option<(&'a K, &'a V)>
        ensures reads { FindsPair (Q.equivalent key) (searched_map self.entry) result }
        ensures cost { IsLookupCost S.KeyHasher Q.hash_input Q.equivalent key (searched_map self.entry)
            tally.old tally.new }
    {
        let hash = self.map.hash_in_table(&key, tally);
        self.from_key_hashed_nocheck_counted(hash, key, tally)
    }

    /// `from_key` by a hash that is known, which must be the builder's hash of the key. Nothing is hashed.
    ///
    /// ```
    /// let hash = ages.hasher().hash_one(&1u64);
    /// assert_eq!(rt; ages.raw_entry().from_key_hashed_nocheck(hash, &1), Some((&1, &36)));
    /// ```
    #[inline(always)]
    pub fn from_key_hashed_nocheck<Q: Equivalent<K>>(
        self,
        hash: u64,
        key: Q,
    ) -> Option<(&'a K, &'a V)>
        requires { hash ≡ S.hash_writes (searched_map self).builder (Q.hash_input key) }
        ensures { FindsPair (Q.equivalent key) (searched_map self.entry) result }
    {
        uncounted!(self.from_key_hashed_nocheck_counted(hash, key))
    }

    /// `from_key_hashed_nocheck`, with its work counted: that of one search, with no hash. A vector does not look at the
    /// hash.
    #[inline(always)]
    pub fn from_key_hashed_nocheck_counted<Q: Equivalent<K>>(
        self,
        hash: u64,
        key: Q,
        tally: &mut Tally,
    ) -> Option<(&'a K, &'a V)>
        requires { (searched_map self).is_vec ≡ false
            → hash ≡ S.hash_writes (searched_map self).builder (Q.hash_input key) }
        ensures reads { FindsPair (Q.equivalent key) (searched_map self.entry) result }
        ensures cost { IsLookupCostByHash S.KeyHasher Q.hash_input Q.equivalent key (searched_map self.entry)
            tally.old tally.new }
    {
        match self.map.find_hashed(hash, key, Scan::ByBlock, tally) {
            Ok(found) => Some(self.map.pair_at(found.index)),
            Err(_) => None,
        }
    }

    /// Returns a pair whose key `is_match` accepts, or none exactly if there is no such pair. In a vector it is the first
    /// such pair, whatever the hash. In a table it is one among those of this hash. Any hash may be given.
    ///
    /// `is_match` is called only with held keys, and in a table only with those of this hash.
    ///
    /// ```
    /// let hash = ages.hasher().hash_one(&1u64);
    /// assert_eq!(rt; ages.raw_entry().from_hash(hash, |id| *id == 1), Some((&1, &36)));
    /// ```
    #[inline(always)]
    pub fn from_hash<F: Fn(&K) -> bool>(self, hash: u64, is_match: F) -> Option<(&'a K, &'a V)>
        requires { CallableOnKeys (F.pre is_match) (keys_of (searched_map self).pairs) }
        ensures { FindsMatch (FnReturnsAt F.Fn is_match) S.hash hash (searched_map self.entry)
            (option_map deref_pair result) }
    {
        uncounted!(self.from_hash_counted(hash, is_match))
    }

    /// `from_hash`, with its work counted: that of one search, with no hash.
    #[inline(always)]
    pub fn from_hash_counted<F: Fn(&K) -> bool>(
        self,
        hash: u64,
        is_match: F,
        tally: &mut Tally,
    ) -> Option<(&'a K, &'a V)>
        requires { CallableOnKeys (F.pre is_match) (keys_of (searched_map self).pairs) }
        ensures found { FindsMatch (FnReturnsAt F.Fn is_match) S.hash hash (searched_map self.entry)
            (option_map deref_pair result) }
        ensures cost { IsMatchCost S.hash hash (searched_map self.entry) (option_map deref_pair result)
            tally.old tally.new }
    {
        match self.map.find_match(hash, &is_match, tally) {
            Ok(found) => Some(self.map.pair_at(found.index)),
            Err(_) => None,
        }
    }
}

impl<'a, K: Eq + Hash, V, S: KeyHasher<K>, L: Limit> RawEntryBuilderMut<'a, K, V, S, L> {
    /// Returns the entry of the held key that equals this one, or a vacant entry. It costs one search.
    ///
    /// ```
    /// let age = match ages.raw_entry_mut()?.from_key(&1) {
    ///     RawEntryMut::Occupied(entry) => *entry.into_mut(),
    ///     RawEntryMut::Vacant(_vacant) => 0,
    /// };
    /// assert_eq!(rt; age, 36);
    /// ```
    #[inline]
    pub fn from_key<Q: Equivalent<K>>(self, key: Q) -> RawEntryMut<'a, K, V, S, L>
        ensures { FindsRawEntry L.LIMIT K.eq (Q.equivalent key)
            (prepared_map_ref self.entry) (raw_view result) }
    {
        uncounted!(self.from_key_counted(key))
    }

    /// `from_key`, with its work counted: that of one search.
    #[inline]
    pub fn from_key_counted<Q: Equivalent<K>>(
        self,
        key: Q,
        tally: &mut Tally,
    ) -> RawEntryMut<'a, K, V, S, L>
        ensures searches { FindsRawEntry L.LIMIT K.eq (Q.equivalent key)
            (prepared_map_ref self.entry) (raw_view result) }
        ensures cost { IsLookupCost S.KeyHasher Q.hash_input Q.equivalent key (prepared_map self.entry)
            tally.old tally.new }
    {
        let RawEntryBuilderMut::Prepared(prepared) = self;
        let hash = prepared.map.hash_in_table(&key, tally);
        RawEntryBuilderMut::Prepared(prepared).from_key_hashed_nocheck_counted(hash, key, tally)
    }

    /// `from_key` by a hash that is known, which must be the builder's hash of the key. Nothing is hashed.
    ///
    /// ```
    /// let hash = ages.hasher().hash_one(&1u64);
    /// let entry = ages.raw_entry_mut()?.from_key_hashed_nocheck(hash, &1).insert(1, 37);
    /// assert_eq!(rt; *entry.get(), 37);
    /// ```
    #[inline]
    pub fn from_key_hashed_nocheck<Q: Equivalent<K>>(
        self,
        hash: u64,
        key: Q,
    ) -> RawEntryMut<'a, K, V, S, L>
        requires { hash ≡ S.hash_writes (prepared_map self).builder (Q.hash_input key) }
        ensures { FindsRawEntry L.LIMIT K.eq (Q.equivalent key)
            (prepared_map_ref self.entry) (raw_view result) }
    {
        uncounted!(self.from_key_hashed_nocheck_counted(hash, key))
    }

    /// `from_key_hashed_nocheck`, with its work counted: that of one search, with no hash. A vector does not look at the
    /// hash.
    #[inline]
    pub fn from_key_hashed_nocheck_counted<Q: Equivalent<K>>(
        self,
        hash: u64,
        key: Q,
        tally: &mut Tally,
    ) -> RawEntryMut<'a, K, V, S, L>
        requires { (prepared_map self).is_vec ≡ false
            → hash ≡ S.hash_writes (prepared_map self).builder (Q.hash_input key) }
        ensures searches { FindsRawEntry L.LIMIT K.eq (Q.equivalent key)
            (prepared_map_ref self.entry) (raw_view result) }
        ensures cost { IsLookupCostByHash S.KeyHasher Q.hash_input Q.equivalent key (prepared_map self.entry)
            tally.old tally.new }
    {
        let RawEntryBuilderMut::Prepared(prepared) = self;
        match prepared.map.find_hashed(hash, key, Scan::ByBlock, tally) {
            Ok(Found { index, bucket }) => RawEntryMut::Occupied(OccupiedEntry {
                map: prepared.map,
                index,
                bucket,
            }),
            Err(_) => RawEntryMut::Vacant(RawVacantEntryMut { map: prepared.map }),
        }
    }

    /// Returns the entry of a pair whose key `is_match` accepts, or a vacant entry exactly if there is no such pair. In
    /// a vector it is the first such pair, whatever the hash. In a table it is one among those of this hash. Any hash
    /// may be given.
    ///
    /// `is_match` is called only with held keys, and in a table only with those of this hash.
    ///
    /// ```
    /// let hash = ages.hasher().hash_one(&1u64);
    /// ages.raw_entry_mut()?.from_hash(hash, |id| *id == 1).and_modify(|_, age| *age = 37);
    /// assert_eq!(rt; ages.get(&1), Some(&37));
    /// ```
    #[inline]
    pub fn from_hash<F: Fn(&K) -> bool>(self, hash: u64, is_match: F) -> RawEntryMut<'a, K, V, S, L>
        requires { CallableOnKeys (F.pre is_match) (keys_of (prepared_map self).pairs) }
        ensures { FindsRawEntryByMatch L.LIMIT K.eq (FnReturnsAt F.Fn is_match)
            S.hash hash (prepared_map_ref self.entry) (raw_view result) }
    {
        uncounted!(self.from_hash_counted(hash, is_match))
    }

    /// `from_hash`, with its work counted: that of one search, with no hash.
    #[inline]
    pub fn from_hash_counted<F: Fn(&K) -> bool>(
        self,
        hash: u64,
        is_match: F,
        tally: &mut Tally,
    ) -> RawEntryMut<'a, K, V, S, L>
        requires { CallableOnKeys (F.pre is_match) (keys_of (prepared_map self).pairs) }
        ensures searches { FindsRawEntryByMatch L.LIMIT K.eq (FnReturnsAt F.Fn is_match)
            S.hash hash (prepared_map_ref self.entry) (raw_view result) }
        ensures cost { IsMatchCost S.hash hash (prepared_map self.entry)
            (entry_pair (raw_view result)) tally.old tally.new }
    {
        let RawEntryBuilderMut::Prepared(prepared) = self;
        match prepared.map.find_match(hash, &is_match, tally) {
            Ok(Found { index, bucket }) => RawEntryMut::Occupied(OccupiedEntry {
                map: prepared.map,
                index,
                bucket,
            }),
            Err(_) => RawEntryMut::Vacant(RawVacantEntryMut { map: prepared.map }),
        }
    }
}
