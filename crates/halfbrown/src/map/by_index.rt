//! Pairs by their index in the order of the pairs: read, written, found by a key, and removed.
//!
//! A clause `writes_back` says what the map is once the borrow that the call returns has ended.
ghost use Rattle.std.specs.Prelude.{◌≡◌, ◌-◌, ◌<◌, ◌↔◌, ◌++◌, IsSome, length, option_to_list, slice_get, take};
ghost use Rattle.std.specs.Borrow.{sem};
ghost use Rattle.std.specs.Map.{keys_of, values_of};
ghost use Rattle.std.specs.Map.Iter.{deref_pair};
ghost use Rattle.std.specs.Option.{option_copied_mut, option_map};
ghost use Rattle.half_store.specs.PairLists.{index_of};
ghost use Rattle.halfbrown.specs.Costs.{IsLookupCost};
ghost use Rattle.halfbrown.specs.Lookup.{FindsIndex};
ghost use Rattle.halfbrown.specs.Updates.{SwapRemovesAt};
ghost use Rattle.halfbrown.specs.State.{IsValid, WithPairs};

use super::LimitedHashMap;
use crate::{Equivalent, KeyHasher, Limit};
use half_store::{Tally, uncounted};
use std::hash::Hash;

impl<K: Eq + Hash, V, S: KeyHasher<K>, L: Limit> LimitedHashMap<K, V, S, L> {
    ghost use Rattle.halfbrown.specs.Lending.{LendsValueIfWithin};

    /// Returns the pair at this index in the order of the pairs, or none if the index is not below `len`. Nothing is
    /// hashed or compared.
    ///
    /// ```
    /// assert_eq!(rt; ages.get_index(1), Some((&2, &41)));
    /// assert_eq!(rt; ages.get_index(2), None);
    /// ```
    #[inline(always)]
    pub fn get_index(&self, index: usize) -> Option<(&K, &V)>
        ensures pair { option_map deref_pair result ≡ slice_get self.now.pairs index }
        ensures held { IsSome result ↔ (index < length self.now.pairs) }
    {
        if index < self.len() {
            Some(self.pair_at(index))
        } else {
            None
        }
    }

    /// Returns the value of the pair at this index, to be written, or none if the index is not below `len`. Nothing
    /// is hashed or compared.
    ///
    /// ```
    /// if let Some(age) = ages.get_index_mut(1) {
    ///     *age = 42;
    /// }
    /// assert_eq!(rt; ages.get(&2), Some(&42));
    /// ```
    #[inline(always)]
    pub fn get_index_mut(&mut self, index: usize) -> Option<&mut V>
        ensures* writes_back { sem 𝓛 (LendsValueIfWithin K.row V.row S.row L.row S.Hasher.row K.Hash
            S.KeyHasher L.Limit self.entry index result) }
        ensures value { option_copied_mut result ≡ slice_get (values_of self.old.pairs) index }
        ensures held { IsSome result ↔ (index < length self.old.pairs) }
        ensures valid { IsValid L.LIMIT K.eq self.old }
    {
        if index < self.len() {
            Some(self.pair_at_mut(index).1)
        } else {
            None
        }
    }

    /// Returns the first pair, or none if the map is empty. Nothing is hashed or compared.
    ///
    /// ```
    /// assert_eq!(rt; ages.first(), Some((&1, &36)));
    /// ```
    #[inline(always)]
    pub fn first(&self) -> Option<(&K, &V)>
        ensures pair { option_map deref_pair result ≡ slice_get self.now.pairs 0 }
        ensures held { IsSome result ↔ (0 < length self.now.pairs) }
    {
        self.get_index(0)
    }

    /// Returns the last pair, or none if the map is empty. Nothing is hashed or compared.
    ///
    /// ```
    /// assert_eq!(rt; ages.last(), Some((&2, &41)));
    /// ```
    #[inline(always)]
    pub fn last(&self) -> Option<(&K, &V)>
        ensures pair { option_map deref_pair result
            ≡ slice_get self.now.pairs (length self.now.pairs - 1) }
        ensures held { IsSome result ↔ (0 < length self.now.pairs) }
    {
        self.get_index(self.len().saturating_sub(1))
    }

    /// Returns the value of the first pair, to be written, or none if the map is empty. Nothing is hashed or compared.
    ///
    /// ```
    /// if let Some(age) = ages.first_mut() {
    ///     *age = 37;
    /// }
    /// assert_eq!(rt; ages.get(&1), Some(&37));
    /// ```
    #[inline(always)]
    pub fn first_mut(&mut self) -> Option<&mut V>
        ensures* writes_back { sem 𝓛 (LendsValueIfWithin K.row V.row S.row L.row S.Hasher.row K.Hash
            S.KeyHasher L.Limit self.entry 0 result) }
        ensures value { option_copied_mut result ≡ slice_get (values_of self.old.pairs) 0 }
        ensures held { IsSome result ↔ (0 < length self.old.pairs) }
        ensures valid { IsValid L.LIMIT K.eq self.old }
    {
        self.get_index_mut(0)
    }

    /// Returns the value of the last pair, to be written, or none if the map is empty. Nothing is hashed or compared.
    ///
    /// ```
    /// if let Some(age) = ages.last_mut() {
    ///     *age = 42;
    /// }
    /// assert_eq!(rt; ages.get(&2), Some(&42));
    /// ```
    #[inline(always)]
    pub fn last_mut(&mut self) -> Option<&mut V>
        ensures* writes_back { sem 𝓛 (LendsValueIfWithin K.row V.row S.row L.row S.Hasher.row K.Hash
            S.KeyHasher L.Limit self.entry (length self.old.pairs - 1) result) }
        ensures value { option_copied_mut result
            ≡ slice_get (values_of self.old.pairs) (length self.old.pairs - 1) }
        ensures held { IsSome result ↔ (0 < length self.old.pairs) }
        ensures valid { IsValid L.LIMIT K.eq self.old }
    {
        let index = self.len().saturating_sub(1);
        self.get_index_mut(index)
    }

    /// Returns the index of the pair whose key equals this one, or none if no such key is held. It costs one search.
    ///
    /// ```
    /// assert_eq!(rt; ages.get_index_of(&2), Some(1));
    /// ```
    #[inline(always)]
    pub fn get_index_of<Q: Equivalent<K>>(&self, key: Q) -> Option<usize>
        ensures index { result ≡ index_of (Q.equivalent key) (keys_of self.now.pairs) }
        ensures found { FindsIndex (Q.equivalent key) self.now.pairs result }
    {
        uncounted!(self.get_index_of_counted(key))
    }

    /// `get_index_of`, with its work counted: that of one search.
    #[inline(always)]
    pub fn get_index_of_counted<Q: Equivalent<K>>(&self, key: Q, tally: &mut Tally) -> Option<usize>
        ensures index { result ≡ index_of (Q.equivalent key) (keys_of self.now.pairs) }
        ensures found { FindsIndex (Q.equivalent key) self.now.pairs result }
        ensures cost { IsLookupCost S.KeyHasher Q.hash_input Q.equivalent key self.now
            tally.old tally.new }
        ensures valid { IsValid L.LIMIT K.eq self.now }
    {
        match self.find(key, tally) {
            Ok(found) => Some(found.index),
            Err(_) => None,
        }
    }

    /// Removes the pair at this index, and returns it. The last pair takes its index. If the index is not below
    /// `len`, nothing changes. The form and the capacity stay. Nothing is hashed or compared, and no memory is needed. In a
    /// table the bucket of the pair is probed for, and that of the last pair if it is another.
    ///
    /// ```
    /// assert_eq!(rt; ages.swap_remove_index(0), Some((1, 36)));
    /// assert_eq!(rt; ages.get_index_of(&2), Some(0));
    /// ```
    #[inline]
    pub fn swap_remove_index(&mut self, index: usize) -> Option<(K, V)>
        ensures { SwapRemovesAt L.LIMIT K.eq self.old index result self.new }
    {
        if index < self.len() {
            let found = self.place_of(index);
            Some(self.take_at(found))
        } else {
            None
        }
    }

    /// Removes the last pair, and returns it, or none if the map is empty. The form and the capacity stay. Nothing
    /// is hashed or compared, and no memory is needed. In a table the bucket of the pair is probed for.
    ///
    /// ```
    /// assert_eq!(rt; ages.pop(), Some((2, 41)));
    /// ```
    #[inline]
    pub fn pop(&mut self) -> Option<(K, V)>
        ensures pairs { self.old.pairs ≡ self.new.pairs ++ option_to_list result }
        ensures removes { SwapRemovesAt L.LIMIT K.eq self.old (length self.old.pairs - 1)
            result self.new }
    {
        self.swap_remove_index(self.len().saturating_sub(1))
    }

    /// Keeps the first `len` pairs, and removes the others, the last one first. If no more are held, nothing changes. The
    /// form and the capacity stay. Nothing is hashed or compared, and no memory is needed. In a table the bucket of each
    /// removed pair is probed for.
    ///
    /// ```
    /// ages.truncate(1);
    /// assert_eq!(rt; ages.last(), Some((&1, &36)));
    /// ```
    pub fn truncate(&mut self, len: usize)
    where
        K: Drop,
        V: Drop,
        ensures after { WithPairs self.old (take len self.old.pairs) self.new }
        ensures valid { IsValid L.LIMIT K.eq self.new }
    {
        while len < self.len() {
            self.pop();
        }
    }
}
