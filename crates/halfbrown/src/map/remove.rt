//! Removal: the last pair takes the index that becomes free, or all other pairs keep their order.
ghost use Rattle.std.specs.Prelude.{◌≡◌, false};
ghost use Rattle.std.specs.Map.{lookup, lookup_entry};
ghost use Rattle.std.specs.Option.{option_map};
ghost use Rattle.halfbrown.specs.Costs.{IsLookupCost, IsLookupCostByHash};
ghost use Rattle.halfbrown.specs.Updates.{SwapRemoves, ShiftRemoves, ShiftRemovesAt};

use super::LimitedHashMap;
use crate::{Equivalent, KeyHasher, Limit};
use half_store::{Scan, Tally, uncounted};
use std::hash::Hash;

impl<K: Eq + Hash, V, S: KeyHasher<K>, L: Limit> LimitedHashMap<K, V, S, L> {
    /// Removes the pair of the held key that equals this one, and returns its value, or `None` if there is none. The
    /// last pair takes its index. Form, capacity and builder stay. It costs one search.
    ///
    /// ```
    /// assert_eq!(rt; ages.remove(&1), Some(36));
    /// assert_eq!(rt; ages.remove(&1), None);
    /// ```
    #[inline(always)]
    pub fn remove<Q: Equivalent<K>>(&mut self, key: Q) -> Option<V>
    where
        K: Drop,
        ensures { SwapRemoves L.LIMIT K.eq (Q.equivalent key) self.old
            (lookup (Q.equivalent key) self.old.pairs) result self.new }
    {
        uncounted!(self.remove_counted(key))
    }

    /// `remove`, with its work counted: that of one search.
    #[inline(always)]
    pub fn remove_counted<Q: Equivalent<K>>(&mut self, key: Q, tally: &mut Tally) -> Option<V>
    where
        K: Drop,
        ensures removes { SwapRemoves L.LIMIT K.eq (Q.equivalent key) self.old
            (lookup (Q.equivalent key) self.old.pairs) result self.new }
        ensures cost { IsLookupCost S.KeyHasher Q.hash_input Q.equivalent key self.old
            tally.old tally.new }
    {
        let hash = self.hash_in_table(&key, tally);
        match self.find_hashed(hash, key, Scan::ByKey, tally) {
            Ok(found) => Some(self.take_at(found).1),
            Err(_) => None,
        }
    }

    /// Removes the pair of the held key that equals this one, and returns the stored key and its value. The last pair takes
    /// its index. It costs one search.
    ///
    /// ```
    /// assert_eq!(rt; ages.remove_entry(&1), Some((1, 36)));
    /// ```
    #[inline(always)]
    pub fn remove_entry<Q: Equivalent<K>>(&mut self, key: Q) -> Option<(K, V)>
        ensures { SwapRemoves L.LIMIT K.eq (Q.equivalent key) self.old
            (lookup_entry (Q.equivalent key) self.old.pairs) result self.new }
    {
        uncounted!(self.remove_entry_counted(key))
    }

    /// `remove_entry`, with its work counted: that of one search.
    #[inline(always)]
    pub fn remove_entry_counted<Q: Equivalent<K>>(
        &mut self,
        key: Q,
        tally: &mut Tally,
    ) -> Option<(K, V)>
        ensures removes { SwapRemoves L.LIMIT K.eq (Q.equivalent key) self.old
            (lookup_entry (Q.equivalent key) self.old.pairs) result self.new }
        ensures cost { IsLookupCost S.KeyHasher Q.hash_input Q.equivalent key self.old
            tally.old tally.new }
    {
        let hash = self.hash_in_table(&key, tally);
        self.remove_entry_hashed_nocheck_counted(hash, key, tally)
    }

    /// `remove_entry` by a hash that is known, which must be the builder's hash of the key. Nothing is hashed. It needs
    /// no memory, while `raw_entry_mut` may need some.
    ///
    /// ```
    /// let hash = ages.hasher().hash_one(&1u64);
    /// assert_eq!(rt; ages.remove_entry_hashed_nocheck(hash, &1), Some((1, 36)));
    /// ```
    #[inline(always)]
    pub fn remove_entry_hashed_nocheck<Q: Equivalent<K>>(
        &mut self,
        hash: u64,
        key: Q,
    ) -> Option<(K, V)>
        requires { hash ≡ S.hash_writes self.old.builder (Q.hash_input key) }
        ensures removes { SwapRemoves L.LIMIT K.eq (Q.equivalent key) self.old
            (lookup_entry (Q.equivalent key) self.old.pairs) result self.new }
        ensures value { option_map (λ pair. pair.1) result
            ≡ lookup (Q.equivalent key) self.old.pairs }
    {
        uncounted!(self.remove_entry_hashed_nocheck_counted(hash, key))
    }

    /// `remove_entry_hashed_nocheck`, with its work counted: that of one search, with no hash. A vector does not look at the
    /// hash.
    #[inline(always)]
    pub fn remove_entry_hashed_nocheck_counted<Q: Equivalent<K>>(
        &mut self,
        hash: u64,
        key: Q,
        tally: &mut Tally,
    ) -> Option<(K, V)>
        requires { self.old.is_vec ≡ false
            → hash ≡ S.hash_writes self.old.builder (Q.hash_input key) }
        ensures removes { SwapRemoves L.LIMIT K.eq (Q.equivalent key) self.old
            (lookup_entry (Q.equivalent key) self.old.pairs) result self.new }
        ensures value { option_map (λ pair. pair.1) result
            ≡ lookup (Q.equivalent key) self.old.pairs }
        ensures cost { IsLookupCostByHash S.KeyHasher Q.hash_input Q.equivalent key self.old
            tally.old tally.new }
    {
        match self.find_hashed(hash, key, Scan::ByKey, tally) {
            Ok(found) => Some(self.take_at(found)),
            Err(_) => None,
        }
    }

    /// Removes the pair of the held key that equals this one, and returns its value. Each pair behind it gets the index
    /// before its own. If no such key is held, nothing changes. The form and the capacity stay, and no memory is needed.
    ///
    /// It costs one search. Then the pairs behind it move, which takes time that grows with their number, and a table goes
    /// over all of its buckets, which takes time that grows with the capacity. `remove` takes the time of a search.
    ///
    /// ```
    /// assert_eq!(rt; ages.shift_remove(&1), Some(36));
    /// assert_eq!(rt; ages.shift_remove(&1), None);
    /// ```
    #[inline]
    pub fn shift_remove<Q: Equivalent<K>>(&mut self, key: Q) -> Option<V>
    where
        K: Drop,
        ensures { ShiftRemoves L.LIMIT K.eq (Q.equivalent key) self.old
            (lookup (Q.equivalent key) self.old.pairs) result self.new }
    {
        uncounted!(self.shift_remove_counted(key))
    }

    /// `shift_remove`, with the work of its search counted.
    #[inline]
    pub fn shift_remove_counted<Q: Equivalent<K>>(&mut self, key: Q, tally: &mut Tally) -> Option<V>
    where
        K: Drop,
        ensures removes { ShiftRemoves L.LIMIT K.eq (Q.equivalent key) self.old
            (lookup (Q.equivalent key) self.old.pairs) result self.new }
        ensures cost { IsLookupCost S.KeyHasher Q.hash_input Q.equivalent key self.old
            tally.old tally.new }
    {
        let (_, value) = self.shift_remove_entry_counted(key, tally)?;
        Some(value)
    }

    /// Removes the pair of the held key that equals this one, as `shift_remove` does, and returns the stored key and its
    /// value.
    ///
    /// ```
    /// assert_eq!(rt; ages.shift_remove_entry(&1), Some((1, 36)));
    /// ```
    #[inline]
    pub fn shift_remove_entry<Q: Equivalent<K>>(&mut self, key: Q) -> Option<(K, V)>
        ensures { ShiftRemoves L.LIMIT K.eq (Q.equivalent key) self.old
            (lookup_entry (Q.equivalent key) self.old.pairs) result self.new }
    {
        uncounted!(self.shift_remove_entry_counted(key))
    }

    /// `shift_remove_entry`, with the work of its search counted.
    #[inline]
    pub fn shift_remove_entry_counted<Q: Equivalent<K>>(
        &mut self,
        key: Q,
        tally: &mut Tally,
    ) -> Option<(K, V)>
        ensures removes { ShiftRemoves L.LIMIT K.eq (Q.equivalent key) self.old
            (lookup_entry (Q.equivalent key) self.old.pairs) result self.new }
        ensures cost { IsLookupCost S.KeyHasher Q.hash_input Q.equivalent key self.old
            tally.old tally.new }
    {
        match self.find(key, tally) {
            Ok(found) => Some(self.shift_take_at(found)),
            Err(_) => None,
        }
    }

    /// Removes the pair at this index, and returns it. Each pair behind it gets the index before its own. If the index is
    /// not below `len`, nothing changes. Nothing is hashed or compared, and all else is as for `shift_remove`.
    ///
    /// ```
    /// assert_eq!(rt; ages.shift_remove_index(0), Some((1, 36)));
    /// assert_eq!(rt; ages.get_index_of(&2), Some(0));
    /// ```
    #[inline]
    pub fn shift_remove_index(&mut self, index: usize) -> Option<(K, V)>
        ensures { ShiftRemovesAt L.LIMIT K.eq self.old index result self.new }
    {
        if index < self.len() {
            let found = self.place_of(index);
            Some(self.shift_take_at(found))
        } else {
            None
        }
    }
}
