//! Look-ups by key.
//!
//! A clause `writes_back` says what the map is once the borrow that the call returns has ended. What stands between its
//! first word and `self.entry` names types, and can be passed over; `self.entry` is the map when the call began.
ghost use Rattle.std.specs.Prelude.{◌≡◌, IsTrue, Some, OnSome};
ghost use Rattle.std.specs.Borrow.{sem};
ghost use Rattle.std.specs.Map.{lookup, lookup_entry};
ghost use Rattle.std.specs.Map.Iter.{deref_pair};
ghost use Rattle.std.specs.Option.{option_copied, option_copied_mut, option_map};
ghost use Rattle.halfbrown.specs.Costs.{IsLookupCost};
ghost use Rattle.halfbrown.specs.Pairs.{holds_by, set_value};
ghost use Rattle.halfbrown.specs.State.{IsValid};
ghost use Rattle.halfbrown.specs.Updates.{HasSetBy};

use super::LimitedHashMap;
use crate::{Equivalent, KeyHasher, Limit};
use half_store::{Tally, uncounted};
use std::hash::Hash;
use std::ops::Index;

impl<K: Eq + Hash, V, S: KeyHasher<K>, L: Limit> LimitedHashMap<K, V, S, L> {
    ghost use Rattle.halfbrown.specs.Lending.{LendsValueIfHeld};

    /// Returns the value of the held key that equals this one, or `None`. It costs one search.
    ///
    /// ```
    /// assert_eq!(rt; ages.get(&1), Some(&36));
    /// assert_eq!(rt; ages.get(&3), None);
    /// ```
    #[inline(always)]
    pub fn get<Q: Equivalent<K>>(&self, key: Q) -> Option<&V>
        ensures { option_copied result ≡ lookup (Q.equivalent key) self.now.pairs }
    {
        uncounted!(self.get_counted(key))
    }

    /// `get`, with its work counted: one hash in a table and none in a vector, and in a table no key of another hash is
    /// compared.
    #[inline(always)]
    pub fn get_counted<Q: Equivalent<K>>(&self, key: Q, tally: &mut Tally) -> Option<&V>
        ensures value { option_copied result ≡ lookup (Q.equivalent key) self.now.pairs }
        ensures cost { IsLookupCost S.KeyHasher Q.hash_input Q.equivalent key self.now
            tally.old tally.new }
        ensures valid { IsValid L.LIMIT K.eq self.now }
    {
        match self.find(key, tally) {
            Ok(found) => Some(self.pair_at(found.index).1),
            Err(_) => None,
        }
    }

    /// Returns the stored key that equals this one, and its value. It costs one search.
    ///
    /// ```
    /// assert_eq!(rt; ages.get_key_value(&1), Some((&1, &36)));
    /// ```
    #[inline(always)]
    pub fn get_key_value<Q: Equivalent<K>>(&self, key: Q) -> Option<(&K, &V)>
        ensures { option_map deref_pair result ≡ lookup_entry (Q.equivalent key) self.now.pairs }
    {
        uncounted!(self.get_key_value_counted(key))
    }

    /// `get_key_value`, with its work counted: that of one search.
    #[inline(always)]
    pub fn get_key_value_counted<Q: Equivalent<K>>(
        &self,
        key: Q,
        tally: &mut Tally,
    ) -> Option<(&K, &V)>
        ensures pair { option_map deref_pair result
            ≡ lookup_entry (Q.equivalent key) self.now.pairs }
        ensures cost { IsLookupCost S.KeyHasher Q.hash_input Q.equivalent key self.now
            tally.old tally.new }
        ensures valid { IsValid L.LIMIT K.eq self.now }
    {
        match self.find(key, tally) {
            Ok(found) => Some(self.pair_at(found.index)),
            Err(_) => None,
        }
    }

    /// Returns the value of the held key that equals this one, to be written, or `None`. It costs one search.
    ///
    /// ```
    /// if let Some(age) = ages.get_mut(&1) {
    ///     *age = 37;
    /// }
    /// assert_eq!(rt; ages.get(&1), Some(&37));
    /// ```
    #[inline(always)]
    pub fn get_mut<Q: Equivalent<K>>(&mut self, key: Q) -> Option<&mut V>
        ensures* writes_back { sem 𝓛 (LendsValueIfHeld K.row V.row S.row L.row S.Hasher.row K.Hash
            S.KeyHasher L.Limit self.entry (Q.equivalent key) result) }
        ensures value { option_copied_mut result ≡ lookup (Q.equivalent key) self.old.pairs }
        ensures once_written { OnSome result ((last : V) → HasSetBy K.eq (Q.equivalent key)
            self.old.pairs last (set_value (Q.equivalent key) self.old.pairs last)) }
    {
        uncounted!(self.get_mut_counted(key))
    }

    /// `get_mut`, with its work counted: that of one search.
    #[inline(always)]
    pub fn get_mut_counted<Q: Equivalent<K>>(&mut self, key: Q, tally: &mut Tally) -> Option<&mut V>
        ensures* writes_back { sem 𝓛 (LendsValueIfHeld K.row V.row S.row L.row S.Hasher.row K.Hash
            S.KeyHasher L.Limit self.entry (Q.equivalent key) result) }
        ensures value { option_copied_mut result ≡ lookup (Q.equivalent key) self.old.pairs }
        ensures once_written { OnSome result ((last : V) → HasSetBy K.eq (Q.equivalent key)
            self.old.pairs last (set_value (Q.equivalent key) self.old.pairs last)) }
        ensures cost { IsLookupCost S.KeyHasher Q.hash_input Q.equivalent key self.old
            tally.old tally.new }
        ensures valid { IsValid L.LIMIT K.eq self.old }
    {
        match self.find(key, tally) {
            Ok(found) => Some(self.pair_at_mut(found.index).1),
            Err(_) => None,
        }
    }

    /// Returns whether a key equal to this one is held. It costs one search.
    ///
    /// ```
    /// assert!(rt; ages.contains_key(&1));
    /// assert!(rt; !ages.contains_key(&3));
    /// ```
    #[inline(always)]
    pub fn contains_key<Q: Equivalent<K>>(&self, key: Q) -> bool
        ensures { result ≡ holds_by (Q.equivalent key) self.now.pairs }
    {
        uncounted!(self.contains_key_counted(key))
    }

    /// `contains_key`, with its work counted: that of one search.
    #[inline(always)]
    pub fn contains_key_counted<Q: Equivalent<K>>(&self, key: Q, tally: &mut Tally) -> bool
        ensures held { result ≡ holds_by (Q.equivalent key) self.now.pairs }
        ensures cost { IsLookupCost S.KeyHasher Q.hash_input Q.equivalent key self.now
            tally.old tally.new }
        ensures valid { IsValid L.LIMIT K.eq self.now }
    {
        self.find(key, tally).is_ok()
    }

    /// `map[key]`, with its work counted: that of one search. A key equal to this one must be held.
    #[inline(always)]
    pub fn index_counted<Q: Equivalent<K>>(&self, key: Q, tally: &mut Tally) -> &V
        requires { IsTrue (holds_by (Q.equivalent key) self.now.pairs) }
        ensures value { lookup (Q.equivalent key) self.now.pairs ≡ Some result.now }
        ensures cost { IsLookupCost S.KeyHasher Q.hash_input Q.equivalent key self.now
            tally.old tally.new }
    {
        match self.get_counted(key, tally) {
            Some(value) => value,
            None => unreachable!(),
        }
    }
}

impl<K: Eq + Hash, V, S: KeyHasher<K>, L: Limit, Q: Equivalent<K>> Index<Q>
    for LimitedHashMap<K, V, S, L> {
    type Output = V;

    ghost can_index = { λ m key. IsTrue (holds_by (Q.equivalent key) m.pairs) };

    ghost index_gives = { λ m key v. lookup (Q.equivalent key) m.pairs ≡ Some v };

    /// Returns the value of the held key that equals this one. A key that equals it must be held. It costs one search.
    ///
    /// ```
    /// let age = if ages.contains_key(&1) { ages[&1] } else { 0 };
    /// assert_eq!(rt; age, 36);
    /// ```
    #[inline(always)]
    fn index(&self, key: Q) -> &V {
        uncounted!(self.index_counted(key))
    }
}
