//! Iteration over the pairs, the keys and the values, from first to last.
//!
//! A clause `writes_back` says what the map is once the borrow that the call returns has ended. What stands between its
//! first word and `self.entry` names types, and can be passed over; `self.entry` is the map when the call began.
ghost use Rattle.std.specs.Prelude.{◌≡◌, ◌^◌, ◌<◌, length};
ghost use Rattle.std.specs.Borrow.{sem};
ghost use Rattle.std.specs.Iterator.Runs.{YieldsMutRefsInOrder};
ghost use Rattle.std.specs.Map.{keys_of, values_of};
ghost use Rattle.std.specs.Map.Iter.{LendsValuesInOrder, ShowsInOrder, deref};
ghost use Rattle.halfbrown.specs.State.{IsValid};
ghost use Rattle.halfbrown.specs.Updates.{WrittenValuesKeepKeys};

use super::LimitedHashMap;
use crate::{Column, Iter, IterMut, KeyHasher, Keys, Limit, Values, ValuesMut};
use std::hash::Hash;
use std::marker::PhantomData;

impl<K: Eq + Hash, V, S: KeyHasher<K>, L: Limit> LimitedHashMap<K, V, S, L> {
    ghost use Rattle.halfbrown.specs.Iter.{pairs_left, ShowsPairsInOrder};
    ghost use Rattle.halfbrown.specs.Iter.{iter_mut_left, iter_mut_name};
    ghost use Rattle.halfbrown.specs.Iter.{values_mut_left, values_mut_name, ValuesMutSteps};
    ghost use Rattle.halfbrown.specs.Lending.{LendsValues};

    /// Returns the pairs, each as `(&K, &V)`, in order. Iteration hashes nothing and compares no keys.
    ///
    /// ```
    /// let mut pairs = ages.iter();
    /// assert_eq!(rt; pairs.len(), 2);
    /// assert_eq!(rt; pairs.next(), Some((&1, &36)));
    /// ```
    #[inline(always)]
    pub fn iter(&self) -> Iter<'_, K, V>
        ensures left { pairs_left result ≡ self.now.pairs }
        ensures small { length self.now.pairs < 2 ^ 63 }
        ensures runs { ShowsPairsInOrder K V }
        ensures valid { IsValid L.LIMIT K.eq self.now }
    {
        let columns = self.columns();
        Iter {
            keys: columns.keys().iter(),
            values: columns.values().iter(),
        }
    }

    /// Returns the keys, in order.
    ///
    /// ```
    /// assert_eq!(rt; ages.keys().next(), Some(&1));
    /// ```
    #[inline(always)]
    pub fn keys(&self) -> Keys<'_, K, V>
        ensures left { result ≡ keys_of self.now.pairs }
        ensures small { length self.now.pairs < 2 ^ 63 }
        ensures runs { ShowsInOrder (deref {X = K}) }
        ensures valid { IsValid L.LIMIT K.eq self.now }
    {
        Column {
            items: self.columns().keys().iter(),
            other: PhantomData,
        }
    }

    /// Returns the values, in order.
    ///
    /// ```
    /// assert_eq!(rt; ages.values().next(), Some(&36));
    /// ```
    #[inline(always)]
    pub fn values(&self) -> Values<'_, K, V>
        ensures left { result ≡ values_of self.now.pairs }
        ensures small { length self.now.pairs < 2 ^ 63 }
        ensures runs { ShowsInOrder (deref {X = V}) }
        ensures valid { IsValid L.LIMIT K.eq self.now }
    {
        Column {
            items: self.columns().values().iter(),
            other: PhantomData,
        }
    }

    /// Returns the pairs, each as `(&K, &mut V)`, in order. The keys cannot be written. After a loop over them a proof
    /// knows only the keys; after one over `values_slice_mut` it knows the values too.
    ///
    /// ```
    /// for (id, age) in ages.iter_mut() {
    ///     if *id == 1 {
    ///         *age = 37;
    ///     }
    /// }
    /// assert_eq!(rt; ages.get(&1), Some(&37));
    /// ```
    #[inline(always)]
    pub fn iter_mut(&mut self) -> IterMut<'_, K, V>
        ensures* writes_back { sem 𝓛 (LendsValues K.row V.row S.row L.row S.Hasher.row K.Hash
            S.KeyHasher L.Limit self.entry (iter_mut_name result)) }
        ensures left { iter_mut_left result ≡ self.old.pairs }
        ensures values_run { LendsValuesInOrder (iter_mut_left {K = K} {V = V}) }
        ensures keeps { WrittenValuesKeepKeys L.LIMIT K.eq self.old }
    {
        let (keys, values) = self.store.columns_mut();
        IterMut {
            keys: keys.iter(),
            values: values.iter_mut(),
        }
    }

    /// Returns the values, in order, to be written.
    ///
    /// ```
    /// for age in ages.values_mut() {
    ///     *age = 0;
    /// }
    /// assert_eq!(rt; ages.get(&2), Some(&0));
    /// ```
    #[inline(always)]
    pub fn values_mut(&mut self) -> ValuesMut<'_, K, V>
        ensures* writes_back { sem 𝓛 (LendsValues K.row V.row S.row L.row S.Hasher.row K.Hash
            S.KeyHasher L.Limit self.entry (values_mut_name result)) }
        ensures left { values_mut_left result ≡ values_of self.old.pairs }
        ensures runs { YieldsMutRefsInOrder (ValuesMutSteps {K = K} {V = V}) values_mut_left }
        ensures keeps { WrittenValuesKeepKeys L.LIMIT K.eq self.old }
    {
        let (_, values) = self.store.columns_mut();
        ValuesMut {
            values: values.iter_mut(),
            keys: PhantomData,
        }
    }

    /// Returns the values, in order, as a slice to be written. What a proof knows of the slice at the end, it knows of
    /// the map. After a loop over `iter_mut` or `values_mut` it knows only the keys.
    ///
    /// ```
    /// ages.values_slice_mut().fill(0);
    /// assert_eq!(rt; ages.get(&2), Some(&0));
    /// ```
    #[inline(always)]
    pub fn values_slice_mut(&mut self) -> &mut [V]
        ensures* writes_back { sem 𝓛 (LendsValues K.row V.row S.row L.row S.Hasher.row K.Hash
            S.KeyHasher L.Limit self.entry result.ghost_name) }
        ensures values { result.now ≡ values_of self.old.pairs }
        ensures keeps { WrittenValuesKeepKeys L.LIMIT K.eq self.old }
    {
        let (_, values) = self.store.columns_mut();
        values
    }
}
