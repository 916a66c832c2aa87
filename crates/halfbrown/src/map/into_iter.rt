//! A map in a `for` loop, lent or by value.
ghost use Rattle.std.specs.Prelude.{◌≡◌, ◌^◌, ◌<◌, length};
ghost use Rattle.std.specs.Borrow.{sem};
ghost use Rattle.std.specs.Map.{keys_of, values_of};
ghost use Rattle.std.specs.Map.Iter.{GivesInOrder, ShowsValuesInOrder};
ghost use Rattle.std.specs.Vec.Iter.{into_iter_items};
ghost use Rattle.halfbrown.specs.State.{IsValid};

use super::LimitedHashMap;
use crate::{IntoIter, Iter, KeyHasher, Limit};
use std::hash::Hash;
use std::iter::IntoIterator;
use std::vec;

impl<'a, K: Eq + Hash, V, S: KeyHasher<K>, L: Limit> IntoIterator
    for &'a LimitedHashMap<K, V, S, L> {
    ghost use Rattle.halfbrown.specs.Iter.{pairs_left, ShowsPairsInOrder};

    type Item = (&'a K, &'a V);

    type IntoIter = Iter<'a, K, V>;

    ghost into_iter_gives = { λ map it. (pairs_left it ≡ map.now.pairs)
        × (length map.now.pairs < 2 ^ 63) × ShowsPairsInOrder K V
        × IsValid L.LIMIT K.eq map.now };

    /// Returns the pairs, each as `(&K, &V)`, in order, as `iter` lends them.
    ///
    /// ```
    /// let mut oldest = 0;
    /// for (_, age) in &ages {
    ///     oldest = oldest.max(*age);
    /// }
    /// assert_eq!(rt; oldest, 41);
    /// ```
    #[inline(always)]
    fn into_iter(self) -> Iter<'a, K, V> {
        self.iter()
    }
}

impl<'a, K: Eq + Hash, V, S: KeyHasher<K>, L: Limit> IntoIterator
    for &'a mut LimitedHashMap<K, V, S, L> {
    ghost use Rattle.halfbrown.specs.Iter.{pairs_left, ShowsPairsInOrder};
    ghost use Rattle.halfbrown.specs.Lending.{Rests};

    type Item = (&'a K, &'a V);

    type IntoIter = Iter<'a, K, V>;

    ghost into_iter_gives = { λ map it. (pairs_left it ≡ map.now.pairs)
        × (length map.now.pairs < 2 ^ 63) × ShowsPairsInOrder K V
        × IsValid L.LIMIT K.eq map.now };

    /// Returns the pairs, each as `(&K, &V)`, in order. As in the Rust crate the values can only be read: `iter_mut` lends
    /// them to be written.
    ///
    /// ```
    /// let mut oldest = 0;
    /// for (_, age) in &mut ages {
    ///     oldest = oldest.max(*age);
    /// }
    /// assert_eq!(rt; oldest, 41);
    /// ```
    #[inline(always)]
    fn into_iter(self) -> Iter<'a, K, V>
        ensures* rests { sem 𝓛
            (Rests K.row V.row S.row L.row S.Hasher.row K.Hash S.KeyHasher L.Limit self.entry) }
        ensures into_iter_gives { (pairs_left result ≡ self.old.pairs)
            × (length self.old.pairs < 2 ^ 63) × ShowsPairsInOrder K V
            × IsValid L.LIMIT K.eq self.old }
    {
        (&*self).into_iter()
    }
}

impl<K: Eq + Hash + Drop, V: Drop, S: KeyHasher<K> + Drop, L: Limit> IntoIterator
    for LimitedHashMap<K, V, S, L> {
    type Item = (K, V);

    type IntoIter = IntoIter<K, V>;

    ghost into_iter_gives = { λ map it. (it ≡ map.pairs) × (length map.pairs < 2 ^ 63)
        × GivesInOrder (K × V) × ShowsValuesInOrder (λ (pair : K × V). pair)
        × IsValid L.LIMIT K.eq map };

    /// Returns the pairs, in order, by value. The builder and the table are dropped at once: the iterator has only the
    /// two columns. It takes no memory.
    ///
    /// ```
    /// let mut oldest = 0;
    /// for (_, age) in ages {
    ///     oldest = oldest.max(age);
    /// }
    /// assert_eq!(rt; oldest, 41);
    /// ```
    fn into_iter(self) -> IntoIter<K, V> {
        let (keys, values) = self.into_columns();
        IntoIter {
            keys: keys.into_iter(),
            values: values.into_iter(),
        }
    }
}

impl<K: Eq + Hash + Drop, V: Drop, S: KeyHasher<K> + Drop, L: Limit> LimitedHashMap<K, V, S, L> {
    /// Returns the keys, in order, by value. The values, the builder and the table are dropped at once. It takes no memory.
    ///
    /// ```
    /// assert_eq!(rt; ages.into_keys().next(), Some(1));
    /// ```
    pub fn into_keys(self) -> vec::IntoIter<K>
        ensures items { into_iter_items result ≡ keys_of self.pairs }
        ensures small { length self.pairs < 2 ^ 63 }
        ensures valid { IsValid L.LIMIT K.eq self }
    {
        let (keys, values) = self.into_columns();
        drop(values);
        keys.into_iter()
    }

    /// Returns the values, in order, by value. The keys, the builder and the table are dropped at once. It takes no memory.
    ///
    /// ```
    /// assert_eq!(rt; ages.into_values().next(), Some(36));
    /// ```
    pub fn into_values(self) -> vec::IntoIter<V>
        ensures items { into_iter_items result ≡ values_of self.pairs }
        ensures small { length self.pairs < 2 ^ 63 }
        ensures valid { IsValid L.LIMIT K.eq self }
    {
        let (keys, values) = self.into_columns();
        drop(keys);
        values.into_iter()
    }

    // The two columns. The builder and the table are dropped.
    fn into_columns(self) -> (Vec<K>, Vec<V>)
        ensures keys { result.0.items ≡ keys_of self.pairs }
        ensures values { result.1.items ≡ values_of self.pairs }
        ensures small { length self.pairs < 2 ^ 63 }
        ensures valid { IsValid L.LIMIT K.eq self }
    {
        let LimitedHashMap {
            store,
            builder,
            limit: _,
        } = self;
        drop(builder);
        store.into_columns()
    }
}
