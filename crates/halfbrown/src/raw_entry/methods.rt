//! The calls of a raw entry.
ghost use Rattle.std.specs.Prelude.{◌≡◌, false, Some, unwrap_or};
ghost use Rattle.std.specs.Borrow.{Bor, MutBor};
ghost use Rattle.std.specs.Option.{UnwrapsOrElse};
ghost use Rattle.halfbrown.specs.Entry.{occupied, raw_view};
ghost use Rattle.halfbrown.specs.EntryView.{map_of, is_occupied, entry_pair, entry_value};
ghost use Rattle.halfbrown.specs.EntryView.{AdmitsKey, PutsEntry, ModifiesEntry};
ghost use Rattle.halfbrown.specs.Pairs.{holds};
ghost use Rattle.halfbrown.specs.RawEntry.{ModifiesPair, work_after_putting};

use super::RawEntryMut;
use crate::{KeyHasher, Limit, OccupiedEntry};
use half_store::{Tally, uncounted};
use std::hash::Hash;

impl<'a, K: Eq + Hash, V, S: KeyHasher<K>, L: Limit> RawEntryMut<'a, K, V, S, L> {
    /// Gives the pair that was found this value, and drops the given key. If none was found, adds the pair, whose
    /// key must not be held. Returns the pair's entry.
    ///
    /// ```
    /// let entry = ages.raw_entry_mut()?.from_key(&1).insert(1, 37);
    /// assert_eq!(rt; *entry.get(), 37);
    /// ```
    #[inline]
    pub fn insert(self, key: K, value: V) -> OccupiedEntry<'a, K, V, S, L>
    where
        K: Drop,
        V: Drop,
        requires { AdmitsKey K.eq (raw_view self) key }
        ensures { PutsEntry L.LIMIT K.eq (raw_view self.entry) key value (occupied result) }
    {
        uncounted!(self.insert_counted(key, value))
    }

    /// `insert`, with its work counted: nothing if a pair was found, and otherwise that of a vacant entry's `insert`.
    #[inline]
    pub fn insert_counted(
        self,
        key: K,
        value: V,
        tally: &mut Tally,
    ) -> OccupiedEntry<'a, K, V, S, L>
    where
        K: Drop,
        V: Drop,
        requires { AdmitsKey K.eq (raw_view self) key }
        ensures puts { PutsEntry L.LIMIT K.eq (raw_view self.entry) key value (occupied result) }
        ensures cost { tally.new ≡ work_after_putting S.hash (raw_view self.entry) key tally.old }
    {
        match self {
            RawEntryMut::Occupied(mut entry) => {
                entry.insert(value);
                entry
            }
            RawEntryMut::Vacant(entry) => entry.insert_entry_counted(key, value, tally),
        }
    }

    /// Adds the pair if none was found. Its key must not be held then. A pair that was found stays, and the given
    /// one is dropped. Returns the entry of the pair that is held now.
    ///
    /// ```
    /// let entry = ages.raw_entry_mut()?.from_key(&2).or_insert_entry(2, 0);
    /// assert_eq!(rt; *entry.get(), 41);
    /// ```
    #[inline]
    pub fn or_insert_entry(self, default_key: K, default_value: V) -> OccupiedEntry<'a, K, V, S, L>
    where
        K: Drop,
        V: Drop,
        requires { AdmitsKey K.eq (raw_view self) default_key }
        ensures { PutsEntry L.LIMIT K.eq (raw_view self.entry) default_key
            (unwrap_or (entry_value (raw_view self.entry)) default_value) (occupied result) }
    {
        uncounted!(self.or_insert_entry_counted(default_key, default_value))
    }

    /// `or_insert_entry`, with its work counted: nothing if a pair was found, and otherwise that of a vacant entry's `insert`.
    #[inline]
    pub fn or_insert_entry_counted(
        self,
        default_key: K,
        default_value: V,
        tally: &mut Tally,
    ) -> OccupiedEntry<'a, K, V, S, L>
    where
        K: Drop,
        V: Drop,
        requires { AdmitsKey K.eq (raw_view self) default_key }
        ensures puts { PutsEntry L.LIMIT K.eq (raw_view self.entry) default_key
            (unwrap_or (entry_value (raw_view self.entry)) default_value) (occupied result) }
        ensures cost { tally.new
            ≡ work_after_putting S.hash (raw_view self.entry) default_key tally.old }
    {
        match self {
            RawEntryMut::Occupied(entry) => {
                // `len` tells the prover `IsValid` of the map, and the `return` keeps the proofs of the two arms apart.
                prove!(entry.index < entry.map.len());
                return entry;
            }
            RawEntryMut::Vacant(entry) => {
                entry.insert_entry_counted(default_key, default_value, tally)
            }
        }
    }

    /// Adds the pair if none was found. Its key must not be held then. A pair that was found stays, and the given
    /// one is dropped. Returns the stored key, and the value that is held now, to be written for as long as the map is
    /// borrowed. No clause says what the map is afterwards: if a proof needs that, call `or_insert_entry(..).into_mut()`.
    ///
    /// ```
    /// *ages.raw_entry_mut()?.from_key(&3).or_insert(3, 0).1 = 5;
    /// assert_eq!(rt; ages.get(&3), Some(&5));
    /// ```
    #[inline]
    pub fn or_insert(self, default_key: K, default_value: V) -> (&'a K, &'a mut V)
    where
        K: Drop,
        V: Drop,
        requires { AdmitsKey K.eq (raw_view self) default_key }
        ensures { (result.0.now, result.1.now)
            ≡ unwrap_or (entry_pair (raw_view self.entry)) (default_key, default_value) }
    {
        uncounted!(self.or_insert_counted(default_key, default_value))
    }

    /// `or_insert`, with its work counted: nothing if a pair was found, and otherwise that of a vacant entry's `insert`.
    #[inline]
    pub fn or_insert_counted(
        self,
        default_key: K,
        default_value: V,
        tally: &mut Tally,
    ) -> (&'a K, &'a mut V)
    where
        K: Drop,
        V: Drop,
        requires { AdmitsKey K.eq (raw_view self) default_key }
        ensures pair { (result.0.now, result.1.now)
            ≡ unwrap_or (entry_pair (raw_view self.entry)) (default_key, default_value) }
        ensures cost { tally.new
            ≡ work_after_putting S.hash (raw_view self.entry) default_key tally.old }
    {
        self.or_insert_entry_counted(default_key, default_value, tally)
            .into_key_value()
    }

    /// `or_insert` with a pair that is made only if none was found.
    ///
    /// ```
    /// let (_, age) = ages.raw_entry_mut()?.from_key(&3).or_insert_with(|| (3, 5));
    /// assert_eq!(rt; *age, 5);
    /// ```
    #[inline]
    pub fn or_insert_with<F: FnOnce() -> (K, V)>(self, default: F) -> (&'a K, &'a mut V)
        requires callable { is_occupied (raw_view self) ≡ false → F.pre default }
        requires absent { is_occupied (raw_view self) ≡ false → (pair : K × V) → F.post default pair
            → holds K.eq (map_of (raw_view self)).pairs pair.0 ≡ false }
        ensures { UnwrapsOrElse (entry_pair (raw_view self.entry)) (F.post default)
            (result.0.now, result.1.now) }
    {
        uncounted!(self.or_insert_with_counted(default))
    }

    /// `or_insert_with`, with its work counted: nothing if a pair was found, and otherwise that of a vacant entry's `insert`.
    #[inline]
    pub fn or_insert_with_counted<F: FnOnce() -> (K, V)>(
        self,
        default: F,
        tally: &mut Tally,
    ) -> (&'a K, &'a mut V)
        requires callable { is_occupied (raw_view self) ≡ false → F.pre default }
        requires absent { is_occupied (raw_view self) ≡ false → (pair : K × V) → F.post default pair
            → holds K.eq (map_of (raw_view self)).pairs pair.0 ≡ false }
        ensures pair { UnwrapsOrElse (entry_pair (raw_view self.entry)) (F.post default)
            (result.0.now, result.1.now) }
        ensures cost { tally.new
            ≡ work_after_putting S.hash (raw_view self.entry) result.0.now tally.old }
    {
        match self {
            RawEntryMut::Occupied(entry) => entry.into_key_value(),
            RawEntryMut::Vacant(entry) => {
                let (key, value) = default();
                entry.insert_counted(key, value, tally)
            }
        }
    }

    /// Changes the value of the pair that was found, and returns the entry. If none was found `f` is not called.
    ///
    /// ```
    /// ages.raw_entry_mut()?.from_key(&1).and_modify(|_, age| *age = 37);
    /// assert_eq!(rt; ages.get(&1), Some(&37));
    /// ```
    #[inline]
    pub fn and_modify<F: FnOnce(&K, &mut V)>(self, f: F) -> RawEntryMut<'a, K, V, S, L>
        requires { (key : Bor K) (lent : MutBor V) →
            entry_pair (raw_view self) ≡ Some (key.now, lent.now) → F.pre f key lent }
        ensures { ModifiesEntry (ModifiesPair F.FnOnce f (entry_pair (raw_view self.entry)))
            (raw_view self.entry) (raw_view result) }
    {
        match self {
            RawEntryMut::Occupied(mut entry) => {
                let (key, value) = entry.get_key_value_mut();
                f(key, value);
                RawEntryMut::Occupied(entry)
            }
            RawEntryMut::Vacant(entry) => RawEntryMut::Vacant(entry),
        }
    }
}
