//! The calls of a vacant raw entry. In the examples a search for 3 has found none:
//!
//! ```
//! let hash = ages.hasher().hash_one(&3u64);
//! let RawEntryMut::Vacant(entry) = ages.raw_entry_mut()?.from_key(&3) else { unreachable!() };
//! ```
ghost use Rattle.std.specs.Prelude.{◌≡◌, false};
ghost use Rattle.halfbrown.specs.Pairs.{holds};
ghost use Rattle.halfbrown.specs.Entry.{occupied, raw_vacant};
ghost use Rattle.halfbrown.specs.EntryView.{map_of, PutsNewEntry};
ghost use Rattle.halfbrown.specs.RawEntry.{work_after_adding, work_after_probe};

use super::RawVacantEntryMut;
use crate::{KeyHasher, Limit, OccupiedEntry};
use half_store::{Found, Tally, uncounted};
use std::hash::Hash;

impl<'a, K: Eq + Hash, V, S: KeyHasher<K>, L: Limit> RawVacantEntryMut<'a, K, V, S, L> {
    /// Adds a pair at the end. Its key must not be held. Returns the stored key, and the value, to be written for as
    /// long as the map is borrowed. In a table the key is hashed once, and one insertion probe is made. No clause says what
    /// the map is afterwards: if a proof needs that, call `insert_entry(..).into_mut()`.
    ///
    /// ```
    /// *entry.insert(3, 0).1 = 5;
    /// assert_eq!(rt; ages.get(&3), Some(&5));
    /// ```
    #[inline]
    pub fn insert(self, key: K, value: V) -> (&'a K, &'a mut V)
        requires { holds K.eq (map_of (raw_vacant self)).pairs key ≡ false }
        ensures key { result.0.now ≡ key }
        ensures value { result.1.now ≡ value }
    {
        uncounted!(self.insert_counted(key, value))
    }

    /// `insert`, with its work counted: one hash and one insertion probe in a table, and nothing in a vector.
    #[inline]
    pub fn insert_counted(self, key: K, value: V, tally: &mut Tally) -> (&'a K, &'a mut V)
        requires { holds K.eq (map_of (raw_vacant self)).pairs key ≡ false }
        ensures key { result.0.now ≡ key }
        ensures value { result.1.now ≡ value }
        ensures cost { tally.new
            ≡ work_after_adding S.hash (map_of (raw_vacant self.entry)) key tally.old }
    {
        self.insert_entry_counted(key, value, tally)
            .into_key_value()
    }

    /// `insert`, but returns the pair's entry.
    ///
    /// ```
    /// let entry = entry.insert_entry(3, 5);
    /// assert_eq!(rt; *entry.get(), 5);
    /// ```
    #[inline]
    pub fn insert_entry(self, key: K, value: V) -> OccupiedEntry<'a, K, V, S, L>
        requires { holds K.eq (map_of (raw_vacant self)).pairs key ≡ false }
        ensures { PutsNewEntry L.LIMIT K.eq (raw_vacant self.entry) key value (occupied result) }
    {
        uncounted!(self.insert_entry_counted(key, value))
    }

    /// `insert_entry`, with its work counted: that of `insert`.
    #[inline]
    pub fn insert_entry_counted(
        self,
        key: K,
        value: V,
        tally: &mut Tally,
    ) -> OccupiedEntry<'a, K, V, S, L>
        requires { holds K.eq (map_of (raw_vacant self)).pairs key ≡ false }
        ensures adds { PutsNewEntry L.LIMIT K.eq (raw_vacant self.entry) key value (occupied result) }
        ensures cost { tally.new
            ≡ work_after_adding S.hash (map_of (raw_vacant self.entry)) key tally.old }
    {
        let hash = self.map.hash_in_table(&key, tally);
        self.insert_entry_hashed_nocheck_counted(hash, key, value, tally)
    }

    /// `insert` by a hash that is known, which must be the builder's hash of the key. Nothing is hashed.
    ///
    /// ```
    /// *entry.insert_hashed_nocheck(hash, 3, 0).1 = 5;
    /// assert_eq!(rt; ages.get(&3), Some(&5));
    /// ```
    #[inline]
    pub fn insert_hashed_nocheck(self, hash: u64, key: K, value: V) -> (&'a K, &'a mut V)
        requires hash { hash ≡ S.hash (map_of (raw_vacant self)).builder key }
        requires absent { holds K.eq (map_of (raw_vacant self)).pairs key ≡ false }
        ensures key { result.0.now ≡ key }
        ensures value { result.1.now ≡ value }
    {
        uncounted!(self.insert_hashed_nocheck_counted(hash, key, value))
    }

    /// `insert_hashed_nocheck`, with its work counted: one insertion probe in a table, and nothing in a vector.
    #[inline]
    pub fn insert_hashed_nocheck_counted(
        self,
        hash: u64,
        key: K,
        value: V,
        tally: &mut Tally,
    ) -> (&'a K, &'a mut V)
        requires hash { hash ≡ S.hash (map_of (raw_vacant self)).builder key }
        requires absent { holds K.eq (map_of (raw_vacant self)).pairs key ≡ false }
        ensures key { result.0.now ≡ key }
        ensures value { result.1.now ≡ value }
        ensures cost { tally.new
            ≡ work_after_probe S.hash (map_of (raw_vacant self.entry)) hash tally.old }
    {
        self.insert_entry_hashed_nocheck_counted(hash, key, value, tally)
            .into_key_value()
    }

    /// `insert_hashed_nocheck`, but returns the pair's entry.
    ///
    /// ```
    /// let entry = entry.insert_entry_hashed_nocheck(hash, 3, 5);
    /// assert_eq!(rt; *entry.get(), 5);
    /// ```
    #[inline]
    pub fn insert_entry_hashed_nocheck(
        self,
        hash: u64,
        key: K,
        value: V,
    ) -> OccupiedEntry<'a, K, V, S, L>
        requires hash { hash ≡ S.hash (map_of (raw_vacant self)).builder key }
        requires absent { holds K.eq (map_of (raw_vacant self)).pairs key ≡ false }
        ensures { PutsNewEntry L.LIMIT K.eq (raw_vacant self.entry) key value (occupied result) }
    {
        uncounted!(self.insert_entry_hashed_nocheck_counted(hash, key, value))
    }

    /// `insert_entry_hashed_nocheck`, with its work counted: that of `insert_hashed_nocheck`. A vector does not look at the
    /// hash.
    #[inline]
    pub fn insert_entry_hashed_nocheck_counted(
        self,
        hash: u64,
        key: K,
        value: V,
        tally: &mut Tally,
    ) -> OccupiedEntry<'a, K, V, S, L>
        requires hash { (map_of (raw_vacant self)).is_vec ≡ false
            → hash ≡ S.hash (map_of (raw_vacant self)).builder key }
        requires absent { holds K.eq (map_of (raw_vacant self)).pairs key ≡ false }
        ensures adds { PutsNewEntry L.LIMIT K.eq (raw_vacant self.entry) key value (occupied result) }
        ensures cost { tally.new
            ≡ work_after_probe S.hash (map_of (raw_vacant self.entry)) hash tally.old }
    {
        let map = self.map;
        let vacancy = map.vacancy_for(hash, tally);
        let Found { index, bucket } = map.push(key, value, vacancy);
        OccupiedEntry { map, index, bucket }
    }

    /// `insert_hashed_nocheck` with a function that hashes keys. The function is not called, since hashes are stored.
    ///
    /// ```
    /// *entry.insert_with_hasher(hash, 3, 0, |_| hash).1 = 5;
    /// assert_eq!(rt; ages.get(&3), Some(&5));
    /// ```
    #[inline]
    pub fn insert_with_hasher<F: Fn(&K) -> u64>(
        self,
        hash: u64,
        key: K,
        value: V,
        hasher: F,
    ) -> (&'a K, &'a mut V)
        requires hash { hash ≡ S.hash (map_of (raw_vacant self)).builder key }
        requires absent { holds K.eq (map_of (raw_vacant self)).pairs key ≡ false }
        ensures key { result.0.now ≡ key }
        ensures value { result.1.now ≡ value }
    {
        uncounted!(self.insert_with_hasher_counted(hash, key, value, hasher))
    }

    /// `insert_with_hasher`, with its work counted: that of `insert_hashed_nocheck`.
    #[inline]
    pub fn insert_with_hasher_counted<F: Fn(&K) -> u64>(
        self,
        hash: u64,
        key: K,
        value: V,
        _hasher: F,
        tally: &mut Tally,
    ) -> (&'a K, &'a mut V)
        requires hash { hash ≡ S.hash (map_of (raw_vacant self)).builder key }
        requires absent { holds K.eq (map_of (raw_vacant self)).pairs key ≡ false }
        ensures key { result.0.now ≡ key }
        ensures value { result.1.now ≡ value }
        ensures cost { tally.new
            ≡ work_after_probe S.hash (map_of (raw_vacant self.entry)) hash tally.old }
    {
        self.insert_hashed_nocheck_counted(hash, key, value, tally)
    }
}
