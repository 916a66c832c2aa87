//! The calls of an occupied entry, of a key, at an index, or a raw one. In the examples it is the entry of 1:
//!
//! ```
//! let Entry::Occupied(mut entry) = ages.entry(1)? else { unreachable!() };
//! ```
//!
//! A clause `writes_back` says what the entry or the map is once the borrow that the call returns has ended.
ghost use Rattle.std.specs.Prelude.{◌≡◌, ◌<◌, true, Some, IfSome, length, slice_get};
ghost use Rattle.std.specs.Borrow.{sem};
ghost use Rattle.half_store.specs.PairLists.{swap_remove_at};
ghost use Rattle.halfbrown.specs.Entry.{Occupied, occupied, EntryLendsValue, OccupiedLends, OccupiedRests, with_entry_value};
ghost use Rattle.halfbrown.specs.EntryView.{entry_key, entry_pair, entry_value, map_of, pairs_without, IsWritten, HasEntryKeyReplaced};
ghost use Rattle.halfbrown.specs.State.{IsValid, WithPairs};
ghost use Rattle.halfbrown.specs.Updates.{HasKeyReplaced};

use super::OccupiedEntry;
use crate::{KeyHasher, Limit};
use half_store::Found;
use std::hash::Hash;

impl<'a, K: Eq + Hash, V, S: KeyHasher<K>, L: Limit> OccupiedEntry<'a, K, V, S, L> {
    /// Returns the stored key.
    ///
    /// ```
    /// assert_eq!(rt; *entry.key(), 1);
    /// ```
    #[inline(always)]
    pub fn key(&self) -> &K
        ensures { entry_key (occupied self.now) ≡ Some result.now }
    {
        self.get_key_value().0
    }

    /// Returns the stored key. It cannot be written, since its hash may not change: `insert_key` replaces it by an equal
    /// one.
    ///
    /// ```
    /// assert_eq!(rt; *entry.key_mut(), 1);
    /// ```
    #[inline(always)]
    pub fn key_mut(&mut self) -> &K
        ensures* unchanged { sem 𝓛 (OccupiedRests K.row V.row S.row L.row S.Hasher.row self.entry) }
        ensures key { entry_key (occupied self.old) ≡ Some result.now }
    {
        self.key()
    }

    /// Returns the stored key, for as long as the map is borrowed. No clause says what the map is afterwards: if a proof
    /// needs that, call `key`.
    ///
    /// ```
    /// assert_eq!(rt; *entry.into_key(), 1);
    /// ```
    #[inline(always)]
    pub fn into_key(self) -> &'a K
        ensures { entry_key (occupied self.entry) ≡ Some result.now }
    {
        self.into_key_value().0
    }

    /// Returns the index of its pair in the order of the pairs.
    ///
    /// ```
    /// assert_eq!(rt; entry.index(), 0);
    /// ```
    #[inline(always)]
    pub fn index(&self) -> usize
        ensures within { result < length (map_of (occupied self.now)).pairs }
        ensures pair { slice_get (map_of (occupied self.now)).pairs result
            ≡ entry_pair (occupied self.now) }
        ensures pairs_left { swap_remove_at (map_of (occupied self.now)).pairs result
            ≡ pairs_without (occupied self.now) }
    {
        self.index
    }

    /// Returns the value.
    ///
    /// ```
    /// assert_eq!(rt; *entry.get(), 36);
    /// ```
    #[inline(always)]
    pub fn get(&self) -> &V
        ensures { entry_value (occupied self.now) ≡ Some result.now }
    {
        self.get_key_value().1
    }

    /// Returns the value, to be written.
    ///
    /// ```
    /// *entry.get_mut() = 37;
    /// assert_eq!(rt; *entry.get(), 37);
    /// ```
    #[inline(always)]
    pub fn get_mut(&mut self) -> &mut V
        ensures* writes_back { sem 𝓛
            (OccupiedLends K.row V.row S.row L.row S.Hasher.row self.entry result) }
        ensures value { entry_value (occupied self.old) ≡ Some result.now }
        ensures written { (w : V)
            → IsWritten (occupied self.old) w (occupied (with_entry_value self.old w)) }
    {
        self.get_key_value_mut().1
    }

    /// Returns the value, to be written for as long as the map is borrowed.
    ///
    /// ```
    /// *entry.into_mut() = 37;
    /// assert_eq!(rt; ages.get(&1), Some(&37));
    /// ```
    #[inline(always)]
    #[tactic(auto, unfolding(crate::specs::EntryView::map_with_value))]
    pub fn into_mut(self) -> &'a mut V
        ensures* writes_back { sem 𝓛
            (EntryLendsValue K.row V.row S.row L.row S.Hasher.row (Occupied self.entry) result) }
        ensures value { entry_value (occupied self.entry) ≡ Some result.now }
    {
        let index = self.index;
        let map = self.map;
        map.pair_at_mut(index).1
    }

    /// Returns the stored key and the value.
    ///
    /// ```
    /// assert_eq!(rt; entry.get_key_value(), (&1, &36));
    /// ```
    #[inline(always)]
    pub fn get_key_value(&self) -> (&K, &V)
        ensures { entry_pair (occupied self.now) ≡ Some (result.0.now, result.1.now) }
    {
        self.map.pair_at(self.index)
    }

    /// Returns the stored key, and the value to be written.
    ///
    /// ```
    /// let (_, age) = entry.get_key_value_mut();
    /// *age = 37;
    /// assert_eq!(rt; *entry.get(), 37);
    /// ```
    #[inline(always)]
    pub fn get_key_value_mut(&mut self) -> (&K, &mut V)
        ensures* writes_back { sem 𝓛
            (OccupiedLends K.row V.row S.row L.row S.Hasher.row self.entry result.1) }
        ensures pair { entry_pair (occupied self.old) ≡ Some (result.0.now, result.1.now) }
        ensures written { (w : V)
            → IsWritten (occupied self.old) w (occupied (with_entry_value self.old w)) }
    {
        let index = self.index;
        self.map.pair_at_mut(index)
    }

    /// Returns the stored key, and the value to be written, for as long as the map is borrowed. No clause says what the map
    /// is afterwards: if a proof needs that, call `into_mut`.
    ///
    /// ```
    /// let (_, age) = entry.into_key_value();
    /// *age = 37;
    /// assert_eq!(rt; ages.get(&1), Some(&37));
    /// ```
    #[inline(always)]
    pub fn into_key_value(self) -> (&'a K, &'a mut V)
        ensures { entry_pair (occupied self.entry) ≡ Some (result.0.now, result.1.now) }
    {
        let map = self.map;
        map.pair_at_mut(self.index)
    }

    /// Replaces the value, and returns the old one. The stored key stays.
    ///
    /// ```
    /// assert_eq!(rt; entry.insert(37), 36);
    /// assert_eq!(rt; *entry.get(), 37);
    /// ```
    #[inline(always)]
    pub fn insert(&mut self, value: V) -> V
        ensures old { entry_value (occupied self.old) ≡ Some result }
        ensures written { IsWritten (occupied self.old) value (occupied self.new) }
        ensures valid { IsValid L.LIMIT K.eq (map_of (occupied self.new)) }
    {
        let old = std::mem::replace(self.get_mut(), value);
        // `len` tells the prover `IsValid` of the map.
        prove!(self.index < self.map.len());
        old
    }

    /// Replaces the stored key by an equal one, and returns the old one. The value stays.
    ///
    /// ```
    /// assert_eq!(rt; entry.insert_key(1), 1);
    /// ```
    #[inline(always)]
    pub fn insert_key(&mut self, key: K) -> K
        requires { IfSome (entry_key (occupied self.old)) (λ k. K.eq key k ≡ true) }
        ensures old { entry_key (occupied self.old) ≡ Some result }
        ensures new { HasEntryKeyReplaced (occupied self.old) key (occupied self.new) }
        ensures replaced { HasKeyReplaced K.eq (map_of (occupied self.old)).pairs key
            (map_of (occupied self.new)).pairs }
        ensures valid { IsValid L.LIMIT K.eq (map_of (occupied self.new)) }
    {
        let index = self.index;
        self.map.set_key_at(index, key)
    }

    /// Removes the pair, and returns its value. The last pair takes its index. Nothing is hashed or compared, and the pair is
    /// not probed for. In a table the bucket of the last pair is, if it is another.
    ///
    /// ```
    /// assert_eq!(rt; entry.remove(), 36);
    /// assert!(rt; !ages.contains_key(&1));
    /// ```
    #[inline]
    pub fn remove(self) -> V
    where
        K: Drop,
        ensures value { entry_value (occupied self.entry) ≡ Some result }
        ensures after { WithPairs (map_of (occupied self.entry))
            (pairs_without (occupied self.entry)) self.exit.0.now }
        ensures valid { IsValid L.LIMIT K.eq self.exit.0.now }
    {
        let index = self.index;
        let bucket = self.bucket;
        self.map.take_at(Found { index, bucket }).1
    }

    /// Removes the pair, and returns the stored key and the value. The last pair takes its index. Nothing is hashed or
    /// compared, and the pair is not probed for. In a table the bucket of the last pair is, if it is another.
    ///
    /// ```
    /// assert_eq!(rt; entry.remove_entry(), (1, 36));
    /// assert!(rt; !ages.contains_key(&1));
    /// ```
    #[inline]
    pub fn remove_entry(self) -> (K, V)
        ensures pair { entry_pair (occupied self.entry) ≡ Some result }
        ensures value { entry_value (occupied self.entry) ≡ Some result.1 }
        ensures after { WithPairs (map_of (occupied self.entry))
            (pairs_without (occupied self.entry)) self.exit.0.now }
        ensures valid { IsValid L.LIMIT K.eq self.exit.0.now }
    {
        let index = self.index;
        let bucket = self.bucket;
        self.map.take_at(Found { index, bucket })
    }
}
