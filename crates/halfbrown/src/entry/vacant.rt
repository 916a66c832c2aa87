//! The calls of a vacant entry. In the examples it is the entry of 3:
//!
//! ```
//! let Entry::Vacant(entry) = ages.entry(3)? else { unreachable!() };
//! ```
//!
//! A clause `writes_back` says what the map is once the borrow that the call returns has ended.
ghost use Rattle.std.specs.Prelude.{◌≡◌, Some, length};
ghost use Rattle.std.specs.Borrow.{sem};
ghost use Rattle.halfbrown.specs.Entry.{Vacant, vacant, EntryLendsValue};
ghost use Rattle.halfbrown.specs.EntryView.{entry_key, map_of};

use super::VacantEntry;
use crate::{KeyHasher, Limit};
use std::hash::Hash;

impl<'a, K: Eq + Hash, V, S: KeyHasher<K>, L: Limit> VacantEntry<'a, K, V, S, L> {
    /// Returns the key of the pair that can be added: the given one, or the stored one if `replace_entry_with` has
    /// removed its pair.
    ///
    /// ```
    /// assert_eq!(rt; *entry.key(), 3);
    /// ```
    #[inline(always)]
    pub fn key(&self) -> &K
        ensures { entry_key (vacant self.now) ≡ Some result.now }
    {
        &self.key
    }

    /// Returns the key of the pair that can be added. The map stays as it is.
    ///
    /// ```
    /// assert_eq!(rt; entry.into_key(), 3);
    /// assert!(rt; !ages.contains_key(&3));
    /// ```
    #[inline(always)]
    pub fn into_key(self) -> K
        ensures key { entry_key (vacant self.entry) ≡ Some result }
        ensures after { self.exit.0.now ≡ map_of (vacant self.entry) }
    {
        let VacantEntry {
            map: _,
            key,
            vacancy: _,
        } = self;
        key
    }

    /// Returns the index that a pair added through the entry gets: the number of pairs.
    ///
    /// ```
    /// assert_eq!(rt; entry.index(), 2);
    /// ```
    #[inline(always)]
    pub fn index(&self) -> usize
        ensures { result ≡ length (map_of (vacant self.now)).pairs }
    {
        self.map.len()
    }

    /// Adds the pair at the end, and returns its value, to be written for as long as the map is borrowed. It needs no
    /// more capacity and probes nothing: in a table the pair goes into the bucket that was found for it when the entry was made.
    ///
    /// ```
    /// *entry.insert(0) = 5;
    /// assert_eq!(rt; ages.get(&3), Some(&5));
    /// ```
    #[inline(always)]
    pub fn insert(self, value: V) -> &'a mut V
        ensures* writes_back { sem 𝓛
            (EntryLendsValue K.row V.row S.row L.row S.Hasher.row (Vacant self.entry) result) }
        ensures value { result.now ≡ value }
    {
        let VacantEntry { map, key, vacancy } = self;
        let added = map.push(key, value, vacancy);
        map.pair_at_mut(added.index).1
    }
}
