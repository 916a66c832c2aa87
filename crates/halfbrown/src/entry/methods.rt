//! The calls of an entry.
//!
//! A clause `writes_back` says what the map is once the borrow that the call returns has ended. What stands between its
//! first word and `self.entry` names types, and can be passed over; `self.entry` is the entry when the call began.
ghost use Rattle.std.specs.Prelude.{◌≡◌, true, false, None, Some, length, slice_get, unwrap_or};
ghost use Rattle.std.specs.Borrow.{sem, MutBor};
ghost use Rattle.std.specs.Map.Calls.{ModifiesValue};
ghost use Rattle.std.specs.Option.{UnwrapsOrElse};
ghost use Rattle.halfbrown.specs.Entry.{view, EntryLendsValue};
ghost use Rattle.halfbrown.specs.EntryView.{is_occupied, map_of, entry_key, entry_pair};
ghost use Rattle.halfbrown.specs.EntryView.{entry_value, ModifiesEntry};

use super::Entry;
use crate::{KeyHasher, Limit};
use std::alloc::Global;
use std::default::MadeWith;
use std::hash::Hash;

impl<'a, K: Eq + Hash, V, S: KeyHasher<K>, L: Limit> Entry<'a, K, V, S, L> {
    /// Returns the stored key if it is held, otherwise the key of the pair that can be added.
    ///
    /// ```
    /// assert_eq!(rt; *ages.entry(1)?.key(), 1);
    /// ```
    #[inline(always)]
    pub fn key(&self) -> &K
        ensures { entry_key (view self.now) ≡ Some result.now }
    {
        match self {
            Entry::Occupied(entry) => entry.key(),
            Entry::Vacant(entry) => entry.key(),
        }
    }

    /// Adds the pair with this value if the key is not held. A value that is already held stays, and the given one
    /// is dropped. Returns the value that is held now, to be written for as long as the map is borrowed. It costs
    /// nothing.
    ///
    /// ```
    /// assert_eq!(rt; *ages.entry(2)?.or_insert(0), 41);
    /// assert_eq!(rt; *ages.entry(3)?.or_insert(5), 5);
    /// ```
    #[inline(always)]
    pub fn or_insert(self, default: V) -> &'a mut V
    where
        V: Drop,
        ensures* writes_back { sem 𝓛
            (EntryLendsValue K.row V.row S.row L.row S.Hasher.row self.entry result) }
        ensures value { result.now ≡ unwrap_or (entry_value (view self.entry)) default }
    {
        match self {
            Entry::Occupied(entry) => entry.into_mut(),
            Entry::Vacant(entry) => entry.insert(default),
        }
    }

    /// `or_insert` with a value that is made only if the key is not held.
    ///
    /// ```
    /// assert_eq!(rt; *ages.entry(3)?.or_insert_with(|| 5), 5);
    /// ```
    #[inline(always)]
    pub fn or_insert_with<F: FnOnce() -> V>(self, default: F) -> &'a mut V
        requires { entry_value (view self) ≡ None → F.pre default }
        ensures* writes_back { sem 𝓛
            (EntryLendsValue K.row V.row S.row L.row S.Hasher.row self.entry result) }
        ensures value { UnwrapsOrElse (entry_value (view self.entry)) (F.post default) result.now }
    {
        match self {
            Entry::Occupied(entry) => entry.into_mut(),
            Entry::Vacant(entry) => entry.insert(default()),
        }
    }

    /// `or_insert` with the type's default value, which is made only if the key is not held. An empty `Vec`, `String` or map takes
    /// its memory from the map's allocator.
    ///
    /// ```
    /// assert_eq!(rt; *ages.entry(3)?.or_default(), 0);
    /// ```
    #[inline(always)]
    pub fn or_default(self) -> &'a mut V
    where
        V: MadeWith<Global>,
        ensures* writes_back { sem 𝓛
            (EntryLendsValue K.row V.row S.row L.row S.Hasher.row self.entry result) }
        ensures value { UnwrapsOrElse (entry_value (view self.entry)) V.is_made_with result.now }
    {
        match self {
            Entry::Occupied(entry) => entry.into_mut(),
            Entry::Vacant(entry) => {
                let alloc = entry.map.columns().allocator();
                entry.insert(V::made_with(alloc))
            }
        }
    }

    /// Returns the index of its pair in the order of the pairs: the one that it has, or that of a pair added through it.
    ///
    /// ```
    /// assert_eq!(rt; ages.entry(2)?.index(), 1);
    /// assert_eq!(rt; ages.entry(3)?.index(), 2);
    /// ```
    #[inline(always)]
    pub fn index(&self) -> usize
        ensures held { is_occupied (view self.now) ≡ true
            → slice_get (map_of (view self.now)).pairs result ≡ entry_pair (view self.now) }
        ensures vacant { is_occupied (view self.now) ≡ false
            → result ≡ length (map_of (view self.now)).pairs }
    {
        match self {
            Entry::Occupied(entry) => entry.index(),
            Entry::Vacant(entry) => entry.index(),
        }
    }

    /// Changes the value if the key is held, and returns the entry. If it is not held `f` is not called.
    ///
    /// ```
    /// ages.entry(1)?.and_modify(|age| *age = 37).or_insert(0);
    /// assert_eq!(rt; ages.get(&1), Some(&37));
    /// ```
    #[inline(always)]
    pub fn and_modify<F: FnOnce(&mut V)>(self, f: F) -> Entry<'a, K, V, S, L>
        requires { (lent : MutBor V) → entry_value (view self) ≡ Some lent.now → F.pre f lent }
        ensures { ModifiesEntry (ModifiesValue F.FnOnce f (entry_value (view self.entry)))
            (view self.entry) (view result) }
    {
        match self {
            Entry::Occupied(mut entry) => {
                f(entry.get_mut());
                Entry::Occupied(entry)
            }
            Entry::Vacant(entry) => Entry::Vacant(entry),
        }
    }
}
