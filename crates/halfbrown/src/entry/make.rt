//! Making the entry of a key, or of the pair at an index.
//!
//! A clause `unchanged` says that the map stays as it is if no entry is made, and otherwise ends as the entry leaves it.
//! What stands between its first word and `self.entry`, the map when the call began, only names types.
ghost use Rattle.std.specs.Prelude.{◌<◌, ◌↔◌, IfSome, IsSome, is_ok, length};
ghost use Rattle.std.specs.Borrow.{sem};
ghost use Rattle.halfbrown.specs.Costs.{IsInsertCost};
ghost use Rattle.halfbrown.specs.Entry.{occupied, MakesEntryOrHandsBack, RestsIfNoEntry, RestsIfRefused};
ghost use Rattle.halfbrown.specs.EntryView.{IsEntryAt};

use super::{Entry, OccupiedEntry, VacantEntry};
use crate::map::prepare::Place;
use crate::{KeyHasher, Limit, LimitedHashMap, RefusedKey};
use half_store::{Found, Tally, uncounted};
use std::hash::Hash;

impl<K: Eq + Hash, V, S: KeyHasher<K>, L: Limit> LimitedHashMap<K, V, S, L> {
    /// Returns the entry of a key, through which its pair is read, written, removed or added without another search.
    /// If an equal key is held, the given key is dropped. A vector that holds as many pairs as the limit becomes a
    /// table first, in both cases.
    ///
    /// Fails only if more capacity is needed: for the switch, or for a new key if none is left. Then nothing
    /// changes, and the error has the key. No call on the entry fails.
    ///
    /// It costs what `insert` costs. No call on the entry hashes a key or compares two.
    ///
    /// ```
    /// *ages.entry(3)?.or_insert(0) = 5;
    /// assert_eq!(rt; ages.get(&3), Some(&5));
    /// ```
    #[inline(always)]
    pub fn entry(&mut self, key: K) -> Result<Entry<'_, K, V, S, L>, RefusedKey<K>>
    where
        K: Drop,
        ensures* unchanged { sem 𝓛
            (RestsIfRefused K.row V.row S.row L.row S.Hasher.row self.entry result) }
        ensures makes { MakesEntryOrHandsBack L.LIMIT K.eq self.entry key result }
    {
        uncounted!(self.entry_counted(key))
    }

    /// `entry`, with its work counted: one search, one hash for each pair at a switch, and one insertion probe if a new
    /// key makes the table grow.
    #[inline(always)]
    pub fn entry_counted(
        &mut self,
        key: K,
        tally: &mut Tally,
    ) -> Result<Entry<'_, K, V, S, L>, RefusedKey<K>>
    where
        K: Drop,
        ensures* unchanged { sem 𝓛
            (RestsIfRefused K.row V.row S.row L.row S.Hasher.row self.entry result) }
        ensures makes { MakesEntryOrHandsBack L.LIMIT K.eq self.entry key result }
        ensures cost { IsInsertCost L.LIMIT K.eq S.hash self.old key (is_ok result)
            tally.old tally.new }
    {
        match self.prepare(&key, tally) {
            Ok(Place::Held(Found { index, bucket })) => Ok(Entry::Occupied(OccupiedEntry {
                map: self,
                index,
                bucket,
            })),
            Ok(Place::Vacant(vacancy)) => Ok(Entry::Vacant(VacantEntry {
                map: self,
                key,
                vacancy,
            })),
            Err(why) => Err(RefusedKey { key, why }),
        }
    }

    /// Returns the entry of the pair at this index, or none if the index is not below `len`. Nothing is hashed or
    /// compared, and no memory is needed. In a table the bucket of the pair is probed for.
    ///
    /// ```
    /// if let Some(mut entry) = ages.get_index_entry(1) {
    ///     *entry.get_key_value_mut().1 = 42;
    /// }
    /// assert_eq!(rt; ages.get(&2), Some(&42));
    /// ```
    #[inline(always)]
    #[tactic(auto, unfolding(crate::specs::EntryView::map_with_value))]
    pub fn get_index_entry(&mut self, index: usize) -> Option<OccupiedEntry<'_, K, V, S, L>>
        ensures* unchanged { sem 𝓛
            (RestsIfNoEntry K.row V.row S.row L.row S.Hasher.row self.entry result) }
        ensures entry { IfSome result (λ entry. IsEntryAt self.entry index (occupied entry)) }
        ensures held { IsSome result ↔ (index < length self.old.pairs) }
    {
        if index < self.len() {
            let Found { index, bucket } = self.place_of(index);
            Some(OccupiedEntry {
                map: self,
                index,
                bucket,
            })
        } else {
            None
        }
    }
}
