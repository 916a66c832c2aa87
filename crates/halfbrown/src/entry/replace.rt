//! An entry whose value is handed to a closure.
ghost use Rattle.std.specs.Prelude.{◌≡◌, Some};
ghost use Rattle.std.specs.Borrow.{Bor};
ghost use Rattle.halfbrown.specs.Entry.{occupied, view};
ghost use Rattle.halfbrown.specs.EntryView.{entry_pair, map_of};
ghost use Rattle.halfbrown.specs.Replacement.{ReplacesEntry, IsReplacementCost};
ghost use Rattle.halfbrown.specs.State.{IsValid};

use super::{Entry, OccupiedEntry, VacantEntry};
use crate::{KeyHasher, Limit};
use half_store::{Found, Tally, uncounted};
use std::hash::Hash;

impl<'a, K: Eq + Hash, V, S: KeyHasher<K>, L: Limit> OccupiedEntry<'a, K, V, S, L> {
    /// Passes the stored key and its value to `f`, and stores the value that `f` returns. In a vector the pair then
    /// goes last, and the last pair takes its index. In a table it keeps its index.
    ///
    /// If `f` returns `None` the pair is removed, and the last pair takes its index. The entry that is returned is
    /// vacant and has the stored key, and an insertion through it needs no more capacity. In a table that costs one
    /// insertion probe, since a removal moves the empty buckets.
    ///
    /// ```
    /// if let Entry::Occupied(entry) = ages.entry(1)? {
    ///     entry.replace_entry_with(|_, age| age.checked_sub(6));
    /// }
    /// assert_eq!(rt; ages.get(&1), Some(&30));
    /// ```
    #[inline]
    pub fn replace_entry_with<F: FnOnce(&K, V) -> Option<V>>(self, f: F) -> Entry<'a, K, V, S, L>
        requires { (key : Bor K) (value : V) → entry_pair (occupied self) ≡ Some (key.now, value)
            → F.pre f key value }
        ensures replaced { ReplacesEntry (F.post f) (occupied self.entry) (view result) }
        ensures same_map { (view result).map.ghost_name ≡ self.entry.map.ghost_name }
        ensures valid { IsValid L.LIMIT K.eq (map_of (view result)) }
    {
        uncounted!(self.replace_entry_with_counted(f))
    }

    /// `replace_entry_with`, with its work counted: one insertion probe if the pair is removed from a table.
    #[inline]
    pub fn replace_entry_with_counted<F: FnOnce(&K, V) -> Option<V>>(
        self,
        f: F,
        tally: &mut Tally,
    ) -> Entry<'a, K, V, S, L>
        requires { (key : Bor K) (value : V) → entry_pair (occupied self) ≡ Some (key.now, value)
            → F.pre f key value }
        ensures replaced { ReplacesEntry (F.post f) (occupied self.entry) (view result) }
        ensures same_map { (view result).map.ghost_name ≡ self.entry.map.ghost_name }
        ensures valid { IsValid L.LIMIT K.eq (map_of (view result)) }
        ensures cost { IsReplacementCost S.hash (view result) tally.old tally.new }
    {
        let index = self.index;
        let bucket = self.bucket;
        let map = self.map;
        match map.replace_at(Found { index, bucket }, f) {
            Ok(Found { index, bucket }) => Entry::Occupied(OccupiedEntry { map, index, bucket }),
            Err((key, hash)) => {
                let vacancy = map.vacancy_for(hash, tally);
                Entry::Vacant(VacantEntry { map, key, vacancy })
            }
        }
    }
}
