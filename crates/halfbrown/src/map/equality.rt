//! Whether two maps hold the same pairs, in any order and whatever their forms.
ghost use Rattle.std.specs.Prelude.{◌≡◌};
ghost use Rattle.std.specs.List.{list_all};
ghost use Rattle.halfbrown.specs.Costs.{AreSearchCosts};
ghost use Rattle.halfbrown.specs.Equality.{same_pairs, holds_equal_pair, keys_while_same, searched_keys, equal_maps_per};
ghost use Rattle.halfbrown.specs.Equality.{equal_maps_equiv};

use super::LimitedHashMap;
use crate::{KeyHasher, Limit};
use half_store::{Tally, uncounted};
use std::hash::Hash;

impl<K: Eq + Hash, V: PartialEq, S: KeyHasher<K>, L: Limit> LimitedHashMap<K, V, S, L> {
    /// Returns whether both maps hold equal keys with equal values, in any order. The other map may have another limit,
    /// another builder and another form.
    ///
    /// If the lengths differ it costs nothing. Otherwise it costs at most one search in the other map for each pair of
    /// this one. The crate `half_laws` says what follows from the answer, and bounds its cost.
    ///
    /// ```
    /// let theirs = SizedHashMap::<u64, u32, DefaultHashBuilder, 0>::from_array(alloc, [(2, 41), (1, 36)])?;
    /// assert!(rt; theirs.is_map());
    /// assert!(rt; ages.same_pairs(&theirs));
    /// ```
    #[inline]
    pub fn same_pairs<S2: KeyHasher<K>, M: Limit>(
        &self,
        other: &LimitedHashMap<K, V, S2, M>,
    ) -> bool
        ensures { result ≡ same_pairs K.eq V.eq self.now.pairs other.now.pairs }
    {
        uncounted!(self.same_pairs_counted(other))
    }

    /// `same_pairs`, with its work counted: nothing if the lengths differ, otherwise one search in the other map for each
    /// pair of this one, in order, up to the first that is not held there. Comparisons of values are not counted.
    pub fn same_pairs_counted<S2: KeyHasher<K>, M: Limit>(
        &self,
        other: &LimitedHashMap<K, V, S2, M>,
        tally: &mut Tally,
    ) -> bool
        ensures same { result ≡ same_pairs K.eq V.eq self.now.pairs other.now.pairs }
        ensures cost { AreSearchCosts K.eq S2.hash
            other.now (searched_keys K.eq V.eq self.now.pairs other.now.pairs) tally.old tally.new }
    {
        if self.len() != other.len() {
            return false;
        }
        self.is_held_by(other, tally)
    }

    /// Whether the other map holds each pair of this one. The keys are searched for there, in order, and the search ends with
    /// the first pair that is not held.
    fn is_held_by<S2: KeyHasher<K>, M: Limit>(
        &self,
        other: &LimitedHashMap<K, V, S2, M>,
        tally: &mut Tally,
    ) -> bool
        ensures held { result ≡ list_all (holds_equal_pair K.eq V.eq other.now.pairs) self.now.pairs }
        ensures cost { AreSearchCosts K.eq S2.hash other.now
            (keys_while_same K.eq V.eq self.now.pairs other.now.pairs) tally.old tally.new }
    {
        for index in 0..self.len() {
            let (key, value) = self.pair_at(index);
            if Some(value) != other.get_counted(key, tally) {
                return false;
            }
        }
        true
    }
}

impl<K: Eq + Hash, V: PartialEq, S: KeyHasher<K>, L: Limit> PartialEq
    for LimitedHashMap<K, V, S, L> {
    ghost eq = { λ a b. same_pairs K.eq V.eq a.pairs b.pairs };

    ghost laws = { equal_maps_per K.eq V.eq K.Eq.laws V.laws };

    /// Returns whether both maps hold equal keys with equal values, in any order, as `same_pairs` does.
    ///
    /// ```
    /// let others = HashMap::from_array(alloc, [(2, 41), (1, 36)])?;
    /// assert!(rt; ages == others);
    /// ```
    #[inline]
    fn eq(&self, other: &Self) -> bool {
        self.same_pairs(other)
    }
}

impl<K: Eq + Hash, V: Eq, S: KeyHasher<K>, L: Limit> Eq for LimitedHashMap<K, V, S, L> {
    ghost laws = { equal_maps_equiv K.eq V.eq K.Eq.laws V.Eq.laws };
}
