//! What `drain` returns: the pairs of a map, taken out of it in order.
ghost use Rattle.std.specs.Prelude.{◌≡◌, ◌^◌, ◌<◌, ◌≤◌, true, false, [], length, Some, IfSome};
ghost use Rattle.std.specs.Iterator.{at_most, UpTo};
ghost use Rattle.std.specs.Iterator.SizeHint.{IsWithinCount};
ghost use Rattle.half_store.specs.Capacity.{IsFormCapacity};
ghost use Rattle.halfbrown.specs.State.{IsValid, WithPairs};

use crate::{AtMost, DefaultHashBuilder, KeyHasher, Limit, LimitedHashMap};
use half_store::{Drained, IntoStore};
use std::hash::Hash;
use std::iter::FusedIterator;

/// The pairs that `drain` takes out of a map, in order. It knows how many are left. Once it is dropped the map holds no
/// pair.
///
/// ```
/// fn count(pairs: Drain<'_, u64, u32>) -> usize {
///     pairs.len()
/// }
/// assert_eq!(rt; count(ages.drain()), 2);
/// ```
pub struct Drain<
    'a,
    K: Eq + Hash,
    V,
    S: KeyHasher<K> = DefaultHashBuilder,
    L: Limit = AtMost<32>,
    P: IntoStore<K, V> = Drained<K, V>,
> {
    // an empty vector, until its store is put back
    map: &'a mut LimitedHashMap<K, V, S, L>,
    // its store, with the pairs that are still to come
    pairs: P,
    ghost allowed: { IsFormCapacity L.LIMIT (P.store pairs).is_vec (P.store pairs).capacity },
}

impl<'a, K: Eq + Hash + Drop, V: Drop, S: KeyHasher<K>, L: Limit, P: IntoStore<K, V>> Drop
    for Drain<'a, K, V, S, L, P> {
    ghost use Rattle.halfbrown.specs.Drain.{map_once_dropped};

    fn drop(self)
        ensures after { WithPairs (map_once_dropped self.entry) [] self.exit.0.now }
        ensures valid { IsValid L.LIMIT K.eq self.exit.0.now }
    {
        let Drain { map, pairs } = self;
        map.store = pairs.into_store();
    }
}

impl<K: Eq + Hash, V, S: KeyHasher<K>, L: Limit> LimitedHashMap<K, V, S, L> {
    ghost use Rattle.halfbrown.specs.Drain.{pairs_to_come, map_once_dropped, StepsThroughPairs};

    /// Takes all pairs out, and returns them in order. Once what it returns is dropped, even before its end, the map
    /// holds no pair: those that were left are dropped too. The form, the capacity and the builder stay.
    ///
    /// It needs no memory, and nothing is hashed or compared. Each step only moves its pair, and in a table the buckets
    /// are emptied at the end.
    ///
    /// ```
    /// let mut pairs = ages.drain();
    /// assert_eq!(rt; pairs.next(), Some((1, 36)));
    /// drop(pairs); // and with it the other pairs
    /// assert!(rt; ages.is_empty());
    /// ```
    pub fn drain(&mut self) -> Drain<'_, K, V, S, L>
        ensures pairs { pairs_to_come result ≡ self.old.pairs }
        ensures small { length (pairs_to_come result) < 2 ^ 63 }
        ensures after { WithPairs self.old [] (map_once_dropped result) }
        ensures runs { StepsThroughPairs self.entry.ghost_name result }
    {
        let pairs = self.store.drain();
        Drain { map: self, pairs }
    }
}

impl<'a, K: Eq + Hash + Drop, V: Drop, S: KeyHasher<K>, L: Limit> Iterator
    for Drain<'a, K, V, S, L> {
    ghost use Rattle.halfbrown.specs.Drain.{pairs_to_come, DrainSteps};

    type Item = (K, V);

    ghost next_gives = { DrainSteps };

    ghost remaining = { λ s. at_most (length (pairs_to_come s)) };

    #[inline]
    fn next(&mut self) -> Option<(K, V)> {
        let pair = self.pairs.pop_front()?;
        Some(pair)
    }

    fn size_hint(&self) -> (usize, Option<usize>)
        ensures lower { IsWithinCount result.0 (at_most (length (pairs_to_come self.now))) }
        ensures upper { IfSome result.1 (UpTo (at_most (length (pairs_to_come self.now)))) }
        ensures exact { result ≡ (length (pairs_to_come self.now), Some (length (pairs_to_come self.now))) }
    {
        let len = self.pairs.len();
        (len, Some(len))
    }
}

impl<'a, K: Eq + Hash + Drop, V: Drop, S: KeyHasher<K>, L: Limit> ExactSizeIterator
    for Drain<'a, K, V, S, L> {
    fn len(&self) -> usize {
        self.pairs.len()
    }
}

impl<'a, K: Eq + Hash + Drop, V: Drop, S: KeyHasher<K>, L: Limit> FusedIterator
    for Drain<'a, K, V, S, L> {}
