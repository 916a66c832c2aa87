//! Keeping the pairs that a closure accepts.
ghost use Rattle.std.specs.Prelude.{◌≤◌, length};
ghost use Rattle.std.specs.Map.Calls.{CalledAtPair, TakesPair, CallableOnEachPair, RetainsPairs};
ghost use Rattle.halfbrown.specs.State.{IsValid, WithPairs};

use super::LimitedHashMap;
use crate::{KeyHasher, Limit};
use std::hash::Hash;

impl<K: Eq + Hash, V, S: KeyHasher<K>, L: Limit> LimitedHashMap<K, V, S, L> {
    /// Keeps the pairs that `f` accepts. `f` is called once at each pair, from first to last, and may change the value.
    /// The pairs that it accepts stay in their order, with the values that it left.
    ///
    /// The form, the capacity and the builder stay. No memory is taken, and nothing is hashed or compared. If a pair
    /// goes, a table empties all of its buckets, and probes anew for each pair that is kept.
    ///
    /// ```
    /// ages.retain(|_, age| {
    ///     *age = age.saturating_add(1);
    ///     *age < 40
    /// }); // those who are below 40 in a year, with their ages then
    /// assert_eq!(rt; ages.len(), 1);
    /// assert_eq!(rt; ages.get(&1), Some(&37));
    /// ```
    pub fn retain<F: FnMut(&K, &mut V) -> bool>(&mut self, f: F)
    where
        K: Drop,
        V: Drop,
        requires { CallableOnEachPair (CalledAtPair F.FnMut) (TakesPair F.FnMut) f self.old.pairs }
        ensures kept { RetainsPairs (CalledAtPair F.FnMut) f self.old.pairs self.new.pairs }
        ensures len { length self.new.pairs ≤ length self.old.pairs }
        ensures after { WithPairs self.old self.new.pairs self.new }
        ensures valid { IsValid L.LIMIT K.eq self.new }
    {
        self.store.retain(f);
    }
}
