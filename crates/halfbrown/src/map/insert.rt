//! Insertion, and what it writes: a value replaced, or a pair added whose key is not held.
ghost use Rattle.std.specs.Prelude.{◌≡◌, false, is_ok};
ghost use Rattle.halfbrown.specs.CostRanges.{TallyGrewBy};
ghost use Rattle.halfbrown.specs.Costs.{new_key_cost, IsInsertCost};
ghost use Rattle.halfbrown.specs.Insertion.{PutsOrHandsBack, PutsOrHandsBackWithIndex, PutsNewKeyOrHandsBack};
ghost use Rattle.halfbrown.specs.Pairs.{holds};

use super::LimitedHashMap;
use super::prepare::Place;
use crate::{KeyHasher, Limit, Refused};
use half_store::{Tally, uncounted};
use std::hash::Hash;

impl<K: Eq + Hash, V, S: KeyHasher<K>, L: Limit> LimitedHashMap<K, V, S, L> {
    /// Gives the key this value, and returns its old one.
    ///
    /// If an equal key is held, that key stays at its index, and the given key is dropped. Otherwise the pair is added at
    /// the end. A vector that holds as many pairs as the limit becomes a table first, in both cases.
    ///
    /// Fails only if more capacity is needed: for the switch, or for a new key if none is left. Then nothing
    /// changes, and the error has the pair.
    ///
    /// It costs one search, and a switch hashes each key once. Growth hashes nothing, and a table that grows is probed a
    /// second time.
    ///
    /// ```
    /// assert_eq!(rt; ages.insert(3, 5)?, None);
    /// assert_eq!(rt; ages.insert(3, 6)?, Some(5));
    /// ```
    #[inline(always)]
    pub fn insert(&mut self, key: K, value: V) -> Result<Option<V>, Refused<K, V>>
    where
        K: Drop,
        ensures { PutsOrHandsBack L.LIMIT K.eq self.old key value result self.new }
    {
        uncounted!(self.insert_counted(key, value))
    }

    /// `insert`, with its work counted: one search, one hash for each pair at a switch, and one insertion probe if a new
    /// key makes the table grow.
    #[inline(always)]
    pub fn insert_counted(
        &mut self,
        key: K,
        value: V,
        tally: &mut Tally,
    ) -> Result<Option<V>, Refused<K, V>>
    where
        K: Drop,
        ensures inserts { PutsOrHandsBack L.LIMIT K.eq self.old key value result self.new }
        ensures cost { IsInsertCost L.LIMIT K.eq S.hash self.old key (is_ok result)
            tally.old tally.new }
    {
        // Not by `insert_full_counted`: some loops of a caller then take up to 1.3 times as long.
        match self.prepare(&key, tally) {
            Ok(Place::Held(found)) => Ok(Some(self.set_at(found.index, value))),
            Ok(Place::Vacant(vacancy)) => {
                self.push(key, value, vacancy);
                Ok(None)
            }
            Err(why) => Err(Refused { key, value, why }),
        }
    }

    /// `insert`, which returns the index of the pair too.
    ///
    /// ```
    /// assert_eq!(rt; ages.insert_full(2, 42)?, (1, Some(41)));
    /// assert_eq!(rt; ages.insert_full(3, 5)?, (2, None));
    /// ```
    #[inline]
    pub fn insert_full(&mut self, key: K, value: V) -> Result<(usize, Option<V>), Refused<K, V>>
    where
        K: Drop,
        ensures { PutsOrHandsBackWithIndex L.LIMIT K.eq self.old key value result self.new }
    {
        uncounted!(self.insert_full_counted(key, value))
    }

    /// `insert_full`, with its work counted: that of `insert`.
    #[inline(always)]
    pub fn insert_full_counted(
        &mut self,
        key: K,
        value: V,
        tally: &mut Tally,
    ) -> Result<(usize, Option<V>), Refused<K, V>>
    where
        K: Drop,
        ensures inserts { PutsOrHandsBackWithIndex L.LIMIT K.eq self.old key value result self.new }
        ensures cost { IsInsertCost L.LIMIT K.eq S.hash self.old key (is_ok result)
            tally.old tally.new }
    {
        match self.prepare(&key, tally) {
            Ok(Place::Held(found)) => Ok((found.index, Some(self.set_at(found.index, value)))),
            Ok(Place::Vacant(vacancy)) => {
                let added = self.push(key, value, vacancy);
                Ok((added.index, None))
            }
            Err(why) => Err(Refused { key, value, why }),
        }
    }

    /// Adds a pair without a search for its key, which must not be held.
    ///
    /// Fails as `insert` of a new key does. It compares no key. In a table it hashes the key once, and probes for an empty
    /// bucket.
    ///
    /// ```
    /// if !ages.contains_key(&3) {
    ///     ages.insert_nocheck(3, 5)?;
    /// }
    /// assert_eq!(rt; ages.get(&3), Some(&5));
    /// ```
    #[inline(always)]
    pub fn insert_nocheck(&mut self, key: K, value: V) -> Result<(), Refused<K, V>>
        requires { holds K.eq self.old.pairs key ≡ false }
        ensures { PutsNewKeyOrHandsBack L.LIMIT K.eq self.old key value result self.new }
    {
        uncounted!(self.insert_nocheck_counted(key, value))
    }

    /// `insert_nocheck`, with its work counted: one hash for each pair at a switch, and in a table one hash of the key and
    /// one insertion probe. No key is compared.
    #[inline(always)]
    pub fn insert_nocheck_counted(
        &mut self,
        key: K,
        value: V,
        tally: &mut Tally,
    ) -> Result<(), Refused<K, V>>
        requires { holds K.eq self.old.pairs key ≡ false }
        ensures inserts { PutsNewKeyOrHandsBack L.LIMIT K.eq self.old key value result self.new }
        ensures cost { TallyGrewBy (new_key_cost L.LIMIT K.eq S.hash self.old key (is_ok result))
            tally.old tally.new }
    {
        match self.prepare_new(&key, tally) {
            Ok(vacancy) => {
                self.push(key, value, vacancy);
                Ok(())
            }
            Err(why) => Err(Refused { key, value, why }),
        }
    }
}
