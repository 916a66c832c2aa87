//! A cache whose keys are hashed once, by whoever asks for them.
ghost use Rattle.std.specs.Prelude.{◌≡◌, None, Some, false, [], IfErr, IfOk, OnOk, OnErr};
ghost use Rattle.std.specs.Map.{keys_of};
ghost use Rattle.std.specs.Option.{option_copied, UnwrapsOrElse};
ghost use Rattle.halfbrown.specs.Costs.{IsSearchCost};
ghost use Rattle.halfbrown.specs.Growth.{IsRefusal, capacity_for_new_key};
ghost use Rattle.halfbrown.specs.Pairs.{index_of, value_of, holds};

use halfbrown::{KeyHasher, RawEntryMut, Refusal, SizedHashMap, Tally};
use std::alloc::Global;
use std::hash::{BuildHasher, Hash};
use std::marker::Model;

/// A key with its hash.
#[derive(Drop)]
pub struct Hashed<K> {
    pub key: K,
    pub hash: u64,
}

/// Values that are expensive to compute, by the keys that they are computed from.
///
/// Each key is hashed once, by `hashed`. No other call hashes any: the clause `hashes` says so of each call that changes the cache,
/// and the clause `cost` of `get`. The map is a table from the first value on, so no switch hashes again what is held.
#[derive(Drop)]
pub struct Cache<K: Eq + Hash, V, S: BuildHasher> {
    values: SizedHashMap<K, V, S, 0>,
}

impl<K: Eq + Hash, V, S: BuildHasher> Model for Cache<K, V, S> {
    ghost use Rattle.halfbrown.specs.State.{State, state_code};

    ghost Value = { State K V S };

    ghost coded = { state_code K.code V.code S.code };

    ghost view = { λ c. c.values };
}

impl<K: Eq + Hash, V, S: BuildHasher> Cache<K, V, S> {
    /// No values, and a builder that hashes the keys.
    pub fn new(alloc: Global, builder: S) -> Cache<K, V, S>
        ensures pairs { result.pairs ≡ [] }
        ensures builder { result.builder ≡ builder }
    {
        Cache {
            values: SizedHashMap::with_hasher(alloc, builder),
        }
    }

    /// A key with its hash: all that the cache ever hashes of it.
    pub fn hashed(&self, key: K) -> Hashed<K>
        ensures key { result.key ≡ key }
        ensures hash { result.hash ≡ ⟦<S as KeyHasher<K>>⟧.hash self.now.builder key }
    {
        let hash = self.values.hasher().hash_one(&key);
        Hashed { key, hash }
    }

    /// The value of a key, where one is cached. It costs one search by the known hash: nothing is hashed.
    pub fn get(&self, key: &Hashed<K>, tally: &mut Tally) -> Option<&V>
        requires { key.now.hash ≡ ⟦<S as KeyHasher<K>>⟧.hash self.now.builder key.now.key }
        ensures value { option_copied result ≡ value_of K.eq self.now.pairs key.now.key }
        ensures cost { IsSearchCost ⟦<S as KeyHasher<K>>⟧.hash (⟦<S as KeyHasher<K>>⟧.hash self.now.builder key.now.key)
            self.now (index_of (K.eq key.now.key) (keys_of self.now.pairs)) 0 tally.old tally.new }
    {
        self.values
            .raw_entry()
            .from_key_hashed_nocheck_counted(key.hash, &key.key, tally)
            .map(|pair| pair.1)
    }

    /// The value of a key, which is computed where none is cached. Nothing is hashed. Fails only where the map needs memory for one
    /// value more, also where this one is cached, and then nothing changes.
    pub fn get_or_insert_with<F: FnOnce() -> V>(
        &mut self,
        key: Hashed<K>,
        compute: F,
        tally: &mut Tally,
    ) -> Result<V, Refusal>
    where
        K: Drop,
        V: Copy,
        requires hash { key.hash ≡ ⟦<S as KeyHasher<K>>⟧.hash self.old.builder key.key }
        requires computes { value_of K.eq self.old.pairs key.key ≡ None → F.pre compute }
        ensures value { IfOk result (UnwrapsOrElse (value_of K.eq self.old.pairs key.key) (F.post compute)) }
        ensures cached { IfOk result (λ value. value_of K.eq self.new.pairs key.key ≡ Some value) }
        ensures others { OnOk result ((other : K) → K.eq key.key other ≡ false
            → value_of K.eq self.new.pairs other ≡ value_of K.eq self.old.pairs other) }
        ensures hashes { tally.new.asked ≡ tally.old.asked }
        ensures builder { self.new.builder ≡ self.old.builder }
        ensures refused { IfErr result (IsRefusal (capacity_for_new_key 0 self.old)) }
        ensures err { OnErr result (self.new ≡ self.old) }
    {
        value_in(&mut self.values, key.hash, key.key, compute, tally)
    }

    /// Forgets the value of a key, and returns it. Nothing is hashed, and no memory is needed.
    pub fn remove(&mut self, key: &Hashed<K>, tally: &mut Tally) -> Option<V>
    where
        K: Drop,
        requires { key.now.hash ≡ ⟦<S as KeyHasher<K>>⟧.hash self.old.builder key.now.key }
        ensures value { result ≡ value_of K.eq self.old.pairs key.now.key }
        ensures forgotten { holds K.eq self.new.pairs key.now.key ≡ false }
        ensures others { (other : K) → K.eq key.now.key other ≡ false
            → value_of K.eq self.new.pairs other ≡ value_of K.eq self.old.pairs other }
        ensures hashes { tally.new.asked ≡ tally.old.asked }
        ensures builder { self.new.builder ≡ self.old.builder }
    {
        let (_, value) = self
            .values
            .remove_entry_hashed_nocheck_counted(key.hash, &key.key, tally)?;
        Some(value)
    }
}

// The value of a key with this hash, which is computed where there is none.
fn value_in<K: Eq + Hash + Drop, V: Copy, S: BuildHasher, F: FnOnce() -> V>(
    values: &mut SizedHashMap<K, V, S, 0>,
    hash: u64,
    key: K,
    compute: F,
    tally: &mut Tally,
) -> Result<V, Refusal>
    requires hash { hash ≡ ⟦<S as KeyHasher<K>>⟧.hash values.old.builder key }
    requires computes { value_of K.eq values.old.pairs key ≡ None → F.pre compute }
    ensures value { IfOk result (UnwrapsOrElse (value_of K.eq values.old.pairs key) (F.post compute)) }
    ensures cached { IfOk result (λ value. value_of K.eq values.new.pairs key ≡ Some value) }
    ensures others { OnOk result ((other : K) → K.eq key other ≡ false
        → value_of K.eq values.new.pairs other ≡ value_of K.eq values.old.pairs other) }
    ensures hashes { tally.new.asked ≡ tally.old.asked }
    ensures builder { values.new.builder ≡ values.old.builder }
    ensures refused { IfErr result (IsRefusal (capacity_for_new_key 0 values.old)) }
    ensures err { OnErr result (values.new ≡ values.old) }
{
    let found = values
        .raw_entry_mut_counted(tally)?
        .from_key_hashed_nocheck_counted(hash, &key, tally);
    match found {
        RawEntryMut::Occupied(entry) => Ok(*entry.into_mut()),
        RawEntryMut::Vacant(entry) => {
            let entry = entry.insert_entry_hashed_nocheck_counted(hash, key, compute(), tally);
            Ok(*entry.into_mut())
        }
    }
}
