//! A cache of a bounded size, which forgets the pair that was used longest ago.
ghost use Rattle.std.specs.Map.{lookup, remove_entry};
ghost use Rattle.std.specs.Option.{option_copied};
ghost use Rattle.std.specs.Prelude.{◌≡◌, ◌+◌, ◌-◌, ◌<◌, ◌≤◌, true, false, Some, [], ◌∷◌, ◌++◌, length, IfErr, IfOk, IfSome};
ghost use Rattle.halfbrown.specs.Pairs.{value_of, holds, holds_by};
ghost use Rattle.halfbrown.specs.Refusal.{refusal_of};
ghost use Rattle.halfbrown.specs.Updates.{HasPut};
ghost use Rattle.half_uses.specs.BoundedCache.{newest, refreshed, making_way};

use halfbrown::{Equivalent, HashMap, Refusal};
use std::alloc::Global;
use std::hash::Hash;

/// The pairs that were used last, never more than the bound. `new` takes all the memory, so that no other call fails.
///
/// The pairs stand in the order of their last use, the oldest first, so that a use moves each pair behind its own. With a bound
/// of at most 32 the map stays a vector, and nothing is ever hashed. With a larger one it is a table, and a use goes over all
/// of its buckets: for thousands of pairs take another structure.
///
/// ```
/// let mut cache = BoundedCache::<u64, u64>::new(alloc, 2)?;
/// cache.insert(1, 10);
/// cache.insert(2, 20);
/// let hit = cache.get(&1); // Some(10), and 2 is the oldest now
/// let forgotten = cache.insert(3, 30); // Some((2, 20))
/// ```
#[derive(Drop)]
pub struct BoundedCache<K: Eq + Hash, V> {
    held: HashMap<K, V>,
    bound: usize,
    ghost within: { length held.pairs ≤ bound },
    ghost room: { bound ≤ held.capacity },
    ghost some: { 0 < bound },
    ghost vector: { bound ≤ 32 → held.is_vec ≡ true },
}

impl<K: Eq + Hash, V> BoundedCache<K, V> {
    /// No pairs, and memory for as many as the bound, which is not 0. Fails only where that memory is refused, or the bound is
    /// more than 2^60.
    ///
    /// ```
    /// let cache = BoundedCache::<u64, u64>::new(alloc, 100)?;
    /// ```
    pub fn new(alloc: Global, bound: usize) -> Result<BoundedCache<K, V>, Refusal>
        requires { 0 < bound }
        ensures pairs { IfOk result (λ cache. cache.held.pairs ≡ []) }
        ensures bound { IfOk result (λ cache. cache.bound ≡ bound) }
        ensures refused { IfErr result (λ why. why ≡ refusal_of bound) }
    {
        let held = HashMap::with_capacity(alloc, bound)?;
        Ok(BoundedCache { held, bound })
    }

    /// How many pairs are held.
    pub fn len(&self) -> usize
        ensures len { result ≡ length self.now.held.pairs }
        ensures within { result ≤ self.now.bound }
    {
        self.held.len()
    }

    /// The value of a key, where it is held. This is no use of it: all pairs keep their order. It costs one search.
    ///
    /// ```
    /// let value = cache.peek(&1).copied();
    /// ```
    pub fn peek<Q: Equivalent<K>>(&self, key: Q) -> Option<&V>
        ensures { option_copied result ≡ lookup (Q.equivalent key) self.now.held.pairs }
    {
        self.held.get(key)
    }

    /// The value of a key, where it is held. It is used thereby: its pair is the newest now, and no key's value changes. It costs
    /// one search where it finds none, and else one more than `refresh`. A value that is not `Copy` is read by `peek`, after
    /// `refresh`.
    ///
    /// ```
    /// let value = cache.get(&1).unwrap_or(0);
    /// ```
    pub fn get<Q: Equivalent<K>>(&mut self, key: Q) -> Option<V>
    where
        K: Drop,
        V: Copy,
        ensures value { result ≡ lookup (Q.equivalent key) self.old.held.pairs }
        ensures after { self.new.held.pairs ≡ refreshed (Q.equivalent key) self.old.held.pairs }
        ensures values { (any : K) → value_of K.eq self.new.held.pairs any ≡ value_of K.eq self.old.held.pairs any }
        ensures bound { self.new.bound ≡ self.old.bound }
    {
        let value = self.held.get(key).copied()?;
        self.refresh(key);
        Some(value)
    }

    /// Makes the pair of a key the newest, and returns whether it is held. No key's value changes. It costs one search, and moves
    /// each pair behind it; in a table it also hashes and probes for the new place, and goes over all buckets.
    ///
    /// ```
    /// if cache.refresh(&1) {
    ///     let value = cache.peek(&1);
    /// }
    /// ```
    pub fn refresh<Q: Equivalent<K>>(&mut self, key: Q) -> bool
    where
        K: Drop,
        V: Drop,
        ensures held { result ≡ holds_by (Q.equivalent key) self.old.held.pairs }
        ensures after { self.new.held.pairs ≡ refreshed (Q.equivalent key) self.old.held.pairs }
        ensures values { (any : K) → value_of K.eq self.new.held.pairs any ≡ value_of K.eq self.old.held.pairs any }
        ensures bound { self.new.bound ≡ self.old.bound }
    {
        match self.held.shift_remove_entry(key) {
            Some((held, value)) => {
                insert_within(&mut self.held, held, value);
                true
            }
            None => false,
        }
    }

    /// Gives a key its value, as the newest pair. It returns the pair that made way: the one that the key had, or, where as many
    /// others are held as the bound allows, the oldest. It costs what `refresh` costs, and never fails.
    ///
    /// ```
    /// if let Some((key, value)) = cache.insert(4, 40) {
    ///     store(key, value)?;
    /// }
    /// ```
    pub fn insert(&mut self, key: K, value: V) -> Option<(K, V)>
    where
        K: Drop,
        V: Drop,
        ensures way { result ≡ making_way K.eq self.old.bound self.old.held.pairs key }
        ensures after { self.new.held.pairs
            ≡ newest self.old.bound (remove_entry (K.eq key) self.old.held.pairs ++ (key, value) ∷ []) }
        ensures value { value_of K.eq self.new.held.pairs key ≡ Some value }
        // Each other key has what it had, but for the one that made way.
        ensures others { (other : K) → K.eq key other ≡ false → IfSome result (λ gone. K.eq gone.0 other ≡ false)
            → value_of K.eq self.new.held.pairs other ≡ value_of K.eq self.old.held.pairs other }
        ensures bound { self.new.bound ≡ self.old.bound }
    {
        let gone = self.make_way(&key);
        insert_within(&mut self.held, key, value);
        gone
    }

    /// Forgets a key, and returns its value. The others keep their order. It costs one search, and moves each pair behind it.
    ///
    /// ```
    /// let value = cache.remove(&1);
    /// ```
    pub fn remove<Q: Equivalent<K>>(&mut self, key: Q) -> Option<V>
    where
        K: Drop,
        ensures value { result ≡ lookup (Q.equivalent key) self.old.held.pairs }
        ensures after { self.new.held.pairs ≡ remove_entry (Q.equivalent key) self.old.held.pairs }
        ensures bound { self.new.bound ≡ self.old.bound }
    {
        self.held.shift_remove(key)
    }

    // Removes the pair of this key, or, where as many others are held as the bound allows, the oldest.
    fn make_way(&mut self, key: &K) -> Option<(K, V)>
        ensures way { result ≡ making_way K.eq self.old.bound self.old.held.pairs key.now }
        ensures left { self.new.held.pairs
            ≡ newest (self.old.bound - 1) (remove_entry (K.eq key.now) self.old.held.pairs) }
        ensures others { (other : K) → K.eq key.now other ≡ false → IfSome result (λ gone. K.eq gone.0 other ≡ false)
            → value_of K.eq self.new.held.pairs other ≡ value_of K.eq self.old.held.pairs other }
        ensures absent { holds K.eq self.new.held.pairs key.now ≡ false }
        ensures room { length self.new.held.pairs < self.new.bound }
        ensures bound { self.new.bound ≡ self.old.bound }
    {
        match self.held.shift_remove_entry(key) {
            Some(pair) => Some(pair),
            None if self.held.len() == self.bound => self.held.shift_remove_index(0),
            None => None,
        }
    }
}

// Adds a pair to a map that has capacity for it, which needs no memory.
fn insert_within<K: Eq + Hash + Drop, V: Drop>(held: &mut HashMap<K, V>, key: K, value: V)
    requires new { holds K.eq held.old.pairs key ≡ false }
    requires room { length held.old.pairs < held.old.capacity }
    ensures pairs { held.new.pairs ≡ held.old.pairs ++ (key, value) ∷ [] }
    ensures len { length held.new.pairs ≡ length held.old.pairs + 1 }
    ensures put { HasPut K.eq held.old.pairs key value held.new.pairs }
    ensures capacity { held.new.capacity ≡ held.old.capacity }
    ensures form { length held.old.pairs < 32 → held.new.is_vec ≡ held.old.is_vec }
{
    // A vector has no more capacity than its limit, as `len` states. So one with capacity left is not full.
    let _len = held.len();
    let inserted = held.insert_nocheck(key, value);
    inserted.unwrap();
}
