//! The map, and what it says of itself.
ghost use Rattle.std.specs.Prelude.{◌≡◌, ◌^◌, ◌<◌, ◌↔◌, false, [], length, IsTrue};
ghost use Rattle.halfbrown.specs.State.{IsValid, WithPairs};

mod by_index;
mod capacity;
mod clone;
mod collect;
mod debug;
mod equality;
mod find;
mod get;
mod inner;
mod insert;
mod into_iter;
mod iter;
mod make;
pub(crate) mod prepare;
mod remove;
mod retain;
mod switch;

use crate::{AtMost, KeyHasher, Limit};
use half_store::Store;
use std::hash::{BuildHasherDefault, FoldHasher, Hash};
use std::marker::{Model, PhantomData};

/// The builder that `new` uses. Its seed is fixed.
pub type DefaultHashBuilder = BuildHasherDefault<FoldHasher>;

/// A map that stores up to `N` pairs in a vector. The builder comes before the number, and `_` leaves it to the call
/// that makes the map:
///
/// ```
/// let mut scope = SizedHashMap::<u64, u32, _, 8>::new(alloc);
/// scope.insert(1, 36)?;
/// assert!(rt; scope.is_vec());
/// ```
pub type SizedHashMap<K, V, S, const N: usize> = LimitedHashMap<K, V, S, AtMost<N>>;

/// A map that stores up to 32 pairs in a vector. Another builder is the third argument of the type, and `with_hasher`
/// takes it.
pub type HashMap<K, V, S = DefaultHashBuilder> = LimitedHashMap<K, V, S, AtMost<32>>;

/// A map in two forms. Up to the limit its pairs are stored in a vector, which is searched by `==`, and nothing is
/// hashed. A full vector becomes a hash table at the next insertion, `entry` or `raw_entry_mut` that succeeds, even for
/// a key that is already held, and a map that is made with capacity for more pairs is a table at once. Only
/// `shrink_to_fit` turns it back, if no more pairs are held than the limit, and a `Drain` that is forgotten.
///
/// In both forms the pairs keep the order of their insertion, until a removal moves the last pair to the index that
/// became free, or, in a vector, `replace_entry_with` swaps its pair with the last. `shift_remove` keeps the order, and
/// takes longer.
///
/// A search in a vector hashes nothing, and compares keys up to the first that is equal. If keys have at most eight
/// bytes, most calls compare them 16 at a time, from the last of these to the first. A search in a table hashes the key
/// once, probes from its home bucket on, and compares only keys of the same hash. How many buckets it reads if it
/// finds nothing is decided by the home buckets of the held keys, whatever the history.
///
/// Its limit `L` is a type, `AtMost<8>` for 8 pairs. `SizedHashMap` takes the number instead. A function of maps of
/// every limit has `L: Limit` as a parameter. Most users need neither, and write `HashMap`.
pub struct LimitedHashMap<
    K: Eq + Hash,
    V,
    S: KeyHasher<K> = DefaultHashBuilder,
    L: Limit = AtMost<32>,
> {
    pub(crate) store: Store<K, V>,
    builder: S,
    limit: PhantomData<L>,
}

impl<K: Eq + Hash, V, S: KeyHasher<K>, L: Limit> Model for LimitedHashMap<K, V, S, L> {
    ghost use Rattle.halfbrown.specs.State.{State, state_code, state_in};
    ghost use Rattle.halfbrown.specs.Layout.{IsMapInvariant};

    ghost Value = { State K V S };

    ghost coded = { state_code K.code V.code S.code };

    ghost view = { λ m. state_in m.store m.builder };

    ghost invariant = { λ m. IsMapInvariant L.LIMIT K.eq (S.hash m.builder) m.store };
}

// Written out, since the limit is a type that no value of the map holds.
impl<K: Eq + Hash + Drop, V: Drop, S: KeyHasher<K> + Drop, L: Limit> Drop
    for LimitedHashMap<K, V, S, L> {
    fn drop(self) {
        let LimitedHashMap {
            store,
            builder,
            limit: _,
        } = self;
        drop(store);
        drop(builder);
    }
}

impl<K: Eq + Hash, V, S: KeyHasher<K>, L: Limit> LimitedHashMap<K, V, S, L> {
    /// Returns the number of pairs.
    ///
    /// ```
    /// assert_eq!(rt; ages.len(), 2);
    /// ```
    #[inline(always)]
    pub fn len(&self) -> usize
        ensures len { result ≡ length self.now.pairs }
        ensures small { result < 2 ^ 63 }
        ensures valid { IsValid L.LIMIT K.eq self.now }
    {
        self.columns().len()
    }

    /// Returns whether the map is empty.
    ///
    /// ```
    /// assert!(rt; !ages.is_empty());
    /// ```
    #[inline(always)]
    pub fn is_empty(&self) -> bool
        ensures { IsTrue result ↔ (length self.now.pairs ≡ 0) }
    {
        self.len() == 0
    }

    /// Returns whether the form is the vector.
    ///
    /// ```
    /// assert!(rt; ages.is_vec()); // two pairs, and the limit is 32
    /// ```
    #[inline(always)]
    pub fn is_vec(&self) -> bool
        ensures form { result ≡ self.now.is_vec }
        ensures valid { IsValid L.LIMIT K.eq self.now }
    {
        self.store.is_vec()
    }

    /// Returns whether the form is the table.
    ///
    /// ```
    /// assert!(rt; !ages.is_map());
    /// ```
    #[inline(always)]
    pub fn is_map(&self) -> bool
        ensures { IsTrue result ↔ (self.now.is_vec ≡ false) }
    {
        !self.store.is_vec()
    }

    /// Returns the builder that the map was made with, in both forms.
    ///
    /// ```
    /// let hash = ages.hasher().hash_one(&1u64); // the hash that a table of these ages stores for 1
    /// assert_eq!(rt; hash, DefaultHashBuilder::new().hash_one(&1u64));
    /// ```
    #[inline(always)]
    pub fn hasher(&self) -> &S
        ensures { result.now ≡ self.now.builder }
    {
        &self.builder
    }

    /// Returns how many pairs fit in all before more memory is needed. In a vector this is at most the limit.
    ///
    /// ```
    /// let ages = HashMap::<u64, u32>::with_capacity(alloc, 4)?;
    /// assert_eq!(rt; ages.capacity(), 4);
    /// ```
    #[inline(always)]
    pub fn capacity(&self) -> usize
        ensures { result ≡ self.now.capacity }
    {
        self.store.capacity()
    }

    /// Removes all pairs. The form, the capacity and the builder stay. Nothing is hashed, and a table empties all of its
    /// buckets.
    ///
    /// ```
    /// ages.clear();
    /// assert!(rt; ages.is_empty());
    /// ```
    pub fn clear(&mut self)
    where
        K: Drop,
        V: Drop,
        ensures after { WithPairs self.old [] self.new }
        ensures valid { IsValid L.LIMIT K.eq self.new }
    {
        self.store.clear();
    }
}
