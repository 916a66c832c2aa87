//! Making a map.
ghost use Rattle.std.specs.Prelude.{◌≡◌, min, IfOk};
ghost use Rattle.halfbrown.specs.Making.{IsDefaultBuilder, IsNew, MakesOrRefuses};
ghost use Rattle.halfbrown.specs.State.{IsValid};

use super::{DefaultHashBuilder, LimitedHashMap};
use crate::{KeyHasher, Limit};
use half_store::{Refusal, Store};
use std::alloc::Global;
use std::hash::{BuildHasherDefault, Hash};
use std::marker::PhantomData;

impl<K: Eq + Hash, V, L: Limit> LimitedHashMap<K, V, DefaultHashBuilder, L> {
    /// Returns an empty vector with the default builder. It takes no memory. `with_hasher` takes another builder.
    ///
    /// ```
    /// let ages = HashMap::<u64, u32>::new(alloc);
    /// assert!(rt; ages.is_empty() && ages.is_vec());
    /// ```
    pub fn new(alloc: Global) -> Self
        ensures made { IsNew IsDefaultBuilder result }
        ensures valid { IsValid L.LIMIT K.eq result }
    {
        LimitedHashMap::with_hasher(alloc, BuildHasherDefault::new())
    }

    /// Returns an empty map with the default builder and capacity for this many pairs: a vector if the limit allows
    /// them, otherwise a table. `with_capacity_and_hasher` takes another builder.
    ///
    /// A vector has exactly this capacity, and a table the least of 3, 6, 12, 24 and so on that is enough. It fails
    /// with `Size` for more than 2^60 pairs, and with `Memory` if memory is refused. For no pairs it takes no memory,
    /// and never fails.
    ///
    /// ```
    /// let small = HashMap::<u64, u32>::with_capacity(alloc, 32)?;
    /// let large = HashMap::<u64, u32>::with_capacity(alloc, 33)?;
    /// assert!(rt; small.is_vec() && large.is_map());
    /// ```
    pub fn with_capacity(alloc: Global, capacity: usize) -> Result<Self, Refusal>
        ensures makes { MakesOrRefuses IsDefaultBuilder L.LIMIT capacity result }
        ensures valid { IfOk result (IsValid L.LIMIT K.eq) }
    {
        LimitedHashMap::with_capacity_and_hasher(alloc, capacity, BuildHasherDefault::new())
    }

    /// Returns an empty vector with the default builder and capacity for this many pairs, or for as many as the limit
    /// allows. It still becomes a table at the limit. Fails as `with_capacity` does for the smaller of both
    /// numbers.
    ///
    /// ```
    /// let ages = HashMap::<u64, u32>::vec_with_capacity(alloc, 100)?;
    /// assert!(rt; ages.is_vec());
    /// assert_eq!(rt; ages.capacity(), 32);
    /// ```
    pub fn vec_with_capacity(alloc: Global, capacity: usize) -> Result<Self, Refusal>
        ensures makes { MakesOrRefuses IsDefaultBuilder L.LIMIT (min capacity L.LIMIT) result }
        ensures valid { IfOk result (IsValid L.LIMIT K.eq) }
    {
        LimitedHashMap::with_capacity(alloc, capacity.min(L::LIMIT))
    }
}

impl<K: Eq + Hash, V, S: KeyHasher<K>, L: Limit> LimitedHashMap<K, V, S, L> {
    /// Returns an empty vector with this builder. It takes no memory.
    ///
    /// ```
    /// let ages = HashMap::<u64, u32, _>::with_hasher(alloc, RandomState::new(&rt)?);
    /// assert!(rt; ages.is_empty());
    /// ```
    pub fn with_hasher(alloc: Global, builder: S) -> Self
        ensures made { IsNew (λ b. b ≡ builder) result }
        ensures valid { IsValid L.LIMIT K.eq result }
    {
        LimitedHashMap {
            store: Store::new(alloc),
            builder,
            limit: PhantomData,
        }
    }

    /// Returns an empty vector with the builder type's own default. It takes no memory.
    ///
    /// ```
    /// let ages = HashMap::<u64, u32>::default(alloc);
    /// assert!(rt; ages.is_empty());
    /// ```
    pub fn default(alloc: Global) -> Self
    where
        S: Default,
        ensures made { IsNew S.is_default result }
        ensures valid { IsValid L.LIMIT K.eq result }
    {
        LimitedHashMap::with_hasher(alloc, S::default())
    }

    /// Returns an empty map with this builder and capacity for this many pairs: a vector if the limit allows them,
    /// otherwise a table. It fails as `with_capacity` does.
    ///
    /// ```
    /// let builder = DefaultHashBuilder::new();
    /// let ages = HashMap::<u64, u32>::with_capacity_and_hasher(alloc, 100, builder)?;
    /// assert_eq!(rt; ages.capacity(), 192);
    /// ```
    pub fn with_capacity_and_hasher(
        alloc: Global,
        capacity: usize,
        builder: S,
    ) -> Result<Self, Refusal>
    where
        S: Drop,
        ensures makes { MakesOrRefuses (λ b. b ≡ builder) L.LIMIT capacity result }
        ensures valid { IfOk result (IsValid L.LIMIT K.eq) }
    {
        Ok(LimitedHashMap {
            store: Store::with_capacity(alloc, capacity, L::LIMIT)?,
            builder,
            limit: PhantomData,
        })
    }
}
