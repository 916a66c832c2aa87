//! Growing and shrinking the capacity.
ghost use Rattle.halfbrown.specs.Growth.{ReservesOrRefuses, ShrinksOrStays};
ghost use Rattle.halfbrown.specs.State.{IsValid};

use super::LimitedHashMap;
use crate::{KeyHasher, Limit};
use half_store::Refusal;
use std::hash::Hash;

impl<K: Eq + Hash, V, S: KeyHasher<K>, L: Limit> LimitedHashMap<K, V, S, L> {
    /// Makes the capacity enough for this many more pairs. A vector gets capacity for no more pairs than the limit,
    /// since an insertion beyond that makes a table, which needs memory anyway. The capacity never falls. Nothing is
    /// hashed.
    ///
    /// If the capacity is not enough yet, a table gets the least of its series that is enough. A vector gets twice
    /// what it had, but at least eight and what is needed, and at most the limit. Fails with `Size` if capacity for
    /// more than 2^60 pairs is needed, and with `Memory` if memory is refused. On error nothing changes.
    ///
    /// ```
    /// ages.reserve(20)?; // the next twenty insertions need no more memory
    /// assert!(rt; ages.capacity() >= 22);
    /// ```
    #[inline(never)]
    pub fn reserve(&mut self, additional: usize) -> Result<(), Refusal>
        ensures { ReservesOrRefuses L.LIMIT K.eq self.old additional result self.new }
    {
        self.store.reserve(additional, L::LIMIT)
    }

    /// Turns a table that holds no more pairs than the limit back into a vector, and shrinks the capacity to the least
    /// that the pairs fit in. For a table that is the least of its series. The pairs keep their order. Nothing is hashed or
    /// compared.
    ///
    /// Smaller columns and a smaller table need memory. If that is refused nothing changes: a table stays one. A map
    /// with no pairs needs none, and has capacity 0 afterwards. A vector whose capacity is its length stays as it is.
    ///
    /// ```
    /// let mut ages = HashMap::<u64, u32>::with_capacity(alloc, 100)?; // a table
    /// ages.insert(1, 36)?;
    /// ages.shrink_to_fit();
    /// assert!(rt; ages.is_vec());
    /// assert_eq!(rt; ages.capacity(), 1);
    /// ```
    pub fn shrink_to_fit(&mut self)
        ensures after { ShrinksOrStays L.LIMIT self.old self.new }
        ensures valid { IsValid L.LIMIT K.eq self.new }
    {
        // If memory is refused, nothing has changed.
        let _ = self.store.shrink_to_fit(L::LIMIT);
    }
}
