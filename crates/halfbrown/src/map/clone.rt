//! Clones of a map.
ghost use Rattle.std.specs.Prelude.{◌≡◌, IfOk, IfErr};
ghost use Rattle.halfbrown.specs.Making.{ClonesEqualKeys, HashesAlike, IsCloneOf};
ghost use Rattle.halfbrown.specs.State.{IsValid};

use super::LimitedHashMap;
use crate::{EqualClone, KeyHasher, Limit};
use half_store::Refusal;
use std::alloc::AllocError;
use std::hash::Hash;
use std::marker::PhantomData;

impl<K: Eq + Hash, V, S: KeyHasher<K>, L: Limit> LimitedHashMap<K, V, S, L> {
    /// Returns a map of the same form, with clones of the pairs in the same order and a clone of the builder.
    ///
    /// A clone of a table has the same capacity and the same stored hashes, and nothing is hashed or compared. A clone
    /// of a vector has no capacity to spare.
    ///
    /// A clone of a key must equal the key, and a clone of the builder must hash as the builder does. It fails only with
    /// `Memory`: if memory is refused here, or to a clone of a key, of a value or of the builder.
    ///
    /// ```
    /// let mut copy = ages.clone()?;
    /// copy.insert(1, 37)?;
    /// assert_eq!(rt; ages.get(&1), Some(&36));
    /// ```
    pub fn clone(&self) -> Result<Self, Refusal>
    where
        K: Clone,
        V: Clone,
        S: Clone,
        requires keys { ClonesEqualKeys K.eq K.is_clone self.now }
        requires builder { (copy : S)
            → S.is_clone self.now.builder copy → HashesAlike S.hash self.now copy }
        ensures cloned { IfOk result (IsCloneOf K.is_clone V.is_clone S.is_clone self.now) }
        ensures refused { IfErr result (λ why. why ≡ Refusal.Memory) }
        ensures valid { IfOk result (IsValid L.LIMIT K.eq) }
    {
        let builder = self.builder.clone()?;
        self.clone_with(builder)
    }

    // A clone with this builder.
    fn clone_with(&self, builder: S) -> Result<Self, Refusal>
    where
        K: Clone,
        V: Clone,
        S: Drop,
        requires keys { ClonesEqualKeys K.eq K.is_clone self.now }
        requires builder { HashesAlike S.hash self.now builder }
        ensures cloned { IfOk result (IsCloneOf K.is_clone V.is_clone
            (λ _ it. it ≡ builder) self.now) }
        ensures refused { IfErr result (λ why. why ≡ Refusal.Memory) }
        ensures valid { IfOk result (IsValid L.LIMIT K.eq) }
    {
        let store = self.store.clone()?;
        Ok(LimitedHashMap {
            store,
            builder,
            limit: PhantomData,
        })
    }
}

// The inherent call has a condition, which the trait has no place for.
impl<K: EqualClone + Hash, V: Clone, S: KeyHasher<K> + Copy, L: Limit> Clone
    for LimitedHashMap<K, V, S, L> {
    ghost is_clone = { IsCloneOf K.is_clone V.is_clone (λ builder it. it ≡ builder) };

    fn clone(&self) -> Result<Self, AllocError> {
        Ok(self.clone_with(self.builder)?)
    }
}
