//! Maps made from items.
ghost use Rattle.std.specs.Prelude.{◌≡◌, ◌<◌, ◌⊎◌, ℕ, ⊤, true, List, IfOk, IfErr, OnOk, OnErr};
ghost use Rattle.std.specs.Iterator.{IsFinite, IsFiniteIterable, Drains, DrainsIf, ExtendsWithItems};
ghost use Rattle.halfbrown.specs.Collect.{Gives, AreFirst, Extends, InsertsAllOfIter, InsertsUntilRefused};
ghost use Rattle.halfbrown.specs.Collect.{Collects, CollectsIter, CollectRefused, CollectIterRefused};
ghost use Rattle.halfbrown.specs.Collect.{insertions_cost, refused_cost, collection_cost, refused_collection_cost};
ghost use Rattle.halfbrown.specs.CostRanges.{TallyGrewBy};
ghost use Rattle.halfbrown.specs.State.{IsValid};

use super::LimitedHashMap;
use crate::{KeyHasher, Limit};
use half_store::{Refusal, Tally, uncounted};
use std::alloc::{AllocError, Global};
use std::hash::Hash;

impl<K: Eq + Hash + Drop, V: Drop, S: KeyHasher<K> + Default + Drop, L: Limit> LimitedHashMap<
    K,
    V,
    S,
    L,
> {
    /// Returns a map of these items, with the default of the builder's type.
    ///
    /// It is made with capacity for the items' lower size hint, so it is a table if that is more than the limit. Then
    /// each item is inserted, in order: of equal keys the first stays, with the last value. The clauses do not say which
    /// hint that is, and so neither the form nor the capacity.
    ///
    /// The items must end. Fails if `with_capacity` or `insert` would, and then drops what was collected, the
    /// refused pair and the remaining items. It costs what the insertions cost.
    ///
    /// ```
    /// let ages = HashMap::<u64, u32>::from_iter(alloc, [(1, 36), (2, 41), (1, 37)])?;
    /// assert_eq!(rt; ages.len(), 2);
    /// assert_eq!(rt; ages.first(), Some((&1, &37)));
    /// ```
    pub fn from_iter<I: IntoIterator<Item = (K, V)>>(
        alloc: Global,
        items: I,
    ) -> Result<Self, Refusal>
        requires { IsFiniteIterable I.into_iter_gives I.IntoIter.can_next
            I.IntoIter.remaining items }
        ensures collected { IfOk result (CollectsIter I.into_iter_gives I.IntoIter.next_gives
            L.LIMIT K.eq I.IntoIter.remaining S.is_default items) }
        ensures refused { IfErr result (CollectIterRefused I.into_iter_gives
            I.IntoIter.next_gives L.LIMIT K.eq I.IntoIter.remaining S.is_default items) }
        ensures valid { IfOk result (IsValid L.LIMIT K.eq) }
    {
        uncounted!(LimitedHashMap::from_iter_counted(alloc, items))
    }

    /// `from_iter`, with its work counted: that of the insertions.
    pub fn from_iter_counted<I: IntoIterator<Item = (K, V)>>(
        alloc: Global,
        items: I,
        tally: &mut Tally,
    ) -> Result<Self, Refusal>
        requires { IsFiniteIterable I.into_iter_gives I.IntoIter.can_next
            I.IntoIter.remaining items }
        ensures collected { IfOk result (λ m. (made : CollectsIter I.into_iter_gives
            I.IntoIter.next_gives L.LIMIT K.eq I.IntoIter.remaining S.is_default items m)
            × TallyGrewBy (collection_cost L.LIMIT K.eq S.hash made.collection) tally.old tally.new) }
        ensures refused { IfErr result (λ why. (made : CollectIterRefused I.into_iter_gives
            I.IntoIter.next_gives L.LIMIT K.eq I.IntoIter.remaining S.is_default items why)
            × TallyGrewBy (refused_collection_cost L.LIMIT K.eq S.hash made.refused)
            tally.old tally.new) }
        // A vector has hashed nothing.
        ensures nothing_hashed { IfOk result
            (λ m. m.is_vec ≡ true → tally.new.asked ≡ tally.old.asked) }
        ensures valid { IfOk result (IsValid L.LIMIT K.eq) }
    {
        let items = items.into_iter();
        let hint = items.size_hint().0;
        LimitedHashMap::collect(alloc, hint, items, tally)
    }

    /// Returns a map of these pairs, with the default of the builder's type, as `from_iter` makes it. `hashmap!` calls it.
    ///
    /// The map is made with capacity for all of them. The call costs what their insertions cost. The pairs first go into a
    /// vector of their own, so it also fails with `Memory` if that is refused. For no pairs it needs no memory, and does
    /// not fail.
    ///
    /// ```
    /// let ages = HashMap::<u64, u32>::from_array(alloc, [(1, 36), (2, 41)])?;
    /// assert_eq!(rt; ages.len(), 2);
    /// ```
    pub fn from_array<const N: usize>(alloc: Global, pairs: [(K, V); N]) -> Result<Self, Refusal>
        ensures collected { IfOk result (Collects L.LIMIT K.eq S.is_default N pairs) }
        ensures refused { IfErr result (λ why. ((why ≡ Refusal.Memory) × (0 < N))
            ⊎ CollectRefused L.LIMIT K.eq S.is_default N (AreFirst pairs) why) }
        ensures valid { IfOk result (IsValid L.LIMIT K.eq) }
    {
        // What `into_iter` of an array requires depends on the size of a pair, which is not known. So the pairs go through a
        // vector.
        let pairs = to_vec(alloc, pairs)?;
        uncounted!(LimitedHashMap::collect(alloc, N, pairs.into_iter()))
    }

    // A map made with this capacity, and the items inserted.
    fn collect<I: Iterator<Item = (K, V)>>(
        alloc: Global,
        capacity: usize,
        items: I,
        tally: &mut Tally,
    ) -> Result<Self, Refusal>
        requires can { I.can_next items }
        requires ends { IsFinite (I.remaining items) }
        ensures collected { IfOk result (λ m. (gave : List (K × V)) × Drains I.next_gives items gave
            × (made : Collects L.LIMIT K.eq S.is_default capacity gave m)
            × TallyGrewBy (collection_cost L.LIMIT K.eq S.hash made) tally.old tally.new) }
        ensures refused { IfErr result (λ why. (made : CollectRefused L.LIMIT K.eq S.is_default
            capacity (Gives I.next_gives items) why)
            × TallyGrewBy (refused_collection_cost L.LIMIT K.eq S.hash made) tally.old tally.new) }
        ensures nothing_hashed { IfOk result
            (λ m. m.is_vec ≡ true → tally.new.asked ≡ tally.old.asked) }
        ensures valid { IfOk result (IsValid L.LIMIT K.eq) }
    {
        let mut map = LimitedHashMap::with_capacity_and_hasher(alloc, capacity, S::default())?;
        map.extend_counted(items, tally)?;
        Ok(map)
    }
}

impl<K: Eq + Hash + Drop, V: Drop, S: KeyHasher<K>, L: Limit> LimitedHashMap<K, V, S, L> {
    /// Inserts each item, in order. New keys come last; a held key stays where it is, with the last value.
    ///
    /// The items must end. Fails if `insert` would, and then the items before the refused one stay, and it and the
    /// remaining items are dropped. It costs what the insertions cost, and makes no capacity in advance.
    ///
    /// ```
    /// ages.extend([(2, 42), (3, 5)])?;
    /// assert_eq!(rt; ages.len(), 3);
    /// assert_eq!(rt; ages.get(&2), Some(&42));
    /// ```
    pub fn extend<I: IntoIterator<Item = (K, V)>>(&mut self, items: I) -> Result<(), Refusal>
        requires { IsFiniteIterable I.into_iter_gives I.IntoIter.can_next
            I.IntoIter.remaining items }
        ensures extended { OnOk result (InsertsAllOfIter I.into_iter_gives I.IntoIter.next_gives
            L.LIMIT K.eq items self.old self.new) }
        ensures refused { IfErr result (InsertsUntilRefused I.into_iter_gives I.IntoIter.next_gives
            L.LIMIT K.eq items self.old self.new) }
    {
        uncounted!(self.extend_counted(items))
    }

    /// `extend`, with its work counted: that of the insertions.
    pub fn extend_counted<I: IntoIterator<Item = (K, V)>>(
        &mut self,
        items: I,
        tally: &mut Tally,
    ) -> Result<(), Refusal>
        requires { IsFiniteIterable I.into_iter_gives I.IntoIter.can_next
            I.IntoIter.remaining items }
        ensures extended { OnOk result ((made : InsertsAllOfIter I.into_iter_gives I.IntoIter.next_gives
            L.LIMIT K.eq items self.old self.new) × TallyGrewBy (insertions_cost L.LIMIT K.eq S.hash
            self.old made.gave self.new made.extends.inserted) tally.old tally.new) }
        ensures refused { IfErr result (λ why. (made : InsertsUntilRefused I.into_iter_gives
            I.IntoIter.next_gives L.LIMIT K.eq items self.old self.new why)
            × TallyGrewBy (refused_cost L.LIMIT K.eq S.hash made.insertion) tally.old tally.new) }
    {
        for (key, value) in items {
            self.insert_counted(key, value, tally)?;
        }
        Ok(())
    }
}

// Beside the inherent call, for `collect` and the like.
impl<K: Eq + Hash + Drop, V: Drop, S: KeyHasher<K> + Default + Drop, L: Limit> FromIterator<(K, V)>
    for LimitedHashMap<K, V, S, L> {
    type Alloc = Global;

    ghost from_iter_gives = { λ items m. (hint : ℕ)
        × Collects L.LIMIT K.eq S.is_default hint items m };

    fn from_iter<I: IntoIterator<Item = (K, V)>>(
        alloc: Global,
        items: I,
    ) -> Result<Self, AllocError>
        requires { IsFiniteIterable I.into_iter_gives I.IntoIter.can_next
            I.IntoIter.remaining items }
        ensures ran { IfOk result (λ m. (it : I.IntoIter) × (gave : List (K × V))
            × I.into_iter_gives items it × DrainsIf I.IntoIter.next_gives ⊤ it gave
            × ((hint : ℕ) × Collects L.LIMIT K.eq S.is_default hint gave m)) }
        ensures collected { IfOk result (CollectsIter I.into_iter_gives I.IntoIter.next_gives
            L.LIMIT K.eq I.IntoIter.remaining S.is_default items) }
        ensures refused { OnErr result ((why : Refusal) × CollectIterRefused I.into_iter_gives
            I.IntoIter.next_gives L.LIMIT K.eq I.IntoIter.remaining S.is_default items why) }
    {
        match LimitedHashMap::from_iter(alloc, items) {
            Ok(map) => Ok(map),
            Err(_) => Err(AllocError),
        }
    }
}

// Beside the inherent call, for code over any collection. On error the items before the refused one stay.
impl<K: Eq + Hash + Drop, V: Drop, S: KeyHasher<K>, L: Limit> Extend<(K, V)>
    for LimitedHashMap<K, V, S, L> {
    ghost extend_gives = { Extends L.LIMIT K.eq };

    fn extend<I: IntoIterator<Item = (K, V)>>(&mut self, items: I) -> Result<(), AllocError>
        requires { IsFiniteIterable I.into_iter_gives I.IntoIter.can_next
            I.IntoIter.remaining items }
        ensures ran { ExtendsWithItems I.into_iter_gives I.IntoIter.next_gives
            (Extends L.LIMIT K.eq) items self.old self.new result }
        ensures refused { OnErr result ((why : Refusal) × InsertsUntilRefused I.into_iter_gives
            I.IntoIter.next_gives L.LIMIT K.eq items self.old self.new why) }
    {
        match LimitedHashMap::extend(self, items) {
            Ok(()) => Ok(()),
            Err(_) => Err(AllocError),
        }
    }
}

/// Moves an array into a vector. `Vec::from_array` takes memory even for no items.
fn to_vec<T: Drop, const N: usize>(alloc: Global, items: [T; N]) -> Result<Vec<T>, AllocError>
    ensures items { IfOk result (λ list. list.items ≡ items) }
    ensures needed { OnErr result (0 < N) }
{
    if N == 0 {
        return Ok(Vec::new(alloc));
    }
    let Ok(list) = Vec::from_array(alloc, items) else {
        return Err(AllocError);
    };
    Ok(list)
}
