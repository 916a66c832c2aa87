//! The calls of the store, as calls of the map: what they need and do is said of the map.
//!
//! A clause `writes_back` says what the map is once the borrow that the call returns has ended.
ghost use Rattle.std.specs.Prelude.{◌≡◌, ◌<◌, ◌≤◌, false, true, Some, [], ◌∷◌, ◌++◌, IfOk, IfErr, IfSome, OnErr, length, slice_get};
ghost use Rattle.std.specs.Borrow.{sem, Bor};
ghost use Rattle.std.specs.Map.{keys_of, values_of};
ghost use Rattle.std.specs.Option.{option_map};
ghost use Rattle.std.specs.Result.{result_err};
ghost use Rattle.half_store.specs.PairLists.{set_key_at, set_value_at, swap_remove_at};
ghost use Rattle.half_store.specs.Work.{looked_more};
ghost use Rattle.half_store.specs.ValueReplacement.{index_after_replacing, ReplacesValue};
ghost use Rattle.halfbrown.specs.Costs.{miss_reads};
ghost use Rattle.halfbrown.specs.Pairs.{holds};
ghost use Rattle.halfbrown.specs.Insertion.{pushed};
ghost use Rattle.halfbrown.specs.State.{IsValid, WithPairs, IsPlacedIn, IsVacancyIn, map_with_pairs};
ghost use Rattle.halfbrown.specs.Updates.{HasKeyReplaced, ShiftRemovesAt};

use super::LimitedHashMap;
use crate::{KeyHasher, Limit};
use half_store::{Columns, Found, Tally, Vacancy};
use std::hash::Hash;
use std::mem::replace;

impl<K: Eq + Hash, V, S: KeyHasher<K>, L: Limit> LimitedHashMap<K, V, S, L> {
    ghost use Rattle.halfbrown.specs.Lending.{LendsValueAt};

    /// The keys and the values, by index.
    #[inline(always)]
    pub(crate) fn columns(&self) -> &Columns<K, V>
        ensures pairs { result.now.pairs ≡ self.now.pairs }
        ensures valid { IsValid L.LIMIT K.eq self.now }
    {
        self.store.columns()
    }

    /// The stored key of the pair at this index, and its value.
    #[inline(always)]
    pub(crate) fn pair_at(&self, index: usize) -> (&K, &V)
        requires { index < length self.now.pairs }
        ensures pair { slice_get self.now.pairs index ≡ Some (result.0.now, result.1.now) }
        ensures value { slice_get (values_of self.now.pairs) index ≡ Some result.1.now }
    {
        self.store.columns().pair_at(index)
    }

    /// The same, the value to be written.
    #[inline(always)]
    pub(crate) fn pair_at_mut(&mut self, index: usize) -> (&K, &mut V)
        requires { index < length self.old.pairs }
        ensures* writes_back { sem 𝓛 (LendsValueAt K.row V.row S.row L.row S.Hasher.row K.Hash
            S.KeyHasher L.Limit self.entry index result.1) }
        ensures pair { slice_get self.old.pairs index ≡ Some (result.0.now, result.1.now) }
        ensures value { slice_get (values_of self.old.pairs) index ≡ Some result.1.now }
    {
        self.store.pair_at_mut(index)
    }

    /// Replaces the stored key of the pair at this index by an equal one, and returns the old one.
    #[inline(always)]
    pub(crate) fn set_key_at(&mut self, index: usize, key: K) -> K
        requires within { index < length self.old.pairs }
        requires equal { IfSome (slice_get (keys_of self.old.pairs) index)
            (λ k. K.eq key k ≡ true) }
        ensures old { slice_get (keys_of self.old.pairs) index ≡ Some result }
        ensures after { self.new ≡ map_with_pairs self.old (set_key_at self.old.pairs index key) }
        ensures replaced { HasKeyReplaced K.eq self.old.pairs key self.new.pairs }
        ensures valid { IsValid L.LIMIT K.eq self.new }
    {
        self.store.set_key_at(index, key)
    }

    /// Where a pair of a key that is not held may be added, under the key's hash: the capacity must be enough for it. In a table
    /// its bucket is probed for, and a vector does not look at the hash.
    #[inline(always)]
    pub(crate) fn vacancy_for(&self, hash: u64, tally: &mut Tally) -> Vacancy
        requires capacity { length self.now.pairs < self.now.capacity }
        ensures vacant { IsVacancyIn self.now hash result }
        ensures work { tally.new ≡ looked_more (miss_reads
            (S.hash self.now.builder) self.now.is_vec self.now.capacity self.now.pairs hash) tally.old }
    {
        self.store.vacancy_for(hash, tally)
    }

    /// Replaces the value of the pair at this index, and returns the old one.
    #[inline(always)]
    pub(crate) fn set_at(&mut self, index: usize, value: V) -> V
        requires { index < length self.old.pairs }
        ensures old { slice_get (values_of self.old.pairs) index ≡ Some result }
        ensures after { WithPairs self.old (set_value_at self.old.pairs index value) self.new }
        ensures valid { IsValid L.LIMIT K.eq self.new }
    {
        let (_, held) = self.store.pair_at_mut(index);
        replace(held, value)
    }

    /// Where the pair at this index is held. In a table its bucket is probed for.
    #[inline(always)]
    pub(crate) fn place_of(&self, index: usize) -> Found
        requires { index < length self.now.pairs }
        ensures index { result.index ≡ index }
        ensures placed { IsPlacedIn self.now result }
    {
        self.store.place_of(index)
    }

    /// Adds a pair whose key is not held, at a vacancy for it, and returns where it is held. It probes nothing.
    #[inline(always)]
    pub(crate) fn push(&mut self, key: K, value: V, vacancy: Vacancy) -> Found
        requires capacity { length self.old.pairs < self.old.capacity }
        requires absent { holds K.eq self.old.pairs key ≡ false }
        requires vacant { IsVacancyIn self.old
            (S.hash self.old.builder key) vacancy }
        ensures exact { self.new ≡ pushed self.old key value vacancy }
        ensures after { WithPairs self.old (self.old.pairs ++ (key, value) ∷ []) self.new }
        ensures index { result.index ≡ length self.old.pairs }
        ensures placed { IsPlacedIn self.new result }
        ensures valid { IsValid L.LIMIT K.eq self.new }
    {
        self.store.push(key, value, vacancy)
    }

    /// Removes the pair that is held here. The last pair takes its index.
    #[inline(always)]
    pub(crate) fn take_at(&mut self, found: Found) -> (K, V)
        requires within { found.index < length self.old.pairs }
        requires placed { IsPlacedIn self.old found }
        ensures taken { slice_get self.old.pairs found.index ≡ Some result }
        ensures value { slice_get (values_of self.old.pairs) found.index ≡ Some result.1 }
        ensures after { WithPairs self.old (swap_remove_at self.old.pairs found.index) self.new }
        ensures valid { IsValid L.LIMIT K.eq self.new }
    {
        self.store.take_at(found)
    }

    /// Removes the pair that is held here. Each pair behind it gets the index before its own.
    #[inline]
    pub(crate) fn shift_take_at(&mut self, found: Found) -> (K, V)
        requires within { found.index < length self.old.pairs }
        requires placed { IsPlacedIn self.old found }
        ensures { ShiftRemovesAt L.LIMIT K.eq self.old found.index (Some result) self.new }
    {
        self.store.shift_take_at(found)
    }

    /// Hands the value of the pair that is held here to `f`, with its key. If `f` returns a value the pair has that one, and
    /// where it is held is returned: in a vector it goes last, and the last pair takes its index; in a table it stays. If `f`
    /// returns none the pair is removed, and its key returned with its hash, at which a vector does not look.
    #[inline]
    pub(crate) fn replace_at<F: FnOnce(&K, V) -> Option<V>>(
        &mut self,
        found: Found,
        f: F,
    ) -> Result<Found, (K, u64)>
        requires within { found.index < length self.old.pairs }
        requires placed { IsPlacedIn self.old found }
        requires callable { (key : Bor K) (value : V)
            → slice_get self.old.pairs found.index ≡ Some (key.now, value) → F.pre f key value }
        ensures replaces { ReplacesValue (F.post f) self.old.is_vec self.old.pairs found.index
            self.new.pairs (option_map (λ removed. removed.0) (result_err result)) }
        ensures at { IfOk result
            (λ at. at.index ≡ index_after_replacing self.old.is_vec self.old.pairs found.index) }
        ensures placed { IfOk result (IsPlacedIn self.new) }
        ensures after { WithPairs self.old self.new.pairs self.new }
        ensures hash { IfErr result
            (λ removed. self.new.is_vec ≡ false → removed.1 ≡ S.hash self.new.builder removed.0) }
        ensures absent { IfErr result (λ removed. holds K.eq self.new.pairs removed.0 ≡ false) }
        ensures capacity_left { OnErr result (length self.new.pairs < self.new.capacity) }
        ensures valid { IsValid L.LIMIT K.eq self.new }
    {
        self.store.replace_with(found, f)
    }
}
