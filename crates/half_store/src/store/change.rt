//! Adding and removing pairs.
ghost use Rattle.std.specs.Prelude.{◌≡◌, ℕ, ◌<◌, ◌≤◌, false, Some, IfOk, IfErr, OnOk, length, map, slice_get};
ghost use Rattle.std.specs.Borrow.{Bor};
ghost use Rattle.std.specs.Map.{keys_of};
ghost use Rattle.std.specs.Map.Calls.{CalledAtPair, TakesPair, CallableOnEachPair, RetainsPairs};
ghost use Rattle.std.specs.Option.{option_map};
ghost use Rattle.std.specs.Result.{result_err};
ghost use Rattle.half_store.specs.PairLists.{swap_remove_at};
ghost use Rattle.half_store.specs.StoreRemoval.{StoreSwapRemoves, StoreShiftRemoves};
ghost use Rattle.half_store.specs.ValueReplacement.{index_after_replacing, ReplacesValue};
ghost use Rattle.half_store.specs.Store.{store_pushed, IsPlaced, IsVacancy, SameFormAndCapacity};

use super::Store;
use super::find::{Found, Vacancy};
use super::retain::retain_in_table;
use crate::uncounted;

impl<K, V> Store<K, V> {
    /// Adds a pair at the end, at a vacancy for its hash, and returns where it is held. The capacity must be enough for it. It
    /// reads no bucket.
    #[inline(always)]
    pub fn push(&mut self, key: K, value: V, vacancy: Vacancy) -> Found
        requires capacity { length self.old.pairs < self.old.capacity }
        requires vacant { IsVacancy self.old vacancy.hash vacancy }
        ensures after { self.new ≡ store_pushed self.old key value vacancy }
        ensures index { result.index ≡ length self.old.pairs }
        ensures placed { IsPlaced self.new result }
    {
        let index = self.columns.len();
        if let Some(table) = &mut self.table {
            table.add_at(vacancy.hash, vacancy.bucket);
        }
        self.columns.push(key, value);
        Found {
            index,
            bucket: vacancy.bucket,
        }
    }

    /// Removes the pair that is held here. The last pair takes its index. No probe is made for the pair.
    #[inline(always)]
    pub fn take_at(&mut self, found: Found) -> (K, V)
        requires within { found.index < length self.old.pairs }
        requires placed { IsPlaced self.old found }
        ensures { StoreSwapRemoves self.old self.new found.index result }
    {
        if let Some(table) = &mut self.table {
            uncounted!(table.remove_at(found.index, found.bucket));
        }
        self.columns.swap_remove(found.index)
    }

    /// Hands the value of the pair that is held here to `f`, with its key. If `f` returns a value the pair has that one, and
    /// where it is held is returned: in a vector it goes last, and the last pair takes its index; in a table it stays. If `f`
    /// returns none the pair is removed, and the last pair takes its index. Then the key is returned with its hash, or with 0 in
    /// a vector.
    #[inline]
    pub fn replace_with<F: FnOnce(&K, V) -> Option<V>>(
        &mut self,
        found: Found,
        f: F,
    ) -> Result<Found, (K, u64)>
        requires within { found.index < length self.old.pairs }
        requires placed { IsPlaced self.old found }
        requires callable { (key : Bor K) (value : V)
            → slice_get self.old.pairs found.index ≡ Some (key.now, value) → F.pre f key value }
        ensures replaces { ReplacesValue (F.post f) self.old.is_vec self.old.pairs found.index
            self.new.pairs (option_map (λ removed. removed.0) (result_err result)) }
        ensures at { IfOk result
            (λ at. at.index ≡ index_after_replacing self.old.is_vec self.old.pairs found.index) }
        ensures placed { IfOk result (IsPlaced self.new) }
        ensures hash { IfErr result (λ removed. self.old.is_vec ≡ false
            → slice_get self.old.table.hashes found.index ≡ Some removed.1) }
        ensures hashes { IfErr result (λ _. self.old.is_vec ≡ false
            → self.new.table.hashes ≡ swap_remove_at self.old.table.hashes found.index) }
        ensures kept { OnOk result (self.new.table.hashes ≡ self.old.table.hashes) }
        ensures form { SameFormAndCapacity self.old self.new }
    {
        let Some(table) = &mut self.table else {
            let index = self.columns.len() - 1;
            let (key, value) = self.columns.swap_remove(found.index);
            let Some(value) = f(&key, value) else {
                return Err((key, 0));
            };
            self.columns.push(key, value);
            return Ok(Found { index, bucket: 0 });
        };
        let Some(key) = self.columns.replace_with(found.index, f) else {
            return Ok(found);
        };
        Err((key, uncounted!(table.remove_at(found.index, found.bucket))))
    }

    /// Calls `f` at each pair, in order, and keeps those that it accepts, in their order, with the values that it left.
    pub fn retain<F: FnMut(&K, &mut V) -> bool>(&mut self, f: F)
    where
        K: Drop,
        V: Drop,
        requires { CallableOnEachPair (CalledAtPair F.FnMut) (TakesPair F.FnMut) f self.old.pairs }
        ensures kept { RetainsPairs (CalledAtPair F.FnMut) f self.old.pairs self.new.pairs }
        ensures len { length self.new.pairs ≤ length self.old.pairs }
        ensures hashes { self.old.is_vec ≡ false → (hash : K → ℕ)
            → self.old.table.hashes ≡ map hash (keys_of self.old.pairs)
            → self.new.table.hashes ≡ map hash (keys_of self.new.pairs) }
        ensures form { SameFormAndCapacity self.old self.new }
    {
        match &mut self.table {
            Some(table) => retain_in_table(&mut self.columns, table, f),
            None => self.columns.retain(&mut [], f),
        }
    }

    /// Removes the pair that is held here. Each pair behind it gets the index before its own.
    pub fn shift_take_at(&mut self, found: Found) -> (K, V)
        requires within { found.index < length self.old.pairs }
        requires placed { IsPlaced self.old found }
        ensures { StoreShiftRemoves self.old self.new found.index result }
    {
        if let Some(table) = &mut self.table {
            uncounted!(table.shift_remove_at(found.index, found.bucket));
        }
        self.columns.shift_remove(found.index)
    }
}
