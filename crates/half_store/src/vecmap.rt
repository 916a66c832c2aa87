//! Pairs in two columns, one of keys and one of values: dense, in order, searched for the first key that matches.
#![tactic(auto, using(crate::proofs::lemmas::vecmap::Columns::opened))]

ghost use Rattle.std.specs.Prelude.{◌≡◌, ◌^◌, ◌<◌, ◌≤◌, [], ◌∷◌, ◌++◌, length, slice_get, Some, remove, false};
ghost use Rattle.std.specs.Borrow.{sem, Bor};
ghost use Rattle.std.specs.Map.{keys_of, values_of};
ghost use Rattle.half_store.specs.Columns.{no_pairs, columns_with};
ghost use Rattle.half_store.specs.PairLists.{set_key_at, swap_remove_at};
ghost use Rattle.half_store.specs.ValueReplacement.{ReplacesValue};

mod memory;
mod retain;
pub mod search;
mod slices;

use std::alloc::Global;
use std::marker::Model;
use std::mem::replace;

/// Pairs in order, in two vectors of one length and one capacity. A pair's entry index is its index there.
#[derive(Drop)]
pub struct Columns<K, V> {
    pub(crate) keys: Vec<K>,
    pub(crate) values: Vec<V>,
}

impl<K, V> Model for Columns<K, V> {
    ghost use Rattle.half_store.specs.Columns.{ColumnsState, columns_code, columns_of, AreEven};

    ghost Value = { ColumnsState K V };

    ghost coded = { columns_code K.code V.code };

    ghost view = { λ m. columns_of m.keys m.values };

    ghost invariant = { λ m. AreEven m.keys m.values };
}

impl<K, V> Columns<K, V> {
    ghost use Rattle.half_store.specs.StoreLending.{ColumnsLendValue};

    /// No pairs, and no memory taken.
    pub fn new(alloc: Global) -> Columns<K, V>
        ensures { result ≡ no_pairs }
    {
        Columns {
            keys: Vec::new(alloc),
            values: Vec::new(alloc),
        }
    }

    /// How many pairs are held.
    #[inline(always)]
    pub fn len(&self) -> usize
        ensures len { result ≡ length self.now.pairs }
        ensures fits { length self.now.pairs ≤ self.now.capacity }
        ensures small { length self.now.pairs < 2 ^ 63 }
    {
        self.keys.len()
    }

    /// The key and the value of the pair at this index.
    #[tactic(auto, using(crate::proofs::lemmas::vecmap::Columns::columns_steps))]
    #[inline(always)]
    pub fn pair_at(&self, index: usize) -> (&K, &V)
        requires { index < length self.now.pairs }
        ensures pair { slice_get self.now.pairs index ≡ Some (result.0.now, result.1.now) }
        ensures value { slice_get (values_of self.now.pairs) index ≡ Some result.1.now }
    {
        (&self.keys[index], &self.values[index])
    }

    /// The key and the value of the pair at this index, the value to be written.
    #[tactic(auto, using(crate::proofs::lemmas::vecmap::Columns::columns_steps))]
    #[inline(always)]
    pub fn pair_at_mut(&mut self, index: usize) -> (&K, &mut V)
        requires { index < length self.old.pairs }
        ensures* writes_back { sem 𝓛 (ColumnsLendValue K.row V.row self.entry index result.1) }
        ensures pair { slice_get self.old.pairs index ≡ Some (result.0.now, result.1.now) }
    {
        (&self.keys[index], &mut self.values[index])
    }

    /// Replaces the key of the pair at this index, and returns the old one.
    #[tactic(auto, using(crate::proofs::lemmas::vecmap::Columns::columns_steps))]
    #[inline(always)]
    pub fn set_key_at(&mut self, index: usize, key: K) -> K
        requires { index < length self.old.pairs }
        ensures old { slice_get (keys_of self.old.pairs) index ≡ Some result }
        ensures after { self.new ≡ columns_with self.old (set_key_at self.old.pairs index key) }
    {
        replace(&mut self.keys[index], key)
    }

    /// Appends a pair. The capacity must be enough for it.
    #[tactic(auto, using(crate::proofs::lemmas::vecmap::Columns::columns_steps))]
    #[inline(always)]
    pub fn push(&mut self, key: K, value: V)
        requires { length self.old.pairs < self.old.capacity }
        ensures { self.new ≡ columns_with self.old (self.old.pairs ++ (key, value) ∷ []) }
    {
        self.keys.push_reserved(key);
        self.values.push_reserved(value);
    }

    /// Removes the pair at this index. The last pair takes its index.
    #[tactic(auto, using(crate::proofs::lemmas::vecmap::Columns::columns_steps))]
    #[inline(always)]
    pub fn swap_remove(&mut self, index: usize) -> (K, V)
        requires { index < length self.old.pairs }
        ensures taken { slice_get self.old.pairs index ≡ Some result }
        ensures after { self.new ≡ columns_with self.old (swap_remove_at self.old.pairs index) }
        ensures room { length self.new.pairs < self.new.capacity }
    {
        (self.keys.swap_remove(index), self.values.swap_remove(index))
    }

    /// Removes the pair at this index. Each pair behind it gets the index before its own.
    pub fn shift_remove(&mut self, index: usize) -> (K, V)
        requires { index < length self.old.pairs }
        ensures taken { slice_get self.old.pairs index ≡ Some result }
        ensures after { self.new ≡ columns_with self.old (remove self.old.pairs index) }
    {
        (self.keys.remove(index), self.values.remove(index))
    }

    /// Hands the value of the pair at this index to `f`, with its key. If `f` returns a value the pair keeps its index and has
    /// that value. Otherwise the pair is removed, the last pair takes its index, and the key is returned.
    pub fn replace_with<F: FnOnce(&K, V) -> Option<V>>(&mut self, index: usize, f: F) -> Option<K>
        requires within { index < length self.old.pairs }
        requires callable { (key : Bor K) (value : V)
            → slice_get self.old.pairs index ≡ Some (key.now, value) → F.pre f key value }
        ensures replaces { ReplacesValue (F.post f) false self.old.pairs index self.new.pairs
            result }
        ensures capacity { self.new.capacity ≡ self.old.capacity }
    {
        let value = self.values.swap_remove(index);
        match f(&self.keys[index], value) {
            Some(value) => {
                self.values.push_reserved(value);
                let last = self.values.len() - 1;
                self.values.swap(index, last);
                None
            }
            None => Some(self.keys.swap_remove(index)),
        }
    }
}
