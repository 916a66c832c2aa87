//! The columns and their pairs: lent to be read or written, and taken out.
ghost use Rattle.std.specs.Prelude.{◌≡◌, ◌^◌, ◌<◌, length, Some, slice_get};
ghost use Rattle.std.specs.Borrow.{sem};
ghost use Rattle.std.specs.Map.{keys_of, values_of};
ghost use Rattle.half_store.specs.PairLists.{set_key_at};
ghost use Rattle.half_store.specs.Store.{store_with_pairs};

use super::Store;
use crate::Columns;

impl<K, V> Store<K, V> {
    ghost use Rattle.half_store.specs.StoreLending.{StoreLendsValue, StoreLendsValues};

    /// The columns, to be read.
    #[inline(always)]
    pub fn columns(&self) -> &Columns<K, V>
        ensures { result.now.pairs ≡ self.now.pairs }
    {
        &self.columns
    }

    /// The keys and the values, in order, the values to be written.
    #[inline(always)]
    pub fn columns_mut(&mut self) -> (&[K], &mut [V])
        ensures* writes_back { sem 𝓛 (StoreLendsValues K.row V.row self.entry result.1) }
        ensures keys { result.0.now ≡ keys_of self.old.pairs }
        ensures values { result.1.now ≡ values_of self.old.pairs }
        ensures small { length self.old.pairs < 2 ^ 63 }
    {
        self.columns.columns_mut()
    }

    /// The keys and the values, in order, each in a vector of its own. A table drops its hashes and buckets.
    pub fn into_columns(self) -> (Vec<K>, Vec<V>)
        ensures keys { result.0.items ≡ keys_of self.pairs }
        ensures values { result.1.items ≡ values_of self.pairs }
        ensures small { length self.pairs < 2 ^ 63 }
    {
        self.columns.into_columns()
    }

    /// The key and the value of the pair at this index, the value to be written.
    #[inline(always)]
    pub fn pair_at_mut(&mut self, index: usize) -> (&K, &mut V)
        requires { index < length self.old.pairs }
        ensures* writes_back { sem 𝓛 (StoreLendsValue K.row V.row self.entry index result.1) }
        ensures pair { slice_get self.old.pairs index ≡ Some (result.0.now, result.1.now) }
    {
        self.columns.pair_at_mut(index)
    }

    /// Replaces the key of the pair at this index, which must have the same hash, and returns the old one.
    #[inline(always)]
    pub fn set_key_at(&mut self, index: usize, key: K) -> K
        requires { index < length self.old.pairs }
        ensures old { slice_get (keys_of self.old.pairs) index ≡ Some result }
        ensures after { self.new ≡ store_with_pairs self.old (set_key_at self.old.pairs index key) }
    {
        self.columns.set_key_at(index, key)
    }
}
