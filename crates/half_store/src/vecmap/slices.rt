//! The two columns as slices, and taken apart.
ghost use Rattle.std.specs.Prelude.{◌≡◌, ◌^◌, ◌<◌, length};
ghost use Rattle.std.specs.Borrow.{sem};
ghost use Rattle.std.specs.Map.{keys_of, values_of};
ghost use Rattle.half_store.specs.Columns.{AreEven, columns_of};

use super::Columns;
use std::alloc::Global;

impl<K, V> Columns<K, V> {
    ghost use Rattle.half_store.specs.StoreLending.{ColumnsLendValues};

    /// Where its memory is from.
    pub fn allocator(&self) -> Global {
        *self.keys.allocator()
    }

    /// The keys, in order.
    #[inline(always)]
    pub fn keys(&self) -> &[K]
        ensures keys { result.now ≡ keys_of self.now.pairs }
        ensures small { length self.now.pairs < 2 ^ 63 }
    {
        self.keys.as_slice()
    }

    /// The values, in order.
    #[inline(always)]
    pub fn values(&self) -> &[V]
        ensures values { result.now ≡ values_of self.now.pairs }
        ensures small { length self.now.pairs < 2 ^ 63 }
    {
        self.values.as_slice()
    }

    /// The keys and the values, in order, the values to be written.
    #[tactic(auto, using(crate::proofs::lemmas::vecmap::Columns::columns_steps))]
    #[inline(always)]
    pub fn columns_mut(&mut self) -> (&[K], &mut [V])
        ensures* writes_back { sem 𝓛 (ColumnsLendValues K.row V.row self.entry result.1) }
        ensures keys { result.0.now ≡ keys_of self.old.pairs }
        ensures values { result.1.now ≡ values_of self.old.pairs }
        ensures small { length self.old.pairs < 2 ^ 63 }
    {
        (self.keys.as_slice(), self.values.as_mut_slice())
    }

    /// The keys and the values, in order, each in a vector of its own.
    #[inline(always)]
    pub fn into_columns(self) -> (Vec<K>, Vec<V>)
        ensures keys { result.0.items ≡ keys_of self.pairs }
        ensures values { result.1.items ≡ values_of self.pairs }
        ensures even { AreEven result.0 result.1 }
        ensures whole { columns_of result.0 result.1 ≡ self }
        ensures small { length self.pairs < 2 ^ 63 }
    {
        let Columns { keys, values } = self;
        (keys, values)
    }
}
