//! The capacity of the two columns: making it, and giving it back. All memory is had before anything changes.
ghost use Rattle.std.specs.Prelude.{◌≡◌, ◌<◌, ◌≤◌, min, [], length, IsOk, IfOk, OnOk, OnErr};
ghost use Rattle.std.specs.List.{AllZip};

use super::Columns;
use crate::blocks::{clone_all, grow, move_to};
use std::alloc::{AllocError, Global};

impl<K, V> Columns<K, V> {
    /// No pairs, with exactly this capacity.
    pub fn with_capacity(alloc: Global, capacity: usize) -> Result<Columns<K, V>, AllocError>
        ensures pairs { IfOk result (λ m. m.pairs ≡ []) }
        ensures capacity { IfOk result (λ m. m.capacity ≡ capacity) }
        ensures needed { capacity ≡ 0 → IsOk result }
    {
        let keys = Vec::with_capacity(alloc, capacity)?;
        match Vec::with_capacity(alloc, capacity) {
            Ok(values) => Ok(Columns { keys, values }),
            Err(refused) => {
                keys.destroy_empty();
                Err(refused)
            }
        }
    }

    /// Clones of the pairs, in order, in empty columns whose capacity is enough.
    pub fn clone_into(&self, fresh: Columns<K, V>) -> Result<Columns<K, V>, AllocError>
    where
        K: Clone,
        V: Clone,
        requires empty { fresh.pairs ≡ [] }
        requires fits { length self.now.pairs ≤ fresh.capacity }
        ensures pairs { IfOk result (λ m. AllZip (λ p q. K.is_clone p.0 q.0 × V.is_clone p.1 q.1)
            self.now.pairs m.pairs) }
        ensures capacity { IfOk result (λ m. m.capacity ≡ fresh.capacity) }
    {
        let Columns { keys, values } = fresh;
        let keys = clone_all(self.keys.as_slice(), keys)?;
        let values = clone_all(self.values.as_slice(), values)?;
        Ok(Columns { keys, values })
    }

    /// How many pairs fit before more memory is needed.
    #[inline(always)]
    pub fn capacity(&self) -> usize
        ensures value { result ≡ self.now.capacity }
        ensures fits { length self.now.pairs ≤ result }
    {
        self.keys.capacity()
    }

    /// Shrinks a greater capacity to this one, which must be enough for the pairs. On error nothing changes.
    pub(crate) fn shrink_to(&mut self, capacity: usize) -> Result<(), AllocError>
        requires { length self.old.pairs ≤ capacity }
        ensures pairs { self.new.pairs ≡ self.old.pairs }
        ensures ok { OnOk result (self.new.capacity ≡ min self.old.capacity capacity) }
        ensures err { OnErr result (self.new ≡ self.old) }
        ensures needed { OnErr result ((0 < capacity) × (capacity < self.old.capacity)) }
    {
        if capacity < self.capacity() {
            let fresh = Columns::with_capacity(self.allocator(), capacity)?;
            // Each column's old memory is freed as soon as it is empty.
            move_to(&mut self.keys, fresh.keys);
            move_to(&mut self.values, fresh.values);
        }
        Ok(())
    }

    /// Grows to exactly this capacity. On error nothing changes.
    #[inline(never)]
    pub(crate) fn grow_to(&mut self, capacity: usize) -> Result<(), AllocError>
        requires { self.old.capacity < capacity }
        ensures pairs { self.new.pairs ≡ self.old.pairs }
        ensures ok { OnOk result (self.new.capacity ≡ capacity) }
        ensures err { OnErr result (self.new ≡ self.old) }
    {
        let values = Vec::with_capacity(*self.keys.allocator(), capacity)?;
        // Grown last: only the last block may be extended in place.
        if let Err(refused) = grow(&mut self.keys, capacity) {
            values.destroy_empty();
            return Err(refused);
        }
        move_to(&mut self.values, values);
        Ok(())
    }
}
