//! The memory of a store: capacity made and given back, and a table for a vector. All memory is had before anything
//! changes or is filled, so a refused call costs no more in a large store.
ghost use Rattle.std.specs.Prelude.{◌≡◌, ◌^◌, ◌<◌, ◌≤◌, ℕ, [], IfOk, IfErr, OnOk, true, length};
ghost use Rattle.half_store.specs.Arrays.{arrays_of, bytes_in, bytes};
ghost use Rattle.half_store.specs.Store.{IsStoreClone, MakesStore, MakesTable, TableFitsColumns, table_of, vector_of};
ghost use Rattle.half_store.specs.Store.{StoreReserves, StoreShrinks};
ghost use Rattle.half_store.specs.Capacity.{capacity_of, least_buckets, least_table_capacity};
ghost use Rattle.half_store.specs.Refusal.{refusal_of};

use super::Store;
use crate::capacity::{capacity_of, least_buckets};
use crate::refusal::check_size;
use crate::{Columns, Refusal, Table, TableMemory};
use std::alloc::{AllocError, Global};

/// The least capacity to which a vector grows, unless the limit is less.
const LEAST_GROWN: usize = 8;

/// For how many elements each array of a store has memory. A vector has none for hashes and words, and no block of a table.
#[derive(Clone, Copy)]
pub struct Arrays {
    /// The column of keys.
    pub keys: usize,
    /// The column of values.
    pub values: usize,
    /// The column of stored hashes, of eight bytes each.
    pub hashes: usize,
    /// The words of buckets.
    pub words: usize,
    /// The bytes of each of them.
    pub word_size: usize,
    /// The bytes of the block that a table itself stands in, besides its arrays.
    pub table: usize,
}

impl<K, V> Store<K, V> {
    /// No pairs, with capacity for this many: a vector with exactly this capacity if the limit allows them, otherwise a table. Fails
    /// with `Size` for more than 2^60 pairs, and with `Memory` if memory is refused.
    pub fn with_capacity(
        alloc: Global,
        capacity: usize,
        limit: usize,
    ) -> Result<Store<K, V>, Refusal>
        ensures makes { MakesStore limit capacity result }
    {
        check_size(capacity)?;
        if capacity <= limit {
            return Ok(Store {
                columns: Columns::with_capacity(alloc, capacity)?,
                table: None,
            });
        }
        let (memory, mut table) = boxed_memory(alloc, capacity)?;
        let columns = Columns::with_capacity(alloc, memory.capacity())?;
        *table = memory.into_table();
        Ok(Store {
            columns,
            table: Some(table),
        })
    }

    /// For how many elements each array has memory. No map calls this: its clauses tie `bytes` to what the arrays take.
    pub fn arrays(&self) -> Arrays
        ensures each { result ≡ arrays_of self.now.is_vec self.now.capacity }
        ensures bytes { (key value : ℕ) → bytes_in key value result
            ≡ bytes key value self.now.is_vec self.now.capacity }
    {
        let (hashes, words, word_size) = match &self.table {
            Some(table) => table.memory(),
            None => (0, 0, size_of::<u32>()),
        };
        Arrays {
            keys: self.columns.keys.capacity(),
            values: self.columns.values.capacity(),
            hashes,
            words,
            word_size,
            table: if self.is_vec() { 0 } else { size_of::<Table>() },
        }
    }

    /// Makes the capacity enough for this many pairs more, in a vector for no more in all than the limit.
    ///
    /// If it is not enough yet, a table gets the least of its series that is, and a vector grows as `grown_capacity` says. On error
    /// nothing changes.
    #[inline(never)]
    pub fn reserve(&mut self, additional: usize, limit: usize) -> Result<(), Refusal>
        ensures reserves { StoreReserves limit self.old self.new additional result }
    {
        match &mut self.table {
            Some(table) => reserve_in_table(&mut self.columns, table, additional, limit),
            None => reserve_in_vector(&mut self.columns, additional, limit),
        }
    }

    /// Makes a table of no more pairs than the limit a vector, and shrinks the capacity to the least that the pairs fit. On
    /// error nothing changes.
    pub fn shrink_to_fit(&mut self, limit: usize) -> Result<(), AllocError>
        ensures shrinks { StoreShrinks limit self.old self.new result }
    {
        let len = self.columns.len();
        if let Some(table) = &mut self.table {
            if limit < len {
                return shrink_table(&mut self.columns, table, limit);
            }
        }
        self.columns.shrink_to(len)?;
        self.table = None;
        Ok(())
    }

    /// Clones of the pairs in the same form, with the same stored hashes. A table has the same capacity, and a vector none to
    /// spare.
    pub fn clone(&self) -> Result<Store<K, V>, Refusal>
    where
        K: Clone,
        V: Clone,
        ensures cloned { IfOk result (IsStoreClone K.is_clone V.is_clone self.now) }
        ensures refused { IfErr result (λ why. why ≡ Refusal.Memory) }
    {
        let alloc = self.columns.allocator();
        let Some(table) = &self.table else {
            let columns = Columns::with_capacity(alloc, self.columns.len())?;
            return Ok(Store {
                columns: self.columns.clone_into(columns)?,
                table: None,
            });
        };
        let memory = table.memory_alike()?;
        let mut copy = Box::new(alloc, Table::new(alloc))?;
        let columns = Columns::with_capacity(alloc, table.capacity())?;
        let columns = self.columns.clone_into(columns)?;
        *copy = memory.into_copy_of(table);
        Ok(Store {
            columns,
            table: Some(copy),
        })
    }

    /// An empty table with capacity for this many pairs, in a block of its own. The columns get the same capacity. On error
    /// nothing changes.
    pub fn new_table(&mut self, needed: usize) -> Result<Box<Table>, Refusal>
        requires { self.old.is_vec ≡ true }
        ensures makes { MakesTable self.old self.new needed result }
    {
        let (memory, mut table) = boxed_memory(self.columns.allocator(), needed)?;
        if self.columns.capacity() < memory.capacity() {
            self.columns.grow_to(memory.capacity())?;
        }
        *table = memory.into_table();
        Ok(table)
    }

    /// Makes a vector one with this table, which has the hash of each pair, in order.
    pub fn switch_to(&mut self, table: Box<Table>)
        requires vector { self.old.is_vec ≡ true }
        requires len { length table.value.hashes ≡ length self.old.pairs }
        requires same_capacity { capacity_of table.value.buckets ≡ self.old.capacity }
        ensures { self.new ≡ table_of
            (record { pairs = self.old.pairs; capacity = self.old.capacity }) table.value }
    {
        self.table = Some(table);
    }
}

// `reserve` of a vector of these columns.
#[inline(always)]
#[tactic(auto)]
fn reserve_in_vector<K, V>(
    columns: &mut Columns<K, V>,
    additional: usize,
    limit: usize,
) -> Result<(), Refusal>
    ensures reserves { StoreReserves limit (vector_of columns.old) (vector_of columns.new)
        additional result }
{
    let needed = columns.len().saturating_add(additional).min(limit);
    let capacity = columns.capacity();
    if capacity < needed {
        check_size(needed)?;
        // At least twice what it was, so that many insertions cost few growths.
        let generous = capacity.saturating_mul(2).max(LEAST_GROWN).max(needed);
        columns.grow_to(generous.min(limit))?;
    }
    Ok(())
}

// `reserve` of a table over these columns. Its limit is that of the map, and changes nothing.
#[inline(always)]
#[tactic(auto)]
fn reserve_in_table<K, V>(
    columns: &mut Columns<K, V>,
    table: &mut Table,
    additional: usize,
    _limit: usize,
) -> Result<(), Refusal>
    requires { TableFitsColumns columns.old table.old }
    ensures reserves { StoreReserves _limit (table_of columns.old table.old)
        (table_of columns.new table.new) additional result }
    ensures fits { TableFitsColumns columns.new table.new }
{
    let len = columns.len();
    if additional <= table.capacity() - len {
        return Ok(());
    }
    let Some(needed) = len.checked_add(additional) else {
        return Err(Refusal::Size);
    };
    let memory = TableMemory::for_pairs(columns.allocator(), needed)?;
    columns.grow_to(memory.capacity())?;
    table.move_to(memory);
    Ok(())
}

// `shrink_to_fit` of a table over these columns that stays one.
#[inline(always)]
#[tactic(auto)]
fn shrink_table<K, V>(
    columns: &mut Columns<K, V>,
    table: &mut Table,
    limit: usize,
) -> Result<(), AllocError>
    requires fits { TableFitsColumns columns.old table.old }
    requires exceeds { limit < length columns.old.pairs }
    ensures shrinks { StoreShrinks limit (table_of columns.old table.old)
        (table_of columns.new table.new) result }
    ensures fits { TableFitsColumns columns.new table.new }
{
    let buckets = least_buckets(table.len());
    if capacity_of(buckets) < table.capacity() {
        let memory = TableMemory::for_buckets(columns.allocator(), buckets)?;
        columns.shrink_to(memory.capacity())?;
        table.move_to(memory);
    }
    Ok(())
}

// Memory for a table with capacity for this many pairs, and the block that it will stand in, with a table of no buckets.
#[inline(always)]
#[tactic(auto)]
fn boxed_memory(alloc: Global, needed: usize) -> Result<(TableMemory, Box<Table>), Refusal>
    ensures buckets { IfOk result (λ m. m.0 ≡ least_buckets needed) }
    ensures enough { OnOk result (needed ≤ least_table_capacity needed) }
    ensures granted { OnOk result (needed ≤ 2 ^ 60) }
    ensures refused { IfErr result (λ why. why ≡ refusal_of needed) }
{
    let memory = TableMemory::for_pairs(alloc, needed)?;
    Ok((memory, Box::new(alloc, Table::new(alloc))?))
}
