//! Pairs in two forms over the same two columns: a vector, which is searched for the first key that matches, or a table, which
//! has an index.
#![tactic(auto, using(crate::proofs::lemmas::store::States::store_steps))]

ghost use Rattle.std.specs.Prelude.{◌≡◌, [], length, nat_lt};
ghost use Rattle.half_store.specs.Columns.{no_pairs};
ghost use Rattle.half_store.specs.Store.{vector_of, SameFormAndCapacity};

mod change;
mod columns;
pub mod drain;
pub mod find;
pub mod memory;
mod retain;

use crate::{Columns, Table};
use std::alloc::Global;
use std::marker::Model;

/// Pairs in order, in one of two forms. Callers supply the hashes and the comparisons.
#[derive(Drop)]
pub struct Store<K, V> {
    columns: Columns<K, V>,
    // by hash, in a block of its own; a vector has none
    table: Option<Box<Table>>,
}

impl<K, V> Model for Store<K, V> {
    ghost use Rattle.half_store.specs.Store.{StoreState, store_of, store_code, IsStore};

    ghost Value = { StoreState K V };

    ghost coded = { store_code K.code V.code };

    ghost view = { λ s. store_of s.columns s.table };

    ghost invariant = { λ s. IsStore s.columns s.table };
}

impl<K, V> Store<K, V> {
    /// A vector with no pairs. It takes no memory.
    pub fn new(alloc: Global) -> Store<K, V>
        ensures { result ≡ vector_of no_pairs }
    {
        Store {
            columns: Columns::new(alloc),
            table: None,
        }
    }

    /// Whether the form is the vector.
    #[inline(always)]
    pub fn is_vec(&self) -> bool
        ensures { result ≡ self.now.is_vec }
    {
        self.table.is_none()
    }

    /// How many pairs fit before more memory is needed.
    #[inline(always)]
    pub fn capacity(&self) -> usize
        ensures { result ≡ self.now.capacity }
    {
        self.columns.capacity()
    }

    /// Whether one pair more fits.
    #[inline(always)]
    pub fn has_capacity_left(&self) -> bool
        ensures { result ≡ nat_lt (length self.now.pairs) self.now.capacity }
    {
        self.columns.len() < self.columns.capacity()
    }

    /// Removes all pairs. The form and the capacity stay.
    pub fn clear(&mut self)
    where
        K: Drop,
        V: Drop,
        ensures pairs { self.new.pairs ≡ [] }
        ensures hashes { self.new.table.hashes ≡ [] }
        ensures form { SameFormAndCapacity self.old self.new }
    {
        if let Some(table) = &mut self.table {
            table.clear();
        }
        self.columns.keys.clear();
        self.columns.values.clear();
    }
}
