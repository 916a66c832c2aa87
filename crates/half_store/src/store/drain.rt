//! A store whose pairs are taken out, from first to last.
ghost use Rattle.std.specs.Prelude.{◌≡◌, ◌^◌, ◌<◌, [], ◌∷◌, length, MatchOption};
ghost use Rattle.half_store.specs.Columns.{no_pairs};
ghost use Rattle.half_store.specs.Store.{vector_of, SameFormAndCapacity};

use super::Store;
use crate::{Columns, Table};
use std::collections::VecDeque;
use std::marker::Model;
use std::mem::replace;

/// What was a store: the pairs that are still to be taken out of it, and its memory. `into_store` makes it a store again, with no
/// pair.
#[derive(Drop)]
pub struct Drained<K, V> {
    // queues in the blocks that the columns had
    keys: VecDeque<K>,
    values: VecDeque<V>,
    // still of all pairs that were there, until `into_store` clears it
    table: Option<Box<Table>>,
}

impl<K, V> Model for Drained<K, V> {
    ghost use Rattle.half_store.specs.Drained.{drained_of, AreEvenQueues};
    ghost use Rattle.half_store.specs.Store.{StoreState, store_code};

    ghost Value = { StoreState K V };

    ghost coded = { store_code K.code V.code };

    ghost view = { λ d. drained_of d.keys d.values d.table };

    ghost invariant = { λ d. AreEvenQueues d.keys d.values d.table };
}

/// What becomes a store again: only `Drained`. A workaround: the prover cannot see through the drop of a struct that owns
/// memory and also borrows; behind a type parameter it can.
pub trait IntoStore<K, V> {
    ghost use Rattle.half_store.specs.Store.{StoreState};

    ghost store: { Self → StoreState K V };

    /// The store again, with no pair. Those that are left are dropped.
    fn into_store(self) -> Store<K, V>
    where
        K: Drop,
        V: Drop,
        ensures pairs { result.pairs ≡ [] }
        ensures hashes { result.table.hashes ≡ [] }
        ensures form { SameFormAndCapacity (Self.store self) result };
}

impl<K, V> Store<K, V> {
    /// Takes all pairs out, and the memory with them. A vector with no pairs and no memory is left. No pair is moved.
    #[inline(always)]
    pub fn drain(&mut self) -> Drained<K, V>
        ensures pairs { result.pairs ≡ self.old.pairs }
        ensures form { SameFormAndCapacity self.old result }
        ensures after { self.new ≡ vector_of no_pairs }
        ensures small { length result.pairs < 2 ^ 63 }
    {
        let none = Columns::new(self.columns.allocator());
        let (keys, values) = replace(&mut self.columns, none).into_columns();
        Drained {
            keys: VecDeque::from_vec(keys),
            values: VecDeque::from_vec(values),
            table: self.table.take(),
        }
    }
}

impl<K, V> Drained<K, V> {
    /// How many pairs are still to be taken out.
    #[inline(always)]
    pub fn len(&self) -> usize
        ensures len { result ≡ length self.now.pairs }
        ensures small { result < 2 ^ 63 }
    {
        self.keys.len()
    }

    /// Takes the first one out.
    #[inline(always)]
    pub fn pop_front(&mut self) -> Option<(K, V)>
        ensures first { MatchOption result ((self.old.pairs ≡ []) × (self.new ≡ self.old))
            (λ pair. self.old.pairs ≡ pair ∷ self.new.pairs) }
        ensures form { SameFormAndCapacity self.old self.new }
    {
        let key = self.keys.pop_front()?;
        Some((key, self.values.pop_front().unwrap()))
    }
}

impl<K, V> IntoStore<K, V> for Drained<K, V> {
    ghost store = { λ d. d };

    #[inline(always)]
    fn into_store(self) -> Store<K, V>
    where
        K: Drop,
        V: Drop,
    {
        let Drained {
            mut keys,
            mut values,
            mut table,
        } = self;
        if let Some(table) = &mut table {
            table.clear();
        }
        keys.clear();
        values.clear();
        Store {
            columns: Columns {
                keys: keys.into_vec(),
                values: values.into_vec(),
            },
            table,
        }
    }
}
