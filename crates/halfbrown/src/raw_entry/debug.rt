//! What raw entries and their builders are printed as.
use super::{RawEntryBuilder, RawEntryBuilderMut, RawEntryMut, RawVacantEntryMut};
use crate::{KeyHasher, Limit};
use std::fmt::{Debug, Formatter, Result, Write};
use std::hash::Hash;

impl<'a, K: Eq + Hash, V, S: KeyHasher<K>, L: Limit> Debug for RawEntryBuilder<'a, K, V, S, L> {
    fn fmt<W: Write>(&self, f: &mut Formatter<W>) -> Result {
        f.write_str("RawEntryBuilder")
    }
}

impl<'a, K: Eq + Hash, V, S: KeyHasher<K>, L: Limit> Debug for RawEntryBuilderMut<'a, K, V, S, L> {
    fn fmt<W: Write>(&self, f: &mut Formatter<W>) -> Result {
        f.write_str("RawEntryBuilder")
    }
}

// The pair that was found, under the alias of its entry, whose own name is `OccupiedEntry`.
#[derive(Debug, Drop)]
struct RawOccupiedEntryMut<'b, K, V> {
    key: &'b K,
    value: &'b V,
}

impl<'a, K: Eq + Hash + Debug, V: Debug, S: KeyHasher<K>, L: Limit> Debug
    for RawEntryMut<'a, K, V, S, L> {
    fn fmt<W: Write>(&self, f: &mut Formatter<W>) -> Result {
        match self {
            RawEntryMut::Occupied(entry) => {
                let found = RawOccupiedEntryMut {
                    key: entry.key(),
                    value: entry.get(),
                };
                f.debug_tuple("RawEntry").field(&found).finish()
            }
            RawEntryMut::Vacant(entry) => f.debug_tuple("RawEntry").field(entry).finish(),
        }
    }
}

impl<'a, K: Eq + Hash, V, S: KeyHasher<K>, L: Limit> Debug for RawVacantEntryMut<'a, K, V, S, L> {
    fn fmt<W: Write>(&self, f: &mut Formatter<W>) -> Result {
        f.write_str("RawVacantEntryMut")
    }
}
