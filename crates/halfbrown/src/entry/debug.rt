//! What entries are printed as.
use super::{Entry, OccupiedEntry, VacantEntry};
use crate::{KeyHasher, Limit};
use std::fmt::{Debug, Formatter, Result, Write};
use std::hash::Hash;

impl<'a, K: Eq + Hash + Debug, V: Debug, S: KeyHasher<K>, L: Limit> Debug
    for Entry<'a, K, V, S, L> {
    fn fmt<W: Write>(&self, f: &mut Formatter<W>) -> Result {
        match self {
            Entry::Occupied(entry) => f.debug_tuple("Entry").field(entry).finish(),
            Entry::Vacant(entry) => f.debug_tuple("Entry").field(entry).finish(),
        }
    }
}

impl<'a, K: Eq + Hash + Debug, V: Debug, S: KeyHasher<K>, L: Limit> Debug
    for OccupiedEntry<'a, K, V, S, L> {
    fn fmt<W: Write>(&self, f: &mut Formatter<W>) -> Result {
        f.debug_struct("OccupiedEntry")
            .field("key", self.key())
            .field("value", self.get())
            .finish()
    }
}

impl<'a, K: Eq + Hash + Debug, V, S: KeyHasher<K>, L: Limit> Debug for VacantEntry<'a, K, V, S, L> {
    fn fmt<W: Write>(&self, f: &mut Formatter<W>) -> Result {
        f.debug_tuple("VacantEntry").field(self.key()).finish()
    }
}
