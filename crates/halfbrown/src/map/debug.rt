//! What a map is printed as.
use super::LimitedHashMap;
use crate::{KeyHasher, Limit};
use std::fmt::{Debug, Formatter, Result, Write};
use std::hash::Hash;

impl<K: Eq + Hash + Debug, V: Debug, S: KeyHasher<K>, L: Limit> Debug
    for LimitedHashMap<K, V, S, L> {
    /// Prints the pairs in order, as std prints a map.
    ///
    /// ```
    /// let text = format!(in alloc; "{ages:?}")?;
    /// assert_eq!(rt; text.as_str(), "{1: 36, 2: 41}");
    /// ```
    fn fmt<W: Write>(&self, f: &mut Formatter<W>) -> Result {
        let mut out = f.debug_map();
        for index in 0..self.len() {
            let (key, value) = self.pair_at(index);
            out.entry(key, value);
        }
        out.finish()
    }
}
