//! The pairs of a map, by value.
ghost use Rattle.std.specs.Prelude.{◌≡◌, Some, length, IsTrue, ◌↔◌, IfSome};
ghost use Rattle.std.specs.Iterator.{at_most, UpTo};
ghost use Rattle.std.specs.Iterator.SizeHint.{IsWithinCount};
ghost use Rattle.std.specs.Map.Iter.{TakesFirst};

use std::iter::FusedIterator;
use std::marker::Model;
use std::vec;

/// The pairs of a map, by value. Those that are left are dropped with it.
///
/// ```
/// let mut pairs = ages.into_iter();
/// assert_eq!(rt; pairs.next(), Some((1, 36)));
/// ```
#[derive(Drop)]
pub struct IntoIter<K, V> {
    pub(crate) keys: vec::IntoIter<K>,
    pub(crate) values: vec::IntoIter<V>,
}

impl<K, V> Model for IntoIter<K, V> {
    ghost use Rattle.std.specs.Prelude.{◌≡◌, List, length, zip};
    ghost use Rattle.std.specs.Vec.Iter.{into_iter_items};

    ghost Value = { List (K × V) };

    ghost view = { λ it. zip (into_iter_items it.keys) (into_iter_items it.values) };

    ghost invariant = { λ it.
        length (into_iter_items it.values) ≡ length (into_iter_items it.keys) };
}

impl<K, V> IntoIter<K, V> {
    /// Returns the number of pairs that are left.
    ///
    /// ```
    /// assert_eq!(rt; ages.into_iter().len(), 2);
    /// ```
    #[inline(always)]
    pub fn len(&self) -> usize
        ensures { result ≡ length self.now }
    {
        self.keys.len()
    }

    /// Returns whether no pair is left.
    ///
    /// ```
    /// assert!(rt; !ages.into_iter().is_empty());
    /// ```
    #[inline(always)]
    pub fn is_empty(&self) -> bool
        ensures { IsTrue result ↔ (length self.now ≡ 0) }
    {
        self.len() == 0
    }
}

impl<K: Drop, V: Drop> Iterator for IntoIter<K, V> {
    type Item = (K, V);

    ghost next_gives = { TakesFirst (λ pair. pair) };

    ghost remaining = { λ s. at_most (length s) };

    #[inline(always)]
    fn next(&mut self) -> Option<(K, V)> {
        let key = self.keys.next()?;
        Some((key, self.values.next().unwrap()))
    }

    #[inline(always)]
    fn size_hint(&self) -> (usize, Option<usize>)
        ensures lower { IsWithinCount result.0 (at_most (length self.now)) }
        ensures upper { IfSome result.1 (UpTo (at_most (length self.now))) }
        ensures exact { result ≡ (length self.now, Some (length self.now)) }
    {
        let len = self.len();
        (len, Some(len))
    }
}

impl<K: Drop, V: Drop> ExactSizeIterator for IntoIter<K, V> {
    #[inline(always)]
    fn len(&self) -> usize {
        self.len()
    }
}

impl<K: Drop, V: Drop> FusedIterator for IntoIter<K, V> {}
