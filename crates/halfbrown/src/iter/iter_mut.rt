//! The pairs of a map, the values lent to be written.
ghost use Rattle.std.specs.Prelude.{◌≡◌, Some, length, IfSome};
ghost use Rattle.std.specs.Iterator.{at_most, UpTo};
ghost use Rattle.std.specs.Iterator.SizeHint.{IsWithinCount};
ghost use Rattle.std.specs.Map.Iter.{LendsFirst};
ghost use Rattle.std.specs.Slice.Iter.{iter_rest, iter_mut_rest};

use std::iter::FusedIterator;
use std::slice;

/// The pairs of a map, each as `(&K, &mut V)`: what `iter_mut` returns.
// It has no model, so that a contract can say what becomes of the map.
#[derive(Drop)]
pub struct IterMut<'a, K, V> {
    pub(crate) keys: slice::Iter<'a, K>,
    pub(crate) values: slice::IterMut<'a, V>,
    ghost even: { length (iter_mut_rest values) ≡ length (iter_rest keys) },
}

impl<'a, K, V> Iterator for IterMut<'a, K, V> {
    ghost use Rattle.halfbrown.specs.Iter.{iter_mut_left};

    type Item = (&'a K, &'a mut V);

    ghost next_gives = { LendsFirst iter_mut_left };

    ghost remaining = { λ s. at_most (length (iter_mut_left s)) };

    #[inline(always)]
    fn next(&mut self) -> Option<(&'a K, &'a mut V)> {
        let key = self.keys.next()?;
        Some((key, self.values.next().unwrap()))
    }

    #[inline(always)]
    fn size_hint(&self) -> (usize, Option<usize>)
        ensures lower { IsWithinCount result.0 (at_most (length (iter_mut_left self.now))) }
        ensures upper { IfSome result.1 (UpTo (at_most (length (iter_mut_left self.now)))) }
        ensures exact { result
            ≡ (length (iter_mut_left self.now), Some (length (iter_mut_left self.now))) }
    {
        let len = self.len();
        (len, Some(len))
    }
}

impl<'a, K, V> ExactSizeIterator for IterMut<'a, K, V> {
    #[inline(always)]
    fn len(&self) -> usize {
        self.keys.len()
    }
}

impl<'a, K, V> FusedIterator for IterMut<'a, K, V> {}
