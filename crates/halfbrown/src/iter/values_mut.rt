//! The values of a map, lent to be written.
ghost use Rattle.std.specs.Prelude.{◌≡◌, Some, length, IfSome};
ghost use Rattle.std.specs.Iterator.{at_most, UpTo};
ghost use Rattle.std.specs.Iterator.SizeHint.{IsWithinCount};
ghost use Rattle.halfbrown.specs.Iter.{values_mut_left, ValuesMutSteps};

use std::iter::FusedIterator;
use std::marker::PhantomData;
use std::slice;

/// The values of a map, to be written: what `values_mut` returns.
// It has no model, so that a contract can say what becomes of the map.
#[derive(Drop)]
pub struct ValuesMut<'a, K, V> {
    pub(crate) values: slice::IterMut<'a, V>,
    pub(crate) keys: PhantomData<&'a K>,
}

impl<'a, K, V> Iterator for ValuesMut<'a, K, V> {
    type Item = &'a mut V;

    ghost next_gives = { ValuesMutSteps };

    ghost remaining = { λ s. at_most (length (values_mut_left s)) };

    #[inline(always)]
    fn next(&mut self) -> Option<&'a mut V> {
        self.values.next()
    }

    #[inline(always)]
    fn size_hint(&self) -> (usize, Option<usize>)
        ensures lower { IsWithinCount result.0 (at_most (length (values_mut_left self.now))) }
        ensures upper { IfSome result.1 (UpTo (at_most (length (values_mut_left self.now)))) }
        ensures exact { result
            ≡ (length (values_mut_left self.now), Some (length (values_mut_left self.now))) }
    {
        let len = self.len();
        (len, Some(len))
    }
}

impl<'a, K, V> ExactSizeIterator for ValuesMut<'a, K, V> {
    #[inline(always)]
    fn len(&self) -> usize {
        self.values.len()
    }
}

impl<'a, K, V> FusedIterator for ValuesMut<'a, K, V> {}
