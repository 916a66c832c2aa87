//! The iterators of a map, over its columns of keys and values. Each goes from the first pair to the last.
ghost use Rattle.std.specs.Prelude.{◌≡◌, Some, length, IfSome};
ghost use Rattle.std.specs.Iterator.{at_most, UpTo};
ghost use Rattle.std.specs.Iterator.SizeHint.{IsWithinCount};
ghost use Rattle.std.specs.Slice.Iter.{iter_rest};

mod column;
mod into_iter;
mod iter_mut;
mod values_mut;

pub use column::{Column, Keys, Values};
pub use into_iter::IntoIter;
pub use iter_mut::IterMut;
use std::alloc::AllocError;
use std::fmt::{Debug, Formatter, Result as Printed, Write};
use std::iter::FusedIterator;
use std::slice;
pub use values_mut::ValuesMut;

/// The pairs of a map, each as `(&K, &V)`: what `iter` returns.
#[derive(Drop)]
pub struct Iter<'a, K, V> {
    pub(crate) keys: slice::Iter<'a, K>,
    pub(crate) values: slice::Iter<'a, V>,
    ghost even: { length (iter_rest values) ≡ length (iter_rest keys) },
}

impl<'a, K, V> Iterator for Iter<'a, K, V> {
    ghost use Rattle.halfbrown.specs.Iter.{pairs_left, IterSteps};

    type Item = (&'a K, &'a V);

    ghost next_gives = { IterSteps };

    ghost remaining = { λ s. at_most (length (pairs_left s)) };

    #[inline(always)]
    fn next(&mut self) -> Option<(&'a K, &'a V)> {
        let key = self.keys.next()?;
        Some((key, self.values.next().unwrap()))
    }

    #[inline(always)]
    fn size_hint(&self) -> (usize, Option<usize>)
        ensures lower { IsWithinCount result.0 (at_most (length (pairs_left self.now))) }
        ensures upper { IfSome result.1 (UpTo (at_most (length (pairs_left self.now)))) }
        ensures exact { result
            ≡ (length (pairs_left self.now), Some (length (pairs_left self.now))) }
    {
        let len = self.len();
        (len, Some(len))
    }
}

impl<'a, K, V> ExactSizeIterator for Iter<'a, K, V> {
    #[inline(always)]
    fn len(&self) -> usize {
        self.keys.len()
    }
}

impl<'a, K, V> FusedIterator for Iter<'a, K, V> {}

impl<'a, K, V> Clone for Iter<'a, K, V> {
    ghost use Rattle.std.specs.Prelude.{⊤};
    ghost use Rattle.halfbrown.specs.Iter.{pairs_left};

    ghost is_clone = { λ s r. pairs_left r ≡ pairs_left s };

    ghost is_infallible = { λ _. ⊤ };

    #[inline(always)]
    fn clone(&self) -> Result<Self, AllocError> {
        Ok(Iter {
            keys: self.keys.clone()?,
            values: self.values.clone()?,
        })
    }
}

impl<'a, K: Debug, V: Debug> Debug for Iter<'a, K, V> {
    fn fmt<W: Write>(&self, f: &mut Formatter<W>) -> Printed {
        f.debug_list().entries(self.clone().unwrap()).finish()
    }
}
