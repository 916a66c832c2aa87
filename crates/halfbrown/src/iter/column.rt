//! The keys or the values of a map, lent to be read.
ghost use Rattle.std.specs.Prelude.{◌≡◌, Some, length, IfSome, ⊤};
ghost use Rattle.std.specs.Iterator.{at_most, UpTo};
ghost use Rattle.std.specs.Iterator.SizeHint.{IsWithinCount};
ghost use Rattle.std.specs.Map.Iter.{TakesFirst, deref};

use std::alloc::AllocError;
use std::iter::FusedIterator;
use std::marker::{Model, PhantomData};
use std::slice;

/// The keys or the values of a map, in order. `O` is the type of the other column.
pub struct Column<'a, T, O> {
    pub(crate) items: slice::Iter<'a, T>,
    pub(crate) other: PhantomData<O>,
}

/// The keys of a map: what `keys` returns.
pub type Keys<'a, K, V> = Column<'a, K, V>;

/// The values of a map: what `values` returns.
pub type Values<'a, K, V> = Column<'a, V, K>;

impl<'a, T, O> Model for Column<'a, T, O> {
    ghost use Rattle.std.specs.Prelude.{List};
    ghost use Rattle.std.specs.Slice.Iter.{iter_rest};

    ghost Value = { List T };

    ghost view = { λ column. iter_rest column.items };
}

// Written out, since it holds nothing of the other column's type.
impl<'a, T, O> Drop for Column<'a, T, O> {
    fn drop(self) {
        let Column { items, other: _ } = self;
        drop(items);
    }
}

impl<'a, T, O> Iterator for Column<'a, T, O> {
    type Item = &'a T;

    ghost next_gives = { TakesFirst deref };

    ghost remaining = { λ left. at_most (length left) };

    #[inline(always)]
    fn next(&mut self) -> Option<&'a T> {
        self.items.next()
    }

    #[inline(always)]
    fn size_hint(&self) -> (usize, Option<usize>)
        ensures lower { IsWithinCount result.0 (at_most (length self.now)) }
        ensures upper { IfSome result.1 (UpTo (at_most (length self.now))) }
        ensures exact { result ≡ (length self.now, Some (length self.now)) }
    {
        let len = self.len();
        (len, Some(len))
    }
}

impl<'a, T, O> ExactSizeIterator for Column<'a, T, O> {
    #[inline(always)]
    fn len(&self) -> usize {
        self.items.len()
    }
}

impl<'a, T, O> FusedIterator for Column<'a, T, O> {}

impl<'a, T, O> Clone for Column<'a, T, O> {
    ghost is_clone = { λ s r. r ≡ s };

    ghost is_infallible = { λ _. ⊤ };

    #[inline(always)]
    fn clone(&self) -> Result<Self, AllocError> {
        Ok(Column {
            items: self.items.clone()?,
            other: PhantomData,
        })
    }
}
