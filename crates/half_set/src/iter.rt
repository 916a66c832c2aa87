//! The iterators of a set.
ghost use Rattle.std.specs.Prelude.{List, ◌++◌, length};
ghost use Rattle.std.specs.Iterator.{at_most};
ghost use Rattle.std.specs.Map.{keys_of};
ghost use Rattle.std.specs.Map.Iter.{TakesFirst, deref};
ghost use Rattle.half_set.specs.Sets.{selected};

use crate::HashSet;
use halfbrown::Keys;
use std::hash::Hash;
use std::marker::Model;

/// The values of a set, by value, in order.
#[derive(Drop)]
pub struct IntoIter<T> {
    pub(crate) pairs: halfbrown::IntoIter<T, ()>,
}

impl<T> Model for IntoIter<T> {
    ghost Value = { List T };

    ghost view = { λ it. keys_of it.pairs };
}

impl<T: Drop> Iterator for IntoIter<T> {
    type Item = T;

    ghost next_gives = { TakesFirst (λ value. value) };

    ghost remaining = { λ values. at_most (length values) };

    fn next(&mut self) -> Option<T> {
        let (value, ()) = self.pairs.next()?;
        Some(value)
    }
}

/// The values of a set that another has, or those that it lacks, in order: what `intersection` and `difference` return.
#[derive(Drop)]
pub struct Selected<'a, T: Eq + Hash> {
    pub(crate) values: Keys<'a, T, ()>,
    pub(crate) other: &'a HashSet<T>,
    // Whether they are those that the other has.
    pub(crate) members: bool,
}

impl<'a, T: Eq + Hash> Model for Selected<'a, T> {
    ghost Value = { List T };

    ghost view = { λ s. selected T.eq s.members s.other.now s.values };
}

impl<'a, T: Eq + Hash> Iterator for Selected<'a, T> {
    type Item = &'a T;

    ghost next_gives = { TakesFirst deref };

    ghost remaining = { λ values. at_most (length values) };

    fn next(&mut self) -> Option<&'a T> {
        while let Some(value) = self.values.next() {
            if self.other.contains(value) == self.members {
                return Some(value);
            }
        }
        None
    }
}

/// The values of one set, and then those that another has besides them: what `union` returns.
#[derive(Drop)]
pub struct Union<'a, T: Eq + Hash> {
    pub(crate) first: Keys<'a, T, ()>,
    pub(crate) then: Selected<'a, T>,
}

impl<'a, T: Eq + Hash> Model for Union<'a, T> {
    ghost Value = { List T };

    ghost view = { λ u. u.first ++ u.then };
}

impl<'a, T: Eq + Hash> Iterator for Union<'a, T> {
    type Item = &'a T;

    ghost next_gives = { TakesFirst deref };

    ghost remaining = { λ values. at_most (length values) };

    fn next(&mut self) -> Option<&'a T> {
        match self.first.next() {
            Some(value) => Some(value),
            None => self.then.next(),
        }
    }
}
