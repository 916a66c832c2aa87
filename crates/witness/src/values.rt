//! Values that are numbers and count their drops, and values of no size.
ghost use Rattle.std.specs.Prelude.{◌≡◌, ◌==◌};
ghost use Rattle.std.specs.Cmp.Rules.{comparing};
ghost use Rattle.std.proofs.Common.{rules};

use crate::counts::{Counts, add_one};
use crate::items::Number;
use std::alloc::AllocError;
use std::fmt;

/// A number that counts its drop. It is 48 bytes long.
pub(crate) struct Owned<'a> {
    number: u64,
    counts: &'a Counts,
    padding: [u64; 4],
}

impl<'a> Owned<'a> {
    /// The number 0, which counts here.
    pub(crate) fn zero(counts: &'a Counts) -> Owned<'a> {
        Owned {
            number: 0,
            counts,
            padding: [0; 4],
        }
    }
}

impl Number for Owned<'_> {
    fn number(&self) -> u64 {
        self.number
    }

    fn set(&mut self, number: u64) {
        self.number = number;
    }

    fn like(&self, number: u64) -> Self {
        Owned { number, ..*self }
    }
}

impl Drop for Owned<'_> {
    fn drop(self) {
        add_one(&self.counts.dropped_values);
        let Owned {
            number: _,
            counts: _,
            padding: _,
        } = self;
    }
}

impl Clone for Owned<'_> {
    ghost is_clone = { λ a b. b.number ≡ a.number };

    fn clone(&self) -> Result<Self, AllocError> {
        Ok(Owned {
            number: self.number,
            counts: self.counts,
            padding: self.padding,
        })
    }
}

impl PartialEq for Owned<'_> {
    ghost eq = { λ a b. a.number == b.number };

    ghost laws = { Prim.search (comparing, rules) };

    fn eq(&self, other: &Self) -> bool {
        self.number == other.number
    }
}

impl fmt::Debug for Owned<'_> {
    fn fmt<W: fmt::Write>(&self, f: &mut fmt::Formatter<W>) -> fmt::Result {
        write!(f, "{}", self.number)
    }
}

/// A value of no size. Its number is 0.
#[derive(Clone, Copy, PartialEq)]
pub(crate) struct Nothing;

impl Number for Nothing {
    fn number(&self) -> u64 {
        0
    }

    fn set(&mut self, _number: u64) {}

    fn like(&self, _number: u64) -> Self {
        Nothing
    }
}

impl fmt::Debug for Nothing {
    fn fmt<W: fmt::Write>(&self, f: &mut fmt::Formatter<W>) -> fmt::Result {
        write!(f, "0")
    }
}
