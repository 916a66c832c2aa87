//! What the calls of a script need of its keys and values, and of the builder.

use crate::words::Name;
use halfbrown::EqualClone;
use std::alloc::{AllocError, Global};
use std::fmt::Debug;
use std::hash::{BuildHasher, Hash};
use test_support::builders::{Counting, Rule};

/// A key of a script. It is printed as it is written.
pub(crate) trait Named: EqualClone + Hash + Debug + Drop {
    /// How it is written.
    fn name(&self) -> Name;

    /// Another key, of this name. It counts where this one does.
    fn like(&self, alloc: Global, name: Name) -> Result<Self, AllocError>;
}

/// A value of a script: a number, which is printed.
pub(crate) trait Number: Clone + PartialEq + Debug + Drop {
    /// The number.
    fn number(&self) -> u64;

    /// Makes it this number.
    fn set(&mut self, number: u64);

    /// Another value, of this number.
    fn like(&self, number: u64) -> Self;
}

/// Adds to a value, modulo 2^64.
pub(crate) fn add_to<V: Number>(value: &mut V, more: u64) {
    value.set(value.number().wrapping_add(more));
}

impl Number for u64 {
    fn number(&self) -> u64 {
        *self
    }

    fn set(&mut self, number: u64) {
        *self = number;
    }

    fn like(&self, number: u64) -> u64 {
        number
    }
}

/// The builder of a script. What takes any builder is proved sooner than the same at `Counting`.
pub(crate) trait Ruled: BuildHasher + Copy + Drop {
    /// The name of its rule.
    fn rule_name(&self) -> &'static str;
}

impl Ruled for Counting<'_> {
    fn rule_name(&self) -> &'static str {
        match self.rule {
            Rule::Plain => "plain",
            Rule::Zero => "zero",
            Rule::Top => "top",
        }
    }
}
