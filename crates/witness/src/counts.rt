//! What builders, keys and values count of their own work, and how often closures are called.

use std::cell::Cell;
use test_support::builders::{Counting, Rule};

/// The work since the line began, and the number of the line.
#[derive(Default, Drop)]
pub(crate) struct Counts {
    pub lines: Cell<u64>,
    hashes: Cell<u64>,
    pub comparisons: Cell<u64>,
    pub dropped_keys: Cell<u64>,
    pub dropped_values: Cell<u64>,
    pub calls: Cell<u64>,
}

impl Counts {
    /// A builder whose hashes are counted here.
    pub(crate) fn builder(&self, rule: Rule) -> Counting<'_> {
        Counting::new(rule, &self.hashes)
    }

    /// A closure of the line was called.
    pub(crate) fn count_call(&self) {
        add_one(&self.calls);
    }

    /// Begins a line.
    pub(crate) fn begin(&self) {
        add_one(&self.lines);
        self.take_work();
        self.take_dropped();
        self.calls.set(0);
    }

    /// How often the builder made a hash and keys were compared. Both begin anew.
    pub(crate) fn take_work(&self) -> (u64, u64) {
        (self.hashes.replace(0), self.comparisons.replace(0))
    }

    /// How many keys and values were dropped. Both begin anew.
    pub(crate) fn take_dropped(&self) -> (u64, u64) {
        (self.dropped_keys.replace(0), self.dropped_values.replace(0))
    }
}

/// Counts once more.
pub(crate) fn add_one(count: &Cell<u64>) {
    count.set(count.get().saturating_add(1));
}
