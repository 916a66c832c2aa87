//! Builders whose hashes are known beforehand, and which count the hashes that they make.
ghost use Rattle.std.specs.Prelude.{◌≡◌};
ghost use Rattle.test_support.specs.Hashes.{hash_by, shifted};

use std::cell::Cell;
use std::hash::{BuildHasher, Hasher};

/// How a key is hashed.
#[derive(Clone, Copy, Debug, PartialEq, Eq)]
pub enum Rule {
    /// The hash of a number is the number.
    Plain,
    /// Every hash is 0.
    Zero,
    /// Every hash is `u64::MAX`.
    Top,
}

impl Rule {
    /// The hash of a key that is this number.
    pub fn hash(self, number: u64) -> u64
        ensures { result ≡ hash_by self number }
    {
        match self {
            Rule::Plain => number,
            Rule::Zero => 0,
            Rule::Top => u64::MAX,
        }
    }
}

/// Hashes one number by a rule.
#[derive(Clone, Copy, Debug)]
pub struct NumberHasher {
    rule: Rule,
    word: u64,
}

impl Hasher for NumberHasher {
    ghost write = { λ s bytes. record s { word = shifted s.word bytes } };

    ghost finish = { λ s. hash_by s.rule s.word };

    fn write(&mut self, bytes: &[u8]) {
        self.word = bytes.iter().fold(
            self.word,
            |word, byte| word / 256 + u64::from(*byte) * (1 << 56),
        );
    }

    fn finish(&self) -> u64 {
        self.rule.hash(self.word)
    }
}

/// A builder that hashes by a rule, and counts the hashes that it makes.
#[derive(Clone, Copy)]
pub struct Counting<'a> {
    pub rule: Rule,
    asked: &'a Cell<u64>,
}

impl<'a> Counting<'a> {
    /// Hashes by this rule, and adds one to `asked` for each hash.
    pub fn new(rule: Rule, asked: &'a Cell<u64>) -> Counting<'a>
        ensures { result.rule ≡ rule }
    {
        Counting { rule, asked }
    }
}

impl BuildHasher for Counting<'_> {
    type Hasher = NumberHasher;

    ghost build_hasher = { λ b. record { rule = b.rule; word = 0 } };

    fn build_hasher(&self) -> NumberHasher {
        self.asked.set(self.asked.get().saturating_add(1));
        NumberHasher {
            rule: self.rule,
            word: 0,
        }
    }
}
