//! The words of a line, as its call reads them.

use crate::answer::{Answer, Answered, said};
use std::cell::Cell;
use std::io::ErrorKind;
use std::{fmt, io};
use test_support::builders::Rule;

/// A key as it is written. Those of one id are equal, and the mark tells them apart.
#[derive(Clone, Copy)]
pub(crate) struct Name {
    pub id: u64,
    pub mark: u64,
}

impl fmt::Display for Name {
    fn fmt<W: fmt::Write>(&self, f: &mut fmt::Formatter<W>) -> fmt::Result {
        write!(f, "{}#{}", self.id, self.mark)
    }
}

/// The words of a line that its call has not read yet.
#[derive(Drop)]
pub(crate) struct Words<'a> {
    left: Cell<&'a [&'a str]>,
    // Whether a word was missing or wrong.
    is_wrong: Cell<bool>,
}

impl<'a> Words<'a> {
    /// All words of a line.
    pub(crate) fn new(words: &'a [&'a str]) -> Words<'a> {
        Words {
            left: Cell::new(words),
            is_wrong: Cell::new(false),
        }
    }

    /// The next word.
    pub(crate) fn next(&self) -> &'a str {
        match self.left.get().split_first() {
            Some((word, left)) => {
                self.left.set(left);
                word
            }
            None => {
                self.refuse();
                ""
            }
        }
    }

    /// How many words are left.
    pub(crate) fn len(&self) -> usize {
        self.left.get().len()
    }

    /// All words that are left.
    pub(crate) fn rest(&self) -> &'a [&'a str] {
        self.left.replace(&[])
    }

    /// The number that the next word writes.
    pub(crate) fn number(&self) -> u64 {
        self.number_of(self.next())
    }

    /// The number of pairs, or the index, that the next word writes.
    pub(crate) fn count(&self) -> usize {
        self.number() as usize
    }

    /// The key that the next word writes.
    pub(crate) fn name(&self) -> Name {
        self.name_of(self.next())
    }

    /// The number that this word writes.
    pub(crate) fn number_of(&self, word: &str) -> u64 {
        match word.parse() {
            Ok(number) => number,
            Err(_) => {
                self.refuse();
                0
            }
        }
    }

    /// The key that this word writes: a number, or a number, `#` and the mark.
    pub(crate) fn name_of(&self, word: &str) -> Name {
        let (id, mark) = word.split_once("#").unwrap_or((word, "1"));
        Name {
            id: self.number_of(id),
            mark: self.number_of(mark),
        }
    }

    /// The rule that the next word names.
    pub(crate) fn rule(&self) -> Rule {
        match self.next() {
            "zero" => Rule::Zero,
            "top" => Rule::Top,
            word => {
                if word != "plain" {
                    self.refuse();
                }
                Rule::Plain
            }
        }
    }

    /// These words make no line.
    pub(crate) fn refuse(&self) {
        self.is_wrong.set(true);
    }

    /// The same, in the place of an answer.
    pub(crate) fn no_call(&self) -> Answered<Answer> {
        self.refuse();
        Ok(said("no call"))
    }

    /// Fails if a word was left, missing or wrong.
    pub(crate) fn check(&self) -> io::Result<()> {
        if self.is_wrong.get() || !self.left.get().is_empty() {
            return no_line();
        }
        Ok(())
    }
}

/// Fails, in the place of an answer, since the words make no line.
pub(crate) fn no_line<T>() -> io::Result<T> {
    Err(ErrorKind::InvalidInput.into())
}
