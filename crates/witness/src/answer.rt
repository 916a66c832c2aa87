//! What a call is answered, in one line.

use crate::items::{Named, Number};
use crate::words::Name;
use halfbrown::{Refusal, Refused, RefusedKey};
use std::fmt;

/// The answer of a call: words, a key and a value, each where it has one. Keys and values are dropped by then, and it has
/// their names and numbers.
#[derive(Clone, Copy)]
pub(crate) struct Answer {
    words: &'static str,
    key: Option<Name>,
    value: Option<u64>,
}

/// What a call goes on with, or its answer if it ends there.
pub(crate) type Answered<T> = Result<T, Answer>;

/// An answer of these words, to which a key or a value may be added.
pub(crate) fn said(words: &'static str) -> Answer {
    Answer {
        words,
        key: None,
        value: None,
    }
}

impl Answer {
    /// With this key.
    pub(crate) fn key<K: Named>(mut self, key: &K) -> Answer {
        self.key = Some(key.name());
        self
    }

    /// With this value.
    pub(crate) fn value<V: Number>(mut self, value: &V) -> Answer {
        self.value = Some(value.number());
        self
    }

    /// With this pair.
    pub(crate) fn pair<K: Named, V: Number>(self, key: &K, value: &V) -> Answer {
        self.key(key).value(value)
    }
}

/// A pair that is lent to be read.
pub(crate) fn of_shown<K: Named, V: Number>((key, value): (&K, &V)) -> Answer {
    said("").pair(key, value)
}

/// A pair whose value is lent to be written.
pub(crate) fn of_lent<K: Named, V: Number>((key, value): (&K, &mut V)) -> Answer {
    said("").pair(key, value)
}

/// A pair that is handed over.
pub(crate) fn of_taken<K: Named, V: Number>((key, value): (K, V)) -> Answer {
    said("").pair(&key, &value)
}

/// A value.
pub(crate) fn of_value<V: Number>(value: &V) -> Answer {
    said("").value(value)
}

/// An index.
pub(crate) fn of_index(index: usize) -> Answer {
    said("").value(&(index as u64))
}

/// A value that was replaced.
pub(crate) fn was<V: Number>(old: V) -> Answer {
    said("was").value(&old)
}

/// The answer, or none.
pub(crate) fn or_none(answer: Option<Answer>) -> Answer {
    answer.unwrap_or(said("none"))
}

/// Writes a value where one is lent, and answers the one that was there.
pub(crate) fn written<V: Number>(held: Option<&mut V>, value: V) -> Answer {
    match held {
        Some(held) => was(std::mem::replace(held, value)),
        None => said("none"),
    }
}

/// True or false.
pub(crate) fn of_bool(truth: bool) -> Answer {
    said(if truth { "true" } else { "false" })
}

/// Why a call was refused.
impl From<Refusal> for Answer {
    fn from(why: Refusal) -> Answer {
        match why {
            Refusal::Memory => said("refused memory"),
            Refusal::Size => said("refused size"),
        }
    }
}

/// The same, and the key that was handed back.
impl<K: Named> From<RefusedKey<K>> for Answer {
    fn from(back: RefusedKey<K>) -> Answer {
        Answer::from(back.why).key(&back.key)
    }
}

/// The same, and the pair that was handed back.
impl<K: Named, V: Number> From<Refused<K, V>> for Answer {
    fn from(back: Refused<K, V>) -> Answer {
        Answer::from(back.why).pair(&back.key, &back.value)
    }
}

impl fmt::Debug for Answer {
    fn fmt<W: fmt::Write>(&self, f: &mut fmt::Formatter<W>) -> fmt::Result {
        f.write_str(self.words)?;
        let gap = if self.words.is_empty() { "" } else { " " };
        if let Some(key) = self.key {
            write!(f, "{gap}{key}")?;
        }
        if let Some(value) = self.value {
            let gap = if self.key.is_some() { "=" } else { gap };
            write!(f, "{gap}{value}")?;
        }
        Ok(())
    }
}
