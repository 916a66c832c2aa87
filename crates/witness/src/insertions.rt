//! Insertions of a pair, and calls whose error is printed.

use crate::answer::{Answer, Answered, or_none, said, was};
use crate::items::{Named, Number, Ruled};
use crate::player::Player;
use crate::searches::is_held;
use crate::words::{Words, no_line};
use halfbrown::Limit;
use std::io;

impl<R: Print, K: Named, V: Number, S: Ruled, L: Limit> Player<'_, R, K, V, S, L> {
    /// Inserts a pair by the call, and prints the answer.
    pub(crate) fn insert(&mut self, call: &str, words: &Words<'_>) -> io::Result<()> {
        let (key, value) = (self.key(words)?, self.value(words));
        let answered = match call {
            "insert" => self.insert_pair(key, value),
            "insert_nocheck" => self.insert_nocheck(key, value),
            _ => return self.print_insert_full(key, value),
        };
        self.say(answered)
    }

    fn insert_pair(&mut self, key: K, value: V) -> Answered<Answer> {
        Ok(or_none(self.a.insert(key, value)?.map(was)))
    }

    // Only if the key is not held.
    fn insert_nocheck(&mut self, key: K, value: V) -> Answered<Answer> {
        if is_held(&self.a, self.counts, &key) {
            return Ok(said("held"));
        }
        self.a.insert_nocheck(key, value)?;
        Ok(said("added"))
    }

    // The index that `insert_full` returns, and then what `insert` answers; only why it was refused.
    fn print_insert_full(&mut self, key: K, value: V) -> io::Result<()> {
        match self.a.insert_full(key, value) {
            Ok((index, old)) => print!(self.rt; "{index} {:?}", or_none(old.map(was))),
            Err(back) => self.say(Err(back.into())),
        }
    }

    /// Makes the call, and prints the error.
    pub(crate) fn print_error(&mut self, words: &Words<'_>) -> io::Result<()> {
        match words.next() {
            "entry" => {
                let key = self.key(words)?;
                match self.a.entry(key) {
                    Ok(_entry) => print!(self.rt; "granted"),
                    Err(back) => print!(self.rt; "{back:?} / {back} / {:?}", back.why),
                }
            }
            "insert" => {
                let (key, value) = (self.key(words)?, self.value(words));
                match self.a.insert(key, value) {
                    Ok(_) => print!(self.rt; "granted"),
                    Err(back) => print!(self.rt; "{back:?} / {back} / {:?}", back.why),
                }
            }
            "reserve" => {
                self.mark();
                match self.a.reserve(words.count()) {
                    Ok(()) => print!(self.rt; "granted"),
                    Err(why) => print!(self.rt; "{why:?} / {why}"),
                }
            }
            _ => no_line(),
        }
    }
}
