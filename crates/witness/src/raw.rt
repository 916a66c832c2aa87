//! The calls of raw entries. A hash that is made for a call is not counted.
ghost use Rattle.std.specs.Prelude.{◌≡◌};

use crate::answer::{Answer, Answered, of_lent, said, was};
use crate::entries::found;
use crate::items::{Named, Number, Ruled, add_to};
use crate::player::Player;
use crate::words::Words;
use halfbrown::{Limit, OccupiedEntry, RawEntryMut};
use std::cell::Cell;
use std::io;

impl<R: Print, K: Named, V: Number, S: Ruled, L: Limit> Player<'_, R, K, V, S, L> {
    /// Makes the raw entry of a key, and then the call.
    pub(crate) fn enter_raw(&mut self, words: &Words<'_>) -> io::Result<()> {
        let key = self.key(words)?;
        let call = words.next();
        let answered = match call {
            "debug" => return self.print_raw_entry(&key),
            "index" | "remove" | "remove_entry" | "key_mut" | "into_key" => {
                self.call_occupied(key, true, call, 0)
            }
            "get_mut" | "value_mut" | "into_mut" | "into_key_value" => {
                self.call_occupied(key, true, call, words.number())
            }
            "write" => self.write(&key, words),
            "insert_key" => self.insert_key(key),
            "read" => self.raw_find(&key),
            "handed" => self.modify(&key, call, 0),
            "and_modify" => self.modify(&key, call, words.number()),
            "or_insert" | "or_insert_with" | "or_insert_entry" | "insert" => {
                self.insert_raw(key, call, words)
            }
            "add" | "add_entry" | "add_hashed" | "add_hashed_entry" | "add_with_hasher" => {
                self.add(key, call, words)
            }
            _ => words.no_call(),
        };
        self.say(answered)
    }

    fn print_raw_entry(&mut self, key: &K) -> io::Result<()> {
        match self.a.raw_entry_mut() {
            Ok(entries) => print!(self.rt; "{:?}", entries.from_key(key)),
            Err(why) => print!(self.rt; "{:?}", Answer::from(why)),
        }
    }

    fn write(&mut self, key: &K, words: &Words<'_>) -> Answered<Answer> {
        let value = self.value(words);
        Ok(was(found(&mut self.a, key)?.insert(value)))
    }

    fn insert_key(&mut self, key: K) -> Answered<Answer> {
        Ok(match self.a.raw_entry_mut()?.from_key(&key) {
            RawEntryMut::Occupied(mut entry) => said("was").key(&entry.insert_key(key)),
            RawEntryMut::Vacant(_vacant) => said("vacant"),
        })
    }

    // `and_modify` of a closure that adds the number to the value, and says what it was handed.
    fn modify(&mut self, key: &K, call: &str, more: u64) -> Answered<Answer> {
        let counts = self.counts;
        let handed = Cell::new(said("vacant"));
        let modified = self
            .a
            .raw_entry_mut()?
            .from_key(key)
            .and_modify(|key, held| {
                counts.count_call();
                handed.set(said("handed").pair(key, held));
                add_to(held, more);
            });
        Ok(match call {
            "handed" => handed.get(),
            _ => of_found(modified),
        })
    }

    fn insert_raw(&mut self, key: K, call: &str, words: &Words<'_>) -> Answered<Answer> {
        let (counts, value) = (self.counts, self.value(words));
        let entry = self.a.raw_entry_mut()?.from_key(&key);
        Ok(match call {
            "or_insert" => of_lent(entry.or_insert(key, value)),
            "or_insert_with" => of_lent(entry.or_insert_with(
                move || -> (K, V)
                    ensures { result ≡ (key, value) }
                {
                    counts.count_call();
                    (key, value)
                },
            )),
            "or_insert_entry" => of_held(&entry.or_insert_entry(key, value)),
            _ => of_held(&entry.insert(key, value)),
        })
    }

    fn add(&mut self, key: K, call: &str, words: &Words<'_>) -> Answered<Answer> {
        let (counts, value, builder) = (self.counts, self.value(words), *self.a.hasher());
        let hash = builder.hash_one(&key);
        counts.take_work();
        let RawEntryMut::Vacant(entry) = self.a.raw_entry_mut()?.from_key(&key) else {
            return Ok(said("occupied"));
        };
        Ok(match call {
            "add" => of_lent(entry.insert(key, value)),
            "add_entry" => of_held(&entry.insert_entry(key, value)),
            "add_hashed" => of_lent(entry.insert_hashed_nocheck(hash, key, value)),
            "add_hashed_entry" => of_held(&entry.insert_entry_hashed_nocheck(hash, key, value)),
            _ => of_lent(entry.insert_with_hasher(hash, key, value, |stored: &K| -> u64 {
                counts.count_call();
                builder.hash_one(stored)
            })),
        })
    }
}

/// The pair of a raw entry.
pub(crate) fn of_found<K: Named, V: Number, S: Ruled, L: Limit>(
    entry: RawEntryMut<'_, K, V, S, L>,
) -> Answer {
    match entry {
        RawEntryMut::Occupied(entry) => {
            let (key, value) = entry.get_key_value();
            said("occupied").pair(key, value)
        }
        RawEntryMut::Vacant(_vacant) => said("vacant"),
    }
}

fn of_held<K: Named, V: Number, S: Ruled, L: Limit>(
    entry: &OccupiedEntry<'_, K, V, S, L>,
) -> Answer {
    said("").pair(entry.key(), entry.get())
}
