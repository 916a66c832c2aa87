//! The calls of the entry of a key, and those of its raw entry if that is occupied.

use crate::answer::{Answer, Answered, of_index, of_taken, of_value, said, was};
use crate::items::{Named, Number, Ruled, add_to};
use crate::player::Player;
use crate::words::Words;
use halfbrown::{Entry, Limit, LimitedHashMap, OccupiedEntry, RawEntryMut};
use std::cell::Cell;
use std::io;

impl<R: Print, K: Named, V: Number, S: Ruled, L: Limit> Player<'_, R, K, V, S, L> {
    /// Makes the entry of a key, and then the call.
    pub(crate) fn enter(&mut self, words: &Words<'_>) -> io::Result<()> {
        let key = self.key(words)?;
        let call = words.next();
        let answered = match call {
            "debug" => return self.print_entry(key),
            "read" | "key" | "into_key" => self.read(key, call),
            "index" | "remove" | "remove_entry" => self.call_occupied(key, false, call, 0),
            "get_mut" => self.call_occupied(key, false, "value_mut", words.number()),
            "into_mut" => self.call_occupied(key, false, call, words.number()),
            "lose" | "handed" => self.replace(key, call, 0),
            "replace" => self.replace(key, call, words.number()),
            "lose_insert" => self.lose_insert(key, words),
            "and_modify" => self.and_modify(key, words.number(), words),
            "or_insert" | "or_insert_with" | "insert" => self.insert_entry(key, call, words),
            _ => words.no_call(),
        };
        self.say(answered)
    }

    fn print_entry(&mut self, key: K) -> io::Result<()> {
        match self.a.entry(key) {
            Ok(entry) => print!(self.rt; "{entry:?}"),
            Err(back) => print!(self.rt; "{:?}", Answer::from(back)),
        }
    }

    fn read(&mut self, key: K, call: &str) -> Answered<Answer> {
        let entry = self.a.entry(key)?;
        Ok(match call {
            "read" => of_entry(&entry, "vacant"),
            "key" => said("").key(entry.key()),
            _ => match entry {
                Entry::Vacant(entry) => said("").key(&entry.into_key()),
                Entry::Occupied(_occupied) => said("occupied"),
            },
        })
    }

    /// Makes the entry of the key, or its raw entry, and then the call if a pair is found. It may add a number to the value.
    pub(crate) fn call_occupied(
        &mut self,
        key: K,
        is_raw: bool,
        call: &str,
        more: u64,
    ) -> Answered<Answer> {
        let mut entry = occupied_by(&mut self.a, key, is_raw)?;
        Ok(match call {
            "index" => of_index(entry.index()),
            "remove" => of_value(&entry.remove()),
            "remove_entry" => of_taken(entry.remove_entry()),
            "into_mut" => of_more(entry.into_mut(), more),
            "value_mut" => of_more(entry.get_mut(), more),
            "key_mut" => said("").key(entry.key_mut()),
            "into_key" => said("").key(entry.into_key()),
            "into_key_value" => of_pair_more(entry.into_key_value(), more),
            _ => of_pair_more(entry.get_key_value_mut(), more),
        })
    }

    // `replace_entry_with` of a closure that adds the number to the value, or gives the pair up.
    fn replace(&mut self, key: K, call: &str, more: u64) -> Answered<Answer> {
        let counts = self.counts;
        let entry = occupied(&mut self.a, key)?;
        let handed = Cell::new(said("none"));
        let left = entry.replace_entry_with(|key, value| {
            counts.count_call();
            handed.set(said("handed").key(key));
            match call {
                "lose" => None,
                _ => Some(added_to(value, more)),
            }
        });
        Ok(match call {
            "handed" => handed.get(),
            _ => of_entry(&left, "lost"),
        })
    }

    // The same of a closure that gives the pair up. Then the value is inserted into the entry that is left.
    fn lose_insert(&mut self, key: K, words: &Words<'_>) -> Answered<Answer> {
        let (counts, value) = (self.counts, self.value(words));
        let left = occupied(&mut self.a, key)?.replace_entry_with(|_, _value| {
            counts.count_call();
            None
        });
        Ok(match left {
            Entry::Occupied(entry) => said("occupied").pair(entry.key(), entry.get()),
            Entry::Vacant(entry) => said("added").value(entry.insert(value)),
        })
    }

    fn and_modify(&mut self, key: K, more: u64, words: &Words<'_>) -> Answered<Answer> {
        let (counts, value) = (self.counts, self.value(words));
        let modified = self.a.entry(key)?.and_modify(|held| {
            counts.count_call();
            add_to(held, more);
        });
        Ok(of_value(modified.or_insert(value)))
    }

    fn insert_entry(&mut self, key: K, call: &str, words: &Words<'_>) -> Answered<Answer> {
        let (counts, value) = (self.counts, self.value(words));
        let entry = self.a.entry(key)?;
        Ok(match call {
            "or_insert" => of_value(entry.or_insert(value)),
            "or_insert_with" => of_value(entry.or_insert_with(move || {
                counts.count_call();
                value
            })),
            _ => match entry {
                Entry::Occupied(mut entry) => was(entry.insert(value)),
                Entry::Vacant(entry) => said("added").value(entry.insert(value)),
            },
        })
    }
}

fn added_to<V: Number>(mut value: V, more: u64) -> V {
    add_to(&mut value, more);
    value
}

// The pair of an entry, or its key after this word.
fn of_entry<K: Named, V: Number, S: Ruled, L: Limit>(
    entry: &Entry<'_, K, V, S, L>,
    vacant: &'static str,
) -> Answer {
    match entry {
        Entry::Occupied(entry) => said("occupied").pair(entry.key(), entry.get()),
        Entry::Vacant(entry) => said(vacant).key(entry.key()),
    }
}

fn occupied_by<'a, K: Named, V: Number, S: Ruled, L: Limit>(
    map: &'a mut LimitedHashMap<K, V, S, L>,
    key: K,
    is_raw: bool,
) -> Answered<OccupiedEntry<'a, K, V, S, L>> {
    if is_raw {
        return found(map, &key);
    }
    occupied(map, key)
}

/// The occupied entry of a key, or the answer if there is none.
fn occupied<'a, K: Named, V: Number, S: Ruled, L: Limit>(
    map: &'a mut LimitedHashMap<K, V, S, L>,
    key: K,
) -> Answered<OccupiedEntry<'a, K, V, S, L>> {
    match map.entry(key)? {
        Entry::Occupied(entry) => Ok(entry),
        Entry::Vacant(_vacant) => Err(said("vacant")),
    }
}

/// The raw entry of a pair that is found, or the answer if none is.
pub(crate) fn found<'a, K: Named, V: Number, S: Ruled, L: Limit>(
    map: &'a mut LimitedHashMap<K, V, S, L>,
    key: &K,
) -> Answered<OccupiedEntry<'a, K, V, S, L>> {
    match map.raw_entry_mut()?.from_key(key) {
        RawEntryMut::Occupied(entry) => Ok(entry),
        RawEntryMut::Vacant(_vacant) => Err(said("vacant")),
    }
}

/// The value, after a number was added to it.
pub(crate) fn of_more<V: Number>(held: &mut V, more: u64) -> Answer {
    add_to(held, more);
    of_value(held)
}

/// The pair, after a number was added to its value.
pub(crate) fn of_pair_more<K: Named, V: Number>((key, held): (&K, &mut V), more: u64) -> Answer {
    add_to(held, more);
    said("").pair(key, held)
}
