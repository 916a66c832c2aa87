//! Searches by a query for a key, by a hash and a match, and by an index. A hash that is made for a call is not counted.
ghost use Rattle.std.specs.Prelude.{◌≡◌};
ghost use Rattle.halfbrown.specs.Pairs.{holds_by};

use crate::answer::{
    Answer, Answered, of_bool, of_index, of_shown, of_taken, of_value, or_none, said, was, written,
};
use crate::counts::{Counts, add_one};
use crate::items::{Named, Number, Ruled};
use crate::keys::Id;
use crate::player::Player;
use crate::raw::of_found;
use crate::words::Words;
use halfbrown::{Equivalent, Limit, LimitedHashMap};
use std::io;

impl<R: Print, K: Named, V: Number, S: Ruled, L: Limit> Player<'_, R, K, V, S, L> {
    /// Makes the search by the key that the next word writes, or by its number after `@`.
    pub(crate) fn search(&mut self, call: &str, words: &Words<'_>) -> io::Result<()>
    where
        Id: Equivalent<K>,
    {
        let query = words.next();
        let answered = match query.strip_prefix("@") {
            Some(id) => {
                self.mark();
                self.search_by(Id(words.number_of(id)), call, words)
            }
            None => {
                let key = self.key_of(words.name_of(query))?;
                self.mark();
                self.search_by(&key, call, words)
            }
        };
        self.say(answered)
    }

    fn search_by<Q: Equivalent<K>>(
        &mut self,
        query: Q,
        call: &str,
        words: &Words<'_>,
    ) -> Answered<Answer> {
        let map = &mut self.a;
        Ok(match call {
            "get" => or_none(map.get(query).map(of_value)),
            "get_key_value" => or_none(map.get_key_value(query).map(of_shown)),
            "contains_key" => of_bool(map.contains_key(query)),
            "get_index_of" => or_none(map.get_index_of(query).map(of_index)),
            "index" => self.index(query),
            "get_mut" => written(map.get_mut(query), self.zero.like(words.number())),
            "remove" => or_none(map.remove(query).as_ref().map(of_value)),
            "remove_entry" => or_none(map.remove_entry(query).map(of_taken)),
            "shift_remove" => or_none(map.shift_remove(query).as_ref().map(of_value)),
            "shift_remove_entry" => or_none(map.shift_remove_entry(query).map(of_taken)),
            "raw_entry" => or_none(map.raw_entry().from_key(query).map(of_shown)),
            "raw_find" => return self.raw_find(query),
            _ => return self.search_hashed(query, call),
        })
    }

    // Only if the key is held.
    fn index<Q: Equivalent<K>>(&self, query: Q) -> Answer {
        if !is_held(&self.a, self.counts, query) {
            return said("not held");
        }
        said("").value(&self.a[query])
    }

    /// The pair that is found by a query, through a raw entry.
    pub(crate) fn raw_find<Q: Equivalent<K>>(&mut self, query: Q) -> Answered<Answer> {
        Ok(of_found(self.a.raw_entry_mut()?.from_key(query)))
    }

    fn search_hashed<Q: Equivalent<K>>(&mut self, query: Q, call: &str) -> Answered<Answer> {
        let map = &mut self.a;
        let hash = map.hasher().hash_one(query);
        self.counts.take_work();
        Ok(match call {
            "remove_entry_hashed" => {
                or_none(map.remove_entry_hashed_nocheck(hash, query).map(of_taken))
            }
            "raw_entry_hashed" => {
                or_none(
                    map.raw_entry()
                        .from_key_hashed_nocheck(hash, query)
                        .map(of_shown),
                )
            }
            _ => of_found(map.raw_entry_mut()?.from_key_hashed_nocheck(hash, query)),
        })
    }

    /// Makes the search by a hash and a match, which accepts any key or that of a number.
    pub(crate) fn search_match(&mut self, call: &str, words: &Words<'_>) -> io::Result<()> {
        let hash = words.number();
        let which = match words.next() {
            "any" => None,
            id => Some(words.number_of(id)),
        };
        self.mark();
        let answered = match call {
            "raw_entry_match" => Ok(self.raw_entry_match(hash, which)),
            _ => self.raw_find_match(hash, which),
        };
        self.say(answered)
    }

    fn raw_entry_match(&self, hash: u64, which: Option<u64>) -> Answer {
        let (counts, entries) = (self.counts, self.a.raw_entry());
        or_none(
            entries
                .from_hash(hash, |held| accepts(which, counts, held))
                .map(of_shown),
        )
    }

    fn raw_find_match(&mut self, hash: u64, which: Option<u64>) -> Answered<Answer> {
        let (counts, entries) = (self.counts, self.a.raw_entry_mut()?);
        Ok(of_found(entries.from_hash(hash, |held| accepts(which, counts, held))))
    }

    /// Makes a call by the order of the pairs, and prints the answer.
    pub(crate) fn place(&mut self, call: &str, words: &Words<'_>) -> io::Result<()> {
        let map = &mut self.a;
        let answer = match call {
            "first" => or_none(map.first().map(of_shown)),
            "last" => or_none(map.last().map(of_shown)),
            "pop" => or_none(map.pop().map(of_taken)),
            "first_mut" => written(map.first_mut(), self.zero.like(words.number())),
            "last_mut" => written(map.last_mut(), self.zero.like(words.number())),
            "get_index" => or_none(map.get_index(words.count()).map(of_shown)),
            "swap_remove_index" => or_none(map.swap_remove_index(words.count()).map(of_taken)),
            "shift_remove_index" => or_none(map.shift_remove_index(words.count()).map(of_taken)),
            "get_index_mut" | "get_index_entry" => self.write_at(call, words.count(), words),
            _ => return self.walk(call, call, words),
        };
        self.say(Ok(answer))
    }

    // Writes a value at an index, where one is lent or by `insert` of the entry.
    fn write_at(&mut self, call: &str, index: usize, words: &Words<'_>) -> Answer {
        let value = self.value(words);
        if call == "get_index_mut" {
            return written(self.a.get_index_mut(index), value);
        }
        match self.a.get_index_entry(index) {
            Some(mut entry) => was(entry.insert(value)),
            None => said("none"),
        }
    }
}

// Each call is one comparison.
fn accepts<K: Named>(which: Option<u64>, counts: &Counts, held: &K) -> bool {
    add_one(&counts.comparisons);
    match which {
        Some(id) => held.name().id == id,
        None => true,
    }
}

/// Whether the key is held, which is not counted.
pub(crate) fn is_held<K: Named, V, S: Ruled, L: Limit, Q: Equivalent<K>>(
    map: &LimitedHashMap<K, V, S, L>,
    counts: &Counts,
    query: Q,
) -> bool
    ensures { result ≡ holds_by (Q.equivalent query) map.now.pairs }
{
    let is_held = map.contains_key(query);
    counts.take_work();
    is_held
}
