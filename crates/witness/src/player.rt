//! The two maps of a script, and the line that is played on them.

use crate::answer::{Answer, Answered};
use crate::counts::Counts;
use crate::items::{Named, Number, Ruled};
use crate::keys::Id;
use crate::printing::print_state;
use crate::words::{Name, Words};
use halfbrown::{Equivalent, Limit, LimitedHashMap};
use std::alloc::{AllocError, Global};
use std::hash::{BuildHasher, Hash};
use std::io;
use test_support::builders::Counting;

/// Plays the lines of a script. Calls are made on the first map.
#[derive(Drop)]
pub(crate) struct Player<'a, R, K: Eq + Hash, V, S: BuildHasher, L: Limit> {
    pub rt: &'a R,
    pub alloc: Global,
    pub counts: &'a Counts,
    pub a: LimitedHashMap<K, V, S, L>,
    pub b: LimitedHashMap<K, V, S, L>,
    /// A key, which is asked for others.
    pub some_key: K,
    /// A value, which is asked for others.
    pub zero: V,
    /// Whether memory may be refused in the line.
    pub is_refused: bool,
}

impl<R: Print, K: Named, V: Number, S: Ruled, L: Limit> Player<'_, R, K, V, S, L> {
    /// Marks the call that comes next, for which the program itself asks for no more memory: it writes no bytes, once, and
    /// twice where memory may be refused. Where that fails, so does the write of the answer.
    pub(crate) fn mark(&self) {
        let _ = self.rt.write_some(&[]);
        if self.is_refused {
            let _ = self.rt.write_some(&[]);
        }
    }

    /// The key that the next word writes, for the call that comes next. Only calls of the maps are refused memory.
    pub(crate) fn key(&self, words: &Words<'_>) -> Result<K, AllocError> {
        let key = self.key_of(words.name())?;
        self.mark();
        Ok(key)
    }

    /// The key of this name.
    pub(crate) fn key_of(&self, name: Name) -> Result<K, AllocError> {
        self.some_key.like(self.alloc, name)
    }

    /// The value that the next word writes.
    pub(crate) fn value(&self, words: &Words<'_>) -> V {
        self.zero.like(words.number())
    }

    /// Prints an answer.
    pub(crate) fn say(&self, answered: Answered<Answer>) -> io::Result<()> {
        match answered {
            Ok(answer) | Err(answer) => print!(self.rt; "{answer:?}"),
        }
    }

    /// Begins a line, and returns the words of its call.
    pub(crate) fn begin<'b>(&mut self, line: &'b str) -> Result<Vec<&'b str>, AllocError> {
        self.counts.begin();
        self.is_refused = line.starts_with("refused ");
        let call = line.strip_prefix("refused ").unwrap_or(line);
        call.split(" ").collect(self.alloc)
    }

    /// Ends a line, whose answer is printed: prints the work since it began, the state of the first map, and what was dropped.
    pub(crate) fn end(&self, words: &Words<'_>) -> io::Result<()> {
        words.check()?;
        let (hashes, comparisons) = self.counts.take_work();
        let (keys, values) = self.counts.take_dropped();
        print!(self.rt; " | {hashes} {comparisons} | ")?;
        print_state(self.rt, &self.a)?;
        print!(self.rt; " | dropped {keys} {values}")?;
        match self.counts.calls.get() {
            0 => println!(self.rt),
            calls => println!(self.rt; " | called {calls}"),
        }
    }
}

impl<'a, R: Print, K: Named, V: Number, L: Limit> Player<'a, R, K, V, Counting<'a>, L>
where
    Id: Equivalent<K>,
{
    /// Plays a line, of those that all values have.
    pub(crate) fn play_line(&mut self, line: &str) -> io::Result<()> {
        let all = self.begin(line)?;
        let words = Words::new(all.as_slice());
        self.perform(words.next(), &words)?;
        self.end(&words)
    }

    /// Makes the call, and prints the answer.
    pub(crate) fn perform(&mut self, call: &str, words: &Words<'_>) -> io::Result<()> {
        match call {
            "entry" => self.enter(words),
            "raw" => self.enter_raw(words),
            "insert" | "insert_nocheck" | "insert_full" => self.insert(call, words),
            "get"
            | "get_key_value"
            | "contains_key"
            | "get_index_of"
            | "index"
            | "get_mut"
            | "remove"
            | "remove_entry"
            | "remove_entry_hashed"
            | "shift_remove"
            | "shift_remove_entry"
            | "raw_entry"
            | "raw_entry_hashed"
            | "raw_find"
            | "raw_find_hashed" => self.search(call, words),
            "raw_entry_match" | "raw_find_match" => self.search_match(call, words),
            "extend" | "extend_by" => self.extend(call, words),
            "from_iter" | "from_iter_hint" | "from_array" | "hashmap" | "collect" | "made" => {
                self.collect(call, words)
            }
            "same_as" | "same_from" => self.print_same(call, words),
            "error" => self.print_error(words),
            "clone" => self.clone_first(),
            _ => {
                self.mark();
                self.whole(call, words)
            }
        }
    }
}
