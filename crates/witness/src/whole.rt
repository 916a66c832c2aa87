//! The calls on a map as a whole.

use crate::answer::{Answer, Answered, of_bool, said};
use crate::items::{Named, Number, Ruled, add_to};
use crate::player::Player;
use crate::printing::{print_lost, print_map};
use crate::walks::take;
use crate::words::Words;
use halfbrown::Limit;
use std::io;

impl<R: Print, K: Named, V: Number, S: Ruled, L: Limit> Player<'_, R, K, V, S, L> {
    /// Makes the call, and prints the answer.
    pub(crate) fn whole(&mut self, call: &str, words: &Words<'_>) -> io::Result<()> {
        match call {
            "clear" => self.a.clear(),
            "truncate" => self.a.truncate(words.count()),
            "shrink_to_fit" => self.a.shrink_to_fit(),
            "drop" => drop(take(&mut self.a, self.alloc)),
            "swap" => std::mem::swap(&mut self.a, &mut self.b),
            "iter_mut" => self.iter_mut(words.number()),
            "values_mut" => self.values_mut(words.number()),
            "values_slice_mut" => self.values_slice_mut(words.number()),
            "same" => return self.say(Ok(of_bool(self.a.same_pairs(&self.b)))),
            "eq" => return self.say(Ok(of_bool(self.a == self.b))),
            "retain" => return self.retain(words.number(), words.number()),
            "state" => return self.print_own(),
            "pairs" => return self.print_both(),
            "reserve" | "raw_entry_mut" => {
                let answered = self.make_ready(call, words);
                return self.say(answered);
            }
            "walk" => return self.walk(call, words.next(), words),
            _ => return self.place(call, words),
        }
        self.say(Ok(said("done")))
    }

    // Raw entries are dropped unused.
    fn make_ready(&mut self, call: &str, words: &Words<'_>) -> Answered<Answer> {
        if call == "reserve" {
            self.a.reserve(words.count())?;
        } else {
            let _unused = self.a.raw_entry_mut()?;
        }
        Ok(said("done"))
    }

    fn iter_mut(&mut self, more: u64) {
        for (_, value) in self.a.iter_mut() {
            add_to(value, more);
        }
    }

    fn values_mut(&mut self, more: u64) {
        for value in self.a.values_mut() {
            add_to(value, more);
        }
    }

    fn values_slice_mut(&mut self, more: u64) {
        for value in self.a.values_slice_mut() {
            add_to(value, more);
        }
    }

    // Adds a number to each value, and drops the pairs whose id and value add up to a multiple of the divisor.
    fn retain(&mut self, divisor: u64, more: u64) -> io::Result<()> {
        let counts = self.counts;
        self.a.retain(|key, value| {
            counts.count_call();
            add_to(value, more);
            let sum = key.name().id.wrapping_add(value.number());
            sum.checked_rem(divisor) != Some(0)
        });
        self.say(Ok(said("called").value(&counts.calls.get())))
    }

    // What the first map says of itself.
    fn print_own(&self) -> io::Result<()> {
        let map = &self.a;
        print!(self.rt;
            "is_empty={} is_vec={} is_map={} rule={}",
            map.is_empty(),
            map.is_vec(),
            map.is_map(),
            map.hasher().rule_name()
        )
    }

    // All that both maps hold, and what is found of each key. Nothing of it is counted.
    fn print_both(&self) -> io::Result<()> {
        print!(self.rt; "a {} ", self.a.hasher().rule_name())?;
        print_map(self.rt, &self.a)?;
        print!(self.rt; " b {} ", self.b.hasher().rule_name())?;
        print_map(self.rt, &self.b)?;
        print_lost(self.rt, &self.a)?;
        print_lost(self.rt, &self.b)?;
        self.counts.take_work();
        Ok(())
    }
}
