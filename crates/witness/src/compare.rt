//! A clone of the first map, and that compared with a map of another limit and rule, of clones of the second one's pairs.
//! What clones a map knows its builder, since a clone of another one might hash otherwise.

use crate::answer::{of_bool, said};
use crate::items::{Named, Number};
use crate::player::Player;
use crate::words::{Words, no_line};
use halfbrown::{AtMost, Limit, LimitedHashMap, Refusal};
use std::alloc::AllocError;
use std::io;
use test_support::builders::{Counting, Rule};

impl<'a, R: Print, K: Named, V: Number, L: Limit> Player<'a, R, K, V, Counting<'a>, L> {
    /// Makes the second map a clone of the first one.
    pub(crate) fn clone_first(&mut self) -> io::Result<()> {
        self.mark();
        match self.a.clone() {
            Ok(clone) => self.b = clone,
            Err(why) => return self.say(Err(why.into())),
        }
        self.say(Ok(said("done")))
    }

    /// Makes the other map, compares it with the first one, and prints the answer. Only the comparison is counted.
    pub(crate) fn print_same(&mut self, call: &str, words: &Words<'_>) -> io::Result<()> {
        let (limit, rule) = (words.next(), words.rule());
        match limit {
            "0" => self.print_same_at::<AtMost<0>>(call, rule),
            "5" => self.print_same_at::<AtMost<5>>(call, rule),
            "18446744073709551615" => {
                self.print_same_at::<AtMost<18446744073709551615>>(call, rule)
            }
            _ => no_line(),
        }
    }

    fn print_same_at<M: Limit>(&mut self, call: &str, rule: Rule) -> io::Result<()> {
        let Ok(other) = self.copy::<M>(rule) else {
            return Err(AllocError.into());
        };
        self.counts.take_work();
        self.mark();
        let is_same = match call {
            "same_from" => other.same_pairs(&self.a),
            _ => self.a.same_pairs(&other),
        };
        self.say(Ok(of_bool(is_same)))
    }

    // A map of another limit and rule, of clones of the second map's pairs in their order.
    fn copy<M: Limit>(&self, rule: Rule) -> Result<LimitedHashMap<K, V, Counting<'a>, M>, Refusal> {
        let mut copy = LimitedHashMap::with_hasher(self.alloc, self.counts.builder(rule));
        copy.extend(self.b.clone()?)?;
        Ok(copy)
    }
}
