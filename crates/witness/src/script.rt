//! A script: the line that makes the maps, and the calls after it.

use crate::answer::{Answer, said};
use crate::counts::Counts;
use crate::items::{Named, Number};
use crate::keys::{Id, Key, Small};
use crate::player::Player;
use crate::values::{Nothing, Owned};
use crate::words::{Words, no_line};
use halfbrown::{AtMost, Equivalent, Limit, LimitedHashMap};
use std::io;
use test_support::builders::Counting;

/// What a first line says of the maps, and the lines after it. The kind says what keys and values are.
#[derive(Drop)]
struct Script<'a, R> {
    rt: &'a R,
    counts: &'a Counts,
    kind: &'a str,
    limit: &'a str,
    builder: Counting<'a>,
    capacity: Option<usize>,
    rest: &'a [&'a str],
}

/// Plays the script, and prints a line for each of its lines, up to one that is no line.
pub(crate) fn play<R: Print + AllocGlobal>(rt: &R, counts: &Counts, text: &str) -> io::Result<()> {
    let lines: Vec<&str> = text.lines().collect(rt.alloc())?;
    for (index, line) in lines.iter().enumerate() {
        counts.begin();
        let all: Vec<&str> = line.split(" ").collect(rt.alloc())?;
        let words = Words::new(all.as_slice());
        let script = Script {
            rt,
            counts,
            kind: words.next(),
            limit: words.next(),
            builder: counts.builder(words.rule()),
            capacity: if words.len() > 0 {
                Some(words.count())
            } else {
                None
            },
            rest: &lines[index + 1..],
        };
        words.check()?;
        if script.begin()? {
            break;
        }
    }
    Ok(())
}

impl<R: Print + AllocGlobal> Script<'_, R> {
    // Plays the lines after a first one. False if its capacity was refused.
    fn begin(&self) -> io::Result<bool> {
        if self.kind == "small" {
            return self.begin_small();
        }
        match self.limit {
            "0" => self.begin_any::<AtMost<0>>(),
            "1" => self.begin_any::<AtMost<1>>(),
            "2" => self.begin_any::<AtMost<2>>(),
            "3" => self.begin_any::<AtMost<3>>(),
            "5" => self.begin_any::<AtMost<5>>(),
            "32" => self.begin_any::<AtMost<32>>(),
            "18446744073709551615" => self.begin_any::<AtMost<18446744073709551615>>(),
            "4" => self.begin_plain::<AtMost<4>>(),
            "8" => self.begin_plain::<AtMost<8>>(),
            "64" => self.begin_plain::<AtMost<64>>(),
            "1152921504606846976" => self.begin_plain::<AtMost<1152921504606846976>>(),
            "20" if self.kind == "unit" => self.play_others::<Nothing, AtMost<20>>(Nothing),
            _ => no_line(),
        }
    }

    // A vector of at most 3 small keys is searched in one block, one of at most 32 in two.
    fn begin_small(&self) -> io::Result<bool> {
        let key = Small::new(self.rt.alloc(), self.counts)?;
        match self.limit {
            "3" => self.play_plain::<Small<'_>, AtMost<3>>(key),
            "32" => self.play_plain::<Small<'_>, AtMost<32>>(key),
            "64" => self.play_plain::<Small<'_>, AtMost<64>>(key),
            _ => no_line(),
        }
    }

    // Of a limit that maps may have whose values count their drops. Other limits have one kind of values, since each takes
    // time to compile.
    fn begin_any<L: Limit>(&self) -> io::Result<bool> {
        match self.kind {
            "owning" => self.play_others::<Owned<'_>, L>(Owned::zero(self.counts)),
            _ => self.begin_plain::<L>(),
        }
    }

    fn begin_plain<L: Limit>(&self) -> io::Result<bool> {
        match self.kind {
            "map" => self.play_plain::<Key<'_>, L>(Key::new(self.counts)),
            _ => no_line(),
        }
    }

    fn play_plain<K: Named, L: Limit>(&self, key: K) -> io::Result<bool>
    where
        Id: Equivalent<K>,
    {
        let Some(mut player) = self.make::<K, u64, L>(key, 0)? else {
            return Ok(false);
        };
        for line in self.rest {
            player.play_plain_line(line)?;
        }
        Ok(true)
    }

    // The lines that all values have.
    fn play_others<V: Number, L: Limit>(&self, zero: V) -> io::Result<bool> {
        let Some(mut player) = self.make::<Key<'_>, V, L>(Key::new(self.counts), zero)? else {
            return Ok(false);
        };
        for line in self.rest {
            player.play_line(line)?;
        }
        Ok(true)
    }

    // Answers a first line. None if its capacity was refused.
    fn make<K: Named, V: Number, L: Limit>(
        &self,
        key: K,
        zero: V,
    ) -> io::Result<Option<Player<'_, R, K, V, Counting<'_>, L>>> {
        let (alloc, builder) = (self.rt.alloc(), self.builder);
        let made = match self.capacity {
            Some(capacity) => LimitedHashMap::with_capacity_and_hasher(alloc, capacity, builder),
            None => Ok(LimitedHashMap::with_hasher(alloc, builder)),
        };
        let a = match made {
            Ok(map) => map,
            Err(why) => {
                println!(self.rt; "{:?}", Answer::from(why))?;
                return Ok(None);
            }
        };
        let player = Player {
            rt: self.rt,
            alloc,
            counts: self.counts,
            a,
            b: LimitedHashMap::with_hasher(alloc, builder),
            some_key: key,
            zero,
            is_refused: false,
        };
        player.say(Ok(said("made")))?;
        player.end(&Words::new(&[]))?;
        Ok(Some(player))
    }
}
