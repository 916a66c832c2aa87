//! The calls that take a list of pairs. Those that make a map of it have the default builder.
ghost use Rattle.std.specs.Prelude.{◌+◌, List, length};
ghost use Rattle.std.specs.Iterator.{at_most};
ghost use Rattle.std.specs.Vec.Iter.{into_iter_items};

use crate::answer::{Answer, said};
use crate::items::{Named, Number, Ruled};
use crate::player::Player;
use crate::printing::{print_map, print_state};
use crate::words::Words;
use halfbrown::{DefaultHashBuilder, HashMap, Limit, LimitedHashMap, Refusal, hashmap};
use std::alloc::{AllocError, Global};
use std::hash::{BuildHasher, Hash};
use std::{io, vec};

/// A map, or why there is none. Functions below are of any builder: at a known one their proofs take longer.
type Made<K, V, S, L> = Result<LimitedHashMap<K, V, S, L>, Refusal>;

/// Items with a size hint of their own, which may be wrong.
#[derive(Drop)]
struct Hinted<K, V> {
    items: vec::IntoIter<(K, V)>,
    low: usize,
}

impl<K: Drop, V: Drop> Iterator for Hinted<K, V> {
    type Item = (K, V);

    // The hint may not be above it.
    ghost remaining = { λ s. at_most (length (into_iter_items s.items) + s.low) };

    fn next(&mut self) -> Option<(K, V)> {
        self.items.next()
    }

    fn size_hint(&self) -> (usize, Option<usize>) {
        (self.low, None)
    }
}

impl<R: Print, K: Named, V: Number, S: Ruled, L: Limit> Player<'_, R, K, V, S, L> {
    /// Adds the pairs that the words write, and prints the answer.
    pub(crate) fn extend(&mut self, call: &str, words: &Words<'_>) -> io::Result<()> {
        let items = self.items(words)?;
        let is_done = match call {
            "extend" => self.a.extend(items).is_ok(),
            _ => extend_by(&mut self.a, items).is_ok(),
        };
        self.say(Ok(said(if is_done { "done" } else { "refused" })))
    }

    /// Makes a map of the pairs, and prints it. None of its work is counted.
    pub(crate) fn collect(&mut self, call: &str, words: &Words<'_>) -> io::Result<()> {
        let operand = match call {
            "made" | "from_iter_hint" => words.next(),
            _ => "0",
        };
        let items = self.items(words)?;
        let (rt, alloc) = (self.rt, self.alloc);
        match call {
            "hashmap" => print_made(rt, of_macro(alloc, items))?,
            "made" => print_insertions(rt, make::<K, V, L>(alloc, operand, words), items)?,
            _ => {
                let low = words.number_of(operand) as usize;
                print_collected::<K, V, DefaultHashBuilder, L>(rt, alloc, call, low, items)?
            }
        }
        self.counts.take_work();
        Ok(())
    }

    // The pairs that the words write, for the call that comes next.
    fn items(&self, words: &Words<'_>) -> Result<Vec<(K, V)>, AllocError> {
        let mut items = Vec::new(self.alloc);
        for pair in words.rest().chunks(2) {
            match pair {
                [name, value] => {
                    let key = self.key_of(words.name_of(name))?;
                    items.push((key, self.zero.like(words.number_of(value))))?;
                }
                _ => words.refuse(),
            }
        }
        self.mark();
        Ok(items)
    }
}

// `extend` by std's trait alone.
fn extend_by<K: Drop, V: Drop, E: Extend<(K, V)>>(
    to: &mut E,
    items: Vec<(K, V)>,
) -> Result<(), AllocError>
    requires { (given : List (K × V)) → E.can_extend to.old given }
{
    to.extend(items)
}

fn print_collected<K: Named, V: Number, S: BuildHasher + Default + Drop, L: Limit>(
    rt: &impl Print,
    alloc: Global,
    call: &str,
    low: usize,
    items: Vec<(K, V)>,
) -> io::Result<()> {
    match call {
        "from_iter" => print_made(rt, LimitedHashMap::<K, V, S, L>::from_iter(alloc, items)),
        "from_iter_hint" => {
            let items = items.into_iter();
            print_made(
                rt,
                LimitedHashMap::<K, V, S, L>::from_iter(alloc, Hinted { items, low }),
            )
        }
        "from_array" => print_made(rt, of_array::<K, V, S, L>(alloc, items)),
        _ => match items
            .into_iter()
            .collect::<LimitedHashMap<K, V, S, L>>(alloc)
        {
            Ok(map) => print_map(rt, &map),
            Err(_) => print!(rt; "refused"),
        },
    }
}

// Of up to four pairs.
fn of_array<K: Eq + Hash + Drop, V: Drop, S: BuildHasher + Default + Drop, L: Limit>(
    alloc: Global,
    items: Vec<(K, V)>,
) -> Made<K, V, S, L> {
    let mut items = items.into_iter();
    let Some(a) = items.next() else {
        return LimitedHashMap::from_array(alloc, []);
    };
    let Some(b) = items.next() else {
        return LimitedHashMap::from_array(alloc, [a]);
    };
    let Some(c) = items.next() else {
        return LimitedHashMap::from_array(alloc, [a, b]);
    };
    let Some(d) = items.next() else {
        return LimitedHashMap::from_array(alloc, [a, b, c]);
    };
    LimitedHashMap::from_array(alloc, [a, b, c, d])
}

// Of up to three pairs.
fn of_macro<K: Eq + Hash + Drop, V: Drop>(
    alloc: Global,
    items: Vec<(K, V)>,
) -> Result<HashMap<K, V, DefaultHashBuilder>, Refusal> {
    let mut items = items.into_iter();
    let Some(a) = items.next() else {
        return hashmap! {in alloc;};
    };
    let Some(b) = items.next() else {
        return hashmap! {in alloc; a.0 => a.1};
    };
    let Some(c) = items.next() else {
        return hashmap! {in alloc; a.0 => a.1, b.0 => b.1};
    };
    hashmap! {in alloc; a.0 => a.1, b.0 => b.1, c.0 => c.1}
}

fn make<K: Eq + Hash, V, L: Limit>(
    alloc: Global,
    maker: &str,
    words: &Words<'_>,
) -> Made<K, V, DefaultHashBuilder, L> {
    let builder = DefaultHashBuilder::new();
    let (name, capacity) = maker.split_once(":").unwrap_or((maker, "0"));
    let capacity = words.number_of(capacity) as usize;
    match name {
        "with_capacity" => LimitedHashMap::with_capacity(alloc, capacity),
        "vec_with_capacity" => LimitedHashMap::vec_with_capacity(alloc, capacity),
        "with_capacity_and_hasher" => {
            LimitedHashMap::with_capacity_and_hasher(alloc, capacity, builder)
        }
        "default" => Ok(LimitedHashMap::default(alloc)),
        "with_hasher" => Ok(LimitedHashMap::with_hasher(alloc, builder)),
        "new" => Ok(LimitedHashMap::new(alloc)),
        _ => {
            words.refuse();
            Ok(LimitedHashMap::new(alloc))
        }
    }
}

fn print_made<K: Named, V: Number, S: BuildHasher + Drop, L: Limit>(
    rt: &impl Print,
    made: Made<K, V, S, L>,
) -> io::Result<()> {
    match made {
        Ok(map) => print_map(rt, &map),
        Err(why) => print!(rt; "{:?}", Answer::from(why)),
    }
}

// Prints each state of an empty map that takes the pairs one by one, up to the first that is refused.
fn print_insertions<K: Named, V: Number, S: BuildHasher + Drop, L: Limit>(
    rt: &impl Print,
    made: Made<K, V, S, L>,
    items: Vec<(K, V)>,
) -> io::Result<()> {
    let mut map = match made {
        Ok(map) => map,
        Err(why) => return print!(rt; "{:?}", Answer::from(why)),
    };
    print_state(rt, &map)?;
    for (key, value) in items {
        if let Err(back) = map.insert(key, value) {
            return print!(rt; "; {:?}", Answer::from(back.why));
        }
        print!(rt; "; ")?;
        print_state(rt, &map)?;
    }
    Ok(())
}
