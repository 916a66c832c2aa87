//! The iterators of a map: lists of what they give, calls on them, and texts.
ghost use Rattle.std.specs.Iterator.{IsFinite};

use crate::answer::{Answer, of_lent, of_shown, of_taken};
use crate::entries::{of_more, of_pair_more};
use crate::items::{Named, Number, Ruled};
use crate::player::Player;
use crate::printing::{gap_before, print_in_one_line, print_item, print_items};
use crate::words::{Words, no_line};
use halfbrown::{Column, Drain, IntoIter, Iter, IterMut, Limit, LimitedHashMap, ValuesMut};
use std::alloc::Global;
use std::fmt::Debug;
use std::{io, vec};

/// An iterator of a line.
trait Walked: ExactSizeIterator {
    /// Makes a step, and prints what it gave.
    fn play<R: Print>(&mut self, rt: &R, step: &str, words: &Words<'_>) -> io::Result<()>;
}

impl<K: Named, V: Number> Walked for Iter<'_, K, V> {
    fn play<R: Print>(&mut self, rt: &R, step: &str, words: &Words<'_>) -> io::Result<()> {
        match step {
            "clone" => print_items(rt, &mut self.clone()?, usize::MAX, of_shown),
            "debug" => print!(rt; "{self:?}"),
            _ => play_step(rt, self, step, words, of_shown),
        }
    }
}

impl<T: Debug, O> Walked for Column<'_, T, O> {
    fn play<R: Print>(&mut self, rt: &R, step: &str, words: &Words<'_>) -> io::Result<()> {
        match step {
            "clone" => print_items(rt, &mut self.clone()?, usize::MAX, |item| item),
            _ => play_step(rt, self, step, words, |item| item),
        }
    }
}

impl<K: Named, V: Number> Walked for IterMut<'_, K, V> {
    fn play<R: Print>(&mut self, rt: &R, step: &str, words: &Words<'_>) -> io::Result<()> {
        match step {
            "add" => print_item(rt, self.next().map(|pair| of_pair_more(pair, 1))),
            _ => play_step(rt, self, step, words, of_lent),
        }
    }
}

impl<K, V: Number> Walked for ValuesMut<'_, K, V> {
    fn play<R: Print>(&mut self, rt: &R, step: &str, words: &Words<'_>) -> io::Result<()> {
        match step {
            "add" => print_item(rt, self.next().map(|value| of_more(value, 1))),
            _ => play_step(rt, self, step, words, |value| value),
        }
    }
}

impl<K: Named, V: Number> Walked for IntoIter<K, V> {
    fn play<R: Print>(&mut self, rt: &R, step: &str, words: &Words<'_>) -> io::Result<()> {
        match step {
            "is_empty" => print!(rt; "{}", self.is_empty()),
            _ => play_step(rt, self, step, words, of_taken),
        }
    }
}

impl<T: Debug + Drop> Walked for vec::IntoIter<T> {
    fn play<R: Print>(&mut self, rt: &R, step: &str, words: &Words<'_>) -> io::Result<()> {
        play_step(rt, self, step, words, |item| item)
    }
}

impl<K: Named, V: Number, S: Ruled, L: Limit> Walked for Drain<'_, K, V, S, L> {
    fn play<R: Print>(&mut self, rt: &R, step: &str, words: &Words<'_>) -> io::Result<()> {
        play_step(rt, self, step, words, of_taken)
    }
}

impl<R: Print, K: Named, V: Number, S: Ruled, L: Limit> Player<'_, R, K, V, S, L> {
    /// Makes an iterator of this kind, and prints the list of what it gives, or, for `walk`, of what the steps gave. Or prints
    /// a text of this kind.
    pub(crate) fn walk(&mut self, call: &str, kind: &str, words: &Words<'_>) -> io::Result<()> {
        let (rt, alloc, map) = (self.rt, self.alloc, &mut self.a);
        match kind {
            "iter" => play(rt, &mut map.iter(), call, words),
            "keys" => play(rt, &mut map.keys(), call, words),
            "values" => play(rt, &mut map.values(), call, words),
            "iter_mut" => play(rt, &mut map.iter_mut(), call, words),
            "values_mut" => play(rt, &mut map.values_mut(), call, words),
            "drain" => play(rt, &mut map.drain(), call, words),
            "for" => play(rt, &mut (&*map).into_iter(), call, words),
            "for_mut" => play(rt, &mut map.into_iter(), call, words),
            "into_iter" | "for_value" => play(rt, &mut take(map, alloc).into_iter(), call, words),
            "into_keys" => play(rt, &mut take(map, alloc).into_keys(), call, words),
            "into_values" => play(rt, &mut take(map, alloc).into_values(), call, words),
            _ => self.print_text(kind),
        }
    }

    // Prints the text of the first map, of its iterator or of its raw entries.
    fn print_text(&mut self, call: &str) -> io::Result<()> {
        let (rt, alloc, map) = (self.rt, self.alloc, &self.a);
        match call {
            "debug" => print!(rt; "{map:?}"),
            "debug_iter" => print!(rt; "{:?}", map.iter()),
            "debug_pretty" => print_in_one_line(rt, format!(in alloc; "{map:#?}")?.as_str()),
            "debug_iter_pretty" => {
                print_in_one_line(rt, format!(in alloc; "{:#?}", map.iter())?.as_str())
            }
            "raw_entry_debug" => print!(rt; "{:?}", map.raw_entry()),
            "raw_entry_mut_debug" => match self.a.raw_entry_mut() {
                Ok(entries) => print!(rt; "{entries:?}"),
                Err(why) => print!(rt; "{:?}", Answer::from(why)),
            },
            _ => no_line(),
        }
    }
}

/// The map. An empty one with the same builder replaces it.
pub(crate) fn take<K: Named, V: Number, S: Ruled, L: Limit>(
    map: &mut LimitedHashMap<K, V, S, L>,
    alloc: Global,
) -> LimitedHashMap<K, V, S, L> {
    let empty = LimitedHashMap::with_hasher(alloc, *map.hasher());
    std::mem::replace(map, empty)
}

fn play<I: Walked>(
    rt: &impl Print,
    items: &mut I,
    call: &str,
    words: &Words<'_>,
) -> io::Result<()> {
    match call {
        "walk" => print_steps(rt, items, words),
        "drain" => items.play(rt, call, words),
        _ => items.play(rt, "each", words),
    }
}

fn print_steps<I: Walked>(rt: &impl Print, items: &mut I, words: &Words<'_>) -> io::Result<()> {
    let mut is_first = true;
    print!(rt; "[")?;
    for step in words.rest() {
        print!(rt; "{}", gap_before(&mut is_first, "; "))?;
        items.play(rt, step, words)?;
    }
    print!(rt; "]")
}

// Makes a step that each iterator has. `drain` goes over as many items as the next word says.
fn play_step<I: ExactSizeIterator, A: Debug + Drop, F: Fn(I::Item) -> A>(
    rt: &impl Print,
    items: &mut I,
    step: &str,
    words: &Words<'_>,
    shown: F,
) -> io::Result<()>
    requires can { I.can_next items.old }
    requires ends { IsFinite (I.remaining items.old) }
    requires callable { F.IsAlwaysCallable shown }
{
    match step {
        "next" => match items.next() {
            Some(item) => print!(rt; "{:?}", shown(item)),
            None => print!(rt; "none"),
        },
        "len" => print!(rt; "{}", items.len()),
        "hint" => print_hint(rt, items.size_hint()),
        "each" => print_items(rt, items, usize::MAX, shown),
        "drain" => print_items(rt, items, words.count(), shown),
        _ => match step.strip_prefix("each:") {
            Some(most) => print_items(rt, items, words.number_of(most) as usize, shown),
            None => no_line(),
        },
    }
}

fn print_hint(rt: &impl Print, (low, high): (usize, Option<usize>)) -> io::Result<()> {
    print!(rt; "{low} ")?;
    print_item(rt, high)
}
