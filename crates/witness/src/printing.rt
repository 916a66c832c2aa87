//! How lists and maps are printed.
ghost use Rattle.std.specs.Iterator.{IsFinite};

use crate::answer::of_shown;
use crate::items::{Named, Number};
use halfbrown::{Limit, LimitedHashMap};
use std::fmt::Debug;
use std::hash::BuildHasher;
use std::io;

/// What stands between two parts of a list, and nothing before the first.
pub(crate) fn gap_before(is_first: &mut bool, gap: &'static str) -> &'static str {
    if std::mem::replace(is_first, false) {
        ""
    } else {
        gap
    }
}

/// Prints the item, or `none`.
pub(crate) fn print_item<T: Debug + Drop>(rt: &impl Print, item: Option<T>) -> io::Result<()> {
    match item {
        Some(item) => print!(rt; "{item:?}"),
        None => print!(rt; "none"),
    }
}

/// Prints the list of the items, or of the first of them if there are more than the most.
pub(crate) fn print_items<I: Iterator, A: Debug + Drop, F: Fn(I::Item) -> A>(
    rt: &impl Print,
    items: &mut I,
    most: usize,
    shown: F,
) -> io::Result<()>
    requires can { I.can_next items.old }
    requires ends { IsFinite (I.remaining items.old) }
    requires callable { F.IsAlwaysCallable shown }
{
    let (mut is_first, mut left) = (true, most);
    print!(rt; "[")?;
    if most > 0 {
        for item in &mut *items {
            print!(rt; "{}{:?}", gap_before(&mut is_first, " "), shown(item))?;
            left = left.saturating_sub(1);
            if left == 0 {
                break;
            }
        }
    }
    print!(rt; "]")
}

/// Prints a text with a backslash and an n in the place of each end of a line.
pub(crate) fn print_in_one_line(rt: &impl Print, text: &str) -> io::Result<()> {
    let mut is_first = true;
    for line in text.split("\n") {
        print!(rt; "{}{line}", gap_before(&mut is_first, "\\n"))?;
    }
    Ok(())
}

/// Prints the map's form, length and capacity.
pub(crate) fn print_state<K: Named, V: Number, S: BuildHasher, L: Limit>(
    rt: &impl Print,
    map: &LimitedHashMap<K, V, S, L>,
) -> io::Result<()> {
    let form = if map.is_vec() { "vec" } else { "map" };
    print!(rt; "{form} {} {}", map.len(), map.capacity())
}

/// Prints the state of the map, and its pairs.
pub(crate) fn print_map<K: Named, V: Number, S: BuildHasher, L: Limit>(
    rt: &impl Print,
    map: &LimitedHashMap<K, V, S, L>,
) -> io::Result<()> {
    print_state(rt, map)?;
    print!(rt; " ")?;
    print_items(rt, &mut map.iter(), usize::MAX, of_shown)
}

/// Prints each key whose value, looked up, is not the one beside it.
pub(crate) fn print_lost<K: Named, V: Number, S: BuildHasher, L: Limit>(
    rt: &impl Print,
    map: &LimitedHashMap<K, V, S, L>,
) -> io::Result<()> {
    for (key, value) in map {
        let found = map.get(key).map(V::number);
        if found != Some(value.number()) {
            print!(rt; " lost {}", key.name())?;
        }
    }
    Ok(())
}
