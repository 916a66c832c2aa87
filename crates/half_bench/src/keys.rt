//! The keys: numbers and texts, and lists made of numbers.
ghost use Rattle.std.specs.Prelude.{◌≡◌, true};
ghost use Rattle.std.proofs.Common.{rules};

use std::alloc::Global;
use std::hash::Hash;
use std::io;
use std::ops::Range;

/// A type of keys that maps are timed with.
pub(crate) trait Key: Eq + Hash + Clone + Drop {
    /// The key of this number. Different numbers have different keys.
    fn of_number(alloc: Global, number: u64) -> io::Result<Self>;

    // A clone is equal to its key, which a map of clones stands on.
    ghost clones_equal: { (key copy : Self) → Self.is_clone key copy → Self.eq key copy ≡ true };
}

impl Key for u64 {
    ghost clones_equal = { Prim.search rules };

    fn of_number(_alloc: Global, number: u64) -> io::Result<u64> {
        Ok(scrambled(number))
    }
}

impl Key for String {
    ghost clones_equal = { Prim.search rules };

    fn of_number(alloc: Global, number: u64) -> io::Result<String> {
        Ok(format!(in alloc; "key {number}")?)
    }
}

/// A number that looks random, and is another one for each number given: the last steps of splitmix64.
pub(crate) fn scrambled(number: u64) -> u64 {
    let once = (number ^ (number >> 30)).wrapping_mul(0xbf58_476d_1ce4_e5b9);
    let twice = (once ^ (once >> 27)).wrapping_mul(0x94d0_49bb_1331_11eb);
    twice ^ (twice >> 31)
}

/// What is made of these numbers, in their order.
pub(crate) fn list<T: Drop, F: Fn(u64) -> io::Result<T>>(
    alloc: Global,
    numbers: Range<u64>,
    make: &F,
) -> io::Result<Vec<T>>
    requires { F.IsAlwaysCallable make.now }
{
    let mut list = Vec::new(alloc);
    for number in numbers {
        list.push(make(number)?)?;
    }
    Ok(list)
}

/// The keys of these numbers.
pub(crate) fn keys<K: Key>(alloc: Global, numbers: Range<u64>) -> io::Result<Vec<K>> {
    list(alloc, numbers, &|number| K::of_number(alloc, number))
}
