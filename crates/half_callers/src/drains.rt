//! What callers build on `drain`, proved from its public contract only: the first pair of a map that is then empty, and all
//! pairs in a list.
ghost use Rattle.std.specs.Prelude.{◌≡◌, [], IfOk, slice_get};
ghost use Rattle.halfbrown.specs.State.{WithPairs};

use halfbrown::{Limit, LimitedHashMap};
use std::alloc::{AllocError, Global};
use std::hash::{BuildHasher, Hash};

/// Takes the first pair, and drops all others.
pub fn take_first<K: Eq + Hash + Drop, V: Drop, S: BuildHasher, L: Limit>(
    map: &mut LimitedHashMap<K, V, S, L>,
) -> Option<(K, V)>
    ensures first { result ≡ slice_get map.old.pairs 0 }
    ensures emptied { WithPairs map.old [] map.new }
{
    map.drain().next()
}

/// All pairs, in order, one at a time.
pub fn take_each<K: Eq + Hash + Drop, V: Drop, S: BuildHasher, L: Limit>(
    alloc: Global,
    map: &mut LimitedHashMap<K, V, S, L>,
) -> Result<Vec<(K, V)>, AllocError>
    ensures all { IfOk result (λ pairs. pairs.items ≡ map.old.pairs) }
    ensures emptied { WithPairs map.old [] map.new }
{
    let mut pairs = Vec::new(alloc);
    for pair in map.drain() {
        pairs.push(pair)?;
    }
    Ok(pairs)
}
