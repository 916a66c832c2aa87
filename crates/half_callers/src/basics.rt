//! What callers build on the map, proved from its public contracts only: a look-up that cannot fail, and a map under random
//! hashes.
ghost use Rattle.std.specs.Prelude.{◌≡◌, true, [], IfOk};

use halfbrown::{HashMap, Limit, LimitedHashMap, Refusal};
use std::alloc::Global;
use std::hash::{BuildHasher, Hash, RandomState};
use std::io;
use std::random::RandomSource;

/// The value that was just stored, by index: the clause of the insertion says that the key is held.
pub fn stored<K: Eq + Hash + Copy, S: BuildHasher, L: Limit>(
    counts: &mut LimitedHashMap<K, u64, S, L>,
    key: K,
    count: u64,
) -> Result<u64, Refusal>
    ensures { IfOk result (λ stored. stored ≡ count) }
{
    counts.insert(key, count)?;
    Ok(counts[&key])
}

/// Ages by names that others choose, who cannot know how the names are hashed.
pub fn ages_by_names_of_others<R: RandomSource>(
    rt: &R,
    alloc: Global,
) -> io::Result<HashMap<String, u32, RandomState>>
    ensures pairs { IfOk result (λ ages. ages.pairs ≡ []) }
    ensures form { IfOk result (λ ages. ages.is_vec ≡ true) }
{
    Ok(HashMap::with_hasher(alloc, RandomState::new(rt)?))
}
