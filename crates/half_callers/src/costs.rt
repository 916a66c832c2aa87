//! What callers say of the work that a call does.
ghost use Rattle.std.specs.Prelude.{◌≡◌, ◌≤◌, ◌+◌, true, OnOk};
ghost use Rattle.halfbrown.specs.CostRanges.{TallyGrewBy};
ghost use Rattle.halfbrown.specs.Costs.{insert_cost};

use halfbrown::{KeyHasher, Limit, LimitedHashMap, Refusal, Tally};
use std::hash::{BuildHasher, Hash};

/// The age of a person. In a vector nothing is hashed; in a table one key is.
pub fn age_of<S: BuildHasher, L: Limit>(
    ages: &LimitedHashMap<u64, u32, S, L>,
    id: u64,
    tally: &mut Tally,
) -> Option<u32>
    ensures vector { ages.now.is_vec ≡ true → tally.new.asked ≡ tally.old.asked }
    ensures table { tally.new.asked ≤ tally.old.asked + 1 }
{
    ages.get_counted(&id, tally).copied()
}

/// Stores a pair, at the cost of one insertion that is granted.
pub fn store<K: Eq + Hash + Drop, V: Drop, S: KeyHasher<K>, L: Limit>(
    map: &mut LimitedHashMap<K, V, S, L>,
    key: K,
    value: V,
    tally: &mut Tally,
) -> Result<(), Refusal>
    ensures cost { OnOk result
        (TallyGrewBy (insert_cost L.LIMIT K.eq S.hash map.old key true) tally.old tally.new) }
{
    map.insert_counted(key, value, tally)?;
    Ok(())
}
