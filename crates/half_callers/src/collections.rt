//! What callers build from collections, proved from their public contracts only: two maps made one.
ghost use Rattle.std.specs.Prelude.{◌≡◌, OnOk};
ghost use Rattle.std.specs.Map.{keys_of};
ghost use Rattle.std.specs.Option.{option_or};
ghost use Rattle.halfbrown.specs.ByKey.{add_keys};
ghost use Rattle.halfbrown.specs.Pairs.{value_of};

use halfbrown::{Limit, LimitedHashMap, Refusal};
use std::hash::{BuildHasher, Hash};

/// Inserts the pairs of another map. Where both hold a key, the other's value wins; new keys come last, in the other's order.
pub fn merge<
    K: Eq + Hash + Drop,
    V: Drop,
    S: BuildHasher,
    L: Limit,
    OtherS: BuildHasher + Drop,
    OtherL: Limit,
>(
    map: &mut LimitedHashMap<K, V, S, L>,
    other: LimitedHashMap<K, V, OtherS, OtherL>,
) -> Result<(), Refusal>
    ensures keys { OnOk result (keys_of map.new.pairs
        ≡ add_keys K.eq (keys_of map.old.pairs) (keys_of other.pairs)) }
    ensures values { OnOk result ((key : K) → value_of K.eq map.new.pairs key
        ≡ option_or (value_of K.eq other.pairs key) (value_of K.eq map.old.pairs key)) }
{
    map.extend(other)?;
    Ok(())
}
