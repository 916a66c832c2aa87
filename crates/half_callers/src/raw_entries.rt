//! What callers build on raw entries, proved from their public contracts only: another spelling of a key.
ghost use Rattle.std.specs.Prelude.{◌≡◌, false, OnOk, OnErr, IfOk};
ghost use Rattle.std.specs.Map.{values_of};
ghost use Rattle.std.specs.Option.{option_map};
ghost use Rattle.halfbrown.specs.Pairs.{value_of, stored_pair_of};

use halfbrown::{Limit, LimitedHashMap, RawEntryMut, Refusal};
use std::hash::{BuildHasher, Hash};

/// Stores this spelling of a held key, and returns the one that was stored. The values stay, in the same order. Where no equal
/// key is held, none is added. It needs capacity for one pair more, as `raw_entry_mut` does.
pub fn respell<K: Eq + Hash + Drop, V, S: BuildHasher, L: Limit>(
    map: &mut LimitedHashMap<K, V, S, L>,
    spelling: K,
) -> Result<Option<K>, Refusal>
    ensures before { IfOk result (λ before. before
        ≡ option_map (λ pair. pair.0) (stored_pair_of K.eq map.old.pairs spelling)) }
    ensures pair { OnOk result (stored_pair_of K.eq map.new.pairs spelling
        ≡ option_map (λ value. (spelling, value)) (value_of K.eq map.old.pairs spelling)) }
    ensures others { OnOk result ((other : K) → K.eq spelling other ≡ false
        → stored_pair_of K.eq map.new.pairs other ≡ stored_pair_of K.eq map.old.pairs other) }
    ensures order { OnOk result (values_of map.new.pairs ≡ values_of map.old.pairs) }
    ensures err { OnErr result (map.new ≡ map.old) }
{
    match map.raw_entry_mut()?.from_key(&spelling) {
        RawEntryMut::Occupied(mut entry) => Ok(Some(entry.insert_key(spelling))),
        RawEntryMut::Vacant(_vacant) => Ok(None),
    }
}
