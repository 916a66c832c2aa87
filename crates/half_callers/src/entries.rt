//! What callers build on entries, proved from their public contracts only: counters, and a set of labels that are switched on
//! and off.
ghost use Rattle.std.specs.Prelude.{◌≡◌, ◌+◌, ◌-◌, ◌^◌, ℕ, Some, true, false, not, min, nat_eq, OnOk, OnErr, IfOk, unwrap_or};
ghost use Rattle.halfbrown.specs.Growth.{is_vec_after};
ghost use Rattle.halfbrown.specs.Pairs.{value_of, holds, put};

use halfbrown::{DefaultHashBuilder, Entry, HashMap, Limit, LimitedHashMap, Refusal, SizedHashMap};
use std::hash::{BuildHasher, Hash};

/// Counts a key once more, up to the greatest number.
pub fn count_up<K: Eq + Hash + Drop, S: BuildHasher, L: Limit>(
    counts: &mut LimitedHashMap<K, u64, S, L>,
    key: K,
) -> Result<(), Refusal>
    ensures first { OnOk result (holds K.eq counts.old.pairs key ≡ false
        → value_of K.eq counts.new.pairs key ≡ Some 1) }
    ensures again { OnOk result ((count : ℕ) → value_of K.eq counts.old.pairs key ≡ Some count
        → value_of K.eq counts.new.pairs key ≡ Some (min (count + 1) (2 ^ 64 - 1))) }
{
    counts
        .entry(key)?
        .and_modify(|count| *count = count.saturating_add(1))
        .or_insert(1);
    Ok(())
}

/// Removes a label that is held, and adds one that is not. Returns whether it is held now.
pub fn toggle<K: Eq + Hash + Drop, S: BuildHasher, L: Limit>(
    labels: &mut LimitedHashMap<K, (), S, L>,
    label: K,
) -> Result<bool, Refusal>
    ensures toggled { IfOk result (λ is_held. is_held ≡ not (holds K.eq labels.old.pairs label)) }
    ensures held { IfOk result (λ is_held. holds K.eq labels.new.pairs label ≡ is_held) }
    ensures others { OnOk result ((other : K) → K.eq label other ≡ false
        → value_of K.eq labels.new.pairs other ≡ value_of K.eq labels.old.pairs other) }
    ensures err { OnErr result (labels.new ≡ labels.old) }
{
    match labels.entry(label)? {
        Entry::Occupied(entry) => {
            entry.remove();
            Ok(false)
        }
        Entry::Vacant(entry) => {
            entry.insert(());
            Ok(true)
        }
    }
}

/// Gives a name its meaning where it has none, and returns what it means.
pub fn meaning(
    scope: &mut SizedHashMap<u64, u64, DefaultHashBuilder, 8>,
    name: u64,
    fallback: u64,
) -> Result<u64, Refusal>
    ensures means { IfOk result (λ meaning. meaning ≡ unwrap_or (value_of nat_eq scope.old.pairs name) fallback) }
    ensures declared { IfOk result (λ meaning. scope.new.pairs ≡ put nat_eq scope.old.pairs name meaning) }
    ensures form { OnOk result (scope.new.is_vec ≡ is_vec_after 8 scope.old) }
{
    match scope.entry(name)? {
        Entry::Occupied(entry) => Ok(*entry.into_mut()),
        Entry::Vacant(entry) => Ok(*entry.insert(fallback)),
    }
}

/// Looks for a number, and leaves the map as it was.
pub fn visit_number(ages: &mut HashMap<u64, u32>, id: u64) -> Result<(), Refusal>
    ensures { OnOk result (ages.new.pairs ≡ ages.old.pairs) }
{
    let _entry = ages.entry(id)?;
    Ok(())
}

/// The same of a name.
pub fn visit_name(ages: &mut HashMap<String, u32>, name: String) -> Result<(), Refusal>
    ensures { OnOk result (ages.new.pairs ≡ ages.old.pairs) }
{
    let _entry = ages.entry(name)?;
    Ok(())
}

/// Whether a key is held, by its entry, which is not used.
pub fn is_occupied<K: Eq + Hash + Drop, V, S: BuildHasher, L: Limit>(
    map: &mut LimitedHashMap<K, V, S, L>,
    key: K,
) -> Result<bool, Refusal>
    ensures is_held { IfOk result (λ is_held. is_held ≡ holds K.eq map.old.pairs key) }
    ensures unchanged { OnOk result (map.new.pairs ≡ map.old.pairs) }
{
    match map.entry(key)? {
        Entry::Occupied(_occupied) => Ok(true),
        Entry::Vacant(_vacant) => Ok(false),
    }
}
