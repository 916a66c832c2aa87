//! Raw entries: pairs by a key, by a key whose hash the caller knows, or by a hash and a match on keys.
ghost use Rattle.std.specs.Prelude.{◌<◌, length};

mod debug;
mod methods;
mod search;
mod vacant;

use crate::{AtMost, DefaultHashBuilder, KeyHasher, Limit, LimitedHashMap, OccupiedEntry};
use std::hash::Hash;

/// What `raw_entry` returns: look-ups by a key, by a key with its hash, and by a hash and a match on keys.
///
/// ```
/// fn age_of_1(ages: RawEntryBuilder<'_, u64, u32>) -> Option<u32> {
///     ages.from_key(&1).map(|(_, age)| *age)
/// }
/// assert_eq!(rt; age_of_1(ages.raw_entry()), Some(36));
/// ```
#[derive(Drop)]
pub struct RawEntryBuilder<
    'a,
    K: Eq + Hash,
    V,
    S: KeyHasher<K> = DefaultHashBuilder,
    L: Limit = AtMost<32>,
> {
    map: &'a LimitedHashMap<K, V, S, L>,
}

/// What a raw entry is made from: a map with capacity for one pair more, which `raw_entry_mut` returns.
///
/// ```
/// fn entry_of_1(ages: RawEntryBuilderMut<'_, u64, u32>) -> RawEntryMut<'_, u64, u32> {
///     ages.from_key(&1)
/// }
/// entry_of_1(ages.raw_entry_mut()?).and_modify(|_, age| *age = 37);
/// assert_eq!(rt; ages.get(&1), Some(&37));
/// ```
#[derive(Drop)]
pub enum RawEntryBuilderMut<
    'a,
    K: Eq + Hash,
    V,
    S: KeyHasher<K> = DefaultHashBuilder,
    L: Limit = AtMost<32>,
> {
    #[doc(hidden)]
    Prepared(Prepared<'a, K, V, S, L>),
}

/// A map with capacity for one pair more.
#[derive(Drop)]
pub struct Prepared<'a, K: Eq + Hash, V, S: KeyHasher<K>, L: Limit> {
    map: &'a mut LimitedHashMap<K, V, S, L>,
    ghost capacity_left: { length map.now.pairs < map.now.capacity },
}

/// A raw entry: the pair that a search found, or a vacancy for any pair whose key is not held. The map has capacity for it, so
/// nothing fails after that.
///
/// ```
/// let age = match ages.raw_entry_mut()?.from_key(&3) {
///     RawEntryMut::Occupied(entry) => entry.remove(),
///     RawEntryMut::Vacant(entry) => *entry.insert(3, 5).1,
/// };
/// assert_eq!(rt; age, 5);
/// ```
#[derive(Drop)]
pub enum RawEntryMut<
    'a,
    K: Eq + Hash,
    V,
    S: KeyHasher<K> = DefaultHashBuilder,
    L: Limit = AtMost<32>,
> {
    /// A pair was found.
    Occupied(OccupiedEntry<'a, K, V, S, L>),
    /// None was.
    Vacant(RawVacantEntryMut<'a, K, V, S, L>),
}

/// The raw entry of a pair that was found: an occupied entry, like that of a key.
///
/// ```
/// fn take(entry: RawOccupiedEntryMut<'_, u64, u32>) -> u32 {
///     entry.remove()
/// }
/// ```
pub type RawOccupiedEntryMut<'a, K, V, S = DefaultHashBuilder, L = AtMost<32>> = OccupiedEntry<
    'a,
    K,
    V,
    S,
    L,
>;

/// A vacancy for any pair whose key is not held.
///
/// ```
/// let RawEntryMut::Vacant(entry) = ages.raw_entry_mut()?.from_key(&3) else { unreachable!() };
/// let vacant: RawVacantEntryMut<'_, u64, u32> = entry;
/// ```
#[derive(Drop)]
pub struct RawVacantEntryMut<
    'a,
    K: Eq + Hash,
    V,
    S: KeyHasher<K> = DefaultHashBuilder,
    L: Limit = AtMost<32>,
> {
    map: &'a mut LimitedHashMap<K, V, S, L>,
    ghost capacity_left: { length map.now.pairs < map.now.capacity },
}
