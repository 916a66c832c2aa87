//! The entry of one key: the pair that is held for it, or a vacancy for the pair that is not.
ghost use Rattle.std.specs.Prelude.{◌≡◌, ◌<◌, false, length};
ghost use Rattle.halfbrown.specs.Pairs.{holds};
ghost use Rattle.halfbrown.specs.State.{IsPlacedIn, IsVacancyIn};

mod debug;
mod make;
mod methods;
mod occupied;
mod replace;
mod vacant;

use crate::{AtMost, DefaultHashBuilder, KeyHasher, Limit, LimitedHashMap};
use half_store::Vacancy;
use std::hash::Hash;

/// The entry of a key, which `entry` returns. The map has been searched, and has capacity for the pair if the key is
/// not held. So no call on the entry fails, hashes a key or compares two.
///
/// ```
/// let age = match ages.entry(3)? {
///     Entry::Occupied(entry) => entry.remove(),
///     Entry::Vacant(entry) => *entry.insert(5),
/// };
/// assert_eq!(rt; age, 5);
/// ```
#[derive(Drop)]
pub enum Entry<'a, K: Eq + Hash, V, S: KeyHasher<K> = DefaultHashBuilder, L: Limit = AtMost<32>> {
    /// The key is held.
    Occupied(OccupiedEntry<'a, K, V, S, L>),
    /// The key is not held.
    Vacant(VacantEntry<'a, K, V, S, L>),
}

/// The entry of a held pair: of its key, at its index, or a raw one whose search found it.
///
/// ```
/// fn take(entry: OccupiedEntry<'_, u64, u32>) -> u32 {
///     entry.remove()
/// }
/// ```
#[derive(Drop)]
pub struct OccupiedEntry<
    'a,
    K: Eq + Hash,
    V,
    S: KeyHasher<K> = DefaultHashBuilder,
    L: Limit = AtMost<32>,
> {
    pub(crate) map: &'a mut LimitedHashMap<K, V, S, L>,
    // not as one `Found`, since a field that is a struct makes the prover ask for the ghost fields once the pair is gone
    pub(crate) index: usize,
    pub(crate) bucket: usize,
    ghost within: { index < length map.now.pairs },
    ghost placed: { IsPlacedIn map.now (record { index = index; bucket = bucket }) },
}

/// A vacancy for the pair of a key that is not held.
///
/// ```
/// fn key_of(entry: &VacantEntry<'_, u64, u32>) -> u64 {
///     *entry.key()
/// }
/// ```
pub struct VacantEntry<
    'a,
    K: Eq + Hash,
    V,
    S: KeyHasher<K> = DefaultHashBuilder,
    L: Limit = AtMost<32>,
> {
    map: &'a mut LimitedHashMap<K, V, S, L>,
    key: K,
    vacancy: Vacancy,
    ghost capacity_left: { length map.now.pairs < map.now.capacity },
    ghost absent: { holds K.eq map.now.pairs key ≡ false },
    ghost vacant: { ∥ IsVacancyIn map.now (S.hash map.now.builder key) vacancy ∥₁ },
}

// Written out, so that a caller who drops it unused knows the map.
impl<'a, K: Eq + Hash + Drop, V, S: KeyHasher<K>, L: Limit> Drop for VacantEntry<'a, K, V, S, L> {
    fn drop(self)
        ensures { self.exit.0.now ≡ self.entry.map.now }
    {
        let VacantEntry {
            map: _,
            key,
            vacancy: _,
        } = self;
        drop(key);
    }
}
