//! What callers build on the calls by index, proved from their public contracts only: values that are set by an index that is
//! given, or found.
ghost use Rattle.std.specs.Prelude.{◌≡◌, ◌<◌, ℕ, true, length, slice_get, Some, if◌then◌else◌};
ghost use Rattle.std.specs.Map.{keys_of};
ghost use Rattle.halfbrown.specs.Pairs.{value_of, holds, set_value, set_value_at};

use halfbrown::{Limit, LimitedHashMap};
use std::hash::{BuildHasher, Hash};

/// Sets the value of the pair at an index, where there is one, and else changes nothing.
#[tactic(auto, using(halfbrown::proofs::callers::Values::index_facts))]
pub fn set_at<K: Eq + Hash, S: BuildHasher, L: Limit>(
    map: &mut LimitedHashMap<K, u64, S, L>,
    index: usize,
    value: u64,
)
    ensures set { index < length map.old.pairs → map.new.pairs ≡ set_value_at map.old.pairs index value }
    ensures keys { keys_of map.new.pairs ≡ keys_of map.old.pairs }
    ensures len { length map.new.pairs ≡ length map.old.pairs }
    ensures values { (pair : K × ℕ) → slice_get map.old.pairs index ≡ Some pair → (key : K) → value_of K.eq map.new.pairs key
        ≡ (if K.eq pair.0 key then Some value else value_of K.eq map.old.pairs key) }
{
    if let Some(held) = map.get_index_mut(index) {
        *held = value;
    }
}

/// Sets the value of a key, where it is held, by its index.
#[tactic(auto, using(halfbrown::proofs::callers::Pairs::keys_set))]
pub fn set_by_index<K: Eq + Hash, S: BuildHasher, L: Limit>(
    map: &mut LimitedHashMap<K, u64, S, L>,
    key: &K,
    value: u64,
)
    ensures set { holds K.eq map.old.pairs key.now ≡ true
        → map.new.pairs ≡ set_value (K.eq key.now) map.old.pairs value }
    ensures keys { keys_of map.new.pairs ≡ keys_of map.old.pairs }
{
    if let Some(index) = map.get_index_of(key) {
        if let Some(held) = map.get_index_mut(index) {
            *held = value;
        }
    }
}
