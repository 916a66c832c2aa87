//! What callers conclude from the equality of maps, proved from its public contracts only.
ghost use Rattle.std.specs.Prelude.{◌≡◌, nat_eq, IsTrue};
ghost use Rattle.halfbrown.specs.Pairs.{value_of};

use half_laws::equality::equality_of_maps;
use halfbrown::{Limit, LimitedHashMap};
use std::hash::BuildHasher;

/// Whether two maps give each name the same age.
pub fn same_ages<S: BuildHasher, T: BuildHasher, L: Limit, M: Limit>(
    ours: &LimitedHashMap<u64, u32, S, L>,
    theirs: &LimitedHashMap<u64, u32, T, M>,
) -> bool
    ensures { IsTrue result → (name : _) → value_of nat_eq ours.now.pairs name ≡ value_of nat_eq theirs.now.pairs name }
{
    equality_of_maps::<u64, u32>();
    ours.same_pairs(theirs)
}
