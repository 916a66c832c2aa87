//! How the builder of a map hashes its keys.
ghost use Rattle.std.specs.Prelude.{◌≡◌, ℕ};
ghost use Rattle.std.proofs.Common.{refl};
ghost use Rattle.std.specs.Hash.{HashWrites};
ghost use Rattle.half_store.specs.Hash.{hash_by};
ghost use Rattle.half_store.specs.Work.{asked_more};

use half_store::{Tally, counting};
use std::hash::{BuildHasher, Hash};

/// A builder, as it hashes the keys of a map.
///
/// Every `BuildHasher` implements it for all keys, so nobody writes it. The map has it as the bound of its builder, in place of
/// `BuildHasher`, because its contracts then say the hash of a key in one word, as `S.hash`. A function of maps with
/// any builder takes `S: BuildHasher` as a parameter. Only if its own contract speaks of hashes does it take
/// `S: KeyHasher<K>`.
///
/// ```
/// fn knows<S: BuildHasher>(ages: &HashMap<u64, u32, S>, id: u64) -> bool {
///     ages.contains_key(&id)
/// }
/// assert!(rt; knows(&ages, 1));
/// ```
pub trait KeyHasher<K: Hash> {
    /// The builder's hasher, which clauses name if a map is lent (`S.Hasher.row`). It stands here so that a function with
    /// `S: KeyHasher<K>`, which is all that a map asks, can hand a map on.
    type Hasher;

    // The hash of a key, which `hash_one` returns.
    ghost hash: { Self → K → ℕ };

    // The hash of what a key, or a query for one, writes into a hasher.
    ghost hash_writes: { Self → HashWrites → ℕ };

    /// Returns what `hash_one` returns for a key, or for a query for one, and counts the hash.
    fn hash_key<Q: Hash>(&self, key: &Q, tally: &mut Tally) -> u64
        ensures hash { result ≡ hash_writes self.now (Q.hash_input key.now) }
        ensures counted { tally.new ≡ asked_more 1 tally.old };

    // A key's hash is that of what it writes.
    ghost hash_is: { (s : Self) (k : K) → hash s k ≡ hash_writes s (K.hash_input k) };
}

impl<K: Hash, S: BuildHasher> KeyHasher<K> for S {
    type Hasher = <S as BuildHasher>::Hasher;

    ghost hash = { λ s k. hash_by S.BuildHasher S.Hasher.Hasher s (K.hash_input k) };

    ghost hash_writes = { hash_by S.BuildHasher S.Hasher.Hasher };

    ghost hash_is = { λ s k. refl };

    #[inline(always)]
    fn hash_key<Q: Hash>(&self, key: &Q, tally: &mut Tally) -> u64 {
        counting::hash_one(self, key, tally)
    }
}
