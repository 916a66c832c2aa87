//! Counted work: each hash of a key and each comparison of keys is made by one of these functions, which counts it. A bucket
//! is counted by what reads its word (`Words::word_at`).
ghost use Rattle.std.specs.Prelude.{◌≡◌};
ghost use Rattle.std.specs.Fn.{FnReturnsAt};
ghost use Rattle.half_store.specs.Hash.{hash_by};
ghost use Rattle.half_store.specs.Work.{asked_more, compared_more};

use crate::Tally;
use std::hash::{BuildHasher, Hash};

/// Hashes a key: calls `hash_one` of the builder.
#[inline(always)]
pub fn hash_one<K: Hash, S: BuildHasher>(builder: &S, key: &K, tally: &mut Tally) -> u64
    ensures hash { result
        ≡ hash_by S.BuildHasher S.Hasher.Hasher builder.now (K.hash_input key.now) }
    ensures counted { tally.new ≡ asked_more 1 tally.old }
{
    tally.asked = tally.asked.plus_one();
    builder.hash_one(key)
}

/// Compares keys: calls `matches` at a held one.
#[inline(always)]
pub fn compare<K, F: Fn(&K) -> bool>(matches: &F, key: &K, tally: &mut Tally) -> bool
    requires { F.pre matches.now key }
    ensures answer { FnReturnsAt F.Fn matches.now key.now result }
    ensures counted { tally.new ≡ compared_more 1 tally.old }
{
    tally.compared = tally.compared.plus_one();
    matches(key)
}
