//! Linear probing: from the home bucket of a hash upwards. A probe counts each bucket that it reads, and compares only keys
//! whose stored hash is the same.
#![tactic(auto, using(crate::proofs::lemmas::table::Probe::probe_steps))]

ghost use Rattle.std.specs.Prelude.{◌≡◌, ◌<◌, ◌≤◌, length};
ghost use Rattle.std.specs.Fn.{FnReturnsAt};
ghost use Rattle.half_store.specs.Reach.{home, bucket_after, reach};
ghost use Rattle.half_store.specs.Slots.{slots_from, IsSlotVacancy};
ghost use Rattle.half_store.specs.Search.{CallableOnKeysOfHash, ReturnsAt};
ghost use Rattle.half_store.specs.Table.{state_of_words, IsIndexed, TableSearch};
ghost use Rattle.half_store.specs.Capacity.{IsBucketCount};
ghost use Rattle.half_store.specs.Work.{looked_more};

use crate::Tally;
use crate::counting::compare;
use crate::words::Words;

/// The home bucket of a hash, where each probe for it begins.
#[inline(always)]
pub(crate) fn home(count: usize, hash: u64) -> usize
    requires count { IsBucketCount count }
    requires some { 0 < count }
    ensures value { result ≡ home count hash }
    ensures bound { result < count }
{
    hash as usize & (count - 1)
}

/// The bucket after this one; the first follows the last.
#[inline(always)]
pub(crate) fn next(count: usize, bucket: usize) -> usize
    requires count { IsBucketCount count }
    requires within { bucket < count }
    ensures value { result ≡ bucket_after count bucket 1 }
    ensures bound { result < count }
{
    (bucket + 1) & (count - 1)
}

/// Probes up from the home bucket to a pair of this hash whose key `matches` accepts, or otherwise to the first empty bucket.
///
/// Returns the entry index of the pair and its bucket, or the empty bucket. If there are no buckets it reads none, and
/// returns 0.
#[inline(always)]
pub fn probe_for<B: Words, K, F: Fn(&K) -> bool>(
    buckets: &B,
    hashes: &[u64],
    keys: &[K],
    hash: u64,
    matches: &F,
    tally: &mut Tally,
) -> Result<(usize, usize), usize>
    requires indexed { IsIndexed hashes.now (B.words buckets.now) }
    requires keys { length hashes.now ≤ length keys.now }
    requires callable { CallableOnKeysOfHash (F.pre matches.now) hashes.now hash keys.now }
    ensures { TableSearch (ReturnsAt (FnReturnsAt F.Fn matches.now) keys.now)
        (state_of_words hashes.now (B.words buckets.now)) hash result tally.old tally.new }
{
    let count = buckets.count();
    if count == 0 {
        return Err(0);
    }
    let mut bucket = home(count, hash);
    loop {
        match buckets.word_at(bucket, tally) {
            0 => return Err(bucket),
            full => {
                let index = full - 1;
                if hashes[index] == hash && compare(matches, &keys[index], tally) {
                    return Ok((index, bucket));
                }
            }
        }
        bucket = next(count, bucket);
    }
}

/// Probes up from the home bucket to the first empty bucket. The hashes are those that the buckets lead to.
#[inline(always)]
pub fn first_empty<B: Words>(buckets: &B, hashes: &[u64], hash: u64, tally: &mut Tally) -> usize
    requires indexed { IsIndexed hashes.now (B.words buckets.now) }
    requires some { 0 < length (B.words buckets.now) }
    ensures vacancy { IsSlotVacancy (slots_from hashes.now (B.words buckets.now)) hash result }
    ensures cost { tally.new
        ≡ looked_more (reach hashes.now (length (B.words buckets.now)) hash) tally.old }
{
    let _ = hashes;
    let count = buckets.count();
    let mut bucket = home(count, hash);
    while buckets.word_at(bucket, tally) != 0 {
        bucket = next(count, bucket);
    }
    bucket
}
