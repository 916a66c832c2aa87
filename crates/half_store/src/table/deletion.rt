//! Backward-shift deletion: after a removal the pairs that follow move back, so that no tombstone is needed.
#![tactic(auto, using(crate::proofs::lemmas::table::Layout::deletion_steps))]

ghost use Rattle.std.specs.Prelude.{◌≡◌, ◌+◌, ◌^◌, ◌<◌, ◌≤◌, Some};
ghost use Rattle.std.specs.Prelude.{length, slice_get, slice_set, slice_index, vec_capacity};
ghost use Rattle.std.specs.List.{swap_remove};
ghost use Rattle.half_store.specs.Capacity.{IsBucketCount};
ghost use Rattle.half_store.specs.Work.{reads_up_to, looked_more, ReadsWithin, removal_reads_at};
ghost use Rattle.half_store.specs.Reach.{home, probe_distance, reach};
ghost use Rattle.half_store.specs.StoreRemoval.{ShiftReadsWithin};
ghost use Rattle.half_store.specs.Table.{IsIndexed, IsIndexedWithGap};

use super::probe::{home, next};
use crate::Tally;
use crate::words::{Words, WordsMut};

/// The bucket of the pair at this entry index: where a probe from its stored hash meets the index. It reads fewer buckets than
/// an unsuccessful probe for that hash.
#[inline(always)]
pub(super) fn bucket_of<B: Words>(
    buckets: &B,
    hashes: &[u64],
    index: usize,
    tally: &mut Tally,
) -> usize
    requires indexed { IsIndexed hashes.now (B.words buckets.now) }
    requires within { index < length hashes.now }
    ensures within { result < length (B.words buckets.now) }
    ensures at { slice_index (B.words buckets.now) result ≡ index + 1 }
    ensures near { reads_up_to (length (B.words buckets.now)) (slice_index hashes.now index) result
        < reach hashes.now (length (B.words buckets.now)) (slice_index hashes.now index) }
    ensures cost { tally.new ≡ looked_more (probe_distance (length (B.words buckets.now))
        (home (length (B.words buckets.now)) (slice_index hashes.now index)) result + 1) tally.old }
{
    let count = buckets.count();
    let mut bucket = home(count, hashes[index]);
    while buckets.word_at(bucket, tally) != index + 1 {
        bucket = next(count, bucket);
    }
    bucket
}

/// The probe distance from one bucket up to another; the first follows the last.
#[inline(always)]
fn probe_distance(count: usize, from: usize, to: usize) -> usize
    requires count { IsBucketCount count }
    requires from_within { from < count }
    requires to_within { to < count }
    ensures { result ≡ probe_distance count from to }
{
    to + (count - from) & (count - 1)
}

/// Returns `chosen` if the first number is less than the second, and otherwise `other`. It takes no branch, which would often be
/// mispredicted.
#[inline(always)]
fn if_less(first: usize, second: usize, chosen: usize, other: usize) -> usize
    requires first { first < 2 ^ 63 }
    requires second { second < 2 ^ 63 }
    ensures less { first < second → result ≡ chosen }
    ensures not_less { second ≤ first → result ≡ other }
{
    // The sign of the difference: a comparison would be compiled to a branch.
    let is_less = first.wrapping_sub(second) >> 63;
    chosen * is_less + other * (1 - is_less)
}

/// Shifts pairs back into a bucket whose pair was removed, the gap. It goes up to the next empty bucket. Each pair on the way
/// whose home bucket is not after the gap moves into it, and leaves its own bucket as the gap. No gap is read; the last is emptied.
pub(super) fn backward_shift<B: WordsMut>(
    buckets: &mut B,
    hashes: &[u64],
    removed: usize,
    tally: &mut Tally,
)
    requires count { IsBucketCount (length (B.words buckets.old)) }
    requires removed { IsIndexedWithGap hashes.now (slice_set (B.words buckets.old) removed 0)
        removed }
    requires fits { length hashes.now ≤ B.most buckets.old }
    ensures indexed { IsIndexed hashes.now (B.words buckets.new) }
    ensures len { length (B.words buckets.new) ≡ length (B.words buckets.old) }
    ensures most { B.most buckets.new ≡ B.most buckets.old }
    ensures cost { ShiftReadsWithin hashes.now (B.words buckets.old) removed tally.old tally.new }
{
    let count = buckets.count();
    let mut gap = removed;
    let mut bucket = next(count, removed);
    // the probe distance from the gap up to the bucket
    let mut distance = 1;
    let mut word = buckets.word_at(bucket, tally);
    while word != 0 {
        let from_home = probe_distance(count, home(count, hashes[word - 1]), bucket);
        // The pair stays where its home bucket is after the gap. Otherwise it moves into the gap, and leaves one.
        let place = if_less(from_home, distance, bucket, gap);
        buckets.set_word(place, word);
        gap = if_less(from_home, distance, gap, bucket);
        distance = if_less(from_home, distance, distance, 0) + 1;
        bucket = next(count, bucket);
        word = buckets.word_at(bucket, tally);
    }
    buckets.set_word(gap, 0);
}
