//! Removal that keeps the order: a pass over the buckets makes the pair the last one, and then it is removed as any other.
ghost use Rattle.std.specs.Prelude.{◌≡◌, ◌+◌, ◌*◌, ◌<◌, ◌≤◌, length, remove, slice_index, vec_capacity};
ghost use Rattle.half_store.specs.Slots.{EachOnce};
ghost use Rattle.half_store.specs.Work.{looked_more, ReadsWithin};
ghost use Rattle.half_store.specs.Reach.{reach};
ghost use Rattle.half_store.specs.StoreRemoval.{MovesToEnd};
ghost use Rattle.half_store.specs.Table.{IsIndexed, IsTablePlace};

use super::Table;
use crate::Tally;
use crate::words::{WordsMut, of_either_size};

impl Table {
    /// Removes the pair at this entry index, which stands in this bucket. Each pair behind it gets the index before its own. It
    /// reads each bucket once, and then at most as many as two unsuccessful probes for the hash of the pair.
    pub fn shift_remove_at(&mut self, index: usize, bucket: usize, tally: &mut Tally)
        requires within { index < length self.old.hashes }
        requires at { IsTablePlace self.old index bucket }
        ensures hashes { self.new.hashes ≡ remove self.old.hashes index }
        ensures buckets { self.new.buckets ≡ self.old.buckets }
        ensures cost { ReadsWithin (self.old.buckets + 2 * reach self.old.hashes self.old.buckets
            (slice_index self.old.hashes index)) tally.old tally.new }
    {
        let pairs = self.hashes.len();
        of_either_size!(&mut self.buckets, buckets => move_to_end(buckets, index, pairs, tally));
        let hash = self.hashes.remove(index);
        self.hashes.push_reserved(hash);
        self.remove_at(pairs - 1, bucket, tally);
    }
}

/// Makes the pair at this entry index the last one, as far as the buckets go: each pair behind it gets the index before its own.
#[tactic(auto)]
fn move_to_end<B: WordsMut>(buckets: &mut B, index: usize, pairs: usize, tally: &mut Tally)
    requires within { index < pairs }
    requires each { EachOnce pairs (B.words buckets.old) }
    requires fits { pairs ≤ B.most buckets.old }
    ensures moves { MovesToEnd pairs index (B.words buckets.old) (B.words buckets.new) }
    ensures most { B.most buckets.new ≡ B.most buckets.old }
    ensures cost { tally.new ≡ looked_more (length (B.words buckets.old)) tally.old }
{
    for bucket in 0..buckets.count() {
        let word = buckets.word_at(bucket, tally);
        let moved = if word == index + 1 {
            pairs
        } else if index < word {
            word - 1
        } else {
            word
        };
        buckets.set_word(bucket, moved);
    }
}
