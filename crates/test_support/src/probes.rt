//! What probes of a table do. The buckets count their reads themselves, so no read escapes the count.

use half_store::table::probe::{first_empty, probe_for};
use half_store::words::{WordArray, Words};
use half_store::{Table, Tally};
use std::cell::Cell;

/// Stands for an entry index or a bucket if there is none.
pub const NONE: usize = usize::MAX;

/// What a search does: it finds a pair, by its entry index and its bucket, or ends at an empty bucket. It asks for this many
/// pairs, and reads this many buckets.
pub type Search = (Result<(usize, usize), usize>, u64, u64);

// Words of buckets that count how often they are read.
#[derive(Drop)]
struct CountedWords<'a> {
    words: &'a WordArray,
    reads: &'a Cell<u64>,
}

impl Words for CountedWords<'_> {
    ghost use Rattle.half_store.specs.Words.{words_of};

    ghost words = { λ s. words_of s.words.now };

    fn count(&self) -> usize {
        self.words.count()
    }

    fn word_at(&self, bucket: usize, tally: &mut Tally) -> usize {
        self.reads.set(self.reads.get().wrapping_add(1));
        self.words.word_at(bucket, tally)
    }
}

/// A search for this hash that accepts the keys equal to one, among the keys of the pairs by entry index.
pub fn searched<K: PartialEq>(table: &Table, keys: &[K], hash: u64, accepted: &K) -> Search {
    let (asked, reads) = (Cell::new(0u64), Cell::new(0));
    let (words, hashes) = table.buckets();
    if words.count() == 0 || hashes.len() > keys.len() {
        return (Err(NONE), 0, 0);
    }
    let words = CountedWords {
        words,
        reads: &reads,
    };
    let matches = |key: &K| {
        asked.set(asked.get().wrapping_add(1));
        *key == *accepted
    };
    let ended = probe_for(&words, hashes, keys, hash, &matches, &mut Tally::new());
    (ended, asked.get(), reads.get())
}

/// At which empty bucket an insertion probe for this hash ends, and how many buckets it reads.
pub fn probed(table: &Table, hash: u64) -> (usize, u64) {
    let reads = Cell::new(0);
    let (words, hashes) = table.buckets();
    if words.count() == 0 {
        return (NONE, 0);
    }
    let words = CountedWords {
        words,
        reads: &reads,
    };
    let bucket = first_empty(&words, hashes, hash, &mut Tally::new());
    (bucket, reads.get())
}
