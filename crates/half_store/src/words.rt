//! The words that stand in buckets: 0 if a bucket is empty, otherwise the entry index of its pair and one more.
//!
//! A word takes four bytes if that is enough for as many pairs as the buckets may hold, and otherwise eight. Nothing lends
//! the words: each is read by `word_at`, which counts it.
ghost use Rattle.std.specs.Prelude.{◌≡◌, ℕ, ◌-◌, ◌^◌, ◌<◌, ◌≤◌, List, [], length, replicate};
ghost use Rattle.std.specs.Prelude.{slice_index, slice_set, IfOk, vec_len, vec_capacity};
ghost use Rattle.half_store.specs.Capacity.{capacity_of, IsBucketCount};
ghost use Rattle.half_store.specs.Words.{words_of, greatest_word, word_size, AreWordsFor, room_of, greatest_word_in, HasNoWords};
ghost use Rattle.half_store.specs.Work.{looked_more};

use crate::Tally;
use crate::blocks::copy_all;
use crate::capacity::capacity_of;
use std::alloc::{AllocError, Global};
use std::marker::Model;

/// Words of one size, in order. Searches and probes read buckets only through this trait, so a test can hand them words that
/// count how often they are read.
pub trait Words {
    // the words
    ghost words: { Self → List ℕ };

    /// How many there are.
    fn count(&self) -> usize
        ensures { result ≡ length (words self.now) };

    /// Reads the word of this bucket, and counts that.
    fn word_at(&self, bucket: usize, tally: &mut Tally) -> usize
        requires { bucket < length (words self.now) }
        ensures value { result ≡ slice_index (words self.now) bucket }
        ensures counted { tally.new ≡ looked_more 1 tally.old };
}

/// Words that are written too.
pub trait WordsMut: Words {
    // the greatest word: 2^32 - 1 in four bytes, 2^62 in eight
    ghost most: { Self → ℕ };

    /// Writes the word of this bucket.
    fn set_word(&mut self, bucket: usize, word: usize)
        requires within { bucket < length (Self.words self.old) }
        requires fits { word ≤ most self.old }
        ensures words { Self.words self.new ≡ slice_set (Self.words self.old) bucket word }
        ensures most { most self.new ≡ most self.old };
}

/// Words in a block that they fill.
#[derive(Drop)]
pub struct WordVec<T> {
    pub(crate) words: Vec<T>,
}

impl<T> Model for WordVec<T> {
    ghost use Rattle.std.specs.Prelude.{◌≡◌, List, length, vec_capacity};
    ghost use Rattle.std.specs.Coded.{coded_list};

    ghost Value = { List T };

    ghost coded = { coded_list T.code };

    ghost view = { λ v. v.words.items };

    ghost invariant = { λ v. vec_capacity v.words ≡ length v.words.items };
}

impl<T: Copy> WordVec<T> {
    /// The same word, as often as there is memory for it.
    fn filled(mut words: Vec<T>, word: T) -> WordVec<T>
        requires empty { words.items ≡ [] }
        requires len { vec_len words ≡ 0 }
        ensures { result ≡ replicate (vec_capacity words) word }
    {
        let count = words.capacity();
        while words.len() < count {
            words.push_reserved(word);
        }
        WordVec { words }
    }
}

impl Words for WordVec<u32> {
    ghost words = { λ v. v };

    #[inline(always)]
    fn count(&self) -> usize {
        self.words.len()
    }

    #[inline(always)]
    fn word_at(&self, bucket: usize, tally: &mut Tally) -> usize {
        tally.looked = tally.looked.plus_one();
        self.words[bucket] as usize
    }
}

impl WordsMut for WordVec<u32> {
    ghost most = { λ v. 2 ^ 32 - 1 };

    #[inline(always)]
    fn set_word(&mut self, bucket: usize, word: usize) {
        self.words[bucket] = word as u32;
    }
}

impl Words for WordVec<usize> {
    ghost words = { λ v. v };

    #[inline(always)]
    fn count(&self) -> usize {
        self.words.len()
    }

    #[inline(always)]
    fn word_at(&self, bucket: usize, tally: &mut Tally) -> usize {
        tally.looked = tally.looked.plus_one();
        self.words[bucket]
    }
}

impl WordsMut for WordVec<usize> {
    ghost most = { λ v. 2 ^ 62 };

    #[inline(always)]
    fn set_word(&mut self, bucket: usize, word: usize) {
        self.words[bucket] = word;
    }
}

/// Up to this capacity the words of buckets take four bytes.
pub(crate) const MOST_IN_FOUR_BYTES: usize = u32::MAX as usize;

/// The words of a table's buckets.
#[derive(Drop)]
pub enum WordArray {
    /// Of four bytes each.
    FourBytes(WordVec<u32>),
    /// Of eight bytes each.
    EightBytes(WordVec<usize>),
}

/// What is done alike with words of four bytes and of eight.
macro_rules! of_either_size {
    ($array:expr, $words:ident => $call:expr) => {
        match $array {
            $crate::words::WordArray::FourBytes($words) => $call,
            $crate::words::WordArray::EightBytes($words) => $call,
        }
    };
}

pub(crate) use of_either_size;

impl Words for WordArray {
    ghost words = { words_of };

    #[inline(always)]
    fn count(&self) -> usize {
        of_either_size!(self, words => words.count())
    }

    #[inline(always)]
    fn word_at(&self, bucket: usize, tally: &mut Tally) -> usize {
        of_either_size!(self, words => words.word_at(bucket, tally))
    }
}

impl WordsMut for WordArray {
    ghost most = { greatest_word };

    #[inline(always)]
    fn set_word(&mut self, bucket: usize, word: usize) {
        of_either_size!(self, words => words.set_word(bucket, word))
    }
}

impl WordArray {
    /// Empties all buckets.
    pub(crate) fn clear(&mut self)
        ensures words { words_of self.new ≡ replicate (length (words_of self.old)) 0 }
        ensures most { greatest_word self.new ≡ greatest_word self.old }
    {
        of_either_size!(self, array => array.words.fill(0))
    }
}

/// Memory for the words of a table's buckets, in which there are none yet.
#[derive(Drop)]
pub enum WordMemory {
    /// Of four bytes each.
    FourBytes(Vec<u32>),
    /// Of eight bytes each.
    EightBytes(Vec<usize>),
}

impl WordMemory {
    /// The words of empty buckets, as many as there is memory for.
    pub(crate) fn into_empty(self) -> WordArray
        requires { HasNoWords self }
        ensures words { words_of result ≡ replicate (room_of self) 0 }
        ensures most { greatest_word result ≡ greatest_word_in self }
    {
        match self {
            WordMemory::FourBytes(words) => WordArray::FourBytes(WordVec::filled(words, 0)),
            WordMemory::EightBytes(words) => WordArray::EightBytes(WordVec::filled(words, 0)),
        }
    }

    /// A copy of words that take as much memory.
    pub(crate) fn into_copy_of(self, words: &WordArray) -> WordArray
        requires unfilled { HasNoWords self }
        requires count { room_of self ≡ length (words_of words.now) }
        requires size { word_size (greatest_word_in self) ≡ word_size (greatest_word words.now) }
        ensures words { words_of result ≡ words_of words.now }
        ensures most { greatest_word result ≡ greatest_word words.now }
    {
        match (self, words) {
            (WordMemory::FourBytes(memory), WordArray::FourBytes(words)) => {
                let words = copy_all(words.words.as_slice(), memory);
                WordArray::FourBytes(WordVec { words })
            }
            (WordMemory::EightBytes(memory), WordArray::EightBytes(words)) => {
                let words = copy_all(words.words.as_slice(), memory);
                WordArray::EightBytes(WordVec { words })
            }
            _ => unreachable!(),
        }
    }
}
