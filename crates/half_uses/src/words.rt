//! How often each word of a text comes.
ghost use Rattle.std.specs.Prelude.{◌≡◌, List, ℕ, IfOk, string_bytes};
ghost use Rattle.std.specs.Borrow.{Bor};
ghost use Rattle.std.specs.List.{flat_map};
ghost use Rattle.halfbrown.specs.ByKey.{CountsEach};
ghost use Rattle.half_uses.specs.Words.{AreWordsOf, line_of, same_word};

use halfbrown::{HashMap, Refusal};
use std::alloc::{AllocError, Global};
use std::fmt::Write;

/// Words, each with how often it comes.
pub type Counts<'a> = HashMap<&'a str, u64>;

/// The words of a text, each with how often it comes, in the order in which they first come. White space parts the words, which
/// are not copied. It costs one search a word.
///
/// ```
/// let counts = count_words(alloc, "to be or not to be")?; // to 2, be 2, or 1, not 1
/// ```
pub fn count_words<'a>(alloc: Global, text: &'a str) -> Result<Counts<'a>, Refusal>
    ensures { IfOk result (λ counts. (words : List (Bor (List ℕ)))
        × AreWordsOf text.now words
        × CountsEach same_word words counts.pairs) }
{
    let mut counts = Counts::new(alloc);
    for word in text.split_whitespace() {
        *counts.entry(word)?.or_insert(0) += 1;
    }
    Ok(counts)
}

/// A line for each word, in the order of the counts: the word, a space, and how often it comes.
///
/// ```
/// let lines = report(alloc, &counts)?; // "to 2\nbe 2\nor 1\nnot 1\n"
/// ```
pub fn report(alloc: Global, counts: &Counts<'_>) -> Result<String, AllocError>
    ensures { IfOk result (λ lines. string_bytes lines ≡ flat_map line_of (counts.now.pairs)) }
{
    let mut lines = String::new(alloc);
    for (word, count) in counts {
        writeln!(lines, "{word} {count}")?;
    }
    Ok(lines)
}
