//! What is printed for a text.
ghost use Rattle.std.specs.Prelude.{◌≡◌, ℕ, List, IfErr, IfOk, string_bytes};
ghost use Rattle.std.specs.Borrow.{Bor};
ghost use Rattle.std.specs.List.{flat_map};
ghost use Rattle.halfbrown.specs.ByKey.{CountsEach};
ghost use Rattle.half_uses.specs.Words.{AreWordsOf, line_of, same_word};
ghost use Rattle.word_count.specs.Failure.{IsFailureOf};

use crate::failure::Failure;
use half_uses::words::{count_words, report};
use std::alloc::Global;
use std::str;

/// What the program prints for these bytes: a line for each of their words, with how often it comes.
pub(crate) fn report_of(alloc: Global, bytes: &[u8]) -> Result<String, Failure>
    ensures lines { IfOk result (λ lines. (words : List (Bor (List ℕ))) × (counts : List (Bor (List ℕ) × ℕ))
        × AreWordsOf bytes.now words
        × CountsEach same_word words counts
        × (string_bytes lines ≡ flat_map line_of counts)) }
    ensures failure { IfErr result (IsFailureOf bytes.now) }
{
    let text = str::from_utf8(bytes)?;
    let counts = count_words(alloc, text)?;
    Ok(report(alloc, &counts)?)
}
