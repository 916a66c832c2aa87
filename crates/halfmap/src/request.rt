//! What a line asks for.
ghost use Rattle.std.specs.Prelude.{◌≡◌, ℕ, ◌++◌, IfSome, IfNone, position, take, drop, ◌∷◌, ◌+◌};
ghost use Rattle.halfmap.specs.Request.{Writes, WritesAfter, WritesTwo, IsTextOf, is_space};
ghost use Rattle.halfmap.specs.declared.request.Request.{Request as RequestValue};

use std::str;

/// The most digits that a number is written with.
const MOST_DIGITS: usize = 20;

/// What a line asks of the map.
pub(crate) enum Request {
    /// `i K V`: store the value V for key K.
    Insert(u64, u64),
    /// `g K`: the value of K.
    Get(u64),
    /// `r K`: remove K.
    Remove(u64),
    /// `f`: the form and the length.
    Form,
}

/// Reads a line without its end. Returns none if it asks for nothing that is known.
pub(crate) fn parse(text: &[u8]) -> Option<Request>
    ensures some { IfSome result (λ request. IsTextOf request text.now) }
    ensures none { IfNone result ((request : RequestValue) → ¬ (IsTextOf request text.now)) }
{
    if text == b"f".as_slice() {
        return Some(Request::Form);
    }
    if let Some(key) = number_after(b"g ", text) {
        return Some(Request::Get(key));
    }
    if let Some(key) = number_after(b"r ", text) {
        return Some(Request::Remove(key));
    }
    let (key, value) = two_numbers(text.strip_prefix(b"i ")?)?;
    Some(Request::Insert(key, value))
}

// The number that is written behind these letters.
fn number_after(letters: &[u8], text: &[u8]) -> Option<u64>
    ensures some { IfSome result (WritesAfter letters.now text.now) }
    ensures none { IfNone result ((n : ℕ) → ¬ (WritesAfter letters.now text.now n)) }
{
    number(text.strip_prefix(letters)?)
}

// The two numbers that are written with one space between them.
fn two_numbers(text: &[u8]) -> Option<(u64, u64)>
    ensures some { IfSome result (λ p. WritesTwo text.now p.0 p.1) }
    ensures none { IfNone result ((m n : ℕ) → ¬ (WritesTwo text.now m n)) }
{
    let end = first_space(text)?;
    let first = number(&text[..end])?;
    let second = number(&text[end + 1..])?;
    Some((first, second))
}

// Where the first space stands.
fn first_space(text: &[u8]) -> Option<usize>
    ensures value { result ≡ position is_space text.now }
    ensures parts { IfSome result (λ end. text.now ≡ take end text.now ++ 32 ∷ drop (end + 1) text.now) }
{
    text.iter().position(|byte| *byte == b' ')
}

// The number that a word writes.
#[tactic(auto, using(crate::proofs::Numerals::numeral_is_utf8))]
fn number(word: &[u8]) -> Option<u64>
    ensures some { IfSome result (Writes word.now) }
    ensures none { IfNone result ((n : ℕ) → ¬ (Writes word.now n)) }
{
    if word.len() > MOST_DIGITS || word.starts_with(b"+") {
        return None;
    }
    let text = str::from_utf8(word).ok()?;
    text.parse().ok()
}
