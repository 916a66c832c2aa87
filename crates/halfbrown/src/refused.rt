//! The errors of an insertion, and of an entry.
ghost use Rattle.std.specs.Prelude.{◌≡◌, ◌++◌, Some, codes};
ghost use Rattle.std.specs.IoError.{error_kind};
ghost use Rattle.half_store.specs.Refusal.{error_kind_of, text_of};

use half_store::Refusal;
use std::alloc::AllocError;
use std::error::Error;
use std::{fmt, io};

/// A pair that was not inserted, and why. The map is unchanged.
///
/// `?` converts it into a `Refusal`, an `AllocError` or an `io::Error`, and drops the pair:
///
/// ```
/// fn add(ages: &mut HashMap<u64, u32>, id: u64, age: u32) -> Result<(), Refusal> {
///     ages.insert(id, age)?;
///     ages.reserve(1)
/// }
/// assert_eq!(rt; add(&mut ages, 3, 5), Ok(()));
/// ```
#[derive(Debug, Drop)]
pub struct Refused<K, V> {
    pub key: K,
    pub value: V,
    pub why: Refusal,
}

impl<K, V> fmt::Display for Refused<K, V> {
    ghost output = { λ refused. Some (codes "the pair was not inserted: " ++ text_of refused.why) };

    fn fmt<W: fmt::Write>(&self, f: &mut fmt::Formatter<W>) -> fmt::Result {
        write!(f, "the pair was not inserted: {}", self.why)
    }
}

impl<K: fmt::Debug + Drop, V: fmt::Debug + Drop> Error for Refused<K, V> {}

impl<K: Drop, V: Drop> From<Refused<K, V>> for Refusal {
    ghost from_gives = { λ refused why. why ≡ refused.why };

    fn from(refused: Refused<K, V>) -> Refusal {
        refused.why
    }
}

impl<K: Drop, V: Drop> From<Refused<K, V>> for AllocError {
    fn from(refused: Refused<K, V>) -> AllocError {
        refused.why.into()
    }
}

impl<K: Drop, V: Drop> From<Refused<K, V>> for io::Error {
    ghost from_gives = { λ refused error. error_kind error ≡ error_kind_of refused.why };

    fn from(refused: Refused<K, V>) -> io::Error {
        refused.why.into()
    }
}

/// A key for which no entry was made, and why. The map is unchanged.
///
/// `?` converts it into a `Refusal`, an `AllocError` or an `io::Error`, and drops the key. A caller that needs the key takes it:
///
/// ```
/// let key = ages.entry(3).err().map(|refused| refused.key); // `Some(3)` where it is refused
/// assert_eq!(rt; key, None);
/// ```
#[derive(Debug, Drop)]
pub struct RefusedKey<K> {
    pub key: K,
    pub why: Refusal,
}

impl<K> fmt::Display for RefusedKey<K> {
    ghost output = { λ refused. Some (codes "no entry was made: " ++ text_of refused.why) };

    fn fmt<W: fmt::Write>(&self, f: &mut fmt::Formatter<W>) -> fmt::Result {
        write!(f, "no entry was made: {}", self.why)
    }
}

impl<K: fmt::Debug + Drop> Error for RefusedKey<K> {}

impl<K: Drop> From<RefusedKey<K>> for Refusal {
    ghost from_gives = { λ refused why. why ≡ refused.why };

    fn from(refused: RefusedKey<K>) -> Refusal {
        refused.why
    }
}

impl<K: Drop> From<RefusedKey<K>> for AllocError {
    fn from(refused: RefusedKey<K>) -> AllocError {
        refused.why.into()
    }
}

impl<K: Drop> From<RefusedKey<K>> for io::Error {
    ghost from_gives = { λ refused error. error_kind error ≡ error_kind_of refused.why };

    fn from(refused: RefusedKey<K>) -> io::Error {
        refused.why.into()
    }
}
