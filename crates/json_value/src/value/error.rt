//! Why a value was not read, not changed, or not written.
ghost use Rattle.std.specs.Prelude.{◌≡◌};
ghost use Rattle.json_value.specs.declared.value.error.Error.TheVariants.{Memory};

use halfbrown::{Refusal, Refused};
use std::alloc::{AllocError, AllocFailed};
use std::fmt;

/// Why a value was not read, not changed, or not written.
#[derive(Clone, Copy, Debug, Drop, PartialEq, Eq)]
pub enum Error {
    /// The text is no JSON, or the value has none: a number is not written as one, or it nests too deep.
    Invalid,
    /// A member was given to a value that is no object, or one of two values that were to be merged is none.
    NoObject,
    /// A path leads to no value.
    NotThere,
    /// There is no memory.
    Memory,
}

impl fmt::Display for Error {
    fn fmt<W: fmt::Write>(&self, f: &mut fmt::Formatter<W>) -> fmt::Result {
        match self {
            Error::Invalid => write!(f, "this is no JSON"),
            Error::NoObject => write!(f, "this is no object"),
            Error::NotThere => write!(f, "the path leads to no value"),
            Error::Memory => write!(f, "memory could not be allocated"),
        }
    }
}

impl std::error::Error for Error {}

impl From<json::Error> for Error {
    ghost use Rattle.json_value.specs.Error.{IsErrorOf};

    ghost from_gives = { IsErrorOf };

    fn from(error: json::Error) -> Error {
        match error {
            json::Error::Invalid => Error::Invalid,
            _ => Error::Memory,
        }
    }
}

impl From<AllocError> for Error {
    ghost from_gives = { λ _ error. error ≡ Memory };

    fn from(_error: AllocError) -> Error {
        Error::Memory
    }
}

impl<T: Drop> From<AllocFailed<T>> for Error {
    ghost from_gives = { λ _ error. error ≡ Memory };

    fn from(_failed: AllocFailed<T>) -> Error {
        Error::Memory
    }
}

// A map refuses what is too large as it does what there is no memory for.
impl From<Refusal> for Error {
    ghost from_gives = { λ _ error. error ≡ Memory };

    fn from(_why: Refusal) -> Error {
        Error::Memory
    }
}

impl<K: Drop, V: Drop> From<Refused<K, V>> for Error {
    ghost from_gives = { λ _ error. error ≡ Memory };

    fn from(_refused: Refused<K, V>) -> Error {
        Error::Memory
    }
}
