//! Why a call that needs more capacity failed.
ghost use Rattle.std.specs.Prelude.{◌≡◌, ◌^◌, ◌<◌, ◌≤◌, Some, OnOk, IfErr};
ghost use Rattle.std.specs.IoError.{error_kind};
ghost use Rattle.half_store.specs.Refusal.{error_kind_of, text_of};
ghost use Rattle.half_store.specs.declared.refusal.Refusal.TheVariants.{Memory, Size};

use crate::capacity::MOST_PAIRS;
use std::alloc::{AllocError, AllocFailed};
use std::error::Error;
use std::io::ErrorKind;
use std::{fmt, io};

/// Why a call failed. On error nothing changes, but for `extend` of a map, which keeps what it inserted before.
///
/// `?` converts std's `AllocError` and `AllocFailed` into a `Refusal`, so one function may call both.
/// It also converts a `Refusal` into an `AllocError`, where the reason is lost, and into an `io::Error`, the error of a `main`.
#[derive(Clone, Copy, Debug, PartialEq, Eq)]
pub enum Refusal {
    /// Memory could not be allocated.
    Memory,
    /// More than 2^60 pairs.
    Size,
}

impl fmt::Display for Refusal {
    ghost output = { λ why. Some (text_of why) };

    fn fmt<W: fmt::Write>(&self, f: &mut fmt::Formatter<W>) -> fmt::Result {
        match self {
            Refusal::Memory => write!(f, "memory could not be allocated"),
            Refusal::Size => write!(f, "more than 2^60 pairs"),
        }
    }
}

impl Error for Refusal {}

impl From<AllocError> for Refusal {
    ghost from_gives = { λ _ why. why ≡ Memory };

    fn from(_error: AllocError) -> Refusal {
        Refusal::Memory
    }
}

// What `Vec::push` and its like fail with. The value that was not stored is dropped.
impl<T: Drop> From<AllocFailed<T>> for Refusal {
    ghost from_gives = { λ _ why. why ≡ Memory };

    fn from(_failed: AllocFailed<T>) -> Refusal {
        Refusal::Memory
    }
}

// `AllocError` has one value.
impl From<Refusal> for AllocError {
    fn from(_why: Refusal) -> AllocError {
        AllocError
    }
}

impl From<Refusal> for io::Error {
    ghost from_gives = { λ why error. error_kind error ≡ error_kind_of why };

    fn from(why: Refusal) -> io::Error {
        match why {
            Refusal::Memory => {
                io::Error::new(ErrorKind::OutOfMemory, "memory could not be allocated")
            }
            Refusal::Size => io::Error::new(ErrorKind::InvalidInput, "more than 2^60 pairs"),
        }
    }
}

/// Refuses a number of pairs that no map may hold. It is called before memory is allocated.
pub fn check_size(needed: usize) -> Result<(), Refusal>
    ensures ok { OnOk result (needed ≤ 2 ^ 60) }
    ensures err { IfErr result (λ why. (why ≡ Size) × (2 ^ 60 < needed)) }
{
    if needed > MOST_PAIRS {
        return Err(Refusal::Size);
    }
    Ok(())
}
