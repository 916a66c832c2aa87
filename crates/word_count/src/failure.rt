//! Why nothing is printed.
ghost use Rattle.std.specs.Prelude.{◌≡◌};
ghost use Rattle.std.specs.Str.{valid_up_to};

use halfbrown::Refusal;
use std::alloc::AllocError;
use std::str::Utf8Error;
use std::{fmt, io};

/// Why the words were not counted, or not printed.
#[derive(Debug, Drop)]
pub(crate) enum Failure {
    /// The input is no UTF-8 from this byte on.
    NotText(usize),
    /// There is no memory for the words.
    Refused(Refusal),
    /// The input could not be read, or the output not written.
    Io(io::Error),
}

impl fmt::Display for Failure {
    fn fmt<W: fmt::Write>(&self, f: &mut fmt::Formatter<W>) -> fmt::Result {
        match self {
            Failure::NotText(at) => write!(f, "the input is no UTF-8 text: see byte {at}"),
            Failure::Refused(why) => write!(f, "{why}"),
            Failure::Io(error) => write!(f, "{error}"),
        }
    }
}

impl From<Utf8Error> for Failure {
    ghost use Rattle.word_count.specs.declared.failure.Failure.TheVariants.{NotText};

    ghost from_gives = { λ error failure. failure ≡ NotText (valid_up_to error) };

    fn from(error: Utf8Error) -> Failure {
        Failure::NotText(error.valid_up_to())
    }
}

impl From<Refusal> for Failure {
    ghost use Rattle.word_count.specs.declared.failure.Failure.TheVariants.{Refused};

    ghost from_gives = { λ why failure. failure ≡ Refused why };

    fn from(why: Refusal) -> Failure {
        Failure::Refused(why)
    }
}

impl From<AllocError> for Failure {
    ghost use Rattle.halfbrown.specs.Refusal.{Memory};
    ghost use Rattle.word_count.specs.declared.failure.Failure.TheVariants.{Refused};

    ghost from_gives = { λ _ failure. failure ≡ Refused Memory };

    fn from(_error: AllocError) -> Failure {
        Failure::Refused(Refusal::Memory)
    }
}

impl From<io::Error> for Failure {
    ghost use Rattle.word_count.specs.declared.failure.Failure.TheVariants.{Io};

    ghost from_gives = { λ error failure. failure ≡ Io error };

    fn from(error: io::Error) -> Failure {
        Failure::Io(error)
    }
}
