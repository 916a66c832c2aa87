//! The account of the work that look-ups and insertions do.
ghost use Rattle.std.specs.Prelude.{◌≡◌, ℕ, ◌+◌};
ghost use Rattle.std.specs.Borrow.{ftrue};
ghost use Rattle.half_store.specs.Work.{no_work};

use std::marker::Model;

/// How often a key was hashed (`asked`), two keys were compared (`compared`), and a bucket was read (`looked`).
///
/// Contracts see these three numbers, which have no upper bound. When the program runs a tally takes no bytes, and
/// counting costs nothing.
#[derive(Drop)]
pub struct Tally {
    pub(crate) asked: Count,
    pub(crate) compared: Count,
    pub(crate) looked: Count,
}

impl Model for Tally {
    ghost use Rattle.half_store.specs.Work.{Work};

    ghost Value = { Work };

    ghost view = { λ t.
        record { asked = t.asked.number; compared = t.compared.number; looked = t.looked.number } };
}

const _: () = prove!(size_of::<Tally>() == 0);

/// A counted call whose count nobody asks for: `uncounted!(map.get_counted(key))` calls
/// `map.get_counted(key, &mut Tally::new())`. Each plain call is written so, and the libraries make a tally nowhere else.
#[macro_export]
macro_rules! uncounted {
    ($of:ident.$call:ident($($given:expr),*)) => {
        $of.$call($($given,)* &mut $crate::Tally::new())
    };
    ($($call:ident)::+($($given:expr),*)) => {
        $($call)::+($($given,)* &mut $crate::Tally::new())
    };
}

impl Tally {
    /// A tally that has seen no work.
    #[inline(always)]
    pub fn new() -> Tally
        ensures { result ≡ no_work }
    {
        Tally {
            asked: Count::new(),
            compared: Count::new(),
            looked: Count::new(),
        }
    }
}

/// A whole number without a bound in contracts, and no bytes when the program runs.
#[derive(Drop)]
pub struct Count {
    pub ghost number: { ℕ },
}

// It owns nothing; only the clauses of the two functions below tie the number to anything.
impl Model for Count {
    ghost also_owns = { λ _. ftrue };
}

impl Count {
    /// Starts at 0.
    #[inline(always)]
    pub(crate) fn new() -> Count
        ensures { result.number ≡ 0 }
    {
        Count {}
    }

    /// One more than this count.
    #[inline(always)]
    pub(crate) fn plus_one(&self) -> Count
        ensures { result.number ≡ self.now.number + 1 }
    {
        Count {}
    }
}
