//! Assertions as functions, which fail a test by its result: each is proved once, and a test that calls them is proved in a
//! fraction of the time.

ghost use Rattle.std.specs.Prelude.{◌≡◌, true, OnOk};

use std::fmt::Debug;
use std::test::Fail;

/// Fails if the two differ.
pub fn assert_same<T: PartialEq + Debug + Drop>(
    actual: T,
    expected: T,
    what: &str,
) -> Result<(), Fail>
    ensures { OnOk result (T.eq actual expected ≡ true) }
{
    if actual == expected {
        return Ok(());
    }
    Err(Fail::new(format_args!("{what}: {actual:?}, and not {expected:?}")))
}

/// Fails if the two differ, and says at which key, call or the like.
pub fn assert_same_at<A: Debug + Drop, T: PartialEq + Debug + Drop>(
    at: A,
    actual: T,
    expected: T,
    what: &str,
) -> Result<(), Fail>
    ensures { OnOk result (T.eq actual expected ≡ true) }
{
    if actual == expected {
        return Ok(());
    }
    Err(Fail::new(format_args!("{at:?}: {what}: {actual:?}, and not {expected:?}")))
}
