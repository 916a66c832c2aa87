//! The first example of the README, word for word.

ghost use Rattle.std.specs.Prelude.{◌≡◌, IfOk};

use halfbrown::{Refused, SizedHashMap};
use std::alloc::Global;

/// Ada's age after her birthday.
pub fn birthday(alloc: Global) -> Result<u32, Refused<u64, u32>>
    ensures { IfOk result (λ age. age ≡ 37) }
{
    let mut ages = SizedHashMap::<u64, u32, _, 4>::new(alloc); // up to four pairs are a vector
    ages.insert(1, 36)?;
    ages.insert(2, 41)?;
    ages.insert(1, 37)?;
    Ok(ages[&1])
}
