//! What callers do with errors: `?` takes those of the map and those of std to one type.
ghost use Rattle.std.specs.Prelude.{◌≡◌, ◌<◌, ◌↔◌, Some, nat_eq, OnOk, OnErr, IfOk, IfErr, IsErrOf};
ghost use Rattle.std.specs.IoError.{error_kind};
ghost use Rattle.std.specs.declared.io.ErrorKind.TheVariants.{OutOfMemory};
ghost use Rattle.halfbrown.specs.Growth.{capacity_for_insert, IsRefusal};
ghost use Rattle.halfbrown.specs.Pairs.{put, value_of};

use halfbrown::{HashMap, Refusal};
use std::alloc::{AllocError, Global};
use std::io;

/// Stores an age. It fails only if the insertion needs more capacity. On error nothing changes.
pub fn store_age(ages: &mut HashMap<u64, u32>, id: u64, age: u32) -> Result<(), Refusal>
    ensures stored { OnOk result (ages.new.pairs ≡ put nat_eq ages.old.pairs id age) }
    ensures refused { IfErr result (λ why. IsRefusal (capacity_for_insert 32 nat_eq ages.old id) why) }
    ensures err { OnErr result (ages.new ≡ ages.old) }
{
    ages.insert(id, age)?;
    Ok(())
}

/// Ages for a caller whose error is std's: a capacity that may be refused, an insertion and an entry.
pub fn ages_of_std(alloc: Global) -> Result<HashMap<u64, u32>, AllocError>
    ensures ada { IfOk result (λ ages. value_of nat_eq ages.pairs 1 ≡ Some 36) }
    ensures ben { IfOk result (λ ages. value_of nat_eq ages.pairs 2 ≡ Some 41) }
{
    let mut ages = HashMap::with_capacity(alloc, 2)?;
    ages.insert(1, 36)?;
    *ages.entry(2)?.or_insert(0) = 41;
    Ok(ages)
}

/// Ages for a `main`, which returns `io::Result`: a map that may be refused, an insertion and an entry.
pub fn ages_of_main(alloc: Global) -> io::Result<HashMap<u64, u32>>
    ensures ada { IfOk result (λ ages. value_of nat_eq ages.pairs 1 ≡ Some 36) }
    ensures ben { IfOk result (λ ages. value_of nat_eq ages.pairs 2 ≡ Some 41) }
    ensures kind { IfErr result (λ error. error_kind error ≡ OutOfMemory) }
{
    let mut ages = HashMap::with_capacity(alloc, 2)?;
    ages.insert(1, 36)?;
    *ages.entry(2)?.or_insert(0) = 41;
    Ok(ages)
}

/// An error of a caller's own.
#[derive(Debug, Drop)]
pub enum AgeError {
    TooOld,
    Refused(Refusal),
}

/// Stores an age that a person may have. The error is made without an `impl From`, and the clauses of `insert` still tell it.
pub fn store_possible_age(ages: &mut HashMap<u64, u32>, id: u64, age: u32) -> Result<(), AgeError>
    ensures stored { OnOk result (ages.new.pairs ≡ put nat_eq ages.old.pairs id age) }
    ensures too_old { IsErrOf result AgeError.TooOld ↔ (150 < age) }
    ensures refused { (why : Refusal) → IsErrOf result (AgeError.Refused why)
        → IsRefusal (capacity_for_insert 32 nat_eq ages.old id) why }
    ensures err { OnErr result (ages.new ≡ ages.old) }
{
    if age > 150 {
        return Err(AgeError::TooOld);
    }
    ages.insert(id, age)
        .map_err(|refused| AgeError::Refused(refused.why))?;
    Ok(())
}

/// The same through an entry, whose error is matched.
pub fn store_possible_age_by_entry(
    ages: &mut HashMap<u64, u32>,
    id: u64,
    age: u32,
) -> Result<(), AgeError>
    ensures stored { OnOk result (ages.new.pairs ≡ put nat_eq ages.old.pairs id age) }
    ensures too_old { IsErrOf result AgeError.TooOld ↔ (150 < age) }
    ensures err { OnErr result (ages.new ≡ ages.old) }
{
    if age > 150 {
        return Err(AgeError::TooOld);
    }
    match ages.entry(id) {
        Ok(entry) => *entry.or_insert(0) = age,
        Err(refused) => return Err(AgeError::Refused(refused.why)),
    }
    Ok(())
}
