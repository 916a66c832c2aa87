//! What callers say of texts: for every text, by its bytes, what a map of owned keys has.
ghost use Rattle.std.specs.Prelude.{◌≡◌, ℕ, List, true, false, IfOk, OnOk, Some, None, if◌then◌else◌};
ghost use Rattle.std.specs.Str.{bytes_eq};
ghost use Rattle.std.specs.String.{string_bytes};
ghost use Rattle.halfbrown.specs.ByKey.{keyed_by};
ghost use Rattle.halfbrown.specs.Pairs.{holds, value_of};
ghost use Rattle.halfbrown.specs.Updates.{HasPut, HasRemoved};

use halfbrown::{Entry, HashMap, Refusal};
use std::alloc::{AllocError, Global};

/// Stores an age under a name. What each text has is said of all texts, also of those that are no key.
pub fn store_named(ages: &mut HashMap<String, u32>, name: String, age: u32) -> Result<(), Refusal>
    ensures { OnOk result (HasPut bytes_eq (keyed_by string_bytes ages.old.pairs) (string_bytes name) age
        (keyed_by string_bytes ages.new.pairs)) }
{
    ages.insert(name, age)?;
    Ok(())
}

/// Stores an age under a copy of a name that is lent. Every other text has the age that it had.
#[tactic(auto, using(halfbrown::proofs::callers::Texts::text_facts))]
pub fn store_copied(
    alloc: Global,
    ages: &mut HashMap<String, u32>,
    name: &str,
    age: u32,
) -> Result<(), Refusal>
    ensures stored { OnOk result (value_of bytes_eq (keyed_by string_bytes ages.new.pairs) name.now ≡ Some age) }
    ensures others { OnOk result ((other : List ℕ) → bytes_eq name.now other ≡ false
        → value_of bytes_eq (keyed_by string_bytes ages.new.pairs) other
        ≡ value_of bytes_eq (keyed_by string_bytes ages.old.pairs) other) }
{
    ages.insert(String::from_str(alloc, name)?, age)?;
    Ok(())
}

/// Writes an age to a name that is held, and returns whether it is. Every other text has the age that it had.
#[tactic(auto, using(halfbrown::proofs::callers::Texts::text_facts))]
pub fn correct_named(ages: &mut HashMap<String, u32>, name: &str, age: u32) -> bool
    ensures written { result ≡ true
        → value_of bytes_eq (keyed_by string_bytes ages.new.pairs) name.now ≡ Some age }
    ensures others { (other : List ℕ) → bytes_eq name.now other ≡ false
        → value_of bytes_eq (keyed_by string_bytes ages.new.pairs) other
        ≡ value_of bytes_eq (keyed_by string_bytes ages.old.pairs) other }
{
    let Some(held) = ages.get_mut(name) else {
        return false;
    };
    *held = age;
    true
}

/// Removes the age of a name that is lent, and returns how many pairs are gone.
pub fn forget_named(ages: &mut HashMap<String, u32>, name: &str) -> usize
    ensures { HasRemoved bytes_eq (keyed_by string_bytes ages.old.pairs) name.now
        (keyed_by string_bytes ages.new.pairs) }
{
    let before = ages.len();
    ages.remove(name);
    before - ages.len()
}

/// The name, where it is not held: its entry, which is not used, hands it back.
pub fn free_name<'a>(
    ages: &mut HashMap<&'a str, u32>,
    name: &'a str,
) -> Result<Option<&'a str>, Refusal>
    ensures { IfOk result (λ free. free
        ≡ (if holds (λ one other. bytes_eq one.now other.now) ages.old.pairs name.entry then None else Some name.entry)) }
{
    match ages.entry(name)? {
        Entry::Occupied(_occupied) => Ok(None),
        Entry::Vacant(vacant) => Ok(Some(vacant.into_key())),
    }
}

/// All pairs, in a list.
pub fn drained<'a>(
    alloc: Global,
    ages: &mut HashMap<&'a str, u32>,
) -> Result<Vec<(&'a str, u32)>, AllocError>
    ensures all { IfOk result (λ pairs. pairs.items ≡ ages.old.pairs) }
{
    ages.drain().collect(alloc)
}
