//! What callers build on clones and on pairs that are written out, proved from the public contracts only.
ghost use Rattle.std.specs.Prelude.{◌≡◌, ◌+◌, ◌-◌, ◌<◌, ◌^◌, true, [], ◌∷◌, IfOk};
ghost use Rattle.std.specs.String.{string_bytes};
ghost use Rattle.halfbrown.specs.ByKey.{keyed_by};

use halfbrown::{DefaultHashBuilder, HashMap, Refusal, SizedHashMap, hashmap};
use std::alloc::{AllocError, Global};

/// A key that may be copied.
#[derive(Clone, Copy, PartialEq, Eq, Hash)]
pub struct Port(pub u16);

/// A clone has the same pairs in the same order, and the same form.
pub fn saved(
    ports: &SizedHashMap<Port, bool, DefaultHashBuilder, 4>,
) -> Result<SizedHashMap<Port, bool, DefaultHashBuilder, 4>, Refusal>
    ensures pairs { IfOk result (λ m. m.pairs ≡ ports.now.pairs) }
    ensures form { IfOk result (λ m. m.is_vec ≡ ports.now.is_vec) }
{
    ports.clone()
}

/// What a service knows of its users: a struct with maps is cloned as any other.
#[derive(Clone, Drop)]
pub struct Users {
    pub ages: HashMap<u64, u32>,
    pub ids: HashMap<String, u64>,
    pub next_id: u64,
}

/// A clone has the same ages in the same order, the same names with their IDs, and the same next ID.
pub fn snapshot(users: &Users) -> Result<Users, AllocError>
    ensures ages { IfOk result (λ copy. copy.ages.pairs ≡ users.now.ages.pairs) }
    ensures ids { IfOk result (λ copy. keyed_by string_bytes copy.ids.pairs
        ≡ keyed_by string_bytes users.now.ids.pairs) }
    ensures next_id { IfOk result (λ copy. copy.next_id ≡ users.now.next_id) }
{
    let copy = users.clone()?;
    Ok(copy)
}

/// Two pairs. The expression for the allocator, the keys and the values are each evaluated once, in the order in which they are
/// written.
pub fn numbered(alloc: Global, number: &mut u64) -> Result<HashMap<u64, u64>, Refusal>
    requires { number.old < 2 ^ 64 - 5 }
    ensures pairs { IfOk result (λ m. m.pairs
        ≡ (number.old + 2, number.old + 3) ∷ (number.old + 4, number.old + 5) ∷ []) }
    ensures form { IfOk result (λ m. m.is_vec ≡ true) }
    ensures capacity { IfOk result (λ m. m.capacity ≡ 2) }
    ensures evaluated { number.new ≡ number.old + 5 }
{
    hashmap! {in { next(number); alloc }; next(number) => next(number), next(number) => next(number)}
}

// The next number.
fn next(number: &mut u64) -> u64
    requires { number.old < 2 ^ 64 - 1 }
    ensures value { result ≡ number.old + 1 }
    ensures kept { number.new ≡ number.old + 1 }
{
    *number += 1;
    *number
}
