//! Keys and values that tell what becomes of them.
ghost use Rattle.std.specs.Prelude.{◌≡◌, ◌==◌};
ghost use Rattle.std.specs.Hash as fed;
ghost use Rattle.std.specs.Cmp.Rules.{comparing, hashing};
ghost use Rattle.std.proofs.Common.{rules, sym};

use halfbrown::{DefaultHashBuilder, EqualClone, Refusal, SizedHashMap};
use std::alloc::{AllocError, Global};
use std::cell::Cell;
use std::hash::{Hash, Hasher};

/// The digits of the items that were dropped, in order; how many items live, and how many clones of them are granted yet.
#[derive(Drop)]
pub struct Told {
    pub dropped: Cell<u64>,
    pub living: Cell<u64>,
    pub granted: Cell<u64>,
}

impl Told {
    pub fn new() -> Told {
        Told {
            dropped: Cell::new(0),
            living: Cell::new(0),
            granted: Cell::new(0),
        }
    }
}

/// A key or a value. Those of one ID are equal.
pub struct Item<'a> {
    pub id: u64,
    pub digit: u64,
    told: &'a Told,
}

impl<'a> Item<'a> {
    // Its ID is its digit.
    pub fn new(digit: u64, told: &'a Told) -> Item<'a> {
        Item::equal_to(digit, digit, told)
    }

    pub fn equal_to(id: u64, digit: u64, told: &'a Told) -> Item<'a>
        ensures { result.id ≡ id }
    {
        told.living.set(told.living.get().saturating_add(1));
        Item { id, digit, told }
    }
}

impl Drop for Item<'_> {
    fn drop(self) {
        let Item { id: _, digit, told } = self;
        told.living.set(told.living.get().saturating_sub(1));
        let digits = told.dropped.get().wrapping_mul(10);
        told.dropped.set(digits.wrapping_add(digit));
    }
}

impl Clone for Item<'_> {
    ghost is_clone = { λ a b. b.id ≡ a.id };

    fn clone(&self) -> Result<Self, AllocError> {
        let granted = self.told.granted.get();
        if granted == 0 {
            return Err(AllocError);
        }
        self.told.granted.set(granted - 1);
        Ok(Item::equal_to(self.id, self.digit, self.told))
    }
}

impl PartialEq for Item<'_> {
    ghost eq = { λ a b. a.id == b.id };

    ghost laws = { Prim.search (comparing, rules) };

    fn eq(&self, other: &Self) -> bool {
        self.id == other.id
    }
}

impl Eq for Item<'_> {
    ghost laws = { Prim.search (comparing, rules) };
}

impl EqualClone for Item<'_> {
    ghost clones_equal = { λ key copy same. Prim.search (rules, same, sym) };
}

impl Hash for Item<'_> {
    ghost hash_input = { λ key. fed.u64 key.id };

    ghost respects_eq = { Prim.search (hashing, rules) };

    fn hash<H: Hasher>(&self, state: &mut H) {
        self.id.hash(state);
    }
}

pub type Items<'a, const N: usize> = SizedHashMap<Item<'a>, Item<'a>, DefaultHashBuilder, N>;

// The keys 1, 2 and 3 with the values 4, 5 and 6.
pub fn filled<const N: usize>(alloc: Global, told: &Told) -> Result<Items<'_, N>, Refusal> {
    let mut map = Items::<'_, N>::new(alloc);
    for key in [1u64, 2, 3] {
        map.insert(Item::new(key, told), Item::new(key + 3, told))?;
    }
    Ok(map)
}
