//! Squares that are computed once: a struct that keeps a fact of its map.
ghost use Rattle.std.specs.Prelude.{◌≡◌, ◌*◌, nat_eq, Some, IfErr, IfOk, OnOk, OnErr};
ghost use Rattle.std.proofs.Props.{props};
ghost use Rattle.halfbrown.specs.Growth.{IsRefusal, capacity_for_new_key};
ghost use Rattle.halfbrown.specs.Pairs.{value_of};
ghost use Rattle.half_uses.specs.Memo.{AreSquares};

use halfbrown::{HashMap, RawEntryMut, Refusal};
use std::alloc::Global;
use std::hash::BuildHasher;

/// Squares of numbers. Each that is known is right, whatever was done before.
///
/// ```
/// let mut squares = Squares::new(alloc);
/// let square = squares.of(12)?; // 144, which is computed
/// let again = squares.of(12)?; // 144, which is found
/// ```
#[derive(Drop)]
pub struct Squares {
    known: HashMap<u32, u64>,
    ghost right: { AreSquares known.pairs } by { Prim.hlevel props },
}

impl Squares {
    /// No squares. It takes no memory.
    pub fn new(alloc: Global) -> Squares {
        Squares {
            known: HashMap::new(alloc),
        }
    }

    /// The square of a number, which is computed and stored where it is not known. The number is hashed once, and all known ones
    /// when their map becomes a table. Fails only where the map needs memory for one square more, also where this one is known,
    /// and then nothing changes.
    pub fn of(&mut self, n: u32) -> Result<u64, Refusal>
        ensures square { IfOk result (λ square. square ≡ n * n) }
        ensures stored { OnOk result (value_of nat_eq self.new.known.pairs n ≡ Some (n * n)) }
        ensures refused { IfErr result (IsRefusal (capacity_for_new_key 32 self.old.known)) }
        ensures err { OnErr result (self.new.known ≡ self.old.known) }
    {
        let hash = self.known.hasher().hash_one(&n);
        match self
            .known
            .raw_entry_mut()?
            .from_key_hashed_nocheck(hash, &n)
        {
            RawEntryMut::Occupied(entry) => Ok(*entry.into_mut()),
            RawEntryMut::Vacant(entry) => {
                let square = n as u64 * n as u64;
                entry.insert_entry_hashed_nocheck(hash, n, square);
                Ok(square)
            }
        }
    }
}
