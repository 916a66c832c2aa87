//! Structs that keep a fact of their map: a clone, what serde reads, and a write by `get_mut`.
ghost use Rattle.std.specs.Prelude.{◌≡◌, ◌≢◌, ◌+◌, ◌<◌, ◌≤◌, ◌^◌, ℕ, [], true, false, length, nat_eq, unwrap_or, Some, IfOk, OnErr};
ghost use Rattle.std.proofs.Props.{props};
ghost use Rattle.halfbrown.specs.Pairs.{holds, value_of};

use halfbrown::HashMap;
use serde::Deserialize;
use std::alloc::{AllocError, Global};

/// The table of each guest. There are no more guests than seats.
#[derive(Debug, Drop, PartialEq, Deserialize)]
#[serde(try_from = "Draft")]
pub struct Guests {
    tables: HashMap<u64, u32>,
    seats: usize,
    ghost seated: { length tables.pairs ≤ seats },
}

impl Clone for Guests {
    ghost is_clone = { λ guests it. (it.tables.pairs ≡ guests.tables.pairs) × (it.seats ≡ guests.seats) };

    fn clone(&self) -> Result<Guests, AllocError> {
        let tables = self.tables.clone()?;
        Ok(Guests {
            tables,
            seats: self.seats,
        })
    }
}

/// Guests as a text has them, who may be too many.
#[derive(Drop, Deserialize)]
pub struct Draft {
    #[serde(with = "half_serde::as_map")]
    tables: HashMap<u64, u32>,
    seats: usize,
}

impl TryFrom<Draft> for Guests {
    type Error = &'static str;

    fn try_from(draft: Draft) -> Result<Guests, &'static str>
        ensures ok { IfOk result (λ guests. (guests.tables ≡ draft.tables) × (guests.seats ≡ draft.seats)) }
        ensures err { OnErr result (draft.seats < length draft.tables.pairs) }
    {
        let Draft { tables, seats } = draft;
        if tables.len() > seats {
            return Err("more guests than seats");
        }
        Ok(Guests { tables, seats })
    }
}

/// How many there are of each good that is in stock: at least one.
#[derive(Drop)]
pub struct Stock {
    counts: HashMap<u64, u64>,
    ghost stocked: { (good : ℕ) → value_of nat_eq counts.pairs good ≢ Some 0 } by { Prim.hlevel props },
}

impl Stock {
    /// A stock without goods.
    pub fn new(alloc: Global) -> Stock
        ensures { result.counts.pairs ≡ [] }
    {
        Stock {
            counts: HashMap::new(alloc),
        }
    }

    /// Adds to the count of a good, and returns whether it is in stock. If it is not, nothing is added.
    pub fn add(&mut self, good: u64, more: u64) -> bool
        requires { unwrap_or (value_of nat_eq self.old.counts.pairs good) 0 + more < 2 ^ 64 }
        ensures held { result ≡ holds nat_eq self.old.counts.pairs good }
        ensures added { result ≡ true → value_of nat_eq self.new.counts.pairs good
            ≡ Some (unwrap_or (value_of nat_eq self.old.counts.pairs good) 0 + more) }
        ensures missing { result ≡ false → holds nat_eq self.new.counts.pairs good ≡ false }
        ensures others { (other : ℕ) → nat_eq good other ≡ false
            → value_of nat_eq self.new.counts.pairs other ≡ value_of nat_eq self.old.counts.pairs other }
    {
        if let Some(count) = self.counts.get_mut(&good) {
            *count += more;
            return true;
        }
        false
    }
}
