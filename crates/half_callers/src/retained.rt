//! What callers build on `retain`, proved from its public contract only: a stock from which what is sold out goes, and prices
//! that are doubled.
ghost use Rattle.std.specs.Prelude.{◌≡◌, ◌*◌, ◌^◌, ◌<◌, nat_le, filter, map};
ghost use Rattle.std.specs.List.{All};

use halfbrown::{Limit, LimitedHashMap};
use std::hash::{BuildHasher, Hash};

/// Keeps the goods whose count is at least this, in their order.
#[tactic(auto, using(std::proofs::lemmas::Map::Made::filter_same_pairs))]
pub fn keep_from<K: Eq + Hash + Drop, S: BuildHasher, L: Limit>(
    stock: &mut LimitedHashMap<K, u64, S, L>,
    least: u64,
)
    ensures kept { stock.new.pairs ≡ filter (λ pair. nat_le least pair.1) stock.old.pairs }
    ensures form { stock.new.is_vec ≡ stock.old.is_vec }
    ensures capacity { stock.new.capacity ≡ stock.old.capacity }
{
    stock.retain(|_, count| least <= *count);
}

/// Doubles each price. Each is small enough.
pub fn double_all<K: Eq + Hash + Drop, S: BuildHasher, L: Limit>(
    prices: &mut LimitedHashMap<K, u64, S, L>,
)
    requires small { All (λ pair. pair.1 < 2 ^ 63) prices.old.pairs }
    ensures doubled { prices.new.pairs ≡ map (λ pair. (pair.0, pair.1 * 2)) prices.old.pairs }
    ensures form { prices.new.is_vec ≡ prices.old.is_vec }
{
    prices.retain(|_, price| {
        *price *= 2;
        true
    });
}
