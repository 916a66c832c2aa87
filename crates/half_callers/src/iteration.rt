//! What callers build on iteration, proved from its public contracts only: sums and counts of what is held, and values that
//! are all written.
ghost use Rattle.std.specs.Prelude.{◌≡◌, ◌+◌, ◌^◌, ◌<◌, ◌==◌, count_by, filter, map, min, nat_le, nat_lt, sum, IfOk};
ghost use Rattle.std.specs.List.{find, list_all, list_any};
ghost use Rattle.std.specs.Map.{keys_of, values_of};
ghost use Rattle.std.specs.Map.Iter.{deref_pair};
ghost use Rattle.std.specs.Option.{option_map};

use halfbrown::{Limit, LimitedHashMap};
use std::alloc::{AllocError, Global};
use std::hash::{BuildHasher, Hash};

/// The sum of all amounts.
pub fn total<K: Eq + Hash, S: BuildHasher, L: Limit>(ledger: &LimitedHashMap<K, u64, S, L>) -> u64
    requires { sum (values_of ledger.now.pairs) < 2 ^ 64 }
    ensures { result ≡ sum (values_of ledger.now.pairs) }
{
    ledger.values().sum()
}

/// The sum of all amounts, in a loop over the pairs.
pub fn total_by_pairs<K: Eq + Hash, S: BuildHasher, L: Limit>(
    ledger: &LimitedHashMap<K, u64, S, L>,
) -> u64
    requires { sum (values_of ledger.now.pairs) < 2 ^ 64 }
    ensures { result ≡ sum (values_of ledger.now.pairs) }
{
    let mut total = 0;
    for (_, amount) in ledger {
        total += *amount;
    }
    total
}

/// How many voted for the candidate.
pub fn votes_for<K: Eq + Hash, S: BuildHasher, L: Limit>(
    votes: &LimitedHashMap<K, u64, S, L>,
    candidate: u64,
) -> usize
    ensures { result ≡ count_by (λ vote. vote == candidate) (values_of votes.now.pairs) }
{
    votes.values().filter(|vote| **vote == candidate).count()
}

/// Whether all amounts are at least this one.
pub fn are_all_at_least<K: Eq + Hash, S: BuildHasher, L: Limit>(
    ledger: &LimitedHashMap<K, u64, S, L>,
    least: u64,
) -> bool
    ensures { result ≡ list_all (nat_le least) (values_of ledger.now.pairs) }
{
    ledger.values().all(|amount| *amount >= least)
}

/// Whether some amount is less than this one.
pub fn is_any_below<K: Eq + Hash, S: BuildHasher, L: Limit>(
    ledger: &LimitedHashMap<K, u64, S, L>,
    least: u64,
) -> bool
    ensures { result ≡ list_any (λ amount. nat_lt amount least) (values_of ledger.now.pairs) }
{
    ledger.values().any(|amount| *amount < least)
}

/// The first amount that is at least this one.
pub fn first_at_least<K: Eq + Hash, S: BuildHasher, L: Limit>(
    ledger: &LimitedHashMap<K, u64, S, L>,
    least: u64,
) -> Option<u64>
    ensures { result ≡ find (nat_le least) (values_of ledger.now.pairs) }
{
    ledger.values().copied().find(|amount| *amount >= least)
}

/// The first pair whose amount is above the least.
pub fn pair_above<K: Eq + Hash, S: BuildHasher, L: Limit>(
    ledger: &LimitedHashMap<K, u64, S, L>,
    least: u64,
) -> Option<(&K, &u64)>
    ensures { option_map deref_pair result ≡ find (λ pair. nat_lt least pair.1) ledger.now.pairs }
{
    ledger.iter().find(|pair| *pair.1 > least)
}

/// Whether the amount of each pair is at least this one.
pub fn are_pairs_at_least<K: Eq + Hash, S: BuildHasher, L: Limit>(
    ledger: &LimitedHashMap<K, u64, S, L>,
    least: u64,
) -> bool
    ensures { result ≡ list_all (λ pair. nat_le least pair.1) ledger.now.pairs }
{
    ledger.iter().all(|(_, amount)| least <= *amount)
}

/// Whether the amount of some pair is above this one.
pub fn is_pair_above<K: Eq + Hash, S: BuildHasher, L: Limit>(
    ledger: &LimitedHashMap<K, u64, S, L>,
    least: u64,
) -> bool
    ensures { result ≡ list_any (λ pair. nat_lt least pair.1) ledger.now.pairs }
{
    ledger.iter().any(|(_, amount)| least < *amount)
}

/// The keys of the amounts above the least, in order.
pub fn keys_above<S: BuildHasher, L: Limit>(
    alloc: Global,
    ledger: &LimitedHashMap<u64, u64, S, L>,
    least: u64,
) -> Result<Vec<u64>, AllocError>
    ensures { IfOk result (λ keys. keys.items ≡ keys_of (filter (λ p. nat_lt least p.1) ledger.now.pairs)) }
{
    ledger
        .iter()
        .map(|(key, amount)| (*key, *amount))
        .filter(|(_, amount)| *amount > least)
        .map(|(key, _)| key)
        .collect(alloc)
}

/// Lowers each value above the most to it.
pub fn cap_all<K: Eq + Hash, S: BuildHasher, L: Limit>(
    stock: &mut LimitedHashMap<K, u64, S, L>,
    most: u64,
)
    ensures values { values_of stock.new.pairs ≡ map (λ n. min n most) (values_of stock.old.pairs) }
    ensures keys { keys_of stock.new.pairs ≡ keys_of stock.old.pairs }
    ensures capacity { stock.new.capacity ≡ stock.old.capacity }
{
    for value in stock.values_slice_mut() {
        *value = (*value).min(most);
    }
}

/// Sets each value to zero.
pub fn reset_all<K: Eq + Hash, S: BuildHasher, L: Limit>(stock: &mut LimitedHashMap<K, u64, S, L>)
    ensures keys { keys_of stock.new.pairs ≡ keys_of stock.old.pairs }
    ensures form { stock.new.is_vec ≡ stock.old.is_vec }
    ensures capacity { stock.new.capacity ≡ stock.old.capacity }
    ensures builder { stock.new.builder ≡ stock.old.builder }
{
    for value in stock.values_mut() {
        *value = 0;
    }
    for (_, value) in stock.iter_mut() {
        *value = 0;
    }
}

/// Reads all of a map that might be written.
pub fn read_all<K: Eq + Hash, S: BuildHasher, L: Limit>(
    stock: &mut LimitedHashMap<K, u64, S, L>,
) -> u64
    ensures { stock.new ≡ stock.old }
{
    let mut last = 0;
    for (_, value) in &mut *stock {
        last = *value;
    }
    last
}
