//! The rules for growth: how many buckets a table has, how many pairs it may hold, and how far a vector grows.
//!
//! A table has no buckets, or a power of two from 4 on. The load factor is three quarters: the capacity is three quarters
//! of the buckets, so at least one bucket stays empty and each probe ends.
ghost use Rattle.std.specs.Prelude.{◌≡◌, ◌^◌, ◌≤◌};
ghost use Rattle.half_store.specs.Capacity.{capacity_of, least_buckets, IsLeastBucketCount};

/// The most pairs that a map may hold.
pub const MOST_PAIRS: usize = 1 << 60;

/// The load factor: one bucket of this many stays empty.
const BUCKETS_PER_EMPTY: usize = 4;

/// The fewest buckets of a table that has any.
const LEAST_BUCKETS: usize = 4;

/// The capacity of this many buckets: 0, 3, 6, 12, 24 for 0, 4, 8, 16, 32.
#[inline(always)]
pub fn capacity_of(buckets: usize) -> usize
    ensures { result ≡ capacity_of buckets }
{
    buckets - buckets / BUCKETS_PER_EMPTY
}

/// The least bucket count whose capacity is enough for this many pairs.
pub fn least_buckets(needed: usize) -> usize
    requires { needed ≤ 2 ^ 62 }
    ensures value { result ≡ least_buckets needed }
    ensures least { IsLeastBucketCount needed result }
{
    if needed == 0 {
        return 0;
    }
    let mut buckets = LEAST_BUCKETS;
    while capacity_of(buckets) < needed {
        buckets *= 2;
    }
    buckets
}
