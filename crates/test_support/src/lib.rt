//! What the tests of the map, the witness and the timings share: builders whose hashes are known, buckets that count their
//! reads, and assertions.
#![tactic(auto)]

pub mod asserts;
pub mod builders;
pub mod probes;
