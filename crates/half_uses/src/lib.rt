//! Small libraries on the map, to be copied, each proved from its public contracts alone. The plainest first: `interner`, texts as
//! numbers; `words`, how often each word of a text comes; `object`, the members of an object of a document; `labels`, maps that
//! are keys, and sums by key; `scopes`, the names of a compiler; and `cache`, which hashes each key once and says so by a tally.
//! `memo`, `bounded_cache`, which forgets what was used longest ago, and `bank` show how a struct keeps a fact of its map.
#![tactic(auto)]

pub mod bank;
pub mod bounded_cache;
pub mod cache;
pub mod interner;
pub mod labels;
pub mod memo;
pub mod object;
pub mod scopes;
pub mod words;
