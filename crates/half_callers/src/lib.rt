//! What callers build on the map, and worked tables in numbers: proved from public contracts only.
#![tactic(auto)]

pub mod basics;
pub mod by_index;
pub mod collections;
pub mod copies;
pub mod costs;
pub mod counting;
pub mod drains;
pub mod entries;
pub mod equality;
pub mod errors;
pub mod guests;
pub mod iteration;
pub mod raw_entries;
pub mod retained;
pub mod texts;
pub mod threads;
pub mod worked;
