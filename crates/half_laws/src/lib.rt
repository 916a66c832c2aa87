//! What holds of every run of commands on a map, of every search and probe, and of the equality of maps. The functions do
//! nothing: the laws are their contracts.
#![tactic(auto)]

pub mod equality;
pub mod probes;
pub mod runs;
pub mod searches;
