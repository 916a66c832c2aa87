//! What holds of every run, in the words of the contract of `run`: steps lead from one map to another. These functions do
//! nothing: the laws are their contracts.
ghost use Rattle.half_laws.specs.RunLaws.{FormLaw, UnswitchedLaw, SwitchLaw, TableLaw, NothingHashedLaw, RepliesLaw, SplitLaw, JoinLaw};
ghost use Rattle.half_laws.specs.RunLaws.{HashesLaw, OneSwitchLaw, AmortizedHashesLaw, CapacityLaw, BytesLaw, MovesLaw};

use halfbrown::{KeyHasher, Limit};
use std::hash::Hash;

/// A run ends in the form that its last change of form left. That is a table after a pair was put into a full vector,
/// and a vector after a `Shrink` with no more pairs than the limit. If no command changed the form, it stays. A run
/// that begins with a vector and puts no pair into a full one hashes nothing.
#[tactic(auto, using(crate::proofs::lemmas::runs::Laws::step_laws))]
pub fn form_of_a_run<K: Eq + Hash, V, S: KeyHasher<K>, L: Limit>()
    ensures form { FormLaw V S L.LIMIT K.eq }
    ensures unswitched { UnswitchedLaw V S L.LIMIT K.eq S.hash }
{}

/// Without `Shrink` no run goes back: it ends with a vector exactly if it began with one and put no pair into a full
/// one. Then it has hashed nothing. Once a table, always a table.
#[tactic(auto, using(crate::proofs::lemmas::runs::Laws::step_laws))]
pub fn form_without_shrink<K: Eq + Hash, V, S: KeyHasher<K>, L: Limit>()
    ensures switched { SwitchLaw V S L.LIMIT K.eq }
    ensures stays_a_table { TableLaw V S L.LIMIT K.eq }
    ensures nothing_hashed { NothingHashedLaw V S L.LIMIT K.eq S.hash }
{}

/// The form, the pairs in order, the refusals and the form that each `Shrink` left decide the replies of a run.
/// Capacity, builder, hashes and history decide nothing.
#[tactic(auto, using(crate::proofs::lemmas::runs::Replies::replies_law))]
pub fn replies_of_a_run<K: Eq + Hash, V, S: KeyHasher<K>, L: Limit>()
    ensures { RepliesLaw V S L.LIMIT K.eq }
{}

/// A run of two lists of commands, one after the other, is a run of the first and then one of the second, and
/// conversely. The replies are those of both, and the costs add up.
#[tactic(auto, using(crate::proofs::lemmas::runs::Parts::split_law))]
pub fn parts_of_a_run<K: Eq + Hash, V, S: KeyHasher<K>, L: Limit>()
    ensures split { SplitLaw V L.LIMIT K.eq S.hash }
    ensures join { JoinLaw V L.LIMIT K.eq S.hash }
{}

/// A run hashes at most two keys for each command, and at each switch as many as the limit. Without `Shrink` it
/// switches at most once, however many commands come.
#[tactic(auto, using(crate::proofs::lemmas::runs::Laws::step_laws))]
pub fn hashes_of_a_run<K: Eq + Hash, V, S: KeyHasher<K>, L: Limit>()
    ensures hashes { HashesLaw V S L.LIMIT K.eq S.hash }
    ensures one_switch { OneSwitchLaw V S L.LIMIT K.eq }
    ensures amortized { AmortizedHashesLaw V S L.LIMIT K.eq S.hash }
{}

/// If at most `peak` pairs were held at once, a run without `Reserve` leaves a capacity of at most
/// `max(start, 2 × peak + 8)`. The memory is at most that of a table with that capacity. What was inserted and removed
/// on the way leaves no more.
#[tactic(auto, using(crate::proofs::lemmas::runs::Memory::capacity_law, crate::proofs::lemmas::runs::Memory::bytes_law))]
pub fn capacity_of_a_run<K: Eq + Hash, V, S: KeyHasher<K>, L: Limit>()
    ensures capacity { CapacityLaw V S L.LIMIT K.eq }
    ensures bytes { BytesLaw V S L.LIMIT K.eq }
{}

/// Without `Shrink` and `Reserve` the pairs that are held at each change of the capacity, by growth or the switch, add
/// up. In a run of n commands they are at most 2n + (pairs at the start) + 2 × limit. No clause says how many of them
/// the code then moves. What a removal moves is not counted.
#[tactic(auto, using(crate::proofs::lemmas::runs::Moves::moves_law))]
pub fn moves_of_a_run<K: Eq + Hash, V, S: KeyHasher<K>, L: Limit>()
    ensures { MovesLaw V S L.LIMIT K.eq }
{}
