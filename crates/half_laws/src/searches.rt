//! What holds of every search of a map. These functions do nothing: the laws are their contracts.
ghost use Rattle.half_laws.specs.MapLaws.{HistoryLaw, InsertionHistoryLaw, CommandCostLaw, CommandHashesLaw, CommandBucketsLaw};
ghost use Rattle.half_laws.specs.MapLaws.{CrowdedSearchLaw, CrowdedInsertionLaw, CrowdedGrowthLaw, CrowdedUncheckedLaw, CrowdedProbeLaw};
ghost use Rattle.half_laws.specs.HitLaws.{HitLaw, HitTotalLaw, HitHistoryLaw, FillingOrderLaw, MeanHitIsAtMost};
ghost use Rattle.half_laws.specs.MeanLaws.{MissLaw, MissTotalLaw, MeanMissIsAtMost, InHalfFullTables, InTables};
ghost use Rattle.half_laws.specs.TailLaws.{LongMissesAreRare, MostReadsLaw, LongSearchesAreRare};

use halfbrown::{KeyHasher, Limit};
use std::hash::Hash;

/// Take two maps of the same form, capacity and builder that hold the same pairs in any order, whatever was inserted and
/// removed before. A search that finds nothing costs exactly the same in both: by a key or any query for one, and also by
/// a known hash. So does an insertion of a key that is not held. A command's cost has the same bounds in both, unless it
/// finds its key in a vector. Then the order of the pairs decides how many keys are compared, and nothing besides.
#[tactic(auto, using(crate::proofs::lemmas::searches::search_laws))]
pub fn cost_without_history<K: Eq + Hash, V, S: KeyHasher<K>, L: Limit>()
    ensures search { HistoryLaw V S.hash }
    ensures insertion { InsertionHistoryLaw V L.LIMIT K.eq S.hash }
    ensures command { CommandCostLaw V L.LIMIT K.eq S.hash }
    ensures hashes { CommandHashesLaw V L.LIMIT K.eq S.hash }
    ensures buckets { CommandBucketsLaw V L.LIMIT K.eq S.hash }
{}

/// The buckets that an insertion passes, or a search in a table by any query for a key, lie in a stretch of
/// neighbouring buckets. The stretch is not all buckets, and is home to at least as many held pairs as it has buckets.
/// An insertion that makes the table grow reads two unsuccessful probes, one before the growth and one after it, and
/// both pass only such buckets.
#[tactic(auto, using(crate::proofs::lemmas::searches::crowding_laws))]
pub fn crowding_of_a_search<K: Eq + Hash, V, S: KeyHasher<K>, L: Limit>()
    ensures search { CrowdedSearchLaw V L.LIMIT K.eq S.hash }
    ensures insertion { CrowdedInsertionLaw V L.LIMIT K.eq S.hash }
    ensures growth { CrowdedGrowthLaw V L.LIMIT K.eq S.hash }
    ensures unchecked { CrowdedUncheckedLaw V L.LIMIT K.eq S.hash }
    ensures probe { CrowdedProbeLaw V S.hash }
{}

/// How many buckets a search that finds nothing reads on average, by any query for a key. It is at most 2.5 in a table that is
/// half full, and 8.5 in any table. This takes all lists of the hashes of held keys as equally likely, and all searched hashes.
/// Only hashes appear in it, and no keys. `mean_of_a_probe` of `half_mean` has the exact mean.
#[tactic(auto, using(crate::proofs::lemmas::means::miss_laws))]
pub fn mean_of_a_miss<K: Eq + Hash, V, S: KeyHasher<K>>()
    ensures reads { MissLaw V S.hash }
    ensures total { MissTotalLaw }
    ensures half_full { InHalfFullTables (MeanMissIsAtMost 5 2) }
    ensures within_capacity { InTables (MeanMissIsAtMost 17 2) }
{}

/// How seldom a search that finds nothing reads many buckets, if all lists of the hashes of held keys are equally likely, and
/// all searched hashes. In at most one of `2^s` cases it reads more than `4 * s` if the table is at most half full, or `20 * s`
/// in any table. No clause says how likely a builder makes a list of hashes.
#[tactic(auto, using(crate::proofs::lemmas::tails::half_full_misses, crate::proofs::lemmas::tails::capacity_misses))]
pub fn tail_of_a_miss()
    ensures half_full { InHalfFullTables (LongMissesAreRare 4) }
    ensures within_capacity { InTables (LongMissesAreRare 20) }
{}

/// How seldom any search in a table reads many buckets, by any query for a key, whatever it finds and whatever was inserted and
/// removed before. In a table of at most `2^b` buckets no search reads more than `4 * (b + s)` if it is at most half full, and
/// `20 * (b + s)` otherwise. At most one of `2^s` lists of the hashes of held keys is an exception.
pub fn longest_search<K: Eq + Hash, V, S: KeyHasher<K>>()
    ensures reads { MostReadsLaw V S.hash }
    ensures half_full { InHalfFullTables (LongSearchesAreRare 4) }
    ensures within_capacity { InTables (LongSearchesAreRare 20) }
{}

/// A search in a table that finds its key reads as many buckets each time, by any query for the key. The searches for all held
/// keys, one each, together read exactly as many as the insertions of the pairs, in any order, into an empty table of the same
/// capacity. So they read as many in two maps of the same capacity and builder that hold the same pairs in any order, whatever
/// was inserted and removed before.
pub fn hits_without_history<K: Eq + Hash, V, S: KeyHasher<K>, L: Limit>()
    ensures hit { HitLaw V S.hash }
    ensures total { HitTotalLaw V S.hash }
    ensures order { FillingOrderLaw }
    ensures history { HitHistoryLaw V L.LIMIT K.eq S.hash }
{}

/// How many buckets a search that finds its key reads on average, over all held keys. It is at most 1.5 in a table that
/// is half full, and 2.5 in any table. This takes all lists of their hashes as equally likely. By `hits_without_history`
/// it is what the insertions that fill the table read; `mean_of_a_filling` of `half_mean` has the bound at other loads.
#[tactic(auto, using(crate::proofs::lemmas::hits::half_full_hit_law, crate::proofs::lemmas::hits::capacity_hit_law))]
pub fn mean_of_a_hit()
    ensures half_full { InHalfFullTables (MeanHitIsAtMost 3 2) }
    ensures within_capacity { InTables (MeanHitIsAtMost 5 2) }
{}
