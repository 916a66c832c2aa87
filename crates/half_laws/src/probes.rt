//! What holds of `reach` for every list of held hashes. These functions do nothing: the laws are their contracts.
#![tactic(auto, using(crate::proofs::lemmas::probes::probe_laws))]

ghost use Rattle.half_laws.specs.ProbeLaws.{ReachHistoryLaw, NoBucketsLaw, NothingHeldLaw, OneBucketLaw, SharedHomeLaw};
ghost use Rattle.half_laws.specs.ProbeLaws.{ShortLaw, OnceRoundLaw, StopsLaw, CrowdingLaw};

/// The held hashes and the number of buckets decide how many buckets a probe reads. Their order decides nothing, and so
/// neither does what was added and removed before.
pub fn reach_without_history()
    ensures { ReachHistoryLaw }
{}

/// A probe reads one bucket if nothing is held, and exactly if the home bucket is not loaded. It reads at most one
/// bucket more than there are held hashes, and no more than there are buckets.
pub fn bounds_of_reach()
    ensures no_buckets { NoBucketsLaw }
    ensures nothing_held { NothingHeldLaw }
    ensures one_bucket { OneBucketLaw }
    ensures shared_home { SharedHomeLaw }
    ensures short { ShortLaw }
    ensures once_round { OnceRoundLaw }
{}

/// A probe passes loaded buckets and ends at the first one that is not loaded. The buckets that it passes lie in a stretch
/// of neighbouring buckets. The stretch is not all buckets, and is home to at least as many held hashes as it has buckets.
pub fn crowding_of_a_probe()
    ensures stops { StopsLaw }
    ensures crowded { CrowdingLaw }
{}
