//! How many buckets an unsuccessful probe reads on average, and how seldom it reads many, if all lists of held hashes are
//! equally likely. These functions do nothing: the laws are their contracts.
#![tactic(auto)]

ghost use Rattle.std.specs.Prelude.{◌≡◌, ◌+◌};
ghost use Rattle.half_mean.specs.Mean.{total_reach, total_filling, knuth_sum, MeanCasesLaw, ExactMeanLaw, KnuthRecursionLaw};
ghost use Rattle.half_mean.specs.Mean.{HomesMeanLaw, MeanReachLaw, HalfFullMeanLaw, CapacityMeanLaw, MeanFillingLaw, HalfFullFillingLaw};
ghost use Rattle.half_mean.specs.Mean.{CapacityFillingLaw, IsLeastOver, UpToHalf, UpToCapacity};
ghost use Rattle.half_mean.specs.Tail.{long_probes, long_tables, TailLaw, LongestLaw, LongProbesAreRare, LongTablesAreRare};

/// There are `hashes ^ held` lists of `held` hashes below `hashes`. A mean is the total over all cases by their number. The
/// cases of a probe are each list with each searched hash; those of a filling are each list with each of its insertions.
pub fn cases_of_the_means()
    ensures { MeanCasesLaw }
{}

/// Let all lists of held hashes be equally likely, and all searched hashes, and let `Q` be Knuth's sum
/// `1 + 2 * n / m + 3 * n * (n - 1) / m^2 + ..`. Then a probe that finds nothing in a table of `m` buckets with `n` pairs
/// reads `(1 + Q) / 2` buckets on average. That is at most `(1 + (m / (m - n))^2) / 2`: 2.5 if half of the buckets are
/// full, and 8.5 if the table has no capacity left.
#[tactic(auto, using(crate::proofs::lemmas::Means::mean_laws))]
pub fn mean_of_a_probe()
    ensures exact { ExactMeanLaw (λ k. k + 1) }
    ensures recursion { KnuthRecursionLaw (λ k. k + 1) }
    ensures homes { HomesMeanLaw }
    ensures bound { MeanReachLaw }
    ensures half_full { HalfFullMeanLaw 5 2 }
    ensures within_capacity { CapacityMeanLaw 17 2 }
{}

/// If all lists of hashes are equally likely, the insertions that put `n` pairs into an empty table of `m` buckets read at
/// most `(1 + m / (m - n)) / 2` buckets each on average. That is 1.5 up to half of the buckets, and 2.5 up to the
/// capacity.
#[tactic(auto, using(crate::proofs::lemmas::Filling::filling_laws))]
pub fn mean_of_a_filling()
    ensures bound { MeanFillingLaw }
    ensures half_full { HalfFullFillingLaw 3 2 }
    ensures within_capacity { CapacityFillingLaw 5 2 }
{}

/// If all lists of held hashes are equally likely, and all searched hashes, few probes that find nothing are long. Let at least
/// one bucket in `k` be empty, and let `D` be `k * (2 * k - 1)`: 6 up to the half of a table, and 28 up to its capacity. Then
/// more than `d` buckets are read in at most the part `(1 - 1 / D)^d` of all cases. So more than `4 * s` up to the half, or
/// `20 * s` up to the capacity, are read in at most one of `2^s` cases.
#[tactic(auto, using(crate::proofs::lemmas::TailLaws::tail_laws))]
pub fn tail_of_a_probe()
    ensures bound { TailLaw }
    ensures half_full { UpToHalf (LongProbesAreRare 4) }
    ensures within_capacity { UpToCapacity (LongProbesAreRare 20) }
{}

/// Few tables have a long probe: the bound is that of one probe times the number of buckets. In a table of `2^b` buckets no
/// probe reads more than `4 * (b + s)` up to the half, or `20 * (b + s)` up to the capacity. At most one of `2^s` lists is an
/// exception.
#[tactic(auto, using(crate::proofs::lemmas::TailLaws::tail_laws))]
pub fn longest_probe_of_a_table()
    ensures bound { LongestLaw (λ buckets. buckets) }
    ensures half_full { UpToHalf (LongTablesAreRare 4) }
    ensures within_capacity { UpToCapacity (LongTablesAreRare 20) }
{}

/// These are the least of all halves that hold: 2.5 and 8.5 of a probe, and 1.5 and 2.5 of a filling. Probes of tables of 16
/// and 512 buckets break smaller ones, and fillings of 4 and 64.
#[tactic(auto, using(crate::proofs::lemmas::Least::least_laws))]
pub fn bounds_are_least()
    ensures half_full { IsLeastOver HalfFullMeanLaw 5 2 }
    ensures within_capacity { IsLeastOver CapacityMeanLaw 17 2 }
    ensures filling { IsLeastOver CapacityFillingLaw 5 2 }
    ensures half_filling { IsLeastOver HalfFullFillingLaw 3 2 }
{}

/// The totals of small tables, added up one by one. Of probes: all those of the tables of 4 buckets with 2 and 3 pairs, and of
/// 8 with one. Of insertions: all that put 2 pairs into 4 buckets. 72 is half of `8^2` and of Knuth's sum, which is 80. Of the
/// 256 probes of 4 buckets with 3 pairs 128 read more than 2 buckets, and of the 16 tables with 2 pairs 12 have such a probe.
pub fn totals_of_small_tables()
    ensures two_of_four { total_reach 4 4 2 ≡ 108 }
    ensures three_of_four { total_reach 4 4 3 ≡ 640 }
    ensures one_of_eight { total_reach 8 8 1 ≡ 72 }
    ensures filled { total_filling 4 4 2 ≡ 36 }
    ensures long { long_probes 4 4 3 2 ≡ 128 }
    ensures longest { long_tables 4 4 2 2 ≡ 12 }
    ensures knuths_sum { knuth_sum (λ k. k + 1) 8 1 ≡ 80 }
{}
