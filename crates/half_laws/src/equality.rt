//! What holds of equality. These functions do nothing: the laws are their contracts.
ghost use Rattle.half_laws.specs.ComparisonLaws.{ReflexiveLaw, SymmetricLaw, TransitiveLaw, ValuesLaw};
ghost use Rattle.half_laws.specs.ComparisonLaws.{PairsLaw, OrderLaw, ComparisonLaw};

use halfbrown::KeyHasher;
use std::hash::Hash;

/// Holding the same pairs is an equivalence of maps if equality of their values is one, also across limits, builders
/// and forms. None of these decides it, nor does the order of the pairs. The value of each key decides it, or, if the
/// lengths agree, that one map holds each pair of the other.
pub fn equality_of_maps<K: Eq + Hash, V: PartialEq>()
    ensures reflexive { ReflexiveLaw K.eq V.eq }
    ensures symmetric { SymmetricLaw K.eq V.eq }
    ensures transitive { TransitiveLaw K.eq V.eq }
    ensures values { ValuesLaw K.eq V.eq }
    ensures pairs { PairsLaw K.eq V.eq }
    ensures order { OrderLaw K.eq V.eq }
{}

/// What a comparison of two maps costs. If the lengths differ, it costs nothing. Otherwise there is at most one search
/// for each pair of the left map, and exactly one if the maps are the same. A search in a vector hashes nothing and
/// reads no bucket, and a search in a table hashes once. In both forms the number of compared keys is at most the
/// product of the lengths.
pub fn cost_of_equality<K: Eq + Hash, V: PartialEq, S: KeyHasher<K>>()
    ensures { ComparisonLaw K.eq V.eq S.hash }
{}
