//! What an insertion does before it writes: the switch, the search, and capacity for one pair more.
ghost use Rattle.std.specs.Prelude.{◌≡◌, ◌<◌, false, length, OnOk, IfOk, is_ok};
ghost use Rattle.half_store.specs.Work.{looked_more};
ghost use Rattle.halfbrown.specs.CostRanges.{TallyGrewBy};
ghost use Rattle.halfbrown.specs.Costs.{new_key_cost, IsInsertCost};
ghost use Rattle.halfbrown.specs.Growth.{is_full, capacity_for_growth, capacity_for_insert, capacity_for_new_key};
ghost use Rattle.halfbrown.specs.Pairs.{holds};
ghost use Rattle.halfbrown.specs.Insertion.{IsPreparedFor, MayInsertAt, PreparesOrRefuses, growth_probe_reads};
ghost use Rattle.halfbrown.specs.State.{IsVacancyIn};

use super::LimitedHashMap;
use crate::{KeyHasher, Limit};
use half_store::{Found, Refusal, Tally, Vacancy};
use std::hash::Hash;

/// Where the pair of a key is, or may be added.
pub(crate) enum Place {
    /// The key is held, here.
    Held(Found),
    /// It is not held, and its pair may be added here.
    Vacant(Vacancy),
}

impl<K: Eq + Hash, V, S: KeyHasher<K>, L: Limit> LimitedHashMap<K, V, S, L> {
    /// Switches a full vector and searches for a key; if it is not held, makes capacity for its pair.
    #[inline(always)]
    pub(crate) fn prepare(&mut self, key: &K, tally: &mut Tally) -> Result<Place, Refusal>
        ensures prepares { PreparesOrRefuses L.LIMIT K.eq self.old
            (capacity_for_insert L.LIMIT K.eq self.old key.now) result self.new }
        ensures place { IfOk result (IsPreparedFor K.eq S.hash self.new key.now) }
        ensures cost { IsInsertCost L.LIMIT K.eq S.hash self.old key.now (is_ok result)
            tally.old tally.new }
    {
        self.switch_if_full(tally)?;
        match self.find(key, tally) {
            Ok(found) => Ok(Place::Held(found)),
            Err(vacancy) => Ok(Place::Vacant(self.reserve_one_keeping(vacancy, tally)?)),
        }
    }

    /// Switches a full vector and makes capacity for the pair of a key that is not held. In a table the key is hashed, and a
    /// vacancy probed for; no key is searched for.
    #[inline(always)]
    pub(crate) fn prepare_new(&mut self, key: &K, tally: &mut Tally) -> Result<Vacancy, Refusal>
        requires { holds K.eq self.old.pairs key.now ≡ false }
        ensures prepares { PreparesOrRefuses L.LIMIT K.eq self.old
            (capacity_for_new_key L.LIMIT self.old) result self.new }
        ensures vacancy { IfOk result (MayInsertAt K.eq S.hash self.new key.now) }
        ensures cost { TallyGrewBy (new_key_cost L.LIMIT K.eq S.hash self.old key.now (is_ok result))
            tally.old tally.new }
    {
        self.switch_if_full(tally)?;
        let hash = self.hash_in_table(key, tally);
        self.reserve_one()?;
        Ok(self.vacancy_for(hash, tally))
    }

    /// Makes the capacity enough for one pair more.
    #[inline(always)]
    pub(crate) fn reserve_one(&mut self) -> Result<(), Refusal>
        requires not_full { is_full L.LIMIT self.old ≡ false }
        ensures prepares { PreparesOrRefuses L.LIMIT K.eq self.old
            (capacity_for_growth self.old) result self.new }
        ensures capacity { OnOk result (length self.new.pairs < self.new.capacity) }
    {
        if self.store.has_capacity_left() {
            return Ok(());
        }
        self.reserve(1)
    }

    // Makes capacity for one pair. After growth it probes for the bucket again.
    #[inline(always)]
    fn reserve_one_keeping(
        &mut self,
        vacancy: Vacancy,
        tally: &mut Tally,
    ) -> Result<Vacancy, Refusal>
        requires not_full { is_full L.LIMIT self.old ≡ false }
        requires vacant { 0 < self.old.capacity
            → IsVacancyIn self.old vacancy.hash vacancy }
        ensures prepares { PreparesOrRefuses L.LIMIT K.eq self.old
            (capacity_for_growth self.old) result self.new }
        ensures capacity { OnOk result (length self.new.pairs < self.new.capacity) }
        ensures vacant { IfOk result
            (IsVacancyIn self.new vacancy.hash) }
        ensures work { tally.new ≡ looked_more (growth_probe_reads (S.hash self.old.builder) self.old vacancy.hash (is_ok result))
            tally.old }
    {
        if self.store.has_capacity_left() {
            return Ok(vacancy);
        }
        self.reserve(1)?;
        Ok(self.vacancy_for(vacancy.hash, tally))
    }
}
