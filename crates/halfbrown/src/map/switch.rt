//! The switch: a full vector becomes a table.
ghost use Rattle.std.specs.Prelude.{◌≡◌, ◌≤◌, ◌<◌, true, false, [], length, map};
ghost use Rattle.std.specs.Prelude.{OnOk, is_ok, if◌then◌else◌};
ghost use Rattle.half_store.specs.Capacity.{capacity_of};
ghost use Rattle.half_store.specs.Work.{asked_more};
ghost use Rattle.halfbrown.specs.Costs.{switch_asked};
ghost use Rattle.halfbrown.specs.Growth.{is_full, capacity_for_switch};
ghost use Rattle.halfbrown.specs.Insertion.{PreparesOrRefuses};

use super::LimitedHashMap;
use crate::{KeyHasher, Limit};
use half_store::{Refusal, Table, Tally, uncounted};
use std::hash::Hash;

impl<K: Eq + Hash, V, S: KeyHasher<K>, L: Limit> LimitedHashMap<K, V, S, L> {
    /// Makes a full vector a table. It gets capacity for all pairs and one more first, and only then hashes the keys.
    #[inline(always)]
    pub(crate) fn switch_if_full(&mut self, tally: &mut Tally) -> Result<(), Refusal>
        ensures prepares { PreparesOrRefuses L.LIMIT K.eq self.old
            (capacity_for_switch L.LIMIT self.old) result self.new }
        ensures same { is_full L.LIMIT self.old ≡ false → self.new ≡ self.old }
        ensures not_full { OnOk result (is_full L.LIMIT self.new ≡ false) }
        ensures capacity_left { OnOk result (is_full L.LIMIT self.old ≡ true
            → length self.new.pairs < self.new.capacity) }
        ensures work { tally.new ≡ (if is_ok result
            then asked_more (switch_asked L.LIMIT self.old) tally.old else tally.old) }
    {
        if !self.store.is_vec() || self.store.columns().len() < L::LIMIT {
            return Ok(());
        }
        self.switch(tally)
    }

    #[cold]
    #[inline(never)]
    fn switch(&mut self, tally: &mut Tally) -> Result<(), Refusal>
        requires { is_full L.LIMIT self.old ≡ true }
        ensures prepares { PreparesOrRefuses L.LIMIT K.eq self.old
            (capacity_for_switch L.LIMIT self.old) result self.new }
        ensures capacity_left { OnOk result (length self.new.pairs < self.new.capacity) }
        ensures work { tally.new ≡ (if is_ok result
            then asked_more (switch_asked L.LIMIT self.old) tally.old else tally.old) }
    {
        let needed = L::LIMIT.saturating_add(1);
        let mut table = self.store.new_table(needed)?;
        store_hashes(
            &self.builder,
            self.store.columns().keys(),
            &mut table,
            tally,
        );
        self.store.switch_to(table);
        Ok(())
    }
}

// Hashes each key, in order, and stores the hash. The buckets read for that are not counted.
fn store_hashes<K: Hash, S: KeyHasher<K>>(
    builder: &S,
    keys: &[K],
    table: &mut Table,
    tally: &mut Tally,
)
    requires empty { table.old.hashes ≡ [] }
    requires capacity { length keys.now ≤ capacity_of table.old.buckets }
    ensures hashes { table.new.hashes ≡ map (S.hash builder.now) keys.now }
    ensures buckets { table.new.buckets ≡ table.old.buckets }
    ensures work { tally.new ≡ asked_more (length keys.now) tally.old }
{
    for key in keys {
        let hash = builder.hash_key(key, tally);
        uncounted!(table.add(hash));
    }
}
