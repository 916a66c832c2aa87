//! Keeping the pairs that a closure accepts, in the columns and in the table over them.
#![tactic(auto)]

ghost use Rattle.std.specs.Prelude.{◌≡◌, ℕ, ◌≤◌, length, map};
ghost use Rattle.std.specs.Map.{keys_of};
ghost use Rattle.std.specs.Map.Calls.{CalledAtPair, TakesPair, CallableOnEachPair, RetainsPairs};

use crate::table::memory::rehash;
use crate::{Columns, Table};

/// Calls `f` at each pair of these columns, and keeps those that it accepts, as `Columns::retain` does. The table over them has as
/// many buckets as before, and no memory is taken. If a pair is gone, all buckets are emptied, and each pair that is kept is
/// probed for anew.
pub(super) fn retain_in_table<K: Drop, V: Drop, F: FnMut(&K, &mut V) -> bool>(
    columns: &mut Columns<K, V>,
    table: &mut Table,
    f: F,
)
    requires len { length table.old.hashes ≡ length columns.old.pairs }
    requires callable { CallableOnEachPair (CalledAtPair F.FnMut) (TakesPair F.FnMut) f
        columns.old.pairs }
    ensures kept { RetainsPairs (CalledAtPair F.FnMut) f columns.old.pairs columns.new.pairs }
    ensures len { length columns.new.pairs ≤ length columns.old.pairs }
    ensures capacity { columns.new.capacity ≡ columns.old.capacity }
    ensures hashes { (hash : K → ℕ) → table.old.hashes ≡ map hash (keys_of columns.old.pairs)
        → table.new.hashes ≡ map hash (keys_of columns.new.pairs) }
    ensures even { length table.new.hashes ≡ length columns.new.pairs }
    ensures buckets { table.new.buckets ≡ table.old.buckets }
{
    columns.retain(table.hashes.as_mut_slice(), f);
    if columns.len() == table.hashes.len() {
        return;
    }
    table.hashes.truncate(columns.len());
    table.buckets.clear();
    rehash(&mut table.buckets, table.hashes.as_slice());
}
