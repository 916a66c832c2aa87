//! Keeping the pairs that a closure accepts.
ghost use Rattle.std.specs.Prelude.{◌≡◌, ℕ, ◌≤◌, length, map, take};
ghost use Rattle.std.specs.List.{zip};
ghost use Rattle.std.specs.Map.{keys_of};
ghost use Rattle.std.specs.Map.Calls.{CalledAtPair, TakesPair, CallableOnEachPair, RetainsPairs};

use super::Columns;

impl<K, V> Columns<K, V> {
    /// Calls `f` at each pair, in order, and keeps those that it accepts, in their order, with the values that it left. If
    /// there is a column of hashes next to the pairs, those of the pairs that are kept come first in it, in their order. The
    /// capacity stays, and no memory is taken.
    #[inline(always)]
    pub fn retain<F: FnMut(&K, &mut V) -> bool>(&mut self, hashes: &mut [u64], f: F)
    where
        K: Drop,
        V: Drop,
        requires { CallableOnEachPair (CalledAtPair F.FnMut) (TakesPair F.FnMut) f self.old.pairs }
        ensures kept { RetainsPairs (CalledAtPair F.FnMut) f self.old.pairs self.new.pairs }
        ensures len { length self.new.pairs ≤ length self.old.pairs }
        ensures capacity { self.new.capacity ≡ self.old.capacity }
        ensures hashes { (hash : K → ℕ) → hashes.old ≡ map hash (keys_of self.old.pairs)
            → take (length self.new.pairs) hashes.new ≡ map hash (keys_of self.new.pairs) }
        ensures same { length self.new.pairs ≡ length self.old.pairs → hashes.new ≡ hashes.old }
    {
        let kept = retain_in_columns(
            self.keys.as_mut_slice(),
            self.values.as_mut_slice(),
            hashes,
            f,
        );
        self.keys.truncate(kept);
        self.values.truncate(kept);
    }
}

// Moves the pairs that `f` accepts to the front, in their order, and returns how many there are. Their hashes, if there
// are any, move with them.
fn retain_in_columns<K, V, F: FnMut(&K, &mut V) -> bool>(
    keys: &mut [K],
    values: &mut [V],
    hashes: &mut [u64],
    mut f: F,
) -> usize
    requires even { length values.old ≡ length keys.old }
    requires callable { CallableOnEachPair (CalledAtPair F.FnMut) (TakesPair F.FnMut) f
        (zip keys.old values.old) }
    ensures kept { RetainsPairs (CalledAtPair F.FnMut) f (zip keys.old values.old)
        (zip (take result keys.new) (take result values.new)) }
    ensures within { result ≤ length keys.old }
    ensures hashes { (hash : K → ℕ) → hashes.old ≡ map hash keys.old
        → take result hashes.new ≡ map hash (take result keys.new) }
    ensures same { result ≡ length keys.old → hashes.new ≡ hashes.old }
{
    let mut kept = 0;
    for index in 0..keys.len() {
        if f(&keys[index], &mut values[index]) {
            keys.swap(kept, index);
            values.swap(kept, index);
            if index < hashes.len() {
                hashes.swap(kept, index);
            }
            kept += 1;
        }
    }
    kept
}
