//! A map may cross threads: it is `Send` and `Sync` where its keys, its values, its builder and its limit are, and each
//! `AtMost<N>` is. No thread is started here; the bounds are those of `std::thread::spawn` and of what threads share.

ghost use Rattle.std.specs.Prelude.{◌≡◌};
ghost use Rattle.halfbrown.specs.Pairs.{value_of};

use halfbrown::{HashMap, KeyHasher, Limit, LimitedHashMap};
use std::hash::Hash;
use std::sync::{Arc, Mutex};

/// Moves a value as a thread that takes it does.
fn sent<T: Send>(value: T) -> T
    ensures { result ≡ value }
{
    value
}

/// Reads a value as threads that share it do.
fn shared<T: Sync>(value: &T) -> &T
    ensures { result.now ≡ value.now }
{
    value
}

/// A map moves into a thread, with all that is known of it.
pub fn moved<K: Eq + Hash + Send, V: Send, S: KeyHasher<K> + Send, L: Limit + Send>(
    map: LimitedHashMap<K, V, S, L>,
) -> LimitedHashMap<K, V, S, L>
    ensures { result ≡ map }
{
    sent(map)
}

/// Threads read one map.
pub fn read_by_threads<
    K: Eq + Hash + Sync,
    V: Copy + Sync,
    S: KeyHasher<K> + Sync,
    L: Limit + Sync,
>(map: &LimitedHashMap<K, V, S, L>, key: &K) -> Option<V>
    ensures { result ≡ value_of K.eq map.now.pairs key.now }
{
    shared(map).get(key).copied()
}

/// A map of texts may be behind an `Arc`, and behind a lock that threads share.
pub fn behind_pointers(
    counted: Arc<HashMap<String, u32>>,
    locked: &Mutex<HashMap<u64, u32>>,
) -> Arc<HashMap<String, u32>> {
    let _locked = shared(locked);
    sent(counted)
}
