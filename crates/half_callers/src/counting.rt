//! What callers build in a loop: counts of words, and values summed or gathered by key.
ghost use Rattle.std.specs.Prelude.{◌≡◌, ℕ, ◌^◌, ◌<◌, List, true, IfOk, IfSome, filter, is_some, map, sum};
ghost use Rattle.std.specs.Map.{values_of};
ghost use Rattle.std.specs.Str.{bytes_eq};
ghost use Rattle.std.specs.String.{string_bytes};
ghost use Rattle.halfbrown.specs.ByKey.{CountsEach, GroupsEach, SumsEach, keyed_by};

use halfbrown::{HashMap, Refusal};
use std::alloc::Global;
use std::hash::Hash;

/// How often each word stands among these. The words are held in order of their first occurrence.
pub fn count_words<K: Eq + Hash + Copy>(
    alloc: Global,
    words: &[K],
) -> Result<HashMap<K, u64>, Refusal>
    ensures { IfOk result (λ counts. CountsEach K.eq words.now counts.pairs) }
{
    let mut counts = HashMap::new(alloc);
    for word in words {
        *counts.entry(*word)?.or_insert(0) += 1;
    }
    Ok(counts)
}

/// The values of each key, in order. The keys are held in order of their first occurrence.
pub fn group<K: Eq + Hash + Copy, V: Copy>(
    alloc: Global,
    items: &[(K, V)],
) -> Result<HashMap<K, Vec<V>>, Refusal>
    ensures { IfOk result (λ groups. GroupsEach K.eq (λ values. values.items) items.now groups.pairs) }
{
    let mut groups = HashMap::new(alloc);
    for (key, value) in items {
        groups.entry(*key)?.or_insert(Vec::new(alloc)).push(*value)?;
    }
    Ok(groups)
}

/// How often each text stands among these. The map owns its keys, and the clause speaks of every text, by its bytes.
pub fn count_texts(alloc: Global, words: &[&str]) -> Result<HashMap<String, u64>, Refusal>
    ensures { IfOk result (λ counts. CountsEach bytes_eq (map (λ word. word.now) words.now)
        (keyed_by string_bytes counts.pairs)) }
{
    let mut counts = HashMap::new(alloc);
    for word in words {
        *counts.entry(String::from_str(alloc, word)?)?.or_insert(0) += 1;
    }
    Ok(counts)
}

/// The sum of the amounts of each key, where each fits. The keys are held in order of their first occurrence.
pub fn sum_by_key<K: Eq + Hash + Copy>(
    alloc: Global,
    items: &[(K, u64)],
) -> Result<HashMap<K, u64>, Refusal>
    requires fits { (key : K) → sum (values_of (filter (λ item. K.eq key item.0) items.now)) < 2 ^ 64 }
    ensures { IfOk result (λ sums. SumsEach K.eq items.now sums.pairs) }
{
    let mut sums = HashMap::new(alloc);
    for (key, amount) in items {
        *sums.entry(*key)?.or_insert(0) += *amount;
    }
    Ok(sums)
}

/// The sum of the amounts of each text, or none where one does not fit. The map owns its keys, and the clauses speak of every text.
pub fn sum_by_text(
    alloc: Global,
    rows: &[(&str, u64)],
) -> Result<Option<HashMap<String, u64>>, Refusal>
    ensures sums { IfOk result (λ found. IfSome found (λ sums. SumsEach bytes_eq (map (λ row. (row.0.now, row.1)) rows.now)
        (keyed_by string_bytes sums.pairs))) }
    ensures fits { ((text : List ℕ) → sum (values_of (filter (λ item. bytes_eq text item.0)
        (map (λ row. (row.0.now, row.1)) rows.now))) < 2 ^ 64) → IfOk result (λ sums. is_some sums ≡ true) }
{
    let mut sums = HashMap::new(alloc);
    for (name, amount) in rows {
        let sum: &mut u64 = sums.entry(String::from_str(alloc, name)?)?.or_insert(0);
        let Some(more) = sum.checked_add(*amount) else {
            return Ok(None);
        };
        *sum = more;
    }
    Ok(Some(sums))
}
