//! A map as the value of a field: `#[serde(with = "half_serde::as_map")]`. The field stays a map, of any limit.
ghost use Rattle.std.specs.Prelude.{IfOk, OnOk};
ghost use Rattle.serde.specs.Event.{WritesEntry, WritesMap};
ghost use Rattle.half_serde.specs.Reading.{Anything, ReadsMap};

use crate::read::{Borrowing, read_map};
use halfbrown::{Limit, LimitedHashMap};
use serde::{Deserialize, Deserializer, Format, Serialize, Serializer};
use std::alloc::Global;
use std::hash::{BuildHasher, Hash};

/// Writes the pairs of a map, in order.
pub fn serialize<K: Serialize + Eq + Hash, V: Serialize, H: BuildHasher, L: Limit, S: Serializer>(
    map: &LimitedHashMap<K, V, H, L>,
    out: &mut S,
) -> Result<(), S::Error>
    ensures { OnOk result
        (WritesMap K.writes V.writes map.now.pairs (S.written out.old) (S.written out.new)) }
{
    out.begin_map(Some(map.len()))?;
    for (key, value) in map {
        write_entry(key, value, out)?;
    }
    out.end_map()
}

/// Writes a key between its two marks, and then its value.
fn write_entry<K: Serialize, V: Serialize, S: Serializer>(
    key: &K,
    value: &V,
    out: &mut S,
) -> Result<(), S::Error>
    ensures { OnOk result (WritesEntry K.writes V.writes (key.now, value.now) (S.written out.old)
        (S.written out.new)) }
{
    out.begin_key()?;
    key.serialize(out)?;
    out.end_key()?;
    value.serialize(out)
}

/// Reads a map, with the default of the builder's type. Each entry of the text is inserted, in order. If memory is
/// refused, it fails with the format's error for that.
///
/// The clause says that a map begins and ends, and that an entry begins for each pair that the reading gave. It leaves
/// open which pair that is, and how far its reading goes (`Anything`), since serde's traits do. The loop behind this is
/// proved for any reading of keys and values, and passes over no entry.
pub fn deserialize<
    'de,
    K: Deserialize<'de> + Eq + Hash,
    V: Deserialize<'de>,
    H: BuildHasher + Default + Drop,
    L: Limit,
    F: Format,
>(
    alloc: Global,
    from: &mut Deserializer<'de, '_, F>,
) -> Result<LimitedHashMap<K, V, H, L>, F::Error>
    ensures { IfOk result (λ map. ReadsMap F.gives Anything Anything K.eq H.is_default from.old map from.new) }
{
    read_map::<Borrowing, _, _, _, _, _>(alloc, from)
}
