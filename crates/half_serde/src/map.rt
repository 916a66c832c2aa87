//! A map that implements the traits itself.
ghost use Rattle.std.specs.Prelude.{◌≡◌, [], IfOk};
ghost use Rattle.serde.specs.Event.{WritesMap};
ghost use Rattle.half_serde.specs.Reading.{Anything, ReadsMap};

#[cfg(test)]
mod tests;

use crate::as_map;
use crate::read::{Owning, read_map};
use halfbrown::{AtMost, DefaultHashBuilder, KeyHasher, Limit, LimitedHashMap};
use serde::{
    Described, Deserialize, DeserializeOwned, Deserializer, Format, Serialize, Serializer,
};
use std::alloc::Global;
use std::default::MadeWith;
use std::hash::{BuildHasher, Hash};

/// A map whose keys are texts, as a JSON object has them.
pub type Object<V, S = DefaultHashBuilder, L = AtMost<32>> = Map<String, V, S, L>;

/// A map for places where a type has to implement the traits itself. The map is its only field:
///
/// ```
/// let mut stock: Object<u64> = serde_json::from_str(alloc, r#"{"pen":2}"#)?;
/// stock.0.insert(String::from_str(alloc, "ink")?, 1)?;
/// assert_eq!(rt; serde_json::to_string(alloc, &stock)?.as_str(), r#"{"pen":2,"ink":1}"#);
/// ```
///
/// A key is of any type that the format takes as one. In JSON it is a text, a number, a `char` or a `bool`.
#[derive(Debug, Drop, PartialEq)]
pub struct Map<K: Eq + Hash, V, S: KeyHasher<K> = DefaultHashBuilder, L: Limit = AtMost<32>>(
    pub LimitedHashMap<K, V, S, L>,
);

impl<K: Eq + Hash, V, S: KeyHasher<K>, L: Limit> From<LimitedHashMap<K, V, S, L>>
    for Map<K, V, S, L> {
    ghost from_gives = { λ map made. made.0 ≡ map };

    fn from(map: LimitedHashMap<K, V, S, L>) -> Self {
        Map(map)
    }
}

// For `#[serde(default)]`: a member that is missing is read as an empty map.
impl<K: Eq + Hash, V, S: KeyHasher<K> + Default, L: Limit> MadeWith<Global> for Map<K, V, S, L> {
    ghost is_made_with = { λ made. made.0.pairs ≡ [] };

    fn made_with(alloc: Global) -> Self {
        Map(LimitedHashMap::default(alloc))
    }
}

impl<K: Described + Eq + Hash, V: Described, S: BuildHasher, L: Limit> Described
    for Map<K, V, S, L> {
    ghost writes = { λ map. WritesMap K.writes V.writes map.0.pairs };
}

impl<K: Serialize + Eq + Hash, V: Serialize, S: BuildHasher, L: Limit> Serialize
    for Map<K, V, S, L> {
    fn serialize<W: Serializer>(&self, out: &mut W) -> Result<(), W::Error> {
        as_map::serialize(&self.0, out)
    }
}

impl<
    'de,
    K: Deserialize<'de> + Eq + Hash,
    V: Deserialize<'de>,
    S: BuildHasher + Default + Drop,
    L: Limit,
> Deserialize<'de> for Map<K, V, S, L> {
    fn deserialize<F: Format>(
        alloc: Global,
        from: &mut Deserializer<'de, '_, F>,
    ) -> Result<Self, F::Error>
        ensures { IfOk result
            (λ map. ReadsMap F.gives Anything Anything K.eq S.is_default from.old map.0 from.new) }
    {
        Ok(Map(as_map::deserialize(alloc, from)?))
    }
}

// As `as_map::deserialize`, with keys and values that borrow nothing from the input.
impl<
    K: DeserializeOwned + Eq + Hash,
    V: DeserializeOwned,
    S: BuildHasher + Default + Drop,
    L: Limit,
> DeserializeOwned for Map<K, V, S, L> {
    fn deserialize_owned<F: Format>(
        alloc: Global,
        from: &mut Deserializer<'_, '_, F>,
    ) -> Result<Self, F::Error>
        ensures { IfOk result
            (λ map. ReadsMap F.gives Anything Anything K.eq S.is_default from.old map.0 from.new) }
    {
        Ok(Map(read_map::<Owning, _, _, _, _, _>(alloc, from)?))
    }
}
