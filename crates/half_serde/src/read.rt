//! The reading of a map, proved once for keys and values that borrow from the input and for those that do not.
ghost use Rattle.std.specs.Prelude.{IfOk};
ghost use Rattle.serde.specs.declared.deserializer.Deserializer.{Deserializer};
ghost use Rattle.half_serde.specs.Reading.{Anything, ReadsMap, ReadsParts};

use halfbrown::{Limit, LimitedHashMap};
use serde::{Deserialize, DeserializeOwned, Deserializer, Format};
use std::alloc::Global;
use std::hash::{BuildHasher, Hash};

/// How a key or a value is read.
pub trait Reads<'de, T> {
    // Holds of what is read, and of the reader before and after it.
    ghost reads: { {F E M : Type 0} → T → Deserializer F E M → Deserializer F E M → Type 0 };

    fn part<F: Format>(alloc: Global, from: &mut Deserializer<'de, '_, F>) -> Result<T, F::Error>
        ensures { IfOk result (λ part. reads part from.old from.new) };
}

/// What is read may borrow from the input.
pub struct Borrowing;

impl<'de, T: Deserialize<'de>> Reads<'de, T> for Borrowing {
    ghost reads = { Anything };

    fn part<F: Format>(alloc: Global, from: &mut Deserializer<'de, '_, F>) -> Result<T, F::Error> {
        T::deserialize(alloc, from)
    }
}

/// What is read borrows nothing from the input.
pub struct Owning;

impl<'de, T: DeserializeOwned> Reads<'de, T> for Owning {
    ghost reads = { Anything };

    fn part<F: Format>(alloc: Global, from: &mut Deserializer<'de, '_, F>) -> Result<T, F::Error> {
        T::deserialize_owned(alloc, from)
    }
}

/// Reads a map: its entries are inserted, in order.
pub fn read_map<
    'de,
    R: Reads<'de, K> + Reads<'de, V>,
    K: Eq + Hash + Drop,
    V: Drop,
    H: BuildHasher + Default + Drop,
    L: Limit,
    F: Format,
>(
    alloc: Global,
    from: &mut Deserializer<'de, '_, F>,
) -> Result<LimitedHashMap<K, V, H, L>, F::Error>
    ensures { IfOk result (λ map. ReadsMap F.gives R.Reads-1.reads R.Reads-2.reads K.eq H.is_default from.old
        map from.new) }
{
    from.begin_map()?;
    let mut map = LimitedHashMap::default(alloc);
    // The bound only lets the prover see that the loop ends: no text has as many entries.
    for _ in 0..u64::MAX {
        if !from.next_entry()? {
            return Ok(map);
        }
        let (key, value) = read_pair::<R, K, V, F>(alloc, from)?;
        if map.insert(key, value).is_err() {
            return Err(from.no_memory());
        }
    }
    Err(from.wrong_len())
}

/// Reads a key, and then its value.
fn read_pair<'de, R: Reads<'de, K> + Reads<'de, V>, K: Drop, V: Drop, F: Format>(
    alloc: Global,
    from: &mut Deserializer<'de, '_, F>,
) -> Result<(K, V), F::Error>
    ensures { IfOk result (λ pair. ReadsParts R.Reads-1.reads R.Reads-2.reads from.old pair from.new) }
{
    let key = R::part(alloc, from)?;
    let value = R::part(alloc, from)?;
    Ok((key, value))
}
