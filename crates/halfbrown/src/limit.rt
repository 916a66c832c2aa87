//! The most pairs that the vector form may hold, as a type.
ghost use Rattle.std.specs.Prelude.{ℕ};

/// The most pairs that a map holds in a vector.
///
/// It is a type, and not a const parameter of the map, so that types that borrow a map can be proved. Users write the
/// number, as in `SizedHashMap<K, V, S, 5>`. A function of maps of any limit has it as a parameter:
///
/// ```
/// fn knows<S: BuildHasher, L: Limit>(ages: &LimitedHashMap<u64, u32, S, L>, id: u64) -> bool {
///     ages.contains_key(&id)
/// }
/// assert!(rt; knows(&ages, 1));
/// ```
pub trait Limit {
    ghost LIMIT: { ℕ };

    const LIMIT: usize;
}

/// A limit of `N` pairs.
///
/// ```
/// let few = LimitedHashMap::<u64, u32, DefaultHashBuilder, AtMost<8>>::with_capacity(alloc, 9)?;
/// assert!(rt; few.is_map());
/// ```
#[derive(Clone, Copy, Debug, PartialEq, Eq)]
pub struct AtMost<const N: usize>;

impl<const N: usize> Limit for AtMost<N> {
    ghost LIMIT = { N };

    const LIMIT: usize = N;
}
