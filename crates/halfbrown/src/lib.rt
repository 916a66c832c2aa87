//! A map from keys to values in two forms: few pairs are stored in a vector and searched by `==`, many in a hash table.
//!
//! ```
//! let alloc = rt.alloc();
//! let mut ages = HashMap::<u64, u32>::new(alloc);
//! ages.insert(1, 36)?;
//! ages.insert(2, 41)?;
//! ```
//!
//! Every example of this crate begins with these lines: `rt` is the `HostRuntime`, and `ages` holds two pairs.
//!
//! Each call of a map or of a raw entry that searches for a key or adds pairs has a counted call too, such as
//! `get_counted` for `get`; that of `[]` is `index_counted`. Only `from_array`, `==` and std's traits have none. Of an
//! entry `replace_entry_with` has one, which may probe for a bucket. A counted call does the same, and its contract states
//! how much work that is, in the numbers of a `Tally`. The buckets that other work reads, such as a removal after its
//! search, or growth, are not counted. When the program runs a tally takes no bytes, and counting costs nothing.
//!
//! ```
//! let mut tally = Tally::new();
//! assert_eq!(rt; ages.get_counted(&1, &mut tally), Some(&36));
//! ```
#![tactic(auto)]

mod drain;
mod entry;
mod equal_clone;
mod equivalent;
mod iter;
mod key_hasher;
mod limit;
mod macros;
mod map;
mod raw_entry;
mod refused;
pub mod run;

pub use drain::Drain;
pub use entry::{Entry, OccupiedEntry, VacantEntry};
pub use equal_clone::EqualClone;
pub use equivalent::Equivalent;
pub use half_store::{Refusal, Tally};
pub use iter::{Column, IntoIter, Iter, IterMut, Keys, Values, ValuesMut};
pub use key_hasher::KeyHasher;
pub use limit::{AtMost, Limit};
pub use map::{DefaultHashBuilder, HashMap, LimitedHashMap, SizedHashMap};
pub use raw_entry::{
    RawEntryBuilder, RawEntryBuilderMut, RawEntryMut, RawOccupiedEntryMut, RawVacantEntryMut,
};
pub use refused::{Refused, RefusedKey};
pub use run::{Command, Reply};
