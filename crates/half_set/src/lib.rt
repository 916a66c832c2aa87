//! A set: no two values are equal. They keep the order in which they were inserted until `remove` moves the last one.
//!
//! ```
//! let alloc = rt.alloc();
//! let mut seen = HashSet::<u64>::from_iter(alloc, [1, 2])?;
//! let others = HashSet::<u64>::from_iter(alloc, [2, 3])?;
//! ```
//!
//! Every example of this crate begins with these lines: `rt` is the `HostRuntime`, and each set holds two values.
#![tactic(auto)]

mod hash_set;
mod iter;

pub use hash_set::HashSet;
pub use iter::{IntoIter, Selected, Union};
