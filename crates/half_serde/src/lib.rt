//! Maps as members of what `serde` writes and reads, for example as a JSON object with its members in order.
//!
//! ```
//! #[derive(Drop, Serialize, Deserialize)]
//! struct Order {
//!     #[serde(with = "half_serde::as_map")]
//!     counts: HashMap<String, u64>,
//!     prices: Object<Object<u64>>,
//! }
//! let text = r#"{"counts":{"pen":2,"ink":1},"prices":{"pen":{"net":3}}}"#;
//! let order: Order = serde_json::from_str(alloc, text)?;
//! assert_eq!(rt; order.counts.get("ink"), Some(&1));
//! assert_eq!(rt; serde_json::to_string(alloc, &order)?.as_str(), text);
//! ```
//!
//! A field that is a map names the module `as_map`. As a value of another map, or as a whole document, the map itself has
//! to implement the traits. Then it stands in a `Map`, or, with texts as keys, in an `Object`.
//!
//! Pairs are written in the order of the map, and read in the order of the text. Of equal keys the last value stands at
//! the place of the first key, as with `insert`.
#![tactic(auto)]

pub mod as_map;
mod map;
mod read;

pub use map::{Map, Object};
