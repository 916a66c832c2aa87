//! JSON values whose members keep their order, to be read, looked into, changed and written.
//!
//! ```
//! let alloc = rt.alloc();
//! let text = r#"{"id": 7, "items": [{"name": "pen", "count": 2}], "paid": false}"#;
//! let mut order = Value::parse(alloc, text)?;
//! order.set_at("/items/0/count", Value::Number(String::from_str(alloc, "3")?))?;
//! order.set(String::from_str(alloc, "paid")?, Value::Bool(true))?;
//! let text = order.to_string(alloc)?; // {"id":7,"items":[{"name":"pen","count":3}],"paid":true}
//! ```
//!
//! Every example of this crate begins with these lines. An object is a `halfbrown::HashMap`, so a `match` on a value,
//! `as_object_mut` and `as_list_mut` give all calls of maps and of vectors. A number is kept as it is written, and two
//! numbers are equal only if they are written alike. Members are compared in any order.
//!
//! A path is a JSON Pointer (RFC 6901). `/items/0/count` is the member `count` of the first item of the member `items`,
//! and the empty path is the whole value. In a name `~1` stands for `/` and `~0` for `~`.
//!
//! A look-up compares a name with those of an object of up to 32 members. Once a member is set in an object of 32, also
//! one that it has, look-ups hash the name. A step with an escape is compared with the names of all members. Only `parse`,
//! `to_string`, `set` and `merge` take memory.
#![tactic(auto)]

mod value;

pub use value::{Error, Value};
