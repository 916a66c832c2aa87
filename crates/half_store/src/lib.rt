//! The storage of a map in two forms: pairs in two columns, an index over them if there is one, and a tally of the work.
//!
//! Its API is the names below the modules, the macro `uncounted`, and `counting`, by which a map hashes a key. No map calls
//! what else the modules have: they are public since contracts name a type by its module, and for those who prove or test what
//! a probe reads.
#![tactic(auto)]

mod blocks;
pub mod capacity;
pub mod counting;
pub mod refusal;
pub mod store;
pub mod table;
pub mod tally;
pub mod vecmap;
pub mod words;

pub use refusal::Refusal;
pub use store::Store;
pub use store::drain::{Drained, IntoStore};
pub use store::find::{Found, Vacancy};
pub use store::memory::Arrays;
pub use table::Table;
pub use table::memory::TableMemory;
pub use tally::Tally;
pub use vecmap::Columns;
pub use vecmap::search::Scan;
