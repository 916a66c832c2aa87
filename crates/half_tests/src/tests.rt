//! What no contract and no script says, run as tests.

mod drops;
mod guests;
mod items;
mod json;
mod queries;
mod refused_clones;
mod sizes;
mod tables;
mod texts;
mod uses;
mod worked;
