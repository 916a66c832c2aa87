//! What a request is answered.
ghost use Rattle.std.specs.Prelude.{◌≡◌, Some};
ghost use Rattle.halfmap.specs.Answer.{IsAnswerTo, was as was_answer};
ghost use Rattle.halfmap.specs.Text.{text_of_answer};

use crate::request::Request;
use halfbrown::{DefaultHashBuilder, SizedHashMap};
use std::fmt;

/// The map that the program serves: a vector of up to five pairs.
pub(crate) type Numbers = SizedHashMap<u64, u64, DefaultHashBuilder, 5>;

/// One line of output. It is written as the line, without its end.
#[derive(Drop)]
pub(crate) enum Answer {
    /// The key is not held, or was not before.
    Absent,
    /// The value that was replaced or removed.
    Was(u64),
    /// An insertion was refused.
    NoRoom,
    /// The value of the key.
    Value(u64),
    /// The form is the vector, with this many pairs.
    Vector(usize),
    /// The form is the table, with this many pairs.
    Table(usize),
    /// The line asks for nothing that is known.
    BadLine,
}

impl fmt::Display for Answer {
    ghost output = { λ answer. Some (text_of_answer answer) };

    fn fmt<W: fmt::Write>(&self, f: &mut fmt::Formatter<W>) -> fmt::Result {
        match *self {
            Answer::Absent => f.write_str("none"),
            Answer::Was(value) => write!(f, "was {value}"),
            Answer::NoRoom => f.write_str("no room"),
            Answer::Value(value) => write!(f, "{value}"),
            Answer::Vector(len) => write!(f, "vec {len}"),
            Answer::Table(len) => write!(f, "map {len}"),
            Answer::BadLine => f.write_str("bad line"),
        }
    }
}

/// Does what the request asks, and answers it.
pub(crate) fn perform(map: &mut Numbers, request: Request) -> Answer
    ensures { IsAnswerTo request map.old result map.new }
{
    match request {
        Request::Insert(key, value) => match map.insert(key, value) {
            Ok(old) => was(old),
            Err(_) => Answer::NoRoom,
        },
        Request::Get(key) => match map.get(&key) {
            Some(value) => Answer::Value(*value),
            None => Answer::Absent,
        },
        Request::Remove(key) => was(map.remove(&key)),
        Request::Form if map.is_vec() => Answer::Vector(map.len()),
        Request::Form => Answer::Table(map.len()),
    }
}

fn was(old: Option<u64>) -> Answer
    ensures { result ≡ was_answer old }
{
    match old {
        Some(value) => Answer::Was(value),
        None => Answer::Absent,
    }
}
