//! Times the map beside std's `HashMap` and `IndexMap`, does the work whose instructions are counted, fills maps whose memory
//! is measured, and counts reads of buckets.
#![tactic(auto)]

mod calls;
mod keys;
mod maps;
mod operations;
mod reads;
mod rounds;
mod uses;
mod whole;

use keys::Key;
use std::time::CpuClock;
use std::{env, io};

const USAGE: &str = "\
half_bench times u64|String OPERATION SIZE ROUNDS: for each round and map the picoseconds of one operation, and an answer
half_bench count u64|String GROUP CALL SIZE: how many operations were done between two looks at the clock, and an answer
half_bench memory u64|String halfbrown|std|indexmap SIZE COPIES: how many maps stay filled until the end of the input
half_bench reads u64|String PAIRS: at five loads, for each kind of probes, how many read how many buckets";

fn main(rt: HostRuntime) -> io::Result<()> {
    let words: Vec<String> = env::args(&rt)?.skip(1).collect(rt.alloc())?;
    match words.as_slice() {
        [command, keys, rest @ ..] if keys.as_str() == "u64" => run::<u64>(&rt, command, rest),
        [command, keys, rest @ ..] if keys.as_str() == "String" => run::<String>(
            &rt, command, rest,
        ),
        [] => println!(rt; "{USAGE}"),
        _ => Err(unknown()),
    }
}

fn run<K: Key>(
    rt: &(impl Print + Input + CpuClock + AllocGlobal),
    command: &str,
    words: &[String],
) -> io::Result<()> {
    match (command, words) {
        ("times", [operation, size, rounds]) => {
            rounds::print::<K>(rt, operation, number(size)?, number(rounds)?)
        }
        ("count", [group, call, size]) => rounds::count::<K>(rt, group, call, number(size)?),
        ("memory", [map, size, copies]) => {
            maps::hold::<K>(rt, map, number(copies)?, number(size)?)
        }
        ("reads", [pairs]) => reads::print::<K>(rt, number(pairs)?),
        _ => Err(unknown()),
    }
}

fn number(word: &str) -> io::Result<u64> {
    word.parse().ok().ok_or(unknown())
}

// The arguments ask for nothing that is known.
pub(crate) fn unknown() -> io::Error {
    io::Error::other("these arguments ask for nothing that is known")
}
