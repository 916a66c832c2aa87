//! Plays a script of calls from standard input on a map, and prints what each returned, the work that it did and the state
//! after it. `docs/SCRIPTS.md` says how a script is written and what each line is answered.
#![tactic(auto)]

mod answer;
mod collections;
mod compare;
mod counts;
mod entries;
mod insertions;
mod items;
mod keys;
mod player;
mod printing;
mod raw;
mod runs;
mod script;
mod searches;
mod values;
mod walks;
mod whole;
mod words;

use crate::counts::Counts;
use std::io;
use std::process::ExitCode;

fn main(rt: HostRuntime) -> io::Result<ExitCode> {
    let text = io::read_to_string(rt.alloc(), rt.stdin())?;
    let counts = Counts::default();
    match script::play(&rt, &counts, text.as_str()) {
        Ok(()) => Ok(ExitCode::SUCCESS),
        Err(err) => {
            eprintln!(rt; "line {}: {err}", counts.lines.get())?;
            Ok(ExitCode::FAILURE)
        }
    }
}
