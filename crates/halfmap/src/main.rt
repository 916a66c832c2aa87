//! Answers insertions, look-ups and removals line by line, from standard input to standard output, over a map that is a
//! vector of up to five pairs.
#![tactic(auto)]

mod answer;
mod lines;
mod request;
mod session;
#[cfg(test)]
mod tests;

use crate::session::{Stopped, serve};
use std::process::ExitCode;

fn main(rt: HostRuntime) -> ExitCode {
    match serve(rt.alloc(), rt.stdin(), rt.stdout()) {
        Ok(_) => ExitCode::SUCCESS,
        Err(Stopped) => ExitCode::FAILURE,
    }
}
