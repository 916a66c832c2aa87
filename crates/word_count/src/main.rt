//! Counts the words of standard input, and prints each with its count, in order of first occurrence.
#![tactic(auto)]

mod failure;
mod text;

use crate::failure::Failure;
use crate::text::report_of;
use std::io::Read;
use std::process::ExitCode;

fn main(rt: HostRuntime) -> ExitCode {
    match print_report(&rt) {
        Ok(()) => ExitCode::SUCCESS,
        Err(failure) => {
            let _ = eprintln!(rt; "word_count: {failure}");
            ExitCode::FAILURE
        }
    }
}

// Reads all of standard input, and prints the report on it.
fn print_report(rt: &(impl Input + Print + AllocGlobal)) -> Result<(), Failure> {
    let mut bytes = Vec::new(rt.alloc());
    rt.reader().read_to_end(&mut bytes)?;
    let report = report_of(rt.alloc(), bytes.as_slice())?;
    rt.print(report)?;
    Ok(())
}
