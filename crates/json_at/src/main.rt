//! Reads a JSON document from standard input, and prints the value that a path leads to: `json_at /a/0`. A path is a JSON
//! Pointer (RFC 6901); without one the whole document is printed. Members stay in their order. If some share a name, the last
//! value wins, at the place of the first.
#![tactic(auto)]

use anyhow::{Result, anyhow};
use json_value::{Error, Value};
use std::alloc::Global;
use std::io::Read;
use std::process::ExitCode;
use std::rt::Env;
use std::{env, str};

fn main(rt: HostRuntime) -> ExitCode {
    match print_value(&rt) {
        Ok(()) => ExitCode::SUCCESS,
        Err(error) => {
            let _ = eprintln!(rt; "json_at: {error}");
            ExitCode::FAILURE
        }
    }
}

// Reads all of standard input, and prints the value at the path.
fn print_value(rt: &(impl Input + Print + AllocGlobal + Env)) -> Result<()> {
    let path = env::args(rt)?.nth(1);
    let mut bytes = Vec::new(rt.alloc());
    rt.reader().read_to_end(&mut bytes)?;
    let text = str::from_utf8(bytes.as_slice())
        .ok()
        .ok_or(anyhow!("the input is no UTF-8 text"))?;
    let found = match &path {
        Some(path) => value_at(rt.alloc(), text, path.as_str())?,
        None => value_at(rt.alloc(), text, "")?,
    };
    rt.println(found)?;
    Ok(())
}

// The text of the value that a path leads to.
fn value_at(alloc: Global, text: &str, path: &str) -> Result<String> {
    let document = Value::parse(alloc, text)?;
    let found = document.pointer(path).ok_or(Error::NotThere)?;
    Ok(found.to_string(alloc)?)
}
