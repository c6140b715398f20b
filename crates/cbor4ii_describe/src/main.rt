//! Reads structs and enums of Rust from standard input, and prints the impls that make them
//! described types.
//!
//! It takes serde's `rename`, `default` and `skip_serializing_if = "Option::is_none"`. Of its own
//! are `describe(array)` on a struct, `describe(tag = 1)` on a newtype, the path of its module,
//! `describe(module = "city::kind")`, on an enum, and on a field `describe(key = -1)`,
//! `describe(last)` and `describe(missing = "..")`. A field may come once, which `describe(once)`
//! says too; of one with `last` the last counts.
//!
//! The exit status is 0, or 1 where a type has no form here: nothing is printed then, and a line on
//! standard error says why.
#![tactic(auto)]

mod describe;
mod enums;
mod fault;
mod input;
mod options;
mod parse;
mod presence;
mod print;
mod shape;
mod tokens;
mod types;

use crate::fault::Fault;
use std::io::{ErrorKind, Read};
use std::process::ExitCode;

fn main(rt: HostRuntime) -> ExitCode {
    let alloc = rt.alloc();
    let mut bytes = Vec::new(alloc);
    let outcome = match rt.reader().read_to_end(&mut bytes) {
        Ok(_) => describe::describe_bytes(alloc, &bytes),
        Err(error) if error.kind() == ErrorKind::OutOfMemory => Err(Fault::Memory),
        Err(_) => Err(Fault::Read),
    };
    match outcome {
        Ok(out) if rt.print(out.as_str()).is_ok() => ExitCode::SUCCESS,
        Ok(_) => ExitCode::FAILURE,
        Err(fault) => {
            let _ = rt.eprintln(fault);
            ExitCode::FAILURE
        }
    }
}
