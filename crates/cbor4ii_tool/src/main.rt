//! Reads items of CBOR from standard input, and writes each to standard output in another form.
//!
//! The one argument names what is done. The exit status is 0, or 1 after a fault, whose line goes
//! to standard error, or 2 where the arguments name no command.
#![tactic(auto)]

mod arguments;
mod command;
mod decimal;
mod fault;
mod integer;
mod item;
mod program;
mod run;
#[cfg(test)]
mod tests;

use std::process::ExitCode;

fn main(rt: HostRuntime) -> ExitCode {
    let words = arguments::words(&rt);
    let status = program::program(
        rt.alloc(),
        words,
        rt.reader(),
        rt.stdout(),
        &mut rt.stderr(),
    );
    ExitCode::from(status)
}
