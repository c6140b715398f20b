//! The program as a whole: its status, and what it writes to its two outputs.
use super::items::nested;
use super::rows::{ROWS, Row};
use super::streams::{Input, Output};
use super::table::table;
use super::{is_written, takes_memory};
use crate::command::Command;
use crate::fault::{Fault, Kind};
use crate::program::program;
use std::alloc::{AllocError, Global};
use std::io::{self, ErrorKind, Write};
use std::process::Abort;

const USAGE: &[u8] = b"usage: cbor4ii_tool ints|canon|lens|strict\n";

const NO_MEMORY: &[u8] = b"fault at 0: OutOfMemory\n";

fn words(alloc: Global, words: &[&str]) -> Result<Vec<String>, AllocError> {
    let mut owned = Vec::new(alloc);
    for word in words {
        owned.push(word.to_string(alloc)?)?;
    }
    Ok(owned)
}

fn input(left: &'static [u8]) -> Input {
    Input {
        left,
        good_reads: usize::MAX,
    }
}

fn name(command: Command) -> &'static str {
    match command {
        Command::Ints => "ints",
        Command::Canon => "canon",
        Command::Lens => "lens",
        Command::Strict => "strict",
    }
}

fn runs(
    rt: &(impl Abort + AllocGlobal),
    command: Command,
    input: Input,
    mut output: Output,
) -> io::Result<(u8, Output, Output)> {
    let words = words(rt.alloc(), &[name(command)])?;
    let mut errors = Output::new(rt.alloc())?;
    let status = program(rt.alloc(), Ok(words), input, &mut output, &mut errors);
    if errors.written.ends_with(b": OutOfMemory\n") {
        check_memory(rt, command, status, &errors.written);
        return Err(io::Error::from(ErrorKind::OutOfMemory));
    }
    Ok((status, output, errors))
}

// Where no item takes memory, only a buffer can lack it, before the first item.
fn check_memory(rt: &impl Abort, command: Command, status: u8, errors: &[u8]) {
    assert_eq!(rt; status, 1);
    if !takes_memory(command) {
        assert_eq!(rt; errors, NO_MEMORY);
    }
}

fn runs_row(rt: &(impl Abort + AllocGlobal), row: &Row) -> io::Result<()> {
    let output = Output::new(rt.alloc())?;
    let (status, output, errors) = runs(rt, row.command, input(row.input), output)?;
    assert_eq!(rt; errors.written.as_slice(), row.errors, "at {:?}", row.input);
    assert_eq!(rt; status, row.fault.is_some() as u8, "at {:?}", row.input);
    is_written(rt, &output, row.written, row.input);
    Ok(())
}

#[test]
fn rows(rt: HostRuntime) -> io::Result<()> {
    for row in ROWS {
        runs_row(&rt, row)?;
    }
    Ok(())
}

// A command, an input, what is written for it, and the line of its fault.
type Printed = (Command, &'static [u8], &'static [u8], &'static [u8]);

const PRINTED: &[Printed] = table! {
    (Command::Canon, b"\x00\x5f\x5f\xff\xff", b"\x00", b"fault at 1: RequireLength\n"),
    (Command::Canon, b"\x61\xff", b"", b"fault at 0: RequireUtf8\n"),
    (Command::Strict, b"\x05\x61\xff", b"\x05", b"fault at 1: RequireUtf8\n"),
};

fn prints(rt: &(impl Abort + AllocGlobal), row: Printed) -> io::Result<()> {
    let output = Output::new(rt.alloc())?;
    let (status, output, errors) = runs(rt, row.0, input(row.1), output)?;
    assert_eq!(rt; errors.written.as_slice(), row.3);
    assert_eq!(rt; status, 1);
    assert_eq!(rt; output.written.as_slice(), row.2);
    Ok(())
}

#[test]
fn kinds_of_errors(rt: HostRuntime) -> io::Result<()> {
    let deep = b"fault at 0: DepthOverflow\n".as_slice();
    prints(&rt, (Command::Canon, nested(rt.alloc(), 128)?, b"", deep))?;
    prints(&rt, (Command::Lens, nested(rt.alloc(), 256)?, b"", deep))?;
    for row in PRINTED {
        prints(&rt, *row)?;
    }
    Ok(())
}

const KINDS: &[(Kind, &[u8])] = table! {
    (Kind::Read, b"fault at 7: Read\n"),
    (Kind::Mismatch, b"fault at 7: Mismatch\n"),
    (Kind::Unsupported, b"fault at 7: Unsupported\n"),
    (Kind::Eof, b"fault at 7: Eof\n"),
    (Kind::RequireLength, b"fault at 7: RequireLength\n"),
    (Kind::RequireBorrowed, b"fault at 7: RequireBorrowed\n"),
    (Kind::RequireUtf8, b"fault at 7: RequireUtf8\n"),
    (Kind::LengthOverflow, b"fault at 7: LengthOverflow\n"),
    (Kind::CastOverflow, b"fault at 7: CastOverflow\n"),
    (Kind::ArithmeticOverflow, b"fault at 7: ArithmeticOverflow\n"),
    (Kind::DepthOverflow, b"fault at 7: DepthOverflow\n"),
    (Kind::Custom, b"fault at 7: Custom\n"),
    (Kind::OutOfMemory, b"fault at 7: OutOfMemory\n"),
    (Kind::NotCanonical, b"fault at 7: NotCanonical\n"),
    (Kind::Write, b"fault at 7: Write\n"),
};

#[test]
fn each_kind_is_printed(rt: HostRuntime) -> io::Result<()> {
    for &(kind, line) in KINDS {
        let mut output = Output::new(rt.alloc())?;
        output.writeln(Fault { at: 7, kind })?;
        assert_eq!(rt; output.written.as_slice(), line);
    }
    Ok(())
}

// A command, an input with a fault, and the line where what is written for the item before that
// fault cannot be flushed.
const UNFLUSHED: &[(Command, &[u8], &[u8])] = table! {
    (Command::Ints, b"\x05\x19\x01", b"fault at 3: Write\n"),
    (Command::Canon, b"\x05\x9f\x01", b"fault at 3: Write\n"),
    (Command::Lens, b"\x05\x62\x61", b"fault at 3: Write\n"),
    (Command::Strict, b"\x05\x18\x05\x00", b"fault at 3: Write\n"),
};

#[test]
fn faults_are_not_flushed(rt: HostRuntime) -> io::Result<()> {
    for &(command, bytes, line) in UNFLUSHED {
        let mut output = Output::new(rt.alloc())?;
        output.good_writes = 0;
        let (status, _, errors) = runs(&rt, command, input(bytes), output)?;
        assert_eq!(rt; errors.written.as_slice(), line);
        assert_eq!(rt; status, 1);
    }
    Ok(())
}

// Streams that fail, where `ints` runs over an integer of two bytes: how many reads and writes are
// good, whether the flush fails, the line of the fault, and what is written, where that is
// promised.
type Failing = (usize, usize, bool, &'static [u8], Option<&'static [u8]>);

// What is written waits in the buffer for the flush, when both bytes were taken.
const FAILING: &[Failing] = table! {
    (0, usize::MAX, false, b"fault at 0: Read\n", Some(b"")),
    (1, usize::MAX, false, b"fault at 2: Read\n", Some(b"\x05")),
    (usize::MAX, 0, false, b"fault at 2: Write\n", None),
    (usize::MAX, usize::MAX, true, b"fault at 2: Write\n", Some(b"\x05")),
};

fn runs_failing(rt: &(impl Abort + AllocGlobal), row: &Failing) -> io::Result<()> {
    let &(good_reads, good_writes, stays, line, promised) = row;
    let mut input = input(b"\x18\x05");
    input.good_reads = good_reads;
    let mut output = Output::new(rt.alloc())?;
    output.good_writes = good_writes;
    output.stays = stays;
    let (status, output, errors) = runs(rt, Command::Ints, input, output)?;
    assert_eq!(rt; errors.written.as_slice(), line);
    assert_eq!(rt; status, 1);
    if let Some(written) = promised {
        assert_eq!(rt; output.written.as_slice(), written);
    }
    Ok(())
}

#[test]
fn streams_fail(rt: HostRuntime) -> io::Result<()> {
    for row in FAILING {
        runs_failing(&rt, row)?;
    }
    Ok(())
}

// Nothing is read, nothing is written but the usage line, and the status is 2.
fn check_usage(rt: &(impl Abort + AllocGlobal), words: io::Result<Vec<String>>) -> io::Result<()> {
    let mut input = input(b"\x00");
    let mut output = Output::new(rt.alloc())?;
    let mut errors = Output::new(rt.alloc())?;
    let status = program(rt.alloc(), words, &mut input, &mut output, &mut errors);
    assert_eq!(rt; status, 2);
    assert_eq!(rt; errors.written.as_slice(), USAGE);
    assert!(rt; output.written.is_empty());
    assert_eq!(rt; input.left, b"\x00".as_slice());
    Ok(())
}

const NO_COMMANDS: &[&[&str]] = &[
    &[],
    &[""],
    &["int"],
    &["ints "],
    &["Canon"],
    &["strictly"],
    &["ints", "ints"],
    &["canon", "lens"],
    &["", "lens"],
];

#[test]
fn other_words_name_no_command(rt: HostRuntime) -> io::Result<()> {
    for row in NO_COMMANDS {
        check_usage(&rt, Ok(words(rt.alloc(), row)?))?;
    }
    check_usage(&rt, Err(io::Error::from(ErrorKind::InvalidData)))
}

#[test]
fn words_find_no_memory(rt: HostRuntime) -> io::Result<()> {
    let mut output = Output::new(rt.alloc())?;
    let mut errors = Output::new(rt.alloc())?;
    let words = Err(io::Error::from(ErrorKind::OutOfMemory));
    let status = program(rt.alloc(), words, input(b"\x00"), &mut output, &mut errors);
    assert_eq!(rt; status, 1);
    assert_eq!(rt; errors.written.as_slice(), NO_MEMORY);
    assert!(rt; output.written.is_empty());
    Ok(())
}
