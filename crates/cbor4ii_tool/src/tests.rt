//! What no contract says: whole runs over rows of bytes, streams that fail at each read, write and
//! flush, the texts on standard error, and the exit status. Where memory is refused, a test ends
//! with that error, once what was written before is seen to be right.
mod begun;
mod items;
mod program;
mod rows;
mod streams;
mod table;

use crate::command::Command;
use crate::fault::{Fault, Kind};
use crate::run::run;
use cbor4ii::utils::{IoReader, IoWriter};
use rows::{ROWS, Row};
use std::io::{self, BufReader, ErrorKind};
use std::process::Abort;
use streams::{Input, Output};

// Runs the row's command over its input, of which `width` bytes are shown at a time.
fn runs(
    rt: &(impl Abort + AllocGlobal),
    row: &Row,
    width: usize,
    good_reads: usize,
    output: Output,
) -> io::Result<(Result<(), Fault>, Output)> {
    let input = Input {
        left: row.input,
        good_reads,
    };
    let mut reader = IoReader::new(BufReader::with_capacity(rt.alloc(), width, input)?);
    let mut writer = IoWriter::new(output);
    let outcome = run(rt.alloc(), row.command, &mut reader, &mut writer);
    let output = writer.into_inner();
    if let Err(
        Fault {
            at,
            kind: Kind::OutOfMemory,
        },
    ) = outcome
    {
        assert!(rt; takes_memory(row.command));
        check_prefix(rt, row, at, &output);
        return Err(io::Error::from(ErrorKind::OutOfMemory));
    }
    Ok((outcome, output))
}

fn had_memory(outcome: Result<(), Fault>) -> io::Result<Result<(), Fault>> {
    match outcome {
        Err(fault) if fault.kind == Kind::OutOfMemory => {
            Err(io::Error::from(ErrorKind::OutOfMemory))
        }
        _ => Ok(outcome),
    }
}

// The items of the command are values.
fn takes_memory(command: Command) -> bool {
    command == Command::Canon || command == Command::Strict
}

// What was written for this input is this.
fn is_written(rt: &impl Abort, output: &Output, want: &[u8], input: &[u8]) {
    assert_eq!(rt; output.written.as_slice(), want, "at {:?}", input);
}

// What was written is what stands for the items before `at`, and was flushed where a flush can be.
fn check_prefix(rt: &impl Abort, row: &Row, at: u64, output: &Output) {
    let item = row.item_read(at);
    assert_eq!(rt; item.0, at, "at {:?}", row.input);
    assert_eq!(rt; output.written.len(), item.1, "at {:?}", row.input);
    assert!(rt;
        row.written.starts_with(&output.written),
        "at {:?}",
        row.input
    );
    let flushed = if output.stays { 0 } else { item.1 };
    assert_eq!(rt; output.flushed, flushed, "at {:?}", row.input);
}

// The run answers what the row says, and all of it is written and flushed.
fn runs_whole(
    rt: &(impl Abort + AllocGlobal),
    row: &Row,
    width: usize,
    good_reads: usize,
) -> io::Result<()> {
    let output = Output::new(rt.alloc())?;
    let (outcome, output) = runs(rt, row, width, good_reads, output)?;
    assert_eq!(rt; outcome, row.outcome(), "at {:?}", row.input);
    is_written(rt, &output, row.written, row.input);
    assert_eq!(rt; output.flushed, row.written.len(), "at {:?}", row.input);
    Ok(())
}

#[test]
fn rows_over_streams(rt: HostRuntime) -> io::Result<()> {
    for row in ROWS {
        runs_whole(&rt, row, 1, usize::MAX)?;
        runs_whole(&rt, row, 64, usize::MAX)?;
    }
    Ok(())
}

// Where a read has found the end, none comes after it: one that came would fail.
#[test]
fn the_end_is_read_once(rt: HostRuntime) -> io::Result<()> {
    for row in ROWS {
        if row.fault.is_none() {
            let length = row.input.len();
            runs_whole(&rt, row, 1, length.saturating_add(1))?;
            runs_whole(&rt, row, 64, length.min(1).saturating_add(1))?;
        }
    }
    Ok(())
}

// A read fails after so many others: that is the answer, and what stands for the items before it is
// written and flushed.
fn read_fails(
    rt: &(impl Abort + AllocGlobal),
    row: &Row,
    width: usize,
    good_reads: usize,
    at: u64,
) -> io::Result<()> {
    let output = Output::new(rt.alloc())?;
    let (outcome, output) = runs(rt, row, width, good_reads, output)?;
    let fault = Fault {
        at,
        kind: Kind::Read,
    };
    assert_eq!(rt; outcome, Err(fault), "at {:?}", row.input);
    check_prefix(rt, row, at, &output);
    Ok(())
}

// Over a stream that shows one byte at a time, the read that fails is that of a known byte.
fn each_read_fails(rt: &(impl Abort + AllocGlobal), row: &Row) -> io::Result<()> {
    let end = match row.fault {
        Some(fault) => fault.at as usize,
        None => row.input.len(),
    };
    for good_reads in 0..end.saturating_add(1) {
        read_fails(rt, row, 1, good_reads, row.item_read(good_reads as u64).0)?;
    }
    Ok(())
}

#[test]
fn each_read_fails_in_turn(rt: HostRuntime) -> io::Result<()> {
    for row in ROWS {
        each_read_fails(&rt, row)?;
    }
    Ok(())
}

// Where all is shown by one read, the second one finds the end.
#[test]
fn the_first_read_and_the_second_fail(rt: HostRuntime) -> io::Result<()> {
    for row in ROWS {
        read_fails(&rt, row, 64, 0, 0)?;
        if row.fault.is_none() && !row.input.is_empty() {
            read_fails(&rt, row, 64, 1, row.input.len() as u64)?;
        }
    }
    Ok(())
}

// A write fails after so many others, or all is written; the flush fails too where `stays` is set.
// The first failure is the answer.
fn write_fails(
    rt: &(impl Abort + AllocGlobal),
    row: &Row,
    good_writes: usize,
    stays: bool,
) -> io::Result<()> {
    let mut output = Output::new(rt.alloc())?;
    output.good_writes = good_writes;
    output.stays = stays;
    let (outcome, output) = runs(rt, row, 64, usize::MAX, output)?;
    assert!(rt;
        row.written.starts_with(&output.written),
        "at {:?}",
        row.input
    );
    if output.written.len() == row.written.len() {
        let want = if stays {
            row.unflushed()
        } else {
            row.outcome()
        };
        assert_eq!(rt; outcome, want, "at {:?}", row.input);
        return Ok(());
    }
    assert!(rt; output.written.len() >= good_writes, "at {:?}", row.input);
    let fault = Fault {
        at: row.item_written(output.written.len()).0,
        kind: Kind::Write,
    };
    assert_eq!(rt; outcome, Err(fault), "at {:?}", row.input);
    Ok(())
}

fn each_write_fails(rt: &(impl Abort + AllocGlobal), row: &Row, stays: bool) -> io::Result<()> {
    for good_writes in 0..row.written.len() + 1 {
        write_fails(rt, row, good_writes, stays)?;
    }
    Ok(())
}

#[test]
fn each_write_fails_in_turn(rt: HostRuntime) -> io::Result<()> {
    for row in ROWS {
        each_write_fails(&rt, row, false)?;
        each_write_fails(&rt, row, true)?;
    }
    Ok(())
}

// A flush fails, after a fault of the input too: all is written, and the answer is the failure of
// the flush.
fn flush_fails(rt: &(impl Abort + AllocGlobal), row: &Row, width: usize) -> io::Result<()> {
    let mut output = Output::new(rt.alloc())?;
    output.stays = true;
    let (outcome, output) = runs(rt, row, width, usize::MAX, output)?;
    assert_eq!(rt; outcome, row.unflushed(), "at {:?}", row.input);
    is_written(rt, &output, row.written, row.input);
    Ok(())
}

#[test]
fn flushes_fail(rt: HostRuntime) -> io::Result<()> {
    for row in ROWS {
        flush_fails(&rt, row, 1)?;
        flush_fails(&rt, row, 64)?;
    }
    Ok(())
}

// From a slice into a slice, with no buffer between: what the row says, and no byte more.
fn runs_over_slices(rt: &(impl Abort + AllocGlobal), row: &Row) {
    let mut room = [0; 64];
    let mut reader = IoReader::new(row.input);
    let mut writer = IoWriter::new(room.as_mut_slice());
    let outcome = run(rt.alloc(), row.command, &mut reader, &mut writer);
    let unused = writer.into_inner().len();
    assert_eq!(rt; outcome, row.outcome(), "at {:?}", row.input);
    assert_eq!(rt;
        unused,
        room.len().saturating_sub(row.written.len()),
        "at {:?}",
        row.input
    );
    assert!(rt; room.starts_with(row.written), "at {:?}", row.input);
}

#[test]
fn integers_and_lengths_over_slices(rt: HostRuntime) {
    for row in ROWS {
        if !takes_memory(row.command) {
            runs_over_slices(&rt, row);
        }
    }
}
