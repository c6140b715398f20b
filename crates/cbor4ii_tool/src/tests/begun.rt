//! Runs under another limit than 256 steps, and runs that begin after bytes that were taken.
use super::streams::{Input, Output};
use super::table::table;
use super::{had_memory, is_written};
use crate::command::Command;
use crate::fault::{Fault, Kind};
use crate::run::run;
use cbor4ii::dec::Decode;
use cbor4ii::utils::{IoReader, IoWriter};
use std::io::{self, BufReader};
use std::process::Abort;

// Where a run stops, and why.
type Stop = Option<(u64, Kind)>;

// A command, its limit of steps, an input, what is written for it, and where the run stops.
type Limited = (Command, usize, &'static [u8], &'static [u8], Stop);

const LIMITED: &[Limited] = table! {
    (Command::Canon, 0, b"", b"", None),
    (Command::Canon, 0, b"\x00", b"", Some((0, Kind::DepthOverflow))),
    (Command::Canon, 1, b"\x00\x80", b"\x00", Some((1, Kind::DepthOverflow))),
    (Command::Canon, 1, b"\x7f\xff\x7f\x61\x61\xff", b"\x60", Some((2, Kind::DepthOverflow))),
    (Command::Canon, 1, b"\xc1\x00", b"", Some((0, Kind::DepthOverflow))),
    (Command::Canon, 2, b"\x7f\x61\x61\xff\xc1\x00\x80", b"\x61\x61\xc1\x00\x80", None),
    (Command::Strict, 0, b"\x00", b"", Some((0, Kind::DepthOverflow))),
    (Command::Strict, 1, b"\x00\xc1\x00", b"\x00", Some((1, Kind::DepthOverflow))),
    (Command::Strict, 2, b"\xc1\x00\x80", b"\xc1\x00\x80", None),
    (Command::Lens, 0, b"\x00", b"", Some((0, Kind::DepthOverflow))),
    (Command::Lens, 1, b"\x00\x80\x81\x00", b"1\n1\n", Some((2, Kind::DepthOverflow))),
    (Command::Lens, 257, b"\x00\x81\x80", b"1\n2\n", None),
    (Command::Ints, 0, b"\x18\x05\x20", b"\x05\x20", None),
    (Command::Ints, 0, b"\x18\x05\x40", b"\x05", Some((2, Kind::Mismatch))),
};

// A command, an input that begins with the integer `18 05`, which is taken before the run, what is
// written for the rest, where the run stops, and how many bytes were taken then.
type Begun = (Command, &'static [u8], &'static [u8], Stop, u64);

const BEGUN: &[Begun] = table! {
    (Command::Ints, b"\x18\x05\x18\x06", b"\x06", None, 4),
    (Command::Ints, b"\x18\x05\x00\x40\x00", b"\x00", Some((3, Kind::Mismatch)), 4),
    (Command::Canon, b"\x18\x05\x9f\xff\xf7", b"\x80\xf6", None, 5),
    (Command::Canon, b"\x18\x05\x9f\xff\x1c\x00", b"\x80", Some((4, Kind::Mismatch)), 5),
    (Command::Lens, b"\x18\x05\x82\x01\x02", b"3\n", None, 5),
    (Command::Lens, b"\x18\x05\x82\x01\x02\x62\x61", b"3\n", Some((5, Kind::Eof)), 7),
    (Command::Strict, b"\x18\x05\x05\x80", b"\x05\x80", None, 4),
    (Command::Strict, b"\x18\x05\x05\x18\x05\x00", b"\x05", Some((3, Kind::NotCanonical)), 5),
};

fn outcome_of(stop: Stop) -> Result<(), Fault> {
    match stop {
        None => Ok(()),
        Some((at, kind)) => Err(Fault { at, kind }),
    }
}

fn runs_limited(rt: &(impl Abort + AllocGlobal), row: &Limited, width: usize) -> io::Result<()> {
    let &(command, limit, input, written, stop) = row;
    let stream = BufReader::with_capacity(rt.alloc(), width, input)?;
    let mut reader = IoReader::with_limit(stream, limit);
    let mut writer = IoWriter::new(Output::new(rt.alloc())?);
    let outcome = had_memory(run(rt.alloc(), command, &mut reader, &mut writer))?;
    assert_eq!(rt; outcome, outcome_of(stop), "at {:?}", input);
    is_written(rt, &writer.into_inner(), written, input);
    Ok(())
}

#[test]
fn other_limits(rt: HostRuntime) -> io::Result<()> {
    for row in LIMITED {
        runs_limited(&rt, row, 1)?;
        runs_limited(&rt, row, 64)?;
    }
    Ok(())
}

// Takes the integer, and runs the command over the rest, of which a byte is shown at a time.
fn runs_on(
    rt: &(impl Abort + AllocGlobal),
    row: &Begun,
    good_reads: usize,
    output: Output,
) -> io::Result<(Result<(), Fault>, u64, Output)> {
    let input = Input {
        left: row.1,
        good_reads,
    };
    let mut reader = IoReader::new(BufReader::with_capacity(rt.alloc(), 1, input)?);
    let taken = u64::decode(rt.alloc(), &mut reader);
    assert!(rt; matches!(taken, Ok(5)), "at {:?}", row.1);
    let mut writer = IoWriter::new(output);
    let outcome = had_memory(run(rt.alloc(), row.0, &mut reader, &mut writer))?;
    Ok((outcome, reader.taken(), writer.into_inner()))
}

// The whole run, and the same with a flush that fails, after all that was taken.
fn runs_begun(rt: &(impl Abort + AllocGlobal), row: &Begun, stays: bool) -> io::Result<()> {
    let mut output = Output::new(rt.alloc())?;
    output.stays = stays;
    let (outcome, taken, output) = runs_on(rt, row, usize::MAX, output)?;
    assert_eq!(rt; taken, row.4, "at {:?}", row.1);
    let stop = if stays {
        Some((row.4, Kind::Write))
    } else {
        row.3
    };
    assert_eq!(rt; outcome, outcome_of(stop), "at {:?}", row.1);
    assert_eq!(rt; output.written.as_slice(), row.2, "at {:?}", row.1);
    Ok(())
}

// The first item cannot be read, or what stands for it cannot be written.
fn fails_begun(rt: &(impl Abort + AllocGlobal), row: &Begun) -> io::Result<()> {
    let (outcome, taken, output) = runs_on(rt, row, 2, Output::new(rt.alloc())?)?;
    assert_eq!(rt; taken, 2, "at {:?}", row.1);
    assert_eq!(rt;
        outcome,
        outcome_of(Some((2, Kind::Read))),
        "at {:?}",
        row.1
    );
    assert!(rt; output.written.is_empty(), "at {:?}", row.1);
    let mut output = Output::new(rt.alloc())?;
    output.good_writes = 0;
    let (outcome, _, output) = runs_on(rt, row, usize::MAX, output)?;
    assert_eq!(rt;
        outcome,
        outcome_of(Some((2, Kind::Write))),
        "at {:?}",
        row.1
    );
    assert!(rt; output.written.is_empty(), "at {:?}", row.1);
    Ok(())
}

#[test]
fn after_bytes_that_were_taken(rt: HostRuntime) -> io::Result<()> {
    for row in BEGUN {
        runs_begun(&rt, row, false)?;
        runs_begun(&rt, row, true)?;
        fails_begun(&rt, row)?;
    }
    Ok(())
}
