//! What `canon`, `lens` and `strict` make of one item, or of what is none.
use super::streams::Output;
use super::table::table;
use super::{had_memory, is_written};
use crate::command::Command;
use crate::fault::{Fault, Kind};
use crate::run::run;
use cbor4ii::utils::{IoReader, IoWriter};
use std::alloc::{AllocError, Global};
use std::io::{self, BufReader};
use std::process::Abort;

// What is written for an input, or the kind of the fault at 0.
type Want = Result<&'static [u8], Kind>;

const LEAST: &[u8] = b"\x3b\xff\xff\xff\xff\xff\xff\xff\xff";

// 2^64 + 98, as a bignum.
const BIG: &[u8] = b"\xc2\x49\x01\x00\x00\x00\x00\x00\x00\x00\x62";

// -2^64 - 1, as a bignum.
const BELOW: &[u8] = b"\xc3\x49\x01\x00\x00\x00\x00\x00\x00\x00\x00";

// A byte string of 2^64 - 1 bytes, of which one comes.
const CUT: &[u8] = b"\x5b\xff\xff\xff\xff\xff\xff\xff\xff\x00";

// A map of "bar" to a map of "value" to 153.
const BAR: &[u8] = b"\xa1\x63bar\xa1\x65value\x18\x99";

// [1, [2, 3], [4, 5]].
const NUMBERS: &[u8] = b"\x83\x01\x82\x02\x03\x82\x04\x05";

// An input, and what `canon` and `lens` make of it.
const ITEMS: &[(&[u8], Want, Want)] = table! {
    (b"", Ok(b""), Ok(b"")),
    (b"\x1b\x00\x00\x00\x00\x00\x00\x00\x05", Ok(b"\x05"), Ok(b"9\n")),
    (LEAST, Ok(LEAST), Ok(b"9\n")),
    (b"\x5b\xff\xff\xff\xff\xff\xff\xff\xff", Err(Kind::Eof), Err(Kind::Eof)),
    (CUT, Err(Kind::Eof), Err(Kind::Eof)),
    (b"\x82\x01\x02\x03", Ok(b"\x82\x01\x02\x03"), Ok(b"3\n1\n")),
    (BELOW, Ok(BELOW), Ok(b"11\n")),
    (b"\x5f\x5f\xff\xff", Err(Kind::RequireLength), Ok(b"4\n")),
    (b"\x5f\x80\xff", Err(Kind::Mismatch), Ok(b"3\n")),
    (b"\x61\xff", Err(Kind::RequireUtf8), Ok(b"2\n")),
    (b"\x9f\x01", Err(Kind::Eof), Err(Kind::Eof)),
    (b"\xbf\x01\xff", Err(Kind::Unsupported), Err(Kind::Unsupported)),
    (b"\xe0", Err(Kind::Unsupported), Err(Kind::Unsupported)),
    (b"\xf7", Ok(b"\xf6"), Ok(b"1\n")),
    (BIG, Ok(BIG), Ok(b"11\n")),
    (BAR, Ok(BAR), Ok(b"14\n")),
    (b"\x8a", Err(Kind::Eof), Err(Kind::Eof)),
    (b"\x7a\x86", Err(Kind::Eof), Err(Kind::Eof)),
    (b"\x63\x61\x61", Err(Kind::Eof), Err(Kind::Eof)),
    (b"\x19\x00", Err(Kind::Eof), Err(Kind::Eof)),
    (b"\x1c\x00", Err(Kind::Mismatch), Err(Kind::Mismatch)),
    (b"\x5c", Err(Kind::Mismatch), Err(Kind::Mismatch)),
    (b"\xff", Err(Kind::Unsupported), Err(Kind::Unsupported)),
    (b"\xf8\x14", Err(Kind::Unsupported), Err(Kind::Unsupported)),
};

// Items with indefinite lengths and longer heads (RFC 8949 appendix A, and others).
const READ: &[(&[u8], Want, Want)] = table! {
    (b"\x5f\x42\x01\x02\x43\x03\x04\x05\xff", Ok(b"\x45\x01\x02\x03\x04\x05"), Ok(b"9\n")),
    (b"\x7f\x65strea\x64ming\xff", Ok(b"\x69streaming"), Ok(b"13\n")),
    (b"\x9f\xff", Ok(b"\x80"), Ok(b"2\n")),
    (b"\x9f\x01\x82\x02\x03\x9f\x04\x05\xff\xff", Ok(NUMBERS), Ok(b"10\n")),
    (b"\x9f\x01\x82\x02\x03\x82\x04\x05\xff", Ok(NUMBERS), Ok(b"9\n")),
    (b"\x83\x01\x82\x02\x03\x9f\x04\x05\xff", Ok(NUMBERS), Ok(b"9\n")),
    (b"\x83\x01\x9f\x02\x03\xff\x82\x04\x05", Ok(NUMBERS), Ok(b"9\n")),
    (b"\xbf\x61a\x01\x61b\x9f\x02\x03\xff\xff", Ok(b"\xa2\x61a\x01\x61b\x82\x02\x03"), Ok(b"11\n")),
    (b"\x82\x61a\xbf\x61b\x61c\xff", Ok(b"\x82\x61a\xa1\x61b\x61c"), Ok(b"9\n")),
    (b"\xbf\x63Fun\xf5\x63Amt\x21\xff", Ok(b"\xa2\x63Fun\xf5\x63Amt\x21"), Ok(b"12\n")),
    (b"\x9f\x7f\xff\x61a\xff", Ok(b"\x82\x60\x61a"), Ok(b"6\n")),
    (b"\x82\x7f\xff\x61a", Ok(b"\x82\x60\x61a"), Ok(b"5\n")),
    (b"\xa1\x7f\x61k\xff\x01", Ok(b"\xa1\x61k\x01"), Ok(b"6\n")),
    (b"\x9f\x5f\x41\x01\xff\x41\x02\xff", Ok(b"\x82\x41\x01\x41\x02"), Ok(b"8\n")),
    (b"\xdb\x00\x00\x00\x00\x00\x00\x00\x2a\x00", Ok(b"\xd8\x2a\x00"), Ok(b"10\n")),
    (b"\xa2\x01\x02\x01\x03", Ok(b"\xa2\x01\x02\x01\x03"), Ok(b"5\n")),
};

// An empty array in so many arrays of one item: whether it is a value within 256 steps, and what
// `lens` makes of it.
const NESTED: &[(usize, bool, Want)] = table! {
    (127, true, Ok(b"128\n")),
    (128, false, Ok(b"129\n")),
    (255, false, Ok(b"256\n")),
    (256, false, Err(Kind::DepthOverflow)),
};

// Values in their canonical encoding.
const WRITTEN: &[&[u8]] = table! {
    b"\x45\x01\x02\x03\x04\x05",
    b"\x69\x73\x74\x72\x65\x61\x6d\x69\x6e\x67",
    b"\x80",
    b"\x83\x01\x82\x02\x03\x82\x04\x05",
    b"\xa2\x61\x61\x01\x61\x62\x82\x02\x03",
    b"\x82\x61\x61\xa1\x61\x62\x61\x63",
    b"\xa2\x63\x46\x75\x6e\xf5\x63\x41\x6d\x74\x21",
    b"\x82\x60\x61\x61",
    b"\xa1\x61\x6b\x01",
    b"\x82\x41\x01\x41\x02",
    b"\xd8\x2a\x00",
    b"\xa2\x01\x02\x01\x03",
};

/// An empty array in so many arrays of one item. The bytes stay for good.
pub fn nested(alloc: Global, count: usize) -> Result<&'static [u8], AllocError> {
    let mut bytes = vec![in alloc; 0x81; count]?;
    bytes.push(0x80)?;
    Ok(bytes.leak())
}

// Runs the command over the input, of which `width` bytes are shown at a time.
fn converts(
    rt: &(impl Abort + AllocGlobal),
    command: Command,
    input: &[u8],
    width: usize,
    want: Result<&[u8], Kind>,
) -> io::Result<()> {
    let mut reader = IoReader::new(BufReader::with_capacity(rt.alloc(), width, input)?);
    let mut writer = IoWriter::new(Output::new(rt.alloc())?);
    let outcome = had_memory(run(rt.alloc(), command, &mut reader, &mut writer))?;
    let (want, written) = match want {
        Ok(written) => (Ok(()), written),
        Err(kind) => (Err(Fault { at: 0, kind }), b"".as_slice()),
    };
    assert_eq!(rt; outcome, want, "at {:?}", input);
    is_written(rt, &writer.into_inner(), written, input);
    Ok(())
}

// The input is shown a byte at a time, and as a whole.
fn converts_by_each(
    rt: &(impl Abort + AllocGlobal),
    command: Command,
    input: &[u8],
    want: Result<&[u8], Kind>,
) -> io::Result<()> {
    converts(rt, command, input, 1, want)?;
    converts(rt, command, input, 512, want)
}

fn rows_hold(rt: &(impl Abort + AllocGlobal), rows: &[(&[u8], Want, Want)]) -> io::Result<()> {
    for (input, canonical_encoding, lens) in rows {
        converts_by_each(rt, Command::Canon, input, *canonical_encoding)?;
        converts_by_each(rt, Command::Lens, input, *lens)?;
    }
    Ok(())
}

#[test]
fn one_item(rt: HostRuntime) -> io::Result<()> {
    rows_hold(&rt, ITEMS)
}

#[test]
fn items_of_other_encodings(rt: HostRuntime) -> io::Result<()> {
    rows_hold(&rt, READ)
}

#[test]
fn nested_items(rt: HostRuntime) -> io::Result<()> {
    for &(count, is_value, lens) in NESTED {
        let input = nested(rt.alloc(), count)?;
        let canonical_encoding = if is_value {
            Ok(input)
        } else {
            Err(Kind::DepthOverflow)
        };
        converts_by_each(&rt, Command::Canon, input, canonical_encoding)?;
        converts_by_each(&rt, Command::Strict, input, canonical_encoding)?;
        converts_by_each(&rt, Command::Lens, input, lens)?;
    }
    Ok(())
}

#[test]
fn canonical_encodings_stay(rt: HostRuntime) -> io::Result<()> {
    for input in WRITTEN {
        converts_by_each(&rt, Command::Strict, input, Ok(input))?;
    }
    Ok(())
}
