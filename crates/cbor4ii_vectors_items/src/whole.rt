//! Inputs that are one item and nothing else.
use cbor4ii_items::decode::Decode;
use cbor4ii_items::types::Bytes;
use cbor4ii_items::whole::{decode_whole, decode_whole_at};
use cbor4ii_rw::error::{DecodeError, ErrorAt, Never, WholeError};
use cbor4ii_rw::slice_reader::SliceReader;
use cbor4ii_vectors::compared::same;
use cbor4ii_vectors::repeated::repeated;
use cbor4ii_vectors::{eof, mismatch, require_length, require_utf8, table};
use std::alloc::Global;
use std::fmt::{Debug, Display, InlineText};
use std::test::Fail;

// A row: an input, and the text of what is read, or of the error.
type Row = (&'static [u8], Result<&'static str, Why>);

// A row: an input, and the text of what is read, or the byte of the error, and why.
type RowAt = (&'static [u8], Result<&'static str, (usize, Why)>);

// Why an input is not one item.
#[derive(Debug)]
enum Why {
    // The text of the error of reading.
    Decode(&'static str),
    // How many bytes follow.
    Trailing(usize),
}

fn is_value<T: Debug>(value: &T, text: &str) -> bool {
    InlineText::<128>::of(format_args!("{value:?}")).as_str() == text
}

fn is_why(error: &WholeError<DecodeError<Never>>, why: &Why) -> bool {
    match (error, why) {
        (WholeError::Decode(error), Why::Decode(text)) => {
            InlineText::<128>::of(error).as_str() == *text
        }
        (WholeError::Trailing(left), Why::Trailing(wanted)) => *left == *wanted,
        _ => false,
    }
}

fn is_row<T: Debug + Drop>(
    got: &Result<T, WholeError<DecodeError<Never>>>,
    want: &Result<&str, Why>,
) -> bool {
    match (got, want) {
        (Ok(value), Ok(text)) => is_value(value, text),
        (Err(error), Err(why)) => is_why(error, why),
        _ => false,
    }
}

fn reads_whole<T>(alloc: Global, rows: &[Row]) -> Result<(), Fail>
where
    T: Decode<SliceReader<'static>> + Debug + Drop,
{
    for (input, want) in rows {
        reads_row::<T>(alloc, input, want)?;
    }
    Ok(())
}

fn reads_row<T>(alloc: Global, input: &'static [u8], want: &Result<&str, Why>) -> Result<(), Fail>
where
    T: Decode<SliceReader<'static>> + Debug + Drop,
{
    let got = decode_whole::<&'static [u8], T>(alloc, input);
    if is_row(&got, want) {
        return Ok(());
    }
    if matches!(got, Err(WholeError::Decode(DecodeError::OutOfMemory))) {
        return Err(Fail::from(DecodeError::<Never>::OutOfMemory));
    }
    Err(Fail::new(format_args!("{got:?} of {input:?}")))
}

const NUMBERS: &[Row] = table! {
    (b"\x05", Ok("5")),
    (b"\x1b\x00\x00\x00\x00\x00\x00\x00\x05", Ok("5")),
    (b"\x05\x06", Err(Why::Trailing(1))),
    (b"\x18\x05\x06\x07\x08", Err(Why::Trailing(3))),
    (b"", Err(Why::Decode(eof!("u64", 1)))),
    (b"\x19\x05", Err(Why::Decode(eof!("u64", 2)))),
    (b"\x20", Err(Why::Decode(mismatch!("u64", 32)))),
    (b"\x20\x05", Err(Why::Decode(mismatch!("u64", 32)))),
};

const TEXTS: &[Row] = table! {
    (b"\x60", Ok("\"\"")),
    (b"\x62ab", Ok("\"ab\"")),
    (b"\x62abc", Err(Why::Trailing(1))),
    (b"\x62a", Err(Why::Decode(require_length!("str", 1)))),
};

const ARRAYS: &[Row] = table! {
    (b"\x80", Ok("[]")),
    (b"\x82\x01\x02", Ok("[1, 2]")),
    (b"\x9f\x01\x02\xff", Ok("[1, 2]")),
    (b"\x9f\x01\x02\xff\xff", Err(Why::Trailing(1))),
    (b"\x82\x01\x02\x03\x04", Err(Why::Trailing(2))),
    (b"\x82\x01", Err(Why::Decode(eof!("u8", 1)))),
};

#[test]
fn one_item_is_the_whole_input(rt: HostRuntime) -> Result<(), Fail> {
    let alloc = rt.alloc();
    reads_whole::<u64>(alloc, NUMBERS)?;
    reads_whole::<&str>(alloc, TEXTS)?;
    reads_whole::<Vec<u8>>(alloc, ARRAYS)
}

fn is_row_at<T: Debug + Drop>(
    got: &Result<T, ErrorAt<WholeError<DecodeError<Never>>>>,
    want: &Result<&str, (usize, Why)>,
) -> bool {
    match (got, want) {
        (Ok(value), Ok(text)) => is_value(value, text),
        (Err(fault), Err((at, why))) => fault.at == *at && is_why(&fault.error, why),
        _ => false,
    }
}

fn reads_row_at<T>(
    alloc: Global,
    input: &'static [u8],
    want: &Result<&str, (usize, Why)>,
) -> Result<(), Fail>
where
    T: Decode<SliceReader<'static>> + Debug + Drop,
{
    let got = decode_whole_at::<&'static [u8], T>(alloc, input);
    if is_row_at(&got, want) {
        return Ok(());
    }
    if matches!(&got, Err(fault) if fault.error == WholeError::Decode(DecodeError::OutOfMemory)) {
        return Err(Fail::from(DecodeError::<Never>::OutOfMemory));
    }
    Err(Fail::new(format_args!("{got:?} of {input:?}")))
}

fn reads_whole_at<T>(alloc: Global, rows: &[RowAt]) -> Result<(), Fail>
where
    T: Decode<SliceReader<'static>> + Debug + Drop,
{
    for (input, want) in rows {
        reads_row_at::<T>(alloc, input, want)?;
    }
    Ok(())
}

// Cut bytes are all taken, and of another item the first byte is.
const NUMBERS_AT: &[RowAt] = table! {
    (b"\x18\x05", Ok("5")),
    (b"\x05\x06", Err((1, Why::Trailing(1)))),
    (b"\x18\x05\x06\x07\x08", Err((2, Why::Trailing(3)))),
    (b"", Err((0, Why::Decode(eof!("u64", 1))))),
    (b"\x19\x05", Err((2, Why::Decode(eof!("u64", 2))))),
    (b"\x20\x05\x06", Err((1, Why::Decode(mismatch!("u64", 32))))),
};

// Of a signed number another item's first byte stays.
const SIGNED_AT: &[RowAt] = table! {
    (b"\x20", Ok("-1")),
    (b"\x40\x01", Err((0, Why::Decode(mismatch!("i8", 64))))),
};

// The item is taken before its text is tested.
const TEXTS_AT: &[RowAt] = table! {
    (b"\x62ab", Ok("\"ab\"")),
    (b"\x62\xff\xff\x00", Err((3, Why::Decode(require_utf8!("str"))))),
};

// A content that is too short stays.
const LENT_AT: &[RowAt] = table! {
    (b"\x63ab", Err((1, Why::Decode(require_length!("str", 2))))),
};

const ARRAYS_AT: &[RowAt] = table! {
    (b"\x9f\x01\x02\xff\xff", Err((4, Why::Trailing(1)))),
    (b"\x82\x01", Err((2, Why::Decode(eof!("u8", 1))))),
    (b"\x82\x01\x20\x05", Err((3, Why::Decode(mismatch!("u8", 32))))),
};

#[test]
fn an_error_tells_its_byte(rt: HostRuntime) -> Result<(), Fail> {
    let alloc = rt.alloc();
    reads_whole_at::<u64>(alloc, NUMBERS_AT)?;
    reads_whole_at::<i8>(alloc, SIGNED_AT)?;
    reads_whole_at::<String>(alloc, TEXTS_AT)?;
    reads_whole_at::<&str>(alloc, LENT_AT)?;
    reads_whole_at::<Vec<u8>>(alloc, ARRAYS_AT)
}

// How many bytes follow an item, and memory for 5,000 parts, 0x1388, and 100,000 bytes, 0x186a0.
#[test]
fn many_bytes_after_an_item(rt: HostRuntime) -> Result<(), Fail> {
    let alloc = rt.alloc();
    for count in [255, 256, 70_000] {
        let input = repeated(alloc, b"\x05", b"\xff", count, b"")?;
        let got = decode_whole::<&[u8], u8>(alloc, input);
        same(got, Err(WholeError::Trailing(count)))?;
        let error = WholeError::Trailing(count);
        same(
            decode_whole_at::<&[u8], u8>(alloc, input),
            Err(ErrorAt { at: 1, error }),
        )?;
    }
    Ok(())
}

#[test]
fn an_item_of_many_parts(rt: HostRuntime) -> Result<(), Fail> {
    let alloc = rt.alloc();
    let input = repeated(alloc, b"\x99\x13\x88", b"\x05", 5_000, b"")?;
    let want = vec![in alloc; 5u8; 5_000]?;
    are_bytes(&decode_whole::<&[u8], Vec<u8>>(alloc, input)?, &want)?;
    are_bytes(&decode_whole_at::<&[u8], Vec<u8>>(alloc, input)?, &want)?;
    let input = repeated(alloc, b"\x5a\x00\x01\x86\xa0", b"\x05", 100_000, b"")?;
    let want = vec![in alloc; 5u8; 100_000]?;
    are_bytes(
        &decode_whole::<&[u8], Bytes<Vec<u8>>>(alloc, input)?.0,
        &want,
    )?;
    are_bytes(
        &decode_whole_at::<&[u8], Bytes<Vec<u8>>>(alloc, input)?.0,
        &want,
    )
}

fn are_bytes(found: &[u8], want: &[u8]) -> Result<(), Fail> {
    if found == want {
        return Ok(());
    }
    Err(Fail::new(format_args!("{} bytes in the place of {}", found.len(), want.len())))
}

fn is_line<E: Display>(error: &E, line: &str) -> Result<(), Fail> {
    same(InlineText::<64>::of(format_args!("{error}")).as_str(), line)
}

#[test]
fn errors_are_lines() -> Result<(), Fail> {
    let none: WholeError<DecodeError<Never>> = WholeError::from(DecodeError::OutOfMemory);
    is_line(&none, "OutOfMemory")?;
    let error: WholeError<DecodeError<Never>> = WholeError::Trailing(2);
    is_line(&error, "bytes after the item: 2")?;
    is_line(&ErrorAt { at: 3, error }, "byte 3: bytes after the item: 2")
}
