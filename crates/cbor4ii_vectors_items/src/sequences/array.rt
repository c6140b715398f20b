//! Rows of arrays, read: ones of definite and of indefinite length, nesting, and errors.
use crate::borrowed_rows::Kind::{ArraysOfTexts, ByteStrings, Texts};
use crate::borrowed_rows::{BorrowedRow, answers_alike, lends_rows, rows_alike};
use cbor4ii_items::types::Nothing;
use cbor4ii_rw::slice_reader::SliceReader;
use cbor4ii_vectors::compared::same;
use cbor4ii_vectors::items::{Items, items_go_both_ways, reads_items, reads_items_within};
use cbor4ii_vectors::readers::TestReader;
use cbor4ii_vectors::rows::{Called, CalledWithin, reads_all};
use cbor4ii_vectors::{eof, mismatch, no_step, require_length, table};
use std::test::Fail;

// 1 to 25 after their number.
const DEFINITE: &[u8] = &[
    0x98, 0x19, 1, 2, 3, 4, 5, 6, 7, 8, 9, 10, 11, 12, 13, 14, 15, 16, 17, 18, 19, 20, 21, 22, 23,
    0x18, 24, 0x18, 25,
];

/// 1 to 25, up to a break.
pub const INDEFINITE: &[u8] = &[
    0x9f, 1, 2, 3, 4, 5, 6, 7, 8, 9, 10, 11, 12, 13, 14, 15, 16, 17, 18, 19, 20, 21, 22, 23, 0x18,
    24, 0x18, 25, 0xff,
];

const ONE_TO_25: &str = "[1, 2, 3, 4, 5, 6, 7, 8, 9, 10, 11, 12, 13, 14, 15, 16, 17, 18, 19, 20, \
21, 22, 23, 24, 25]";

const ARRAYS: &[Called] = table! {
    ("Vec<u8>", b"\x83\x01\x02\x03\x04", Ok("[1, 2, 3]"), b"\x04"),
    ("Vec<u8>", b"\x98\x03\x01\x02\x03\x04", Ok("[1, 2, 3]"), b"\x04"),
    ("Vec<u8>", b"\x9f\x01\x02\x03\xff\x04", Ok("[1, 2, 3]"), b"\x04"),
    ("Vec<u8>", b"", Err(eof!("array", 1)), b""),
    ("Vec<u8>", b"\x98", Err(eof!("array", 1)), b""),
    ("Vec<u8>", b"\x9a\x00\x01", Err(eof!("array", 4)), b""),
    ("Vec<u8>", b"\x01\x02", Err(mismatch!("array", 0x01)), b"\x02"),
    ("Vec<u8>", b"\xa0\x02", Err(mismatch!("array", 0xa0)), b"\x02"),
    ("Vec<u8>", b"\x9c\x02", Err(mismatch!("array", 0x9c)), b"\x02"),
    ("Vec<u8>", b"\xbf\xff", Err(mismatch!("array", 0xbf)), b"\xff"),
    ("Vec<u8>", b"\x82\x01", Err(eof!("u8", 1)), b""),
    ("Vec<u8>", b"\x82\x01\x61", Err(mismatch!("u8", 0x61)), b""),
    ("Vec<u8>", b"\x82\x01\xff\x02", Err(mismatch!("u8", 0xff)), b"\x02"),
    ("Vec<u8>", b"\x9f", Err(eof!("break", 1)), b""),
    ("Vec<u8>", b"\x9f\x01", Err(eof!("break", 1)), b""),
    ("Vec<u8>", b"\x9f\x01\x61\xff", Err(mismatch!("u8", 0x61)), b"\xff"),
    ("Vec<u8>", INDEFINITE, Ok(ONE_TO_25), b""),
};

#[test]
fn arrays_of_numbers(rt: HostRuntime) -> Result<(), Fail> {
    reads_items(rt.alloc(), ARRAYS)
}

// What is read, and in how many pushes it is written.
const WRITTEN: &[(&[u8], &str, usize)] = table! {
    (b"\x80", "[]", 1),
    (b"\x83\x01\x02\x03", "[1, 2, 3]", 4),
    (DEFINITE, ONE_TO_25, 26),
};

#[test]
fn arrays_read_and_written(rt: HostRuntime) -> Result<(), Fail> {
    items_go_both_ways(rt.alloc(), "Vec<u8>", WRITTEN)
}

const FLAGS: &[Called] = table! {
    ("Vec<bool>", b"\x9f\xf5\xf4\xff", Ok("[true, false]"), b""),
    ("Vec<Option<u8>>", b"\x9f\x01\xf6\x02\xff", Ok("[Some(1), None, Some(2)]"), b""),
    ("Vec<Option<u8>>", b"\x82\xf6\x61", Err(mismatch!("u8", 0x61)), b""),
};

#[test]
fn arrays_of_other_items(rt: HostRuntime) -> Result<(), Fail> {
    let alloc = rt.alloc();
    reads_items(alloc, FLAGS)
}

const NOTHING: &[Called] = table! {
    ("Vec<Nothing>", b"\x9f\x00", Err(require_length!("array")), b"\x00"),
    ("Vec<Nothing>", b"\x9f\xff", Ok("[]"), b""),
    ("Vec<Nothing>", b"\x83", Ok("[Nothing, Nothing, Nothing]"), b""),
    ("Vec<Option<Nothing>>", b"\x9f\xf6\xff", Err(require_length!("array")), b"\xf6\xff"),
};

// Items that may take no byte are counted: up to a break there might be any number of them.
#[test]
fn arrays_of_nothing(rt: HostRuntime) -> Result<(), Fail> {
    let alloc = rt.alloc();
    reads_items(alloc, NOTHING)
}

// The steps of the greatest limit do not run over.
const STEPS: &[CalledWithin] = table! {
    ("Vec<u8>", b"\x80", 0, Err(no_step!("array")), b"\x80"),
    ("Vec<u8>", b"\x81\x05", usize::MAX, Ok("[5]"), b""),
    ("Vec<Vec<u8>>", b"\x81\x80", 1, Err(no_step!("array")), b"\x80"),
    ("Vec<Vec<u8>>", b"\x9f\x80", 1, Err(no_step!("array")), b"\x80"),
    ("Vec<Vec<u8>>", b"", 0, Err(no_step!("array")), b""),
    ("Vec<Vec<u8>>", b"\x80", 1, Ok("[]"), b""),
    ("Vec<Vec<u8>>", b"\x81\x80", 2, Ok("[[]]"), b""),
    ("Vec<Vec<u8>>", b"\x82\x81\x01\x9f\x02\x03\xff", 2, Ok("[[1], [2, 3]]"), b""),
};

#[test]
fn a_step_for_each_array(rt: HostRuntime) -> Result<(), Fail> {
    let alloc = rt.alloc();
    reads_items_within(alloc, STEPS)
}

const TEXTS: &[Called] = table! {
    ("Vec<String>", b"\x9f\x7f\xff\x61a\xff", Ok("[\"\", \"a\"]"), b""),
};

const STEPS_OF_TEXTS: &[CalledWithin] = table! {
    ("Vec<String>", b"\x9f\x7f\x61a\xff\xff", 2, Ok("[\"a\"]"), b""),
    ("Vec<String>", b"\x9f\x7f\x61a\xff\xff", 1, Err(no_step!("str")), b"\x61a\xff\xff"),
};

#[test]
fn arrays_of_texts(rt: HostRuntime) -> Result<(), Fail> {
    let alloc = rt.alloc();
    reads_items(alloc, TEXTS)?;
    reads_items_within(alloc, STEPS_OF_TEXTS)
}

// Before a first item comes, an array of borrowed items is rejected alike over every reader.
const BEFORE_A_BORROWED_ITEM: &[BorrowedRow] = table! {
    (Texts, b"", Err(eof!("array", 1)), b""),
    (Texts, b"\x9f", Err(eof!("break", 1)), b""),
    (Texts, b"\xa0\x00", Err(mismatch!("array", 0xa0)), b"\x00"),
    (Texts, b"\x99\x01", Err(eof!("array", 2)), b""),
    (Texts, b"\x81\x40\x00", Err(mismatch!("str", 0x40)), b"\x00"),
};

// With its items lent, the array is read.
const BORROWED_ITEMS: &[BorrowedRow] = table! {
    (Texts, b"\x82\x61a\x62bc", Ok("[\"a\", \"bc\"]"), b""),
    (ByteStrings, b"\x9f\x41\x07\xff", Ok("[Bytes([7])]"), b""),
};

#[test]
fn arrays_of_borrowed_items(rt: HostRuntime) -> Result<(), Fail> {
    let alloc = rt.alloc();
    rows_alike(alloc, BEFORE_A_BORROWED_ITEM)?;
    lends_rows(alloc, BORROWED_ITEMS)
}

#[test]
fn a_step_before_borrowed_items(rt: HostRuntime) -> Result<(), Fail> {
    let alloc = rt.alloc();
    let no_step = Err(no_step!("array"));
    answers_alike(alloc, 0, (Texts, b"\x80", no_step, b"\x80"))?;
    answers_alike(alloc, 0, (Texts, b"", no_step, b""))?;
    answers_alike(alloc, 1, (ArraysOfTexts, b"\x9f\x80", no_step, b"\x80"))
}

// In the tests below a decoder is the first that takes memory, so that each of its growths can be
// refused in turn.
//
// 300 items, more than are reserved before any came: 0x99 0x01 0x2c is the head of such an array.
#[test]
fn arrays_of_300_numbers(rt: HostRuntime) -> Result<(), Fail> {
    let mut bytes = [0x05; 303];
    bytes[..3].copy_from_slice(b"\x99\x01\x2c");
    let numbers: Vec<u8> = reads_all(rt.alloc(), &mut SliceReader::new(&bytes), &bytes)?;
    same(numbers.as_slice(), &[0x05; 300])
}

// 300 items up to a break, with no more steps than are needed.
#[test]
fn indefinite_arrays_of_300_numbers(rt: HostRuntime) -> Result<(), Fail> {
    let mut bytes = [0x05; 302];
    bytes[0] = 0x9f;
    bytes[301] = 0xff;
    let mut short = TestReader::short(&bytes, 1);
    let numbers: Vec<u8> = reads_all(rt.alloc(), &mut short, &bytes)?;
    same(numbers.as_slice(), &[0x05; 300])
}

// An indefinite-length array of 20 texts of one letter: 0x61 is the head of such a text, and the
// letter a.
#[test]
fn indefinite_arrays_of_20_texts(rt: HostRuntime) -> Result<(), Fail> {
    let mut bytes = [0x61; 42];
    bytes[0] = 0x9f;
    bytes[41] = 0xff;
    let mut short = TestReader::short(&bytes, 256);
    let texts: Vec<String> = reads_all(rt.alloc(), &mut short, &bytes)?;
    are_20_letters(&texts)
}

fn are_20_letters(texts: &[String]) -> Result<(), Fail> {
    same(texts.len(), 20)?;
    for text in texts {
        same(text.as_str(), "a")?;
    }
    Ok(())
}

#[test]
fn arrays_of_300_times_nothing(rt: HostRuntime) -> Result<(), Fail> {
    let bytes = b"\x99\x01\x2c";
    let none: Vec<Nothing> = reads_all(rt.alloc(), &mut SliceReader::new(bytes), bytes)?;
    same(none.len(), 300)
}
