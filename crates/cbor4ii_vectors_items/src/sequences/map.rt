//! Rows of maps, read: ones of definite and of indefinite length, and errors.
use crate::borrowed_rows::Kind::{NumbersToTexts, TextsToNumbers};
use crate::borrowed_rows::{BorrowedRow, answers_alike, lends_rows, rows_alike};
use cbor4ii_items::types::Map;
use cbor4ii_rw::slice_reader::SliceReader;
use cbor4ii_vectors::compared::same;
use cbor4ii_vectors::items::{reads_items, reads_items_within};
use cbor4ii_vectors::rows::{Called, CalledWithin, reads_all};
use cbor4ii_vectors::{eof, mismatch, no_step, require_length, table};
use std::test::Fail;

const MAPS: &[Called] = table! {
    ("Map<Vec<(u8, u8)>>", b"\xa0", Ok("Map([])"), b""),
    ("Map<Vec<(u8, u8)>>", b"\xb8\x02\x01\x02\x03\x04", Ok("Map([(1, 2), (3, 4)])"), b""),
    ("Map<Vec<(u8, u8)>>", b"\xa2\x01\x02\x03\x04", Ok("Map([(1, 2), (3, 4)])"), b""),
    ("Map<Vec<(u8, u8)>>", b"\xbf\x01\x02\x03\x04\xff", Ok("Map([(1, 2), (3, 4)])"), b""),
    ("Map<Vec<(u8, u8)>>", b"\xa2\x01\x02\x01\x03", Ok("Map([(1, 2), (1, 3)])"), b""),
    ("Map<Vec<(u8, u8)>>", b"\xbf\x01\x02\xff", Ok("Map([(1, 2)])"), b""),
    ("Map<Vec<(u8, u8)>>", b"", Err(eof!("map", 1)), b""),
    ("Map<Vec<(u8, u8)>>", b"\xb9\x01", Err(eof!("map", 2)), b""),
    ("Map<Vec<(u8, u8)>>", b"\x80\x01", Err(mismatch!("map", 0x80)), b"\x01"),
    ("Map<Vec<(u8, u8)>>", b"\xa1\x01", Err(eof!("u8", 1)), b""),
    ("Map<Vec<(u8, u8)>>", b"\xa1\x61\x02", Err(mismatch!("u8", 0x61)), b"\x02"),
    ("Map<Vec<(u8, u8)>>", b"\xa1\xff\x02", Err(mismatch!("u8", 0xff)), b"\x02"),
    ("Map<Vec<(u8, u8)>>", b"\xbf\x01\xff", Err(mismatch!("u8", 0xff)), b""),
    ("Map<Vec<(u8, u8)>>", b"\xbf\x01\x02", Err(eof!("break", 1)), b""),
};

#[test]
fn maps(rt: HostRuntime) -> Result<(), Fail> {
    reads_items(rt.alloc(), MAPS)
}

const STEPS: &[CalledWithin] = table! {
    ("Map<Vec<(u8, u8)>>", b"\xa0", 0, Err(no_step!("map")), b"\xa0"),
};

#[test]
fn a_step_for_a_map(rt: HostRuntime) -> Result<(), Fail> {
    reads_items_within(rt.alloc(), STEPS)
}

const LETTERS: &str =
    "Map([(\"a\", \"A\"), (\"b\", \"B\"), (\"c\", \"C\"), (\"d\", \"D\"), (\"e\", \"E\")])";

const TEXTS: &[Called] = table! {
    ("Map<Vec<(String, String)>>", b"\xa5\x61a\x61A\x61b\x61B\x61c\x61C\x61d\x61D\x61e\x61E",
        Ok(LETTERS), b""),
};

#[test]
fn a_map_of_texts(rt: HostRuntime) -> Result<(), Fail> {
    reads_items(rt.alloc(), TEXTS)
}

const NOTHING: &[Called] = table! {
    ("Map<Vec<(Nothing, Nothing)>>", b"\xbf\xff", Ok("Map([])"), b""),
    ("Map<Vec<(Nothing, Nothing)>>", b"\xbf\x00", Err(require_length!("map")), b"\x00"),
    ("Map<Vec<(Nothing, u8)>>", b"\xbf\x05\xff", Ok("Map([(Nothing, 5)])"), b""),
};

// Pairs that may take no byte are counted. One part of a pair may take none.
#[test]
fn maps_of_nothing(rt: HostRuntime) -> Result<(), Fail> {
    let alloc = rt.alloc();
    reads_items(alloc, NOTHING)
}

// Before a first borrowed slice comes, a map is rejected alike over every reader.
const BEFORE_A_BORROWED_PART: &[BorrowedRow] = table! {
    (NumbersToTexts, b"", Err(eof!("map", 1)), b""),
    (NumbersToTexts, b"\xbf", Err(eof!("break", 1)), b""),
    (NumbersToTexts, b"\x80\x00", Err(mismatch!("map", 0x80)), b"\x00"),
    (NumbersToTexts, b"\xba\x01", Err(eof!("map", 4)), b""),
    (NumbersToTexts, b"\xa1\x61\x02", Err(mismatch!("u8", 0x61)), b"\x02"),
};

// With its borrowed slices lent, the map is read.
const BORROWED_PARTS: &[BorrowedRow] = table! {
    (TextsToNumbers, b"\xa1\x61a\x01", Ok("Map([(\"a\", 1)])"), b""),
};

#[test]
fn maps_of_borrowed_parts(rt: HostRuntime) -> Result<(), Fail> {
    let alloc = rt.alloc();
    rows_alike(alloc, BEFORE_A_BORROWED_PART)?;
    lends_rows(alloc, BORROWED_PARTS)
}

#[test]
fn a_step_before_borrowed_parts(rt: HostRuntime) -> Result<(), Fail> {
    let alloc = rt.alloc();
    let no_step = Err(no_step!("map"));
    answers_alike(alloc, 0, (TextsToNumbers, b"\xa0", no_step, b"\xa0"))
}

// Here a decoder is the first that takes memory, so that each of its growths can be refused.
//
// 300 pairs: 0xb9 0x01 0x2c is the head of such a map.
#[test]
fn maps_of_300_pairs(rt: HostRuntime) -> Result<(), Fail> {
    let mut bytes = [0x05; 603];
    bytes[..3].copy_from_slice(b"\xb9\x01\x2c");
    let mut slice = SliceReader::new(&bytes);
    let pairs: Map<Vec<(u8, u8)>> = reads_all(rt.alloc(), &mut slice, &bytes)?;
    same(pairs.0.as_slice(), &[(5, 5); 300])
}
