//! Rows of optional items as arrays.
use crate::borrowed_rows::Kind::OptionalInArray;
use crate::borrowed_rows::{BorrowedRow, lends_rows, rows_alike};
use cbor4ii_items::types::Maybe;
use cbor4ii_vectors::items::reads_items;
use cbor4ii_vectors::rows::{Called, writes_rows};
use cbor4ii_vectors::{eof, mismatch, require_length, table};
use std::test::Fail;

const OPTIONAL_TEXTS: &[Called] = table! {
    ("Maybe<Option<String>>", b"\x80", Ok("Maybe(None)"), b""),
    ("Maybe<Option<String>>", b"\x98\x00\x05", Ok("Maybe(None)"), b"\x05"),
    ("Maybe<Option<String>>", b"\x81\x611", Ok("Maybe(Some(\"1\"))"), b""),
    ("Maybe<Option<String>>", b"\x98\x01\x611", Ok("Maybe(Some(\"1\"))"), b""),
    ("Maybe<Option<String>>", b"", Err(eof!("array", 1)), b""),
    ("Maybe<Option<String>>", b"\x98", Err(eof!("array", 1)), b""),
    ("Maybe<Option<String>>", b"\xf6\x80", Err(mismatch!("array", 0xf6)), b"\x80"),
    ("Maybe<Option<String>>", b"\x83\x611\x612\x613",
        Err(require_length!("maybe", 3)), b"\x611\x612\x613"),
    ("Maybe<Option<String>>", b"\x9a\x00\x01\x00\x00\x07",
        Err(require_length!("maybe", Big)), b"\x07"),
    ("Maybe<Option<String>>", b"\x9f\x611\xff", Err(require_length!("maybe")), b"\x611\xff"),
    ("Maybe<Option<String>>", b"\x81", Err(eof!("str", 1)), b""),
    ("Maybe<Option<String>>", b"\x81\x01\x02", Err(mismatch!("str", 0x01)), b"\x02"),
};

#[test]
fn optional_texts_as_arrays(rt: HostRuntime) -> Result<(), Fail> {
    reads_items(rt.alloc(), OPTIONAL_TEXTS)
}

const WRITTEN_OPTIONAL_NUMBERS: &[(Maybe<&Option<u8>>, &[u8], usize)] = table! {
    (Maybe(&None), b"\x80", 1),
    (Maybe(&Some(1)), b"\x81\x01", 2),
};

#[test]
fn optional_numbers_as_arrays(rt: HostRuntime) -> Result<(), Fail> {
    writes_rows(rt.alloc(), WRITTEN_OPTIONAL_NUMBERS)
}

const OPTIONAL_ARRAYS: &[Called] = table! {
    ("Maybe<Option<Vec<String>>>", b"\x81\x82\x611\x612", Ok("Maybe(Some([\"1\", \"2\"]))"), b""),
    ("Maybe<Option<Vec<String>>>", b"\x80", Ok("Maybe(None)"), b""),
};

const WRITTEN_OPTIONAL_ARRAYS: &[(Maybe<&Option<&[&str]>>, &[u8], usize)] = table! {
    (Maybe(&Some(&["1", "2"])), b"\x81\x82\x611\x612", 6),
    (Maybe(&None), b"\x80", 1),
};

#[test]
fn optional_arrays_as_arrays(rt: HostRuntime) -> Result<(), Fail> {
    let alloc = rt.alloc();
    writes_rows(alloc, WRITTEN_OPTIONAL_ARRAYS)?;
    reads_items(alloc, OPTIONAL_ARRAYS)
}

// Before a borrowed item comes, and where none does, each reader answers alike.
const BEFORE_A_BORROWED_ITEM: &[BorrowedRow] = table! {
    (OptionalInArray, b"\x80\x00", Ok("Maybe(None)"), b"\x00"),
    (OptionalInArray, b"", Err(eof!("array", 1)), b""),
    (OptionalInArray, b"\xf6\x80", Err(mismatch!("array", 0xf6)), b"\x80"),
    (OptionalInArray, b"\x82\x60\x60", Err(require_length!("maybe", 2)), b"\x60\x60"),
    (OptionalInArray, b"\x9f\x60\xff", Err(require_length!("maybe")), b"\x60\xff"),
};

// With its item lent, the array is read.
const BORROWED_ITEMS: &[BorrowedRow] = table! {
    (OptionalInArray, b"\x81\x61a", Ok("Maybe(Some(\"a\"))"), b""),
};

#[test]
fn optional_borrowed_items_as_arrays(rt: HostRuntime) -> Result<(), Fail> {
    let alloc = rt.alloc();
    rows_alike(alloc, BEFORE_A_BORROWED_ITEM)?;
    lends_rows(alloc, BORROWED_ITEMS)
}
