//! Rows of optional items.
use crate::borrowed_rows::Kind::Optional;
use crate::borrowed_rows::{BorrowedRow, lends_rows, rows_alike};
use cbor4ii_vectors::items::{reads_items, reads_items_within};
use cbor4ii_vectors::rows::{Called, CalledWithin};
use cbor4ii_vectors::{eof, mismatch, table};
use std::test::Fail;

const OPTIONAL_NUMBERS: &[Called] = table! {
    ("Option<u8>", b"\xf7", Ok("None"), b""),
    ("Option<u8>", b"\x05", Ok("Some(5)"), b""),
    ("Option<u8>", b"\xf4\x01", Err(mismatch!("u8", 0xf4)), b"\x01"),
    ("Option<F32>", b"\xfa\x7f\x7f\xff\xff", Ok("Some(F32(2139095039))"), b""),
    ("Option<F32>", b"\xf6", Ok("None"), b""),
    ("Option<F32>", b"\xf7\x01", Ok("None"), b"\x01"),
    ("Option<Nothing>", b"\xf6", Ok("None"), b""),
    ("Option<Nothing>", b"\x00", Ok("Some(Nothing)"), b"\x00"),
    ("Option<Nothing>", b"", Err(eof!("option", 1)), b""),
};

#[test]
fn optional_items(rt: HostRuntime) -> Result<(), Fail> {
    let alloc = rt.alloc();
    reads_items(alloc, OPTIONAL_NUMBERS)
}

const LEAST_AND_GREATEST: &[CalledWithin] = table! {
    ("Option<u8>", b"\x05", 0, Ok("Some(5)"), b""),
    ("Option<u8>", b"\x05", usize::MAX, Ok("Some(5)"), b""),
    ("Option<u8>", b"\xf6", 0, Ok("None"), b""),
    ("Option<u8>", b"\xf6", usize::MAX, Ok("None"), b""),
};

// What takes no step is read where none is left, and as many as a limit can be do not run over.
#[test]
fn the_least_and_the_greatest_limit(rt: HostRuntime) -> Result<(), Fail> {
    reads_items_within(rt.alloc(), LEAST_AND_GREATEST)
}

// Before a borrowed item comes, and where none does, each reader answers alike.
const BEFORE_A_BORROWED_ITEM: &[BorrowedRow] = table! {
    (Optional, b"", Err(eof!("option", 1)), b""),
    (Optional, b"\xf6\x00", Ok("None"), b"\x00"),
    (Optional, b"\xf7\x00", Ok("None"), b"\x00"),
};

// An item that is lent is read.
const BORROWED_ITEMS: &[BorrowedRow] = table! {
    (Optional, b"\x61a", Ok("Some(\"a\")"), b""),
};

#[test]
fn optional_borrowed_items(rt: HostRuntime) -> Result<(), Fail> {
    let alloc = rt.alloc();
    rows_alike(alloc, BEFORE_A_BORROWED_ITEM)?;
    lends_rows(alloc, BORROWED_ITEMS)
}
