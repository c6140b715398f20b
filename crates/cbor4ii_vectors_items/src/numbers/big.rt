//! Rows of integers of 128 bits: those of one head, bignums (RFC 8949 section 3.4.3), and errors.
use crate::numbers::signed::SIGNED_INTEGERS;
use crate::numbers::unsigned::UNSIGNED_INTEGERS;
use cbor4ii_vectors::items::{items_go_both_ways, reads_items};
use cbor4ii_vectors::rows::{Called, writes_in, writes_rows};
use cbor4ii_vectors::{cast_overflow, eof, length_overflow, mismatch, require_length, table};
use std::test::Fail;

#[test]
fn integers_of_one_head(rt: HostRuntime) -> Result<(), Fail> {
    let alloc = rt.alloc();
    items_go_both_ways(alloc, "u128", UNSIGNED_INTEGERS)?;
    items_go_both_ways(alloc, "i128", UNSIGNED_INTEGERS)?;
    items_go_both_ways(alloc, "i128", SIGNED_INTEGERS)
}

// Bignums above 2^64-1, below -2^64, and the edges of i128.
const ABOVE: &[u8] = b"\xc2\x49\x01\x00\x00\x00\x00\x00\x00\x00\x00";

const BELOW: &[u8] = b"\xc3\x49\x01\x00\x00\x00\x00\x00\x00\x00\x00";

const GREATEST: &[u8] = b"\xc2\x50\x7f\xff\xff\xff\xff\xff\xff\xff\xff\xff\xff\xff\xff\xff\xff\xff";

const LEAST: &[u8] = b"\xc3\x50\x7f\xff\xff\xff\xff\xff\xff\xff\xff\xff\xff\xff\xff\xff\xff\xff";

// The least number that is no bignum.
const LEAST_OF_ONE_HEAD: &[u8] = b"\x3b\xff\xff\xff\xff\xff\xff\xff\xff";

// More bytes than a bignum of 128 bits has, and these after its head.
const SEVENTEEN: &[u8] =
    b"\xc2\x51\x01\x02\x03\x04\x05\x06\x07\x08\x09\x0a\x0b\x0c\x0d\x0e\x0f\x10\x11";

const AFTER_SEVENTEEN: &[u8] =
    b"\x01\x02\x03\x04\x05\x06\x07\x08\x09\x0a\x0b\x0c\x0d\x0e\x0f\x10\x11";

// One more than the greatest number of i128.
const TOO_GREAT: &[u8] =
    b"\xc2\x50\x80\x00\x00\x00\x00\x00\x00\x00\x00\x00\x00\x00\x00\x00\x00\x00";

const U128: &[Called] = table! {
    ("u128", ABOVE, Ok("18446744073709551616"), b""),
    ("u128", b"\xc2\x40", Ok("0"), b""),
    ("u128", b"\xc2\x42\x00\x05\x00", Ok("5"), b"\x00"),
    ("u128", b"\xd8\x02\x41\x05", Ok("5"), b""),
    ("u128", b"", Err(eof!("u128", 1)), b""),
    ("u128", b"\x18", Err(eof!("u64", 1)), b""),
    ("u128", b"\x20", Err(mismatch!("u128", 0x20)), b""),
    ("u128", b"\xd9\x00\x02\x41\x05", Err(mismatch!("u128", 0xd9)), b"\x00\x02\x41\x05"),
    ("u128", b"\xc3\x40", Err(mismatch!("u128::tag", 0x03)), b"\x40"),
    ("u128", b"\xc2\x5f", Err(require_length!("u128::bytes")), b""),
    ("u128", SEVENTEEN, Err(length_overflow!("u128::bytes", 17)), AFTER_SEVENTEEN),
    ("u128", b"\xc2\x42\x01", Err(eof!("u128::bytes", 2)), b""),
    ("i128", ABOVE, Ok("18446744073709551616"), b""),
    ("i128", BELOW, Ok("-18446744073709551617"), b""),
    ("i128", LEAST_OF_ONE_HEAD, Ok("-18446744073709551616"), b""),
    ("i128", GREATEST, Ok("170141183460469231731687303715884105727"), b""),
    ("i128", LEAST, Ok("-170141183460469231731687303715884105728"), b""),
    ("i128", b"\xc3\x40", Ok("-1"), b""),
    ("i128", b"\xd8\x03\x41\x05", Ok("-6"), b""),
    ("i128", b"\x39\x00", Err(eof!("i128", 2)), b""),
    ("i128", b"\xc4\x40", Err(mismatch!("i128::tag", 0x04)), b"\x40"),
    ("i128", b"\xc2\x61\x05", Err(mismatch!("+i128::bytes", 0x61)), b"\x05"),
    ("i128", b"\xc3\x41", Err(eof!("-i128::bytes", 1)), b""),
    ("i128", TOO_GREAT, Err(cast_overflow!("i128")), b""),
};

// What is written, and in how many pushes.
const WRITTEN_I128: &[(i128, &[u8], usize)] = table! {
    (18_446_744_073_709_551_616, ABOVE, 3),
    (-18_446_744_073_709_551_617, BELOW, 3),
    (-18_446_744_073_709_551_616, LEAST_OF_ONE_HEAD, 1),
    (i128::MAX, GREATEST, 3),
    (i128::MIN, LEAST, 3),
};

#[test]
fn bignums(rt: HostRuntime) -> Result<(), Fail> {
    let alloc = rt.alloc();
    reads_items(alloc, U128)?;
    writes_in(alloc, &18_446_744_073_709_551_616u128, ABOVE, 3)?;
    writes_rows(alloc, WRITTEN_I128)
}
