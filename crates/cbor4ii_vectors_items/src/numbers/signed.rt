//! Rows of signed integers: RFC 8949 Appendix A, the edges of each type, and errors.
use cbor4ii_vectors::items::{items_go_both_ways, reads_items};
use cbor4ii_vectors::rows::{Called, writes_in};
use cbor4ii_vectors::{cast_overflow, eof, mismatch, table};
use std::test::Fail;

/// What `i64` and `i128` read and write alike.
pub const SIGNED_INTEGERS: &[(&[u8], &str, usize)] = table! {
    (b"\x17", "23", 1),
    (b"\x20", "-1", 1),
    (b"\x29", "-10", 1),
    (b"\x38\x63", "-100", 1),
    (b"\x38\xff", "-256", 1),
    (b"\x39\x03\xe7", "-1000", 1),
    (b"\x39\xff\xff", "-65536", 1),
    (b"\x3a\xff\xff\xff\xff", "-4294967296", 1),
    (b"\x3b\x7f\xff\xff\xff\xff\xff\xff\xff", "-9223372036854775808", 1),
};

#[test]
fn signed_integers(rt: HostRuntime) -> Result<(), Fail> {
    items_go_both_ways(rt.alloc(), "i64", SIGNED_INTEGERS)
}

#[test]
fn written_signed_integers(rt: HostRuntime) -> Result<(), Fail> {
    let alloc = rt.alloc();
    writes_in(alloc, &-128i8, b"\x38\x7f", 1)?;
    writes_in(alloc, &-256i16, b"\x38\xff", 1)?;
    writes_in(alloc, &-65536i32, b"\x39\xff\xff", 1)
}

const I8: &[Called] = table! {
    ("i8", b"\x38\x7f", Ok("-128"), b""),
    ("i8", b"", Err(eof!("i8", 1)), b""),
    ("i8", b"\x40\x00", Err(mismatch!("i8", 0x40)), b"\x40\x00"),
    ("i8", b"\x38\x80", Err(cast_overflow!("-i8")), b""),
    ("i8", b"\x18\x80\xff", Err(cast_overflow!("+i8")), b"\xff"),
    ("i16", b"\x38\xff", Ok("-256"), b""),
    ("i16", b"\x1a\x00", Err(mismatch!("+i16", 0x1a)), b"\x00"),
    ("i32", b"\x39\xff\xff", Ok("-65536"), b""),
    ("i32", b"\x3a\x00", Err(eof!("-i32", 4)), b""),
    ("i64", b"\x3b\x80\x00\x00\x00\x00\x00\x00\x00", Err(cast_overflow!("-i64")), b""),
};

#[test]
fn signed_integers_by_type(rt: HostRuntime) -> Result<(), Fail> {
    let alloc = rt.alloc();
    reads_items(alloc, I8)
}
