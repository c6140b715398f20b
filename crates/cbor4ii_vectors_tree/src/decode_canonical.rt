//! Values that are read from their canonical encoding alone: what is rejected.
//!
//! What is read stands with the rows of `decode_value.rt`, and of `decode_value/growth.rt`.
use crate::item::Item;
use cbor4ii_tree::Canonical;
use cbor4ii_vectors::rows::{reads, reads_within};
use cbor4ii_vectors::{eof, mismatch, no_step, not_canonical, require_utf8, table, unsupported};
use std::alloc::{AllocError, Global};
use std::test::Fail;

// An encoding, and not the canonical one.
const OTHER: &str = not_canonical!("canonical");

// What is no canonical encoding of a value, and what begins none: the error, and what is left.
type Rejected = (&'static [u8], &'static str, &'static [u8]);

const REJECTED: &[Rejected] = table! {
    (b"\x9f", OTHER, b""),
    (b"\x5f", OTHER, b""),
    (b"\xf7", OTHER, b""),
    (b"\x18", eof!("u64", 1), b""),
    (b"\x1b\x00\x00", eof!("u64", 8), b""),
    (b"\x18\x05\x00", OTHER, b"\x00"),
    (b"\x58\x01", OTHER, b""),
    (b"\x78\x01\xff", OTHER, b"\xff"),
    (b"\xd8\x02\x41\x05", OTHER, b"\x41\x05"),
    (b"\x61\xff", require_utf8!("str"), b""),
    (b"\xf8\x14", unsupported!("value", 248), b"\xf8\x14"),
    (b"", eof!("value", 1), b""),
    (b"\x8a", eof!("value", 1), b""),
    (b"\x7a\x86", eof!("str", 4), b""),
    (b"\x42\x01", eof!("bytes", 1), b""),
    (b"\x1c\x00", mismatch!("u64", 28), b"\x00"),
    (b"\x3f\x00", mismatch!("-u64", 63), b"\x00"),
    (b"\xdf\x00", mismatch!("tag", 223), b"\x00"),
    (b"\xff\x00", unsupported!("value", 255), b"\xff\x00"),
    (b"\x7f\x61\x61\xff", OTHER, b"\x61\x61\xff"),
    (b"\xbf\xff", OTHER, b"\xff"),
    (b"\x38\x17", OTHER, b""),
    (b"\x19\x00\xff", OTHER, b""),
    (b"\x1a\x00\x00\xff\xff", OTHER, b""),
    (b"\x1b\x00\x00\x00\x00\xff\xff\xff\xff", OTHER, b""),
    (b"\x98\x01\x05", OTHER, b"\x05"),
    (b"\xb8\x01\x01\x02", OTHER, b"\x01\x02"),
    (b"\x83\x01\x82\x02\x03\x9f\x04\x05\xff", OTHER, b"\x04\x05\xff"),
    (b"\x82\x61\x61\xbf\x61\x62\x61\x63\xff", OTHER, b"\x61\x62\x61\x63\xff"),
    (b"\x82\x7f\xff\x61\x61", OTHER, b"\xff\x61\x61"),
    (b"\xa1\x7f\x61\x6b\xff\x01", OTHER, b"\x61\x6b\xff\x01"),
    (b"\xdb\x00\x00\x00\x00\x00\x00\x00\x2a\x00", OTHER, b"\x00"),
    (b"\x82\xf6\xf7\x00", OTHER, b"\x00"),
    (b"\xa1\x18\x17\x00", OTHER, b"\x00"),
    // A head of each width that is as short as can be, with no byte after it, and one that is
    // longer.
    (b"\x97", eof!("value", 1), b""),
    (b"\x98\x18", eof!("value", 1), b""),
    (b"\x98\xff", eof!("value", 1), b""),
    (b"\x99\x01\x00", eof!("value", 1), b""),
    (b"\x9a\x00\x01\x00\x00", eof!("value", 1), b""),
    (b"\x9b\x00\x00\x00\x01\x00\x00\x00\x00", eof!("value", 1), b""),
    (b"\x98\x17", OTHER, b""),
    (b"\x99\x00\xff", OTHER, b""),
    (b"\x9a\x00\x00\xff\xff", OTHER, b""),
    (b"\x9b\x00\x00\x00\x00\xff\xff\xff\xff", OTHER, b""),
    (b"\xb7", eof!("value", 1), b""),
    (b"\xb8\x18", eof!("value", 1), b""),
    (b"\xb8\xff", eof!("value", 1), b""),
    (b"\xb9\x01\x00", eof!("value", 1), b""),
    (b"\xba\x00\x01\x00\x00", eof!("value", 1), b""),
    (b"\xbb\x00\x00\x00\x01\x00\x00\x00\x00", eof!("value", 1), b""),
    (b"\xb8\x17", OTHER, b""),
    (b"\xb9\x00\xff", OTHER, b""),
    (b"\xba\x00\x00\xff\xff", OTHER, b""),
    (b"\xbb\x00\x00\x00\x00\xff\xff\xff\xff", OTHER, b""),
    (b"\x58\x18", eof!("bytes", 24), b""),
    (b"\x59\x01\x00", eof!("bytes", 256), b""),
    (b"\x5a\x00\x01\x00\x00", eof!("bytes", Big), b""),
    (b"\x5b\x00\x00\x00\x01\x00\x00\x00\x00", eof!("bytes", Big), b""),
    (b"\x59\x00\xff", OTHER, b""),
    (b"\x5a\x00\x00\xff\xff", OTHER, b""),
    (b"\x5b\x00\x00\x00\x00\xff\xff\xff\xff", OTHER, b""),
    (b"\x78\x18", eof!("str", 24), b""),
    (b"\x79\x01\x00", eof!("str", 256), b""),
    (b"\x7a\x00\x01\x00\x00", eof!("str", Big), b""),
    (b"\x7b\x00\x00\x00\x01\x00\x00\x00\x00", eof!("str", Big), b""),
    (b"\x79\x00\xff", OTHER, b""),
    (b"\x7a\x00\x00\xff\xff", OTHER, b""),
    (b"\x7b\x00\x00\x00\x00\xff\xff\xff\xff", OTHER, b""),
    (b"\xd9\x01\x00", eof!("value", 1), b""),
    (b"\xda\x00\x01\x00\x00", eof!("value", 1), b""),
    (b"\xdb\x00\x00\x00\x01\x00\x00\x00\x00", eof!("value", 1), b""),
    (b"\xd8\x17", OTHER, b""),
    (b"\xd9\x00\xff", OTHER, b""),
    (b"\xda\x00\x00\xff\xff", OTHER, b""),
    (b"\xdb\x00\x00\x00\x00\xff\xff\xff\xff", OTHER, b""),
};

fn rejects_rows(alloc: Global, rows: &[Rejected]) -> Result<(), Fail> {
    for &(bytes, error, rest) in rows {
        rejects(alloc, bytes, error, rest)?;
    }
    Ok(())
}

fn rejects(
    alloc: Global,
    bytes: &'static [u8],
    error: &'static str,
    rest: &[u8],
) -> Result<(), Fail> {
    reads::<Item<Canonical>>(alloc, bytes, Err(error), rest)
}

#[test]
fn other_encodings_are_rejected(rt: HostRuntime) -> Result<(), Fail> {
    rejects_rows(rt.alloc(), REJECTED)
}

// 255 tags, and these bytes after them.
fn below_255_tags(alloc: Global, item: &[u8]) -> Result<&'static [u8], AllocError> {
    let mut bytes = vec![in alloc; 0xc1; 255]?;
    bytes.extend_from_slice(item)?;
    Ok(bytes.leak())
}

fn rejects_below_255_tags(
    alloc: Global,
    item: &[u8],
    error: &'static str,
    rest: &[u8],
) -> Result<(), Fail> {
    let bytes = below_255_tags(alloc, item)?;
    reads_within::<Item<Canonical>>(alloc, bytes, 256, &Err(error), rest)
}

// A string of indefinite length is met before a step is taken for its chunk; an array's step comes
// before its head.
#[test]
fn at_the_last_step(rt: HostRuntime) -> Result<(), Fail> {
    let alloc = rt.alloc();
    rejects_below_255_tags(alloc, b"\x5f\x40\xff", OTHER, b"\x40\xff")?;
    rejects_below_255_tags(alloc, b"\x9f\xff", no_step!("array"), b"\x9f\xff")
}
