//! Rows of tags: their numbers alone, and tagged items.
use crate::borrowed_rows::Kind::Tagged;
use crate::borrowed_rows::{BorrowedRow, lends_rows, rows_alike};
use cbor4ii_items::types::{Bytes, Tag};
use cbor4ii_rw::error::DecodeError;
use cbor4ii_rw::read::Source;
use cbor4ii_vectors::items::{items_go_both_ways, reads_items, reads_items_within};
use cbor4ii_vectors::rows::{Called, CalledWithin, ReadFrom, Row, reads_rows, writes_rows};
use cbor4ii_vectors::{eof, mismatch, table};
use std::alloc::Global;
use std::test::Fail;

// The number of a tag.
#[derive(Clone, Copy, Debug, PartialEq)]
struct TagNumber(u64);

impl ReadFrom for TagNumber {
    fn read_from<S: Source>(
        _alloc: Global,
        reader: &mut S,
    ) -> Result<TagNumber, DecodeError<S::Error>> {
        Ok(TagNumber(Tag::tag(reader)?))
    }
}

// The last of each width of the shortest head, the first of the next, and longer heads.
const NUMBERS_OF_TAGS: &[Row<TagNumber>] = table! {
    (b"\xd7", Ok(TagNumber(23)), b""),
    (b"\xd8\x18", Ok(TagNumber(24)), b""),
    (b"\xd8\xff", Ok(TagNumber(255)), b""),
    (b"\xd9\x01\x00", Ok(TagNumber(256)), b""),
    (b"\xd9\xff\xff", Ok(TagNumber(65535)), b""),
    (b"\xda\x00\x01\x00\x00", Ok(TagNumber(65536)), b""),
    (b"\xda\xff\xff\xff\xff", Ok(TagNumber(4294967295)), b""),
    (b"\xdb\x00\x00\x00\x01\x00\x00\x00\x00", Ok(TagNumber(4294967296)), b""),
    (b"\xdb\xff\xff\xff\xff\xff\xff\xff\xff", Ok(TagNumber(18446744073709551615)), b""),
    (b"\xd8\x2a", Ok(TagNumber(42)), b""),
    (b"\xd9\x00\x2a", Ok(TagNumber(42)), b""),
    (b"\xda\x00\x00\x00\x2a", Ok(TagNumber(42)), b""),
    (b"\xdb\x00\x00\x00\x00\x00\x00\x00\x2a\x01", Ok(TagNumber(42)), b"\x01"),
    (b"", Err(eof!("tag", 1)), b""),
    (b"\xd8", Err(eof!("tag", 1)), b""),
    (b"\xda\x01\x02", Err(eof!("tag", 4)), b""),
    (b"\x00\x01", Err(mismatch!("tag", 0x00)), b"\x01"),
    (b"\xdc\x00", Err(mismatch!("tag", 0xdc)), b"\x00"),
    (b"\xdf\xff", Err(mismatch!("tag", 0xdf)), b"\xff"),
};

#[test]
fn numbers_of_tags(rt: HostRuntime) -> Result<(), Fail> {
    reads_rows(rt.alloc(), NUMBERS_OF_TAGS)
}

const TAGGED_TEXTS: &[(&[u8], &str, usize)] = table! {
    (b"\xc0\x742013-03-21T20:04:00Z", "Tag(0, \"2013-03-21T20:04:00Z\")", 3),
    (b"\xd8\x20\x76http://www.example.com", "Tag(32, \"http://www.example.com\")", 3),
};

const TAGGED_SECONDS: &[(&[u8], &str, usize)] = table! {
    (b"\xc1\x1a\x51\x4b\x67\xb0", "Tag(1, 1363896240)", 2),
};

// The bits are 0x41d452d9ec200000.
const TAGGED_FLOATS: &[(&[u8], &str, usize)] = table! {
    (b"\xc1\xfb\x41\xd4\x52\xd9\xec\x20\x00\x00", "Tag(1, F64(4743507403450875904))", 2),
};

#[test]
fn tagged_items(rt: HostRuntime) -> Result<(), Fail> {
    let alloc = rt.alloc();
    items_go_both_ways(alloc, "Tag<String>", TAGGED_TEXTS)?;
    items_go_both_ways(alloc, "Tag<u32>", TAGGED_SECONDS)?;
    items_go_both_ways(alloc, "Tag<F64>", TAGGED_FLOATS)
}

const TAGGED_NUMBERS: &[Called] = table! {
    ("Tag<u8>", b"\xc1\x18\x05", Ok("Tag(1, 5)"), b""),
    ("Tag<u8>", b"\xda\xff\xff\xff\xff\x05", Ok("Tag(4294967295, 5)"), b""),
    ("Tag<u8>", b"\xdb\x00\x00\x00\x01\x00\x00\x00\x00\x05", Ok("Tag(4294967296, 5)"), b""),
    ("Tag<u8>", b"\xdb\xff\xff\xff\xff\xff\xff\xff\xff\x05",
        Ok("Tag(18446744073709551615, 5)"), b""),
    ("Tag<u8>", b"", Err(eof!("tag", 1)), b""),
    ("Tag<u8>", b"\xd9\x01", Err(eof!("tag", 2)), b""),
    ("Tag<u8>", b"\x05", Err(mismatch!("tag", 0x05)), b""),
    ("Tag<u8>", b"\xdc\x05", Err(mismatch!("tag", 0xdc)), b"\x05"),
    ("Tag<u8>", b"\xc1", Err(eof!("u8", 1)), b""),
    ("Tag<u8>", b"\xc1\x19\x00\x05", Err(mismatch!("u8", 0x19)), b"\x00\x05"),
};

#[test]
fn tagged_numbers(rt: HostRuntime) -> Result<(), Fail> {
    reads_items(rt.alloc(), TAGGED_NUMBERS)
}

const TAGGED_BYTE_STRINGS: &[Called] = table! {
    ("Tag<Bytes<Vec<u8>>>", b"\xd7\x44\x01\x02\x03\x04", Ok("Tag(23, Bytes([1, 2, 3, 4]))"), b""),
    ("Tag<Bytes<Vec<u8>>>", b"\xd8\x18\x45dIETF", Ok("Tag(24, Bytes([100, 73, 69, 84, 70]))"), b""),
};

const WRITTEN_TAGGED_BYTE_STRINGS: &[(Tag<Bytes<&[u8]>>, &[u8], usize)] = table! {
    (Tag(23, Bytes(b"\x01\x02\x03\x04")), b"\xd7\x44\x01\x02\x03\x04", 3),
    (Tag(24, Bytes(b"dIETF")), b"\xd8\x18\x45dIETF", 3),
};

#[test]
fn tagged_byte_strings(rt: HostRuntime) -> Result<(), Fail> {
    let alloc = rt.alloc();
    writes_rows(alloc, WRITTEN_TAGGED_BYTE_STRINGS)?;
    reads_items(alloc, TAGGED_BYTE_STRINGS)
}

const TAGGED_ARRAYS: &[Called] = table! {
    ("Tag<Vec<u8>>", b"\xc1\x81\x07", Ok("Tag(1, [7])"), b""),
};

#[test]
fn tagged_arrays(rt: HostRuntime) -> Result<(), Fail> {
    reads_items(rt.alloc(), TAGGED_ARRAYS)
}

const LEAST_AND_GREATEST: &[CalledWithin] = table! {
    ("Tag<u8>", b"\xc1\x05", 0, Ok("Tag(1, 5)"), b""),
    ("Tag<u8>", b"\xc1\x05", usize::MAX, Ok("Tag(1, 5)"), b""),
};

// What takes no step is read where none is left, and as many as a limit can be do not run over.
#[test]
fn the_least_and_the_greatest_limit(rt: HostRuntime) -> Result<(), Fail> {
    reads_items_within(rt.alloc(), LEAST_AND_GREATEST)
}

// Before the tagged item comes, the tag is rejected alike over every reader.
const BEFORE_A_BORROWED_ITEM: &[BorrowedRow] = table! {
    (Tagged, b"", Err(eof!("tag", 1)), b""),
    (Tagged, b"\xd8", Err(eof!("tag", 1)), b""),
    (Tagged, b"\x00\x01", Err(mismatch!("tag", 0x00)), b"\x01"),
    (Tagged, b"\xc1", Err(eof!("str", 1)), b""),
};

// With its item lent, the tag is read.
const BORROWED_ITEMS: &[BorrowedRow] = table! {
    (Tagged, b"\xc1\x61a", Ok("Tag(1, \"a\")"), b""),
};

#[test]
fn tagged_borrowed_items(rt: HostRuntime) -> Result<(), Fail> {
    let alloc = rt.alloc();
    rows_alike(alloc, BEFORE_A_BORROWED_ITEM)?;
    lends_rows(alloc, BORROWED_ITEMS)
}
