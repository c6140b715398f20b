//! Rows of heads and strings that are encoded in one way, by the shortest head.
use cbor4ii_items::canonical::{canonical_buf, canonical_head};
use cbor4ii_items::initial::peek;
use cbor4ii_rw::error::DecodeError;
use cbor4ii_rw::read::Source;
use cbor4ii_rw::slice_reader::SliceReader;
use cbor4ii_vectors::compared::same;
use cbor4ii_vectors::repeated::repeated;
use cbor4ii_vectors::rows::{ReadFrom, Row, reads_rows, reads_texts};
use cbor4ii_vectors::{eof, mismatch, not_canonical, table};
use std::alloc::Global;
use std::test::Fail;

// An encoding, and not the canonical one.
const OTHER: &str = not_canonical!("canonical");

// A shortest head of the major type that the first byte says; before one of major type 7, of a tag.
#[derive(Clone, Copy, Debug, PartialEq)]
struct Shortest(u64);

impl ReadFrom for Shortest {
    fn read_from<S: Source>(
        alloc: Global,
        reader: &mut S,
    ) -> Result<Shortest, DecodeError<S::Error>> {
        let major = (peek(reader, "head")? / 32).min(6);
        Ok(Shortest(canonical_head("head", major, reader)?))
    }
}

const SHORTEST_HEADS: &[Row<Shortest>] = table! {
    (b"\x18\x18", Ok(Shortest(24)), b""),
    (b"\x17\x00", Ok(Shortest(23)), b"\x00"),
    (b"\x38\xff", Ok(Shortest(255)), b""),
    (b"\x59\x01\x00", Ok(Shortest(256)), b""),
    (b"\x79\xff\xff", Ok(Shortest(65535)), b""),
    (b"\x9a\x00\x01\x00\x00", Ok(Shortest(65536)), b""),
    (b"\xba\xff\xff\xff\xff", Ok(Shortest(4294967295)), b""),
    (b"\xdb\x00\x00\x00\x01\x00\x00\x00\x00", Ok(Shortest(4294967296)), b""),
    (b"\x18\x17\x00", Err(OTHER), b"\x00"),
    (b"\x58\x01", Err(OTHER), b""),
    (b"\x99\x00\xff", Err(OTHER), b""),
    (b"\xba\x00\x00\xff\xff", Err(OTHER), b""),
    (b"\xdb\x00\x00\x00\x00\xff\xff\xff\xff", Err(OTHER), b""),
    (b"\x5f\x40", Err(OTHER), b"\x40"),
    (b"\x7f", Err(OTHER), b""),
    (b"\x9f\xff", Err(OTHER), b"\xff"),
    (b"\xbf", Err(OTHER), b""),
    (b"\x1f", Err(mismatch!("head", 0x1f)), b""),
    (b"\xdf\x00", Err(mismatch!("head", 0xdf)), b"\x00"),
    (b"\x5c\x00", Err(mismatch!("head", 0x5c)), b"\x00"),
    (b"\xf4\x00", Err(mismatch!("head", 0xf4)), b"\x00"),
    (b"\x7a\x00\x00", Err(eof!("head", 4)), b""),
    (b"", Err(eof!("head", 1)), b""),
};

#[test]
fn shortest_heads(rt: HostRuntime) -> Result<(), Fail> {
    reads_rows(rt.alloc(), SHORTEST_HEADS)
}

// A byte string after a shortest head.
#[derive(Debug, Drop)]
struct Content(Vec<u8>);

impl ReadFrom for Content {
    fn read_from<S: Source>(
        alloc: Global,
        reader: &mut S,
    ) -> Result<Content, DecodeError<S::Error>> {
        Ok(Content(canonical_buf(alloc, "bytes", 2, reader)?))
    }
}

const STRINGS_AFTER_SHORTEST_HEADS: &[Row<&str>] = table! {
    (b"\x42\x01\x02\x03", Ok("Content([1, 2])"), b"\x03"),
    (b"\x40", Ok("Content([])"), b""),
    (b"\x42\x01", Err(eof!("bytes", 1)), b""),
    (b"\x58\x01\x02", Err(OTHER), b"\x02"),
    (b"\x5f\x40\xff", Err(OTHER), b"\x40\xff"),
};

// A text after a shortest head, as its bytes.
#[derive(Debug, Drop)]
struct TextContent(Vec<u8>);

impl ReadFrom for TextContent {
    fn read_from<S: Source>(
        alloc: Global,
        reader: &mut S,
    ) -> Result<TextContent, DecodeError<S::Error>> {
        Ok(TextContent(canonical_buf(alloc, "str", 3, reader)?))
    }
}

const TEXTS_AFTER_SHORTEST_HEADS: &[Row<&str>] = table! {
    (b"\x63abc", Ok("TextContent([97, 98, 99])"), b""),
    (b"\x43abc", Err(mismatch!("str", 0x43)), b"abc"),
    (b"\x78\x01a", Err(OTHER), b"a"),
};

#[test]
fn strings_after_shortest_heads(rt: HostRuntime) -> Result<(), Fail> {
    let alloc = rt.alloc();
    reads_texts::<Content>(alloc, STRINGS_AFTER_SHORTEST_HEADS)?;
    reads_texts::<TextContent>(alloc, TEXTS_AFTER_SHORTEST_HEADS)
}

// 100,000 bytes, 0x186a0: memory is found for all of them.
#[test]
fn long_strings_after_shortest_heads(rt: HostRuntime) -> Result<(), Fail> {
    let alloc = rt.alloc();
    let bytes = repeated(alloc, b"\x5a\x00\x01\x86\xa0", b"a", 100_000, b"\xff")?;
    let mut reader = SliceReader::new(bytes);
    let content = canonical_buf(alloc, "bytes", 2, &mut reader)?;
    same(bytes.get(5..100_005) == Some(content.as_slice()), true)?;
    same(reader.remaining(), b"\xff".as_slice())
}
