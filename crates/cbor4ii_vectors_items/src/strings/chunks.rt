//! Rows of strings of indefinite length: their chunks, and the step of each.
use cbor4ii_items::types::{Bytes, UncheckedStr};
use cbor4ii_rw::slice_reader::SliceReader;
use cbor4ii_vectors::compared::same;
use cbor4ii_vectors::items::{reads_items, reads_items_within};
use cbor4ii_vectors::readers::TestReader;
use cbor4ii_vectors::rows::{Called, CalledWithin, reads_all};
use cbor4ii_vectors::{eof, no_step, require_length, table};
use std::test::Fail;

const CHUNKS_OF_TEXTS: &[Called] = table! {
    ("String", b"\x7f\xff", Ok("\"\""), b""),
    ("String", b"\x7f\x60\xff", Ok("\"\""), b""),
    ("String", b"\x7f\x65strea\x64ming\xff", Ok("\"streaming\""), b""),
    ("String", b"\x7f\x61\xc3\x61\xa9\xff", Ok("\"\u{e9}\""), b""),
    ("String", b"\x7f\x64test\x65test2\x65test3\xff", Ok("\"testtest2test3\""), b""),
    ("String", b"\x7f\x63123\x63456\xff", Ok("\"123456\""), b""),
    ("UncheckedStr<Vec<u8>>", b"\x7f\xff", Ok("UncheckedStr([])"), b""),
    ("UncheckedStr<Vec<u8>>", b"\x7f\x60\xff", Ok("UncheckedStr([])"), b""),
    ("UncheckedStr<Vec<u8>>", b"\x7f\x65strea\x64ming\xff", Ok(STREAMING), b""),
    ("UncheckedStr<Vec<u8>>", b"\x7f\x61\xc3\x61\xa9\xff", Ok("UncheckedStr([195, 169])"), b""),
    ("UncheckedStr<Vec<u8>>", b"\x7f\x64test\x65test2\x65test3\xff", Ok(TESTS), b""),
    ("UncheckedStr<Vec<u8>>", b"\x7f\x63123\x63456\xff",
        Ok("UncheckedStr([49, 50, 51, 52, 53, 54])"), b""),
    ("UncheckedStr<Vec<u8>>", b"\x7f\x61\xff\xff", Ok("UncheckedStr([255])"), b""),
    ("Bytes<Vec<u8>>", b"\x5f\x42\x01\x02\x43\x03\x04\x05\xff\x00",
        Ok("Bytes([1, 2, 3, 4, 5])"), b"\x00"),
};

const STREAMING: &str = "UncheckedStr([115, 116, 114, 101, 97, 109, 105, 110, 103])";

const TESTS: &str =
    "UncheckedStr([116, 101, 115, 116, 116, 101, 115, 116, 50, 116, 101, 115, 116, 51])";

#[test]
fn chunks(rt: HostRuntime) -> Result<(), Fail> {
    let alloc = rt.alloc();
    reads_items(alloc, CHUNKS_OF_TEXTS)
}

const STEPS: &[CalledWithin] = table! {
    ("String", b"\x7f", 0, Err(eof!("break", 1)), b""),
    ("String", b"\x61a", 0, Ok("\"a\""), b""),
    ("String", b"\x7f\x61a", 0, Err(no_step!("str")), b"\x61a"),
    ("String", b"\x7f\xff", 0, Ok("\"\""), b""),
    ("String", b"\x7f\x61a\xff", 0, Err(no_step!("str")), b"\x61a\xff"),
    ("String", b"\x7f\x61a\xff", 1, Ok("\"a\""), b""),
    ("String", b"\x7f\x61a\x61b\xff", 1, Ok("\"ab\""), b""),
    ("String", b"\x7f\x7f\xff\xff", 1, Err(require_length!("str")), b"\xff\xff"),
};

#[test]
fn a_step_for_each_chunk(rt: HostRuntime) -> Result<(), Fail> {
    reads_items_within(rt.alloc(), STEPS)
}

// In the tests below a decoder is the first that takes memory, so that each of its growths can be
// refused in turn.
//
// An indefinite-length string of 1024 chunks of 16 bytes: this byte, 0x70 or 0x50, is the head of
// such a chunk and each byte of its content.
pub fn in_chunks(head: u8, chunk: u8) -> [u8; 17410] {
    let mut bytes = [chunk; 17410];
    bytes[0] = head;
    bytes[17409] = 0xff;
    bytes
}

#[test]
fn texts_in_chunks(rt: HostRuntime) -> Result<(), Fail> {
    let bytes = in_chunks(0x7f, 0x70);
    let text: String = reads_all(rt.alloc(), &mut SliceReader::new(&bytes), &bytes)?;
    same(text.as_bytes(), &[0x70; 16384])
}

#[test]
fn unchecked_texts_in_chunks(rt: HostRuntime) -> Result<(), Fail> {
    let bytes = in_chunks(0x7f, 0x70);
    let mut short = TestReader::short(&bytes, 256);
    let text: UncheckedStr<Vec<u8>> = reads_all(rt.alloc(), &mut short, &bytes)?;
    same(text.0.as_slice(), &[0x70; 16384])
}

#[test]
fn byte_strings_in_chunks(rt: HostRuntime) -> Result<(), Fail> {
    let bytes = in_chunks(0x5f, 0x50);
    let mut short = TestReader::short(&bytes, 256);
    let found: Bytes<Vec<u8>> = reads_all(rt.alloc(), &mut short, &bytes)?;
    same(found.0.as_slice(), &[0x50; 16384])
}
