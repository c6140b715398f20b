//! Rows of lengths that the bytes do not carry, and of more than is reserved before any of it came.
//!
//! A decoder has to grow as the bytes come, and where memory is found it has to answer the value.
use cbor4ii_items::types::{Bytes, Map, UncheckedStr};
use cbor4ii_vectors::items::{reads_built, reads_items};
use cbor4ii_vectors::rows::Called;
use cbor4ii_vectors::{eof, table};
use std::alloc::{AllocError, Global};
use std::test::Fail;

const LENGTHS_WITHOUT_BYTES: &[Called] = table! {
    ("Bytes<Vec<u8>>", b"\x5b\xff\xff\xff\xff\xff\xff\xff\xff", Err(eof!("bytes", Big)), b""),
    ("Bytes<Vec<u8>>", b"\x5b\x00\x00\x7f\xff\xff\xff\xff\xff", Err(eof!("bytes", Big)), b""),
    ("Bytes<Vec<u8>>", b"\x5f\x5b\xff\xff\xff\xff\xff\xff\xff\xff", Err(eof!("bytes", Big)), b""),
    ("Bytes<Vec<u8>>", b"\x5f\x41\x00\x5b\x00\x00\x7f\xff\xff\xff\xff\xff",
        Err(eof!("bytes", Big)), b""),
};

// A length that the bytes do not carry reserves no more than 16384 bytes, whatever it says: no
// machine has so much.
#[test]
fn lengths_without_bytes(rt: HostRuntime) -> Result<(), Fail> {
    reads_items(rt.alloc(), LENGTHS_WITHOUT_BYTES)
}

const LENGTHS_WITHOUT_ITEMS: &[Called] = table! {
    ("Vec<u64>", b"\x9b\xff\xff\xff\xff\xff\xff\xff\xff\x01", Err(eof!("u64", 1)), b""),
};

// Places for no more than 256 items are reserved.
#[test]
fn lengths_without_items(rt: HostRuntime) -> Result<(), Fail> {
    reads_items(rt.alloc(), LENGTHS_WITHOUT_ITEMS)
}

// The numbers from 0 to 22, over and over.
fn numbers(alloc: Global, count: usize) -> Result<Vec<u8>, AllocError> {
    let mut numbers = Vec::with_capacity(alloc, count)?;
    for i in 0..count {
        numbers.push((i % 23) as u8)?;
    }
    Ok(numbers)
}

// These bytes between a head and an end.
fn between(
    alloc: Global,
    head: &[u8],
    inner: &[u8],
    end: &[u8],
) -> Result<&'static [u8], AllocError> {
    let mut bytes = head.to_vec(alloc)?;
    bytes.extend_from_slice(inner)?;
    bytes.extend_from_slice(end)?;
    Ok(bytes.leak())
}

// 300 items between a head and an end.
fn reads_300_items(alloc: Global, head: &[u8], end: &[u8]) -> Result<(), Fail> {
    let bytes = between(alloc, head, &numbers(alloc, 300)?, end)?;
    reads_built(alloc, "Vec<u8>", bytes, numbers(alloc, 300)?)
}

#[test]
fn arrays_of_300_items(rt: HostRuntime) -> Result<(), Fail> {
    let alloc = rt.alloc();
    reads_300_items(alloc, b"\x99\x01\x2c", b"")?;
    reads_300_items(alloc, b"\x9f", b"\xff")
}

fn pairs(alloc: Global, items: &[u8]) -> Result<Vec<(u8, u8)>, AllocError> {
    let mut pairs = Vec::with_capacity(alloc, 300)?;
    for pair in items.chunks_exact(2) {
        pairs.push((pair[0], pair[1]))?;
    }
    Ok(pairs)
}

// 300 pairs between a head and an end.
fn reads_pairs(alloc: Global, head: &[u8], end: &[u8]) -> Result<(), Fail> {
    let items = numbers(alloc, 600)?;
    let bytes = between(alloc, head, &items, end)?;
    reads_built(
        alloc,
        "Map<Vec<(u8, u8)>>",
        bytes,
        Map(pairs(alloc, &items)?),
    )
}

#[test]
fn maps_of_300_pairs(rt: HostRuntime) -> Result<(), Fail> {
    let alloc = rt.alloc();
    reads_pairs(alloc, b"\xb9\x01\x2c", b"")?;
    reads_pairs(alloc, b"\xbf", b"\xff")
}

// Chunks of 20 bytes, each after this head.
fn in_chunks(alloc: Global, content: &[u8], head: u8) -> Result<Vec<u8>, AllocError> {
    let mut bytes = Vec::new(alloc);
    for chunk in content.chunks(20) {
        bytes.push(head)?;
        bytes.extend_from_slice(chunk)?;
    }
    Ok(bytes)
}

// 20,000 bytes, as they stand between a head and an end: a byte string.
fn reads_bytes(alloc: Global, head: &[u8], inner: &[u8], end: &[u8]) -> Result<(), Fail> {
    let bytes = between(alloc, head, inner, end)?;
    reads_built(
        alloc,
        "Bytes<Vec<u8>>",
        bytes,
        Bytes(numbers(alloc, 20_000)?),
    )
}

#[test]
fn byte_strings_of_20000_bytes(rt: HostRuntime) -> Result<(), Fail> {
    let alloc = rt.alloc();
    let content = numbers(alloc, 20_000)?;
    // 0x54 is the head of a chunk of 20 bytes.
    let chunks = in_chunks(alloc, &content, 0x54)?;
    reads_bytes(alloc, b"\x59\x4e\x20", &content, b"")?;
    reads_bytes(alloc, b"\x5f", &chunks, b"\xff")?;
    reads_bytes(alloc, b"\x5f\x59\x4e\x20", &content, b"\xff")
}

// 20,000 bytes, as they stand between a head and an end: a text, unchecked and checked.
fn reads_text(alloc: Global, head: &[u8], inner: &[u8], end: &[u8]) -> Result<(), Fail> {
    let bytes = between(alloc, head, inner, end)?;
    let unchecked = UncheckedStr(numbers(alloc, 20_000)?);
    reads_built(alloc, "UncheckedStr<Vec<u8>>", bytes, unchecked)?;
    let text = String::from_utf8(numbers(alloc, 20_000)?)?;
    reads_built(alloc, "String", bytes, text)
}

#[test]
fn texts_of_20000_bytes(rt: HostRuntime) -> Result<(), Fail> {
    let alloc = rt.alloc();
    let content = numbers(alloc, 20_000)?;
    // 0x74 is the head of a chunk of 20 bytes.
    let chunks = in_chunks(alloc, &content, 0x74)?;
    reads_text(alloc, b"\x79\x4e\x20", &content, b"")?;
    reads_text(alloc, b"\x7f", &chunks, b"\xff")
}
