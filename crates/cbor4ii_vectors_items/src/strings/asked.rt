//! How much of a string is asked for at once, by a reader that lets a look ask for one byte alone.
use cbor4ii_vectors::asked::looks_at_most_by;
use cbor4ii_vectors::items::Items;
use cbor4ii_vectors::readers::Asked;
use cbor4ii_vectors::repeated::repeated;
use cbor4ii_vectors::rows::ByName;
use cbor4ii_vectors::table;
use std::alloc::Global;
use std::test::Fail;

// A reader may hold all that is wanted: no look wants more.
const AT_ONCE: usize = 16_384;

// 2^64-1 bytes are said to come, and none or few do, also in a chunk.
const BYTE_STRINGS: &[&[u8]] = table! {
    b"\x5b\xff\xff\xff\xff\xff\xff\xff\xff",
    b"\x5b\xff\xff\xff\xff\xff\xff\xff\xffab",
    b"\x5f\x41a\x5b\xff\xff\xff\xff\xff\xff\xff\xffab",
};

const TEXTS: &[&[u8]] = table! {
    b"\x7b\xff\xff\xff\xff\xff\xff\xff\xff",
    b"\x7b\xff\xff\xff\xff\xff\xff\xff\xffab",
    b"\x7f\x61a\x7b\xff\xff\xff\xff\xff\xff\xff\xffab",
};

fn is_asked_in_parts(
    alloc: Global,
    name: &str,
    bytes: &'static [u8],
    is_read: bool,
) -> Result<(), Fail> {
    let how = ByName::<Items>::new(alloc, name)?;
    let reader = Asked::new(bytes).refusing_above(AT_ONCE);
    looks_at_most_by::<String, _>(&how, alloc, reader, bytes, is_read, usize::MAX, usize::MAX)?;
    let reader = Asked::new(bytes).refusing_above(AT_ONCE).with_window(9);
    looks_at_most_by::<String, _>(&how, alloc, reader, bytes, is_read, usize::MAX, usize::MAX)
}

fn are_asked_in_parts(alloc: Global, name: &str, rows: &[&'static [u8]]) -> Result<(), Fail> {
    for bytes in rows {
        is_asked_in_parts(alloc, name, bytes, false)?;
    }
    Ok(())
}

#[test]
fn a_false_length_is_asked_for_in_parts(rt: HostRuntime) -> Result<(), Fail> {
    let alloc = rt.alloc();
    are_asked_in_parts(alloc, "Bytes<Vec<u8>>", BYTE_STRINGS)?;
    are_asked_in_parts(alloc, "String", TEXTS)
}

// 40,000 bytes, 0x9c40, all of which come.
#[test]
fn a_long_string_is_asked_for_in_parts(rt: HostRuntime) -> Result<(), Fail> {
    let alloc = rt.alloc();
    let bytes = repeated(alloc, b"\x59\x9c\x40", b"a", 40_000, b"")?;
    is_asked_in_parts(alloc, "Bytes<Vec<u8>>", bytes, true)?;
    let text = repeated(alloc, b"\x79\x9c\x40", b"a", 40_000, b"")?;
    is_asked_in_parts(alloc, "String", text, true)
}
