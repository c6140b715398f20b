//! Rows of vectors, ordered maps, pairs and triples.
use crate::growth::{ARRAYS, MAPS, PARTS, grows};
use crate::typed::Answer::Is;
use crate::values::{BothWays, tries_types};
use cbor4ii_vectors::rows::{Called, CalledWithin};
use cbor4ii_vectors::{cast_overflow, eof, mismatch, no_step, require_length, table};
use std::alloc::{AllocError, Global};
use std::collections::BTreeMap;
use std::test::Fail;

const OF_TEXTS_TO_ARRAYS: &str = "{\"obj\": [], \"obj2\": [\"obj3\", \"obj4\", \"\"]}";

const OF_BYTES: &str = "{Bytes([1]): 2, Bytes([1, 0]): 3, Bytes([2]): 1}";

const BOTH: &[BothWays] = table! {
    ("Vec<u8>", b"\x80", "[]"),
    ("Vec<u8>", b"\x83\x01\x02\x03", "[1, 2, 3]"),
    ("Vec<u8>", b"\x85\x00\x18\x18\x17\x18\xff\x01", "[0, 24, 23, 255, 1]"),
    ("Vec<Option<u32>>", b"\x83\x18\x99\xf6\x18\x33", "[Some(153), None, Some(51)]"),
    ("Vec<Option<u32>>", b"\x84\xf6\x18\x99\xf6\x05", "[None, Some(153), None, Some(5)]"),
    ("Vec<i16>", b"\x84\x20\x38\x80\x39\x7f\xff\x19\x7f\xff", "[-1, -129, -32768, 32767]"),
    ("Vec<F16>", b"\x84\xf9\x3c\x00\xf9\x7b\xff\xf9\x00\x01\xf9\x7e\x00",
        "[F16(15360), F16(31743), F16(1), F16(32256)]"),
    // The first byte of a float, f9, comes after that of null, f6.
    ("Vec<Option<F16>>", b"\x84\xf9\x3c\x00\xf6\xf9\x00\x01\xf9\x7e\x00",
        "[Some(F16(15360)), None, Some(F16(1)), Some(F16(32256))]"),
    ("Vec<bool>", b"\x84\xf4\xf5\xf5\xf4", "[false, true, true, false]"),
    ("Vec<Option<Option<u8>>>", b"\x84\x05\x18\xff\x07\x08",
        "[Some(Some(5)), Some(Some(255)), Some(Some(7)), Some(Some(8))]"),
    ("Vec<Option<Option<u8>>>", b"\x84\x05\xf6\x07\xf6",
        "[Some(Some(5)), None, Some(Some(7)), None]"),
    ("Option<Vec<(u128, i128)>>", b"\x81\x82\x0a\x1a\x00\x01\x86\x9f", "Some([(10, 99999)])"),
    ("BTreeMap<u8, u8>", b"\xa0", "{}"),
    ("BTreeMap<u8, u8>", b"\xa2\x01\x02\x03\x04", "{1: 2, 3: 4}"),
    ("BTreeMap<u8, u8>", b"\xa4\x01\x18\x18\x03\x04\x05\x06\x18\x18\x01",
        "{1: 24, 3: 4, 5: 6, 24: 1}"),
    // A value of nine bytes, the longest head, between others.
    ("BTreeMap<u8, u64>",
        b"\xa4\x01\x1b\0\0\0\x01\0\0\0\x02\x03\x04\x05\x1b\0\0\0\x01\0\0\0\0\x18\x18\x06",
        "{1: 4294967298, 3: 4, 5: 4294967296, 24: 6}"),
    ("BTreeMap<String, Vec<String>>", b"\xa2\x63obj\x80\x64obj2\x83\x64obj3\x64obj4\x60",
        OF_TEXTS_TO_ARRAYS),
    ("BTreeMap<Bytes<Vec<u8>>, u8>", b"\xa3\x41\x01\x02\x42\x01\x00\x03\x41\x02\x01", OF_BYTES),
    ("(u8, u8)", b"\x82\x01\x02", "(1, 2)"),
    ("(u8, bool, i8)", b"\x83\x01\xf5\x20", "(1, true, -1)"),
};

const READ: &[Called] = table! {
    ("Vec<u8>", b"\x9f\x01", Err(eof!("break", 1)), b""),
    ("Vec<u8>", b"\xa1\x01", Err(mismatch!("array", 0xa1)), b"\x01"),
    ("Vec<u8>", b"\x83\x01\x20\x03", Err(mismatch!("u8", 0x20)), b"\x03"),
    ("Vec<u8>", b"\x84\x01\x02\x20\x03", Err(mismatch!("u8", 0x20)), b"\x03"),
    ("Vec<u8>", b"\x84\x01\x02\x03\x18", Err(eof!("u8", 1)), b""),
    // A head of more bytes than the type has.
    ("Vec<u8>", b"\x84\x01\x19\x00\x05\x02\x03", Err(mismatch!("u8", 0x19)), b"\x00\x05\x02\x03"),
    ("Vec<u8>", b"\x84\x18\x05\x02\x03\x04\x05", Ok("[5, 2, 3, 4]"), b"\x05"),
    ("Vec<u8>", b"\x9b\xff\xff\xff\xff\xff\xff\xff\xff\x01", Err(eof!("u8", 1)), b""),
    ("Vec<Option<u32>>", b"\x84\x01\xf7\x02\x03", Ok("[Some(1), None, Some(2), Some(3)]"), b""),
    ("Vec<Option<u32>>", b"\x84\x01\xf6\x20\x03", Err(mismatch!("u32", 0x20)), b"\x03"),
    ("Vec<Option<u32>>", b"\x84\x01\xf6\x02", Err(eof!("option", 1)), b""),
    ("Vec<Option<u32>>", b"\x84\x01\x1b\0\0\0\0\0\0\0\x05\x02\x03", Err(mismatch!("u32", 0x1b)),
        b"\0\0\0\0\0\0\0\x05\x02\x03"),
    ("Vec<i16>", b"\x84\x01\x20\x39\x80\x00\x01", Err(cast_overflow!("-i16")), b"\x01"),
    ("Vec<i16>", b"\x84\x01\x20\x19\x80\x00\x01", Err(cast_overflow!("+i16")), b"\x01"),
    ("Vec<i16>", b"\x84\x01\x20\x40\x01", Err(mismatch!("i16", 0x40)), b"\x40\x01"),
    ("Vec<F16>", b"\x84\xf9\x3c\x00\xfa\x00", Err(mismatch!("f16", 0xfa)), b"\xfa\x00"),
    ("Vec<F16>", b"\x84\xf9\x3c\x00\xf9\x00", Err(eof!("f16", 2)), b""),
    ("Vec<Option<F16>>", b"\x84\xf6\xf6\xf8\x14\xf6", Err(mismatch!("f16", 0xf8)), b"\xf8\x14\xf6"),
    ("Vec<bool>", b"\x84\xf4\xf5\xf6\xf4", Err(mismatch!("bool", 0xf6)), b"\xf6\xf4"),
    ("BTreeMap<u8, u8>", b"\xbf\x01\x02", Err(eof!("break", 1)), b""),
    ("BTreeMap<u8, u8>", b"\x80\x01", Err(mismatch!("map", 0x80)), b"\x01"),
    ("BTreeMap<u8, u8>", b"\xa1\x61\x02", Err(mismatch!("u8", 0x61)), b"\x02"),
    ("BTreeMap<u8, u8>", b"\xbf\x01\xff", Err(mismatch!("u8", 0xff)), b""),
    ("BTreeMap<u8, u8>", b"\xa4\x01\x02\x03\x20\x05", Err(mismatch!("u8", 0x20)), b"\x05"),
    ("BTreeMap<u8, u8>", b"\xa4\x01\x02\x03\x04\x05", Err(eof!("u8", 1)), b""),
    // Of equal keys the last value stays.
    ("BTreeMap<u8, u8>", b"\xa2\x01\x02\x01\x03", Ok("{1: 3}"), b""),
    ("BTreeMap<u8, u8>", b"\xa4\x01\x02\x03\x04\x05\x06\x01\x07", Ok("{1: 7, 3: 4, 5: 6}"), b""),
    ("BTreeMap<u8, u8>", b"\xa5\x01\x02\x03\x04\x05\x06\x07\x08\x07\x09\x00",
        Ok("{1: 2, 3: 4, 5: 6, 7: 9}"), b"\x00"),
    // Byte strings stand in the order of their bytes, whatever order they come in.
    ("BTreeMap<Bytes<Vec<u8>>, u8>", b"\xa3\x41\x02\x01\x42\x01\x00\x03\x41\x01\x02", Ok(OF_BYTES),
        b""),
    ("(u8, u8)", b"\x83\x01\x02\x03", Err(require_length!("tuple", 3)), b"\x01\x02\x03"),
    ("(u8, u8)", b"\x9f\x01\x02\xff", Err(require_length!("tuple")), b"\x01\x02\xff"),
    // 65535 and 65536 items.
    ("(u8, u8)", b"\x99\xff\xff\x01", Err(require_length!("tuple", 65535)), b"\x01"),
    ("(u8, u8)", b"\x9a\x00\x01\x00\x00\x01", Err(require_length!("tuple", Big)), b"\x01"),
    ("(u8, u8)", b"\x82\x01\x61", Err(mismatch!("u8", 0x61)), b""),
    ("(u8, u8)", b"\xa1\x01", Err(mismatch!("array", 0xa1)), b"\x01"),
    ("(u8, u8)", b"\x99\x00", Err(eof!("array", 2)), b""),
    ("(u8, bool, i8)", b"\x82\x01\xf5", Err(require_length!("tuple", 2)), b"\x01\xf5"),
    ("(u8, bool, i8)", b"\x83\x01\x02\x03", Err(mismatch!("bool", 0x02)), b"\x02\x03"),
};

const WITHIN: &[CalledWithin] = table! {
    ("Vec<u8>", b"\x9f\x01\x02\xff\x03", 1, Ok("[1, 2]"), b"\x03"),
    ("Vec<u8>", b"\x9f\xff", 1, Ok("[]"), b""),
    ("Vec<u8>", b"\x81\x05", 0, Err(no_step!("seq")), b"\x81\x05"),
    ("Vec<u8>", b"\x81\x05", 1, Ok("[5]"), b""),
    ("Vec<Option<u32>>", b"\x81\x05", 1, Err(no_step!("option")), b"\x05"),
    ("Vec<Option<u32>>", b"\x84\xf6\xf7\x05\x06", 1, Err(no_step!("option")), b"\x05\x06"),
    ("Vec<Option<u32>>", b"\x84\xf6\xf7\xf6\xf6", 1, Ok("[None, None, None, None]"), b""),
    ("Vec<Option<u32>>", b"\x84\xf6\xf7\x05\x06", 2, Ok("[None, None, Some(5), Some(6)]"), b""),
    // An element that is not null takes two steps.
    ("Vec<Option<Option<u8>>>", b"\x84\xf6\xf6\xf7\xf6", 1, Ok("[None, None, None, None]"), b""),
    ("Vec<Option<Option<u8>>>", b"\x84\xf6\xf6\x05\xf6", 1, Err(no_step!("option")), b"\x05\xf6"),
    ("Vec<Option<Option<u8>>>", b"\x84\xf6\xf6\x05\xf6", 2, Err(no_step!("option")), b"\x05\xf6"),
    ("Vec<Option<Option<u8>>>", b"\x84\xf6\xf6\x05\xf6", 3, Ok("[None, None, Some(Some(5)), None]"),
        b""),
    ("BTreeMap<u8, u8>", b"\xa2\x01\x02\x01\x03", 1, Ok("{1: 3}"), b""),
    ("BTreeMap<u8, u8>", b"\xbf\x01\x02\x01\x03\xff\x00", 1, Ok("{1: 3}"), b"\x00"),
    ("BTreeMap<u8, u8>", b"\xa1\x01\x02", 0, Err(no_step!("map")), b"\xa1\x01\x02"),
    ("(u8, u8)", b"\x82\x01\x02", 0, Err(no_step!("tuple")), b"\x82\x01\x02"),
    ("(u8, u8)", b"\x82\x01\x02", 1, Ok("(1, 2)"), b""),
    ("(u8, bool, i8)", b"\x83\x01\xf5\x20", 0, Err(no_step!("tuple")), b"\x83\x01\xf5\x20"),
};

#[test]
fn values_of_parts(rt: HostRuntime) -> Result<(), Fail> {
    tries_types(rt.alloc(), BOTH, READ, WITHIN)
}

// More parts than are reserved before the first of them is read.
fn numbers(alloc: Global) -> Result<Vec<u16>, AllocError> {
    let mut numbers = Vec::new(alloc);
    for number in 0..PARTS {
        numbers.push(number)?;
    }
    Ok(numbers)
}

fn numbers_to_fives(alloc: Global) -> Result<BTreeMap<u16, u8>, AllocError> {
    let mut map = BTreeMap::new(alloc);
    for number in 0..PARTS {
        map.insert(number, 5u8)?;
    }
    Ok(map)
}

#[test]
fn vectors_and_maps(rt: HostRuntime) -> Result<(), Fail> {
    let alloc = rt.alloc();
    grows(alloc, ARRAYS, Is(numbers(alloc)?))?;
    grows(alloc, MAPS, Is(numbers_to_fives(alloc)?))
}
