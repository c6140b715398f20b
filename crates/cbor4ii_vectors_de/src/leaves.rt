//! Rows of numbers, flags, floats by their bits, units, options, characters and strings.
use crate::growth::{LETTERS, grows_by_letters, text_of};
use crate::typed::Answer::Is;
use crate::typed::By;
use crate::values::{BothWays, Types, tries_types};
use cbor4ii::types::Bytes;
use cbor4ii_vectors::rows::{Called, CalledWithin, call_ends_at_each_prefix, writes};
use cbor4ii_vectors::{
    cast_overflow, eof, length_overflow, mismatch, no_step, require_length, require_utf8, table,
    unsupported,
};
use std::test::Fail;

// Bignums (RFC 8949 section 3.4.3): above 2^64-1, below -2^64, and the edges of i128.
const ABOVE: &[u8] = b"\xc2\x49\x01\x00\x00\x00\x00\x00\x00\x00\x00";

const BELOW: &[u8] = b"\xc3\x49\x01\x00\x00\x00\x00\x00\x00\x00\x00";

const GREATEST: &[u8] = b"\xc2\x50\x7f\xff\xff\xff\xff\xff\xff\xff\xff\xff\xff\xff\xff\xff\xff\xff";

const LEAST: &[u8] = b"\xc3\x50\x7f\xff\xff\xff\xff\xff\xff\xff\xff\xff\xff\xff\xff\xff\xff\xff";

// The least number that is no bignum.
const LEAST_OF_ONE_HEAD: &[u8] = b"\x3b\xff\xff\xff\xff\xff\xff\xff\xff";

// A bignum of 17 bytes, and its content.
const SEVENTEEN: &[u8] =
    b"\xc2\x51\x01\x02\x03\x04\x05\x06\x07\x08\x09\x0a\x0b\x0c\x0d\x0e\x0f\x10\x11";

const CONTENT: &[u8] = b"\x01\x02\x03\x04\x05\x06\x07\x08\x09\x0a\x0b\x0c\x0d\x0e\x0f\x10\x11";

// 2^127.
const TOO_GREAT: &[u8] =
    b"\xc2\x50\x80\x00\x00\x00\x00\x00\x00\x00\x00\x00\x00\x00\x00\x00\x00\x00";

const BOTH: &[BothWays] = table! {
    ("u8", b"\x00", "0"),
    ("u8", b"\x01", "1"),
    ("u8", b"\x0a", "10"),
    ("u8", b"\x17", "23"),
    ("u8", b"\x18\x18", "24"),
    ("u8", b"\x18\x19", "25"),
    ("u8", b"\x18\x64", "100"),
    ("u16", b"\x19\x03\xe8", "1000"),
    ("u16", b"\x19\xff\xff", "65535"),
    ("u32", b"\x1a\x00\x0f\x42\x40", "1000000"),
    ("u64", b"\x1b\x00\x00\x00\xe8\xd4\xa5\x10\x00", "1000000000000"),
    ("u64", b"\x1b\xff\xff\xff\xff\xff\xff\xff\xff", "18446744073709551615"),
    ("u128", ABOVE, "18446744073709551616"),
    ("i8", b"\x20", "-1"),
    ("i8", b"\x38\x63", "-100"),
    ("i8", b"\x38\x7f", "-128"),
    ("i16", b"\x39\x03\xe7", "-1000"),
    ("i16", b"\x38\xff", "-256"),
    ("i32", b"\x29", "-10"),
    ("i32", b"\x39\xff\xff", "-65536"),
    ("i64", b"\x38\x63", "-100"),
    ("i64", b"\x3a\xff\xff\xff\xff", "-4294967296"),
    ("i64", b"\x3b\x7f\xff\xff\xff\xff\xff\xff\xff", "-9223372036854775808"),
    ("i128", BELOW, "-18446744073709551617"),
    ("i128", LEAST_OF_ONE_HEAD, "-18446744073709551616"),
    ("i128", GREATEST, "170141183460469231731687303715884105727"),
    ("i128", LEAST, "-170141183460469231731687303715884105728"),
    ("bool", b"\xf4", "false"),
    ("bool", b"\xf5", "true"),
    ("F16", b"\xf9\x3c\x00", "F16(15360)"),
    ("F16", b"\xf9\x7b\xff", "F16(31743)"),
    ("F32", b"\xfa\x47\xc3\x50\x00", "F32(1203982336)"),
    ("F32", b"\xfa\x7f\x80\x00\x00", "F32(2139095040)"),
    ("F64", b"\xfb\x3f\xf1\x99\x99\x99\x99\x99\x9a", "F64(4607632778762754458)"),
    ("F64", b"\xfb\x7f\xf0\x00\x00\x00\x00\x00\x00", "F64(9218868437227405312)"),
    ("()", b"\x80", "()"),
    ("Option<u8>", b"\xf6", "None"),
    ("Option<u8>", b"\x0a", "Some(10)"),
    // Null is the outer option's none: a none inside is written as it, and not read back.
    ("Option<Option<u8>>", b"\xf6", "None"),
    ("Option<Option<u8>>", b"\x05", "Some(Some(5))"),
    ("Option<()>", b"\x80", "Some(())"),
    ("Option<u32>", b"\x0a", "Some(10)"),
    ("char", b"\x61a", "'a'"),
    ("char", b"\x61G", "'G'"),
    ("char", b"\x62\xc3\xbc", "'ü'"),
    ("char", b"\x63\xe6\xb0\xb4", "'水'"),
    ("char", b"\x64\xf0\x90\x85\x91", "'\u{10151}'"),
    ("Box<u32>", b"\x0a", "10"),
    ("String", b"\x60", "\"\""),
    ("String", b"\x61a", "\"a\""),
    ("String", b"\x64IETF", "\"IETF\""),
    ("String", b"\x62\"\\", "\"\\\"\\\\\""),
    ("String", b"\x62\xc3\xbc", "\"ü\""),
    ("String", b"\x63\xe6\xb0\xb4", "\"水\""),
    ("String", b"\x64\xf0\x90\x85\x91", "\"\u{10151}\""),
};

const READ: &[Called] = table! {
    ("u8", b"\x18\x05\xff", Ok("5"), b"\xff"),
    ("u8", b"\x19\x00\x05", Err(mismatch!("u8", 0x19)), b"\x00\x05"),
    ("u8", b"\x20\x01", Err(mismatch!("u8", 0x20)), b"\x01"),
    ("u8", b"", Err(eof!("u8", 1)), b""),
    ("u16", b"\x19\x00\x05", Ok("5"), b""),
    ("u16", b"\x1a\x00", Err(mismatch!("u16", 0x1a)), b"\x00"),
    ("u32", b"\x1b\x00", Err(mismatch!("u32", 0x1b)), b"\x00"),
    ("u64", b"\x1c\x00", Err(mismatch!("u64", 0x1c)), b"\x00"),
    ("u64", b"\x1b\x01\x02", Err(eof!("u64", 8)), b""),
    ("u128", b"\xc2\x40", Ok("0"), b""),
    ("u128", b"\xd8\x02\x41\x05", Ok("5"), b""),
    ("u128", SEVENTEEN, Err(length_overflow!("u128::bytes", 17)), CONTENT),
    ("i8", b"\x38\x80", Err(cast_overflow!("-i8")), b""),
    ("i8", b"\x18\x80\xff", Err(cast_overflow!("+i8")), b"\xff"),
    ("i8", b"\x40\x00", Err(mismatch!("i8", 0x40)), b"\x40\x00"),
    ("i16", b"\x1a\x00", Err(mismatch!("+i16", 0x1a)), b"\x00"),
    ("i32", b"\x3a\x00", Err(eof!("-i32", 4)), b""),
    ("i64", b"\x3b\x80\x00\x00\x00\x00\x00\x00\x00", Err(cast_overflow!("-i64")), b""),
    ("i128", b"\xd8\x03\x41\x05", Ok("-6"), b""),
    ("i128", TOO_GREAT, Err(cast_overflow!("i128")), b""),
    ("bool", b"\xf5\x01", Ok("true"), b"\x01"),
    ("bool", b"\xf6", Err(mismatch!("bool", 0xf6)), b"\xf6"),
    ("bool", b"", Err(eof!("bool", 1)), b""),
    ("F16", b"\xf4\x00", Err(mismatch!("f16", 0xf4)), b"\xf4\x00"),
    ("F32", b"\xfb\x00", Err(mismatch!("f32", 0xfb)), b"\xfb\x00"),
    ("F64", b"\xfb\x3f", Err(eof!("f64", 8)), b""),
    ("()", b"\x9f\xff", Err(mismatch!("unit", 0x9f)), b"\xff"),
    ("()", b"\x98\x00", Err(mismatch!("unit", 0x98)), b"\x00"),
    ("()", b"", Err(eof!("unit", 1)), b""),
    ("Option<u8>", b"\xf7\x00", Ok("None"), b"\x00"),
    ("Option<u8>", b"", Err(eof!("option", 1)), b""),
    ("Option<u8>", b"\x20\x06", Err(mismatch!("u8", 0x20)), b"\x06"),
    ("char", b"\x7f\x61\xc3\x60\x61\xbc\xff\x01", Ok("'ü'"), b"\x01"),
    ("char", b"\x62ab\x01", Ok("Custom(\"expected one character\")"), b"\x01"),
    ("char", b"\x60\x01", Ok("Custom(\"expected one character\")"), b"\x01"),
    ("char", b"\x7f\xff\x01", Ok("Custom(\"expected one character\")"), b"\x01"),
    ("char", b"\x05\x01", Err(mismatch!("str", 0x05)), b"\x01"),
    ("char", b"\x61\xc3\x01", Err(require_utf8!("str")), b"\x01"),
    ("Box<u32>", b"\x20\x06", Err(mismatch!("u32", 0x20)), b"\x06"),
    ("String", b"\x7f\x65strea\x64ming\xff", Ok("\"streaming\""), b""),
    ("String", b"\x7f\x61\xc3\x61\xa9\xff\x01", Ok("\"é\""), b"\x01"),
    ("String", b"\x7f\xff\x01", Ok("\"\""), b"\x01"),
    ("String", b"\x00", Err(mismatch!("str", 0x00)), b""),
    ("String", b"\x41\x41", Err(mismatch!("str", 0x41)), b"\x41"),
    ("String", b"\x62\xff\xff\x01", Err(require_utf8!("str")), b"\x01"),
    ("String", b"\x63\xed\xa0\x80", Err(require_utf8!("str")), b""),
    ("String", b"\x63\x61\x62", Err(eof!("str", 1)), b""),
    ("String", b"\x7a\x86", Err(eof!("str", 4)), b""),
    ("String", b"\x7f\x61a", Err(eof!("break", 1)), b""),
    ("String", b"\x7f\x7f\xff", Err(require_length!("str")), b"\xff"),
    ("Bytes<Vec<u8>>", b"\x40\x01", Ok("Bytes([])"), b"\x01"),
    ("Bytes<Vec<u8>>", b"\x44\x01\x02\x03\x04", Ok("Bytes([1, 2, 3, 4])"), b""),
    ("Bytes<Vec<u8>>", b"\x43123", Ok("Bytes([49, 50, 51])"), b""),
    ("Bytes<Vec<u8>>", b"\x61a", Err(mismatch!("bytes", 0x61)), b"a"),
    ("Bytes<Vec<u8>>", b"\x5f\x80\xff", Err(mismatch!("bytes", 0x80)), b"\xff"),
    ("Bytes<Vec<u8>>", b"\x42\x01", Err(eof!("bytes", 1)), b""),
    ("IgnoredAny", b"\x5f\x80\xff\x01", Ok("IgnoredAny"), b"\x01"),
    ("IgnoredAny", b"\xd8\x02\xa1\x01\x61\xff\x05", Ok("IgnoredAny"), b"\x05"),
    ("IgnoredAny", b"\x82\x81\x01\x61a", Ok("IgnoredAny"), b""),
    ("IgnoredAny", b"\x1a\x86", Err(eof!("ignored-any", 3)), b""),
    ("IgnoredAny", b"\x3a", Err(eof!("ignored-any", 4)), b""),
    ("IgnoredAny", b"\x7a\x86", Err(eof!("ignored-any", 4)), b""),
    ("IgnoredAny", b"\xf8\x14", Err(unsupported!("ignored-any", 0xf8)), b"\xf8\x14"),
    ("IgnoredAny", b"\xff", Err(unsupported!("ignored-any", 0xff)), b"\xff"),
};

const WITHIN: &[CalledWithin] = table! {
    ("u8", b"\x05", 0, Ok("5"), b""),
    ("()", b"\x80\x01", 0, Ok("()"), b"\x01"),
    ("Option<u8>", b"\xf6", 0, Ok("None"), b""),
    ("Option<u8>", b"\xf7\x00", 0, Ok("None"), b"\x00"),
    ("Option<u8>", b"\x05", 0, Err(no_step!("option")), b"\x05"),
    ("Option<u8>", b"\x05", 1, Ok("Some(5)"), b""),
    ("char", b"\x7f\x61a\xff", 0, Err(no_step!("str")), b"\x61a\xff"),
    ("char", b"\x7f\x61a\xff", 1, Ok("'a'"), b""),
    ("Box<u32>", b"\x05\x06", 0, Ok("5"), b"\x06"),
    ("String", b"\x7f\x61a\xff", 0, Err(no_step!("str")), b"\x61a\xff"),
    ("Bytes<Vec<u8>>", b"\x5f\x42\x01\x02\x41\x03\xff\x00", 1, Ok("Bytes([1, 2, 3])"), b"\x00"),
    ("Bytes<Vec<u8>>", b"\x5f\x41a\xff", 0, Err(no_step!("bytes")), b"\x41a\xff"),
    ("IgnoredAny", b"\x81\x00", 1, Err(no_step!("ignored-any")), b"\x00"),
    ("IgnoredAny", b"\x81\x00", 2, Ok("IgnoredAny"), b""),
};

#[test]
fn values_of_one_item(rt: HostRuntime) -> Result<(), Fail> {
    tries_types(rt.alloc(), BOTH, READ, WITHIN)
}

// A byte string is written from a slice, which is not read over each reader.
const SLICES: &[(&[u8], &[u8])] = table! {
    (b"\x01\x02\x03\x04", b"\x44\x01\x02\x03\x04"),
    (b"123", b"\x43123"),
};

#[test]
fn what_is_written_alone(rt: HostRuntime) -> Result<(), Fail> {
    let alloc = rt.alloc();
    for (content, bytes) in SLICES {
        writes(alloc, &Is(Bytes(*content)), bytes)?;
    }
    writes(alloc, &Is(Some(None::<u8>)), b"\xf6")?;
    Ok(())
}

#[test]
fn what_is_skipped_ends_at_its_end(rt: HostRuntime) -> Result<(), Fail> {
    call_ends_at_each_prefix::<By<Types>>(rt.alloc(), "IgnoredAny", b"\x9f\x81\x01\x61a\xff")
}

#[test]
fn a_text_of_more_bytes_than_are_reserved(rt: HostRuntime) -> Result<(), Fail> {
    let alloc = rt.alloc();
    grows_by_letters(alloc, Is(text_of(alloc, LETTERS)?))
}
