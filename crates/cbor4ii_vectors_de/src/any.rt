//! Items that are read as values, whatever they are, and values that are written.
use crate::growth::{ARRAYS, LETTERS, MAPS, PARTS, grows, grows_by_letters, text_of};
use crate::nested::{nested, nested_value};
use crate::typed::Answer::{self, Is};
use crate::typed::{Got, Take};
use crate::values::{BothWays, tries_types};
use cbor4ii::Value;
use cbor4ii::serde::Deserializer;
use cbor4ii_rw::read::Source;
use cbor4ii_vectors::rows::{Called, CalledWithin, Want, reads, reads_within};
use cbor4ii_vectors::{
    cast_overflow, eof, mismatch, no_step, require_length, require_utf8, table, unsupported,
};
use std::alloc::{AllocError, Global};
use std::test::Fail;

// The greatest and the least number of 128 bits.
const GREATEST: &[u8] = b"\xc2\x50\x7f\xff\xff\xff\xff\xff\xff\xff\xff\xff\xff\xff\xff\xff\xff\xff";

const LEAST: &[u8] = b"\xc3\x50\x7f\xff\xff\xff\xff\xff\xff\xff\xff\xff\xff\xff\xff\xff\xff\xff";

// 2^127, and a byte after it.
const TOO_GREAT: &[u8] =
    b"\xc2\x50\x80\x00\x00\x00\x00\x00\x00\x00\x00\x00\x00\x00\x00\x00\x00\x00\x00";

// -1 - 2^127, and a byte after it.
const TOO_LOW: &[u8] =
    b"\xc3\x50\x80\x00\x00\x00\x00\x00\x00\x00\x00\x00\x00\x00\x00\x00\x00\x00\x05";

const BOTH: &[BothWays] = table! {
    ("Value", b"\x05", "Integer(5)"),
    ("Value", b"\x29", "Integer(-10)"),
    ("Value", b"\x38\x63", "Integer(-100)"),
    ("Value", b"\x3b\x7f\xff\xff\xff\xff\xff\xff\xff", "Integer(-9223372036854775808)"),
    ("Value", b"\x3b\x80\x00\x00\x00\x00\x00\x00\x00", "Integer(-9223372036854775809)"),
    ("Value", b"\x3b\xff\xff\xff\xff\xff\xff\xff\xff", "Integer(-18446744073709551616)"),
    ("Value", b"\xc3\x49\x01\x00\x00\x00\x00\x00\x00\x00\x00", "Integer(-18446744073709551617)"),
    ("Value", b"\xc2\x49\x01\x00\x00\x00\x00\x00\x00\x00\x62", "Integer(18446744073709551714)"),
    ("Value", GREATEST, "Integer(170141183460469231731687303715884105727)"),
    ("Value", LEAST, "Integer(-170141183460469231731687303715884105728)"),
    ("Value", b"\x42\x01\x02", "Bytes([1, 2])"),
    ("Value", b"\x61a", "Text(\"a\")"),
    ("Value", b"\xf4", "Bool(false)"),
    ("Value", b"\xf5", "Bool(true)"),
    ("Value", b"\xf6", "Null"),
    // 0x3c00, 0x4a00, 0x47c35000 and 0x7ff0000000000000.
    ("Value", b"\xf9\x3c\x00", "Float(F16(15360))"),
    ("Value", b"\xf9\x4a\x00", "Float(F16(18944))"),
    ("Value", b"\xfa\x47\xc3\x50\x00", "Float(F32(1203982336))"),
    ("Value", b"\xfb\x7f\xf0\x00\x00\x00\x00\x00\x00", "Float(F64(9218868437227405312))"),
    ("Value", b"\xa1\x01\x82\xf5\x61a", "Map([(Integer(1), Array([Bool(true), Text(\"a\")]))])"),
    ("Value", b"\x82\x01\x81\xf6", "Array([Integer(1), Array([Null])])"),
    ("Value", b"\xa2\x01\x02\x01\x03", "Map([(Integer(1), Integer(2)), (Integer(1), Integer(3))])"),
    ("Value", b"\xa1\x61a\xf4", "Map([(Text(\"a\"), Bool(false))])"),
};

const READ: &[Called] = table! {
    ("Value", b"\x18\x05\x00", Ok("Integer(5)"), b"\x00"),
    ("Value", b"\xc2\x40", Ok("Integer(0)"), b""),
    ("Value", TOO_GREAT, Ok("Custom(\"integer out of range\")"), b"\x00"),
    ("Value", b"\xf6\xf7", Ok("Null"), b"\xf7"),
    ("Value", b"\xf7", Ok("Null"), b""),
    ("Value", TOO_LOW, Err(cast_overflow!("i128")), b"\x05"),
    ("Value", b"\xc2\x5f\xff", Err(require_length!("u128::bytes")), b"\xff"),
    ("Value", b"\xc3\x01\x02", Err(mismatch!("-i128::bytes", 0x01)), b"\x02"),
    ("Value", b"\x3c\x00", Err(mismatch!("i128", 0x3c)), b"\x00"),
    ("Value", b"\x19\x00", Err(eof!("u64", 2)), b""),
    ("Value", b"\xfb\x7f", Err(eof!("f64", 8)), b""),
    ("Value", b"\x62\xff\xff\x01", Err(require_utf8!("str")), b"\x01"),
    ("Value", b"\x5f\x80\xff", Err(mismatch!("bytes", 0x80)), b"\xff"),
    ("Value", b"\x9f\x01\x80\xff\x02", Ok("Array([Integer(1), Array([])])"), b"\x02"),
    ("Value", b"\xbf\x61a\xf4\xff", Ok("Map([(Text(\"a\"), Bool(false))])"), b""),
    ("Value", b"\xd8\x02\x41\x05", Err(unsupported!("any", 0xd8)), b"\xd8\x02\x41\x05"),
    ("Value", b"\xc1\x00", Err(unsupported!("any", 0xc1)), b"\xc1\x00"),
    ("Value", b"\xff", Err(unsupported!("any", 0xff)), b"\xff"),
    ("Value", b"\xf8\x14", Err(unsupported!("any", 0xf8)), b"\xf8\x14"),
    ("Value", b"\xe0", Err(unsupported!("any", 0xe0)), b"\xe0"),
    ("Value", b"", Err(eof!("any", 1)), b""),
    ("Value", b"\x82\x01", Err(eof!("any", 1)), b""),
    ("Value", b"\x9f\x01", Err(eof!("break", 1)), b""),
    ("Value", b"\xbf\x01\xff", Err(unsupported!("any", 0xff)), b"\xff"),
    ("Value", b"\xbc\x01", Err(mismatch!("map", 0xbc)), b"\x01"),
    ("Value", b"\x99\x00", Err(eof!("array", 2)), b""),
};

const WITHIN: &[CalledWithin] = table! {
    // A bignum takes one step.
    ("Value", b"\xc2\x41\x05", 1, Ok("Integer(5)"), b""),
    ("Value", b"\x5f\x41\x01\x41\x02\xff", 2, Ok("Bytes([1, 2])"), b""),
    ("Value", b"\x61a", 1, Ok("Text(\"a\")"), b""),
    ("Value", b"\x7f\x61a\xff", 2, Ok("Text(\"a\")"), b""),
    ("Value", b"\x80", 2, Ok("Array([])"), b""),
    ("Value", b"\xa0", 2, Ok("Map([])"), b""),
    ("Value", b"\x05", 0, Err(no_step!("any")), b"\x05"),
    ("Value", b"\x7f\x61a\xff", 1, Err(no_step!("str")), b"\x61a\xff"),
    ("Value", b"\x80", 1, Err(no_step!("seq")), b"\x80"),
    ("Value", b"\xa0", 1, Err(no_step!("map")), b"\xa0"),
    ("Value", b"\x81\x05", 2, Err(no_step!("any")), b"\x05"),
};

#[test]
fn items_of_any_kind(rt: HostRuntime) -> Result<(), Fail> {
    tries_types(rt.alloc(), BOTH, READ, WITHIN)
}

fn array(alloc: Global) -> Result<Value, AllocError> {
    let mut items = Vec::new(alloc);
    for number in 0..PARTS {
        items.push(Value::Integer(i128::from(number)))?;
    }
    Ok(Value::Array(items))
}

fn map(alloc: Global) -> Result<Value, AllocError> {
    let mut entries = Vec::new(alloc);
    for number in 0..PARTS {
        entries.push((Value::Integer(i128::from(number)), Value::Integer(5)))?;
    }
    Ok(Value::Map(entries))
}

#[test]
fn more_parts_than_are_reserved(rt: HostRuntime) -> Result<(), Fail> {
    let alloc = rt.alloc();
    grows(alloc, ARRAYS, Is(array(alloc)?))?;
    grows(alloc, MAPS, Is(map(alloc)?))
}

fn reads_nested(alloc: Global, depth: usize) -> Result<(), Fail> {
    let value = Ok(Is(nested_value(alloc, depth)?));
    reads(alloc, nested(alloc, depth)?, value, b"")
}

const TOO_DEEP: Want<Answer<Value>> = Err(no_step!("any"));

#[test]
fn depth(rt: HostRuntime) -> Result<(), Fail> {
    let alloc = rt.alloc();
    reads_nested(alloc, 127)?;
    reads_within(alloc, nested(alloc, 128)?, 256, &TOO_DEEP, b"\x80")
}

#[test]
fn a_text_of_more_bytes_than_are_reserved(rt: HostRuntime) -> Result<(), Fail> {
    let alloc = rt.alloc();
    grows_by_letters(alloc, Is(Value::Text(text_of(alloc, LETTERS)?)))
}

/// An item that is read by the call for any item.
#[derive(Debug, PartialEq, Drop)]
struct ByCall(Value);

impl Take for ByCall {
    fn take<S: Source>(alloc: Global, de: &mut Deserializer<S>) -> Got<ByCall, S> {
        Ok(ByCall(de.deserialize_any(alloc)?))
    }
}

const TOO_DEEP_BY_CALL: Want<Answer<ByCall>> = Err(no_step!("any"));

#[test]
fn depth_of_the_call_for_any_item(rt: HostRuntime) -> Result<(), Fail> {
    let alloc = rt.alloc();
    let value = Ok(Is(ByCall(nested_value(alloc, 127)?)));
    reads(alloc, nested(alloc, 127)?, value, b"")?;
    reads_within(alloc, nested(alloc, 128)?, 256, &TOO_DEEP_BY_CALL, b"\x80")
}
