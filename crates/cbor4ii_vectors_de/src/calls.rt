//! What is read by the calls of a deserializer, by their names, and by the accessor of what may be
//! absent.
use crate::typed::{Got, TypedCalls, calls, is_rejected, no_call, shows};
use cbor4ii::RawValue;
use cbor4ii::serde::{DecodeError, Deserialize, Deserializer};
use cbor4ii::types::{F16, F32, F64, Simple, Tag};
use cbor4ii_rw::error::Never;
use cbor4ii_rw::read::Source;
use cbor4ii_rw::slice_reader::SliceReader;
use cbor4ii_vectors::rows::{Called, CalledWithin};
use cbor4ii_vectors::{eof, mismatch, no_step, table, unsupported};
use std::alloc::Global;
use std::test::Fail;

/// Calls of a deserializer.
struct Named;

impl TypedCalls for Named {
    fn make<S: Source>(name: &str, alloc: Global, de: &mut Deserializer<S>) -> Got<String, S> {
        match name {
            "any" => shows(alloc, de.deserialize_any(alloc)?),
            "char" => shows(alloc, de.deserialize_char(alloc)?),
            "owned strings" => {
                let text: String = de.deserialize_string(alloc)?;
                let bytes: Vec<u8> = de.deserialize_byte_buf(alloc)?;
                shows(alloc, (text, bytes))
            }
            "newtype" => shows::<u8, _>(alloc, de.deserialize_newtype_struct(alloc, "Newtype")?),
            "items" => {
                let simple: Simple = de.deserialize_item(alloc)?;
                let tag: Tag<u8> = de.deserialize_item(alloc)?;
                shows(alloc, (simple, tag))
            }
            "units" => {
                de.deserialize_unit()?;
                shows(alloc, de.deserialize_unit_struct("Unit")?)
            }
            "two are skipped" => {
                de.deserialize_ignored_any(alloc)?;
                shows(alloc, de.deserialize_ignored_any(alloc)?)
            }
            _ => number(name, alloc, de),
        }
    }
}

fn number<S: Source>(name: &str, alloc: Global, de: &mut Deserializer<S>) -> Got<String, S> {
    match name {
        "unsigned" => {
            let flag = de.deserialize_bool(alloc)?;
            let one = de.deserialize_u8(alloc)?;
            let two = de.deserialize_u16(alloc)?;
            let four = de.deserialize_u32(alloc)?;
            let eight = de.deserialize_u64(alloc)?;
            shows(
                alloc,
                (flag, one, two, four, eight, de.deserialize_u128(alloc)?),
            )
        }
        "signed" => {
            let one = de.deserialize_i8(alloc)?;
            let two = de.deserialize_i16(alloc)?;
            let four = de.deserialize_i32(alloc)?;
            let eight = de.deserialize_i64(alloc)?;
            shows(alloc, (one, two, four, eight, de.deserialize_i128(alloc)?))
        }
        "floats and units" => {
            let half: F16 = de.deserialize_f16(alloc)?;
            let single: F32 = de.deserialize_f32(alloc)?;
            let double: F64 = de.deserialize_f64(alloc)?;
            de.deserialize_unit()?;
            de.deserialize_unit_struct("Unit")?;
            shows(alloc, (half, single, double))
        }
        _ => option(name, alloc, de),
    }
}

// A number that may be absent, whether a value comes, which is not read then, and a number that is
// read from what an option lends, whether or not a value comes.
fn option<S: Source>(name: &str, alloc: Global, de: &mut Deserializer<S>) -> Got<String, S> {
    match name {
        "option" => shows::<Option<u8>, _>(alloc, de.deserialize_option()?.value(alloc)?),
        "is some" => shows(alloc, de.deserialize_option()?.is_some()),
        "lent by an option" => {
            let mut option = de.deserialize_option()?;
            shows(alloc, u8::deserialize(alloc, option.deserializer())?)
        }
        _ => no_call(),
    }
}

// 2^64 - 1 and a byte after it, 2^64, 2^64 + 98, and 2^127.
const EIGHT_BYTES: &[u8] = b"\xc2\x48\xff\xff\xff\xff\xff\xff\xff\xff\x00";

const NINE_BYTES: &[u8] = b"\xc2\x49\x01\x00\x00\x00\x00\x00\x00\x00\x00";

const GREATER: &[u8] = b"\xc2\x49\x01\x00\x00\x00\x00\x00\x00\x00\x62";

const TOO_GREAT: &[u8] =
    b"\xc2\x50\x80\x00\x00\x00\x00\x00\x00\x00\x00\x00\x00\x00\x00\x00\x00\x00";

const FLOATS: &[u8] =
    b"\xf9\x3c\x00\xfa\x7f\x80\x00\x00\xfb\x7f\xf0\x00\x00\x00\x00\x00\x00\x80\x80";

const READ: &[Called] = table! {
    ("any", EIGHT_BYTES, Ok("Integer(18446744073709551615)"), b"\x00"),
    ("any", NINE_BYTES, Ok("Integer(18446744073709551616)"), b""),
    ("any", GREATER, Ok("Integer(18446744073709551714)"), b""),
    ("any", TOO_GREAT, Ok("Custom(\"integer out of range\")"), b""),
    ("any", b"\xd8\x02\x41\x05", Err(unsupported!("any", 0xd8)), b"\xd8\x02\x41\x05"),
    ("any", b"", Err(eof!("any", 1)), b""),
    ("char", b"\x61a", Ok("'a'"), b""),
    ("owned strings", b"\x7f\x61a\xff\x5f\x41a\xff\x01", Ok("(\"a\", [97])"), b"\x01"),
    ("owned strings", b"\x60\x61\x61", Err(mismatch!("bytes", 0x61)), b"\x61"),
    ("newtype", b"\x06\x20", Ok("6"), b"\x20"),
    ("newtype", b"\x20", Err(mismatch!("u8", 0x20)), b""),
    // A simple value and a tagged number, which are no typed values.
    ("items", b"\xf0\xc1\x05\x00", Ok("(Simple(16), Tag(1, 5))"), b"\x00"),
    ("items", b"\xf8\xff\xd8\x20\x18\x20", Ok("(Simple(255), Tag(32, 32))"), b""),
    ("items", b"\x14\x01", Err(mismatch!("simple", 0x14)), b"\x01"),
    ("items", b"\xf8", Err(eof!("simple", 1)), b""),
    ("items", b"\xf0\x05\x00", Err(mismatch!("tag", 0x05)), b"\x00"),
    ("items", b"\xf0\xc1\x20", Err(mismatch!("u8", 0x20)), b""),
    ("units", b"\x80\x80\x01", Ok("()"), b"\x01"),
    ("units", b"\x9f\xff", Err(mismatch!("unit", 0x9f)), b"\xff"),
    ("units", b"\x80\x81\x01", Err(mismatch!("unit", 0x81)), b"\x01"),
    ("two are skipped", b"\x82\x01\x02\x03\xff", Ok("()"), b"\xff"),
    ("two are skipped", b"\x03\xff", Err(unsupported!("ignored-any", 0xff)), b"\xff"),
    ("unsigned", b"\xf4\x01\x02\x03\x04\x05\x20", Ok("(false, 1, 2, 3, 4, 5)"), b"\x20"),
    ("signed", b"\x20\x21\x22\x23\x24", Ok("(-1, -2, -3, -4, -5)"), b""),
    // 0x3c00, 0x7f800000 and 0x7ff0000000000000.
    ("floats and units", FLOATS,
        Ok("(F16(15360), F32(2139095040), F64(9218868437227405312))"), b""),
    ("option", b"", Err(eof!("option", 1)), b""),
    ("option", b"\x20\x06", Err(mismatch!("u8", 0x20)), b"\x06"),
    ("is some", b"\x05", Ok("true"), b"\x05"),
    ("is some", b"\xf6\x05", Ok("false"), b"\x05"),
};

const WITHIN: &[CalledWithin] = table! {
    ("any", b"\x05", 0, Err(no_step!("any")), b"\x05"),
    ("any", b"\x80", 1, Err(no_step!("seq")), b"\x80"),
    ("any", b"\x80", 2, Ok("Array([])"), b""),
    ("owned strings", b"\x60\x5f\x41a\xff", 0, Err(no_step!("bytes")), b"\x41a\xff"),
    ("option", b"\xf6", 0, Ok("None"), b""),
    ("option", b"\xf7\x05", 0, Ok("None"), b"\x05"),
    ("option", b"\x05", 0, Err(no_step!("option")), b"\x05"),
    ("option", b"\x05\x06", 1, Ok("Some(5)"), b"\x06"),
    ("lent by an option", b"\x05\x06", 1, Ok("5"), b"\x06"),
    // No value comes: the next item is read, under no step.
    ("lent by an option", b"\xf6\x05\x06", 0, Ok("5"), b"\x06"),
};

#[test]
fn calls_by_name(rt: HostRuntime) -> Result<(), Fail> {
    calls::<Named>(rt.alloc(), READ, WITHIN)
}

#[test]
fn what_a_deserializer_is(rt: HostRuntime) -> Result<(), Fail> {
    let de = Deserializer::new(SliceReader::new(b"\x05"));
    assert!(rt; !de.is_human_readable());
    assert_eq!(rt; de.into_inner().remaining(), b"\x05".as_slice());
    Ok(())
}

#[test]
fn an_item_that_is_kept_as_it_stands(rt: HostRuntime) -> Result<(), Fail> {
    let mut de = Deserializer::new(SliceReader::new(b"\x82\x18\x01\xf7\x05"));
    let item: RawValue<'_> = de.deserialize_item(rt.alloc())?;
    assert_eq!(rt; item.as_bytes(), b"\x82\x18\x01\xf7".as_slice());
    assert_eq!(rt; de.into_inner().remaining(), b"\x05".as_slice());
    let mut de = Deserializer::new(SliceReader::new(b"\x1c\x05"));
    let got: Result<RawValue<'_>, DecodeError<Never>> = de.deserialize_item(rt.alloc());
    is_rejected(got, "Mismatch { name: \"ignored-any\", found: 28 }")?;
    assert_eq!(rt; de.into_inner().remaining(), b"\x1c\x05".as_slice());
    Ok(())
}
