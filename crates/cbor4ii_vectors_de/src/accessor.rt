//! What is read by the accessor of arrays and maps, part by part.
use crate::nested::{nested, nested_value};
use crate::typed::{Answer, Got, TypedCalls, calls, no_call, shows};
use cbor4ii::Value;
use cbor4ii::dec::{Decode, IgnoredAny};
use cbor4ii::serde::{Accessor, DecodeError, Deserialize, Deserializer};
use cbor4ii_rw::error as core_error;
use cbor4ii_rw::read::Source;
use cbor4ii_vectors::rows::{Called, ReadFrom, reads};
use cbor4ii_vectors::{eof, mismatch, table};
use std::alloc::Global;
use std::test::Fail;

/// The first item of an array, with how many there are before it and after it.
#[derive(Debug, PartialEq, Drop)]
struct First(Option<usize>, Option<u8>, Option<usize>);

/// An array that was opened and not read.
#[derive(Debug, PartialEq, Drop)]
struct Dropped;

/// The item after the head of an array, which was opened and dropped.
#[derive(Debug, PartialEq, Drop)]
struct AfterDropped(Value);

impl ReadFrom for AfterDropped {
    fn read_from<S: Source>(
        alloc: Global,
        reader: &mut S,
    ) -> Result<AfterDropped, core_error::DecodeError<S::Error>> {
        let mut de = Deserializer::new(reader);
        if let Answer::Is(_) = Answer::of(Parts::make("dropped", alloc, &mut de))? {
            return Ok(AfterDropped(Value::decode(alloc, de.into_inner())?));
        }
        Err(core_error::DecodeError::Custom {
            name: "dropped",
            num: 0,
        })
    }
}

// 128 arrays, one in another, after the head of one more.
#[test]
fn what_stands_after_a_dropped_accessor(rt: HostRuntime) -> Result<(), Fail> {
    let alloc = rt.alloc();
    let value = Ok(AfterDropped(nested_value(alloc, 127)?));
    reads(alloc, nested(alloc, 128)?, value, b"")
}

/// One item, and what two further calls answer.
#[derive(Debug, PartialEq, Drop)]
struct Ended(Option<u8>, Option<u8>, Option<u8>);

/// What stands on both sides of an item that may be rejected.
#[derive(Debug, PartialEq, Drop)]
struct GoesOn(Option<u8>, bool, Option<u8>, Option<u8>);

/// The first item of an array, which is read from what the accessor lends, and whether another one
/// comes after it.
#[derive(Debug, PartialEq, Drop)]
struct Lent(bool, u8, bool);

/// A struct without names that was opened and not read.
#[derive(Debug, PartialEq, Drop)]
struct TupleStruct;

/// The pairs of a map, in both ways, and what follows them.
#[derive(Debug, PartialEq, Drop)]
struct Entries(
    Option<(u8, u8)>,
    Option<u8>,
    u8,
    Option<(u8, u8)>,
    Option<usize>,
);

/// A struct of one field, y, read pair by pair; others are skipped.
#[derive(Debug, PartialEq, Drop)]
struct Y(Option<u8>);

/// A struct of two fields, which come in any order, and no other.
#[derive(Debug, PartialEq, Drop)]
struct Both(u8, i16);

impl Both {
    /// Reads a pair into the field whose key it has, and answers whether there was one.
    fn read_field<S: Source>(
        alloc: Global,
        fields: &mut Accessor<'_, S>,
        x: &mut Option<u8>,
        y: &mut Option<i16>,
    ) -> Got<bool, S> {
        let Some(key) = fields.next_key::<String>(alloc)? else {
            return Ok(false);
        };
        match key.as_str() {
            "x" => *x = Some(fields.next_value(alloc)?),
            "y" => *y = Some(fields.next_value(alloc)?),
            _ => return Err(DecodeError::Custom("another field")),
        }
        Ok(true)
    }
}

/// The calls of these names.
struct Parts;

impl TypedCalls for Parts {
    fn make<S: Source>(name: &str, alloc: Global, de: &mut Deserializer<S>) -> Got<String, S> {
        match name {
            "first" => {
                let mut items = de.deserialize_seq()?;
                let before = items.size_hint();
                let first = items.next_element(alloc)?;
                shows(alloc, First(before, first, items.size_hint()))
            }
            "dropped" => {
                de.deserialize_seq()?;
                shows(alloc, Dropped)
            }
            "ended" => {
                let mut items = de.deserialize_seq()?;
                let first = items.next_element(alloc)?;
                let second = items.next_element(alloc)?;
                shows(alloc, Ended(first, second, items.next_element(alloc)?))
            }
            "goes on" => {
                let mut items = de.deserialize_tuple(3)?;
                let first = items.next_element(alloc)?;
                let is_rejected = match items.next_element::<u8>(alloc) {
                    Ok(_) => false,
                    Err(DecodeError::Core(core_error::DecodeError::Mismatch { .. })) => true,
                    Err(error) => return Err(error),
                };
                let third = items.next_element(alloc)?;
                shows(
                    alloc,
                    GoesOn(first, is_rejected, third, items.next_element(alloc)?),
                )
            }
            "lent" => {
                let mut items = de.deserialize_seq()?;
                let starts = items.starts_element()?;
                let first = u8::deserialize(alloc, items.deserializer())?;
                shows(alloc, Lent(starts, first, items.starts_element()?))
            }
            "tuple struct" => {
                de.deserialize_tuple_struct("Pair", 2)?;
                shows(alloc, TupleStruct)
            }
            "entries" => {
                let mut entries = de.deserialize_map()?;
                let first = entries.next_entry(alloc)?;
                let key = entries.next_key(alloc)?;
                let value = entries.next_value(alloc)?;
                let end = entries.next_entry(alloc)?;
                shows(alloc, Entries(first, key, value, end, entries.size_hint()))
            }
            "y" => {
                let mut y = None;
                let mut fields = de.deserialize_struct("Struct", &["y"])?;
                for _ in 0..3 {
                    match fields.next_key::<String>(alloc)? {
                        Some(key) => {
                            if key.as_str() == "y" {
                                y = Some(fields.next_value::<u8>(alloc)?);
                            } else {
                                fields.next_value::<IgnoredAny>(alloc)?;
                            }
                        }
                        None => break,
                    }
                }
                shows(alloc, Y(y))
            }
            "both" => {
                let mut x = None;
                let mut y = None;
                let mut fields = de.deserialize_struct("Struct", &["x", "y"])?;
                for _ in 0..2 {
                    if !Both::read_field(alloc, &mut fields, &mut x, &mut y)? {
                        break;
                    }
                }
                match (x, y) {
                    (Some(x), Some(y)) => shows(alloc, Both(x, y)),
                    _ => Err(DecodeError::Custom("a missing field")),
                }
            }
            _ => no_call(),
        }
    }
}

const READ: &[Called] = table! {
    ("first", b"\x82\x01\x02", Ok("First(Some(2), Some(1), Some(1))"), b"\x02"),
    ("first", b"\x9f\x01\x02\xff", Ok("First(None, Some(1), None)"), b"\x02\xff"),
    ("first", b"\x9f\xff\x01", Ok("First(None, None, None)"), b"\x01"),
    ("ended", b"\x81\x01\xff", Ok("Ended(Some(1), None, None)"), b"\xff"),
    ("ended", b"\x9f\x01\xff\xff", Ok("Ended(Some(1), None, None)"), b"\xff"),
    ("goes on", b"\x83\x01\x20\x03", Ok("GoesOn(Some(1), true, Some(3), None)"), b""),
    ("lent", b"\x81\x05\xff", Ok("Lent(true, 5, false)"), b"\xff"),
    ("lent", b"\x82\x05\x06", Ok("Lent(true, 5, true)"), b"\x06"),
    ("lent", b"\x9f\x05\xff\x06", Ok("Lent(true, 5, false)"), b"\x06"),
    ("lent", b"\x9f\x05", Err(eof!("break", 1)), b""),
    ("tuple struct", b"\x82\x01\x02", Ok("TupleStruct"), b"\x01\x02"),
    ("entries", b"\xbf\x01\x02\x03\x04\xff", Ok("Entries(Some((1, 2)), Some(3), 4, None, None)"),
        b""),
    ("entries", b"\xa2\x01\x02\x03\x04\xff", Ok("Entries(Some((1, 2)), Some(3), 4, None, Some(0))"),
        b"\xff"),
    ("entries", b"\x80", Err(mismatch!("map", 0x80)), b""),
    ("y", b"\xbf\x61x\x9f\x01\xff\x61y\x02\xff", Ok("Y(Some(2))"), b""),
    ("y", b"\xa2\x61y\x02\x61x\x80\xff", Ok("Y(Some(2))"), b"\xff"),
    ("y", b"\xa1\x61x\x80", Ok("Y(None)"), b""),
    ("y", b"\xa1\x61y\x20", Err(mismatch!("u8", 0x20)), b""),
    ("y", b"\xa1\x05\x20", Err(mismatch!("str", 0x05)), b"\x20"),
    ("both", b"\xa2\x61x\x18\x99\x61y\x38\x98", Ok("Both(153, -153)"), b""),
    ("both", b"\xa2\x61y\x38\x98\x61x\x18\x99\xff", Ok("Both(153, -153)"), b"\xff"),
    ("both", b"\xa1\x61x\x01", Ok("Custom(\"a missing field\")"), b""),
    ("both", b"\xa1\x61z\x01", Ok("Custom(\"another field\")"), b"\x01"),
};

#[test]
fn parts_of_arrays_and_maps(rt: HostRuntime) -> Result<(), Fail> {
    calls::<Parts>(
        rt.alloc(),
        READ,
        &[("dropped", b"\x81\x80", 1, Ok("Dropped"), b"\x80")],
    )
}
