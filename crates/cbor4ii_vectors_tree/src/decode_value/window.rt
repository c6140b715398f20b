//! Values on both sides of the 4,096 bytes that one look may ask for: of more parts than it shows,
//! and strings that end there. They are read over a slice, over two segments that are cut there,
//! and over streams that show as many bytes at a time.
use crate::decode_value::growth::{array, byte_string, map, text};
use crate::item::Item;
use cbor4ii_tree::{Canonical, Value};
use cbor4ii_vectors::repeated::repeated;
use cbor4ii_vectors::rows::reads_around_a_look;
use cbor4ii_vectors::table;
use std::alloc::{AllocError, Global};
use std::test::Fail;

fn reads(alloc: Global, bytes: &'static [u8], value: Value) -> Result<(), Fail> {
    reads_around_a_look(alloc, bytes, &Ok(Item(value)))
}

// Also where no other encoding is read.
fn reads_canonically(alloc: Global, bytes: &'static [u8], value: Value) -> Result<(), Fail> {
    reads(alloc, bytes, value.try_clone()?)?;
    reads_around_a_look(alloc, bytes, &Ok(Item(Canonical(value))))
}

#[test]
fn arrays_of_5000_items(rt: HostRuntime) -> Result<(), Fail> {
    let alloc = rt.alloc();
    let counted = repeated(alloc, b"\x99\x13\x88", b"\x05", 5_000, b"")?;
    reads_canonically(alloc, counted, array(alloc, 5_000)?)?;
    let indefinite = repeated(alloc, b"\x9f", b"\x05", 5_000, b"\xff")?;
    reads(alloc, indefinite, array(alloc, 5_000)?)
}

#[test]
fn maps_of_2500_pairs(rt: HostRuntime) -> Result<(), Fail> {
    let alloc = rt.alloc();
    let counted = repeated(alloc, b"\xb9\x09\xc4", b"\x05\x06", 2_500, b"")?;
    reads_canonically(alloc, counted, map(alloc, 6, 2_500)?)?;
    let indefinite = repeated(alloc, b"\xbf", b"\x05\x06", 2_500, b"\xff")?;
    reads(alloc, indefinite, map(alloc, 6, 2_500)?)
}

// So many empty arrays.
fn empty_arrays(alloc: Global, count: usize) -> Result<Value, AllocError> {
    let mut items = Vec::new(alloc);
    for _ in 0..count {
        items.push(Value::Array(Vec::new(alloc)))?;
    }
    Ok(Value::Array(items))
}

#[test]
fn an_array_of_4001_arrays(rt: HostRuntime) -> Result<(), Fail> {
    let alloc = rt.alloc();
    let bytes = repeated(alloc, b"\x99\x0f\xa1", b"\x80", 4_001, b"")?;
    reads_canonically(alloc, bytes, empty_arrays(alloc, 4_001)?)
}

// What follows the first byte of a string's head: the argument that says its length, and that
// length. With their heads the strings have 4,094 to 4,098 bytes.
type Length = (&'static [u8], usize);

// After 59 and 79, the shortest heads. Of 4,094 bytes and more are the content too.
const IN_2_BYTES: &[Length] = table! {
    (b"\x0f\xfb", 4_091),
    (b"\x0f\xfc", 4_092),
    (b"\x0f\xfd", 4_093),
    (b"\x0f\xfe", 4_094),
    (b"\x0f\xff", 4_095),
    (b"\x10\x00", 4_096),
    (b"\x10\x01", 4_097),
    (b"\x10\x02", 4_098),
};

// After 5a and 7a.
const IN_4_BYTES: &[Length] = table! {
    (b"\x00\x00\x0f\xf9", 4_089),
    (b"\x00\x00\x0f\xfa", 4_090),
    (b"\x00\x00\x0f\xfb", 4_091),
    (b"\x00\x00\x0f\xfc", 4_092),
    (b"\x00\x00\x0f\xfd", 4_093),
};

// After 5b and 7b.
const IN_8_BYTES: &[Length] = table! {
    (b"\x00\x00\x00\x00\x00\x00\x0f\xf5", 4_085),
    (b"\x00\x00\x00\x00\x00\x00\x0f\xf6", 4_086),
    (b"\x00\x00\x00\x00\x00\x00\x0f\xf7", 4_087),
    (b"\x00\x00\x00\x00\x00\x00\x0f\xf8", 4_088),
    (b"\x00\x00\x00\x00\x00\x00\x0f\xf9", 4_089),
};

// Where a string stands.
#[derive(Clone, Copy)]
enum Place {
    Alone,
    InArray,
    AsKey,
    AsValue,
}

// What stands in front of the string there, and after it.
const PLACES: &[(Place, &[u8], &[u8])] = table! {
    (Place::Alone, b"", b""),
    (Place::InArray, b"\x81", b""),
    (Place::AsKey, b"\xa1", b"\x00"),
    (Place::AsValue, b"\xa1\x00", b""),
};

// The value that the string makes there.
fn placed(alloc: Global, place: Place, string: Value) -> Result<Value, AllocError> {
    match place {
        Place::Alone => Ok(string),
        Place::InArray => Ok(Value::Array(vec![in alloc; string]?)),
        Place::AsKey => pair(alloc, string, Value::Integer(0)),
        Place::AsValue => pair(alloc, Value::Integer(0), string),
    }
}

fn pair(alloc: Global, key: Value, value: Value) -> Result<Value, AllocError> {
    let mut pairs = Vec::new(alloc);
    pairs.push((key, value))?;
    Ok(Value::Map(pairs))
}

// In each place, and also where no other encoding is read, if this is the shortest.
fn reads_in_places(
    alloc: Global,
    string: &[u8],
    value: &Value,
    is_shortest: bool,
) -> Result<(), Fail> {
    for &(place, head, end) in PLACES {
        let bytes = repeated(alloc, head, string, 1, end)?;
        let value = placed(alloc, place, value.try_clone()?)?;
        if is_shortest {
            reads_canonically(alloc, bytes, value)?;
        } else {
            reads(alloc, bytes, value)?;
        }
    }
    Ok(())
}

// Byte strings and texts of so many letters a, whose heads have these first bytes.
fn reads_strings(
    alloc: Global,
    first: (u8, u8),
    lengths: &[Length],
    is_shortest: bool,
) -> Result<(), Fail> {
    for &(argument, count) in lengths {
        let bytes = letters(alloc, first.0, argument, count)?;
        reads_in_places(alloc, bytes, &byte_string(alloc, b'a', count)?, is_shortest)?;
        let bytes = letters(alloc, first.1, argument, count)?;
        reads_in_places(alloc, bytes, &text(alloc, count)?, is_shortest)?;
    }
    Ok(())
}

// A head, and so many letters a after it.
fn letters(
    alloc: Global,
    first: u8,
    argument: &[u8],
    count: usize,
) -> Result<&'static [u8], AllocError> {
    let head = repeated(alloc, &[first], argument, 1, b"")?;
    repeated(alloc, head, b"a", count, b"")
}

#[test]
fn strings_of_a_look(rt: HostRuntime) -> Result<(), Fail> {
    reads_strings(rt.alloc(), (0x59, 0x79), IN_2_BYTES, true)
}

#[test]
fn strings_of_a_look_with_longer_heads(rt: HostRuntime) -> Result<(), Fail> {
    let alloc = rt.alloc();
    reads_strings(alloc, (0x5a, 0x7a), IN_4_BYTES, false)?;
    reads_strings(alloc, (0x5b, 0x7b), IN_8_BYTES, false)
}
