//! A vector of 5,000 numbers with a byte string of 100,000 bytes, read by each call that takes
//! memory: it is found for all of them. Readers show up to about 4,096 bytes at a time, or all.
ghost use Rattle.std.specs.Prelude.{◌≡◌, None};
ghost use Rattle.std.proofs.Common.{refl};

use crate::typed::{By, Got, TypedCalls, no_call, shows};
use cbor4ii::Value;
use cbor4ii::serde::laws::tested_values_are_rejected_once;
use cbor4ii::serde::{
    CheckedFrom, Choice, DecodeError, Deserializer, Holds, Otherwise, Required, Unmade,
    from_reader, from_slice, from_slice_whole, from_slice_whole_at,
};
use cbor4ii::types::Bytes;
use cbor4ii_rw::error as core_error;
use cbor4ii_rw::error::Never;
use cbor4ii_rw::read::Source;
use cbor4ii_vectors::repeated::repeated;
use cbor4ii_vectors::rows::call_around_a_look;
use cbor4ii_vectors::table;
use std::alloc::{AllocError, Global};
use std::test::Fail;

/// Numbers, and a byte string.
type Many = (Vec<u8>, Bytes<Vec<u8>>);

// 5,000 of them, 0x1388, and 100,000 bytes, 0x186a0.
fn many(alloc: Global) -> Result<Many, AllocError> {
    let numbers = vec![in alloc; 5u8; 5_000]?;
    Ok((numbers, Bytes(vec![in alloc; b'a'; 100_000]?)))
}

// Their array, after these bytes.
fn many_after(alloc: Global, before: &[u8]) -> Result<&'static [u8], AllocError> {
    let head = repeated(alloc, before, b"\x82\x99\x13\x88", 1, b"")?;
    let numbers = repeated(alloc, head, b"\x05", 5_000, b"\x5a\x00\x01\x86\xa0")?;
    repeated(alloc, numbers, b"a", 100_000, b"")
}

/// What is read by a call.
#[derive(Debug, PartialEq, Drop)]
struct Read(Many);

impl From<Many> for Read {
    fn from(value: Many) -> Read {
        Read(value)
    }
}

impl From<(Many, ())> for Read {
    fn from(values: (Many, ())) -> Read {
        Read(values.0)
    }
}

impl From<Choice<Many, Never>> for Read {
    fn from(value: Choice<Many, Never>) -> Read {
        match value {
            Choice::First(value) => Read(value),
        }
    }
}

impl CheckedFrom<Many> for Read {
    ghost words = { λ value. None };

    ghost makes = { λ value made. value ≡ made.0 };

    fn checked_from(alloc: Global, value: Many) -> Result<Read, Unmade> {
        Ok(Read(value))
    }

    ghost fate = { λ v w same. refl };
}

/// Whether these values are equal.
fn same<T: PartialEq + Drop, E>(
    alloc: Global,
    value: &T,
    want: Result<T, AllocError>,
) -> Result<String, DecodeError<E>> {
    match want {
        Ok(want) => shows(alloc, *value == want),
        Err(_) => Err(DecodeError::Core(core_error::DecodeError::OutOfMemory)),
    }
}

/// Whether the value is what was read.
fn is_many<E>(alloc: Global, read: Read) -> Result<String, DecodeError<E>> {
    same(alloc, &read.0, many(alloc))
}

/// Calls that take memory for the value: whether it is what was read.
struct Calls;

impl TypedCalls for Calls {
    fn make<S: Source>(name: &str, alloc: Global, de: &mut Deserializer<S>) -> Got<String, S> {
        match name {
            "deserialize_from" => is_many(alloc, de.deserialize_from::<Many, Read>(alloc)?),
            "deserialize_checked" => is_many(alloc, de.deserialize_checked::<Many, Read>(alloc)?),
            "deserialize_tagged" => is_many(alloc, de.deserialize_tagged::<Many, Read>(alloc, 24)?),
            "deserialize_newtype_struct" => {
                is_many(alloc, Read(de.deserialize_newtype_struct(alloc, "Many")?))
            }
            "deserialize_option" => {
                let read: Option<Many> = de.deserialize_option()?.value(alloc)?;
                same(alloc, &read, some(many(alloc)))
            }
            "deserialize_ignored_any" => shows(alloc, de.deserialize_ignored_any(alloc)?),
            "deserialize_any and deserialize_item" => {
                let mut items = de.deserialize_seq()?;
                let any: Value = items.deserializer().deserialize_any(alloc)?;
                let item: Value = items.deserializer().deserialize_item(alloc)?;
                same(alloc, &(any, item), items_of_many(alloc))
            }
            "deserialize_string and deserialize_byte_buf" => {
                let text: String = de.deserialize_string(alloc)?;
                let bytes: Vec<u8> = de.deserialize_byte_buf(alloc)?;
                same(alloc, &(text.into_bytes(), bytes), letters(alloc))
            }
            _ => of_parts(name, alloc, de),
        }
    }
}

/// Calls for structs and enums.
fn of_parts<S: Source>(name: &str, alloc: Global, de: &mut Deserializer<S>) -> Got<String, S> {
    match name {
        "deserialize_elements" => is_many(alloc, de.deserialize_elements::<Many, (), Read>(alloc)?),
        "deserialize_fields by a name" => {
            let presences = (Required, ());
            let read: Read = de.deserialize_fields(alloc, "Many", &["a"], &["no a"], presences)?;
            same(alloc, &read.0, many(alloc))
        }
        "deserialize_fields by a key" => {
            let presences = (Required, ());
            let read: Read = de.deserialize_fields(alloc, "Many", &[1], &["no 1"], presences)?;
            same(alloc, &read.0, many(alloc))
        }
        "deserialize_variant" => {
            let cases = (Holds, Otherwise("no such variant"));
            let read: Read = de.deserialize_variant(alloc, "Many", &["A"], cases)?;
            same(alloc, &read.0, many(alloc))
        }
        _ => by_accessor(name, alloc, de),
    }
}

/// Calls of accessors.
fn by_accessor<S: Source>(name: &str, alloc: Global, de: &mut Deserializer<S>) -> Got<String, S> {
    match name {
        "next_element" => {
            let read: Option<Many> = de.deserialize_seq()?.next_element(alloc)?;
            same(alloc, &read, some(many(alloc)))
        }
        "next_key" => {
            let read: Option<Many> = de.deserialize_map()?.next_key(alloc)?;
            same(alloc, &read, some(many(alloc)))
        }
        "next_value" => {
            let mut entries = de.deserialize_map()?;
            let key: Option<u8> = entries.next_key(alloc)?;
            let read: Many = entries.next_value(alloc)?;
            same(alloc, &(key, read), some_key(many(alloc)))
        }
        "next_entry" => {
            let read: Option<(u8, Many)> = de.deserialize_map()?.next_entry(alloc)?;
            same(alloc, &read, some_entry(many(alloc)))
        }
        "variant" => is_many(
            alloc,
            Read(de.deserialize_enum("Enum", &["A"])?.variant(alloc)?),
        ),
        "newtype_variant" => {
            let mut variant = de.deserialize_enum("Enum", &["A"])?;
            let name: String = variant.variant(alloc)?;
            let read: Many = variant.newtype_variant(alloc)?;
            if name.as_str() == "A" {
                return same(alloc, &read, many(alloc));
            }
            shows(alloc, name)
        }
        _ => no_call(),
    }
}

fn some(value: Result<Many, AllocError>) -> Result<Option<Many>, AllocError> {
    Ok(Some(value?))
}

fn some_key(value: Result<Many, AllocError>) -> Result<(Option<u8>, Many), AllocError> {
    Ok((Some(1), value?))
}

fn some_entry(value: Result<Many, AllocError>) -> Result<Option<(u8, Many)>, AllocError> {
    Ok(Some((1, value?)))
}

// The two parts of the value, each as an item.
fn items_of_many(alloc: Global) -> Result<(Value, Value), AllocError> {
    let mut items = Vec::new(alloc);
    for _ in 0..5_000 {
        items.push(Value::Integer(5))?;
    }
    let bytes = vec![in alloc; b'a'; 100_000]?;
    Ok((Value::Array(items), Value::Bytes(bytes)))
}

// 100,000 letters, twice.
fn letters(alloc: Global) -> Result<(Vec<u8>, Vec<u8>), AllocError> {
    let text = vec![in alloc; b'a'; 100_000]?;
    Ok((text, vec![in alloc; b'a'; 100_000]?))
}

#[test]
fn the_law_of_what_is_tested_is_called(rt: HostRuntime) {
    tested_values_are_rejected_once::<Many, Read>();
}

/// A call, what stands before the value's bytes, and the text of the answer.
type CallOfMany = (&'static str, &'static [u8], &'static str);

const CALLS: &[CallOfMany] = table! {
    ("deserialize_from", b"", "true"),
    ("deserialize_checked", b"", "true"),
    ("deserialize_tagged", b"\xd8\x18", "true"),
    ("deserialize_newtype_struct", b"", "true"),
    ("deserialize_option", b"", "true"),
    ("deserialize_elements", b"\x81", "true"),
    ("deserialize_fields by a name", b"\xa1\x61a", "true"),
    ("deserialize_fields by a key", b"\xa1\x01", "true"),
    ("deserialize_variant", b"\xa1\x61A", "true"),
    ("next_element", b"\x81", "true"),
    ("next_key", b"\xa1", "true"),
    ("next_value", b"\xa1\x01", "true"),
    ("next_entry", b"\xa1\x01", "true"),
    ("variant", b"\xa1", "true"),
    ("newtype_variant", b"\xa1\x61A", "true"),
    ("deserialize_any and deserialize_item", b"", "true"),
    ("deserialize_ignored_any", b"", "()"),
};

#[test]
fn by_one_call(rt: HostRuntime) -> Result<(), Fail> {
    let alloc = rt.alloc();
    for (name, before, text) in CALLS {
        call_around_a_look::<By<Calls>>(alloc, name, many_after(alloc, before)?, text)?;
    }
    Ok(())
}

#[test]
fn by_calls_for_one_value(rt: HostRuntime) -> Result<(), Fail> {
    let alloc = rt.alloc();
    let bytes = many_after(alloc, b"")?;
    is_read(alloc, from_slice(alloc, bytes)?)?;
    is_read(alloc, from_slice_whole(alloc, bytes)?)?;
    is_read(alloc, from_slice_whole_at(alloc, bytes)?)?;
    is_read(alloc, from_reader(alloc, bytes)?)
}

fn is_read(alloc: Global, value: Many) -> Result<(), Fail> {
    if value == many(alloc)? {
        return Ok(());
    }
    Err(Fail::new(format_args!("{} numbers of {value:?}", value.0.len())))
}

// A text and a byte string of 100,000 letters, 0x186a0.
#[test]
fn by_the_calls_for_strings(rt: HostRuntime) -> Result<(), Fail> {
    let alloc = rt.alloc();
    let bytes = repeated(
        alloc,
        b"\x7a\x00\x01\x86\xa0",
        b"a",
        100_000,
        b"\x5a\x00\x01\x86\xa0",
    )?;
    let bytes = repeated(alloc, bytes, b"a", 100_000, b"")?;
    let name = "deserialize_string and deserialize_byte_buf";
    call_around_a_look::<By<Calls>>(alloc, name, bytes, "true")
}
