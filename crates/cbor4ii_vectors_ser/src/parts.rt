//! Values that hold no other, as the parts of each call: a head is a push, and a string's content
//! another, and the bytes are these, whether the writer's error is small or large.
use crate::pieces::letters;
use crate::slot::{pushes, writes_alike};
use crate::typed::Put;
use cbor4ii_items::types::{Bytes, F16, F32, F64};
use cbor4ii_rw::write::Write;
use cbor4ii_ser::error::EncodeError;
use cbor4ii_ser::listed::FieldValues;
use cbor4ii_ser::serialize::Serialize;
use cbor4ii_ser::serializer::Serializer;
use cbor4ii_vectors::table;
use std::alloc::Global;
use std::test::Fail;

/// What holds a value, once or several times.
#[derive(Clone, Copy)]
enum Holder {
    Itself,
    Pair,
    Triple,
    Elements,
    OneField,
    TwoFields,
    Named,
    Keyed,
    Tagged,
    Newtype,
    VariantItems,
    VariantFields,
    Seq,
    Map,
    Tuple,
    Struct,
    TupleVariant,
    StructVariant,
}

/// In the place of the pushes of the value.
const VALUE: &[u8] = b"";

/// In which pushes each holder writes what it holds.
const HOLDERS: &[(Holder, &[&[u8]])] = table! {
    (Holder::Itself, &[VALUE]),
    (Holder::Pair, &[b"\x82", VALUE, VALUE]),
    (Holder::Triple, &[b"\x83", VALUE, VALUE, VALUE]),
    (Holder::Elements, &[b"\x82", VALUE, VALUE]),
    (Holder::OneField, &[b"\xa1", b"\x61", b"a", VALUE]),
    (Holder::TwoFields, &[b"\xa2", b"\x61", b"a", VALUE, b"\x61", b"b", VALUE]),
    (Holder::Named, &[b"\xa2", b"\x61", b"a", VALUE, b"\x61", b"b", VALUE]),
    (Holder::Keyed, &[b"\xa2", b"\x19\x01\x00", VALUE, b"\x20", VALUE]),
    (Holder::Tagged, &[b"\xd8\x18", VALUE]),
    (Holder::Newtype, &[b"\xa1", b"\x61", b"N", VALUE]),
    (Holder::VariantItems, &[b"\xa1", b"\x61", b"N", b"\x82", VALUE, VALUE]),
    (Holder::VariantFields, &[b"\xa1", b"\x61", b"N", b"\xa1", b"\x61", b"a", VALUE]),
    (Holder::Seq, &[b"\x82", VALUE, VALUE]),
    (Holder::Map, &[b"\xbf", VALUE, VALUE, b"\xff"]),
    (Holder::Tuple, &[b"\x81", VALUE]),
    (Holder::Struct, &[b"\xa1", b"\x61", b"a", VALUE]),
    (Holder::TupleVariant, &[b"\xa1", b"\x61", b"N", b"\x81", VALUE]),
    (Holder::StructVariant, &[b"\xa1", b"\x61", b"N", b"\xa1", b"\x61", b"a", VALUE]),
};

/// A value, and what holds it.
#[derive(Drop)]
struct Held<'a, T>(Holder, &'a T);

impl<T: Serialize> Put for Held<'_, T> {
    fn put<W: Write>(&self, ser: &mut Serializer<W>) -> Result<(), EncodeError<W::Error>> {
        let value = self.1;
        match self.0 {
            Holder::Itself => value.serialize(ser),
            Holder::Pair => (value, value).serialize(ser),
            Holder::Triple => (value, value, value).serialize(ser),
            Holder::Elements => ser.serialize_elements(&(value, (value, ()))),
            Holder::OneField => ser.serialize_1_field("One", "a", value),
            Holder::TwoFields => ser.serialize_2_fields("Two", "a", value, "b", value),
            Holder::Named => (value, value).serialize_fields("Two", &["a", "b"], ser),
            Holder::Keyed => (value, value).serialize_fields("Two", &[256, -1], ser),
            Holder::Tagged => ser.serialize_tagged(24, value),
            Holder::Newtype => ser.serialize_newtype_variant("Enum", 0, "N", value),
            _ => put_variant(self.0, value, ser),
        }
    }
}

fn put_variant<W: Write, T: Serialize>(
    holder: Holder,
    value: &T,
    ser: &mut Serializer<W>,
) -> Result<(), EncodeError<W::Error>> {
    match holder {
        Holder::VariantItems => ser.serialize_variant_of_2_items("Enum", 0, "N", value, value),
        Holder::VariantFields => ser.serialize_variant_of_1_field("Enum", 0, "N", "a", value),
        Holder::Seq => put_seq(value, ser),
        Holder::Map => put_map(value, ser),
        Holder::Tuple => put_tuple(value, ser),
        Holder::Struct => put_struct(value, ser),
        Holder::TupleVariant => put_tuple_variant(value, ser),
        _ => put_struct_variant(value, ser),
    }
}

fn put_seq<W: Write, T: Serialize>(
    value: &T,
    ser: &mut Serializer<W>,
) -> Result<(), EncodeError<W::Error>> {
    let mut items = ser.serialize_seq(Some(2))?;
    items.serialize_element(value)?;
    items.serialize_element(value)?;
    items.end()
}

fn put_map<W: Write, T: Serialize>(
    value: &T,
    ser: &mut Serializer<W>,
) -> Result<(), EncodeError<W::Error>> {
    let mut entries = ser.serialize_map(None)?;
    entries.serialize_key(value)?;
    entries.serialize_value(value)?;
    entries.end()
}

fn put_tuple<W: Write, T: Serialize>(
    value: &T,
    ser: &mut Serializer<W>,
) -> Result<(), EncodeError<W::Error>> {
    let mut items = ser.serialize_tuple(1)?;
    items.serialize_element(value)?;
    items.end()
}

fn put_struct<W: Write, T: Serialize>(
    value: &T,
    ser: &mut Serializer<W>,
) -> Result<(), EncodeError<W::Error>> {
    let mut fields = ser.serialize_struct("Struct", 1)?;
    fields.serialize_field("a", value)?;
    fields.end()
}

fn put_tuple_variant<W: Write, T: Serialize>(
    value: &T,
    ser: &mut Serializer<W>,
) -> Result<(), EncodeError<W::Error>> {
    let mut items = ser.serialize_tuple_variant("Enum", 0, "N", 1)?;
    items.serialize_element(value)?;
    items.end()
}

fn put_struct_variant<W: Write, T: Serialize>(
    value: &T,
    ser: &mut Serializer<W>,
) -> Result<(), EncodeError<W::Error>> {
    let mut fields = ser.serialize_struct_variant("Enum", 0, "N", 1)?;
    fields.serialize_field("a", value)?;
    fields.end()
}

// Each holder writes the value in these pushes.
fn is_held<T: Serialize + Drop>(alloc: Global, value: T, parts: &[&[u8]]) -> Result<(), Fail> {
    for (holder, around) in HOLDERS {
        let mut lengths = Vec::new(alloc);
        let mut bytes = Vec::new(alloc);
        for push in *around {
            if push.is_empty() {
                for part in parts {
                    lengths.push(part.len())?;
                    bytes.extend_from_slice(part)?;
                }
            } else {
                lengths.push(push.len())?;
                bytes.extend_from_slice(push)?;
            }
        }
        pushes(alloc, &Held(*holder, &value), &lengths)?;
        writes_alike(alloc, &Held(*holder, &value), &bytes)?;
    }
    Ok(())
}

#[test]
fn integers_in_each_call(rt: HostRuntime) -> Result<(), Fail> {
    let alloc = rt.alloc();
    is_held(alloc, 23u64, &[b"\x17"])?;
    is_held(alloc, 24u64, &[b"\x18\x18"])?;
    is_held(alloc, 256u64, &[b"\x19\x01\x00"])?;
    is_held(alloc, 65_536u64, &[b"\x1a\x00\x01\x00\x00"])?;
    is_held(
        alloc,
        0x1_0000_0001u64,
        &[b"\x1b\x00\x00\x00\x01\x00\x00\x00\x01"],
    )?;
    is_held(alloc, -1i64, &[b"\x20"])?;
    is_held(alloc, i64::MIN, &[b"\x3b\x7f\xff\xff\xff\xff\xff\xff\xff"])
}

// Floats with a sign, whose last bit is set.
#[test]
fn simple_values_and_floats_in_each_call(rt: HostRuntime) -> Result<(), Fail> {
    let alloc = rt.alloc();
    is_held(alloc, false, &[b"\xf4"])?;
    is_held(alloc, true, &[b"\xf5"])?;
    is_held(alloc, None::<u8>, &[b"\xf6"])?;
    is_held(alloc, F16(0x8001), &[b"\xf9\x80\x01"])?;
    is_held(alloc, F32(0x8000_0001), &[b"\xfa\x80\x00\x00\x01"])?;
    is_held(
        alloc,
        F64(0x8000_0000_0000_0001),
        &[b"\xfb\x80\x00\x00\x00\x00\x00\x00\x01"],
    )
}

#[test]
fn strings_in_each_call(rt: HostRuntime) -> Result<(), Fail> {
    let alloc = rt.alloc();
    is_held(alloc, "", &[b"\x60", b""])?;
    is_held(alloc, "IETF", &[b"\x64", b"IETF"])?;
    is_held(
        alloc,
        Bytes(b"\x01\x02".as_slice()),
        &[b"\x42", b"\x01\x02"],
    )?;
    let long = letters(alloc, 101)?;
    is_held(alloc, long.as_str(), &[b"\x78\x65", long.as_bytes()])?;
    is_held(
        alloc,
        Bytes(long.as_bytes()),
        &[b"\x58\x65", long.as_bytes()],
    )?;
    let longer = letters(alloc, 70_000)?;
    is_held(
        alloc,
        longer.as_str(),
        &[b"\x7a\x00\x01\x11\x70", longer.as_bytes()],
    )?;
    is_held(
        alloc,
        Bytes(longer.as_bytes()),
        &[b"\x5a\x00\x01\x11\x70", longer.as_bytes()],
    )
}
