//! Structs that are written from a list of their fields in one call.
use crate::calls::NAMES;
use crate::tagged::{is_rejected_after, tagged};
use crate::typed::{Put, Typed};
use cbor4ii_rw::write::Write;
use cbor4ii_ser::error::EncodeError;
use cbor4ii_ser::listed::{FieldValues, IfSome};
use cbor4ii_ser::serializer::Serializer;
use cbor4ii_tree::Value;
use cbor4ii_vectors::rows::{writes, writes_pushes};
use std::test::Fail;

/// A struct of two fields that are left out where they are none, around one that is not.
#[derive(Drop)]
struct Around(Option<u8>, u8, Option<u8>);

impl Put for Around {
    fn put<W: Write>(&self, ser: &mut Serializer<W>) -> Result<(), EncodeError<W::Error>> {
        (IfSome(&self.0), &self.1, IfSome(&self.2)).serialize_fields("Around", &NAMES, ser)
    }
}

#[test]
fn fields_that_are_none(rt: HostRuntime) -> Result<(), Fail> {
    let alloc = rt.alloc();
    writes(alloc, &Typed(Around(None, 2, None)), b"\xa1\x61b\x02")?;
    writes(
        alloc,
        &Typed(Around(Some(1), 2, None)),
        b"\xa2\x61a\x01\x61b\x02",
    )?;
    writes(
        alloc,
        &Typed(Around(None, 2, Some(3))),
        b"\xa2\x61b\x02\x61c\x03",
    )?;
    writes(
        alloc,
        &Typed(Around(Some(1), 2, Some(3))),
        b"\xa3\x61a\x01\x61b\x02\x61c\x03",
    )?;
    Ok(())
}

/// A struct of an option that is always written, of one that is left out, and of no other field.
#[derive(Drop)]
struct Options(Option<u8>, Option<u8>);

impl Put for Options {
    fn put<W: Write>(&self, ser: &mut Serializer<W>) -> Result<(), EncodeError<W::Error>> {
        (&self.0, IfSome(&self.1)).serialize_fields("Options", &NAMES, ser)?;
        (IfSome(&self.1),).serialize_fields("Option", &NAMES, ser)
    }
}

#[test]
fn none_is_null_where_it_is_always_written(rt: HostRuntime) -> Result<(), Fail> {
    let alloc = rt.alloc();
    writes(alloc, &Typed(Options(None, None)), b"\xa1\x61a\xf6\xa0")?;
    writes(
        alloc,
        &Typed(Options(Some(1), Some(2))),
        b"\xa2\x61a\x01\x61b\x02\xa1\x61a\x02",
    )?;
    Ok(())
}

// Each head is a push, and a text's content another.
#[test]
fn pushes_of_keys(rt: HostRuntime) -> Result<(), Fail> {
    let alloc = rt.alloc();
    writes_pushes(alloc, &Typed(Around(Some(1), 2, None)), AROUND_PUSHES)?;
    writes_pushes(
        alloc,
        &Typed(Wide(Some(1))),
        &[b"\xa1", b"\x19\x01\x00", b"\x01"],
    )
}

const AROUND_PUSHES: &[&[u8]] = &[b"\xa2", b"\x61", b"a", b"\x01", b"\x61", b"b", b"\x02"];

/// A struct of one field, whose key is an integer of three bytes.
#[derive(Drop)]
struct Wide(Option<u8>);

impl Put for Wide {
    fn put<W: Write>(&self, ser: &mut Serializer<W>) -> Result<(), EncodeError<W::Error>> {
        (IfSome(&self.0),).serialize_fields("Wide", &[256], ser)
    }
}

/// A struct whose second field is rejected, under an integer.
#[derive(Drop)]
struct TaggedOption(Option<Value>);

impl Put for TaggedOption {
    fn put<W: Write>(&self, ser: &mut Serializer<W>) -> Result<(), EncodeError<W::Error>> {
        (&1u8, IfSome(&self.0), &3u8).serialize_fields("Struct", &[1, -2, 3], ser)
    }
}

#[test]
fn what_stands_before_a_tag(rt: HostRuntime) -> Result<(), Fail> {
    let alloc = rt.alloc();
    is_rejected_after(
        alloc,
        TaggedOption(Some(tagged(alloc)?)),
        b"\xa3\x01\x01\x21",
    )
}
