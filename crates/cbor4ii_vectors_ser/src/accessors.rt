//! What an accessor says of itself while it writes, and after a part that is rejected.
use crate::tagged::{has_written, is_rejected, tagged};
use cbor4ii_rw::buf_writer::BufWriter;
use cbor4ii_rw::error::TryReserveError;
use cbor4ii_ser::error::EncodeError;
use cbor4ii_ser::serializer::Serializer;
use cbor4ii_tree::Value;
use std::test::Fail;

type Says = Result<bool, EncodeError<TryReserveError>>;

fn a_map_says(ser: &mut Serializer<BufWriter>) -> Says {
    let mut entries = ser.serialize_map(Some(1))?;
    let at_first = entries.left() == Some(1) && entries.keyed() && !entries.owes_value();
    entries.serialize_key(&1u8)?;
    Ok(at_first && entries.left() == Some(0) && entries.owes_value())
}

fn an_array_says(ser: &mut Serializer<BufWriter>) -> Says {
    let items = ser.serialize_seq(None)?;
    Ok(items.left().is_none() && !items.keyed())
}

#[test]
fn what_a_collect_says_of_itself(rt: HostRuntime) -> Result<(), Fail> {
    let mut ser = Serializer::new(BufWriter::new(Vec::new(rt.alloc())));
    assert!(rt; a_map_says(&mut ser)?);
    assert!(rt; an_array_says(&mut ser)?);
    assert_eq!(rt; ser.into_inner().buffer(), b"\xa1\x01\x9f".as_slice());
    Ok(())
}

// Whether an array whose second item is rejected still wants that item.
fn an_array_wants_it(ser: &mut Serializer<BufWriter>, tagged: &Value) -> Result<bool, Fail> {
    let mut items = ser.serialize_seq(Some(2))?;
    items.serialize_element(&1u8)?;
    is_rejected(items.serialize_element(tagged))?;
    Ok(items.left() == Some(1))
}

// Whether a map whose only value is rejected has its key, and still wants that value.
fn a_map_wants_it(ser: &mut Serializer<BufWriter>, tagged: &Value) -> Result<bool, Fail> {
    let mut entries = ser.serialize_map(Some(1))?;
    is_rejected(entries.serialize_entry(&1u8, tagged))?;
    Ok(entries.left() == Some(0) && entries.owes_value())
}

#[test]
fn what_a_collect_says_after_a_tag(rt: HostRuntime) -> Result<(), Fail> {
    let alloc = rt.alloc();
    let value = tagged(alloc)?;
    let mut ser = Serializer::new(BufWriter::new(Vec::new(alloc)));
    assert!(rt; an_array_wants_it(&mut ser, &value)?);
    assert!(rt; a_map_wants_it(&mut ser, &value)?);
    has_written(ser, b"\x82\x01\xa1\x01")
}

fn a_struct_says(ser: &mut Serializer<BufWriter>) -> Result<bool, EncodeError<TryReserveError>> {
    let mut fields = ser.serialize_struct("Struct", 2)?;
    let at_first = fields.left() == 2 && fields.keyed();
    fields.serialize_field("a", &1u8)?;
    let after_one = fields.left() == 1 && fields.keyed();
    fields.serialize_field("b", &2u8)?;
    Ok(at_first && after_one && fields.left() == 0 && fields.keyed())
}

fn a_tuple_says(ser: &mut Serializer<BufWriter>) -> Result<bool, EncodeError<TryReserveError>> {
    let mut items = ser.serialize_tuple(2)?;
    let at_first = items.left() == 2 && !items.keyed();
    items.serialize_element(&1u8)?;
    let after_one = items.left() == 1 && !items.keyed();
    items.serialize_element(&2u8)?;
    Ok(at_first && after_one && items.left() == 0 && !items.keyed())
}

#[test]
fn what_a_struct_says_of_itself(rt: HostRuntime) -> Result<(), Fail> {
    let mut ser = Serializer::new(BufWriter::new(Vec::new(rt.alloc())));
    assert!(rt; a_struct_says(&mut ser)?);
    assert!(rt; a_tuple_says(&mut ser)?);
    has_written(ser, b"\xa2\x61a\x01\x61b\x02\x82\x01\x02")?;
    Ok(())
}

// Whether a struct whose only field is rejected still wants that field.
fn a_struct_wants_it(ser: &mut Serializer<BufWriter>, tagged: &Value) -> Result<bool, Fail> {
    let mut fields = ser.serialize_struct("Struct", 1)?;
    is_rejected(fields.serialize_field("a", tagged))?;
    Ok(fields.left() == 1)
}

#[test]
fn what_a_struct_says_after_a_tag(rt: HostRuntime) -> Result<(), Fail> {
    let alloc = rt.alloc();
    let value = tagged(alloc)?;
    let mut ser = Serializer::new(BufWriter::new(Vec::new(alloc)));
    assert!(rt; a_struct_wants_it(&mut ser, &value)?);
    has_written(ser, b"\xa1\x61a")
}
