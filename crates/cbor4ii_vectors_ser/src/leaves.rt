//! Rows of the types that are one head or string, and of boxes, references and options.
use crate::tagged::{is_rejected_after, tagged};
use crate::typed::Typed;
use cbor4ii_items::decode::Decode;
use cbor4ii_items::types::{Bytes, F16, F32, F64};
use cbor4ii_rw::slice_reader::SliceReader;
use cbor4ii_ser::error::EncodeError;
use cbor4ii_ser::serialize::Serialize;
use cbor4ii_ser::serializer::Serializer;
use cbor4ii_tree::{BoxedRawValue, RawValue};
use cbor4ii_vectors::readers::Failure;
use cbor4ii_vectors::rows::writes;
use cbor4ii_vectors::writers::PushLengths;
use std::alloc::Global;
use std::borrow::CowStr;
use std::test::Fail;

#[test]
fn texts_that_are_borrowed(rt: HostRuntime) -> Result<(), Fail> {
    let alloc = rt.alloc();
    writes(alloc, &Typed("IETF"), b"\x64IETF")?;
    writes(alloc, &Typed(&"IETF"), b"\x64IETF")?;
    writes(alloc, &Typed(CowStr::Borrowed("IETF")), b"\x64IETF")?;
    writes(alloc, &Typed(CowStr::Borrowed("123")), b"\x63123")?;
    Ok(())
}

#[test]
fn a_text_that_may_be_borrowed_and_is_owned(rt: HostRuntime) -> Result<(), Fail> {
    let alloc = rt.alloc();
    let text: CowStr<'_, Global> = CowStr::Owned(String::from_str(alloc, "123")?);
    writes(alloc, &Typed(text), b"\x63123")?;
    Ok(())
}

#[test]
fn bytes_that_are_owned(rt: HostRuntime) -> Result<(), Fail> {
    let alloc = rt.alloc();
    let bytes = Bytes(vec![in alloc; 1u8, 2, 3, 4]?);
    writes(alloc, &Typed(bytes), b"\x44\x01\x02\x03\x04")?;
    Ok(())
}

// Items that are kept as their bytes are written so, though their heads are not the shortest.
#[test]
fn raw_items_are_written_as_they_stand(rt: HostRuntime) -> Result<(), Fail> {
    let alloc = rt.alloc();
    let lent = RawValue::decode(alloc, &mut SliceReader::new(b"\x18\x05\x00"))?;
    let owned = BoxedRawValue::decode(alloc, &mut SliceReader::new(b"\x9f\x01\xff\x00"))?;
    writes(alloc, &Typed((lent, owned)), b"\x82\x18\x05\x9f\x01\xff")?;
    Ok(())
}

// The greatest number of each width.
fn greatest_numbers(ser: &mut Serializer<PushLengths>) -> Result<(), EncodeError<Failure>> {
    u8::MAX.serialize(ser)?;
    u16::MAX.serialize(ser)?;
    u32::MAX.serialize(ser)?;
    u64::MAX.serialize(ser)?;
    i8::MAX.serialize(ser)?;
    i16::MAX.serialize(ser)?;
    i32::MAX.serialize(ser)?;
    i64::MAX.serialize(ser)?;
    F16(u16::MAX).serialize(ser)?;
    F32(u32::MAX).serialize(ser)?;
    F64(u64::MAX).serialize(ser)
}

// A push has all bytes of a number, the first one and those after it.
#[test]
fn numbers_in_one_push(rt: HostRuntime) -> Result<(), Fail> {
    let mut ser = Serializer::new(PushLengths::new(rt.alloc()));
    greatest_numbers(&mut ser)?;
    let lengths = [2, 3, 5, 9, 2, 3, 5, 9, 3, 5, 9];
    assert_eq!(rt; ser.into_inner().lengths(), lengths.as_slice());
    Ok(())
}

// What an option and a box write before a part that is rejected.
#[test]
fn what_holds_a_tag(rt: HostRuntime) -> Result<(), Fail> {
    let alloc = rt.alloc();
    is_rejected_after(alloc, Some(tagged(alloc)?), b"")?;
    is_rejected_after(alloc, Box::new(alloc, tagged(alloc)?)?, b"")
}
