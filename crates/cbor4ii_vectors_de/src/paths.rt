//! What is named by the paths of the Rust crate.
use cbor4ii::dec::{
    self, ArrayStart, Decode, IgnoredAny, Read, Reference, ask, canonical_buf, canonical_head,
    high, if_major, is_break, low,
};
use cbor4ii::enc::{self, Encode};
use cbor4ii::error::{ArithmeticOverflow, Len, Never, StaticStr};
use cbor4ii::serde::{
    Accessor, BoundedCollect, Collect, Deserializer, Serializer, SomeAccessor, Text, TextFault,
    TextWriter, from_slice, to_vec,
};
use cbor4ii::types::Array;
use cbor4ii::utils::{BufWriter, IoReader, SegmentReader, SliceReader, TryReserveError};
use cbor4ii::{BoxedRawValue, Canonical, FloatBits, NoMemory, RawValue, Value, major, marker};
use std::test::Fail;

/// Writes a value into memory.
fn write(value: &Value, writer: &mut BufWriter) -> Result<(), enc::Error<TryReserveError>> {
    value.encode(writer)
}

#[test]
fn values(rt: HostRuntime) -> Result<(), Fail> {
    let alloc = rt.alloc();
    let value = Value::decode(alloc, &mut SliceReader::new(b"\x18\x05"))?;
    let mut writer = BufWriter::new(Vec::new(alloc));
    write(&value, &mut writer)?;
    assert_eq!(rt; writer.buffer(), b"\x05".as_slice());
    Ok(())
}

/// A value that equals this one.
fn copy(value: &Value) -> Result<Value, NoMemory> {
    value.try_clone()
}

#[test]
fn floats(rt: HostRuntime) -> Result<(), Fail> {
    let segments: [&[u8]; 2] = [b"\xf9\x3c", b"\x00"];
    let value = Value::decode(rt.alloc(), &mut SegmentReader::new(&segments))?;
    assert_eq!(rt; copy(&value)?, Value::Float(FloatBits::F16(0x3c00)));
    Ok(())
}

#[test]
fn canonical_values(rt: HostRuntime) -> Result<(), Fail> {
    let Canonical(value) = Canonical::decode(rt.alloc(), &mut SliceReader::new(b"\x05"))?;
    assert_eq!(rt; value, Value::Integer(5));
    Ok(())
}

#[test]
fn lent_items(rt: HostRuntime) -> Result<(), Fail> {
    let item = RawValue::decode(rt.alloc(), &mut SliceReader::new(b"\x18\x05\x00"))?;
    assert_eq!(rt; item.as_bytes(), b"\x18\x05".as_slice());
    Ok(())
}

#[test]
fn kept_items(rt: HostRuntime) -> Result<(), Fail> {
    let item = BoxedRawValue::decode(rt.alloc(), &mut SliceReader::new(b"\x18\x05\x00"))?;
    assert_eq!(rt; item.as_bytes(), b"\x18\x05".as_slice());
    Ok(())
}

#[test]
fn skipping(rt: HostRuntime) -> Result<(), Fail> {
    let mut stream = IoReader::new(b"\x18\x05\x00".as_slice());
    IgnoredAny::decode(rt.alloc(), &mut stream)?;
    assert_eq!(rt; stream.taken(), 2);
    Ok(())
}

const NO_BYTE: dec::Error<Never> = dec::Error::Eof {
    name: "ignored-any",
    expect: Len::Small(1),
};

const TOO_GREAT: dec::Error<Never> = dec::Error::ArithmeticOverflow {
    name: "a sum",
    ty: ArithmeticOverflow::Overflow,
};

#[test]
fn errors(rt: HostRuntime) -> Result<(), Fail> {
    let answer = IgnoredAny::decode(rt.alloc(), &mut SliceReader::new(b""));
    assert_eq!(rt; answer, Err(NO_BYTE));
    assert!(rt; NO_BYTE != TOO_GREAT);
    Ok(())
}

#[test]
fn heads(rt: HostRuntime) -> Result<(), Fail> {
    let argument = canonical_head("u64", major::UNSIGNED, &mut SliceReader::new(b"\x05"))?;
    assert_eq!(rt; argument, 5);
    Ok(())
}

#[test]
fn parts_of_a_first_byte(rt: HostRuntime) {
    assert_eq!(rt; if_major(0x9f), 4);
    assert_eq!(rt; high(0x9f), 0x80);
    assert_eq!(rt; low(0x9f), 0x1f);
}

#[test]
fn an_indefinite_length(rt: HostRuntime) -> Result<(), Fail> {
    let mut reader = SliceReader::new(&[0x9f, marker::BREAK]);
    let start = ArrayStart(Array::<()>::len(&mut reader)?);
    assert_eq!(rt; start, ArrayStart(None));
    assert!(rt; is_break(&mut reader)?);
    Ok(())
}

const NAME: StaticStr = "str";

#[test]
fn a_string_that_is_encoded_in_one_way(rt: HostRuntime) -> Result<(), Fail> {
    let mut reader = SliceReader::new(b"\x61a");
    let content = canonical_buf(rt.alloc(), NAME, major::STRING, &mut reader)?;
    assert_eq!(rt; content.as_slice(), b"a".as_slice());
    Ok(())
}

/// Whether the next byte is this one, lent for as long as the input lives.
fn lends<'de, R: Read<'de>>(reader: &mut R, byte: u8) -> bool {
    let prefix = ask::lend(reader, 1, &mut None);
    matches!(prefix, Some(Reference::Long(shown)) if shown.first() == Some(&byte))
}

#[test]
fn lending(rt: HostRuntime) -> Result<(), Fail> {
    assert!(rt; lends(&mut SliceReader::new(b"\x05"), 5));
    Ok(())
}

#[test]
fn written_typed_values(rt: HostRuntime) -> Result<(), Fail> {
    let alloc = rt.alloc();
    let bytes = to_vec(vec![in alloc; 0xff]?, &5u8)?;
    assert_eq!(rt; bytes.as_slice(), b"\xff\x05".as_slice());
    Ok(())
}

#[test]
fn read_typed_values(rt: HostRuntime) -> Result<(), Fail> {
    let number: u8 = from_slice(rt.alloc(), b"\x05\xff".as_slice())?;
    assert_eq!(rt; number, 5);
    Ok(())
}

#[test]
fn reading_part_by_part(rt: HostRuntime) -> Result<(), Fail> {
    let alloc = rt.alloc();
    let mut de = Deserializer::new(SliceReader::new(b"\x81\x05\xf6"));
    let mut items: Accessor<'_, SliceReader<'_>> = de.deserialize_seq()?;
    let number: Option<u8> = items.next_element(alloc)?;
    assert_eq!(rt; number, Some(5));
    drop(items);
    let option: SomeAccessor<'_, SliceReader<'_>> = de.deserialize_option()?;
    assert!(rt; !option.is_some());
    Ok(())
}

#[test]
fn writing_part_by_part(rt: HostRuntime) -> Result<(), Fail> {
    let mut ser = Serializer::new(BufWriter::new(Vec::new(rt.alloc())));
    let items: Collect<'_, BufWriter> = ser.serialize_seq(Some(0))?;
    items.end()?;
    let fields: BoundedCollect<'_, BufWriter> = ser.serialize_struct("Empty", 0)?;
    fields.end()?;
    assert_eq!(rt; ser.into_inner().buffer(), b"\x80\xa0".as_slice());
    Ok(())
}

/// Writes the pieces of a text.
fn write_pieces<T: Text>(text: &T, out: &mut TextWriter<'_, BufWriter>) -> Result<(), TextFault> {
    text.write_to(out)
}

#[test]
fn texts_in_pieces(rt: HostRuntime) -> Result<(), Fail> {
    let mut writer = BufWriter::new(Vec::new(rt.alloc()));
    let mut text = TextWriter::new(&mut writer);
    write_pieces(&("a", "b"), &mut text)?;
    text.flush()?;
    assert_eq!(rt; writer.buffer(), b"\x62ab".as_slice());
    Ok(())
}
