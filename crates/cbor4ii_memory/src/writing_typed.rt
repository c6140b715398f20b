//! Rows of typed values that are written, of each call of a serializer, and of texts in pieces.
use crate::tally::{Broken, Tally};
use cbor4ii::Value;
use cbor4ii::serde::{
    self, Deserialize, EncodeError, FieldValues, IfSome, Serialize, Serializer, Text, TextFault,
    TextWriter, from_slice, to_vec, to_writer,
};
use cbor4ii::types::{Bytes, F16, F32, F64, Tag};
use cbor4ii_rw::error as core_error;
use cbor4ii_rw::slice_reader::SliceReader;
use cbor4ii_rw::write::Write;
use cbor4ii_vectors::rows::WriteTo;
use cbor4ii_vectors::streams::FailingSink;
use cbor4ii_vectors::table;
use cbor4ii_vectors_ser::typed::Put;
use std::alloc::Global;
use std::borrow::CowStr;
use std::collections::BTreeMap;

/// Typed values, and the calls of a serializer.
pub fn typed(tally: &mut Tally) -> Result<(), Broken> {
    numbers(tally)?;
    leaves(tally)?;
    for &(call, bytes) in CALLS {
        tally.puts(call, Call(call), bytes)?;
    }
    owned(tally)?;
    texts(tally)?;
    whole(tally)?;
    streamed(tally)?;
    streamed_in_place()
}

// Numbers, flags and floats, by their own `Serialize`.
fn numbers(tally: &mut Tally) -> Result<(), Broken> {
    tally.puts("typed bool", true, b"\xf5")?;
    tally.puts("typed i8", -100i8, b"\x38\x63")?;
    tally.puts("typed i16", -1_000i16, b"\x39\x03\xe7")?;
    tally.puts("typed i32", -1_000_000i32, b"\x3a\x00\x0f\x42\x3f")?;
    tally.puts("typed i64", -1_000_000i64, b"\x3a\x00\x0f\x42\x3f")?;
    tally.puts("typed i128", -1_000_000i128, b"\x3a\x00\x0f\x42\x3f")?;
    tally.puts("typed u8", 100u8, b"\x18\x64")?;
    tally.puts("typed u16", 1_000u16, b"\x19\x03\xe8")?;
    tally.puts("typed u32", 1_000_000u32, b"\x1a\x00\x0f\x42\x40")?;
    tally.puts("typed u64", 1_000_000u64, b"\x1a\x00\x0f\x42\x40")?;
    tally.puts("typed u128", 1_000_000u128, b"\x1a\x00\x0f\x42\x40")?;
    tally.puts("typed F16", F16(0x3c00), b"\xf9\x3c\x00")?;
    tally.puts("typed F32", F32(0x47c3_5000), b"\xfa\x47\xc3\x50\x00")?;
    tally.puts("typed F64", F64(1), b"\xfb\x00\x00\x00\x00\x00\x00\x00\x01")
}

// Other values that take no memory, likewise.
fn leaves(tally: &mut Tally) -> Result<(), Broken> {
    tally.puts("typed char", 'ü', b"\x62\xc3\xbc")?;
    tally.puts("typed str", "IETF", b"\x64IETF")?;
    let text: CowStr<'_, Global> = CowStr::Borrowed("IETF");
    tally.puts("typed CowStr", text, b"\x64IETF")?;
    tally.puts("typed Bytes", Bytes(b"\x08".as_slice()), b"\x41\x08")?;
    tally.puts("typed unit", (), b"\x80")?;
    tally.puts("typed None", None::<u8>, b"\xf6")?;
    tally.puts("typed Some", Some(500u16), b"\x19\x01\xf4")?;
    tally.puts("a typed reference", &500u16, b"\x19\x01\xf4")?;
    tally.puts("typed pair", (1u8, "a"), b"\x82\x01\x61a")?;
    tally.puts("typed triple", (1u8, "a", false), b"\x83\x01\x61a\xf4")
}

/// A call of a serializer, by its name.
#[derive(Drop)]
struct Call(&'static str);

impl Put for Call {
    fn put<W: Write>(&self, ser: &mut Serializer<W>) -> Result<(), EncodeError<W::Error>> {
        match self.0 {
            "serialize_bool" => ser.serialize_bool(true),
            "serialize_i8" => ser.serialize_i8(-100),
            "serialize_i16" => ser.serialize_i16(-1_000),
            "serialize_i32" => ser.serialize_i32(-1_000_000),
            "serialize_i64" => ser.serialize_i64(-1_000_000),
            "serialize_i128" => ser.serialize_i128(-1_000_000),
            "serialize_u8" => ser.serialize_u8(100),
            "serialize_u16" => ser.serialize_u16(1_000),
            "serialize_u32" => ser.serialize_u32(1_000_000),
            "serialize_u64" => ser.serialize_u64(1_000_000),
            "serialize_u128" => ser.serialize_u128(1_000_000),
            "serialize_f16" => ser.serialize_f16(0x3c00),
            "serialize_f32" => ser.serialize_f32(0x47c3_5000),
            "serialize_f64" => ser.serialize_f64(1),
            name => put_leaf(name, ser),
        }
    }
}

fn put_leaf<W: Write>(name: &str, ser: &mut Serializer<W>) -> Result<(), EncodeError<W::Error>> {
    match name {
        "serialize_char" => ser.serialize_char('c'),
        "serialize_str" => ser.serialize_str("st"),
        "serialize_bytes" => ser.serialize_bytes(b"\x08"),
        "serialize_none" => ser.serialize_none(),
        "serialize_some" => ser.serialize_some(&500u16),
        "serialize_unit" => ser.serialize_unit(),
        "serialize_unit_struct" => ser.serialize_unit_struct("Nothing"),
        "serialize_unit_variant" => ser.serialize_unit_variant("Enum", 0, "Unit"),
        "serialize_newtype_struct" => ser.serialize_newtype_struct("Wrapped", &6u8),
        "serialize_newtype_variant" => ser.serialize_newtype_variant("Enum", 0, "Text", &"text"),
        "serialize_tagged" => ser.serialize_tagged(24, &"text"),
        "serialize_item" => ser.serialize_item(&Tag(1, 500u16)),
        "collect_str" => ser.collect_str(&PIECES),
        "collect_str of a long piece" => ser.collect_str(&LONG),
        _ => put_parts(name, ser),
    }
}

// What is written part by part, or from a list of its parts.
fn put_parts<W: Write>(name: &str, ser: &mut Serializer<W>) -> Result<(), EncodeError<W::Error>> {
    let [one, two] = &[1u8, 2];
    let fields = (one, &MUCH, two);
    match name {
        "serialize_seq and serialize_map" => seq_and_map(ser),
        "serialize_key and serialize_value" => indefinite_map(ser),
        "serialize_tuple" => tuple(ser),
        "serialize_tuple_struct" => tuple_struct(ser),
        "serialize_tuple_variant" => tuple_variant(ser),
        "serialize_struct" => one_field(ser),
        "serialize_struct_variant" => struct_variant(ser),
        "serialize_elements of none" => ser.serialize_elements(&()),
        "serialize_elements" => ser.serialize_elements(&(one, (&MUCH, (&500u16, (two, ()))))),
        "serialize_fields by names" => fields.serialize_fields("Names", &["a", "b", "c"], ser),
        "serialize_fields by integers" => fields.serialize_fields("Keys", &[1, -2, 500], ser),
        "serialize_fields, one left out" => left_out(ser),
        _ => put_struct(name, ser),
    }
}

// Structs and variants in one call.
fn put_struct<W: Write>(name: &str, ser: &mut Serializer<W>) -> Result<(), EncodeError<W::Error>> {
    let [one, two, three, four] = &[1u8, 2, 3, 4];
    match name {
        "serialize_1_field" => ser.serialize_1_field("One", "a", one),
        "serialize_2_fields" => ser.serialize_2_fields("Two", "a", one, "b", two),
        "serialize_3_fields" => {
            ser.serialize_3_fields("Fields", "a", &5u8, "b", &"text", "c", &Some(-1i8))
        }
        "serialize_4_fields" => ser.serialize_4_fields(
            "Four", "a", one, "b", two, "c", three, "d", four,
        ),
        "serialize_5_fields" => ser.serialize_5_fields(
            "Five", "a", one, "b", two, "c", three, "d", four, "e", &5u8,
        ),
        "serialize_6_fields" => ser.serialize_6_fields(
            "Six", "a", one, "b", two, "c", three, "d", four, "e", &5u8, "f", &6u8,
        ),
        "serialize_variant_of_1_field" => ser.serialize_variant_of_1_field(
            "Enum", 0, "V", "a", one,
        ),
        "serialize_variant_of_2_fields" => {
            ser.serialize_variant_of_2_fields("Enum", 1, "V", "a", one, "b", two)
        }
        "serialize_variant_of_3_fields" => {
            ser.serialize_variant_of_3_fields("Enum", 2, "V", "a", one, "b", two, "c", three)
        }
        "serialize_variant_of_4_fields" => ser.serialize_variant_of_4_fields(
            "Enum", 3, "V", "a", one, "b", two, "c", three, "d", four,
        ),
        "serialize_variant_of_2_items" => ser.serialize_variant_of_2_items(
            "Enum", 4, "V", &1u8, &2u8,
        ),
        "serialize_variant_of_3_items" => {
            ser.serialize_variant_of_3_items("Enum", 5, "V", &1u8, &2u8, &3u8)
        }
        _ => Ok(()),
    }
}

fn seq_and_map<W: Write>(ser: &mut Serializer<W>) -> Result<(), EncodeError<W::Error>> {
    let mut items = ser.serialize_seq(None)?;
    items.serialize_element(&"a")?;
    items.end()?;
    let mut entries = ser.serialize_map(Some(1))?;
    entries.serialize_entry(&"b", &5u8)?;
    entries.end()
}

fn indefinite_map<W: Write>(ser: &mut Serializer<W>) -> Result<(), EncodeError<W::Error>> {
    let mut entries = ser.serialize_map(None)?;
    entries.serialize_key(&3u8)?;
    entries.serialize_value(&4u8)?;
    entries.end()
}

fn tuple<W: Write>(ser: &mut Serializer<W>) -> Result<(), EncodeError<W::Error>> {
    let mut items = ser.serialize_tuple(1)?;
    items.serialize_element(&7u8)?;
    items.end()
}

fn tuple_struct<W: Write>(ser: &mut Serializer<W>) -> Result<(), EncodeError<W::Error>> {
    let mut items = ser.serialize_tuple_struct("One", 1)?;
    items.serialize_element(&8u8)?;
    items.end()
}

fn tuple_variant<W: Write>(ser: &mut Serializer<W>) -> Result<(), EncodeError<W::Error>> {
    let mut items = ser.serialize_tuple_variant("Enum", 2, "T", 1)?;
    items.serialize_element(&"123")?;
    items.end()
}

fn one_field<W: Write>(ser: &mut Serializer<W>) -> Result<(), EncodeError<W::Error>> {
    let mut fields = ser.serialize_struct("One", 1)?;
    fields.serialize_field("a", &1u8)?;
    fields.end()
}

fn struct_variant<W: Write>(ser: &mut Serializer<W>) -> Result<(), EncodeError<W::Error>> {
    let mut fields = ser.serialize_struct_variant("Enum", 4, "S", 1)?;
    fields.serialize_field("a", &1u8)?;
    fields.end()
}

// A number whose head has nine bytes, which are more than a small buffer has room for.
const MUCH: u64 = 1_000_000_000_000;

fn left_out<W: Write>(ser: &mut Serializer<W>) -> Result<(), EncodeError<W::Error>> {
    let (none, some, much) = (None::<u8>, Some(MUCH), MUCH);
    let fields = (IfSome(&none), IfSome(&some), &much);
    fields.serialize_fields("LeftOut", &["a", "b", "c"], ser)
}

const CALLS: &[(&str, &[u8])] = table! {
    ("serialize_bool", b"\xf5"),
    ("serialize_i8", b"\x38\x63"),
    ("serialize_i16", b"\x39\x03\xe7"),
    ("serialize_i32", b"\x3a\x00\x0f\x42\x3f"),
    ("serialize_i64", b"\x3a\x00\x0f\x42\x3f"),
    ("serialize_i128", b"\x3a\x00\x0f\x42\x3f"),
    ("serialize_u8", b"\x18\x64"),
    ("serialize_u16", b"\x19\x03\xe8"),
    ("serialize_u32", b"\x1a\x00\x0f\x42\x40"),
    ("serialize_u64", b"\x1a\x00\x0f\x42\x40"),
    ("serialize_u128", b"\x1a\x00\x0f\x42\x40"),
    ("serialize_f16", b"\xf9\x3c\x00"),
    ("serialize_f32", b"\xfa\x47\xc3\x50\x00"),
    ("serialize_f64", b"\xfb\x00\x00\x00\x00\x00\x00\x00\x01"),
    ("serialize_char", b"\x61c"),
    ("serialize_str", b"\x62st"),
    ("serialize_bytes", b"\x41\x08"),
    ("serialize_none", b"\xf6"),
    ("serialize_some", b"\x19\x01\xf4"),
    ("serialize_unit", b"\x80"),
    ("serialize_unit_struct", b"\x80"),
    ("serialize_unit_variant", b"\x64Unit"),
    ("serialize_newtype_struct", b"\x06"),
    ("serialize_newtype_variant", b"\xa1\x64Text\x64text"),
    ("serialize_tagged", b"\xd8\x18\x64text"),
    ("serialize_item", b"\xc1\x19\x01\xf4"),
    ("serialize_1_field", b"\xa1\x61a\x01"),
    ("serialize_2_fields", b"\xa2\x61a\x01\x61b\x02"),
    ("serialize_3_fields", b"\xa3\x61a\x05\x61b\x64text\x61c\x20"),
    ("serialize_4_fields", b"\xa4\x61a\x01\x61b\x02\x61c\x03\x61d\x04"),
    ("serialize_5_fields", b"\xa5\x61a\x01\x61b\x02\x61c\x03\x61d\x04\x61e\x05"),
    ("serialize_6_fields", b"\xa6\x61a\x01\x61b\x02\x61c\x03\x61d\x04\x61e\x05\x61f\x06"),
    ("serialize_variant_of_1_field", b"\xa1\x61V\xa1\x61a\x01"),
    ("serialize_variant_of_2_fields", b"\xa1\x61V\xa2\x61a\x01\x61b\x02"),
    ("serialize_variant_of_3_fields", b"\xa1\x61V\xa3\x61a\x01\x61b\x02\x61c\x03"),
    ("serialize_variant_of_4_fields", b"\xa1\x61V\xa4\x61a\x01\x61b\x02\x61c\x03\x61d\x04"),
    ("serialize_variant_of_2_items", b"\xa1\x61V\x82\x01\x02"),
    ("serialize_variant_of_3_items", b"\xa1\x61V\x83\x01\x02\x03"),
    ("serialize_seq and serialize_map", b"\x9f\x61a\xff\xa1\x61b\x05"),
    ("serialize_key and serialize_value", b"\xbf\x03\x04\xff"),
    ("serialize_tuple", b"\x81\x07"),
    ("serialize_tuple_struct", b"\x81\x08"),
    ("serialize_tuple_variant", b"\xa1\x61T\x81\x63123"),
    ("serialize_struct", b"\xa1\x61a\x01"),
    ("serialize_struct_variant", b"\xa1\x61S\xa1\x61a\x01"),
    ("serialize_elements of none", b"\x80"),
    ("serialize_elements", b"\x84\x01\x1b\x00\x00\x00\xe8\xd4\xa5\x10\x00\x19\x01\xf4\x02"),
    ("serialize_fields by names",
        b"\xa3\x61a\x01\x61b\x1b\x00\x00\x00\xe8\xd4\xa5\x10\x00\x61c\x02"),
    ("serialize_fields by integers",
        b"\xa3\x01\x01\x21\x1b\x00\x00\x00\xe8\xd4\xa5\x10\x00\x19\x01\xf4\x02"),
    ("serialize_fields, one left out",
        b"\xa2\x61b\x1b\x00\x00\x00\xe8\xd4\xa5\x10\x00\x61c\x1b\x00\x00\x00\xe8\xd4\xa5\x10\x00"),
};

// Reads the bytes as a typed value, and writes what was read.
fn writes_read<T>(
    tally: &mut Tally,
    row: &'static str,
    read: &'static [u8],
    written: &[u8],
) -> Result<(), Broken>
where
    T: Deserialize<SliceReader<'static>> + Serialize + Drop,
{
    let got: Result<T, _> = from_slice(tally.alloc(), read);
    match got {
        Ok(value) => tally.puts(row, value, written),
        Err(serde::DecodeError::Core(core_error::DecodeError::OutOfMemory)) => {
            tally.refuse();
            Ok(())
        }
        Err(_) => Err(Broken::new(row, "it is rejected")),
    }
}

// [153, null, 51], [[10, 99999]], {(_ "k"): 1} and [_ (_ ""), "a"].
const OPTIONS: &[u8] = b"\x83\x18\x99\xf6\x18\x33";

const PAIRS: &[u8] = b"\x81\x82\x0a\x1a\x00\x01\x86\x9f";

const KEYED: &[u8] = b"\xa1\x7f\x61k\xff\x01";

const TEXTS: &[u8] = b"\x9f\x7f\xff\x61a\xff";

// Typed values that take memory.
fn owned(tally: &mut Tally) -> Result<(), Broken> {
    writes_read::<Vec<Option<u32>>>(tally, "options", OPTIONS, OPTIONS)?;
    writes_read::<Option<Vec<(u128, i128)>>>(tally, "optional pairs", PAIRS, PAIRS)?;
    writes_read::<Vec<bool>>(tally, "flags", b"\x9f\xf5\xf4\xff", b"\x82\xf5\xf4")?;
    writes_read::<BTreeMap<String, u8>>(tally, "map of a text", KEYED, b"\xa1\x61k\x01")?;
    writes_read::<BTreeMap<u8, u8>>(tally, "typed map", b"\xa2\x01\x02\x01\x03", b"\xa1\x01\x03")?;
    writes_read::<Vec<String>>(tally, "texts", TEXTS, b"\x82\x60\x61a")?;
    writes_read::<String>(tally, "typed String", b"\x7f\x61a\x61b\xff", b"\x62ab")?;
    writes_read::<Box<u8>>(tally, "typed Box", b"\x18\xff", b"\x18\xff")?;
    writes_read::<Value>(tally, "typed Value", TEXTS, b"\x82\x60\x61a")
}

/// A text twice, one after the other.
#[derive(Clone, Copy)]
struct Twice<T>(T);

impl<T: Text + Copy> Text for Twice<T> {
    ghost pieces = { λ text. ⟦<(T, T) as Text>⟧.pieces (text.0, text.0) };

    ghost fails_itself = { λ text. ⟦<(T, T) as Text>⟧.fails_itself (text.0, text.0) };

    fn write_to<W: Write>(&self, out: &mut TextWriter<'_, W>) -> Result<(), TextFault> {
        (self.0, self.0).write_to(out)
    }
}

// Eight pieces of 56 letters.
const PIECES: Twice<Twice<Twice<&str>>> = Twice(Twice(Twice(
    "aaaaaaaaaaaaaaaaaaaaaaaaaaaaaaaaaaaaaaaaaaaaaaaaaaaaaaaa",
)));

// 256 letters, which are more than are held back.
const LONG: &str = concat!(
    "aaaaaaaaaaaaaaaaaaaaaaaaaaaaaaaaaaaaaaaaaaaaaaaaaaaaaaaaaaaaaaaa",
    "aaaaaaaaaaaaaaaaaaaaaaaaaaaaaaaaaaaaaaaaaaaaaaaaaaaaaaaaaaaaaaaa",
    "aaaaaaaaaaaaaaaaaaaaaaaaaaaaaaaaaaaaaaaaaaaaaaaaaaaaaaaaaaaaaaaa",
    "aaaaaaaaaaaaaaaaaaaaaaaaaaaaaaaaaaaaaaaaaaaaaaaaaaaaaaaaaaaaaaaa",
);

/// A text in pieces, by the writer of texts.
struct ByPieces;

impl WriteTo for ByPieces {
    fn write_to<W: Write>(&self, writer: &mut W) -> Result<(), core_error::EncodeError<W::Error>> {
        let mut out = TextWriter::new(writer);
        let _ = PIECES.write_to(&mut out);
        out.flush()
    }
}

// Texts in pieces, of two chunks of 224 letters: a fifth piece makes more than 255 of the first,
// and the rest four more. And a text of one piece that is a chunk by itself.
fn texts(tally: &mut Tally) -> Result<(), Broken> {
    let [head, letters]: [(&[u8], usize); 2] = [(b"\x78\xe0", 1), (b"a", 224)];
    if let Some(bytes) = tally.joined(&[(b"\x7f", 1), head, letters, head, letters, (b"\xff", 1)]) {
        tally.puts("collect_str", Call("collect_str"), &bytes)?;
        tally.writes("TextWriter", &ByPieces, &bytes)?;
    }
    if let Some(bytes) = tally.joined(&[(b"\x7f\x79\x01\x00", 1), (b"a", 256), (b"\xff", 1)]) {
        let row = "collect_str of a long piece";
        tally.puts(row, Call(row), &bytes)?;
    }
    Ok(())
}

// A typed value after what a vector holds: the vector is lost where memory is refused.
fn whole(tally: &mut Tally) -> Result<(), Broken> {
    let Ok(held) = Vec::from_slice(tally.alloc(), b"\xff") else {
        tally.refuse();
        return Ok(());
    };
    match to_vec(held, &("streaming", Some(5u8))) {
        Ok(bytes) if bytes.as_slice() == b"\xff\x82\x69streaming\x05".as_slice() => {}
        Err(EncodeError::Core(core_error::EncodeError::Write(_))) => tally.refuse(),
        _ => return Err(Broken::new("to_vec", "other bytes are written")),
    }
    Ok(())
}

// A typed value after what a stream holds that takes memory.
fn streamed(tally: &mut Tally) -> Result<(), Broken> {
    let Ok(held) = Vec::from_slice(tally.alloc(), b"\xff") else {
        tally.refuse();
        return Ok(());
    };
    let sink = FailingSink::new(held, usize::MAX);
    match to_writer(sink, &("streaming", Some(5u8))) {
        Ok(sink) if sink.buffer() == b"\xff\x82\x69streaming\x05".as_slice() => {}
        Err(EncodeError::Core(core_error::EncodeError::Write(_))) => tally.refuse(),
        _ => return Err(Broken::new("to_writer", "other bytes are written")),
    }
    Ok(())
}

// A typed value that is written into memory that is there.
fn streamed_in_place() -> Result<(), Broken> {
    let mut room = [0xff; 12];
    let is_written = to_writer(room.as_mut_slice(), &("streaming", Some(5u8))).is_ok();
    if is_written && room.as_slice() == b"\x82\x69streaming\x05".as_slice() {
        return Ok(());
    }
    Err(Broken::new(
        "to_writer",
        "other bytes are written into memory that is there",
    ))
}
