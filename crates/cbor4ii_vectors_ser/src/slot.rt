//! A head is one push, and a string's content another, whether the writer's error is small or
//! large: calls of a serializer, and how many bytes each push has.
ghost use Rattle.std.specs.Prelude.{false};
ghost use Rattle.cbor4ii_vectors.specs.Reports.{failing_output, pushed_output};

use crate::by_pieces::ByPieces;
use crate::pieces::letters;
use crate::typed::Put;
use cbor4ii_items::types::{Bytes, F16, F32, F64};
use cbor4ii_rw::write::Write;
use cbor4ii_ser::error::EncodeError;
use cbor4ii_ser::serializer::Serializer;
use cbor4ii_tree::Value;
use cbor4ii_vectors::writers::{FailingWriter, PushLengths};
use std::alloc::Global;
use std::collections::BTreeMap;
use std::test::Fail;

/// An error with the room of sixteen references: heads go another way to such a writer.
#[derive(Clone, Copy, Debug, PartialEq, Eq)]
struct LargeFailure([u64; 16]);

/// A `PushLengths` with a large error.
#[derive(Drop)]
struct LargePushes(PushLengths);

impl Write for LargePushes {
    type Error = LargeFailure;

    ghost atomic = { false };

    ghost view = { λ writer. pushed_output writer.0 };

    fn push(&mut self, input: &[u8]) -> Result<(), LargeFailure> {
        match self.0.push(input) {
            Ok(()) => Ok(()),
            Err(_) => Err(LargeFailure([0; 16])),
        }
    }
}

/// A `FailingWriter` with a large error.
#[derive(Drop)]
struct LargeWriter(FailingWriter);

impl Write for LargeWriter {
    type Error = LargeFailure;

    ghost atomic = { false };

    ghost view = { λ writer. failing_output writer.0 };

    fn push(&mut self, input: &[u8]) -> Result<(), LargeFailure> {
        match self.0.push(input) {
            Ok(()) => Ok(()),
            Err(_) => Err(LargeFailure([0; 16])),
        }
    }
}

// Compares how many bytes the pushes have.
fn are_lengths(found: &[usize], wanted: &[usize]) -> Result<(), Fail> {
    if found == wanted {
        return Ok(());
    }
    Err(Fail::new(format_args!("pushes of {found:?} bytes in the place of {wanted:?}")))
}

/// The calls push so many bytes each time, to a writer of either kind.
pub fn pushes<T: Put>(alloc: Global, calls: &T, lengths: &[usize]) -> Result<(), Fail> {
    let mut small = Serializer::new(PushLengths::new(alloc));
    calls.put(&mut small)?;
    are_lengths(small.into_inner().lengths(), lengths)?;
    let mut large = Serializer::new(LargePushes(PushLengths::new(alloc)));
    calls.put(&mut large)?;
    are_lengths(large.into_inner().0.lengths(), lengths)
}

/// The calls write these bytes, to a writer of either kind.
pub fn writes_alike<T: Put>(alloc: Global, calls: &T, bytes: &[u8]) -> Result<(), Fail> {
    let mut small = Serializer::new(FailingWriter::new(Vec::new(alloc), usize::MAX));
    calls.put(&mut small)?;
    are_bytes(small.into_inner().buffer(), bytes)?;
    let large = LargeWriter(FailingWriter::new(Vec::new(alloc), usize::MAX));
    let mut large = Serializer::new(large);
    calls.put(&mut large)?;
    are_bytes(large.into_inner().0.buffer(), bytes)
}

fn are_bytes(found: &[u8], wanted: &[u8]) -> Result<(), Fail> {
    if found == wanted {
        return Ok(());
    }
    Err(Fail::new(format_args!("{found:?} in the place of {wanted:?}")))
}

#[test]
fn unsigned_integers(rt: HostRuntime) -> Result<(), Fail> {
    let alloc = rt.alloc();
    pushes(alloc, &23u8, &[1])?;
    pushes(alloc, &24u8, &[2])?;
    pushes(alloc, &255u16, &[2])?;
    pushes(alloc, &256u16, &[3])?;
    pushes(alloc, &65535u32, &[3])?;
    pushes(alloc, &65536u32, &[5])?;
    pushes(alloc, &0xffff_ffffu64, &[5])?;
    pushes(alloc, &0x1_0000_0000u64, &[9])?;
    pushes(alloc, &u64::MAX, &[9])
}

#[test]
fn negative_integers(rt: HostRuntime) -> Result<(), Fail> {
    let alloc = rt.alloc();
    pushes(alloc, &-24i8, &[1])?;
    pushes(alloc, &-25i8, &[2])?;
    pushes(alloc, &-256i16, &[2])?;
    pushes(alloc, &-257i16, &[3])?;
    pushes(alloc, &-65536i32, &[3])?;
    pushes(alloc, &-65537i32, &[5])?;
    pushes(alloc, &-0x1_0000_0000i64, &[5])?;
    pushes(alloc, &-0x1_0000_0001i64, &[9])?;
    pushes(alloc, &i64::MIN, &[9])
}

// A bignum is a tag's head and a byte string.
#[test]
fn great_integers(rt: HostRuntime) -> Result<(), Fail> {
    let alloc = rt.alloc();
    pushes(alloc, &23u128, &[1])?;
    pushes(alloc, &-25i128, &[2])?;
    pushes(alloc, &0xffff_ffff_ffff_ffffu128, &[9])?;
    pushes(alloc, &0x1_0000_0000_0000_0000u128, &[1, 1, 9])?;
    pushes(alloc, &i128::MIN, &[1, 1, 16])
}

#[test]
fn simple_values_and_floats(rt: HostRuntime) -> Result<(), Fail> {
    let alloc = rt.alloc();
    pushes(alloc, &true, &[1])?;
    pushes(alloc, &None::<u8>, &[1])?;
    pushes(alloc, &(), &[1])?;
    pushes(alloc, &F16(0), &[3])?;
    pushes(alloc, &F32(0), &[5])?;
    pushes(alloc, &F64(0), &[9])
}

// A text and a byte string of so many letters, with a head of so many bytes.
fn strings(alloc: Global, count: usize, head: usize) -> Result<(), Fail> {
    let text = letters(alloc, count)?;
    pushes(alloc, &text.as_str(), &[head, count])?;
    pushes(alloc, &Bytes(text.as_str().as_bytes()), &[head, count])
}

#[test]
fn texts_and_byte_strings(rt: HostRuntime) -> Result<(), Fail> {
    let alloc = rt.alloc();
    pushes(alloc, &'c', &[1, 1])?;
    strings(alloc, 0, 1)?;
    strings(alloc, 23, 1)?;
    strings(alloc, 24, 2)?;
    strings(alloc, 255, 2)?;
    strings(alloc, 256, 3)?;
    strings(alloc, 65535, 3)?;
    strings(alloc, 65536, 5)
}

// A text in pieces of so many letters each.
fn pieces(alloc: Global, first: usize, second: usize, lengths: &[usize]) -> Result<(), Fail> {
    let text = (letters(alloc, first)?, letters(alloc, second)?);
    pushes(alloc, &ByPieces(text), lengths)
}

#[test]
fn texts_in_pieces(rt: HostRuntime) -> Result<(), Fail> {
    let alloc = rt.alloc();
    pieces(alloc, 0, 0, &[1, 0])?;
    pieces(alloc, 11, 12, &[1, 23])?;
    pieces(alloc, 12, 12, &[2, 24])?;
    pieces(alloc, 200, 56, &[1, 2, 200, 2, 56, 1])?;
    pieces(alloc, 0, 256, &[1, 3, 256, 1])?;
    pieces(alloc, 1, 65536, &[1, 1, 1, 5, 65536, 1])
}

/// What stands before so many parts of an accessor.
#[derive(Drop)]
struct Head(&'static str, usize);

impl Put for Head {
    fn put<W: Write>(&self, ser: &mut Serializer<W>) -> Result<(), EncodeError<W::Error>> {
        match self.0 {
            "array" => drop(ser.serialize_seq(Some(self.1))?),
            "map" => drop(ser.serialize_map(Some(self.1))?),
            "tuple" => drop(ser.serialize_tuple(self.1)?),
            "struct" => drop(ser.serialize_struct("Struct", self.1)?),
            "tuple variant" => drop(ser.serialize_tuple_variant("Enum", 0, "Tuple", self.1)?),
            "struct variant" => drop(ser.serialize_struct_variant("Enum", 0, "Struct", self.1)?),
            "any array" => drop(ser.serialize_seq(None)?),
            _ => drop(ser.serialize_map(None)?),
        }
        Ok(())
    }
}

// What begins an array and a map of so many parts, by each accessor, with a head of so many bytes.
fn accessors(alloc: Global, count: usize, head: usize) -> Result<(), Fail> {
    pushes(alloc, &Head("array", count), &[head])?;
    pushes(alloc, &Head("map", count), &[head])?;
    pushes(alloc, &Head("tuple", count), &[head])?;
    pushes(alloc, &Head("struct", count), &[head])?;
    pushes(alloc, &Head("tuple variant", count), &[1, 1, 5, head])?;
    pushes(alloc, &Head("struct variant", count), &[1, 1, 6, head])
}

#[test]
fn heads_of_accessors(rt: HostRuntime) -> Result<(), Fail> {
    let alloc = rt.alloc();
    accessors(alloc, 23, 1)?;
    accessors(alloc, 24, 2)?;
    accessors(alloc, 256, 3)?;
    accessors(alloc, 65536, 5)?;
    accessors(alloc, 0x1_0000_0000, 9)?;
    pushes(alloc, &Head("any array", 0), &[1])?;
    pushes(alloc, &Head("any map", 0), &[1])
}

/// Calls by their names, and a variant of one value, whose name it is.
#[derive(Drop)]
struct Named(&'static str);

impl Put for Named {
    fn put<W: Write>(&self, ser: &mut Serializer<W>) -> Result<(), EncodeError<W::Error>> {
        match self.0 {
            // A map of any number of pairs, with one, to its end.
            "a map" => {
                let mut entries = ser.serialize_map(None)?;
                entries.serialize_entry(&"a", &24u8)?;
                entries.end()
            }
            // Variants without a value, of two items, and of two fields.
            "variants" => {
                ser.serialize_unit_variant("Enum", 0, "Unit")?;
                ser.serialize_variant_of_2_items("Enum", 1, "Two", &1u8, &256u16)?;
                ser.serialize_variant_of_2_fields("Enum", 2, "Named", "a", &1u8, "bc", &24u8)
            }
            "two fields" => {
                ser.serialize_2_fields("Struct", "a", &256u16, "aaaaaaaaaaaaaaaaaaaaaaaa", &"b")
            }
            name => ser.serialize_newtype_variant("Enum", 0, name, &24u8),
        }
    }
}

// An array of so many empty arrays, after a head of these pushes.
fn parts(alloc: Global, count: usize, head: &[usize]) -> Result<(), Fail> {
    let mut items = Vec::new(alloc);
    let mut lengths = Vec::from_slice(alloc, head)?;
    for _ in 0..count {
        items.push(())?;
        lengths.push(1)?;
    }
    pushes(alloc, &items, &lengths)
}

#[test]
fn arrays_and_maps(rt: HostRuntime) -> Result<(), Fail> {
    let alloc = rt.alloc();
    pushes(alloc, &(1u8, 24u8), &[1, 1, 2])?;
    pushes(alloc, &(1u8, "ab", 256u16), &[1, 1, 1, 2, 3])?;
    pushes(alloc, &Named("a map"), &[1, 1, 1, 2, 1])?;
    parts(alloc, 23, &[1])?;
    parts(alloc, 24, &[2])?;
    parts(alloc, 256, &[3])?;
    let mut map = BTreeMap::new(alloc);
    map.insert("key", 24u8)?;
    pushes(alloc, &map, &[1, 1, 3, 2])
}

const VARIANTS: &[usize] = &[1, 4, 1, 1, 3, 1, 1, 3, 1, 1, 5, 1, 1, 1, 1, 1, 2, 2];

#[test]
fn variants_by_name(rt: HostRuntime) -> Result<(), Fail> {
    let alloc = rt.alloc();
    pushes(alloc, &Named("New"), &[1, 1, 3, 2])?;
    pushes(alloc, &Named("aaaaaaaaaaaaaaaaaaaaaaaa"), &[1, 2, 24, 2])?;
    pushes(alloc, &Named("variants"), VARIANTS)
}

#[test]
fn structs(rt: HostRuntime) -> Result<(), Fail> {
    pushes(rt.alloc(), &Named("two fields"), &[1, 1, 1, 3, 2, 24, 1, 1])
}

#[test]
fn whole_items(rt: HostRuntime) -> Result<(), Fail> {
    let alloc = rt.alloc();
    pushes(alloc, &Value::Integer(24), &[2])?;
    pushes(alloc, &Value::Integer(256), &[3])?;
    pushes(alloc, &Value::Integer(-65537), &[5])?;
    pushes(alloc, &Value::Text(letters(alloc, 24)?), &[2, 24])
}
