//! Rows of numbers, flags and floats, each read by three calls. They take no memory: they are read
//! as ever where each allocation is refused.
use crate::debug_text::Pieces;
use crate::read::{Calls, Left, Row, Told, reads, says, told};
use crate::tally::{Broken, Tally};
use cbor4ii::serde::{Deserialize, Deserializer};
use cbor4ii_items::decode::Decode;
use cbor4ii_items::types::{F16, F32, F64};
use cbor4ii_rw::read::Source;
use cbor4ii_vectors::table;
use std::alloc::Global;

/// An item of such a type, by its decoder.
struct Decoded;

impl Calls for Decoded {
    fn call<S: Source>(name: &str, alloc: Global, reader: &mut S, text: Pieces<'_>) -> Told<S> {
        match name {
            "u8" => says(u8::decode(alloc, reader), text),
            "u16" => says(u16::decode(alloc, reader), text),
            "u32" => says(u32::decode(alloc, reader), text),
            "u64" => says(u64::decode(alloc, reader), text),
            "u128" => says(u128::decode(alloc, reader), text),
            "i8" => says(i8::decode(alloc, reader), text),
            "i16" => says(i16::decode(alloc, reader), text),
            "i32" => says(i32::decode(alloc, reader), text),
            "i64" => says(i64::decode(alloc, reader), text),
            "i128" => says(i128::decode(alloc, reader), text),
            "bool" => says(bool::decode(alloc, reader), text),
            "F16" => says(F16::decode(alloc, reader), text),
            "F32" => says(F32::decode(alloc, reader), text),
            "F64" => says(F64::decode(alloc, reader), text),
            _ => Ok(false),
        }
    }
}

/// A typed value of such a type.
struct Typed;

impl Calls for Typed {
    fn call<S: Source>(name: &str, alloc: Global, reader: &mut S, text: Pieces<'_>) -> Told<S> {
        let de = &mut Deserializer::new(reader);
        match name {
            "typed u8" => told(u8::deserialize(alloc, de), text),
            "typed u16" => told(u16::deserialize(alloc, de), text),
            "typed u32" => told(u32::deserialize(alloc, de), text),
            "typed u64" => told(u64::deserialize(alloc, de), text),
            "typed u128" => told(u128::deserialize(alloc, de), text),
            "typed i8" => told(i8::deserialize(alloc, de), text),
            "typed i16" => told(i16::deserialize(alloc, de), text),
            "typed i32" => told(i32::deserialize(alloc, de), text),
            "typed i64" => told(i64::deserialize(alloc, de), text),
            "typed i128" => told(i128::deserialize(alloc, de), text),
            "typed bool" => told(bool::deserialize(alloc, de), text),
            "typed F16" => told(F16::deserialize(alloc, de), text),
            "typed F32" => told(F32::deserialize(alloc, de), text),
            "typed F64" => told(F64::deserialize(alloc, de), text),
            _ => Ok(false),
        }
    }
}

/// A value of such a type, by the call of its name.
struct Named;

impl Calls for Named {
    fn call<S: Source>(name: &str, alloc: Global, reader: &mut S, text: Pieces<'_>) -> Told<S> {
        let mut de = Deserializer::new(reader);
        match name {
            "deserialize_u8" => told(de.deserialize_u8(alloc), text),
            "deserialize_u16" => told(de.deserialize_u16(alloc), text),
            "deserialize_u32" => told(de.deserialize_u32(alloc), text),
            "deserialize_u64" => told(de.deserialize_u64(alloc), text),
            "deserialize_u128" => told(de.deserialize_u128(alloc), text),
            "deserialize_i8" => told(de.deserialize_i8(alloc), text),
            "deserialize_i16" => told(de.deserialize_i16(alloc), text),
            "deserialize_i32" => told(de.deserialize_i32(alloc), text),
            "deserialize_i64" => told(de.deserialize_i64(alloc), text),
            "deserialize_i128" => told(de.deserialize_i128(alloc), text),
            "deserialize_bool" => told(de.deserialize_bool(alloc), text),
            "deserialize_f16" => told(de.deserialize_f16(alloc), text),
            "deserialize_f32" => told(de.deserialize_f32(alloc), text),
            "deserialize_f64" => told(de.deserialize_f64(alloc), text),
            _ => Ok(false),
        }
    }
}

/// A row of three names, one for each call, and then as `Row`.
type NumberRow = (
    [&'static str; 3],
    &'static [u8],
    &'static str,
    &'static [u8],
);

const NUMBERS: &[NumberRow] = table! {
    (["u8", "typed u8", "deserialize_u8"], b"\x18\x64\x00", "100", b"\x00"),
    (["u16", "typed u16", "deserialize_u16"], b"\x19\x03\xe8\x00", "1000", b"\x00"),
    (["u32", "typed u32", "deserialize_u32"], b"\x1a\x00\x0f\x42\x40\x00", "1000000", b"\x00"),
    (["u64", "typed u64", "deserialize_u64"], b"\x1b\x00\x00\x00\xe8\xd4\xa5\x10\x00\x00",
        "1000000000000", b"\x00"),
    (["u128", "typed u128", "deserialize_u128"], b"\xc2\x49\x01\x00\x00\x00\x00\x00\x00\x00\x00",
        "18446744073709551616", b""),
    (["i8", "typed i8", "deserialize_i8"], b"\x38\x63\x00", "-100", b"\x00"),
    (["i16", "typed i16", "deserialize_i16"], b"\x39\x03\xe7\x00", "-1000", b"\x00"),
    (["i32", "typed i32", "deserialize_i32"], DEBT, "-1000000", b"\x00"),
    (["i64", "typed i64", "deserialize_i64"], LESS, "-1000000000000", b"\x00"),
    (["i128", "typed i128", "deserialize_i128"], b"\xc3\x49\x01\x00\x00\x00\x00\x00\x00\x00\x00",
        "-18446744073709551617", b""),
    (["bool", "typed bool", "deserialize_bool"], b"\xf5\x00", "true", b"\x00"),
    (["F16", "typed F16", "deserialize_f16"], b"\xf9\x3c\x00\x00", "F16(15360)", b"\x00"),
    (["F32", "typed F32", "deserialize_f32"], b"\xfa\x47\xc3\x50\x00\x00", "F32(1203982336)",
        b"\x00"),
    (["F64", "typed F64", "deserialize_f64"], b"\xfb\x3f\xf1\x99\x99\x99\x99\x99\x9a\x00",
        ELEVEN_TENTHS, b"\x00"),
};

// -10^6 and -10^12, with a zero after each.
pub const DEBT: &[u8] = b"\x3a\x00\x0f\x42\x3f\x00";

pub const LESS: &[u8] = b"\x3b\x00\x00\x00\xe8\xd4\xa5\x0f\xff\x00";

const ELEVEN_TENTHS: &str = "F64(4607632778762754458)";

// Other encodings, by the decoder alone.
const OTHERS: &[Row] = table! {
    ("u8", b"\x05\x00", "5", b"\x00"),
    ("u128", b"\xd8\x02\x43\x00\x00\x05\x00", "5", b"\x00"),
    ("bool", b"\xf4\x00", "false", b"\x00"),
};

/// Numbers, flags and floats.
pub fn numbers(tally: &mut Tally) -> Result<(), Broken> {
    for &([decoded, typed, named], bytes, text, rest) in NUMBERS {
        reads::<Decoded>(tally, Left::Never, &[(decoded, bytes, text, rest)])?;
        reads::<Typed>(tally, Left::Never, &[(typed, bytes, text, rest)])?;
        reads::<Named>(tally, Left::Never, &[(named, bytes, text, rest)])?;
    }
    reads::<Decoded>(tally, Left::Never, OTHERS)
}
