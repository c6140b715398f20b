//! Rows of items that are written, each by its own encoder, and of whole items.
use crate::tally::{Broken, Tally};
use crate::values::value;
use cbor4ii_items::decode::Decode;
use cbor4ii_items::encode::Encode;
use cbor4ii_items::types::{
    Array, Bytes, F16, F32, F64, Map, Maybe, Negative, Nothing, Null, Simple, Tag, UncheckedStr,
    Undefined,
};
use cbor4ii_rw::error::{DecodeError, EncodeError};
use cbor4ii_rw::slice_reader::SliceReader;
use cbor4ii_rw::write::Write;
use cbor4ii_tree::{BoxedRawValue, RawValue};
use cbor4ii_vectors::rows::WriteTo;
use cbor4ii_vectors::table;

/// Items, each by its own encoder.
pub fn items(tally: &mut Tally) -> Result<(), Broken> {
    numbers(tally)?;
    leaves(tally)?;
    containers(tally)?;
    for &(head, bytes) in HEADS {
        tally.writes(head, &Head(head), bytes)?;
    }
    owned(tally)?;
    values(tally)
}

fn numbers(tally: &mut Tally) -> Result<(), Broken> {
    tally.writes("u8", &100u8, b"\x18\x64")?;
    tally.writes("u16", &1_000u16, b"\x19\x03\xe8")?;
    tally.writes("u32", &1_000_000u32, b"\x1a\x00\x0f\x42\x40")?;
    tally.writes("u64", &1_000_000u64, b"\x1a\x00\x0f\x42\x40")?;
    tally.writes("u128", &(1u128 << 64), TWO_TO_THE_64)?;
    tally.writes("i8", &-100i8, b"\x38\x63")?;
    tally.writes("i16", &-1_000i16, b"\x39\x03\xe7")?;
    tally.writes("i32", &-1_000_000i32, b"\x3a\x00\x0f\x42\x3f")?;
    tally.writes("i64", &-1_000_000i64, b"\x3a\x00\x0f\x42\x3f")?;
    tally.writes("i128", &-1i128, b"\x20")?;
    tally.writes("Negative of u8", &Negative(99u8), b"\x38\x63")?;
    tally.writes("Negative of u16", &Negative(999u16), b"\x39\x03\xe7")?;
    tally.writes("Negative of u32", &Negative(999_999u32), MILLION)?;
    tally.writes("Negative of u64", &Negative(999_999u64), MILLION)
}

const TWO_TO_THE_64: &[u8] = b"\xc2\x49\x01\x00\x00\x00\x00\x00\x00\x00\x00";

const MILLION: &[u8] = b"\x3a\x00\x0f\x42\x3f";

// A simple value, a float, a string, or no item at all.
fn leaves(tally: &mut Tally) -> Result<(), Broken> {
    tally.writes("bool", &true, b"\xf5")?;
    tally.writes("Simple", &Simple(255), b"\xf8\xff")?;
    tally.writes("Null", &Null, b"\xf6")?;
    tally.writes("Undefined", &Undefined, b"\xf7")?;
    tally.writes("F16", &F16(0x3c00), b"\xf9\x3c\x00")?;
    tally.writes("F32", &F32(0x47c3_5000), b"\xfa\x47\xc3\x50\x00")?;
    tally.writes("F64", &F64(0), b"\xfb\x00\x00\x00\x00\x00\x00\x00\x00")?;
    tally.writes("str", &"streaming", b"\x69streaming")?;
    tally.writes("Bytes", &Bytes(b"\x01\x02".as_slice()), b"\x42\x01\x02")?;
    tally.writes(
        "UncheckedStr",
        &UncheckedStr(b"\xff".as_slice()),
        b"\x61\xff",
    )?;
    tally.writes("Nothing", &Nothing, b"")
}

// Items that hold others.
fn containers(tally: &mut Tally) -> Result<(), Broken> {
    let (items, pairs) = ([1_000u16, 2], [(1u8, 500u16)]);
    tally.writes("array", &items.as_slice(), b"\x82\x19\x03\xe8\x02")?;
    tally.writes("map", &Map(pairs.as_slice()), b"\xa1\x01\x19\x01\xf4")?;
    tally.writes("tag", &Tag(24, "a"), b"\xd8\x18\x61a")?;
    tally.writes("Maybe", &Maybe(&Some(500u16)), b"\x81\x19\x01\xf4")?;
    tally.writes("Maybe", &Maybe(&None::<u16>), b"\x80")?;
    tally.writes("a reference", &&500u16, b"\x19\x01\xf4")
}

/// A head or a break by itself, by the name of its call.
#[derive(Drop)]
struct Head(&'static str);

impl WriteTo for Head {
    fn write_to<W: Write>(&self, writer: &mut W) -> Result<(), EncodeError<W::Error>> {
        match self.0 {
            "Array::bounded" => Array::bounded(500, writer),
            "Array::unbounded" => Array::unbounded(writer),
            "Array::end" => Array::end(writer),
            "Map::bounded" => Map::bounded(500, writer),
            "Map::unbounded" => Map::unbounded(writer),
            "Map::end" => Map::end(writer),
            "Bytes::bounded" => Bytes::bounded(500, writer),
            "Bytes::unbounded" => Bytes::unbounded(writer),
            "Bytes::end" => Bytes::end(writer),
            "UncheckedStr::bounded" => UncheckedStr::bounded(500, writer),
            "UncheckedStr::unbounded" => UncheckedStr::unbounded(writer),
            "UncheckedStr::end" => UncheckedStr::end(writer),
            _ => Ok(()),
        }
    }
}

const HEADS: &[(&str, &[u8])] = table! {
    ("Array::bounded", b"\x99\x01\xf4"),
    ("Array::unbounded", b"\x9f"),
    ("Array::end", b"\xff"),
    ("Map::bounded", b"\xb9\x01\xf4"),
    ("Map::unbounded", b"\xbf"),
    ("Map::end", b"\xff"),
    ("Bytes::bounded", b"\x59\x01\xf4"),
    ("Bytes::unbounded", b"\x5f"),
    ("Bytes::end", b"\xff"),
    ("UncheckedStr::bounded", b"\x79\x01\xf4"),
    ("UncheckedStr::unbounded", b"\x7f"),
    ("UncheckedStr::end", b"\xff"),
};

// Reads the bytes, and writes what was read.
fn writes_read<T>(
    tally: &mut Tally,
    row: &'static str,
    read: &'static [u8],
    written: &[u8],
) -> Result<(), Broken>
where
    T: Decode<SliceReader<'static>> + Encode + Drop,
{
    match T::decode(tally.alloc(), &mut SliceReader::new(read)) {
        Ok(value) => tally.writes(row, &value, written),
        Err(DecodeError::OutOfMemory) => {
            tally.refuse();
            Ok(())
        }
        Err(_) => Err(Broken::new(row, "it is rejected")),
    }
}

// (_ "strea", "ming"), [["1", "2"]], [1, 2] and 3 after it, and 255.
const CHUNKS: &[u8] = b"\x7f\x65strea\x64ming\xff";

const TEXTS: &[u8] = b"\x81\x82\x611\x612";

const PAIR: &[u8] = b"\x82\x01\x02\x03";

const BOXED: &[u8] = b"\x18\xff";

// Items that are owned, and such as were kept as their bytes.
fn owned(tally: &mut Tally) -> Result<(), Broken> {
    writes_read::<String>(tally, "String", CHUNKS, b"\x69streaming")?;
    writes_read::<Vec<bool>>(tally, "Vec", b"\x9f\xf5\xf4\xff", b"\x82\xf5\xf4")?;
    writes_read::<Box<u8>>(tally, "Box", BOXED, BOXED)?;
    writes_read::<RawValue<'static>>(tally, "RawValue", PAIR, b"\x82\x01\x02")?;
    writes_read::<BoxedRawValue>(tally, "BoxedRawValue", PAIR, b"\x82\x01\x02")?;
    maybe_texts(tally)
}

// [["1", "2"]], read as texts that may be there.
fn maybe_texts(tally: &mut Tally) -> Result<(), Broken> {
    let mut reader = SliceReader::new(TEXTS);
    match <Maybe<Option<Vec<String>>>>::decode(tally.alloc(), &mut reader) {
        Ok(Maybe(texts)) => tally.writes("Maybe of texts", &Maybe(&texts), TEXTS),
        Err(DecodeError::OutOfMemory) => {
            tally.refuse();
            Ok(())
        }
        Err(_) => Err(Broken::new("Maybe of texts", "it is rejected")),
    }
}

// What is read, and what is written of it. The first is {"a": [h'0102', 1(null)]}.
const ENCODINGS: &[(&[u8], &[u8])] = table! {
    (b"\xbf\x61a\x9f\x42\x01\x02\xc1\xf6\xff\xff", b"\xa1\x61a\x82\x42\x01\x02\xc1\xf6"),
    (b"\x5f\x42\x01\x02\x43\x03\x04\x05\xff", b"\x45\x01\x02\x03\x04\x05"),
    (b"\x7f\x65strea\x64ming\xff", b"\x69streaming"),
    (b"\x9f\xff", b"\x80"),
    (b"\x9f\x01\x82\x02\x03\x9f\x04\x05\xff\xff", b"\x83\x01\x82\x02\x03\x82\x04\x05"),
    (b"\x83\x01\x82\x02\x03\x9f\x04\x05\xff", b"\x83\x01\x82\x02\x03\x82\x04\x05"),
    (b"\xbf\x61a\x01\x61b\x9f\x02\x03\xff\xff", b"\xa2\x61a\x01\x61b\x82\x02\x03"),
    (b"\x82\x61a\xbf\x61b\x61c\xff", b"\x82\x61a\xa1\x61b\x61c"),
    (b"\xbf\x63Fun\xf5\x63Amt\x21\xff", b"\xa2\x63Fun\xf5\x63Amt\x21"),
    (b"\x9f\x7f\xff\x61a\xff", b"\x82\x60\x61a"),
    (b"\x82\x7f\xff\x61a", b"\x82\x60\x61a"),
    (b"\xa1\x7f\x61k\xff\x01", b"\xa1\x61k\x01"),
    (b"\x9f\x5f\x41\x01\xff\x41\x02\xff", b"\x82\x41\x01\x41\x02"),
    (b"\xdb\x00\x00\x00\x00\x00\x00\x00\x2a\x00", b"\xd8\x2a\x00"),
    (b"\xa2\x01\x02\x01\x03", b"\xa2\x01\x02\x01\x03"),
    (b"\x9f\xf5\xf4\xff", b"\x82\xf5\xf4"),
    (b"\x81\x82\x611\x612", b"\x81\x82\x611\x612"),
    (b"\x82\x01\x02", b"\x82\x01\x02"),
    (b"\x83\x18\x99\xf6\x18\x33", b"\x83\x18\x99\xf6\x18\x33"),
    (b"\x81\x82\x0a\x1a\x00\x01\x86\x9f", b"\x81\x82\x0a\x1a\x00\x01\x86\x9f"),
};

// Whole items.
fn values(tally: &mut Tally) -> Result<(), Broken> {
    for (read, written) in ENCODINGS {
        if let Some(value) = value(tally, read)? {
            tally.writes("Value", &value, written)?;
        }
    }
    nest(tally)
}

// 127 arrays of one item, one in another, and an empty one inside.
fn nest(tally: &mut Tally) -> Result<(), Broken> {
    let Some(bytes) = tally.joined(&[(b"\x81", 127), (b"\x80", 1)]) else {
        return Ok(());
    };
    match value(tally, &bytes)? {
        Some(value) => tally.writes("nested arrays", &value, &bytes),
        None => Ok(()),
    }
}
