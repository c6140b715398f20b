//! Items that a caller writes in parts.
use cbor4ii_items::encode::Encode;
use cbor4ii_items::types::{Array, Bytes, Map, UncheckedStr};
use cbor4ii_rw::error::EncodeError;
use cbor4ii_rw::write::Write;
use cbor4ii_vectors::items::Items;
use cbor4ii_vectors::rows::{WriteTo, writes_pushes};
use std::alloc::Global;
use std::test::Fail;

/// What a caller writes who writes an item in parts.
#[derive(Clone, Copy)]
pub enum Part {
    Bytes(&'static [u8]),
    BytesHead(usize),
    IndefiniteBytes,
    BytesEnd,
    Text(&'static str),
    TextHead(usize),
    IndefiniteText,
    TextEnd,
    Array(usize),
    IndefiniteArray,
    ArrayEnd,
    Map(usize),
    IndefiniteMap,
    MapEnd,
    Number(i8),
    Flag(bool),
}

/// An item in its parts.
#[derive(Clone, Copy)]
pub struct Parts<'a>(pub &'a [Part]);

impl WriteTo for Parts<'_> {
    fn write_to<W: Write>(&self, writer: &mut W) -> Result<(), EncodeError<W::Error>> {
        for part in self.0 {
            part.write_to(writer)?;
        }
        Ok(())
    }
}

impl WriteTo for Part {
    fn write_to<W: Write>(&self, writer: &mut W) -> Result<(), EncodeError<W::Error>> {
        match *self {
            Part::Bytes(content) => Bytes(content).encode(writer),
            Part::BytesHead(len) => Bytes::bounded(len, writer),
            Part::IndefiniteBytes => Bytes::unbounded(writer),
            Part::BytesEnd => Bytes::end(writer),
            Part::Text(text) => text.encode(writer),
            Part::TextHead(len) => UncheckedStr::bounded(len, writer),
            Part::IndefiniteText => UncheckedStr::unbounded(writer),
            Part::TextEnd => UncheckedStr::end(writer),
            Part::Array(len) => Array::bounded(len, writer),
            Part::IndefiniteArray => Array::unbounded(writer),
            Part::ArrayEnd => Array::end(writer),
            Part::Map(len) => Map::bounded(len, writer),
            Part::IndefiniteMap => Map::unbounded(writer),
            Part::MapEnd => Map::end(writer),
            Part::Number(number) => number.encode(writer),
            Part::Flag(flag) => flag.encode(writer),
        }
    }
}

/// Writes each item in its parts, in these pushes: heads, contents of strings, and ends.
pub fn writes_rows_in_pushes(alloc: Global, rows: &[(Parts<'_>, &[&[u8]])]) -> Result<(), Fail> {
    for (parts, pushes) in rows {
        writes_pushes(alloc, parts, pushes)?;
    }
    Ok(())
}
