//! The items that rows read, each by its own decoder.
use crate::rows::{
    ByName, Called, CalledWithin, Calls, ReadBy, Trial, WriteTo, calls_rows, calls_rows_within,
    says, writes_in,
};
use cbor4ii_items::decode::{Decodable, Decode};
use cbor4ii_items::encode::Encode;
use cbor4ii_items::types::{
    Bytes, F16, F32, F64, Map, Maybe, Negative, Nothing, Simple, Tag, UncheckedStr,
};
use cbor4ii_rw::error::{DecodeError, EncodeError};
use cbor4ii_rw::read::Source;
use cbor4ii_rw::slice_reader::SliceReader;
use cbor4ii_rw::write::Write;
use std::alloc::Global;
use std::fmt::Debug;
use std::test::Fail;

/// A function of the item of this name.
macro_rules! of_item {
    ($name:expr, $call:ident($($arg:expr),*), $other:expr) => {
        match $name {
            "u8" => $call::<u8, _>($($arg),*),
            "u16" => $call::<u16, _>($($arg),*),
            "u32" => $call::<u32, _>($($arg),*),
            "u64" => $call::<u64, _>($($arg),*),
            "u128" => $call::<u128, _>($($arg),*),
            "i8" => $call::<i8, _>($($arg),*),
            "i16" => $call::<i16, _>($($arg),*),
            "i32" => $call::<i32, _>($($arg),*),
            "i64" => $call::<i64, _>($($arg),*),
            "i128" => $call::<i128, _>($($arg),*),
            "Negative<u8>" => $call::<Negative<u8>, _>($($arg),*),
            "Negative<u16>" => $call::<Negative<u16>, _>($($arg),*),
            "Negative<u32>" => $call::<Negative<u32>, _>($($arg),*),
            "Negative<u64>" => $call::<Negative<u64>, _>($($arg),*),
            "bool" => $call::<bool, _>($($arg),*),
            "Simple" => $call::<Simple, _>($($arg),*),
            "F16" => $call::<F16, _>($($arg),*),
            "F32" => $call::<F32, _>($($arg),*),
            "F64" => $call::<F64, _>($($arg),*),
            "Nothing" => $call::<Nothing, _>($($arg),*),
            "Box<u8>" => $call::<Box<u8>, _>($($arg),*),
            "Option<u8>" => $call::<Option<u8>, _>($($arg),*),
            "Option<F32>" => $call::<Option<F32>, _>($($arg),*),
            "Option<Nothing>" => $call::<Option<Nothing>, _>($($arg),*),
            "Maybe<Option<String>>" => $call::<Maybe<Option<String>>, _>($($arg),*),
            "Maybe<Option<Vec<String>>>" => $call::<Maybe<Option<Vec<String>>>, _>($($arg),*),
            "Tag<u8>" => $call::<Tag<u8>, _>($($arg),*),
            "Tag<u32>" => $call::<Tag<u32>, _>($($arg),*),
            "Tag<F64>" => $call::<Tag<F64>, _>($($arg),*),
            "Tag<String>" => $call::<Tag<String>, _>($($arg),*),
            "Tag<Bytes<Vec<u8>>>" => $call::<Tag<Bytes<Vec<u8>>>, _>($($arg),*),
            "Tag<Vec<u8>>" => $call::<Tag<Vec<u8>>, _>($($arg),*),
            "String" => $call::<String, _>($($arg),*),
            "Bytes<Vec<u8>>" => $call::<Bytes<Vec<u8>>, _>($($arg),*),
            "UncheckedStr<Vec<u8>>" => $call::<UncheckedStr<Vec<u8>>, _>($($arg),*),
            "Vec<u8>" => $call::<Vec<u8>, _>($($arg),*),
            "Vec<u64>" => $call::<Vec<u64>, _>($($arg),*),
            "Vec<bool>" => $call::<Vec<bool>, _>($($arg),*),
            "Vec<String>" => $call::<Vec<String>, _>($($arg),*),
            "Vec<Vec<u8>>" => $call::<Vec<Vec<u8>>, _>($($arg),*),
            "Vec<Option<u8>>" => $call::<Vec<Option<u8>>, _>($($arg),*),
            "Vec<Nothing>" => $call::<Vec<Nothing>, _>($($arg),*),
            "Vec<Option<Nothing>>" => $call::<Vec<Option<Nothing>>, _>($($arg),*),
            "Map<Vec<(u8, u8)>>" => $call::<Map<Vec<(u8, u8)>>, _>($($arg),*),
            "Map<Vec<(String, String)>>" => $call::<Map<Vec<(String, String)>>, _>($($arg),*),
            "Map<Vec<(Nothing, Nothing)>>" => $call::<Map<Vec<(Nothing, Nothing)>>, _>($($arg),*),
            "Map<Vec<(Nothing, u8)>>" => $call::<Map<Vec<(Nothing, u8)>>, _>($($arg),*),
            _ => $other,
        }
    };
}

/// The items of these names.
pub struct Items;

impl Calls for Items {
    fn call<S: Source>(
        name: &str,
        alloc: Global,
        reader: &mut S,
    ) -> Result<String, DecodeError<S::Error>> {
        let no_item = Err(DecodeError::Custom {
            name: "no item",
            num: 0,
        });
        of_item!(name, decoded(alloc, reader), no_item)
    }
}

fn decoded<T: Decodable + Decode<S> + Debug + Drop, S: Source>(
    alloc: Global,
    reader: &mut S,
) -> Result<String, DecodeError<S::Error>> {
    says(alloc, T::decode(alloc, reader))
}

/// Reads the item of each row over each reader.
pub fn reads_items(alloc: Global, rows: &[Called]) -> Result<(), Fail> {
    calls_rows::<Items>(alloc, rows)
}

/// Reads the item of each row within its limit, over each reader that counts its steps.
pub fn reads_items_within(alloc: Global, rows: &[CalledWithin]) -> Result<(), Fail> {
    calls_rows_within::<Items>(alloc, rows)
}

/// Reads the item of this name over each reader, in one piece and with no fault: it is this value.
pub fn reads_built<T: Debug + Drop>(
    alloc: Global,
    name: &str,
    bytes: &'static [u8],
    value: T,
) -> Result<(), Fail> {
    let how = ByName::<Items>::new(alloc, name)?;
    let want = Ok(format!(in alloc; "{value:?}")?);
    Trial::new(&how, alloc, bytes, &want, b"").over_each_whole()
}

/// Reads the bytes of each row as the item of this name, which has this `Debug` text, and writes
/// what was read in so many pushes: it has to be the row's bytes.
pub fn items_go_both_ways(
    alloc: Global,
    name: &'static str,
    rows: &[(&'static [u8], &'static str, usize)],
) -> Result<(), Fail> {
    for &(bytes, text, pushes) in rows {
        reads_items(alloc, &[(name, bytes, Ok(text), b"")])?;
        writes_in(alloc, &Again { name, alloc, bytes }, bytes, pushes)?;
    }
    Ok(())
}

/// What is read from bytes as the item of this name, to be written again.
#[derive(Drop)]
struct Again {
    name: &'static str,
    alloc: Global,
    bytes: &'static [u8],
}

impl WriteTo for Again {
    fn write_to<W: Write>(&self, writer: &mut W) -> Result<(), EncodeError<W::Error>> {
        match self.name {
            "u64" => written::<u64, W>(self, writer),
            "u128" => written::<u128, W>(self, writer),
            "i64" => written::<i64, W>(self, writer),
            "i128" => written::<i128, W>(self, writer),
            "Negative<u16>" => written::<Negative<u16>, W>(self, writer),
            "Negative<u32>" => written::<Negative<u32>, W>(self, writer),
            "Simple" => written::<Simple, W>(self, writer),
            "F16" => written::<F16, W>(self, writer),
            "F32" => written::<F32, W>(self, writer),
            "F64" => written::<F64, W>(self, writer),
            "Box<u8>" => written::<Box<u8>, W>(self, writer),
            "Tag<u32>" => written::<Tag<u32>, W>(self, writer),
            "Tag<F64>" => written::<Tag<F64>, W>(self, writer),
            "Tag<String>" => written::<Tag<String>, W>(self, writer),
            "String" => written::<String, W>(self, writer),
            "Vec<u8>" => written::<Vec<u8>, W>(self, writer),
            _ => Ok(()),
        }
    }
}

/// Writes what is read of the bytes. Where they are rejected nothing is written.
fn written<T, W>(again: &Again, writer: &mut W) -> Result<(), EncodeError<W::Error>>
where
    T: Decodable + Decode<SliceReader<'static>> + Encode + Drop,
    W: Write,
{
    match T::decode(again.alloc, &mut SliceReader::new(again.bytes)) {
        Ok(value) => value.encode(writer),
        Err(_) => Ok(()),
    }
}

/// What may be borrowed from the input, by its own decoder.
#[derive(Debug, PartialEq, Drop)]
pub struct Lent<T>(pub T);

impl<S: Source, T: Decodable + Decode<S>> ReadBy<S> for Lent<T> {
    fn read_by(alloc: Global, reader: &mut S) -> Result<Lent<T>, DecodeError<S::Error>> {
        Ok(Lent(T::decode(alloc, reader)?))
    }
}
