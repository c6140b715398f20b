//! One item of a slice, read in the ways that are for a slice alone: as the whole input, and as
//! bytes that are kept where they stand.
use crate::alone::{Alone, reported};
use crate::read::as_core;
use cbor4ii::serde::{Deserialize, Deserializer, from_slice_whole, from_slice_whole_at};
use cbor4ii_items::decode::Decode;
use cbor4ii_items::whole::{decode_whole, decode_whole_at};
use cbor4ii_rw::error::{DecodeError, ErrorAt, Never, WholeError};
use cbor4ii_rw::slice_reader::SliceReader;
use cbor4ii_tree::{Canonical, NoMemory, PlainRawValue, RawValue, Value};
use std::alloc::Global;

/// Reads the item as these words say, if they do.
pub fn read_of_slice(alloc: Global, words: &str, item: &[u8]) -> Option<Alone> {
    Some(match words {
        "whole" => whole(decode_whole::<&[u8], Value>(alloc, item)),
        "whole at" => whole_at(alloc, item),
        "typed whole" => typed_whole(alloc, item),
        "typed whole at" => typed_whole_at(alloc, item),
        "plain" => whole(PlainRawValue::new(alloc, item)),
        "plain decoded" => plain_decoded(alloc, item),
        "plain typed" => plain_typed(alloc, item),
        "raw to value" => raw_to_value(alloc, item),
        "value from a slice" => whole(Value::from_slice_whole(alloc, item)),
        "canonical from a slice" => whole(Canonical::from_slice_whole(alloc, item)),
        "to vec from a slice" => whole(to_vec(alloc, item)),
        _ => return None,
    })
}

// All of the bytes are to be one item, so that none are left where it is accepted.
fn whole<T: Drop>(got: Result<T, WholeError<DecodeError<Never>>>) -> Alone {
    match got {
        Ok(_) => reported(&Ok::<(), DecodeError<Never>>(()), 0),
        Err(WholeError::Decode(error)) => reported(&Err::<(), _>(error), 0),
        Err(WholeError::Trailing(left)) => reported(&Ok::<(), DecodeError<Never>>(()), left),
    }
}

// The item as a value, written again.
fn to_vec(alloc: Global, item: &[u8]) -> Result<Vec<u8>, WholeError<DecodeError<Never>>> {
    match Value::from_slice_whole(alloc, item)?.to_vec(alloc) {
        Ok(bytes) => Ok(bytes),
        Err(NoMemory) => Err(WholeError::Decode(DecodeError::OutOfMemory)),
    }
}

fn whole_at(alloc: Global, item: &[u8]) -> Alone {
    match decode_whole_at::<&[u8], Value>(alloc, item) {
        Ok(value) => whole(Ok(value)),
        Err(ErrorAt { at, error }) => match error {
            WholeError::Decode(error) => told_at(item, at, Err(error)),
            WholeError::Trailing(_) => told_at(item, at, Ok(())),
        },
    }
}

fn typed_whole_at(alloc: Global, item: &[u8]) -> Alone {
    match from_slice_whole_at::<&[u8], Vec<String>>(alloc, item) {
        Ok(texts) => whole(Ok(texts)),
        Err(ErrorAt { at, error }) => match error {
            WholeError::Decode(error) => told_at(item, at, as_core(Err(error))),
            WholeError::Trailing(_) => told_at(item, at, Ok(())),
        },
    }
}

// Left is what stands from the byte of the error on.
fn told_at(item: &[u8], at: usize, got: Result<(), DecodeError<Never>>) -> Alone {
    reported(&got, item.len().saturating_sub(at))
}

fn typed_whole(alloc: Global, item: &[u8]) -> Alone {
    match from_slice_whole::<&[u8], Vec<String>>(alloc, item) {
        Ok(texts) => whole(Ok(texts)),
        Err(WholeError::Decode(error)) => reported(&as_core(Err::<(), _>(error)), 0),
        Err(WholeError::Trailing(left)) => whole(Err::<(), _>(WholeError::Trailing(left))),
    }
}

fn plain_decoded(alloc: Global, item: &[u8]) -> Alone {
    let mut reader = SliceReader::new(item);
    let got = PlainRawValue::decode(alloc, &mut reader);
    reported(&got, reader.remaining().len())
}

fn plain_typed(alloc: Global, item: &[u8]) -> Alone {
    let mut de = Deserializer::new(SliceReader::new(item));
    let got = as_core(PlainRawValue::deserialize(alloc, &mut de));
    reported(&got, de.into_inner().remaining().len())
}

// The item is taken as it stands, and is then read as a value.
fn raw_to_value(alloc: Global, item: &[u8]) -> Alone {
    let mut reader = SliceReader::new(item);
    let got = value_of_raw(alloc, &mut reader);
    reported(&got, reader.remaining().len())
}

fn value_of_raw(alloc: Global, reader: &mut SliceReader<'_>) -> Result<Value, DecodeError<Never>> {
    let raw = RawValue::decode(alloc, reader)?;
    match raw.to_value(alloc) {
        Ok(value) => Ok(value),
        Err(WholeError::Decode(error)) => Err(error),
        Err(WholeError::Trailing(_)) => Err(DecodeError::Custom {
            name: "bytes follow the item",
            num: 0,
        }),
    }
}
