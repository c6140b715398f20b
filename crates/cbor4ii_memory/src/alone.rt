//! One item that is read, with what is left of it. `.ci/memory` counts its requests for memory and
//! their bytes, and refuses each of them.
use crate::made::read_as;
use crate::of_slice::read_of_slice;
use crate::read::as_core;
use cbor4ii::serde::Deserializer;
use cbor4ii_rw::error::DecodeError;
use cbor4ii_rw::io_reader::IoReader;
use cbor4ii_rw::slice_reader::SliceReader;
use cbor4ii_vectors::streams::FailingStream;
use std::alloc::Global;
use std::fmt::{Debug, InlineText};

/// How an item is read.
pub struct Alone {
    /// The error, where it is not read.
    pub error: Option<InlineText<128>>,
    /// How many bytes are left.
    pub left: usize,
}

/// Reads the item that follows these words and a colon, if it is to be read alone: out of a slice,
/// or of a stream that shows one byte at a time.
pub fn read_alone(alloc: Global, input: &[u8]) -> Option<Alone> {
    let mut parts = input.splitn(2, |byte| *byte == b':');
    let words = str::from_utf8(parts.next()?).ok()?;
    let item = parts.next()?;
    if let Some(way) = words.strip_suffix(" of a stream") {
        return of_stream(alloc, way, item);
    }
    match words.strip_suffix(" of a slice") {
        Some(way) => of_slice(alloc, way, item),
        None => read_of_slice(alloc, words, item),
    }
}

// A text is borrowed where the reader lends it. What no other reader has is for a slice alone.
fn of_slice(alloc: Global, way: &str, item: &[u8]) -> Option<Alone> {
    if way == "str" {
        let mut de = Deserializer::new(SliceReader::new(item));
        let got = as_core(de.deserialize_str(alloc));
        return Some(reported(&got, de.into_inner().remaining().len()));
    }
    let mut reader = SliceReader::new(item);
    match read_as(alloc, way, &mut reader) {
        Some(got) => Some(reported(&got, reader.remaining().len())),
        None => read_of_slice(alloc, way, item),
    }
}

fn of_stream(alloc: Global, way: &str, item: &[u8]) -> Option<Alone> {
    let mut reader = IoReader::new(FailingStream::new(item, 1, usize::MAX));
    if way == "str" {
        let mut de = Deserializer::new(reader);
        let got = as_core(de.deserialize_str(alloc));
        return Some(reported(&got, left_of_stream(&de.into_inner(), item)));
    }
    let got = read_as(alloc, way, &mut reader)?;
    Some(reported(&got, left_of_stream(&reader, item)))
}

fn left_of_stream(reader: &IoReader<FailingStream<'_>>, item: &[u8]) -> usize {
    item.len().saturating_sub(reader.taken() as usize)
}

/// The answer of a call, and how many bytes it leaves.
pub fn reported<T, E: Debug>(got: &Result<T, DecodeError<E>>, left: usize) -> Alone {
    let error = match got {
        Ok(_) => None,
        Err(error) => Some(InlineText::of(error)),
    };
    Alone { error, left }
}
