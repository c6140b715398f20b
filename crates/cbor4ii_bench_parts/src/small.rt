//! One small item a call, read as a value out of a slice: null, an integer, a tagged integer, and
//! an array or a map of at most one integer or pair.
use cbor4ii_bench_kit::digest::Digest;
use cbor4ii_bench_kit::fault::Fault;
use cbor4ii_bench_kit::noise::Noise;
use cbor4ii_items::decode::Decode;
use cbor4ii_items::encode::Encode;
use cbor4ii_items::types::{Array, Map, Null, Tag};
use cbor4ii_rw::buf_writer::BufWriter;
use cbor4ii_rw::error::{DecodeError, Never};
use cbor4ii_rw::slice_reader::SliceReader;
use cbor4ii_tree::Value;
use std::alloc::Global;

/// So many items are in a round.
const ITEMS: u64 = 1000;

/// So often each is read.
const PASSES: u64 = 8;

/// One round of items.
pub fn round(alloc: Global, noise: &mut Noise, digest: &mut Digest) -> Result<(), Fault> {
    let mut writer = BufWriter::new(Vec::new(alloc));
    for _ in 0..ITEMS {
        small(&mut writer, noise)?;
    }
    for _ in 0..PASSES {
        read_each(alloc, writer.buffer(), digest)?;
    }
    Ok(())
}

fn small(writer: &mut BufWriter, noise: &mut Noise) -> Result<(), Fault> {
    match noise.below(6) {
        0 => Null.encode(writer)?,
        1 => noise.below(1000).encode(writer)?,
        2 => Tag(1, noise.below(1000)).encode(writer)?,
        3 => Array::bounded(0, writer)?,
        4 => {
            Array::bounded(1, writer)?;
            noise.below(24).encode(writer)?;
        }
        _ => {
            Map::bounded(1, writer)?;
            noise.below(24).encode(writer)?;
            noise.below(24).encode(writer)?;
        }
    }
    Ok(())
}

fn read_each(alloc: Global, input: &[u8], digest: &mut Digest) -> Result<(), Fault> {
    let mut reader = SliceReader::new(input);
    for _ in 0..ITEMS {
        let value = read_one(alloc, &mut reader)?;
        join(&value, digest);
    }
    digest.number(reader.remaining().len() as u64);
    Ok(())
}

// One call, in a frame of its own. `texts` reads values too, so `decode` has several callers.
#[inline(never)]
fn read_one(alloc: Global, reader: &mut SliceReader<'_>) -> Result<Value, DecodeError<Never>> {
    Value::decode(alloc, reader)
}

// Joins the kind of the value, and its number or its length.
#[inline(always)]
fn join(value: &Value, digest: &mut Digest) {
    let (kind, number) = match value {
        Value::Integer(n) => (0, u64::try_from(*n).unwrap_or(0)),
        Value::Tag(number, _) => (1, *number),
        Value::Array(parts) => (2, parts.len() as u64),
        Value::Map(pairs) => (3, pairs.len() as u64),
        _ => (4, 0),
    };
    digest.number(kind);
    digest.number(number);
}
