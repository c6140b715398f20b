//! Items of awkward shapes: of indefinite length, in chunks, with heads longer than needed, deep in
//! one another. Each is skipped where it stands, kept as its bytes, and read out of a stream.
use crate::ingest::rewrite;
use crate::shapes;
use cbor4ii_bench_kit::digest::Digest;
use cbor4ii_bench_kit::fault::Fault;
use cbor4ii_bench_kit::noise::Noise;
use cbor4ii_items::decode::Decode;
use cbor4ii_items::encode::Encode;
use cbor4ii_items::types::{Array, Map, Nothing, Tag, UncheckedStr};
use cbor4ii_rw::buf_writer::BufWriter;
use cbor4ii_rw::slice_reader::SliceReader;
use cbor4ii_rw::write::Write;
use cbor4ii_tree::{IgnoredAny, RawValue};
use std::alloc::Global;

/// So many items are in a stream.
const ITEMS: u64 = 300;

/// One stream of items.
pub fn round(alloc: Global, noise: &mut Noise, digest: &mut Digest) -> Result<(), Fault> {
    let mut writer = BufWriter::new(Vec::new(alloc));
    for _ in 0..ITEMS {
        match noise.below(5) {
            0 => indefinite_map(&mut writer, noise)?,
            1 => chunks(&mut writer, noise)?,
            2 => long_heads(&mut writer, noise)?,
            3 => deep_arrays(&mut writer, noise)?,
            _ => deep_maps(&mut writer, noise)?,
        }
    }
    skip_each(alloc, writer.buffer(), digest)?;
    keep_each(alloc, writer.buffer(), digest)?;
    rewrite(alloc, writer.buffer(), digest)
}

// A map of indefinite length, of records and arrays of indefinite length.
fn indefinite_map(writer: &mut BufWriter, noise: &mut Noise) -> Result<(), Fault> {
    Map::unbounded(writer)?;
    for i in 0..noise.below(6) {
        i.encode(writer)?;
        if noise.below(2) == 0 {
            shapes::record(writer, noise, i)?;
        } else {
            Array::unbounded(writer)?;
            for _ in 0..noise.below(20) {
                noise.uneven().encode(writer)?;
            }
            Array::end(writer)?;
        }
    }
    Map::end(writer)?;
    Ok(())
}

// A text in chunks.
fn chunks(writer: &mut BufWriter, noise: &mut Noise) -> Result<(), Fault> {
    UncheckedStr::unbounded(writer)?;
    for _ in 0..noise.below(40) {
        shapes::text(writer, noise, 1, 24)?;
    }
    UncheckedStr::end(writer)?;
    Ok(())
}

// An array of integers whose heads are longer than needed.
fn long_heads(writer: &mut BufWriter, noise: &mut Noise) -> Result<(), Fault> {
    let count = noise.below(60);
    Array::bounded(count as usize, writer)?;
    for _ in 0..count {
        let [_, _, _, _, e, f, g, h] = noise.any().to_be_bytes();
        if noise.below(2) == 0 {
            pushed(writer, &[0x1b, 0, 0, 0, 0, e, f, g, h])?;
        } else {
            pushed(writer, &[0x3a, 0, 0, g, h])?;
        }
    }
    Ok(())
}

// Arrays in one another, up to 100 deep, with an integer beside each.
fn deep_arrays(writer: &mut BufWriter, noise: &mut Noise) -> Result<(), Fault> {
    for _ in 0..noise.below(100) {
        Array::bounded(2, writer)?;
        noise.below(1000).encode(writer)?;
    }
    noise.any().encode(writer)?;
    Ok(())
}

// Maps in one another with tags between them, up to 60 deep.
fn deep_maps(writer: &mut BufWriter, noise: &mut Noise) -> Result<(), Fault> {
    for _ in 0..noise.below(60) {
        Map::bounded(1, writer)?;
        shapes::text(writer, noise, 1, 8)?;
        if noise.below(4) == 0 {
            Tag(noise.below(300), Nothing).encode(writer)?;
        }
    }
    shapes::sample(writer, noise, 7)
}

fn pushed(writer: &mut BufWriter, bytes: &[u8]) -> Result<(), Fault> {
    match writer.push(bytes) {
        Ok(()) => Ok(()),
        Err(error) => Err(error.into()),
    }
}

fn skip_each(alloc: Global, input: &[u8], digest: &mut Digest) -> Result<(), Fault> {
    let mut reader = SliceReader::new(input);
    let mut left = input.len();
    while left > 0 {
        let _skipped = IgnoredAny::decode(alloc, &mut reader)?;
        let now = reader.remaining().len();
        if now >= left {
            return Err(Fault("nothing was skipped"));
        }
        digest.number((left - now) as u64);
        left = now;
    }
    Ok(())
}

// Keeps each item of `input` as its bytes, and joins those.
fn keep_each(alloc: Global, input: &[u8], digest: &mut Digest) -> Result<(), Fault> {
    let mut reader = SliceReader::new(input);
    let mut left = input.len();
    while left > 0 {
        let kept = RawValue::decode(alloc, &mut reader)?;
        digest.bytes(kept.as_bytes());
        let now = reader.remaining().len();
        if now >= left {
            return Err(Fault("nothing was kept"));
        }
        left = now;
    }
    Ok(())
}
