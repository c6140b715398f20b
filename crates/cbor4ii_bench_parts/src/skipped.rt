//! Items that are skipped, out of a slice and out of a buffered stream: records of small fields,
//! records of floats, items of indefinite length, and items in one another.
use cbor4ii_bench_kit::digest::Digest;
use cbor4ii_bench_kit::fault::Fault;
use cbor4ii_bench_kit::noise::Noise;
use cbor4ii_items::decode::Decode;
use cbor4ii_items::encode::Encode;
use cbor4ii_items::types::{Array, F32, F64, Map, Nothing, Null, Tag};
use cbor4ii_rw::ask::look;
use cbor4ii_rw::buf_writer::BufWriter;
use cbor4ii_rw::io_reader::IoReader;
use cbor4ii_rw::slice_reader::SliceReader;
use cbor4ii_tree::IgnoredAny;
use std::alloc::Global;
use std::io::BufReader;

/// So many items of each kind are in a round.
const EACH: u64 = 200;

/// All items of a round.
const ITEMS: u64 = 4 * EACH;

/// So often the items are skipped, from a slice and from a stream.
const PASSES: u64 = 8;

/// One round of items.
pub fn round(alloc: Global, noise: &mut Noise, digest: &mut Digest) -> Result<(), Fault> {
    let mut writer = BufWriter::new(Vec::new(alloc));
    for _ in 0..EACH {
        small_fields(&mut writer, noise)?;
        floats(&mut writer, noise)?;
        indefinite(&mut writer, noise)?;
        nested(&mut writer, noise)?;
    }
    for _ in 0..PASSES {
        skip_in_slice(alloc, writer.buffer(), digest)?;
        skip_in_stream(alloc, writer.buffer(), digest)?;
    }
    Ok(())
}

fn small_fields(writer: &mut BufWriter, noise: &mut Noise) -> Result<(), Fault> {
    Map::bounded(6, writer)?;
    "id".encode(writer)?;
    noise.below(100_000).encode(writer)?;
    "open".encode(writer)?;
    (noise.below(2) == 0).encode(writer)?;
    "kind".encode(writer)?;
    noise.below(24).encode(writer)?;
    "place".encode(writer)?;
    "second floor".encode(writer)?;
    "since".encode(writer)?;
    noise.uneven().encode(writer)?;
    "until".encode(writer)?;
    Null.encode(writer)?;
    Ok(())
}

fn floats(writer: &mut BufWriter, noise: &mut Noise) -> Result<(), Fault> {
    Map::bounded(4, writer)?;
    "lat".encode(writer)?;
    F64(noise.any()).encode(writer)?;
    "lon".encode(writer)?;
    F64(noise.any()).encode(writer)?;
    "alt".encode(writer)?;
    F32((noise.any() >> 32) as u32).encode(writer)?;
    "speeds".encode(writer)?;
    Array::bounded(8, writer)?;
    for _ in 0..8 {
        F32((noise.any() >> 32) as u32).encode(writer)?;
    }
    Ok(())
}

// A map of indefinite length, of small integers and arrays of indefinite length.
fn indefinite(writer: &mut BufWriter, noise: &mut Noise) -> Result<(), Fault> {
    Map::unbounded(writer)?;
    for i in 0..noise.below(6) {
        i.encode(writer)?;
        Array::unbounded(writer)?;
        for _ in 0..noise.below(12) {
            noise.uneven().encode(writer)?;
        }
        Array::end(writer)?;
    }
    Map::end(writer)?;
    Ok(())
}

// Arrays, maps and tags in one another, up to 24 deep, with an integer beside each.
fn nested(writer: &mut BufWriter, noise: &mut Noise) -> Result<(), Fault> {
    for i in 0..noise.below(24) {
        match noise.below(3) {
            0 => Array::bounded(2, writer)?,
            1 => Map::bounded(1, writer)?,
            _ => {
                Tag(noise.below(300), Nothing).encode(writer)?;
                Array::bounded(2, writer)?;
            }
        }
        i.encode(writer)?;
    }
    noise.any().encode(writer)?;
    Ok(())
}

// Skips each item of `input`, and joins how many bytes are left behind it.
fn skip_in_slice(alloc: Global, input: &[u8], digest: &mut Digest) -> Result<(), Fault> {
    let mut reader = SliceReader::new(input);
    for _ in 0..ITEMS {
        let _skipped = IgnoredAny::decode(alloc, &mut reader)?;
        digest.number(reader.remaining().len() as u64);
    }
    Ok(())
}

// Skips each item of a stream of `input`, which has to end behind the last one.
fn skip_in_stream(alloc: Global, input: &[u8], digest: &mut Digest) -> Result<(), Fault> {
    let mut reader = IoReader::new(BufReader::new(alloc, input)?);
    for _ in 0..ITEMS {
        let _skipped = IgnoredAny::decode(alloc, &mut reader)?;
    }
    let mut failure = None;
    match look(&mut reader, 1, &mut failure) {
        Some([]) => {}
        Some(_) => return Err(Fault("the stream has bytes left")),
        None => return Err(Fault("a stream failed")),
    }
    digest.number(ITEMS);
    Ok(())
}
