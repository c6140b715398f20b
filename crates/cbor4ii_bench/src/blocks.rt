//! Blocks of a store that names each by its bytes: a block is read canonically, looked into, and
//! written again. Some are not canonical and are rejected.
use crate::shapes;
use cbor4ii_bench_kit::digest::Digest;
use cbor4ii_bench_kit::fault::Fault;
use cbor4ii_bench_kit::noise::Noise;
use cbor4ii_items::decode::Decode;
use cbor4ii_items::encode::Encode;
use cbor4ii_items::types::{Array, Bytes, Tag};
use cbor4ii_rw::buf_writer::BufWriter;
use cbor4ii_rw::error::DecodeError;
use cbor4ii_rw::slice_reader::SliceReader;
use cbor4ii_tree::{Canonical, Value};
use std::alloc::Global;

/// So many blocks are in a round.
const BLOCKS: u64 = 100;

/// One round of blocks.
pub fn round(alloc: Global, noise: &mut Noise, digest: &mut Digest) -> Result<(), Fault> {
    let mut block = BufWriter::new(Vec::new(alloc));
    let mut again = BufWriter::new(Vec::new(alloc));
    for _ in 0..BLOCKS {
        block.clear();
        again.clear();
        put_block(&mut block, noise)?;
        read_block(alloc, block.buffer(), &mut again, digest)?;
    }
    Ok(())
}

// A block: links to others, records, and content. One of 16 has an indefinite-length array in it.
fn put_block(writer: &mut BufWriter, noise: &mut Noise) -> Result<(), Fault> {
    Array::bounded(4, writer)?;
    let links = noise.below(8);
    Array::bounded(links as usize, writer)?;
    for _ in 0..links {
        let link = shapes::part(noise, 32, 33);
        Tag(42, Bytes(link)).encode(writer)?;
    }
    noise.any().encode(writer)?;
    let records = 1 + noise.below(8);
    Array::bounded(records as usize, writer)?;
    for i in 0..records {
        shapes::record(writer, noise, i)?;
    }
    if noise.below(16) == 0 {
        Array::unbounded(writer)?;
        Array::end(writer)?;
    } else {
        Bytes(shapes::part(noise, 16, 400)).encode(writer)?;
    }
    Ok(())
}

// Reads a canonical block and writes it again. One that is rejected is read as any value.
fn read_block(
    alloc: Global,
    block: &[u8],
    again: &mut BufWriter,
    digest: &mut Digest,
) -> Result<(), Fault> {
    let value = match Canonical::decode(alloc, &mut SliceReader::new(block)) {
        Ok(Canonical(value)) => value,
        Err(DecodeError::NotCanonical { .. }) => {
            digest.number(1);
            Value::decode(alloc, &mut SliceReader::new(block))?
        }
        Err(error) => return Err(error.into()),
    };
    if let Value::Array(parts) = &value {
        digest.number(parts.len() as u64);
    }
    value.encode(again)?;
    digest.bytes(again.buffer());
    Ok(())
}
