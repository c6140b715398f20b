//! Columns of a table as typed values: integers, floats, pairs and an ordered map.
use crate::shapes;
use cbor4ii::serde::{Deserialize, Serialize, from_slice, to_vec};
use cbor4ii_bench_kit::digest::Digest;
use cbor4ii_bench_kit::fault::Fault;
use cbor4ii_bench_kit::noise::Noise;
use cbor4ii_items::encode::Encode;
use cbor4ii_items::types::{Array, F64, Map};
use cbor4ii_rw::buf_writer::BufWriter;
use cbor4ii_rw::slice_reader::SliceReader;
use std::alloc::Global;
use std::collections::BTreeMap;

/// A column has so many values.
const VALUES: usize = 2000;

/// The ordered map has at most so many keys.
const KEYS: usize = 500;

const REJECTED: Fault = Fault("a column is rejected");

/// One table.
pub fn round(alloc: Global, noise: &mut Noise, digest: &mut Digest) -> Result<(), Fault> {
    let mut column = BufWriter::new(Vec::new(alloc));
    Array::bounded(VALUES, &mut column)?;
    for _ in 0..VALUES {
        noise.below(24).encode(&mut column)?;
    }
    again::<Vec<u64>>(alloc, column.buffer(), digest).ok_or(REJECTED)?;
    column.clear();
    Array::bounded(VALUES, &mut column)?;
    for _ in 0..VALUES {
        let number = (noise.uneven() >> 1) as i64;
        (number - (1 << 40)).encode(&mut column)?;
    }
    again::<Vec<i64>>(alloc, column.buffer(), digest).ok_or(REJECTED)?;
    column.clear();
    Array::bounded(VALUES, &mut column)?;
    for _ in 0..VALUES {
        F64(noise.any()).encode(&mut column)?;
    }
    again::<Vec<F64>>(alloc, column.buffer(), digest).ok_or(REJECTED)?;
    column.clear();
    Array::bounded(KEYS, &mut column)?;
    for _ in 0..KEYS {
        Array::bounded(2, &mut column)?;
        noise.uneven().encode(&mut column)?;
        shapes::text(&mut column, noise, 4, 40)?;
    }
    again::<Vec<(u64, String)>>(alloc, column.buffer(), digest).ok_or(REJECTED)?;
    column.clear();
    Map::bounded(KEYS, &mut column)?;
    for _ in 0..KEYS {
        shapes::text(&mut column, noise, 4, 24)?;
        noise.uneven().encode(&mut column)?;
    }
    again::<BTreeMap<String, u64>>(alloc, column.buffer(), digest).ok_or(REJECTED)
}

// Reads the column as this type, and writes it again. None where either is rejected.
fn again<'a, T: Deserialize<SliceReader<'a>> + Serialize + Drop>(
    alloc: Global,
    column: &'a [u8],
    digest: &mut Digest,
) -> Option<()> {
    let value: T = from_slice(alloc, column).ok()?;
    digest.bytes(&to_vec(Vec::new(alloc), &value).ok()?);
    Some(())
}
