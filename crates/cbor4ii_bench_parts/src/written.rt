//! Typed values that are written to a buffered stream: records, vectors of integers, floats,
//! options and pairs, and an ordered map.
use crate::record::Record;
use crate::words::{ASCII, text};
use cbor4ii::serde::{Serialize, to_writer};
use cbor4ii_bench_kit::digest::Digest;
use cbor4ii_bench_kit::fault::Fault;
use cbor4ii_bench_kit::noise::Noise;
use cbor4ii_bench_kit::sink::Sink;
use cbor4ii_items::types::F64;
use std::alloc::Global;
use std::collections::BTreeMap;
use std::io::{BufWriter, Write};

/// So many values are in a vector.
const VALUES: u64 = 400;

/// So many records, pairs and keys there are.
const RECORDS: u64 = 100;

/// So often a vector or a map is written.
const PASSES: u64 = 8;

/// One table of each kind.
pub fn round(alloc: Global, noise: &mut Noise, digest: &mut Digest) -> Result<(), Fault> {
    write_each(alloc, &records(alloc, noise)?, digest)?;
    write_each(alloc, &small_integers(alloc, noise)?, digest)?;
    write_each(alloc, &signed_integers(alloc, noise)?, digest)?;
    write_each(alloc, &floats(alloc, noise)?, digest)?;
    write_each(alloc, &options(alloc, noise)?, digest)?;
    write_each(alloc, &pairs(alloc, noise)?, digest)?;
    write_each(alloc, &ordered_map(alloc, noise)?, digest)
}

fn write_each<T: Serialize>(alloc: Global, value: &T, digest: &mut Digest) -> Result<(), Fault> {
    let mut writer = BufWriter::new(alloc, Sink::new(digest))?;
    for _ in 0..PASSES {
        writer = to_writer(writer, value)?;
    }
    writer.flush()?;
    Ok(())
}

fn records(alloc: Global, noise: &mut Noise) -> Result<Vec<Record>, Fault> {
    let mut records = Vec::new(alloc);
    for _ in 0..RECORDS {
        let record = Record {
            time: noise.uneven(),
            place: text(alloc, noise, &ASCII, 3)?,
            good: noise.below(8) != 0,
            warmth: signed(noise),
            damp: F64(noise.any()),
            before: option(noise),
        };
        records.push(record)?;
    }
    Ok(records)
}

fn small_integers(alloc: Global, noise: &mut Noise) -> Result<Vec<u64>, Fault> {
    let mut values = Vec::new(alloc);
    for _ in 0..VALUES {
        values.push(noise.below(24))?;
    }
    Ok(values)
}

fn signed_integers(alloc: Global, noise: &mut Noise) -> Result<Vec<i64>, Fault> {
    let mut values = Vec::new(alloc);
    for _ in 0..VALUES {
        values.push(signed(noise))?;
    }
    Ok(values)
}

fn floats(alloc: Global, noise: &mut Noise) -> Result<Vec<F64>, Fault> {
    let mut values = Vec::new(alloc);
    for _ in 0..VALUES {
        values.push(F64(noise.any()))?;
    }
    Ok(values)
}

fn options(alloc: Global, noise: &mut Noise) -> Result<Vec<Option<u64>>, Fault> {
    let mut values = Vec::new(alloc);
    for _ in 0..VALUES {
        values.push(option(noise))?;
    }
    Ok(values)
}

fn pairs(alloc: Global, noise: &mut Noise) -> Result<Vec<(u64, String)>, Fault> {
    let mut pairs = Vec::new(alloc);
    for _ in 0..RECORDS {
        pairs.push((noise.uneven(), text(alloc, noise, &ASCII, 4)?))?;
    }
    Ok(pairs)
}

fn ordered_map(alloc: Global, noise: &mut Noise) -> Result<BTreeMap<String, u64>, Fault> {
    let mut map = BTreeMap::new(alloc);
    for _ in 0..RECORDS {
        let key = text(alloc, noise, &ASCII, 4)?;
        let _before = map.insert(key, noise.uneven())?;
    }
    Ok(map)
}

fn signed(noise: &mut Noise) -> i64 {
    let number = (noise.uneven() >> 1) as i64;
    if noise.below(2) == 0 {
        number
    } else {
        -1 - number
    }
}

fn option(noise: &mut Noise) -> Option<u64> {
    if noise.below(3) == 0 {
        None
    } else {
        Some(noise.uneven())
    }
}
