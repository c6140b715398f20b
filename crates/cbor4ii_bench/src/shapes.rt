//! Items of the shapes that jobs read, written by the encoders of `cbor4ii_items`.
use cbor4ii_bench_kit::fault::Fault;
use cbor4ii_bench_kit::noise::Noise;
use cbor4ii_items::encode::Encode;
use cbor4ii_items::types::{Array, F16, F32, F64, Map, Null, UncheckedStr};
use cbor4ii_rw::buf_writer::BufWriter;

/// What texts are cut out of: words of ASCII.
const WORDS: &[u8] = b"request accepted from upstream cache miss on shard seven, retry in forty \
milliseconds; user session expired while the payment was pending and the ledger entry stayed open \
until the nightly job closed it. GET /v2/orders/export?format=cbor HTTP/1.1 200 OK, 1843 bytes in \
12 ms. worker pool grew to thirty-two threads after the queue passed its high mark, then shrank \
again. certificate renewed for storage.example.org, valid for ninety days. replica three lags by \
one hundred and four records; snapshot taken, compaction scheduled, checksum matches the manifest.";

/// A text of at least `least` bytes and fewer than `most`.
pub fn text(
    writer: &mut BufWriter,
    noise: &mut Noise,
    least: usize,
    most: u32,
) -> Result<(), Fault> {
    UncheckedStr(part(noise, least, most)).encode(writer)?;
    Ok(())
}

/// A part of the words of at least `least` bytes and fewer than `most`.
pub fn part(noise: &mut Noise, least: usize, most: u32) -> &'static [u8] {
    let length = least
        .saturating_add(noise.below(most) as usize)
        .min(most as usize);
    let start = noise.below(400) as usize;
    WORDS
        .get(start..)
        .unwrap_or(WORDS)
        .get(..length)
        .unwrap_or(b"words")
}

/// A record of a log: a map of six fields, one of them a map.
pub fn record(writer: &mut BufWriter, noise: &mut Noise, ts: u64) -> Result<(), Fault> {
    Map::bounded(6, writer)?;
    "ts".encode(writer)?;
    ts.encode(writer)?;
    "msg".encode(writer)?;
    text(writer, noise, 12, 120)?;
    "ok".encode(writer)?;
    (noise.below(8) != 0).encode(writer)?;
    "tags".encode(writer)?;
    let tags = noise.below(4);
    Array::bounded(tags as usize, writer)?;
    for _ in 0..tags {
        text(writer, noise, 3, 12)?;
    }
    "ctx".encode(writer)?;
    context(writer, noise)?;
    "parent".encode(writer)?;
    if noise.below(3) == 0 {
        Null.encode(writer)?;
    } else {
        noise.uneven().encode(writer)?;
    }
    Ok(())
}

// Where a record comes from: a map of five fields.
fn context(writer: &mut BufWriter, noise: &mut Noise) -> Result<(), Fault> {
    Map::bounded(5, writer)?;
    "user".encode(writer)?;
    text(writer, noise, 4, 16)?;
    "path".encode(writer)?;
    text(writer, noise, 8, 60)?;
    "status".encode(writer)?;
    (noise.below(600) as u16).encode(writer)?;
    "args".encode(writer)?;
    let args = noise.below(6);
    Array::bounded(args as usize, writer)?;
    for _ in 0..args {
        signed(writer, noise)?;
    }
    "admin".encode(writer)?;
    (noise.below(2) == 0).encode(writer)?;
    Ok(())
}

fn signed(writer: &mut BufWriter, noise: &mut Noise) -> Result<(), Fault> {
    let number = (noise.uneven() >> 1) as i64;
    if noise.below(2) == 0 {
        number.encode(writer)?;
    } else {
        (-1 - number).encode(writer)?;
    }
    Ok(())
}

/// A sample of sensors: an array of its time, its sensor, and what that measured.
pub fn sample(writer: &mut BufWriter, noise: &mut Noise, ts: u64) -> Result<(), Fault> {
    let values = 4 + noise.below(12);
    Array::bounded(2 + values as usize, writer)?;
    ts.encode(writer)?;
    noise.below(20_000).encode(writer)?;
    for _ in 0..values {
        match noise.below(8) {
            0 => F64(noise.any()).encode(writer)?,
            1 => F32((noise.any() >> 32) as u32).encode(writer)?,
            2 => F16((noise.any() >> 48) as u16).encode(writer)?,
            3 => signed(writer, noise)?,
            4 => noise.uneven().encode(writer)?,
            _ => noise.below(24).encode(writer)?,
        }
    }
    Ok(())
}
